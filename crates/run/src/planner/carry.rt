// Calls that are given as values.

ghost use Rattle.run.specs.Agrees.{Carries};

use crate::call::{Answer, Call};
use crate::planner::Planner;
use books::Book;

impl<B: Book> Planner<B> {
    // Carries out a call.
    pub fn carry(&mut self, call: Call) -> Answer
        ensures { Carries B.Book.means self.old self.new call result }
    {
        match call {
            Call::Charge {
                task,
                cost,
                deadline,
            } => self
                .charge(task, cost, deadline)
                .map_or_else(Answer::Refused, |()| Answer::Charged),
            Call::Plan { ceiling } => self
                .plan(ceiling)
                .map_or_else(Answer::Refused, Answer::Planned),
            Call::Rewind => self
                .rewind()
                .map_or_else(Answer::Refused, |()| Answer::Rewound),
            Call::Next => self.next().map_or_else(Answer::Refused, Answer::Came),
            Call::Period { task } => Answer::PeriodIs(self.period(task)),
            Call::RowAt { index } => Answer::RowIs(self.row(index)),
        }
    }
}
