// Reading the plan that stands.

ghost use Rattle.std.specs.Option.{option_map};
ghost use Rattle.run.specs.Account.{Account};
ghost use Rattle.run.specs.Agrees.{Agrees, Carries, StandingRead, period_read, row_read};
ghost use Rattle.run.specs.declared.call.Call.{Call};

use crate::planner::Planner;
use books::Book;
use planning::{Plan, Row};

impl<B: Book> Planner<B> {
    // The plan that stands, if one does.
    pub fn standing(&self) -> Option<&Plan>
        ensures { (a : Account) → Agrees B.Book.means self.now a → StandingRead (B.Book.means self.now.book) a.plan (option_map (λ x. x.now) result) }
    {
        self.place.map(|_| &self.plan)
    }

    // The chosen period of a task; none without a plan, or beyond the last task.
    pub fn period(&self, task: u32) -> Option<u32>
        ensures { Carries B.Book.means self.now self.now (Call.Period task) (period_read result) }
    {
        self.standing()?.period(task)
    }

    // A row of the table; none without a plan, or beyond the last row.
    pub fn row(&self, index: u32) -> Option<Row>
        ensures { Carries B.Book.means self.now self.now (Call.RowAt index) (row_read result) }
    {
        self.standing()?.row(index as usize)
    }
}
