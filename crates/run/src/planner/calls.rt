// The four calls that drive a planner.

ghost use Rattle.std.specs.Prelude.{◌≡◌, IfOk};
ghost use Rattle.run.specs.Account.{empty};
ghost use Rattle.run.specs.Agrees.{Agrees, Carries, charged, planned, rewound, came, upcoming_in};
ghost use Rattle.run.specs.Right.{is_figure as figure_allowed};
ghost use Rattle.run.specs.declared.call.Call.{Call};

use crate::event::Event;
use crate::planner::Planner;
use crate::planner::place::Place;
use crate::refusal::Refusal;
use books::Book;
use planning::{Figures, Plan, Row, Workspace, make_plan};
use std::alloc::{AllocError, Global};

const REPETITIONS: u32 = 1_000_000;

// What a granted plan answers.
#[derive(Clone, Copy, Debug, PartialEq, Eq)]
pub struct Granted {
    pub hyperperiod: u32,
    pub frame_size: u32,
    pub jobs: u32,
    pub rows: u32,
}

// A cost or a deadline is from 1 to 200,000.
fn is_figure(number: u32) -> bool
    ensures { result ≡ figure_allowed number }
{
    (1..=200_000).contains(&number)
}

impl<B: Book> Planner<B> {
    // A planner on a book, with no charges and no plan.
    pub fn new(heap: Global, book: B) -> Result<Planner<B>, AllocError>
    where
        B: Drop,
        ensures book { IfOk result (λ p. p.book ≡ book) }
        ensures agrees { IfOk result (λ p. Agrees B.Book.means p empty) }
    {
        let plan = Plan::none(heap)?;
        let space = Workspace::new(heap)?;
        Ok(Planner {
            book,
            figures: [None; 16],
            plan,
            place: None,
            space,
        })
    }

    // Gives a task its figures and ends the standing plan.
    pub fn charge(&mut self, task: u32, cost: u32, deadline: u32) -> Result<(), Refusal>
        ensures { Carries B.Book.means self.old self.new (Call.Charge task cost deadline) (charged result) }
    {
        if task >= self.book.count() || task >= 16 {
            return Err(Refusal::TaskOutOfRange { task });
        }
        if !is_figure(cost) {
            return Err(Refusal::CostOutOfRange { task });
        }
        if !is_figure(deadline) {
            return Err(Refusal::DeadlineOutOfRange { task });
        }
        self.figures[task as usize] = Some(Figures { cost, deadline });
        self.place = None;
        Ok(())
    }

    // Plans the charged tasks; the run begins at frame 0 of repetition 0.
    pub fn plan(&mut self, ceiling: u32) -> Result<Granted, Refusal>
        ensures { Carries B.Book.means self.old self.new (Call.Plan ceiling) (planned result) }
    {
        make_plan(
            &self.book,
            &self.figures,
            ceiling,
            &mut self.space,
            &mut self.plan,
        )?;
        self.place = Some(Place::START);
        Ok(Granted {
            hyperperiod: self.plan.hyperperiod(),
            frame_size: self.plan.frame_size(),
            jobs: self.plan.jobs(),
            rows: self.plan.row_count(),
        })
    }

    // Goes back to frame 0 of repetition 0.
    pub fn rewind(&mut self) -> Result<(), Refusal>
        ensures { Carries B.Book.means self.old self.new Call.Rewind (rewound result) }
    {
        let place = self.place.as_mut().ok_or(Refusal::NoPlan)?;
        *place = Place::START;
        Ok(())
    }

    // The following event: each row of a frame in table order, then the frame's end.
    pub fn next(&mut self) -> Result<Event, Refusal>
        ensures { Carries B.Book.means self.old self.new Call.Next (came result) }
    {
        let place = self.place.ok_or(Refusal::NoPlan)?;
        if place.repetition >= REPETITIONS {
            return Err(Refusal::Ended);
        }
        match self.upcoming(place) {
            Some(row) => {
                self.place = Some(Place {
                    row: place.row + 1,
                    ..place
                });
                Ok(Event::Slice {
                    repetition: place.repetition,
                    frame: row.frame,
                    task: row.task,
                    job: row.job,
                    length: row.length,
                })
            }
            None => {
                self.place = Some(place.after_frame(self.plan.frames()));
                Ok(Event::FrameEnd {
                    repetition: place.repetition,
                    frame: place.frame,
                })
            }
        }
    }

    // The row that comes next, if it is one of the frame.
    fn upcoming(&self, place: Place) -> Option<Row>
        ensures { result ≡ upcoming_in self.now.plan.rows.items place.frame place.row }
    {
        self.plan
            .row(place.row)
            .filter(|row| row.frame == place.frame)
    }
}
