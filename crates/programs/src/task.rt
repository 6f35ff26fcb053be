// Tasks that are planned: their periods with their figures.

ghost use Rattle.std.specs.Prelude.{◌≡◌, map, IfOk};
ghost use Rattle.planning.specs.declared.job.Figures.{Figures};

use crate::enter::Enter;
use books::EntryFault;
use planning::Figures;
use std::alloc::{AllocError, Global};
use std::fmt;

// A task by its periods and its figures, if it has any.
#[derive(Clone, Copy)]
pub struct Task<P> {
    pub periods: P,
    pub figures: Option<Figures>,
}

impl<P> Task<P> {
    // A task with a cost and a deadline.
    pub fn new(periods: P, cost: u32, deadline: u32) -> Task<P>
        ensures { result ≡ record { periods = periods; figures = Some (record { cost = cost; deadline = deadline }) } }
    {
        Task {
            periods,
            figures: Some(Figures { cost, deadline }),
        }
    }

    // A task without figures.
    pub fn bare(periods: P) -> Task<P>
        ensures { result ≡ record { periods = periods; figures = None } }
    {
        Task {
            periods,
            figures: None,
        }
    }
}

impl<P: Enter> Enter for Task<P> {
    type In = P::In;

    ghost questions = { λ task. P.questions task.periods };

    ghost allowed = { λ task. P.allowed task.periods };

    fn enter(&self, book: &mut P::In) -> Result<(), EntryFault> {
        self.periods.enter(book)
    }

    fn empty() -> P::In {
        P::empty()
    }
}

impl<P: fmt::Display> fmt::Display for Task<P> {
    fn fmt<W: fmt::Write>(&self, f: &mut fmt::Formatter<W>) -> fmt::Result {
        match self.figures {
            Some(Figures { cost, deadline }) => write!(f, "({},{cost},{deadline})", self.periods),
            None => write!(f, "({})", self.periods),
        }
    }
}

// Tasks as they are printed in a line, parted by blanks.
#[derive(Clone, Copy)]
pub struct InLine<'a, P>(pub &'a [Task<P>]);

impl<'a, P: fmt::Display> fmt::Display for InLine<'a, P> {
    fn fmt<W: fmt::Write>(&self, f: &mut fmt::Formatter<W>) -> fmt::Result {
        let mut gap = "";
        for task in self.0 {
            write!(f, "{gap}{task}")?;
            gap = " ";
        }
        Ok(())
    }
}

// What the tasks are planned with, task by task.
pub fn figures_of<P>(heap: Global, tasks: &[Task<P>]) -> Result<Vec<Option<Figures>>, AllocError>
    ensures { IfOk result (λ figures. figures.items ≡ map (λ task. task.figures) tasks.now) }
{
    tasks.iter().map(|task| task.figures).collect(heap)
}
