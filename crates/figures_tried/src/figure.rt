// What a figure is: the tasks, what is asked of them, and the stored answer.

use programs::{InLine, List, Only, Range, Task};
use std::fmt;

// The periods that a task may have.
#[derive(Clone, Copy)]
pub(crate) enum Periods {
    Only(u32),
    List(&'static [u32]),
    Range(u32, u32),
}

// What is asked: the least hyperperiod with the chosen periods, the numbers of the plan, or the plan
// with its periods and its table. A name and no closure, since a figure is a constant and prints what
// it asks.
#[derive(Clone, Copy)]
pub(crate) enum Asked {
    Hyperperiod,
    Plan,
    Table,
}

#[derive(Clone, Copy)]
pub(crate) struct Figure {
    pub(crate) tasks: &'static [Task<Periods>],
    pub(crate) step: u32,
    pub(crate) ceiling: u32,
    pub(crate) asked: Asked,
    pub(crate) stored: &'static [u8],
}

impl fmt::Display for Periods {
    fn fmt<W: fmt::Write>(&self, f: &mut fmt::Formatter<W>) -> fmt::Result {
        match *self {
            Periods::Only(period) => write!(f, "{}", Only(period)),
            Periods::List(periods) => write!(f, "{}", List(periods)),
            Periods::Range(low, high) => write!(f, "{}", Range { low, high }),
        }
    }
}

impl fmt::Display for Asked {
    fn fmt<W: fmt::Write>(&self, f: &mut fmt::Formatter<W>) -> fmt::Result {
        f.write_str(match *self {
            Asked::Hyperperiod => "hyperperiod",
            Asked::Plan => "plan",
            Asked::Table => "table",
        })
    }
}

impl fmt::Display for Figure {
    fn fmt<W: fmt::Write>(&self, f: &mut fmt::Formatter<W>) -> fmt::Result {
        write!(
            f,
            "{} of {} on a grid of {} up to {}",
            self.asked,
            InLine(self.tasks),
            self.step,
            self.ceiling
        )
    }
}
