// Entering tasks into books and their figures beside them, with a line for each entry and for each
// refusal.

use planning::Figures;
use programs::{Enter, List, Range};
use std::{fmt, io};

// A task by name, with what it may have and what it costs.
#[derive(Clone, Copy)]
pub struct Named<P> {
    pub name: &'static str,
    pub periods: P,
    pub figures: Figures,
}

// The line of a task that may have every period of a range.
impl fmt::Display for Named<Range> {
    fn fmt<W: fmt::Write>(&self, f: &mut fmt::Formatter<W>) -> fmt::Result {
        let Range { low, high } = self.periods;
        let Figures { cost, deadline } = self.figures;
        write!(f, "range,{},{low},{high},{cost},{deadline}", self.name)
    }
}

// The line of a task that may have the periods of a list.
impl fmt::Display for Named<List> {
    fn fmt<W: fmt::Write>(&self, f: &mut fmt::Formatter<W>) -> fmt::Result {
        let Figures { cost, deadline } = self.figures;
        write!(f, "list,{},{cost},{deadline}", self.name)?;
        for period in self.periods.0 {
            write!(f, ",{period}")?;
        }
        Ok(())
    }
}

// A book of the tasks that are not refused, whose figures are added.
pub(crate) fn entered<P: Enter>(
    rt: &HostRuntime,
    tasks: &[Named<P>],
    figures: &mut Vec<Figures>,
) -> io::Result<P::In>
where
    Named<P>: fmt::Display,
{
    let mut book = P::empty();
    for task in tasks {
        println!(rt; "{task}")?;
        match task.periods.enter(&mut book) {
            Ok(()) => figures.push(task.figures)?,
            Err(fault) => println!(rt; "refused,{fault}")?,
        }
    }
    Ok(book)
}
