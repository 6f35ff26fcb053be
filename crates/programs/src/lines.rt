use planning::Plan;
use std::fmt;

// The lines of a plan: its own, one for each task's period, one for each row. The printer has the same text
// of a planner, in a lent buffer; this is for programs that plan without one.
#[derive(Clone, Copy)]
pub struct Lines<'a>(pub &'a Plan);

impl<'a> fmt::Display for Lines<'a> {
    fn fmt<W: fmt::Write>(&self, f: &mut fmt::Formatter<W>) -> fmt::Result {
        let Lines(plan) = *self;
        writeln!(f, "plan,{plan}")?;
        write_periods(plan, f)?;
        write_slices(plan, f)
    }
}

fn write_periods<W: fmt::Write>(plan: &Plan, f: &mut fmt::Formatter<W>) -> fmt::Result {
    for (task, period) in plan.periods().iter().enumerate() {
        writeln!(f, "period,{task},{period}")?;
    }
    Ok(())
}

fn write_slices<W: fmt::Write>(plan: &Plan, f: &mut fmt::Formatter<W>) -> fmt::Result {
    for row in plan.rows() {
        writeln!(f, "slice,{row}")?;
    }
    Ok(())
}
