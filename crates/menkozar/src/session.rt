// Calls on a planner, with a line for each event and for each refusal. The runtime goes beside the planner:
// it is the program's, and only lent.

use books::Book;
use planning::Figures;
use run::{Event, Granted, Planner, Refusal};
use std::io;

// Charges the tasks in order, each with its figures; a book has 16 tasks at most.
pub(crate) fn charge_all<B: Book>(
    rt: &HostRuntime,
    planner: &mut Planner<B>,
    figures: &[Figures],
) -> io::Result<()> {
    for (task, figures) in (0..16).zip(figures) {
        tell(rt, planner.charge(task, figures.cost, figures.deadline))?;
    }
    Ok(())
}

// The line of a refusal, where the call got one.
fn tell<T: Drop>(rt: &HostRuntime, outcome: Result<T, Refusal>) -> io::Result<()> {
    if let Err(refusal) = outcome {
        println!(rt; "refused,{refusal}")?;
    }
    Ok(())
}

// Plans, goes through one repetition of the table, and takes the first event of the following one.
pub(crate) fn plan_and_run<B: Book>(
    rt: &HostRuntime,
    planner: &mut Planner<B>,
    ceiling: u32,
) -> io::Result<()> {
    match planner.plan(ceiling) {
        Ok(granted) => {
            println!(rt; "plan,{granted}")?;
            periods(rt, planner)?;
            repetition(rt, planner, granted)?;
            one_more(rt, planner)
        }
        Err(refusal) => println!(rt; "refused,{refusal}"),
    }
}

// Calls that are refused: a charge with no cost, an event after a charge that ended the plan, and a
// plan under no ceiling.
pub(crate) fn refusals<B: Book>(rt: &HostRuntime, planner: &mut Planner<B>) -> io::Result<()> {
    println!(rt; "charge task 1 with a cost of 0")?;
    tell(rt, planner.charge(1, 0, 8))?;
    println!(rt; "charge task 1 with a cost of 1, and ask for an event")?;
    tell(rt, planner.charge(1, 1, 8))?;
    tell(rt, planner.next())?;
    println!(rt; "plan up to 0")?;
    tell(rt, planner.plan(0))?;
    Ok(())
}

// The chosen period of each task.
fn periods<B: Book>(rt: &HostRuntime, planner: &Planner<B>) -> io::Result<()> {
    let Some(plan) = planner.standing() else {
        return Ok(());
    };
    for (task, period) in plan.periods().iter().enumerate() {
        println!(rt; "period,{task},{period}")?;
    }
    Ok(())
}

// As many frames as the hyperperiod has.
fn repetition<B: Book>(
    rt: &HostRuntime,
    planner: &mut Planner<B>,
    granted: Granted,
) -> io::Result<()> {
    let frames = granted.hyperperiod / granted.frame_size.max(1);
    for _ in 0..frames {
        frame(rt, planner, granted.rows)?;
    }
    Ok(())
}

// The slices of a frame, no more than the table has rows, and the frame's end.
fn frame<B: Book>(rt: &HostRuntime, planner: &mut Planner<B>, rows: u32) -> io::Result<()> {
    for _ in 0..=rows {
        match planner.next() {
            Ok(event) => {
                line(rt, event)?;
                if let Event::FrameEnd { .. } = event {
                    return Ok(());
                }
            }
            Err(refusal) => return println!(rt; "refused,{refusal}"),
        }
    }
    Ok(())
}

// The following event, below the number of its repetition.
fn one_more<B: Book>(rt: &HostRuntime, planner: &mut Planner<B>) -> io::Result<()> {
    match planner.next() {
        Ok(event) => {
            println!(rt; "repetition,{}", event.repetition())?;
            line(rt, event)
        }
        Err(refusal) => println!(rt; "refused,{refusal}"),
    }
}

fn line(rt: &HostRuntime, event: Event) -> io::Result<()> {
    match event {
        Event::Slice {
            frame,
            task,
            job,
            length,
            ..
        } => println!(rt; "slice,{frame},{task},{job},{length}"),
        Event::FrameEnd { frame, .. } => println!(rt; "end,{frame}"),
    }
}
