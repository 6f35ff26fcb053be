// Tasks of one period each, under the highest ceiling.

use crate::answer;
use programs::{InLine, Only, PlanSpace, Task, entered, figures_of};
use std::io;

// A task by its period, cost and deadline.
fn task(period: u32, cost: u32, deadline: u32) -> Task<Only> {
    Task::new(Only(period), cost, deadline)
}

pub(crate) fn try_all(rt: &HostRuntime, space: &mut PlanSpace) -> io::Result<()> {
    try_set(rt, space, &[task(4, 1, 4), task(5, 2, 7), task(20, 5, 20)])?;
    try_set(rt, space, &[task(2, 1, 2), task(4, 2, 4)])?;
    try_set(rt, space, &[task(2, 1, 2), task(3, 2, 3)])?;
    try_set(rt, space, &[task(4, 3, 3)])?;
    try_set(rt, space, &[task(4, 3, 2)])?;
    // 257 is a prime: one frame is longer than the window, and 257 frames are too many.
    try_set(rt, space, &[task(257, 1, 256)])?;
    try_set(rt, space, &[task(256, 1, 255)])?;
    // 1,024 jobs may be planned, and 1,025 may not.
    try_set(rt, space, &[task(1, 1, 1), task(1023, 1, 1023)])?;
    try_set(rt, space, &[task(1, 1, 1), task(1024, 1, 1024)])
}

fn try_set(rt: &HostRuntime, space: &mut PlanSpace, tasks: &[Task<Only>]) -> io::Result<()> {
    print!(rt; "{}: ", InLine(tasks))?;
    let figures = figures_of(rt.alloc(), tasks)?;
    answer::line(rt, space.plan(&entered(tasks), &figures, 1_000_000))
}
