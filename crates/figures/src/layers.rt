// Ranges and lists, alone, side by side and on a grid.

use crate::answer;
use books::{Grid, SideBySide};
use programs::{InLine, List, PlanSpace, Range, Task, entered, figures_of};
use std::io;

// A task by its lowest and highest period, cost and deadline, as the figures are written down.
fn range(low: u32, high: u32, cost: u32, deadline: u32) -> Task<Range> {
    Task::new(Range { low, high }, cost, deadline)
}

// A task by its periods, cost and deadline, as the figures are written down.
fn list(periods: &'static [u32], cost: u32, deadline: u32) -> Task<List> {
    Task::new(List(periods), cost, deadline)
}

// The runtime goes beside the memory: it is the program's, and only lent.
pub(crate) fn try_all(rt: &HostRuntime, space: &mut PlanSpace) -> io::Result<()> {
    two_ranges(rt, space)?;
    list_beside_range(rt, space)?;
    off_the_grid(rt, space)?;
    example(rt, space)
}

// 24 serves both, and no number up to 23.
fn two_ranges(rt: &HostRuntime, space: &mut PlanSpace) -> io::Result<()> {
    let tasks = [range(10, 12, 1, 12), range(7, 9, 1, 9)];
    println!(rt; "Two ranges: {}", InLine(&tasks))?;
    let book = entered(&tasks);
    let mut figures = figures_of(rt.alloc(), &tasks)?;
    answer::whole(rt, space.plan(&book, &figures, 1_000_000))?;
    print!(rt; "Under a ceiling of 23: ")?;
    answer::line(rt, space.plan(&book, &figures, 23))?;
    print!(rt; "Without figures for task 1: ")?;
    figures.pop();
    answer::line(rt, space.plan(&book, &figures, 1_000_000))
}

fn list_beside_range(rt: &HostRuntime, space: &mut PlanSpace) -> io::Result<()> {
    let first = [list(&[4, 8, 16], 1, 16)];
    let second = [range(10, 12, 1, 12)];
    println!(rt;
        "A list beside a range: {} {}",
        InLine(&first),
        InLine(&second)
    )?;
    let mut figures = figures_of(rt.alloc(), &first)?;
    figures.extend_from_slice(&figures_of(rt.alloc(), &second)?)?;
    let book = SideBySide::new(entered(&first), entered(&second));
    answer::whole(rt, space.plan(&book, &figures, 1_000_000))
}

// No multiple of 5 lies in the range.
fn off_the_grid(rt: &HostRuntime, space: &mut PlanSpace) -> io::Result<()> {
    let tasks = [range(7, 9, 1, 9)];
    println!(rt; "A range off the grid of 5: {}", InLine(&tasks))?;
    let figures = figures_of(rt.alloc(), &tasks)?;
    let book = Grid::new(entered(&tasks), 5);
    answer::whole(rt, space.plan(&book, &figures, 1_000_000))
}

fn example(rt: &HostRuntime, space: &mut PlanSpace) -> io::Result<()> {
    let first = [range(4, 5, 1, 4), range(11, 12, 3, 12)];
    let second = [list(&[6, 9], 2, 5)];
    println!(rt;
        "Ranges beside a list, on a grid of 1: {} {}",
        InLine(&first),
        InLine(&second)
    )?;
    let mut figures = figures_of(rt.alloc(), &first)?;
    figures.extend_from_slice(&figures_of(rt.alloc(), &second)?)?;
    let book = Grid::new(SideBySide::new(entered(&first), entered(&second)), 1);
    answer::whole(rt, space.plan(&book, &figures, 1_000_000))
}
