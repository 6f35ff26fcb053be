// Trying a figure.

use crate::figure::{Asked, Figure};
use crate::found;
use crate::shelf::Shelf;
use books::{Grid, ListBook, RangeBook, SideBySide};
use planning::seek;
use programs::{PlanSpace, figures_of};
use std::alloc::{AllocError, Global};
use std::io;
use std::io::Write;

// Lists, ranges and lists again, side by side on a grid.
type FigureBook = Grid<SideBySide<ListBook, SideBySide<RangeBook, ListBook>>>;

// Prints what the figure asks, what is found, and whether that is the stored answer; answers that too.
pub(crate) fn try_figure(
    rt: &HostRuntime,
    figure: &Figure,
    space: &mut PlanSpace,
) -> anyhow::Result<bool> {
    println!(rt; "asked: {figure}")?;
    let found = answer(rt.alloc(), figure, space)?;
    Ok(compare(rt, found.as_bytes(), figure.stored)?)
}

// Prints what was found, and whether it is the stored answer.
pub(crate) fn compare(rt: &HostRuntime, found: &[u8], stored: &[u8]) -> io::Result<bool> {
    print!(rt; "found: ")?;
    rt.stdout().write_all(found)?;
    if found != stored {
        print!(rt; "NOT as stored: ")?;
        rt.stdout().write_all(stored)?;
        return Ok(false);
    }
    println!(rt; "as stored")?;
    Ok(true)
}

fn answer(heap: Global, figure: &Figure, space: &mut PlanSpace) -> Result<String, AllocError> {
    let book = book_of(figure);
    if let Asked::Hyperperiod = figure.asked {
        return match seek(&book, figure.ceiling) {
            Ok(number) => found::hyperperiod(heap, &book, number),
            Err(refusal) => found::refused(heap, refusal),
        };
    }
    let figures = figures_of(heap, figure.tasks)?;
    match space.plan(&book, &figures, figure.ceiling) {
        Ok(plan) => found::plan(heap, plan, figure.asked),
        Err(refusal) => found::refused(heap, refusal),
    }
}

// The book of the figure's tasks, in their order.
fn book_of(figure: &Figure) -> FigureBook {
    let mut shelf = Shelf::empty();
    for task in figure.tasks {
        shelf.add(task.periods);
    }
    let Shelf {
        before,
        ranges,
        behind,
    } = shelf;
    Grid::new(
        SideBySide::new(before, SideBySide::new(ranges, behind)),
        figure.step,
    )
}
