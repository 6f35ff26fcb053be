// Preparing a planner.

ghost use Rattle.std.specs.Prelude.{◌≡◌, [], ◌++◌, IfOk};
ghost use Rattle.books.specs.Sets.{beside, gridded, lists_of, ranges_of};
ghost use Rattle.sheets.specs.Reads.{figures_held};
ghost use Rattle.run.specs.Account.{empty};
ghost use Rattle.run.specs.Agrees.{Agrees};
ghost use Rattle.prepare.specs.Charges.{PlanMade};
ghost use Rattle.prepare.specs.Prepared.{BothRead, PrepareAnswer, book_means, sheets_meaning};

use crate::charges::charge_all;
use crate::fault::{PrepareError, PrepareFault, Sheet};
use books::{Book, Grid, ListBook, RangeBook, SideBySide};
use run::{Granted, Planner};
use sheets::{Tasks, read_lists, read_ranges};
use std::alloc::{AllocError, Global};

// A planner on a range book and a list book, side by side on a grid.
pub type SheetPlanner = Planner<Grid<SideBySide<RangeBook, ListBook>>>;

// A planner on the two books, side by side on a grid of the step.
fn planner_on(
    heap: Global,
    ranges: RangeBook,
    lists: ListBook,
    step: u32,
) -> Result<SheetPlanner, AllocError>
    ensures { IfOk result (λ p. Agrees book_means p empty × (book_means p.book ≡ gridded step (beside (ranges_of ranges) (lists_of lists)))) }
{
    Planner::new(heap, Grid::new(SideBySide::new(ranges, lists), step))
}

// A planner on no tasks, for `prepare` to take the place of.
pub fn blank(heap: Global) -> Result<SheetPlanner, AllocError>
    ensures { IfOk result (λ p. Agrees book_means p empty × (book_means p.book ≡ sheets_meaning [] [] 1)) }
{
    planner_on(heap, RangeBook::new(), ListBook::new(), 1)
}

// Reads both sheets, makes a planner on their books, charges every task in its order and plans; answers
// as the plan does, and the caller's planner becomes that one. On an error it stays as it was.
pub fn prepare(
    heap: Global,
    ranges: &[u8],
    lists: &[u8],
    step: u32,
    ceiling: u32,
    planner: &mut SheetPlanner,
) -> Result<Granted, PrepareError>
    ensures { PrepareAnswer ranges.now lists.now step ceiling planner.old planner.new result }
{
    let (ranges, lists) = read_both(ranges, lists)?;
    let mut fresh = planner_on(heap, *ranges.book(), *lists.book(), step)?;
    let granted = charge_and_plan(&mut fresh, &ranges, &lists, ceiling)?;
    *planner = fresh;
    Ok(granted)
}

// The tasks of both sheets; the range sheet is read first. Here and above both come as they are asked: a type
// for the pair would say no more than they do.
fn read_both(
    ranges: &[u8],
    lists: &[u8],
) -> Result<(Tasks<RangeBook>, Tasks<ListBook>), PrepareFault>
    ensures { BothRead ranges.now lists.now result }
{
    let ranges = read_ranges(ranges).map_err(|fault| (Sheet::Ranges, fault))?;
    let lists = read_lists(lists).map_err(|fault| (Sheet::Lists, fault))?;
    Ok((ranges, lists))
}

// Charges the tasks of the range sheet, then those of the list sheet, and plans.
fn charge_and_plan(
    planner: &mut SheetPlanner,
    ranges: &Tasks<RangeBook>,
    lists: &Tasks<ListBook>,
    ceiling: u32,
) -> Result<Granted, PrepareFault>
    ensures { PlanMade book_means planner.old planner.new (figures_held ranges.now ++ figures_held lists.now) ceiling result }
{
    charge_all(planner, 0, ranges.figures())?;
    charge_all(planner, ranges.count() as u32, lists.figures())?;
    Ok(planner.plan(ceiling)?)
}
