ghost use Rattle.books.specs.Sets.{beside_of, gridded_of, ranges_of};
ghost use Rattle.programs.specs.Steps.{FourSteps, Steps};

use crate::periods::Range;
use books::{Grid, RangeBook, SideBySide};

// The ranges of Brocal and others, 2013.
pub const FOUR_RANGES: [Range; 4] = [
    Range {
        low: 356,
        high: 372,
    },
    Range {
        low: 653,
        high: 681,
    },
    Range {
        low: 712,
        high: 742,
    },
    Range {
        low: 97_994,
        high: 102_006,
    },
];

// Two grids side by side.
pub type TwoGrids = SideBySide<Grid<RangeBook>, Grid<RangeBook>>;

// Four grids side by side.
pub type FourGrids = SideBySide<TwoGrids, TwoGrids>;

// Every period that is a multiple of the step, for one task.
pub fn all_on(step: u32) -> Grid<RangeBook>
    ensures { Steps step (gridded_of ranges_of result) }
{
    let mut every = RangeBook::new();
    let _ = every.add(1, 200_000);
    Grid::new(every, step)
}

// Four tasks, each with every period that is a multiple of its step.
pub fn four_grids(a: u32, b: u32, c: u32, d: u32) -> FourGrids
    ensures { FourSteps a b c d (beside_of (beside_of (gridded_of ranges_of) (gridded_of ranges_of)) (beside_of (gridded_of ranges_of) (gridded_of ranges_of)) result) }
{
    SideBySide::new(
        SideBySide::new(all_on(a), all_on(b)),
        SideBySide::new(all_on(c), all_on(d)),
    )
}
