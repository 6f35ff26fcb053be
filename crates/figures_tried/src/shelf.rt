// The books that a figure's tasks are entered in.

use crate::figure::Periods;
use books::{Book, ListBook, RangeBook};

// Lists may stand before the ranges and behind them.
pub(crate) struct Shelf {
    pub(crate) before: ListBook,
    pub(crate) ranges: RangeBook,
    pub(crate) behind: ListBook,
}

impl Shelf {
    pub(crate) fn empty() -> Shelf {
        Shelf {
            before: ListBook::new(),
            ranges: RangeBook::new(),
            behind: ListBook::new(),
        }
    }

    pub(crate) fn add(&mut self, periods: Periods) {
        match periods {
            Periods::Only(period) => self.add_list(&[period]),
            Periods::List(periods) => self.add_list(periods),
            Periods::Range(low, high) => {
                let _ = self.ranges.add(low, high);
            }
        }
    }

    fn add_list(&mut self, periods: &[u32]) {
        let _ = if self.ranges.count() == 0 {
            self.before.add(periods)
        } else {
            self.behind.add(periods)
        };
    }
}
