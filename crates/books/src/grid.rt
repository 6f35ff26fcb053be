ghost use Rattle.std.specs.Prelude.{◌≡◌};
ghost use Rattle.books.specs.Sets.{gridded, gridded_of};

use crate::book::Book;
use crate::period::LONGEST_PERIOD;

// The periods of another book that are multiples of a step. Step 0 counts as 1.
#[derive(Clone, Copy, Debug, Drop, PartialEq, Eq)]
pub struct Grid<B> {
    book: B,
    step: u32,
}

impl<B: Book> Grid<B> {
    // The grid of that step over the book.
    pub fn new(book: B, step: u32) -> Grid<B>
        ensures meaning { gridded_of B.Book.means result ≡ gridded step (B.Book.means book) }
        ensures parts { (result.book ≡ book) × (result.step ≡ step) }
    {
        Grid { book, step }
    }
}

impl<B: Book> Book for Grid<B> {
    ghost means = { gridded_of B.Book.means };

    fn count(&self) -> u32 {
        self.book.count()
    }

    fn allows(&self, task: u32, period: u32) -> bool {
        self.book.allows(task, period) && period % self.step.max(1) == 0
    }

    #[tactic(auto, using(crate::proofs::Multiples::no_multiple_between))]
    fn next_allowed(&self, task: u32, from: u32) -> Option<u32> {
        let step = self.step.max(1);
        if step == 1 {
            return self.book.next_allowed(task, from);
        }
        // No period is a multiple of a step above the longest.
        if task >= self.book.count() || step > LONGEST_PERIOD {
            return None;
        }
        // A `while`, since each turn goes past the period that the book gave, to the next multiple.
        let mut at = from;
        while at <= LONGEST_PERIOD {
            let asked = at.next_multiple_of(step);
            let period = self.book.next_allowed(task, asked)?;
            if period == asked || period % step == 0 {
                return Some(period);
            }
            at = period + 1;
        }
        None
    }
}
