ghost use Rattle.std.specs.Prelude.{◌≡◌};
ghost use Rattle.books.specs.Sets.{beside, beside_of};

use crate::book::Book;

// The tasks of one book and then those of another. Tasks from 17 on are allowed nothing.
#[derive(Clone, Copy, Debug, Drop, PartialEq, Eq)]
pub struct SideBySide<F, S> {
    first: F,
    second: S,
}

impl<F: Book, S: Book> SideBySide<F, S> {
    // The two books, side by side.
    pub fn new(first: F, second: S) -> SideBySide<F, S>
        ensures meaning { beside_of F.Book.means S.Book.means result ≡ beside (F.Book.means first) (S.Book.means second) }
        ensures parts { (result.first ≡ first) × (result.second ≡ second) }
    {
        SideBySide { first, second }
    }
}

impl<F: Book, S: Book> Book for SideBySide<F, S> {
    ghost means = { beside_of F.Book.means S.Book.means };

    fn count(&self) -> u32 {
        (self.first.count() + self.second.count()).min(17)
    }

    fn allows(&self, task: u32, period: u32) -> bool {
        let first = self.first.count();
        let second = self.second.count();
        if task >= 17 || task >= first + second {
            return false;
        }
        if task < first {
            self.first.allows(task, period)
        } else {
            self.second.allows(task - first, period)
        }
    }

    // The same two cases as above: the two books have two types, so no value could hand out the one asked.
    fn next_allowed(&self, task: u32, from: u32) -> Option<u32> {
        let first = self.first.count();
        let second = self.second.count();
        if task >= 17 || task >= first + second {
            return None;
        }
        if task < first {
            self.first.next_allowed(task, from)
        } else {
            self.second.next_allowed(task - first, from)
        }
    }
}
