// The periods that a task may have, by the kind of book that takes them.

ghost use Rattle.std.specs.Prelude.{[], ◌∷◌};
ghost use Rattle.books.specs.Questions.{list_questions, range_questions};
ghost use Rattle.books.specs.Sets.{is_among, is_within, lists_of, ranges_of};

use crate::enter::Enter;
use books::{EntryFault, ListBook, RangeBook};
use std::fmt;

// Every period from `low` to `high`.
#[derive(Clone, Copy)]
pub struct Range {
    pub low: u32,
    pub high: u32,
}

// The periods listed.
#[derive(Clone, Copy)]
pub struct List(pub &'static [u32]);

// One period, a kind of its own since it is printed without the brackets of a list.
#[derive(Clone, Copy)]
pub struct Only(pub u32);

impl Enter for Range {
    type In = RangeBook;

    ghost questions = { λ range. range_questions range.low range.high };

    ghost allowed = { λ range. is_within range.low range.high };

    fn enter(&self, book: &mut RangeBook) -> Result<(), EntryFault> {
        book.add(self.low, self.high)
    }

    fn empty() -> RangeBook {
        RangeBook::new()
    }
}

impl Enter for List {
    type In = ListBook;

    ghost questions = { λ list. list_questions list.0.now };

    ghost allowed = { λ list. is_among list.0.now };

    fn enter(&self, book: &mut ListBook) -> Result<(), EntryFault> {
        book.add(self.0)
    }

    fn empty() -> ListBook {
        ListBook::new()
    }
}

impl Enter for Only {
    type In = ListBook;

    ghost questions = { λ only. list_questions (only.0 ∷ []) };

    ghost allowed = { λ only. is_among (only.0 ∷ []) };

    fn enter(&self, book: &mut ListBook) -> Result<(), EntryFault> {
        book.add(&[self.0])
    }

    fn empty() -> ListBook {
        ListBook::new()
    }
}

impl fmt::Display for Range {
    fn fmt<W: fmt::Write>(&self, f: &mut fmt::Formatter<W>) -> fmt::Result {
        write!(f, "{}-{}", self.low, self.high)
    }
}

impl fmt::Display for List {
    fn fmt<W: fmt::Write>(&self, f: &mut fmt::Formatter<W>) -> fmt::Result {
        write!(f, "{:?}", self.0)
    }
}

impl fmt::Display for Only {
    fn fmt<W: fmt::Write>(&self, f: &mut fmt::Formatter<W>) -> fmt::Result {
        write!(f, "{}", self.0)
    }
}
