ghost use Rattle.std.specs.Prelude.{ℕ, ◌<◌, ◌≤◌, [], slice_index_or};
ghost use Rattle.books.specs.Periods.{Lawful};

pub mod calls;
mod entry;
mod row;

// The first `len` numbers are the periods of one task. An array with a count beside it, since the row
// is copied and a vector is not.
#[derive(Clone, Copy, Debug, PartialEq, Eq)]
struct PeriodRow {
    periods: [u32; 8],
    len: usize,
}

// A book that allows each task the periods of a written list. The places not in use hold the period 1.
// An array with a count beside it, since the book is copied and a vector is not.
#[derive(Clone, Copy, Debug, PartialEq, Eq)]
pub struct ListBook {
    rows: [PeriodRow; 16],
    used: usize,
    ghost few: { used ≤ 16 },
    ghost lawful: { (task : ℕ) → task < 16 → Lawful (slice_index_or rows task (record { periods = []; len = 0 })) },
}
