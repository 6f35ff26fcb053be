ghost use Rattle.std.specs.Prelude.{ℕ, ◌<◌, ◌≤◌, slice_index_or};

pub mod calls;

// The periods from `low` to `high`.
#[derive(Clone, Copy, Debug, PartialEq, Eq)]
struct PeriodRange {
    low: u32,
    high: u32,
}

// A book that allows each task one range of periods. The places not in use hold the range 1 to 1.
// An array with a count beside it, since the book is copied and a vector is not; and no table in
// common with the book of lists, since each book's invariant is of its own plain rows.
#[derive(Clone, Copy, Debug, PartialEq, Eq)]
pub struct RangeBook {
    ranges: [PeriodRange; 16],
    used: usize,
    ghost few: { used ≤ 16 },
    ghost inside: { (k : ℕ) → k < 16 → (1 ≤ (slice_index_or ranges k (record { low = 0; high = 0 })).low) × ((slice_index_or ranges k (record { low = 0; high = 0 })).high ≤ 200000) },
}
