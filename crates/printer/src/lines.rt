// Lists whose items have a line each: the lines are measured against a room, and written. Both calls ask that a
// line has at most four numbers, since how many they are is a parameter of the trait.

ghost use Rattle.std.specs.Prelude.{◌≡◌, ℕ, ◌^◌, ◌<◌, ◌≤◌, List, [], ◌∷◌, length, codes};
ghost use Rattle.std.proofs.Common.{rules};
ghost use Rattle.printer.specs.Puts.{Leaves, Puts};
ghost use Rattle.printer.specs.Text.{lines_text, slice_numbers};

use crate::line::{line_len, write_line};
use planning::Row;

// What has a line of its own: a word, and numbers by its place in a list.
pub(crate) trait Line<const N: usize> {
    ghost word: { List ℕ };

    ghost numbers: { ℕ → Self → List ℕ };

    fn word() -> &'static [u8]
        ensures { result.now ≡ word };

    fn numbers(&self, place: usize) -> [u32; N]
        requires { place < 2 ^ 32 }
        ensures { result ≡ numbers place self.now };

    ghost short: { length word ≤ 16 };
}

// A period stands at the place of its task.
impl Line<2> for u32 {
    ghost word = { codes "period" };

    ghost numbers = { λ task period. task ∷ period ∷ [] };

    ghost short = { Prim.search rules };

    fn word() -> &'static [u8] {
        b"period"
    }

    fn numbers(&self, place: usize) -> [u32; 2] {
        [place as u32, *self]
    }
}

impl Line<4> for Row {
    ghost word = { codes "slice" };

    ghost numbers = { λ _ row. slice_numbers row };

    ghost short = { Prim.search rules };

    fn word() -> &'static [u8] {
        b"slice"
    }

    fn numbers(&self, _place: usize) -> [u32; 4] {
        [self.frame, self.task, self.job, self.length]
    }
}

// The room that is left behind the lines of the items; none where they do not fit.
pub(crate) fn room_after<T: Line<N>, const N: usize>(items: &[T], room: usize) -> Option<usize>
    requires four { N ≤ 4 }
    requires few { length items.now < 2 ^ 32 }
    ensures { Leaves (lines_text T.word T.numbers 0 items.now) room result }
{
    let mut left = room;
    for (place, item) in items.iter().enumerate() {
        left = left.checked_sub(line_len(T::word(), &item.numbers(place)))?;
    }
    Some(left)
}

// Writes the line of each item.
pub(crate) fn write_lines<T: Line<N>, const N: usize>(out: &mut [u8], items: &[T]) -> usize
    requires four { N ≤ 4 }
    requires few { length items.now < 2 ^ 32 }
    requires room { length (lines_text T.word T.numbers 0 items.now) ≤ length out.old }
    ensures { Puts (lines_text T.word T.numbers 0 items.now) out.old out.new result }
{
    let mut at = 0;
    for (place, item) in items.iter().enumerate() {
        at += write_line(&mut out[at..], T::word(), &item.numbers(place));
    }
    at
}
