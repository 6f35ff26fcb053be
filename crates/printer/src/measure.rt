// Whether the lines of a plan fit into a room: they are taken off what is left of it.

ghost use Rattle.std.specs.Prelude.{◌^◌, ◌<◌, ◌≤◌, length};
ghost use Rattle.printer.specs.Puts.{Leaves};
ghost use Rattle.printer.specs.Text.{lines_of};

use crate::line::line_len;
use crate::lines::room_after;
use planning::Row;

// The room that is left behind the line of a plan with these numbers, the lines of its periods and those of its
// rows; none where they do not fit.
pub(crate) fn room_left(
    numbers: &[u32],
    periods: &[u32],
    rows: &[Row],
    room: usize,
) -> Option<usize>
    requires four { length numbers.now ≤ 4 }
    requires sixteen { length periods.now ≤ 16 }
    requires many { length rows.now < 2 ^ 32 }
    ensures { Leaves (lines_of numbers.now periods.now rows.now) room result }
{
    let left = room.checked_sub(line_len(b"plan", numbers))?;
    let left = room_after(periods, left)?;
    room_after(rows, left)
}
