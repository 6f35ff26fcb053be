// The names of tasks.

ghost use Rattle.std.specs.Prelude.{◌≡◌};
ghost use Rattle.std.specs.Option.{option_map};
ghost use Rattle.sheets.specs.Lines.{name_in as name_in_line, names_above};
ghost use Rattle.sheets.specs.Reads.{name_found};
ghost use Rattle.sheets.specs.Steps.{NameRead};
ghost use Rattle.sheets.specs.Sheets.{is_a_name, is_a_name_byte, is_taken as is_taken_by};

use crate::fault::FieldFault;
use crate::field::Line;
use crate::read::{read_lists, read_ranges};
use crate::text::part;

// Whether the bytes are a name.
fn is_name(bytes: &[u8]) -> bool
    ensures { result ≡ is_a_name bytes.now }
{
    (1..=16).contains(&bytes.len()) && bytes.iter().all(|byte| is_name_byte(*byte))
}

// Whether the byte is one of a name: a to z, 0 to 9, or a hyphen.
fn is_name_byte(byte: u8) -> bool
    ensures { result ≡ is_a_name_byte byte }
{
    matches!(byte, b'a'..=b'z' | b'0'..=b'9' | b'-')
}

// The name on a line: its second field.
fn name_in(line: &[u8]) -> &[u8]
    ensures { result.now ≡ name_in_line line.now }
{
    part(line, b',', 1)
}

// Whether a line above has the name too.
fn is_taken(line: Line<'_>, name: &[u8]) -> bool
    ensures { result ≡ is_taken_by name.now (names_above line.entry.sheet.now line.entry.number) }
{
    line.sheet
        .split(|byte| *byte == b'\n')
        .take(line.number as usize - 1)
        .map(name_in)
        .any(|earlier| name == earlier)
}

// Refuses the line unless its name is one and new in the sheet.
pub(crate) fn check_name(line: Line<'_>) -> Result<(), FieldFault>
    ensures { NameRead (names_above line.entry.sheet.now line.entry.number) (name_in_line line.entry.bytes.now) line.entry.number result }
{
    let name = name_in(line.bytes);
    if is_name(name) && !is_taken(line, name) {
        Ok(())
    } else {
        Err(FieldFault::NameRefused { line: line.number })
    }
}

// The name of a task, the tasks of the range sheet before those of the list sheet; none where a sheet
// is refused or the task is not there.
pub fn name_of<'a>(ranges: &'a [u8], lists: &'a [u8], task: u32) -> Option<&'a [u8]>
    ensures { option_map (λ x. x.now) result ≡ name_found ranges.now lists.now task }
{
    let first = read_ranges(ranges).ok()?.count();
    let second = read_lists(lists).ok()?.count();
    let ranges = ranges.split(|byte| *byte == b'\n').take(first);
    let lists = lists.split(|byte| *byte == b'\n').take(second);
    ranges.chain(lists).map(name_in).nth(task as usize)
}
