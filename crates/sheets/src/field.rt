// The fields of a sheet, handed out as parts of it with their place.

ghost use Rattle.std.specs.Prelude.{◌≡◌, ◌+◌, ◌-◌, ◌^◌, ◌<◌, ◌≤◌, [], length, nat_le, slice_index_or};
ghost use Rattle.sheets.specs.Lines.{field_at, fields_of};
ghost use Rattle.sheets.specs.Reads.{ClassRead, FieldIs, FieldNumber, bytes_of, field_of, is_there, line_of};
ghost use Rattle.sheets.specs.Steps.{FiguresRead, Placed};
ghost use Rattle.sheets.specs.Text.{parts};
ghost use Rattle.sheets.specs.declared.fault.FieldFault.TheVariants.{Unreadable};

use crate::class::class_named;
use crate::fault::FieldFault;
use crate::number::parse_number;
use crate::text::{count_parts, part};
use books::EntryFault;
use planning::Figures;

// A field, or that there is none at the place; lines and fields are counted from 1.
// Two cases in place of an Option, since a field that is missing has a place too.
#[derive(Clone, Copy, Debug, PartialEq, Eq)]
pub enum Field<'a> {
    Word {
        bytes: &'a [u8],
        line: u32,
        field: u32,
    },
    Missing {
        line: u32,
        field: u32,
    },
}

impl<'a> Field<'a> {
    // The bytes of the field; none where it is missing.
    pub fn bytes(self) -> &'a [u8]
        ensures { result.now ≡ bytes_of self.entry }
    {
        match self {
            Field::Word { bytes, .. } => bytes,
            Field::Missing { .. } => &[],
        }
    }

    // The number that the field writes.
    pub fn number(self) -> Result<u32, FieldFault>
        ensures { FieldNumber self.entry result }
    {
        parse_number(self.bytes()).ok_or(self.fault())
    }

    // The range of the class that the field names.
    pub fn class(self) -> Result<(u32, u32), FieldFault>
        ensures { ClassRead self.entry result }
    {
        class_named(self.bytes()).ok_or(self.fault())
    }

    // That the field is no number and names no class.
    fn fault(self) -> FieldFault
        ensures { result ≡ Unreadable (line_of self.entry) (field_of self.entry) }
    {
        match self {
            Field::Word { line, field, .. } | Field::Missing { line, field } => {
                FieldFault::Unreadable { line, field }
            }
        }
    }
}

// A line of a sheet, with its number.
#[derive(Clone, Copy, Debug, PartialEq, Eq)]
pub(crate) struct Line<'a> {
    pub(crate) sheet: &'a [u8],
    pub(crate) bytes: &'a [u8],
    pub(crate) number: u32,
    ghost counted: { 1 ≤ number },
    ghost there: { number ≤ length (parts 10 sheet.now) },
    ghost here: { bytes.now ≡ slice_index_or (parts 10 sheet.now) (number - 1) [] },
}

impl<'a> Line<'a> {
    // The line of a sheet that has so many before it.
    pub(crate) fn at(sheet: &'a [u8], before: usize) -> Line<'a>
        requires few { before + 1 < 2 ^ 32 }
        requires there { before < length (parts 10 sheet.now) }
        ensures sheet { result.sheet.now ≡ sheet.now }
        ensures number { result.number ≡ before + 1 }
    {
        Line {
            sheet,
            bytes: part(sheet, b'\n', before),
            number: before as u32 + 1,
        }
    }

    // How many fields the line has.
    pub(crate) fn fields(self) -> usize
        ensures { result ≡ length (fields_of self.entry.bytes.now) }
    {
        count_parts(self.bytes, b',')
    }

    // The field of that number.
    pub(crate) fn field(self, number: u32) -> Field<'a>
        requires { 1 ≤ number }
        ensures value { bytes_of result ≡ field_at (fields_of self.entry.bytes.now) number }
        ensures line { line_of result ≡ self.entry.number }
        ensures field { field_of result ≡ number }
        ensures there { is_there result ≡ nat_le number (length (fields_of self.entry.bytes.now)) }
    {
        let before = number as usize - 1;
        if before < self.fields() {
            Field::Word {
                bytes: part(self.bytes, b',', before),
                line: self.number,
                field: number,
            }
        } else {
            Field::Missing {
                line: self.number,
                field: number,
            }
        }
    }

    // The figures of a task: the cost in the field of that number, and the deadline in the next.
    pub(crate) fn figures(self, number: u32) -> Result<Figures, FieldFault>
        requires some { 1 ≤ number }
        requires few { number < 2 ^ 31 }
        ensures { FiguresRead (fields_of self.entry.bytes.now) number self.entry.number result }
    {
        let cost = self.field(number).number()?;
        let deadline = self.field(number + 1).number()?;
        Ok(Figures { cost, deadline })
    }

    // What a book answered to the task of the line, a refusal with the line in it.
    pub(crate) fn placed(self, added: Result<(), EntryFault>) -> Result<(), FieldFault>
        ensures { Placed self.entry.number added result }
    {
        added.map_err(|fault| FieldFault::Entry {
            line: self.number,
            fault,
        })
    }
}

// The field of a sheet at a line and a field number.
pub fn field_at<'a>(sheet: &'a [u8], line: u32, field: u32) -> Field<'a>
    ensures { FieldIs sheet.now line field result }
{
    if line == 0 || field == 0 || line as usize >= count_parts(sheet, b'\n') {
        return Field::Missing { line, field };
    }
    Line::at(sheet, line as usize - 1).field(field)
}
