// The lines of the list sheet: `list,NAME,COST,DEADLINE,P1` with up to eight periods.

ghost use Rattle.std.specs.Prelude.{◌≤◌, length};
ghost use Rattle.sheets.specs.Entries.{list_layout};
ghost use Rattle.sheets.specs.Lines.{fields_of};
ghost use Rattle.sheets.specs.Steps.{PeriodsRead};

use crate::fault::FieldFault;
use crate::field::Line;
use crate::sheet_book::SheetBook;
use arrayvec::ArrayVec;
use books::ListBook;
use planning::Figures;

// The first field of a line's periods, which the book of lists counts its fields from as well.
const FIRST: u32 = 5;

// Reads the periods of a line.
fn read_periods(line: Line<'_>) -> Result<ArrayVec<u32, 8>, FieldFault>
    requires some { 5 ≤ length (fields_of line.bytes.now) }
    requires few { length (fields_of line.bytes.now) ≤ 12 }
    ensures { PeriodsRead (fields_of line.entry.bytes.now) line.entry.number result }
{
    let mut periods = ArrayVec::new();
    let end = line.fields() as u32 + 1;
    // By the fields' numbers, which a fault tells.
    for number in FIRST..end {
        periods.push(line.field(number).number()?);
    }
    Ok(periods)
}

impl SheetBook for ListBook {
    ghost layout = { list_layout };

    fn empty() -> ListBook {
        ListBook::new()
    }

    fn is_word(word: &[u8]) -> bool {
        word == b"list".as_slice()
    }

    fn is_count(word: &[u8], count: usize) -> bool {
        (5..=12).contains(&count)
    }

    fn enter(&mut self, line: Line<'_>) -> Result<Figures, FieldFault> {
        let figures = line.figures(3)?;
        let periods = read_periods(line)?;
        line.placed(self.add(&periods))?;
        Ok(figures)
    }
}
