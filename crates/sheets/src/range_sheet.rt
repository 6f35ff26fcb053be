// The lines of the range sheet: `range,NAME,LOW,HIGH,COST,DEADLINE` and `class,NAME,LETTER,COST,DEADLINE`.

ghost use Rattle.sheets.specs.Entries.{entry_of_class, class_task, entry_of_range, range_layout, range_task};
ghost use Rattle.sheets.specs.Lines.{fields_of};
ghost use Rattle.sheets.specs.Steps.{RangeRead};

use crate::fault::FieldFault;
use crate::field::Line;
use crate::sheet_book::SheetBook;
use books::RangeBook;
use planning::Figures;

// What a line says behind its name.
#[derive(Clone, Copy, Debug, PartialEq, Eq)]
struct RangeEntry {
    low: u32,
    high: u32,
    figures: Figures,
}

// The entry of a line that names a class.
fn class_entry(line: Line<'_>) -> Result<RangeEntry, FieldFault>
    ensures { RangeRead (entry_of_class (fields_of line.entry.bytes.now)) (class_task (fields_of line.entry.bytes.now)) line.entry.number result }
{
    let (low, high) = line.field(3).class()?;
    let figures = line.figures(4)?;
    Ok(RangeEntry { low, high, figures })
}

// The entry of a line that gives a range.
fn range_entry(line: Line<'_>) -> Result<RangeEntry, FieldFault>
    ensures { RangeRead (entry_of_range (fields_of line.entry.bytes.now)) (range_task (fields_of line.entry.bytes.now)) line.entry.number result }
{
    let low = line.field(3).number()?;
    let high = line.field(4).number()?;
    let figures = line.figures(5)?;
    Ok(RangeEntry { low, high, figures })
}

// The entry of a line, by its word.
fn read_entry(line: Line<'_>) -> Result<RangeEntry, FieldFault>
    ensures { RangeRead (range_layout.entry (fields_of line.entry.bytes.now)) (range_layout.task (fields_of line.entry.bytes.now)) line.entry.number result }
{
    if line.field(1).bytes() == b"class".as_slice() {
        class_entry(line)
    } else {
        range_entry(line)
    }
}

impl SheetBook for RangeBook {
    ghost layout = { range_layout };

    fn empty() -> RangeBook {
        RangeBook::new()
    }

    fn is_word(word: &[u8]) -> bool {
        word == b"class".as_slice() || word == b"range".as_slice()
    }

    fn is_count(word: &[u8], count: usize) -> bool {
        if word == b"class".as_slice() {
            count == 5
        } else {
            count == 6
        }
    }

    fn enter(&mut self, line: Line<'_>) -> Result<Figures, FieldFault> {
        let entry = read_entry(line)?;
        line.placed(self.add(entry.low, entry.high))?;
        Ok(entry.figures)
    }
}
