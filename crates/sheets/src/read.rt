// Reading a whole sheet into a book of its tasks.

ghost use Rattle.std.specs.Prelude.{◌≡◌, ◌+◌, ◌-◌, MatchResult};
ghost use Rattle.books.specs.Sets.{lists_of, ranges_of};
ghost use Rattle.sheets.specs.Entries.{list_layout, range_layout};
ghost use Rattle.sheets.specs.Lines.{fields_of};
ghost use Rattle.sheets.specs.Reads.{SheetRead};
ghost use Rattle.sheets.specs.Steps.{Entered, WholeRead, told};
ghost use Rattle.sheets.specs.Sheets.{line_fault};
ghost use Rattle.sheets.specs.Text.{parts};

use crate::fault::{FieldFault, SheetFault};
use crate::field::Line;
use crate::names::check_name;
use crate::sheet_book::SheetBook;
use crate::tasks::Tasks;
use crate::text::count_parts;
use arrayvec::ArrayVec;
use books::{ListBook, RangeBook};
use planning::Figures;

// Reads a range sheet. This call and the next name the two books that the reader below is for: its trait is
// the crate's own.
pub fn read_ranges(sheet: &[u8]) -> Result<Tasks<RangeBook>, SheetFault>
    ensures { SheetRead ranges_of range_layout sheet.now result }
{
    read(sheet)
}

// Reads a list sheet.
pub fn read_lists(sheet: &[u8]) -> Result<Tasks<ListBook>, SheetFault>
    ensures { SheetRead lists_of list_layout sheet.now result }
{
    read(sheet)
}

// Reads a sheet line by line from the top.
fn read<B: SheetBook + Drop>(sheet: &[u8]) -> Result<Tasks<B>, SheetFault>
    ensures { SheetRead B.Book.means B.SheetBook.layout sheet.now result }
{
    let lines = check_whole(sheet)?;
    let mut book = B::empty();
    let mut figures = ArrayVec::new();
    // By place: a `for` over the parts does not check in a function generic over the book.
    for before in 0..lines {
        let line = Line::at(sheet, before);
        figures.push(read_line(line, &mut book)?);
    }
    Ok(Tasks::new(book, figures))
}

// Refuses a sheet that is too long, or whose last line does not end; answers how many lines there are.
fn check_whole(sheet: &[u8]) -> Result<usize, SheetFault>
    ensures { WholeRead sheet.now result }
{
    if sheet.len() > 4096 {
        return Err(SheetFault::TooLong);
    }
    let lines = count_parts(sheet, b'\n') - 1;
    if sheet.last().is_some_and(|byte| *byte != b'\n') {
        return Err(SheetFault::LineUnended {
            line: lines as u32 + 1,
        });
    }
    Ok(lines)
}

// Enters the task of a line, and answers its figures.
fn read_line<B: SheetBook>(line: Line<'_>, book: &mut B) -> Result<Figures, FieldFault>
    requires { (B.Book.means book.old).count + 1 ≡ line.number }
    ensures answer { told result ≡ line_fault B.SheetBook.layout (parts 10 line.entry.sheet.now) (line.entry.number - 1) }
    ensures after { MatchResult result (λ f. Entered (B.Book.means book.old) (B.Book.means book.new) (B.SheetBook.layout.task (fields_of line.entry.bytes.now)) f) (λ _. book.new ≡ book.old) }
{
    let word = line.field(1).bytes();
    if !B::is_word(word) {
        return Err(FieldFault::UnknownWord { line: line.number });
    }
    if !B::is_count(word, line.fields()) {
        return Err(FieldFault::FieldCount { line: line.number });
    }
    check_name(line)?;
    book.enter(line)
}
