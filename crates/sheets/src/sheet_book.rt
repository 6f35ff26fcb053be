// A book that takes its tasks from the lines of a sheet.

ghost use Rattle.std.specs.Prelude.{◌≡◌, true, length, MatchResult};
ghost use Rattle.books.specs.Questions.{first_no};
ghost use Rattle.books.specs.Sets.{Empty};
ghost use Rattle.sheets.specs.Entries.{Layout};
ghost use Rattle.sheets.specs.Lines.{fields_of, word_in};
ghost use Rattle.sheets.specs.Steps.{Entered, told};
ghost use Rattle.sheets.specs.Sheets.{on_line};

use crate::fault::FieldFault;
use crate::field::Line;
use books::Book;
use planning::Figures;

pub(crate) trait SheetBook: Book {
    ghost layout: { Layout };

    // A book of no tasks.
    fn empty() -> Self
        ensures { Empty (Self.Book.means result) };

    // Whether a line may begin with the word.
    fn is_word(word: &[u8]) -> bool
        ensures { result ≡ layout.is_word word.now };

    // Whether a line that begins with the word may have so many fields. Word and count alone, and not the
    // line, since that is all that a layout knows.
    fn is_count(word: &[u8], count: usize) -> bool
        ensures { result ≡ layout.is_count word.now count };

    // Adds the task of a line that has the right number of fields, and answers its figures.
    fn enter(&mut self, line: Line<'_>) -> Result<Figures, FieldFault>
        requires { layout.is_count (word_in line.bytes.now) (length (fields_of line.bytes.now)) ≡ true }
        ensures answer { told result ≡ on_line line.entry.number (first_no (layout.entry (fields_of line.entry.bytes.now) (Self.Book.means self.old).count)) }
        ensures after { MatchResult result (λ f. Entered (Self.Book.means self.old) (Self.Book.means self.new) (layout.task (fields_of line.entry.bytes.now)) f) (λ _. self.new ≡ self.old) };
}
