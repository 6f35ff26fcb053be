// How a refusal is printed as it is reported: its number, its sheet, its line and its field.

ghost use Rattle.std.specs.Prelude.{[], ◌∷◌, Some};
ghost use Rattle.books.specs.Shown.{commas};

use crate::notice::Notice;
use std::fmt;

impl fmt::Display for Notice {
    ghost output = { λ notice. Some (commas (notice.number ∷ notice.sheet ∷ notice.line ∷ notice.field ∷ [])) };

    fn fmt<W: fmt::Write>(&self, f: &mut fmt::Formatter<W>) -> fmt::Result {
        write!(
            f,
            "{},{},{},{}",
            self.number, self.sheet, self.line, self.field
        )
    }
}
