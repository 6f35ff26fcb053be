// How a fault is printed: its number, its line and its field.

ghost use Rattle.std.specs.Prelude.{[], ◌∷◌, Some};
ghost use Rattle.books.specs.Questions.{refusal};
ghost use Rattle.books.specs.Shown.{commas};

use crate::fault::EntryFault;
use std::fmt;

impl fmt::Display for EntryFault {
    ghost output = { λ fault. Some (commas ((refusal fault).number ∷ (refusal fault).line ∷ (refusal fault).field ∷ [])) };

    fn fmt<W: fmt::Write>(&self, f: &mut fmt::Formatter<W>) -> fmt::Result {
        write!(f, "{},{},{}", self.number(), self.line(), self.field())
    }
}
