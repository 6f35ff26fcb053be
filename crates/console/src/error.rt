// Why two sheets get no printed answer: the buffer is too short for it, or memory is wanting. Another error than
// that of preparing, whose faults are printed and so are answers here.

ghost use Rattle.std.specs.Prelude.{◌≡◌};
ghost use Rattle.console.specs.declared.error.AnswerError.TheVariants.{Memory, Printing};

use printer::PrintRefusal;
use std::alloc::AllocError;

#[derive(Clone, Copy, Debug, PartialEq, Eq)]
pub enum AnswerError {
    Printing(PrintRefusal),
    Memory(AllocError),
}

// By hand, as the next, so that the proofs know which error `?` makes.
impl From<PrintRefusal> for AnswerError {
    ghost from_gives = { λ e r. r ≡ Printing e };

    fn from(refusal: PrintRefusal) -> AnswerError {
        AnswerError::Printing(refusal)
    }
}

impl From<AllocError> for AnswerError {
    ghost from_gives = { λ e r. r ≡ Memory e };

    fn from(wanting: AllocError) -> AnswerError {
        AnswerError::Memory(wanting)
    }
}
