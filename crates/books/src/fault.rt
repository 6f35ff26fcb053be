ghost use Rattle.std.specs.Prelude.{◌≡◌};
ghost use Rattle.books.specs.Questions.{refusal};

// Why a task is not taken into a book, and at which field of its entry.
#[derive(Clone, Copy, Debug, PartialEq, Eq)]
pub enum EntryFault {
    PeriodCount,
    NumberOutOfRange { field: u32 },
    NotRising { field: u32 },
    TooManyTasks,
}

impl EntryFault {
    // The number by which the rules know the refusal, for those who print it, and the field at fault, or 0
    // where it is the entry as a whole: code matches on the cases.
    fn number_and_field(self) -> (u32, u32)
        ensures { result ≡ ((refusal self).number, (refusal self).field) }
    {
        match self {
            EntryFault::PeriodCount => (14, 0),
            EntryFault::NumberOutOfRange { field } => (16, field),
            EntryFault::NotRising { field } => (17, field),
            EntryFault::TooManyTasks => (18, 0),
        }
    }

    // The number by which the refusal is known.
    pub fn number(self) -> u32
        ensures value { result ≡ (refusal self).number }
    {
        self.number_and_field().0
    }

    // An entry given in numbers stands on no line.
    pub fn line(self) -> u32
        ensures value { result ≡ (refusal self).line }
    {
        0
    }

    // The field at fault, or 0 where it is the entry as a whole.
    pub fn field(self) -> u32
        ensures value { result ≡ (refusal self).field }
    {
        self.number_and_field().1
    }
}
