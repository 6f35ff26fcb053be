ghost use Rattle.std.specs.Prelude.{◌≡◌};
ghost use Rattle.printer.specs.Printed.{notice_of, number as number_of};

use sheets::Notice;

// Why nothing is printed.
#[derive(Clone, Copy, Debug, PartialEq, Eq)]
pub enum PrintRefusal {
    NoPlan,
    TooShort,
}

impl PrintRefusal {
    // The number of the question that got a no, for those who print it: code matches on the cases.
    pub fn number(self) -> u32
        ensures { result ≡ number_of self }
    {
        match self {
            PrintRefusal::NoPlan => 10,
            PrintRefusal::TooShort => 19,
        }
    }

    // The refusal as it is reported.
    pub fn notice(self) -> Notice
        ensures { result ≡ notice_of self }
    {
        Notice {
            number: self.number(),
            sheet: 0,
            line: 0,
            field: 0,
        }
    }
}
