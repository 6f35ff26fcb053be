// Why a plan is refused, with the number and the place that the rules give it.

ghost use Rattle.std.specs.Prelude.{◌≡◌};
ghost use Rattle.planning.specs.Refusals.{number as number_of, place as place_of};

#[derive(Clone, Copy, Debug, PartialEq, Eq)]
pub enum Refusal {
    CeilingOutOfRange,
    CountOutOfRange,
    TaskWithoutFigures { task: u32 },
    NothingServes,
    TooManyJobs,
    EverySizeFails,
}

impl Refusal {
    // The number of the question that got a no, for those who print it: code matches on the cases.
    pub fn number(self) -> u32
        ensures { result ≡ number_of self }
    {
        match self {
            Refusal::CeilingOutOfRange => 4,
            Refusal::CountOutOfRange => 5,
            Refusal::TaskWithoutFigures { .. } => 6,
            Refusal::NothingServes => 7,
            Refusal::TooManyJobs => 8,
            Refusal::EverySizeFails => 9,
        }
    }

    // The task that the refusal is about, or 0, as the rules write it.
    pub fn place(self) -> u32
        ensures { result ≡ place_of self }
    {
        match self {
            Refusal::TaskWithoutFigures { task } => task,
            Refusal::CeilingOutOfRange
            | Refusal::CountOutOfRange
            | Refusal::NothingServes
            | Refusal::TooManyJobs
            | Refusal::EverySizeFails => 0,
        }
    }
}
