// Why a call is refused, with the number and the place that the rules give it.

ghost use Rattle.std.specs.Prelude.{◌≡◌};
ghost use Rattle.run.specs.declared.refusal.Refusal.TheVariants.{Planning};
ghost use Rattle.run.specs.Refusals.{number as number_of, place as place_of};

#[derive(Clone, Copy, Debug, PartialEq, Eq)]
pub enum Refusal {
    TaskOutOfRange { task: u32 },
    CostOutOfRange { task: u32 },
    DeadlineOutOfRange { task: u32 },
    Planning(planning::Refusal),
    NoPlan,
    Ended,
}

// By hand, so that the proofs know which refusal `?` makes of planning's.
impl From<planning::Refusal> for Refusal {
    ghost from_gives = { λ e r. r ≡ Planning e };

    fn from(refusal: planning::Refusal) -> Refusal {
        Refusal::Planning(refusal)
    }
}

impl Refusal {
    // The number of the question that got a no, for those who print it: code matches on the cases.
    pub fn number(self) -> u32
        ensures { result ≡ number_of self }
    {
        match self {
            Refusal::TaskOutOfRange { .. } => 1,
            Refusal::CostOutOfRange { .. } => 2,
            Refusal::DeadlineOutOfRange { .. } => 3,
            Refusal::Planning(refusal) => refusal.number(),
            Refusal::NoPlan => 10,
            Refusal::Ended => 11,
        }
    }

    // The task that the refusal is about, or 0, as the rules write it.
    pub fn place(self) -> u32
        ensures { result ≡ place_of self }
    {
        match self {
            Refusal::TaskOutOfRange { task }
            | Refusal::CostOutOfRange { task }
            | Refusal::DeadlineOutOfRange { task } => task,
            Refusal::Planning(refusal) => refusal.place(),
            Refusal::NoPlan | Refusal::Ended => 0,
        }
    }
}
