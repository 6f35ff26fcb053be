ghost use Rattle.orders.specs.Models.{candidate_le};
ghost use Rattle.std.proofs.Common.{rules};

use crate::ranked::Ranked;

// A number that one task proposes. Candidates go by number and then task, in the order of the fields.
#[derive(Clone, Copy, Debug, PartialEq, Eq, PartialOrd, Ord)]
pub struct Candidate {
    pub number: u32,
    pub task: u32,
}

impl Ranked for Candidate {
    ghost le = { candidate_le };

    ghost total = { Prim.search rules };

    fn at_most(&self, other: &Candidate) -> bool {
        self <= other
    }
}
