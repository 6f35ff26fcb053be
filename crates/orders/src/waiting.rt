ghost use Rattle.orders.specs.Models.{waiting_le};
ghost use Rattle.std.proofs.Common.{rules};

use crate::ranked::Ranked;

// A job that waits to be served, with the end of its window. Jobs go by end, then task, then job, in
// the order of the fields.
#[derive(Clone, Copy, Debug, Default, PartialEq, Eq, PartialOrd, Ord)]
pub struct Waiting {
    pub end: u32,
    pub task: u32,
    pub job: u32,
}

impl Ranked for Waiting {
    ghost le = { waiting_le };

    ghost total = { Prim.search rules };

    fn at_most(&self, other: &Waiting) -> bool {
        self <= other
    }
}
