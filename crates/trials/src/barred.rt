ghost use Rattle.trials.specs.Trials.{barred_of};

use books::Book;

// A book that allows nothing to any of its tasks.
#[derive(Clone, Copy, Drop)]
pub struct Barred {
    pub tasks: u32,
}

impl Book for Barred {
    ghost means = { barred_of };

    fn count(&self) -> u32 {
        self.tasks.min(17)
    }

    fn allows(&self, _task: u32, _period: u32) -> bool {
        false
    }

    fn next_allowed(&self, _task: u32, _from: u32) -> Option<u32> {
        None
    }
}
