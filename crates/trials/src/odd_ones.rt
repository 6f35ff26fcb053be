ghost use Rattle.trials.specs.Trials.{odd_ones_of};

use books::Book;

const TASKS: u32 = 2;

const LOW: u32 = 3;

const HIGH: u32 = 99;

// A book of two tasks, each allowed every odd period from 3 to 99.
#[derive(Clone, Copy, Drop)]
pub struct OddOnes;

impl Book for OddOnes {
    ghost means = { odd_ones_of };

    fn count(&self) -> u32 {
        TASKS
    }

    fn allows(&self, task: u32, period: u32) -> bool {
        task < TASKS && LOW <= period && period <= HIGH && period % 2 == 1
    }

    fn next_allowed(&self, task: u32, from: u32) -> Option<u32> {
        let least = from.max(LOW);
        if task >= TASKS || least > HIGH {
            return None;
        }
        if least % 2 == 1 {
            Some(least)
        } else {
            Some(least + 1)
        }
    }
}
