ghost use Rattle.std.specs.Prelude.{◌≡◌, ◌<◌, MatchResult};
ghost use Rattle.std.specs.Option.{SomeIff};
ghost use Rattle.books.specs.Questions.{range_questions, first_no, told};
ghost use Rattle.books.specs.Sets.{Adds, Empty, range_at, ranges_of, is_within};

use crate::book::Book;
use crate::fault::EntryFault;
use crate::period::is_period;
use crate::range_book::{PeriodRange, RangeBook};

impl RangeBook {
    // A book of no tasks.
    pub fn new() -> RangeBook
        ensures empty { Empty (ranges_of result) }
    {
        RangeBook {
            ranges: [PeriodRange { low: 1, high: 1 }; 16],
            used: 0,
        }
    }

    // Adds a task that may have every period from `low` to `high`.
    pub fn add(&mut self, low: u32, high: u32) -> Result<(), EntryFault>
        ensures answer { told result ≡ first_no (range_questions low high (ranges_of self.old).count) }
        ensures after { MatchResult result (λ _. Adds (ranges_of self.old) (ranges_of self.new) (is_within low high)) (λ _. self.new ≡ self.old) }
    {
        if !is_period(low) {
            return Err(EntryFault::NumberOutOfRange { field: 3 });
        }
        if !is_period(high) {
            return Err(EntryFault::NumberOutOfRange { field: 4 });
        }
        if low > high {
            return Err(EntryFault::NotRising { field: 4 });
        }
        if self.used >= 16 {
            return Err(EntryFault::TooManyTasks);
        }
        self.ranges[self.used] = PeriodRange { low, high };
        self.used += 1;
        Ok(())
    }

    // The range of a task, if there is such a task.
    fn range(&self, task: u32) -> Option<PeriodRange>
        ensures { SomeIff result (task < self.now.used) (range_at self.now task) }
    {
        self.ranges[..self.used].get(task as usize).copied()
    }
}

impl Book for RangeBook {
    ghost means = { ranges_of };

    fn count(&self) -> u32 {
        self.used as u32
    }

    fn allows(&self, task: u32, period: u32) -> bool {
        self.range(task)
            .is_some_and(|range| (range.low..=range.high).contains(&period))
    }

    fn next_allowed(&self, task: u32, from: u32) -> Option<u32> {
        let range = self.range(task)?;
        let least = from.max(range.low);
        (least <= range.high).then_some(least)
    }
}
