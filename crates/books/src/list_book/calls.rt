ghost use Rattle.std.specs.Prelude.{◌≡◌, ◌+◌, ◌<◌, IfSome, MatchResult, slice_set};
ghost use Rattle.std.specs.Option.{SomeIff, option_copied};
ghost use Rattle.books.specs.Periods.{Lawful};
ghost use Rattle.books.specs.Questions.{first_no, list_questions, told};
ghost use Rattle.books.specs.Sets.{Adds, Empty, is_among, lists_of, row_at};

use crate::book::Book;
use crate::fault::EntryFault;
use crate::list_book::entry::{check_numbers, check_rising};
use crate::list_book::{ListBook, PeriodRow};

impl ListBook {
    // A book of no tasks.
    pub fn new() -> ListBook
        ensures empty { Empty (lists_of result) }
    {
        ListBook {
            rows: [PeriodRow {
                periods: [1; 8],
                len: 1,
            }; 16],
            used: 0,
        }
    }

    // Adds a task that may have the periods listed.
    pub fn add(&mut self, periods: &[u32]) -> Result<(), EntryFault>
        ensures answer { told result ≡ first_no (list_questions periods.now (lists_of self.old).count) }
        ensures after { MatchResult result (λ _. Adds (lists_of self.old) (lists_of self.new) (is_among periods.now)) (λ _. self.new ≡ self.old) }
    {
        if periods.is_empty() || periods.len() > 8 {
            return Err(EntryFault::PeriodCount);
        }
        check_numbers(periods)?;
        check_rising(periods)?;
        if self.used >= 16 {
            return Err(EntryFault::TooManyTasks);
        }
        *self = self.with(PeriodRow::holding(periods));
        Ok(())
    }

    // The book with one task more, which has the periods of the row.
    fn with(self, row: PeriodRow) -> ListBook
        requires room { self.used < 16 }
        requires lawful { Lawful row }
        ensures rows { result.rows ≡ slice_set self.rows self.used row }
        ensures used { result.used ≡ self.used + 1 }
    {
        let mut rows = self.rows;
        rows[self.used] = row;
        ListBook {
            rows,
            used: self.used + 1,
        }
    }

    // The row of a task, if there is such a task.
    fn row(&self, task: u32) -> Option<&PeriodRow>
        ensures lawful { IfSome result (λ row. Lawful row.now) }
        ensures value { SomeIff (option_copied result) (task < self.now.used) (row_at self.now task) }
    {
        self.rows[..self.used].get(task as usize)
    }
}

impl Book for ListBook {
    ghost means = { lists_of };

    fn count(&self) -> u32 {
        self.used as u32
    }

    fn allows(&self, task: u32, period: u32) -> bool {
        // A match, since `holds` asks that the row is lawful, which a closure does not know of its row.
        match self.row(task) {
            Some(row) => row.holds(period),
            None => false,
        }
    }

    fn next_allowed(&self, task: u32, from: u32) -> Option<u32> {
        self.row(task)?.next_from(from)
    }
}
