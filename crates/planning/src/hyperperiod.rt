// The least hyperperiod: every task has one candidate, a number that serves it, and the least
// candidate moves to its task's next number at or above the highest one, until all agree.

ghost use Rattle.std.specs.Prelude.{◌≡◌, ℕ, ◌<◌, ◌≤◌, MatchResult, slice_index_or};
ghost use Rattle.orders.specs.Held.{held};
ghost use Rattle.orders.specs.Models.{candidate_le};
ghost use Rattle.orders.specs.Order.{Sound};
ghost use Rattle.planning.specs.Candidates.{Found, Searched};
ghost use Rattle.planning.specs.Refusals.{CeilingInRange, CountInRange, RangeDue, Sought, number, place};

use crate::multiples::next_serving;
use crate::refusal::Refusal;
use books::Book;
use orders::{Candidate, Heap};
use std::array;

// The highest ceiling, and so the highest number that a hyperperiod can be.
pub(crate) const HIGHEST: u32 = 1_000_000;

// The search for the least hyperperiod, once the ceiling and the count of tasks are in range.
#[derive(Drop)]
pub(crate) struct Search<'a, B: Book> {
    book: &'a B,
    pub(crate) count: u32,
    ceiling: u32,
    ghost ceiling_fits: { CeilingInRange ceiling },
    ghost count_fits: { CountInRange (B.Book.means book.now) },
    ghost count_is: { count ≡ (B.Book.means book.now).count },
}

// The least number from 1 to the ceiling that serves the book. Book and ceiling come as they are asked: once
// their questions got a yes they are a `Search`.
pub fn seek<B: Book>(book: &B, ceiling: u32) -> Result<u32, Refusal>
    ensures { Sought (B.Book.means book.now) ceiling result }
{
    Search::new(book, ceiling)?.least()
}

impl<'a, B: Book> Search<'a, B> {
    // Puts the first two questions.
    pub(crate) fn new(book: &'a B, ceiling: u32) -> Result<Search<'a, B>, Refusal>
        ensures { MatchResult result (λ s. (s.book.now ≡ book.now) × (s.ceiling ≡ ceiling)) (λ e. RangeDue (B.Book.means book.now) ceiling (number e) (place e)) }
    {
        if !(1..=HIGHEST).contains(&ceiling) {
            return Err(Refusal::CeilingOutOfRange);
        }
        let count = book.count();
        if !(1..=16).contains(&count) {
            return Err(Refusal::CountOutOfRange);
        }
        Ok(Search {
            book,
            count,
            ceiling,
        })
    }

    // The least number that serves, by a candidate for each task.
    pub(crate) fn least(&self) -> Result<u32, Refusal>
        ensures { Found (B.Book.means self.now.book.now) self.now.ceiling result }
    {
        // Memory for the heap, which takes over as many as there are tasks.
        let mut slots = unmoved();
        let mut candidates = Heap::new(&mut slots, self.count as usize);
        self.agreement(&mut candidates)
    }

    // Moves the least candidate until all are at the highest number, or one has no number left.
    fn agreement(&self, candidates: &mut Heap<'_, Candidate>) -> Result<u32, Refusal>
        requires sound { Sound candidate_le (held candidates.old) }
        requires start { Searched (B.Book.means self.now.book.now) 1 (held candidates.old) }
        ensures { Found (B.Book.means self.now.book.now) self.now.ceiling result }
    {
        let mut highest = 1;
        while let Some(least) = candidates.take() {
            if least.number == highest {
                return Ok(highest);
            }
            let next = next_serving(self.book, least.task, highest, self.ceiling);
            highest = next.ok_or(Refusal::NothingServes)?;
            let _ = candidates.push(Candidate {
                number: highest,
                task: least.task,
            });
        }
        unreachable()
    }
}

// A candidate for each task, at no number yet.
fn unmoved() -> [Candidate; 16]
    ensures { (k : ℕ) (d : Candidate) → k < 16 → slice_index_or result k d ≡ record { number = 0; task = k } }
{
    array::from_fn(|task| Candidate {
        number: 0,
        task: task as u32,
    })
}
