// The least multiple, without dividing by every period that the task may have: short periods are
// multiplied up one by one, and for long ones the possible quotients are walked and the book is
// asked only where an improvement is possible.

ghost use Rattle.std.specs.Prelude.{ℕ, ◌+◌, ◌<◌, ◌≤◌, IfSome};
ghost use Rattle.planning.specs.Hyperperiod.{NextServing};
ghost use Rattle.planning.specs.Multiples.{asked, Before, Bounds, Lowered, LoweredBy};

use crate::multiples::Multiples;
use books::Book;

// Periods from here on are looked for by their quotients.
const LONG: u32 = 700;

impl<B: Book> Multiples<'_, B> {
    // The least of them.
    pub(super) fn least(&self) -> Option<u32>
        ensures { NextServing (B.Book.means self.now.book.now) self.now.task self.now.from self.now.limit result }
    {
        let best = self.by_all();
        if best <= self.limit { Some(best) } else { None }
    }

    // The least of them, or the number past the limit where there is none: each search lowers a
    // bound that begins there, so that nothing found needs no case of its own.
    fn by_all(&self) -> u32
        ensures lowered { Lowered (asked B.Book.means self.now) (self.now.limit + 1) result }
        ensures bounds { Bounds (asked B.Book.means self.now) result (λ _. Unit {0}) }
    {
        let (short, rest) = self.by_period();
        match rest {
            Some(first) => self.by_quotient(first, short),
            None => short,
        }
    }

    // Lowers the number past the limit to the multiples of short periods, and gives the first
    // period that was not looked at.
    fn by_period(&self) -> (u32, Option<u32>)
        ensures lowered { Lowered (asked B.Book.means self.now) (self.now.limit + 1) result.0 }
        ensures bounds { Bounds (asked B.Book.means self.now) result.0 (Before result.1) }
        ensures first { IfSome result.1 (λ p. (1 ≤ p) × (p ≤ 200000)) }
    {
        let mut best = self.limit + 1;
        let mut at = 1;
        // A `while`, since each turn goes past the period that the book gave, and not by one.
        while let Some(period) = self.book.next_allowed(self.task, at) {
            if period >= LONG || period >= best || best <= self.from {
                return (best, Some(period));
            }
            best = best.min(self.from.div_ceil(period) * period);
            at = period + 1;
        }
        (best, None)
    }

    // Lowers the bound to the multiples of the periods from `first` on: for each possible quotient
    // the least allowed period is the best.
    fn by_quotient(&self, first: u32, bound: u32) -> u32
        requires { (self.now.from ≤ bound) × (bound ≤ 1000001) × (1 ≤ first) × (first ≤ 200000) }
        ensures lowered { Lowered (asked B.Book.means self.now) bound result }
        ensures bounds { Bounds (asked B.Book.means self.now) result (λ p. first ≤ p) }
    {
        let mut best = bound;
        for times in (1..=self.from.div_ceil(first)).rev() {
            if best <= self.from {
                break;
            }
            let period = self.from.div_ceil(times);
            if period * times < best {
                best = self.lowered_by(period, times, best);
            }
        }
        best
    }

    // The bound, or what `times` the least allowed period from `low` on makes, where that is lower.
    fn lowered_by(&self, low: u32, times: u32, bound: u32) -> u32
        requires { 1 ≤ times }
        ensures { LoweredBy (asked B.Book.means self.now) low times bound result }
    {
        match self.book.next_allowed(self.task, low) {
            Some(period) => period.saturating_mul(times).min(bound),
            None => bound,
        }
    }
}
