ghost use Rattle.std.specs.Prelude.{◌≡◌, ◌≤◌, length, find, nat_le};
ghost use Rattle.books.specs.Periods.{Lawful, OneToEight, periods_of};
ghost use Rattle.books.specs.Sets.{is_among};

use crate::list_book::PeriodRow;

impl PeriodRow {
    // The row of a task that may have the periods listed.
    pub(super) fn holding(periods: &[u32]) -> PeriodRow
        requires { length periods.now ≤ 8 }
        ensures len { result.len ≡ length periods.now }
        ensures value { periods_of result ≡ periods.now }
    {
        let len = periods.len();
        let mut copy = [1; 8];
        copy[..len].copy_from_slice(periods);
        PeriodRow { periods: copy, len }
    }

    // The periods of the row.
    fn listed(&self) -> &[u32]
        requires { OneToEight self.now }
        ensures { result.now ≡ periods_of self.now }
    {
        &self.periods[..self.len]
    }

    // Whether the period is one of the row's.
    pub(super) fn holds(&self, period: u32) -> bool
        requires { Lawful self.now }
        ensures value { result ≡ is_among (periods_of self.now) period }
    {
        self.listed().contains(&period)
    }

    // The row's first period at or above `from`, which is the least, since they rise.
    pub(super) fn next_from(&self, from: u32) -> Option<u32>
        requires { Lawful self.now }
        ensures value { result ≡ find (λ p. nat_le from p) (periods_of self.now) }
    {
        self.listed().iter().copied().find(|period| *period >= from)
    }
}
