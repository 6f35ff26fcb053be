ghost use Rattle.std.specs.Prelude.{◌≡◌};
ghost use Rattle.books.specs.Periods.{is_a_period};

pub(crate) const LONGEST_PERIOD: u32 = 200_000;

// A period is a number from 1 to 200,000.
pub(crate) fn is_period(number: u32) -> bool
    ensures value { result ≡ is_a_period number }
{
    (1..=LONGEST_PERIOD).contains(&number)
}
