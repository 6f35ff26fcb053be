ghost use Rattle.std.specs.Prelude.{◌≡◌, ◌≤◌, length};
ghost use Rattle.books.specs.Questions.{first_no, period_questions, rising_questions, told};

use crate::fault::EntryFault;
use crate::period::is_period;

// The periods of an entry stand in its fields from this one on. Both checks and the row that follows take a
// lent slice of at most eight: a type for that would be made by its caller's one test and live for three calls.
const FIRST_FIELD: u32 = 5;

// Refuses the first number that is no period.
pub(super) fn check_numbers(periods: &[u32]) -> Result<(), EntryFault>
    requires { length periods.now ≤ 8 }
    ensures answer { told result ≡ first_no (period_questions 5 periods.now) }
{
    for (k, period) in periods.iter().enumerate() {
        if !is_period(*period) {
            return Err(EntryFault::NumberOutOfRange {
                field: FIRST_FIELD + k as u32,
            });
        }
    }
    Ok(())
}

// Refuses the first period that is not above the one before it.
pub(super) fn check_rising(periods: &[u32]) -> Result<(), EntryFault>
    requires { length periods.now ≤ 8 }
    ensures answer { told result ≡ first_no (rising_questions 5 periods.now) }
{
    let Some((first, rest)) = periods.split_first() else {
        return Ok(());
    };
    let mut before = *first;
    for (k, period) in rest.iter().enumerate() {
        if *period <= before {
            return Err(EntryFault::NotRising {
                field: FIRST_FIELD + 1 + k as u32,
            });
        }
        before = *period;
    }
    Ok(())
}
