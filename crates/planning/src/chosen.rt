// The chosen period of a task: its greatest allowed divisor of the hyperperiod.

ghost use Rattle.planning.specs.Hyperperiod.{ChosenOrNone};

use crate::hyperperiod::HIGHEST;
use books::Book;

// The greatest period allowed to the task that divides the number; none where no allowed period
// does, or where the number is not one that a hyperperiod can be, from 1 to 1,000,000. The
// quotients rise from 1, so the first hit is the greatest, and the least period bounds them.
pub fn chosen_period<B: Book>(book: &B, task: u32, number: u32) -> Option<u32>
    ensures { ChosenOrNone (B.Book.means book.now) number task result }
{
    if !(1..=HIGHEST).contains(&number) {
        return None;
    }
    let least = book.next_allowed(task, 1)?;
    for times in 1..number / least + 1 {
        let period = number / times;
        if period * times == number && book.allows(task, period) {
            return Some(period);
        }
    }
    None
}
