// Whole runs of calls.

ghost use Rattle.std.specs.Prelude.{IfOk};
ghost use Rattle.run.specs.Account.{empty};
ghost use Rattle.run.specs.Law.{Lawful};

use crate::call::{Answer, Call};
use crate::planner::Planner;
use books::Book;
use std::alloc::{AllocError, Global};

// Carries out a list of calls on a planner just made, and gives the answers. The law holds over the
// whole list, whatever the calls are and whichever of them are refused.
pub fn drive<B: Book + Drop>(
    heap: Global,
    book: B,
    calls: &[Call],
) -> Result<Vec<Answer>, AllocError>
    ensures { IfOk result (λ answers. Lawful (B.Book.means book) empty calls.now answers.items) }
{
    let mut answers = Vec::with_capacity(heap, calls.len())?;
    let mut planner = Planner::new(heap, book)?;
    // A loop, since each call changes the planner that the next one is carried out on.
    for call in calls {
        let answer = planner.carry(*call);
        answers.push_reserved(answer);
    }
    Ok(answers)
}
