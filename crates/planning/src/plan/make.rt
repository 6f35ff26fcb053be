// The planning call.

ghost use Rattle.planning.specs.Plans.{PlanAnswered};

use crate::job::Figures;
use crate::periods::{chosen_periods, seek_charged};
use crate::plan::Plan;
use crate::refusal::Refusal;
use crate::sizes::largest_size;
use crate::windows::count_jobs;
use crate::workspace::Workspace;
use books::Book;

// Makes the plan of a book and its tasks' figures, under questions 4 to 9. Book and ceiling come as they
// do to `seek`. It works in the
// workspace and takes no memory; where it is refused, the plan stays as it was.
pub fn make_plan<B: Book>(
    book: &B,
    figures: &[Option<Figures>],
    ceiling: u32,
    space: &mut Workspace,
    plan: &mut Plan,
) -> Result<(), Refusal>
    ensures { PlanAnswered (B.Book.means book.now) figures.now ceiling plan.old plan.new result }
{
    let hyperperiod = seek_charged(book, figures, ceiling)?;
    let periods = chosen_periods(book, hyperperiod);
    let jobs = count_jobs(hyperperiod, periods.as_slice());
    if jobs > 1024 {
        return Err(Refusal::TooManyJobs);
    }
    space
        .jobs
        .list_anew(hyperperiod, periods.as_slice(), figures);
    let Some(frame_size) = largest_size(
        hyperperiod,
        &space.jobs,
        &mut space.table,
        &mut space.slots,
    ) else {
        return Err(Refusal::EverySizeFails);
    };
    plan.hyperperiod = hyperperiod;
    plan.frame_size = frame_size;
    plan.frames = hyperperiod / frame_size;
    plan.periods = periods;
    plan.jobs = jobs;
    std::mem::swap(&mut plan.rows, &mut space.table.rows);
    Ok(())
}
