// Printing the plan that stands, and a refusal: the lines are measured, and written where they fit.

ghost use Rattle.run.specs.Account.{Account};
ghost use Rattle.run.specs.Agrees.{Agrees};
ghost use Rattle.printer.specs.Printed.{PlanPrinted, Written};
ghost use Rattle.printer.specs.Text.{refused_line, text_of};

use crate::line::{line_len, write_line};
use crate::lines::write_lines;
use crate::measure::room_left;
use crate::refusal::PrintRefusal;
use books::Book;
use planning::Plan;
use run::Planner;
use sheets::Notice;

// Prints the plan that stands: its line, a line for each task's period, a line for each row. The buffer is its
// caller's, and the answer tells how much of it was written.
pub fn print<B: Book>(planner: &Planner<B>, out: &mut [u8]) -> Result<usize, PrintRefusal>
    ensures { (a : Account) → Agrees B.Book.means planner.now a → PlanPrinted (B.Book.means planner.now.book) a.plan out.old out.new result }
{
    let plan = planner.standing().ok_or(PrintRefusal::NoPlan)?;
    print_plan(plan, out)
}

// Prints a refusal.
pub fn print_notice(notice: Notice, out: &mut [u8]) -> Result<usize, PrintRefusal>
    ensures { Written (refused_line notice.number notice.sheet notice.line notice.field) out.old out.new result }
{
    let numbers = [notice.number, notice.sheet, notice.line, notice.field];
    if line_len(b"refused", &numbers) > out.len() {
        return Err(PrintRefusal::TooShort);
    }
    Ok(write_line(out, b"refused", &numbers))
}

// Prints a plan where its text fits.
pub(crate) fn print_plan(plan: &Plan, out: &mut [u8]) -> Result<usize, PrintRefusal>
    ensures { Written (text_of plan.now) out.old out.new result }
{
    let jobs = plan.jobs();
    let slices = plan.row_count();
    let numbers = [plan.hyperperiod(), plan.frame_size(), jobs, slices];
    let periods = plan.periods();
    let rows = plan.rows();
    room_left(&numbers, periods, rows, out.len()).ok_or(PrintRefusal::TooShort)?;
    let mut at = write_line(out, b"plan", &numbers);
    at += write_lines(&mut out[at..], periods);
    at += write_lines(&mut out[at..], rows);
    Ok(at)
}
