ghost use Rattle.std.specs.Prelude.{◌+◌, ◌≤◌, length};
ghost use Rattle.prepare.specs.Charges.{ChargesMade};

use books::Book;
use planning::Figures;
use run::{Planner, Refusal};

// Charges tasks in their order, the first of which has the given number.
pub(crate) fn charge_all<B: Book>(
    planner: &mut Planner<B>,
    first: u32,
    figures: &[Figures],
) -> Result<(), Refusal>
    requires { first + length figures.now ≤ 32 }
    ensures { ChargesMade B.Book.means planner.old planner.new first figures.now result }
{
    for (k, figures) in figures.iter().enumerate() {
        planner.charge(first + k as u32, figures.cost, figures.deadline)?;
    }
    Ok(())
}
