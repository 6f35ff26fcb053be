ghost use Rattle.std.specs.Prelude.{IfOk, MatchResult};
ghost use Rattle.planning.specs.Plans.{Nothing, PlanDue, Planned};
ghost use Rattle.planning.specs.Refusals.{number, place};

use books::Book;
use planning::{Figures, Plan, Refusal, Workspace, make_plan};
use std::alloc::{AllocError, Global};

// The memory that plans are made in, taken once, and the plan that was made last.
#[derive(Drop)]
pub struct PlanSpace {
    space: Workspace,
    plan: Plan,
}

impl PlanSpace {
    // The memory, with a plan of nothing.
    pub fn new(heap: Global) -> Result<PlanSpace, AllocError>
        ensures { IfOk result (λ space. Nothing space.plan) }
    {
        let space = Workspace::new(heap)?;
        let plan = Plan::none(heap)?;
        Ok(PlanSpace { space, plan })
    }

    // Makes the plan of a book and its tasks' figures, and shows it.
    pub fn plan<B: Book>(
        &mut self,
        book: &B,
        figures: &[Option<Figures>],
        ceiling: u32,
    ) -> Result<&Plan, Refusal>
        ensures { MatchResult result (λ plan. Planned (B.Book.means book.now) figures.now ceiling plan.now) (λ refusal. PlanDue (B.Book.means book.now) figures.now ceiling (number refusal) (place refusal)) }
    {
        make_plan(book, figures, ceiling, &mut self.space, &mut self.plan)?;
        Ok(&self.plan)
    }
}

#[cfg(test)]
mod tests {
    use super::*;
    use crate::enter::entered;
    use crate::periods::Only;
    use crate::task::{Task, figures_of};
    use std::test::Fail;

    // The example (4,3,3) has 1 as its only frame size.
    #[test]
    fn a_plan_is_made_and_shown(rt: HostRuntime) -> Result<(), Fail> {
        let mut space = PlanSpace::new(rt.alloc())?;
        let tasks = [Task::new(Only(4), 3, 3)];
        let figures = figures_of(rt.alloc(), &tasks)?;
        match space.plan(&entered(&tasks), &figures, 100) {
            Ok(plan) => assert_eq!(rt; plan.frame_size(), 1),
            Err(refusal) => assert_eq!(rt; refusal.number(), 0),
        }
        Ok(())
    }
}
