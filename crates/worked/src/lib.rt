// Worked figures of the planner, small enough to follow by hand. The function does nothing: what it
// ensures is that the rules find these figures.
#![tactic(auto)]

ghost use Rattle.worked.specs.Worked.{WorkedFigures};

// The worked figures hold of the rules.
pub fn worked_figures()
    ensures { WorkedFigures }
{}
