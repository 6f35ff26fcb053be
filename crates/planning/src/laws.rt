// The theory of placing jobs into frames, as contracts. Each function does nothing: what it ensures
// is a theorem over any jobs and any frames, with the definitions of specs/Placing.antt.
// The law of the chosen periods is over any book and any costs, with those of specs/Work.antt.

ghost use Rattle.planning.specs.Rows.{RowsAreFew, RowsAreOne};
ghost use Rattle.planning.specs.Theorems.{GreedyExists, GreedyIsOne, LoopFactsAreGreedy, FewGifts, PlacingTheorem, DivisorsFill};
ghost use Rattle.planning.specs.Work.{ChosenLeastWork};

// There is one greedy table and no more; the facts that a loop over the frames shows of its table hold
// just of that one; and its gifts are no more than the jobs and the frames.
pub fn greedy_table()
    ensures exists { GreedyExists }
    ensures one { GreedyIsOne }
    ensures made { LoopFactsAreGreedy }
    ensures few { FewGifts }
{}

// Some table fills the frames just where the greedy table leaves no job unfinished, and just where no
// run of frames is overloaded.
pub fn placing_theorem()
    ensures { PlacingTheorem }
{}

// Where some table fills frames of a size, some table fills frames of each divisor of it.
pub fn divisors_fill()
    ensures { DivisorsFill }
{}

// The chosen periods need the least work in a hyperperiod, whatever the tasks cost.
pub fn chosen_least_work()
    ensures { ChosenLeastWork }
{}

// A list of jobs and frames have one list of rows and no other, with no more rows than jobs and
// frames.
pub fn table_rows()
    ensures one { RowsAreOne }
    ensures few { RowsAreFew }
{}
