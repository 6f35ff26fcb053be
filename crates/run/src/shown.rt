// How a granted plan and a refusal are printed: their numbers, parted by commas. An impl for each, since
// each has its own fields.

ghost use Rattle.std.specs.Prelude.{[], ◌∷◌, Some};
ghost use Rattle.books.specs.Shown.{commas};
ghost use Rattle.run.specs.Refusals.{number as number_of, place as place_of};

use crate::planner::calls::Granted;
use crate::refusal::Refusal;
use std::fmt;

// Its hyperperiod, its frame size, and how many jobs and rows it has.
impl fmt::Display for Granted {
    ghost output = { λ plan. Some (commas (plan.hyperperiod ∷ plan.frame_size ∷ plan.jobs ∷ plan.rows ∷ [])) };

    fn fmt<W: fmt::Write>(&self, f: &mut fmt::Formatter<W>) -> fmt::Result {
        write!(
            f,
            "{},{},{},{}",
            self.hyperperiod, self.frame_size, self.jobs, self.rows
        )
    }
}

// Its number and its place.
impl fmt::Display for Refusal {
    ghost output = { λ refusal. Some (commas (number_of refusal ∷ place_of refusal ∷ [])) };

    fn fmt<W: fmt::Write>(&self, f: &mut fmt::Formatter<W>) -> fmt::Result {
        write!(f, "{},{}", self.number(), self.place())
    }
}
