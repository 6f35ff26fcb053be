ghost use Rattle.std.specs.Prelude.{◌≡◌};
ghost use Rattle.books.specs.Meaning.{Meaning, Fair, LeastFrom};

// A book of periods, by what it means. No question is refused, whatever numbers are asked. A task and
// a number are asked as they come: a type for both would say no more than they do. What every book owes is
// promised with each answer and is no law of the trait: a law would be owed of numbers that the fields of a
// book can't hold, and is not known of a book behind a `dyn`.
pub trait Book {
    ghost means: { Self → Meaning };

    // How many tasks there are: 0 to 16, or 17 for more than 16.
    fn count(&self) -> u32
        ensures value { result ≡ (means self.now).count }
        ensures fair { Fair (means self.now) };

    // Whether the task may have the period.
    fn allows(&self, task: u32, period: u32) -> bool
        ensures value { result ≡ (means self.now).allowed task period }
        ensures fair { Fair (means self.now) };

    // The least period at or above `from` that the task may have.
    fn next_allowed(&self, task: u32, from: u32) -> Option<u32>
        ensures least { LeastFrom ((means self.now).allowed task) from result }
        ensures fair { Fair (means self.now) };
}
