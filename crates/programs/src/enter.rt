// What may be entered into a book, and books of what is entered.

ghost use Rattle.std.specs.Prelude.{◌≡◌, ℕ, Bool, List, MatchResult};
ghost use Rattle.books.specs.Questions.{Question, first_no, told};
ghost use Rattle.books.specs.Sets.{Adds, Empty};
ghost use Rattle.programs.specs.Entered.{EnteredIn};

use books::{Book, EntryFault};

// What a book takes as one task: the questions that are put to it there, and the periods that the task
// may have afterwards.
pub trait Enter {
    type In: Book + Drop;

    ghost questions: { Self → ℕ → List Question };

    ghost allowed: { Self → ℕ → Bool };

    // Adds the task, or leaves the book as it was.
    fn enter(&self, book: &mut Self::In) -> Result<(), EntryFault>
        ensures answer { told result ≡ first_no (questions self.now (Self.In.means book.old).count) }
        ensures after { MatchResult result (λ _. Adds (Self.In.means book.old) (Self.In.means book.new) (allowed self.now)) (λ _. book.new ≡ book.old) };

    // A book of no tasks.
    fn empty() -> Self::In
        ensures { Empty (Self.In.means result) };
}

// The book of these tasks, entered in order; those that are refused are left out.
pub fn entered<T: Enter>(tasks: &[T]) -> T::In
    ensures { EnteredIn T.In.means T.questions T.allowed tasks.now result }
{
    let mut book = T::empty();
    for task in tasks {
        let _ = task.enter(&mut book);
    }
    book
}
