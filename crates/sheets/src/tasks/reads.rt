ghost use Rattle.std.specs.Prelude.{◌≡◌, length};
ghost use Rattle.sheets.specs.Reads.{figures_held};

use crate::tasks::Tasks;
use books::Book;

impl<B: Book> Tasks<B> {
    // How many tasks there are.
    pub fn count(&self) -> usize
        ensures { result ≡ length (figures_held self.now) }
    {
        self.figures.len()
    }

    // The book of the tasks' periods.
    pub fn book(&self) -> &B
        ensures { result.now ≡ self.now.book }
    {
        &self.book
    }
}
