ghost use Rattle.std.specs.Prelude.{◌≡◌, ⊤, Ok, Result};

use std::convert::Infallible;

// Sees a searcher while it runs. It is a trait and no closure, so that a run asks nothing of its caller.
pub trait Watch<S> {
    type Error;

    // What one sight does: the watch before, the searcher that it sees, its answer, the watch after.
    ghost sees: { Self → S → Result (Unit {0}) Self.Error → Self → Type 0 };

    fn see(&mut self, searcher: &S) -> Result<(), Self::Error>
        ensures { sees self.old searcher.now result self.new };
}

// Sees nothing, and never fails.
#[derive(Drop)]
pub(crate) struct Unwatched;

impl<S> Watch<S> for Unwatched {
    type Error = Infallible;

    ghost sees = { λ _ _ r _. r ≡ Ok tt };

    fn see(&mut self, _searcher: &S) -> Result<(), Infallible> {
        Ok(())
    }
}
