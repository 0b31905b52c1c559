ghost use Rattle.std.specs.Prelude.{◌≡◌, ⊤, ℕ, ◌≤◌};

use std::alloc::AllocError;

pub mod list;

/// A list of at most `N` items, held in place. It is no `ArrayVec`, since that is never `Copy`, and
/// formulas are; nor do its items need a `Default`, which tokens and names have none of.
pub struct Bounded<T, const N: usize> {
    pub(crate) items: [T; N],
    pub(crate) count: usize,
    ghost few: { count ≤ N },
}

impl<T: Copy, const N: usize> Copy for Bounded<T, N> {}

impl<T: Copy, const N: usize> Clone for Bounded<T, N> {
    ghost is_clone = { λ old new. new ≡ old };

    ghost is_infallible = { λ _. ⊤ };

    fn clone(&self) -> Result<Self, AllocError> {
        Ok(*self)
    }
}
