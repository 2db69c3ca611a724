// A list of at most N items.
ghost use Rattle.std.specs.Prelude.{⊤, ◌≡◌, ◌≤◌, length};

use std::alloc::AllocError;

// The items are the first cells; no method gives those past them.
pub struct ArrayList<T, const N: usize> {
    cells: [T; N],
    count: usize,
    ghost wide: { length cells ≡ N },
    ghost few: { count ≤ N },
}

impl<T: Copy, const N: usize> Clone for ArrayList<T, N> {
    ghost is_clone = { λ a b. b ≡ a };

    ghost is_infallible = { λ _. ⊤ };

    fn clone(&self) -> Result<Self, AllocError> {
        Ok(*self)
    }
}

impl<T: Copy, const N: usize> Copy for ArrayList<T, N> {}

pub mod items;
