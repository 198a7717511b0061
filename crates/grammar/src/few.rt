//! A list of at most N items in fixed memory.
ghost use Rattle.std.specs.Prelude.{◌≡◌, ◌<◌, ◌≤◌, length};

use std::alloc::AllocError;

// Its own type: a grammar is `Copy`, and the lists of `arrayvec` are not.
/// The first `count` of `room`.
pub(crate) struct Few<T: Copy, const N: usize> {
    pub(crate) room: [T; N],
    pub(crate) count: u8,
    ghost whole: { length room ≡ N },
    ghost few: { count ≤ N },
}

// By hand: `Clone` is not derived for a generic type with ghost fields.
impl<T: Copy, const N: usize> Clone for Few<T, N> {
    ghost is_clone = { λ x y. y ≡ x };

    ghost is_infallible = { λ _. Unit {0} };

    fn clone(&self) -> Result<Few<T, N>, AllocError> {
        Ok(*self)
    }
}

impl<T: Copy, const N: usize> Copy for Few<T, N> {}
