//! The two ends of a set, its front and its back. A function that has an end as a type parameter
//! serves both ends with one body.

ghost use Rattle.std.specs.Prelude.{◌≡◌, Bool, true, false, cond};

/// An end of a set: the [`Front`] or the [`Back`].
pub trait End {
    ghost FRONT: { Bool };

    const FRONT: bool;
}

/// The front of a set, where the least member is.
pub enum Front {}

/// The back of a set, where the greatest member is.
pub enum Back {}

impl End for Front {
    ghost FRONT = { true };

    const FRONT: bool = true;
}

impl End for Back {
    ghost FRONT = { false };

    const FRONT: bool = false;
}

/// Returns `front` if the end `N` is the front, and else `back`.
#[inline]
pub fn at_end<N: End>(front: u32, back: u32) -> u32
    ensures { result ≡ cond N.FRONT front back }
{
    if N::FRONT { front } else { back }
}

/// Returns `front` if the end `N` is the front, and else `back`. Each of the two is the number of a
/// word.
#[inline(always)]
pub fn words_at_end<N: End>(front: usize, back: usize) -> usize
    ensures { result ≡ cond N.FRONT front back }
{
    if N::FRONT { front } else { back }
}
