//! Runs of neighbouring bits of one kind: all set (`K` is `Ones`), or all unset (`Zeros`).

ghost use Rattle.std.specs.Prelude.{◌+◌, ◌<◌, ◌≤◌, not, IfSome};
ghost use Rattle.bittle_ext.specs.RangeMembers.{kind_within};
ghost use Rattle.bittle_ext.specs.Runs.{cut_off, IsFirstRun};
ghost use Rattle.bittle.specs.Values.{kind_in, set_in, ShapeFits};
ghost use Rattle.bittle.specs.Walk.{ones_or_zeros};

use crate::short_runs::next_short_run;
use bittle::{Bits, Endian};
use bittle_bits::extension::{Back, Front, Kind, Sealed, end_in, first_from, word_width};
use std::marker::PhantomData;

/// The kind of bits that is not `K`: unset bits if `K` is `Ones`, else set bits.
#[derive(Drop)]
struct Others<K: Kind> {
    kind: PhantomData<K>,
}

impl<K: Kind> Kind for Others<K> {
    ghost ONES = { not K.ONES };

    const ONES: bool = !K::ONES;

    const SEAL: Sealed = Sealed {};
}

/// The greatest length, in words, of a run that is searched for word by word. The search for a
/// longer run makes two searches at each run that is too short. Two searches cost more than reading
/// this many words.
const FEW_WORDS: u32 = 4;

/// Returns the least index at or above `from` where a run of `length` bits of the kind `K` begins,
/// or `None` if there is no such run. A run of one bit is a bit, and is searched for as one.
#[inline]
pub fn next_run<B: Bits, E: Endian, K: Kind>(bits: &B, from: u32, length: u32) -> Option<u32>
    requires { ShapeFits B.Shape bits.now }
    ensures { IsFirstRun (ones_or_zeros K.ONES (set_in B.Shape E.Endian bits.now)) from length
        result }
{
    if length == 1 {
        return first_from::<B, E, K>(bits, from);
    }
    next_run_before::<B, E, K>(bits, from, bits.bits_capacity(), length)
}

/// Returns the least index at which a run of `length` bits of the kind `K` begins. The whole run
/// has to lie within `from..to`. It returns `None` if there is no such run. If `length` is 0, `to`
/// is ignored: an empty run begins at each index up to and including the capacity.
#[inline]
pub fn run_in_range<B: Bits, E: Endian, K: Kind>(
    bits: &B,
    from: u32,
    to: u32,
    length: u32,
) -> Option<u32>
    requires { ShapeFits B.Shape bits.now }
    ensures run { IsFirstRun (kind_within K.ONES (set_in B.Shape E.Endian bits.now) from to) from
        length result }
    ensures inside { from ≤ to → IfSome result (λ index. index + length ≤ to) }
{
    let capacity = bits.bits_capacity();
    let end = if length == 0 {
        capacity
    } else {
        to.min(capacity)
    };
    next_run_before::<B, E, K>(bits, from, end, length)
}

/// Returns the least index at or above `from` where a run of `length` bits of the kind `K` begins,
/// or `None` if there is no such run. The run must end at or before `end`. No word that begins at
/// or past `end` is read.
///
/// A run of at most `FEW_WORDS` words is found word by word. For a longer run, a first search finds
/// the next bit of the kind `K`. A second search finds the last bit of the other kind among the
/// `length` bits from there on. If it finds one, the first search goes on after that bit.
fn next_run_before<B: Bits, E: Endian, K: Kind>(
    bits: &B,
    from: u32,
    end: u32,
    length: u32,
) -> Option<u32>
    requires fits { ShapeFits B.Shape bits.now }
    requires within { end ≤ (B.big bits.now).capacity }
    ensures { IsFirstRun (cut_off end (kind_in B.Shape E.Endian K.Kind bits.now)) from length
        result }
{
    if end < from {
        return None;
    }
    if length == 0 {
        return Some(from);
    }
    if end - from < length {
        return None;
    }
    if length == 1 {
        return end_in::<B, E, K, Front>(bits, from, end);
    }
    let width = word_width::<B>();
    if (length - 1) / FEW_WORDS < width {
        let start = next_short_run::<B, E, K>(bits, from, end.div_ceil(width), length)?;
        return if start + length <= end {
            Some(start)
        } else {
            None
        };
    }
    let mut at = from;
    while let Some(start) = end_in::<B, E, K, Front>(bits, at, end) {
        if end - start < length {
            return None;
        }
        let Some(gap) = end_in::<B, E, Others<K>, Back>(bits, start, start + length) else {
            return Some(start);
        };
        at = gap + 1;
    }
    None
}
