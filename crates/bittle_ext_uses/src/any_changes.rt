//! Changes of sets of any shape.

ghost use Rattle.std.specs.Prelude.{◌≡◌, ◌≤◌, nat_lt, Bool, IsTrue, MatchOption};
ghost use Rattle.std.specs.List.{fold};
ghost use Rattle.std.specs.List.Retain.{IsFiltered};
ghost use Rattle.bittle.specs.PlainSet.{ascending, complement, contains};
ghost use Rattle.bittle.specs.PlainSet.{with_index, without_index, without_span};
ghost use Rattle.bittle.specs.Searches.{IsFirstIn};
ghost use Rattle.bittle.specs.Values.{set_in, set_mirrored, ShapeFits};
ghost use Rattle.bittle_ext.specs.Changes.{those_passing};

use bittle::{Bits, BitsMut, BitsOwned, Endian};
use bittle_ext::{BitsIndexMutExt, BitsMutExt, BitsMutViewExt, BitsOwnedExt};

/// Clears the bits of a range.
pub fn clear<B: BitsMut, E: Endian>(set: &mut B, from: u32, to: u32)
    requires fits { ShapeFits B.Shape set.old }
    requires ordered { from ≤ to }
    requires within { to ≤ (B.big set.old).capacity }
    ensures cleared { set_in B.Shape E.Endian set.new
        ≡ without_span (set_in B.Shape E.Endian set.old) from to }
    ensures stays { B.loan set.old ≡ B.loan set.new }
{
    set.in_order_mut::<E>().assign_range(from, to, false);
}

/// Sets the bit at each of the indexes, and returns how many of them are past the last bit. The
/// invariant of the loop says that the set still fits.
pub fn add_each<B: BitsMut>(set: &mut B, indexes: &[u32]) -> usize
    requires { ShapeFits B.Shape set.old }
    ensures { ShapeFits B.Shape set.new }
{
    let mut out = 0usize;
    for index in indexes.iter() {
        if !set.try_set_bit(*index) {
            out = out.saturating_add(1);
        }
    }
    out
}

/// Flips each bit, and returns how many bits are set after that.
pub fn flip<B: BitsMut>(set: &mut B) -> u32
    requires { ShapeFits B.Shape set.old }
    ensures { (mirrored : Bool) → set_mirrored B.Shape mirrored set.new
        ≡ complement (set_mirrored B.Shape mirrored set.old) }
{
    set.complement_assign();
    set.count_ones()
}

/// Clears all bits but those below a bound.
pub fn keep_below<B: BitsMut>(set: &mut B, bound: u32)
    requires { ShapeFits B.Shape set.old }
    ensures { set_in B.Shape B.Order.Endian set.new
        ≡ those_passing (λ i. nat_lt i bound) (set_in B.Shape B.Order.Endian set.old) }
{
    set.retain(|index| index < bound);
}

/// Clears all bits but those for which a closure of the caller's returns `true`. The closure has to
/// be callable with any index, which is more than `retain` requires.
#[tactic(auto, using(bittle_ext::proofs::CallableBelow::always_below))]
pub fn keep_those<B: BitsMut, E: Endian, F: FnMut(u32) -> bool>(set: &mut B, keep: F)
    requires fits { ShapeFits B.Shape set.old }
    requires callable { F.IsAlwaysCallable keep }
    ensures filtered { IsFiltered F.step keep (ascending (set_in B.Shape E.Endian set.old))
        (ascending (set_in B.Shape E.Endian set.new)) }
    ensures stays { B.loan set.old ≡ B.loan set.new }
{
    set.in_order_mut::<E>().retain(keep);
}

/// Sets the least unset bit, and returns its index. If each bit is set, it changes nothing and
/// returns `None`.
pub fn take_slot<B: BitsMut>(slots: &mut B) -> Option<u32>
    requires { ShapeFits B.Shape slots.old }
    ensures least { let free = complement (set_in B.Shape B.Order.Endian slots.old) in
        IsFirstIn free 0 free.capacity result }
    ensures taken { MatchOption result (slots.new ≡ slots.old)
        (λ slot. set_in B.Shape B.Order.Endian slots.new
        ≡ with_index (set_in B.Shape B.Order.Endian slots.old) slot) }
{
    slots.take_first_zero()
}

/// Returns the set of the bits that are unset.
pub fn others<B: BitsOwned>(set: B) -> B
    requires { IsTrue B.indexable }
    ensures { set_in B.Shape B.Order.Endian result
        ≡ complement (set_in B.Shape B.Order.Endian set) }
{
    set.complement()
}

/// Sets in `set` each bit that is set in `other`. The two sets may have different shapes. An index
/// past the capacity of `set` wraps.
pub fn unite<A: BitsMut, B: Bits>(set: &mut A, other: &B)
    requires indexable { IsTrue A.indexable }
    requires other_fits { ShapeFits B.Shape other.now }
    ensures { set_in A.Shape A.Order.Endian set.new
        ≡ fold with_index (set_in A.Shape A.Order.Endian set.old)
        (ascending (set_in B.Shape B.Order.Endian other.now)) }
{
    set.extend(other.iter_ones());
}

/// Clears the least set bit, and returns its index, or `None` if no bit is set. The only bound of
/// the type is the extension trait `BitsMutExt`.
pub fn take_least_of<B: BitsMutExt>(set: &mut B) -> Option<u32>
    requires { ShapeFits B.Shape set.old }
    ensures least { let before = set_in B.Shape B.Order.Endian set.old in
        IsFirstIn before 0 before.capacity result }
    ensures stays { B.loan set.old ≡ B.loan set.new }
{
    set.pop_first()
}

/// Clears bit `index` of `one`, and returns whether the bit was set. Gives bit `index` of `other`
/// the value that is returned.
pub fn hand_over<B: BitsMutExt>(one: &mut B, other: &mut B, index: u32) -> bool
    requires { IsTrue B.indexable }
    ensures was { result ≡ contains (set_in B.Shape B.Order.Endian one.old) index }
    ensures one { set_in B.Shape B.Order.Endian one.new
        ≡ without_index (set_in B.Shape B.Order.Endian one.old) index }
{
    let was = one.remove(index);
    other.assign(index, was);
    was
}
