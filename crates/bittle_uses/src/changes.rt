//! Changes of the bits at one or two indexes. `insert` and `remove` also return what the bit was
//! before the change.

ghost use Rattle.std.specs.Prelude.{◌≡◌, not, IsTrue, if◌then◌else◌};
ghost use Rattle.bittle.specs.PlainSet.{contains, with_index, without_index};
ghost use Rattle.bittle.specs.Values.{set_in};

use bittle::BitsMut;
use bittle_ext::BitsMutExt;

/// Sets the bit at `index`, and returns whether that bit was unset before. An index at or past the
/// capacity wraps. With capacity 0 the call returns `true`, and nothing changes.
pub fn insert<B: BitsMut>(set: &mut B, index: u32) -> bool
    requires { IsTrue B.indexable }
    ensures was_none { result ≡ not (contains (set_in B.Shape B.Order.Endian set.old) index) }
    ensures set { set_in B.Shape B.Order.Endian set.new
        ≡ with_index (set_in B.Shape B.Order.Endian set.old) index }
    ensures stays { B.loan set.old ≡ B.loan set.new }
{
    set.insert(index)
}

/// Clears the bit at `index`, and returns whether that bit was set before. An index at or past the
/// capacity wraps. With capacity 0 the call returns `false`.
pub fn remove<B: BitsMut>(set: &mut B, index: u32) -> bool
    requires { IsTrue B.indexable }
    ensures was_member { result ≡ contains (set_in B.Shape B.Order.Endian set.old) index }
    ensures set { set_in B.Shape B.Order.Endian set.new
        ≡ without_index (set_in B.Shape B.Order.Endian set.old) index }
    ensures stays { B.loan set.old ≡ B.loan set.new }
{
    set.remove(index)
}

/// If the bit at `from` is set, clears it and then sets the bit at `to`. Otherwise nothing changes.
/// An index at or past the capacity wraps.
pub fn move_bit<B: BitsMut>(set: &mut B, from: u32, to: u32)
    requires { IsTrue B.indexable }
    ensures set { let before = set_in B.Shape B.Order.Endian set.old in
        set_in B.Shape B.Order.Endian set.new
        ≡ (if contains before from then with_index (without_index before from) to else before) }
    ensures stays { B.loan set.old ≡ B.loan set.new }
{
    if set.test_bit(from) {
        set.clear_bit(from);
        set.set_bit(to);
    }
}
