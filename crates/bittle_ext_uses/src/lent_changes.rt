//! Changes of slices that a caller lends.

ghost use Rattle.std.specs.Prelude.{◌≡◌, ◌*◌, ◌<◌, ◌≤◌, length, not, true, IsTrue, MatchOption};
ghost use Rattle.bittle.specs.BitPatterns.{bit_set};
ghost use Rattle.bittle.specs.Orders.{read_in};
ghost use Rattle.bittle.specs.PlainSet.{complement, contains, with_index, without_index};
ghost use Rattle.bittle.specs.PlainSet.{without_span};
ghost use Rattle.bittle.specs.Rows.{row_set};
ghost use Rattle.bittle.specs.Searches.{IsFirstIn};
ghost use Rattle.bittle.specs.Values.{set_in};

use bittle::{BitsMut, Endian, LittleEndian, Set};
use bittle_ext::{BitsMutExt, BitsMutViewExt};

/// Clears the bits of a range.
pub fn clear(words: &mut [u64], from: u32, to: u32)
    requires fits { length words.old * 64 < 4294967295 }
    requires ordered { from ≤ to }
    requires within { to ≤ length words.old * 64 }
    ensures { row_set (length words.new) 64 (bit_set 64) words.new
        ≡ without_span (row_set (length words.old) 64 (bit_set 64) words.old) from to }
{
    let mut held = (words,);
    let lent = &mut held;
    lent.0.clear_range(from, to);
}

/// Sets a bit of a slice of any length, and returns whether it was unset.
pub fn add(words: &mut [u64], index: u32) -> bool
    ensures was_unset { result ≡ not (contains
        (row_set (length words.old) 64 (bit_set 64) words.old) index) }
    ensures set { row_set (length words.new) 64 (bit_set 64) words.new
        ≡ with_index (row_set (length words.old) 64 (bit_set 64) words.old) index }
{
    let mut held = (words,);
    let lent = &mut held;
    lent.0.insert(index)
}

/// Clears the least set bit, and returns its index. If no bit is set, it changes nothing and
/// returns `None`.
pub fn take_least(words: &mut [u64]) -> Option<u32>
    requires { length words.old * 64 < 4294967295 }
    ensures least { IsFirstIn (row_set (length words.old) 64 (bit_set 64) words.old)
        0 (length words.old * 64) result }
    ensures taken { MatchOption result (words.new ≡ words.old)
        (λ index. row_set (length words.new) 64 (bit_set 64) words.new
        ≡ without_index (row_set (length words.old) 64 (bit_set 64) words.old) index) }
{
    let mut held = (words,);
    let lent = &mut held;
    lent.0.pop_first()
}

/// Flips each bit.
pub fn flip(words: &mut [u8])
    requires { length words.old * 8 < 4294967295 }
    ensures { row_set (length words.new) 8 (bit_set 8) words.new
        ≡ complement (row_set (length words.old) 8 (bit_set 8) words.old) }
{
    let mut set = Set::from_mut(words);
    set.complement_assign();
}

/// Sets bit `index` of any set, and returns whether it was unset. The index follows the order `E`.
pub fn add_in<B: BitsMut, E: Endian>(set: &mut B, index: u32) -> bool
    requires { IsTrue B.indexable }
    ensures was_unset { result ≡ not (contains (set_in B.Shape E.Endian set.old) index) }
    ensures set { set_in B.Shape E.Endian set.new
        ≡ with_index (set_in B.Shape E.Endian set.old) index }
    ensures stays { B.loan set.old ≡ B.loan set.new }
{
    set.in_order_mut::<E>().insert(index)
}

/// Sets bit `index` of a slice of any length, and returns whether it was unset. The index follows
/// the little-endian order. The call changes the caller's slice through a view.
pub fn add_le(words: &mut [u64], index: u32) -> bool
    ensures was_unset { result ≡ not (contains (read_in true 64
        (row_set (length words.old) 64 (bit_set 64) words.old)) index) }
    ensures set { read_in true 64 (row_set (length words.new) 64 (bit_set 64) words.new)
        ≡ with_index (read_in true 64 (row_set (length words.old) 64 (bit_set 64) words.old))
        index }
{
    let mut held = (words,);
    let lent = &mut held;
    add_in::<_, LittleEndian>(&mut lent.0, index)
}

/// Clears the bits of a range of a slice. The indexes of the range follow the order `E`.
pub fn clear_in<E: Endian>(words: &mut [u64], from: u32, to: u32)
    requires fits { length words.old * 64 < 4294967295 }
    requires ordered { from ≤ to }
    requires within { to ≤ length words.old * 64 }
    ensures { read_in E.mirrored 64 (row_set (length words.new) 64 (bit_set 64) words.new)
        ≡ without_span (read_in E.mirrored 64
        (row_set (length words.old) 64 (bit_set 64) words.old)) from to }
{
    let mut set = Set::<&mut [u64], E>::new_in(words);
    set.clear_range(from, to);
}
