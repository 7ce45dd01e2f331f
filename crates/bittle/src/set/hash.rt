//! What a set feeds to a hasher.

ghost use Rattle.std.specs.Cmp.Lexicographic.{bytes_decides};
ghost use Rattle.std.specs.Hash as fed;
ghost use Rattle.std.specs.Hash.{on_Alike, same_Alike};
ghost use Rattle.std.specs.Iterator.{IsFinite};
ghost use Rattle.std.specs.List.{flat_map, fold};
ghost use Rattle.std.specs.Prelude.{◌≡◌, ◌<◌, length};
ghost use Rattle.bittle_bits.specs.PlainSet.{ascending};
ghost use Rattle.bittle_bits.specs.Values.{set_in};
ghost use Rattle.bittle.specs.Comparison.{feed};

use super::Set;
use bittle_bits::bits::Bits;
use bittle_bits::endian::Endian;
use bittle_bits::extension::Counted;
use std::hash::{Hash, Hasher};

/// Feeds the hasher the index of each set bit in increasing order, and then the number of set bits.
/// Each of these numbers is a `u32`. Equal sets feed the same numbers, even if they wrap slices of
/// unequal length.
impl<T: Bits, E: Endian> Hash for Set<T, E> {
    ghost hash_input = { λ s. feed (ascending (set_in T.Shape E.Endian s.bits)) };

    ghost respects_eq = { (on_Alike (λ s. ascending (set_in T.Shape E.Endian s.bits))
        (same_Alike feed bytes_decides)).fed };

    fn hash<H: Hasher>(&self, state: &mut H) {
        let count = feed_all(self.bits.iter_ones_in::<E>(), state);
        state.write_u32(count);
    }
}

// Feeds the items of an iterator to the hasher, and returns the number of items.
fn feed_all<I: Counted + Drop, H: Hasher>(indexes: I, state: &mut H) -> u32
    requires ends { IsFinite (I.remaining indexes) }
    requires few { length (I.walk indexes).remaining < 4294967295 }
    ensures count { result ≡ length (I.walk indexes).remaining }
    ensures fed { fold H.write state.old (flat_map fed.u32 (I.walk indexes).remaining) ≡ state.new }
{
    let mut count = 0;
    for index in indexes {
        state.write_u32(index);
        count += 1;
    }
    count
}
