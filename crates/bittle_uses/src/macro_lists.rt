//! Uses of the macros `set!`, `set_le!` and `set_be!`, on any type. The check refuses a macro that
//! makes a wrong set from a list. The three macros differ only in the calls that they make for an
//! index, for a range `a..b` and for a range `a..=b`. So each of them makes the first list, which
//! has all three, and `set!` alone makes the others.
//!
//! Together the lists cover these cases. An item of each kind stands before an item of another
//! kind. Indexes stand beside indexes, and ranges beside ranges. An index is the first item of some
//! list and the last of another, and so is a range. Some range begins at 0, some range begins later
//! in the first word, and some range begins past the first word.

ghost use Rattle.std.specs.Prelude.{◌≡◌, IsTrue};
ghost use Rattle.bittle_uses.specs.MacroLists.{listed_set, listed_open_set, listed_whole_set};
ghost use Rattle.bittle_uses.specs.MacroLists.{listed_ranges_set};
ghost use Rattle.bittle.specs.Values.{set_in};

use bittle::{BigEndian, BitsOwned, Endian, LittleEndian};

pub mod indexes;

/// Makes the set of a list that has an index first, then ranges.
pub fn listed<B: BitsOwned>(index: u32) -> B
    requires { IsTrue B.indexable }
    ensures { set_in B.Shape B.Order.Endian result ≡ listed_set B.type_capacity index }
{
    bittle::set![index, 2..=3, 5..7, 9..4, 14..]
}

/// Makes the set of the same list as [`listed`], in little-endian order.
pub fn listed_le<B: BitsOwned>(index: u32) -> B
    requires { IsTrue B.indexable }
    ensures { set_in B.Shape ⟦<LittleEndian as Endian>⟧ result ≡ listed_set B.type_capacity index }
{
    bittle::set_le![index, 2..=3, 5..7, 9..4, 14..]
}

/// Makes the set of the same list as [`listed`], in big-endian order.
pub fn listed_be<B: BitsOwned>(index: u32) -> B
    requires { IsTrue B.indexable }
    ensures { set_in B.Shape ⟦<BigEndian as Endian>⟧ result ≡ listed_set B.type_capacity index }
{
    bittle::set_be![index, 2..=3, 5..7, 9..4, 14..]
}

/// Makes the set of a list that has an open range first, and an index last.
pub fn listed_open<B: BitsOwned>(index: u32) -> B
    requires { IsTrue B.indexable }
    ensures { set_in B.Shape B.Order.Endian result ≡ listed_open_set B.type_capacity index }
{
    bittle::set![100.., 2..=3, 70..75, 9, index]
}

/// Makes the set of a list that is one open range, which has all indexes.
pub fn listed_whole<B: BitsOwned>() -> B
    requires { IsTrue B.indexable }
    ensures { set_in B.Shape B.Order.Endian result ≡ listed_whole_set B.type_capacity }
{
    bittle::set![0..]
}

/// Makes the set of a list that has two ranges `a..=b`, then two ranges `a..b`.
pub fn listed_ranges<B: BitsOwned>() -> B
    requires { IsTrue B.indexable }
    ensures { set_in B.Shape B.Order.Endian result ≡ listed_ranges_set B.type_capacity }
{
    bittle::set![1..=2, 4..=5, 7..9, 10..12]
}
