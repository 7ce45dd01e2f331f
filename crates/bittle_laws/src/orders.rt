//! Laws of the two bit orders, and of every set in both orders. Each function does nothing, and its
//! contract is the law.

ghost use Rattle.std.specs.Prelude.{◌≡◌, true, false};
ghost use Rattle.bittle_laws.specs.OrderLaws.{PlacesAreInTheWord, PlacesAreDistinct, PlacesMirror};
ghost use Rattle.bittle_laws.specs.OrderLaws.{MembersMirror, MirroringTwiceIsNothing};
ghost use Rattle.bittle_laws.specs.OrderLaws.{MirroringStaysBelow, MirroringReachesAll};
ghost use Rattle.bittle_laws.specs.OrderLaws.{TestingWraps};
ghost use Rattle.bittle.specs.Values.{set_in};

use bittle::{BigEndian, Bits, DefaultEndian, Endian, LittleEndian};

/// States that the default order is big-endian. As this library uses the names, index 0 is the bit
/// of greatest weight of a word in little-endian order, and the bit of least weight in big-endian
/// order.
pub fn the_default_order_is_big_endian()
    ensures little { ⟦<LittleEndian as Endian>⟧.mirrored ≡ true }
    ensures big { ⟦<BigEndian as Endian>⟧.mirrored ≡ false }
    ensures default { ⟦<DefaultEndian as Endian>⟧.mirrored ≡ false }
{}

/// States that each index of a word has a place (the index of its bit in big-endian order) in that
/// word, and that no two indexes have the same place.
pub fn each_index_has_its_place<E: Endian>()
    ensures inside { PlacesAreInTheWord E.mirrored }
    ensures distinct { PlacesAreDistinct E.mirrored }
{}

/// States that the two orders mirror each other within each word.
pub fn orders_mirror_each_other()
    ensures little { PlacesMirror ⟦<LittleEndian as Endian>⟧.mirrored
        ⟦<BigEndian as Endian>⟧.mirrored }
    ensures big { PlacesMirror ⟦<BigEndian as Endian>⟧.mirrored
        ⟦<LittleEndian as Endian>⟧.mirrored }
{}

/// States that to mirror an index twice gives the index back. Also states that mirroring permutes
/// the indexes below a capacity of whole words.
pub fn mirroring_undoes_itself()
    ensures twice { MirroringTwiceIsNothing }
    ensures below { MirroringStaysBelow }
    ensures onto { MirroringReachesAll }
{}

/// States that the bit at an index in little-endian order is set exactly if the bit at the mirrored
/// index in big-endian order is set.
pub fn sets_mirror_each_other<B: Bits>(bits: &B)
    ensures { MembersMirror ⟦<LittleEndian as Endian>⟧.mirrored ⟦<BigEndian as Endian>⟧.mirrored
        B.width (B.big bits.now) }
{}

/// States that a test of an index has the same result as a test of the index modulo the capacity,
/// if the capacity is not 0.
pub fn testing_wraps<B: Bits, E: Endian>(bits: &B)
    ensures { TestingWraps (set_in B.Shape E.Endian bits.now) }
{}
