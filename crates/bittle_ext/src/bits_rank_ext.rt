//! Calls that count unset bits below an index, and that find an unset bit by its rank.

ghost use Rattle.std.specs.Prelude.{◌≡◌, ◌+◌, ◌<◌, ◌≤◌, true, false, IfSome, MatchOption};
ghost use Rattle.std.specs.Prelude.{slice_get};
ghost use Rattle.bittle.specs.PlainSet.{ascending, complement, contains, members_below, size};
ghost use Rattle.bittle.specs.Values.{set_in, ShapeFits};

use crate::bits_ext::BitsExt;
use crate::views::BitsViewExt;
use bittle::Bits;

/// Counts of unset bits, and searches for an unset bit by its rank. The rank of an unset bit is how
/// many unset bits have a lower index. Indexes follow the bit order of the type.
pub trait BitsRankExt: Bits + Sized {
    /// Returns how many bits below `index` are unset. An `index` past the capacity means the
    /// capacity.
    ///
    /// The shape has to fit (`bits_capacity() < u32::MAX`). The words below `index` are read. With
    /// capacity 0 it returns 0.
    ///
    /// ```
    /// 0b0010_0010u8.rank_zero(5);                         // 4: bits 0, 2, 3 and 4
    /// ```
    #[inline]
    final fn rank_zero(&self, index: u32) -> u32
        requires { ShapeFits Self.Shape self.now }
        ensures value { result ≡ members_below
            (complement (set_in Self.Shape Self.Order.Endian self.now)) index }
        ensures at_most { result ≤ (Self.big self.now).capacity }
        ensures at_most_index { result ≤ index }
        ensures at_most_all { result
            ≤ size (complement (set_in Self.Shape Self.Order.Endian self.now)) }
        ensures below_member { let unset = complement
            (set_in Self.Shape Self.Order.Endian self.now) in
            unset.has index ≡ true → result < size unset }
        ensures others { let ours = set_in Self.Shape Self.Order.Endian self.now in
            index ≤ ours.capacity → result + members_below ours index ≡ index }
    {
        self.count_zeros_in_range(0, index)
    }

    /// Returns the index of the unset bit that has exactly `rank` unset bits below it, or `None` if
    /// no more than `rank` bits are unset, as with capacity 0.
    ///
    /// The shape has to fit (`bits_capacity() < u32::MAX`). Each word up to the one that has the
    /// answer is counted as a whole.
    ///
    /// ```
    /// 0b0010_0010u8.select_zero(1);                       // Some(2)
    /// ```
    #[inline]
    final fn select_zero(&self, rank: u32) -> Option<u32>
        requires { ShapeFits Self.Shape self.now }
        ensures value { result ≡ slice_get
            (ascending (complement (set_in Self.Shape Self.Order.Endian self.now))) rank }
        ensures below { IfSome result (λ index. index < (Self.big self.now).capacity) }
        ensures found { let unset = complement (set_in Self.Shape Self.Order.Endian self.now) in
            MatchOption result (size unset ≤ rank) (λ index. (unset.has index ≡ true)
            × (members_below unset index ≡ rank)) }
        ensures unset { IfSome result
            (λ index. contains (set_in Self.Shape Self.Order.Endian self.now) index ≡ false) }
    {
        self.complement_view().select(rank)
    }
}

impl<B: Bits> BitsRankExt for B {}
