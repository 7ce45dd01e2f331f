//! Iterators over a range of a set, and over its maximal runs.

ghost use Rattle.std.specs.Prelude.{◌≡◌};
ghost use Rattle.bittle_ext.specs.RangeMembers.{ListsWithin};
ghost use Rattle.bittle_ext.specs.Runs.{runs, AreRunsBelow, RunsInOrder, RunsInReverse};
ghost use Rattle.bittle.specs.PlainSet.{complement};
ghost use Rattle.bittle.specs.Values.{set_in, word_count, ShapeFits};
ghost use Rattle.bittle.specs.Walk.{AreBelow, IsFresh};

use crate::bits_span_ext::BitsSpanExt;
use crate::range_iterators::{IterOnesInRange, IterZerosInRange};
use crate::run_iterators::{IterOneRuns, IterRuns, IterZeroRuns};
use bittle::Bits;

/// Iterators over a range of a set, and over its maximal runs. A run is a range of bits that are
/// all set or all unset. A maximal run cannot be extended at either end.
///
/// The shape has to fit (`bits_capacity() < u32::MAX`). A range that goes past the capacity ends
/// there: no index wraps. The bit order (big- or little-endian) is that of the type; for another
/// order, use the view that [`in_order`](crate::BitsViewExt::in_order) returns.
pub trait BitsRangeExt: Bits + Sized {
    /// Returns a double-ended iterator over the indexes in `from..to` whose bits are set, in
    /// increasing order. Indexes follow the bit order of the type.
    ///
    /// The shape has to fit (`bits_capacity() < u32::MAX`). Past the capacity no bit is set, and a
    /// range that runs backwards is empty. Only the words of the range are read, each once; for an
    /// empty range one word may be read. With capacity 0 it yields nothing. The iterator borrows
    /// only the set, so a function that borrows the set may return the iterator.
    ///
    /// ```
    /// 0b0110_0010u8.iter_ones_in_range(1, 6);             // yields 1, 5
    /// ```
    #[inline]
    final fn iter_ones_in_range(&self, from: u32, to: u32) -> IterOnesInRange<'_, Self, Self::Order>
        requires { ShapeFits Self.Shape self.now }
        ensures items { ListsWithin (set_in Self.Shape Self.Order.Endian self.now) from to
            result.remaining }
        ensures fresh { IsFresh (word_count Self.Shape self.now) result }
        ensures below { AreBelow (Self.big self.now).capacity result.remaining }
    {
        self.iter_ones_in_span(from..to)
    }

    /// Returns an iterator over the indexes of the unset bits in `from..to`. Past the capacity no
    /// bit is unset. All else is as with [`iter_ones_in_range`](BitsRangeExt::iter_ones_in_range).
    ///
    /// ```
    /// 0b0110_0010u8.iter_zeros_in_range(1, 5);            // yields 2, 3, 4
    /// ```
    #[inline]
    final fn iter_zeros_in_range(
        &self,
        from: u32,
        to: u32,
    ) -> IterZerosInRange<'_, Self, Self::Order>
        requires { ShapeFits Self.Shape self.now }
        ensures items { ListsWithin (complement (set_in Self.Shape Self.Order.Endian self.now)) from
            to result.remaining }
        ensures fresh { IsFresh (word_count Self.Shape self.now) result }
        ensures below { AreBelow (Self.big self.now).capacity result.remaining }
    {
        self.iter_zeros_in_span(from..to)
    }

    /// Returns a double-ended iterator over the maximal runs of set bits, in increasing order. Each
    /// run is a range of indexes, which follow the bit order of the type.
    ///
    /// The shape has to fit (`bits_capacity() < u32::MAX`). Each word is read at most twice. The
    /// first step from the back also tests one bit. With capacity 0 it yields nothing.
    ///
    /// ```
    /// 0b0110_0010u8.iter_one_runs();                      // yields 1..2, 5..7
    /// ```
    #[inline]
    final fn iter_one_runs(&self) -> IterOneRuns<'_, Self, Self::Order>
        requires { ShapeFits Self.Shape self.now }
        ensures items { result ≡ runs (set_in Self.Shape Self.Order.Endian self.now) }
        ensures below { AreRunsBelow (Self.big self.now).capacity result }
        ensures in_order { RunsInOrder }
        ensures in_reverse { RunsInReverse }
    {
        IterRuns::new(self)
    }

    /// Returns an iterator over the maximal runs of unset bits. All else is as with
    /// [`iter_one_runs`](BitsRangeExt::iter_one_runs).
    ///
    /// ```
    /// 0b0110_0010u8.iter_zero_runs();                     // yields 0..1, 2..5, 7..8
    /// ```
    #[inline]
    final fn iter_zero_runs(&self) -> IterZeroRuns<'_, Self, Self::Order>
        requires { ShapeFits Self.Shape self.now }
        ensures items { result ≡ runs (complement (set_in Self.Shape Self.Order.Endian self.now)) }
        ensures below { AreRunsBelow (Self.big self.now).capacity result }
        ensures in_order { RunsInOrder }
        ensures in_reverse { RunsInReverse }
    {
        IterRuns::new(self)
    }
}

impl<B: Bits> BitsRangeExt for B {}
