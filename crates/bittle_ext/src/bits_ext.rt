//! Everyday calls that read a set.

ghost use Rattle.std.specs.Prelude.{◌≡◌, ◌+◌, ◌-◌, ◌<◌, ◌≤◌, IfSome, MatchBool, MatchOption};
ghost use Rattle.std.specs.Prelude.{slice_get, true, false};
ghost use Rattle.bittle_ext.specs.RangeMembers.{HasSomeIn, HasAllIn, LacksSomeIn, members_within};
ghost use Rattle.bittle_ext.specs.Runs.{IsFirstRun};
ghost use Rattle.bittle.specs.PlainSet.{ascending, complement, contains, members_below, size};
ghost use Rattle.bittle.specs.Searches.{IsFirstIn, IsLastIn, NoneIn};
ghost use Rattle.bittle.specs.Values.{set_in, ShapeFits};

use crate::bits_span_ext::BitsSpanExt;
use crate::capacities::capacity_of;
use crate::runs;
use crate::select::{index_of_rank, word_of_rank};
use bittle::Bits;
use bittle_bits::extension::{Ones, Zeros, first_from, last_of, word_width};

/// Questions about any set, beyond the calls of [`Bits`].
///
/// The shape has to fit: its capacity, and that of each array type within it, is below `u32::MAX`.
/// `bits_capacity() < u32::MAX` checks this. No index wraps here: from the capacity on no bit is
/// set and none is unset. With capacity 0 no bit is found. The bit order (big- or little-endian) is
/// that of the type; for another order, use the view that
/// [`in_order`](crate::BitsViewExt::in_order) returns.
pub trait BitsExt: Bits + Sized {
    /// Returns the least index of a set bit, or `None` if no bit is set. Indexes follow the bit
    /// order of the type. Words are read from the first one on, up to the answer.
    ///
    /// ```
    /// 0b0010_0010u8.first_one();                          // Some(1)
    /// ```
    #[inline]
    #[tactic(auto, using(crate::proofs::FoundBits::set_at_first))]
    final fn first_one(&self) -> Option<u32>
        requires { ShapeFits Self.Shape self.now }
        ensures least { let ours = set_in Self.Shape Self.Order.Endian self.now in
            IsFirstIn ours 0 ours.capacity result }
        ensures some { let ours = set_in Self.Shape Self.Order.Endian self.now in
            MatchOption result (size ours ≡ 0) (λ _. 0 < size ours) }
        ensures found { IfSome result (λ index.
            contains (set_in Self.Shape Self.Order.Endian self.now) index ≡ true) }
    {
        first_from::<Self, Self::Order, Ones>(self, 0)
    }

    /// Returns the least index of an unset bit, or `None` if no bit is unset. Indexes follow the
    /// bit order of the type. Words are read from the first one on, up to the answer.
    ///
    /// ```
    /// 0b0000_0111u8.first_zero();                         // Some(3)
    /// ```
    #[inline]
    final fn first_zero(&self) -> Option<u32>
        requires { ShapeFits Self.Shape self.now }
        ensures least { let ours = set_in Self.Shape Self.Order.Endian self.now in
            IsFirstIn (complement ours) 0 ours.capacity result }
        ensures some { let ours = set_in Self.Shape Self.Order.Endian self.now in
            MatchOption result (size ours ≡ ours.capacity) (λ _. size ours < ours.capacity) }
        ensures found { IfSome result (λ index.
            contains (set_in Self.Shape Self.Order.Endian self.now) index ≡ false) }
    {
        first_from::<Self, Self::Order, Zeros>(self, 0)
    }

    /// Returns the greatest index of a set bit, or `None` if no bit is set. Indexes follow the bit
    /// order of the type. Words are read backward from the last one, down to the answer.
    ///
    /// ```
    /// 0b0010_0010u8.last_one();                           // Some(5)
    /// ```
    #[inline]
    #[tactic(auto, using(crate::proofs::FoundBits::set_at_last))]
    final fn last_one(&self) -> Option<u32>
        requires { ShapeFits Self.Shape self.now }
        ensures greatest { let ours = set_in Self.Shape Self.Order.Endian self.now in
            IsLastIn ours 0 ours.capacity result }
        ensures some { let ours = set_in Self.Shape Self.Order.Endian self.now in
            MatchOption result (size ours ≡ 0) (λ _. 0 < size ours) }
        ensures found { IfSome result (λ index.
            contains (set_in Self.Shape Self.Order.Endian self.now) index ≡ true) }
    {
        last_of::<Self, Self::Order, Ones>(self)
    }

    /// Returns the greatest index of an unset bit, or `None` if no bit is unset. Indexes follow the
    /// bit order of the type. Words are read backward from the last one, down to the answer.
    ///
    /// ```
    /// 0b1110_0000u8.last_zero();                          // Some(4)
    /// ```
    #[inline]
    final fn last_zero(&self) -> Option<u32>
        requires { ShapeFits Self.Shape self.now }
        ensures greatest { let ours = set_in Self.Shape Self.Order.Endian self.now in
            IsLastIn (complement ours) 0 ours.capacity result }
        ensures some { let ours = set_in Self.Shape Self.Order.Endian self.now in
            MatchOption result (size ours ≡ ours.capacity) (λ _. size ours < ours.capacity) }
        ensures found { IfSome result (λ index.
            contains (set_in Self.Shape Self.Order.Endian self.now) index ≡ false) }
    {
        last_of::<Self, Self::Order, Zeros>(self)
    }

    /// Returns the least index at or above `from` whose bit is set, or `None` if there is none. If
    /// `from` is at or past the capacity, it returns `None`. Indexes follow the bit order of the
    /// type. Words are read from the word of index `from` on, up to the answer.
    ///
    /// ```
    /// 0b0010_0010u8.next_one(2);                          // Some(5)
    /// ```
    #[inline]
    #[tactic(auto, using(crate::proofs::FoundBits::set_at_first))]
    final fn next_one(&self, from: u32) -> Option<u32>
        requires { ShapeFits Self.Shape self.now }
        ensures least { let ours = set_in Self.Shape Self.Order.Endian self.now in
            IsFirstIn ours from ours.capacity result }
        ensures found { IfSome result (λ index.
            contains (set_in Self.Shape Self.Order.Endian self.now) index ≡ true) }
    {
        first_from::<Self, Self::Order, Ones>(self, from)
    }

    /// Returns the least index at or above `from` whose bit is unset, or `None` if there is none.
    /// If `from` is at or past the capacity, it returns `None`. Indexes follow the bit order of the
    /// type. Words are read from the word of index `from` on, up to the answer.
    ///
    /// ```
    /// 0b0001_1110u8.next_zero(1);                         // Some(5)
    /// ```
    #[inline]
    final fn next_zero(&self, from: u32) -> Option<u32>
        requires { ShapeFits Self.Shape self.now }
        ensures least { let ours = set_in Self.Shape Self.Order.Endian self.now in
            IsFirstIn (complement ours) from ours.capacity result }
        ensures found { IfSome result (λ index.
            contains (set_in Self.Shape Self.Order.Endian self.now) index ≡ false) }
    {
        first_from::<Self, Self::Order, Zeros>(self, from)
    }

    /// Returns the greatest index below `to` whose bit is set, or `None` if there is none. A `to`
    /// past the capacity means the capacity. Indexes follow the bit order of the type. Words are
    /// read backward from the word of index `to - 1`, down to the answer.
    ///
    /// ```
    /// 0b0010_0010u8.prev_one(5);                          // Some(1)
    /// ```
    #[inline]
    #[tactic(auto, using(crate::proofs::FoundBits::set_at_last))]
    final fn prev_one(&self, to: u32) -> Option<u32>
        requires { ShapeFits Self.Shape self.now }
        ensures last { let ours = set_in Self.Shape Self.Order.Endian self.now in
            IsLastIn ours 0 to result }
        ensures below { IfSome result (λ index. index < (Self.big self.now).capacity) }
        ensures found { IfSome result (λ index.
            contains (set_in Self.Shape Self.Order.Endian self.now) index ≡ true) }
    {
        self.last_one_in::<Self::Order>(0, to.min(capacity_of::<Self, Self::Order>(self)))
    }

    /// Returns the greatest index below `to` whose bit is unset, or `None` if there is none. A `to`
    /// past the capacity means the capacity. Indexes follow the bit order of the type. Words are
    /// read backward from the word of index `to - 1`, down to the answer.
    ///
    /// ```
    /// 0b0001_1110u8.prev_zero(5);                         // Some(0)
    /// ```
    #[inline]
    final fn prev_zero(&self, to: u32) -> Option<u32>
        requires { ShapeFits Self.Shape self.now }
        ensures last { let ours = set_in Self.Shape Self.Order.Endian self.now in
            IsLastIn (complement ours) 0 to result }
        ensures below { IfSome result (λ index. index < (Self.big self.now).capacity) }
        ensures found { IfSome result (λ index.
            contains (set_in Self.Shape Self.Order.Endian self.now) index ≡ false) }
    {
        self.last_zero_in::<Self::Order>(0, to.min(capacity_of::<Self, Self::Order>(self)))
    }

    /// Returns how many bits with an index below `index` are set. Indexes follow the bit order of
    /// the type. An `index` past the capacity means the capacity. Each word below `index` is
    /// counted as a whole; a mask cuts the last one off at `index`.
    ///
    /// ```
    /// 0b0010_0010u8.rank(5);                              // 1
    /// ```
    #[inline]
    final fn rank(&self, index: u32) -> u32
        requires { ShapeFits Self.Shape self.now }
        ensures value { result
            ≡ members_below (set_in Self.Shape Self.Order.Endian self.now) index }
        ensures at_most { result ≤ (Self.big self.now).capacity }
        ensures at_most_index { result ≤ index }
        ensures at_most_all { result ≤ size (set_in Self.Shape Self.Order.Endian self.now) }
        ensures below_member { (set_in Self.Shape Self.Order.Endian self.now).has index ≡ true
            → result < size (set_in Self.Shape Self.Order.Endian self.now) }
        ensures none { NoneIn (set_in Self.Shape Self.Order.Endian self.now) 0 index
            → result ≡ 0 }
    {
        self.count_ones_in_range_in::<Self::Order>(
            0,
            index.min(capacity_of::<Self, Self::Order>(self)),
        )
    }

    /// Returns the index of the set bit that has exactly `rank` set bits below it, or `None` if at
    /// most `rank` bits are set. Indexes follow the bit order of the type.
    ///
    /// Each word up to the one that has the answer is counted as a whole. In that word the bit is
    /// found by halving, in six steps for a `u64`.
    ///
    /// ```
    /// 0b0010_0010u8.select(1);                            // Some(5)
    /// ```
    #[inline]
    final fn select(&self, rank: u32) -> Option<u32>
        requires { ShapeFits Self.Shape self.now }
        ensures value { result
            ≡ slice_get (ascending (set_in Self.Shape Self.Order.Endian self.now)) rank }
        ensures below { IfSome result (λ index. index < (Self.big self.now).capacity) }
        ensures found { MatchOption result
            (size (set_in Self.Shape Self.Order.Endian self.now) ≤ rank)
            (λ index. ((set_in Self.Shape Self.Order.Endian self.now).has index ≡ true)
            × (members_below (set_in Self.Shape Self.Order.Endian self.now) index ≡ rank)) }
    {
        let width = word_width::<Self>();
        match word_of_rank::<Self, Self::Order>(self, rank) {
            Some((k, rest)) => Some(k * width + index_of_rank::<Self, Self::Order>(self, k, rest)),
            None => None,
        }
    }

    /// Returns the least index in `from..to` whose bit is set, or `None` if there is none. Indexes
    /// follow the bit order of the type. A `to` past the capacity means the capacity, and a range
    /// that runs backwards is empty. The words of the range are read from the first one on, up to
    /// the answer.
    ///
    /// ```
    /// 0b0110_0010u8.first_one_in_range(2, 6);             // Some(5)
    /// ```
    #[inline]
    final fn first_one_in_range(&self, from: u32, to: u32) -> Option<u32>
        requires { ShapeFits Self.Shape self.now }
        ensures first { IsFirstIn (set_in Self.Shape Self.Order.Endian self.now) from to result }
        ensures below { IfSome result (λ index. index < (Self.big self.now).capacity) }
        ensures found { IfSome result (λ index.
            contains (set_in Self.Shape Self.Order.Endian self.now) index ≡ true) }
    {
        self.first_one_in_span(from..to)
    }

    /// Returns the least index in `from..to` whose bit is unset, or `None` if there is none. Past
    /// the capacity no bit is unset. All else is as with
    /// [`first_one_in_range`](BitsExt::first_one_in_range).
    ///
    /// ```
    /// 0b0110_0110u8.first_zero_in_range(1, 6);            // Some(3)
    /// ```
    #[inline]
    final fn first_zero_in_range(&self, from: u32, to: u32) -> Option<u32>
        requires { ShapeFits Self.Shape self.now }
        ensures first { IsFirstIn (complement (set_in Self.Shape Self.Order.Endian self.now)) from
            to result }
        ensures below { IfSome result (λ index. index < (Self.big self.now).capacity) }
        ensures found { IfSome result (λ index.
            contains (set_in Self.Shape Self.Order.Endian self.now) index ≡ false) }
    {
        self.first_zero_in_span(from..to)
    }

    /// Returns the greatest index in `from..to` whose bit is set, or `None` if there is none.
    /// Indexes follow the bit order of the type. A `to` past the capacity means the capacity, and a
    /// range that runs backwards is empty. The words of the range are read backward from the last
    /// one, down to the answer.
    ///
    /// ```
    /// 0b0110_0010u8.last_one_in_range(0, 6);              // Some(5)
    /// ```
    #[inline]
    final fn last_one_in_range(&self, from: u32, to: u32) -> Option<u32>
        requires { ShapeFits Self.Shape self.now }
        ensures last { IsLastIn (set_in Self.Shape Self.Order.Endian self.now) from to result }
        ensures below { IfSome result (λ index. index < (Self.big self.now).capacity) }
        ensures found { IfSome result (λ index.
            contains (set_in Self.Shape Self.Order.Endian self.now) index ≡ true) }
    {
        self.last_one_in_span(from..to)
    }

    /// Returns the greatest index in `from..to` whose bit is unset, or `None` if there is none.
    /// Past the capacity no bit is unset. All else is as with
    /// [`last_one_in_range`](BitsExt::last_one_in_range).
    ///
    /// ```
    /// 0b0110_0110u8.last_zero_in_range(0, 7);             // Some(4)
    /// ```
    #[inline]
    final fn last_zero_in_range(&self, from: u32, to: u32) -> Option<u32>
        requires { ShapeFits Self.Shape self.now }
        ensures last { IsLastIn (complement (set_in Self.Shape Self.Order.Endian self.now)) from to
            result }
        ensures below { IfSome result (λ index. index < (Self.big self.now).capacity) }
        ensures found { IfSome result (λ index.
            contains (set_in Self.Shape Self.Order.Endian self.now) index ≡ false) }
    {
        self.last_zero_in_span(from..to)
    }

    /// Returns how many bits with an index in `from..to` are set. Indexes follow the bit order of
    /// the type.
    ///
    /// The shape has to fit (`bits_capacity() < u32::MAX`). Past the capacity no bit is set, and a
    /// range that runs backwards is empty. The call goes word by word, not bit by bit. With
    /// capacity 0 it returns 0.
    ///
    /// ```
    /// 0b0110_0010u8.count_ones_in_range(1, 6);            // 2: bits 1 and 5
    /// ```
    #[inline]
    final fn count_ones_in_range(&self, from: u32, to: u32) -> u32
        requires { ShapeFits Self.Shape self.now }
        ensures value { let ours = set_in Self.Shape Self.Order.Endian self.now in
            result ≡ members_below ours to - members_below ours from }
        ensures at_most { result ≤ to - from }
        ensures at_most_capacity { result ≤ (Self.big self.now).capacity }
        ensures at_most_all { result ≤ size (set_in Self.Shape Self.Order.Endian self.now) }
        ensures all { HasAllIn (set_in Self.Shape Self.Order.Endian self.now) from to
            → result ≡ to - from }
        ensures none { NoneIn (set_in Self.Shape Self.Order.Endian self.now) from to
            → result ≡ 0 }
    {
        self.count_ones_in_span(from..to)
    }

    /// Returns how many bits with an index in `from..to` are unset. Indexes follow the bit order of
    /// the type.
    ///
    /// The shape has to fit (`bits_capacity() < u32::MAX`). Past the capacity no bit is unset, and
    /// a range that runs backwards is empty. The call goes word by word, not bit by bit. With
    /// capacity 0 it returns 0.
    ///
    /// ```
    /// 0b0110_0010u8.count_zeros_in_range(1, 6);           // 3: bits 2, 3 and 4
    /// ```
    #[inline]
    final fn count_zeros_in_range(&self, from: u32, to: u32) -> u32
        requires { ShapeFits Self.Shape self.now }
        ensures value { let others = complement (set_in Self.Shape Self.Order.Endian self.now) in
            result ≡ members_below others to - members_below others from }
        ensures at_most { result ≤ to - from }
        ensures at_most_capacity { result ≤ (Self.big self.now).capacity }
        ensures at_most_all { let others =
            complement (set_in Self.Shape Self.Order.Endian self.now) in
            result ≤ size others }
        ensures others { let ours = set_in Self.Shape Self.Order.Endian self.now in
            from ≤ to → to ≤ ours.capacity →
            result + (members_below ours to - members_below ours from) ≡ to - from }
    {
        self.count_zeros_in_span(from..to)
    }

    /// Returns `true` if some bit with an index in `from..to` is set. Indexes follow the bit order
    /// of the type.
    ///
    /// The shape has to fit (`bits_capacity() < u32::MAX`). Past the capacity no bit is set. For an
    /// empty range, or one that runs backwards, it returns `false`. Words are read up to the first
    /// set bit.
    ///
    /// ```
    /// 0b0110_0000u8.any_in_range(3, 6);                   // true: bit 5
    /// ```
    #[inline]
    final fn any_in_range(&self, from: u32, to: u32) -> bool
        requires { ShapeFits Self.Shape self.now }
        ensures { let ours = set_in Self.Shape Self.Order.Endian self.now in
            MatchBool result (HasSomeIn ours from to) (NoneIn ours from to) }
    {
        self.any_in_span(from..to)
    }

    /// Returns `true` if every bit with an index in `from..to` is set. Indexes follow the bit order
    /// of the type.
    ///
    /// The shape has to fit (`bits_capacity() < u32::MAX`). If the range has an index at or past
    /// the capacity, where no bit is set, the call returns `false`. For an empty range, or one that
    /// runs backwards, it returns `true`. Words are read up to the first unset bit.
    ///
    /// ```
    /// 0b0110_0000u8.all_in_range(5, 8);                   // false: bit 7 is unset
    /// 0b1110_0000u8.all_in_range(5, 9);                   // false: there is no bit 8
    /// ```
    #[inline]
    final fn all_in_range(&self, from: u32, to: u32) -> bool
        requires { ShapeFits Self.Shape self.now }
        ensures value { let ours = set_in Self.Shape Self.Order.Endian self.now in
            MatchBool result (HasAllIn ours from to) (LacksSomeIn ours from to) }
        ensures unset { let ours = set_in Self.Shape Self.Order.Endian self.now in
            to ≤ (Self.big self.now).capacity →
            MatchBool result (HasAllIn ours from to) (HasSomeIn (complement ours) from to) }
    {
        self.all_in_span(from..to)
    }

    /// Returns the least index at or above `from` where a run of `length` unset bits begins, or
    /// `None` if there is no such run. Indexes follow the bit order of the type.
    ///
    /// No run goes past the capacity. An empty run begins at each index up to and including the
    /// capacity: with `length` 0 it returns `from`, or `None` if `from` is greater than the
    /// capacity. If `length` is at most the width of four words, each word is read once, up to the
    /// end of the run. For a greater `length`, each run that is too short costs two searches by
    /// whole words.
    ///
    /// ```
    /// 0b0010_0001u8.next_zero_run(2, 2);                   // Some(2)
    /// ```
    #[inline]
    final fn next_zero_run(&self, from: u32, length: u32) -> Option<u32>
        requires { ShapeFits Self.Shape self.now }
        ensures run { IsFirstRun (complement (set_in Self.Shape Self.Order.Endian self.now))
            from length result }
        ensures free { IfSome result (λ index.
            NoneIn (set_in Self.Shape Self.Order.Endian self.now) index (index + length)) }
    {
        runs::next_run::<Self, Self::Order, Zeros>(self, from, length)
    }

    /// Returns the least index at which a run of `length` unset bits begins, or `None` if there is
    /// no such run. The call is [`next_zero_run`](BitsExt::next_zero_run) with `from` 0.
    ///
    /// ```
    /// 0b0100_1101u8.first_zero_run(2);                     // Some(4)
    /// ```
    #[inline]
    final fn first_zero_run(&self, length: u32) -> Option<u32>
        requires { ShapeFits Self.Shape self.now }
        ensures run { IsFirstRun (complement (set_in Self.Shape Self.Order.Endian self.now))
            0 length result }
        ensures free { IfSome result (λ index.
            NoneIn (set_in Self.Shape Self.Order.Endian self.now) index (index + length)) }
    {
        self.next_zero_run(0, length)
    }

    /// Returns the least index at or above `from` where a run of `length` set bits begins, or
    /// `None` if there is no such run. Indexes follow the bit order of the type.
    ///
    /// No run goes past the capacity. An empty run begins at each index up to and including the
    /// capacity: with `length` 0 it returns `from`, or `None` if `from` is greater than the
    /// capacity. If `length` is at most the width of four words, each word is read once, up to the
    /// end of the run. For a greater `length`, each run that is too short costs two searches by
    /// whole words.
    ///
    /// ```
    /// 0b0110_0011u8.next_one_run(1, 2);                    // Some(5)
    /// ```
    #[inline]
    final fn next_one_run(&self, from: u32, length: u32) -> Option<u32>
        requires { ShapeFits Self.Shape self.now }
        ensures { IsFirstRun (set_in Self.Shape Self.Order.Endian self.now) from length result }
    {
        runs::next_run::<Self, Self::Order, Ones>(self, from, length)
    }

    /// Returns the least index at which a run of `length` set bits begins, or `None` if there is no
    /// such run. The call is [`next_one_run`](BitsExt::next_one_run) with `from` 0.
    ///
    /// ```
    /// 0b0110_0001u8.first_one_run(2);                      // Some(5)
    /// ```
    #[inline]
    final fn first_one_run(&self, length: u32) -> Option<u32>
        requires { ShapeFits Self.Shape self.now }
        ensures { IsFirstRun (set_in Self.Shape Self.Order.Endian self.now) 0 length result }
    {
        self.next_one_run(0, length)
    }

    /// Returns the least index at which a run of `length` set bits begins. The whole run has to lie
    /// within `from..to`. It returns `None` if there is no such run. Indexes follow the bit order
    /// of the type.
    ///
    /// A `to` past the capacity means the capacity, and a range that runs backwards has no bit.
    /// With `length` 0 it returns `from`, or `None` if `from` is greater than the capacity. The
    /// call costs what [`next_one_run`](BitsExt::next_one_run) costs, and reads only words of the
    /// range.
    ///
    /// ```
    /// 0b0110_0111u8.first_one_run_in_range(1, 6, 2);       // Some(1)
    /// 0b0110_0011u8.first_one_run_in_range(1, 6, 2);       // None
    /// ```
    #[inline]
    final fn first_one_run_in_range(&self, from: u32, to: u32, length: u32) -> Option<u32>
        requires { ShapeFits Self.Shape self.now }
        ensures run { IsFirstRun (members_within (set_in Self.Shape Self.Order.Endian self.now)
            from to) from length result }
        ensures inside { from ≤ to → IfSome result (λ index. index + length ≤ to) }
    {
        runs::run_in_range::<Self, Self::Order, Ones>(self, from, to, length)
    }

    /// Returns the least index at which a run of `length` unset bits begins. The whole run has to
    /// lie within `from..to`. It returns `None` if there is no such run. Past the capacity no bit
    /// is unset. All else is as with [`first_one_run_in_range`](BitsExt::first_one_run_in_range).
    ///
    /// ```
    /// 0b0110_0011u8.first_zero_run_in_range(1, 6, 3);      // Some(2)
    /// ```
    #[inline]
    final fn first_zero_run_in_range(&self, from: u32, to: u32, length: u32) -> Option<u32>
        requires { ShapeFits Self.Shape self.now }
        ensures run { IsFirstRun (members_within (complement (set_in Self.Shape Self.Order.Endian
            self.now)) from to) from length result }
        ensures inside { from ≤ to → IfSome result (λ index. index + length ≤ to) }
        ensures free { IfSome result (λ index.
            NoneIn (set_in Self.Shape Self.Order.Endian self.now) index (index + length)) }
    {
        runs::run_in_range::<Self, Self::Order, Zeros>(self, from, to, length)
    }
}

impl<B: Bits> BitsExt for B {}
