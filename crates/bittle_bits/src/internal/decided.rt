//! The least index that is a member of the result of an operation on two sets, found word by word.

ghost use Rattle.std.specs.Prelude.{◌≡◌, ◌<◌, min, true, IfSome, MatchOption};
ghost use Rattle.bittle_bits.specs.Decided.{decided_below, NoneDecidedBelow, IsFirstDecided};
ghost use Rattle.bittle_bits.specs.LawProofs.{none_past_decided, whole_lesser};
ghost use Rattle.bittle_bits.specs.Values.{set_in, ShapeFits};

use crate::endian::Endian;
use crate::internal::by_fours::first_in_words;
use crate::internal::sealed::Sealed;
use crate::kind::Ones;
use crate::operation::Operation;
use crate::read_words::{ReadWords, word_width};
use crate::shape::Shape;
use crate::word::Word;
use std::marker::PhantomData;

/// The set that is the result of an operation on two borrowed sets. Its capacity is the lesser of
/// their capacities. Each word of the result is computed when it is read; no word is stored. The
/// words of the two sets have the same width.
#[derive(Drop)]
struct Both<'a, A: Shape, B: Shape, O: Operation> {
    left: &'a A,
    right: &'a B,
    common: u32,
    operation: PhantomData<O>,
    ghost width: { A.width ≡ B.width },
    ghost left_fits: { ShapeFits A.Shape left.now },
    ghost right_fits: { ShapeFits B.Shape right.now },
    ghost lesser: { common ≡ min (A.big left.now).capacity (B.big right.now).capacity },
}

impl<'a, A: Shape, B: Shape, O: Operation> Shape for Both<'a, A, B, O> {
    type LeafWord = A::LeafWord;

    ghost width = { A.width };

    ghost indexable = { true };

    ghost big = { λ v. decided_below O.decide v.common (A.big v.left.now) (B.big v.right.now) };

    const SEAL: Sealed = Sealed {};
}

impl<'a, A: ReadWords, B: ReadWords, O: Operation> ReadWords for Both<'a, A, B, O> {
    ghost leaf_width = { A.leaf_width };

    ghost width_positive = { A.width_positive };

    ghost whole_words = { λ v. whole_lesser _ _ _ _ v.common v.width v.lesser
        (A.whole_words v.left.now) (B.whole_words v.right.now) };

    ghost none_past = { λ v. none_past_decided O.decide v.common (A.big v.left.now)
        (B.big v.right.now) };

    #[inline]
    fn capacity(&self) -> u32 {
        self.common
    }

    #[inline]
    fn nth_leaf_word(&self, k: usize) -> A::LeafWord {
        let theirs = self.right.nth_leaf_word(k).to_bits();
        let word = self.left.nth_leaf_word(k);
        O::on_words::<A::LeafWord>(word, <A::LeafWord as Word>::from_bits(theirs))
    }
}

impl<'a, A: ReadWords, B: ReadWords, O: Operation> Both<'a, A, B, O> {
    // Borrows two sets; `common` is the lesser of their capacities.
    #[inline]
    fn of(left: &'a A, right: &'a B, common: u32) -> Both<'a, A, B, O>
        requires width { A.width ≡ B.width }
        requires left_fits { ShapeFits A.Shape left.now }
        requires right_fits { ShapeFits B.Shape right.now }
        requires common { common ≡ min (A.big left.now).capacity (B.big right.now).capacity }
        ensures left { result.left.now ≡ left.now }
        ensures right { result.right.now ≡ right.now }
        ensures common { result.common ≡ common }
    {
        Both {
            left,
            right,
            common,
            operation: PhantomData,
        }
    }
}

/// Combines the first words of two sets by the operation `O`, and returns the least index of a set
/// bit of the result. It returns `None` if the result has no set bit, or if a set has no word. The
/// words of the two sets have the same width. `common` is the lesser of their capacities.
// The compiler inlines this small function. So if the first words decide, a caller makes no call.
#[inline]
pub fn first_decided_in_first_words<A: ReadWords, B: ReadWords, E: Endian, O: Operation>(
    left: &A,
    right: &B,
    common: u32,
) -> Option<u32>
    requires width { A.width ≡ B.width }
    requires left_fits { ShapeFits A.Shape left.now }
    requires right_fits { ShapeFits B.Shape right.now }
    requires common { common ≡ min (A.big left.now).capacity (B.big right.now).capacity }
    ensures first { let ours = set_in A.Shape E.Endian left.now in
        let theirs = set_in B.Shape E.Endian right.now in
        MatchOption result (NoneDecidedBelow O.decide ours theirs (min common A.width))
        (IsFirstDecided O.decide ours theirs) }
    ensures below { IfSome result (λ index. index < min common A.width) }
{
    if common < word_width::<A>() {
        return None;
    }
    first_in_words::<Both<'_, A, B, O>, E, Ones>(&Both::of(left, right, common), 1)
}

/// Combines two sets by the operation `O`, and returns the least index below both capacities whose
/// bit is set in the result, or `None` if there is no such index. The words of the two sets have
/// the same width. `common` is the lesser of their capacities.
#[inline]
pub fn first_decided_below<A: ReadWords, B: ReadWords, E: Endian, O: Operation>(
    left: &A,
    right: &B,
    common: u32,
) -> Option<u32>
    requires width { A.width ≡ B.width }
    requires left_fits { ShapeFits A.Shape left.now }
    requires right_fits { ShapeFits B.Shape right.now }
    requires common { common ≡ min (A.big left.now).capacity (B.big right.now).capacity }
    ensures first { let ours = set_in A.Shape E.Endian left.now in
        let theirs = set_in B.Shape E.Endian right.now in
        MatchOption result (NoneDecidedBelow O.decide ours theirs common)
        (IsFirstDecided O.decide ours theirs) }
    ensures below { IfSome result (λ index. index < common) }
{
    let words = common / word_width::<A>();
    first_in_words::<Both<'_, A, B, O>, E, Ones>(&Both::of(left, right, common), words)
}
