//! Views of the result of an operation on two sets, of any word widths and orders.

ghost use Rattle.std.specs.Prelude.{◌≡◌, ◌<◌, ◌≤◌, Bool, false, true, refl, max, ⊤, IsTrue, IfSome};
ghost use Rattle.std.specs.Option.{is_some};
ghost use Rattle.bittle_ext.specs.Combined.{decided_set};
ghost use Rattle.bittle_ext.specs.ViewLaws.{none_past_both, whole_words_of};
ghost use Rattle.bittle_ext.specs.Views.{decided_until, decided_of_first, read_back};
ghost use Rattle.bittle_ext.specs.Views.{rounded_up, HoldsBoth};
ghost use Rattle.bittle.specs.PlainSet.{ascending};
ghost use Rattle.bittle.specs.Values.{set_in, ShapeFits};

use crate::capacities::capacity_of;
use crate::other_words::{Part, Reach, Whole, other_word, word_or_empty};
use crate::views::by_groups::{passed_by_groups, told_of_both};
use crate::views::by_words::{count, is_empty, is_full, passed, test};
use bittle::{Bits, Endian, Shape};
use bittle_bits::extension::{
    Conjunction, Difference, End, Kind, Ones, Operation, ReadWords, Sealed, SymmetricDifference,
    Union, are_alike, word_width,
};
use std::alloc::AllocError;
use std::marker::PhantomData;

/// A view of the indexes whose bits are set in both of two sets.
pub type AndView<'a, A, B, E, F> = OfBoth<'a, A, B, E, F, Conjunction>;

/// A view of the indexes whose bits are set in the first of two sets and not in the second.
pub type MinusView<'a, A, B, E, F> = OfBoth<'a, A, B, E, F, Difference>;

/// A view of the indexes whose bits are set in at least one of two sets.
pub type OrView<'a, A, B, E, F> = OfBoth<'a, A, B, E, F, Union>;

/// A view of the indexes whose bits are set in exactly one of two sets.
pub type XorView<'a, A, B, E, F> = OfBoth<'a, A, B, E, F, SymmetricDifference>;

/// An operation on two sets whose result a view shows.
pub trait ViewOperation: Operation {
    /// Returns `true` only if every set bit of the result is set in the first set too. This decides
    /// how the words of the first set are read.
    #[doc(hidden)]
    #[inline(always)]
    fn keeps_to_first() -> bool
        ensures { IsTrue result → (b : Bool) → Self.decide false b ≡ false }
    {
        false
    }

    /// Returns `true` only if every set bit of the result is set in the second set too. This
    /// decides which words are skipped.
    #[doc(hidden)]
    #[inline(always)]
    fn keeps_to_second() -> bool
        ensures { IsTrue result → (a : Bool) → Self.decide a false ≡ false }
    {
        false
    }

    // A bit that is unset in both sets is unset in the result.
    ghost keeps_empty: { Self.decide false false ≡ false };
}

/// An operation on two sets. Where the first set's bit is unset, the result has the bit of the
/// second set.
pub trait EitherOperation: ViewOperation {
    ghost takes_second: { (b : Bool) → Self.decide false b ≡ b };
}

impl ViewOperation for Union {
    ghost keeps_empty = { refl };
}

impl EitherOperation for Union {
    ghost takes_second = { λ _. refl };
}

impl ViewOperation for SymmetricDifference {
    ghost keeps_empty = { refl };
}

impl EitherOperation for SymmetricDifference {
    ghost takes_second = { λ _. refl };
}

/// An operation on two sets. Every set bit of the result is set in the first set too.
pub trait FirstOperation: ViewOperation {
    ghost keeps_first: { (b : Bool) → Self.decide false b ≡ false };
}

impl ViewOperation for Conjunction {
    ghost keeps_empty = { refl };

    #[inline(always)]
    fn keeps_to_first() -> bool {
        true
    }

    #[inline(always)]
    fn keeps_to_second() -> bool {
        true
    }
}

impl FirstOperation for Conjunction {
    ghost keeps_first = { λ _. refl };
}

impl ViewOperation for Difference {
    ghost keeps_empty = { refl };

    #[inline(always)]
    fn keeps_to_first() -> bool {
        true
    }
}

impl FirstOperation for Difference {
    ghost keeps_first = { λ _. refl };
}

// Returns `true` if three conditions hold: each set bit of the result is set in both sets, the
// words of both sets have the same width, and both sets can tell which groups of words may have a
// set bit.
#[inline(always)]
fn combines_groups<A: ReadWords, B: ReadWords, O: ViewOperation>() -> bool
    ensures width { IsTrue result → A.width ≡ B.width }
    ensures first { IsTrue result → (b : Bool) → O.decide false b ≡ false }
    ensures second { IsTrue result → (a : Bool) → O.decide a false ≡ false }
{
    O::keeps_to_first()
        && O::keeps_to_second()
        && word_width::<A>() == word_width::<B>()
        && A::tells_groups::<Ones>()
        && B::tells_groups::<Ones>()
}

/// A view of the result of the operation `O` on two borrowed sets. The first set is read in the
/// order `E`, and the second in the order `F`. The view is a set of words of the first set's type,
/// read in the order `E`.
///
/// Each word is computed when it is read. If the words of the two sets differ in width or order,
/// the second set's words with bits of that word are converted. `R` says whether every word that is
/// read is known to exist in both sets.
#[derive(Drop)]
pub struct OfBoth<'a, A: Shape, B: Shape, E: Endian, F: Endian, O: Operation, R: Reach = Part> {
    left: &'a A,
    right: &'a B,
    end: u32,
    order: PhantomData<E>,
    other_order: PhantomData<F>,
    operation: PhantomData<O>,
    reach: PhantomData<R>,
    pub ghost left_fits: { ShapeFits A.Shape left.now },
    pub ghost right_fits: { ShapeFits B.Shape right.now },
    pub ghost holds: { HoldsBoth O.decide A.width (set_in A.Shape E.Endian left.now)
        (set_in B.Shape F.Endian right.now) end },
    pub ghost reaches: { R.ALL ≡ true → (A.width ≡ B.width)
        × (end ≤ (A.big left.now).capacity) × (end ≤ (B.big right.now).capacity) },
}

impl<'a, A: Shape, B: Shape, E: Endian, F: Endian, O: Operation, R: Reach> Shape
    for OfBoth<'a, A, B, E, F, O, R> {
    type LeafWord = A::LeafWord;

    ghost width = { A.width };

    ghost indexable = { true };

    ghost big = { λ v. read_back E.mirrored A.width (decided_until O.decide v.end
        (set_in A.Shape E.Endian v.left.now) (set_in B.Shape F.Endian v.right.now)) };

    const SEAL: Sealed = Sealed {};
}

impl<'a, A: Shape, B: Shape, E: Endian, F: Endian, O: Operation, R: Reach> Clone
    for OfBoth<'a, A, B, E, F, O, R> {
    ghost is_clone = { λ s r. r ≡ s };

    ghost is_infallible = { λ _. ⊤ };

    #[inline]
    fn clone(&self) -> Result<OfBoth<'a, A, B, E, F, O, R>, AllocError> {
        Ok(*self)
    }
}

impl<'a, A: Shape, B: Shape, E: Endian, F: Endian, O: Operation, R: Reach> Copy
    for OfBoth<'a, A, B, E, F, O, R> {}

impl<'a, A: ReadWords, B: ReadWords, E: Endian, F: Endian, O: ViewOperation, R: Reach> ReadWords
    for OfBoth<'a, A, B, E, F, O, R> {
    ghost leaf_width = { A.leaf_width };

    ghost width_positive = { A.width_positive };

    ghost whole_words = { λ v. whole_words_of A.width v.end v.holds.whole };

    ghost none_past = { λ v. none_past_both O.decide E.mirrored A.width
        (set_in A.Shape E.Endian v.left.now) (set_in B.Shape F.Endian v.right.now) v.end
        A.width_positive v.holds };

    const IS_FIXED: bool = A::IS_FIXED && B::IS_FIXED;

    #[inline]
    fn capacity(&self) -> u32 {
        self.end
    }

    #[inline(always)]
    fn nth_leaf_word(&self, k: usize) -> A::LeafWord {
        let theirs = other_word::<A, B, E, F, R>(self.right, k);
        if O::keeps_to_first() {
            return O::on_words::<A::LeafWord>(self.left.nth_leaf_word(k), theirs);
        }
        O::on_words::<A::LeafWord>(word_or_empty::<A, R>(self.left, k), theirs)
    }

    const MAY_PASS_OVER: bool = A::MAY_PASS_OVER || B::MAY_PASS_OVER;

    #[inline(always)]
    fn pass_over<K: Kind, N: End>(&self, low: usize, high: usize) -> usize {
        if !K::ONES || !Self::MAY_PASS_OVER {
            return if N::FRONT { low } else { high };
        }
        if combines_groups::<A, B, O>() {
            return passed_by_groups::<A, B, E, F, N>(self.left, self.right, low, high);
        }
        let ours = passed::<A, N>(self.left, low, high);
        let alike = word_width::<A>() == word_width::<B>();
        if O::keeps_to_first() {
            if !alike || !O::keeps_to_second() {
                return ours;
            }
            return if N::FRONT {
                passed::<B, N>(self.right, ours, high)
            } else {
                passed::<B, N>(self.right, low, ours)
            };
        }
        if !alike {
            return if N::FRONT { low } else { high };
        }
        let theirs = passed::<B, N>(self.right, low, high);
        if N::FRONT {
            ours.min(theirs)
        } else {
            ours.max(theirs)
        }
    }

    #[inline(always)]
    fn tells_groups<K: Kind>() -> bool {
        K::ONES
            && word_width::<A>() == word_width::<B>()
            && A::tells_groups::<Ones>()
            && (O::keeps_to_first() && !O::keeps_to_second() || B::tells_groups::<Ones>())
    }

    #[inline(always)]
    fn groups_told<K: Kind>(&self, n: usize, level: u32) -> u64 {
        if !K::ONES || word_width::<A>() != word_width::<B>() {
            return u64::MAX;
        }
        if O::keeps_to_first() && O::keeps_to_second() {
            return told_of_both::<A, B, E, F>(self.left, self.right, n, level);
        }
        let ours = self.left.groups_told::<Ones>(n, level);
        if O::keeps_to_first() {
            return ours;
        }
        ours | self.right.groups_told::<Ones>(n, level)
    }
}

// Returns a view that has the same words, but makes no test for the end of a set. Returns `None` if
// one of the sets lacks a word of the view, or if the words of the sets differ in width or order.
#[inline(always)]
fn whole<'a, A: ReadWords, B: ReadWords, E: Endian, F: Endian, O: Operation, R: Reach>(
    view: &OfBoth<'a, A, B, E, F, O, R>,
) -> Option<OfBoth<'a, A, B, E, F, O, Whole>>
    ensures same { IfSome result (λ found. ⟦<OfBoth<'a, A, B, E, F, O, Whole> as Shape>⟧.big found
        ≡ ⟦<OfBoth<'a, A, B, E, F, O, R> as Shape>⟧.big view.now) }
    ensures found { ShapeFits A.Shape view.now.left.now → ShapeFits B.Shape view.now.right.now
        → A.width ≡ B.width → E.mirrored ≡ F.mirrored
        → view.now.end ≤ (A.big view.now.left.now).capacity
        → view.now.end ≤ (B.big view.now.right.now).capacity → is_some result ≡ true }
{
    let shorter = view.left.capacity().min(view.right.capacity());
    if !are_alike::<A, B, E, F>() || shorter < view.end {
        return None;
    }
    Some(OfBoth {
        left: view.left,
        right: view.right,
        end: view.end,
        order: PhantomData,
        other_order: PhantomData,
        operation: PhantomData,
        reach: PhantomData,
    })
}

impl<'a, A: ReadWords, B: ReadWords, U: Endian, F: Endian, O: ViewOperation, R: Reach> Bits
    for OfBoth<'a, A, B, U, F, O, R> {
    type Order = U;

    #[inline]
    fn count_ones(&self) -> u32 {
        match whole::<A, B, U, F, O, R>(self) {
            Some(view) => count::<OfBoth<'a, A, B, U, F, O, Whole>>(&view),
            None => count::<OfBoth<'a, A, B, U, F, O, R>>(self),
        }
    }

    #[inline]
    fn all_zeros(&self) -> bool {
        is_empty::<OfBoth<'a, A, B, U, F, O, R>>(self)
    }

    #[inline]
    fn all_ones(&self) -> bool {
        is_full::<OfBoth<'a, A, B, U, F, O, R>>(self)
    }

    #[inline]
    fn test_bit_in<E: Endian>(&self, index: u32) -> bool {
        test::<OfBoth<'a, A, B, U, F, O, R>, E>(self, index)
    }
}

impl<'a, A: ReadWords, B: ReadWords, E: Endian, F: Endian, O: Operation> OfBoth<'a, A, B, E, F, O> {
    /// Returns a view with the capacity `end`. The result of the operation must have no set bit
    /// from `end` on.
    #[inline]
    fn until(left: &'a A, right: &'a B, end: u32) -> Self
        requires left_fits { ShapeFits A.Shape left.now }
        requires right_fits { ShapeFits B.Shape right.now }
        requires holds { HoldsBoth O.decide A.width (set_in A.Shape E.Endian left.now)
            (set_in B.Shape F.Endian right.now) end }
        ensures left { result.left.now ≡ left.now }
        ensures right { result.right.now ≡ right.now }
        ensures capacity { (⟦<OfBoth<'a, A, B, E, F, O> as Shape>⟧.big result).capacity
            ≡ end }
        ensures set { set_in ⟦<OfBoth<'a, A, B, E, F, O> as Shape>⟧ E.Endian result
            ≡ decided_until O.decide end (set_in A.Shape E.Endian left.now)
            (set_in B.Shape F.Endian right.now) }
        ensures fits { ShapeFits ⟦<OfBoth<'a, A, B, E, F, O> as Shape>⟧ result }
    {
        OfBoth {
            left,
            right,
            end,
            order: PhantomData,
            other_order: PhantomData,
            operation: PhantomData,
            reach: PhantomData,
        }
    }
}

impl<'a, A: ReadWords, B: ReadWords, E: Endian, F: Endian, O: FirstOperation> OfBoth<
    'a,
    A,
    B,
    E,
    F,
    O,
> {
    /// Returns a view of the result of an operation whose set bits are all set in `left` too. The
    /// view has the capacity of `left`.
    #[inline]
    pub(crate) fn of_first(left: &'a A, right: &'a B) -> Self
        requires left_fits { ShapeFits A.Shape left.now }
        requires right_fits { ShapeFits B.Shape right.now }
        ensures left { result.left.now ≡ left.now }
        ensures right { result.right.now ≡ right.now }
        ensures capacity { (⟦<OfBoth<'a, A, B, E, F, O> as Shape>⟧.big result).capacity
            ≡ (A.big left.now).capacity }
        ensures set { set_in ⟦<OfBoth<'a, A, B, E, F, O> as Shape>⟧ E.Endian result
            ≡ decided_of_first O.decide (set_in A.Shape E.Endian left.now)
            (set_in B.Shape F.Endian right.now) }
        ensures items { ascending
            (set_in ⟦<OfBoth<'a, A, B, E, F, O> as Shape>⟧ E.Endian result)
            ≡ ascending (decided_set O.decide (set_in A.Shape E.Endian left.now)
            (set_in B.Shape F.Endian right.now)) }
        ensures fits { ShapeFits ⟦<OfBoth<'a, A, B, E, F, O> as Shape>⟧ result }
    {
        OfBoth::until(left, right, capacity_of::<A, E>(left))
    }
}

impl<'a, A: ReadWords, B: ReadWords, E: Endian, F: Endian, O: EitherOperation> OfBoth<
    'a,
    A,
    B,
    E,
    F,
    O,
> {
    /// Returns a view of the result of an operation on two sets whose words have the same width.
    /// The view has the greater of the two capacities.
    #[inline]
    pub(crate) fn of_alike(left: &'a A, right: &'a B) -> Self
        requires width { A.width ≡ B.width }
        requires left_fits { ShapeFits A.Shape left.now }
        requires right_fits { ShapeFits B.Shape right.now }
        ensures left { result.left.now ≡ left.now }
        ensures right { result.right.now ≡ right.now }
        ensures capacity { (⟦<OfBoth<'a, A, B, E, F, O> as Shape>⟧.big result).capacity
            ≡ max (A.big left.now).capacity (B.big right.now).capacity }
        ensures set { set_in ⟦<OfBoth<'a, A, B, E, F, O> as Shape>⟧ E.Endian result
            ≡ decided_set O.decide (set_in A.Shape E.Endian left.now)
            (set_in B.Shape F.Endian right.now) }
        ensures items { ascending
            (set_in ⟦<OfBoth<'a, A, B, E, F, O> as Shape>⟧ E.Endian result)
            ≡ ascending (decided_set O.decide (set_in A.Shape E.Endian left.now)
            (set_in B.Shape F.Endian right.now)) }
        ensures fits { ShapeFits ⟦<OfBoth<'a, A, B, E, F, O> as Shape>⟧ result }
    {
        let end = capacity_of::<A, E>(left).max(capacity_of::<B, F>(right));
        OfBoth::until(left, right, end)
    }

    /// Returns a view of the result of an operation on two sets whose words may differ in width.
    /// The capacity of the view is the greater of the two, rounded up to whole words of the first
    /// set.
    #[inline]
    pub(crate) fn of_unlike(left: &'a A, right: &'a B) -> Self
        requires left_fits { ShapeFits A.Shape left.now }
        requires right_fits { ShapeFits B.Shape right.now }
        requires rounded { rounded_up
            (max (A.big left.now).capacity (B.big right.now).capacity) A.width < 4294967295 }
        ensures left { result.left.now ≡ left.now }
        ensures right { result.right.now ≡ right.now }
        ensures capacity { (⟦<OfBoth<'a, A, B, E, F, O> as Shape>⟧.big result).capacity
            ≡ rounded_up
            (max (A.big left.now).capacity (B.big right.now).capacity) A.width }
        ensures set { set_in ⟦<OfBoth<'a, A, B, E, F, O> as Shape>⟧ E.Endian result
            ≡ decided_until O.decide (rounded_up
            (max (A.big left.now).capacity (B.big right.now).capacity) A.width)
            (set_in A.Shape E.Endian left.now) (set_in B.Shape F.Endian right.now) }
        ensures items { ascending
            (set_in ⟦<OfBoth<'a, A, B, E, F, O> as Shape>⟧ E.Endian result)
            ≡ ascending (decided_set O.decide (set_in A.Shape E.Endian left.now)
            (set_in B.Shape F.Endian right.now)) }
        ensures fits { ShapeFits ⟦<OfBoth<'a, A, B, E, F, O> as Shape>⟧ result }
    {
        let greater = capacity_of::<A, E>(left).max(capacity_of::<B, F>(right));
        let end = greater.next_multiple_of(word_width::<A>());
        OfBoth::until(left, right, end)
    }
}
