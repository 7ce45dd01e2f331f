//! How a summary is read, and how it is updated for words of its map. Number `k` is a member of the
//! summary exactly if word `k` of the map has a bit of kind `K`: a set bit if `K` is `Ones`, an
//! unset bit if `K` is `Zeros`.

ghost use Rattle.std.specs.Prelude.{◌≡◌, ◌≢◌, ℕ, ◌*◌, ◌%◌, ◌^◌, ◌<◌, ◌≤◌, ◌==◌, true, IsTrue};
ghost use Rattle.bittle.specs.PlainSet.{size};
ghost use Rattle.bittle.specs.Searches.{PassesOver, TellsGroups};
ghost use Rattle.bittle.specs.Values.{ShapeFits};
ghost use Rattle.bittle.specs.Walk.{ones_or_zeros};
ghost use Rattle.bittle_tiers.specs.Tiers.{uniform_summary, some_in_word, StopsAtBit};
ghost use Rattle.bittle_tiers.specs.Tiers.{Summarizes, SummarizesOutside};

use bittle_bits::bits::Bits;
use bittle_bits::bits_mut::BitsMut;
use bittle_bits::bits_owned::BitsOwned;
use bittle_bits::endian::{BigEndian, Endian};
use bittle_bits::extension::{
    End, FixedCapacity, Front, Kind, Ones, ReadWords, Word, end_in, is_without_bits, word_of_kind,
    word_width,
};

// Returns whether word `k` of `map` has a bit of kind `K`: a set bit if `K` is `Ones`, else an
// unset bit.
#[inline]
fn word_has_some<B: ReadWords, K: Kind>(map: &B, k: usize) -> bool
    requires fits { ShapeFits B.Shape map.now }
    requires within { k * B.width < (B.big map.now).capacity }
    ensures { result ≡ some_in_word K.ONES B.width (B.big map.now) k }
{
    !is_without_bits::<B::LeafWord>(word_of_kind::<B, K>(map, k))
}

// Makes number `k` a member of a summary if `some` is `true`, and else removes it.
#[inline]
fn assign_number<S: BitsMut>(summary: &mut S, k: usize, some: bool)
    requires fits { ShapeFits S.Shape summary.old }
    requires within { k < (S.big summary.old).capacity }
    ensures here { (S.big summary.new).has k ≡ some }
    ensures others { (j : ℕ) → j ≢ k → (S.big summary.new).has j ≡ (S.big summary.old).has j }
{
    if some {
        summary.set_bit_in::<BigEndian>(k as u32);
    } else {
        summary.clear_bit_in::<BigEndian>(k as u32);
    }
}

/// Updates `summary` for word `k` of `map`. If `is_known` is `true`, the word is known to have a
/// bit of kind `K`, and is not read.
#[inline]
pub(crate) fn refresh<B: ReadWords, S: BitsMut, K: Kind>(
    map: &B,
    summary: &mut S,
    k: usize,
    is_known: bool,
)
    requires map_fits { ShapeFits B.Shape map.now }
    requires word { k * B.width < (B.big map.now).capacity }
    requires known { is_known ≡ true → some_in_word K.ONES B.width (B.big map.now) k ≡ true }
    requires fits { ShapeFits S.Shape summary.old }
    requires within { k < (S.big summary.old).capacity }
    ensures here { (S.big summary.new).has k ≡ some_in_word K.ONES B.width (B.big map.now) k }
    ensures others { (j : ℕ) → j ≢ k → (S.big summary.new).has j ≡ (S.big summary.old).has j }
{
    assign_number::<S>(summary, k, is_known || word_has_some::<B, K>(map, k));
}

/// Returns the full summary if `all` is `true`, and else the empty summary.
#[inline]
pub(crate) fn uniform<S: BitsOwned>(all: bool) -> S
    requires { IsTrue S.indexable }
    ensures { S.big result ≡ uniform_summary all S.type_capacity }
{
    if all { S::ones() } else { S::zeros() }
}

/// Updates a summary for each word of the map.
pub(crate) fn rebuild<B: ReadWords + FixedCapacity, S: BitsMut + FixedCapacity, K: Kind>(
    map: &B,
    summary: &mut S,
)
    requires map_fits { IsTrue B.indexable }
    requires fits { IsTrue S.indexable }
    requires reaches { B.type_capacity ≤ S.type_capacity * B.width }
    ensures { Summarizes K.ONES B.width (B.big map.now) (S.big summary.new) }
{
    let words = (B::fixed_capacity() / word_width::<B>()) as usize;
    refresh_range::<B, S, K>(map, summary, 0, words);
}

/// Returns whether no word of `map` has a bit of kind `K`. It reads only the summary.
#[inline]
pub(crate) fn all_words_have_none<
    B: ReadWords + FixedCapacity,
    S: ReadWords + FixedCapacity,
    K: Kind,
>(map: &B, summary: &S) -> bool
    requires map_fits { IsTrue B.indexable }
    requires fits { IsTrue S.indexable }
    requires reaches { B.type_capacity ≤ S.type_capacity * B.width }
    requires tells { Summarizes K.ONES B.width (B.big map.now) (S.big summary.now) }
    ensures { result ≡ (size (ones_or_zeros K.ONES (B.big map.now)) == 0) }
{
    let words = B::fixed_capacity() / word_width::<B>();
    end_in::<S, BigEndian, Ones, Front>(summary, 0, words).is_none()
}

/// Updates `summary` for the words `from..to` of `map`. For all other words, the summary has to be
/// right already.
#[inline]
pub(crate) fn refresh_range<B: ReadWords + FixedCapacity, S: BitsMut + FixedCapacity, K: Kind>(
    map: &B,
    summary: &mut S,
    from: usize,
    to: usize,
)
    requires map_fits { IsTrue B.indexable }
    requires fits { IsTrue S.indexable }
    requires reaches { B.type_capacity ≤ S.type_capacity * B.width }
    requires within { to * B.width ≤ (B.big map.now).capacity }
    requires others { SummarizesOutside K.ONES B.width (B.big map.now) (S.big summary.old) from to }
    ensures { Summarizes K.ONES B.width (B.big map.now) (S.big summary.new) }
{
    for k in from..to {
        refresh::<B, S, K>(map, summary, k, false);
    }
}

/// Moves one end of the range of words `low..high` past all words at that end that have no bit of
/// kind `K`, and returns the moved end. `N` names the end: the front or the back.
#[inline]
pub(crate) fn pass_over<
    B: ReadWords + FixedCapacity,
    S: ReadWords + FixedCapacity,
    K: Kind,
    N: End,
>(map: &B, summary: &S, low: usize, high: usize) -> usize
    requires fits { IsTrue S.indexable }
    requires reaches { B.type_capacity ≤ S.type_capacity * B.width }
    requires tells { Summarizes K.ONES B.width (B.big map.now) (S.big summary.now) }
    requires ordered { low ≤ high }
    requires within { high * B.width ≤ (B.big map.now).capacity }
    ensures passes { PassesOver N.FRONT B.width (ones_or_zeros K.ONES (B.big map.now)) low high
        result }
    ensures stops { StopsAtBit N.FRONT K.ONES B.width (B.big map.now) low high result }
{
    match end_in::<S, BigEndian, Ones, N>(summary, low as u32, high as u32) {
        Some(k) => { if N::FRONT { k as usize } else { k as usize + 1 } }
        None => { if N::FRONT { high } else { low } }
    }
}

/// Returns a word whose bit `i` stands for group `64 * n + i`. Each group is `64 ^ level` words of
/// the map, and its bit is set if these words may have a bit of kind `K`. At level 0 the result is
/// word `n` of the summary, or 0 past its last word. At a higher level it is what the summary
/// returns for groups of its own words. If the words of the summary do not have 64 bits, every bit
/// of the result is set.
#[inline(always)]
pub(crate) fn groups_told<B: ReadWords + FixedCapacity, S: ReadWords + FixedCapacity, K: Kind>(
    map: &B,
    summary: &S,
    n: usize,
    level: u32,
) -> u64
    requires fits { IsTrue S.indexable }
    requires reaches { B.type_capacity ≤ S.type_capacity * B.width }
    requires tells { Summarizes K.ONES B.width (B.big map.now) (S.big summary.now) }
    ensures { TellsGroups (64 ^ level) B.width (ones_or_zeros K.ONES (B.big map.now)) n result }
{
    if word_width::<S>() != 64 {
        return u64::MAX;
    }
    if level != 0 {
        return summary.groups_told::<Ones>(n, level - 1);
    }
    if (S::fixed_capacity() / 64) as usize <= n {
        return 0;
    }
    summary.nth_leaf_word(n).to_bits() as u64
}
