//! What a caller knows about the members of a set after a call. Most functions are proved by the
//! lemma that their attribute names. For a lemma on `has`, an attribute suffices only in a function
//! of any type of set, in big-endian order; `hidden_mine` calls such a function with words. Only
//! `book_again`, `cancel_from` and `paint` have a proof file.

ghost use Rattle.std.specs.Prelude.{◌≡◌, ◌↔◌, ◌==◌, ◌+◌, ◌-◌, ◌<◌, ◌≤◌, ◌||◌, ◌⊎◌, ℕ, true, false};
ghost use Rattle.std.specs.Prelude.{IfSome, IsTrue, MatchOption, Option};
ghost use Rattle.bittle.specs.BitPatterns.{bit_set};
ghost use Rattle.bittle.specs.PlainSet.{complement, contains, size};
ghost use Rattle.bittle.specs.PlainSet.{with_index, with_span, without_span};
ghost use Rattle.bittle.specs.Searches.{IsFirstIn, NoneIn};
ghost use Rattle.bittle.specs.Values.{ShapeFits};
ghost use Rattle.bittle_ext.specs.RangeMembers.{HasAllIn, HasSomeIn};
ghost use Rattle.bittle_ext.specs.ReservedSpans.{lacks_span};
ghost use Rattle.bittle_ext.specs.SetRelations.{AreDisjoint, IsSubset};
ghost use Rattle.bittle_lemmas.specs.ExcludedSets.{excludes};

use bittle::{BigEndian, Bits, BitsMut, BitsOwned};
use bittle_ext::prelude::*;

/// Returns whether no square with a mine is shown.
#[tactic(auto, using(bittle_lemmas::proofs::ExcludedSets::excludes_if_none))]
pub fn are_hidden(mines: u64, shown: u64) -> bool
    ensures each { IsTrue result ↔ AreDisjoint (bit_set 64 mines) (bit_set 64 shown) }
    ensures apart { IsTrue result → excludes (bit_set 64 shown) (bit_set 64 mines) ≡ true }
{
    mines.is_disjoint(&shown)
}

/// Returns the first square with a mine. No square with a mine is shown, so this one is not.
#[tactic(auto, using(bittle_lemmas::proofs::ExcludedSets::none_if_excludes))]
pub fn first_mine<B: Bits>(mines: &B, shown: &B) -> Option<u32>
    requires fits { ShapeFits B.Shape mines.now }
    requires apart { excludes (B.big shown.now) (B.big mines.now) ≡ true }
    ensures first { IsFirstIn (B.big mines.now) 0 (B.big mines.now).capacity result }
    ensures hidden { IfSome result (λ square. (B.big shown.now).has square ≡ false) }
{
    let square = mines.in_order::<BigEndian>().first_one()?;
    Some(square)
}

/// Returns the first square with a mine. Returns `None` if there is no mine, or if a square with a
/// mine is shown.
pub fn hidden_mine(mines: u64, shown: u64) -> Option<u32>
    ensures { IfSome result (λ square. (bit_set 64 shown).has square ≡ false) }
{
    if are_hidden(mines, shown) {
        first_mine(&mines, &shown)
    } else {
        None
    }
}

/// Takes the first free seat, and returns how many seats are free after that. If no seat is free,
/// it changes nothing and returns `None`.
#[tactic(auto, using(bittle_lemmas::proofs::FoundNumbers::not_full_if_found))]
pub fn take_seat(taken: &mut u64) -> Option<u32>
    ensures free { IfSome result (λ free. size (bit_set 64 taken.old) + free ≡ 63) }
    ensures seat { let before = bit_set 64 taken.old in
        (first : Option ℕ) × IsFirstIn (complement before) 0 64 first
        × MatchOption first (taken.new ≡ taken.old)
        (λ i. bit_set 64 taken.new ≡ with_index before i) }
{
    let seat = taken.first_zero()?;
    let free = 63 - Bits::count_ones(taken);
    taken.set_bit(seat);
    Some(free)
}

/// Returns whether the lamp `asked` is on once the lamp `lamp` was turned on.
#[tactic(auto, using(bittle_lemmas::proofs::ListedNumbers::contains_with_index))]
pub fn is_on_with(lamps: u64, lamp: u32, asked: u32) -> bool
    requires lamp { lamp < 64 }
    requires asked { asked < 64 }
    ensures { result ≡ ((asked == lamp) || contains (bit_set 64 lamps) asked) }
{
    lamps.with_bit(lamp).test_bit(asked)
}

/// Takes a range of pages. Each page that was taken before stays taken.
#[tactic(auto, using(bittle_lemmas::proofs::SetSpans::still_set_after_set_span))]
pub fn take_pages(pages: &mut u64, from: u32, to: u32)
    requires ordered { from ≤ to }
    requires within { to ≤ 64 }
    ensures stay { (k : ℕ) → k < 64 → contains (bit_set 64 pages.old) k ≡ true
        → contains (bit_set 64 pages.new) k ≡ true }
    ensures pages { bit_set 64 pages.new ≡ with_span (bit_set 64 pages.old) from to }
{
    pages.set_range(from, to);
}

/// Frees a range of pages. After that, none of them is taken.
#[tactic(auto, using(bittle::proofs::CallerChanges::contains_after_clear_span))]
pub fn free_pages(pages: &mut u64, from: u32, to: u32)
    requires ordered { from ≤ to }
    requires within { to ≤ 64 }
    ensures free { (k : ℕ) → from ≤ k → k < to → contains (bit_set 64 pages.new) k ≡ false }
    ensures pages { bit_set 64 pages.new ≡ without_span (bit_set 64 pages.old) from to }
{
    pages.clear_range(from, to);
}

/// Paints a range of cells. A cell that is painted after that lies in the range or was painted
/// before.
pub fn paint(cells: &mut u64, from: u32, to: u32)
    requires ordered { from ≤ to }
    requires within { to ≤ 64 }
    ensures { (k : ℕ) → (bit_set 64 cells.new).has k ≡ true
        → ((from ≤ k) × (k < to)) ⊎ ((bit_set 64 cells.old).has k ≡ true) }
{
    cells.set_range(from, to);
}

/// The used ports of a machine. Ports 0 to 9 are never used.
#[derive(Drop)]
pub struct Ports {
    used: u64,
    pub ghost kept: { lacks_span (bit_set 64 used) 0 10 ≡ true },
}

impl Ports {
    /// Returns the ports of a machine, of which those in `used` are used. Returns `None` if one of
    /// the ports 0 to 9 is among them.
    #[tactic(auto, using(bittle_ext::proofs::UnsetSpans::lacks_span_if_none))]
    pub fn restored(used: u64) -> Option<Ports>
        ensures { MatchOption result (HasSomeIn (bit_set 64 used) 0 10)
            (λ ports. ports.used ≡ used) }
    {
        if used.any_in_range(0, 10) {
            return None;
        }
        Some(Ports { used })
    }

    /// Uses a port. It is none of the ports 0 to 9, which stay unused.
    #[tactic(auto, using(bittle_lemmas::proofs::SetSpans::lacks_span_after_set_past))]
    pub fn take(&mut self, port: u32)
        requires past { 10 ≤ port }
        requires below { port < 64 }
        ensures { bit_set 64 self.new.used ≡ with_index (bit_set 64 self.old.used) port }
    {
        self.used.set_bit(port);
    }

    /// Returns whether a port is used.
    #[tactic(auto, using(bittle_ext::proofs::UnsetSpans::unset_in_span))]
    pub fn is_used(&self, port: u32) -> bool
        ensures used { result ≡ contains (bit_set 64 self.now.used) port }
        ensures kept { port < 10 → contains (bit_set 64 self.now.used) port ≡ false }
    {
        self.used.test_bit(port)
    }
}

/// Visits a node. If it was visited before, the function writes nothing.
#[tactic(auto, using(bittle::proofs::CallerChanges::with_member))]
pub fn visit(seen: &mut u64, node: u32)
    requires { node < 64 }
    ensures { bit_set 64 seen.new ≡ with_index (bit_set 64 seen.old) node }
{
    if !seen.contains_index(node) {
        seen.set_bit(node);
    }
}

/// Returns a hall in which no seat is taken.
#[tactic(auto, using(bittle::proofs::CallerSets::size_empty))]
pub fn empty_hall() -> u64
    ensures { size (bit_set 64 result) ≡ 0 }
{
    u64::zeros()
}

/// Adds a member to a group. Each other member stays.
#[tactic(auto, using(bittle_ext::proofs::CallerMembers::has_after_set, bittle_ext::proofs::CallerMembers::still_has_after_set))]
pub fn join<B: BitsMut>(group: &mut B, member: u32)
    requires fits { ShapeFits B.Shape group.old }
    requires below { member < (B.big group.old).capacity }
    ensures joined { (B.big group.new).has member ≡ true }
    ensures others { IsSubset (B.big group.old) (B.big group.new) }
{
    group.set_bit_in::<BigEndian>(member);
}

/// Removes a member from a group.
#[tactic(auto, using(bittle_ext::proofs::CallerMembers::has_after_clear))]
pub fn leave<B: BitsMut>(group: &mut B, member: u32)
    requires fits { ShapeFits B.Shape group.old }
    requires below { member < (B.big group.old).capacity }
    ensures { (B.big group.new).has member ≡ false }
{
    group.clear_bit_in::<BigEndian>(member);
}

/// Copies the cells `from..to` to the cells from `at` on.
#[tactic(auto, using(bittle_ext::proofs::CallerShifts::has_copied_from))]
pub fn copy_cells<B: BitsMut>(cells: &mut B, from: u32, to: u32, at: u32)
    requires fits { ShapeFits B.Shape cells.old }
    requires ordered { from ≤ to }
    requires within { at + (to - from) ≤ (B.big cells.old).capacity }
    ensures { (k : ℕ) → at ≤ k → k < at + (to - from)
        → (B.big cells.new).has k ≡ (B.big cells.old).has (k - at + from) }
{
    cells.in_order_mut::<BigEndian>().copy_within(from, to, at);
}

/// Books the hours of a range. After that, each of them is booked.
#[tactic(auto, using(bittle_ext::proofs::CallerSpans::has_after_set_span))]
pub fn book<B: BitsMut>(hours: &mut B, from: u32, to: u32)
    requires fits { ShapeFits B.Shape hours.old }
    requires ordered { from ≤ to }
    requires within { to ≤ (B.big hours.old).capacity }
    ensures { HasAllIn (B.big hours.new) from to }
{
    hours.set_range_in::<BigEndian>(from, to);
}

/// Books the hours of a range. If each of them was booked before, nothing changes.
pub fn book_again(hours: &mut u64, from: u32, to: u32)
    requires ordered { from ≤ to }
    requires within { to ≤ 64 }
    ensures { HasAllIn (bit_set 64 hours.old) from to
        → bit_set 64 hours.new ≡ bit_set 64 hours.old }
{
    hours.set_range(from, to);
}

/// Cancels the hours of a range. After that, none of them is booked.
#[tactic(auto, using(bittle_ext::proofs::CallerSpans::has_after_clear_span))]
pub fn cancel<B: BitsMut>(hours: &mut B, from: u32, to: u32)
    requires fits { ShapeFits B.Shape hours.old }
    requires ordered { from ≤ to }
    requires within { to ≤ (B.big hours.old).capacity }
    ensures { NoneIn (B.big hours.new) from to }
{
    hours.clear_range_in::<BigEndian>(from, to);
}

/// Cancels the hours from an hour on. Each hour before it is as it was.
pub fn cancel_from(hours: &mut u64, from: u32)
    requires { from ≤ 64 }
    ensures { (k : ℕ) → k < from → (bit_set 64 hours.new).has k ≡ (bit_set 64 hours.old).has k }
{
    hours.clear_span(from..);
}

/// Books the hours before an hour. Each hour from it on is as it was.
#[tactic(auto, using(bittle_ext::proofs::CallerSpans::contains_outside_set_span))]
pub fn book_before(hours: &mut u64, end: u32)
    requires { end ≤ 64 }
    ensures others { (k : ℕ) → end ≤ k → k < 64
        → contains (bit_set 64 hours.new) k ≡ contains (bit_set 64 hours.old) k }
    ensures hours { bit_set 64 hours.new ≡ with_span (bit_set 64 hours.old) 0 end }
{
    hours.set_span(..end);
}
