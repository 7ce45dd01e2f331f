//! Changes of a set by a set of another shape, and what the calls return about the change.

ghost use Rattle.std.specs.Prelude.{◌≡◌, ◌↔◌, ◌<◌, ◌≤◌, ◌+◌, ◌*◌, ◌||◌, ◌&&◌, ℕ, false, length};
ghost use Rattle.std.specs.Prelude.{slice_get, IfSome, IsTrue};
ghost use Rattle.bittle.specs.BitPatterns.{bit_set};
ghost use Rattle.bittle.specs.PlainSet.{ascending, complement, contains, full_set};
ghost use Rattle.bittle.specs.PlainSet.{members_below, size};
ghost use Rattle.bittle.specs.Rows.{row_set};
ghost use Rattle.bittle.specs.Values.{set_in, ShapeFits};
ghost use Rattle.bittle_ext.specs.Between.{members_to, Differ};
ghost use Rattle.bittle_ext.specs.Combined.{either_of, first_only_of};
ghost use Rattle.bittle_ext.specs.Rotations.{shifted_down, shifted_up};

use bittle::{Bits, BitsMut, BitsOwned, Endian, Set};
use bittle_ext::{BitsCombineExt, BitsMutViewExt, BitsRankExt, BitsShiftExt, BitsViewExt};

/// Adds the variables that are live after a block to those that are live before it. Returns whether
/// the set `before` changed.
pub fn add_live(before: &mut [u64; 4], after: &[u64; 4]) -> bool
    ensures set { row_set 4 64 (bit_set 64) before.new
        ≡ members_to 256 (either_of (row_set 4 64 (bit_set 64) before.old)
        (row_set 4 64 (bit_set 64) after.now)) }
    ensures stays { result ≡ false → row_set 4 64 (bit_set 64) before.new
        ≡ row_set 4 64 (bit_set 64) before.old }
    ensures grew { IsTrue result → size (row_set 4 64 (bit_set 64) before.old)
        < size (row_set 4 64 (bit_set 64) before.new) }
{
    before.union_with(after)
}

/// Adds to `before` each variable that is live after a block and that the block does not define.
/// Returns whether the set `before` changed.
pub fn flow(before: &mut u64, after: u64, defined: &[u8; 8]) -> bool
    ensures { IsTrue result ↔ Differ (bit_set 64 before.old) (bit_set 64 before.new) }
{
    before.union_with(&after.minus(defined))
}

/// Copies a mask into a longer word, and returns whether a task is in the copy.
pub fn is_copied(more: u32, task: u32) -> bool
    requires { task < 64 }
    ensures { result ≡ (bit_set 32 more).has task }
{
    let mut all = 0u64;
    all.copy_from(&more);
    all.test_bit(task)
}

/// Clears in `set` the bits that are set in `other`, and returns whether `set` changed. Both sets
/// are read in the order `E`.
pub fn take_out<A: BitsMut, B: Bits, E: Endian>(set: &mut A, other: &B) -> bool
    requires fits { ShapeFits A.Shape set.old }
    requires other_fits { ShapeFits B.Shape other.now }
    ensures set { set_in A.Shape E.Endian set.new
        ≡ members_to (A.big set.old).capacity (first_only_of
        (set_in A.Shape E.Endian set.old) (set_in B.Shape E.Endian other.now)) }
    ensures shrank { IsTrue result → size (set_in A.Shape E.Endian set.new)
        < size (set_in A.Shape E.Endian set.old) }
    ensures stays { A.loan set.old ≡ A.loan set.new }
{
    set.in_order_mut::<E>()
        .difference_with(&other.in_order::<E>())
}

/// Removes the tasks of `done` from `left`, and returns how many tasks are left after that. They
/// are not more than before.
pub fn finish(left: &mut u64, done: &[u8; 8]) -> u32
    ensures count { result ≡ size (bit_set 64 left.new) }
    ensures at_most { result ≤ size (bit_set 64 left.old) }
{
    left.difference_with(done);
    Bits::count_ones(left)
}

/// Adds the roles of a word to those of a lent slice, and returns whether the slice changed.
pub fn grant(roles: &mut [u64], word: u32) -> bool
    requires { length roles.old * 64 < 4294967295 }
    ensures { row_set (length roles.new) 64 (bit_set 64) roles.new
        ≡ members_to (length roles.old * 64) (either_of
        (row_set (length roles.old) 64 (bit_set 64) roles.old) (bit_set 32 word)) }
{
    let mut set = Set::from_mut(roles);
    set.union_with(&word)
}

/// Sets in a lent slice just the bits that are set in `saved`, and clears all others. Bits past the
/// end of the slice are left out.
pub fn restore<B: Bits>(words: &mut [u64], saved: &B)
    requires fits { length words.old * 64 < 4294967295 }
    requires saved_fits { ShapeFits B.Shape saved.now }
    ensures { row_set (length words.new) 64 (bit_set 64) words.new
        ≡ members_to (length words.old * 64) (set_in B.Shape B.Order.Endian saved.now) }
{
    let mut set = Set::from_mut(words);
    set.copy_from(saved);
}

/// Copies the set bits of `other` into a new set of type `A`, and returns it. Bits at or past the
/// capacity of the new set are left out.
pub fn converted<A: BitsOwned, B: Bits>(other: &B) -> A
    requires indexable { IsTrue A.indexable }
    requires other_fits { ShapeFits B.Shape other.now }
    ensures { set_in A.Shape A.Order.Endian result
        ≡ members_to A.type_capacity (set_in B.Shape B.Order.Endian other.now) }
{
    A::from_set(other)
}

/// Sets each bit of a lent slice.
pub fn fill_all(words: &mut [u8])
    requires { length words.old * 8 < 4294967295 }
    ensures { row_set (length words.new) 8 (bit_set 8) words.new
        ≡ full_set (length words.old * 8) }
{
    let mut set = Set::from_mut(words);
    set.set_all();
}

/// Delays the tasks of a lent timetable by an hour. Those of the last hour are dropped.
pub fn delay(tasks: &mut [u64])
    requires { length tasks.old * 64 < 4294967295 }
    ensures { row_set (length tasks.new) 64 (bit_set 64) tasks.new
        ≡ shifted_up (row_set (length tasks.old) 64 (bit_set 64) tasks.old) 1 }
{
    let mut set = Set::from_mut(tasks);
    set.shift_up(1);
}

/// Drops the bits at the first `count` indexes of any set, and moves all other bits down by `count`
/// places.
pub fn drop_first<B: BitsMut>(set: &mut B, count: u32)
    requires { ShapeFits B.Shape set.old }
    ensures set { set_in B.Shape B.Order.Endian set.new
        ≡ shifted_down (set_in B.Shape B.Order.Endian set.old) count }
    ensures stays { B.loan set.old ≡ B.loan set.new }
{
    set.shift_down(count);
}

/// Moves a timetable down by one hour, and returns whether a task is due at `hour` after that.
pub fn is_due(tasks: u64, hour: u32) -> bool
    requires { hour < 63 }
    ensures { result ≡ contains (bit_set 64 tasks) (hour + 1) }
{
    let mut later = tasks;
    later.shift_down(1);
    later.test_bit(hour)
}

/// Returns the free page that has just `after` free pages before it, or `None` if there is none.
pub fn free_page(taken: &[u64; 8], after: u32) -> Option<u32>
    ensures value { result ≡ slice_get
        (ascending (complement (row_set 8 64 (bit_set 64) taken.now))) after }
    ensures below { IfSome result (λ page. page < 512) }
{
    taken.select_zero(after)
}

/// Counts the free pages below a page.
pub fn free_below(taken: &[u64; 8], page: u32) -> u32
    ensures { result ≡ members_below (complement (row_set 8 64 (bit_set 64) taken.now)) page }
{
    taken.rank_zero(page)
}

/// Adds to `lines` the lines that another run covered, and returns whether one of them is new. The
/// clause for each line uses `contains` for `lines`, and `has` for `other`.
pub fn cover(lines: &mut [u64; 8], other: &[u64; 8]) -> bool
    ensures each { (k : ℕ) → k < 512 → contains (row_set 8 64 (bit_set 64) lines.new) k
        ≡ (contains (row_set 8 64 (bit_set 64) lines.old) k
        || (row_set 8 64 (bit_set 64) other.now).has k) }
    ensures changed { IsTrue result ↔ Differ (row_set 8 64 (bit_set 64) lines.old)
        (row_set 8 64 (bit_set 64) lines.new) }
{
    lines.union_with(other)
}

/// Sets in `set` each bit that is set in `other`. Returns whether bit `index` of `set` is set after
/// that.
fn has_with<A: BitsMut, B: Bits>(set: &mut A, other: &B, index: u32) -> bool
    requires fits { ShapeFits A.Shape set.old }
    requires other_fits { ShapeFits B.Shape other.now }
    requires within { index < (A.big set.old).capacity }
    ensures { result ≡ (contains (set_in A.Shape A.Order.Endian set.old) index
        || (set_in B.Shape B.Order.Endian other.now).has index) }
{
    set.union_with(other);
    set.test_bit(index)
}

/// Adds the roles of a word to a mask, and returns whether the mask then has the role `role`.
pub fn has_role_with(mask: &mut u64, word: u32, role: u32) -> bool
    requires { role < 64 }
    ensures { result ≡ (contains (bit_set 64 mask.old) role || (bit_set 32 word).has role) }
{
    has_with(mask, &word, role)
}

/// Clears in `set` each bit that is not set in `other`. Returns whether bit `index` of `set` is set
/// after that.
fn has_within<A: BitsMut, B: Bits>(set: &mut A, other: &B, index: u32) -> bool
    requires fits { ShapeFits A.Shape set.old }
    requires other_fits { ShapeFits B.Shape other.now }
    requires within { index < (A.big set.old).capacity }
    ensures { result ≡ (contains (set_in A.Shape A.Order.Endian set.old) index
        && (set_in B.Shape B.Order.Endian other.now).has index) }
{
    set.intersect_with(other);
    set.test_bit(index)
}

/// Removes from a mask the roles that a word lacks. Returns whether the mask then has `role`.
pub fn has_role_within(mask: &mut [u64; 4], word: u32, role: u32) -> bool
    requires { role < 256 }
    ensures { result ≡ (contains (row_set 4 64 (bit_set 64) mask.old) role
        && (bit_set 32 word).has role) }
{
    has_within(mask, &word, role)
}
