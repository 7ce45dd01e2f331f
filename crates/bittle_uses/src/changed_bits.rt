//! Functions that change one bit or a span, and then test bits. The attribute of each function
//! names the lemmas that prove it. No function has a proof file.

ghost use Rattle.std.specs.Prelude.{◌≡◌, ◌≢◌, ◌<◌, ◌≤◌, true, false};
ghost use Rattle.bittle.specs.BitPatterns.{bit_set};
ghost use Rattle.bittle.specs.PlainSet.{contains};
ghost use Rattle.bittle.specs.Rows.{row_set};

use bittle::{BigEndian, Bits, BitsMut, BitsOwned, LittleEndian};
use bittle_ext::BitsMutExt;

/// Sets a bit, tests it, and returns `true`.
#[tactic(auto, using(bittle::proofs::CallerChanges::contains_with))]
pub fn set_and_test(mask: u64, index: u32) -> bool
    ensures { result ≡ true }
{
    let mut mask = mask;
    mask.set_bit(index);
    mask.test_bit(index)
}

/// Clears a bit of a row whose bits are counted from the left, tests it, and returns `false`.
#[tactic(auto, using(bittle::proofs::CallerChanges::contains_without))]
pub fn clear_and_test(row: [u32; 4], index: u32) -> bool
    ensures { result ≡ false }
{
    let mut row = row;
    row.clear_bit_in::<LittleEndian>(index);
    row.test_bit_in::<LittleEndian>(index)
}

/// Sets a bit, and tests another bit, which has not changed.
#[tactic(auto, using(bittle::proofs::CallerChanges::contains_with_other))]
pub fn set_and_test_other(mask: u64, index: u32, other: u32) -> bool
    requires index { index < 64 }
    requires other { other < 64 }
    requires apart { other ≢ index }
    ensures { result ≡ contains (bit_set 64 mask) other }
{
    let mut mask = mask;
    mask.set_bit(index);
    mask.test_bit(other)
}

/// Returns a copy of `role` that also grants `permission`.
#[tactic(auto, using(bittle::proofs::CallerChanges::contains_after_set))]
pub fn granted(role: u32, permission: u32) -> u32
    ensures { contains (bit_set 32 result) permission ≡ true }
{
    role.with_bit(permission)
}

/// Grants a role the permission `second`. The role keeps the permission `first`, which it has.
#[tactic(auto, using(bittle::proofs::CallerChanges::contains_after_set, bittle::proofs::CallerChanges::still_set_after_set))]
pub fn grant_another(role: &mut u32, first: u32, second: u32)
    requires has { contains (bit_set 32 role.old) first ≡ true }
    ensures first { contains (bit_set 32 role.new) first ≡ true }
    ensures second { contains (bit_set 32 role.new) second ≡ true }
{
    role.set_bit(second);
}

/// Takes a permission from a role. The role then lacks it, and still lacks the permission `other`.
#[tactic(auto, using(bittle::proofs::CallerChanges::contains_after_clear, bittle::proofs::CallerChanges::still_unset_after_clear))]
pub fn take_away(role: &mut u32, permission: u32, other: u32)
    requires lacks { contains (bit_set 32 role.old) other ≡ false }
    ensures gone { contains (bit_set 32 role.new) permission ≡ false }
    ensures other { contains (bit_set 32 role.new) other ≡ false }
{
    role.clear_bit(permission);
}

/// Takes a permission from a role. The role keeps the permission `other`, which it has.
#[tactic(auto, using(bittle_ext::proofs::CallerMembers::contains_other_after_clear))]
pub fn take_one(role: &mut u32, permission: u32, other: u32)
    requires has { contains (bit_set 32 role.old) other ≡ true }
    requires apart { other ≢ permission }
    requires below { permission < 32 }
    requires other_below { other < 32 }
    ensures { contains (bit_set 32 role.new) other ≡ true }
{
    role.clear_bit(permission);
}

/// Flips a lamp that is off. It is on afterwards.
#[tactic(auto, using(bittle_ext::proofs::CallerMembers::set_after_toggle))]
pub fn turn_on(lamps: &mut u32, lamp: u32)
    requires { contains (bit_set 32 lamps.old) lamp ≡ false }
    ensures { contains (bit_set 32 lamps.new) lamp ≡ true }
{
    lamps.toggle(lamp);
}

/// Flips a lamp that is on. It is off afterwards.
#[tactic(auto, using(bittle_ext::proofs::CallerMembers::unset_after_toggle))]
pub fn turn_off(lamps: &mut u32, lamp: u32)
    requires { contains (bit_set 32 lamps.old) lamp ≡ true }
    ensures { contains (bit_set 32 lamps.new) lamp ≡ false }
{
    lamps.toggle(lamp);
}

/// Returns a role that has no permission.
#[tactic(auto, using(bittle_ext::proofs::CallerMembers::contains_empty))]
pub fn no_permission(permission: u32) -> u32
    ensures { contains (bit_set 32 result) permission ≡ false }
{
    u32::zeros()
}

/// Returns a copy of `map` in which each bit from index 100 on is set. In a map of only 100 pages,
/// these bits stand for no page.
#[tactic(auto, using(bittle::proofs::CallerChanges::contains_after_set_span))]
pub fn reserved(map: [u64; 2], page: u32) -> [u64; 2]
    requires past { 100 ≤ page }
    requires below { page < 128 }
    ensures { contains (row_set 2 64 (bit_set 64) result) page ≡ true }
{
    let mut map = map;
    map.set_range_in::<BigEndian>(100, 128);
    map
}

/// Sets the bits of a range, tests one of them, and returns `true`.
#[tactic(auto, using(bittle::proofs::CallerChanges::contains_with_span))]
pub fn fill_and_test(mask: u64) -> bool
    ensures { result ≡ true }
{
    let mut mask = mask;
    mask.set_range_in::<BigEndian>(3, 17);
    mask.test_bit(9)
}

/// Clears a range of a row whose bits are counted from the left. Then it tests a bit of the range,
/// and returns `false`.
#[tactic(auto, using(bittle::proofs::CallerChanges::contains_without_span))]
pub fn drain_and_test(row: [u8; 8]) -> bool
    ensures { result ≡ false }
{
    let mut row = row;
    row.clear_range_in::<LittleEndian>(3, 17);
    row.test_bit_in::<LittleEndian>(9)
}

/// Sets the bits of a range, and tests a bit past it, which has not changed.
#[tactic(auto, using(bittle::proofs::CallerChanges::contains_outside_span))]
pub fn fill_and_test_other(mask: u64) -> bool
    ensures { result ≡ contains (bit_set 64 mask) 17 }
{
    let mut mask = mask;
    mask.set_range_in::<BigEndian>(3, 17);
    mask.test_bit(17)
}

/// Tests the bit at `index + 64`, which wraps to `index`.
#[tactic(auto, using(bittle::proofs::CallerChanges::contains_turned))]
pub fn test_after_a_turn(mask: u64, index: u32) -> bool
    requires { index < 64 }
    ensures { result ≡ contains (bit_set 64 mask) index }
{
    mask.test_bit(index + 64)
}
