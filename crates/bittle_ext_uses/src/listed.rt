//! Sets and lists of their members. The contracts say what is known of each number of a list once
//! the bits at these numbers are set. One function writes the least members into a slice.

ghost use Rattle.std.specs.List.{All};
ghost use Rattle.std.specs.Prelude.{◌≡◌, ◌<◌, ℕ, min, length, get_or, true};
ghost use Rattle.bittle.specs.BitPatterns.{bit_set};
ghost use Rattle.bittle.specs.PlainSet.{ascending, contains, size};
ghost use Rattle.bittle.specs.Rows.{row_set};

use bittle::Bits;
use bittle_ext::{BitsMutExt, BitsOwnedExt};

/// Returns the set of the numbers that are never given out.
#[tactic(auto, using(bittle_ext::proofs::ListedMembers::contains_after_all))]
pub fn never_given(numbers: &[u32]) -> u64
    ensures { All (λ i. contains (bit_set 64 result) i ≡ true) numbers.now }
{
    u64::from_indexes(numbers)
}

/// Takes all seats of a list. Some of them may be taken already.
#[tactic(auto, using(bittle_ext::proofs::ListedMembers::contains_after_all))]
pub fn take(taken: &mut [u64; 4], seats: &[u32])
    ensures { All (λ i. contains (row_set 4 64 (bit_set 64) taken.new) i ≡ true) seats.now }
{
    taken.insert_all(seats);
}

/// Takes all seats of a list. The seat `seat`, which was taken before, stays taken.
#[tactic(auto, using(bittle_ext::proofs::ListedMembers::still_set_after_all))]
pub fn take_beside(taken: &mut [u64; 4], seats: &[u32], seat: u32)
    requires { contains (row_set 4 64 (bit_set 64) taken.old) seat ≡ true }
    ensures { contains (row_set 4 64 (bit_set 64) taken.new) seat ≡ true }
{
    taken.insert_all(seats);
}

/// Writes the least members of a set into a slice, as many as fit, and returns how many it wrote.
pub fn write_first(members: &[u64; 4], room: &mut [u32]) -> usize
    ensures length { length room.new ≡ length room.old }
    ensures count { result ≡ min (size (row_set 4 64 (bit_set 64) members.now)) (length room.new) }
    ensures items { (k : ℕ) → k < result → get_or room.new k 0
        ≡ get_or (ascending (row_set 4 64 (bit_set 64) members.now)) k 0 }
{
    let mut count = 0;
    for index in members.iter_ones() {
        if room.len() <= count {
            break;
        }
        room[count] = index;
        count += 1;
    }
    count
}
