//! The mask of a scheduler, whose set bits are the priorities that are ready. The least of them
//! runs first.

ghost use Rattle.std.specs.Prelude.{◌≡◌, ◌<◌, MatchOption};
ghost use Rattle.bittle.specs.BitPatterns.{bit_set};
ghost use Rattle.bittle.specs.PlainSet.{with_index, without_index};
ghost use Rattle.bittle.specs.Rows.{row_set};
ghost use Rattle.bittle.specs.Searches.{IsFirstIn};

use bittle::BitsMut;
use bittle_ext::BitsMutExt;

/// Makes the priority ready.
pub fn wake(mask: &mut [u64; 4], priority: u32)
    requires { priority < 256 }
    ensures { row_set 4 64 (bit_set 64) mask.new
        ≡ with_index (row_set 4 64 (bit_set 64) mask.old) priority }
{
    mask.set_bit(priority);
}

/// Returns the least ready priority, which is no longer ready afterwards. If none is ready, the
/// call changes nothing and returns `None`.
pub fn take(mask: &mut [u64; 4]) -> Option<u32>
    ensures least { IsFirstIn (row_set 4 64 (bit_set 64) mask.old) 0 256 result }
    ensures mask { MatchOption result
        (mask.new ≡ mask.old)
        (λ priority. row_set 4 64 (bit_set 64) mask.new
        ≡ without_index (row_set 4 64 (bit_set 64) mask.old) priority) }
{
    mask.pop_first()
}
