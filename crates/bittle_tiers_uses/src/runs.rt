//! Sequences of calls: a set with a summary replies as a plain set does.

ghost use Rattle.std.specs.Prelude.{◌≡◌, length};
ghost use Rattle.bittle.specs.Machine.{replies_of};
ghost use Rattle.bittle.specs.PlainSet.{empty_set};

use bittle::replay::{Call, Reply, replay};
use bittle::{BigEndian, LittleEndian, Set};
use bittle_tiers::prelude::*;

/// Makes `calls` on a sparse set with capacity 4,096, which begins empty, and writes the replies.
pub fn run(calls: &[Call], replies: &mut [Reply])
    requires { length replies.old ≡ length calls.now }
    ensures { replies.new ≡ replies_of (empty_set 4096) calls.now }
{
    let mut set = Tiered4K::<Ones>::zeros();
    replay::<Tiered4K<Ones>, BigEndian>(&mut set, calls, replies);
}

/// Makes `calls` in little-endian order on a set with capacity 4,096 that `default` makes, and
/// writes the replies. The set begins empty in each order.
pub fn run_default(calls: &[Call], replies: &mut [Reply])
    requires { length replies.old ≡ length calls.now }
    ensures { replies.new ≡ replies_of (empty_set 4096) calls.now }
{
    let mut set = Tiered4K::<Zeros>::default();
    replay::<Tiered4K<Zeros>, LittleEndian>(&mut set, calls, replies);
}

/// Makes `calls` on a `Set` that begins empty and remembers little-endian order.
pub fn run_wrapped(calls: &[Call], replies: &mut [Reply])
    requires { length replies.old ≡ length calls.now }
    ensures { replies.new ≡ replies_of (empty_set 4096) calls.now }
{
    let mut set = Set::<Tiered4K<Ones>, LittleEndian>::zeros();
    replay::<Set<Tiered4K<Ones>, LittleEndian>, LittleEndian>(&mut set, calls, replies);
}

/// Makes `calls` on a set with capacity 65,536, which begins empty. The set has a summary, and the
/// summary has a summary itself.
pub fn run_large(calls: &[Call], replies: &mut [Reply])
    requires { length replies.old ≡ length calls.now }
    ensures { replies.new ≡ replies_of (empty_set 65536) calls.now }
{
    let mut set = Tiered64K::<Zeros>::zeros();
    replay::<Tiered64K<Zeros>, LittleEndian>(&mut set, calls, replies);
}
