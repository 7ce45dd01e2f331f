//! Graphs: a union over the rows of a table, and a search. The loop of the search adds nodes to a
//! queue, and takes each node that it visits out of the set of those that are left.

ghost use Rattle.std.specs.Prelude.{◌≡◌};
ghost use Rattle.bittle.specs.BitPatterns.{bit_set};
ghost use Rattle.bittle.specs.PlainSet.{PlainSet};
ghost use Rattle.bittle_ext.specs.SetRelations.{IsSubset};
ghost use Rattle.bittle_ext_uses.specs.Graphs.{targets_of, IsClosed};

use bittle::{Bits, BitsMut, BitsOwned};
use bittle_ext::{BitsMutExt, BitsOwnedExt, BitsRelationExt};

/// Returns the nodes that an edge leads to from any of `nodes`. Row `k` has the nodes that an edge
/// leads to from node `k`.
pub fn targets(rows: &[u64; 64], nodes: u64) -> u64
    ensures { bit_set 64 result ≡ targets_of rows.now (bit_set 64 nodes) }
{
    let mut all = u64::zeros();
    for node in nodes.iter_ones() {
        all.union_assign(&rows[node as usize]);
    }
    all
}

/// Returns `start` and all nodes that can be reached from it along edges. The result is the least
/// set that has `start` and that no edge leaves. Row `k` has the nodes that an edge leads to from
/// node `k`. For a start past the last node it returns the empty set.
///
/// Each turn takes one node out of `left`. The size of that set is the measure of the loop.
pub fn reachable(rows: &[u64; 64], start: u32) -> u64
    ensures closed { IsClosed rows.now start (bit_set 64 result) }
    ensures least { (nodes : PlainSet) → IsClosed rows.now start nodes
        → IsSubset (bit_set 64 result) nodes }
{
    let (mut left, mut queue) = (u64::ones(), u64::zeros());
    if start < 64 {
        queue.set_bit(start);
    }
    while let Some(node) = queue.first_common(&left) {
        left.remove(node);
        queue.union_assign(&rows[node as usize]);
    }
    left.complement()
}
