//! Indexes from outside, which may be at the capacity or past it. They do not wrap. No caller has a
//! proof file.

ghost use Rattle.std.specs.Prelude.{◌≡◌, ◌*◌, ◌<◌, ◌↔◌, IsTrue, IsOk, IfSome, length, true, false};
ghost use Rattle.bittle.specs.BitPatterns.{bit_set};
ghost use Rattle.bittle.specs.PlainSet.{size, with_index};
ghost use Rattle.bittle.specs.Rows.{row_set};
ghost use Rattle.bittle.specs.Values.{set_in, ShapeFits};

use bittle::{Bits, BitsMut, LittleEndian};
use bittle_ext::{BitsIndexExt, BitsIndexMutExt, BitsMutViewExt};

/// The error for an edge that leads out of the graph.
pub struct NoNode;

/// Visits a node of a graph with 64 nodes, and returns whether it was new.
pub fn visit(seen: &mut u64, node: u32) -> Result<bool, NoNode>
    ensures { IsOk result ↔ node < 64 }
{
    match seen.try_insert(node) {
        Some(new) => Ok(new),
        None => Err(NoNode),
    }
}

/// Visits the ends of edges, and returns how many of them are no node. The bits of `seen` are in
/// little-endian order.
pub fn visit_ends(seen: &mut [u8; 5], ends: &[u32]) -> usize {
    let mut out = 0usize;
    for end in ends.iter() {
        if seen
            .in_order_mut::<LittleEndian>()
            .try_insert(*end)
            .is_none()
        {
            out = out.saturating_add(1);
        }
    }
    out
}

/// Visits the ends of edges in a graph whose number of nodes is known only at run time. Returns how
/// many of the ends are no node. The slice may be of any length.
pub fn visit_ends_in(mut seen: &mut [u64], ends: &[u32]) -> usize {
    let mut out = 0usize;
    for end in ends.iter() {
        if seen.try_insert(*end).is_none() {
            out = out.saturating_add(1);
        }
    }
    out
}

/// Returns the weight of a node that was seen, or 0 for one that was not.
pub fn weight_of(seen: u64, weights: &[u32; 64], node: u32) -> u32
    ensures { (bit_set 64 seen).has node ≡ false → result ≡ 0 }
{
    if seen.contains_index(node) {
        weights[node as usize]
    } else {
        0
    }
}

/// Returns whether the bit at an index is set, or `None` if the index is past the end.
pub fn is_set<B: Bits>(bits: &B, index: u32) -> Option<bool>
    requires { ShapeFits B.Shape bits.now }
    ensures { IfSome result (λ bit. bit ≡ (set_in B.Shape B.Order.Endian bits.now).has index) }
{
    bits.get_bit(index)
}

/// Sets a bit if the index is below the capacity. Returns `true`, since after that the bit is set
/// or there is no such bit.
#[tactic(auto, using(bittle::proofs::CallerChanges::contains_with))]
pub fn set_checked(mask: u64, index: u32) -> bool
    ensures { result ≡ true }
{
    let mut mask = mask;
    !mask.try_set_bit(index) || mask.test_bit(index)
}

/// Sets the bit at an index below the capacity. Returns `true`, since there is such a bit.
pub fn set_below(mask: &mut u64, index: u32) -> bool
    requires { index < 64 }
    ensures done { result ≡ true }
    ensures set { bit_set 64 mask.new ≡ with_index (bit_set 64 mask.old) index }
{
    mask.try_set_bit(index)
}

/// Clears a bit of a slice of any length, and returns whether there is such a bit.
pub fn clear_checked(mut words: &mut [u64], index: u32) -> bool
    ensures { IsTrue result → index < length words.old * 64 }
{
    words.try_clear_bit(index)
}

/// Visits a node, and returns how many nodes are seen then.
pub fn visit_and_count(seen: &mut [u64; 4], node: u32) -> u32
    ensures { result ≡ size (row_set 4 64 (bit_set 64) seen.new) }
{
    let before = seen.count_ones();
    match seen.try_insert(node) {
        Some(true) => before + 1,
        _ => before,
    }
}
