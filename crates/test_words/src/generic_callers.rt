//! Callers of iterators, proved without any proof file except for the invariants of loops.

ghost use Rattle.std.specs.Prelude.{◌≡◌, ◌+◌, ◌*◌, ◌/◌, ◌<◌, IfOk, length, map, reverse, true};
ghost use Rattle.std.specs.Prelude.{false};
ghost use Rattle.bittle.specs.BitPatterns.{bit_set};
ghost use Rattle.bittle.specs.Orders.{read_in};
ghost use Rattle.bittle.specs.PlainSet.{ascending, complement};
ghost use Rattle.bittle.specs.Rows.{row_set};
ghost use Rattle.bittle.specs.Values.{set_in, ShapeFits};

use bittle::{Bits, BitsOwned, Endian};
use std::alloc::{AllocError, Global};

/// Counts the set bits of any set with a `for` loop.
fn each_member<B: Bits, E: Endian>(bits: &B) -> u64
    requires fits { ShapeFits B.Shape bits.now }
    requires few { length (ascending (set_in B.Shape E.Endian bits.now)) < 100 }
    ensures { result ≡ length (ascending (set_in B.Shape E.Endian bits.now)) }
{
    let mut total: u64 = 0;
    for _index in bits.iter_ones_in::<E>() {
        total += 1;
    }
    total
}

/// Counts the unset bits of an array with a `for` loop.
fn each_other(bits: &[[u8; 2]; 2]) -> u32
    requires { length
        (ascending (complement
        (read_in false 8 (row_set 2 16 (row_set 2 8 (bit_set 8)) bits.now)))) < 100 }
    ensures { result
        ≡ length (ascending
        (complement (read_in false 8
        (row_set 2 16 (row_set 2 8 (bit_set 8)) bits.now)))) }
{
    let mut total = 0;
    for _index in bits.iter_zeros() {
        total += 1;
    }
    total
}

/// Counts the set bits of an owned set with a `for` loop.
fn each_owned_member<B: BitsOwned, E: Endian>(bits: B) -> u64
    requires fits { ShapeFits B.Shape bits }
    requires few { length (ascending (set_in B.Shape E.Endian bits)) < 100 }
    ensures { result ≡ length (ascending (set_in B.Shape E.Endian bits)) }
{
    let mut total: u64 = 0;
    for _index in bits.into_iter_ones_in::<E>() {
        total += 1;
    }
    total
}

/// Lists the indexes of the set bits of a set, from the greatest down. They follow the order `E`.
fn reversed<B: Bits, E: Endian>(alloc: Global, bits: &B) -> Result<Vec<u32>, AllocError>
    requires { ShapeFits B.Shape bits.now }
    ensures { IfOk result (λ v. v.items ≡ reverse (ascending (set_in B.Shape E.Endian bits.now))) }
{
    bits.iter_ones_in::<E>().rev().collect(alloc)
}

/// Lists half of the index, rounded down, for each unset bit of a word. The indexes follow the
/// little-endian order.
fn halves(alloc: Global, word: u8) -> Result<Vec<u32>, AllocError>
    ensures { IfOk result (λ v. v.items
        ≡ map (λ i. i / 2) (ascending (complement (read_in true 8 (bit_set 8 word))))) }
{
    word.into_iter_zeros_le()
        .map(|index| index / 2)
        .collect(alloc)
}
