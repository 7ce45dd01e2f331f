//! Iterators over shared slices, mutably borrowed slices, and slices of any type of element. Each
//! function either requires that the slice fits, or tests its `bits_capacity()`.

ghost use Rattle.std.specs.Prelude.{◌≡◌, ◌≤◌, ◌<◌, ◌*◌, length, slice_get, reverse, MatchOption};
ghost use Rattle.std.specs.Prelude.{Some, true, [], map, slice_index, unwrap_or};
ghost use Rattle.std.specs.List.{last_or};
ghost use Rattle.bittle.specs.Orders.{read_in};
ghost use Rattle.bittle.specs.BitPatterns.{bit_set};
ghost use Rattle.bittle.specs.PlainSet.{ascending, complement};
ghost use Rattle.bittle.specs.Rows.{row_set};
ghost use Rattle.bittle.specs.Shapes.{Fits};
ghost use Rattle.bittle.specs.Values.{set_in, ShapeFits};

use bittle::{BigEndian, Bits, BitsOwned, Endian, LittleEndian, Set};

/// Returns the entry of `row` at the greatest set bit of the slice `mask`, or 0 if no bit is set.
pub fn entry_at_greatest(mask: &[u64], row: &[u32]) -> u32
    requires fits { length mask.now * 64 < 4294967295 }
    requires long { length mask.now * 64 ≤ length row.now }
    ensures { Some result ≡ last_or (Some 0) (map (λ i. slice_index row.now i)
        (ascending (row_set (length mask.now) 64 (bit_set 64) mask.now))) }
{
    let mut last = 0;
    for index in mask.iter_ones() {
        last = row[index as usize];
    }
    last
}

/// Returns the least set bit of a slice, or `None` if no bit is set.
pub fn least_member(mask: &[u64]) -> Option<u32>
    requires { length mask.now * 64 < 4294967295 }
    ensures { result ≡ slice_get (ascending
        (row_set (length mask.now) 64 (bit_set 64) mask.now)) 0 }
{
    mask.iter_ones().next()
}

/// Returns the greatest set bit of a slice in little-endian order, or 0 if no bit is set.
pub fn greatest_from_the_left(mask: &[u64]) -> u32
    requires { length mask.now * 64 < 4294967295 }
    ensures { Some result ≡ last_or (Some 0) (ascending
        (read_in true 64 (row_set (length mask.now) 64 (bit_set 64) mask.now))) }
{
    let mut last = 0;
    for index in mask.iter_ones_le() {
        last = index;
    }
    last
}

/// Returns the greatest unset bit of a slice in big-endian order, or 0 if each bit is set.
pub fn greatest_free_from_the_right(mask: &[u64]) -> u32
    requires { length mask.now * 64 < 4294967295 }
    ensures { Some result ≡ last_or (Some 0) (ascending
        (complement (row_set (length mask.now) 64 (bit_set 64) mask.now))) }
{
    let mut last = 0;
    for index in mask.iter_zeros_be() {
        last = index;
    }
    last
}

/// Returns the least unset bit of a slice of triples of bytes in little-endian order, or 0 if each
/// bit is set. It steps an iterator from the back.
pub fn least_free_of_triples(mask: &[[u8; 3]]) -> u32
    requires { length mask.now * 24 < 4294967295 }
    ensures { result ≡ unwrap_or (slice_get (ascending (complement (read_in true 8
        (row_set (length mask.now) 24 (row_set 3 8 (bit_set 8)) mask.now)))) 0) 0 }
{
    least_free_of::<&[[u8; 3]], LittleEndian>(&mask)
}

// Returns the least unset bit of any set in the bit order `E`, or 0 if each bit is set. It steps an
// iterator from the back.
fn least_free_of<B: Bits, E: Endian>(set: &B) -> u32
    requires { ShapeFits B.Shape set.now }
    ensures { result ≡ unwrap_or
        (slice_get (ascending (complement (set_in B.Shape E.Endian set.now))) 0) 0 }
{
    let mut last = 0;
    for index in set.iter_zeros_in::<E>().rev() {
        last = index;
    }
    last
}

/// Counts the set bits of a slice of triples of bytes by its iterator.
pub fn count_of_triples(mask: &[[u8; 3]]) -> usize
    requires { length mask.now * 24 < 4294967295 }
    ensures { result ≡ length (ascending
        (row_set (length mask.now) 24 (row_set 3 8 (bit_set 8)) mask.now)) }
{
    mask.iter_ones_in::<BigEndian>().count()
}

/// Returns the greatest set bit of a mutably borrowed slice, or 0.
pub fn greatest_of_lent(mask: &mut [u64]) -> u32
    requires { length mask.old * 64 < 4294967295 }
    ensures greatest { Some result ≡ last_or (Some 0) (ascending
        (row_set (length mask.old) 64 (bit_set 64) mask.old)) }
    ensures unchanged { mask.new ≡ mask.old }
{
    let mut last = 0;
    for index in mask.iter_ones() {
        last = index;
    }
    last
}

/// Returns the least and the greatest set bit of a slice in the bit order `E`. Returns `None` if no
/// bit is set, or the slice does not fit.
pub fn ends_of_members<T: BitsOwned, E: Endian>(mask: &[T]) -> Option<(u32, u32)>
    ensures { Fits T.indexable (length mask.now * T.type_capacity) → MatchOption result
        (ascending (read_in E.mirrored T.width
        (row_set (length mask.now) T.type_capacity T.big mask.now)) ≡ [])
        (λ ends. (slice_get (ascending (read_in E.mirrored T.width
        (row_set (length mask.now) T.type_capacity T.big mask.now))) 0 ≡ Some ends.0)
        × (slice_get (reverse (ascending (read_in E.mirrored T.width
        (row_set (length mask.now) T.type_capacity T.big mask.now)))) 0 ≡ Some ends.1)) }
{
    if mask.bits_capacity() == u32::MAX {
        return None;
    }
    ends_of::<&[T], E>(&mask)
}

// Returns the least and the greatest set bit of any set in the bit order `E`, or `None` if no bit
// is set.
fn ends_of<B: Bits, E: Endian>(set: &B) -> Option<(u32, u32)>
    requires { ShapeFits B.Shape set.now }
    ensures { let members = ascending (set_in B.Shape E.Endian set.now) in
        MatchOption result (members ≡ [])
        (λ ends. (slice_get members 0 ≡ Some ends.0)
        × (slice_get (reverse members) 0 ≡ Some ends.1)) }
{
    let mut walk = set.iter_ones_in::<E>();
    match walk.next() {
        Some(least) => Some((least, walk.next_back().unwrap_or(least))),
        None => None,
    }
}

/// Returns the greatest unset bit of a slice of any sets in the bit order `E`, or 0 if each bit is
/// set.
pub fn greatest_free_of_any<T: BitsOwned, E: Endian>(mask: &[T]) -> u32
    requires { Fits T.indexable (length mask.now * T.type_capacity) }
    ensures { Some result ≡ last_or (Some 0) (ascending
        (complement (read_in E.mirrored T.width
        (row_set (length mask.now) T.type_capacity T.big mask.now)))) }
{
    greatest_free_of::<&[T], E>(&mask)
}

// Returns the greatest unset bit of any set in the bit order `E`, or 0 if each bit is set.
fn greatest_free_of<B: Bits, E: Endian>(set: &B) -> u32
    requires { ShapeFits B.Shape set.now }
    ensures { Some result
        ≡ last_or (Some 0) (ascending (complement (set_in B.Shape E.Endian set.now))) }
{
    let mut last = 0;
    for index in set.iter_zeros_in::<E>() {
        last = index;
    }
    last
}

/// Returns the greatest set bit of a slice of any sets, or 0.
pub fn greatest_of_any<T: BitsOwned>(mask: &[T]) -> u32
    requires { Fits T.indexable (length mask.now * T.type_capacity) }
    ensures { Some result ≡ last_or (Some 0) (ascending
        (row_set (length mask.now) T.type_capacity T.big mask.now)) }
{
    let mut last = 0;
    for index in mask.iter_ones() {
        last = index;
    }
    last
}

/// Wraps a slice in a `Set` that remembers little-endian order. Returns the greatest set bit of
/// that `Set`, or 0 if no bit is set.
pub fn greatest_of_wrapped(mask: &[u64]) -> u32
    requires { length mask.now * 64 < 4294967295 }
    ensures { Some result ≡ last_or (Some 0) (ascending
        (read_in true 64 (row_set (length mask.now) 64 (bit_set 64) mask.now))) }
{
    let mut last = 0;
    for index in &Set::from_ref_le(mask) {
        last = index;
    }
    last
}
