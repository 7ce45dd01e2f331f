//! Tests what calls on a `Set` cost. Most of them make one call to the set that it wraps.

ghost use Rattle.std.specs.Prelude.{◌≤◌, IsTrue};

use crate::asked::{Asked, counts};
use crate::checks::{holds, same};
use crate::probe::{ONES, Probe, ZEROS};
use bittle::{BigEndian, Bits, BitsMut, BitsOwned, Set};
use std::alloc::{AllocError, Global};
use std::process::Abort;
use std::test::Fail;

// What is done with one or two sets that are wrapped by a `Set`.
#[derive(Drop)]
enum Use {
    Union,
    Clone,
    Text,
    Reads,
    Changes,
}

// Unites two sets by the six forms of the operator. Each form makes one call to the left set or to
// a copy of it, and makes no call to the right set.
fn unite<B: BitsOwned>(rt: &impl Abort, one: B, left: &Asked, other: B, right: &Asked)
    requires { IsTrue B.indexable }
{
    let (mut a, b) = (Set::new(one), Set::new(other));
    let _ = a | b;
    let _ = a | &b;
    let _ = &a | b;
    let _ = &a | &b;
    counts!(*rt; left, 0, 4);
    counts!(*rt; right, 0, 0);
    a |= b;
    a |= &b;
    counts!(*rt; left, 0, 6);
    counts!(*rt; right, 0, 0);
}

// Tests that a clone of a set succeeds.
fn clone_set<B: BitsOwned>(rt: &impl Abort, bits: B)
    requires { IsTrue B.indexable }
{
    let set = Set::new(bits);
    holds!(*rt; set.clone().is_ok());
}

// Prints a set with the members 0 and 31.
fn print_set<B: BitsOwned>(rt: &impl Abort, alloc: Global, bits: B) -> Result<(), AllocError>
    requires { IsTrue B.indexable }
{
    let set = Set::new(bits);
    let text = format!(in alloc; "{set:?}")?;
    holds!(*rt; text.as_str() == "{0, 31}");
    Ok(())
}

// Reads a set of 32 bits with the members 0 and 31, by one call of each kind.
fn read<B: BitsOwned>(rt: &impl Abort, set: &B, asked: &Asked)
    requires { IsTrue B.indexable }
{
    same!(*rt; set.count_ones(), 2);
    same!(*rt; asked.other(), 1);
    same!(*rt; set.count_zeros(), 30);
    same!(*rt; asked.other(), 2);
    same!(*rt; set.all_zeros(), false);
    same!(*rt; asked.other(), 3);
    same!(*rt; set.all_ones(), false);
    same!(*rt; asked.other(), 4);
    same!(*rt; set.test_bit(31), true);
    same!(*rt; asked.other(), 5);
    same!(*rt; set.bits_capacity(), 32);
    counts!(*rt; asked, 0, 5);
}

// Changes a set by one call of each kind.
fn change<B: BitsOwned>(set: &mut B)
    requires indexable { IsTrue B.indexable }
    requires within { 30 ≤ B.type_capacity }
{
    set.set_bit(3);
    set.clear_bit(0);
    set.set_range_in::<BigEndian>(5, 30);
    set.clear_bits();
}

// Wraps `bits` in a `Set`, and reads it if `asks` is `true`. Else changes it.
fn ask_or_change<B: BitsOwned>(rt: &impl Abort, asks: bool, bits: B, asked: &Asked)
    requires indexable { IsTrue B.indexable }
    requires within { 30 ≤ B.type_capacity }
{
    let mut set = Set::new(bits);
    if asks {
        read(rt, &set, asked)
    } else {
        change(&mut set)
    }
}

// Makes the calls of `kind` on one set or on both.
fn use_sets<B: BitsOwned>(
    rt: &impl Abort,
    alloc: Global,
    kind: Use,
    one: B,
    left: &Asked,
    other: B,
    right: &Asked,
) -> Result<(), AllocError>
    requires indexable { IsTrue B.indexable }
    requires within { 30 ≤ B.type_capacity }
{
    match kind {
        Use::Union => unite(rt, one, left, other, right),
        Use::Clone => clone_set(rt, one),
        Use::Text => print_set(rt, alloc, one)?,
        Use::Reads => ask_or_change(rt, true, one, left),
        Use::Changes => ask_or_change(rt, false, one, left),
    }
    Ok(())
}

// Makes the calls of `kind` on the sets of `ONES` and of `ZEROS`. Tests how many words of the first
// set are fetched, and how many other calls it gets. The second set gets no call.
fn use_probes(
    rt: &impl Abort,
    alloc: Global,
    kind: Use,
    fetched: u32,
    others: u32,
) -> Result<(), Fail> {
    let (left, right) = (Asked::new(), Asked::new());
    let (one, other) = (Probe::of(ONES, &left), Probe::of(ZEROS, &right));
    use_sets(rt, alloc, kind, one, &left, other, &right)?;
    counts!(*rt; left, fetched, others);
    counts!(*rt; right, 0, 0);
    Ok(())
}

#[test]
fn a_call_on_a_set_makes_one_call_or_fetches_each_word_once(rt: HostRuntime) -> Result<(), Fail> {
    use_probes(&rt, rt.alloc(), Use::Union, 0, 6)?;
    use_probes(&rt, rt.alloc(), Use::Clone, 0, 0)?;
    use_probes(&rt, rt.alloc(), Use::Text, 4, 0)?;
    use_probes(&rt, rt.alloc(), Use::Reads, 0, 5)?;
    use_probes(&rt, rt.alloc(), Use::Changes, 0, 4)
}
