//! The same list of calls on nested arrays, on an integer, and on slices that a caller lends.

ghost use Rattle.std.specs.Prelude.{◌*◌, length};
ghost use Rattle.bittle.specs.Shapes.{Fits};
ghost use Rattle.bittle.specs.Values.{ShapeFits};

use crate::checks::same;
use bittle::replay::{Call, Reply, replay};
use bittle::{BigEndian, BitsMut, BitsOwned, Endian, LittleEndian};
use std::fmt::Debug;
use std::process::Abort;

// Sets bit `big` of an empty set in big-endian order, and bit `little` of another empty set in
// little-endian order. Then checks both sets.
fn put_each_way<B: BitsOwned + Debug>(
    rt: &impl Abort,
    big: u32,
    little: u32,
    capacity: u32,
    expected: [B; 2],
) {
    assert!(rt; B::bits() == capacity && capacity < u32::MAX);
    let mut sets = [B::zeros(); 2];
    put_and_ask::<B, BigEndian>(rt, &mut sets[0], big, capacity);
    put_and_ask::<B, LittleEndian>(rt, &mut sets[1], little, capacity);
    same!(*rt; sets, expected);
}

// Does what `put_each_way` does, on arrays of two sets. This function and the next one each add one
// level of nesting, so that a type of several levels is proved in less time.
fn put_in_pairs<T: BitsOwned + Debug>(
    rt: &impl Abort,
    big: u32,
    little: u32,
    capacity: u32,
    expected: [[T; 2]; 2],
) {
    put_each_way::<[T; 2]>(rt, big, little, capacity, expected);
}

fn put_in_two_levels<T: BitsOwned + Debug>(
    rt: &impl Abort,
    big: u32,
    little: u32,
    capacity: u32,
    expected: [[[T; 2]; 2]; 2],
) {
    put_in_pairs::<[T; 2]>(rt, big, little, capacity, expected);
}

#[test]
fn nested_arrays(rt: HostRuntime) {
    let expected: [[[u8; 2]; 2]; 2] = [[[0, 0], [2, 0]], [[0, 0], [64, 0]]];
    put_in_two_levels::<u8>(&rt, 49, 17, 32, expected);

    // The same big-endian calls on an integer of the same capacity.
    let mut word = 0i32;
    put_and_ask::<i32, BigEndian>(&rt, &mut word, 49, 32);
    same!(rt; word, 131_072);
}

// Sets one bit of a slice in which no bit is set.
fn put_into<T: BitsOwned, E: Endian>(
    rt: &impl Abort,
    mut slice: &mut [T],
    index: u32,
    capacity: u32,
)
    requires { Fits T.indexable (length slice.old * T.type_capacity) }
{
    put_and_ask::<&mut [T], E>(rt, &mut slice, index, capacity);
}

#[test]
fn slices(rt: HostRuntime) {
    let mut words = [0i64; 5];
    put_into::<i64, LittleEndian>(&rt, &mut words[..], 384, 320);
    put_into::<i64, BigEndian>(&rt, &mut words[..1], 67, 64);
    same!(rt; words, [8, i64::MIN, 0, 0, 0]);
    words = [0; 5];
    put_into::<i64, BigEndian>(&rt, &mut words[..], 384, 320);
    put_into::<i64, LittleEndian>(&rt, &mut words[..1], 64, 64);
    same!(rt; words, [i64::MIN, 1, 0, 0, 0]);
    no_words::<BigEndian>(&rt);
    no_words::<LittleEndian>(&rt);
}

fn no_words<E: Endian>(rt: &impl Abort) {
    let mut words: [i64; 0] = [];
    let calls = [
        Call::Put(3),
        Call::Test(3),
        Call::CountZeros,
        Call::AllOnes,
        Call::Capacity,
    ];
    let mut replies = [Reply::Done; 5];
    replay::<&mut [i64], E>(&mut &mut words[..], &calls, &mut replies);
    let expected = [
        Reply::Done,
        Reply::Bit(false),
        Reply::Number(0),
        Reply::Bit(true),
        Reply::Number(0),
    ];
    same!(*rt; replies, expected);
}

// Sets one bit of an empty set. Then checks that this bit is set, that just one bit is set, and
// that the set has the given capacity.
fn put_and_ask<B: BitsMut, E: Endian>(rt: &impl Abort, bits: &mut B, index: u32, capacity: u32)
    requires { ShapeFits B.Shape bits.old }
{
    let calls = [
        Call::Put(index),
        Call::Test(index),
        Call::CountOnes,
        Call::Capacity,
    ];
    let mut replies = [Reply::Done; 4];
    replay::<B, E>(bits, &calls, &mut replies);
    let expected = [
        Reply::Done,
        Reply::Bit(true),
        Reply::Number(1),
        Reply::Number(capacity),
    ];
    same!(*rt; replies, expected);
}
