//! Tests of calls whose index does not wrap, with indexes below, at and past the capacity. The
//! expected values are worked out by hand.

ghost use Rattle.std.specs.Prelude.{IsTrue};
ghost use Rattle.bittle.specs.Values.{ShapeFits};

use crate::calls::{Change, INSERT, REMOVE, change_in};
use crate::checks::same;
use bittle::prelude::*;
use bittle::{BitsOwned, LittleEndian, Set};
use bittle_ext::prelude::*;
use std::process::Abort;

// Returns what `contains_index` and `get_bit` return for three indexes.
fn asked<B: Bits>(bits: &B, indexes: [u32; 3]) -> ([bool; 3], [Option<bool>; 3])
    requires { ShapeFits B.Shape bits.now }
{
    let (mut contained, mut bit) = ([false; 3], [None; 3]);
    for k in 0..3usize {
        contained[k] = bits.contains_index(indexes[k]);
        bit[k] = bits.get_bit(indexes[k]);
    }
    (contained, bit)
}

// Checks what `asked` returns for a set bit, an unset bit, and an index at or past the capacity.
fn answers<B: Bits>(rt: &impl Abort, bits: &B, indexes: [u32; 3])
    requires { ShapeFits B.Shape bits.now }
{
    let expected = ([true, false, false], [Some(true), Some(false), None]);
    same!(*rt; asked(bits, indexes), expected);
}

#[test]
fn questions_of_words(rt: HostRuntime) {
    answers(&rt, &0b0110u8, [2, 7, 8]);
    answers(&rt, &0b0110u8, [1, 0, 10]);
    answers(&rt, &i128::MIN, [127, 126, 128]);
    answers(&rt, &1u64, [0, 63, u32::MAX]);
}

// Calls `answers` on a little-endian set.
fn answers_of_left<T: BitsOwned>(rt: &impl Abort, left: T, indexes: [u32; 3])
    requires { IsTrue T.indexable }
{
    answers(rt, &Set::new_le(left), indexes);
}

#[test]
fn questions_of_rows(rt: HostRuntime) {
    answers(&rt, &[0u8, 0x10, 0x80], [12, 13, 24]);
    let words = [0u32, 4];
    let slice: &[u32] = &words;
    answers(&rt, &slice, [34, 2, 66]);
}

#[test]
fn questions_from_the_left(rt: HostRuntime) {
    answers_of_left(&rt, [0u8, 0x10, 0x80], [16, 12, 24]);
    answers(&rt, &0b0110u8.in_order::<LittleEndian>(), [5, 1, 8]);
}

#[test]
fn questions_of_an_empty_row(rt: HostRuntime) {
    let none = ([false, false, false], [None, None, None]);
    same!(rt; asked(&[0u8; 0], [0, 1, u32::MAX]), none);
}

// Names `try_set_bit`, in a call of `tried`. `INSERT` names `try_insert`, and `REMOVE` names
// `try_remove`.
const SET_BIT: u32 = 2;

// Names `try_clear_bit`.
const CLEAR_BIT: u32 = 3;

// Makes the call that `kind` names, and returns what it returns.
pub(crate) fn tried<B: BitsMut>(kind: u32, set: &mut B, index: u32) -> Option<bool>
    requires { IsTrue B.indexable }
{
    match kind {
        INSERT => set.try_insert(index),
        REMOVE => set.try_remove(index),
        SET_BIT => Some(set.try_set_bit(index)),
        _ => Some(set.try_clear_bit(index)),
    }
}

#[test]
fn changes_of_words(rt: HostRuntime) {
    let mut word = 0b0001u8;
    let answers = [tried(SET_BIT, &mut word, 7), tried(SET_BIT, &mut word, 9)];
    same!(rt; (answers, word), ([Some(true), Some(false)], 0b1000_0001));
    let answers = [
        tried(CLEAR_BIT, &mut word, 7),
        tried(CLEAR_BIT, &mut word, 8),
    ];
    same!(rt; (answers, word), ([Some(true), Some(false)], 0b0000_0001));
}

#[test]
fn insertions_of_words(rt: HostRuntime) {
    let mut word = 0b0001u8;
    let (first, second) = (tried(INSERT, &mut word, 3), tried(INSERT, &mut word, 3));
    let answers = [first, second, tried(INSERT, &mut word, 12)];
    same!(rt; (answers, word), ([Some(true), Some(false), None], 0b1001));
    let (first, second) = (tried(REMOVE, &mut word, 0), tried(REMOVE, &mut word, 0));
    let answers = [first, second, tried(REMOVE, &mut word, 11)];
    same!(rt; (answers, word), ([Some(true), Some(false), None], 0b1000));
}

// A change that makes a call of `tried` with this kind and index. The answer is what it returns.
#[derive(Drop)]
struct Attempt(u32, u32);

impl Change for Attempt {
    type Answer = Option<bool>;

    fn change<B: BitsMut>(&self, row: &mut B) -> Option<bool> {
        tried(self.0, row, self.1)
    }
}

#[test]
fn changes_of_rows_from_the_left(rt: HostRuntime) {
    let mut row = [0u8; 3];
    same!(rt; change_in::<_, LittleEndian, _>(&Attempt(INSERT, 8), &mut row), Some(true));
    same!(rt; change_in::<_, LittleEndian, _>(&Attempt(INSERT, 24), &mut row), None);
    same!(rt; change_in::<_, LittleEndian, _>(&Attempt(SET_BIT, 23), &mut row), Some(true));
    same!(rt; row, [0, 0x80, 1]);
    same!(rt; change_in::<_, LittleEndian, _>(&Attempt(REMOVE, 8), &mut row), Some(true));
    same!(rt; change_in::<_, LittleEndian, _>(&Attempt(CLEAR_BIT, 23), &mut row), Some(true));
    same!(rt; change_in::<_, LittleEndian, _>(&Attempt(CLEAR_BIT, 31), &mut row), Some(false));
    same!(rt; row, [0, 0, 0]);
}

#[test]
fn changes_of_an_empty_row(rt: HostRuntime) {
    let mut row = [0u64; 0];
    same!(rt; tried(SET_BIT, &mut row, 0), Some(false));
    same!(rt; tried(CLEAR_BIT, &mut row, 0), Some(false));
    same!(rt; tried(INSERT, &mut row, 0), None);
    same!(rt; tried(REMOVE, &mut row, u32::MAX), None);
}
