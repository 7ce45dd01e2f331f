//! The examples in the comments above the public calls.

use crate::checks::{holds, same};
use bittle::replay::{Call, Reply, Side, Step, replay, replay_mixed, replay_pair, replay_walk};
use bittle::{BigEndian, Bits, BitsMut, BitsOwned, Endian, LittleEndian, Set, number};
use std::cmp::Ordering;

#[test]
fn orders_mask(rt: HostRuntime) {
    same!(rt; LittleEndian::mask::<u8>(9), 0b0100_0000);
}

#[test]
fn orders_zeros(rt: HostRuntime) {
    same!(rt; BigEndian::zeros(0b0001_0000u8), 4);
}

#[test]
fn orders_ones(rt: HostRuntime) {
    same!(rt; BigEndian::ones(0b0000_0111u8), 3);
}

#[test]
fn orders_zeros_rev(rt: HostRuntime) {
    same!(rt; LittleEndian::zeros_rev(0b0001_0000u8), 4);
}

#[test]
fn orders_ones_rev(rt: HostRuntime) {
    same!(rt; BigEndian::ones_rev(0b1110_0000u8), 3);
}

#[test]
fn orders_by_name(rt: HostRuntime) {
    holds!(rt; 0b0010_0010u8.iter_ones_in::<BigEndian>().eq([1, 5]));
    holds!(rt; 0b0010_0010u8.iter_ones_in::<LittleEndian>().eq([2, 6]));
}

#[test]
fn reading_bits_capacity(rt: HostRuntime) {
    same!(rt; [0u16; 2].bits_capacity(), 32);
}

#[test]
fn reading_count_ones(rt: HostRuntime) {
    same!(rt; [0b0001_0000u8, 0b0100_1000].count_ones(), 3);
}

#[test]
fn reading_count_zeros(rt: HostRuntime) {
    same!(rt; [0b0001_0000u8, 0b0100_1000].count_zeros(), 13);
}

#[test]
fn reading_all_zeros(rt: HostRuntime) {
    holds!(rt; [0u8; 4].all_zeros());
}

#[test]
fn reading_all_ones(rt: HostRuntime) {
    holds!(rt; [255u8; 4].all_ones());
}

#[test]
fn reading_test_bit(rt: HostRuntime) {
    holds!(rt; 0b1000_0000u8.test_bit_in::<LittleEndian>(0));
    holds!(rt; 0b0010u8.test_bit(1));
    holds!(rt; 0b0010u8.test_bit(9));
    holds!(rt; 0b1000_0000u8.test_bit_le(0));
    holds!(rt; 0b1000_0000u8.test_bit_be(7));
}

#[test]
fn reading_count_ones_in_range(rt: HostRuntime) {
    same!(rt; [0x90u8, 0x03].count_ones_in_range_in::<BigEndian>(5, 9), 2);
}

#[test]
fn reading_first_one(rt: HostRuntime) {
    same!(rt; [0x10u8, 0x01].first_one_in::<BigEndian>(5, 16), Some(8));
}

#[test]
fn reading_first_zero(rt: HostRuntime) {
    same!(rt; [0x10u8, 0x01].first_zero_in::<BigEndian>(4, 16), Some(5));
}

#[test]
fn reading_last_one(rt: HostRuntime) {
    same!(rt; [0x10u8, 0x01].last_one_in::<BigEndian>(0, 8), Some(4));
}

#[test]
fn reading_last_zero(rt: HostRuntime) {
    same!(rt; [0x10u8, 0x01].last_zero_in::<BigEndian>(0, 9), Some(7));
}

#[test]
fn reading_iter_ones(rt: HostRuntime) {
    holds!(rt; 0b1101_0000u8.iter_ones_in::<LittleEndian>().eq([0, 1, 3]));
    holds!(rt; [0u32, 1, 2, 3].iter_ones().eq([32, 65, 96, 97]));
    holds!(rt; [0u32, 1, 2, 3].iter_ones().rev().eq([97, 96, 65, 32]));
    holds!(rt; 0b1101_0000u8.iter_ones_le().eq([0, 1, 3]));
    holds!(rt; 0b1101_0000u8.iter_ones_be().eq([4, 6, 7]));
}

#[test]
fn reading_iter_zeros(rt: HostRuntime) {
    holds!(rt;
        0b1101_0000u8
            .iter_zeros_in::<LittleEndian>()
            .eq([2, 4, 5, 6, 7])
    );
    holds!(rt; 0b1101u8.iter_zeros().eq([1, 4, 5, 6, 7]));
    holds!(rt; 0b1101_0000u8.iter_zeros_le().eq([2, 4, 5, 6, 7]));
    holds!(rt; 0b1101_0000u8.iter_zeros_be().eq([0, 1, 2, 3, 5]));
}

#[test]
fn reading_join_ones(rt: HostRuntime) {
    holds!(rt;
        0b1010_0000u8
            .join_ones_in::<_, LittleEndian>([10, 20, 30])
            .eq([10, 30])
    );
    holds!(rt; 0b0010_0101u8.join_ones([10, 20, 30]).eq([10, 30]));
    holds!(rt; 0b1010_0000u8.join_ones_le([10, 20, 30]).eq([10, 30]));
    holds!(rt; 0b0000_0101u8.join_ones_be([10, 20, 30]).eq([10, 30]));
}

#[test]
fn changing_set_bit(rt: HostRuntime) {
    let mut word = 0u8;
    word.set_bit_in::<LittleEndian>(0);
    same!(rt; word, 0b1000_0000);
    let mut row = [0u16; 2];
    row.set_bit(31);
    same!(rt; row, [0, 0x8000]);
    let mut row = [0u16; 2];
    row.set_bit_le(31);
    same!(rt; row, [0, 1]);
    let mut row = [0u16; 2];
    row.set_bit_be(32);
    same!(rt; row, [1, 0]);
}

#[test]
fn changing_clear_bit(rt: HostRuntime) {
    let mut word = 0b1000_0001u8;
    word.clear_bit_in::<LittleEndian>(0);
    same!(rt; word, 0b0000_0001);
    let mut row = [0xFFFFu16; 2];
    row.clear_bit(31);
    same!(rt; row, [0xFFFF, 0x7FFF]);
    let mut row = [0xFFFFu16; 2];
    row.clear_bit_le(31);
    same!(rt; row, [0xFFFF, 0xFFFE]);
    let mut row = [0xFFFFu16; 2];
    row.clear_bit_be(31);
    same!(rt; row, [0xFFFF, 0x7FFF]);
}

#[test]
fn changing_clear_bits(rt: HostRuntime) {
    let mut row = [7u8, 9];
    row.clear_bits();
    same!(rt; row, [0, 0]);
}

#[test]
fn changing_union_assign(rt: HostRuntime) {
    let mut word = 0b0011u8;
    word.union_assign(&0b0101);
    same!(rt; word, 0b0111);
}

#[test]
fn changing_conjunction_assign(rt: HostRuntime) {
    let mut word = 0b0011u8;
    word.conjunction_assign(&0b0101);
    same!(rt; word, 0b0001);
}

#[test]
fn changing_difference_assign(rt: HostRuntime) {
    let mut word = 0b0011u8;
    word.difference_assign(&0b0101);
    same!(rt; word, 0b0010);
}

#[test]
fn changing_symmetric_difference_assign(rt: HostRuntime) {
    let mut word = 0b0011u8;
    word.symmetric_difference_assign(&0b0101);
    same!(rt; word, 0b0110);
}

#[test]
fn owned_bits(rt: HostRuntime) {
    same!(rt; <[u32; 4]>::bits(), 128);
}

#[test]
fn owned_zeros(rt: HostRuntime) {
    same!(rt; <[u8; 2]>::zeros(), [0, 0]);
}

#[test]
fn owned_ones(rt: HostRuntime) {
    same!(rt; <[u8; 2]>::ones(), [255, 255]);
}

#[test]
fn owned_with_bit(rt: HostRuntime) {
    same!(rt; 0u8.with_bit_in::<LittleEndian>(0), 0b1000_0000);
    same!(rt; 0u8.with_bit(9), 2);
    same!(rt; 0u8.with_bit_le(1), 0b0100_0000);
    same!(rt; 0u8.with_bit_be(1), 0b0000_0010);
}

#[test]
fn owned_without_bit(rt: HostRuntime) {
    same!(rt; 255u8.without_bit_in::<LittleEndian>(0), 0b0111_1111);
    same!(rt; 255u8.without_bit(2), 0b1111_1011);
    same!(rt; 255u8.without_bit_le(2), 0b1101_1111);
    same!(rt; 255u8.without_bit_be(2), 0b1111_1011);
}

#[test]
fn owned_union(rt: HostRuntime) {
    same!(rt; 0b0011u8.union(0b0101), 0b0111);
}

#[test]
fn owned_conjunction(rt: HostRuntime) {
    same!(rt; 0b0011u8.conjunction(0b0101), 0b0001);
}

#[test]
fn owned_difference(rt: HostRuntime) {
    same!(rt; 0b0011u8.difference(0b0101), 0b0010);
}

#[test]
fn owned_symmetric_difference(rt: HostRuntime) {
    same!(rt; 0b0011u8.symmetric_difference(0b0101), 0b0110);
}

#[test]
fn owned_into_iter_ones(rt: HostRuntime) {
    holds!(rt;
        0b1101_0000u8
            .into_iter_ones_in::<LittleEndian>()
            .eq([0, 1, 3])
    );
    holds!(rt; [8u8, 1].into_iter_ones().eq([3, 8]));
    holds!(rt; [8u8, 1].into_iter_ones_le().eq([4, 15]));
    holds!(rt; [8u8, 1].into_iter_ones_be().eq([3, 8]));
}

#[test]
fn owned_into_iter_zeros(rt: HostRuntime) {
    holds!(rt;
        0b1101_0000u8
            .into_iter_zeros_in::<LittleEndian>()
            .eq([2, 4, 5, 6, 7])
    );
    holds!(rt; 0xF9u8.into_iter_zeros().eq([1, 2]));
    holds!(rt; 0xF9u8.into_iter_zeros_le().eq([5, 6]));
    holds!(rt; 0xF9u8.into_iter_zeros_be().eq([1, 2]));
}

#[test]
fn wrapped_set(rt: HostRuntime) {
    let set = Set::new_le(0b1101_0000u8);
    holds!(rt; set.test_bit(3));
    holds!(rt; set.iter_ones().eq([0, 1, 3]));
}

#[test]
fn wrapped_new(rt: HostRuntime) {
    holds!(rt; Set::new(0b1101_0000u8).iter_ones().eq([4, 6, 7]));
    holds!(rt; Set::new_le(0b1101_0000u8).iter_ones().eq([0, 1, 3]));
    holds!(rt; Set::<u8, LittleEndian>::new_in(0x80).iter_ones().eq([0]));
}

#[test]
fn wrapped_into_bits(rt: HostRuntime) {
    same!(rt; Set::new_le(0x80u8).into_bits(), 0x80);
}

#[test]
fn wrapped_from_ref(rt: HostRuntime) {
    holds!(rt; Set::from_ref(&[1u8, 16]).iter_ones().eq([0, 12]));
    holds!(rt; Set::from_ref_le(&[1u8, 16]).iter_ones().eq([7, 11]));
}

#[test]
fn wrapped_from_mut(rt: HostRuntime) {
    let mut words = [0u8; 2];
    Set::from_mut(&mut words).set_bit(12);
    same!(rt; words, [0, 16]);
    let mut words = [0u8; 2];
    Set::from_mut_le(&mut words).set_bit(12);
    same!(rt; words, [0, 8]);
}

#[test]
fn compared_cmp_bits(rt: HostRuntime) {
    same!(rt; Set::new(1u8).cmp_bits(&3u16), Ordering::Less);
}

#[test]
fn compared_eq_bits(rt: HostRuntime) {
    holds!(rt; Set::new_le(0x80u8).eq_bits(&1u16));
}

#[test]
fn wrapped_operators(rt: HostRuntime) {
    let one: Set<u8> = Set::from(0b0011);
    let other = Set::new(0b0101);
    holds!(rt; (one | other).iter_ones().eq([0, 1, 2]));
    holds!(rt; (one & other).iter_ones().eq([0]));
    holds!(rt; (one ^ other).iter_ones().eq([1, 2]));
    holds!(rt; (one - other).iter_ones().eq([1]));
}

#[test]
fn wrapped_default(rt: HostRuntime) {
    holds!(rt; Set::<u8>::default().all_zeros());
}

#[test]
fn walked_iter_ones(rt: HostRuntime) {
    holds!(rt; [8u8, 3].iter_ones().eq([3, 8, 9]));
    same!(rt; [8u8, 3].iter_ones().next_back(), Some(9));
}

#[test]
fn walked_iter_zeros(rt: HostRuntime) {
    holds!(rt; 0xF9u8.iter_zeros().eq([1, 2]));
}

#[test]
fn walked_into_iter_ones(rt: HostRuntime) {
    holds!(rt; [8u8, 3].into_iter_ones().eq([3, 8, 9]));
}

#[test]
fn walked_into_iter_zeros(rt: HostRuntime) {
    holds!(rt; 0xF9u8.into_iter_zeros().rev().eq([2, 1]));
}

#[test]
fn word_iter_ones(rt: HostRuntime) {
    let mut ones = number::IterOnes::<u8, BigEndian>::new(0b1101);
    same!(rt; (ones.next(), ones.next_back()), (Some(0), Some(3)));
}

#[test]
fn word_iter_zeros(rt: HostRuntime) {
    holds!(rt; number::IterZeros::<u8, BigEndian>::new(0xF9).eq([1, 2]));
}

#[test]
fn word_new_and_len(rt: HostRuntime) {
    holds!(rt; number::IterOnes::<u8, LittleEndian>::new(0xD0).eq([0, 1, 3]));
    same!(rt; number::IterOnes::<u8, LittleEndian>::new(0xD0).len(), 3);
}

#[test]
fn joined_steps(rt: HostRuntime) {
    let mask = 0b0101u8;
    let mut join = mask.join_ones([10, 20, 30, 40]);
    same!(rt; join.next(), Some(10));
    same!(rt; join.next(), Some(30));
    same!(rt; join.next(), None);
}

#[test]
fn listed_set(rt: HostRuntime) {
    let mask: u8 = bittle::set![0, 2..=3, 6..];
    same!(rt; mask, 0b1100_1101);
    let empty: [u16; 4] = bittle::set![];
    same!(rt; empty, [0, 0, 0, 0]);
}

#[test]
fn listed_set_le(rt: HostRuntime) {
    let mask: u8 = bittle::set_le![0, 2..=3, 6..];
    same!(rt; mask, 0b1011_0011);
}

#[test]
fn listed_set_be(rt: HostRuntime) {
    let mask: u8 = bittle::set_be![0, 2..=3, 6..];
    same!(rt; mask, 0b1100_1101);
}

#[test]
fn replayed_calls(rt: HostRuntime) {
    let mut word = 0u8;
    let mut replies = [Reply::Done; 2];
    replay::<_, BigEndian>(&mut word, &[Call::Put(9), Call::Test(1)], &mut replies);
    holds!(rt; replies == [Reply::Done, Reply::Bit(true)]);
    same!(rt; word, 2);
}

#[test]
fn replayed_pair(rt: HostRuntime) {
    let (mut word, mut row) = (0u16, [0u8; 2]);
    let (mut left, mut right) = ([Reply::Done; 2], [Reply::Done; 2]);
    let calls = [Call::Put(9), Call::CountOnes];
    replay_pair::<_, _, BigEndian, BigEndian>(&mut word, &mut row, &calls, &mut left, &mut right);
    holds!(rt; left == right);
    holds!(rt; left == [Reply::Done, Reply::Number(1)]);
}

#[test]
fn replayed_mixed(rt: HostRuntime) {
    let mut word = 0u8;
    let mut replies = [Reply::Done; 2];
    let calls = [(Side::Little, Call::Put(0)), (Side::Big, Call::Test(7))];
    replay_mixed(&mut word, &calls, &mut replies);
    holds!(rt; replies == [Reply::Done, Reply::Bit(true)]);
}

#[test]
fn replayed_walk(rt: HostRuntime) {
    let mut answers = [None; 3];
    let steps = [Step::Front, Step::Back, Step::Front];
    let _looks = replay_walk::<_, BigEndian>(&0b1101u8, true, &steps, &mut answers);
    same!(rt; answers, [Some(0), Some(3), Some(2)]);
}
