//! The callers in `bittle_uses`, compared with values worked out by hand.

use crate::checks::{holds, same};
use bittle::{Bits, Set};
use bittle_uses::board::outer_cells;
use bittle_uses::changes::{insert, move_bit, remove};
use bittle_uses::entities::with_both;
use bittle_uses::free_runs::first_free_run;
use bittle_uses::permissions::allows;
use bittle_uses::ranks::{how_many_from, rank_of};
use bittle_uses::relations::{is_disjoint, is_subset};
use bittle_uses::searches::{greatest, has_any_above, is_pairwise_below, list_members};
use bittle_uses::sieve::primes;
use bittle_uses::slots::Slots;
use bittle_uses::sums::sum_of_members;
use bittle_uses::tables::greatest_as_byte;
use bittle_uses::totals::sum_from_greatest;
use std::test::Fail;

#[test]
fn primes_below_1024(rt: HostRuntime) {
    let numbers = primes();
    same!(rt; numbers.count_ones(), 172);
    let first: [u32; 6] = [2, 3, 5, 7, 11, 13];
    holds!(rt; numbers.iter_ones().take(6).eq(first.iter().copied()));
    same!(rt; numbers.iter_ones().next_back(), Some(1021));
}

#[test]
fn changes_tell_what_was_there(rt: HostRuntime) {
    let mut set = 0b1001_0110u8;
    holds!(rt; insert(&mut set, 0) && !insert(&mut set, 8));
    holds!(rt; remove(&mut set, 0) && !remove(&mut set, 0));
    move_bit(&mut set, 7, 3);
    same!(rt; set, 0b0001_1110);
    move_bit(&mut set, 7, 0);
    same!(rt; set, 0b0001_1110);
}

#[test]
fn sums_and_ranks(rt: HostRuntime) {
    let set = 0b0001_1110u8;
    same!(rt; sum_of_members(&set), 10);
    same!(rt; sum_from_greatest(0b0001_1110), 10);
    same!(rt; how_many_from(&set, 3), 2);
    same!(rt; (rank_of(&set, 3), rank_of(&set, 5)), (Some(2), None));
}

#[test]
fn searches_of_all_members(rt: HostRuntime) -> Result<(), Fail> {
    let set = 0b0001_1110u8;
    holds!(rt; has_any_above(&set, 3) && !has_any_above(&set, 4));
    same!(rt; greatest(&set), Some(4));
    same!(rt; list_members(rt.alloc(), &set)?.as_slice(), [1, 2, 3, 4].as_slice());
    holds!(rt; is_pairwise_below(&0b11u8, &set) && !is_pairwise_below(&set, &0b11u16));
    Ok(())
}

#[test]
fn relations_of_two_sets(rt: HostRuntime) {
    holds!(rt; is_subset(0b0110u8, 0b1110) && !is_subset(0b0111u8, 0b1110));
    holds!(rt; is_disjoint(0b0001u8, 0b1110) && !is_disjoint(0b0011u8, 0b1110));
}

#[test]
fn runs_of_free_neighbours(rt: HostRuntime) {
    same!(rt; first_free_run(&0b1001_0110u8, 2), Some(5));
    same!(rt; first_free_run(&0b1001_0110u8, 3), None);
}

#[test]
fn members_from_the_left(rt: HostRuntime) -> Result<(), Fail> {
    let set = Set::new_le(0b1101_0000u8);
    same!(rt; list_members(rt.alloc(), &set)?.as_slice(), [0, 1, 3].as_slice());
    Ok(())
}

#[test]
fn boards_entities_and_roles(rt: HostRuntime) {
    same!(rt; outer_cells(0b0110_0001), (Some(1), Some(63)));
    same!(rt; with_both(0b0110, 0b1100), 0b0100);
    let (reader, writer) = (Set::new(0b0001u32), Set::new(0b0011u32));
    holds!(rt; allows(writer, reader) && !allows(reader, writer));
}

#[test]
fn bytes_and_slots(rt: HostRuntime) {
    same!(rt; greatest_as_byte(&[1, 0, 0b0100, 0]), 130);
    let mut words = [u64::MAX ^ 0b1000, 0];
    let mut slots = Slots::over(&mut words);
    same!(rt; (slots.take(), slots.take()), (Some(3), Some(64)));
}
