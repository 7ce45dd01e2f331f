//! Callers of the everyday calls (`bittle_ext`), compared with values worked out by hand.

use crate::checks::{holds, same};
use bittle::Bits;
use bittle_ext_uses::any_changes::add_each;
use bittle_ext_uses::blocks::Blocks;
use bittle_ext_uses::checked_indexes::visit_ends_in;
use bittle_ext_uses::combined_walks::{last_little, shared_price, shared_weight};
use bittle_ext_uses::equal_sets::copied;
use bittle_ext_uses::field::Field;
use bittle_ext_uses::filled::fill;
use bittle_ext_uses::found_bits::{
    first_absence, first_missing, first_open_bay, first_wide_bay, free_for_both, free_run,
    safe_squares, was_there_all,
};
use bittle_ext_uses::graphs::{reachable, targets};
use bittle_ext_uses::known_members::{
    Ports, are_hidden, book, book_again, book_before, cancel, cancel_from, copy_cells, empty_hall,
    free_pages, hidden_mine, is_on_with, join, leave, paint, take_pages, take_seat, visit,
};
use bittle_ext_uses::listed::write_first;
use bittle_ext_uses::mines::Board;
use bittle_ext_uses::one_line::{free_hour, letters, offered, taken_from_first};
use bittle_ext_uses::relation_chains::right_numbers;
use bittle_ext_uses::seats::Seats;
use bittle_ext_uses::sets_between::cover;
use bittle_ext_uses::shots::{Shot, fire};

#[test]
fn nodes_that_edges_lead_to(rt: HostRuntime) {
    // Edges lead from 0 to 1 and 63, from 63 to 2, from 2 back to 0, and from 5 to 1.
    let mut rows = [0u64; 64];
    rows[0] = 1 << 63 | 0b0010;
    rows[2] = 0b0001;
    rows[5] = 0b0010;
    rows[63] = 0b0100;
    same!(rt; reachable(&rows, 0), 1 << 63 | 0b0111);
    same!(rt; (reachable(&rows, 5), reachable(&rows, 1)), (0b0010_0010, 0b0010));
    same!(rt; (reachable(&rows, 64), reachable(&rows, u32::MAX)), (0, 0));
    same!(rt; (targets(&rows, 0b0010_0001), targets(&rows, 0)), (1 << 63 | 0b0010, 0));
}

#[test]
fn nodes_that_a_graph_does_not_have(rt: HostRuntime) {
    // The graph has 128 nodes, so 128 and `u32::MAX` are no nodes. Node 64 was seen before.
    let mut seen = [0u64, 1];
    same!(rt; visit_ends_in(&mut seen, &[0, 64, 127, 128, u32::MAX]), 2);
    same!(rt; seen, [1, 1 << 63 | 1]);
    let mut byte = 0b0001u8;
    same!(rt; add_each(&mut byte, &[7, 8, 0, 65]), 2);
    same!(rt; byte, 0b1000_0001);
}

#[test]
fn entries_at_what_a_row_and_a_byte_share(rt: HostRuntime) {
    // The row has the indexes 3, 7 and 200, and the byte has 1, 3 and 7. They share 3 and 7.
    let row = [1u64 << 7 | 1 << 3, 0, 0, 1 << 8];
    let weights = [10u32, 11, 12, 13, 14, 15, 16, 17];
    same!(rt; shared_weight(&row, 0b1000_1010, &weights), 13);
    same!(rt; shared_weight(&row, 0b0010, &weights), 0);
    let prices = [1u32, 5, 9, 12, 14, 15, 16, 17, 18];
    same!(rt; shared_price(&row, 0b1000_1010, &prices), 9);
    same!(rt; shared_price(&[0; 4], 0b1000_1010, &prices), 1);
}

#[test]
fn the_last_index_of_a_row_in_little_endian_order(rt: HostRuntime) {
    // Index 0 is the leftmost bit of the first byte, and index 23 the rightmost bit of the third.
    let mut table = [0u32; 32];
    table[0] = 7;
    table[23] = 42;
    same!(rt; last_little(&[0x80, 0, 1, 0], &table), 42);
    same!(rt; last_little(&[0x80, 0, 0, 0], &table), 7);
    same!(rt; last_little(&[0; 4], &table), 0);
}

#[test]
fn first_members_in_a_slice(rt: HostRuntime) {
    let members = [0b1010u64, 0, 1, 0];
    let mut room = [9u32; 4];
    same!(rt; (write_first(&members, &mut room), room), (3, [1, 3, 128, 9]));
    same!(rt; (write_first(&members, &mut room[..2]), write_first(&members, &mut [])), (2, 0));
}

#[test]
fn right_numbers_of_a_ticket(rt: HostRuntime) {
    // The ticket has 1, 2, 3, 10, 20 and 49. Of these, 3, 10 and 49 were drawn.
    let ticket = 1 << 49 | 1 << 20 | 1 << 10 | 0b1110u64;
    assert!(rt; Bits::count_ones(&ticket) == 6);
    same!(rt; right_numbers(ticket, 1 << 49 | 1 << 48 | 1 << 10 | 0b1000), 3);
}

#[test]
fn a_field_of_cells(rt: HostRuntime) {
    let mut field = Field::new();
    field.fill_first(3);
    field.fill(199);
    field.fill(200);
    same!(rt; (field.count(), field.first()), (4, Some(0)));
    // The lowest row goes, and cells 0 to 2 with it. Cell 199 moves down one row, to 189.
    field.remove_row();
    same!(rt; (field.count(), field.first(), field.is_full(199)), (1, Some(189), false));
    field.empty(189);
    same!(rt; (field.count(), field.first()), (0, None));
}

#[test]
fn two_fields_in_one(rt: HostRuntime) {
    let (mut field, mut other) = (Field::new(), Field::new());
    field.fill(7);
    other.fill_first(2);
    field.join(&other);
    same!(rt; (field.count(), field.first(), field.is_full(7)), (3, Some(0), true));
}

#[test]
fn seats_of_which_some_are_reserved(rt: HostRuntime) {
    // Seats 0 and 1 are reserved.
    let mut seats = Seats::new([0b11, 0, 0, 0]);
    same!(rt; (seats.take(), seats.give_back(1), seats.give_back(2)), (Some(2), false, true));
    seats.take_all(&[2, 255]);
    same!(rt; (seats.take(), seats.is_taken(1), seats.is_taken(4)), (Some(3), true, false));
    same!(rt; (seats.give_back(255), seats.give_back(255)), (true, false));
}

#[test]
fn squares_of_a_board_with_mines(rt: HostRuntime) {
    // There is a mine at square 3.
    let mut board = Board::new(0b1000);
    same!(rt; (board.show(3), board.show(2), board.show(64)), (false, true, false));
    same!(rt; (board.lay(2), board.lay(5), board.show(5)), (false, true, false));
    same!(rt; (board.disarm(5), board.disarm(5), board.show(5)), (true, false, true));
    board.hide(2);
    same!(rt; (board.is_shown(2), board.is_shown(5), board.is_shown(3)), (false, true, false));
    same!(rt; (board.has_mine(3), board.has_mine(5)), (true, false));
    same!(rt; (board.sign(3), board.sign(5), board.sign(6)), (2, 1, 0));
    board.reset(3);
    board.reset(5);
    same!(rt; (board.show(3), board.is_shown(3), board.is_shown(5)), (true, true, false));
}

#[test]
fn blocks_of_which_some_are_bad(rt: HostRuntime) {
    // Block 0 is bad from the start, and block 4 is marked later.
    let mut first = [0u64; 16];
    first[0] = 1;
    let mut blocks = Blocks::new(first);
    same!(rt; blocks.take_run(3), Some(1));
    blocks.mark_bad(4);
    blocks.mark_bad(1024);
    same!(rt; (blocks.take_run(2), blocks.take_run(1017)), (Some(5), Some(7)));
    same!(rt; (blocks.take_run(1), blocks.take_run(0)), (None, Some(0)));
}

#[test]
fn clauses_of_one_line(rt: HostRuntime) {
    same!(rt; (free_hour(0b1011), free_hour(u32::MAX)), (Some(2), None));
    same!(rt; (letters(&[2, 0, 2, 25]), letters(&[])), (1 << 25 | 0b101, 0));
    same!(rt; (offered(0b0011, 0b0110, 0b1010), offered(0, 0, 1)), (0b0101, 0));
    same!(rt; (taken_from_first(0b0111), taken_from_first(6)), (3, 0));
    same!(rt; taken_from_first(u64::MAX), 64);
}

#[test]
fn bays_that_are_open_or_wide(rt: HostRuntime) {
    // Bays 0 to 63 are taken and bay 64 is closed. Bays 1 and 65 are wide. Bit 201 is set too, but
    // there is no bay 201.
    let (taken, closed) = ([u64::MAX, 0, 0, 0], [0, 1, 0, 0]);
    same!(rt; first_open_bay(&taken, &closed), Some(65));
    same!(rt; first_open_bay(&taken, &[0, u64::MAX, u64::MAX, 0xFF]), None);
    same!(rt; first_wide_bay(&[2, 2, 0, 1 << 9], &taken), Some(65));
    same!(rt; first_wide_bay(&[2, 0, 0, 1 << 9], &taken), None);
}

#[test]
fn days_of_a_month(rt: HostRuntime) {
    // The person was there on days 0 to 3 and on day 5.
    let days = 0b0010_1111;
    same!(rt; (was_there_all(days, 0, 4), was_there_all(days, 3, 6)), (true, false));
    same!(rt; (was_there_all(days, 9, 9), was_there_all(days, 5, 31)), (true, false));
    same!(rt; (first_absence(days, 0), first_absence(days, 5)), (Some(4), Some(6)));
    same!(rt; (first_absence(u32::MAX, 0), first_absence(days, 31)), (None, None));
}

#[test]
fn bits_that_a_search_finds(rt: HostRuntime) {
    same!(rt; (first_missing(0b0111, 0b0011), first_missing(1, 3)), (Some(2), None));
    same!(rt; (free_for_both(0b0101, 0b0010), free_for_both(1 << 24, u32::MAX)), (Some(3), None));
    same!(rt; (safe_squares(0b0011, 0b0110), safe_squares(0, 0)), (!0b0111, u64::MAX));
    // Numbers 1 and 4 are taken.
    let mut taken = [0u64; 64];
    taken[0] = 0b0001_0010;
    same!(rt; (free_run(&taken, 2), free_run(&taken, 3)), (Some(2), Some(5)));
    same!(rt; (free_run(&taken, 4090), free_run(&taken, 4091)), (Some(5), None));
}

#[test]
fn seats_and_lines_that_fill(rt: HostRuntime) {
    let mut seats = !0b0101u64;
    same!(rt; (fill(&mut seats), fill(&mut seats)), (2, 0));
    same!(rt; seats, u64::MAX);
    let mut lines = [1u64, 0, 0, 0, 0, 0, 0, 0];
    let other = [2u64, 0, 0, 0, 0, 0, 0, 1];
    same!(rt; (cover(&mut lines, &other), cover(&mut lines, &other)), (true, false));
    same!(rt; lines, [3, 0, 0, 0, 0, 0, 0, 1]);
}

#[test]
fn a_set_copied_number_by_number(rt: HostRuntime) {
    same!(rt; (copied(0), copied(u64::MAX)), (0, u64::MAX));
    same!(rt; copied(1 << 63 | 0b1010), 1 << 63 | 0b1010);
}

// Returns a number for an answer: 0 for a repeated shot, 1 for water, 2 for a ship.
fn number_of(answer: Shot) -> u32 {
    match answer {
        Shot::Repeated => 0,
        Shot::Missed => 1,
        Shot::Hit => 2,
    }
}

#[test]
fn shots_at_ships(rt: HostRuntime) {
    // Ships are at squares 1 and 63.
    let (ships, mut fired) = (1 << 63 | 0b0010, 0u64);
    let mut answers = [9; 5];
    for (k, square) in [63, 2, 63, 1, 2].iter().enumerate() {
        answers[k] = number_of(fire(ships, &mut fired, *square));
    }
    same!(rt; (answers, fired), ([2, 1, 0, 2, 0], 1 << 63 | 0b0110));
}

#[test]
fn mines_that_are_hidden(rt: HostRuntime) {
    same!(rt; (are_hidden(0b0101, 0b1010), are_hidden(0b0101, 0b0110)), (true, false));
    same!(rt; (hidden_mine(0b0100, 0b0011), hidden_mine(0b0110, 0b0100)), (Some(2), None));
    same!(rt; (hidden_mine(0, 0b0001), hidden_mine(1 << 63, 0)), (None, Some(63)));
}

#[test]
fn seats_and_lamps(rt: HostRuntime) {
    // Seats 0, 1 and 3 are taken, so seat 2 is the next one, and 60 seats are free after that.
    let (mut seats, mut full) = (0b1011u64, u64::MAX);
    same!(rt; (take_seat(&mut seats), take_seat(&mut full)), (Some(60), None));
    same!(rt; (seats, full, empty_hall()), (0b1111, u64::MAX, 0));
    same!(rt; (is_on_with(4, 1, 1), is_on_with(4, 1, 2), is_on_with(4, 1, 3)), (true, true, false));
}

#[test]
fn pages_and_cells(rt: HostRuntime) {
    let mut pages = 0b1000_0001u64;
    take_pages(&mut pages, 2, 5);
    same!(rt; pages, 0b1001_1101);
    free_pages(&mut pages, 0, 3);
    same!(rt; pages, 0b1001_1000);
    let mut cells = 1 << 63 | 0b1000u64;
    paint(&mut cells, 0, 2);
    same!(rt; cells, 1 << 63 | 0b1011);
    // Cells 0 to 2 are copied to cells 8 to 10, so cell 10 becomes unset.
    let mut cells = 0b0100_0000_1011u64;
    copy_cells(&mut cells, 0, 3, 8);
    same!(rt; cells, 0b0011_0000_1011);
}

#[test]
fn ports_that_stay_unused(rt: HostRuntime) {
    same!(rt; (Ports::restored(1 << 9).is_none(), Ports::restored(1).is_none()), (true, true));
    match Ports::restored(1 << 10) {
        Some(mut ports) => {
            ports.take(63);
            same!(rt; (ports.is_used(10), ports.is_used(63)), (true, true));
            same!(rt; (ports.is_used(9), ports.is_used(11)), (false, false));
        }
        None => holds!(rt; false),
    }
}

#[test]
fn nodes_and_groups(rt: HostRuntime) {
    let mut seen = 0b0010u64;
    visit(&mut seen, 1);
    same!(rt; seen, 0b0010);
    visit(&mut seen, 63);
    same!(rt; seen, 1 << 63 | 0b0010);
    let mut group = 0b0000_0001u8;
    join(&mut group, 7);
    join(&mut group, 0);
    same!(rt; group, 0b1000_0001);
    leave(&mut group, 0);
    leave(&mut group, 1);
    same!(rt; group, 0b1000_0000);
}

#[test]
fn hours_of_a_timetable(rt: HostRuntime) {
    let mut day = 0u8;
    book(&mut day, 2, 5);
    same!(rt; day, 0b0001_1100);
    cancel(&mut day, 3, 4);
    same!(rt; day, 0b0001_0100);
    let mut hours = 0b0111_1000u64;
    book_again(&mut hours, 3, 7);
    same!(rt; hours, 0b0111_1000);
    book_again(&mut hours, 6, 8);
    same!(rt; hours, 0b1111_1000);
    cancel_from(&mut hours, 5);
    same!(rt; hours, 0b0001_1000);
    book_before(&mut hours, 2);
    same!(rt; hours, 0b0001_1011);
    cancel_from(&mut hours, 64);
    book_before(&mut hours, 0);
    same!(rt; hours, 0b0001_1011);
}
