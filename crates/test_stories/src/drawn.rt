//! Pseudo-random numbers, and events of a queue that are made of them.

use bit_queue::Event;

// Draws a pseudo-random number below 2^24.
pub(crate) fn draw(state: &mut u32) -> u32 {
    *state = state.wrapping_mul(1_664_525).wrapping_add(1_013_904_223);
    *state >> 8
}

// Draws an event for a queue of 24 tasks. Of eight events, three are `Next`, one is a `Remove` and
// four are a `Wake`. These may name a task that does not exist.
pub(crate) fn draw_event(state: &mut u32) -> Event {
    let number = draw(state);
    match number % 8 {
        0..=2 => Event::Next,
        3 => Event::Remove(number / 8 % 27),
        _ => Event::Wake(number / 8 % 27),
    }
}
