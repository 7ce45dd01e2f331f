//! Ready queues: a `PriorityQueue` runs tasks by urgency, and a `RoundRobin` runs them in turns.

ghost use Rattle.bittle.specs.Shapes.{Fits};

use crate::checks::{holds, same};
use crate::drawn::draw_event;
use bit_queue::{Answer, Event, NoTask, PriorityQueue, RoundRobin};
use bittle::{BitsOwned, LittleEndian, Set};
use std::test::Fail;

// Events. Some wake a task that is ready already, or remove one that is not ready. Some name task
// 300, which does not exist.
const EVENTS: [Event; 13] = [
    Event::Wake(5),
    Event::Wake(2),
    Event::Wake(5),
    Event::Next,
    Event::Wake(2),
    Event::Wake(300),
    Event::Wake(0),
    Event::Remove(0),
    Event::Remove(0),
    Event::Remove(300),
    Event::Next,
    Event::Next,
    Event::Next,
];

// Serves the events by urgency.
fn serve_by_urgency<B: BitsOwned>() -> [Answer; 13]
    requires { Fits B.indexable B.type_capacity }
{
    let mut queue = PriorityQueue::<B>::new();
    let mut answers = [Answer::Idle; 13];
    queue.serve(&EVENTS, &mut answers);
    answers
}

// Serves the events in turns.
fn serve_in_turn<B: BitsOwned>() -> [Answer; 13]
    requires { Fits B.indexable B.type_capacity }
{
    let mut queue = RoundRobin::<B>::new();
    let mut answers = [Answer::Idle; 13];
    queue.serve(&EVENTS, &mut answers);
    answers
}

// Returns the expected answers. Three tasks run. Which ones run second and third depends on the
// kind of queue.
fn answers_of(second: u32, third: u32) -> [Answer; 13] {
    [
        Answer::Woken,
        Answer::Woken,
        Answer::Woken,
        Answer::Runs(2),
        Answer::Woken,
        Answer::NoTask,
        Answer::Woken,
        Answer::Removed,
        Answer::NotReady,
        Answer::NotReady,
        Answer::Runs(second),
        Answer::Runs(third),
        Answer::Idle,
    ]
}

#[test]
fn by_urgency_in_an_integer(rt: HostRuntime) {
    same!(rt; serve_by_urgency::<u8>(), answers_of(2, 5));
}

#[test]
fn in_turn_in_an_integer(rt: HostRuntime) {
    same!(rt; serve_in_turn::<u8>(), answers_of(5, 2));
}

#[test]
fn queues_without_tasks(rt: HostRuntime) {
    let mut queue = PriorityQueue::<[u8; 0]>::new();
    same!(rt; (queue.wake(0), queue.next(), queue.tasks()), (Err(NoTask), None, 0));
    holds!(rt; !queue.is_ready(0) && !queue.remove(0));
    same!(rt; shown_urgent(&queue), (None, 0, true));
    let mut turns = RoundRobin::<[u8; 0]>::new();
    same!(rt; (turns.wake(0), turns.next(), turns.tasks()), (Err(NoTask), None, 0));
    holds!(rt; !turns.is_ready(0) && !turns.remove(0));
    same!(rt; shown_in_turn(&turns), (None, 0, true));
}

#[test]
fn a_number_past_the_last_task(rt: HostRuntime) -> Result<(), Fail> {
    let mut queue = PriorityQueue::<Set<u8, LittleEndian>>::new();
    same!(rt; (queue.wake(8), queue.wake(4_294_967_295)), (Err(NoTask), Err(NoTask)));
    same!(rt; queue.next(), None);
    same!(rt; queue.wake(7), Ok(()));
    holds!(rt; queue.is_ready(7) && !queue.is_ready(15));
    holds!(rt; !queue.remove(15) && !queue.remove(4_294_967_295) && queue.is_ready(7));
    let mut turns = RoundRobin::<[u8; 2]>::new();
    same!(rt; (turns.wake(16), turns.wake(15)), (Err(NoTask), Ok(())));
    holds!(rt; !turns.remove(16) && !turns.remove(31));
    same!(rt; (turns.next(), turns.next()), (Some(15), None));
    holds!(rt; !turns.is_ready(15) && !turns.is_ready(31));
    let text = format!(in rt.alloc(); "{NoTask}")?;
    same!(rt; text.as_str(), "there is no such task");
    Ok(())
}

#[test]
fn a_task_that_is_woken_at_each_step_lets_the_others_run(rt: HostRuntime) {
    let mut turns = RoundRobin::<u8>::new();
    same!(rt; (turns.wake(0), turns.wake(1), turns.wake(7)), (Ok(()), Ok(()), Ok(())));
    for expected in [0u32, 1, 7, 0, 1, 7] {
        same!(rt; turns.next(), Some(expected));
        same!(rt; turns.wake(expected), Ok(()));
    }
}

// Returns what a queue by urgency shows: the task that runs next, how many are ready, and whether
// none is.
fn shown_urgent<B: BitsOwned>(queue: &PriorityQueue<B>) -> (Option<u32>, u32, bool) {
    (queue.peek(), queue.len(), queue.is_empty())
}

// Returns the same of a queue in turns.
fn shown_in_turn<B: BitsOwned>(turns: &RoundRobin<B>) -> (Option<u32>, u32, bool) {
    (turns.peek(), turns.len(), turns.is_empty())
}

#[test]
fn a_queue_by_urgency_that_begins_with_ready_tasks(rt: HostRuntime) {
    // Bits 1, 3 and 6.
    let mut queue = PriorityQueue::<u8>::with_ready(0b0100_1010);
    same!(rt; shown_urgent(&queue), (Some(1), 3, false));
    same!(rt; (queue.next(), queue.next()), (Some(1), Some(3)));
    same!(rt; shown_urgent(&queue), (Some(6), 1, false));
    same!(rt; queue.wake(0), Ok(()));
    same!(rt; (*queue.ready(), queue.peek()), (0b0100_0001, Some(0)));
    same!(rt; (queue.next(), queue.next()), (Some(0), Some(6)));
    same!(rt; shown_urgent(&queue), (None, 0, true));
    same!(rt; queue.next(), None);
}

#[test]
fn a_queue_in_turns_that_begins_with_ready_tasks(rt: HostRuntime) {
    // Bits 1, 3 and 6.
    let mut turns = RoundRobin::<u8>::with_ready(0b0100_1010);
    same!(rt; shown_in_turn(&turns), (Some(1), 3, false));
    same!(rt; (turns.next(), turns.next()), (Some(1), Some(3)));
    same!(rt; turns.wake(0), Ok(()));
    // Task 6 comes before task 0, because the turn is at task 4.
    same!(rt; shown_in_turn(&turns), (Some(6), 2, false));
    same!(rt; (*turns.ready(), turns.next()), (0b0100_0001, Some(6)));
    same!(rt; shown_in_turn(&turns), (Some(0), 1, false));
    same!(rt; (turns.next(), turns.next()), (Some(0), None));
    same!(rt; shown_in_turn(&turns), (None, 0, true));
}

#[test]
fn tasks_removed_from_a_queue_by_urgency(rt: HostRuntime) {
    // Bits 1, 3 and 6.
    let mut queue = PriorityQueue::<u8>::with_ready(0b0100_1010);
    same!(rt; (queue.remove(0), *queue.ready()), (false, 0b0100_1010));
    same!(rt; (queue.remove(1), *queue.ready()), (true, 0b0100_1000));
    same!(rt; (queue.remove(1), shown_urgent(&queue)), (false, (Some(3), 2, false)));
    same!(rt; queue.next(), Some(3));
    // Task 3 has run, so it is not ready. Task 6 is the only one that is.
    same!(rt; (queue.remove(3), queue.remove(6)), (false, true));
    same!(rt; (shown_urgent(&queue), queue.next()), ((None, 0, true), None));
    same!(rt; (queue.wake(6), queue.next()), (Ok(()), Some(6)));
}

#[test]
fn tasks_removed_from_a_queue_in_turns(rt: HostRuntime) {
    // Bits 1, 3 and 6.
    let mut turns = RoundRobin::<u8>::with_ready(0b0100_1010);
    same!(rt; turns.next(), Some(1));
    // Task 3 is next. The turn stays at task 2.
    same!(rt; (turns.remove(3), shown_in_turn(&turns)), (true, (Some(6), 1, false)));
    same!(rt; (turns.remove(3), turns.remove(1)), (false, false));
    same!(rt; (turns.wake(1), turns.wake(2)), (Ok(()), Ok(())));
    same!(rt; (*turns.ready(), turns.next()), (0b0100_0110, Some(2)));
    same!(rt; (turns.remove(1), turns.remove(6)), (true, true));
    same!(rt; (shown_in_turn(&turns), turns.next()), ((None, 0, true), None));
    same!(rt; (turns.wake(3), turns.wake(2), turns.next()), (Ok(()), Ok(()), Some(3)));
}

#[test]
fn ready_tasks_in_the_other_order(rt: HostRuntime) {
    // From the most significant bit down, the set bits have the numbers 1, 4 and 6.
    let ready = Set::<u8, LittleEndian>::new_in(0b0100_1010);
    let mut queue = PriorityQueue::<Set<u8, LittleEndian>>::with_ready(ready);
    same!(rt; (queue.peek(), queue.len()), (Some(1), 3));
    same!(rt; (queue.next(), queue.next(), queue.next()), (Some(1), Some(4), Some(6)));
    let mut turns = RoundRobin::<Set<u8, LittleEndian>>::with_ready(ready);
    same!(rt; (turns.peek(), turns.len(), turns.is_empty()), (Some(1), 3, false));
    same!(rt; (turns.remove(3), turns.remove(4), turns.len()), (false, true, 2));
}

// Applies an event to an array of flags, and returns the expected answer. For `Next`, the search
// for a ready task starts at task `from` and wraps around.
fn answer_by_flags(event: Event, from: usize, ready: &mut [bool; 24]) -> Answer {
    match event {
        Event::Wake(task) => match ready.get_mut(task as usize) {
            Some(flag) => {
                *flag = true;
                Answer::Woken
            }
            None => Answer::NoTask,
        },
        Event::Remove(task) => match ready.get_mut(task as usize) {
            Some(flag) => {
                let was_ready = *flag;
                *flag = false;
                if was_ready {
                    Answer::Removed
                } else {
                    Answer::NotReady
                }
            }
            None => Answer::NotReady,
        },
        Event::Next => {
            let mut answer = Answer::Idle;
            for step in 0..24usize {
                let task = (from % 24 + step) % 24;
                if answer == Answer::Idle && ready[task] {
                    ready[task] = false;
                    answer = Answer::Runs(task as u32);
                }
            }
            answer
        }
    }
}

// Gives an event to a queue by urgency, and returns the answer.
fn give_urgent<B: BitsOwned>(event: Event, queue: &mut PriorityQueue<B>) -> Answer {
    match event {
        Event::Wake(task) => match queue.wake(task) {
            Ok(()) => Answer::Woken,
            Err(NoTask) => Answer::NoTask,
        },
        Event::Remove(task) => {
            if queue.remove(task) {
                Answer::Removed
            } else {
                Answer::NotReady
            }
        }
        Event::Next => match queue.next() {
            Some(task) => Answer::Runs(task),
            None => Answer::Idle,
        },
    }
}

// Gives an event to a queue in turns, and returns the answer.
fn give_in_turn<B: BitsOwned>(event: Event, queue: &mut RoundRobin<B>) -> Answer {
    match event {
        Event::Wake(task) => match queue.wake(task) {
            Ok(()) => Answer::Woken,
            Err(NoTask) => Answer::NoTask,
        },
        Event::Remove(task) => {
            if queue.remove(task) {
                Answer::Removed
            } else {
                Answer::NotReady
            }
        }
        Event::Next => match queue.next() {
            Some(task) => Answer::Runs(task),
            None => Answer::Idle,
        },
    }
}

// Returns whether a queue by urgency answers drawn events as an array of flags does.
fn is_urgent_as_flags<B: BitsOwned>() -> bool
    requires { Fits B.indexable B.type_capacity }
{
    let mut state = 3;
    let mut queue = PriorityQueue::<B>::new();
    let (mut ready, mut is_same) = ([false; 24], true);
    for _ in 0..2000 {
        let event = draw_event(&mut state);
        let expected = answer_by_flags(event, 0, &mut ready);
        is_same = give_urgent(event, &mut queue) == expected && is_same;
    }
    is_same
}

#[test]
fn drawn_events_by_urgency(rt: HostRuntime) {
    holds!(rt; is_urgent_as_flags::<[u8; 3]>());
    holds!(rt; is_urgent_as_flags::<Set<[u8; 3], LittleEndian>>());
}

// Returns whether a queue in turns answers drawn events as an array of flags does.
fn is_in_turn_as_flags<B: BitsOwned>() -> bool
    requires { Fits B.indexable B.type_capacity }
{
    let mut state = 11;
    let mut queue = RoundRobin::<B>::new();
    let (mut ready, mut from, mut is_same) = ([false; 24], 0usize, true);
    for _ in 0..2000 {
        let event = draw_event(&mut state);
        let expected = answer_by_flags(event, from, &mut ready);
        is_same = give_in_turn(event, &mut queue) == expected && is_same;
        if let Answer::Runs(task) = expected {
            from = task as usize % 24 + 1;
        }
    }
    is_same
}

#[test]
fn drawn_events_in_turn(rt: HostRuntime) {
    holds!(rt; is_in_turn_as_flags::<[u8; 3]>());
    holds!(rt; is_in_turn_as_flags::<Set<[u8; 3], LittleEndian>>());
}
