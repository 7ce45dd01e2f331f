//! Callers of ready queues.

ghost use Rattle.std.specs.Prelude.{◌≡◌, ◌≢◌, ◌<◌, ◌≤◌, length, IfSome, IsSome, IsTrue, None, true};
ghost use Rattle.std.specs.Prelude.{if◌then◌else◌, map, [], ◌∷◌, List, ℕ};
ghost use Rattle.bit_histories.specs.Histories.{IsHistory};
ghost use Rattle.bit_queue.specs.Queue.{event_answers, most_urgent, runs_or_idle};
ghost use Rattle.bit_queue.specs.Queue.{answer_to, state_after};
ghost use Rattle.bit_queue.specs.QueueLaws.{IsWokenBetween};
ghost use Rattle.bit_queue.specs.RoundRobin.{answers_in_turn, round_at};
ghost use Rattle.bit_queue.specs.RoundRobin.{answer_in_turn, round_after};
ghost use Rattle.bittle.specs.BitPatterns.{bit_set};
ghost use Rattle.bittle.specs.PlainSet.{PlainSet, empty_set, size};
ghost use Rattle.bittle.specs.Values.{set_in};

use bit_queue::{Answer, Event, NoTask, PriorityQueue, RoundRobin, queue_laws};
use bittle::BitsOwned;
use bittle_tiers::{Ones, Tiered4K};

/// Lets two tasks run, and returns them. They differ. Returns `None` if fewer than two are ready.
pub fn run_two<B: BitsOwned>(queue: &mut PriorityQueue<B>) -> Option<(u32, u32)>
    ensures { IfSome result (λ both. both.0 ≢ both.1) }
{
    let first = queue.next()?;
    let second = queue.next()?;
    Some((first, second))
}

/// Serves events. If answer `i` says that a task runs, the call adds 1 to the entry of this task in
/// `runs`, unless that entry is `u32::MAX`.
pub fn serve_and_count<B: BitsOwned>(
    queue: &mut PriorityQueue<B>,
    events: &[Event],
    answers: &mut [Answer],
    i: usize,
    runs: &mut [u32],
)
    requires as_long { length answers.old ≡ length events.now }
    requires i { i < length events.now }
    requires runs { B.type_capacity ≤ length runs.old }
    ensures answers { answers.new
        ≡ event_answers (set_in B.Shape B.Order.Endian queue.old.ready) events.now }
    ensures same_length { length runs.new ≡ length runs.old }
{
    queue.serve(events, answers);
    if let Answer::Runs(task) = answers[i] {
        runs[task as usize] = runs[task as usize].saturating_add(1);
    }
}

/// Wakes `task`, and returns whether it is ready afterwards. The result is always `true`, also if
/// the queue has no such task.
pub fn wake_and_ask<B: BitsOwned>(queue: &mut PriorityQueue<B>, task: u32) -> bool
    ensures { result ≡ true }
{
    match queue.wake(task) {
        Ok(()) => queue.is_ready(task),
        Err(NoTask) => task >= queue.tasks(),
    }
}

/// Wakes `task`, and returns whether `other` is ready exactly if it was before. The result is
/// always `true`, also if both are the same task.
pub fn wake_and_ask_another<B: BitsOwned>(
    queue: &mut PriorityQueue<B>,
    task: u32,
    other: u32,
) -> bool
    ensures { result ≡ true }
{
    let before = queue.is_ready(other);
    let _done = queue.wake(task);
    other == task || queue.is_ready(other) == before
}

/// Lets a task run in turn, and returns whether `other` is ready exactly if it was before. The
/// result is always `true`, also if `other` is the task that ran.
pub fn run_and_ask_another<B: BitsOwned>(turns: &mut RoundRobin<B>, other: u32) -> bool
    ensures { result ≡ true }
{
    let before = turns.is_ready(other);
    match turns.next() {
        Some(task) => other == task || turns.is_ready(other) == before,
        None => turns.is_ready(other) == before,
    }
}

/// Returns whether the task that the queue shows is the one that runs next. The result is always
/// `true`, also if no task is ready.
pub fn peek_and_run<B: BitsOwned>(queue: &mut PriorityQueue<B>) -> bool
    ensures { result ≡ true }
{
    let shown = queue.peek();
    queue.next() == shown
}

/// Lets a task run, unless none is ready, and returns whether that succeeds. The result is always
/// `true`.
pub fn run_unless_empty<B: BitsOwned>(turns: &mut RoundRobin<B>) -> bool
    ensures { result ≡ true }
{
    turns.is_empty() || turns.next().is_some()
}

/// Runs a task, and returns it. If at least one task is ready, one runs.
pub fn run_one<B: BitsOwned>(queue: &mut PriorityQueue<B>) -> Option<u32>
    ensures { 0 < size (set_in B.Shape B.Order.Endian queue.old.ready) → IsSome result }
{
    queue.next()
}

/// Counts the ready tasks of a new queue. The result is always 0.
pub fn count_of_new<B: BitsOwned>() -> u32
    requires { IsTrue B.indexable }
    ensures { result ≡ 0 }
{
    PriorityQueue::<B>::new().len()
}

/// Returns how many tasks are ready in a queue that begins with the tasks of `mask`.
pub fn begin_with(mask: u64) -> u32
    ensures { result ≡ size (bit_set 64 mask) }
{
    PriorityQueue::<u64>::with_ready(mask).len()
}

/// Lets a task run, wakes it again, and returns whether the queue accepts it. The result is always
/// `true`, also if no task is ready.
pub fn run_and_wake<B: BitsOwned>(turns: &mut RoundRobin<B>) -> bool
    ensures { result ≡ true }
{
    match turns.next() {
        Some(task) => turns.wake(task).is_ok(),
        None => true,
    }
}

/// Lets two tasks run in turn, and returns them. They differ. Returns `None` if fewer than two are
/// ready.
pub fn run_two_in_turn<B: BitsOwned>(turns: &mut RoundRobin<B>) -> Option<(u32, u32)>
    ensures { IfSome result (λ both. both.0 ≢ both.1) }
{
    let first = turns.next()?;
    let second = turns.next()?;
    Some((first, second))
}

/// Wakes `task`, and returns whether one task more is ready then, or as many as before if `task`
/// was ready or is no task. The result is always `true`.
pub fn wake_and_count<B: BitsOwned>(queue: &mut PriorityQueue<B>, task: u32) -> bool
    ensures { result ≡ true }
{
    let before = queue.len();
    let was_ready = queue.is_ready(task);
    let woken = queue.wake(task).is_ok();
    let after = queue.len();
    if woken && !was_ready {
        after == before + 1
    } else {
        after == before
    }
}

/// Wakes `task` and removes it. Returns whether the removal succeeds and leaves the task not ready.
/// If the queue has no such task, returns whether the removal fails. The result is always `true`.
pub fn wake_and_remove<B: BitsOwned>(queue: &mut PriorityQueue<B>, task: u32) -> bool
    ensures { result ≡ true }
{
    match queue.wake(task) {
        Ok(()) => queue.remove(task) && !queue.is_ready(task),
        Err(NoTask) => !queue.remove(task),
    }
}

/// Removes `task`, and returns whether one task fewer is ready then, or as many as before if `task`
/// was not ready. The result is always `true`.
pub fn remove_and_count<B: BitsOwned>(queue: &mut PriorityQueue<B>, task: u32) -> bool
    ensures { result ≡ true }
{
    let before = queue.len();
    let was_ready = queue.is_ready(task);
    if queue.remove(task) {
        was_ready && queue.len() == before - 1
    } else {
        !was_ready && queue.len() == before
    }
}

/// Removes `task`, and returns whether `other` is ready exactly if it was before. The result is
/// always `true`, also if both are the same task.
pub fn remove_and_ask_another<B: BitsOwned>(
    turns: &mut RoundRobin<B>,
    task: u32,
    other: u32,
) -> bool
    ensures { result ≡ true }
{
    let before = turns.is_ready(other);
    let _removed = turns.remove(task);
    other == task || turns.is_ready(other) == before
}

/// Lets a task run in turn, and returns whether one task fewer is ready then, or none if no task
/// ran. The result is always `true`.
pub fn run_and_count<B: BitsOwned>(turns: &mut RoundRobin<B>) -> bool
    ensures { result ≡ true }
{
    let before = turns.len();
    match turns.next() {
        Some(_) => turns.len() == before - 1,
        None => before == turns.len(),
    }
}

/// Lets the most urgent ready task run, and takes one step off its entry in `work`, unless that is
/// 0. Returns the task, or `None` if no task is ready.
pub fn run_for(queue: &mut PriorityQueue<u8>, work: &mut [u32; 8]) -> Option<u32>
    ensures task { result ≡ most_urgent (bit_set 8 queue.old.ready) }
    ensures idle { result ≡ None → work.new ≡ work.old }
{
    let task = queue.next()?;
    work[task as usize] = work[task as usize].saturating_sub(1);
    Some(task)
}

/// Returns the entry of a table for a ready task, or `None` if the task is not ready. The check
/// proves that a ready task is an index of the table.
pub fn entry_if_ready(queue: &PriorityQueue<u8>, entries: &[u32; 8], task: u32) -> Option<u32>
    ensures { IfSome result (λ _. task < 8) }
{
    if queue.is_ready(task) {
        Some(entries[task as usize])
    } else {
        None
    }
}

/// Serves events for 64 tasks by urgency. No task is ready at first.
pub fn serve(events: &[Event], answers: &mut [Answer])
    requires { length answers.old ≡ length events.now }
    ensures { answers.new ≡ event_answers (empty_set 64) events.now }
{
    let mut queue = PriorityQueue::<u64>::new();
    queue.serve(events, answers);
}

/// Serves events for 4,096 tasks by urgency. A summary shows which words have a ready task.
pub fn serve_tiered(events: &[Event], answers: &mut [Answer])
    requires { length answers.old ≡ length events.now }
    ensures { answers.new ≡ event_answers (empty_set 4096) events.now }
{
    let mut queue = PriorityQueue::<Tiered4K<Ones>>::new();
    queue.serve(events, answers);
}

/// Serves events for 256 tasks in turns. No task is ready at first.
pub fn serve_in_turn(events: &[Event], answers: &mut [Answer])
    requires { length answers.old ≡ length events.now }
    ensures { answers.new ≡ answers_in_turn (round_at (empty_set 256) 0) events.now }
{
    let mut turns = RoundRobin::<[u64; 4]>::new();
    turns.serve(events, answers);
}

/// Wakes a task, and lets the most urgent ready task run. Returns whether the queue has the first
/// task, and which task ran. The clause says that the two calls, with what they return, are a
/// history of calls: they lead from the ready tasks before to the ready tasks afterwards.
pub fn wake_and_run<B: BitsOwned>(queue: &mut PriorityQueue<B>, task: u32) -> (bool, Option<u32>)
    ensures { IsHistory answer_to state_after (set_in B.Shape B.Order.Endian queue.old.ready)
        ((Event.Wake task, if result.0 then Answer.Woken else Answer.NoTask)
        ∷ (Event.Next, runs_or_idle result.1)
        ∷ []) (set_in B.Shape B.Order.Endian queue.new.ready) }
{
    let woken = queue.wake(task).is_ok();
    let run = queue.next();
    (woken, run)
}

/// Wakes a task, and lets the task that is next in turn run. All else is as with [`wake_and_run`].
pub fn wake_and_run_in_turn<B: BitsOwned>(
    turns: &mut RoundRobin<B>,
    task: u32,
) -> (bool, Option<u32>)
    ensures { IsHistory answer_in_turn round_after
        (round_at (set_in B.Shape B.Order.Endian turns.old.ready) turns.old.turn)
        ((Event.Wake task, if result.0 then Answer.Woken else Answer.NoTask)
        ∷ (Event.Next, runs_or_idle result.1)
        ∷ []) (round_at (set_in B.Shape B.Order.Endian turns.new.ready) turns.new.turn) }
{
    let woken = turns.wake(task).is_ok();
    let run = turns.next();
    (woken, run)
}

/// Removes a task, and lets the task that is next in turn run. Returns whether the first task was
/// ready, and which task ran. The clause says that the two calls are a history of calls.
pub fn remove_and_run_in_turn<B: BitsOwned>(
    turns: &mut RoundRobin<B>,
    task: u32,
) -> (bool, Option<u32>)
    ensures { IsHistory answer_in_turn round_after
        (round_at (set_in B.Shape B.Order.Endian turns.old.ready) turns.old.turn)
        ((Event.Remove task, if result.0 then Answer.Removed else Answer.NotReady)
        ∷ (Event.Next, runs_or_idle result.1)
        ∷ []) (round_at (set_in B.Shape B.Order.Endian turns.new.ready) turns.new.turn) }
{
    let removed = turns.remove(task);
    let run = turns.next();
    (removed, run)
}

/// Makes a step of the queue. Returns whether this agrees with `len`: a task runs exactly if some
/// task is ready. The result is always `true`.
pub fn runs_if_some<B: BitsOwned>(queue: &mut PriorityQueue<B>) -> bool
    ensures { result ≡ true }
{
    let some = queue.len() > 0;
    queue.next().is_some() == some
}

/// Makes a step of the queue. Returns whether this agrees with `is_empty`: no task runs exactly if
/// no task is ready. The result is always `true`.
pub fn idles_if_empty<B: BitsOwned>(turns: &mut RoundRobin<B>) -> bool
    ensures { result ≡ true }
{
    let none = turns.is_empty();
    turns.next().is_none() == none
}

/// States that in any sequence of calls, a task that runs again was woken since it last ran.
pub fn tasks_are_woken_between_calls()
    ensures { (before after : PlainSet) (calls : List (Event × Answer)) (task : ℕ)
        → IsHistory answer_to state_after before calls after
        → IsWokenBetween (map (λ call. call.0) calls) (map (λ call. call.1) calls) task }
{
    queue_laws::calls_answer_as_lists();
    queue_laws::tasks_are_woken_between();
}
