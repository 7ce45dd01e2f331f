//! The queue in which the most urgent ready task runs.

ghost use Rattle.std.specs.Prelude.{◌≡◌, ◌==◌, ◌<◌, ◌≤◌, ◌↔◌, length, true, false, IfSome, IsOk};
ghost use Rattle.std.specs.Prelude.{IsSome, IsTrue, MatchOption, Some, ℕ, ◌≢◌, slice_index_or};
ghost use Rattle.std.specs.Prelude.{◌+◌, ◌&&◌, not, cond, is_ok, is_some};
ghost use Rattle.bittle.specs.PlainSet.{empty_set, size};
ghost use Rattle.bittle.specs.Searches.{NoneIn};
ghost use Rattle.bittle.specs.Shapes.{Fits};
ghost use Rattle.bittle.specs.Values.{set_in};
ghost use Rattle.bit_queue.specs.Queue.{is_ready, most_urgent, answer_to, state_after};
ghost use Rattle.bit_queue.specs.Queue.{event_answers, final_state};
ghost use Rattle.bit_queue.specs.QueueLaws.{IsMostUrgent};

use crate::{Answer, Event, NoTask};
use bittle::BitsOwned;

/// A queue of ready tasks, in which the task with the least number runs first. The tasks are the
/// numbers below the capacity of `B`.
///
/// The type guarantees that `B` fits: `B::bits()` is below `u32::MAX`.
#[derive(Drop)]
pub struct PriorityQueue<B: BitsOwned> {
    // A task is ready if its bit is set. The indexes follow the bit order of `B`.
    ready: B,
    pub ghost fits: { Fits B.indexable B.type_capacity },
}

impl<B: BitsOwned> PriorityQueue<B> {
    /// Returns a queue in which no task is ready. The type has to fit: `B::bits() < u32::MAX`
    /// checks this. With capacity 0 there is no task.
    pub fn new() -> PriorityQueue<B>
        requires { IsTrue B.indexable }
        ensures ready { set_in B.Shape B.Order.Endian result.ready ≡ empty_set B.type_capacity }
        ensures count { size (set_in B.Shape B.Order.Endian result.ready) ≡ 0 }
    {
        PriorityQueue::with_ready(B::zeros())
    }

    /// Returns a queue in which a task is ready if its bit is set in `ready`. The indexes follow
    /// the bit order of `B`. The type has to fit, as for [`new`](PriorityQueue::new).
    ///
    /// In `PriorityQueue::<u64>::with_ready(0b1011)` the tasks 0, 1 and 3 are ready.
    pub fn with_ready(ready: B) -> PriorityQueue<B>
        requires { IsTrue B.indexable }
        ensures { result.ready ≡ ready }
    {
        PriorityQueue { ready }
    }

    /// Lends the set of the ready tasks. The indexes follow the bit order of `B`.
    pub fn ready(&self) -> &B
        ensures ready { result.now ≡ self.now.ready }
        ensures capacity { (B.big result.now).capacity ≡ B.type_capacity }
    {
        &self.ready
    }

    /// Returns how many tasks are ready. The call goes word by word, not bit by bit.
    pub fn len(&self) -> u32
        ensures count { result ≡ size (set_in B.Shape B.Order.Endian self.now.ready) }
        ensures at_most { result ≤ B.type_capacity }
    {
        self.ready.count_ones()
    }

    /// Returns whether no task is ready; with capacity 0 this is always so. It costs what
    /// `all_zeros` of [`ready`](PriorityQueue::ready) costs.
    pub fn is_empty(&self) -> bool
        ensures none { IsTrue result
            ↔ NoneIn (set_in B.Shape B.Order.Endian self.now.ready) 0 B.type_capacity }
        ensures count { result ≡ (size (set_in B.Shape B.Order.Endian self.now.ready) == 0) }
    {
        self.ready.all_zeros()
    }

    /// Returns how many tasks there are.
    pub fn tasks(&self) -> u32
        ensures { result ≡ B.type_capacity }
    {
        B::bits()
    }

    /// Returns whether the number is a task, and ready. A number past the last task is no task. It
    /// costs O(1).
    pub fn is_ready(&self, task: u32) -> bool
        ensures value { result ≡ is_ready (set_in B.Shape B.Order.Endian self.now.ready) task }
        ensures below { IsTrue result → task < B.type_capacity }
    {
        task < B::bits() && self.ready.test_bit(task)
    }

    /// Makes a task ready; a task that is ready stays ready. For a number past the last task it
    /// returns `Err`, and nothing changes. It costs O(1).
    ///
    /// In a `PriorityQueue::<u64>`, `wake(7)` returns `Ok(())` and `wake(64)` returns
    /// `Err(NoTask)`.
    pub fn wake(&mut self, task: u32) -> Result<(), NoTask>
        ensures a_task { IsOk result ↔ task < B.type_capacity }
        ensures is_ready { task < B.type_capacity
            → is_ready (set_in B.Shape B.Order.Endian self.new.ready) task ≡ true }
        ensures count { let before = set_in B.Shape B.Order.Endian self.old.ready in
            size (set_in B.Shape B.Order.Endian self.new.ready)
            ≡ size before + cond (is_ok result && not (is_ready before task)) 1 0 }
        ensures at_least { size (set_in B.Shape B.Order.Endian self.old.ready)
            ≤ size (set_in B.Shape B.Order.Endian self.new.ready) }
        ensures at_most { size (set_in B.Shape B.Order.Endian self.new.ready)
            ≤ size (set_in B.Shape B.Order.Endian self.old.ready) + 1 }
        ensures others { (other : ℕ) → other ≢ task
            → is_ready (set_in B.Shape B.Order.Endian self.new.ready) other
            ≡ is_ready (set_in B.Shape B.Order.Endian self.old.ready) other }
        ensures ready { set_in B.Shape B.Order.Endian self.new.ready
            ≡ state_after (set_in B.Shape B.Order.Endian self.old.ready) (Event.Wake task) }
    {
        if task >= B::bits() {
            return Err(NoTask);
        }
        self.ready.set_bit(task);
        Ok(())
    }

    /// Takes a task out of the ready tasks without running it, and returns whether it was ready. If
    /// it was not ready, or if there is no such task, the call returns `false` and changes nothing.
    /// It costs O(1).
    ///
    /// After `wake(7)`, `remove(7)` returns `true` once and then `false`.
    pub fn remove(&mut self, task: u32) -> bool
        ensures was_ready { result
            ≡ is_ready (set_in B.Shape B.Order.Endian self.old.ready) task }
        ensures below { IsTrue result → task < B.type_capacity }
        ensures rests { is_ready (set_in B.Shape B.Order.Endian self.new.ready) task ≡ false }
        ensures count { size (set_in B.Shape B.Order.Endian self.old.ready)
            ≡ size (set_in B.Shape B.Order.Endian self.new.ready) + cond result 1 0 }
        ensures at_least { size (set_in B.Shape B.Order.Endian self.old.ready)
            ≤ size (set_in B.Shape B.Order.Endian self.new.ready) + 1 }
        ensures at_most { size (set_in B.Shape B.Order.Endian self.new.ready)
            ≤ size (set_in B.Shape B.Order.Endian self.old.ready) }
        ensures others { (other : ℕ) → other ≢ task
            → is_ready (set_in B.Shape B.Order.Endian self.new.ready) other
            ≡ is_ready (set_in B.Shape B.Order.Endian self.old.ready) other }
        ensures ready { set_in B.Shape B.Order.Endian self.new.ready
            ≡ state_after (set_in B.Shape B.Order.Endian self.old.ready) (Event.Remove task) }
    {
        if !self.is_ready(task) {
            return false;
        }
        self.ready.clear_bit(task);
        true
    }

    /// Returns the most urgent ready task, which [`next`](PriorityQueue::next) would take. If no
    /// task is ready, it returns `None`; with capacity 0 this is always so. The call reads the
    /// words up to the one with the bit of the task.
    pub fn peek(&self) -> Option<u32>
        ensures task { result ≡ most_urgent (set_in B.Shape B.Order.Endian self.now.ready) }
        ensures urgent { let tasks = set_in B.Shape B.Order.Endian self.now.ready in
            MatchOption result (NoneIn tasks 0 B.type_capacity) (IsMostUrgent tasks) }
        ensures below { IfSome result (λ task. task < B.type_capacity) }
        ensures some { let before = set_in B.Shape B.Order.Endian self.now.ready in
            MatchOption result (size before ≡ 0) (λ _. 0 < size before) }
        ensures succeeds { 0 < size (set_in B.Shape B.Order.Endian self.now.ready)
            → IsSome result }
    {
        self.ready.first_one_in::<B::Order>(0, B::bits())
    }

    /// Takes the most urgent ready task out of the queue, and returns it to be run. If no task is
    /// ready, the call changes nothing and returns `None`; with capacity 0 this is always so. The
    /// call reads the words up to the one with the bit of the task.
    ///
    /// After `wake(7)` and `wake(3)`, `next()` returns `Some(3)`, then `Some(7)`, then `None`.
    pub fn next(&mut self) -> Option<u32>
        ensures task { result ≡ most_urgent (set_in B.Shape B.Order.Endian self.old.ready) }
        ensures urgent { let before = set_in B.Shape B.Order.Endian self.old.ready in
            MatchOption result (NoneIn before 0 B.type_capacity) (IsMostUrgent before) }
        ensures below { IfSome result (λ task. task < B.type_capacity) }
        ensures some { let before = set_in B.Shape B.Order.Endian self.old.ready in
            MatchOption result (size before ≡ 0) (λ _. 0 < size before) }
        ensures succeeds { 0 < size (set_in B.Shape B.Order.Endian self.old.ready)
            → IsSome result }
        ensures was_ready { IfSome result
            (λ task. is_ready (set_in B.Shape B.Order.Endian self.old.ready) task ≡ true) }
        ensures rests { IfSome result
            (λ task. is_ready (set_in B.Shape B.Order.Endian self.new.ready) task ≡ false) }
        ensures count { size (set_in B.Shape B.Order.Endian self.old.ready)
            ≡ size (set_in B.Shape B.Order.Endian self.new.ready) + cond (is_some result) 1 0 }
        ensures others { (other : ℕ) → result ≢ Some other
            → is_ready (set_in B.Shape B.Order.Endian self.new.ready) other
            ≡ is_ready (set_in B.Shape B.Order.Endian self.old.ready) other }
        ensures ready { set_in B.Shape B.Order.Endian self.new.ready
            ≡ state_after (set_in B.Shape B.Order.Endian self.old.ready) Event.Next }
    {
        let task = self.peek()?;
        self.ready.clear_bit(task);
        Some(task)
    }

    // Answers one event.
    fn answer(&mut self, event: Event) -> Answer
        ensures answer { result ≡ answer_to (set_in B.Shape B.Order.Endian self.old.ready) event }
        ensures ready { set_in B.Shape B.Order.Endian self.new.ready
            ≡ state_after (set_in B.Shape B.Order.Endian self.old.ready) event }
    {
        match event {
            Event::Wake(task) => match self.wake(task) {
                Ok(()) => Answer::Woken,
                Err(NoTask) => Answer::NoTask,
            },
            Event::Remove(task) => {
                if self.remove(task) {
                    Answer::Removed
                } else {
                    Answer::NotReady
                }
            }
            Event::Next => match self.next() {
                Some(task) => Answer::Runs(task),
                None => Answer::Idle,
            },
        }
    }

    /// Serves the events in their order, and writes an answer to each. `answers` has to be as long
    /// as `events`. Each task that runs is below the number of tasks.
    pub fn serve(&mut self, events: &[Event], answers: &mut [Answer])
        requires { length answers.old ≡ length events.now }
        ensures answers { answers.new
            ≡ event_answers (set_in B.Shape B.Order.Endian self.old.ready) events.now }
        ensures below { (i task : ℕ) (d : Answer) → i < length answers.new
            → slice_index_or answers.new i d ≡ Answer.Runs task → task < B.type_capacity }
        ensures ready { set_in B.Shape B.Order.Endian self.new.ready
            ≡ final_state (set_in B.Shape B.Order.Endian self.old.ready) events.now }
    {
        for i in 0..events.len() {
            answers[i] = self.answer(events[i]);
        }
    }
}
