//! Queues of ready tasks, kept in any owned set. A queue tells which task runs next.
//!
//! A task is a number below the capacity of the set. In a [`PriorityQueue`] a lesser number is more
//! urgent, and the most urgent ready task runs. In a [`RoundRobin`] the ready tasks take turns, and
//! each ready task runs within as many steps as there are tasks, whatever is woken meanwhile,
//! unless it is removed.
//!
//! ```rust
//! use bit_queue::{PriorityQueue, RoundRobin};
//!
//! let mut queue = PriorityQueue::<u64>::new();
//! queue.wake(40);                   // Ok(())
//! queue.wake(7);
//! queue.wake(64);                   // Err(NoTask): there are 64 tasks, from 0 to 63
//! queue.len();                      // 2
//! queue.peek();                     // Some(7)
//! queue.next();                     // Some(7)
//! queue.remove(7);                  // false: task 7 is not ready
//! queue.next();                     // Some(40)
//! queue.next();                     // None
//!
//! let mut turns = RoundRobin::<u64>::with_ready(1 << 3 | 1 << 9);
//! turns.next();                     // Some(3)
//! turns.wake(3);
//! turns.next();                     // Some(9)
//! turns.remove(3);                  // true
//! turns.next();                     // None
//! ```
#![tactic(auto)]

mod priority_queue;
#[doc(hidden)]
pub mod queue_laws;
mod round_robin;
#[doc(hidden)]
pub mod round_robin_laws;

pub use priority_queue::PriorityQueue;
pub use round_robin::RoundRobin;
use std::error::Error;
use std::fmt;

/// An event that a queue serves.
#[derive(Clone, Copy, Debug, PartialEq, Eq)]
pub enum Event {
    /// A task becomes ready: answered by [`Answer::Woken`] or [`Answer::NoTask`].
    Wake(u32),
    /// A task is taken out of the ready tasks without running: answered by [`Answer::Removed`] or
    /// [`Answer::NotReady`].
    Remove(u32),
    /// A step, in which the next task runs: answered by [`Answer::Runs`] or [`Answer::Idle`].
    Next,
}

/// The answer to an event.
#[derive(Clone, Copy, Debug, PartialEq, Eq)]
pub enum Answer {
    /// The task is ready.
    Woken,
    /// The number that was to be woken is no task.
    NoTask,
    /// The task was ready, and no longer is.
    Removed,
    /// The number that was to be removed is no ready task.
    NotReady,
    /// The task runs, and is no longer ready.
    Runs(u32),
    /// No task is ready.
    Idle,
}

/// The error for a number that is no task, because it is at or past the capacity.
#[derive(Clone, Copy, Debug, PartialEq, Eq)]
pub struct NoTask;

impl fmt::Display for NoTask {
    ghost use Rattle.std.specs.Prelude.{Some, codes};

    ghost output = { λ _. Some (codes "there is no such task") };

    fn fmt<W: fmt::Write>(&self, f: &mut fmt::Formatter<W>) -> fmt::Result {
        f.write_str("there is no such task")
    }
}

impl Error for NoTask {}
