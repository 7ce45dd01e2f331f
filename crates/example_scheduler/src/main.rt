//! Runs tasks by priority, from a queue of those that are ready.
//!
//! A task is named by its priority, from 0 (the most urgent) to 63. What is proved is what
//! `bit_queue` promises. The task that runs is the most urgent ready task, and it was woken since
//! it last ran. A ready task runs within n + 1 steps, where n is the number of ready tasks that are
//! more urgent than it, plus the number of wakes of tasks that are more urgent than it.
#![tactic(auto)]

use bit_queue::{NoTask, PriorityQueue};
use std::io;

fn main(rt: HostRuntime) -> io::Result<()> {
    let mut queue = PriorityQueue::<u64>::new();
    // How many steps each task still has to do.
    let mut steps = [0u32; 64];
    for (task, work) in [(40u32, 1u32), (7, 3), (12, 2), (64, 5)] {
        match queue.wake(task) {
            Ok(()) => steps[task as usize] = work,
            Err(NoTask) => println!(rt; "task {task}: {NoTask}")?,
        }
    }
    for step in 0..8 {
        match queue.next() {
            None => println!(rt; "step {step}: idle")?,
            Some(task) => {
                let left = steps[task as usize].saturating_sub(1);
                steps[task as usize] = left;
                println!(rt; "step {step}: task {task}, {left} to do")?;
                if left > 0 {
                    let _ready = queue.wake(task);
                }
                // After its second step, task 7 wakes task 2, which is more urgent.
                if task == 7 && left == 1 {
                    steps[2] = 1;
                    let _ready = queue.wake(2);
                }
            }
        }
    }
    Ok(())
}
