//! What a request asks, as a value that says what comes next.
//!
//! - [`task_of`]: what a request is about, as a [`Task`]: the directory of queues, or one queue and the first [`Step`] of what it
//!   asks there. [`queue_of_task`]: the queue that it names.
//! - [`Step`]: a command that is asked of the queue, or the client's answer. [`after`]: what comes after a command, by what became
//!   of it.
//!
//! A program asks each command its own way (of a queue in memory, by a thread, with a wait), and hands in what became of it. So what
//! an action means is said here once. The definitions stand in `specs/`.
#![tactic(auto)]

mod plan;
mod task;
#[cfg(test)]
mod tests;

pub use plan::{Outcome, Performed, ReceiveParts, Remaining, Step, Then, after};
pub use task::{Task, queue_of_task, task_of};
