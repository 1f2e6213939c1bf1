//! What a pass knows of the history. These types are for the proofs alone: no value of them is made.

use journal::Moment;
use message::Fault;
use queue_core::{Command, QueueState, Reply};
use std::collections::LinkedList;

/// A call that was made at a desk: by which pass, by its number, and what it was answered.
pub struct Call {
    pub by: u64,
    pub at: Moment,
    pub command: Command,
    pub reply: Result<Reply, Fault>,
}

/// Where a pass is.
pub enum PassStage {
    /// It was cut off from another and has no number yet.
    Fresh,
    /// It waits for nothing.
    Idle,
    /// It has drawn a ticket, and waits for its turn.
    Drawn(u64),
    /// It has the turn of its ticket, and the queue.
    Turn(u64),
    /// It was joined with another, which goes on for both.
    Ended,
}

/// What a pass knows.
pub struct View {
    /// The queue that the desk was made with.
    pub start: QueueState,
    /// The place of the desk's press.
    pub place: LinkedList<u64>,
    pub number: u64,
    /// Another number than its own: that of the pass that it was cut off from, or of the last that it
    /// ended. For the first pass it is 1, until it ends another.
    pub other: u64,
    /// How many tickets it knows to be drawn at the desk.
    pub begun: u64,
    /// The history, as far as it was seen.
    pub seen: LinkedList<Call>,
    /// A history that another pass had seen.
    pub heard: LinkedList<Call>,
    /// The calls that were made with this pass.
    pub mine: LinkedList<Call>,
    pub stage: PassStage,
}
