//! What a journal says of a message.

use journal::{Moment, Origin};

/// A message of a queue, as the entry that begins it has it.
#[derive(Clone, Copy, Debug, PartialEq, Eq)]
pub struct Message {
    /// Its number in the queue, counted from 0.
    pub number: u64,
    /// The place of its entry in the journal.
    pub place: usize,
    /// When it came to this queue.
    pub enqueue_time: Moment,
    /// When it was first sent, to this queue or the one that it came from.
    pub first_send_time: Moment,
    /// Where it came from, where it is a dead letter of another queue.
    pub origin: Option<Origin>,
    /// Where it stood when its entry was made. A checkpoint begins messages that were there before.
    pub begun: Course,
    /// Whether its retention had ended then.
    pub ran_out: bool,
}

/// Where a message stands.
#[derive(Clone, Copy, Debug, PartialEq, Eq)]
pub enum Status {
    /// It is there, or has expired.
    Present,
    /// It was deleted, or was there when the queue was purged or closed, or a checkpoint did not keep it.
    Removed,
    /// It has left for the dead-letter queue of a uid, which has not confirmed the transfer.
    Waiting { target: u64 },
    /// It has left, and the transfer is confirmed.
    Transferred,
}

/// Where a message stands, and what has become of it.
#[derive(Clone, Copy, Debug, PartialEq, Eq)]
pub struct Course {
    pub status: Status,
    /// When it is to be offered next, in milliseconds. It may pass the greatest moment.
    pub due: u64,
    /// Whether it left and came back, since the queue that it left for was gone.
    pub returned: bool,
}

/// A message that has left, by its number, and the uid of the dead-letter queue that it left for.
#[derive(Clone, Copy, Debug, PartialEq, Eq)]
pub struct Transfer {
    pub number: u64,
    pub target: u64,
}

/// The state of a live message, in the words of Amazon SQS.
#[derive(Clone, Copy, Debug, PartialEq, Eq)]
pub enum MessageState {
    /// It may be received.
    Visible,
    /// It was sent with a delay that is not over.
    Delayed,
    /// It was received, and its visibility timeout is not over.
    InFlight,
}

/// A message with the time at which it is due, in milliseconds.
#[derive(Clone, Copy, Debug, PartialEq, Eq)]
pub struct Candidate {
    pub due: u64,
    pub message: Message,
}
