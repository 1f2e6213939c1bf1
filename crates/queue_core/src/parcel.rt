//! What one queue hands over to another: its dead letters.

use journal::Origin;
use message::Content;

/// A dead letter on its way to the dead-letter queue of a uid.
#[derive(Debug, Drop)]
pub struct Parcel {
    /// Where it comes from, with what it keeps: its id, and when it was first sent.
    pub origin: Origin,
    /// The uid of the queue that it is for.
    pub target: u64,
    pub content: Content,
}

/// What becomes of a parcel that arrives.
#[derive(Clone, Copy, Debug, PartialEq, Eq)]
pub enum Arrival {
    /// The queue has accepted it now.
    New,
    /// The queue had accepted it before, and nothing was added.
    Again,
}
