//! What becomes of a dead letter.

/// What a transfer of a queue's first parcel did.
#[derive(Clone, Copy, Debug, PartialEq, Eq)]
pub enum Moved {
    /// No parcel waits.
    None,
    /// The dead-letter queue has accepted it now.
    Arrived,
    /// The dead-letter queue had accepted it before.
    Again,
    /// The dead-letter queue is gone, and everything that waited for it came back.
    Orphaned,
}
