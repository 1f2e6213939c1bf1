//! Where a queue of the registry stands.

/// A queue that was found: its uid, and its place among the queues in the order in which they were
/// created. By it the registry comes to the queue again without looking for it. It is good as long as
/// no queue is deleted.
#[derive(Clone, Copy, Debug, PartialEq, Eq)]
pub struct QueuePlace {
    pub uid: u64,
    pub place: usize,
}
