//! Where a message stands in the indices.

ghost use Rattle.std.specs.Prelude.{◌≡◌};
ghost use Rattle.queue_core.specs.private.Records.{tried};

/// Where a message stands that a queue has, or that waits for a dead-letter queue.
#[derive(Clone, Copy, Debug, PartialEq, Eq)]
pub(crate) enum Stay {
    /// It is there, and its due time was not reached when that was last looked at.
    Hidden,
    /// It is there, and may be received.
    Shown,
    /// It has left for the dead-letter queue of a uid, which has not confirmed the transfer. Its retention
    /// may have ended in a period of settings that is over.
    Left { target: u64, ran_out: bool },
}

/// What the indices have to know of a message.
#[derive(Clone, Copy, Debug, PartialEq, Eq)]
pub(crate) struct Slot {
    pub stay: Stay,
    /// When it is to be offered next, in milliseconds. It may pass the greatest moment.
    pub due: u64,
    /// When it was first sent, in milliseconds.
    pub sent: u64,
    /// Whether it was never received here, nor brought back.
    pub is_fresh: bool,
    /// Whether it left for a dead-letter queue and came back, since that queue was gone.
    pub is_returned: bool,
    /// How often it was received here, counted up to three.
    pub tries: u8,
}

/// How often a message was received that keeps failing, at the least: its age is not looked at any more (Amazon SQS, of
/// ApproximateAgeOfOldestMessage).
pub(crate) const FAILING_RECEIVES: u8 = 3;

/// How often a message was received, once it is received again: counted up to as often as one that keeps failing.
pub(crate) fn tried(tries: u8) -> u8
    ensures { result ≡ tried tries }
{
    if tries < FAILING_RECEIVES {
        tries + 1
    } else {
        tries
    }
}
