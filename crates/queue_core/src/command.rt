//! What a queue is asked.

ghost use Rattle.std.specs.Prelude.{◌≡◌};
ghost use Rattle.queue_core.specs.Ranges.{IsDelay, IsTimeout, IsMaximum, delay_of, timeout_of, maximum_of};

use crate::parcel::Parcel;
use journal::Moment;
use message::Content;
use queue_config::Wish;
use receipt_handle::Handle;
use std::marker::Model;

/// How long a message may be delayed, in seconds (Amazon SQS API Reference, `SendMessage`).
pub const LONGEST_DELAY: u16 = 900;

/// A delay in seconds, 0 to 900.
#[derive(Clone, Copy, Debug, PartialEq, Eq)]
pub struct Delay {
    seconds: u16,
}

impl Model for Delay {
    ghost use Rattle.std.specs.Prelude.{ℕ};
    ghost use Rattle.queue_core.specs.Ranges.{IsDelay};

    ghost Value = { ℕ };

    ghost view = { λ d. d.seconds };

    ghost invariant = { λ d. IsDelay d.seconds };

    ghost inverse = { λ n. record { seconds = n } };
}

impl Delay {
    /// The delay of so many seconds, or `None` above 900.
    pub fn new(seconds: u16) -> Option<Delay>
        ensures { result ≡ delay_of seconds }
    {
        if seconds <= LONGEST_DELAY {
            Some(Delay { seconds })
        } else {
            None
        }
    }

    /// How many seconds it is.
    pub fn seconds(self) -> u16
        ensures value { result ≡ self }
        ensures range { IsDelay result }
    {
        self.seconds
    }
}

/// How long a received message may stay in flight, in seconds: twelve hours (Amazon SQS API
/// Reference, `ChangeMessageVisibility`).
pub const LONGEST_TIMEOUT: u32 = 43_200;

/// A visibility timeout in seconds, 0 to 43,200.
#[derive(Clone, Copy, Debug, PartialEq, Eq)]
pub struct Timeout {
    seconds: u32,
}

impl Model for Timeout {
    ghost use Rattle.std.specs.Prelude.{ℕ};
    ghost use Rattle.queue_core.specs.Ranges.{IsTimeout};

    ghost Value = { ℕ };

    ghost view = { λ t. t.seconds };

    ghost invariant = { λ t. IsTimeout t.seconds };

    ghost inverse = { λ n. record { seconds = n } };
}

impl Timeout {
    /// The timeout of so many seconds, or `None` above 43,200.
    pub fn new(seconds: u32) -> Option<Timeout>
        ensures { result ≡ timeout_of seconds }
    {
        if seconds <= LONGEST_TIMEOUT {
            Some(Timeout { seconds })
        } else {
            None
        }
    }

    /// How many seconds it is.
    pub fn seconds(self) -> u32
        ensures value { result ≡ self }
        ensures range { IsTimeout result }
    {
        self.seconds
    }
}

/// How many messages a receive offers at most (Amazon SQS API Reference, `ReceiveMessage`).
pub const MOST_OFFERS: u8 = 10;

/// How many messages a receive asks for at most, 1 to 10.
#[derive(Clone, Copy, Debug, PartialEq, Eq)]
pub struct Maximum {
    messages: u8,
}

impl Model for Maximum {
    ghost use Rattle.std.specs.Prelude.{ℕ};
    ghost use Rattle.queue_core.specs.Ranges.{IsMaximum};

    ghost Value = { ℕ };

    ghost view = { λ m. m.messages };

    ghost invariant = { λ m. IsMaximum m.messages };

    ghost inverse = { λ n. record { messages = n } };
}

impl Maximum {
    /// At most so many messages, or `None` for 0 and above 10.
    pub fn new(messages: u8) -> Option<Maximum>
        ensures { result ≡ maximum_of messages }
    {
        if 1 <= messages && messages <= MOST_OFFERS {
            Some(Maximum { messages })
        } else {
            None
        }
    }

    /// How many messages.
    pub fn messages(self) -> u8
        ensures value { result ≡ self }
        ensures range { IsMaximum result }
    {
        self.messages
    }
}

/// A command for a queue. [`QueueState::perform`](crate::QueueState::perform) does what the call of
/// the same name does.
#[derive(Debug, Drop)]
pub enum Command {
    /// Sends a message, after a delay in seconds or the queue's own.
    Send {
        content: Content,
        delay: Option<Delay>,
    },
    /// Receives messages, for a timeout in seconds or the queue's own.
    Receive {
        maximum: Maximum,
        timeout: Option<Timeout>,
    },
    /// Gives a message in flight another timeout in seconds from now on.
    Change {
        handle: Handle,
        timeout: Timeout,
    },
    /// Deletes a message.
    Delete {
        handle: Handle,
    },
    /// Removes all messages that are in the queue; those that have left for a dead-letter queue are not
    /// among them.
    Purge,
    /// Gives the queue the requested settings; the target is the uid that a requested dead-letter
    /// queue's name stands for, 0 where none is named.
    Set {
        wish: Wish,
        target: u64,
    },
    /// Accepts a dead letter of another queue, once.
    Arrive {
        parcel: Parcel,
    },
    /// Confirms that the dead-letter queue has accepted the message of a number.
    Settle {
        number: u64,
    },
    /// Takes back the messages that wait for the dead-letter queue of a uid, which is gone.
    Orphan {
        target: u64,
    },
    /// Closes the queue for good.
    Close,
    /// Looks at the queue, and moves its clock.
    Look,
    /// Asks for the dead letter that has waited longest to be handed over. The clock stays.
    FirstParcel,
}

/// A command and the moment that it comes at.
#[derive(Debug, Drop)]
pub struct TimedCommand {
    pub at: Moment,
    pub command: Command,
}
