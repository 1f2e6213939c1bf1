//! What a queue answers.

use crate::offers::Offers;
use crate::parcel::{Arrival, Parcel};
use journal::Moment;
use message::MessageId;
use metric_window::Gauges;
use queue_config::Settings;

/// A message that was sent: its number in the queue, and its id.
#[derive(Clone, Copy, Debug, PartialEq, Eq)]
pub struct Posted {
    pub number: u64,
    pub id: MessageId,
}

/// A queue at a moment.
#[derive(Clone, Copy, Debug, PartialEq, Eq)]
pub struct Look {
    pub gauges: Gauges,
    pub settings: Settings,
    /// When the queue was opened.
    pub created: Moment,
    /// When the queue last got settings.
    pub modified: Moment,
    /// How much its journal weighs: 1 for each entry, and for a checkpoint 1 more for each message that it keeps.
    pub lines: u64,
    /// The moment that all this speaks of.
    pub clock: Moment,
    /// Whether the queue was closed.
    pub closed: bool,
}

/// The answer to a command.
#[derive(Debug, Drop)]
pub enum Reply {
    /// To a send.
    Sent(Posted),
    /// To a receive.
    Received(Offers),
    /// To a look.
    Looked(Look),
    /// To a parcel that arrives.
    Arrived(Arrival),
    /// To a confirmation: whether the message waited for it.
    Settled(bool),
    /// To the loss of a dead-letter queue: how many messages came back.
    Orphaned(u64),
    /// To the question for the first parcel.
    Parcel(Option<Parcel>),
    /// To the other commands.
    Done,
}
