//! Batches: up to ten messages sent, deleted or changed by one request (Amazon SQS API Reference,
//! `SendMessageBatch`, `DeleteMessageBatch`, `ChangeMessageVisibilityBatch`).

ghost use Rattle.std.specs.Prelude.{◌≡◌, []};

use crate::listed::Listed;
use message::{Content, Fault, MessageId, QueueName};
use queue_core::{Command, Delay};
use std::alloc::Global;

/// What the entries of a batch do.
#[derive(Clone, Copy, Debug, PartialEq, Eq)]
pub(crate) enum EntryKind {
    Send,
    Delete,
    Change,
}

/// A message to be sent, after a delay in seconds or the queue's own.
#[derive(Debug, Drop)]
pub(crate) struct GivenMessage {
    pub content: Content,
    pub delay: Option<Delay>,
}

/// An entry of a batch.
#[derive(Debug, Drop)]
pub struct BatchEntry {
    /// The entry's own name in its batch, which has the form of a queue's name.
    pub id: QueueName,
    /// What it asks of the queue, or what is wrong with it alone. Those that are read from a
    /// request only send, change and delete.
    pub command: Result<Command, Fault>,
}

/// The entries of a batch, in order. Contracts see the list.
pub type Entries = Listed<BatchEntry>;

/// What a client is told of an entry that was done.
#[derive(Debug, Drop)]
pub enum EntryReply {
    /// The content that was sent, whose digests the client gets, and the message's id.
    Sent { content: Content, id: MessageId },
    /// Nothing but that it was done.
    Done,
}

/// The answer to an entry of a batch.
#[derive(Debug, Drop)]
pub struct BatchAnswer {
    /// The entry's id.
    pub id: QueueName,
    pub answer: Result<EntryReply, Fault>,
}

/// The answers to the entries of a batch, in their order. Contracts see the list.
pub type BatchAnswers = Listed<BatchAnswer>;

impl Listed<BatchAnswer> {
    /// No answers, which take no memory.
    pub fn new(alloc: Global) -> BatchAnswers
        ensures { result ≡ [] }
    {
        Listed::empty(alloc)
    }
}
