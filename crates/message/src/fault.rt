//! Why a request is refused.

ghost use Rattle.std.specs.Prelude.{◌≡◌, Some};
ghost use Rattle.message.specs.Fault.{fault_code, fault_message, fault_name, fault_status, is_of_sender};
ghost use Rattle.message.specs.declared.fault.Fault.TheVariants.{OutOfMemory};

use std::alloc::{AllocError, AllocFailed};
use std::fmt;
use thiserror::Error;

/// A refusal, and its number. `Display` writes its [`text`](Fault::text).
///
/// The names are those of the Amazon SQS API Reference where it has one. Which refusal has which
/// number, status and text is this project's own choice.
#[derive(Clone, Copy, Debug, PartialEq, Eq, Error)]
pub enum Fault {
    /// No queue has the name, or the queue was deleted.
    QueueDoesNotExist = 1,
    /// A queue of the name exists, and a requested attribute differs from what it has.
    QueueNameExists = 2,
    /// An attribute of queues or messages that this server does not know.
    InvalidAttributeName = 3,
    /// A queue attribute's value that is out of range or of another form.
    InvalidAttributeValue = 4,
    /// A parameter that is missing, out of range or of another form.
    InvalidParameterValue = 5,
    /// A body, or the value of an attribute, with a character that messages may not have.
    InvalidMessageContents = 6,
    /// A text that is no receipt handle, or a handle that this queue never gave.
    ReceiptHandleIsInvalid = 7,
    /// A change of visibility of a message that is not in flight under this handle.
    MessageNotInflight = 8,
    /// The limit on messages in flight, or on queues, is reached.
    OverLimit = 9,
    /// A batch without entries.
    EmptyBatchRequest = 10,
    /// A batch of more than ten entries.
    TooManyEntriesInBatchRequest = 11,
    /// Two entries of a batch have one id.
    BatchEntryIdsNotDistinct = 12,
    /// An entry's id is missing or of another form.
    InvalidBatchEntryId = 13,
    /// The sizes of a batch add up to more than a batch may have.
    BatchRequestTooLong = 14,
    /// An action that this server does not serve.
    UnsupportedOperation = 15,
    /// A request that is no JSON object in UTF-8, or has a member of another kind, or an input line
    /// that cannot be read.
    SerializationException = 16,
    /// The queue's journal has no room for another entry.
    JournalFull = 17,
    /// An allocation was refused, or one more share of a content.
    OutOfMemory = 18,
    /// The numbers that calls draw to take turns at a queue are used up.
    Spent = 19,
    /// The thread that serves the queue has ended.
    ActorGone = 20,
}

impl Fault {
    /// The refusal's number, 1 to 20.
    pub fn code(self) -> u8
        ensures { result ≡ fault_code self }
    {
        self as u8
    }

    /// The status that a client reads: 400 for a fault of the client's, 500 for one of the server's.
    pub fn status(self) -> u16
        ensures { result ≡ fault_status self }
    {
        if self.code() <= 16 { 400 } else { 500 }
    }

    /// Whether it is a fault of the client's.
    pub fn is_of_sender(self) -> bool
        ensures { result ≡ is_of_sender self }
    {
        self.status() == 400
    }

    /// The refusal's name, as a client reads it, and what it says in words.
    fn row(self) -> (&'static str, &'static str)
        ensures name { result.0.now ≡ fault_name self }
        ensures text { result.1.now ≡ fault_message self }
    {
        match self {
            Fault::QueueDoesNotExist => (
                "QueueDoesNotExist",
                "The specified queue does not exist.",
            ),
            Fault::QueueNameExists => (
                "QueueNameExists",
                "A queue of this name exists with other attributes.",
            ),
            Fault::InvalidAttributeName => ("InvalidAttributeName", "Unknown attribute name."),
            Fault::InvalidAttributeValue => (
                "InvalidAttributeValue",
                "Attribute value not allowed.",
            ),
            Fault::InvalidParameterValue => (
                "InvalidParameterValue",
                "Parameter value not allowed.",
            ),
            Fault::InvalidMessageContents => (
                "InvalidMessageContents",
                "Characters not allowed in the message.",
            ),
            Fault::ReceiptHandleIsInvalid => (
                "ReceiptHandleIsInvalid",
                "The receipt handle is not valid.",
            ),
            Fault::MessageNotInflight => ("MessageNotInflight", "The message is not in flight."),
            Fault::OverLimit => ("OverLimit", "A limit is reached."),
            Fault::EmptyBatchRequest => ("EmptyBatchRequest", "The batch has no entries."),
            Fault::TooManyEntriesInBatchRequest => (
                "TooManyEntriesInBatchRequest",
                "The batch has more than 10 entries.",
            ),
            Fault::BatchEntryIdsNotDistinct => (
                "BatchEntryIdsNotDistinct",
                "Two entries have the same id.",
            ),
            Fault::InvalidBatchEntryId => ("InvalidBatchEntryId", "An entry id is not allowed."),
            Fault::BatchRequestTooLong => ("BatchRequestTooLong", "The batch is too long."),
            Fault::UnsupportedOperation => ("UnsupportedOperation", "The action is not supported."),
            Fault::SerializationException => (
                "SerializationException",
                "The request cannot be read.",
            ),
            Fault::JournalFull => ("JournalFull", "The journal of the queue is full."),
            Fault::OutOfMemory => ("OutOfMemory", "Out of memory."),
            Fault::Spent => ("Spent", "The desk is spent."),
            Fault::ActorGone => ("ActorGone", "The queue has stopped."),
        }
    }

    /// The refusal's name, as a client reads it.
    pub fn name(self) -> &'static str
        ensures { result.now ≡ fault_name self }
    {
        self.row().0
    }

    /// What the refusal says in words.
    pub fn text(self) -> &'static str
        ensures { result.now ≡ fault_message self }
    {
        self.row().1
    }
}

impl fmt::Display for Fault {
    ghost output = { λ fault. Some (fault_message fault) };

    fn fmt<W: fmt::Write>(&self, f: &mut fmt::Formatter<W>) -> fmt::Result {
        f.write_str(self.text())
    }
}

impl From<AllocError> for Fault {
    ghost from_gives = { λ _ fault. fault ≡ OutOfMemory };

    fn from(_refused: AllocError) -> Fault {
        Fault::OutOfMemory
    }
}

impl<T: Drop> From<AllocFailed<T>> for Fault {
    ghost from_gives = { λ _ fault. fault ≡ OutOfMemory };

    fn from(_refused: AllocFailed<T>) -> Fault {
        Fault::OutOfMemory
    }
}
