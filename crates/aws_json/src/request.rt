//! What a client asks for (Amazon SQS API Reference).

use crate::attribute_names::{QueueAttribute, SystemAttribute};
use crate::batch::Entries;
use crate::listed::Listed;
use crate::selection::Patterns;
use crate::text::Prefix;
use message::{Content, QueueName};
use queue_config::Wish;
use queue_core::{Delay, Maximum, Timeout};
use receipt_handle::Handle;

/// Which attributes of a queue are asked for, each once.
#[derive(Debug, Drop)]
pub struct AttributeNames {
    pub asked: Listed<QueueAttribute>,
}

/// Which attributes of messages a receive asks for, each once, of those that a queue gives them.
#[derive(Debug, Drop)]
pub struct ReceiveNames {
    pub asked: Listed<SystemAttribute>,
}

/// What a client asks for.
#[derive(Debug, Drop)]
pub enum Request {
    /// Creates a queue.
    CreateQueue {
        name: QueueName,
        wish: Wish,
    },
    /// Sends a message to a queue, after a delay in seconds or the queue's own.
    SendMessage {
        queue: QueueName,
        content: Content,
        delay: Option<Delay>,
    },
    /// Asks for attributes of a queue; `None` where no name was asked.
    GetQueueAttributes {
        queue: QueueName,
        names: Option<AttributeNames>,
    },
    /// Gives a queue the requested settings.
    SetQueueAttributes {
        queue: QueueName,
        wish: Wish,
    },
    /// Removes all messages of a queue.
    PurgeQueue {
        queue: QueueName,
    },
    /// Deletes a queue.
    DeleteQueue {
        queue: QueueName,
    },
    /// Asks for the URL of a queue.
    GetQueueUrl {
        name: QueueName,
    },
    /// Asks for the URLs of the queues whose names begin with a prefix.
    ListQueues {
        prefix: Prefix,
    },
    /// Asks for the URLs of the queues that have a queue for their dead letters.
    ListDeadLetterSourceQueues {
        queue: QueueName,
    },
    /// Receives messages, for a timeout in seconds or the queue's own, and waits for them so many
    /// seconds or as the queue has it. The names are of attributes that the queue gives a message,
    /// the patterns of those that its sender gave it.
    ReceiveMessage {
        queue: QueueName,
        maximum: Maximum,
        timeout: Option<Timeout>,
        wait: Option<u64>,
        names: ReceiveNames,
        attributes: Patterns,
    },
    /// Deletes a message.
    DeleteMessage {
        queue: QueueName,
        handle: Handle,
    },
    /// Gives a message in flight another timeout in seconds.
    ChangeMessageVisibility {
        queue: QueueName,
        handle: Handle,
        timeout: Timeout,
    },
    /// Sends, deletes or changes messages one after another, each by itself.
    Batch {
        queue: QueueName,
        entries: Entries,
    },
}
