//! What a request is about: one queue, and the commands for it, or the directory of queues.

ghost use Rattle.std.specs.Prelude.{◌≡◌};
ghost use Rattle.request_plan.specs.Task.{Begins, queue_of_task};

use crate::plan::{ReceiveParts, Step, attributes, batch, done, receive};
use aws_json::{Prefix, Request};
use message::QueueName;
use queue_config::Wish;
use queue_core::Command;
use std::alloc::Global;

/// What a request is about.
#[derive(Drop)]
pub enum Task {
    /// A queue is to be there.
    Create { name: QueueName, wish: Wish },
    /// A queue is closed and taken out.
    Delete { queue: QueueName },
    /// A queue is given settings.
    Set { queue: QueueName, wish: Wish },
    /// The URL of a queue is told.
    Url { name: QueueName },
    /// The URLs of the queues are told whose names begin with a prefix.
    Urls { prefix: Prefix },
    /// The URLs of the queues are told that have a queue for their dead letters.
    Sources { queue: QueueName },
    /// A queue is asked, from this step on.
    Ask { queue: QueueName, step: Step },
}

/// What a request is about.
pub fn task_of(alloc: Global, request: Request) -> Task
    ensures { Begins request result }
{
    match request {
        Request::CreateQueue { name, wish } => Task::Create { name, wish },
        Request::DeleteQueue { queue } => Task::Delete { queue },
        Request::SetQueueAttributes { queue, wish } => Task::Set { queue, wish },
        Request::GetQueueUrl { name } => Task::Url { name },
        Request::ListQueues { prefix } => Task::Urls { prefix },
        Request::ListDeadLetterSourceQueues { queue } => Task::Sources { queue },
        Request::GetQueueAttributes { queue, names } => Task::Ask {
            queue,
            step: attributes(queue, names),
        },
        Request::ReceiveMessage {
            queue,
            maximum,
            timeout,
            wait,
            names,
            attributes,
        } => Task::Ask {
            queue,
            step: receive(maximum, timeout, wait, ReceiveParts { names, attributes }),
        },
        Request::SendMessage {
            queue,
            content,
            delay,
        } => Task::Ask {
            queue,
            step: done(Command::Send { content, delay }),
        },
        Request::DeleteMessage { queue, handle } => Task::Ask {
            queue,
            step: done(Command::Delete { handle }),
        },
        Request::ChangeMessageVisibility {
            queue,
            handle,
            timeout,
        } => Task::Ask {
            queue,
            step: done(Command::Change { handle, timeout }),
        },
        Request::PurgeQueue { queue } => Task::Ask {
            queue,
            step: done(Command::Purge),
        },
        Request::Batch { queue, entries } => Task::Ask {
            queue,
            step: batch(alloc, entries),
        },
    }
}

/// The queue that a task names by its URL, if it names one.
pub fn queue_of_task(task: &Task) -> Option<QueueName>
    ensures { result ≡ queue_of_task task.now }
{
    match task {
        Task::Create { .. } | Task::Url { .. } | Task::Urls { .. } => None,
        Task::Delete { queue }
        | Task::Set { queue, .. }
        | Task::Sources { queue }
        | Task::Ask { queue, .. } => Some(*queue),
    }
}
