//! Requests that were read and refused behind that: what can be said of them from the request and the
//! refusal alone.

use crate::actions::Action;
use crate::batch::{BatchEntry, Entries, EntryKind};
use crate::explanation::batches::look_at_entry;
use crate::explanation::kinds::object_of;
use crate::explanation::words::{Looked, found, grouped};
use crate::members::items_in;
use crate::request::Request;
use message::{Content, Fault, QueueName};
use queue_config::{QUEUE_LIMIT, Wish};
use queue_core::{LONGEST_TIMEOUT, Timeout};
use std::alloc::{AllocError, Global};

/// Looks for what a request that was read was refused for.
pub(super) fn refused_later(
    alloc: Global,
    action: Action,
    request: &Request,
    body: &[u8],
    fault: Fault,
) -> Looked {
    if let Action::Batch(kind) = action {
        faulty_entry(alloc, kind, request, body, fault)?;
    }
    match fault {
        Fault::QueueDoesNotExist => of_queue(alloc, request, "and no open queue has this name"),
        Fault::JournalFull => of_queue(
            alloc,
            request,
            "and its journal is full (max_lines): nothing can be sent, received, deleted or purged until messages expire; raise max_lines, or delete the queue",
        ),
        Fault::Spent => of_queue(
            alloc,
            request,
            "and it has answered as many calls as a queue can",
        ),
        Fault::ActorGone => of_queue(
            alloc,
            request,
            "and it was deleted while the request was on its way",
        ),
        Fault::QueueNameExists | Fault::OverLimit => of_limit(alloc, request, fault),
        Fault::InvalidAttributeValue => target(alloc, request),
        Fault::InvalidParameterValue => too_much(alloc, action, request),
        Fault::ReceiptHandleIsInvalid | Fault::MessageNotInflight => {
            of_handle(alloc, request, fault)
        }
        _ => Ok(()),
    }
}

/// By which member a request names a queue, and which it is.
fn named(request: &Request) -> Option<(&'static str, QueueName)> {
    match request {
        Request::CreateQueue { name, .. } | Request::GetQueueUrl { name } => {
            Some(("QueueName is", *name))
        }
        Request::SendMessage { queue, .. }
        | Request::GetQueueAttributes { queue, .. }
        | Request::SetQueueAttributes { queue, .. }
        | Request::PurgeQueue { queue }
        | Request::DeleteQueue { queue }
        | Request::ListDeadLetterSourceQueues { queue }
        | Request::ReceiveMessage { queue, .. }
        | Request::DeleteMessage { queue, .. }
        | Request::ChangeMessageVisibility { queue, .. }
        | Request::Batch { queue, .. } => Some(("QueueUrl names the queue", *queue)),
        Request::ListQueues { .. } => None,
    }
}

/// Says something of the queue that a request names.
fn of_queue(alloc: Global, request: &Request, what: &str) -> Looked {
    match named(request) {
        Some((member, queue)) => {
            let queue = queue.as_text();
            found(format!(in alloc; "{member} {queue}, {what}"))
        }
        None => Ok(()),
    }
}

/// Says which limit a queue or the server has reached, or that a queue exists with other settings.
fn of_limit(alloc: Global, request: &Request, fault: Fault) -> Looked {
    match (request, fault) {
        (Request::CreateQueue { .. }, Fault::QueueNameExists) => of_queue(
            alloc,
            request,
            "and a queue of this name exists with other settings than Attributes has",
        ),
        (Request::CreateQueue { .. }, Fault::OverLimit) => {
            let limit = grouped(alloc, QUEUE_LIMIT as u64)?;
            let what = format!(in alloc;
                "and {limit} queues are open, or all numbers of queues are used"
            )?;
            of_queue(alloc, request, what.as_str())
        }
        (Request::ReceiveMessage { .. }, Fault::OverLimit) => of_queue(
            alloc,
            request,
            "and it has as many messages in flight as it may have (in_flight)",
        ),
        _ => Ok(()),
    }
}

/// Says what is wrong with the dead-letter queue that is asked for.
fn target(alloc: Global, request: &Request) -> Looked {
    match request {
        Request::CreateQueue { name, wish } => target_of(alloc, name, wish),
        Request::SetQueueAttributes { queue, wish } => target_of(alloc, queue, wish),
        _ => Ok(()),
    }
}

/// The same of the queue of a name.
fn target_of(alloc: Global, own: &QueueName, wish: &Wish) -> Looked {
    let Some(Some(target)) = wish.target() else {
        return Ok(());
    };
    let what = if target == *own {
        "which is the queue itself"
    } else {
        "and no open queue has this name"
    };
    let name = target.as_text();
    found(format!(in alloc;
        "Attributes.RedrivePolicy.deadLetterTargetArn names the queue {name}, {what}"
    ))
}

/// Says that a message is too large, or that a timeout would end too late.
fn too_much(alloc: Global, action: Action, request: &Request) -> Looked {
    match (action, request) {
        (_, Request::SendMessage { content, .. }) => too_large(alloc, content),
        (_, Request::ChangeMessageVisibility { timeout, .. }) => too_late(alloc, timeout),
        (Action::Batch(EntryKind::Send), _) => found(String::from_str(
            alloc,
            "MessageBody and MessageAttributes of an entry of Entries have more bytes together than MaximumMessageSize",
        )),
        (Action::Batch(EntryKind::Change), Request::Batch { entries, .. }) => {
            let place = member_of_entry(alloc, entries, "VisibilityTimeout")?;
            found(format!(in alloc;
                "{place} would end more than twelve hours after the message was last received"
            ))
        }
        _ => Ok(()),
    }
}

/// Says how large a message is that a queue does not take.
fn too_large(alloc: Global, content: &Content) -> Looked {
    let size = grouped(alloc, content.size())?;
    if content.attributes().is_empty() {
        return found(format!(in alloc;
            "MessageBody has {size} bytes, more than MaximumMessageSize"
        ));
    }
    found(format!(in alloc;
        "MessageBody and MessageAttributes have {size} bytes together, more than MaximumMessageSize"
    ))
}

/// Says that a timeout would end too late.
fn too_late(alloc: Global, timeout: &Timeout) -> Looked {
    let seconds = grouped(alloc, u64::from(timeout.seconds()))?;
    let most = grouped(alloc, u64::from(LONGEST_TIMEOUT))?;
    found(format!(in alloc;
        "VisibilityTimeout is {seconds}, which would end more than {most} seconds after the message was last received"
    ))
}

/// The place of the only entry that was not refused in reading; `None` where there are more.
fn only_read(entries: &Entries) -> Option<usize> {
    let mut only = None;
    for (place, entry) in entries.as_slice().iter().enumerate() {
        if entry.command.is_ok() {
            if only.is_some() {
                return None;
            }
            only = Some(place);
        }
    }
    only
}

/// A member of the entry that a queue refused, with its place where no other entry can be meant.
fn member_of_entry(alloc: Global, entries: &Entries, name: &str) -> Result<String, AllocError> {
    match only_read(entries) {
        Some(place) => format!(in alloc; "Entries[{place}].{name}"),
        None => format!(in alloc; "{name} of an entry of Entries"),
    }
}

/// Says what a queue has against a handle.
fn of_handle(alloc: Global, request: &Request, fault: Fault) -> Looked {
    let name = "ReceiptHandle";
    let (queue, place) = match request {
        Request::DeleteMessage { queue, .. } | Request::ChangeMessageVisibility { queue, .. } => {
            (queue, String::from_str(alloc, name)?)
        }
        Request::Batch { queue, entries } => (queue, member_of_entry(alloc, entries, name)?),
        _ => return Ok(()),
    };
    if fault == Fault::MessageNotInflight {
        return found(format!(in alloc;
            "{place} is of a message that is not in flight, or not the latest of its message"
        ));
    }
    let queue = queue.as_text();
    found(format!(in alloc; "{place} is none that the queue {queue} gave"))
}

/// Whether an entry was refused in reading, by this fault.
fn has_fault(entry: &BatchEntry, fault: Fault) -> bool {
    match &entry.command {
        Ok(_) => false,
        Err(own) => *own == fault,
    }
}

/// Looks for the first entry of a batch that was refused in reading by this fault.
fn faulty_entry(
    alloc: Global,
    kind: EntryKind,
    request: &Request,
    body: &[u8],
    fault: Fault,
) -> Looked {
    let Request::Batch { entries, .. } = request else {
        return Ok(());
    };
    let body = object_of(alloc, body)?;
    let items = items_in(&body, "Entries").unwrap_or(&[]);
    for (place, (item, read)) in items.iter().zip(entries.as_slice()).enumerate() {
        if has_fault(read, fault) {
            return look_at_entry(alloc, kind, place, item);
        }
    }
    Ok(())
}
