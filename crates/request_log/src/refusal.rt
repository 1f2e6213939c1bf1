//! Which refusal a reply is.

ghost use Rattle.std.specs.Prelude.{◌≡◌, IfErr, IfSome};
ghost use Rattle.aws_json.specs.FaultText.{fault_body};
ghost use Rattle.message.specs.declared.fault.Fault.TheVariants.{OutOfMemory};
ghost use Rattle.request_log.specs.Refusals.{has_failed};

use crate::object::object_in;
use crate::reply::Reply;
use aws_json::fault_text;
use message::Fault;
use serde_json::Value;
use std::alloc::Global;

/// The refusals, in the order of their numbers.
const FAULTS: [Fault; 20] = [
    Fault::QueueDoesNotExist,
    Fault::QueueNameExists,
    Fault::InvalidAttributeName,
    Fault::InvalidAttributeValue,
    Fault::InvalidParameterValue,
    Fault::InvalidMessageContents,
    Fault::ReceiptHandleIsInvalid,
    Fault::MessageNotInflight,
    Fault::OverLimit,
    Fault::EmptyBatchRequest,
    Fault::TooManyEntriesInBatchRequest,
    Fault::BatchEntryIdsNotDistinct,
    Fault::InvalidBatchEntryId,
    Fault::BatchRequestTooLong,
    Fault::UnsupportedOperation,
    Fault::SerializationException,
    Fault::JournalFull,
    Fault::OutOfMemory,
    Fault::Spent,
    Fault::ActorGone,
];

/// Why a request was refused.
#[derive(Clone, Copy, Debug, PartialEq, Eq)]
pub(crate) enum Refusal {
    /// By a refusal of the table.
    Fault(Fault),
    /// Before it was looked at, or since a queue was busy: a name and what was wrong.
    Other(&'static str, &'static str),
}

/// The refusal of the table that a body is.
fn fault_in(body: &[u8]) -> Option<Fault>
    ensures { IfSome result (λ fault. body.now ≡ fault_body fault) }
{
    for fault in FAULTS {
        if fault_text(fault).as_bytes() == body {
            return Some(fault);
        }
    }
    None
}

/// The refusal that a reply is.
pub(crate) fn refusal_of(reply: &Reply<'_>) -> Option<Refusal> {
    if let Some(fault) = fault_in(reply.body) {
        return Some(Refusal::Fault(fault));
    }
    match reply.status {
        403 => Some(Refusal::Other(
            "Forbidden",
            "the request has the header Origin, as requests of web pages do",
        )),
        405 => Some(Refusal::Other(
            "MethodNotAllowed",
            "its method is not POST; the page, statistics and metrics are at the other port",
        )),
        413 => Some(Refusal::Other("ContentTooLarge", "its body has more than 8,388,608 bytes")),
        500 => Some(Refusal::Other(
            "ServiceUnavailable",
            "1,000 requests wait for the queue already",
        )),
        503 => Some(Refusal::Other(
            "ServiceUnavailable",
            "with its body, the large ones on their way would have more than 33,554,432 bytes",
        )),
        _ => None,
    }
}

/// Whether a reply tells of an entry of a batch that was refused: then it begins with such entries.
pub(crate) fn has_failed(reply: &Reply<'_>) -> bool
    ensures { result ≡ has_failed reply.now.body.now }
{
    reply.body.starts_with(br#"{"Failed":[{"#)
}

/// The refusal of the table that has a name.
fn fault_named(name: &str) -> Option<Fault> {
    for fault in FAULTS {
        if fault.name() == name {
            return Some(fault);
        }
    }
    None
}

/// The entries of a batch that were refused.
#[derive(Debug, Drop)]
pub(crate) struct Failures {
    /// The refusal of the first one.
    pub first: Fault,
    pub count: usize,
    /// Their ids, in their order, each in quotes.
    pub ids: String,
}

/// The entries that such an object tells of, and the refusal of the first one.
fn first_failed(body: &Value) -> Option<(&[Value], Fault)> {
    let entries = body.get("Failed")?.as_array()?.as_slice();
    let code = entries.first()?.get("Code")?.as_str()?;
    Some((entries, fault_named(code)?))
}

/// The id of one: letters, digits, `-` and `_`.
fn id_of(entry: &Value) -> Option<&str> {
    entry.get("Id")?.as_str()
}

/// The ids of all, each in quotes.
fn ids_of(alloc: Global, entries: &[Value]) -> Result<String, Fault>
    ensures short { IfErr result (λ fault. fault ≡ OutOfMemory) }
{
    let mut ids = String::new(alloc);
    for entry in entries {
        let comma = if ids.is_empty() { "" } else { ", " };
        let id = id_of(entry).unwrap_or("");
        write!(ids, "{comma}\"{id}\"")?;
    }
    Ok(ids)
}

/// The entries that a reply tells of that were refused; `None` where there are none. `OutOfMemory` is the only refusal.
pub(crate) fn failed(alloc: Global, reply: &Reply<'_>) -> Result<Option<Failures>, Fault>
    ensures short { IfErr result (λ fault. fault ≡ OutOfMemory) }
{
    if !has_failed(reply) {
        return Ok(None);
    }
    let Some(body) = object_in(alloc, reply.body)? else {
        return Ok(None);
    };
    let Some((entries, first)) = first_failed(&body) else {
        return Ok(None);
    };
    Ok(Some(Failures {
        first,
        count: entries.len(),
        ids: ids_of(alloc, entries)?,
    }))
}
