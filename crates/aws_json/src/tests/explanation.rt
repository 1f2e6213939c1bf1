//! What is said of refused requests.

use crate::actions::{ACTION_COUNT, Action, action_at, action_named, columns_of, parse};
use crate::explain;
use crate::request::Request;
use bodies::{BODIES, FRAMES, NAMES, VALUES};
use cases::CASES;
use message::Fault;
use std::alloc::{AllocError, Global};
use std::process::Abort;
use std::test::Fail;

mod bodies;
mod cases;

/// Every refusal.
const FAULTS: [Fault; 20] = [
    Fault::QueueDoesNotExist,
    Fault::QueueNameExists,
    Fault::InvalidAttributeName,
    Fault::InvalidAttributeValue,
    Fault::InvalidParameterValue,
    Fault::InvalidMessageContents,
    Fault::ReceiptHandleIsInvalid,
    Fault::MessageNotInflight,
    Fault::OverLimit,
    Fault::EmptyBatchRequest,
    Fault::TooManyEntriesInBatchRequest,
    Fault::BatchEntryIdsNotDistinct,
    Fault::InvalidBatchEntryId,
    Fault::BatchRequestTooLong,
    Fault::UnsupportedOperation,
    Fault::SerializationException,
    Fault::JournalFull,
    Fault::OutOfMemory,
    Fault::Spent,
    Fault::ActorGone,
];

/// The refusal of a name.
fn fault_named(name: &str) -> Option<Fault> {
    FAULTS.iter().copied().find(|fault| fault.name() == name)
}

/// What is said of a request. Where memory is refused, it is asked again.
fn said(alloc: Global, action: &str, body: &[u8], fault: Fault) -> Result<String, AllocError> {
    match explain(alloc, action, body, fault) {
        Ok(words) => Ok(words),
        Err(_) => explain(alloc, action, body, fault),
    }
}

/// The refusal of a request in reading.
fn fault_of(alloc: Global, action: &str, body: &[u8]) -> Option<Fault> {
    match parse(alloc, action, body) {
        Err(Fault::OutOfMemory) => parse(alloc, action, body).err(),
        answer => answer.err(),
    }
}

/// Each line of [`CASES`] is told as it says, and what is refused in reading is refused as it says. The
/// gate runs this with ample memory; `rt try --test --fail-alloc N -- refused_memory` refuses the Nth
/// allocation.
#[test]
fn refused_memory(rt: HostRuntime) -> Result<(), Fail> {
    let alloc = rt.alloc();
    for line in CASES.lines() {
        let (request, wanted) = line.split_once(" => ").ok_or("what is said")?;
        let (fault, request) = request.split_once(' ').ok_or("an action")?;
        let (action, body) = request.split_once(' ').ok_or("a body")?;
        let action = if action == "-" { "" } else { action };
        let fault = fault_named(fault).ok_or("a refusal")?;
        let first = fault_of(alloc, action, body.as_bytes()).unwrap_or(fault);
        assert_eq!(rt; first, fault, "{line}");
        let words = said(alloc, action, body.as_bytes(), fault)?;
        assert_eq!(rt; words.as_str(), wanted, "{line}");
    }
    Ok(())
}

/// A refusal that a request does not have, or cannot have, is told by its own text.
#[test]
fn other_refusals(rt: HostRuntime) -> Result<(), Fail> {
    for fault in &FAULTS {
        if *fault != Fault::OutOfMemory {
            let words = said(rt.alloc(), "ListQueues", b"{}", *fault)?;
            assert_eq!(rt; words.as_str(), fault.text());
        }
        if *fault != Fault::OutOfMemory && *fault != Fault::InvalidParameterValue {
            let words = said(rt.alloc(), "SendMessage", b"{}", *fault)?;
            assert_eq!(rt; words.as_str(), fault.text());
        }
    }
    Ok(())
}

/// A batch whose entries have so many bytes together, singly and in all what they may have and one more.
#[test]
fn sizes(rt: HostRuntime) -> Result<(), Fail> {
    let alloc = rt.alloc();
    let half = "é".repeat(alloc, 262_144)?;
    let body = format!(in alloc;
        "{{\"QueueUrl\":\"jobs\",\"Entries\":[{{\"Id\":\"a\",\"MessageBody\":\"{half}\"}},{{\"Id\":\"b\",\"MessageBody\":\"{half}x\"}},{{\"Id\":\"c\",\"MessageBody\":\"\"}}]}}"
    )?;
    let words = said(
        alloc,
        "SendMessageBatch",
        body.as_bytes(),
        Fault::BatchRequestTooLong,
    )?;
    assert_eq!(rt;
        words.as_str(),
        "Entries has 1,048,577 bytes of messages together, more than 1,048,576"
    );
    let body = format!(in alloc; "{{\"QueueUrl\":\"jobs\",\"MessageBody\":\"{half}{half}a\"}}")?;
    let words = said(
        alloc,
        "SendMessage",
        body.as_bytes(),
        Fault::InvalidParameterValue,
    )?;
    assert_eq!(rt;
        words.as_str(),
        "MessageBody has 1,048,577 bytes, more than MaximumMessageSize"
    );
    let many = "é".repeat(alloc, 65_536)?;
    let body = format!(in alloc; "{{\"QueueUrl\":\"jobs\",\"MessageBody\":\"{many}\u{fffe}\"}}")?;
    let words = said(
        alloc,
        "SendMessage",
        body.as_bytes(),
        Fault::InvalidMessageContents,
    )?;
    assert_eq!(rt;
        words.as_str(),
        "MessageBody has U+FFFE as character 65,537, which messages may not have"
    );
    Ok(())
}

/// Bytes that are no text, and texts of several lines.
#[test]
fn places(rt: HostRuntime) -> Result<(), Fail> {
    let fault = Fault::SerializationException;
    let words = said(rt.alloc(), "ListQueues", b"{\"a\":\xff}", fault)?;
    assert_eq!(rt;
        words.as_str(),
        "The body is no UTF-8: it cannot be read at line 1, column 6"
    );
    let words = said(rt.alloc(), "ListQueues", b"{\n\"a\":\n x}", fault)?;
    assert_eq!(rt;
        words.as_str(),
        "The body is no JSON: it cannot be read at line 3, column 2"
    );
    Ok(())
}

/// Whether words name a member of an action.
fn names_member(action: &str, words: &str) -> bool {
    let Some(action) = action_named(action) else {
        return false;
    };
    for (name, _kind) in columns_of(action) {
        if words.contains(*name) {
            return true;
        }
    }
    matches!(action, Action::Batch(_)) && words.contains("Entries")
}

/// Whether words say that the body is none, with the place.
fn names_place(words: &str) -> bool {
    words.starts_with("The body is ") && (words.contains("wanted") || words.contains(", column "))
}

/// Asserts that something is said of a refusal: the name of a member, or that the body is no object.
fn holds(
    rt: &impl Abort,
    alloc: Global,
    action: &str,
    body: &str,
    fault: Fault,
) -> Result<(), Fail> {
    let words = said(alloc, action, body.as_bytes(), fault)?;
    let words = words.as_str();
    assert!(rt;
        names_member(action, words) || names_place(words),
        "{action} {body}: {words}"
    );
    assert!(rt; words != fault.text(), "{action} {body}: {words}");
    assert!(rt;
        !words.chars().any(|character| character.is_control()),
        "{action} {body}"
    );
    Ok(())
}

/// Asserts that something is said where a request is refused in reading, whole or an entry of it.
fn hold(rt: &impl Abort, alloc: Global, action: &str, body: &str) -> Result<(), Fail> {
    let answer = parse(alloc, action, body.as_bytes());
    match &answer {
        Err(fault) => holds(rt, alloc, action, body, *fault),
        Ok(Request::Batch { entries, .. }) => {
            for entry in entries.as_slice() {
                if let Err(fault) = &entry.command {
                    holds(rt, alloc, action, body, *fault)?;
                }
            }
            Ok(())
        }
        Ok(_) => Ok(()),
    }
}

/// Whether an action knows a member that stands behind this.
fn knows(action: &str, before: &str, name: &str) -> bool {
    let is_entry = before.contains("Entries");
    match action_named(action) {
        Some(Action::Batch(_)) => is_entry || name == "Entries" || name == "QueueUrl",
        Some(action) => {
            !is_entry
                && columns_of(action)
                    .iter()
                    .any(|(column, _kind)| *column == name)
        }
        None => false,
    }
}

/// Asserts that something is said of a member of each value, for each action that knows it.
fn hold_values(
    rt: &impl Abort,
    alloc: Global,
    before: &str,
    name: &str,
    after: &str,
) -> Result<(), Fail> {
    for place in 0..ACTION_COUNT {
        let action = action_at(place).ok_or("an action")?;
        if knows(action, before, name) {
            for value in VALUES.lines() {
                let body = format!(in alloc; "{before}\"{name}\":{value}{after}")?;
                hold(rt, alloc, action, body.as_str())?;
            }
        }
    }
    Ok(())
}

/// Something is said wherever `parse` refuses.
#[test]
fn malformed(rt: HostRuntime) -> Result<(), Fail> {
    let alloc = rt.alloc();
    for body in BODIES.lines() {
        for place in 0..ACTION_COUNT {
            let action = action_at(place).ok_or("an action")?;
            hold(&rt, alloc, action, body)?;
        }
    }
    for frame in FRAMES.lines() {
        let (before, after) = frame.split_once('|').ok_or("a place")?;
        for name in NAMES.split(' ') {
            hold_values(&rt, alloc, before, name, after)?;
        }
    }
    Ok(())
}
