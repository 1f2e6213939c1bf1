//! What is told of values from outside, at the borders of each rule, and what a refused allocation gives.

use super::*;
use cases::{CALLS, CASES, LETTERS};
use std::alloc::{AllocError, AllocFailed, Global};
use std::process::Abort;
use std::test::Fail;

mod cases;

/// The refusals in the order of their table in docs/PROFILE.md. Their statuses, names and texts stand in
/// the stored runs of `sqs_replay`, and those of the last three in the tests of `aws_json`.
const REFUSALS: [Fault; 20] = [
    Fault::QueueDoesNotExist,
    Fault::QueueNameExists,
    Fault::InvalidAttributeName,
    Fault::InvalidAttributeValue,
    Fault::InvalidParameterValue,
    Fault::InvalidMessageContents,
    Fault::ReceiptHandleIsInvalid,
    Fault::MessageNotInflight,
    Fault::OverLimit,
    Fault::EmptyBatchRequest,
    Fault::TooManyEntriesInBatchRequest,
    Fault::BatchEntryIdsNotDistinct,
    Fault::InvalidBatchEntryId,
    Fault::BatchRequestTooLong,
    Fault::UnsupportedOperation,
    Fault::SerializationException,
    Fault::JournalFull,
    Fault::OutOfMemory,
    Fault::Spent,
    Fault::ActorGone,
];

/// Whether the name of a queue gives its text, and whether it equals the name behind a `=`.
fn told_name(alloc: Global, texts: &str) -> Result<String, Fault> {
    let (text, other) = texts.split_once('=').unwrap_or((texts, texts));
    let (name, other) = (QueueName::read(text)?, QueueName::read(other)?);
    Ok(format!(in alloc; "{} {}", name.as_text() == text, name == other)?)
}

/// The two numbers of the id that a text is, in hexadecimal digits, and the id's text.
fn told_id(alloc: Global, text: &str) -> Result<String, Fault> {
    let Some(id) = MessageId::read(text) else {
        return Ok(String::from_str(alloc, "none")?);
    };
    Ok(format!(in alloc; "{:x} {:x} {}", id.uid, id.number, id.text(alloc)?)?)
}

/// The attribute that a text tells: its name, its type text and its value, with a `|` before each of
/// the two, which are `String` and `v` where the name stands alone. A value that ends in `|raw` is raw.
fn attribute_from(alloc: Global, told: &str) -> Result<Attribute, Fault> {
    let (name, rest) = told.split_once('|').unwrap_or((told, "String|v"));
    let (kind, given) = rest.split_once('|').unwrap_or((rest, ""));
    let value = match given.strip_suffix("|raw") {
        Some(bytes) => AttributeValue::Binary(Vec::from_slice(alloc, bytes.as_bytes())?),
        None => AttributeValue::Text(String::from_str(alloc, given)?),
    };
    Ok(Attribute {
        name: String::from_str(alloc, name)?,
        kind: String::from_str(alloc, kind)?,
        value,
    })
}

/// The content that a text tells: its body and its attributes, with a `;` before each of these.
fn content_from(alloc: Global, told: &str) -> Result<Content, Fault> {
    let mut parts = told.split(';');
    let body = String::from_str(alloc, parts.next().unwrap_or(""))?;
    let mut attributes = Vec::new(alloc);
    for part in parts {
        attributes.push(attribute_from(alloc, part)?)?;
    }
    Content::new(alloc, body, attributes)
}

/// The size of a content, its body, and a copy of each of its attributes, by a share of it when the
/// first has gone.
fn told_parts(alloc: Global, told: &str) -> Result<String, Fault> {
    let first = content_from(alloc, told)?;
    let content = first.share()?;
    drop(first);
    let mut text = format!(in alloc; "{} {:?}", content.size(), content.body())?;
    for attribute in content.attributes() {
        let Attribute { name, kind, value } = attribute.copy(alloc)?;
        write!(text, ";{name}|{kind}|{value:?}")?;
    }
    Ok(text)
}

/// What is told of a line, whose first word says what is asked of the rest.
fn told(alloc: Global, line: &str) -> Result<String, Fault> {
    let (asked, rest) = line.split_once(' ').unwrap_or((line, ""));
    match asked {
        "queue" => told_name(alloc, rest),
        "id" => told_id(alloc, rest),
        "size" => Ok(format!(in alloc; "{}", content_from(alloc, rest)?.size())?),
        "parts" => told_parts(alloc, rest),
        "raw" => Ok(format!(in alloc; "{}", is_binary_type(rest))?),
        _ => Err(Fault::UnsupportedOperation),
    }
}

/// What is told of a text in three parts, or the name of its refusal, which is no lack of memory.
fn answer(alloc: Global, before: &str, choice: &str, after: &str) -> Result<String, Fault> {
    let text = format!(in alloc; "{before}{choice}{after}")?;
    match told(alloc, text.as_str()) {
        Err(fault) if fault != Fault::OutOfMemory => Ok(String::from_str(alloc, fault.name())?),
        told => told,
    }
}

/// Asserts what is told of each text of a line. Where memory is refused, the text is asked again.
fn hold(rt: &impl Abort, alloc: Global, line: &str) -> Result<(), Fail> {
    let (texts, wanted) = line.split_once(" => ").ok_or("what is told of it")?;
    let (before, rest) = texts.split_once('<').unwrap_or((texts, ""));
    let (choices, after) = rest.split_once('>').unwrap_or(("", ""));
    for choice in choices.split('~') {
        let choice = match choice {
            "249" => LETTERS,
            "LF" => "\n",
            _ => choice,
        };
        let told = match answer(alloc, before, choice, after) {
            Err(Fault::OutOfMemory) => answer(alloc, before, choice, after)?,
            told => told?,
        };
        assert_eq!(rt; told.as_str(), wanted, "{before}{choice}{after}");
    }
    Ok(())
}

/// Each refusal has its number and prints its text, and each line of [`CASES`] is told as it says.
#[test]
fn lines(rt: HostRuntime) -> Result<(), Fail> {
    let mut numbers = String::new(rt.alloc());
    for fault in REFUSALS {
        write!(numbers, " {}", fault.code())?;
        let printed = format!(in rt.alloc(); "{fault}")?;
        assert_eq!(rt; printed.as_str(), fault.text());
    }
    assert_eq!(rt;
        numbers.as_str(),
        " 1 2 3 4 5 6 7 8 9 10 11 12 13 14 15 16 17 18 19 20"
    );
    for line in CASES.lines().filter(|line| !line.starts_with("//")) {
        hold(&rt, rt.alloc(), line)?;
    }
    Ok(())
}

/// A call whose allocation is refused answers `OutOfMemory`, and the same call gives its value after it.
/// The gate runs this with ample memory, where the first call answers;
/// `rt try --test --fail-alloc N -- refused_memory` refuses the Nth allocation.
#[test]
fn refused_memory(rt: HostRuntime) -> Result<(), Fail> {
    for line in CALLS.lines() {
        hold(&rt, rt.alloc(), line)?;
    }
    assert_eq!(rt; Fault::from(AllocError), Fault::OutOfMemory);
    assert_eq!(rt; Fault::from(AllocFailed { value: 1u8 }), Fault::OutOfMemory);
    Ok(())
}
