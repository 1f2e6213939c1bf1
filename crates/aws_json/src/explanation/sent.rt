//! What is sent: the body of a message, its delay and its attributes, singly or in an entry.

use crate::entries::{attribute_given, delay_within, given_body};
use crate::explanation::single::out_of_range;
use crate::explanation::words::{Looked, found, grouped, inside, missing, quoted};
use crate::members::{members_in, number_in, text_in};
use message::{Attribute, AttributeValue, Content, Fault, body_fault, is_binary_type};
use queue_core::LONGEST_DELAY;
use serde_json::Value;
use std::alloc::{AllocError, Global};

/// How many attributes a message has at most (Amazon SQS Developer Guide, "Message attributes").
const MOST_ATTRIBUTES: usize = 10;

/// What the name of an attribute has to be (Amazon SQS Developer Guide, "Message attribute
/// components").
const NAME_WANTED: &str =
    "1 to 256 ASCII letters, digits, _, - and . are wanted, with no . first, last or twice in a row, and not AWS. or Amazon. first";

/// What a type text has to be (Amazon SQS Developer Guide, "Message attribute components").
const TYPE_WANTED: &str =
    "String, Number or Binary is wanted, alone or with a label as in String.x, in at most 256 bytes";

/// Looks at what is sent: the body, the delay, the attributes.
pub(super) fn look_at_message(alloc: Global, before: &str, object: &Value) -> Looked {
    look_at_text(alloc, before, object)?;
    let name = "DelaySeconds";
    if delay_within(number_in(object, name)).is_err() {
        return out_of_range(alloc, before, name, object, 0, u64::from(LONGEST_DELAY));
    }
    look_at_attributes(alloc, before, object)
}

/// Looks at the body of a message.
fn look_at_text(alloc: Global, before: &str, object: &Value) -> Looked {
    let name = "MessageBody";
    let text = text_in(object, name);
    match (given_body(text), text) {
        (Ok(_), _) => Ok(()),
        (Err(_), None) => missing(alloc, before, name, object),
        (Err(_), Some(text)) => {
            let place = format!(in alloc; "{before}{name}")?;
            not_allowed(alloc, place.as_str(), text)
        }
    }
}

/// Says why a text may not be sent: it is empty, or has a character that messages may not have.
fn not_allowed(alloc: Global, place: &str, text: &str) -> Looked {
    if text.is_empty() {
        return found(format!(in alloc; "{place} is empty"));
    }
    let mut number = 0u64;
    for character in text.chars() {
        number = number.saturating_add(1);
        let mut bytes = [0u8; 4];
        if body_fault(character.encode_utf8(&mut bytes)).is_some() {
            let code = character as u32;
            let number = grouped(alloc, number)?;
            return found(format!(in alloc;
                "{place} has U+{code:04X} as character {number}, which messages may not have"
            ));
        }
    }
    Ok(())
}

/// Looks at the attributes of a message.
fn look_at_attributes(alloc: Global, before: &str, object: &Value) -> Looked {
    let Some(members) = members_in(object, "MessageAttributes") else {
        return Ok(());
    };
    let place = format!(in alloc; "{before}MessageAttributes")?;
    let count = members.values().filter(|value| !value.is_null()).count();
    if count > MOST_ATTRIBUTES {
        return found(format!(in alloc;
            "{place} has {count} attributes, more than {MOST_ATTRIBUTES}"
        ));
    }
    for (name, value) in members {
        if !value.is_null() {
            look_at_attribute(alloc, place.as_str(), name.as_str(), value)?;
        }
    }
    Ok(())
}

/// The answer of what is refused for lack of memory alone.
fn remembered<T: Drop>(answer: Result<T, Fault>) -> Result<T, AllocError> {
    match answer {
        Ok(value) => Ok(value),
        Err(_) => Err(AllocError),
    }
}

/// Whether a message may have an attribute.
fn is_taken(alloc: Global, attribute: Attribute) -> Result<bool, AllocError> {
    let mut attributes = Vec::new(alloc);
    attributes.push(attribute)?;
    match Content::new(alloc, String::from_str(alloc, "a")?, attributes) {
        Ok(_) => Ok(true),
        Err(Fault::OutOfMemory) => Err(AllocError),
        Err(_) => Ok(false),
    }
}

/// An attribute of a name and a type text, with a value that is allowed.
fn with_good_value(alloc: Global, name: &str, kind: &str) -> Result<Attribute, AllocError> {
    let value = if is_binary_type(kind) {
        AttributeValue::Binary(Vec::from_slice(alloc, b"a")?)
    } else {
        AttributeValue::Text(String::from_str(alloc, "a")?)
    };
    Ok(Attribute {
        name: String::from_str(alloc, name)?,
        kind: String::from_str(alloc, kind)?,
        value,
    })
}

/// Looks at an attribute of a message: its name, its type, its value.
fn look_at_attribute(alloc: Global, place: &str, name: &str, object: &Value) -> Looked {
    if is_taken(alloc, remembered(attribute_given(alloc, name, object))?)? {
        return Ok(());
    }
    if !is_taken(alloc, with_good_value(alloc, name, "String")?)? {
        let name = quoted(alloc, name)?;
        return found(format!(in alloc; "{place} has the name {name}, and {NAME_WANTED}"));
    }
    let place = inside(alloc, place, name)?;
    let before = format!(in alloc; "{place}.")?;
    let Some(kind) = text_in(object, "DataType") else {
        return missing(alloc, before.as_str(), "DataType", object);
    };
    if !is_taken(alloc, with_good_value(alloc, "a", kind)?)? {
        let kind = quoted(alloc, kind)?;
        return found(format!(in alloc; "{before}DataType is {kind}, and {TYPE_WANTED}"));
    }
    value(alloc, before.as_str(), kind, object)
}

/// Says what is wrong with the value of an attribute.
fn value(alloc: Global, before: &str, kind: &str, object: &Value) -> Looked {
    let is_binary = is_binary_type(kind);
    let name = if is_binary {
        "BinaryValue"
    } else {
        "StringValue"
    };
    let Some(text) = text_in(object, name) else {
        return missing(alloc, before, name, object);
    };
    if is_binary && !text.is_empty() {
        return found(format!(in alloc; "{before}{name} is not base64 with its padding"));
    }
    let place = format!(in alloc; "{before}{name}")?;
    not_allowed(alloc, place.as_str(), text)
}
