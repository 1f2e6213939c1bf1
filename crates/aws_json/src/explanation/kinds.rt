//! Bodies that are no JSON object, and members of another kind than their action's row has.

ghost use Rattle.std.specs.Prelude.{◌≡◌, map};
ghost use Rattle.aws_json.specs.Entries.{entry_columns};
ghost use Rattle.aws_json.specs.Members.{column};

use crate::actions::{Action, columns_of};
use crate::batch::EntryKind;
use crate::explanation::words::{Finding, Looked, found, inside, kind_of};
use crate::members::{Kind, has_kind, is_attribute, may_be_text};
use serde_json::{Category, Value};
use std::alloc::Global;
use std::str;

/// The object that a body is the JSON text of.
pub(super) fn object_of(alloc: Global, body: &[u8]) -> Result<Value, Finding> {
    match Value::from_slice(alloc, body) {
        Ok(value) if value.is_object() => Ok(value),
        Ok(value) => other_kind(alloc, "The body", &value, "an object"),
        Err(error) => match error.classify() {
            Category::Memory => Err(Finding::OutOfMemory),
            Category::Eof => no_json(
                alloc,
                body,
                " ends too early, at or after",
                error.line(),
                error.column(),
            ),
            _ => no_json(
                alloc,
                body,
                " cannot be read at",
                error.line(),
                error.column(),
            ),
        },
    }
}

/// Says where a body is no JSON.
fn no_json<T>(
    alloc: Global,
    body: &[u8],
    fault: &str,
    line: usize,
    column: usize,
) -> Result<T, Finding> {
    if body.is_empty() {
        return found(String::from_str(alloc, "The body is empty, and a JSON object is wanted"));
    }
    let what = match str::from_utf8(body) {
        Ok(_) => "JSON",
        Err(_) => "UTF-8",
    };
    found(format!(in alloc; "The body is no {what}: it{fault} line {line}, column {column}"))
}

/// The members that an entry of a batch knows, with their kinds.
fn entry_columns_of(kind: EntryKind) -> &'static [(&'static str, Kind)]
    ensures { map (λ c. column c.0.now c.1) result.now ≡ entry_columns kind }
{
    match kind {
        EntryKind::Send => &[
            ("Id", Kind::Text),
            ("MessageBody", Kind::Text),
            ("DelaySeconds", Kind::Number),
            ("MessageAttributes", Kind::MessageAttributes),
        ],
        EntryKind::Delete => &[("Id", Kind::Text), ("ReceiptHandle", Kind::Text)],
        EntryKind::Change => &[
            ("Id", Kind::Text),
            ("ReceiptHandle", Kind::Text),
            ("VisibilityTimeout", Kind::Number),
        ],
    }
}

/// Looks at the kinds of the members that an action knows; of a batch, at the entries first.
pub(super) fn look_at_kinds(alloc: Global, action: Action, body: &Value) -> Looked {
    if let Action::Batch(kind) = action {
        look_at_entry_kinds(alloc, kind, body)?;
    }
    look_at_columns(alloc, "", columns_of(action), body)
}

/// Looks at whether `Entries` is a list of objects, and at the kinds of their members.
fn look_at_entry_kinds(alloc: Global, kind: EntryKind, body: &Value) -> Looked {
    let Some(value) = body.get("Entries") else {
        return Ok(());
    };
    let Some(items) = value.as_array() else {
        if value.is_null() {
            return Ok(());
        }
        return other_kind(alloc, "Entries", value, "a list of objects");
    };
    for (place, item) in items.iter().enumerate() {
        if !item.is_object() {
            let entry = format!(in alloc; "Entries[{place}]")?;
            return other_kind(alloc, entry.as_str(), item, "an object");
        }
        let before = format!(in alloc; "Entries[{place}].")?;
        look_at_columns(alloc, before.as_str(), entry_columns_of(kind), item)?;
    }
    Ok(())
}

/// Looks at the kinds of these members of an object.
fn look_at_columns(
    alloc: Global,
    before: &str,
    columns: &[(&str, Kind)],
    object: &Value,
) -> Looked {
    for (name, kind) in columns {
        if !has_kind(object, name, *kind) {
            if let Some(value) = object.get(*name) {
                let place = format!(in alloc; "{before}{name}")?;
                return of_other_kind(alloc, place.as_str(), *kind, value);
            }
        }
    }
    Ok(())
}

/// Says what is wrong with a value that is not of a kind.
fn of_other_kind(alloc: Global, place: &str, kind: Kind, value: &Value) -> Looked {
    match kind {
        Kind::Text => other_kind(alloc, place, value, "a string"),
        Kind::Number => no_whole_number(alloc, place, value),
        Kind::Texts => no_texts(alloc, place, value),
        Kind::NamedTexts => no_named_texts(alloc, place, value),
        Kind::MessageAttributes => no_attributes(alloc, place, value),
    }
}

/// Says that a value is of another kind.
fn other_kind<T>(alloc: Global, place: &str, value: &Value, wanted: &str) -> Result<T, Finding> {
    let kind = kind_of(value);
    found(format!(in alloc; "{place} is {kind}, and {wanted} is wanted"))
}

/// Says what is wrong with a value that is no whole number.
fn no_whole_number(alloc: Global, place: &str, value: &Value) -> Looked {
    if value.is_number() {
        return found(format!(in alloc;
            "{place} is a number with a fraction or an exponent, or -0, or one beyond 64 bits, and a whole number is wanted"
        ));
    }
    other_kind(alloc, place, value, "a whole number")
}

/// Says what is wrong with a value that is no list of texts.
fn no_texts(alloc: Global, place: &str, value: &Value) -> Looked {
    let Some(items) = value.as_array() else {
        return other_kind(alloc, place, value, "a list of strings");
    };
    for (index, item) in items.iter().enumerate() {
        if !item.is_string() {
            let place = format!(in alloc; "{place}[{index}]")?;
            return other_kind(alloc, place.as_str(), item, "a string");
        }
    }
    Ok(())
}

/// Says what is wrong with a value that is no object of texts.
fn no_named_texts(alloc: Global, place: &str, value: &Value) -> Looked {
    let Some(members) = value.as_object() else {
        return other_kind(alloc, place, value, "an object of strings");
    };
    for (name, member) in members {
        if !(member.is_null() || member.is_string()) {
            let place = inside(alloc, place, name.as_str())?;
            return other_kind(alloc, place.as_str(), member, "a string");
        }
    }
    Ok(())
}

/// Says what is wrong with a value that is no object of message attributes.
fn no_attributes(alloc: Global, place: &str, value: &Value) -> Looked {
    let Some(members) = value.as_object() else {
        return other_kind(alloc, place, value, "an object");
    };
    for (name, member) in members {
        if !(member.is_null() || is_attribute(member)) {
            let place = inside(alloc, place, name.as_str())?;
            return no_attribute(alloc, place.as_str(), member);
        }
    }
    Ok(())
}

/// Says what is wrong with a value that is no message attribute.
fn no_attribute(alloc: Global, place: &str, value: &Value) -> Looked {
    if !value.is_object() {
        return other_kind(alloc, place, value, "an object");
    }
    for name in ["DataType", "StringValue", "BinaryValue"] {
        if !may_be_text(name, value) {
            if let Some(member) = value.get(name) {
                let place = format!(in alloc; "{place}.{name}")?;
                return other_kind(alloc, place.as_str(), member, "a string");
            }
        }
    }
    Ok(())
}
