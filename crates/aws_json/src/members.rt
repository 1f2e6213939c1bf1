//! The members of a request's body and their kinds (AWS JSON 1.0). A null member counts as absent,
//! and a member of another kind than asked is a `SerializationException` (this project's own
//! choice).

ghost use Rattle.std.specs.Prelude.{◌≡◌, ◌≤◌, option_map, map, IfOk};
ghost use Rattle.std.specs.Option.{ForSome};
ghost use Rattle.message.specs.Fault.{Meets};
ghost use Rattle.serde_json.specs.View.{view, items_view, members_view};
ghost use Rattle.aws_json.specs.Steps.{result_map};
ghost use Rattle.aws_json.specs.Members.{column, have_kinds, object_of, text_in, items_in, members_in, number_in, as_whole, within, may_be_text, are_texts, have_texts, is_attribute, have_attributes, is_of_kind, has_kind};

use message::Fault;
use serde_json::{Category, Map, Value};
use std::alloc::Global;

/// What a member has to be.
#[derive(Clone, Copy, Debug, PartialEq, Eq)]
pub(crate) enum Kind {
    Text,
    /// A whole number of 64 bits.
    Number,
    /// A list of texts.
    Texts,
    /// An object of texts.
    NamedTexts,
    /// An object of message attributes.
    MessageAttributes,
}

/// Whether each of these members has its kind, as far as it is there.
pub(crate) fn have_kinds(body: &Value, columns: &[(&str, Kind)]) -> bool
    ensures { result ≡ have_kinds (map (λ c. column c.0.now c.1) columns.now) (view body.now) }
{
    for (name, kind) in columns {
        if !has_kind(body, name, *kind) {
            return false;
        }
    }
    true
}

/// The JSON object that a body is. Anything else, and bytes that are no UTF-8, is a
/// `SerializationException`.
pub fn read_object(alloc: Global, body: &[u8]) -> Result<Value, Fault>
    ensures { Meets (result_map (λ v. view v) result) (object_of body.now) }
{
    match Value::from_slice(alloc, body) {
        Ok(value) if value.is_object() => Ok(value),
        Ok(_) => Err(Fault::SerializationException),
        Err(error) => match error.classify() {
            Category::Memory => Err(Fault::OutOfMemory),
            _ => Err(Fault::SerializationException),
        },
    }
}

/// A member's text, where it is one.
pub(crate) fn text_in<'v>(body: &'v Value, name: &str) -> Option<&'v str>
    ensures { option_map (λ s. s.now) result ≡ text_in name.now (view body.now) }
{
    match body.get(name) {
        Some(value) => value.as_str(),
        None => None,
    }
}

/// A member's list, where it is one.
pub(crate) fn items_in<'v>(body: &'v Value, name: &str) -> Option<&'v [Value]>
    ensures { option_map (λ items. items_view items.now) result ≡ items_in name.now (view body.now) }
{
    match body.get(name) {
        Some(value) => match value.as_array() {
            Some(items) => Some(items),
            None => None,
        },
        None => None,
    }
}

/// A member's object, where it is one.
pub(crate) fn members_in<'v>(body: &'v Value, name: &str) -> Option<&'v Map<String, Value>>
    ensures { option_map (λ members. members_view members.now.entries) result
        ≡ members_in name.now (view body.now) }
{
    match body.get(name) {
        Some(value) => value.as_object(),
        None => None,
    }
}

/// A whole number, or `None` below 0; anything else is of another kind.
fn whole(value: &Value) -> Option<Option<u64>>
    ensures { result ≡ as_whole (view value.now) }
{
    if value.is_u64() {
        Some(value.as_u64())
    } else if value.is_i64() {
        Some(None)
    } else {
        None
    }
}

/// A member's whole number, where it is one.
pub(crate) fn number_in(body: &Value, name: &str) -> Option<Option<u64>>
    ensures { result ≡ number_in name.now (view body.now) }
{
    match body.get(name) {
        Some(value) => whole(value),
        None => None,
    }
}

/// A number between two bounds, where it is there; out of range it is `InvalidParameterValue`.
pub(crate) fn within(
    least: u64,
    most: u64,
    number: Option<Option<u64>>,
) -> Result<Option<u64>, Fault>
    ensures number { result ≡ within least most number }
    ensures least { IfOk result (λ number. ForSome number (λ n. least ≤ n)) }
    ensures most { IfOk result (λ number. ForSome number (λ n. n ≤ most)) }
{
    match number {
        None => Ok(None),
        Some(Some(number)) if least <= number && number <= most => Ok(Some(number)),
        Some(_) => Err(Fault::InvalidParameterValue),
    }
}

/// Whether every item is a text.
fn are_texts(items: &[Value]) -> bool
    ensures { result ≡ are_texts (items_view items.now) }
{
    items.iter().all(|item| item.is_string())
}

/// Whether every member is a text or a null.
fn have_texts(members: &Map<String, Value>) -> bool
    ensures { result ≡ have_texts (members_view members.now.entries) }
{
    members
        .values()
        .all(|value| value.is_null() || value.is_string())
}

/// Whether a member is a text, where it is there.
pub(crate) fn may_be_text(name: &str, body: &Value) -> bool
    ensures { result ≡ may_be_text name.now (view body.now) }
{
    match body.get(name) {
        Some(value) => value.is_null() || value.is_string(),
        None => true,
    }
}

/// Whether the value is an object whose members that count are texts.
pub(crate) fn is_attribute(value: &Value) -> bool
    ensures { result ≡ is_attribute (view value.now) }
{
    value.is_object()
        && may_be_text("DataType", value)
        && may_be_text("StringValue", value)
        && may_be_text("BinaryValue", value)
}

/// Whether every member is an attribute or a null.
fn have_attributes(members: &Map<String, Value>) -> bool
    ensures { result ≡ have_attributes (members_view members.now.entries) }
{
    for (_name, value) in members {
        if !(value.is_null() || is_attribute(value)) {
            return false;
        }
    }
    true
}

/// Whether a value is of a kind.
fn is_of_kind(kind: Kind, value: &Value) -> bool
    ensures { result ≡ is_of_kind kind (view value.now) }
{
    match kind {
        Kind::Text => value.is_string(),
        Kind::Number => value.is_u64() || value.is_i64(),
        Kind::Texts => match value.as_array() {
            Some(items) => are_texts(items),
            None => false,
        },
        Kind::NamedTexts => match value.as_object() {
            Some(members) => have_texts(members),
            None => false,
        },
        Kind::MessageAttributes => match value.as_object() {
            Some(members) => have_attributes(members),
            None => false,
        },
    }
}

/// Whether a member is of a kind, where it is there.
pub(crate) fn has_kind(body: &Value, name: &str, kind: Kind) -> bool
    ensures { result ≡ has_kind name.now kind (view body.now) }
{
    match body.get(name) {
        Some(value) => value.is_null() || is_of_kind(kind, value),
        None => true,
    }
}
