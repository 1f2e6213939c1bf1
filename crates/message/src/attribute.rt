//! Attributes of messages, as their senders give them, and what is judged of each.

ghost use Rattle.std.specs.Prelude.{◌≡◌, ◌<◌, ◌^◌, Ok, codes};
ghost use Rattle.std.specs.List.{list_all};
ghost use Rattle.std.specs.Option.{SomeIff};
ghost use Rattle.message.specs.Fault.{Meets};
ghost use Rattle.message.specs.Attribute.{attribute_fault, attribute_size, begins_in_any_case, has_two_stops, is_attribute_name, is_attribute_name_character, is_of_type, is_reserved, is_type_text, is_value_given};

use crate::characters::is_message_text;
use crate::fault::Fault;
use crate::name::is_name_byte;
use std::alloc::Global;
use std::marker::Model;

/// How many characters an attribute's name has at most (Amazon SQS Developer Guide, "Message
/// attribute components").
const ATTRIBUTE_NAME_LIMIT: usize = 256;

/// How many bytes an attribute's type text has at most (Amazon SQS Developer Guide, "Message
/// attribute components").
const ATTRIBUTE_TYPE_LIMIT: usize = 256;

/// The value of an attribute.
#[derive(Debug, Drop)]
pub enum AttributeValue {
    /// A text, for attributes of the types `String` and `Number`.
    Text(String),
    /// Raw bytes, for attributes of the type `Binary`.
    Binary(Vec<u8>),
}

/// An attribute of a message: a name, a type text such as `String` or `Number.price`, and a value
/// (Amazon SQS API Reference, `MessageAttributeValue`). Any texts may stand here;
/// [`Content::new`](crate::Content::new) judges them:
///
/// - The name has 1 to 256 characters, each an ASCII letter, a digit, `_`, `-` or `.`. It has no
///   `.` first or last and no two side by side, and does not begin with `AWS.` or `Amazon.`,
///   whatever the case.
/// - The type text is `String`, `Number` or `Binary`, alone or followed by `.` and a label of at
///   least one character. It has at most 256 bytes, and only characters that bodies may have.
/// - The value is not empty. It is raw bytes where the type is `Binary`, and otherwise a text of
///   characters that bodies may have; that of a `Number` is not read as a number.
#[derive(Debug, Drop)]
pub struct Attribute {
    pub name: String,
    pub kind: String,
    pub value: AttributeValue,
}

impl Model for Attribute {
    ghost use Rattle.std.specs.Prelude.{string_bytes};
    ghost use Rattle.message.specs.Attribute.{AttributeText, bytes_of_value, is_binary};

    ghost Value = { AttributeText };

    ghost view = { λ a. record { name = string_bytes a.name; kind = string_bytes a.kind; is_binary = is_binary a.value; value = bytes_of_value a.value } };
}

impl Attribute {
    /// The same attribute once more, with texts of its own. `OutOfMemory` is the only refusal.
    pub fn copy(&self, alloc: Global) -> Result<Attribute, Fault>
        ensures { Meets result (Ok self.now) }
    {
        let name = String::from_str(alloc, self.name.as_str())?;
        let kind = String::from_str(alloc, self.kind.as_str())?;
        let value = match &self.value {
            AttributeValue::Text(text) => {
                AttributeValue::Text(String::from_str(alloc, text.as_str())?)
            }
            AttributeValue::Binary(bytes) => {
                AttributeValue::Binary(Vec::from_slice(alloc, bytes.as_slice())?)
            }
        };
        Ok(Attribute { name, kind, value })
    }

    /// How many bytes the name, the type text and the value have together, or `None` where they
    /// are too many to count.
    pub(crate) fn size(&self) -> Option<u64>
        ensures { SomeIff result (attribute_size self.now < 2 ^ 64) (attribute_size self.now) }
    {
        let value = match &self.value {
            AttributeValue::Text(text) => text.len(),
            AttributeValue::Binary(bytes) => bytes.len(),
        };
        let texts = (self.name.len() as u64).checked_add(self.kind.len() as u64)?;
        texts.checked_add(value as u64)
    }
}

/// Whether a byte may stand in a name.
fn is_attribute_name_byte(byte: u8) -> bool
    ensures { result ≡ is_attribute_name_character byte }
{
    is_name_byte(byte) || byte == b'.'
}

/// Whether every byte may stand in a name.
fn has_attribute_name_bytes(name: &[u8]) -> bool
    ensures { result ≡ list_all is_attribute_name_character name.now }
{
    name.iter().all(|byte| is_attribute_name_byte(*byte))
}

/// Whether two full stops stand side by side.
fn has_two_stops(name: &[u8]) -> bool
    ensures { result ≡ has_two_stops name.now }
{
    let mut after_stop = false;
    for byte in name {
        let is_stop = *byte == b'.';
        if after_stop && is_stop {
            return true;
        }
        after_stop = is_stop;
    }
    false
}

/// Whether a text begins with another, in upper or lower case.
fn begins_in_any_case(prefix: &[u8], text: &[u8]) -> bool
    ensures { result ≡ begins_in_any_case prefix.now text.now }
{
    let front = &text[..prefix.len().min(text.len())];
    front.eq_ignore_ascii_case(prefix)
}

/// Whether Amazon keeps the name for itself.
fn is_reserved(name: &[u8]) -> bool
    ensures { result ≡ is_reserved name.now }
{
    begins_in_any_case(b"AWS.", name) || begins_in_any_case(b"Amazon.", name)
}

/// Whether an attribute may have the name. Bytes stand for characters here, since none of a
/// character outside ASCII is a byte of a name.
fn is_attribute_name(name: &[u8]) -> bool
    ensures { result ≡ is_attribute_name name.now }
{
    1 <= name.len()
        && name.len() <= ATTRIBUTE_NAME_LIMIT
        && has_attribute_name_bytes(name)
        && !name.starts_with(b".")
        && !name.ends_with(b".")
        && !has_two_stops(name)
        && !is_reserved(name)
}

/// Whether a type text is the word, alone or with a label.
fn is_of_type(word: &[u8], kind: &[u8]) -> bool
    ensures { result ≡ is_of_type word.now kind.now }
{
    match kind.strip_prefix(word) {
        Some(rest) => rest.is_empty() || (rest.len() > 1 && rest[0] == b'.'),
        None => false,
    }
}

/// Whether a type text is that of raw bytes: `Binary`, alone or with a label.
pub fn is_binary_type(kind: &str) -> bool
    ensures { result ≡ is_of_type (codes "Binary") kind.now }
{
    is_of_type(b"Binary", kind.as_bytes())
}

/// Whether an attribute may have the type text.
fn is_type_text(kind: &str) -> bool
    ensures { result ≡ is_type_text kind.now }
{
    kind.len() <= ATTRIBUTE_TYPE_LIMIT
        && is_message_text(kind)
        && (is_of_type(b"String", kind.as_bytes())
            || is_of_type(b"Number", kind.as_bytes())
            || is_of_type(b"Binary", kind.as_bytes()))
}

/// Whether the attribute has a value of at least one byte, of the sort that its type says.
fn is_value_given(attribute: &Attribute) -> bool
    ensures { result ≡ is_value_given attribute.now }
{
    let is_for_bytes = is_binary_type(attribute.kind.as_str());
    match &attribute.value {
        AttributeValue::Text(text) => !is_for_bytes && !text.is_empty(),
        AttributeValue::Binary(bytes) => is_for_bytes && !bytes.is_empty(),
    }
}

/// What is wrong with an attribute: its name is judged first, then its type, then its value.
pub(crate) fn attribute_fault(attribute: &Attribute) -> Option<Fault>
    ensures { result ≡ attribute_fault attribute.now }
{
    if !is_attribute_name(attribute.name.as_bytes()) {
        return Some(Fault::InvalidParameterValue);
    }
    if !is_type_text(attribute.kind.as_str()) || !is_value_given(attribute) {
        return Some(Fault::InvalidParameterValue);
    }
    match &attribute.value {
        AttributeValue::Text(text) => {
            if is_message_text(text.as_str()) {
                None
            } else {
                Some(Fault::InvalidMessageContents)
            }
        }
        AttributeValue::Binary(_) => None,
    }
}
