//! The words of an explanation: texts that a client sent, numbers, kinds and places.

use serde_json::Value;
use std::alloc::{AllocError, Global};

/// How many bytes an explanation has at most.
pub(super) const LONGEST_WORDS: usize = 400;

/// After how many bytes a text that a client sent, as it is quoted, is cut off.
const LONGEST_QUOTE: usize = 60;

/// What ends the search for what is wrong.
#[derive(Debug, Drop)]
pub(super) enum Finding {
    /// What is wrong, in words.
    Words(String),
    /// There was no memory to look for it or to say it.
    OutOfMemory,
}

impl From<AllocError> for Finding {
    fn from(_refused: AllocError) -> Finding {
        Finding::OutOfMemory
    }
}

/// What comes of looking at a part of a request: an error where it is what is wrong.
pub(super) type Looked = Result<(), Finding>;

/// What is wrong, in these words.
pub(super) fn found<T>(words: Result<String, AllocError>) -> Result<T, Finding> {
    Err(Finding::Words(words?))
}

/// Whether a byte is a letter, a digit or a `_`.
fn is_letter(byte: u8) -> bool {
    byte.is_ascii_alphanumeric() || byte == b'_'
}

/// Whether a text is one short word without signs.
fn is_word(text: &[u8]) -> bool {
    !text.is_empty() && text.len() <= LONGEST_QUOTE && text.iter().all(|byte| is_letter(*byte))
}

/// The same, where `-` and `.` may stand in it.
fn is_name(text: &[u8]) -> bool {
    !text.is_empty()
        && text.len() <= LONGEST_QUOTE
        && text
            .iter()
            .all(|byte| is_letter(*byte) || *byte == b'-' || *byte == b'.')
}

/// Adds a character of a quoted text; a control character by its number.
fn push_quoted(quote: &mut String, character: char) -> Result<(), AllocError> {
    if character.is_control() {
        let number = character as u32;
        return write!(quote, "\\u{number:04x}");
    }
    if character == '"' || character == '\\' {
        quote.push('\\')?;
    }
    quote.push(character)
}

/// A text that a client sent: as it is where it is a name, and else in quotes. What is too long is cut
/// off.
pub(super) fn quoted(alloc: Global, text: &str) -> Result<String, AllocError> {
    if is_name(text.as_bytes()) {
        return String::from_str(alloc, text);
    }
    let mut quote = String::from_str(alloc, "\"")?;
    for character in text.chars() {
        if quote.len() > LONGEST_QUOTE {
            quote.push_str("...")?;
            break;
        }
        push_quoted(&mut quote, character)?;
    }
    quote.push('"')?;
    Ok(quote)
}

/// The place of a member inside an object.
pub(super) fn inside(alloc: Global, place: &str, name: &str) -> Result<String, AllocError> {
    if is_word(name.as_bytes()) {
        return format!(in alloc; "{place}.{name}");
    }
    let name = quoted(alloc, name)?;
    format!(in alloc; "{place}[{name}]")
}

/// A number in decimal digits, with a comma before each third from the end.
pub(super) fn grouped(alloc: Global, number: u64) -> Result<String, AllocError> {
    let digits = format!(in alloc; "{number}")?;
    let first = digits.len() % 3;
    let mut text = String::new(alloc);
    for (place, digit) in digits.chars().enumerate() {
        if place > 0 && place % 3 == first {
            text.push(',')?;
        }
        text.push(digit)?;
    }
    Ok(text)
}

/// A range of numbers.
pub(super) fn range(alloc: Global, least: u64, most: u64) -> Result<String, AllocError> {
    let least = grouped(alloc, least)?;
    let most = grouped(alloc, most)?;
    format!(in alloc; "{least} to {most}")
}

/// What sort of JSON value it is.
pub(super) fn kind_of(value: &Value) -> &'static str {
    match value {
        Value::Null => "null",
        Value::Bool(_) => "a boolean",
        Value::Number(_) => "a number",
        Value::String(_) => "a string",
        Value::Array(_) => "a list",
        Value::Object(_) => "an object",
    }
}

/// A value as it is where it is a text or a whole number, and else what sort of value it is.
pub(super) fn shown(alloc: Global, value: &Value) -> Result<String, AllocError> {
    if let Some(text) = value.as_str() {
        return quoted(alloc, text);
    }
    if let Some(number) = value.as_u64() {
        return grouped(alloc, number);
    }
    if let Some(number) = value.as_i64() {
        let size = grouped(alloc, number.unsigned_abs())?;
        return format!(in alloc; "-{size}");
    }
    String::from_str(alloc, kind_of(value))
}

/// Says that a member is not there, or a null.
pub(super) fn missing(alloc: Global, before: &str, name: &str, object: &Value) -> Looked {
    match object.get(name) {
        Some(_) => found(format!(in alloc; "{before}{name} is null, which counts as missing")),
        None => found(format!(in alloc; "{before}{name} is missing")),
    }
}

/// Says what a value at a place is, and what is wanted there.
pub(super) fn unwanted(alloc: Global, place: &str, value: &Value, wanted: &str) -> Looked {
    let value = shown(alloc, value)?;
    found(format!(in alloc; "{place} is {value}, and {wanted} wanted"))
}
