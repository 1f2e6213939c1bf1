//! What a value is, and what it has to be.

use crate::line::Line;
use message::{NAME_LIMIT, QueueName};
use queue_config::{metric_named, operator_named};
use std::alloc::{AllocError, Global};
use toml::Value;

/// What the value of a key has to be.
#[derive(Clone, Copy, Debug, PartialEq, Eq)]
pub(crate) enum ValueKind {
    /// A whole number between two bounds.
    Number { least: i64, most: i64 },
    /// A name, by the rule for names of queues.
    Name,
    /// The name of a metric.
    Metric,
    /// The name of an operator.
    Operator,
    Table,
    /// An array. What its elements are is judged later.
    Tables,
}

/// Whether a value is what it has to be.
#[derive(Clone, Copy, Debug, PartialEq, Eq)]
pub(crate) enum Verdict {
    Fits,
    WrongKind,
    OutOfRange,
}

/// The verdict where the kind is right, and it may be out of range.
fn fits_if(is_in_range: bool) -> Verdict {
    if is_in_range {
        Verdict::Fits
    } else {
        Verdict::OutOfRange
    }
}

/// The verdict where every value of the kind is right.
fn is_kind(is_of_it: bool) -> Verdict {
    if is_of_it {
        Verdict::Fits
    } else {
        Verdict::WrongKind
    }
}

/// Whether a value is a whole number between two bounds.
fn number_verdict(value: &Value, least: i64, most: i64) -> Verdict {
    match value.as_integer() {
        Some(number) => fits_if(least <= number && number <= most),
        None => Verdict::WrongKind,
    }
}

impl ValueKind {
    /// Whether a value is of this kind.
    pub(crate) fn verdict(self, value: &Value) -> Verdict {
        match self {
            ValueKind::Number { least, most } => number_verdict(value, least, most),
            ValueKind::Table => is_kind(value.is_table()),
            ValueKind::Tables => is_kind(value.is_array()),
            ValueKind::Name | ValueKind::Metric | ValueKind::Operator => match value.as_str() {
                Some(text) => fits_if(self.takes_text(text)),
                None => Verdict::WrongKind,
            },
        }
    }

    /// Whether a text is of this kind.
    fn takes_text(self, text: &str) -> bool {
        match self {
            ValueKind::Name => QueueName::read(text).is_ok(),
            ValueKind::Metric => metric_named(text).is_some(),
            ValueKind::Operator => operator_named(text).is_some(),
            _ => false,
        }
    }

    /// Writes what is wanted.
    pub(crate) fn write_wanted(self, line: &mut Line) -> Result<(), AllocError> {
        match self {
            ValueKind::Number { least, most } => {
                write!(line.text, "a whole number from {least} to {most}")
            }
            ValueKind::Name | ValueKind::Metric | ValueKind::Operator => line
                .text
                .push_str("a string"),
            ValueKind::Table => line.text.push_str("a table"),
            ValueKind::Tables => line.text.push_str("an array of tables"),
        }
    }

    /// Writes what a value is not that is out of range.
    pub(crate) fn write_missed(self, line: &mut Line) -> Result<(), AllocError> {
        match self {
            ValueKind::Number { least, most } => write!(line.text, "not in {least} to {most}"),
            ValueKind::Name => write!(
                line.text,
                "no name of 1 to {NAME_LIMIT} letters, digits, - and _"
            ),
            ValueKind::Metric => line.text.push_str("no metric"),
            ValueKind::Operator => line.text.push_str("no operator"),
            ValueKind::Table | ValueKind::Tables => line.text.push_str("out of range"),
        }
    }
}

/// What a value is, in words.
pub(crate) fn kind_words(value: &Value) -> &'static str {
    match value {
        Value::String(_) => "a string",
        Value::Integer(_) => "a whole number",
        Value::Float(_) => "a float",
        Value::Boolean(_) => "a boolean",
        Value::Datetime(_) => "a date or time",
        Value::Array(_) => "an array",
        Value::Table(_) => "a table",
    }
}

/// Whether a line shows a value.
pub(crate) fn is_shown(value: &Value) -> bool {
    !value.is_array() && !value.is_table()
}

/// Shows a value, but for an array and a table: a text in quotes, and all else as TOML writes it.
pub(crate) fn show_value(alloc: Global, line: &mut Line, value: &Value) -> Result<(), AllocError> {
    match value {
        Value::String(text) => line.quote(alloc, text.as_str()),
        Value::Array(_) | Value::Table(_) => Ok(()),
        _ => line.show(format!(in alloc; "{value}")?.as_str()),
    }
}
