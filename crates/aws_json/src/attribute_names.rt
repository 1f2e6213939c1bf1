//! The attributes that a client asks for by their names (Amazon SQS API Reference,
//! `GetQueueAttributes`, `ReceiveMessage`). Each table stands once: what is asked for and what is
//! answered are read from it.

ghost use Rattle.std.specs.Prelude.{◌≡◌, Ok, option_map};
ghost use Rattle.message.specs.Fault.{Meets};
ghost use Rattle.serde_json.specs.View.{view, items_view};
ghost use Rattle.aws_json.specs.AttributeNames.{name_text, has_name, asks_for, are_known, queue_attribute_name, all_queue_attributes, has_attribute, is_queue_name, attributes_for, asked_attributes_of, asked_attribute_names, system_attribute_name, all_system_attributes, is_unanswered, is_system_name, either_asks_for, asked_names_of, asked_names, patterns_of, or_no_items};

use crate::listed::Listed;
use crate::members::items_in;
use crate::request::{AttributeNames, ReceiveNames};
use crate::selection::Patterns;
use crate::text::Text;
use message::Fault;
use queue_config::{Setting, is_ignored, setting_row};
use serde_json::Value;
use std::alloc::Global;

/// An attribute of a queue that is answered.
#[derive(Clone, Copy, Debug, PartialEq, Eq)]
pub enum QueueAttribute {
    /// How many messages are visible.
    Visible,
    /// How many messages are delayed.
    Delayed,
    /// How many messages are in flight.
    InFlight,
    /// When the queue was created, in seconds.
    Created,
    /// When the queue last got settings, in seconds.
    Modified,
    /// The name by which policies and other services know the queue.
    Arn,
    /// Where a message goes that is received too often, and when.
    Redrive,
    /// A setting that is a number, in seconds or bytes.
    Setting(Setting),
}

impl QueueAttribute {
    /// Its name.
    pub(crate) fn name(self) -> &'static str
        ensures { result.now ≡ queue_attribute_name self }
    {
        match self {
            QueueAttribute::Visible => "ApproximateNumberOfMessages",
            QueueAttribute::Delayed => "ApproximateNumberOfMessagesDelayed",
            QueueAttribute::InFlight => "ApproximateNumberOfMessagesNotVisible",
            QueueAttribute::Created => "CreatedTimestamp",
            QueueAttribute::Modified => "LastModifiedTimestamp",
            QueueAttribute::Arn => "QueueArn",
            QueueAttribute::Redrive => "RedrivePolicy",
            QueueAttribute::Setting(setting) => setting_row(setting).name,
        }
    }
}

/// Every attribute of a queue.
#[tactic(auto, unfolding(crate::specs::AttributeNames::all_queue_attributes))]
fn all_queue_attributes() -> &'static [QueueAttribute]
    ensures { result.now ≡ all_queue_attributes }
{
    &[
        QueueAttribute::Visible,
        QueueAttribute::Delayed,
        QueueAttribute::InFlight,
        QueueAttribute::Created,
        QueueAttribute::Modified,
        QueueAttribute::Arn,
        QueueAttribute::Redrive,
        QueueAttribute::Setting(Setting::DelaySeconds),
        QueueAttribute::Setting(Setting::VisibilityTimeout),
        QueueAttribute::Setting(Setting::MessageRetentionPeriod),
        QueueAttribute::Setting(Setting::ReceiveMessageWaitTimeSeconds),
        QueueAttribute::Setting(Setting::MaximumMessageSize),
    ]
}

/// An attribute that a queue gives its messages.
#[derive(Clone, Copy, Debug, PartialEq, Eq)]
pub enum SystemAttribute {
    /// When the message was first received, in milliseconds.
    FirstReceive,
    /// How often the message was received.
    ReceiveCount,
    /// The queue that the message came from, where it is a dead letter.
    Source,
    /// Who sent the message.
    Sender,
    /// When the message was sent, in milliseconds.
    Sent,
}

impl SystemAttribute {
    /// Its name.
    pub(crate) fn name(self) -> &'static str
        ensures { result.now ≡ system_attribute_name self }
    {
        match self {
            SystemAttribute::FirstReceive => "ApproximateFirstReceiveTimestamp",
            SystemAttribute::ReceiveCount => "ApproximateReceiveCount",
            SystemAttribute::Source => "DeadLetterQueueSourceArn",
            SystemAttribute::Sender => "SenderId",
            SystemAttribute::Sent => "SentTimestamp",
        }
    }
}

/// Every attribute that a queue gives its messages.
#[tactic(auto, unfolding(crate::specs::AttributeNames::all_system_attributes))]
fn all_system_attributes() -> &'static [SystemAttribute]
    ensures { result.now ≡ all_system_attributes }
{
    &[
        SystemAttribute::FirstReceive,
        SystemAttribute::ReceiveCount,
        SystemAttribute::Source,
        SystemAttribute::Sender,
        SystemAttribute::Sent,
    ]
}

/// A name in a list.
pub(crate) fn name_text(name: &Value) -> &str
    ensures { result.now ≡ name_text (view name.now) }
{
    match name.as_str() {
        Some(text) => text,
        None => "",
    }
}

/// Whether a list has a name.
fn has_name(name: &str, names: &[Value]) -> bool
    ensures { result ≡ has_name name.now (items_view names.now) }
{
    for other in names {
        if name_text(other) == name {
            return true;
        }
    }
    false
}

/// Whether a list asks for what has this name: by the name, or all at once.
fn asks_for(names: &[Value], name: &str) -> bool
    ensures { result ≡ asks_for (items_view names.now) name.now }
{
    has_name("All", names) || has_name(name, names)
}

/// Whether one of these attributes has the name.
fn has_queue_attribute(name: &str, attributes: &[QueueAttribute]) -> bool
    ensures { result ≡ has_attribute queue_attribute_name name.now attributes.now }
{
    for attribute in attributes {
        if attribute.name() == name {
            return true;
        }
    }
    false
}

/// Whether a client may ask for an attribute of a queue by the name.
pub(crate) fn is_queue_name(name: &str) -> bool
    ensures { result ≡ is_queue_name name.now }
{
    name == "All" || has_queue_attribute(name, all_queue_attributes()) || is_ignored(name)
}

/// Whether a client may ask for attributes of a queue by these names.
fn are_queue_names(names: &[Value]) -> bool
    ensures { result ≡ are_known is_queue_name (items_view names.now) }
{
    for name in names {
        if !is_queue_name(name_text(name)) {
            return false;
        }
    }
    true
}

/// Those of these attributes that a list of names asks for.
fn queue_attributes_for(
    alloc: Global,
    names: &[Value],
    attributes: &[QueueAttribute],
) -> Result<Listed<QueueAttribute>, Fault>
    ensures { Meets result
        (Ok (attributes_for queue_attribute_name (asks_for (items_view names.now)) attributes.now)) }
{
    let mut asked = Listed::empty(alloc);
    for attribute in attributes {
        if asks_for(names, attribute.name()) {
            asked.push(alloc, *attribute)?;
        }
    }
    Ok(asked)
}

/// The attributes of a queue that a list of names asks for.
fn asked_attributes_of(alloc: Global, names: &[Value]) -> Result<AttributeNames, Fault>
    ensures { Meets result (asked_attributes_of (items_view names.now)) }
{
    if !are_queue_names(names) {
        return Err(Fault::InvalidAttributeName);
    }
    let asked = queue_attributes_for(alloc, names, all_queue_attributes())?;
    Ok(AttributeNames { asked })
}

/// The same, where the list has any name.
pub(crate) fn asked_attribute_names(
    alloc: Global,
    names: Option<&[Value]>,
) -> Result<Option<AttributeNames>, Fault>
    ensures { Meets result (asked_attribute_names (option_map (λ items. items_view items.now) names.entry)) }
{
    match names {
        Some(items) if !items.is_empty() => Ok(Some(asked_attributes_of(alloc, items)?)),
        _ => Ok(None),
    }
}

/// Whether one of these attributes has the name.
fn has_system_attribute(name: &str, attributes: &[SystemAttribute]) -> bool
    ensures { result ≡ has_attribute system_attribute_name name.now attributes.now }
{
    for attribute in attributes {
        if attribute.name() == name {
            return true;
        }
    }
    false
}

/// Whether the attribute is one that is accepted and not answered.
fn is_unanswered(name: &str) -> bool
    ensures { result ≡ is_unanswered name.now }
{
    name == "SequenceNumber"
        || name == "MessageDeduplicationId"
        || name == "MessageGroupId"
        || name == "AWSTraceHeader"
}

/// Whether a client may ask for an attribute of a message by the name.
pub(crate) fn is_system_name(name: &str) -> bool
    ensures { result ≡ is_system_name name.now }
{
    name == "All" || has_system_attribute(name, all_system_attributes()) || is_unanswered(name)
}

/// Whether a client may ask for attributes of messages by these names.
fn are_system_names(names: &[Value]) -> bool
    ensures { result ≡ are_known is_system_name (items_view names.now) }
{
    for name in names {
        if !is_system_name(name_text(name)) {
            return false;
        }
    }
    true
}

/// Those of these attributes that either list of names asks for.
fn system_attributes_for(
    alloc: Global,
    names: &[Value],
    more: &[Value],
    attributes: &[SystemAttribute],
) -> Result<Listed<SystemAttribute>, Fault>
    ensures { Meets result
        (Ok (attributes_for system_attribute_name
        (either_asks_for (items_view names.now) (items_view more.now)) attributes.now)) }
{
    let mut asked = Listed::empty(alloc);
    for attribute in attributes {
        if asks_for(names, attribute.name()) || asks_for(more, attribute.name()) {
            asked.push(alloc, *attribute)?;
        }
    }
    Ok(asked)
}

/// The attributes of messages that two lists of names ask for.
fn asked_names_of(alloc: Global, names: &[Value], more: &[Value]) -> Result<ReceiveNames, Fault>
    ensures { Meets result (asked_names_of (items_view names.now) (items_view more.now)) }
{
    if !(are_system_names(names) && are_system_names(more)) {
        return Err(Fault::InvalidAttributeName);
    }
    let asked = system_attributes_for(alloc, names, more, all_system_attributes())?;
    Ok(ReceiveNames { asked })
}

/// The names of a list that may be absent.
fn or_no_items(names: Option<&[Value]>) -> &[Value]
    ensures { items_view result.now ≡ or_no_items (option_map (λ items. items_view items.now) names.entry) }
{
    names.unwrap_or(&[])
}

/// The attributes of messages that a receive asks for, in one list or the other.
pub(crate) fn asked_names(alloc: Global, body: &Value) -> Result<ReceiveNames, Fault>
    ensures { Meets result (asked_names (view body.now)) }
{
    let names = or_no_items(items_in(body, "AttributeNames"));
    let more = or_no_items(items_in(body, "MessageSystemAttributeNames"));
    asked_names_of(alloc, names, more)
}

/// The names of message attributes in a list that may be absent, as they are given.
pub(crate) fn asked_patterns(alloc: Global, names: Option<&[Value]>) -> Result<Patterns, Fault>
    ensures { Meets result
        (Ok (patterns_of (or_no_items (option_map (λ items. items_view items.now) names.entry)))) }
{
    patterns_of(alloc, or_no_items(names))
}

/// The names of message attributes in a list, as they are given.
fn patterns_of(alloc: Global, names: &[Value]) -> Result<Patterns, Fault>
    ensures { Meets result (Ok (patterns_of (items_view names.now))) }
{
    let mut patterns = Listed::empty(alloc);
    for name in names {
        patterns.push(alloc, Text::new(alloc, name_text(name))?)?;
    }
    Ok(patterns)
}
