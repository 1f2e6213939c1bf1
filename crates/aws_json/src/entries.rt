//! What is sent, changed and deleted, singly or as the entries of a batch. Which fault is which, and
//! the order in which they are judged, is this project's own choice.

ghost use Rattle.std.specs.Prelude.{◌≡◌, nat_lt, Ok, Some, option_map, sum_by};
ghost use Rattle.message.specs.Fault.{Meets};
ghost use Rattle.queue_core.specs.Ranges.{longest_delay, longest_timeout};
ghost use Rattle.serde_json.specs.View.{view, items_view, members_view};
ghost use Rattle.aws_json.specs.Attributes.{text_or_empty, bytes_of_base64, attribute_given, attributes_given};
ghost use Rattle.aws_json.specs.Entries.{message_columns, given_body, message_given, given_handle, required_within, entry_columns, entry_command, entry_id, entry_of, entries_of, has_id, have_equal_ids, entry_size, checked_entries, item_count, batch_of, are_entries, entries_have_kinds};
ghost use Rattle.aws_json.specs.Members.{within, have_kinds};
ghost use Rattle.aws_json.specs.Steps.{result_map};

use crate::batch::{BatchEntry, Entries, EntryKind, GivenMessage};
use crate::members::{Kind, have_kinds, members_in, number_in, text_in, within};
use base64::DecodeAllocError;
use base64::engine::general_purpose::STANDARD;
use message::{Attribute, AttributeValue, Content, Fault, QueueName, body_fault, is_binary_type};
use queue_core::{Command, Delay, LONGEST_DELAY, LONGEST_TIMEOUT, Timeout};
use receipt_handle::Handle;
use serde_json::{Map, Value};
use std::alloc::Global;

/// How many entries a batch has at most (Amazon SQS API Reference, `SendMessageBatch`).
pub(crate) const MOST_ENTRIES: usize = 10;

/// How many bytes a batch sends at most (Amazon SQS API Reference, `SendMessageBatch`).
pub(crate) const LONGEST_BATCH: u64 = 1_048_576;

/// The name of an entry in its batch.
const ID: (&str, Kind) = ("Id", Kind::Text);

/// The handle of a receive.
const HANDLE: (&str, Kind) = ("ReceiptHandle", Kind::Text);

/// How long a message stays in flight, in seconds.
const TIMEOUT: (&str, Kind) = ("VisibilityTimeout", Kind::Number);

/// A member's text; one that is missing counts as empty.
fn text_or_empty<'v>(name: &str, body: &'v Value) -> &'v str
    ensures { result.now ≡ text_or_empty name.now (view body.now) }
{
    match text_in(body, name) {
        Some(text) => text,
        None => "",
    }
}

/// The bytes that a text is the base64 of; none where it is of no bytes.
fn bytes_of_base64(alloc: Global, text: &str) -> Result<Vec<u8>, Fault>
    ensures { Meets (result_map (λ bytes. bytes.items) result) (Ok (bytes_of_base64 text.now)) }
{
    match STANDARD.decode(alloc, text.as_bytes()) {
        Ok(bytes) => Ok(bytes),
        Err(DecodeAllocError::OutOfMemory) => Err(Fault::OutOfMemory),
        Err(_) => Ok(Vec::new(alloc)),
    }
}

/// A message attribute as it is given, which `Content::new` judges.
pub(crate) fn attribute_given(alloc: Global, name: &str, body: &Value) -> Result<Attribute, Fault>
    ensures { Meets result (Ok (attribute_given name.now (view body.now))) }
{
    let kind = text_or_empty("DataType", body);
    let value = if is_binary_type(kind) {
        AttributeValue::Binary(bytes_of_base64(alloc, text_or_empty("BinaryValue", body))?)
    } else {
        AttributeValue::Text(String::from_str(alloc, text_or_empty("StringValue", body))?)
    };
    let name = String::from_str(alloc, name)?;
    let kind = String::from_str(alloc, kind)?;
    Ok(Attribute { name, kind, value })
}

/// The attributes of an object, of which a null is none.
fn attributes_given(alloc: Global, members: &Map<String, Value>) -> Result<Vec<Attribute>, Fault>
    ensures { Meets (result_map (λ attributes. attributes.items) result)
        (Ok (attributes_given (members_view members.now.entries))) }
{
    let mut attributes = Vec::new(alloc);
    for (name, value) in members {
        if !value.is_null() {
            attributes.push(attribute_given(alloc, name.as_str(), value)?)?;
        }
    }
    Ok(attributes)
}

/// The text of a body, which has to be there and to be one.
pub(crate) fn given_body(text: Option<&str>) -> Result<&str, Fault>
    ensures { result_map (λ s. s.now) result ≡ given_body (option_map (λ s. s.now) text.entry) }
{
    let text = text.ok_or(Fault::InvalidParameterValue)?;
    match body_fault(text) {
        None => Ok(text),
        Some(fault) => Err(fault),
    }
}

/// A delay in seconds, where there is one.
pub(crate) fn delay_within(number: Option<Option<u64>>) -> Result<Option<Delay>, Fault>
    ensures { result ≡ within 0 longest_delay number }
{
    match within(0, u64::from(LONGEST_DELAY), number)? {
        Some(seconds) => match Delay::new(seconds as u16) {
            Some(delay) => Ok(Some(delay)),
            None => Err(Fault::InvalidParameterValue),
        },
        None => Ok(None),
    }
}

/// A visibility timeout in seconds, where there is one.
pub(crate) fn timeout_within(number: Option<Option<u64>>) -> Result<Option<Timeout>, Fault>
    ensures { result ≡ within 0 longest_timeout number }
{
    match within(0, u64::from(LONGEST_TIMEOUT), number)? {
        Some(seconds) => match Timeout::new(seconds as u32) {
            Some(timeout) => Ok(Some(timeout)),
            None => Err(Fault::InvalidParameterValue),
        },
        None => Ok(None),
    }
}

/// A visibility timeout in seconds, which has to be there.
pub(crate) fn required_timeout(number: Option<Option<u64>>) -> Result<Timeout, Fault>
    ensures { result ≡ required_within 0 longest_timeout number }
{
    timeout_within(number)?.ok_or(Fault::InvalidParameterValue)
}

/// The handle of a receive. It has to be there.
pub(crate) fn given_handle(text: Option<&str>) -> Result<Handle, Fault>
    ensures { result ≡ given_handle (option_map (λ s. s.now) text.entry) }
{
    let text = text.ok_or(Fault::InvalidParameterValue)?;
    Handle::read(text)
}

/// What is to be sent: the body is judged before the delay, and the delay before the attributes.
pub(crate) fn message_given(alloc: Global, body: &Value) -> Result<GivenMessage, Fault>
    ensures { Meets result (message_given (view body.now)) }
{
    let text = given_body(text_in(body, "MessageBody"))?;
    let delay = delay_within(number_in(body, "DelaySeconds"))?;
    let attributes = match members_in(body, "MessageAttributes") {
        Some(members) => attributes_given(alloc, members)?,
        None => Vec::new(alloc),
    };
    let content = Content::new(alloc, String::from_str(alloc, text)?, attributes)?;
    Ok(GivenMessage { content, delay })
}

/// Whether the members that tell of a message to be sent have their kinds.
fn has_message_kinds(body: &Value) -> bool
    ensures { result ≡ have_kinds message_columns (view body.now) }
{
    have_kinds(
        body,
        &[
            ("MessageBody", Kind::Text),
            ("DelaySeconds", Kind::Number),
            ("MessageAttributes", Kind::MessageAttributes),
        ],
    )
}

/// Whether the members that an entry knows have their kinds.
fn has_entry_kinds(kind: EntryKind, entry: &Value) -> bool
    ensures { result ≡ have_kinds (entry_columns kind) (view entry.now) }
{
    match kind {
        EntryKind::Send => have_kinds(entry, &[ID]) && has_message_kinds(entry),
        EntryKind::Delete => have_kinds(entry, &[ID, HANDLE]),
        EntryKind::Change => have_kinds(entry, &[ID, HANDLE, TIMEOUT]),
    }
}

/// Whether each item is an object whose members have their kinds.
fn are_entries(kind: EntryKind, items: &[Value]) -> bool
    ensures { result ≡ are_entries kind (items_view items.now) }
{
    for item in items {
        if !(item.is_object() && has_entry_kinds(kind, item)) {
            return false;
        }
    }
    true
}

/// Whether the entries of a batch have their kinds, as far as they are there.
pub(crate) fn entries_have_kinds(kind: EntryKind, body: &Value) -> bool
    ensures { result ≡ entries_have_kinds (Some kind) (view body.now) }
{
    match body.get("Entries") {
        Some(value) => match value.as_array() {
            Some(items) => are_entries(kind, items),
            None => value.is_null(),
        },
        None => true,
    }
}

/// A change of visibility.
fn change_given(entry: &Value) -> Result<Command, Fault>
    ensures { result ≡ entry_command EntryKind.Change (view entry.now) }
{
    let handle = given_handle(text_in(entry, "ReceiptHandle"))?;
    let timeout = required_timeout(number_in(entry, "VisibilityTimeout"))?;
    Ok(Command::Change { handle, timeout })
}

/// What an entry asks of the queue, or its first fault.
fn entry_command(alloc: Global, kind: EntryKind, entry: &Value) -> Result<Command, Fault>
    ensures { Meets result (entry_command kind (view entry.now)) }
{
    match kind {
        EntryKind::Send => {
            let GivenMessage { content, delay } = message_given(alloc, entry)?;
            Ok(Command::Send { content, delay })
        }
        EntryKind::Delete => {
            let handle = given_handle(text_in(entry, "ReceiptHandle"))?;
            Ok(Command::Delete { handle })
        }
        EntryKind::Change => change_given(entry),
    }
}

/// An entry's id, which has to be there and is of the form of a queue's name.
pub(crate) fn entry_id(text: Option<&str>) -> Result<QueueName, Fault>
    ensures { result ≡ entry_id (option_map (λ s. s.now) text.entry) }
{
    match text {
        Some(text) => match QueueName::read(text) {
            Ok(id) => Ok(id),
            Err(_) => Err(Fault::InvalidBatchEntryId),
        },
        None => Err(Fault::InvalidBatchEntryId),
    }
}

/// An entry with its id; a fault of its own is kept with it.
fn entry_of(alloc: Global, kind: EntryKind, item: &Value) -> Result<BatchEntry, Fault>
    ensures { Meets result (entry_of kind (view item.now)) }
{
    let id = entry_id(text_in(item, "Id"))?;
    match entry_command(alloc, kind, item) {
        Err(Fault::OutOfMemory) => Err(Fault::OutOfMemory),
        command => Ok(BatchEntry { id, command }),
    }
}

/// The entries, or that an id is missing or not one.
pub(crate) fn entries_of(alloc: Global, kind: EntryKind, items: &[Value]) -> Result<Entries, Fault>
    ensures { Meets result (entries_of kind (items_view items.now)) }
{
    let mut entries = Entries::empty(alloc);
    for item in items {
        let entry = entry_of(alloc, kind, item)?;
        entries.push(alloc, entry)?;
    }
    Ok(entries)
}

/// Whether an entry of this id is among these.
fn has_id(id: &QueueName, entries: &[BatchEntry]) -> bool
    ensures { result ≡ has_id id.now entries.now }
{
    for entry in entries {
        if entry.id.as_text() == id.as_text() {
            return true;
        }
    }
    false
}

/// Whether two have one id.
fn have_equal_ids(entries: &[BatchEntry]) -> bool
    ensures { result ≡ have_equal_ids entries.now }
{
    for (place, entry) in entries.iter().enumerate() {
        if has_id(&entry.id, &entries[place + 1..]) {
            return true;
        }
    }
    false
}

/// How many bytes an entry sends; an entry with a fault of its own sends none.
pub(crate) fn entry_size(entry: &BatchEntry) -> u64
    ensures { result ≡ entry_size entry.now }
{
    match &entry.command {
        Ok(Command::Send { content, .. }) => content.size(),
        _ => 0,
    }
}

/// Whether the entries together send more than a batch may.
fn is_too_long(entries: &[BatchEntry]) -> bool
    ensures { result ≡ nat_lt 1048576 (sum_by entry_size entries.now) }
{
    let mut left = LONGEST_BATCH;
    for entry in entries {
        let size = entry_size(entry);
        if left < size {
            return true;
        }
        left -= size;
    }
    false
}

/// The entries, where each has an id of its own and they are not too long together.
fn checked_entries(entries: Entries) -> Result<Entries, Fault>
    ensures { result ≡ checked_entries entries }
{
    if have_equal_ids(entries.as_slice()) {
        return Err(Fault::BatchEntryIdsNotDistinct);
    }
    if is_too_long(entries.as_slice()) {
        return Err(Fault::BatchRequestTooLong);
    }
    Ok(entries)
}

/// How many items there are.
fn item_count(items: &[Value]) -> usize
    ensures { result ≡ item_count (items_view items.now) }
{
    items.len()
}

/// The entries of a batch, or what is wrong with the whole of it.
pub(crate) fn batch_of(alloc: Global, kind: EntryKind, items: &[Value]) -> Result<Entries, Fault>
    ensures { Meets result (batch_of kind (items_view items.now)) }
{
    if item_count(items) == 0 {
        return Err(Fault::EmptyBatchRequest);
    }
    if MOST_ENTRIES < item_count(items) {
        return Err(Fault::TooManyEntriesInBatchRequest);
    }
    let entries = entries_of(alloc, kind, items)?;
    checked_entries(entries)
}
