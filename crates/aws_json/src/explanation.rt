//! What was wrong with a request that was refused, in words for the developer who sent it.
//!
//! [`explain`] reads the request once more, as [`parse`](crate::parse) does. Where `parse` refuses it,
//! the words name the member that it refused, which the functions that judge it judge again here, one
//! member after another. Where a queue refused it, they say what can be said from the request and the
//! refusal alone. A place in the body is written as in `Entries[2].MessageAttributes.colour.DataType`,
//! where the items of a list count from 0.

ghost use Rattle.std.specs.Prelude.{◌≤◌, IfOk, length, string_bytes};
ghost use Rattle.std.specs.Char.{is_control};
ghost use Rattle.std.specs.Str.{NoCharPasses};

mod batches;
mod kinds;
mod later;
mod sent;
mod settings;
mod single;
mod words;

use crate::actions::{Action, action_named, parse};
use crate::explanation::batches::look_at_entries;
use crate::explanation::kinds::{look_at_kinds, object_of};
use crate::explanation::later::refused_later;
use crate::explanation::sent::look_at_message;
use crate::explanation::settings::{look_at_given_settings, look_at_settings};
use crate::explanation::single::{
    look_at_attribute_names, look_at_handle, look_at_known_queue, look_at_new_queue,
    look_at_numbers, look_at_queue, look_at_system_names, look_at_timeout,
};
use crate::explanation::words::{Finding, LONGEST_WORDS, Looked, found, quoted};
use message::Fault;
use serde_json::Value;
use std::alloc::{AllocError, Global};

/// Looks at the members of an action in the order in which they are judged, for the first that is
/// refused.
fn members(alloc: Global, action: Action, body: &Value) -> Looked {
    match action {
        Action::CreateQueue => {
            look_at_new_queue(alloc, body)?;
            look_at_given_settings(alloc, body)
        }
        Action::GetQueueUrl => look_at_known_queue(alloc, body),
        Action::ListQueues => Ok(()),
        _ => {
            look_at_queue(alloc, body)?;
            members_of_queue(alloc, action, body)
        }
    }
}

/// The same of an action on a queue, behind the queue.
fn members_of_queue(alloc: Global, action: Action, body: &Value) -> Looked {
    match action {
        Action::SetQueueAttributes => look_at_settings(alloc, body),
        Action::GetQueueAttributes => look_at_attribute_names(alloc, body),
        Action::SendMessage => look_at_message(alloc, "", body),
        Action::ReceiveMessage => {
            look_at_numbers(alloc, body)?;
            look_at_system_names(alloc, body)
        }
        Action::DeleteMessage => look_at_handle(alloc, "", body),
        Action::ChangeMessageVisibility => {
            look_at_handle(alloc, "", body)?;
            look_at_timeout(alloc, "", body)
        }
        Action::Batch(kind) => look_at_entries(alloc, kind, body),
        _ => Ok(()),
    }
}

/// Looks for what `parse` refuses of a request, in its order.
fn refused(alloc: Global, action: &str, body: &[u8]) -> Looked {
    let Some(action) = action_named(action) else {
        return unserved(alloc, action);
    };
    let body = object_of(alloc, body)?;
    look_at_kinds(alloc, action, &body)?;
    members(alloc, action, &body)
}

/// What is said where no action is named.
const NO_ACTION: &str =
    "X-Amz-Target is missing, or names no action of AmazonSQS; SDKs from before November 2023 do not send it";

/// Says that an action is not served.
fn unserved(alloc: Global, action: &str) -> Looked {
    if action.is_empty() {
        return found(String::from_str(alloc, NO_ACTION));
    }
    let action = quoted(alloc, action)?;
    found(format!(in alloc; "The action {action} is not served"))
}

/// What is said where memory was refused.
fn words_for_want_of_memory(action: &str) -> &'static str {
    match action {
        "CreateQueue" => {
            "Memory was refused to the server, or the thread of the new queue could not be started"
        }
        _ => "Memory was refused to the server while it worked at the request",
    }
}

/// Looks for what a request was refused for. Where `parse` gives another refusal, or none and nothing
/// is known of this one, nothing is found.
fn reason(alloc: Global, action: &str, body: &[u8], fault: Fault) -> Looked {
    if fault == Fault::OutOfMemory {
        return found(String::from_str(alloc, words_for_want_of_memory(action)));
    }
    match parse(alloc, action, body) {
        Err(Fault::OutOfMemory) => Err(Finding::OutOfMemory),
        Err(first) if first == fault => refused(alloc, action, body),
        Err(_) => Ok(()),
        Ok(request) => match action_named(action) {
            Some(action) => refused_later(alloc, action, &request, body, fault),
            None => Ok(()),
        },
    }
}

/// The words for a refusal; those of the table of refusals where nothing is found.
fn words_of(alloc: Global, action: &str, body: &[u8], fault: Fault) -> Result<String, AllocError> {
    match reason(alloc, action, body, fault) {
        Ok(()) => String::from_str(alloc, fault.text()),
        Err(Finding::Words(words)) => Ok(words),
        Err(Finding::OutOfMemory) => Err(AllocError),
    }
}

/// As much of the words as may be sent, without control characters.
fn cut(alloc: Global, words: &str) -> Result<String, AllocError>
    ensures short { IfOk result (λ text. length (string_bytes text) ≤ 400) }
    ensures plain { IfOk result (λ text. NoCharPasses is_control (string_bytes text)) }
{
    let mut text = String::new(alloc);
    for character in words.chars() {
        if character.is_control() {
            continue;
        }
        if text.len() + character.len_utf8() <= LONGEST_WORDS {
            text.push(character)?;
        }
    }
    Ok(text)
}

/// What was wrong with a request that was refused by this fault, in words. They name the member that
/// `parse` refused, or else the member that the refusal is about, and are those of the table of refusals
/// where the request cannot have been refused so. Of what a client sent they quote at most two texts,
/// each cut off behind some 60 bytes.
///
/// Where a batch was read, the fault may be that of an entry: then the words are of the first entry that
/// has it in reading, or else of what a queue refuses so.
pub fn explain(alloc: Global, action: &str, body: &[u8], fault: Fault) -> Result<String, AllocError>
    ensures short { IfOk result (λ text. length (string_bytes text) ≤ 400) }
    ensures plain { IfOk result (λ text. NoCharPasses is_control (string_bytes text)) }
{
    let words = words_of(alloc, action, body, fault)?;
    cut(alloc, words.as_str())
}
