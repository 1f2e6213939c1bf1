//! Members that are judged by themselves: the queue, numbers, handles, and lists of names.

use crate::actions::maximum_given;
use crate::attribute_names::{is_queue_name, is_system_name, name_text};
use crate::entries::{given_handle, required_timeout as judged_timeout, timeout_within};
use crate::explanation::words::{Looked, found, missing, quoted, range, unwanted};
use crate::members::{items_in, number_in, text_in, within};
use crate::named_queue::{known_name, name_part, named_queue, new_name};
use queue_config::{Setting, setting_row};
use queue_core::{LONGEST_TIMEOUT, MOST_OFFERS};
use serde_json::Value;
use std::alloc::Global;

/// What the name of a queue and the id of an entry have to be.
pub(super) const NAME_WANTED: &str = "1 to 80 ASCII letters, digits, - and _ are";

/// What is said beside a name by which FIFO queues are known.
const NO_FIFO: &str = " (there are no FIFO queues)";

/// Says what is wrong with a name that is no queue's.
pub(super) fn no_name(alloc: Global, place: &str, name: &str) -> Looked {
    let note = if name.ends_with(".fifo") { NO_FIFO } else { "" };
    let name = quoted(alloc, name)?;
    found(format!(in alloc; "{place} is {name}, and {NAME_WANTED} wanted{note}"))
}

/// Looks at the `QueueUrl`.
pub(super) fn look_at_queue(alloc: Global, body: &Value) -> Looked {
    let url = text_in(body, "QueueUrl");
    match (named_queue(url), url) {
        (Ok(_), _) => Ok(()),
        (Err(_), None) => missing(alloc, "", "QueueUrl", body),
        (Err(_), Some(url)) => no_name(alloc, "The name in QueueUrl", name_part(url)),
    }
}

/// Looks at the name of a new queue.
pub(super) fn look_at_new_queue(alloc: Global, body: &Value) -> Looked {
    let name = text_in(body, "QueueName");
    match (new_name(name), name) {
        (Ok(_), _) => Ok(()),
        (Err(_), None) => missing(alloc, "", "QueueName", body),
        (Err(_), Some(name)) => no_name(alloc, "QueueName", name),
    }
}

/// Looks at the name of a queue that is looked for.
pub(super) fn look_at_known_queue(alloc: Global, body: &Value) -> Looked {
    let name = text_in(body, "QueueName");
    match (known_name(name), name) {
        (Ok(_), _) => Ok(()),
        (Err(_), None) => missing(alloc, "", "QueueName", body),
        (Err(_), Some(name)) => no_name(alloc, "QueueName", name),
    }
}

/// Looks at the handle of a receive.
pub(super) fn look_at_handle(alloc: Global, before: &str, object: &Value) -> Looked {
    let text = text_in(object, "ReceiptHandle");
    match (given_handle(text), text) {
        (Ok(_), _) => Ok(()),
        (Err(_), None) => missing(alloc, before, "ReceiptHandle", object),
        (Err(_), Some(_)) => found(format!(in alloc;
            "{before}ReceiptHandle is not one of this server, where each has 48 characters, 0 to 9 and a to f"
        )),
    }
}

/// Says that a number is out of its range, or not there.
pub(super) fn out_of_range(
    alloc: Global,
    before: &str,
    name: &str,
    object: &Value,
    least: u64,
    most: u64,
) -> Looked {
    match (number_in(object, name), object.get(name)) {
        (Some(_), Some(value)) => {
            let place = format!(in alloc; "{before}{name}")?;
            let wanted = range(alloc, least, most)?;
            let wanted = format!(in alloc; "{wanted} is")?;
            unwanted(alloc, place.as_str(), value, wanted.as_str())
        }
        _ => missing(alloc, before, name, object),
    }
}

/// Looks at a timeout that has to be there.
pub(super) fn look_at_timeout(alloc: Global, before: &str, object: &Value) -> Looked {
    let name = "VisibilityTimeout";
    match judged_timeout(number_in(object, name)) {
        Ok(_) => Ok(()),
        Err(_) => out_of_range(alloc, before, name, object, 0, u64::from(LONGEST_TIMEOUT)),
    }
}

/// Looks at the numbers of a receive.
pub(super) fn look_at_numbers(alloc: Global, body: &Value) -> Looked {
    let name = "MaxNumberOfMessages";
    if maximum_given(number_in(body, name)).is_err() {
        return out_of_range(alloc, "", name, body, 1, u64::from(MOST_OFFERS));
    }
    let name = "VisibilityTimeout";
    if timeout_within(number_in(body, name)).is_err() {
        return out_of_range(alloc, "", name, body, 0, u64::from(LONGEST_TIMEOUT));
    }
    let name = "WaitTimeSeconds";
    let longest = u64::from(setting_row(Setting::ReceiveMessageWaitTimeSeconds).most);
    if within(0, longest, number_in(body, name)).is_err() {
        return out_of_range(alloc, "", name, body, 0, longest);
    }
    Ok(())
}

/// Says that a list or an object has a name that is not known.
pub(super) fn unknown(alloc: Global, place: &str, name: &str) -> Looked {
    let note = if name == "FifoQueue" { NO_FIFO } else { "" };
    let name = quoted(alloc, name)?;
    found(format!(in alloc; "{place} has the unknown name {name}{note}"))
}

/// Looks at the names of a queue's attributes.
pub(super) fn look_at_attribute_names(alloc: Global, body: &Value) -> Looked {
    let Some(names) = items_in(body, "AttributeNames") else {
        return Ok(());
    };
    for name in names {
        if !is_queue_name(name_text(name)) {
            return unknown(alloc, "AttributeNames", name_text(name));
        }
    }
    Ok(())
}

/// Looks at the names of what a queue says of its messages, in both lists.
pub(super) fn look_at_system_names(alloc: Global, body: &Value) -> Looked {
    for list in ["AttributeNames", "MessageSystemAttributeNames"] {
        for name in items_in(body, list).unwrap_or(&[]) {
            if !is_system_name(name_text(name)) {
                return unknown(alloc, list, name_text(name));
            }
        }
    }
    Ok(())
}
