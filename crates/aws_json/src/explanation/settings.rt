//! The attributes that a creation or a change of settings requests.

use crate::explanation::single::unknown;
use crate::explanation::words::{
    Finding, Looked, found, inside, kind_of, missing, range, unwanted,
};
use crate::members::members_in;
use message::Fault;
use queue_config::{Setting, Wish, setting_named, setting_row};
use serde_json::{Category, Map, Value};
use std::alloc::{AllocError, Global};

/// The place of a policy in a body.
const POLICY: &str = "Attributes.RedrivePolicy";

/// Looks at attributes that have to be there.
pub(super) fn look_at_settings(alloc: Global, body: &Value) -> Looked {
    match members_in(body, "Attributes") {
        Some(members) => look_at_each_setting(alloc, members),
        None => missing(alloc, "", "Attributes", body),
    }
}

/// The same where they may be absent.
pub(super) fn look_at_given_settings(alloc: Global, body: &Value) -> Looked {
    match members_in(body, "Attributes") {
        Some(members) => look_at_each_setting(alloc, members),
        None => Ok(()),
    }
}

/// Looks at one attribute after another.
fn look_at_each_setting(alloc: Global, members: &Map<String, Value>) -> Looked {
    for (name, value) in members {
        if let Some(text) = value.as_str() {
            look_at_setting(alloc, name.as_str(), text)?;
        }
    }
    Ok(())
}

/// What is wrong with an attribute, as a request judges it.
fn fault_of(alloc: Global, name: &str, text: &str) -> Result<Option<Fault>, AllocError> {
    match Wish::new().put(alloc, name, text) {
        Ok(()) => Ok(None),
        Err(Fault::OutOfMemory) => Err(AllocError),
        Err(fault) => Ok(Some(fault)),
    }
}

/// Looks at an attribute.
fn look_at_setting(alloc: Global, name: &str, text: &str) -> Looked {
    match (fault_of(alloc, name, text)?, setting_named(name)) {
        (None, _) => Ok(()),
        (Some(Fault::InvalidAttributeName), _) => unknown(alloc, "Attributes", name),
        (Some(_), Some(setting)) => number(alloc, setting, text),
        (Some(_), None) => policy(alloc, text),
    }
}

/// Whether a text has the form of a number: 1 to 9 digits.
fn is_number(text: &str) -> bool {
    !text.is_empty() && text.len() <= 9 && text.bytes().all(|byte| byte.is_ascii_digit())
}

/// Says what is wrong with the text of a number: its form, or else its range alone.
fn number(alloc: Global, setting: Setting, text: &str) -> Looked {
    let row = setting_row(setting);
    let place = inside(alloc, "Attributes", row.name)?;
    let range = range(alloc, u64::from(row.least), u64::from(row.most))?;
    let form = if is_number(text) {
        ""
    } else {
        ", in 1 to 9 digits,"
    };
    let wanted = format!(in alloc; "{range}{form} is")?;
    let value = Value::String(String::from_str(alloc, text)?);
    unwanted(alloc, place.as_str(), &value, wanted.as_str())
}

/// Says what is wrong with the text of a policy.
fn policy(alloc: Global, text: &str) -> Looked {
    let object = match Value::from_str(alloc, text) {
        Ok(object) => object,
        Err(error) => {
            return match error.classify() {
                Category::Memory => Err(Finding::OutOfMemory),
                _ => no_json(alloc, error.line(), error.column()),
            };
        }
    };
    if !object.is_object() {
        let kind = kind_of(&object);
        return found(format!(in alloc;
            "{POLICY} is the JSON of {kind}, and that of an object is wanted"
        ));
    }
    look_at_target(alloc, &object)?;
    receive_count(alloc, &object)
}

/// Says where the text of a policy is no JSON.
fn no_json(alloc: Global, line: usize, column: usize) -> Looked {
    found(format!(in alloc;
        "{POLICY} is no JSON: it cannot be read at line {line}, column {column}"
    ))
}

/// Looks at the dead-letter queue of a policy, by a policy that is right but for it.
fn look_at_target(alloc: Global, policy: &Value) -> Looked {
    let name = "deadLetterTargetArn";
    let value = match policy.get(name) {
        Some(value) if !value.is_null() => value,
        _ => return missing(alloc, "Attributes.RedrivePolicy.", name, policy),
    };
    let arn = value.to_string(alloc)?;
    let text = format!(in alloc; "{{\"deadLetterTargetArn\":{arn},\"maxReceiveCount\":1}}")?;
    if fault_of(alloc, "RedrivePolicy", text.as_str())?.is_none() {
        return Ok(());
    }
    let place = inside(alloc, POLICY, name)?;
    let wanted = "arn:aws:sqs:REGION:ACCOUNT:NAME with the name of a queue is";
    unwanted(alloc, place.as_str(), value, wanted)
}

/// Says what is wrong with the number of receives of a policy whose dead-letter queue is right.
fn receive_count(alloc: Global, policy: &Value) -> Looked {
    let name = "maxReceiveCount";
    let value = match policy.get(name) {
        Some(value) if !value.is_null() => value,
        _ => return missing(alloc, "Attributes.RedrivePolicy.", name, policy),
    };
    let place = inside(alloc, POLICY, name)?;
    let wanted = "a whole number of 1 to 1,000, or its 1 to 4 digits as a string, is";
    unwanted(alloc, place.as_str(), value, wanted)
}
