//! The messages that a receive offers, as JSON (Amazon SQS API Reference, `ReceiveMessage`).

ghost use Rattle.std.specs.Prelude.{◌≡◌, Ok, OnOk, IfErr, codes, is_some, option_map, string_bytes};
ghost use Rattle.base64.specs.Engines.{standard};
ghost use Rattle.base64.specs.GeneralPurpose.{encode_of};
ghost use Rattle.message.specs.Fault.{Meets};
ghost use Rattle.message.specs.declared.fault.Fault.TheVariants.{OutOfMemory};
ghost use Rattle.serde_json.specs.Data.{string, object, no_members, member};
ghost use Rattle.serde_json.specs.View.{view, items_view, members_view};
ghost use Rattle.aws_json.specs.Attributes.{asked_attributes};
ghost use Rattle.aws_json.specs.Steps.{result_map};
ghost use Rattle.aws_json.specs.Reply.{put_attributes_given, put_offer, system_attribute_text, put_system_attributes, has_some, attribute_data, put_attributes, handle_of_offer, message_data, message_items, messages_data};

use crate::attribute_names::SystemAttribute;
use crate::put::{put_given, put_text, put_value};
use crate::queue_reply::{decimal, queue_arn};
use crate::request::ReceiveNames;
use crate::selection::Patterns;
use attribute_md5::{body_md5, list_md5};
use base64::engine::general_purpose::STANDARD;
use message::{Attribute, AttributeValue, Fault};
use queue_core::Offer;
use receipt_handle::Handle;
use serde_json::{Map, Value, json};
use std::alloc::Global;

/// An attribute that a queue gives a message, where the offer has it.
fn system_attribute_text(
    alloc: Global,
    offer: &Offer,
    attribute: SystemAttribute,
) -> Result<Option<String>, Fault>
    ensures { Meets (result_map (λ text. option_map (λ s. string_bytes s) text) result)
        (Ok (system_attribute_text offer.now attribute)) }
{
    let text = match attribute {
        SystemAttribute::FirstReceive => decimal(alloc, offer.first_receive.milliseconds())?,
        SystemAttribute::ReceiveCount => decimal(alloc, offer.receipt)?,
        SystemAttribute::Source => match &offer.source {
            Some(queue) => queue_arn(alloc, queue)?,
            None => return Ok(None),
        },
        SystemAttribute::Sender => String::from_str(alloc, "000000000000")?,
        SystemAttribute::Sent => decimal(alloc, offer.sent.milliseconds())?,
    };
    Ok(Some(text))
}

/// An object of these attributes of an offer, as far as it has them, each under its name.
fn system_attributes(
    alloc: Global,
    offer: &Offer,
    attributes: &[SystemAttribute],
) -> Result<Value, Fault>
    ensures { Meets (result_map view result)
        (Ok (object (put_system_attributes offer.now no_members attributes.now))) }
{
    let mut members = Map::new(alloc);
    for attribute in attributes {
        let text = system_attribute_text(alloc, offer, *attribute)?;
        put_given(alloc, &mut members, attribute.name(), text.as_deref())?;
    }
    Ok(Value::Object(members))
}

/// The attributes that are asked for, once more.
fn asked_attributes(
    alloc: Global,
    patterns: &Patterns,
    attributes: &[Attribute],
) -> Result<Vec<Attribute>, Fault>
    ensures { Meets (result_map (λ asked. asked.items) result)
        (Ok (asked_attributes patterns.now attributes.now)) }
{
    let mut asked = Vec::new(alloc);
    for attribute in attributes {
        if patterns.asks(attribute.name.as_str()) {
            asked.push(attribute.copy(alloc)?)?;
        }
    }
    Ok(asked)
}

/// A message attribute that is a text.
fn text_value(alloc: Global, kind: &str, text: &str) -> Result<Value, Fault>
    ensures { Meets (result_map view result)
        (Ok (object (member (codes "DataType") (string kind.now)
        (member (codes "StringValue") (string text.now) no_members)))) }
{
    let kind = String::from_str(alloc, kind)?;
    let text = String::from_str(alloc, text)?;
    Ok(json!(in alloc; {"DataType": kind, "StringValue": text})?)
}

/// A message attribute that is raw bytes, as base64.
fn binary_value(alloc: Global, kind: &str, bytes: &[u8]) -> Result<Value, Fault>
    ensures { Meets (result_map view result)
        (Ok (object (member (codes "BinaryValue") (string (encode_of standard bytes.now))
        (member (codes "DataType") (string kind.now) no_members)))) }
{
    let kind = String::from_str(alloc, kind)?;
    let text = STANDARD.encode(alloc, bytes)?;
    Ok(json!(in alloc; {"BinaryValue": text, "DataType": kind})?)
}

/// A message attribute: its type, and its value as a text or as base64.
fn attribute_value(alloc: Global, attribute: &Attribute) -> Result<Value, Fault>
    ensures { Meets (result_map view result) (Ok (attribute_data attribute.now)) }
{
    let kind = attribute.kind.as_str();
    match &attribute.value {
        AttributeValue::Text(text) => text_value(alloc, kind, text.as_str()),
        AttributeValue::Binary(bytes) => binary_value(alloc, kind, bytes.as_slice()),
    }
}

/// An object of message attributes, each under its name.
fn named_attributes(alloc: Global, attributes: &[Attribute]) -> Result<Value, Fault>
    ensures { Meets (result_map view result)
        (Ok (object (put_attributes no_members attributes.now))) }
{
    let mut members = Map::new(alloc);
    for attribute in attributes {
        let value = attribute_value(alloc, attribute)?;
        put_value(alloc, &mut members, attribute.name.as_str(), value)?;
    }
    Ok(Value::Object(members))
}

/// Puts an object of message attributes among the members, where there are some.
fn put_attributes(
    alloc: Global,
    members: &mut Map<String, Value>,
    attributes: &[Attribute],
) -> Result<(), Fault>
    ensures ok { OnOk result (members_view members.new.entries
        ≡ put_attributes_given attributes.now (members_view members.old.entries)) }
    ensures refusal { IfErr result (λ fault. fault ≡ OutOfMemory) }
{
    if !attributes.is_empty() {
        let value = named_attributes(alloc, attributes)?;
        put_value(alloc, members, "MessageAttributes", value)?;
    }
    Ok(())
}

/// The handle that an offer is changed and deleted by.
pub(crate) fn handle_of_offer(uid: u64, offer: &Offer) -> Handle
    ensures { result ≡ handle_of_offer uid offer.now }
{
    Handle {
        uid,
        number: offer.number,
        receipt: offer.receipt,
    }
}

/// Puts what every offer has, and the attributes that are asked for, among the members.
fn put_offer(
    alloc: Global,
    members: &mut Map<String, Value>,
    uid: u64,
    patterns: &Patterns,
    offer: &Offer,
) -> Result<(), Fault>
    ensures ok { OnOk result (members_view members.new.entries
        ≡ put_offer uid patterns.now offer.now (members_view members.old.entries)) }
    ensures refusal { IfErr result (λ fault. fault ≡ OutOfMemory) }
{
    let body = offer.content.body();
    put_text(alloc, members, "Body", body)?;
    let digest = body_md5(alloc, body)?;
    put_text(alloc, members, "MD5OfBody", digest.as_str())?;
    let asked = asked_attributes(alloc, patterns, offer.content.attributes())?;
    let asked_digest = list_md5(alloc, asked.as_slice())?;
    put_given(
        alloc,
        members,
        "MD5OfMessageAttributes",
        asked_digest.as_deref(),
    )?;
    put_attributes(alloc, members, asked.as_slice())?;
    let id = offer.id.text(alloc)?;
    put_text(alloc, members, "MessageId", id.as_str())?;
    let handle = handle_of_offer(uid, offer).write(alloc)?;
    put_text(alloc, members, "ReceiptHandle", handle.as_str())?;
    Ok(())
}

/// Whether an attribute is one that the offer has.
fn is_had(offer: &Offer, attribute: SystemAttribute) -> bool
    ensures { result ≡ is_some (system_attribute_text offer.now attribute) }
{
    match attribute {
        SystemAttribute::Source => offer.source.is_some(),
        _ => true,
    }
}

/// Whether an offer has one of these attributes.
fn has_some(offer: &Offer, attributes: &[SystemAttribute]) -> bool
    ensures { result ≡ has_some offer.now attributes.now }
{
    for attribute in attributes {
        if is_had(offer, *attribute) {
            return true;
        }
    }
    false
}

/// An offer of the queue of a uid.
fn message_value(
    alloc: Global,
    uid: u64,
    names: &ReceiveNames,
    patterns: &Patterns,
    offer: &Offer,
) -> Result<Value, Fault>
    ensures { Meets (result_map view result) (Ok (message_data uid names.now patterns.now offer.now)) }
{
    let mut members = Map::new(alloc);
    let asked = names.asked.as_slice();
    if has_some(offer, asked) {
        let attributes = system_attributes(alloc, offer, asked)?;
        put_value(alloc, &mut members, "Attributes", attributes)?;
        put_offer(alloc, &mut members, uid, patterns, offer)?;
        return Ok(Value::Object(members));
    }
    put_offer(alloc, &mut members, uid, patterns, offer)?;
    Ok(Value::Object(members))
}

/// The offers of the queue of a uid, one after another.
fn message_values(
    alloc: Global,
    uid: u64,
    names: &ReceiveNames,
    patterns: &Patterns,
    offers: &[Offer],
) -> Result<Vec<Value>, Fault>
    ensures { Meets (result_map (λ values. items_view values.items) result)
        (Ok (message_items uid names.now patterns.now offers.now)) }
{
    let mut values = Vec::new(alloc);
    for offer in offers {
        let value = message_value(alloc, uid, names, patterns, offer)?;
        values.push(value)?;
    }
    Ok(values)
}

/// What a receive offers.
pub(crate) fn messages_reply(
    alloc: Global,
    uid: u64,
    names: &ReceiveNames,
    patterns: &Patterns,
    offers: &[Offer],
) -> Result<Value, Fault>
    ensures { Meets (result_map view result)
        (Ok (messages_data uid names.now patterns.now offers.now)) }
{
    if offers.is_empty() {
        return Ok(json!(in alloc; {})?);
    }
    let messages = Value::Array(message_values(alloc, uid, names, patterns, offers)?);
    Ok(json!(in alloc; {"Messages": messages})?)
}
