//! The answers to a send and to the entries of a batch, as JSON (Amazon SQS API Reference,
//! `SendMessage`, `BatchResultErrorEntry` and the result entries of the three batches).

ghost use Rattle.std.specs.Prelude.{◌≡◌, ◌++◌, Ok, OnOk, IfOk, IfErr, option_map, string_bytes};
ghost use Rattle.message.specs.Fault.{Meets};
ghost use Rattle.message.specs.declared.fault.Fault.TheVariants.{OutOfMemory};
ghost use Rattle.serde_json.specs.Data.{object};
ghost use Rattle.serde_json.specs.View.{view, items_view, members_view};
ghost use Rattle.serde_json.specs.Written.{compact_text};
ghost use Rattle.aws_json.specs.Steps.{result_map};
ghost use Rattle.aws_json.specs.Reply.{put_sent, sent_data, done_data, failed_data, done_items, failed_items, batch_data};
ghost use Rattle.aws_json.specs.private.Sent.{sent_members, sent_tokens};

use crate::batch::{BatchAnswer, EntryReply};
use crate::put::{put_given, put_text};
use crate::refusal::{fault_message, fault_name};
use attribute_md5::{attributes_md5, body_md5};
use json::Writer;
use message::{Content, Fault, MessageId, QueueName};
use serde_json::{Map, Value, json};
use std::alloc::{AllocError, Global};

/// How many bytes the text of a send has at most, by far.
const SENT_ROOM: usize = 256;

/// Puts what a client is told of a send among the members.
fn put_sent(
    alloc: Global,
    members: &mut Map<String, Value>,
    content: &Content,
    id: MessageId,
) -> Result<(), Fault>
    ensures ok { OnOk result (members_view members.new.entries
        ≡ put_sent content.now id (members_view members.old.entries)) }
    ensures refusal { IfErr result (λ fault. fault ≡ OutOfMemory) }
{
    let attributes = attributes_md5(alloc, content)?;
    put_given(
        alloc,
        members,
        "MD5OfMessageAttributes",
        attributes.as_deref(),
    )?;
    let body = body_md5(alloc, content.body())?;
    put_text(alloc, members, "MD5OfMessageBody", body.as_str())?;
    let id = id.text(alloc)?;
    put_text(alloc, members, "MessageId", id.as_str())?;
    Ok(())
}

/// Writes the members that tell of a send, and the end of their object.
fn write_sent(
    out: &mut Writer,
    attributes: Option<&str>,
    body: &str,
    id: &str,
) -> Result<(), AllocError>
    ensures tokens { OnOk result (out.new.tokens
        ≡ out.old.tokens ++ sent_tokens (option_map (λ s. s.now) attributes.entry) body.now id.now) }
    ensures before { out.new.before ≡ out.old.before }
{
    if let Some(digest) = attributes {
        out.key("MD5OfMessageAttributes")?;
        out.string(digest)?;
    }
    out.key("MD5OfMessageBody")?;
    out.string(body)?;
    out.key("MessageId")?;
    out.string(id)?;
    out.end_object()?;
    Ok(())
}

/// The text of an object that tells of a send by these texts.
fn text_of_sent(
    alloc: Global,
    attributes: Option<&str>,
    body: &str,
    id: &str,
) -> Result<String, AllocError>
    ensures { IfOk result (λ s. string_bytes s
        ≡ compact_text (object (sent_members (option_map (λ s. s.now) attributes.entry) body.now id.now))) }
{
    let mut out = Writer::new(Vec::with_capacity(alloc, SENT_ROOM)?);
    out.begin_object()?;
    write_sent(&mut out, attributes, body, id)?;
    Ok(String::from_utf8(out.into_inner()).unwrap())
}

/// The JSON text of what a client is told of a send. Most requests are sends, so no tree is made for it.
pub(crate) fn sent_text(alloc: Global, content: &Content, id: MessageId) -> Result<String, Fault>
    ensures { Meets (result_map (λ s. string_bytes s) result) (Ok (compact_text (sent_data content.now id))) }
{
    let attributes = attributes_md5(alloc, content)?;
    let body = body_md5(alloc, content.body())?;
    let id = id.text(alloc)?;
    let text = text_of_sent(alloc, attributes.as_deref(), body.as_str(), id.as_str())?;
    Ok(text)
}

/// What a client is told of an entry that was done.
fn done_value(alloc: Global, id: &QueueName, reply: &EntryReply) -> Result<Value, Fault>
    ensures { Meets (result_map view result) (Ok (done_data id.now reply.now)) }
{
    let mut members = Map::new(alloc);
    put_text(alloc, &mut members, "Id", id.as_text())?;
    match reply {
        EntryReply::Sent { content, id } => put_sent(alloc, &mut members, content, *id)?,
        EntryReply::Done => {}
    }
    Ok(Value::Object(members))
}

/// What a client is told of an entry that was refused.
fn failed_value(alloc: Global, id: &QueueName, fault: Fault) -> Result<Value, Fault>
    ensures { Meets (result_map view result) (Ok (failed_data id.now fault)) }
{
    let code = String::from_str(alloc, fault_name(fault))?;
    let id = String::from_str(alloc, id.as_text())?;
    let message = String::from_str(alloc, fault_message(fault))?;
    let is_of_sender = fault.is_of_sender();
    Ok(json!(in alloc; {"Code": code, "Id": id, "Message": message, "SenderFault": is_of_sender})?)
}

/// The entries that were done, in their order.
fn done_values(alloc: Global, answers: &[BatchAnswer]) -> Result<Vec<Value>, Fault>
    ensures { Meets (result_map (λ values. items_view values.items) result)
        (Ok (done_items answers.now)) }
{
    let mut values = Vec::new(alloc);
    for answer in answers {
        if let Ok(reply) = &answer.answer {
            values.push(done_value(alloc, &answer.id, reply)?)?;
        }
    }
    Ok(values)
}

/// The entries that were refused, in their order.
fn failed_values(alloc: Global, answers: &[BatchAnswer]) -> Result<Vec<Value>, Fault>
    ensures { Meets (result_map (λ values. items_view values.items) result)
        (Ok (failed_items answers.now)) }
{
    let mut values = Vec::new(alloc);
    for answer in answers {
        if let Err(fault) = &answer.answer {
            values.push(failed_value(alloc, &answer.id, *fault)?)?;
        }
    }
    Ok(values)
}

/// What a client is told of a batch.
pub(crate) fn batch_reply(alloc: Global, answers: &[BatchAnswer]) -> Result<Value, Fault>
    ensures { Meets (result_map view result) (Ok (batch_data answers.now)) }
{
    let failed = Value::Array(failed_values(alloc, answers)?);
    let done = Value::Array(done_values(alloc, answers)?);
    Ok(json!(in alloc; {"Failed": failed, "Successful": done})?)
}
