//! Replies and their JSON texts (AWS JSON 1.0, Amazon SQS API Reference).

ghost use Rattle.std.specs.Prelude.{◌≡◌, Ok, IfOk, IfErr, string_bytes};
ghost use Rattle.message.specs.declared.fault.Fault.TheVariants.{OutOfMemory};
ghost use Rattle.message.specs.Fault.{Meets};
ghost use Rattle.serde_json.specs.View.{view, items_view};
ghost use Rattle.serde_json.specs.Written.{compact_text};
ghost use Rattle.aws_json.specs.Steps.{result_map};
ghost use Rattle.aws_json.specs.Reply.{queue_url, url_data, url_items, urls_data, reply_data};

use crate::batch::BatchAnswers;
use crate::batch_reply::{batch_reply, sent_text};
use crate::listed::Listed;
use crate::message_text::messages_text;
use crate::queue_reply::{attributes_reply, decimal};
use crate::request::{AttributeNames, ReceiveNames};
use crate::selection::Patterns;
use message::{Content, Fault, MessageId, QueueName};
use queue_core::{Look, Offers};
use serde_json::{Map, Value, json};
use std::alloc::Global;

/// Names of queues in an order. Contracts see the list of names.
pub type QueueNames = Listed<QueueName>;

impl Listed<QueueName> {
    /// These names.
    pub fn new(names: Vec<QueueName>) -> QueueNames
        ensures { result ≡ names.items }
    {
        Listed::of(names)
    }
}

/// What a client is answered.
#[derive(Debug, Drop)]
pub enum ReplyShape {
    /// The URL of a queue.
    QueueUrl(QueueName),
    /// The URLs of queues, in this order.
    QueueUrls(QueueNames),
    /// The URLs of the queues that have a queue for their dead letters, in this order.
    SourceQueueUrls(QueueNames),
    /// The message that was sent, whose digests the client gets, and its id.
    Sent {
        content: Content,
        id: MessageId,
    },
    /// The attributes of a queue that were asked for, by a look at it; an empty object where no name
    /// was asked.
    Attributes {
        names: Option<AttributeNames>,
        queue: QueueName,
        look: Look,
    },
    /// What a receive offers of the queue of a uid, with the attributes that were asked for, of the
    /// queue's (a source only where the message is a dead letter) and of the sender's; an empty object
    /// where it offers nothing.
    Messages {
        uid: u64,
        names: ReceiveNames,
        attributes: Patterns,
        offers: Offers,
    },
    /// The answers to the entries of a batch.
    Batch(BatchAnswers),
    /// An empty object.
    Nothing,
}

/// The URL of a queue, always with this host and account.
fn queue_url(alloc: Global, port: u16, name: &QueueName) -> Result<String, Fault>
    ensures { Meets (result_map (λ s. string_bytes s) result) (Ok (queue_url port name.now)) }
{
    let digits = decimal(alloc, u64::from(port))?;
    let mut url = String::from_str(alloc, "http://localhost:")?;
    url.push_str(digits.as_str())?;
    url.push_str("/000000000000/")?;
    url.push_str(name.as_text())?;
    Ok(url)
}

/// The URLs of queues, under a key.
fn urls_reply(alloc: Global, port: u16, key: &str, names: &[QueueName]) -> Result<Value, Fault>
    ensures { Meets (result_map view result) (Ok (urls_data port key.now names.now)) }
{
    let urls = url_values(alloc, port, names)?;
    Ok(json!(in alloc; {key: urls})?)
}

/// The URLs of queues, one after another.
fn url_values(alloc: Global, port: u16, names: &[QueueName]) -> Result<Vec<Value>, Fault>
    ensures ok { IfOk result (λ urls. items_view urls.items ≡ url_items port names.now) }
    ensures errors { IfErr result (λ fault. fault ≡ OutOfMemory) }
{
    let mut urls = Vec::new(alloc);
    for name in names {
        urls.push(Value::from(queue_url(alloc, port, name)?))?;
    }
    Ok(urls)
}

/// The URL of a queue.
fn url_reply(alloc: Global, port: u16, name: &QueueName) -> Result<Value, Fault>
    ensures { Meets (result_map view result) (Ok (url_data port name.now)) }
{
    let url = queue_url(alloc, port, name)?;
    Ok(json!(in alloc; {"QueueUrl": url})?)
}

/// The JSON text of a reply, without blanks. The port is the one at which requests are answered: the URLs of queues have
/// it. `OutOfMemory` is the only refusal.
pub fn reply_text(alloc: Global, port: u16, shape: &ReplyShape) -> Result<String, Fault>
    ensures { Meets (result_map (λ s. string_bytes s) result)
        (Ok (compact_text (reply_data port shape.now))) }
{
    let value = match shape {
        ReplyShape::Sent { content, id } => return sent_text(alloc, content, *id),
        ReplyShape::Messages {
            uid,
            names,
            attributes,
            offers,
        } => return messages_text(alloc, *uid, names, attributes, offers.as_slice()),
        ReplyShape::QueueUrl(name) => url_reply(alloc, port, name)?,
        ReplyShape::QueueUrls(names) => urls_reply(alloc, port, "QueueUrls", names.as_slice())?,
        ReplyShape::SourceQueueUrls(names) => urls_reply(
            alloc,
            port,
            "queueUrls",
            names.as_slice(),
        )?,
        ReplyShape::Attributes { names, queue, look } => {
            attributes_reply(alloc, names, queue, look)?
        }
        ReplyShape::Batch(answers) => batch_reply(alloc, answers.as_slice())?,
        ReplyShape::Nothing => Value::Object(Map::new(alloc)),
    };
    let text = value.to_string(alloc)?;
    Ok(text)
}
