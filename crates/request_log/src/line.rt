//! The line for a request.

ghost use Rattle.std.specs.Prelude.{◌≡◌, IfErr, IfOk, Ok, Some, None, option_map, string_bytes};
ghost use Rattle.message.specs.Fault.{Meets};
ghost use Rattle.message.specs.declared.fault.Fault.TheVariants.{OutOfMemory};
ghost use Rattle.serde_json.specs.View.{view};
ghost use Rattle.aws_json.specs.Steps.{result_map};
ghost use Rattle.request_log.specs.Actions.{name_at, place_of};
ghost use Rattle.request_log.specs.Line.{told_name, queue_of, told_queue, queue_text, refusal_text, line_text, notice_text};

use crate::actions::{name_at, place_of};
use crate::object::object_in;
use crate::refusal::{Failures, Refusal, failed, refusal_of};
use crate::reply::Reply;
use crate::time::time_of_day;
use aws_json::{explain, name_part};
use journal::Moment;
use message::{Fault, QueueName};
use serde_json::Value;
use std::alloc::Global;

/// Why a request was refused: a name, and what was wrong.
#[derive(Debug, Drop)]
pub struct Reason {
    pub name: &'static str,
    pub words: String,
}

/// The name of a queue, or a hyphen.
fn queue_text(queue: Option<&QueueName>) -> &str
    ensures { result.now ≡ queue_text (option_map (λ q. q.now) queue.entry) }
{
    match queue {
        Some(name) => name.as_text(),
        None => "-",
    }
}

/// What a line says behind the status.
fn refusal_text(alloc: Global, reason: Option<&Reason>) -> Result<String, Fault>
    ensures { Meets (result_map (λ s. string_bytes s) result) (Ok (refusal_text (option_map (λ r. (r.now.name.now, string_bytes r.now.words)) reason.entry))) }
{
    match reason {
        Some(reason) => {
            let name = reason.name;
            let words = reason.words.as_str();
            Ok(format!(in alloc; " {name}: {words}")?)
        }
        None => Ok(String::new(alloc)),
    }
}

/// The line for a request of an action that was answered with a status at a moment.
fn line_of(
    alloc: Global,
    at: Moment,
    action: &str,
    queue: Option<&QueueName>,
    status: u16,
    reason: Option<&Reason>,
) -> Result<String, Fault>
    ensures { Meets (result_map (λ s. string_bytes s) result) (Ok (line_text at action.now (option_map (λ q. q.now) queue.entry) status (option_map (λ r. (r.now.name.now, string_bytes r.now.words)) reason.entry))) }
{
    let time = time_of_day(alloc, at)?;
    let queue = queue_text(queue);
    let refusal = refusal_text(alloc, reason)?;
    Ok(format!(in alloc; "{time} {action} {queue} {status}{refusal}")?)
}

/// The name of a queue in a body, by its URL or by itself.
fn told_name(body: &Value) -> Option<&str>
    ensures { option_map (λ s. s.now) result ≡ told_name (view body.now) }
{
    match body.get("QueueUrl") {
        Some(url) => url.as_str(),
        None => body.get("QueueName")?.as_str(),
    }
}

/// The queue that a JSON object names, where it does.
fn queue_of(body: &Value) -> Option<QueueName>
    ensures { result ≡ queue_of (view body.now) }
{
    QueueName::read(name_part(told_name(body)?)).ok()
}

/// The queue that a body names, where it does. `OutOfMemory` is the only refusal.
fn told_queue(alloc: Global, body: &[u8]) -> Result<Option<QueueName>, Fault>
    ensures queue { IfOk result (λ queue. queue ≡ told_queue body.now) }
    ensures short { IfErr result (λ fault. fault ≡ OutOfMemory) }
{
    match object_in(alloc, body)? {
        Some(body) => Ok(queue_of(&body)),
        None => Ok(None),
    }
}

/// What was wrong with a request that was refused by a fault.
fn reason_of_fault(alloc: Global, action: &str, body: &[u8], fault: Fault) -> Result<Reason, Fault>
    ensures short { IfErr result (λ fault. fault ≡ OutOfMemory) }
{
    Ok(Reason {
        name: fault.name(),
        words: explain(alloc, action, body, fault)?,
    })
}

/// What was wrong with entries of a batch, by the refusal of the first one, and which they are.
fn reason_of_entries(
    alloc: Global,
    action: &str,
    body: &[u8],
    failures: Failures,
) -> Result<Reason, Fault>
    ensures short { IfErr result (λ fault. fault ≡ OutOfMemory) }
{
    let Failures { first, count, ids } = failures;
    let words = explain(alloc, action, body, first)?;
    let entries = if count == 1 {
        "entry was"
    } else {
        "entries were"
    };
    Ok(Reason {
        name: first.name(),
        words: format!(in alloc; "{words}; {count} {entries} refused: {ids}")?,
    })
}

/// What was wrong with a request, if it was refused.
fn reason_of(
    alloc: Global,
    action: &str,
    body: &[u8],
    reply: &Reply<'_>,
) -> Result<Option<Reason>, Fault>
    ensures short { IfErr result (λ fault. fault ≡ OutOfMemory) }
{
    if let Some(failures) = failed(alloc, reply)? {
        return Ok(Some(reason_of_entries(alloc, action, body, failures)?));
    }
    match refusal_of(reply) {
        Some(Refusal::Fault(fault)) => Ok(Some(reason_of_fault(alloc, action, body, fault)?)),
        Some(Refusal::Other(name, words)) => Ok(Some(Reason {
            name,
            words: String::from_str(alloc, words)?,
        })),
        None => Ok(None),
    }
}

/// The line for a request of an action and a body that was answered so at a moment (this project's own form), in UTC:
/// `12:03:04.123Z SendMessage jobs 400 InvalidParameterValue: MessageBody is empty`. An action that is not served and a
/// queue that is not named are hyphens. `OutOfMemory` is the only refusal.
pub fn line_for(
    alloc: Global,
    at: Moment,
    action: &str,
    body: &[u8],
    reply: &Reply<'_>,
) -> Result<String, Fault>
    ensures line { IfOk result (λ line. (refusal : _) × (string_bytes line ≡ line_text at (name_at (place_of action.now)) (told_queue body.now) reply.now.status refusal)) }
    ensures short { IfErr result (λ fault. fault ≡ OutOfMemory) }
{
    let queue = told_queue(alloc, body)?;
    let reason = reason_of(alloc, action, body, reply)?;
    let action = name_at(place_of(action));
    line_of(
        alloc,
        at,
        action,
        queue.as_ref(),
        reply.status,
        reason.as_ref(),
    )
}

/// The line for what happened to a connection or a port at a moment, in UTC: `12:03:04.123Z connection: ..`.
/// `OutOfMemory` is the only refusal.
pub fn notice_line(alloc: Global, at: Moment, about: &str, words: &str) -> Result<String, Fault>
    ensures { Meets (result_map (λ s. string_bytes s) result) (Ok (notice_text at about.now words.now)) }
{
    let time = time_of_day(alloc, at)?;
    Ok(format!(in alloc; "{time} {about}: {words}")?)
}
