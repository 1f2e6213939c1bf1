//! What happens to messages that are received again and again without being deleted (Amazon SQS API
//! Reference, `RedrivePolicy`).

ghost use Rattle.std.specs.Prelude.{◌≡◌, ◌<◌, ℕ, List, length, Some, option_map, IfOk, IfSome, IsErrOf};
ghost use Rattle.std.specs.Option.{ForSome};
ghost use Rattle.message.specs.Fault.{Meets};
ghost use Rattle.serde_json.specs.View.{view};
ghost use Rattle.queue_config.specs.Policy.{IsReceiveLimit, after_start, after_colon, name_in_arn, receive_limit_in, policy_in, requested_policy};
ghost use Rattle.queue_config.specs.private.Policy.{IsArn};

use crate::decimal::decimal_number;
use message::{Fault, QueueName};
use serde_json::Value;
use std::alloc::Global;
use std::marker::Model;

/// A queue's policy: a message that was received so many times goes to another queue, the
/// dead-letter queue.
#[derive(Clone, Copy, Debug, PartialEq, Eq)]
pub struct RedrivePolicy {
    /// The uid of the dead-letter queue, a number that no other queue ever has.
    pub target: u64,
    /// The name of the dead-letter queue.
    pub name: QueueName,
    /// After how many receives a message goes there, 1 to 1,000.
    pub max_receive_count: u16,
}

/// The policy that a request asks for. It names the dead-letter queue and does not know its uid.
#[derive(Clone, Copy, Debug, PartialEq, Eq)]
pub struct RequestedPolicy {
    /// The name of the dead-letter queue.
    pub name: QueueName,
    /// After how many receives a message goes there, 1 to 1,000.
    pub max_receive_count: u16,
}

/// A number of receives, 1 to 1,000 by the type.
#[derive(Clone, Copy, Debug)]
pub(crate) struct ReceiveLimit {
    pub(crate) count: u16,
}

impl Model for ReceiveLimit {
    ghost use Rattle.std.specs.Prelude.{ℕ};
    ghost use Rattle.queue_config.specs.Policy.{IsReceiveLimit};

    ghost Value = { ℕ };

    ghost view = { λ limit. limit.count };

    ghost invariant = { λ limit. IsReceiveLimit limit.count };

    ghost inverse = { λ n. record { count = n } };
}

/// What stands after the start that every ARN of a queue has.
fn after_start(arn: &str) -> Option<&str>
    ensures { option_map (λ s. s.now) result ≡ after_start arn.now }
{
    arn.strip_prefix("arn:aws:sqs:")
}

/// What stands after the first colon, or nothing where there is none.
fn after_colon(text: &str) -> &str
    ensures { result.now ≡ after_colon text.now }
{
    match text.split_once(':') {
        Some((_, after)) => after,
        None => "",
    }
}

/// The name of the queue that an ARN is of: `arn:aws:sqs:`, a region, a colon, an account, a colon
/// and the name. Any text without a colon may be region or account.
fn name_in_arn(arn: &str) -> Option<QueueName>
    ensures name { result ≡ name_in_arn arn.now }
    ensures arn { IfSome result (λ name. (region account : List ℕ) × IsArn arn.now region account name) }
    ensures only { (region account name : List ℕ) → IsArn arn.now region account name → result ≡ Some name }
{
    let rest = after_start(arn)?;
    QueueName::read(after_colon(after_colon(rest))).ok()
}

/// The number of receives, 1 to 1,000, that a whole number or a text of 1 to 4 digits is.
fn receive_limit_in(value: &Value) -> Option<u16>
    ensures limit { result ≡ receive_limit_in (view value.now) }
    ensures range { IfSome result (λ n. IsReceiveLimit n) }
{
    let count = match value.as_str() {
        Some(text) => decimal_number(text, 4)?,
        None => value.as_u64()?,
    };
    if 1 <= count && count <= 1000 {
        Some(count as u16)
    } else {
        None
    }
}

/// The policy that a JSON object asks for.
fn policy_in(object: &Value) -> Option<RequestedPolicy>
    ensures policy { result ≡ policy_in (view object.now) }
    ensures range { IfSome result (λ policy. IsReceiveLimit policy.max_receive_count) }
{
    let arn = object.get("deadLetterTargetArn")?.as_str()?;
    let name = name_in_arn(arn)?;
    let max_receive_count = receive_limit_in(object.get("maxReceiveCount")?)?;
    Some(RequestedPolicy {
        name,
        max_receive_count,
    })
}

/// The policy that an attribute's text asks for. The empty text clears the policy and takes no
/// memory; any other that is no policy is `InvalidAttributeValue`.
pub(crate) fn requested_policy(alloc: Global, text: &str) -> Result<Option<RequestedPolicy>, Fault>
    ensures policy { Meets result (requested_policy text.now) }
    ensures range { IfOk result (λ asked. ForSome asked (λ policy. IsReceiveLimit policy.max_receive_count)) }
    ensures memory { IsErrOf result Fault.OutOfMemory → 0 < length text.now }
{
    if text.is_empty() {
        return Ok(None);
    }
    let object = match Value::from_str(alloc, text) {
        Ok(object) => object,
        Err(error) if error.is_memory() => return Err(Fault::OutOfMemory),
        Err(_) => return Err(Fault::InvalidAttributeValue),
    };
    match policy_in(&object) {
        Some(policy) => Ok(Some(policy)),
        None => Err(Fault::InvalidAttributeValue),
    }
}
