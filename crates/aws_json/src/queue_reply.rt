//! What a client is told of a queue (Amazon SQS API Reference, `GetQueueAttributes`).

ghost use Rattle.std.specs.Prelude.{◌≡◌, ◌/◌, Ok, decimal, option_map, string_bytes};
ghost use Rattle.message.specs.Fault.{Meets};
ghost use Rattle.serde_json.specs.Data.{object, no_members};
ghost use Rattle.serde_json.specs.View.{view};
ghost use Rattle.aws_json.specs.Steps.{result_map};
ghost use Rattle.aws_json.specs.Reply.{queue_arn, policy_data, policy_text, queue_attribute_text, put_queue_attributes, attributes_data};

use crate::attribute_names::QueueAttribute;
use crate::put::put_given;
use crate::request::AttributeNames;
use journal::Moment;
use message::{Fault, QueueName};
use queue_config::RedrivePolicy;
use queue_core::Look;
use serde_json::{Map, Value, json};
use std::alloc::Global;

/// The name by which policies and other services know a queue, always with this region and account.
pub(crate) fn queue_arn(alloc: Global, name: &QueueName) -> Result<String, Fault>
    ensures { Meets (result_map (λ s. string_bytes s) result) (Ok (queue_arn name.now)) }
{
    let mut arn = String::from_str(alloc, "arn:aws:sqs:elasticmq:000000000000:")?;
    arn.push_str(name.as_text())?;
    Ok(arn)
}

/// A time in whole seconds, rounded down.
fn seconds(time: Moment) -> u64
    ensures { result ≡ time / 1000 }
{
    time.milliseconds() / 1000
}

/// A number in decimal digits.
pub(crate) fn decimal(alloc: Global, number: u64) -> Result<String, Fault>
    ensures { Meets (result_map (λ s. string_bytes s) result) (Ok (decimal number)) }
{
    Ok(number.to_string(alloc)?)
}

/// A policy as JSON: the ARN of the dead-letter queue, and after how many receives a message goes
/// there.
fn policy_value(alloc: Global, policy: RedrivePolicy) -> Result<Value, Fault>
    ensures { Meets (result_map view result) (Ok (policy_data policy)) }
{
    let arn = queue_arn(alloc, &policy.name)?;
    let count = policy.max_receive_count;
    Ok(json!(in alloc; {"deadLetterTargetArn": arn, "maxReceiveCount": count})?)
}

/// The JSON text of a policy, without blanks.
fn policy_text(alloc: Global, policy: RedrivePolicy) -> Result<String, Fault>
    ensures { Meets (result_map (λ s. string_bytes s) result) (Ok (policy_text policy)) }
{
    let value = policy_value(alloc, policy)?;
    let text = value.to_string(alloc)?;
    Ok(text)
}

/// The text that an attribute is, where the queue has it.
fn queue_attribute_text(
    alloc: Global,
    queue: &QueueName,
    look: &Look,
    attribute: QueueAttribute,
) -> Result<Option<String>, Fault>
    ensures { Meets (result_map (λ text. option_map (λ s. string_bytes s) text) result)
        (Ok (queue_attribute_text queue.now look.now attribute)) }
{
    let settings = &look.settings;
    let text = match attribute {
        QueueAttribute::Visible => decimal(alloc, look.gauges.visible)?,
        QueueAttribute::Delayed => decimal(alloc, look.gauges.delayed)?,
        QueueAttribute::InFlight => decimal(alloc, look.gauges.in_flight)?,
        QueueAttribute::Created => decimal(alloc, seconds(look.created))?,
        QueueAttribute::Modified => decimal(alloc, seconds(look.modified))?,
        QueueAttribute::Arn => queue_arn(alloc, queue)?,
        QueueAttribute::Redrive => match settings.redrive_policy {
            Some(policy) => policy_text(alloc, policy)?,
            None => return Ok(None),
        },
        QueueAttribute::Setting(setting) => {
            let number = settings.setting_value(setting);
            decimal(alloc, u64::from(number))?
        }
    };
    Ok(Some(text))
}

/// An object of these attributes, as far as the queue has them, each under its name.
fn queue_attributes(
    alloc: Global,
    queue: &QueueName,
    look: &Look,
    attributes: &[QueueAttribute],
) -> Result<Value, Fault>
    ensures { Meets (result_map view result)
        (Ok (object (put_queue_attributes queue.now look.now no_members attributes.now))) }
{
    let mut members = Map::new(alloc);
    for attribute in attributes {
        let text = queue_attribute_text(alloc, queue, look, *attribute)?;
        put_given(alloc, &mut members, attribute.name(), text.as_deref())?;
    }
    Ok(Value::Object(members))
}

/// The attributes that are asked for; an empty object where no name was asked.
pub(crate) fn attributes_reply(
    alloc: Global,
    names: &Option<AttributeNames>,
    queue: &QueueName,
    look: &Look,
) -> Result<Value, Fault>
    ensures { Meets (result_map view result) (Ok (attributes_data names.now queue.now look.now)) }
{
    match names {
        Some(names) => {
            let attributes = queue_attributes(alloc, queue, look, names.asked.as_slice())?;
            Ok(json!(in alloc; {"Attributes": attributes})?)
        }
        None => Ok(json!(in alloc; {})?),
    }
}
