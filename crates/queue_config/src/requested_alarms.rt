//! The alarms of a configuration, judged together: how many each queue has, their names, and whether
//! their queues are there.

ghost use Rattle.std.specs.Prelude.{◌≡◌, [], map, Ok};
ghost use Rattle.std.specs.List.{list_any};
ghost use Rattle.queue_config.specs.AlarmText.{alarms_of, have_too_many_alarms, is_same_alarm, have_equal_alarms, configured_alarm, configured_alarms};
ghost use Rattle.queue_config.specs.ConfigFault.{IsReadAs};
ghost use Rattle.queue_config.specs.private.ConfigKeys.{items_of};

use crate::alarm_rule::{ALARM_LIMIT, AlarmRule};
use crate::config::ConfiguredAlarm;
use crate::config_fault::ConfigFault;
use crate::requested_queues::{RequestedQueue, configured_uid};
use message::QueueName;
use std::alloc::Global;

/// An alarm as its table has it: with the name of its queue, and not yet its uid.
#[derive(Clone, Copy, Debug)]
pub(crate) struct RequestedAlarm {
    pub(crate) queue: QueueName,
    pub(crate) rule: AlarmRule,
}

/// How many of the alarms are of the queue.
fn alarms_of(queue: &QueueName, alarms: &[RequestedAlarm]) -> usize
    ensures { result ≡ alarms_of queue.now alarms.now }
{
    alarms
        .iter()
        .filter(|alarm| queue.as_text() == alarm.queue.as_text())
        .count()
}

/// Whether a queue has more than 16 of the alarms.
pub(crate) fn have_too_many_alarms(alarms: &[RequestedAlarm]) -> bool
    ensures { result ≡ have_too_many_alarms alarms.now }
{
    alarms
        .iter()
        .any(|alarm| ALARM_LIMIT < alarms_of(&alarm.queue, alarms))
}

/// Whether two alarms are of one queue and have one name.
fn is_same_alarm(alarm: &RequestedAlarm, other: &RequestedAlarm) -> bool
    ensures { result ≡ is_same_alarm alarm.now other.now }
{
    alarm.queue.as_text() == other.queue.as_text()
        && alarm.rule.name.as_text() == other.rule.name.as_text()
}

/// Whether one of the others is of the alarm's queue and has its name.
fn has_alarm(alarm: &RequestedAlarm, others: &[RequestedAlarm]) -> bool
    ensures { result ≡ list_any (λ other. is_same_alarm alarm.now other) others.now }
{
    others.iter().any(|other| is_same_alarm(alarm, other))
}

/// Whether two of the alarms are of one queue and have one name.
pub(crate) fn have_equal_alarms(alarms: &[RequestedAlarm]) -> bool
    ensures { result ≡ have_equal_alarms alarms.now }
{
    for (place, alarm) in alarms.iter().enumerate() {
        if has_alarm(alarm, &alarms[place + 1..]) {
            return true;
        }
    }
    false
}

/// The alarm with its queue's uid.
fn configured_alarm(
    queues: &[RequestedQueue],
    alarm: &RequestedAlarm,
) -> Result<ConfiguredAlarm, ConfigFault>
    ensures { result ≡ configured_alarm (map (λ q. q.name) queues.now) alarm.now }
{
    let queue = configured_uid(&alarm.queue, queues).ok_or(ConfigFault::NoSuchTarget)?;
    let rule = alarm.rule;
    Ok(ConfiguredAlarm { queue, rule })
}

/// The alarms with the uids of their queues.
pub(crate) fn configured_alarms(
    alloc: Global,
    queues: &[RequestedQueue],
    alarms: &[RequestedAlarm],
) -> Result<Vec<ConfiguredAlarm>, ConfigFault>
    ensures alarms { IsReadAs (items_of result) (configured_alarms (map (λ q. q.name) queues.now) alarms.now) }
    ensures none { alarms.now ≡ [] → items_of result ≡ Ok [] }
{
    let mut configured = Vec::new(alloc);
    for alarm in alarms {
        configured.push(configured_alarm(queues, alarm)?)?;
    }
    Ok(configured)
}
