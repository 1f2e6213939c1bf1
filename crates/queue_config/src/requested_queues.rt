//! The queues of a configuration, judged together and with their alarms: how many there are, their
//! names, and their dead-letter queues. Which fault comes first is this project's own choice.

ghost use Rattle.std.specs.Prelude.{◌≡◌, [], map, Ok};
ghost use Rattle.std.specs.List.{position};
ghost use Rattle.std.specs.Str.{bytes_eq};
ghost use Rattle.queue_config.specs.Config.{configured_uid};
ghost use Rattle.queue_config.specs.ConfigFault.{IsReadAs};
ghost use Rattle.queue_config.specs.private.ConfigKeys.{items_of};
ghost use Rattle.queue_config.specs.ConfigText.{has_name, have_equal_names, target_among, configured_queue, configured_queues, together};

use crate::config::{Config, ConfiguredQueue, QUEUE_LIMIT};
use crate::config_fault::ConfigFault;
use crate::limits::Limits;
use crate::requested_alarms::{
    RequestedAlarm, configured_alarms, have_equal_alarms, have_too_many_alarms,
};
use crate::settings::Settings;
use crate::wish::Wish;
use message::QueueName;
use std::alloc::Global;

/// A queue as its table has it: with the name of its dead-letter queue, and not yet its uid.
#[derive(Clone, Copy, Debug)]
pub(crate) struct RequestedQueue {
    pub(crate) name: QueueName,
    pub(crate) wish: Wish,
}

/// Whether one of the queues has the name.
fn has_name(name: &QueueName, queues: &[RequestedQueue]) -> bool
    ensures { result ≡ has_name name.now queues.now }
{
    for queue in queues {
        if name.as_text() == queue.name.as_text() {
            return true;
        }
    }
    false
}

/// Whether two of the queues have one name.
fn have_equal_names(queues: &[RequestedQueue]) -> bool
    ensures { result ≡ have_equal_names queues.now }
{
    for (place, queue) in queues.iter().enumerate() {
        if has_name(&queue.name, &queues[place + 1..]) {
            return true;
        }
    }
    false
}

/// The place of the first queue that has the name.
fn place_of(name: &QueueName, queues: &[RequestedQueue]) -> Option<usize>
    ensures place { result ≡ position (λ q. bytes_eq name.now q.name) queues.now }
{
    queues
        .iter()
        .position(|queue| name.as_text() == queue.name.as_text())
}

/// The uid of the queue that has the name.
pub(crate) fn configured_uid(name: &QueueName, queues: &[RequestedQueue]) -> Option<u64>
    ensures { result ≡ configured_uid name.now (map (λ q. q.name) queues.now) }
{
    match place_of(name, queues) {
        Some(place) => Some(place as u64 + 1),
        None => None,
    }
}

/// The uid of a dead-letter queue, where one is named: that of another of the queues.
fn target_among(
    queues: &[RequestedQueue],
    own: &QueueName,
    target: Option<Option<QueueName>>,
) -> Result<u64, ConfigFault>
    ensures { result ≡ target_among (map (λ q. q.name) queues.now) own.now target }
{
    match target {
        Some(Some(name)) if name.as_text() == own.as_text() => Err(ConfigFault::NoSuchTarget),
        Some(Some(name)) => configured_uid(&name, queues).ok_or(ConfigFault::NoSuchTarget),
        _ => Ok(0),
    }
}

/// The queue with the uid of its dead-letter queue.
fn configured_queue(
    queues: &[RequestedQueue],
    queue: &RequestedQueue,
) -> Result<ConfiguredQueue, ConfigFault>
    ensures { result ≡ configured_queue (map (λ q. q.name) queues.now) queue.now }
{
    let target = target_among(queues, &queue.name, queue.wish.target())?;
    let settings = Settings::default().with(&queue.wish, target);
    Ok(ConfiguredQueue {
        name: queue.name,
        settings,
    })
}

/// The queues with the uids of their dead-letter queues.
fn configured_queues(
    alloc: Global,
    queues: &[RequestedQueue],
) -> Result<Vec<ConfiguredQueue>, ConfigFault>
    ensures queues { IsReadAs (items_of result) (configured_queues queues.now) }
    ensures none { queues.now ≡ [] → items_of result ≡ Ok [] }
{
    let mut configured = Vec::new(alloc);
    for queue in queues {
        configured.push(configured_queue(queues, queue)?)?;
    }
    Ok(configured)
}

/// What is judged of all queues and alarms together: how many there are, their names, and then the
/// queues that they name.
pub(crate) fn together(
    alloc: Global,
    limits: Limits,
    queues: &[RequestedQueue],
    alarms: &[RequestedAlarm],
) -> Result<Config, ConfigFault>
    ensures config { IsReadAs result (together limits queues.now alarms.now) }
    ensures none { queues.now ≡ [] → alarms.now ≡ [] → result ≡ Ok (record { limits = limits; queues = []; alarms = [] }) }
{
    if QUEUE_LIMIT < queues.len() {
        return Err(ConfigFault::OutOfRange);
    }
    if have_too_many_alarms(alarms) {
        return Err(ConfigFault::OutOfRange);
    }
    if have_equal_names(queues) {
        return Err(ConfigFault::NameTwice);
    }
    if have_equal_alarms(alarms) {
        return Err(ConfigFault::NameTwice);
    }
    let configured = configured_queues(alloc, queues)?;
    let rules = configured_alarms(alloc, queues, alarms)?;
    Ok(Config {
        limits,
        queues: configured,
        alarms: rules,
    })
}
