//! The alarms of a queue: its own rules, judged by the rows of its last minutes.

ghost use Rattle.std.specs.Prelude.{◌≡◌, ◌<◌, length, map, slice_get, option_map, IfOk, IfErr, OnErr};
ghost use Rattle.message.specs.declared.fault.Fault.TheVariants.{OutOfMemory};
ghost use Rattle.message.specs.Content.{content_size};
ghost use Rattle.alarm.specs.KeptAlarm.{kept_state};

use crate::state::QueueState;
use alarm::{Alarm, AlarmState};
use message::{Fault, QueueName};
use std::alloc::Global;

impl QueueState {
    ghost use Rattle.queue_core.specs.Metrics.{alarm_state_in};

    /// The state of the alarm at a place among those of the queue, counted from 0, in their order.
    pub fn alarm_state(&self, index: usize) -> Option<AlarmState>
        ensures { result
            ≡ option_map (λ rule. alarm_state_in content_size self.now.lines self.now.clock rule) (slice_get self.now.rules index) }
    {
        match self.watch.alarms.get(index) {
            Some(alarm) => Some(alarm.state()),
            None => None,
        }
    }

    /// The states of all alarms of the queue, in their order. `OutOfMemory` is the only refusal, where there is an
    /// alarm.
    pub fn alarm_states(&self, alloc: Global) -> Result<Vec<AlarmState>, Fault>
        ensures states { IfOk result (λ states. states.items
            ≡ map (λ rule. alarm_state_in content_size self.now.lines self.now.clock rule) self.now.rules) }
        ensures fault { IfErr result (λ fault. fault ≡ OutOfMemory) }
        ensures wants { OnErr result (0 < length self.now.rules) }
    {
        states_of(alloc, self.watch.alarms.as_slice())
    }

    /// The name of the alarm at a place among those of the queue, counted from 0, in their order.
    pub fn alarm_name(&self, index: usize) -> Option<QueueName>
        ensures { result ≡ option_map (λ rule. rule.name) (slice_get self.now.rules index) }
    {
        let rule = self.rules.get(index)?;
        Some(rule.name)
    }
}

/// The states of alarms, in their order. `OutOfMemory` is the only refusal, where there is an alarm.
#[tactic(auto, using(std::proofs::lemmas::List::map_more))]
fn states_of(alloc: Global, alarms: &[Alarm]) -> Result<Vec<AlarmState>, Fault>
    ensures states { IfOk result (λ states. states.items ≡ map (λ alarm. kept_state alarm) alarms.now) }
    ensures fault { IfErr result (λ fault. fault ≡ OutOfMemory) }
    ensures wants { OnErr result (0 < length alarms.now) }
{
    let mut states = Vec::new(alloc);
    for alarm in alarms {
        states.push(alarm.state())?;
    }
    Ok(states)
}
