//! What a program is started with.

ghost use Rattle.std.specs.Prelude.{◌≡◌, [], IfOk, IfErr};
ghost use Rattle.message.specs.declared.fault.Fault.TheVariants.{OutOfMemory};
ghost use Rattle.queue_config.specs.Config.{rules_of};

use crate::alarm_rule::AlarmRule;
use crate::limits::Limits;
use crate::settings::Settings;
use message::{Fault, QueueName};
use std::alloc::Global;
use std::marker::Model;

/// How many queues there may be at a time. This project's own choice.
pub const QUEUE_LIMIT: usize = 1000;

/// A queue that is there from the start.
#[derive(Clone, Copy, Debug, PartialEq, Eq)]
pub struct ConfiguredQueue {
    pub name: QueueName,
    pub settings: Settings,
}

/// An alarm of a queue that is there from the start.
#[derive(Clone, Copy, Debug, PartialEq, Eq)]
pub struct ConfiguredAlarm {
    /// The queue's uid, which is its place among the queues, plus one.
    pub queue: u64,
    pub rule: AlarmRule,
}

/// What a program is started with: the limits of every queue, and the queues that are there from the
/// start, at most 1,000 and no two of one name. Their uids are 1, 2, 3 and so on, in their order, and
/// each dead-letter queue is another of them. Each alarm is of one of them, and no queue has more than
/// 16 alarms, or two of one name.
#[derive(Debug, Drop)]
pub struct Config {
    pub limits: Limits,
    pub queues: Vec<ConfiguredQueue>,
    /// In the order of the file, those of all queues.
    pub alarms: Vec<ConfiguredAlarm>,
}

impl Model for Config {
    ghost use Rattle.queue_config.specs.Config.{Configuration};
    ghost use Rattle.queue_config.specs.private.Config.{IsConfiguration};

    ghost Value = { Configuration };

    ghost view = { λ c. record { limits = c.limits; queues = c.queues.items; alarms = c.alarms.items } };

    ghost invariant = { λ c. IsConfiguration c.queues.items c.alarms.items };
}

impl Config {
    /// These limits, no queue and no alarm. It takes no memory.
    #[tactic(auto, using(crate::proofs::ConfigLemmas::no_queues_are_configured))]
    pub fn with_limits(alloc: Global, limits: Limits) -> Config
        ensures { result ≡ record { limits = limits; queues = []; alarms = [] } }
    {
        Config {
            limits,
            queues: Vec::new(alloc),
            alarms: Vec::new(alloc),
        }
    }
}

/// The rules of the alarms of the configured queue of a uid, in the order of the configuration.
/// `OutOfMemory` is the only refusal.
pub fn rules_of(
    alloc: Global,
    alarms: &[ConfiguredAlarm],
    uid: u64,
) -> Result<Vec<AlarmRule>, Fault>
    ensures ok { IfOk result (λ rules. rules.items ≡ rules_of alarms.now uid) }
    ensures errors { IfErr result (λ fault. fault ≡ OutOfMemory) }
{
    let mut rules = Vec::new(alloc);
    for alarm in alarms {
        if alarm.queue == uid {
            rules.push(alarm.rule)?;
        }
    }
    Ok(rules)
}
