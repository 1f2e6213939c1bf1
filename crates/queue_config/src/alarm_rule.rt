//! The rules of alarms.

use crate::metric::Metric;
use crate::operator::Operator;
use message::QueueName;
use std::marker::Model;

/// How many alarms a queue may have. This project's own choice.
pub const ALARM_LIMIT: usize = 16;

/// When an alarm is on: in at least `breaches` of the last `minutes` minutes the metric compares
/// with the threshold as the operator says. By the type the threshold is below 2^63, the minutes are
/// 1 to 180, and the breaches 1 to the minutes. This project's own choice.
#[derive(Clone, Copy, Debug, PartialEq, Eq)]
pub struct AlarmRule {
    /// The alarm's name, by the rule for names of queues.
    pub name: QueueName,
    pub metric: Metric,
    pub operator: Operator,
    /// In the unit of the metric.
    pub threshold: u64,
    /// How many minutes it looks at.
    pub minutes: u8,
    /// In how many of these it has to be so.
    pub breaches: u8,
}

impl Model for AlarmRule {
    ghost use Rattle.queue_config.specs.AlarmRules.{Rule};
    ghost use Rattle.queue_config.specs.private.AlarmRules.{IsRule};

    ghost Value = { Rule };

    ghost view = { λ r. record { name = r.name; metric = r.metric; operator = r.operator; threshold = r.threshold; minutes = r.minutes; breaches = r.breaches } };

    ghost invariant = { λ r. IsRule (record { name = r.name; metric = r.metric; operator = r.operator; threshold = r.threshold; minutes = r.minutes; breaches = r.breaches }) };

    ghost inverse = { λ v. record { name = v.name; metric = v.metric; operator = v.operator; threshold = v.threshold; minutes = v.minutes; breaches = v.breaches } };
}
