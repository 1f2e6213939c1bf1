//! Whether a minute is a breach of a rule.

ghost use Rattle.std.specs.Prelude.{◌≡◌};
ghost use Rattle.alarm.specs.AlarmState.{metric_value, compares, satisfies};

use metric_window::Row;
use queue_config::{AlarmRule, Metric, Operator};

/// The value of a metric in a minute (Amazon SQS metrics for CloudWatch; RefusedCalls and
/// DeadLettersArrived are this project's own). SentMessageSize is bytes, ApproximateAgeOfOldestMessage
/// seconds, and every other a count.
pub fn metric_value(metric: Metric, row: &Row) -> u64
    ensures { result ≡ metric_value metric row.now }
{
    match metric {
        Metric::NumberOfMessagesSent => row.flows.sent,
        Metric::SentMessageSize => row.flows.sent_size,
        Metric::NumberOfMessagesReceived => row.flows.received,
        Metric::NumberOfEmptyReceives => row.flows.empty_receives,
        Metric::NumberOfMessagesDeleted => row.flows.deleted,
        Metric::ApproximateNumberOfMessagesVisible => row.gauges.visible,
        Metric::ApproximateNumberOfMessagesDelayed => row.gauges.delayed,
        Metric::ApproximateNumberOfMessagesNotVisible => row.gauges.in_flight,
        Metric::ApproximateAgeOfOldestMessage => row.gauges.age,
        Metric::RefusedCalls => row.flows.refused,
        Metric::DeadLettersArrived => row.flows.dead_letters_arrived,
    }
}

/// Whether a value compares with a threshold as the operator says.
fn compares(operator: Operator, value: u64, threshold: u64) -> bool
    ensures { result ≡ compares operator value threshold }
{
    match operator {
        Operator::GreaterThanThreshold => value > threshold,
        Operator::GreaterThanOrEqualToThreshold => value >= threshold,
        Operator::LessThanThreshold => value < threshold,
        Operator::LessThanOrEqualToThreshold => value <= threshold,
    }
}

/// Whether the minute is a breach of the rule: whether the value of its metric compares with its
/// threshold as its operator says.
pub fn satisfies(rule: &AlarmRule, row: &Row) -> bool
    ensures { result ≡ satisfies rule.now row.now }
{
    let value = metric_value(rule.metric, row);
    compares(rule.operator, value, rule.threshold)
}
