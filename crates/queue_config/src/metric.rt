//! The metrics that an alarm may look at.

ghost use Rattle.std.specs.Prelude.{◌≡◌};
ghost use Rattle.queue_config.specs.AlarmRules.{metric_named};

use crate::named::named_in;

/// A metric of one minute of a queue. The names are those of the Amazon SQS metrics for CloudWatch,
/// and the last two are this project's own.
#[derive(Clone, Copy, Debug, PartialEq, Eq)]
pub enum Metric {
    /// Messages sent to the queue.
    NumberOfMessagesSent,
    /// The sizes of these added up, in bytes.
    SentMessageSize,
    /// Messages that receives offered.
    NumberOfMessagesReceived,
    /// Receives that offered nothing.
    NumberOfEmptyReceives,
    /// Deletes that succeeded.
    NumberOfMessagesDeleted,
    /// Messages that may be received, at the minute's end.
    ApproximateNumberOfMessagesVisible,
    /// Messages that are delayed, at the minute's end.
    ApproximateNumberOfMessagesDelayed,
    /// Messages in flight, at the minute's end.
    ApproximateNumberOfMessagesNotVisible,
    /// The age in seconds of the oldest message that was received fewer than three times, at the minute's end.
    ApproximateAgeOfOldestMessage,
    /// Requests that the queue itself refused.
    RefusedCalls,
    /// Messages that arrived from other queues.
    DeadLettersArrived,
}

/// Every metric by its name, which is the variant's, in the order in which they are documented.
pub const METRICS: &[(&str, Metric)] = &[
    ("NumberOfMessagesSent", Metric::NumberOfMessagesSent),
    ("SentMessageSize", Metric::SentMessageSize),
    ("NumberOfMessagesReceived", Metric::NumberOfMessagesReceived),
    ("NumberOfEmptyReceives", Metric::NumberOfEmptyReceives),
    ("NumberOfMessagesDeleted", Metric::NumberOfMessagesDeleted),
    (
        "ApproximateNumberOfMessagesVisible",
        Metric::ApproximateNumberOfMessagesVisible,
    ),
    (
        "ApproximateNumberOfMessagesDelayed",
        Metric::ApproximateNumberOfMessagesDelayed,
    ),
    (
        "ApproximateNumberOfMessagesNotVisible",
        Metric::ApproximateNumberOfMessagesNotVisible,
    ),
    (
        "ApproximateAgeOfOldestMessage",
        Metric::ApproximateAgeOfOldestMessage,
    ),
    ("RefusedCalls", Metric::RefusedCalls),
    ("DeadLettersArrived", Metric::DeadLettersArrived),
];

/// The metric of a name; case counts.
pub fn metric_named(name: &str) -> Option<Metric>
    ensures { result ≡ metric_named name.now }
{
    named_in(METRICS, name)
}
