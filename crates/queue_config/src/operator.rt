//! How an alarm compares a metric with its threshold.

ghost use Rattle.std.specs.Prelude.{◌≡◌};
ghost use Rattle.queue_config.specs.AlarmRules.{operator_named};

use crate::named::named_in;

/// A comparison of a metric with a threshold, as CloudWatch names them (`ComparisonOperator` of
/// `PutMetricAlarm`).
#[derive(Clone, Copy, Debug, PartialEq, Eq)]
pub enum Operator {
    GreaterThanThreshold,
    GreaterThanOrEqualToThreshold,
    LessThanThreshold,
    LessThanOrEqualToThreshold,
}

/// Every operator by its name, which is the variant's, in the order in which they are documented.
pub const OPERATORS: &[(&str, Operator)] = &[
    ("GreaterThanThreshold", Operator::GreaterThanThreshold),
    (
        "GreaterThanOrEqualToThreshold",
        Operator::GreaterThanOrEqualToThreshold,
    ),
    ("LessThanThreshold", Operator::LessThanThreshold),
    (
        "LessThanOrEqualToThreshold",
        Operator::LessThanOrEqualToThreshold,
    ),
];

/// The operator of a name; case counts.
pub fn operator_named(name: &str) -> Option<Operator>
    ensures { result ≡ operator_named name.now }
{
    named_in(OPERATORS, name)
}
