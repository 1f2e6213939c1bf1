//! The states of an alarm.

ghost use Rattle.std.specs.Prelude.{◌≡◌};
ghost use Rattle.alarm.specs.AlarmState.{breaches_in, state_with, alarm_state_of, alarm_state_name};

use crate::minute::satisfies;
use metric_window::Row;
use queue_config::AlarmRule;

/// The state of an alarm, as CloudWatch names them.
#[derive(Clone, Copy, Debug, PartialEq, Eq)]
pub enum AlarmState {
    /// INSUFFICIENT_DATA: the queue has not been there for as many minutes as the rule looks at.
    InsufficientData,
    /// OK.
    Okay,
    /// ALARM: enough of the minutes that the rule looks at satisfy it.
    Alarm,
}

impl AlarmState {
    /// The state as it is written, in the words of CloudWatch (`StateValue`).
    pub fn name(self) -> &'static str
        ensures { result.now ≡ alarm_state_name self }
    {
        match self {
            AlarmState::InsufficientData => "INSUFFICIENT_DATA",
            AlarmState::Okay => "OK",
            AlarmState::Alarm => "ALARM",
        }
    }
}

/// How many of the minutes are breaches of the rule.
pub fn breaches_in(rule: &AlarmRule, rows: &[Row]) -> usize
    ensures { result ≡ breaches_in rule.now rows.now }
{
    rows.iter().filter(|row| satisfies(rule, row)).count()
}

/// The state of a rule. `complete` is how many minutes are over since the queue's creation, and
/// `breaching` how many breaches are among the last of them, as many as the rule looks at. Fewer
/// complete minutes than that are not enough data. That the states come so is this project's own choice.
pub fn state_with(rule: &AlarmRule, complete: u64, breaching: u64) -> AlarmState
    ensures { result ≡ state_with rule.now complete breaching }
{
    if complete < u64::from(rule.minutes) {
        AlarmState::InsufficientData
    } else if u64::from(rule.breaches) <= breaching {
        AlarmState::Alarm
    } else {
        AlarmState::Okay
    }
}

/// The same, where `rows` are those of the last minutes, as many as the rule looks at.
pub fn alarm_state_of(rule: &AlarmRule, complete: u64, rows: &[Row]) -> AlarmState
    ensures { result ≡ alarm_state_of rule.now complete rows.now }
{
    state_with(rule, complete, breaches_in(rule, rows) as u64)
}
