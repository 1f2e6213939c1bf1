//! The states of alarms, each judged by the metric rows of the last minutes.

ghost use Rattle.std.specs.Prelude.{◌≡◌, ℕ, ◌≤◌};
ghost use Rattle.message.specs.Content.{content_size};
ghost use Rattle.metric_window.specs.Window.{window_end};
ghost use Rattle.alarm.specs.AlarmState.{breaches_in};
ghost use Rattle.queue_core.specs.Legal.{IsOrdered};
ghost use Rattle.queue_core.specs.Metrics.{complete_minutes, last_rows, alarm_state_in};

use crate::entries::FirstEntries;
use crate::metrics::metric_row;
use crate::reading::created_time;
use alarm::{AlarmState, satisfies, state_with};
use journal::Moment;
use metric_window::{minute_of, window_end};
use queue_config::AlarmRule;

/// The state of the alarm of a rule at a time, of entries in the order of their times.
pub fn alarm_state_in(lines: &FirstEntries<'_>, clock: Moment, rule: &AlarmRule) -> AlarmState
    ensures { (from : ℕ) → IsOrdered from lines.now clock → result ≡ alarm_state_in content_size lines.now clock rule.now }
{
    let complete = complete_minutes(lines, clock);
    let minutes = u64::from(rule.minutes);
    if complete < minutes {
        return state_with(rule, complete, 0);
    }
    let breaches = breaches_in_last(lines, clock, rule, minutes);
    state_with(rule, complete, breaches)
}

/// How many minutes are over since the one in which the queue was created.
fn complete_minutes(lines: &FirstEntries<'_>, clock: Moment) -> u64
    ensures count { result ≡ complete_minutes lines.now clock }
    ensures within { result ≤ window_end clock }
{
    let created = created_time(lines);
    window_end(clock).saturating_sub(minute_of(created))
}

/// How many of the last minutes that are over are breaches of a rule.
fn breaches_in_last(lines: &FirstEntries<'_>, clock: Moment, rule: &AlarmRule, minutes: u64) -> u64
    requires { minutes ≤ window_end clock }
    ensures { (from : ℕ) → IsOrdered from lines.now clock → result ≡ breaches_in rule.now (last_rows content_size lines.now clock minutes) }
{
    let end = window_end(clock);
    let mut breaches = 0;
    for minute in end - minutes..end {
        if satisfies(rule, &metric_row(lines, clock, minute)) {
            breaches += 1;
        }
    }
    breaches
}
