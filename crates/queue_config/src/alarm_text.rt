//! The alarms of a configuration, a table each. Which keys there are, and which fault comes first, is
//! this project's own choice.

ghost use Rattle.std.specs.Prelude.{◌≡◌, [], Ok, option_map};
ghost use Rattle.toml.specs.View.{view, items_view, table_view};
ghost use Rattle.queue_config.specs.AlarmRules.{most_minutes, most_threshold, metric_named, operator_named};
ghost use Rattle.queue_config.specs.AlarmText.{alarm_numbers, alarm_keys, no_alarm_keys, alarm_in};
ghost use Rattle.queue_config.specs.ConfigFault.{IsReadAs};
ghost use Rattle.queue_config.specs.ConfigKeys.{number_between, word_in, with_key, with_keys, with_tables, tables_in};
ghost use Rattle.queue_config.specs.private.ConfigKeys.{items_of};

use crate::alarm_rule::AlarmRule;
use crate::config_fault::ConfigFault;
use crate::config_text::{name_in, number_between};
use crate::metric::{Metric, metric_named};
use crate::operator::{Operator, operator_named};
use crate::requested_alarms::RequestedAlarm;
use message::QueueName;
use std::alloc::Global;
use std::marker::Model;
use toml::{Table, Value};

/// How many minutes a rule looks at most.
const MOST_MINUTES: u32 = 180;

/// A number of minutes, 1 to 180 by the type.
#[derive(Clone, Copy, Debug)]
pub(crate) struct Minutes {
    pub(crate) count: u8,
}

impl Model for Minutes {
    ghost use Rattle.std.specs.Prelude.{ℕ};
    ghost use Rattle.queue_config.specs.private.AlarmRules.{IsMinutes};

    ghost Value = { ℕ };

    ghost view = { λ minutes. minutes.count };

    ghost invariant = { λ minutes. IsMinutes minutes.count };

    ghost inverse = { λ n. record { count = n } };
}

/// What a metric is compared with: a number that TOML can write, so below 2^63 by the type.
#[derive(Clone, Copy, Debug)]
pub(crate) struct Threshold {
    pub(crate) number: u64,
}

impl Model for Threshold {
    ghost use Rattle.std.specs.Prelude.{ℕ, ◌≤◌};
    ghost use Rattle.queue_config.specs.AlarmRules.{most_threshold};

    ghost Value = { ℕ };

    ghost view = { λ threshold. threshold.number };

    ghost invariant = { λ threshold. threshold.number ≤ most_threshold };

    ghost inverse = { λ n. record { number = n } };
}

/// What an alarm's table says so far.
#[derive(Clone, Copy, Debug)]
pub(crate) struct AlarmTable {
    pub(crate) queue: Option<QueueName>,
    pub(crate) name: Option<QueueName>,
    pub(crate) metric: Option<Metric>,
    pub(crate) operator: Option<Operator>,
    pub(crate) threshold: Option<Threshold>,
    pub(crate) minutes: Option<Minutes>,
    pub(crate) breaches: Option<Minutes>,
}

/// The metric that a value names.
fn metric_in(value: &Value) -> Result<Metric, ConfigFault>
    ensures { result ≡ word_in metric_named (view value.now) }
{
    let text = value.as_str().ok_or(ConfigFault::WrongKind)?;
    metric_named(text).ok_or(ConfigFault::OutOfRange)
}

/// The operator that a value names.
fn operator_in(value: &Value) -> Result<Operator, ConfigFault>
    ensures { result ≡ word_in operator_named (view value.now) }
{
    let text = value.as_str().ok_or(ConfigFault::WrongKind)?;
    operator_named(text).ok_or(ConfigFault::OutOfRange)
}

/// The threshold that a value is.
fn threshold_in(value: &Value) -> Result<Threshold, ConfigFault>
    ensures { result ≡ number_between 0 most_threshold (view value.now) }
{
    match value.as_integer() {
        Some(number) if 0 <= number => Ok(Threshold {
            number: number as u64,
        }),
        Some(_) => Err(ConfigFault::OutOfRange),
        None => Err(ConfigFault::WrongKind),
    }
}

/// The number of minutes that a value is.
fn minutes_in(value: &Value) -> Result<Minutes, ConfigFault>
    ensures { result ≡ number_between 1 most_minutes (view value.now) }
{
    let count = number_between(value, 1, MOST_MINUTES)? as u8;
    Ok(Minutes { count })
}

/// What an alarm's table says after one more key that has a number.
fn with_alarm_number(alarm: AlarmTable, key: &str, value: &Value) -> Result<AlarmTable, ConfigFault>
    ensures { result ≡ with_key alarm_numbers alarm key.now (view value.now) }
{
    if key == "threshold" {
        let threshold = Some(threshold_in(value)?);
        Ok(AlarmTable { threshold, ..alarm })
    } else if key == "minutes" {
        let minutes = Some(minutes_in(value)?);
        Ok(AlarmTable { minutes, ..alarm })
    } else if key == "breaches" {
        let breaches = Some(minutes_in(value)?);
        Ok(AlarmTable { breaches, ..alarm })
    } else {
        Err(ConfigFault::UnknownKey)
    }
}

/// What an alarm's table says after one more key of it.
fn with_alarm_key(alarm: AlarmTable, key: &str, value: &Value) -> Result<AlarmTable, ConfigFault>
    ensures { result ≡ with_key alarm_keys alarm key.now (view value.now) }
{
    if key == "queue" {
        let queue = Some(name_in(value)?);
        Ok(AlarmTable { queue, ..alarm })
    } else if key == "name" {
        let name = Some(name_in(value)?);
        Ok(AlarmTable { name, ..alarm })
    } else if key == "metric" {
        let metric = Some(metric_in(value)?);
        Ok(AlarmTable { metric, ..alarm })
    } else if key == "operator" {
        let operator = Some(operator_in(value)?);
        Ok(AlarmTable { operator, ..alarm })
    } else {
        with_alarm_number(alarm, key, value)
    }
}

/// What an alarm's table says, key by key.
fn with_alarm_keys(table: &Table) -> Result<AlarmTable, ConfigFault>
    ensures { result ≡ with_keys alarm_keys no_alarm_keys (table_view table.now) }
{
    let mut alarm = AlarmTable {
        queue: None,
        name: None,
        metric: None,
        operator: None,
        threshold: None,
        minutes: None,
        breaches: None,
    };
    for (key, value) in table {
        alarm = with_alarm_key(alarm, key.as_str(), value)?;
    }
    Ok(alarm)
}

/// The alarm of a table. Each key but `breaches` has to be there; without it each of the minutes has
/// to be a breach. More breaches than minutes are out of range.
fn alarm_in(value: &Value) -> Result<RequestedAlarm, ConfigFault>
    ensures { result ≡ alarm_in (view value.now) }
{
    let table = value.as_table().ok_or(ConfigFault::WrongKind)?;
    let alarm = with_alarm_keys(table)?;
    let queue = alarm.queue.ok_or(ConfigFault::WrongKind)?;
    let name = alarm.name.ok_or(ConfigFault::WrongKind)?;
    let metric = alarm.metric.ok_or(ConfigFault::WrongKind)?;
    let operator = alarm.operator.ok_or(ConfigFault::WrongKind)?;
    let threshold = alarm.threshold.ok_or(ConfigFault::WrongKind)?.number;
    let minutes = alarm.minutes.ok_or(ConfigFault::WrongKind)?;
    let breaches = alarm.breaches.unwrap_or(minutes).count;
    let minutes = minutes.count;
    if minutes < breaches {
        return Err(ConfigFault::OutOfRange);
    }
    let rule = AlarmRule {
        name,
        metric,
        operator,
        threshold,
        minutes,
        breaches,
    };
    Ok(RequestedAlarm { queue, rule })
}

/// The alarms of tables, one after another.
fn with_alarms(alloc: Global, tables: &[Value]) -> Result<Vec<RequestedAlarm>, ConfigFault>
    ensures { IsReadAs (items_of result) (with_tables alarm_in [] (items_view tables.now)) }
{
    let mut alarms = Vec::new(alloc);
    for table in tables {
        alarms.push(alarm_in(table)?)?;
    }
    Ok(alarms)
}

/// The alarms, which need not be there.
pub(crate) fn alarms_in(
    alloc: Global,
    value: Option<&Value>,
) -> Result<Vec<RequestedAlarm>, ConfigFault>
    ensures read { IsReadAs (items_of result) (tables_in alarm_in (option_map (λ v. view v.now) value.entry)) }
    ensures none { value.entry ≡ None → items_of result ≡ Ok [] }
{
    match value {
        Some(value) => {
            let tables = value.as_array().ok_or(ConfigFault::WrongKind)?;
            with_alarms(alloc, tables.as_slice())
        }
        None => Ok(Vec::new(alloc)),
    }
}
