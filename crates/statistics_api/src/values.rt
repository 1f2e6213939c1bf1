//! Statistics as JSON values.

ghost use Rattle.std.specs.Prelude.{◌≡◌, Ok, IfOk, IfErr, map};
ghost use Rattle.message.specs.Fault.{Meets};
ghost use Rattle.message.specs.declared.fault.Fault.TheVariants.{OutOfMemory};
ghost use Rattle.serde_json.specs.View.{view, items_view};
ghost use Rattle.statistics_api.specs.Steps.{result_map};
ghost use Rattle.statistics_api.specs.Texts.{flows_data, row_data, sheet_data, alarm_data, items_by};

use crate::put::{put_count, put_flows, put_gauges, put_value};
use alarm::AlarmState;
use board::Sheet;
use message::{Fault, QueueName};
use metric_window::{Flows, Row};
use serde_json::{Map, Value, json};
use std::alloc::Global;

/// What happened in a minute.
fn flows_value(alloc: Global, flows: &Flows) -> Result<Value, Fault>
    ensures { Meets (result_map view result) (Ok (flows_data flows.now)) }
{
    let mut members = Map::new(alloc);
    put_flows(alloc, &mut members, flows)?;
    Ok(Value::Object(members))
}

/// A minute: what happened in it, and what stood there at its end.
fn row_value(alloc: Global, row: &Row) -> Result<Value, Fault>
    ensures { Meets (result_map view result) (Ok (row_data row.now)) }
{
    let mut members = Map::new(alloc);
    put_count(alloc, &mut members, "minute", row.minute)?;
    put_gauges(alloc, &mut members, &row.gauges)?;
    put_flows(alloc, &mut members, &row.flows)?;
    Ok(Value::Object(members))
}

/// A queue.
pub(crate) fn sheet_value(alloc: Global, sheet: &Sheet) -> Result<Value, Fault>
    ensures { Meets (result_map view result) (Ok (sheet_data sheet.now)) }
{
    let current = flows_value(alloc, &sheet.current)?;
    let name = String::from_str(alloc, sheet.name.as_text())?;
    let mut members = Map::new(alloc);
    put_gauges(alloc, &mut members, &sheet.gauges)?;
    put_count(alloc, &mut members, "clock", sheet.clock.milliseconds())?;
    put_value(alloc, &mut members, "current", current)?;
    put_count(alloc, &mut members, "lines", sheet.lines)?;
    put_value(alloc, &mut members, "name", Value::from(name))?;
    Ok(Value::Object(members))
}

/// An alarm.
fn alarm_value(alloc: Global, alarm: &(QueueName, AlarmState)) -> Result<Value, Fault>
    ensures { Meets (result_map view result) (Ok (alarm_data alarm.now)) }
{
    let name = String::from_str(alloc, alarm.0.as_text())?;
    let state = String::from_str(alloc, alarm.1.name())?;
    Ok(json!(in alloc; {"name": name, "state": state})?)
}

/// These queues, one after another.
pub(crate) fn sheet_values(alloc: Global, sheets: &[&Sheet]) -> Result<Vec<Value>, Fault>
    ensures ok { IfOk result (λ values. items_view values.items ≡ items_by (λ s. sheet_data s.now) sheets.now) }
    ensures errors { IfErr result (λ fault. fault ≡ OutOfMemory) }
{
    let mut values = Vec::new(alloc);
    for sheet in sheets {
        values.push(sheet_value(alloc, sheet)?)?;
    }
    Ok(values)
}

/// These rows, one after another.
pub(crate) fn row_values(alloc: Global, rows: &[Row]) -> Result<Vec<Value>, Fault>
    ensures ok { IfOk result (λ values. items_view values.items ≡ items_by row_data rows.now) }
    ensures errors { IfErr result (λ fault. fault ≡ OutOfMemory) }
{
    let mut values = Vec::new(alloc);
    for row in rows {
        values.push(row_value(alloc, row)?)?;
    }
    Ok(values)
}

/// These alarms, one after another.
pub(crate) fn alarm_values(
    alloc: Global,
    alarms: &[(QueueName, AlarmState)],
) -> Result<Vec<Value>, Fault>
    ensures ok { IfOk result (λ values. items_view values.items ≡ items_by alarm_data alarms.now) }
    ensures errors { IfErr result (λ fault. fault ≡ OutOfMemory) }
{
    let mut values = Vec::new(alloc);
    for alarm in alarms {
        values.push(alarm_value(alloc, alarm)?)?;
    }
    Ok(values)
}
