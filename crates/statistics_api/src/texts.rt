//! Statistics as JSON texts, without blanks.

ghost use Rattle.std.specs.Prelude.{◌≡◌, Ok, string_bytes};
ghost use Rattle.message.specs.Fault.{Meets};
ghost use Rattle.serde_json.specs.Data.{array, object, member, no_members};
ghost use Rattle.serde_json.specs.View.{view, items_view};
ghost use Rattle.statistics_api.specs.Steps.{result_map};
ghost use Rattle.statistics_api.specs.Texts.{sheet_text, sheets_text, rows_text, alarms_text};

use crate::order::by_name;
use crate::values::{alarm_values, row_values, sheet_value, sheet_values};
use alarm::AlarmState;
use board::Sheet;
use message::{Fault, QueueName};
use metric_window::Row;
use serde_json::{Value, json};
use std::alloc::Global;

/// Values, one after another, under a key.
fn list_value(alloc: Global, key: &str, values: Vec<Value>) -> Result<Value, Fault>
    ensures { Meets (result_map view result) (Ok (object (member key.now (array (items_view values.items)) no_members))) }
{
    Ok(json!(in alloc; {key: values})?)
}

/// The text of a queue's statistics (this project's own choice, as the three others here).
/// `OutOfMemory` is the only refusal.
pub fn sheet_text(alloc: Global, sheet: &Sheet) -> Result<String, Fault>
    ensures { Meets (result_map (λ s. string_bytes s) result) (Ok (sheet_text sheet.now)) }
{
    let value = sheet_value(alloc, sheet)?;
    let text = value.to_string(alloc)?;
    Ok(text)
}

/// The text of the statistics of queues, in the order of their names. `OutOfMemory` is the only
/// refusal.
pub fn sheets_text(alloc: Global, sheets: &[Sheet]) -> Result<String, Fault>
    ensures { Meets (result_map (λ s. string_bytes s) result) (Ok (sheets_text sheets.now)) }
{
    let order = by_name(alloc, sheets)?;
    let queues = sheet_values(alloc, order.as_slice())?;
    let value = list_value(alloc, "queues", queues)?;
    let text = value.to_string(alloc)?;
    Ok(text)
}

/// The text of rows, in their order. `OutOfMemory` is the only refusal.
pub fn rows_text(alloc: Global, rows: &[Row]) -> Result<String, Fault>
    ensures { Meets (result_map (λ s. string_bytes s) result) (Ok (rows_text rows.now)) }
{
    let rows = row_values(alloc, rows)?;
    let value = list_value(alloc, "rows", rows)?;
    let text = value.to_string(alloc)?;
    Ok(text)
}

/// The text of alarms, each by its name and its state, in their order. `OutOfMemory` is the only
/// refusal.
pub fn alarms_text(alloc: Global, alarms: &[(QueueName, AlarmState)]) -> Result<String, Fault>
    ensures { Meets (result_map (λ s. string_bytes s) result) (Ok (alarms_text alarms.now)) }
{
    let alarms = alarm_values(alloc, alarms)?;
    let value = list_value(alloc, "alarms", alarms)?;
    let text = value.to_string(alloc)?;
    Ok(text)
}
