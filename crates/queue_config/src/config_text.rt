//! A configuration as TOML (TOML 1.1). Which tables and keys there are, and which fault comes first,
//! is this project's own choice.

ghost use Rattle.std.specs.Prelude.{◌≡◌, ◌≤◌, [], false, Ok, Err, option_map, IfOk};
ghost use Rattle.std.specs.Option.{ForSome};
ghost use Rattle.std.specs.Str.{is_utf8};
ghost use Rattle.toml.specs.Data.{get_member, no_members};
ghost use Rattle.toml.specs.View.{view, items_view, table_view};
ghost use Rattle.queue_config.specs.Config.{default_configuration};
ghost use Rattle.queue_config.specs.ConfigFault.{IsReadAs};
ghost use Rattle.queue_config.specs.Limits.{default_limits};
ghost use Rattle.queue_config.specs.Policy.{IsReceiveLimit};
ghost use Rattle.queue_config.specs.SettingRows.{setting_row, IsInRange};
ghost use Rattle.queue_config.specs.ConfigKeys.{number_between, name_in, with_key, with_keys, with_tables, tables_in};
ghost use Rattle.queue_config.specs.private.ConfigKeys.{items_of};
ghost use Rattle.queue_config.specs.ConfigText.{limit_keys, limits_in, queue_keys, no_keys, policy_of_keys, queue_in, is_top_key, have_top_keys, configuration_of_table, configuration_of, configuration_of_bytes};
ghost use Rattle.queue_config.specs.private.ConfigText.{with_setting_key};

use crate::alarm_text::alarms_in;
use crate::config::Config;
use crate::config_fault::ConfigFault;
use crate::limits::{IN_FLIGHT, Limits, MAX_LINES};
use crate::policy::{ReceiveLimit, RequestedPolicy};
use crate::requested_queues::{RequestedQueue, together};
use crate::setting::{Setting, setting_row, setting_with_key};
use crate::wish::Wish;
use message::QueueName;
use std::alloc::Global;
use toml::{Table, Value};

/// What a queue's table says so far.
#[derive(Clone, Copy, Debug)]
pub(crate) struct QueueTable {
    pub(crate) name: Option<QueueName>,
    pub(crate) dead_letter_queue: Option<QueueName>,
    pub(crate) max_receive_count: Option<ReceiveLimit>,
    /// The numbers alone.
    pub(crate) wish: Wish,
}

/// The value at a key.
fn value_at<'a>(table: &'a Table, key: &str) -> Option<&'a Value>
    ensures { option_map (λ v. view v.now) result ≡ get_member key.now (table_view table.now) }
{
    table.get(key)
}

/// The whole number that a value is, between two bounds.
pub(crate) fn number_between(value: &Value, least: u32, most: u32) -> Result<u32, ConfigFault>
    ensures value { result ≡ number_between least most (view value.now) }
    ensures least { IfOk result (λ n. least ≤ n) }
    ensures most { IfOk result (λ n. n ≤ most) }
{
    match value.as_integer() {
        Some(number) if i64::from(least) <= number && number <= i64::from(most) => {
            Ok(number as u32)
        }
        Some(_) => Err(ConfigFault::OutOfRange),
        None => Err(ConfigFault::WrongKind),
    }
}

/// The name of a queue that a value is.
pub(crate) fn name_in(value: &Value) -> Result<QueueName, ConfigFault>
    ensures { result ≡ name_in (view value.now) }
{
    let text = value.as_str().ok_or(ConfigFault::WrongKind)?;
    match QueueName::read(text) {
        Ok(name) => Ok(name),
        Err(_) => Err(ConfigFault::OutOfRange),
    }
}

/// The limits after one more key of their table.
fn with_limit_key(limits: Limits, key: &str, value: &Value) -> Result<Limits, ConfigFault>
    ensures { result ≡ with_key limit_keys limits key.now (view value.now) }
{
    if key == IN_FLIGHT.key {
        let in_flight = number_between(value, IN_FLIGHT.least, IN_FLIGHT.most)?;
        Ok(Limits {
            in_flight,
            ..limits
        })
    } else if key == MAX_LINES.key {
        let max_lines = number_between(value, MAX_LINES.least, MAX_LINES.most)?;
        Ok(Limits {
            max_lines,
            ..limits
        })
    } else {
        Err(ConfigFault::UnknownKey)
    }
}

/// The limits of a table, key by key.
fn with_limit_keys(table: &Table) -> Result<Limits, ConfigFault>
    ensures { result ≡ with_keys limit_keys default_limits (table_view table.now) }
{
    let mut limits = Limits::default();
    for (key, value) in table {
        limits = with_limit_key(limits, key.as_str(), value)?;
    }
    Ok(limits)
}

/// The limits, which need not be there.
fn limits_in(value: Option<&Value>) -> Result<Limits, ConfigFault>
    ensures { result ≡ limits_in (option_map (λ v. view v.now) value.entry) }
{
    match value {
        Some(value) => with_limit_keys(value.as_table().ok_or(ConfigFault::WrongKind)?),
        None => Ok(Limits::default()),
    }
}

/// The number of a setting that a value is.
fn setting_in(value: &Value, setting: Setting) -> Result<u32, ConfigFault>
    ensures value { result ≡ number_between (setting_row setting).least (setting_row setting).most (view value.now) }
    ensures range { IfOk result (λ n. IsInRange setting n) }
{
    let row = setting_row(setting);
    number_between(value, row.least, row.most)
}

/// What a queue's table says after the value of a setting.
fn with_setting_key(
    setting: Option<Setting>,
    queue: QueueTable,
    value: &Value,
) -> Result<QueueTable, ConfigFault>
    ensures { result ≡ with_setting_key setting queue (view value.now) }
{
    let setting = setting.ok_or(ConfigFault::UnknownKey)?;
    let number = setting_in(value, setting)?;
    let wish = queue.wish.with_setting_value(setting, number);
    Ok(QueueTable { wish, ..queue })
}

/// The number of receives that a value is.
fn receive_limit_in(value: &Value) -> Result<ReceiveLimit, ConfigFault>
    ensures { result ≡ number_between 1 1000 (view value.now) }
{
    let count = number_between(value, 1, 1000)? as u16;
    Ok(ReceiveLimit { count })
}

/// What a queue's table says after one more key of it.
fn with_queue_key(queue: QueueTable, key: &str, value: &Value) -> Result<QueueTable, ConfigFault>
    ensures { result ≡ with_key queue_keys queue key.now (view value.now) }
{
    if key == "name" {
        let name = Some(name_in(value)?);
        return Ok(QueueTable { name, ..queue });
    }
    if key == "dead_letter_queue" {
        let dead_letter_queue = Some(name_in(value)?);
        return Ok(QueueTable {
            dead_letter_queue,
            ..queue
        });
    }
    if key == "max_receive_count" {
        let max_receive_count = Some(receive_limit_in(value)?);
        return Ok(QueueTable {
            max_receive_count,
            ..queue
        });
    }
    with_setting_key(setting_with_key(key), queue, value)
}

/// What a queue's table says, key by key.
fn with_queue_keys(table: &Table) -> Result<QueueTable, ConfigFault>
    ensures { result ≡ with_keys queue_keys no_keys (table_view table.now) }
{
    let mut queue = QueueTable {
        name: None,
        dead_letter_queue: None,
        max_receive_count: None,
        wish: Wish::new(),
    };
    for (key, value) in table {
        queue = with_queue_key(queue, key.as_str(), value)?;
    }
    Ok(queue)
}

/// The policy of its two keys. Both have to be there, or neither.
fn policy_of_keys(
    dead_letter_queue: Option<QueueName>,
    max_receive_count: Option<ReceiveLimit>,
) -> Result<Option<RequestedPolicy>, ConfigFault>
    ensures policy { result ≡ policy_of_keys dead_letter_queue max_receive_count }
    ensures range { IfOk result (λ policy. ForSome policy (λ policy. IsReceiveLimit policy.max_receive_count)) }
{
    match (dead_letter_queue, max_receive_count) {
        (None, None) => Ok(None),
        (Some(name), Some(limit)) => Ok(Some(RequestedPolicy {
            name,
            max_receive_count: limit.count,
        })),
        _ => Err(ConfigFault::WrongKind),
    }
}

/// The queue of a table. Its name has to be there.
fn queue_in(value: &Value) -> Result<RequestedQueue, ConfigFault>
    ensures { result ≡ queue_in (view value.now) }
{
    let table = value.as_table().ok_or(ConfigFault::WrongKind)?;
    let queue = with_queue_keys(table)?;
    let name = queue.name.ok_or(ConfigFault::WrongKind)?;
    let policy = policy_of_keys(queue.dead_letter_queue, queue.max_receive_count)?;
    let wish = queue.wish.with_policy(policy);
    Ok(RequestedQueue { name, wish })
}

/// The queues of tables, one after another.
fn with_queues(alloc: Global, tables: &[Value]) -> Result<Vec<RequestedQueue>, ConfigFault>
    ensures { IsReadAs (items_of result) (with_tables queue_in [] (items_view tables.now)) }
{
    let mut queues = Vec::new(alloc);
    for table in tables {
        queues.push(queue_in(table)?)?;
    }
    Ok(queues)
}

/// The queues, which need not be there.
fn queues_in(alloc: Global, value: Option<&Value>) -> Result<Vec<RequestedQueue>, ConfigFault>
    ensures read { IsReadAs (items_of result) (tables_in queue_in (option_map (λ v. view v.now) value.entry)) }
    ensures none { value.entry ≡ None → items_of result ≡ Ok [] }
{
    match value {
        Some(value) => {
            let tables = value.as_array().ok_or(ConfigFault::WrongKind)?;
            with_queues(alloc, tables.as_slice())
        }
        None => Ok(Vec::new(alloc)),
    }
}

/// Whether a configuration knows the key.
fn is_top_key(key: &str) -> bool
    ensures { result ≡ is_top_key key.now }
{
    key == "limits" || key == "queue" || key == "alarm"
}

/// Whether a configuration knows each key of a table.
fn have_top_keys(table: &Table) -> bool
    ensures { result ≡ have_top_keys (table_view table.now) }
{
    for (key, _) in table {
        if !is_top_key(key.as_str()) {
            return false;
        }
    }
    true
}

/// The configuration of the whole tree.
fn configuration_of_table(alloc: Global, table: &Table) -> Result<Config, ConfigFault>
    ensures read { IsReadAs result (configuration_of_table (table_view table.now)) }
    ensures empty { table_view table.now ≡ no_members → result ≡ Ok default_configuration }
{
    if !have_top_keys(table) {
        return Err(ConfigFault::UnknownKey);
    }
    let limits = limits_in(value_at(table, "limits"))?;
    let queues = queues_in(alloc, value_at(table, "queue"))?;
    let alarms = alarms_in(alloc, value_at(table, "alarm"))?;
    together(alloc, limits, queues.as_slice(), alarms.as_slice())
}

/// Reads a configuration, or tells the first fault: a text that is no TOML; then an unknown key at
/// the top; then `limits`, which has to be a table, and its keys; then `queue`, which has to be an
/// array, and each of its tables in their order, and `alarm` likewise; then more than 1,000 queues, or
/// more than 16 alarms of one queue; then two queues of one name, or two alarms of one queue and name;
/// then a dead-letter queue that is not in the text or is the queue itself, or an alarm's queue that is
/// not in the text. Of a table the keys are judged in the order of their bytes, each as unknown, of
/// another kind, or out of range; then what is missing; and then more breaches than minutes. An empty
/// text has the default limits, no queue and no alarm, and takes no memory; for any other `OutOfMemory`
/// may come at any point.
pub fn config_from_text(alloc: Global, text: &str) -> Result<Config, ConfigFault>
    ensures config { IsReadAs result (configuration_of text.now) }
    ensures empty { text.now ≡ [] → result ≡ Ok default_configuration }
{
    let table = match toml::table_from_str(alloc, text) {
        Ok(table) => table,
        Err(error) if error.is_memory() => return Err(ConfigFault::OutOfMemory),
        Err(_) => return Err(ConfigFault::Syntax),
    };
    configuration_of_table(alloc, &table)
}

/// The same for the bytes of a file. Bytes that are no UTF-8 are no TOML, so that they are `Syntax`.
pub fn config_from_bytes(alloc: Global, bytes: &[u8]) -> Result<Config, ConfigFault>
    ensures config { IsReadAs result (configuration_of_bytes bytes.now) }
    ensures no_text { is_utf8 bytes.now ≡ false → result ≡ Err ConfigFault.Syntax }
{
    match str::from_utf8(bytes) {
        Ok(text) => config_from_text(alloc, text),
        Err(_) => Err(ConfigFault::Syntax),
    }
}
