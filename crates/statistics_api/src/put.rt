//! Members of JSON objects, put in one after another.

ghost use Rattle.std.specs.Prelude.{◌≡◌, OnOk, IfErr};
ghost use Rattle.message.specs.declared.fault.Fault.TheVariants.{OutOfMemory};
ghost use Rattle.serde_json.specs.Data.{put};
ghost use Rattle.serde_json.specs.View.{view, members_view};
ghost use Rattle.statistics_api.specs.Texts.{put_count, put_flows, put_gauges};

use message::Fault;
use metric_window::{Flows, Gauges};
use serde_json::{Map, Value};
use std::alloc::Global;

/// Puts a value among the members.
pub(crate) fn put_value(
    alloc: Global,
    members: &mut Map<String, Value>,
    key: &str,
    value: Value,
) -> Result<(), Fault>
    ensures ok { OnOk result (members_view members.new.entries ≡ put key.now (view value) (members_view members.old.entries)) }
    ensures errors { IfErr result (λ fault. fault ≡ OutOfMemory) }
{
    let key = String::from_str(alloc, key)?;
    members.insert(key, value)?;
    Ok(())
}

/// Puts a whole number among the members.
pub(crate) fn put_count(
    alloc: Global,
    members: &mut Map<String, Value>,
    key: &str,
    count: u64,
) -> Result<(), Fault>
    ensures ok { OnOk result (members_view members.new.entries ≡ put_count key.now count (members_view members.old.entries)) }
    ensures errors { IfErr result (λ fault. fault ≡ OutOfMemory) }
{
    put_value(alloc, members, key, Value::from(count))
}

/// Puts what happened in a minute among the members.
pub(crate) fn put_flows(
    alloc: Global,
    members: &mut Map<String, Value>,
    flows: &Flows,
) -> Result<(), Fault>
    ensures ok { OnOk result (members_view members.new.entries ≡ put_flows flows.now (members_view members.old.entries)) }
    ensures errors { IfErr result (λ fault. fault ≡ OutOfMemory) }
{
    put_count(
        alloc,
        members,
        "deadLettersArrived",
        flows.dead_letters_arrived,
    )?;
    put_count(alloc, members, "deleted", flows.deleted)?;
    put_count(alloc, members, "emptyReceives", flows.empty_receives)?;
    put_count(alloc, members, "received", flows.received)?;
    put_count(alloc, members, "refused", flows.refused)?;
    put_count(alloc, members, "sent", flows.sent)?;
    put_count(alloc, members, "sentSize", flows.sent_size)
}

/// Puts what stands in a queue among the members.
pub(crate) fn put_gauges(
    alloc: Global,
    members: &mut Map<String, Value>,
    gauges: &Gauges,
) -> Result<(), Fault>
    ensures ok { OnOk result (members_view members.new.entries ≡ put_gauges gauges.now (members_view members.old.entries)) }
    ensures errors { IfErr result (λ fault. fault ≡ OutOfMemory) }
{
    put_count(alloc, members, "age", gauges.age)?;
    put_count(alloc, members, "delayed", gauges.delayed)?;
    put_count(alloc, members, "inFlight", gauges.in_flight)?;
    put_count(alloc, members, "visible", gauges.visible)
}
