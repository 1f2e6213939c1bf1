//! The alarms of a queue.

ghost use Rattle.std.specs.Prelude.{◌≡◌, slice_get, IfOk, IfErr};
ghost use Rattle.message.specs.declared.fault.Fault.TheVariants.{OutOfMemory};
ghost use Rattle.board.specs.Queue.{alarms_of};

use alarm::AlarmState;
use message::{Fault, QueueName};
use queue_core::QueueState;
use std::alloc::Global;

/// The alarm at a place among those of a queue, counted from 0, with its state.
fn alarm_at(queue: &QueueState, index: usize) -> Option<(QueueName, AlarmState)>
    ensures { result ≡ slice_get (alarms_of queue.now) index }
{
    let name = queue.alarm_name(index)?;
    let state = queue.alarm_state(index)?;
    Some((name, state))
}

/// The alarms of a queue with their states, in the order of their rules. `OutOfMemory` is the only refusal.
pub(crate) fn alarms_of(
    alloc: Global,
    queue: &QueueState,
) -> Result<Vec<(QueueName, AlarmState)>, Fault>
    ensures ok { IfOk result (λ alarms. alarms.items ≡ alarms_of queue.now) }
    ensures errors { IfErr result (λ fault. fault ≡ OutOfMemory) }
{
    let mut alarms = Vec::new(alloc);
    while let Some(alarm) = alarm_at(queue, alarms.len()) {
        alarms.push(alarm)?;
    }
    Ok(alarms)
}
