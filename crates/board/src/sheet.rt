//! A queue's statistics.

ghost use Rattle.std.specs.Prelude.{◌≡◌, IfOk, IfErr};
ghost use Rattle.message.specs.declared.fault.Fault.TheVariants.{OutOfMemory};
ghost use Rattle.board.specs.Queue.{sheet_of};

use crate::alarms::alarms_of;
use alarm::AlarmState;
use journal::Moment;
use message::{Fault, QueueName};
use metric_window::{Flows, Gauges, Row};
use queue_core::QueueState;
use std::alloc::Global;
use std::marker::Model;

/// The statistics of a queue at a moment. Contracts see its parts, rows and alarms as lists.
#[derive(Debug, Drop)]
pub struct Sheet {
    pub name: QueueName,
    /// How much its journal weighs: 1 for each entry, and for a checkpoint 1 more for each message that it keeps.
    pub lines: u64,
    /// The moment that all this speaks of.
    pub clock: Moment,
    /// What stands in the queue at that moment.
    pub gauges: Gauges,
    /// What has happened so far in the moment's minute.
    pub current: Flows,
    /// The rows of the window, oldest first.
    pub rows: Vec<Row>,
    /// The alarms with their states, in the order of the configuration.
    pub alarms: Vec<(QueueName, AlarmState)>,
}

impl Model for Sheet {
    ghost use Rattle.board.specs.Sheet.{Sheet};

    ghost Value = { Sheet };

    ghost view = { λ s. record { name = s.name; lines = s.lines; clock = s.clock; gauges = s.gauges; current = s.current; rows = s.rows.items; alarms = s.alarms.items } };
}

impl Sheet {
    /// The statistics of a queue at its clock, which whoever looked at it or opened it knows. `OutOfMemory`
    /// is the only refusal.
    pub fn of(alloc: Global, queue: &QueueState, at: Moment) -> Result<Sheet, Fault>
        requires { at ≡ queue.now.clock }
        ensures ok { IfOk result (λ sheet. sheet ≡ sheet_of queue.now) }
        ensures errors { IfErr result (λ fault. fault ≡ OutOfMemory) }
    {
        Ok(Sheet {
            name: queue.name(),
            lines: queue.weight(),
            clock: at,
            gauges: queue.gauges(),
            current: queue.current(),
            rows: queue.rows(alloc)?,
            alarms: alarms_of(alloc, queue)?,
        })
    }

    /// The same again. `OutOfMemory` is the only refusal.
    pub(crate) fn copy(&self, alloc: Global) -> Result<Sheet, Fault>
        ensures ok { IfOk result (λ sheet. sheet ≡ self.now) }
        ensures errors { IfErr result (λ fault. fault ≡ OutOfMemory) }
    {
        Ok(Sheet {
            name: self.name,
            lines: self.lines,
            clock: self.clock,
            gauges: self.gauges,
            current: self.current,
            rows: Vec::from_slice(alloc, self.rows.as_slice())?,
            alarms: Vec::from_slice(alloc, self.alarms.as_slice())?,
        })
    }
}
