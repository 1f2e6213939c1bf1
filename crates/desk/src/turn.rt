//! What a turn leaves of the queue.

ghost use Rattle.std.specs.Prelude.{◌≡◌, IfOk, IfErr, IfSome, OnOk};
ghost use Rattle.message.specs.declared.fault.Fault.TheVariants.{OutOfMemory};

use crate::kept_rows::{MinuteRows, rows_at};
use alarm::AlarmState;
use journal::{Marks, Moment, Ticks};
use message::Fault;
use metric_window::{Flows, Gauges, Row};
use queue_core::QueueState;
use std::alloc::Global;
use std::marker::Model;
use std::sync::Arc;

/// What is told of a turn, as it ends: the marks of the journal that were not told before, and the
/// queue's numbers. Marks that begin with a checkpoint take the place of all that were told before.
/// Contracts see its parts, marks, rows and states as lists.
#[derive(Debug, Drop)]
pub struct Turn {
    pub marks: Marks,
    /// The queue's clock.
    pub clock: Moment,
    /// How much its journal weighs: 1 for each entry, and for a checkpoint 1 more for each message that it keeps.
    pub lines: u64,
    /// What stands in the queue at the clock.
    pub gauges: Gauges,
    /// What has happened so far in the clock's minute.
    pub current: Flows,
    /// The rows of the window, oldest first. All turns that end in one minute share them.
    pub rows: Arc<Vec<Row>>,
    /// The states of the alarms, in the order of their rules.
    pub alarms: Vec<AlarmState>,
}

impl Model for Turn {
    ghost use Rattle.desk.specs.Printed.{TurnReport};

    ghost Value = { TurnReport };

    ghost view = { λ t. record { marks = t.marks; clock = t.clock; lines = t.lines; gauges = t.gauges; current = t.current; rows = t.rows.value.items; alarms = t.alarms.items } };
}

impl Turn {
    ghost use Rattle.queue_core.specs.Legal.{IsLegal};
    ghost use Rattle.desk.specs.private.KeptRows.{AreRowsOf};
    ghost use Rattle.desk.specs.Printed.{report_of};

    /// What is told of a queue whose first so many marks were told before, and of which rows may be kept.
    /// `OutOfMemory` is the only refusal. The queue is looked at, at its own clock, which stays.
    pub(crate) fn of(
        alloc: Global,
        queue: &mut QueueState,
        told: usize,
        kept: &mut Option<MinuteRows>,
        ticks: &mut Ticks,
    ) -> Result<Turn, Fault>
        requires { IfSome kept.old (λ k. AreRowsOf k queue.old) }
        ensures ok { IfOk result (λ turn. turn ≡ report_of queue.old told) }
        ensures legal { OnOk result (IsLegal queue.old) }
        ensures errors { IfErr result (λ fault. fault ≡ OutOfMemory) }
        ensures same { queue.new ≡ queue.old }
        ensures kept { IfSome kept.new (λ k. AreRowsOf k queue.old) }
    {
        let look = queue.look(Moment::zero(), ticks);
        Ok(Turn {
            marks: queue.journal().marks(alloc, told, ticks)?,
            clock: look.clock,
            lines: look.lines,
            gauges: queue.gauges(),
            current: queue.current(),
            rows: rows_at(alloc, kept, queue)?,
            alarms: queue.alarm_states(alloc)?,
        })
    }
}
