//! The rows of a queue's window, kept until a minute ends.

ghost use Rattle.std.specs.Prelude.{◌≡◌, IfOk, IfErr, IfSome};
ghost use Rattle.message.specs.Content.{content_size};
ghost use Rattle.message.specs.declared.fault.Fault.TheVariants.{OutOfMemory};
ghost use Rattle.queue_core.specs.Metrics.{window_rows};
ghost use Rattle.desk.specs.private.KeptRows.{AreRowsOf};

use message::Fault;
use metric_window::Row;
use queue_core::QueueState;
use std::alloc::Global;
use std::marker::Model;
use std::sync::Arc;

/// The rows that are shown in a minute. No call changes them until it is over.
#[derive(Drop)]
pub(crate) struct MinuteRows {
    /// The minute that is not over, counted from the moment 0.
    minute: u64,
    rows: Arc<Vec<Row>>,
}

impl Model for MinuteRows {
    ghost use Rattle.desk.specs.private.KeptRows.{RowsOfMinute};

    ghost Value = { RowsOfMinute };

    ghost view = { λ k. record { minute = k.minute; rows = k.rows.value.items } };
}

/// The rows of the queue's window: those that were kept, where the clock is still in their minute. Otherwise
/// they are made, and kept from now on. `OutOfMemory` is the only refusal.
pub(crate) fn rows_at(
    alloc: Global,
    kept: &mut Option<MinuteRows>,
    queue: &QueueState,
) -> Result<Arc<Vec<Row>>, Fault>
    requires { IfSome kept.old (λ k. AreRowsOf k queue.now) }
    ensures ok { IfOk result (λ rows. rows.value.items ≡ window_rows content_size queue.now.lines queue.now.clock) }
    ensures kept { IfSome kept.new (λ k. AreRowsOf k queue.now) }
    ensures errors { IfErr result (λ fault. fault ≡ OutOfMemory) }
{
    let (_, minute) = queue.span();
    match kept {
        Some(it) if it.minute == minute => Ok(Arc::try_clone(&it.rows)?),
        _ => {
            let rows = Arc::new(alloc, queue.rows(alloc)?)?;
            let shown = Arc::try_clone(&rows)?;
            *kept = Some(MinuteRows { minute, rows });
            Ok(shown)
        }
    }
}
