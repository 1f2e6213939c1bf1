//! Metric rows: what happened in each minute, and what stood in the queue at its end.

ghost use Rattle.std.specs.Prelude.{◌≡◌, ◌<◌, IfOk, IfErr, OnErr};
ghost use Rattle.message.specs.declared.fault.Fault.TheVariants.{OutOfMemory};
ghost use Rattle.message.specs.Content.{content_size};
ghost use Rattle.metric_window.specs.Window.{window_start, window_end};

use crate::state::QueueState;
use message::Fault;
use metric_window::{Flows, Row, window_end, window_start};
use std::alloc::Global;

impl QueueState {
    ghost use Rattle.queue_core.specs.Messages.{created_time};
    ghost use Rattle.queue_core.specs.Metrics.{current_flows, row_of, window_rows};

    /// What has happened so far in the minute of the queue's clock.
    pub fn current(&self) -> Flows
        ensures { result ≡ current_flows content_size self.now.lines self.now.clock }
    {
        self.watch.window.current()
    }

    /// The first minute with a row, and the one after the last, which is that of the queue's clock:
    /// a minute is counted from the moment 0, and the two are equal where there is no row.
    pub fn span(&self) -> (u64, u64)
        ensures first { result.0 ≡ window_start (created_time self.now.lines) self.now.clock }
        ensures end { result.1 ≡ window_end self.now.clock }
    {
        let created = self.created();
        (window_start(created, self.clock), window_end(self.clock))
    }

    /// The metrics of a minute: what happened in it, and what stood in the queue at its last
    /// millisecond. There is a row of each minute that is over at the queue's clock, from that of the
    /// queue's creation on, but of the last 180 alone; of any other minute there is none.
    pub fn row(&self, minute: u64) -> Option<Row>
        ensures { result ≡ row_of content_size self.now.lines self.now.clock minute }
    {
        self.watch.window.row(minute)
    }

    /// The rows of all minutes that have one, oldest first. `OutOfMemory` is the only refusal, where there is a row.
    pub fn rows(&self, alloc: Global) -> Result<Vec<Row>, Fault>
        ensures rows { IfOk result (λ rows. rows.items ≡ window_rows content_size self.now.lines self.now.clock) }
        ensures fault { IfErr result (λ fault. fault ≡ OutOfMemory) }
        ensures wants { OnErr result (window_start (created_time self.now.lines) self.now.clock < window_end self.now.clock) }
    {
        let (first, end) = self.span();
        let mut rows = Vec::new(alloc);
        for minute in first..end {
            if let Some(row) = self.row(minute) {
                rows.push(row)?;
            }
        }
        Ok(rows)
    }
}
