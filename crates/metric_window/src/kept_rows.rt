//! The rows of the last minutes, and the minute that is not over.

ghost use Rattle.std.specs.Prelude.{◌≡◌, ◌-◌, ◌<◌, ◌≤◌, length, IfOk};
ghost use Rattle.message.specs.Content.{content_size};
ghost use Rattle.metric_window.specs.Flows.{flows_of, added, capped};
ghost use Rattle.metric_window.specs.KeptRows.{opened_at, with_closed, row_in, AreLast};
ghost use Rattle.metric_window.specs.Window.{longest_window};

use crate::flows::Flows;
use crate::gauges::Gauges;
use crate::row::Row;
use crate::window::LONGEST_WINDOW;
use circular_buffer::HeapCircularBuffer;
use journal::Line;
use std::alloc::{AllocError, Global};
use std::marker::Model;

/// The rows of the last minutes that are over, 180 at most, and what has happened so far in the one that
/// is not. Which minute that is, and when it is over, is for the caller to say: nothing here reads a clock.
#[derive(Debug, Drop)]
pub struct Window {
    rows: HeapCircularBuffer<Row>,
    /// Minutes since the moment 0.
    minute: u64,
    current: Flows,
}

impl Model for Window {
    ghost use Rattle.std.specs.Prelude.{◌≡◌};
    ghost use Rattle.metric_window.specs.KeptRows.{KeptRows, AreLast};
    ghost use Rattle.metric_window.specs.Window.{longest_window};

    ghost Value = { KeptRows };

    ghost view = { λ w. record { rows = w.rows.items; minute = w.minute; current = w.current } };

    ghost invariant = { λ w. (w.rows.capacity ≡ longest_window) × AreLast w.minute w.rows.items };
}

impl Window {
    /// A window that begins in this minute, counted from the moment 0: without rows, and nothing has
    /// happened yet. It takes the memory for all rows, and is the only call that takes any.
    pub fn open(alloc: Global, minute: u64) -> Result<Window, AllocError>
        ensures { IfOk result (λ window. window ≡ opened_at minute) }
    {
        let rows = HeapCircularBuffer::with_capacity(alloc, LONGEST_WINDOW as usize)?;
        Ok(Window {
            rows,
            minute,
            current: Flows::none(),
        })
    }

    /// Counts a line in the current minute, whatever the line's own time is. A number that would pass
    /// 2^64 - 1 stays there.
    pub fn count(&mut self, line: &Line)
        ensures { self.new ≡ record self.old { current = capped (added self.old.current (flows_of content_size line.now.event)) } }
    {
        self.current = self.current.with(line);
    }

    /// Ends the current minute, at whose last millisecond these gauges stood, and begins the next one. Of
    /// 180 rows the oldest goes. In minute 2^64 - 1, which no moment of a queue reaches, nothing changes.
    pub fn close_minute(&mut self, gauges: Gauges)
        ensures { self.new ≡ with_closed self.old gauges }
    {
        if self.minute == u64::MAX {
            return;
        }
        let row = Row {
            minute: self.minute,
            flows: self.current,
            gauges,
        };
        self.rows.push_back(row);
        self.minute += 1;
        self.current = Flows::none();
    }

    /// Goes on to a later minute, in which nothing has happened yet. All rows go, and so does what was
    /// counted in the minute that was current: for a jump past all minutes that would still be shown.
    pub fn skip_to(&mut self, minute: u64)
        requires { self.old.minute < minute }
        ensures { self.new ≡ opened_at minute }
    {
        self.rows.clear();
        self.minute = minute;
        self.current = Flows::none();
    }

    /// What has happened so far in the current minute.
    pub fn current(&self) -> Flows
        ensures { result ≡ self.now.current }
    {
        self.current
    }

    /// All rows, oldest first.
    pub fn rows(&self, alloc: Global) -> Result<Vec<Row>, AllocError>
        ensures { IfOk result (λ rows. rows.items ≡ self.now.rows) }
    {
        self.rows.to_vec(alloc)
    }

    /// The row of a minute, where there is one, whatever number the minute is.
    pub fn row(&self, minute: u64) -> Option<Row>
        ensures { result ≡ row_in self.now.rows minute }
    {
        let first = self.minute - self.rows.len() as u64;
        if minute < first {
            return None;
        }
        self.rows.get((minute - first) as usize).copied()
    }

    /// The first minute with a row, and the current one, which is the one after the last. Both are the same
    /// where there are no rows.
    pub fn span(&self) -> (u64, u64)
        ensures first { result.0 ≡ self.now.minute - length self.now.rows }
        ensures end { result.1 ≡ self.now.minute }
        ensures last { AreLast self.now.minute self.now.rows }
        ensures most { length self.now.rows ≤ longest_window }
    {
        let first = self.minute - self.rows.len() as u64;
        (first, self.minute)
    }
}
