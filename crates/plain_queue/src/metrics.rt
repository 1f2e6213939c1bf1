//! What a journal says of each minute: what happened in it, and what stood in the queue at its end. A function
//! that computes a definition of `queue_core` has its name.

ghost use Rattle.std.specs.Prelude.{◌≡◌, ℕ, ◌-◌, ◌≤◌, ◌==◌, true, [], map, if◌then◌else◌};
ghost use Rattle.std.specs.Option.{option_map_or};
ghost use Rattle.message.specs.Content.{content_size};
ghost use Rattle.metric_window.specs.KeptRows.{row_in};
ghost use Rattle.metric_window.specs.Flows.{flows_kept, row_kept, flows_of, added, capped, minute_of, minute_flows};
ghost use Rattle.metric_window.specs.Window.{is_in_window};
ghost use Rattle.queue_core.specs.Legal.{IsOrdered};
ghost use Rattle.queue_core.specs.Messages.{effect_of, created_time, rows_known};
ghost use Rattle.queue_core.specs.Metrics.{minute_end, minute_gauges, metric_row, current_flows, row_of};

use crate::entries::{FirstEntries, line_at};
use crate::reading::created_time;
use crate::states::gauges_of;
use journal::{Event, KeptFlows, KeptRow, Line, Moment};
use message::Content;
use metric_window::{Flows, Gauges, Row, is_in_window, minute_of};

/// The flows of a minute after a line.
fn flows_after(flows: Flows, line: &Line, minute: u64) -> Flows
    ensures { result
        ≡ (if minute_of line.now.at == minute then capped (added flows (flows_of content_size line.now.event)) else flows) }
{
    if minute_of(line.at) == minute {
        flows.with(line)
    } else {
        flows
    }
}

/// What happened in a minute.
pub fn minute_flows(lines: &FirstEntries<'_>, minute: u64) -> Flows
    ensures { result ≡ minute_flows content_size lines.now minute }
{
    let mut flows = Flows::none();
    for place in 0..lines.len() {
        flows = flows_after(flows, line_at(lines, place), minute);
    }
    flows
}

/// What has happened so far in the minute of a time.
pub fn current_flows(lines: &FirstEntries<'_>, clock: Moment) -> Flows
    ensures { result ≡ current_flows content_size lines.now clock }
{
    minute_flows(lines, minute_of(clock))
}

/// The metrics of a minute at a time, where it has a row then, of entries in the order of their times.
pub fn row_of(lines: &FirstEntries<'_>, clock: Moment, minute: u64) -> Option<Row>
    ensures { (from : ℕ) → IsOrdered from lines.now clock → result ≡ row_of content_size lines.now clock minute }
{
    if has_row(lines, clock, minute) {
        Some(metric_row(lines, clock, minute))
    } else {
        None
    }
}

/// Whether a minute has a row at a time.
fn has_row(lines: &FirstEntries<'_>, clock: Moment, minute: u64) -> bool
    ensures window { result ≡ is_in_window (created_time lines.now) clock minute }
    ensures over { result ≡ true → minute_end minute ≤ clock }
{
    is_in_window(created_time(lines), clock, minute)
}

/// The metrics of a minute that is over at a time, of entries in the order of their times.
pub fn metric_row(lines: &FirstEntries<'_>, clock: Moment, minute: u64) -> Row
    requires { minute_end minute ≤ clock }
    ensures { (from : ℕ) → IsOrdered from lines.now clock → result ≡ metric_row content_size lines.now minute }
{
    match known_row(lines, minute) {
        Some(row) => row,
        None => Row {
            minute,
            flows: minute_flows(lines, minute),
            gauges: minute_gauges(lines, clock, minute),
        },
    }
}

/// The row of a minute, where a checkpoint knows it.
fn known_row(lines: &FirstEntries<'_>, minute: u64) -> Option<Row>
    ensures { result ≡ row_in (rows_known lines.now) minute }
{
    for place in 0..lines.len() {
        if let Some(row) = row_known_by(&line_at(lines, place).event, minute) {
            return Some(row);
        }
    }
    None
}

/// The row of a minute, where an event knows it.
fn row_known_by(event: &Event<Content>, minute: u64) -> Option<Row>
    ensures { result ≡ row_in (option_map_or (λ since. since.rows) (effect_of event.now).since []) minute }
{
    match event {
        Event::Base(base) => row_among(base.rows(), minute),
        _ => None,
    }
}

/// The row of a minute among those of a checkpoint.
fn row_among(rows: &[KeptRow], minute: u64) -> Option<Row>
    ensures { result ≡ row_in (map row_kept rows.now) minute }
{
    for row in rows {
        if row.minute == minute {
            return Some(row_kept(row));
        }
    }
    None
}

/// A row of a checkpoint as it is shown.
fn row_kept(row: &KeptRow) -> Row
    ensures { result ≡ row_kept row.now }
{
    Row {
        minute: row.minute,
        flows: flows_kept(row.flows),
        gauges: Gauges {
            visible: row.visible,
            delayed: row.delayed,
            in_flight: row.in_flight,
            age: row.age,
        },
    }
}

/// The flows of a checkpoint as they are shown.
fn flows_kept(flows: KeptFlows) -> Flows
    ensures { result ≡ flows_kept flows }
{
    Flows {
        sent: flows.sent,
        sent_size: flows.sent_size,
        received: flows.received,
        empty_receives: flows.empty_receives,
        deleted: flows.deleted,
        refused: flows.refused,
        dead_letters_arrived: flows.dead_letters_arrived,
    }
}

/// The counts and the age at the last millisecond of a minute that is over at a time.
fn minute_gauges(lines: &FirstEntries<'_>, clock: Moment, minute: u64) -> Gauges
    requires { minute_end minute ≤ clock }
    ensures { (from : ℕ) → IsOrdered from lines.now clock → result ≡ minute_gauges lines.now minute }
{
    let _clock = clock.milliseconds();
    let end = 60_000 * (minute + 1);
    let last = millisecond_before(end, clock);
    gauges_of(&lines.before(end), last)
}

/// The millisecond before a time that is not after a moment.
fn millisecond_before(end: u64, clock: Moment) -> Moment
    requires later { 1 ≤ end }
    requires past { end ≤ clock }
    ensures { result ≡ end - 1 }
{
    let _clock = clock.milliseconds();
    match Moment::new(end - 1) {
        Some(moment) => moment,
        None => unreachable!(),
    }
}
