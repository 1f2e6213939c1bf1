//! The passing of minutes: each that is over is closed with what stood in the queue at its last millisecond.

ghost use Rattle.std.specs.Prelude.{◌≡◌, ℕ, ◌+◌, ◌-◌, ◌*◌, ◌<◌, ◌≤◌, ◌^◌, List};
ghost use Rattle.metric_window.specs.declared.row.Row.{Row};
ghost use Rattle.metric_window.specs.Flows.{minute_of};
ghost use Rattle.queue_core.specs.Messages.{settings_of};
ghost use Rattle.queue_core.specs.Metrics.{minute_end};
ghost use Rattle.queue_core.specs.Queue.{QueueHistory};
ghost use Rattle.queue_core.specs.Legal.{IsLegal};
ghost use Rattle.queue_core.specs.private.Records.{HasIndices};
ghost use Rattle.queue_core.specs.private.Indexed.{IsIndexOf};
ghost use Rattle.queue_core.specs.private.Watched.{IsWatchAt, IsPassing};
ghost use Rattle.queue_core.specs.private.Spending.{Costs};

use crate::index::MessageIndex;
use crate::watch::Watch;
use journal::{Moment, Ticks};
use metric_window::{LONGEST_WINDOW, minute_of};

/// Closes all minutes that are over at a time, and lets that time come. Where more than 180 are over, those
/// before the last 180 have no row any more, and are passed in one step.
pub(crate) fn catch_up(
    index: &mut MessageIndex,
    watch: &mut Watch,
    retention: u32,
    clock: Moment,
    ticks: &mut Ticks,
)
    requires indices { HasIndices index.old }
    requires past { watch.old.window.minute ≤ minute_of clock }
    ensures passed { (q : QueueHistory) → IsLegal q → q.clock ≤ clock → retention ≡ (settings_of q.lines).retention_seconds
        → IsIndexOf q.lines q.clock index.old → IsWatchAt q.lines (minute_of q.clock) q.rules watch.old
        → IsIndexOf q.lines clock index.new × IsWatchAt q.lines (minute_of clock) q.rules watch.new }
    ensures cost { Costs 0 0 ticks.old index.old ticks.new index.new }
{
    let end = minute_of(clock);
    let _most = clock.milliseconds();
    let is_far = LONGEST_WINDOW < end - watch.minute();
    if is_far {
        watch.window.skip_to(end - LONGEST_WINDOW);
    }
    go_on(index, watch, retention, end, ticks);
    index.settle(retention, clock, ticks);
}

/// Closes minute by minute, up to one.
#[tactic(auto, using(crate::proofs::costs::SpendingLemmas::costs_none))]
fn go_on(index: &mut MessageIndex, watch: &mut Watch, retention: u32, end: u64, ticks: &mut Ticks)
    requires indices { HasIndices index.old }
    requires past { watch.old.window.minute ≤ end }
    requires small { 60000 * end < 2 ^ 62 }
    ensures indices { HasIndices index.new }
    ensures minute { watch.new.window.minute ≡ end }
    ensures passing { (q : QueueHistory) (first : ℕ) (before : List Row) → IsLegal q → retention ≡ (settings_of q.lines).retention_seconds
        → IsPassing q first before index.old watch.old → IsPassing q first before index.new watch.new }
    ensures cost { Costs 0 0 ticks.old index.old ticks.new index.new }
{
    for _ in watch.minute()..end {
        end_minute(index, watch, retention, ticks);
    }
}

/// Closes the minute that is not over, at its last millisecond.
fn end_minute(index: &mut MessageIndex, watch: &mut Watch, retention: u32, ticks: &mut Ticks)
    requires indices { HasIndices index.old }
    requires small { minute_end watch.old.window.minute < 2 ^ 62 }
    ensures indices { HasIndices index.new }
    ensures minute { watch.new.window.minute ≡ watch.old.window.minute + 1 }
    ensures passing { (q : QueueHistory) (first : ℕ) (before : List Row) → IsLegal q → retention ≡ (settings_of q.lines).retention_seconds
        → IsPassing q first before index.old watch.old → IsPassing q first before index.new watch.new }
    ensures cost { Costs 0 0 ticks.old index.old ticks.new index.new }
{
    let last = last_moment(watch.minute());
    index.settle(retention, last, ticks);
    watch.close_minute(index.gauges(last));
}

/// The last millisecond of a minute.
fn last_moment(minute: u64) -> Moment
    requires { minute_end minute < 2 ^ 62 }
    ensures { result ≡ minute_end minute - 1 }
{
    match Moment::new(60_000 * minute + 59_999) {
        Some(moment) => moment,
        None => unreachable!(),
    }
}
