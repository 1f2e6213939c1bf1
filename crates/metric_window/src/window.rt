//! The minutes that rows are shown of.

ghost use Rattle.std.specs.Prelude.{◌≡◌, ◌<◌, ◌^◌};
ghost use Rattle.metric_window.specs.Flows.{minute_of};
ghost use Rattle.metric_window.specs.Window.{window_start, window_end, is_in_window};

use journal::Moment;

/// The most rows at a time, in minutes.
pub const LONGEST_WINDOW: u64 = 180;

/// The minute of a time, counted from the time 0: minute m goes from 60,000 m milliseconds to
/// 60,000 m + 59,999.
pub fn minute_of(at: Moment) -> u64
    ensures { result ≡ minute_of at }
{
    at.milliseconds() / 60_000
}

/// The first minute that a queue created at one time has a row of at another (this project's own
/// choice): that of its creation, or a later one where more than 180 are over.
pub fn window_start(created: Moment, clock: Moment) -> u64
    ensures { result ≡ window_start created clock }
{
    minute_of(created).max(minute_of(clock).saturating_sub(LONGEST_WINDOW))
}

/// The minute after the last one that is over at a time: that of the time itself.
pub fn window_end(clock: Moment) -> u64
    ensures { result ≡ window_end clock }
{
    minute_of(clock)
}

/// The first minute with a row, and the one after the last.
pub fn window_of(created: Moment, clock: Moment) -> (u64, u64)
    ensures first { result.0 ≡ window_start created clock }
    ensures end { result.1 ≡ window_end clock }
{
    (window_start(created, clock), window_end(clock))
}

/// Whether a minute has a row, whatever number it is.
pub fn is_in_window(created: Moment, clock: Moment, minute: u64) -> bool
    ensures { result ≡ is_in_window created clock minute }
{
    window_start(created, clock) <= minute && minute < window_end(clock)
}
