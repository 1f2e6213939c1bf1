//! The wall clock, as moments.

ghost use Rattle.std.specs.Prelude.{◌≡◌, ◌≤◌, ◌*◌, min};
ghost use Rattle.sqs_server.specs.Times.{moment_within, wait_limit};

use journal::Moment;
use std::sync::atomic::{AtomicU64, Ordering};
use std::time::{Clock, Duration, SystemTime};

/// The latest moment there is, in milliseconds.
const LATEST: u64 = (1 << 62) - 1;

/// The moment of so many milliseconds, or the latest there is.
pub(crate) fn moment_within(milliseconds: u64) -> Moment
    ensures { result ≡ moment_within milliseconds }
{
    match Moment::new(milliseconds.min(LATEST)) {
        Some(moment) => moment,
        None => Moment::zero(),
    }
}

/// The moment until which a call may wait that is made at a moment and waits so many seconds.
pub(crate) fn wait_limit(at: Moment, seconds: u64) -> Moment
    ensures { result ≡ wait_limit at seconds }
{
    let wait = seconds.saturating_mul(1000);
    moment_within(at.milliseconds().saturating_add(wait))
}

/// The wall clock's milliseconds since 1970. A time before, or a clock that cannot be read, is the first moment.
pub(crate) fn moment_of_day<C: Clock>(clock: &C) -> Moment {
    let since = SystemTime::now(clock)
        .ok()
        .and_then(|now| now.duration_since(SystemTime::UNIX_EPOCH).ok());
    match since {
        Some(since) => moment_within(u64::try_from(since.as_millis()).unwrap_or(LATEST)),
        None => Moment::zero(),
    }
}

/// How many nanoseconds a reading of a clock has.
fn nanoseconds<E>(reading: Result<Duration, E>) -> Option<u64>
where
    E: Drop,
{
    u64::try_from(reading.ok()?.as_nanos()).ok()
}

/// The time of day for all that the queues are told. Where the wall clock is put back, it goes on as the machine's
/// other clock does, which counts from its start: so nothing waits longer than it is to. Where the wall clock is put
/// on, it follows.
#[derive(Drop)]
pub struct Day {
    /// By how many nanoseconds the wall clock was ahead of the other one, at most so far.
    ahead: AtomicU64,
}

impl Day {
    /// A time of day that was never asked for.
    pub(crate) fn new() -> Day {
        Day {
            ahead: AtomicU64::new(0),
        }
    }

    /// By how much the wall clock was ahead at most, if it is ahead by so much now.
    fn raise(&self, now: u64) -> u64
        ensures { now ≤ result }
    {
        let most = self.ahead.load(Ordering::SeqCst);
        if now <= most {
            return most;
        }
        match self
            .ahead
            .compare_exchange(most, now, Ordering::SeqCst, Ordering::SeqCst)
        {
            Ok(_) => now,
            Err(found) => found.max(now),
        }
    }

    /// The time of day, in milliseconds since 1970. The wall clock is read first: whoever is held up in between finds
    /// it less far ahead. Where one of the clocks cannot be read it is that of the other as it was ahead, or the first
    /// moment.
    pub(crate) fn moment<C: Clock>(&self, clock: &C) -> Moment {
        let wall = nanoseconds(clock.since_1970());
        let passed = nanoseconds(clock.monotonic());
        let told = match (wall, passed) {
            (Some(wall), Some(passed)) => {
                let ahead = self.raise(wall.saturating_sub(passed));
                ahead.saturating_add(passed)
            }
            (Some(wall), None) => wall,
            (None, Some(passed)) => self.raise(0).saturating_add(passed),
            (None, None) => 0,
        };
        moment_within(told / 1_000_000)
    }
}
