//! Whether anything happens at a connection.

ghost use Rattle.futures.specs.Task.{Keeps};

use futures::Future;
use futures::task::Context;
use std::time::{Clock, Duration};
use tokio::time::{Handle, Sleep};

/// How long nothing happens at a connection until that is noted, in seconds.
const PERIOD: u64 = 10;

/// How often in a row that is noted until the connection is closed: a body of which no byte came for 30 seconds, or
/// a reply of which none was taken. Receives wait for 20 at most. This project's own choice.
const PERIODS: u32 = 4;

/// Notes how long nothing has happened.
#[derive(Drop)]
pub struct IdleWatch {
    /// `None` where there was no memory for it: then it goes without.
    timer: Option<Sleep>,
    /// How often in a row nothing happened.
    still: u32,
}

impl IdleWatch {
    /// Begins to note.
    pub fn new<C: Clock>(clock: &C, timers: &Handle) -> IdleWatch {
        IdleWatch {
            timer: timers.sleep(clock, Duration::from_secs(PERIOD)).ok(),
            still: 0,
        }
    }

    /// Notes that something happens, or where it is time, that nothing did. Whether it was nothing for too long.
    pub fn is_over(&mut self, cx: &mut Context<'_>) -> bool
        ensures { Keeps cx.old cx.new }
    {
        let Some(timer) = &mut self.timer else {
            return false;
        };
        if timer.poll(cx).is_pending() {
            self.still = 0;
            return false;
        }
        self.still = self.still.saturating_add(1);
        let Some(next) = timer.deadline().checked_add(Duration::from_secs(PERIOD)) else {
            return false;
        };
        timer.reset(next);
        let _ = timer.poll(cx);
        PERIODS <= self.still
    }
}
