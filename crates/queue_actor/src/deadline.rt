//! The clock that tells the queues the time.

ghost use Rattle.std.specs.Prelude.{ℕ, ◌≡◌, IfSome};
ghost use Rattle.queue_actor.specs.private.Ticking.{is_leap};

use crate::directory::Directory;
use crate::mail::Mail;
use crate::outbox::Outbox;
use desk::Press;
use journal::Moment;
use std::alloc::Global;
use std::sync::Wait;

/// How often queues are told the time, in milliseconds.
pub const TICK_MILLISECONDS: u64 = 100;

/// A clock that queues are told the time by.
pub trait Beat {
    // It ticks at a moment.
    ghost ticks: { Self → ℕ → Self → Type 0 };

    /// Waits for the next tick, and gives its moment. `None` where there will be none.
    fn next(&mut self) -> Option<Moment>
        ensures { IfSome result (λ at. ticks self.old at self.new) };
}

/// The queues, as a clock sees them.
pub trait Bells {
    // They may be told a moment.
    ghost may_ring: { Self → ℕ → Type 0 };

    /// Tells each queue the time, which may have leapt since the tick before.
    fn ring<R: Wait>(&self, rt: &R, alloc: Global, at: Moment, is_leap: bool)
        requires may { may_ring self.now at };
}

/// Puts a tick into a mailbox that is empty: where mail waits its actor is told the time by that, and ticks must
/// not pile up before one that is slower than the clock. An actor that has ended is left out, and so is one for
/// whose tick there is no memory: it gets the next.
pub(crate) fn tell<P: Press, S: Drop, O: Outbox<Mail<P, S>>, R: Wait>(
    rt: &R,
    mailbox: &O,
    at: Moment,
)
    requires may { O.seemed_empty mailbox.now → O.may_put mailbox.now (Mail.Tick at) }
{
    if mailbox.is_empty() {
        let _ = mailbox.put(rt, Mail::Tick(at));
    }
}

/// The actors that have something to do are told first. Then each quiet queue is looked at here; behind a leap, where
/// much may come due in each of them, their actors are told. Where there is no memory for the list of the queues, all
/// get the next tick.
impl<P: Press> Bells for Directory<P>
where
    P::Told: Drop,
{
    // What its channels carry no contract sees.
    ghost may_ring = { λ _ _. Unit {0} };

    fn ring<R: Wait>(&self, rt: &R, alloc: Global, at: Moment, is_leap: bool) {
        let Ok(queues) = self.all(rt, alloc) else {
            return;
        };
        for queue in &queues {
            if !queue.is_quiet() {
                queue.tell(rt, at);
            }
        }
        for queue in queues {
            if !queue.is_quiet() {
                continue;
            }
            if is_leap {
                queue.tell(rt, at);
            } else {
                queue.tick(rt, alloc, at);
            }
        }
    }
}

/// Beyond how many milliseconds between two ticks the time has leapt: the wall clock was put on, or the machine slept.
const LEAP: u64 = 1000;

/// Whether the time has leapt since the tick before, where there was one.
fn is_leap(last: Option<Moment>, at: Moment) -> bool
    ensures { result ≡ is_leap last at }
{
    match last {
        Some(last) => LEAP < at.milliseconds().saturating_sub(last.milliseconds()),
        None => false,
    }
}

/// Tells the queues each tick of a clock, and no other moment, for as long as the clock goes.
pub fn deadline_loop<D: Bells, B: Beat, R: Wait>(
    rt: &R,
    alloc: Global,
    directory: &D,
    clock: &mut B,
)
    requires may { (before after : B) (at : ℕ) → B.ticks before at after → D.may_ring directory.now at }
{
    let mut last = None;
    for _ in rt.forever() {
        let Some(at) = clock.next() else {
            return;
        };
        let is_leap = is_leap(last, at);
        last = Some(at);
        directory.ring(rt, alloc, at, is_leap);
    }
    unreachable!()
}
