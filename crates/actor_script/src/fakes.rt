//! A mailbox and answers in memory, a clock of which each tick is known, and a turn that is held.

ghost use Rattle.std.specs.Prelude.{◌≡◌, true, [], ◌∷◌, ◌++◌, IfOk};
ghost use Rattle.queue_actor.specs.Serving.{AllServed};

use desk::{Gate, NoGate, NoPress};
use journal::Moment;
use message::Fault;
use queue_actor::{Actor, Answer, Beat, Inbox, Mail, Targets};
use std::alloc::Global;
use std::collections::VecDeque;
use std::sync::Wait;
use std::sync::atomic::{AtomicU64, Ordering};
use std::thread;

/// A mail whose answer goes to a numbered slot.
pub(crate) type Numbered = Mail<NoPress, u64>;

/// Mails that come one after another, and no more, and the answers that were given, each beside its slot.
#[derive(Drop)]
pub(crate) struct Script {
    mails: VecDeque<Numbered>,
    given: Vec<(u64, Answer<NoPress>)>,
    /// Whether all answers are there: one is lost where there is no memory for it.
    is_whole: bool,
}

impl Inbox<Numbered, u64, Answer<NoPress>> for Script {
    ghost brings = { λ before mail after. (before.mails.items ≡ mail ∷ after.mails.items) × (after.given.items ≡ before.given.items) × (after.is_whole ≡ before.is_whole) };

    ghost is_over = { λ before after. (before.mails.items ≡ []) × (after.mails.items ≡ before.mails.items) × (after.given.items ≡ before.given.items) × (after.is_whole ≡ before.is_whole) };

    ghost may_give = { λ _ _ _. Unit {0} };

    ghost was_left = { λ _ _. Unit {0} };

    ghost gives = { λ before slot answer after. (after.mails.items ≡ before.mails.items) × (after.is_whole ≡ true → (before.is_whole ≡ true) × (after.given.items ≡ before.given.items ++ (slot, answer) ∷ [])) };

    fn next<R: Wait>(&mut self, _rt: &R) -> Option<Numbered> {
        self.mails.pop_front()
    }

    fn give(&mut self, slot: u64, answer: Answer<NoPress>) {
        if self.given.push((slot, answer)).is_err() {
            self.is_whole = false;
        }
    }

    fn is_left(&self, _slot: &u64) -> bool {
        false
    }
}

/// Runs an actor over mails that come one after another. The answers are all that it gave, each beside its
/// slot, in the order in which it gave them; `OutOfMemory` where there was no memory to keep one.
pub(crate) fn serve_all<D: Targets, R: Wait>(
    rt: &R,
    alloc: Global,
    actor: &mut Actor<NoPress>,
    mails: VecDeque<Numbered>,
    targets: &D,
) -> Result<Vec<(u64, Answer<NoPress>)>, Fault>
    ensures { IfOk result (λ given. AllServed (D.was_told targets.now) (D.was_taken_out targets.now) (D.was_retargeted targets.now) actor.old.uid actor.old.limits.in_flight actor.old.pass mails.items given.items actor.new.pass) }
{
    let mut script = Script {
        mails,
        given: Vec::new(alloc),
        is_whole: true,
    };
    actor.run(rt, alloc, &mut script, targets, &NoGate);
    if script.is_whole {
        Ok(script.given)
    } else {
        Err(Fault::OutOfMemory)
    }
}

/// A clock that ticks at these moments.
#[derive(Drop)]
pub(crate) struct Moments {
    pub(crate) left: VecDeque<Moment>,
}

impl Beat for Moments {
    // Which moments it gives nothing rests on.
    ghost ticks = { λ _ _ _. Unit {0} };

    fn next(&mut self) -> Option<Moment> {
        self.left.pop_front()
    }
}

/// How often a thread looks at what it waits for before it gives up.
pub(crate) const MOST_LOOKS: u64 = 10_000_000;

/// Holds one turn until it is let go.
#[derive(Drop)]
pub(crate) struct Barrier {
    /// How many turns go before the one that is held.
    pub(crate) before: AtomicU64,
    /// 1 where that turn is held, 2 where it was let go, and else 0.
    pub(crate) state: AtomicU64,
}

impl Barrier {
    /// Waits for a state. The answer is whether it came to that.
    pub(crate) fn comes_to(&self, state: u64) -> bool {
        for _ in 0..MOST_LOOKS {
            if self.state.load(Ordering::SeqCst) == state {
                return true;
            }
            thread::yield_now();
        }
        false
    }
}

impl Gate for Barrier {
    fn in_turn<R: Wait>(&self, _rt: &R, _turn: u64) {
        if self.before.fetch_sub(1, Ordering::SeqCst) == 0 {
            self.state.store(1, Ordering::SeqCst);
            if !self.comes_to(2) {
                self.state.store(0, Ordering::SeqCst);
            }
        }
    }
}
