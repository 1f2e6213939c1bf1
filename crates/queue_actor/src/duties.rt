//! What an actor has to do behind a call that was made without it.

use queue_core::Command;
use std::sync::OnceLock;
use std::sync::atomic::{AtomicU64, Ordering};

/// What an actor has to do behind a call that was made without it: polls wait, or a dead letter may have come to be
/// there. The actor, the directory and those who ask the queue's desk share it. Of what threads store no clause
/// tells.
#[derive(Drop)]
pub struct Duties {
    /// How many polls wait.
    polls: AtomicU64,
    /// The uid of the queue that dead letters go to, 0 for none.
    target: AtomicU64,
    /// Whether dead letters ever had a target: some may still wait to be moved, also where they have none now. By its
    /// type it stays so.
    moves: OnceLock<()>,
}

impl Duties {
    /// No poll waits, and dead letters have no target.
    pub fn new() -> Duties {
        Duties {
            polls: AtomicU64::new(0),
            target: AtomicU64::new(0),
            moves: OnceLock::new(),
        }
    }

    /// Stores how many polls wait. The actor stores it before it looks whether they have to: who calls behind that
    /// look finds the number here, and who called before it the look has seen.
    pub(crate) fn set_polls(&self, polls: usize) {
        self.polls.store(polls as u64, Ordering::SeqCst);
    }

    /// Stores the target of dead letters, 0 for none.
    pub(crate) fn set_target(&self, target: u64) {
        if target != 0 {
            let _ = self.moves.try_set(());
        }
        self.target.store(target, Ordering::SeqCst);
    }

    /// Whether the actor has to look behind a command.
    pub(crate) fn follow(&self, command: &Command) -> bool {
        let moves = matches!(command, Command::Receive { .. });
        self.polls.load(Ordering::SeqCst) != 0 || moves && self.target.load(Ordering::SeqCst) != 0
    }

    /// Whether there is nothing for the actor to do as time goes by: no poll waits, and dead letters never had a
    /// target.
    pub(crate) fn are_none(&self) -> bool {
        self.polls.load(Ordering::SeqCst) == 0 && self.moves.get().is_none()
    }
}
