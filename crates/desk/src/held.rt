//! What lies on a desk.

ghost use Rattle.std.specs.Prelude.{◌≡◌, ◌+◌, ◌≤◌, true, [], IfOk, IfSome};
ghost use Rattle.queue_core.specs.Queue.{leaves_clock, reached, outcome_at, after_answer};
ghost use Rattle.queue_core.specs.Cost.{most_ticks};
ghost use Rattle.queue_core.specs.Legal.{IsLegal};
ghost use Rattle.desk.specs.History.{IsAnswered};
ghost use Rattle.desk.specs.private.Held.{told_behind};

use crate::kept_rows::MinuteRows;
use crate::made::Made;
use crate::printing::Press;
use crate::turn::Turn;
use journal::{Moment, Ticks};
use message::Fault;
use queue_core::{Command, QueueState, Reply};
use std::alloc::{AllocError, Global};
use std::marker::Model;
use std::snapshot::Snapshot;
use std::sync::Wait;

/// The queue with its press, how many marks of its journal were printed, the rows that were told last, and
/// the call that was made last. Contracts see the queue, that call, and the place of the press.
#[derive(Drop)]
pub(crate) struct Held<P: Press> {
    /// In a place of its own, so that a turn moves no more than where it lies.
    state: Box<QueueState>,
    press: P,
    /// How many marks of the queue's journal were printed.
    told: usize,
    /// The rows that were told last.
    rows: Option<MinuteRows>,
    ticks: Ticks,
    made: Option<Made>,
}

/// Whether a command leaves the clock as it is.
fn leaves_clock(command: &Command) -> bool
    ensures { result ≡ leaves_clock command.now }
{
    match command {
        Command::FirstParcel => true,
        Command::Send { .. }
        | Command::Receive { .. }
        | Command::Change { .. }
        | Command::Delete { .. }
        | Command::Purge
        | Command::Set { .. }
        | Command::Arrive { .. }
        | Command::Settle { .. }
        | Command::Orphan { .. }
        | Command::Close
        | Command::Look => false,
    }
}

/// Comes to the moment of a command, and tells whether a checkpoint takes the place of all entries before the command does
/// anything there.
fn come(state: &mut QueueState, at: Moment, command: &Command, ticks: &mut Ticks) -> bool
    ensures rebases { result ≡ (outcome_at state.old at command.now).rebases }
    ensures legal { result ≡ true → IsLegal (reached state.old at command.now) }
    ensures state { state.new ≡ reached state.old at command.now }
    ensures cost { ticks.new ≤ ticks.old + most_ticks state.old state.new }
{
    if leaves_clock(command) {
        return false;
    }
    state.advance(at, ticks);
    state.rebases(command)
}

/// Performs a command, and tells whether a checkpoint has taken the place of all entries before that, unless memory ran out.
/// It counts at most what the queue may to come to the moment, and what it may for the command.
fn answer(
    alloc: Global,
    state: &mut QueueState,
    at: Moment,
    command: &Command,
    ticks: &mut Ticks,
) -> (Result<Reply, Fault>, bool)
    ensures answer { IsAnswered state.old at command.now result.0 }
    ensures rebases { result.1 ≡ (outcome_at state.old at command.now).rebases }
    ensures legal { result.1 ≡ true → IsLegal (reached state.old at command.now) }
    ensures state { state.new ≡ after_answer state.old at command.now result.0 }
    ensures cost { ticks.new ≤ ticks.old + (most_ticks state.old (reached state.old at command.now) + most_ticks (reached state.old at command.now) state.new) }
{
    let rebases = come(state, at, command, ticks);
    let reply = state.perform(alloc, at, command, ticks);
    (reply, rebases)
}

/// How many marks of the journal were printed, behind an answer: none, where a checkpoint took the place of all entries.
fn told_behind(told: usize, rebases: bool, reply: &Result<Reply, Fault>) -> usize
    ensures { result ≡ told_behind told rebases reply.now }
{
    if rebases && !matches!(reply, Err(Fault::OutOfMemory)) {
        0
    } else {
        told
    }
}

impl<P: Press> Model for Held<P> {
    ghost use Rattle.std.specs.Prelude.{IfSome};
    ghost use Rattle.desk.specs.Held.{Lying};
    ghost use Rattle.desk.specs.private.KeptRows.{AreRowsOf};
    ghost use Rattle.desk.specs.private.Printed.{IsPrinted};

    ghost Value = { Lying };

    ghost view = { λ h. record { queue = h.state.value; made = h.made; place = P.place h.press } };

    ghost invariant = { λ h. IsPrinted (P.stands h.press) h.state.value h.told × IfSome h.rows (λ k. AreRowsOf k h.state.value) };
}

impl<P: Press> Held<P> {
    ghost use Rattle.desk.specs.private.Held.{untouched, IsBehind};
    ghost use Rattle.desk.specs.Printed.{IsToldOf};

    /// A queue to which no call was made yet.
    pub(crate) fn new(
        alloc: Global,
        state: QueueState,
        press: P,
        ticks: Ticks,
    ) -> Result<Held<P>, AllocError>
        requires { P.stands press [] }
        ensures { IfOk result (λ held. held ≡ untouched state (P.place press)) }
    {
        Ok(Held {
            state: Box::new(alloc, state)?,
            press,
            told: 0,
            rows: None,
            ticks,
            made: None,
        })
    }

    /// Performs a command, and keeps the call.
    pub(crate) fn perform(
        &mut self,
        alloc: Global,
        at: Moment,
        command: &Command,
    ) -> Result<Reply, Fault>
        ensures answer { IsAnswered self.old.queue at command.now result }
        ensures state { IsBehind self.old.queue at command.now result self.new }
        ensures place { self.new.place ≡ self.old.place }
    {
        let (reply, rebases) = answer(alloc, &mut *self.state, at, command, &mut self.ticks);
        self.told = told_behind(self.told, rebases, &reply);
        self.made = Some(Made {
            at,
            command: Snapshot::of(command),
            reply: Snapshot::of(&reply),
        });
        reply
    }

    /// Tells the press of the queue as a command has left it. `None` is lack of memory, for the turn or for the
    /// press; and the question for a parcel, which changes nothing, is not told.
    pub(crate) fn tell<R: Wait>(
        &mut self,
        rt: &R,
        alloc: Global,
        command: &Command,
    ) -> Option<P::Told>
        ensures told { IfSome result (λ told. IsToldOf (P.tells self.old.place) self.old.queue told) }
        ensures same { self.new ≡ self.old }
    {
        if matches!(command, Command::FirstParcel) {
            return None;
        }
        match self.press.blank() {
            Some(told) => Some(told),
            None => self.print(rt, alloc),
        }
    }

    /// Prints the turn. `None` is lack of memory, for the turn or for the press.
    fn print<R: Wait>(&mut self, rt: &R, alloc: Global) -> Option<P::Told>
        ensures told { IfSome result (λ told. IsToldOf (P.tells self.old.place) self.old.queue told) }
        ensures same { self.new ≡ self.old }
    {
        let Ok(turn) = Turn::of(
            alloc,
            &mut *self.state,
            self.told,
            &mut self.rows,
            &mut self.ticks,
        ) else {
            return None;
        };
        let entries = self.state.journal().len();
        let told = self.press.print(rt, alloc, turn)?;
        self.told = entries;
        Some(told)
    }

    /// The queue alone.
    pub(crate) fn into_state(self) -> QueueState
        ensures { result ≡ self.queue }
    {
        Box::into_inner(self.state)
    }
}
