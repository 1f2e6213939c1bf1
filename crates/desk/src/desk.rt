//! A desk: one queue, which threads take turns at.

ghost use Rattle.std.specs.Prelude.{ℕ, ◌≡◌, ◌<◌, ◌≤◌, ◌≢◌, ◌⊎◌, [], ◌∷◌, length, Err, None, Some, IfOk, IfErr, IfSome, IfNone};
ghost use Rattle.message.specs.declared.fault.Fault.TheVariants.{OutOfMemory, Spent};

use crate::asked::CallAnswer;
use crate::gate::Gate;
use crate::held::Held;
use crate::pass::{Note, Pass};
use crate::printing::Press;
use crate::rule::{Absorb, Await, Begin, Count, CutOff, Draw, End, Enter, Hear, InTurn, Look};
use crate::view::View;
use atomic_table::{Seat, Table};
use journal::{Moment, Ticks};
use message::Fault;
use queue_core::{Command, QueueState};
use std::alloc::Global;
use std::marker::Model;
use std::snapshot::Snapshot;
use std::sync::Wait;

/// The word that counts the turns that have ended.
const ENDED: usize = 0;

/// The word that counts the tickets that were drawn.
const TICKETS: usize = 1;

/// How many calls may be begun at one desk. This project's own choice.
const MOST_TICKETS: u64 = 1 << 62;

/// A queue that threads share. Contracts see which desk it is.
#[derive(Drop)]
pub struct Desk<P: Press> {
    table: Table<Option<Held<P>>, View, Snapshot<Held<P>>, InTurn, Global>,
}

impl<P: Press> Model for Desk<P> {
    ghost use Rattle.std.specs.Prelude.{◌≡◌};
    ghost use Rattle.atomic_table.specs.Seated.{TableId};

    ghost Value = { TableId };

    ghost view = { λ d. d.table.shared.table_id };

    ghost invariant = { λ d. (d.table.shared.table_id.words ≡ 2) × (d.table.shared.table_id.slots ≡ 1) };
}

impl<P: Press> Desk<P> {
    ghost use Rattle.desk.specs.declared.view.PassStage.TheVariants.{Idle, Drawn, Turn};
    ghost use Rattle.desk.specs.Views.{most_tickets, first_pass, pass_of, HasCalled, IsKnown, IsSpent, IsBusy, SeesMore, IsNewPass, IsLastState};
    ghost use Rattle.desk.specs.History.{state_of, calls_by, call, GoesOnFrom};
    ghost use Rattle.desk.specs.Printed.{IsToldOf};
    ghost use Rattle.desk.specs.private.Steps.{at_stage, counting, HasSeen, HasTurn, HasPerformed, behind_call, with_call};

    /// A desk with a queue on it, and its first pass, which has seen and called nothing. `OutOfMemory`
    /// is the only refusal; the queue and the press are then dropped.
    pub fn new(
        rt: &HostRuntime,
        alloc: Global,
        state: QueueState,
        press: P,
    ) -> Result<(Desk<P>, Pass<P>), Fault>
        requires { P.stands press [] }
        ensures ok { IfOk result (λ r. r.1 ≡ first_pass r.0 state (P.place press)) }
        ensures errors { IfErr result (λ fault. fault ≡ OutOfMemory) }
    {
        let Ok(held) = Held::new(alloc, state, press, Ticks::new(rt)) else {
            return Err(Fault::OutOfMemory);
        };
        let start = Snapshot::of(&held);
        let Ok(mut slots) = Vec::with_capacity(alloc, 1) else {
            return Err(Fault::OutOfMemory);
        };
        slots.push_reserved(Some(held));
        let Ok((table, seat)) = Table::new(alloc, &[0, 0], slots, &start) else {
            return Err(Fault::OutOfMemory);
        };
        Ok((Desk { table }, Pass { seat }))
    }

    /// Draws a ticket, where one is left.
    fn draw<R: Wait>(&self, rt: &R, seat: &mut Seat<Option<Held<P>>, View>) -> Option<u64>
        requires desk { seat.old.table_id ≡ self.now }
        requires idle { seat.old.me.0.stage ≡ Idle }
        ensures desk { seat.new.table_id ≡ seat.old.table_id }
        ensures some { IfSome result (λ ticket. (ticket < most_tickets) × (seat.new.me ≡ (at_stage (counting seat.old.me.0 ticket) (Drawn ticket), seat.old.me.1))) }
        ensures none { IfNone result (seat.new.me ≡ (counting seat.old.me.0 most_tickets, seat.old.me.1)) }
        ensures counted { seat.old.me.0.begun ≤ seat.new.me.0.begun }
    {
        let mut next = self.table.shared.load::<Count>(seat, TICKETS);
        for _ in rt.forever() {
            if next >= MOST_TICKETS {
                return None;
            }
            let found = self
                .table
                .shared
                .compare_exchange::<Draw>(seat, TICKETS, next, next + 1);
            if found == next {
                return Some(next);
            }
            next = found;
        }
        unreachable!()
    }

    /// Waits until all tickets before this one were served, and has the turn then.
    fn wait<R: Wait>(&self, rt: &R, seat: &mut Seat<Option<Held<P>>, View>, ticket: u64)
        requires desk { seat.old.table_id ≡ self.now }
        requires drawn { seat.old.me.0.stage ≡ Drawn ticket }
        requires empty { seat.old.me.1 ≡ [] }
        ensures desk { seat.new.table_id ≡ seat.old.table_id }
        ensures seen { HasSeen seat.old.me.0 seat.new.me.0 }
        ensures turn { HasTurn seat.new.me ticket }
    {
        for _ in rt.forever() {
            let ended = self.table.shared.load::<Await>(seat, ENDED);
            if ended == ticket {
                return;
            }
            self.table
                .shared
                .park(rt, ENDED, (ended % (1 << 32)) as u32);
        }
        unreachable!()
    }

    /// Draws a ticket where its turn has come, and has the turn then. It waits for nothing.
    fn begin(&self, seat: &mut Seat<Option<Held<P>>, View>) -> Option<u64>
        requires desk { seat.old.table_id ≡ self.now }
        requires idle { seat.old.me.0.stage ≡ Idle }
        requires empty { seat.old.me.1 ≡ [] }
        ensures desk { seat.new.table_id ≡ seat.old.table_id }
        ensures seen { HasSeen (counting seat.old.me.0 seat.new.me.0.begun) seat.new.me.0 }
        ensures counted { seat.old.me.0.begun ≤ seat.new.me.0.begun }
        ensures some { IfSome result (λ ticket. (ticket < most_tickets) × (seat.new.me.0.begun ≡ ticket) × HasTurn seat.new.me ticket) }
        ensures none { IfNone result ((seat.new.me.0.stage ≡ Idle) × (seat.new.me.1 ≡ []) × ((length seat.new.me.0.seen < seat.new.me.0.begun) ⊎ (most_tickets ≤ length seat.new.me.0.seen))) }
    {
        // Who only looks does not take the words from the one whose turn it is.
        let drawn = self.table.shared.load::<Count>(seat, TICKETS);
        let ended = self.look(seat);
        if ended < drawn || ended >= MOST_TICKETS {
            return None;
        }
        let found = self
            .table
            .shared
            .compare_exchange::<Begin>(seat, TICKETS, ended, ended + 1);
        if found != ended {
            return None;
        }
        Some(ended)
    }

    /// Takes the queue from the desk, at the turn.
    fn take(&self, seat: &mut Seat<Option<Held<P>>, View>) -> Held<P>
        requires desk { seat.old.table_id ≡ self.now }
        requires turn { (ticket : ℕ) × HasTurn seat.old.me ticket }
        ensures desk { seat.new.table_id ≡ seat.old.table_id }
        ensures out { seat.new.me ≡ (seat.old.me.0, (0, None) ∷ []) }
        ensures queue { result.queue ≡ state_of seat.old.me.0.start seat.old.me.0.seen }
        ensures place { result.place ≡ seat.old.me.0.place }
    {
        let Some(held) = self.table.shared.exchange(seat, 0, None) else {
            unreachable!()
        };
        held
    }

    /// Puts the queue back behind a call, and ends the turn, which is when the call takes place.
    fn end(&self, seat: &mut Seat<Option<Held<P>>, View>, held: Held<P>)
        requires desk { seat.old.table_id ≡ self.now }
        requires turn { (ticket : ℕ) × (seat.old.me.0.stage ≡ Turn ticket) }
        requires out { seat.old.me.1 ≡ (0, None) ∷ [] }
        requires call { HasPerformed seat.old.me.0 held }
        ensures desk { seat.new.table_id ≡ seat.old.table_id }
        ensures ended { seat.new.me ≡ (with_call seat.old.me.0 held.made, []) }
    {
        let _none = self.table.shared.exchange(seat, 0, Some(held));
        let ended = self.table.shared.fetch_add::<End>(seat, ENDED, 1);
        // Who draws a ticket from here on finds this turn ended, and does not sleep before it.
        if ended.wrapping_add(1) < self.table.shared.peek(TICKETS) {
            self.table.shared.wake_all(ENDED);
        }
    }

    /// Calls the queue in the turn of a ticket, from which it is taken to where it lies again. What is told
    /// is of the queue behind the call, which takes place as the turn ends.
    fn call_in_turn<R: Wait>(
        &self,
        rt: &R,
        alloc: Global,
        seat: &mut Seat<Option<Held<P>>, View>,
        ticket: u64,
        at: Moment,
        command: &Command,
        gate: &impl Gate,
    ) -> CallAnswer<P::Told>
        requires desk { seat.old.table_id ≡ self.now }
        requires turn { HasTurn seat.old.me ticket }
        requires known { IsKnown (pass_of seat.old.table_id seat.old.me.0) }
        ensures desk { seat.new.table_id ≡ seat.old.table_id }
        ensures called { seat.new.me ≡ (behind_call seat.old.me.0 (call seat.old.me.0.number at command.now result.reply), []) }
        ensures known { IsKnown (pass_of seat.new.table_id seat.new.me.0) }
        ensures told { IfSome result.told (λ told. IsToldOf (P.tells seat.new.me.0.place) (state_of seat.new.me.0.start seat.new.me.0.seen) told) }
    {
        let mut held = self.take(seat);
        gate.in_turn(rt, ticket);
        let reply = held.perform(alloc, at, command);
        let told = held.tell(rt, alloc, command);
        self.end(seat, held);
        CallAnswer { reply, told }
    }

    /// Calls the queue at a moment, in a turn of its own, and waits for it. `Spent` is the answer where
    /// all 2^62 tickets are drawn, and nothing is called then. Every other answer, `OutOfMemory` among
    /// them, is a call in the history, and what is told is of the queue behind it.
    pub fn ask<R: Wait>(
        &self,
        rt: &R,
        alloc: Global,
        pass: &mut Pass<P>,
        at: Moment,
        command: &Command,
        gate: &impl Gate,
    ) -> CallAnswer<P::Told>
        requires { pass.old.desk ≡ self.now }
        ensures call { HasCalled pass.old at command.now result.reply pass.new ⊎ ((result.reply ≡ Err Spent) × (result.told ≡ None) × IsSpent pass.old pass.new) }
        ensures desk { pass.new.desk ≡ pass.old.desk }
        ensures known { IsKnown pass.new }
        ensures told { IfSome result.told (λ told. IsToldOf (P.tells pass.new.place) (state_of pass.new.start pass.new.seen) told) }
    {
        let Some(ticket) = self.draw(rt, &mut pass.seat) else {
            return CallAnswer {
                reply: Err(Fault::Spent),
                told: None,
            };
        };
        self.wait(rt, &mut pass.seat, ticket);
        self.call_in_turn(rt, alloc, &mut pass.seat, ticket, at, command, gate)
    }

    /// The same where the turn is free, and nothing where it is not: `None` is the answer where another
    /// holds a ticket, or none is left, and nothing is called then. It waits for no turn: `rt` is for the
    /// gate and for the press.
    pub fn ask_now<R: Wait>(
        &self,
        rt: &R,
        alloc: Global,
        pass: &mut Pass<P>,
        at: Moment,
        command: &Command,
        gate: &impl Gate,
    ) -> Option<CallAnswer<P::Told>>
        requires { pass.old.desk ≡ self.now }
        ensures some { IfSome result (λ asked. HasCalled pass.old at command.now asked.reply pass.new) }
        ensures none { IfNone result (SeesMore pass.old pass.new) }
        ensures busy { IfNone result (IsBusy pass.old pass.new) }
        ensures desk { pass.new.desk ≡ pass.old.desk }
        ensures known { IsKnown pass.new }
        ensures told { IfSome result (λ asked. IfSome asked.told (λ told. IsToldOf (P.tells pass.new.place) (state_of pass.new.start pass.new.seen) told)) }
    {
        let ticket = self.begin(&mut pass.seat)?;
        Some(self.call_in_turn(rt, alloc, &mut pass.seat, ticket, at, command, gate))
    }

    /// Looks at the history without a turn, and answers how many turns have ended, which are its calls.
    fn look(&self, seat: &mut Seat<Option<Held<P>>, View>) -> u64
        requires desk { seat.old.table_id ≡ self.now }
        requires idle { seat.old.me.0.stage ≡ Idle }
        ensures desk { seat.new.table_id ≡ seat.old.table_id }
        ensures seen { HasSeen seat.old.me.0 seat.new.me.0 }
        ensures count { result ≡ length seat.new.me.0.seen }
        ensures idle { (seat.new.me.0.stage ≡ Idle) × (seat.new.me.1 ≡ seat.old.me.1) }
    {
        self.table.shared.load::<Look>(seat, ENDED)
    }

    /// How many turns have ended: at least as many as the pass has seen. It takes no turn.
    pub fn glance(&self, pass: &mut Pass<P>) -> u64
        requires { pass.old.desk ≡ self.now }
        ensures count { result ≡ length pass.new.seen }
        ensures seen { SeesMore pass.old pass.new }
        ensures known { IsKnown pass.new }
    {
        self.look(&mut pass.seat)
    }

    /// A pass more: its number is another than the first one's, it has called nothing, and has seen at
    /// least as much.
    pub fn pass(&self, pass: &mut Pass<P>) -> Pass<P>
        requires { pass.old.desk ≡ self.now }
        ensures same { pass.new ≡ pass.old }
        ensures new { IsNewPass pass.old result }
        ensures known { IsKnown result }
    {
        let mut seat = self.table.shared.split_seat::<CutOff>(&mut pass.seat);
        self.table.shared.load::<Enter>(&mut seat, ENDED);
        Pass { seat }
    }

    /// What the pass has seen, for another pass to meet.
    pub fn note(&self, pass: &mut Pass<P>) -> Note<P>
        requires { pass.old.desk ≡ self.now }
        ensures same { pass.new ≡ pass.old }
        ensures seen { (result.desk ≡ self.now) × (result.start ≡ pass.old.start) × (result.seen ≡ pass.old.seen) }
    {
        Note {
            seat: self.table.shared.split_seat::<CutOff>(&mut pass.seat),
        }
    }

    /// The pass sees what a note says, beside all that it had seen: of the two histories one begins
    /// with the other.
    pub fn meet(&self, pass: &mut Pass<P>, note: Note<P>)
        requires { (pass.old.desk ≡ self.now) × (note.desk ≡ self.now) }
        ensures seen { SeesMore pass.old pass.new }
        ensures theirs { GoesOnFrom note.seen pass.new.seen }
        ensures one { GoesOnFrom note.seen pass.old.seen ⊎ GoesOnFrom pass.old.seen note.seen }
        ensures known { IsKnown pass.new }
    {
        let Note { seat } = note;
        self.table.shared.join_seat::<Hear>(&mut pass.seat, seat);
        self.look(&mut pass.seat);
    }

    /// Ends another pass: what it has seen, the first pass sees too. Its calls stay in the history, under
    /// its number, which is not the first pass's.
    pub fn end_pass(&self, pass: &mut Pass<P>, ended: Pass<P>)
        requires { (pass.old.desk ≡ self.now) × (ended.desk ≡ self.now) }
        ensures seen { SeesMore pass.old pass.new }
        ensures theirs { GoesOnFrom ended.seen pass.new.seen }
        ensures one { GoesOnFrom ended.seen pass.old.seen ⊎ GoesOnFrom pass.old.seen ended.seen }
        ensures apart { ended.number ≢ pass.old.number }
        ensures calls { GoesOnFrom ended.mine (calls_by ended.number pass.new.seen) }
        ensures known { IsKnown pass.new }
    {
        let Pass { seat } = ended;
        self.table.shared.join_seat::<Absorb>(&mut pass.seat, seat);
        self.look(&mut pass.seat);
    }

    /// Closes the desk after a last turn, in which nothing is called and no gate stands, and gives the
    /// queue back as a history leaves it that goes on from all that the pass had seen. A desk whose 2^62
    /// tickets are drawn answers `Spent`, and the queue is dropped.
    pub fn close<R: Wait>(self, rt: &R, pass: Pass<P>) -> Result<QueueState, Fault>
        requires { pass.desk ≡ self }
        ensures ok { IfOk result (λ queue. IsLastState pass queue) }
        ensures errors { IfErr result (λ fault. fault ≡ Spent) }
    {
        let Pass { mut seat } = pass;
        let Some(ticket) = self.draw(rt, &mut seat) else {
            return Err(Fault::Spent);
        };
        self.wait(rt, &mut seat, ticket);
        let held = self.take(&mut seat);
        Ok(held.into_state())
    }
}
