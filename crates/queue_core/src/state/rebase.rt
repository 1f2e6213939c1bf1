//! Checkpoints: what makes room in a journal that is at its limit.

ghost use Rattle.std.specs.Prelude.{◌≡◌, ◌+◌, true, false, None, map, OnOk, OnErr, IfOk, IfErr, if◌then◌else◌};
ghost use Rattle.std.specs.Option.{ForSome};
ghost use Rattle.message.specs.declared.fault.Fault.TheVariants.{OutOfMemory};
ghost use Rattle.message.specs.Fault.{is_out_of_memory};
ghost use Rattle.queue_core.specs.Rebase.{kept_flows, kept_row};
ghost use Rattle.queue_core.specs.Queue.{wants_open};

use crate::command::Command;
use crate::state::QueueState;
use journal::{Base, Journal, KeptFlows, KeptRow, Parts};
use message::{Content, Fault};
use metric_window::{Flows, Row};
use std::alloc::Global;
use std::mem;

impl QueueState {
    ghost use Rattle.journal.specs.Weight.{weight_of};
    ghost use Rattle.queue_core.specs.Rebase.{base_of};
    ghost use Rattle.queue_core.specs.Queue.{is_at_limit, is_full, rebased, rebased_where, first_refusal, outcome_of};
    ghost use Rattle.queue_core.specs.Legal.{IsLegal};
    ghost use Rattle.queue_core.specs.private.Replaced.{CanComeBack, put_back_in};

    /// Whether the journal weighs as much as it may.
    pub(super) fn is_at_limit(&self) -> bool
        ensures { result ≡ is_at_limit self.now }
    {
        u64::from(self.limits.max_lines) <= self.journal.weight()
    }

    /// Whether it does, and a checkpoint would make no room.
    pub(super) fn is_full(&self) -> bool
        ensures { result ≡ is_full self.now }
    {
        self.is_at_limit() && self.limits.max_lines as usize <= 1 + self.index.len()
    }

    /// How much the journal weighs: 1 for each entry, and for a checkpoint 1 more for each message that it keeps.
    pub fn weight(&self) -> u64
        ensures { result ≡ weight_of self.now.lines }
    {
        let lines = self.journal.weight();
        // The journal weighs at most one more than this, a number of 25 bits.
        let _most = self.limits.max_lines;
        lines
    }

    /// Whether a checkpoint takes the place of all entries before a command does anything at the queue's clock, unless
    /// memory runs out. It takes no memory.
    pub fn rebases(&self, command: &Command) -> bool
        ensures answer { result ≡ (outcome_of self.now command.now).rebases }
        ensures legal { IsLegal self.now }
    {
        // What is read tells the proof that the journal is legal.
        let _clock = self.clock;
        match self.first_refusal() {
            Some(_) => false,
            None => wants_open(command) && self.is_at_limit(),
        }
    }

    /// What stands for all entries at the clock. `OutOfMemory` is the only refusal.
    fn base(&self, alloc: Global) -> Result<Base<Content>, Fault>
        ensures ok { IfOk result (λ base. base ≡ base_of self.now.uid self.now.lines self.now.clock) }
        ensures errors { IfErr result (λ fault. fault ≡ OutOfMemory) }
    {
        let retention = self.tally.settings.retention_seconds;
        let receives = Vec::from_slice(alloc, self.index.receives.as_slice())?;
        let accepted = Vec::from_slice(alloc, self.accepted.keys.as_slice())?;
        let messages = self.index.kept(alloc, retention, self.clock)?;
        let rows = self.watch.window.rows(alloc)?;
        let rows = kept_rows(alloc, rows.as_slice())?;
        let parts = Parts {
            uid: self.uid,
            settings: self.tally.settings,
            created: self.tally.created,
            modified: self.tally.modified,
            receives,
            accepted,
            messages,
            rows,
            flows: kept_flows(self.watch.window.current()),
        };
        Base::new(alloc, parts)
    }

    /// A journal of one entry, which stands for all entries of this queue's, with the room that this queue's has, and room for
    /// one entry at least. `OutOfMemory` is the only refusal.
    fn fresh_journal(&self, alloc: Global) -> Result<Journal, Fault>
        ensures lines { IfOk result (λ journal. journal.lines ≡ (rebased self.now).lines) }
        ensures limit { IfOk result (λ journal. journal.limit ≡ self.now.limits.max_lines + 1) }
        ensures spare { IfOk result (λ journal. journal.spare ≡ (rebased self.now).spare) }
        ensures errors { IfErr result (λ fault. fault ≡ OutOfMemory) }
    {
        let base = self.base(alloc)?;
        let mut journal = Journal::new(alloc, self.limits.max_lines as usize + 1)?;
        journal.reserve(alloc, self.journal.spare() + 1)?;
        journal.rebase(alloc, self.clock, base)?;
        Ok(journal)
    }

    /// Puts a checkpoint in the place of all entries, where the journal is at its limit, and gives the journal that was
    /// there. `OutOfMemory` is the only refusal; the queue is then as it was.
    pub(super) fn make_way(&mut self, alloc: Global) -> Result<Option<Journal>, Fault>
        requires { first_refusal self.old ≡ None }
        ensures ok { OnOk result (self.new ≡ rebased_where (is_at_limit self.old) self.old) }
        ensures back { IfOk result (λ replaced. put_back_in replaced self.new ≡ self.old) }
        ensures kept { IfOk result (λ replaced. ForSome replaced (λ journal. CanComeBack self.new journal)) }
        ensures err { OnErr result (self.new ≡ self.old) }
        ensures errors { IfErr result (λ fault. fault ≡ OutOfMemory) }
        ensures open { OnOk result (first_refusal self.new ≡ None) }
        ensures place { OnOk result (is_at_limit self.new ≡ false) }
        ensures wants { OnErr result (is_at_limit self.old ≡ true) }
        ensures legal { IsLegal self.old }
    {
        if !self.is_at_limit() {
            return Ok(None);
        }
        let journal = self.fresh_journal(alloc)?;
        Ok(Some(mem::replace(&mut self.journal, journal)))
    }

    /// Gives the answer of a command. Where that is lack of memory, the journal that was replaced before it comes back.
    pub(super) fn put_back<T>(
        &mut self,
        replaced: Option<Journal>,
        answer: Result<T, Fault>,
    ) -> Result<T, Fault>
        requires { is_out_of_memory answer ≡ true → ForSome replaced (λ journal. CanComeBack self.old journal) }
        ensures answer { result ≡ answer }
        ensures state { self.new ≡ (if is_out_of_memory answer then put_back_in replaced self.old else self.old) }
    {
        if let Err(Fault::OutOfMemory) = &answer {
            if let Some(journal) = replaced {
                self.journal = journal;
            }
        }
        answer
    }
}

/// Whether a full journal refuses a command: a checkpoint comes only before such a one.
fn wants_open(command: &Command) -> bool
    ensures { result ≡ wants_open command.now }
{
    match command {
        Command::Close | Command::Look | Command::FirstParcel => false,
        Command::Send { .. }
        | Command::Receive { .. }
        | Command::Change { .. }
        | Command::Delete { .. }
        | Command::Purge
        | Command::Set { .. }
        | Command::Arrive { .. }
        | Command::Settle { .. }
        | Command::Orphan { .. } => true,
    }
}

/// The rows of minutes, as a checkpoint keeps them. `OutOfMemory` is the only refusal.
#[tactic(auto, using(std::proofs::lemmas::List::map_more))]
fn kept_rows(alloc: Global, rows: &[Row]) -> Result<Vec<KeptRow>, Fault>
    ensures ok { IfOk result (λ kept. kept.items ≡ map kept_row rows.now) }
    ensures errors { IfErr result (λ fault. fault ≡ OutOfMemory) }
{
    let mut kept = Vec::with_capacity(alloc, rows.len())?;
    for row in rows {
        kept.push_reserved(kept_row(row));
    }
    Ok(kept)
}

/// The row of a minute, as a checkpoint keeps it.
fn kept_row(row: &Row) -> KeptRow
    ensures { result ≡ kept_row row.now }
{
    KeptRow {
        minute: row.minute,
        flows: kept_flows(row.flows),
        visible: row.gauges.visible,
        delayed: row.gauges.delayed,
        in_flight: row.gauges.in_flight,
        age: row.gauges.age,
    }
}

/// What happened in a minute, as a checkpoint keeps it.
fn kept_flows(flows: Flows) -> KeptFlows
    ensures { result ≡ kept_flows flows }
{
    KeptFlows {
        sent: flows.sent,
        sent_size: flows.sent_size,
        received: flows.received,
        empty_receives: flows.empty_receives,
        deleted: flows.deleted,
        refused: flows.refused,
        dead_letters_arrived: flows.dead_letters_arrived,
    }
}
