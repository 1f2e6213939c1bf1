//! Dead letters: what a queue hands over, confirms, takes back and accepts.

ghost use Rattle.std.specs.Prelude.{◌≡◌, ◌+◌, ◌<◌, ◌≤◌, ◌^◌, ℕ, false, None, Ok, IsTrue, option_map};
ghost use Rattle.message.specs.Content.{is_content};
ghost use Rattle.message.specs.Name.{is_queue_name};
ghost use Rattle.message.specs.Fault.{Meets};

use crate::command::Command;
use crate::indices::is_left;
use crate::parcel::{Arrival, Parcel};
use crate::record::Record;
use crate::reply::Reply;
use crate::slot::Stay;
use crate::state::QueueState;
use journal::{Event, Moment, Origin, Ticks};
use message::Fault;
use std::alloc::Global;

/// What every parcel is. Nothing depends on it.
fn keep_parcel(parcel: &Parcel)
    ensures content { IsTrue (is_content parcel.now.content) }
    ensures name { IsTrue (is_queue_name parcel.now.origin.name) }
    ensures sent { parcel.now.origin.sent < 2 ^ 62 }
{
    let _size = parcel.content.size();
    let _name = parcel.origin.name.as_text();
    let _sent = parcel.origin.sent.milliseconds();
}

impl QueueState {
    ghost use Rattle.queue_core.specs.Messages.{has_accepted};
    ghost use Rattle.queue_core.specs.Cost.{most_ticks};
    ghost use Rattle.queue_core.specs.private.Spending.{HasCome};
    ghost use Rattle.queue_core.specs.declared.facts.Message.{Message};
    ghost use Rattle.queue_core.specs.private.Recorded.{IsRecordOf};
    ghost use Rattle.queue_core.specs.Legal.{IsLegal};
    ghost use Rattle.queue_core.specs.Queue.{QueueHistory, is_at_limit, first_refusal, outcome_in, outcome_of, outcome_at, reply_without_memory, IsExact, IsExactWithRoom, after_outcome, after_answer, as_reply, is_pending, waiting_count, origin_of, first_transfer, first_parcel_of};

    /// Accepts a dead letter of another queue. It comes now, and keeps its id and the time at which it
    /// was first sent; it was received 0 times here. A transfer that this queue has accepted before is
    /// answered `Again` and adds nothing, for good. A full journal answers `JournalFull`, also to such a
    /// transfer; with `OutOfMemory` only the clock has moved.
    pub fn arrive(
        &mut self,
        alloc: Global,
        at: Moment,
        parcel: Parcel,
        ticks: &mut Ticks,
    ) -> Result<Arrival, Fault>
        ensures answer { Meets (as_reply Reply.Arrived result) (outcome_at self.old at (Command.Arrive parcel)).reply }
        ensures exact { IsExact (outcome_at self.old at (Command.Arrive parcel)) (as_reply Reply.Arrived result) }
        ensures room { IsExactWithRoom self.old (outcome_at self.old at (Command.Arrive parcel)) (as_reply Reply.Arrived result) }
        ensures state { self.new ≡ after_answer self.old at (Command.Arrive parcel) result }
        ensures cost { ticks.new ≤ ticks.old + most_ticks self.old self.new }
    {
        self.begin(at, ticks)?;
        let replaced = self.make_way(alloc)?;
        let answer = self.arrive_now(alloc, parcel, ticks);
        self.put_back(replaced, answer)
    }

    /// The same at the queue's clock, in the journal as it stands, where nothing refuses it before anything of it is asked.
    fn arrive_now(
        &mut self,
        alloc: Global,
        parcel: Parcel,
        ticks: &mut Ticks,
    ) -> Result<Arrival, Fault>
        requires open { first_refusal self.old ≡ None }
        requires place { is_at_limit self.old ≡ false }
        ensures answer { Meets (as_reply Reply.Arrived result) (outcome_in self.old (Command.Arrive parcel)).reply }
        ensures exact { IsExact (outcome_in self.old (Command.Arrive parcel)) (as_reply Reply.Arrived result) }
        ensures room { IsExactWithRoom self.old (outcome_in self.old (Command.Arrive parcel)) (as_reply Reply.Arrived result) }
        ensures state { self.new ≡ after_outcome self.old (outcome_in self.old (Command.Arrive parcel)) result }
        ensures cost { (p : QueueHistory) (before : ℕ) → HasCome before p ticks.old self.old → ticks.new ≤ before + most_ticks p self.new }
    {
        if self.has_accepted(&parcel.origin) {
            return Ok(Arrival::Again);
        }
        self.accept(alloc, parcel, ticks)
    }

    /// The same at the queue's clock, for a transfer that the queue has not accepted before, where nothing refuses it
    /// before anything of it is asked.
    fn accept(&mut self, alloc: Global, parcel: Parcel, ticks: &mut Ticks) -> Result<Arrival, Fault>
        requires open { first_refusal self.old ≡ None }
        requires place { is_at_limit self.old ≡ false }
        requires new { has_accepted self.old.lines parcel.origin.uid parcel.origin.number ≡ false }
        ensures answer { Meets (as_reply Reply.Arrived result) (outcome_in self.old (Command.Arrive parcel)).reply }
        ensures exact { IsExact (outcome_in self.old (Command.Arrive parcel)) (as_reply Reply.Arrived result) }
        ensures room { IsExactWithRoom self.old (outcome_in self.old (Command.Arrive parcel)) (as_reply Reply.Arrived result) }
        ensures state { self.new ≡ after_outcome self.old (outcome_in self.old (Command.Arrive parcel)) result }
        ensures cost { (p : QueueHistory) (before : ℕ) → HasCome before p ticks.old self.old → ticks.new ≤ before + most_ticks p self.new }
    {
        keep_parcel(&parcel);
        let event = Event::Arrived {
            origin: parcel.origin,
            content: parcel.content,
        };
        self.add(alloc, event, ticks)?;
        Ok(Arrival::New)
    }

    /// The same for a parcel that stays where it is: its content is shared.
    pub(crate) fn arrive_shared(
        &mut self,
        alloc: Global,
        at: Moment,
        parcel: &Parcel,
        ticks: &mut Ticks,
    ) -> Result<Arrival, Fault>
        ensures answer { Meets (as_reply Reply.Arrived result) (outcome_at self.old at (Command.Arrive parcel.now)).reply }
        ensures exact { IsExact (outcome_at self.old at (Command.Arrive parcel.now)) (as_reply Reply.Arrived result) }
        ensures room { IsExactWithRoom self.old (outcome_at self.old at (Command.Arrive parcel.now)) (as_reply Reply.Arrived result) }
        ensures state { self.new ≡ after_answer self.old at (Command.Arrive parcel.now) result }
        ensures cost { ticks.new ≤ ticks.old + most_ticks self.old self.new }
    {
        self.begin(at, ticks)?;
        let replaced = self.make_way(alloc)?;
        let answer = self.arrive_shared_now(alloc, parcel, ticks);
        self.put_back(replaced, answer)
    }

    /// The same at the queue's clock, in the journal as it stands, where nothing refuses it before anything of it is asked.
    fn arrive_shared_now(
        &mut self,
        alloc: Global,
        parcel: &Parcel,
        ticks: &mut Ticks,
    ) -> Result<Arrival, Fault>
        requires open { first_refusal self.old ≡ None }
        requires place { is_at_limit self.old ≡ false }
        ensures answer { Meets (as_reply Reply.Arrived result) (outcome_in self.old (Command.Arrive parcel.now)).reply }
        ensures exact { IsExact (outcome_in self.old (Command.Arrive parcel.now)) (as_reply Reply.Arrived result) }
        ensures room { IsExactWithRoom self.old (outcome_in self.old (Command.Arrive parcel.now)) (as_reply Reply.Arrived result) }
        ensures state { self.new ≡ after_outcome self.old (outcome_in self.old (Command.Arrive parcel.now)) result }
        ensures cost { (p : QueueHistory) (before : ℕ) → HasCome before p ticks.old self.old → ticks.new ≤ before + most_ticks p self.new }
    {
        if self.has_accepted(&parcel.origin) {
            return Ok(Arrival::Again);
        }
        let parcel = Parcel {
            origin: parcel.origin,
            target: parcel.target,
            content: parcel.content.share()?,
        };
        self.accept(alloc, parcel, ticks)
    }

    /// What a parcel from this origin is answered at the queue's clock, where that takes no memory: what
    /// refuses it, or `Again`. It is none where the parcel is one to accept, or a checkpoint comes first. So whoever has the parcel
    /// still to make, which takes memory, can know before whether this queue needs memory for its answer.
    pub fn arrival_answer(&self, origin: &Origin) -> Option<Result<Arrival, Fault>>
        ensures { (parcel : Parcel) → parcel.origin ≡ origin.now
            → option_map (λ answer. as_reply Reply.Arrived answer) result ≡ reply_without_memory (outcome_of self.now (Command.Arrive parcel)) }
    {
        if let Some(fault) = self.first_refusal() {
            return Some(Err(fault));
        }
        if self.is_at_limit() {
            return None;
        }
        if self.has_accepted(origin) {
            return Some(Ok(Arrival::Again));
        }
        None
    }

    /// Confirms that the dead-letter queue has accepted the message of a number. The answer is whether
    /// it waited for that; where it did not, nothing is added. A full journal answers `JournalFull`; with
    /// `OutOfMemory` only the clock has moved.
    pub fn settle(
        &mut self,
        alloc: Global,
        at: Moment,
        number: u64,
        ticks: &mut Ticks,
    ) -> Result<bool, Fault>
        ensures answer { Meets (as_reply Reply.Settled result) (outcome_at self.old at (Command.Settle number)).reply }
        ensures exact { IsExact (outcome_at self.old at (Command.Settle number)) (as_reply Reply.Settled result) }
        ensures room { IsExactWithRoom self.old (outcome_at self.old at (Command.Settle number)) (as_reply Reply.Settled result) }
        ensures state { self.new ≡ after_answer self.old at (Command.Settle number) result }
        ensures cost { ticks.new ≤ ticks.old + most_ticks self.old self.new }
    {
        self.begin(at, ticks)?;
        let replaced = self.make_way(alloc)?;
        let answer = self.settle_now(alloc, number, ticks);
        self.put_back(replaced, answer)
    }

    /// The same at the queue's clock, in the journal as it stands, where nothing refuses it before anything of it is asked.
    fn settle_now(&mut self, alloc: Global, number: u64, ticks: &mut Ticks) -> Result<bool, Fault>
        requires open { first_refusal self.old ≡ None }
        requires place { is_at_limit self.old ≡ false }
        ensures answer { Meets (as_reply Reply.Settled result) (outcome_in self.old (Command.Settle number)).reply }
        ensures exact { IsExact (outcome_in self.old (Command.Settle number)) (as_reply Reply.Settled result) }
        ensures room { IsExactWithRoom self.old (outcome_in self.old (Command.Settle number)) (as_reply Reply.Settled result) }
        ensures state { self.new ≡ after_outcome self.old (outcome_in self.old (Command.Settle number)) result }
        ensures cost { (p : QueueHistory) (before : ℕ) → HasCome before p ticks.old self.old → ticks.new ≤ before + most_ticks p self.new }
    {
        if !self.is_pending(number) {
            return Ok(false);
        }
        self.add(alloc, Event::Settled { number }, ticks)?;
        Ok(true)
    }

    /// Takes back every message that waits for the dead-letter queue of a uid, which is gone, and
    /// clears the policy where it names that queue. Those that have not expired are visible at once, and
    /// their receives count on. The answer is how many came back, the expired ones among them. This is an
    /// entry, also where none did. A full journal answers `JournalFull`; with `OutOfMemory` only the clock
    /// has moved.
    pub fn orphan(
        &mut self,
        alloc: Global,
        at: Moment,
        target: u64,
        ticks: &mut Ticks,
    ) -> Result<u64, Fault>
        ensures answer { Meets (as_reply Reply.Orphaned result) (outcome_at self.old at (Command.Orphan target)).reply }
        ensures exact { IsExact (outcome_at self.old at (Command.Orphan target)) (as_reply Reply.Orphaned result) }
        ensures room { IsExactWithRoom self.old (outcome_at self.old at (Command.Orphan target)) (as_reply Reply.Orphaned result) }
        ensures state { self.new ≡ after_answer self.old at (Command.Orphan target) result }
        ensures cost { ticks.new ≤ ticks.old + most_ticks self.old self.new }
    {
        self.begin(at, ticks)?;
        let replaced = self.make_way(alloc)?;
        let answer = self.orphan_now(alloc, target, ticks);
        self.put_back(replaced, answer)
    }

    /// The same at the queue's clock, in the journal as it stands, where nothing refuses it before anything of it is asked.
    fn orphan_now(&mut self, alloc: Global, target: u64, ticks: &mut Ticks) -> Result<u64, Fault>
        requires open { first_refusal self.old ≡ None }
        requires place { is_at_limit self.old ≡ false }
        ensures answer { Meets (as_reply Reply.Orphaned result) (outcome_in self.old (Command.Orphan target)).reply }
        ensures exact { IsExact (outcome_in self.old (Command.Orphan target)) (as_reply Reply.Orphaned result) }
        ensures room { IsExactWithRoom self.old (outcome_in self.old (Command.Orphan target)) (as_reply Reply.Orphaned result) }
        ensures state { self.new ≡ after_outcome self.old (outcome_in self.old (Command.Orphan target)) result }
        ensures cost { (p : QueueHistory) (before : ℕ) → HasCome before p ticks.old self.old → ticks.new ≤ before + most_ticks p self.new }
    {
        let count = self.waiting_count(target);
        self.add(alloc, Event::Orphaned { target }, ticks)?;
        Ok(count)
    }

    /// The dead letter that has waited longest, with a share of its content; `None` where none waits.
    /// `OutOfMemory` is the only refusal. Neither the journal nor the clock changes.
    pub fn first_parcel(&self, _alloc: Global) -> Result<Option<Parcel>, Fault>
        ensures answer { Meets result (Ok (first_parcel_of self.now)) }
        ensures none { first_parcel_of self.now ≡ None → result ≡ Ok None }
    {
        let Some((number, target)) = self.first_left() else {
            return Ok(None);
        };
        match self.index.records.get(&number) {
            Some(kept) => Ok(Some(Parcel {
                origin: self.origin_of(number, kept),
                target,
                content: kept.content.share()?,
            })),
            None => unreachable!(),
        }
    }

    /// Where the dead letter comes from that has waited longest, and the uid of the queue that it is for:
    /// [`first_parcel`](QueueState::first_parcel) without the content, which takes no memory.
    pub fn first_waiting(&self) -> Option<(Origin, u64)>
        ensures first { result ≡ option_map (λ p. (p.origin, p.target)) (first_parcel_of self.now) }
        ensures legal { IsLegal self.now }
    {
        let (number, target) = self.first_left()?;
        match self.index.records.get(&number) {
            Some(kept) => Some((self.origin_of(number, kept), target)),
            None => unreachable!(),
        }
    }

    /// The number of the message that has waited longest for its dead-letter queue, and that queue's uid.
    fn first_left(&self) -> Option<(u64, u64)>
        ensures first { result ≡ option_map (λ t. (t.number, t.target)) (first_transfer self.now) }
        ensures legal { IsLegal self.now }
    {
        let number = *self.index.leaving.front()?;
        match self.index.slot_of(number)?.stay {
            Stay::Left { target, .. } => Some((number, target)),
            Stay::Hidden | Stay::Shown => unreachable!(),
        }
    }

    /// Where the message of a number, of which this is the record, comes from, for the queue that it is handed to.
    fn origin_of(&self, number: u64, kept: &Record) -> Origin
        ensures { (m : Message) → m.number ≡ number → IsRecordOf self.now.lines m kept.now → result ≡ origin_of self.now m }
    {
        Origin {
            uid: self.uid,
            number,
            name: self.name,
            id: self.message_id(number, kept.origin),
            sent: kept.first_send_time,
        }
    }

    /// Whether this queue has accepted the transfer that has this origin.
    pub fn has_accepted(&self, origin: &Origin) -> bool
        ensures { result ≡ has_accepted self.now.lines origin.now.uid origin.now.number }
    {
        self.accepted.contains(origin.uid, origin.number)
    }

    /// Whether the message of a number waits for a dead-letter queue.
    fn is_pending(&self, number: u64) -> bool
        ensures { result ≡ is_pending self.now number }
    {
        is_left(self.index.slot_of(number))
    }

    /// How many messages wait for the dead-letter queue of a uid.
    fn waiting_count(&self, target: u64) -> u64
        ensures { result ≡ waiting_count self.now target }
    {
        self.index.left_for(target)
    }
}
