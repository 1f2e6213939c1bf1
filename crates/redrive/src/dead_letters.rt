//! Dead letters that go from one queue of the registry to another.

ghost use Rattle.std.specs.Prelude.{◌≡◌, ℕ, ◌+◌, ◌≤◌, true, false, Some, None, Ok, Err, option_map, option_and_then};
ghost use Rattle.std.specs.Option.{option_map_or};
ghost use Rattle.message.specs.Fault.{Meets};
ghost use Rattle.queue_core.specs.Messages.{has_accepted};
ghost use Rattle.queue_core.specs.Queue.{QueueHistory, outcome_of, reply_without_memory, as_reply};
ghost use Rattle.queue_core.specs.Legal.{IsLegal};
ghost use Rattle.redrive.specs.House.{moved_of, as_moved, needs_confirmation};

use crate::house::House;
use crate::moved::Moved;
use journal::{Moment, Origin, Ticks};
use message::Fault;
use queue_core::{Arrival, Command, Parcel, Reply};
use std::alloc::Global;

/// What a queue's answer says of the parcel.
fn moved_of(reply: &Reply) -> Moved
    ensures { result ≡ moved_of reply.now }
{
    match reply {
        Reply::Arrived(Arrival::New) => Moved::Arrived,
        Reply::Arrived(Arrival::Again) => Moved::Again,
        Reply::Orphaned(_) => Moved::Orphaned,
        _ => Moved::None,
    }
}

/// What an arrival that is answered so says of the parcel.
fn as_moved(answer: Result<Arrival, Fault>) -> Result<Moved, Fault>
    ensures { result ≡ as_moved (as_reply Reply.Arrived answer) }
{
    match answer {
        Ok(Arrival::New) => Ok(Moved::Arrived),
        Ok(Arrival::Again) => Ok(Moved::Again),
        Err(fault) => Err(fault),
    }
}

/// Whether the dead-letter queue has the parcel, and the source has to be told.
fn needs_confirmation(moved: Moved) -> bool
    ensures { result ≡ needs_confirmation (Ok moved) }
{
    moved == Moved::Arrived || moved == Moved::Again
}

impl House {
    ghost use Rattle.redrive.specs.House.{queue_of_uid, has_queue, queue_answer, first_parcel_in, arrive_answer, hand_over_takes_memory, takes_memory_in, house_after_command, house_after_hand_over, accepted_number, confirm_answer, confirm_takes_memory, house_after_confirm, hand_over_answer, IsHandedOver, move_answer, IsMoved, IsRegistry};
    ghost use Rattle.redrive.specs.private.ByPlace.{closes_queue};
    ghost use Rattle.redrive.specs.private.Halves.{confirmed};
    ghost use Rattle.redrive.specs.Cost.{command_ticks, hand_over_ticks, confirm_ticks, CostsMove};

    /// The first parcel of the queue of a uid.
    fn first_parcel(&self, alloc: Global, source: u64) -> Result<Option<Parcel>, Fault>
        ensures answer { Meets result (Ok (first_parcel_in self.now source)) }
        ensures none { first_parcel_in self.now source ≡ None → result ≡ Ok None }
    {
        match self.state(source) {
            Some(queue) => queue.first_parcel(alloc),
            None => Ok(None),
        }
    }

    /// What the queue of a uid answers at its clock to a parcel from this origin, where that takes no memory.
    fn arrival_answer(&self, target: u64, origin: &Origin) -> Option<Result<Arrival, Fault>>
        ensures { (parcel : Parcel) → parcel.origin ≡ origin.now
            → option_map (λ answer. as_reply Reply.Arrived answer) result ≡ option_and_then (λ q. reply_without_memory (outcome_of q (Command.Arrive parcel))) (queue_of_uid self.now target) }
    {
        match self.state(target) {
            Some(queue) => queue.arrival_answer(origin),
            None => None,
        }
    }

    /// Does a command by which a parcel is handed over, or comes back, in the queue of a uid.
    fn deliver(
        &mut self,
        alloc: Global,
        uid: u64,
        at: Moment,
        command: &Command,
        ticks: &mut Ticks,
    ) -> Result<Moved, Fault>
        requires { closes_queue command.now ≡ false }
        ensures answer { Meets result (as_moved (queue_answer self.old uid at command.now)) }
        ensures exact { takes_memory_in self.old uid at command.now ≡ false → result ≡ as_moved (queue_answer self.old uid at command.now) }
        ensures state { self.new ≡ house_after_command self.old uid at command.now result }
        ensures cost { ticks.new ≤ ticks.old + command_ticks self.old uid at command.now result }
    {
        let reply = self.command_in(alloc, uid, at, command, ticks)?;
        Ok(moved_of(&reply))
    }

    /// Hands over the first parcel of the queue of a uid, which comes from this origin and is for the queue
    /// of the uid `target`. Where there is no memory for the parcel, that queue answers still what it answers
    /// without memory.
    fn hand_over_first(
        &mut self,
        alloc: Global,
        source: u64,
        at: Moment,
        origin: &Origin,
        target: u64,
        ticks: &mut Ticks,
    ) -> Result<Moved, Fault>
        requires there { has_queue self.old source ≡ true }
        requires first { option_map {U = Origin × ℕ} (λ p. (p.origin, p.target)) (first_parcel_in self.old source) ≡ Some (origin.now, target) }
        ensures answer { Meets result (hand_over_answer self.old source at) }
        ensures exact { hand_over_takes_memory self.old source at ≡ false → result ≡ hand_over_answer self.old source at }
        ensures state { self.new ≡ house_after_hand_over self.old source at result }
        ensures cost { ticks.new ≤ ticks.old + hand_over_ticks self.old source at result }
    {
        if !self.has_queue(target) {
            return self.deliver(alloc, source, at, &Command::Orphan { target }, ticks);
        }
        match self.first_parcel(alloc, source) {
            Ok(Some(parcel)) => self.deliver(alloc, target, at, &Command::Arrive { parcel }, ticks),
            Ok(None) => unreachable!(),
            Err(fault) => {
                self.advance_in(target, at, ticks);
                match self.arrival_answer(target, origin) {
                    Some(answer) => as_moved(answer),
                    None => Err(fault),
                }
            }
        }
    }

    /// Hands the first parcel of the queue of a uid to its dead-letter queue, without telling the
    /// source: the same parcel is handed over again, and the dead-letter queue answers `Again`, until
    /// [`move_one`](House::move_one) confirms it. Where the dead-letter queue is gone, the source takes
    /// back everything that waited for it, and its policy is cleared where it names that queue. Where no
    /// queue has the uid it is `QueueDoesNotExist`; where no parcel waits it is `None`, and no clock moves;
    /// neither needs memory. A refusal of the queue that the parcel goes to, as `JournalFull`, leaves the
    /// parcel waiting, and that queue's clock alone has moved. So it is where the answer is `OutOfMemory`,
    /// which it is only where that queue has an entry to add or makes a checkpoint: where there is no memory
    /// for the parcel, the queue answers still what it answers without memory.
    pub fn arrive_one(
        &mut self,
        alloc: Global,
        source: u64,
        at: Moment,
        ticks: &mut Ticks,
    ) -> Result<Moved, Fault>
        ensures answer { Meets result (arrive_answer self.old source at) }
        ensures exact { hand_over_takes_memory self.old source at ≡ false → result ≡ arrive_answer self.old source at }
        ensures state { IsHandedOver self.old source at result self.new }
        ensures legal { (q : QueueHistory) → queue_of_uid self.old source ≡ Some q → IsLegal q }
        ensures cost { ticks.new ≤ ticks.old + hand_over_ticks self.old source at result }
        ensures registry { IsRegistry self.old }
    {
        let Some(queue) = self.state(source) else {
            return Err(Fault::QueueDoesNotExist);
        };
        match queue.first_waiting() {
            Some((origin, target)) => {
                self.hand_over_first(alloc, source, at, &origin, target, ticks)
            }
            None => Ok(Moved::None),
        }
    }

    /// Whether the queue of a uid is there and has accepted what comes from this origin.
    fn is_accepted(&self, target: u64, origin: &Origin) -> bool
        ensures { result ≡ option_map_or (λ q. has_accepted q.lines origin.now.uid origin.now.number)
            (queue_of_uid self.now target) false }
    {
        match self.state(target) {
            Some(queue) => queue.has_accepted(origin),
            None => false,
        }
    }

    /// The number of the first parcel of the queue of a uid, where the queue that it is for is there
    /// and has accepted it.
    fn accepted_number(&self, source: u64) -> Option<u64>
        ensures { result ≡ accepted_number self.now source }
    {
        let (origin, target) = self.state(source)?.first_waiting()?;
        if self.is_accepted(target, &origin) {
            Some(origin.number)
        } else {
            None
        }
    }

    /// Confirms the first parcel of the queue of a uid, where it is accepted. Else it does nothing. It
    /// needs memory only where the source has an entry to add.
    fn confirm_one(
        &mut self,
        alloc: Global,
        source: u64,
        at: Moment,
        ticks: &mut Ticks,
    ) -> Result<Reply, Fault>
        ensures answer { Meets result (confirm_answer self.old source at) }
        ensures exact { confirm_takes_memory self.old source at ≡ false → result ≡ confirm_answer self.old source at }
        ensures state { self.new ≡ house_after_confirm self.old source at result }
        ensures cost { ticks.new ≤ ticks.old + confirm_ticks self.old source at result }
    {
        match self.accepted_number(source) {
            Some(number) => self.command_in(alloc, source, at, &Command::Settle { number }, ticks),
            None => Ok(Reply::Settled(false)),
        }
    }

    /// The same for a queue that has to be there.
    pub(crate) fn confirm(
        &mut self,
        alloc: Global,
        source: u64,
        at: Moment,
        ticks: &mut Ticks,
    ) -> Result<Reply, Fault>
        ensures answer { Meets result (confirmed self.old source at) }
        ensures exact { confirm_takes_memory self.old source at ≡ false → result ≡ confirmed self.old source at }
        ensures state { self.new ≡ house_after_confirm self.old source at result }
        ensures cost { ticks.new ≤ ticks.old + confirm_ticks self.old source at result }
        ensures registry { IsRegistry self.old }
    {
        if !self.has_queue(source) {
            return Err(Fault::QueueDoesNotExist);
        }
        self.confirm_one(alloc, source, at, ticks)
    }

    /// Moves the first parcel of the queue of a uid to its dead-letter queue: hands it over, as
    /// [`arrive_one`](House::arrive_one), and, where the dead-letter queue answered `Arrived` or
    /// `Again`, confirms it at the source, so that it waits no longer. Where one of these halves is
    /// refused, that refusal is the answer, and the parcel waits still. A full source refuses its half
    /// as `JournalFull`, never as `OutOfMemory`.
    pub fn move_one(
        &mut self,
        alloc: Global,
        source: u64,
        at: Moment,
        ticks: &mut Ticks,
    ) -> Result<Moved, Fault>
        ensures answer { Meets result (move_answer self.old source at) }
        ensures exact { first_parcel_in self.old source ≡ None → result ≡ move_answer self.old source at }
        ensures state { IsMoved self.old source at result self.new }
        ensures cost { CostsMove self.old source at result self.new ticks.old ticks.new }
    {
        let moved = self.arrive_one(alloc, source, at, ticks)?;
        if !needs_confirmation(moved) {
            return Ok(moved);
        }
        self.confirm_one(alloc, source, at, ticks)?;
        Ok(moved)
    }
}
