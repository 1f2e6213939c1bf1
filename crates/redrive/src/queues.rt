//! The list of the queues that are there.

ghost use Rattle.std.specs.Prelude.{◌≡◌, ◌+◌, ◌<◌, ◌≤◌, false, length, slice_get, Ok, IfSome, OnOk, OnErr, IfErr};
ghost use Rattle.message.specs.declared.fault.Fault.TheVariants.{OutOfMemory};
ghost use Rattle.message.specs.Fault.{Meets};
ghost use Rattle.queue_core.specs.Messages.{is_closed};
ghost use Rattle.queue_core.specs.Queue.{at_moment, outcome_at, takes_memory, IsExactWithRoom, after_answer};
ghost use Rattle.queue_core.specs.Cost.{most_ticks};
ghost use Rattle.redrive.specs.Cost.{after_deletion, moment_ticks};
ghost use Rattle.redrive.specs.House.{closed_queue};

use crate::catalog::UID_LIMIT;
use journal::{Moment, Ticks};
use message::{Fault, QueueName};
use queue_config::{AlarmRule, Limits, QUEUE_LIMIT, Settings};
use queue_core::{Command, QueueState, Reply};
use std::alloc::Global;
use std::marker::Model;

/// The queues of a registry, in the order in which they were created, with the limits that each gets
/// and the uid of the next. A queue comes into the list only by being opened, under the next uid, and
/// goes out of it only by being closed. Nothing tells the limits or sets the next uid, so that no new
/// list can stand in for this one.
#[derive(Debug, Drop)]
pub(crate) struct Queues {
    limits: Limits,
    next_uid: u64,
    queues: Vec<QueueState>,
}

impl Model for Queues {
    ghost use Rattle.redrive.specs.House.{House};

    ghost Value = { House };

    ghost view = { λ q. record { limits = q.limits; next_uid = q.next_uid; queues = q.queues.items } };
}

/// Closes a queue that is not closed. `OutOfMemory` is the only refusal; then the clock alone has
/// moved.
fn close(queue: &mut QueueState, alloc: Global, at: Moment, ticks: &mut Ticks) -> Result<(), Fault>
    requires { is_closed queue.old.lines ≡ false }
    ensures closed { OnOk result (queue.new ≡ closed_queue queue.old at) }
    ensures moved { OnErr result (queue.new ≡ at_moment queue.old at) }
    ensures errors { IfErr result (λ fault. fault ≡ OutOfMemory) }
    ensures cost { ticks.new ≤ ticks.old + most_ticks queue.old queue.new }
{
    queue.close(alloc, at, ticks)
}

impl Queues {
    ghost use Rattle.redrive.specs.House.{empty_house, next_queue, has_no_place, with_queue, house_at_moment};
    ghost use Rattle.redrive.specs.private.ByPlace.{with_place_changed, without_place, closes_queue};

    /// No queues. Uids begin at 1.
    pub(crate) fn new(alloc: Global, limits: Limits) -> Queues
        ensures { result ≡ empty_house limits }
    {
        Queues {
            limits,
            next_uid: 1,
            queues: Vec::new(alloc),
        }
    }

    /// The queues.
    pub(crate) fn as_slice(&self) -> &[QueueState]
        ensures { result.now ≡ self.now.queues }
    {
        self.queues.as_slice()
    }

    /// The uid of the next queue.
    pub(crate) fn next_uid(&self) -> u64
        ensures { result ≡ self.now.next_uid }
    {
        self.next_uid
    }

    /// Whether there are as many queues as there may be, or no uid is left.
    pub(crate) fn has_no_place(&self) -> bool
        ensures { result ≡ has_no_place self.now }
    {
        QUEUE_LIMIT <= self.queues.len() || UID_LIMIT <= self.next_uid
    }

    /// Opens a queue of the next uid, which is the answer. `OutOfMemory` is the only refusal; then no
    /// uid is used up.
    pub(crate) fn open(
        &mut self,
        alloc: Global,
        at: Moment,
        name: QueueName,
        settings: Settings,
        rules: Vec<AlarmRule>,
    ) -> Result<u64, Fault>
        requires { has_no_place self.old ≡ false }
        ensures answer { Meets result (Ok self.old.next_uid) }
        ensures ok { OnOk result (self.new ≡ with_queue self.old (next_queue self.old at name settings rules.items)) }
        ensures err { OnErr result (self.new ≡ self.old) }
    {
        let uid = self.next_uid;
        let queue = QueueState::open(alloc, uid, name, settings, self.limits, rules, at)?;
        self.queues.push(queue)?;
        self.next_uid = uid + 1;
        Ok(uid)
    }

    /// Does a command that closes no queue, in the queue at a place.
    pub(crate) fn perform_at(
        &mut self,
        alloc: Global,
        place: usize,
        at: Moment,
        command: &Command,
        ticks: &mut Ticks,
    ) -> Result<Reply, Fault>
        requires within { place < length self.old.queues }
        requires stays { closes_queue command.now ≡ false }
        ensures answer { IfSome (slice_get self.old.queues place) (λ q. Meets result (outcome_at q at command.now).reply) }
        ensures exact { IfSome (slice_get self.old.queues place) (λ q. takes_memory (outcome_at q at command.now) ≡ false
            → result ≡ (outcome_at q at command.now).reply) }
        ensures room { IfSome (slice_get self.old.queues place) (λ q. IsExactWithRoom q (outcome_at q at command.now) result) }
        ensures state { self.new ≡ with_place_changed self.old place (λ q. after_answer q at command.now result) }
        ensures cost { IfSome (slice_get self.old.queues place) (λ q. ticks.new ≤ ticks.old + most_ticks q (after_answer q at command.now result)) }
    {
        self.queues[place].perform(alloc, at, command, ticks)
    }

    /// Closes the queue at a place, which is not closed, takes it out and hands it over. `OutOfMemory`
    /// is the only refusal; then it is still there, and its clock alone has moved.
    pub(crate) fn close_and_take(
        &mut self,
        alloc: Global,
        place: usize,
        at: Moment,
        ticks: &mut Ticks,
    ) -> Result<QueueState, Fault>
        requires within { place < length self.old.queues }
        requires open { IfSome (slice_get self.old.queues place) (λ q. is_closed q.lines ≡ false) }
        ensures answer { IfSome (slice_get self.old.queues place) (λ q. Meets result (Ok (closed_queue q at))) }
        ensures ok { OnOk result (self.new ≡ without_place self.old place) }
        ensures err { OnErr result (self.new ≡ with_place_changed self.old place (λ q. at_moment q at)) }
        ensures errors { IfErr result (λ fault. fault ≡ OutOfMemory) }
        ensures cost { IfSome (slice_get self.old.queues place) (λ q. ticks.new ≤ ticks.old + most_ticks q (after_deletion q at result)) }
    {
        match close(&mut self.queues[place], alloc, at, ticks) {
            Ok(()) => Ok(self.queues.remove(place)),
            Err(_) => Err(Fault::OutOfMemory),
        }
    }

    /// Moves the clock of the queue at a place to a moment, where that is later.
    pub(crate) fn advance_at(&mut self, place: usize, at: Moment, ticks: &mut Ticks)
        requires { place < length self.old.queues }
        ensures state { self.new ≡ with_place_changed self.old place (λ q. at_moment q at) }
        ensures cost { IfSome (slice_get self.old.queues place) (λ q. ticks.new ≤ ticks.old + most_ticks q (at_moment q at)) }
    {
        self.queues[place].advance(at, ticks);
    }

    /// Looks at every queue at a moment, so that each clock is there at least.
    pub(crate) fn advance_all(&mut self, at: Moment, ticks: &mut Ticks)
        ensures state { self.new ≡ house_at_moment self.old at }
        ensures cost { ticks.new ≤ ticks.old + moment_ticks at self.old.queues }
    {
        for queue in self.queues.iter_mut() {
            queue.look(at, ticks);
        }
    }
}
