//! What an actor does beside its queue: dead letters go to other queues, and the directory is told of a queue
//! that is closed and of one that has another target.

ghost use Rattle.std.specs.Prelude.{◌≡◌, ℕ, None, Err, IfOk, IfSome, IfNone};
ghost use Rattle.message.specs.declared.fault.Fault.TheVariants.{QueueDoesNotExist};
ghost use Rattle.queue_core.specs.declared.parcel.Parcel.{Parcel};
ghost use Rattle.queue_actor.specs.Serving.{Enters, has_closed};
ghost use Rattle.queue_actor.specs.Calling.{HasArrived, HasMissed, IfAccepted, IfGone, parcel_in};
ghost use Rattle.queue_actor.specs.declared.parcels.Delivery.{Delivery};
ghost use Rattle.queue_actor.specs.declared.parcels.Delivery.TheVariants as deliveries;

use crate::actor::Actor;
use crate::answer::Answer;
use crate::directory::{Directory, Served};
use desk::{Gate, Press};
use journal::Moment;
use message::Fault;
use queue_core::{Command, Parcel, Reply};
use std::alloc::Global;
use std::sync::Wait;

/// What became of a parcel at the queue that it is for. `T` is what shows it.
#[derive(Clone, Copy, Drop)]
pub enum Delivery<T> {
    /// The queue has it, from now on or from an earlier delivery.
    Accepted(T),
    /// The queue is gone: it has shown that it is closed, or, where nothing is shown, no queue has its uid.
    Gone(Option<T>),
    /// The queue refused it, or was not reached.
    Refused,
}

/// The directory of the queues, as the actor of one of them sees it.
pub trait Targets {
    /// What shows that a parcel was accepted, or that its queue is closed.
    type Receipt: Drop;

    // What is known of a delivery at a moment.
    ghost was_told: { Self → ℕ → Parcel → Delivery Self.Receipt → Type 0 };

    /// Hands a parcel to the queue that it is for.
    fn deliver<R: Wait, G: Gate>(
        &self,
        rt: &R,
        alloc: Global,
        at: Moment,
        parcel: Parcel,
        gate: &G,
    ) -> Delivery<Self::Receipt>
        ensures { was_told self.now at parcel result };

    // The queue of a uid was taken out.
    ghost was_taken_out: { Self → ℕ → Type 0 };

    /// Takes out the queue of a uid, which is closed.
    fn take_out<R: Wait>(&self, rt: &R, uid: u64)
        ensures { was_taken_out self.now uid };

    // The queue of a uid was given another target.
    ghost was_retargeted: { Self → ℕ → ℕ → Type 0 };

    /// Gives the queue of a uid another target, 0 for none.
    fn retarget<R: Wait>(&self, rt: &R, uid: u64, target: u64)
        ensures { was_retargeted self.now uid target };
}

/// Enters what a command changes in the directory, for the queue of a uid: one that is closed is taken out, and
/// one that has another target has it there too. It is told whether the queue is closed.
pub(crate) fn enter<D: Targets, R: Wait>(
    rt: &R,
    directory: &D,
    uid: u64,
    command: &Command,
    reply: &Result<Reply, Fault>,
) -> bool
    ensures closed { result ≡ has_closed command.now reply.now }
    ensures entered { Enters (D.was_taken_out directory.now) (D.was_retargeted directory.now) uid command.now reply.now }
{
    match (command, reply) {
        (Command::Close, Ok(_) | Err(Fault::QueueDoesNotExist)) => {
            directory.take_out(rt, uid);
            true
        }
        (Command::Set { wish, target }, Ok(_)) => {
            if wish.target().is_some() {
                directory.retarget(rt, uid, *target);
            }
            false
        }
        _ => false,
    }
}

/// Hands a parcel to the queue that was found for it. The queue is gone where none was found that has the uid, or
/// where it answers that it is closed. One that has its name will be served, and its parcels wait.
fn hand_over<P: Press, R: Wait, G: Gate>(
    rt: &R,
    alloc: Global,
    at: Moment,
    parcel: Parcel,
    found: Result<Option<Served<P>>, Fault>,
    gate: &G,
) -> Delivery<Answer<P>>
where
    P::Told: Drop,
    requires uid { IfOk found (λ known. IfSome known (λ queue. queue.uid ≡ parcel.target)) }
    ensures accepted { IfAccepted result (HasArrived at parcel) }
    ensures gone { IfGone result (λ shown. IfSome shown (HasMissed at parcel) × IfNone shown (found ≡ Err QueueDoesNotExist)) }
    ensures absent { found ≡ Err QueueDoesNotExist → result ≡ deliveries.Gone None }
{
    let queue = match found {
        Ok(Some(queue)) => queue,
        Err(Fault::QueueDoesNotExist) => return Delivery::Gone(None),
        Ok(None) | Err(_) => return Delivery::Refused,
    };
    let answer = queue.ask(rt, alloc, at, Command::Arrive { parcel }, gate);
    match answer.reply() {
        Ok(_) => Delivery::Accepted(answer),
        Err(Fault::QueueDoesNotExist) => Delivery::Gone(Some(answer)),
        Err(_) => Delivery::Refused,
    }
}

/// The directory is asked for the queue of a parcel, and its lock is let go before the queue's desk is
/// asked.
impl<P: Press> Targets for Directory<P>
where
    P::Told: Drop,
{
    /// What the queue answered.
    type Receipt = Answer<P>;

    // A parcel that was accepted was so at the queue of its uid, and a queue that shows to be closed has its uid.
    // That no queue has the uid lies under the lock, and no contract sees it.
    ghost was_told = { λ _ at parcel delivery. IfAccepted delivery (HasArrived at parcel) × IfGone delivery (λ shown. IfSome shown (HasMissed at parcel)) };

    fn deliver<R: Wait, G: Gate>(
        &self,
        rt: &R,
        alloc: Global,
        at: Moment,
        parcel: Parcel,
        gate: &G,
    ) -> Delivery<Answer<P>> {
        let found = self.find_uid(rt, parcel.target);
        hand_over(rt, alloc, at, parcel, found, gate)
    }

    // What lies under the lock no contract sees.
    ghost was_taken_out = { λ _ _. Unit {0} };

    fn take_out<R: Wait>(&self, rt: &R, uid: u64) {
        self.remove(rt, uid);
    }

    ghost was_retargeted = { λ _ _ _. Unit {0} };

    fn retarget<R: Wait>(&self, rt: &R, uid: u64, target: u64) {
        self.set_target(rt, uid, target);
    }
}

/// The parcel that a reply hands over.
fn parcel_of(reply: Result<Reply, Fault>) -> Option<Parcel>
    ensures { result ≡ parcel_in reply }
{
    match reply {
        Ok(Reply::Parcel(parcel)) => parcel,
        _ => None,
    }
}

impl<P: Press> Actor<P>
where
    P::Told: Drop,
{
    ghost use Rattle.std.specs.Prelude.{MatchBool};
    ghost use Rattle.desk.specs.Views.{IsKnown};
    ghost use Rattle.queue_actor.specs.Calling.{HasMoved, HasMovedOne};

    /// Moves the queue's first parcel: hands it over and confirms it, or takes back what waits for a queue
    /// that is gone. The answer is whether there was one and nothing was refused.
    fn move_first<D: Targets, R: Wait, G: Gate>(
        &mut self,
        rt: &R,
        alloc: Global,
        at: Moment,
        targets: &D,
        gate: &G,
    ) -> bool
        ensures moved { MatchBool result (HasMovedOne (D.was_told targets.now) at self.old.pass self.new.pass) (HasMoved (D.was_told targets.now) at self.old.pass self.new.pass) }
        ensures known { IsKnown self.new.pass }
    {
        let reply = self.ask(rt, alloc, at, &Command::FirstParcel, gate);
        let Some(parcel) = parcel_of(reply) else {
            return false;
        };
        let number = parcel.origin.number;
        let target = parcel.target;
        let command = match targets.deliver(rt, alloc, at, parcel, gate) {
            Delivery::Accepted(_) => Command::Settle { number },
            Delivery::Gone(_) => Command::Orphan { target },
            Delivery::Refused => return false,
        };
        self.ask(rt, alloc, at, &command, gate).is_ok()
    }

    /// Moves the queue's parcels one after another, until there is none or something is refused.
    pub(crate) fn move_parcels<D: Targets, R: Wait, G: Gate>(
        &mut self,
        rt: &R,
        alloc: Global,
        at: Moment,
        targets: &D,
        gate: &G,
    )
        ensures moved { HasMoved (D.was_told targets.now) at self.old.pass self.new.pass }
        ensures known { IsKnown self.new.pass }
    {
        for _ in rt.forever() {
            if !self.move_first(rt, alloc, at, targets, gate) {
                return;
            }
        }
        unreachable!()
    }
}
