//! A queue that is served, and an ask to it, where any allocation may be refused. What actors, asks and the directory
//! do beside that, the stored scripts of actor_script show.

ghost use Rattle.std.specs.Prelude.{◌≡◌, IfOk};
ghost use Rattle.std.specs.Arc.{arc_value};
ghost use Rattle.queue_core.specs.Queue.{policy_target};

use super::*;
use crossbeam_channel::{Receiver, unbounded};
use desk::{Desk, NoGate, NoPress, Pass};
use futures::task::Poll;
use futures::test::MockTask;
use journal::Moment;
use message::{Fault, QueueName};
use queue_config::{Limits, Settings};
use queue_core::{Command, Maximum, QueueState, Reply};
use std::alloc::Global;
use std::snapshot::Snapshot;
use std::sync::{Arc, Wait};
use std::test::Fail;

/// A directory whose desks print nothing.
type Shared = Directory<NoPress>;

/// A queue that is served, as its callers have it.
type Client = Served<NoPress>;

/// The actor of a queue that is served, and what it takes its mail from.
type Place = (Actor<NoPress>, Receiver<Envelope<NoPress>>);

/// A desk to be shared, its first pass, and its queue as it was opened.
type Fresh = (Arc<Desk<NoPress>>, Pass<NoPress>, Snapshot<QueueState>);

/// A desk of a queue that was opened at 0 under a uid and a name.
fn opened(
    rt: &HostRuntime,
    alloc: Global,
    uid: u64,
    name: QueueName,
    limits: Limits,
) -> Result<Fresh, Fault>
    ensures desk { IfOk result (λ r. r.1.desk ≡ arc_value r.0) }
    ensures start { IfOk result (λ r. r.2.value ≡ r.1.start) }
    ensures queue { IfOk result (λ r. (r.1.start.uid ≡ uid) × (r.1.start.name ≡ name) × (r.1.start.limits ≡ limits)) }
    ensures target { IfOk result (λ r. policy_target r.2.value ≡ 0) }
{
    let (settings, rules) = (Settings::default(), Vec::new(alloc));
    let state = QueueState::open(alloc, uid, name, settings, limits, rules, Moment::zero())?;
    let start = Snapshot::of(&state);
    let (desk, pass) = Desk::new(rt, alloc, state, NoPress)?;
    Ok((Arc::new(alloc, desk)?, pass, start))
}

/// A queue that is served under a uid and a name, as it was opened, and its actor's place.
fn served(
    rt: &HostRuntime,
    alloc: Global,
    uid: u64,
    name: QueueName,
    limits: Limits,
) -> Result<(Client, Snapshot<QueueState>, Place), Fault>
    ensures start { IfOk result (λ r. r.1.value ≡ r.0.pass.start) }
    ensures target { IfOk result (λ r. policy_target r.1.value ≡ 0) }
{
    let (mailbox, mails) = unbounded::<Envelope<NoPress>, Global>(alloc)?;
    let (desk, mut pass, start) = opened(rt, alloc, uid, name, limits)?;
    let own = desk.pass(&mut pass);
    let duties = Arc::new(alloc, Duties::new())?;
    let shared = Arc::try_clone(&duties)?;
    let actor = Actor::new(Arc::try_clone(&desk)?, own, uid, limits, shared);
    let queue = Served::new(uid, name, desk, pass, mailbox, duties);
    Ok((queue, start, (actor, mails)))
}

/// Puts an ask for the queue of a uid at 0, which may wait until a moment.
fn put<R: Wait>(
    rt: &R,
    alloc: Global,
    queues: &Shared,
    uid: u64,
    command: Command,
    until: Moment,
) -> Result<AskFuture<NoPress>, Fault> {
    let queue = queues.find_uid(rt, uid)?;
    let Served {
        mailbox,
        desk,
        pass,
        ..
    } = queue.ok_or(Fault::QueueDoesNotExist)?;
    let begun = Moment::zero();
    AskFuture::new(rt, alloc, &mailbox, desk, pass, begun, command, until).map_err(
        |refused| refused.fault,
    )
}

/// Tells the actor of the queue of a uid to end.
fn put_end<R: Wait>(rt: &R, queues: &Shared, uid: u64) -> Result<(), Fault> {
    let queue = queues.find_uid(rt, uid)?.ok_or(Fault::QueueDoesNotExist)?;
    queue
        .mailbox
        .put(rt, Mail::End)
        .map_err(|_| Fault::OutOfMemory)
}

/// The answer that a future gives.
fn answered(
    task: &mut MockTask,
    future: &mut AskFuture<NoPress>,
) -> Result<Answer<NoPress>, Fault> {
    match task.poll(future) {
        Poll::Ready(Ok(answer)) => Ok(answer),
        _ => Err(Fault::ActorGone),
    }
}

/// The entries that an answer to a look tells of.
fn entries_of(answer: &Answer<NoPress>) -> Result<u64, Fault> {
    match answer.reply() {
        Ok(Reply::Looked(look)) => Ok(look.lines),
        Ok(_) => Err(Fault::UnsupportedOperation),
        Err(fault) => Err(*fault),
    }
}

/// Whether a queue was closed.
fn was_closed(answer: &Answer<NoPress>) -> Result<(), Fault> {
    match answer.reply() {
        Ok(_) => Ok(()),
        Err(fault) => Err(*fault),
    }
}

/// Whether a receive waited until its queue was closed. One that did not is told that nothing is there.
fn has_waited(answer: &Answer<NoPress>) -> Result<bool, Fault> {
    match answer.reply() {
        Ok(Reply::Received(_)) => Ok(false),
        Ok(_) => Err(Fault::UnsupportedOperation),
        Err(Fault::QueueDoesNotExist) => Ok(true),
        Err(fault) => Err(*fault),
    }
}

/// A queue is entered and served, and gives its actor's place.
fn entered<R: Wait>(rt: &R, host: &HostRuntime, queues: &Shared) -> Result<Place, Fault> {
    let (alloc, name) = (host.alloc(), QueueName::read("jobs")?);
    let uid = queues.enter(rt, alloc, name)?;
    let (client, start, place) = served(host, alloc, uid, name, Limits::default())?;
    queues.serve(rt, alloc, client, 0, start)?;
    Ok(place)
}

/// An actor serves its mailbox: a look, a receive that may wait, a close, and the end. How many entries the look told,
/// and whether the receive waited.
fn asked<R: Wait>(
    rt: &R,
    host: &HostRuntime,
    queues: &Shared,
    place: Place,
) -> Result<(u64, bool), Fault> {
    let (mut actor, mut mails) = place;
    let (alloc, uid, zero) = (host.alloc(), actor.uid, Moment::zero());
    let mut task = MockTask::new(host).ok().ok_or(Fault::OutOfMemory)?;
    let (maximum, until) = (Maximum::new(1), Moment::new(1000));
    let receive = Command::Receive {
        maximum: maximum.ok_or(Fault::InvalidParameterValue)?,
        timeout: None,
    };
    let until = until.ok_or(Fault::InvalidParameterValue)?;
    let mut look = put(rt, alloc, queues, uid, Command::Look, zero)?;
    let mut poll = put(rt, alloc, queues, uid, receive, until)?;
    let mut close = put(rt, alloc, queues, uid, Command::Close, zero)?;
    put_end(rt, queues, uid)?;
    actor.run(rt, alloc, &mut mails, queues, &NoGate);
    let entries = entries_of(&answered(&mut task, &mut look)?)?;
    let waited = has_waited(&answered(&mut task, &mut poll)?)?;
    was_closed(&answered(&mut task, &mut close)?)?;
    Ok((entries, waited))
}

/// A queue is served, and what is asked of it is answered. `OutOfMemory` where any allocation was refused, but where a
/// task finds no memory to be woken: that goes on; and where an actor finds none for one poll more: then that does not
/// wait.
fn served_until_its_end<R: Wait>(rt: &R, host: HostRuntime) -> Result<(u64, bool), Fault> {
    let queues = Shared::new(host.alloc(), Limits::default())?;
    let place = entered(rt, &host, &queues)?;
    asked(rt, &host, &queues, place)
}

/// What finds no memory says so, and succeeds when it is made again; a receive waits then, too. The gate runs this with
/// ample memory; `rt try --test --fail-alloc N -- refused_memory` refuses the Nth allocation.
#[test]
fn refused_memory(rt: HostRuntime) -> Result<(), Fail> {
    let told = match served_until_its_end(&rt, rt) {
        Err(Fault::OutOfMemory) | Ok((_, false)) => served_until_its_end(&rt, rt)?,
        told => told?,
    };
    assert_eq!(rt; told, (1, true));
    Ok(())
}
