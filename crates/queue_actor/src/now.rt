//! Who asks a queue's desk without its actor.

ghost use Rattle.std.specs.Prelude.{◌≡◌, IfOk, IfErr, IfSome, IfNone};
ghost use Rattle.std.specs.Arc.{arc_value};
ghost use Rattle.desk.specs.Views.{HasCalled, IsKnown, SeesMore};
ghost use Rattle.queue_actor.specs.Asking.{is_for_actor};
ghost use Rattle.queue_actor.specs.Questions.{IsAnswerTo, question};

use crate::answer::Answer;
use crate::deadline::tell;
use crate::duties::Duties;
use crate::mail::Mail;
use crate::outbox::Outbox;
use desk::{Desk, Gate, Pass, Press};
use journal::Moment;
use message::Fault;
use queue_core::{Command, Reply};
use std::alloc::Global;
use std::hint::spin_loop;
use std::sync::{Arc, Wait};
use std::thread::yield_now;

/// What was not asked: the desk, the pass and the command come back.
#[derive(Drop)]
pub struct Unasked<P: Press> {
    pub desk: Arc<Desk<P>>,
    pub pass: Pass<P>,
    pub command: Command,
    pub ghost together: { pass.desk ≡ arc_value desk },
}

impl<P: Press> Unasked<P> {
    /// These come back.
    fn new(desk: Arc<Desk<P>>, pass: Pass<P>, command: Command) -> Unasked<P>
        requires { pass.desk ≡ arc_value desk }
        ensures { (result.desk ≡ desk) × (result.pass ≡ pass) × (result.command ≡ command) }
    {
        Unasked {
            desk,
            pass,
            command,
        }
    }
}

/// Whether a command is for the actor alone: what follows a close or new settings is the actor's, and a purge may
/// take long.
pub fn is_for_actor(command: &Command) -> bool
    ensures { result ≡ is_for_actor command.now }
{
    matches!(
        command,
        Command::Close | Command::Set { .. } | Command::Purge
    )
}

/// How often a desk whose turn is not free is asked again at once: for 1 to 4 microseconds, as long as a turn or two take.
/// This project's own choice.
const SPINS: u32 = 60;

/// How often it is asked in all. The thread that has the turn may have been stopped in it, so other threads run between
/// the later tries. This project's own choice.
const TRIES: u32 = 200;

/// Waits a little before a desk is asked again.
fn pause(tries: u32) {
    if tries < SPINS {
        spin_loop();
    } else {
        yield_now();
    }
}

/// Asks a desk where its turn is free, or comes to be free soon.
fn try_now<P: Press, R: Wait, G: Gate>(
    rt: &R,
    alloc: Global,
    desk: &Desk<P>,
    pass: &mut Pass<P>,
    at: Moment,
    command: &Command,
    gate: &G,
) -> Option<Result<Reply, Fault>>
where
    P::Told: Drop,
    requires { pass.old.desk ≡ desk.now }
    ensures some { IfSome result (λ reply. HasCalled pass.old at command.now reply pass.new) }
    ensures none { IfNone result (SeesMore pass.old pass.new) }
    ensures known { IfSome result (λ reply. IsKnown pass.new) }
    ensures desk { pass.new.desk ≡ desk.now }
{
    for tries in 0..TRIES {
        if let Some(asked) = desk.ask_now(rt, alloc, pass, at, command, gate) {
            return Some(asked.reply);
        }
        pause(tries);
    }
    None
}

/// Asks a queue's desk without its actor, where the turn is free or soon is. Where it is not, and where mail waits for
/// the actor, which is before what is asked now, nothing is asked. Where the actor has to look behind it, it is told
/// the time.
pub fn ask_now<P: Press, S: Drop, O: Outbox<Mail<P, S>>, R: Wait, G: Gate>(
    rt: &R,
    alloc: Global,
    mailbox: &O,
    duties: &Duties,
    desk: Arc<Desk<P>>,
    mut pass: Pass<P>,
    at: Moment,
    command: Command,
    gate: &G,
) -> Result<Answer<P>, Unasked<P>>
where
    P::Told: Drop,
    requires desk { pass.desk ≡ arc_value desk }
    requires may { O.seemed_empty mailbox.now → O.may_put mailbox.now (Mail.Tick at) }
    ensures answer { IfOk result (IsAnswerTo (question (arc_value desk) pass at command at)) }
    ensures empty { IfOk result (λ _. O.seemed_empty mailbox.now) }
    ensures unasked { IfErr result (λ back. (back.desk ≡ desk) × (back.command ≡ command) × SeesMore pass back.pass) }
{
    if !mailbox.is_empty() {
        return Err(Unasked::new(desk, pass, command));
    }
    let Some(reply) = try_now(rt, alloc, &desk, &mut pass, at, &command, gate) else {
        return Err(Unasked::new(desk, pass, command));
    };
    if duties.follow(&command) {
        tell(rt, mailbox, at);
    }
    Ok(Answer::new(desk, pass, command, reply))
}
