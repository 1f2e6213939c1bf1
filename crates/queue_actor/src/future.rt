//! The future of an answer.

ghost use Rattle.std.specs.Prelude.{◌≡◌, ◌≢◌, ℕ, Result, IfOk, IfErr, Some};
ghost use Rattle.std.specs.Arc.{arc_value};
ghost use Rattle.futures.specs.Poll.{IfReady, OnPending};
ghost use Rattle.futures.specs.Task.{Covers, Hears, Keeps};
ghost use Rattle.message.specs.declared.fault.Fault.TheVariants.{OutOfMemory};
ghost use Rattle.queue_actor.specs.Answered.{Answered};
ghost use Rattle.queue_actor.specs.Asking.{Asking, IfSent, IfUnsent, MayGive, WaitsAt, waiting_question};
ghost use Rattle.queue_actor.specs.Questions.{Awaited, question, question_of};

use crate::answer::Answer;
use crate::fault::AskFault;
use crate::mail::{Ask, Mail};
use crate::outbox::Outbox;
use crate::slot::{AnswerPlace, AnswerSlot, Question, slot_and_place};
use crossbeam_channel::SendError;
use desk::{Desk, Pass, Press};
use futures::Future;
use futures::task::{Context, Poll};
use journal::Moment;
use message::Fault;
use queue_core::Command;
use std::alloc::Global;
use std::marker::Model;
use std::mem;
use std::sync::{Arc, Wait};

/// How far an ask is.
#[derive(Drop)]
enum Progress<P: Press> {
    /// The mail was put, and the answer to what was asked comes here.
    Sent(AnswerPlace<P>),
    /// The mail never left.
    Unsent(Pass<P>),
    /// What came was given.
    Over,
}

/// The future of the answer to one ask. Contracts see how far it is: the mail was put, with what it asks and a
/// slot for the answer to just that; or it never left, and the pass is kept; or what came was given.
#[derive(Drop)]
pub struct AskFuture<P: Press> {
    progress: Progress<P>,
}

impl<P: Press> Model for AskFuture<P> {
    ghost use Rattle.queue_actor.specs.Asking.{Asking, asking_of};

    ghost Value = { Asking };

    ghost view = { λ f. asking_of f.progress };
}

impl<P: Press> AskFuture<P> {
    /// Puts an ask into a mailbox, which has to take an ask of these parts. `OutOfMemory` is the only refusal, and
    /// the pass comes back. Where nobody takes mail from the mailbox any more, the future has the pass.
    pub fn new<R: Wait, O: Outbox<Mail<P, AnswerSlot<P>>>>(
        rt: &R,
        alloc: Global,
        mailbox: &O,
        desk: Arc<Desk<P>>,
        pass: Pass<P>,
        moment: Moment,
        command: Command,
        wait_until: Moment,
    ) -> Result<AskFuture<P>, AskFault<P>>
        requires desk { pass.desk ≡ arc_value desk }
        requires may { (ask : Ask P Awaited P.Told) → question_of ask ≡ question (arc_value desk) pass moment command wait_until → ask.reply.asked ≡ question_of ask → O.may_put mailbox.now (Mail.Ask ask) }
        ensures sent { IfOk result (λ f. IfSent f (λ asked source.
            (asked ≡ question (arc_value desk) pass moment command wait_until)
            × ((ask : Ask P Awaited P.Told) × (question_of ask ≡ asked) × (ask.reply.asked ≡ asked) × (ask.reply.source ≡ source) × O.was_put mailbox.now (Mail.Ask ask)))) }
        ensures unsent { IfOk result (λ f. IfUnsent f (λ kept. (kept ≡ pass) × O.is_closed mailbox.now)) }
        ensures begun { IfOk result (λ f. f ≢ Asking.Over) }
        ensures errors { IfErr result (λ e. (e.fault ≡ OutOfMemory) × (e.pass ≡ Some pass)) }
    {
        let question = Question::new(desk, pass, moment, command, wait_until);
        let Ok((slot, place)) = slot_and_place(alloc, &question) else {
            return Err(AskFault {
                fault: Fault::OutOfMemory,
                pass: Some(question.into_pass()),
            });
        };
        let ask = question.into_ask(slot);
        match mailbox.put(rt, Mail::Ask(ask)) {
            Ok(()) => Ok(AskFuture {
                progress: Progress::Sent(place),
            }),
            Err(SendError::Disconnected(Mail::Ask(ask))) => Ok(AskFuture {
                progress: Progress::Unsent(ask.pass),
            }),
            Err(SendError::OutOfMemory(Mail::Ask(ask))) => Err(AskFault {
                fault: Fault::OutOfMemory,
                pass: Some(ask.pass),
            }),
            Err(_) => unreachable!(),
        }
    }
}

impl<P: Press> Future for AskFuture<P> {
    type Output = Result<Answer<P>, AskFault<P>>;

    ghost needs = { WaitsAt };

    ghost gives = { MayGive };

    /// Looks at once whether the answer came. Where it has not, the task was registered for it.
    fn poll(&mut self, cx: &mut Context<'_>) -> Poll<Result<Answer<P>, AskFault<P>>>
        ensures value { IfReady result (MayGive self.old) }
        ensures same { OnPending result ((output : Result Answered (AskFault P P.Told)) → MayGive self.new output → MayGive self.old output) }
        ensures waiting { OnPending result ((source : ℕ) × WaitsAt self.old source) }
        ensures slot { OnPending result ((source : ℕ) × WaitsAt self.new source × Hears cx.new source) }
        ensures question { OnPending result (waiting_question self.new ≡ waiting_question self.old) }
        ensures registered { OnPending result (Covers cx.new (WaitsAt self.new)) }
        ensures kept { Keeps cx.old cx.new }
        ensures over { IfReady result (λ _. self.new ≡ Asking.Over) }
    {
        let answer = match &mut self.progress {
            Progress::Sent(place) => match place.told.poll(cx) {
                Poll::Pending => return Poll::Pending,
                Poll::Ready(Ok(())) => place.take(),
                Poll::Ready(Err(_ended)) => None,
            },
            _ => None,
        };
        let pass = match mem::replace(&mut self.progress, Progress::Over) {
            Progress::Unsent(pass) => Some(pass),
            _ => None,
        };
        let fault = Fault::ActorGone;
        Poll::Ready(answer.ok_or(AskFault { fault, pass }))
    }
}
