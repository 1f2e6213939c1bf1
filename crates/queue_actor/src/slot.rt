//! What carries one answer to who asked.

ghost use Rattle.std.specs.Prelude.{◌≡◌, IfOk, IfSome, MatchBool};
ghost use Rattle.std.specs.Arc.{arc_value};
ghost use Rattle.futures.specs.Channel.{completed_source};
ghost use Rattle.queue_actor.specs.Questions.{IsMailedAnswer, question, question_of};

use crate::answer::Answer;
use crate::mail::Ask;
use counted_slot::{Counted, FREE, Fits, TAKEN};
use desk::{Desk, Pass, Press};
use futures::channel::oneshot;
use futures::channel::oneshot::{Receiver, Sender};
use journal::Moment;
use queue_core::Command;
use std::alloc::{AllocError, Global};
use std::marker::Model;
use std::snapshot::Snapshot;
use std::sync::Arc;

/// What is asked: of which desk, with which pass, at which moment, which command, and until when its answer may wait.
/// Contracts see just that.
#[derive(Drop)]
pub struct Question<P: Press> {
    desk: Arc<Desk<P>>,
    pass: Pass<P>,
    moment: Moment,
    command: Command,
    wait_until: Moment,
}

impl<P: Press> Model for Question<P> {
    ghost use Rattle.std.specs.Prelude.{◌≡◌};
    ghost use Rattle.std.specs.Arc.{arc_value};
    ghost use Rattle.queue_actor.specs.Questions.{Question, question};

    ghost Value = { Question };

    ghost view = { λ q. question (arc_value q.desk) q.pass q.moment q.command q.wait_until };

    ghost invariant = { λ q. q.pass.desk ≡ arc_value q.desk };
}

impl<P: Press> Question<P> {
    /// The question of these parts.
    pub(crate) fn new(
        desk: Arc<Desk<P>>,
        pass: Pass<P>,
        moment: Moment,
        command: Command,
        wait_until: Moment,
    ) -> Question<P>
        requires { pass.desk ≡ arc_value desk }
        ensures { result ≡ question (arc_value desk) pass moment command wait_until }
    {
        Question {
            desk,
            pass,
            moment,
            command,
            wait_until,
        }
    }

    /// The pass alone.
    pub(crate) fn into_pass(self) -> Pass<P>
        ensures { result ≡ self.pass }
    {
        let Question { pass, .. } = self;
        pass
    }

    /// The ask that has a slot for the answer.
    pub(crate) fn into_ask<S: Drop>(self, reply: S) -> Ask<P, S>
        ensures question { question_of result ≡ self }
        ensures reply { result.reply ≡ reply }
    {
        let Question {
            desk,
            pass,
            moment,
            command,
            wait_until,
        } = self;
        Ask::new(desk, pass, moment, command, wait_until, reply)
    }
}

/// An answer fits a slot that was made for its question.
impl<P: Press> Fits for Answer<P> {
    ghost use Rattle.queue_actor.specs.Questions.{IsMailedAnswer};

    type Tag = Snapshot<Question<P>>;

    ghost fits = { λ tag answer. IsMailedAnswer tag.value answer };
}

/// Where an answer lies between who gives it and who asked.
type Cell<P> = Arc<Counted<Option<Answer<P>>>>;

/// Where the answer to one question goes. Contracts see the question, and the source of the place where the answer is
/// waited for.
#[derive(Drop)]
pub struct AnswerSlot<P: Press> {
    cell: Cell<P>,
    tells: Sender<()>,
}

impl<P: Press> Model for AnswerSlot<P> {
    ghost use Rattle.std.specs.Arc.{arc_value};
    ghost use Rattle.futures.specs.Channel.{canceled_source};
    ghost use Rattle.queue_actor.specs.Questions.{Awaited};

    ghost Value = { Awaited };

    ghost view = { λ s. record { asked = (arc_value s.cell).value; source = canceled_source s.tells } };
}

impl<P: Press> AnswerSlot<P> {
    /// Gives the answer to the question that the slot was made for. It is let go where nobody waits for it any more.
    pub(crate) fn give(self, answer: Answer<P>)
        requires { IsMailedAnswer self.asked answer }
    {
        let AnswerSlot { cell, tells } = self;
        let (found, claim) = cell.turn(FREE, TAKEN);
        if found != FREE {
            claim.done();
            return;
        }
        drop(claim.put(Some(answer), FREE));
        let _ = tells.send(());
    }

    /// Whether nobody waits for the answer any more.
    pub(crate) fn is_left(&self) -> bool {
        self.tells.is_canceled()
    }
}

/// Where the answer to one question comes, and how it is told that it came.
#[derive(Drop)]
pub struct AnswerPlace<P: Press> {
    cell: Cell<P>,
    pub(crate) told: Receiver<()>,
}

impl<P: Press> AnswerPlace<P> {
    /// Takes the answer, where one was given.
    pub(crate) fn take(&self) -> Option<Answer<P>>
        ensures { IfSome result (IsMailedAnswer (arc_value self.now.cell).value) }
    {
        let (found, claim) = self.cell.turn(FREE, TAKEN);
        if found != FREE {
            claim.done();
            return None;
        }
        claim.put(None, FREE)
    }
}

/// The slot for the answer to a question, and the place where it comes.
pub(crate) fn slot_and_place<P: Press>(
    alloc: Global,
    asked: &Question<P>,
) -> Result<(AnswerSlot<P>, AnswerPlace<P>), AllocError>
    ensures slot { IfOk result (λ both. both.0.asked ≡ asked.now) }
    ensures place { IfOk result (λ both. (arc_value both.1.cell).value ≡ asked.now) }
    ensures source { IfOk result (λ both. both.0.source ≡ completed_source both.1.told) }
{
    let cell = Arc::new(alloc, Counted::new(None, &Snapshot::of(asked)))?;
    let other = Arc::try_clone(&cell)?;
    let (tells, told) = oneshot::channel(alloc)?;
    Ok((
        AnswerSlot { cell, tells },
        AnswerPlace { cell: other, told },
    ))
}
