//! Where an actor's mail comes from, and where its answers go.

ghost use Rattle.std.specs.Prelude.{IfSome, IfNone, MatchBool};

use crate::answer::Answer;
use crate::envelope::Envelope;
use crate::mail::Mail;
use crate::slot::AnswerSlot;
use crossbeam_channel::Receiver;
use desk::Press;
use std::sync::Wait;

/// A mailbox, as the actor sees it that takes mail from it, and gives each answer to the slot that came
/// with the mail. What happens to a mailbox is told step by step.
pub trait Inbox<M, S, T> {
    // A mail comes.
    ghost brings: { Self → M → Self → Type 0 };

    // No mail will come any more.
    ghost is_over: { Self → Self → Type 0 };

    // An answer may be given to a slot.
    ghost may_give: { Self → S → T → Type 0 };

    // An answer is given to a slot.
    ghost gives: { Self → S → T → Self → Type 0 };

    // Nobody waits at a slot any more.
    ghost was_left: { Self → S → Type 0 };

    /// Waits for the next mail. `None` where there will be none.
    fn next<R: Wait>(&mut self, rt: &R) -> Option<M>
        ensures some { IfSome result (λ mail. brings self.old mail self.new) }
        ensures none { IfNone result (is_over self.old self.new) };

    /// Gives an answer to a slot.
    fn give(&mut self, slot: S, answer: T)
        requires { may_give self.old slot answer }
        ensures { gives self.old slot answer self.new };

    /// Whether nobody waits for the answer to a slot any more.
    fn is_left(&self, slot: &S) -> bool
        ensures { MatchBool result (was_left self.now slot.now) (Unit {0}) };
}

/// Mail comes through a channel, and each answer goes to who asked. An answer that nobody waits for any more is let go.
impl<P: Press> Inbox<Mail<P, AnswerSlot<P>>, AnswerSlot<P>, Answer<P>> for Receiver<Envelope<P>> {
    ghost use Rattle.queue_actor.specs.Questions.{HasOwnSlot, IsMailedAnswer};

    // Of what comes from another thread, or becomes of it there, no contract knows anything but its type. An envelope's
    // says that its slot was made for its question.
    ghost brings = { λ _ mail _. HasOwnSlot mail };

    ghost is_over = { λ _ _. Unit {0} };

    ghost may_give = { λ _ slot answer. IsMailedAnswer slot.asked answer };

    ghost gives = { λ _ _ _ _. Unit {0} };

    ghost was_left = { λ _ _. Unit {0} };

    fn next<R: Wait>(&mut self, rt: &R) -> Option<Mail<P, AnswerSlot<P>>> {
        match self.recv(rt) {
            Ok(envelope) => Some(envelope.into_mail()),
            Err(_ended) => None,
        }
    }

    fn give(&mut self, slot: AnswerSlot<P>, answer: Answer<P>) {
        slot.give(answer);
    }

    fn is_left(&self, slot: &AnswerSlot<P>) -> bool {
        slot.is_left()
    }
}
