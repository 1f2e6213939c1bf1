//! Where mail is put.

ghost use Rattle.std.specs.Prelude.{◌≡◌, IfOk, IfErr, MatchBool};
ghost use Rattle.crossbeam_channel.specs.Err.{send_message};
ghost use Rattle.queue_actor.specs.Asking.{IfDisconnected};

use crate::envelope::Envelope;
use crate::mail::Mail;
use crate::slot::AnswerSlot;
use crossbeam_channel::{SendError, Sender};
use desk::Press;
use std::sync::Wait;

/// A mailbox, as those who put mail into it see it.
pub trait Outbox<M> {
    // A message may be put.
    ghost may_put: { Self → M → Type 0 };

    // What is known of an outbox once a message was put.
    ghost was_put: { Self → M → Type 0 };

    // Nobody takes mail from it any more.
    ghost is_closed: { Self → Type 0 };

    // No message was found in it.
    ghost seemed_empty: { Self → Type 0 };

    /// Whether no message lies in the mailbox. What comes or is taken meanwhile no clause says.
    fn is_empty(&self) -> bool
        ensures { MatchBool result (seemed_empty self.now) (Unit {0}) };

    /// Puts a message. It comes back where nobody takes mail from the mailbox any more, and where there
    /// is no memory for it.
    fn put<R: Wait>(&self, rt: &R, message: M) -> Result<(), SendError<M>>
        requires may { may_put self.now message }
        ensures put { IfOk result (λ _. was_put self.now message) }
        ensures back { IfErr result (λ error. send_message error ≡ message) }
        ensures closed { IfErr result (λ error. IfDisconnected error (is_closed self.now)) };
}

/// What could not be sent, as a mail.
fn unsent<P: Press>(error: SendError<Envelope<P>>) -> SendError<Mail<P, AnswerSlot<P>>>
    ensures { result ≡ error }
{
    match error {
        SendError::Disconnected(envelope) => SendError::Disconnected(envelope.into_mail()),
        SendError::OutOfMemory(envelope) => SendError::OutOfMemory(envelope.into_mail()),
    }
}

impl<P: Press> Outbox<Mail<P, AnswerSlot<P>>> for Sender<Envelope<P>> {
    ghost use Rattle.queue_actor.specs.Questions.{HasOwnSlot};

    // An ask goes with the slot that was made for its question.
    ghost may_put = { λ _ mail. HasOwnSlot mail };

    // Of a channel no contract knows more than the type of its messages.
    ghost was_put = { λ _ _. Unit {0} };

    ghost is_closed = { λ _. Unit {0} };

    ghost seemed_empty = { λ _. Unit {0} };

    fn is_empty(&self) -> bool {
        self.len() == 0
    }

    fn put<R: Wait>(
        &self,
        rt: &R,
        message: Mail<P, AnswerSlot<P>>,
    ) -> Result<(), SendError<Mail<P, AnswerSlot<P>>>> {
        match self.send(rt, Envelope::new(message)) {
            Ok(()) => Ok(()),
            Err(error) => Err(unsent(error)),
        }
    }
}
