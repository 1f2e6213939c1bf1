//! Mail as it goes through a channel.

ghost use Rattle.std.specs.Prelude.{◌≡◌};
ghost use Rattle.queue_actor.specs.Questions.{HasOwnSlot};

use crate::mail::Mail;
use crate::slot::AnswerSlot;
use desk::Press;
use std::marker::Model;

/// A mail as it goes through a channel. The slot of an ask is the one that was made for its question, by the type: so
/// that holds too once it has come to another thread. Contracts see the mail.
#[derive(Drop)]
pub struct Envelope<P: Press> {
    mail: Mail<P, AnswerSlot<P>>,
}

impl<P: Press> Model for Envelope<P> {
    ghost use Rattle.queue_actor.specs.Questions.{Awaited, HasOwnSlot};
    ghost use Rattle.queue_actor.specs.declared.mail.Mail.{Mail};

    ghost Value = { Mail P Awaited P.Told };

    ghost view = { λ e. e.mail };

    ghost invariant = { λ e. HasOwnSlot e.mail };
}

impl<P: Press> Envelope<P> {
    /// A mail, whose slot was made for what it asks.
    pub fn new(mail: Mail<P, AnswerSlot<P>>) -> Envelope<P>
        requires { HasOwnSlot mail }
        ensures { result ≡ mail }
    {
        Envelope { mail }
    }

    /// The mail.
    pub fn mail(&self) -> &Mail<P, AnswerSlot<P>>
        ensures same { result.now ≡ self.now }
        ensures addressed { HasOwnSlot result.now }
    {
        &self.mail
    }

    /// The mail.
    pub fn into_mail(self) -> Mail<P, AnswerSlot<P>>
        ensures same { result ≡ self }
        ensures addressed { HasOwnSlot result }
    {
        let Envelope { mail } = self;
        mail
    }
}
