//! What an actor finds in its mailbox.

ghost use Rattle.std.specs.Prelude.{◌≡◌};
ghost use Rattle.std.specs.Arc.{arc_value};

use desk::{Desk, Pass, Press};
use journal::Moment;
use queue_core::Command;
use std::sync::Arc;

/// A message to an actor. `S` is the slot that an answer goes to.
#[derive(Drop)]
pub enum Mail<P: Press, S: Drop> {
    /// A command for the desk that comes with it.
    Ask(Ask<P, S>),
    /// The clock of the machine, in milliseconds.
    Tick(Moment),
    /// The actor answers what waits, and ends.
    End,
}

/// A command for a desk, with a pass of that desk and the slot for the answer.
#[derive(Drop)]
pub struct Ask<P: Press, S: Drop> {
    pub desk: Arc<Desk<P>>,
    pub pass: Pass<P>,
    pub moment: Moment,
    pub command: Command,
    /// How long a receive may wait for messages. Where it is not later than `moment`, and for every
    /// other command, the call does not wait.
    pub wait_until: Moment,
    pub reply: S,
    pub ghost together: { pass.desk ≡ arc_value desk },
}

impl<P: Press, S: Drop> Ask<P, S> {
    /// The ask of these parts.
    pub fn new(
        desk: Arc<Desk<P>>,
        pass: Pass<P>,
        moment: Moment,
        command: Command,
        wait_until: Moment,
        reply: S,
    ) -> Ask<P, S>
        requires { pass.desk ≡ arc_value desk }
        ensures call { (result.desk ≡ desk) × (result.pass ≡ pass) × (result.moment ≡ moment) × (result.command ≡ command) }
        ensures wait { (result.wait_until ≡ wait_until) × (result.reply ≡ reply) }
    {
        Ask {
            desk,
            pass,
            moment,
            command,
            wait_until,
            reply,
        }
    }
}
