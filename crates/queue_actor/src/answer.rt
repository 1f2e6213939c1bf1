//! What an actor answers.

ghost use Rattle.std.specs.Prelude.{◌≡◌};
ghost use Rattle.std.specs.Arc.{arc_value};

use desk::{Desk, Pass, Press};
use message::Fault;
use queue_core::{Command, Reply};
use std::marker::Model;
use std::sync::Arc;

/// The reply to a command, with the pass that the call was made with. Contracts see which desk it is
/// of, what the pass knows, the command and the reply.
#[derive(Drop)]
pub struct Answer<P: Press> {
    desk: Arc<Desk<P>>,
    pass: Pass<P>,
    command: Command,
    reply: Result<Reply, Fault>,
}

impl<P: Press> Model for Answer<P> {
    ghost use Rattle.std.specs.Prelude.{◌≡◌};
    ghost use Rattle.std.specs.Arc.{arc_value};
    ghost use Rattle.queue_actor.specs.Answered.{Answered, IsLastCall};

    ghost Value = { Answered };

    ghost view = { λ a. record { desk = arc_value a.desk; pass = a.pass; command = a.command; reply = a.reply } };

    ghost invariant = { λ a. (a.pass.desk ≡ arc_value a.desk) × IsLastCall a.pass a.command a.reply };
}

impl<P: Press> Answer<P> {
    ghost use Rattle.queue_actor.specs.Answered.{IsLastCall};

    /// The answer to a call that was made with a pass of this desk, and was the last one made with it. A
    /// desk that is spent answers without a call.
    pub fn new(
        desk: Arc<Desk<P>>,
        pass: Pass<P>,
        command: Command,
        reply: Result<Reply, Fault>,
    ) -> Answer<P>
        requires desk { pass.desk ≡ arc_value desk }
        requires last { IsLastCall pass command reply }
        ensures call { (result.desk ≡ arc_value desk) × (result.pass ≡ pass) }
        ensures reply { (result.command ≡ command) × (result.reply ≡ reply) }
    {
        Answer {
            desk,
            pass,
            command,
            reply,
        }
    }

    /// The command.
    pub fn command(&self) -> &Command
        ensures { result.now ≡ self.now.command }
    {
        &self.command
    }

    /// What the desk answered to it.
    pub fn reply(&self) -> &Result<Reply, Fault>
        ensures { result.now ≡ self.now.reply }
    {
        &self.reply
    }

    /// The desk, the pass, the command and the reply.
    pub fn into_parts(self) -> (Arc<Desk<P>>, Pass<P>, Command, Result<Reply, Fault>)
        ensures call { (arc_value result.0 ≡ self.desk) × (result.1 ≡ self.pass) }
        ensures reply { (result.2 ≡ self.command) × (result.3 ≡ self.reply) }
        ensures desk { result.1.desk ≡ arc_value result.0 }
        ensures last { IsLastCall result.1 result.2 result.3 }
    {
        let Answer {
            desk,
            pass,
            command,
            reply,
        } = self;
        (desk, pass, command, reply)
    }
}

// An answer lies where two threads reach it. Its pass holds no value of its press, only a seat of the table in which one
// lies; so the press need not be shared. This is a mark for the type checker: each move to a thread is proved.
unsafe impl<P: Press + Send> Sync for Answer<P> {}
