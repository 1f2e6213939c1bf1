//! What a request asks of one queue: commands, one after another, and what their answers are to a client.

ghost use Rattle.std.specs.Prelude.{◌≡◌, false, [], ◌∷◌, IfSome, IfNone};
ghost use Rattle.request_plan.specs.Plan as plan;
ghost use Rattle.request_plan.specs.Plan.{Comes, Follows, attributes_answer, begins_with_fault, attributes_shape, done_answer, done_reply, done_shape, entry_answer, messages_answer, messages_shape};

use aws_json::{
    AttributeNames, BatchAnswer, BatchAnswers, BatchEntry, Entries, EntryReply, Patterns,
    ReceiveNames, ReplyShape,
};
use message::{Fault, QueueName};
use queue_core::{Command, Maximum, Reply, Timeout};
use std::alloc::Global;
use std::marker::Model;
use std::vec;

/// Entries of a batch that are still to be done, in order. Contracts see the list.
#[derive(Drop)]
pub struct Remaining {
    entries: vec::IntoIter<BatchEntry>,
}

impl Model for Remaining {
    ghost use Rattle.std.specs.Prelude.{List};
    ghost use Rattle.std.specs.Vec.Iter.{into_iter_items};
    ghost use Rattle.aws_json.specs.declared.batch.BatchEntry.{BatchEntry};

    ghost Value = { List BatchEntry };

    ghost view = { λ r. into_iter_items r.entries };
}

impl Remaining {
    /// Takes the first entry out.
    fn next(&mut self) -> Option<BatchEntry>
        ensures some { IfSome result (λ entry. self.old ≡ entry ∷ self.new) }
        ensures none { IfNone result (self.old ≡ []) }
    {
        self.entries.next()
    }
}

/// What a client is told of messages that it receives.
#[derive(Debug, Drop)]
pub struct ReceiveParts {
    pub names: ReceiveNames,
    pub attributes: Patterns,
}

/// What is made of the answer to a command.
#[derive(Drop)]
pub enum Then {
    /// A client is told that it was done, and of a send the message.
    Done,
    /// A look is told by the attributes that are asked for.
    Attributes {
        queue: QueueName,
        names: Option<AttributeNames>,
    },
    /// A look says how long the receive waits that comes next.
    Receive {
        maximum: Maximum,
        timeout: Option<Timeout>,
        told: ReceiveParts,
    },
    /// Messages are told.
    Messages(ReceiveParts),
    /// An entry of a batch is told behind those before it, and then come the entries that are left.
    Entry {
        id: QueueName,
        left: Remaining,
        answers: BatchAnswers,
    },
}

/// What comes next.
#[derive(Drop)]
pub enum Step {
    /// A command is asked, which may wait so many seconds.
    Ask {
        command: Command,
        seconds: u64,
        then: Then,
    },
    /// All was asked, and this is the client's answer.
    Answer(Result<ReplyShape, Fault>),
}

/// A command that was asked, and the queue's reply.
#[derive(Debug, Drop)]
pub struct Performed {
    pub command: Command,
    pub reply: Reply,
}

/// What became of a command.
pub type Outcome = Result<Performed, Fault>;

/// Asks a command whose success a client is told.
pub(crate) fn done(command: Command) -> Step
    ensures { result ≡ plan.done command }
{
    Step::Ask {
        command,
        seconds: 0,
        then: Then::Done,
    }
}

/// Asks for attributes.
pub(crate) fn attributes(queue: QueueName, names: Option<AttributeNames>) -> Step
    ensures { result ≡ plan.attributes queue names }
{
    Step::Ask {
        command: Command::Look,
        seconds: 0,
        then: Then::Attributes { queue, names },
    }
}

/// Asks for messages, for which it may wait so many seconds.
fn receive_within(
    maximum: Maximum,
    timeout: Option<Timeout>,
    seconds: u64,
    told: ReceiveParts,
) -> Step
    ensures { result ≡ plan.receive_within maximum timeout seconds told }
{
    Step::Ask {
        command: Command::Receive { maximum, timeout },
        seconds,
        then: Then::Messages(told),
    }
}

/// Asks for messages. Where it is not said how long to wait for them, the queue is asked first.
pub(crate) fn receive(
    maximum: Maximum,
    timeout: Option<Timeout>,
    wait: Option<u64>,
    told: ReceiveParts,
) -> Step
    ensures { result ≡ plan.receive maximum timeout wait told }
{
    match wait {
        Some(seconds) => receive_within(maximum, timeout, seconds, told),
        None => Step::Ask {
            command: Command::Look,
            seconds: 0,
            then: Then::Receive {
                maximum,
                timeout,
                told,
            },
        },
    }
}

/// Asks what the entries of a batch ask, one after another.
pub(crate) fn batch(alloc: Global, entries: Entries) -> Step
    ensures comes { Comes result (plan.batch entries) }
    ensures exact { begins_with_fault entries ≡ false → result ≡ plan.batch entries }
{
    let left = Remaining {
        entries: entries.into_vec().into_iter(),
    };
    next_entry(alloc, left, BatchAnswers::new(alloc))
}

/// Asks what the next entry asks that has no fault of its own, behind these answers.
fn next_entry(alloc: Global, mut left: Remaining, mut answers: BatchAnswers) -> Step
    ensures comes { Comes result (plan.next_entry left answers) }
    ensures exact { begins_with_fault left ≡ false → result ≡ plan.next_entry left answers }
{
    while let Some(BatchEntry { id, command }) = left.next() {
        match command {
            Ok(command) => {
                let then = Then::Entry { id, left, answers };
                return Step::Ask {
                    command,
                    seconds: 0,
                    then,
                };
            }
            Err(fault) => {
                let answer = Err(fault);
                if let Err(fault) = answers.push(alloc, BatchAnswer { id, answer }) {
                    return Step::Answer(Err(fault));
                }
            }
        }
    }
    Step::Answer(Ok(ReplyShape::Batch(answers)))
}

/// What a client is told of a command that was done: of a send the message, of any other that it
/// succeeded.
fn done_reply(command: Command, reply: &Reply) -> EntryReply
    ensures { result ≡ done_reply command reply.now }
{
    match (command, reply) {
        (Command::Send { content, .. }, Reply::Sent(posted)) => EntryReply::Sent {
            content,
            id: posted.id,
        },
        _ => EntryReply::Done,
    }
}

/// The same by itself.
fn done_shape(reply: EntryReply) -> ReplyShape
    ensures { result ≡ done_shape reply }
{
    match reply {
        EntryReply::Sent { content, id } => ReplyShape::Sent { content, id },
        EntryReply::Done => ReplyShape::Nothing,
    }
}

/// What a client is told of a command by itself.
fn done_answer(outcome: Outcome) -> Result<ReplyShape, Fault>
    ensures { result ≡ done_answer outcome }
{
    let Performed { command, reply } = outcome?;
    Ok(done_shape(done_reply(command, &reply)))
}

/// What a client is told of a look. A queue that was closed is not there any more.
fn attributes_shape(
    queue: QueueName,
    names: Option<AttributeNames>,
    reply: Reply,
) -> Result<ReplyShape, Fault>
    ensures { result ≡ attributes_shape queue names reply }
{
    match reply {
        Reply::Looked(look) if look.closed => Err(Fault::QueueDoesNotExist),
        Reply::Looked(look) => Ok(ReplyShape::Attributes { names, queue, look }),
        _ => Ok(ReplyShape::Nothing),
    }
}

/// What a client is told where it asked for attributes.
fn attributes_answer(
    queue: QueueName,
    names: Option<AttributeNames>,
    outcome: Outcome,
) -> Result<ReplyShape, Fault>
    ensures { result ≡ attributes_answer queue names outcome }
{
    let Performed { command: _, reply } = outcome?;
    attributes_shape(queue, names, reply)
}

/// What a client is told of a receive.
fn messages_shape(uid: u64, told: ReceiveParts, reply: Reply) -> ReplyShape
    ensures { result ≡ messages_shape uid told reply }
{
    match reply {
        Reply::Received(offers) => ReplyShape::Messages {
            uid,
            names: told.names,
            attributes: told.attributes,
            offers,
        },
        _ => ReplyShape::Nothing,
    }
}

/// What a client is told where it asked for messages.
fn messages_answer(uid: u64, told: ReceiveParts, outcome: Outcome) -> Result<ReplyShape, Fault>
    ensures { result ≡ messages_answer uid told outcome }
{
    let Performed { command: _, reply } = outcome?;
    Ok(messages_shape(uid, told, reply))
}

/// Asks for messages after a look, and waits for them as the queue has it. One that was closed is not
/// there any more.
fn receive_looked(
    maximum: Maximum,
    timeout: Option<Timeout>,
    told: ReceiveParts,
    reply: Reply,
) -> Step
    ensures { result ≡ plan.receive_looked maximum timeout told reply }
{
    match reply {
        Reply::Looked(look) if look.closed => Step::Answer(Err(Fault::QueueDoesNotExist)),
        Reply::Looked(look) => {
            let seconds = u64::from(look.settings.wait_seconds);
            receive_within(maximum, timeout, seconds, told)
        }
        _ => Step::Answer(Ok(ReplyShape::Nothing)),
    }
}

/// The same, where the look may have failed.
fn receive_after(
    maximum: Maximum,
    timeout: Option<Timeout>,
    told: ReceiveParts,
    outcome: Outcome,
) -> Step
    ensures { result ≡ plan.receive_after maximum timeout told outcome }
{
    match outcome {
        Ok(Performed { command: _, reply }) => receive_looked(maximum, timeout, told, reply),
        Err(fault) => Step::Answer(Err(fault)),
    }
}

/// What a client is told of an entry of a batch.
fn entry_answer(outcome: Outcome) -> Result<EntryReply, Fault>
    ensures { result ≡ entry_answer outcome }
{
    let Performed { command, reply } = outcome?;
    Ok(done_reply(command, &reply))
}

/// Goes on behind an entry of a batch, whatever became of it.
fn after_entry(
    alloc: Global,
    id: QueueName,
    left: Remaining,
    mut answers: BatchAnswers,
    outcome: Outcome,
) -> Step
    ensures { Comes result (plan.after_entry id left answers outcome) }
{
    let answer = entry_answer(outcome);
    match answers.push(alloc, BatchAnswer { id, answer }) {
        Ok(()) => next_entry(alloc, left, answers),
        Err(fault) => Step::Answer(Err(fault)),
    }
}

/// What comes after a command that was asked of the queue of a uid.
pub fn after(alloc: Global, uid: u64, then: Then, outcome: Outcome) -> Step
    ensures { Follows then result (plan.after uid then outcome) }
{
    match then {
        Then::Done => Step::Answer(done_answer(outcome)),
        Then::Attributes { queue, names } => {
            Step::Answer(attributes_answer(queue, names, outcome))
        }
        Then::Receive {
            maximum,
            timeout,
            told,
        } => receive_after(maximum, timeout, told, outcome),
        Then::Messages(told) => Step::Answer(messages_answer(uid, told, outcome)),
        Then::Entry { id, left, answers } => after_entry(alloc, id, left, answers, outcome),
    }
}
