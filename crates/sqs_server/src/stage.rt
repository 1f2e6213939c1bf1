//! How far a request is.

use crate::arriving::Arriving;
use crate::order::MadePlace;
use crate::queues::{Mailbox, Printer, Queue};
use crate::reply::Sent;
use journal::Moment;
use message::QueueName;
use queue_actor::{AskFuture, Duties};
use queue_config::Wish;
use queue_core::Command;
use request_plan::{Step, Then};
use std::sync::{Arc, Wait};

/// A queue that is to be there.
#[derive(Clone, Copy, Debug)]
pub struct Creation {
    pub name: QueueName,
    pub wish: Wish,
    pub at: Moment,
}

/// What is made of the answer to a command.
#[derive(Drop)]
pub enum Purpose {
    /// It goes on as its request has it.
    Plan(Then),
    /// The queue was closed, or has settings. What that changes beside the queue its actor does.
    Change,
    /// The queue was looked at, since one of its name is to be there.
    Existing(Creation),
}

/// A command that was sent to a queue.
#[derive(Drop)]
pub struct Exchange<R: Wait + Drop> {
    pub uid: u64,
    pub mailbox: Mailbox<R>,
    pub duties: Arc<Duties>,
    pub at: Moment,
    pub purpose: Purpose,
    pub future: AskFuture<Printer<R>>,
}

/// A command that was not asked of its queue yet.
#[derive(Drop)]
pub struct Postponed<R: Wait + Drop> {
    pub queue: Queue<R>,
    pub command: Command,
    pub purpose: Purpose,
}

/// How far a request is.
#[derive(Drop)]
pub enum Stage<R: Wait + Drop> {
    /// Its body comes.
    Collecting(Arriving),
    /// A queue is to be there.
    Creating(Creation),
    /// A queue was ordered.
    Making {
        creation: Creation,
        made: MadePlace,
    },
    /// A queue is to be asked; one that is not at hand is looked for by its uid.
    Going {
        uid: u64,
        queue: Option<Queue<R>>,
        at: Moment,
        step: Step,
    },
    /// A queue was asked.
    Asking(Exchange<R>),
    /// This is to be sent.
    Sending(Sent),
    /// All is done.
    Over,
}

/// What comes of a stage that need not wait.
#[derive(Drop)]
pub enum Next<R: Wait + Drop> {
    /// It goes on at once.
    On(Stage<R>),
    /// It ends.
    Ends(Result<Sent, hyper::Error>),
}

/// What becomes of a stage that is looked at.
#[derive(Drop)]
pub enum Polled<R: Wait + Drop> {
    Goes(Next<R>),
    /// It waits, and its task is woken by what it waits for, or has asked for another poll.
    Waits(Stage<R>),
}

/// What becomes of a request that goes on for as long as it need not wait.
#[derive(Drop)]
pub enum Halt<R: Wait + Drop> {
    /// It waits at this stage, and its task is woken by what it waits for, or has asked for another poll.
    Waits(Stage<R>),
    /// It has ended.
    Ends(Result<Sent, hyper::Error>),
}
