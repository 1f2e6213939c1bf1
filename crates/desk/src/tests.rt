//! Passes of one desk, in one thread and in several. What is wanted was worked out by hand from what
//! each command does, and never taken from the program.

mod cases;
mod threads;

use super::*;
use journal::{Moment, Ticks};
use message::{Content, Fault, QueueName};
use queue_config::{Limits, Settings};
use queue_core::{Command, Look, Maximum, Offers, QueueState, Reply, Timeout};
use std::alloc::Global;
use std::fmt::Debug;
use std::sync::Wait;
use std::sync::atomic::{AtomicU64, Ordering};
use std::test::Fail;
use std::thread;

/// How often a thread looks at a word before it gives up.
const MOST_LOOKS: u64 = 10_000_000;

/// A gate that adds up the numbers of the turns that it is told of, and 100 for each. It holds a turn
/// until the sum is enough, to which others may add.
#[derive(Drop)]
struct Barrier {
    sum: AtomicU64,
    enough: u64,
}

impl Barrier {
    fn new(enough: u64) -> Barrier {
        let sum = AtomicU64::new(0);
        Barrier { sum, enough }
    }

    /// Waits until the sum is so much at least, and adds 1000 where it waited too long.
    fn wait_for(&self, wanted: u64) {
        for _ in 0..MOST_LOOKS {
            if wanted <= self.sum.load(Ordering::SeqCst) {
                return;
            }
            thread::yield_now();
        }
        self.sum.fetch_add(1000, Ordering::SeqCst);
    }
}

impl Gate for Barrier {
    fn in_turn<R: Wait>(&self, _rt: &R, turn: u64) {
        self.sum.fetch_add(turn.wrapping_add(100), Ordering::SeqCst);
        self.wait_for(self.enough);
    }
}

/// A queue that was opened at 0 under the uid 1, with the default settings.
fn open(alloc: Global) -> Result<QueueState, Fault> {
    open_with(alloc, Limits::default())
}

/// The same with these limits.
fn open_with(alloc: Global, limits: Limits) -> Result<QueueState, Fault> {
    let (name, rules) = (QueueName::read("jobs")?, Vec::new(alloc));
    let settings = Settings::default();
    QueueState::open(alloc, 1, name, settings, limits, rules, Moment::zero())
}

/// The first word of a text, and what stands behind it.
fn first_word(text: &str) -> (&str, &str) {
    text.split_once(' ').unwrap_or((text, ""))
}

/// The time of the milliseconds that a text is.
fn moment(text: &str) -> Result<Moment, Fault> {
    let milliseconds = text.parse().unwrap_or(u64::MAX);
    Moment::new(milliseconds).ok_or(Fault::InvalidParameterValue)
}

/// The command that a text says: `send` a body, `receive` a number of messages at most, for so many seconds
/// or under the queue's timeout, or `look`, `parcel`, `close`.
fn command(alloc: Global, text: &str) -> Result<Command, Fault> {
    let (verb, rest) = first_word(text);
    match verb {
        "send" => {
            let (body, delay) = (String::from_str(alloc, rest)?, None);
            let content = Content::new(alloc, body, Vec::new(alloc))?;
            Ok(Command::Send { content, delay })
        }
        "receive" => {
            let (messages, seconds) = first_word(rest);
            let maximum = Maximum::new(messages.parse().unwrap_or(0));
            let maximum = maximum.ok_or(Fault::InvalidParameterValue)?;
            let timeout = seconds.parse().ok().and_then(Timeout::new);
            Ok(Command::Receive { maximum, timeout })
        }
        "look" => Ok(Command::Look),
        "parcel" => Ok(Command::FirstParcel),
        "close" => Ok(Command::Close),
        _ => Err(Fault::UnsupportedOperation),
    }
}

/// Tells offers: of each its number, its receipt, its body and when it was sent.
fn tell_offers(text: &mut String, offers: &Offers) -> Result<(), Fault> {
    text.push_str("offered")?;
    for offer in offers.as_slice() {
        let (body, sent) = (offer.content.body(), offer.sent.milliseconds());
        write!(text, " {}.{} {body} of {sent}", offer.number, offer.receipt)?;
    }
    Ok(())
}

/// Tells what a look sees.
fn tell_look(text: &mut String, look: &Look) -> Result<(), Fault> {
    let (visible, lines) = (look.gauges.visible, look.lines);
    let closed = if look.closed { ", closed" } else { "" };
    let at = look.clock.milliseconds();
    Ok(write!(text, "{visible} visible, {lines} entries at {at}{closed}")?)
}

/// Tells an answer: the number of a message that was sent; of each offer its number, its receipt, its body
/// and when it was sent; what a look sees; and any other as it is named.
fn tell(text: &mut String, answer: &Result<Reply, Fault>) -> Result<(), Fault> {
    match answer {
        Ok(Reply::Sent(posted)) => Ok(write!(text, "sent {}", posted.number)?),
        Ok(Reply::Received(offers)) => tell_offers(text, offers),
        Ok(Reply::Looked(look)) => tell_look(text, look),
        Ok(other) => Ok(write!(text, "{other:?}")?),
        Err(fault) => Ok(text.push_str(fault.name())?),
    }
}

/// A failure unless what was told is what was wanted.
fn same<T: Debug + Drop + PartialEq>(
    title: &str,
    line: &str,
    told: T,
    wanted: T,
) -> Result<(), Fail> {
    if told == wanted {
        return Ok(());
    }
    Err(Fail::new(format_args!("{title}: {line}: {told:?}, not {wanted:?}")))
}

/// What is left of a desk that was closed, and what was told last.
struct Left {
    queue: QueueState,
    ticks: Ticks,
    text: String,
}

/// Written out, so that a function which lets a queue go has one step for all its parts in its proof.
impl Drop for Left {
    fn drop(self) {
        let Left {
            queue: _queue,
            ticks: _ticks,
            text: _text,
        } = self;
    }
}

impl Left {
    /// Tells what a look sees and what a receive is offered.
    fn tell_offers(&mut self, alloc: Global) -> Result<(), Fault> {
        let receive = command(alloc, "receive 10")?;
        self.text.clear();
        self.tell(alloc, &Command::Look)?;
        self.text.push_str("; ")?;
        self.tell(alloc, &receive)
    }

    /// Performs a command at the clock, once more where it finds no memory, and tells the answer.
    fn tell(&mut self, alloc: Global, command: &Command) -> Result<(), Fault> {
        let mut answer = self.perform(alloc, command);
        if matches!(&answer, Err(Fault::OutOfMemory)) {
            answer = self.perform(alloc, command);
        }
        tell(&mut self.text, &answer)
    }

    /// Performs a command at the clock.
    fn perform(&mut self, alloc: Global, command: &Command) -> Result<Reply, Fault> {
        let (at, ticks) = (Moment::zero(), &mut self.ticks);
        self.queue.perform(alloc, at, command, ticks)
    }

    /// Tells how many messages there ever were, how many are in flight, and what a look sees.
    fn tell_counts(&mut self) -> Result<(), Fault> {
        let look = self.queue.look(Moment::zero(), &mut self.ticks);
        let (messages, in_flight) = (self.queue.message_count(), look.gauges.in_flight);
        write!(self.text, "{messages} messages, {in_flight} in flight; ")?;
        tell_look(&mut self.text, &look)
    }
}
