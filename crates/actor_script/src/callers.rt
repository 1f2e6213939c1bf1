//! Those who ask a queue through the mailbox of its actor.

use crate::types::{Client, Shared};
use crate::words::{command, moment, parts, receive};
use desk::{NoGate, NoPress};
use futures::executor::block_on;
use journal::Moment;
use message::Fault;
use queue_actor::{Answer, AskFuture, Served};
use queue_core::{Reply, Timeout};
use std::alloc::{AllocGlobal, Global};
use std::random::RandomSource;
use std::sync::Wait;

/// Sends an ask to a queue.
pub(crate) fn begin<R: Wait>(
    rt: &R,
    alloc: Global,
    queue: Client,
    text: &str,
) -> Result<AskFuture<NoPress>, Fault> {
    let (at, call, until) = parts(text);
    let (at, until) = (moment(at)?, moment(until)?);
    let command = command(alloc, call)?;
    let Served {
        mailbox,
        desk,
        pass,
        ..
    } = queue;
    match AskFuture::new(rt, alloc, &mailbox, desk, pass, at, command, until) {
        Ok(future) => Ok(future),
        Err(refused) => Err(refused.fault),
    }
}

/// The queue of the uid 1.
fn first_queue<R: Wait>(rt: &R, queues: &Shared) -> Option<Client> {
    queues.find_uid(rt, 1).ok()?
}

/// Sends a text five times to the queue of the uid 1, all before the first answer.
fn begin_five<R: Wait + AllocGlobal>(
    rt: &R,
    queues: &Shared,
    text: &str,
    begun: &mut Vec<AskFuture<NoPress>>,
) -> Option<()> {
    for _ in 0..5 {
        let future = begin(rt, rt.alloc(), first_queue(rt, queues)?, text).ok()?;
        begun.push(future).ok()?;
    }
    Some(())
}

/// Waits for an answer, and gives the number of the message that was sent.
fn number_of<R: Wait + RandomSource + AllocGlobal>(
    rt: &R,
    future: AskFuture<NoPress>,
) -> Option<u64> {
    match block_on(rt, future).ok()?.ok()?.reply() {
        Ok(Reply::Sent(posted)) => Some(posted.number),
        _ => None,
    }
}

/// Waits for answers, one after another, and keeps the numbers of the messages that were sent.
fn keep_numbers<R: Wait + RandomSource + AllocGlobal>(
    rt: &R,
    begun: Vec<AskFuture<NoPress>>,
    numbers: &mut Vec<u64>,
) -> Option<()> {
    for future in begun {
        if let Some(number) = number_of(rt, future) {
            numbers.push(number).ok()?;
        }
    }
    Some(())
}

/// Counts the messages of an answer which have one of these numbers, and a body with which a text ends.
fn count_own(answer: &Answer<NoPress>, text: &str, numbers: &[u64]) -> Option<u64> {
    let Ok(Reply::Received(offers)) = answer.reply() else {
        return None;
    };
    let mut count = 0u64;
    for offer in offers.as_slice() {
        if text.ends_with(offer.content.body()) && numbers.contains(&offer.number) {
            count = count.saturating_add(1);
        }
    }
    Some(count)
}

/// Sends five times, all before the first answer, and counts the messages that are there under a number that an
/// answer told.
pub(crate) fn sends<R: Wait + RandomSource + AllocGlobal>(
    rt: &R,
    queues: &Shared,
    body: u64,
) -> Option<u64> {
    let alloc = rt.alloc();
    let (mut begun, mut numbers) = (Vec::new(alloc), Vec::new(alloc));
    let text = format!(in alloc; "1000 send {body}").ok()?;
    begin_five(rt, queues, text.as_str(), &mut begun)?;
    keep_numbers(rt, begun, &mut numbers)?;
    let at = Moment::new(1000)?;
    let peek = receive(Timeout::new(0)).ok()?;
    let answer = first_queue(rt, queues)?.ask(rt, alloc, at, peek, &NoGate);
    count_own(&answer, text.as_str(), numbers.as_slice())
}
