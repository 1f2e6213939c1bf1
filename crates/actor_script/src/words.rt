//! What texts say, and how answers are told.

use journal::Moment;
use message::{Content, Fault};
use queue_config::Wish;
use queue_core::{Command, Maximum, Offer, Reply, Timeout};
use std::alloc::Global;

/// A message leaves after one receive.
const POLICY: &str =
    r#"{"deadLetterTargetArn":"arn:aws:sqs:elasticmq:000000000000:dead","maxReceiveCount":1}"#;

/// The number that a text is.
pub(crate) fn number(text: &str) -> Result<u64, Fault> {
    text.parse::<u64>()
        .map_err(|_| Fault::InvalidParameterValue)
}

/// The time of so many milliseconds.
pub(crate) fn moment(text: &str) -> Result<Moment, Fault> {
    Moment::new(number(text)?).ok_or(Fault::InvalidParameterValue)
}

/// The command that a text says: `send` a body, `policy` with the uid of a target, 0 for none, `receive`, `look` or
/// `close`.
pub(crate) fn command(alloc: Global, text: &str) -> Result<Command, Fault> {
    let (verb, rest) = text.split_once(' ').unwrap_or((text, ""));
    match verb {
        "send" => {
            let body = String::from_str(alloc, rest)?;
            let (content, delay) = (Content::new(alloc, body, Vec::new(alloc))?, None);
            Ok(Command::Send { content, delay })
        }
        "receive" => receive(None),
        "policy" => {
            let (wish, target) = policy(alloc, rest)?;
            Ok(Command::Set { wish, target })
        }
        "look" => Ok(Command::Look),
        "close" => Ok(Command::Close),
        _ => Err(Fault::UnsupportedOperation),
    }
}

/// A receive of ten messages at most.
pub(crate) fn receive(timeout: Option<Timeout>) -> Result<Command, Fault> {
    let maximum = Maximum::new(10).ok_or(Fault::InvalidParameterValue)?;
    Ok(Command::Receive { maximum, timeout })
}

/// The request of a policy, and the uid of its target, or of none, and 0.
pub(crate) fn policy(alloc: Global, target: &str) -> Result<(Wish, u64), Fault> {
    let (target, mut wish) = (number(target)?, Wish::new());
    let policy = if target == 0 { "" } else { POLICY };
    wish.put(alloc, "RedrivePolicy", policy)?;
    Ok((wish, target))
}

/// The moment that a text asks at, the command's text, and the moment until which it may wait, behind `until`; all as
/// texts.
pub(crate) fn parts(text: &str) -> (&str, &str, &str) {
    let (at, rest) = text.split_once(' ').unwrap_or((text, ""));
    let (call, until) = rest.split_once(" until ").unwrap_or((rest, at));
    (at, call, until)
}

/// Tells an answer. Of the messages that are offered the first alone is told.
pub(crate) fn tell(text: &mut String, reply: &Result<Reply, Fault>) -> Result<(), Fault> {
    match reply {
        Ok(Reply::Sent(posted)) => Ok(write!(text, "sent {}", posted.number)?),
        Ok(Reply::Received(offers)) => match offers.as_slice().first() {
            Some(offer) => tell_offer(text, offer),
            None => Ok(text.push_str("offered")?),
        },
        Ok(Reply::Looked(look)) => {
            let (visible, at) = (look.gauges.visible, look.clock.milliseconds());
            Ok(write!(text, "{visible} visible, {} entries at {at}", look.lines)?)
        }
        _ => Ok(write!(text, "{reply:?}")?),
    }
}

/// Tells an offered message: its number, its receipt, its body and when it was sent.
fn tell_offer(text: &mut String, offer: &Offer) -> Result<(), Fault> {
    let (body, at) = (offer.content.body(), offer.sent.milliseconds());
    Ok(write!(
        text,
        "offered {}.{} {body} of {at}",
        offer.number, offer.receipt
    )?)
}
