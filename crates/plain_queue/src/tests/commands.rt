//! Queues and commands, read from the lines of scripts.

use journal::{Moment, Origin};
use message::{Content, Fault, MessageId, QueueName};
use queue_config::{AlarmRule, Limits, Metric, Operator, Settings, Wish};
use queue_core::{Command, Delay, Maximum, Parcel, QueueState, TimedCommand, Timeout};
use receipt_handle::Handle;
use std::alloc::Global;

/// The uid of each queue.
pub(super) const UID: u64 = 2;

/// The most messages in flight.
pub(super) const MOST_IN_FLIGHT: u64 = 4;

/// The first word of a text, and what stands behind it.
fn first_word(text: &str) -> (&str, &str) {
    text.split_once(' ').unwrap_or((text, ""))
}

/// The number that a text is, and 0 where it is none.
fn number(text: &str) -> u64 {
    text.parse::<u64>().unwrap_or(0)
}

/// The time of the milliseconds that a text is.
fn moment(text: &str) -> Result<Moment, Fault> {
    Moment::new(number(text)).ok_or(Fault::UnsupportedOperation)
}

/// A request of one attribute.
fn wish(alloc: Global, name: &str, value: &str) -> Result<Wish, Fault> {
    let mut wish = Wish::new();
    wish.put(alloc, name, value)?;
    Ok(wish)
}

/// The content of a text, without attributes.
fn content(alloc: Global, text: &str) -> Result<Content, Fault> {
    Content::new(alloc, text.to_string(alloc)?, Vec::new(alloc))
}

/// The handle of a message of the queue: its number and a receipt, with a point between them.
fn handle(text: &str) -> Handle {
    let (message, receipt) = text.split_once('.').unwrap_or((text, ""));
    Handle {
        uid: UID,
        number: number(message),
        receipt: number(receipt),
    }
}

/// Where the dead letter of a number of another queue comes from.
pub(super) fn origin(number: u64, sent: Moment) -> Result<Origin, Fault> {
    Ok(Origin {
        uid: 7,
        number,
        name: QueueName::read("other")?,
        id: MessageId { uid: 6, number },
        sent,
    })
}

/// A dead letter for the queue.
fn dead_letter(alloc: Global, letter: &str, sent: &str) -> Result<Parcel, Fault> {
    Ok(Parcel {
        origin: origin(number(letter), moment(sent)?)?,
        target: UID,
        content: content(alloc, letter)?,
    })
}

/// The command that a text says: `send` a text, after a delay or the queue's own, `receive` so many for a
/// timeout or the queue's own, `change` a handle to a timeout, `delete` a handle, `purge`, `set` an attribute
/// to a value, `arrive` with a dead letter's number and the time at which it was sent, `settle` a number,
/// `orphan` a uid, `close`, the first `parcel`, or else a look.
fn command(alloc: Global, text: &str) -> Result<Command, Fault> {
    let (verb, rest) = first_word(text);
    let (first, second) = first_word(rest);
    let timeout = Timeout::new(second.parse::<u32>().unwrap_or(u32::MAX));
    Ok(match verb {
        "send" => Command::Send {
            content: content(alloc, first)?,
            delay: Delay::new(second.parse::<u16>().unwrap_or(u16::MAX)),
        },
        "receive" => Command::Receive {
            maximum: Maximum::new(first.parse::<u8>().unwrap_or(0)).ok_or(
                Fault::InvalidParameterValue,
            )?,
            timeout,
        },
        "change" => Command::Change {
            handle: handle(first),
            timeout: timeout.ok_or(Fault::InvalidParameterValue)?,
        },
        "delete" => Command::Delete {
            handle: handle(first),
        },
        "purge" => Command::Purge,
        "set" => Command::Set {
            wish: wish(alloc, first, second)?,
            target: 1,
        },
        "arrive" => Command::Arrive {
            parcel: dead_letter(alloc, first, second)?,
        },
        "settle" => Command::Settle {
            number: number(first),
        },
        "orphan" => Command::Orphan {
            target: number(first),
        },
        "close" => Command::Close,
        "parcel" => Command::FirstParcel,
        _ => Command::Look,
    })
}

/// The moment and the command that a line says.
pub(super) fn step(alloc: Global, line: &str) -> Result<TimedCommand, Fault> {
    let (at, call) = first_word(line);
    let at = moment(at)?;
    let command = command(alloc, call)?;
    Ok(TimedCommand { at, command })
}

/// The rule of the queue's alarm, which is on where more than one message was visible in two of the last three
/// minutes.
pub(super) fn rule() -> Result<AlarmRule, Fault> {
    Ok(AlarmRule {
        name: QueueName::read("deep")?,
        metric: Metric::ApproximateNumberOfMessagesVisible,
        operator: Operator::GreaterThanThreshold,
        threshold: 1,
        minutes: 3,
        breaches: 2,
    })
}

/// The queue `jobs` that a line says: when it is opened, an attribute and its value. Its journal may weigh so much.
/// The dead-letter queue that a policy names has the uid 1.
pub(super) fn open(alloc: Global, line: &str, most_lines: u32) -> Result<QueueState, Fault> {
    let (at, attribute) = first_word(line);
    let (name, value) = first_word(attribute);
    let settings = Settings::default().with(&wish(alloc, name, value)?, 1);
    let limits = Limits {
        max_lines: most_lines.clamp(1, 16_777_216),
        in_flight: MOST_IN_FLIGHT as u32,
    };
    let (at, name) = (moment(at)?, QueueName::read("jobs")?);
    let mut rules = Vec::new(alloc);
    rules.push(rule()?)?;
    QueueState::open(alloc, UID, name, settings, limits, rules, at)
}
