//! The messages that begin with one line. A line begins one at most, but for a checkpoint: with that all begin again that
//! the queue ever had.

ghost use Rattle.std.specs.Prelude.{◌≡◌, ◌+◌, ◌*◌, false, None, option_map, slice_get, unwrap_or};
ghost use Rattle.std.specs.Option.{option_copied, option_map_or};
ghost use Rattle.queue_core.specs.Messages.{effect_of, kept_numbered, kept_birth, gone_birth, message_in, contents_in};
ghost use Rattle.queue_core.specs.declared.facts.Status.TheVariants.{Present};
ghost use Rattle.queue_core.specs.private.Tally.{births};

use journal::{Base, Event, KeptMessage, Line, Moment};
use message::Content;
use queue_core::facts::{Course, Message, Status};

/// How many messages begin with an event.
pub(crate) fn births(event: &Event<Content>) -> u64
    ensures { result ≡ births event.now }
{
    match event {
        Event::Sent { .. } | Event::Arrived { .. } => 1,
        Event::Base(base) => base.receives().len() as u64,
        _ => 0,
    }
}

/// The message of a number, where a checkpoint keeps it.
pub(crate) fn kept_numbered(base: &Base<Content>, number: u64) -> Option<&KeptMessage<Content>>
    ensures { option_copied result ≡ kept_numbered base.now number }
{
    base.messages().iter().find(|kept| kept.number == number)
}

/// A message that was not there before its line.
fn new_message(place: usize, number: u64, at: Moment, sent: Moment, delay: u16) -> Message
    ensures { result ≡ record { number = number; place = place; enqueue_time = at; first_send_time = sent; origin = None; begun = record { status = Present; due = at + 1000 * delay; returned = false }; ran_out = false } }
{
    Message {
        number,
        place,
        enqueue_time: at,
        first_send_time: sent,
        origin: None,
        begun: Course {
            status: Status::Present,
            due: at.milliseconds() + 1000 * u64::from(delay),
            returned: false,
        },
        ran_out: false,
    }
}

/// A message that a checkpoint keeps, or one that is gone.
fn old_message(place: usize, number: u64, kept: Option<&KeptMessage<Content>>) -> Message
    ensures { result ≡ message_in place number 0 (option_map_or kept_birth (option_copied kept.entry) gone_birth) }
{
    match kept {
        Some(kept) => Message {
            number,
            place,
            enqueue_time: kept.came,
            first_send_time: kept.sent,
            origin: kept.origin,
            begun: Course {
                status: match kept.target {
                    Some(target) => Status::Waiting { target },
                    None => Status::Present,
                },
                due: kept.due,
                returned: kept.is_returned,
            },
            ran_out: kept.is_expired,
        },
        None => Message {
            number,
            place,
            enqueue_time: Moment::zero(),
            first_send_time: Moment::zero(),
            origin: None,
            begun: Course {
                status: Status::Removed,
                due: 0,
                returned: false,
            },
            ran_out: false,
        },
    }
}

/// The message that begins with a line behind so many others of it, under a number.
pub(crate) fn message_of(line: &Line, place: usize, number: u64, before: u64) -> Option<Message>
    ensures { result ≡ option_map (message_in place number line.now.at) (slice_get (effect_of line.now.event).births before) }
{
    if births(&line.event) <= before {
        return None;
    }
    match &line.event {
        Event::Sent { delay, .. } => Some(new_message(place, number, line.at, line.at, *delay)),
        Event::Arrived { origin, .. } => Some(Message {
            origin: Some(*origin),
            ..new_message(place, number, line.at, origin.sent, 0)
        }),
        Event::Base(base) => Some(old_message(place, number, kept_numbered(base, before))),
        _ => None,
    }
}

/// The content of the message that begins with an event behind so many others of it, unless it is gone.
pub(crate) fn content_behind(event: &Event<Content>, before: u64) -> Option<&Content>
    ensures { option_copied result ≡ unwrap_or (slice_get (contents_in event.now) before) None }
{
    if births(event) <= before {
        return None;
    }
    match event {
        Event::Sent { content, .. } | Event::Arrived { content, .. } => Some(content),
        Event::Base(base) => match kept_numbered(base, before) {
            Some(kept) => Some(&kept.content),
            None => None,
        },
        _ => None,
    }
}
