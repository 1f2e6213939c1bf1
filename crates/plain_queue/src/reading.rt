//! What a journal says of a queue and of its messages. A function that computes a definition of `queue_core` has
//! its name.

ghost use Rattle.std.specs.Prelude.{◌≡◌, ℕ, if◌then◌else◌, unwrap_or};
ghost use Rattle.std.specs.Option.{option_copied, option_map_or};
ghost use Rattle.queue_core.specs.Messages.{effect_of, messages, content_of, message_count, settings_of, settings_after, created_time, modified_by, modified_time, opens, first_receive_in, first_receive_time, last_receive_by, last_receive_time, course_of, waits_for, awaits_transfer, closes, is_closed};
ghost use Rattle.queue_core.specs.declared.facts.Status.TheVariants.{Waiting};
ghost use Rattle.queue_core.specs.States.{message_numbered};

use crate::begun::{births, content_behind, kept_numbered};
use crate::entries::{FirstEntries, line_at};
use crate::numbering::Messages;
use crate::states::{course_of, offers_number};
use journal::{Event, Line, Moment};
use message::Content;
use queue_config::Settings;
use queue_core::facts::{Message, Status};
use queue_core::{closes, gives_settings, settings_after};

/// How many messages there are.
pub fn message_count(lines: &FirstEntries<'_>) -> u64
    ensures { result ≡ message_count lines.now }
{
    Messages::of(lines).count() as u64
}

/// The message of a number.
pub fn message_numbered(lines: &FirstEntries<'_>, number: u64) -> Option<Message>
    ensures { result ≡ message_numbered lines.now number }
{
    Messages::of(lines).nth(number as usize)
}

/// The content of a message, which is the one of its number, unless it is gone.
pub fn content_of<'a>(lines: &FirstEntries<'a>, message: &Message) -> Option<&'a Content>
    ensures { option_copied result ≡ content_of lines.now message.now }
{
    let mut before = message.number;
    for place in 0..lines.len() {
        let event = &line_at(lines, place).event;
        let count = births(event);
        if before < count {
            return content_behind(event, before);
        }
        before -= count;
    }
    None
}

/// The settings in force.
pub fn settings_of(lines: &FirstEntries<'_>) -> Settings
    ensures { result ≡ settings_of lines.now }
{
    let mut settings = Settings::default();
    for place in 0..lines.len() {
        settings = settings_after(settings, &line_at(lines, place).event);
    }
    settings
}

/// When the queue was opened, where a line opens it or knows when.
fn created_by(line: &Line) -> Option<Moment>
    ensures { (later : ℕ) → unwrap_or result later ≡ (if opens line.now.event then line.now.at else option_map_or (λ since. since.created) (effect_of line.now.event).since later) }
{
    match &line.event {
        Event::Opened { .. } => Some(line.at),
        Event::Base(base) => Some(base.created()),
        _ => None,
    }
}

/// When the queue was opened.
pub fn created_time(lines: &FirstEntries<'_>) -> Moment
    ensures { result ≡ created_time lines.now }
{
    for place in 0..lines.len() {
        if let Some(time) = created_by(line_at(lines, place)) {
            return time;
        }
    }
    Moment::zero()
}

/// When the queue last got settings, after a line.
fn modified_by(time: Moment, line: &Line) -> Moment
    ensures { result ≡ modified_by time line.now }
{
    match &line.event {
        Event::Base(base) => base.modified(),
        event if gives_settings(event) => line.at,
        _ => time,
    }
}

/// When the queue last got settings.
pub fn modified_time(lines: &FirstEntries<'_>) -> Moment
    ensures { result ≡ modified_time lines.now }
{
    let mut time = Moment::zero();
    for place in 0..lines.len() {
        time = modified_by(time, line_at(lines, place));
    }
    time
}

/// When the message of a number was first received, by what a line tells.
fn first_receive_in(line: &Line, number: u64) -> Option<Moment>
    ensures { result ≡ first_receive_in number line.now }
{
    match &line.event {
        Event::Base(base) => kept_numbered(base, number)?.first_receive,
        event if offers_number(event, number) => Some(line.at),
        _ => None,
    }
}

/// When the message of a number was first received.
pub fn first_receive_time(lines: &FirstEntries<'_>, number: u64) -> Option<Moment>
    ensures { result ≡ first_receive_time lines.now number }
{
    for place in 0..lines.len() {
        if let Some(time) = first_receive_in(line_at(lines, place), number) {
            return Some(time);
        }
    }
    None
}

/// When the message of a number was last received, after a line.
fn last_receive_by(time: Moment, line: &Line, number: u64) -> Moment
    ensures { result ≡ last_receive_by number time line.now }
{
    match &line.event {
        Event::Base(base) => match kept_numbered(base, number) {
            Some(kept) => kept.last_receive,
            None => Moment::zero(),
        },
        event if offers_number(event, number) => line.at,
        _ => time,
    }
}

/// When the message of a number was last received, 0 where it never was.
pub fn last_receive_time(lines: &FirstEntries<'_>, number: u64) -> Moment
    ensures { result ≡ last_receive_time lines.now number }
{
    let mut time = Moment::zero();
    for place in 0..lines.len() {
        time = last_receive_by(time, line_at(lines, place), number);
    }
    time
}

/// Whether a message has left for the dead-letter queue of a uid, and the transfer is not confirmed.
pub fn waits_for(lines: &FirstEntries<'_>, target: u64, message: &Message) -> bool
    ensures { result ≡ waits_for lines.now target message.now }
{
    match course_of(lines, message).status {
        Status::Waiting { target: own } => own == target,
        _ => false,
    }
}

/// Whether a message has left, and the transfer is not confirmed.
pub fn awaits_transfer(lines: &FirstEntries<'_>, message: &Message) -> bool
    ensures { result ≡ awaits_transfer lines.now message.now }
{
    matches!(course_of(lines, message).status, Status::Waiting { .. })
}

/// Whether the queue was closed.
pub fn is_closed(lines: &FirstEntries<'_>) -> bool
    ensures { result ≡ is_closed lines.now }
{
    for place in 0..lines.len() {
        if closes(&line_at(lines, place).event) {
            return true;
        }
    }
    false
}
