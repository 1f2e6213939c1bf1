//! What became of a message, and what stands in a queue at a time. A function that computes a definition of
//! `queue_core` has its name.

ghost use Rattle.std.specs.Prelude.{◌≡◌, ◌-◌, ◌/◌, ◌&&◌};
ghost use Rattle.std.specs.List.{find};
ghost use Rattle.queue_core.specs.Messages.{messages, closes_period, runs_out_in, is_expired, contains_number, offers_number, receives_in, receive_count, loses, status_after, returns, due_after, course_after, course_of, due_time, is_present, is_returned};
ghost use Rattle.queue_core.specs.declared.facts.Status.TheVariants.{Present, Waiting};
ghost use Rattle.queue_core.specs.States.{is_live, has_age, state_of, is_in_state, count_in_state, oldest_age, gauges_of};

use crate::entries::{FirstEntries, line_at};
use crate::numbering::Messages;
use journal::{Event, Line, Moment, Numbers};
use message::Content;
use metric_window::Gauges;
use queue_config::Settings;
use queue_core::facts::{Course, Message, MessageState, Status};
use queue_core::{closes, settings_after};

/// Whether an event ends a retention period.
fn closes_period(event: &Event<Content>) -> bool
    ensures { result ≡ closes_period event.now }
{
    matches!(event, Event::Set { .. })
}

/// Whether the message's retention runs out in a period of these settings, which ends at a time, by
/// the entry at a place.
fn runs_out_in(message: &Message, settings: Settings, end: Moment, closing: usize) -> bool
    ensures { result
        ≡ runs_out_in message.now (record { retention = settings.retention_seconds; end = end; closing = closing }) }
{
    let retention = 1000 * u64::from(settings.retention_seconds);
    let last = message.first_send_time.milliseconds() + retention;
    message.place < closing && last <= end.milliseconds()
}

/// Whether a line ends a retention period in which the message's retention runs out.
fn runs_out_at(message: &Message, settings: Settings, line: &Line, place: usize) -> bool
    ensures { result
        ≡ (closes_period line.now.event && runs_out_in message.now (record { retention = settings.retention_seconds; end = line.now.at; closing = place })) }
{
    closes_period(&line.event) && runs_out_in(message, settings, line.at, place)
}

/// Whether the message's retention has run out.
fn is_expired(lines: &FirstEntries<'_>, clock: Moment, message: &Message) -> bool
    ensures { result ≡ is_expired lines.now clock message.now }
{
    if message.ran_out {
        return true;
    }
    let mut settings = Settings::default();
    for place in 0..lines.len() {
        let line = line_at(lines, place);
        if runs_out_at(message, settings, line, place) {
            return true;
        }
        settings = settings_after(settings, &line.event);
    }
    runs_out_in(message, settings, clock, lines.len())
}

/// Whether a number is in the list.
fn contains_number(numbers: &Numbers, number: u64) -> bool
    ensures { result ≡ contains_number number numbers.now }
{
    numbers.as_slice().iter().any(|other| *other == number)
}

/// Whether an event offers the message of a number.
pub fn offers_number(event: &Event<Content>, number: u64) -> bool
    ensures { result ≡ offers_number number event.now }
{
    match event {
        Event::Received { offered, .. } => contains_number(offered, number),
        _ => false,
    }
}

/// How many receives of the message of a number an event tells of.
fn receives_in(event: &Event<Content>, number: u64) -> u64
    ensures { result ≡ receives_in number event.now }
{
    match event {
        Event::Base(base) => match base.receives().get(number as usize) {
            Some(count) => *count,
            None => 0,
        },
        _ => u64::from(offers_number(event, number)),
    }
}

/// How often the message of a number was received, up to 2^64 - 1.
pub fn receive_count(lines: &FirstEntries<'_>, number: u64) -> u64
    ensures { result ≡ receive_count lines.now number }
{
    let mut count: u64 = 0;
    for place in 0..lines.len() {
        count = count.saturating_add(receives_in(&line_at(lines, place).event, number));
    }
    count
}

/// Where a message that is there stands after an event.
fn present_after(number: u64, event: &Event<Content>) -> Status
    ensures { result ≡ status_after number Present event.now }
{
    match event {
        Event::Deleted { number: deleted } if *deleted == number => Status::Removed,
        Event::Purged | Event::Closed => Status::Removed,
        Event::Received {
            leaving,
            target,
            ..
        } if contains_number(leaving, number) => Status::Waiting { target: *target },
        _ => Status::Present,
    }
}

/// Where a message that waits for the dead-letter queue of a uid stands after an event.
fn waiting_after(number: u64, target: u64, event: &Event<Content>) -> Status
    ensures { result ≡ status_after number (Waiting target) event.now }
{
    match event {
        Event::Orphaned { target: lost } if *lost == target => Status::Present,
        Event::Settled { number: settled } if *settled == number => Status::Transferred,
        Event::Closed => Status::Removed,
        _ => Status::Waiting { target },
    }
}

/// Where the message of a number stands after an event.
fn status_after(number: u64, status: Status, event: &Event<Content>) -> Status
    ensures { result ≡ status_after number status event.now }
{
    match status {
        Status::Present => present_after(number, event),
        Status::Waiting { target } => waiting_after(number, target, event),
        Status::Transferred if closes(event) => Status::Removed,
        Status::Transferred | Status::Removed => status,
    }
}

/// Whether an event says that the dead-letter queue of a uid is gone.
fn loses(target: u64, event: &Event<Content>) -> bool
    ensures { result ≡ loses target event.now }
{
    match event {
        Event::Orphaned { target: lost } => *lost == target,
        _ => false,
    }
}

/// Whether an event brings back a message that stands so.
fn returns(status: Status, event: &Event<Content>) -> bool
    ensures { result ≡ returns status event.now }
{
    match status {
        Status::Waiting { target } => loses(target, event),
        _ => false,
    }
}

/// When the message of a number is due, in milliseconds, after an event at a time which does not
/// bring it back.
fn due_after(number: u64, due: u64, at: Moment, event: &Event<Content>) -> u64
    ensures { result ≡ due_after number due at event.now }
{
    let at = at.milliseconds();
    match event {
        Event::Received {
            timeout,
            offered,
            ..
        } if contains_number(offered, number) => at + 1000 * u64::from(*timeout),
        Event::Changed {
            number: changed,
            timeout,
        } if *changed == number => at + 1000 * u64::from(*timeout),
        _ => due,
    }
}

/// What has become of the message of a number after a line.
fn course_after(number: u64, course: Course, line: &Line) -> Course
    ensures { result ≡ course_after number course line.now }
{
    let back = returns(course.status, &line.event);
    Course {
        status: status_after(number, course.status, &line.event),
        due: if back {
            line.at.milliseconds()
        } else {
            due_after(number, course.due, line.at, &line.event)
        },
        returned: back || course.returned,
    }
}

/// What has become of a message.
pub fn course_of(lines: &FirstEntries<'_>, message: &Message) -> Course
    ensures { result ≡ course_of lines.now message.now }
{
    let mut course = message.begun;
    for place in message.place..lines.len() {
        course = course_after(message.number, course, line_at(lines, place));
    }
    course
}

/// When a message is to be offered next, in milliseconds.
pub fn due_time(lines: &FirstEntries<'_>, message: &Message) -> u64
    ensures { result ≡ due_time lines.now message.now }
{
    course_of(lines, message).due
}

/// Whether a message was neither removed nor has left.
fn is_present(lines: &FirstEntries<'_>, message: &Message) -> bool
    ensures { result ≡ is_present lines.now message.now }
{
    matches!(course_of(lines, message).status, Status::Present)
}

/// Whether a message left and came back.
fn is_returned(lines: &FirstEntries<'_>, message: &Message) -> bool
    ensures { result ≡ is_returned lines.now message.now }
{
    course_of(lines, message).returned
}

/// Whether a message was neither removed nor has left nor has expired.
pub fn is_live(lines: &FirstEntries<'_>, clock: Moment, message: &Message) -> bool
    ensures { result ≡ is_live lines.now clock message.now }
{
    is_present(lines, message) && !is_expired(lines, clock, message)
}

/// The state of a message, where it is live.
fn state_of(lines: &FirstEntries<'_>, clock: Moment, message: &Message) -> Option<MessageState>
    ensures { result ≡ state_of lines.now clock message.now }
{
    if !is_live(lines, clock, message) {
        return None;
    }
    if due_time(lines, message) <= clock.milliseconds() {
        Some(MessageState::Visible)
    } else if receive_count(lines, message.number) == 0 && !is_returned(lines, message) {
        Some(MessageState::Delayed)
    } else {
        Some(MessageState::InFlight)
    }
}

/// Whether a message is in the state.
pub fn is_in_state(
    state: MessageState,
    lines: &FirstEntries<'_>,
    clock: Moment,
    message: &Message,
) -> bool
    ensures { result ≡ is_in_state state lines.now clock message.now }
{
    match state_of(lines, clock, message) {
        None => false,
        Some(MessageState::Visible) => matches!(state, MessageState::Visible),
        Some(MessageState::Delayed) => matches!(state, MessageState::Delayed),
        Some(MessageState::InFlight) => matches!(state, MessageState::InFlight),
    }
}

/// How many messages are in the state.
pub fn count_in_state(state: MessageState, lines: &FirstEntries<'_>, clock: Moment) -> u64
    ensures { result ≡ count_in_state state lines.now clock }
{
    Messages::of(lines)
        .filter(|message| is_in_state(state, lines, clock, message))
        .count() as u64
}

/// Whole seconds from one time to a later one.
fn seconds_between(from: Moment, to: Moment) -> u64
    ensures { result ≡ (to - from) / 1000 }
{
    to.milliseconds().saturating_sub(from.milliseconds()) / 1000
}

/// Whether a message's age is looked at: it is live, and was received fewer than three times.
fn has_age(lines: &FirstEntries<'_>, clock: Moment, message: &Message) -> bool
    ensures { result ≡ has_age lines.now clock message.now }
{
    is_live(lines, clock, message) && receive_count(lines, message.number) < 3
}

/// The first message whose age is looked at.
fn oldest_message(lines: &FirstEntries<'_>, clock: Moment) -> Option<Message>
    ensures { result ≡ find (λ m. has_age lines.now clock m) (messages lines.now) }
{
    Messages::of(lines).find(|message| has_age(lines, clock, message))
}

/// Whole seconds since the first message came whose age is looked at, 0 where there is none.
fn oldest_age(lines: &FirstEntries<'_>, clock: Moment) -> u64
    ensures { result ≡ oldest_age lines.now clock }
{
    match oldest_message(lines, clock) {
        Some(message) => seconds_between(message.enqueue_time, clock),
        None => 0,
    }
}

/// The counts and the age at a time.
pub fn gauges_of(lines: &FirstEntries<'_>, clock: Moment) -> Gauges
    ensures { result ≡ gauges_of lines.now clock }
{
    Gauges {
        visible: count_in_state(MessageState::Visible, lines, clock),
        delayed: count_in_state(MessageState::Delayed, lines, clock),
        in_flight: count_in_state(MessageState::InFlight, lines, clock),
        age: oldest_age(lines, clock),
    }
}
