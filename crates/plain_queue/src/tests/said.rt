//! What the entries of a journal say of a queue, and of the answer to a command.

use super::commands::{MOST_IN_FLIGHT, UID};
use crate::{
    FirstEntries, awaits_transfer, content_of, created_time, first_receive_time, first_transfer,
    gauges_of, has_accepted, is_closed, is_in_state, last_receive_time, message_count,
    message_numbered, modified_time, numbers_of, receive_count, receive_order, row_of, settings_of,
    waiting_count,
};
use journal::{Event, Moment, Numbers, Origin};
use message::{Fault, MessageId, QueueName};
use metric_window::{Row, window_of};
use queue_core::facts::{Candidate, Message, MessageState};
use queue_core::{Arrival, Command, Look, Offer, Reply};
use receipt_handle::Handle;
use std::alloc::Global;

/// How much the entries weigh: 1 each, and a checkpoint, which stands first, 1 more for each message that it keeps.
fn weight_of(lines: &FirstEntries<'_>) -> u64 {
    let kept = match lines.get(0).map(|line| &line.event) {
        Some(Event::Base(base)) => base.messages().len() as u64,
        _ => 0,
    };
    kept.saturating_add(lines.len() as u64)
}

/// What a look tells.
pub(super) fn look_of(lines: &FirstEntries<'_>, clock: Moment) -> Look {
    Look {
        gauges: gauges_of(lines, clock),
        settings: settings_of(lines),
        created: created_time(lines),
        modified: modified_time(lines),
        lines: weight_of(lines),
        clock,
        closed: is_closed(lines),
    }
}

/// The id of a message: its own, or that which it had in its first queue.
fn id_of(message: &Message) -> MessageId {
    match message.origin {
        Some(origin) => origin.id,
        None => MessageId {
            uid: UID,
            number: message.number,
        },
    }
}

/// Where the dead letter comes from that has waited longest, and the uid of the queue that it is for.
pub(super) fn first_waiting_of(lines: &FirstEntries<'_>) -> Result<Option<(Origin, u64)>, Fault> {
    let name = QueueName::read("jobs")?;
    let Some(transfer) = first_transfer(lines) else {
        return Ok(None);
    };
    Ok(message_numbered(lines, transfer.number).map(|message| {
        let origin = Origin {
            uid: UID,
            number: message.number,
            name,
            id: id_of(&message),
            sent: message.first_send_time,
        };
        (origin, transfer.target)
    }))
}

/// The metrics of each minute that has a row.
pub(super) fn rows_of(
    alloc: Global,
    lines: &FirstEntries<'_>,
    clock: Moment,
) -> Result<Vec<Row>, Fault> {
    let (first, end) = window_of(created_time(lines), clock);
    let mut rows = Vec::new(alloc);
    for minute in first..end {
        rows.extend(row_of(lines, clock, minute))?;
    }
    Ok(rows)
}

/// What a receive does: the messages that it offers and those that leave, each in order.
#[derive(Drop)]
struct Scan {
    offered: Vec<Candidate>,
    leaving: Vec<Candidate>,
}

/// What a receive does at a time: it goes through the visible messages in order, until so many are offered or
/// 100 leave.
fn scanned(
    alloc: Global,
    lines: &FirstEntries<'_>,
    clock: Moment,
    limit: usize,
) -> Result<Scan, Fault> {
    let policy = settings_of(lines).redrive_policy;
    let most = policy.map_or(u64::MAX, |policy| u64::from(policy.max_receive_count));
    let mut offered = Vec::new(alloc);
    let mut leaving = Vec::new(alloc);
    let order = receive_order(alloc, lines, clock)?;
    for candidate in order.as_slice() {
        if limit <= offered.len() || 100 <= leaving.len() {
            return Ok(Scan { offered, leaving });
        }
        if most <= receive_count(lines, candidate.message.number) {
            leaving.push(*candidate)?;
        } else {
            offered.push(*candidate)?;
        }
    }
    Ok(Scan { offered, leaving })
}

/// The offer of a message at a time, with its content.
fn offer_of(
    lines: &FirstEntries<'_>,
    clock: Moment,
    message: &Message,
) -> Result<Option<Offer>, Fault> {
    let Some(content) = content_of(lines, message) else {
        return Ok(None);
    };
    Ok(Some(Offer {
        number: message.number,
        receipt: receive_count(lines, message.number).saturating_add(1),
        id: id_of(message),
        sent: message.first_send_time,
        first_receive: first_receive_time(lines, message.number).unwrap_or(clock),
        source: message.origin.map(|origin| origin.name),
        content: content.share()?,
    }))
}

/// The text of offers, and of the numbers of the messages that leave.
fn text_of(alloc: Global, offers: &[Offer], leaving: &Numbers) -> Result<String, Fault> {
    Ok(format!(in alloc; "{offers:?} {leaving:?}")?)
}

/// The same of the offers that answered a receive, whose entry is the last one.
pub(super) fn tell_received(
    alloc: Global,
    lines: &FirstEntries<'_>,
    offers: &[Offer],
) -> Result<String, Fault> {
    let none = Numbers::new(alloc);
    let last = lines.get(lines.len().saturating_sub(1));
    match last.map(|line| &line.event) {
        Some(Event::Received { leaving, .. }) => text_of(alloc, offers, leaving),
        _ => text_of(alloc, offers, &none),
    }
}

/// What a receive of at most so many does at a time.
fn received(
    alloc: Global,
    lines: &FirstEntries<'_>,
    clock: Moment,
    maximum: u8,
) -> Result<String, Fault> {
    let free = MOST_IN_FLIGHT.saturating_sub(gauges_of(lines, clock).in_flight);
    if free == 0 {
        return answer_text(alloc, Some(Fault::OverLimit), Reply::Done);
    }
    let limit = free.min(u64::from(maximum)) as usize;
    let scan = scanned(alloc, lines, clock, limit)?;
    let mut offers = Vec::new(alloc);
    for candidate in scan.offered {
        offers.extend(offer_of(lines, clock, &candidate.message)?)?;
    }
    let leaving = numbers_of(alloc, scan.leaving.as_slice())?;
    text_of(alloc, offers.as_slice(), &leaving)
}

/// Whether a handle was given by the queue.
fn is_given(lines: &FirstEntries<'_>, handle: &Handle) -> bool {
    let receives = receive_count(lines, handle.number);
    let is_known = handle.uid == UID && handle.number < message_count(lines);
    is_known && 1 <= handle.receipt && handle.receipt <= receives
}

/// Whether a handle is the latest one of a message in flight.
fn holds_in_flight(lines: &FirstEntries<'_>, clock: Moment, handle: &Handle) -> bool {
    match message_numbered(lines, handle.number) {
        Some(message) => {
            is_in_state(MessageState::InFlight, lines, clock, &message)
                && handle.receipt == receive_count(lines, handle.number)
        }
        None => false,
    }
}

/// Why a change is refused at a time, if it is.
fn change_refusal(
    lines: &FirstEntries<'_>,
    clock: Moment,
    handle: &Handle,
    timeout: u32,
) -> Option<Fault> {
    let last = last_receive_time(lines, handle.number).milliseconds();
    let end = clock
        .milliseconds()
        .saturating_add(1000 * u64::from(timeout));
    if !is_given(lines, handle) {
        Some(Fault::ReceiptHandleIsInvalid)
    } else if !holds_in_flight(lines, clock, handle) {
        Some(Fault::MessageNotInflight)
    } else if last.saturating_add(43_200_000) < end {
        Some(Fault::InvalidParameterValue)
    } else {
        None
    }
}

/// Whether the message of a number waits for its dead-letter queue.
fn waits(lines: &FirstEntries<'_>, number: u64) -> bool {
    match message_numbered(lines, number) {
        Some(message) => awaits_transfer(lines, &message),
        None => false,
    }
}

/// What becomes of a dead letter that arrives.
fn arrival(lines: &FirstEntries<'_>, origin: &Origin) -> Arrival {
    if has_accepted(lines, origin.uid, origin.number) {
        Arrival::Again
    } else {
        Arrival::New
    }
}

/// The text of a refusal, or else of a reply.
fn answer_text(alloc: Global, refusal: Option<Fault>, reply: Reply) -> Result<String, Fault> {
    match refusal {
        Some(fault) => Ok(format!(in alloc; "{fault:?}")?),
        None => Ok(format!(in alloc; "{reply:?}")?),
    }
}

/// How many messages are live at a time or wait for their dead-letter queue.
fn kept_count(lines: &FirstEntries<'_>, clock: Moment) -> u64 {
    let gauges = gauges_of(lines, clock);
    let hidden = gauges.delayed.saturating_add(gauges.in_flight);
    let mut count = gauges.visible.saturating_add(hidden);
    for number in 0..message_count(lines) {
        if waits(lines, number) {
            count = count.saturating_add(1);
        }
    }
    count
}

/// Whether a journal that may weigh so much is full: it weighs that, and so would a checkpoint.
pub(super) fn is_full(lines: &FirstEntries<'_>, clock: Moment, most_lines: u64) -> bool {
    most_lines <= weight_of(lines) && most_lines <= kept_count(lines, clock).saturating_add(1)
}

/// What refuses a command at a time before anything of it is asked.
fn first_refusal(lines: &FirstEntries<'_>, clock: Moment, most_lines: u64) -> Option<Fault> {
    if is_closed(lines) {
        return Some(Fault::QueueDoesNotExist);
    }
    if is_full(lines, clock, most_lines) {
        return Some(Fault::JournalFull);
    }
    None
}

/// The text of the answer to a command at a time, where the functions of this crate foresee it and the journal may
/// weigh so much.
pub(super) fn foreseen(
    alloc: Global,
    lines: &FirstEntries<'_>,
    clock: Moment,
    command: &Command,
    most_lines: u32,
) -> Result<Option<String>, Fault> {
    let refusal = first_refusal(lines, clock, u64::from(most_lines));
    let (own, reply) = match command {
        Command::Receive { maximum, .. } if refusal.is_none() => {
            return Ok(Some(received(alloc, lines, clock, maximum.messages())?));
        }
        Command::Change { handle, timeout } => (
            change_refusal(lines, clock, handle, timeout.seconds()),
            Reply::Done,
        ),
        Command::Settle { number } => (None, Reply::Settled(waits(lines, *number))),
        Command::Orphan { target } => (None, Reply::Orphaned(waiting_count(lines, *target))),
        Command::Arrive { parcel } => (None, Reply::Arrived(arrival(lines, &parcel.origin))),
        _ => return Ok(None),
    };
    Ok(Some(answer_text(alloc, refusal.or(own), reply)?))
}
