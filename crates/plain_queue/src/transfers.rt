//! What a journal says of dead letters. A function that computes a definition of `queue_core` has its name.

ghost use Rattle.std.specs.Prelude.{◌≡◌, not, map, flat_map, option_to_list, drop, slice_get, count_by};
ghost use Rattle.std.specs.List.{list_any, find};
ghost use Rattle.queue_core.specs.Messages.{messages, waits_for, kept_transfer, departures, ends_transfer, pending_transfers, accepts, has_accepted};

use crate::entries::{FirstEntries, line_at};
use crate::numbering::Messages;
use crate::reading::waits_for;
use journal::{Event, KeptMessage};
use message::Content;
use queue_core::facts::Transfer;

/// Whether an event ends a transfer.
fn ends_transfer(transfer: Transfer, event: &Event<Content>) -> bool
    ensures { result ≡ ends_transfer transfer event.now }
{
    match event {
        Event::Settled { number } => *number == transfer.number,
        Event::Orphaned { target } => *target == transfer.target,
        Event::Closed => true,
        _ => false,
    }
}

/// Whether an entry from a place on ends a transfer.
fn is_ended_from(lines: &FirstEntries<'_>, from: usize, transfer: Transfer) -> bool
    ensures { result ≡ list_any (λ later. ends_transfer transfer later.event) (drop from lines.now) }
{
    for place in from..lines.len() {
        if ends_transfer(transfer, &line_at(lines, place).event) {
            return true;
        }
    }
    false
}

/// The first transfer that an event begins, or knows of, and no entry from a place on ends.
fn first_begun(lines: &FirstEntries<'_>, from: usize, event: &Event<Content>) -> Option<Transfer>
    ensures { result ≡ find (λ t. not (list_any (λ later. ends_transfer t later.event) (drop from lines.now))) (departures event.now) }
{
    match event {
        Event::Received {
            leaving,
            target,
            ..
        } => first_open(lines, from, leaving.as_slice(), *target),
        Event::Base(base) => first_kept(lines, from, base.messages()),
        _ => None,
    }
}

/// The first of the messages that leave for the dead-letter queue of a uid whose transfer no entry from
/// a place on ends.
fn first_open(
    lines: &FirstEntries<'_>,
    from: usize,
    leaving: &[u64],
    target: u64,
) -> Option<Transfer>
    ensures { result ≡ find (λ t. not (list_any (λ later. ends_transfer t later.event) (drop from lines.now)))
        (map (λ number. record { number = number; target = target }) leaving.now) }
{
    leaving
        .iter()
        .map(|number| Transfer {
            number: *number,
            target,
        })
        .find(|transfer| !is_ended_from(lines, from, *transfer))
}

/// The first of the messages of a checkpoint that waits for a dead-letter queue by a transfer that no entry from a
/// place on ends.
fn first_kept(
    lines: &FirstEntries<'_>,
    from: usize,
    messages: &[KeptMessage<Content>],
) -> Option<Transfer>
    ensures { result ≡ find (λ t. not (list_any (λ later. ends_transfer t later.event) (drop from lines.now)))
        (flat_map (λ m. option_to_list (kept_transfer m)) messages.now) }
{
    for message in messages {
        if let Some(transfer) = open_transfer(lines, from, message) {
            return Some(transfer);
        }
    }
    None
}

/// The transfer that a kept message waits for, where no entry from a place on ends it.
fn open_transfer(
    lines: &FirstEntries<'_>,
    from: usize,
    message: &KeptMessage<Content>,
) -> Option<Transfer>
    ensures { result ≡ find (λ t. not (list_any (λ later. ends_transfer t later.event) (drop from lines.now))) (option_to_list (kept_transfer message.now)) }
{
    let transfer = Transfer {
        number: message.number,
        target: message.target?,
    };
    if is_ended_from(lines, from, transfer) {
        None
    } else {
        Some(transfer)
    }
}

/// The first transfer that is not confirmed.
pub fn first_transfer(lines: &FirstEntries<'_>) -> Option<Transfer>
    ensures { result ≡ slice_get (pending_transfers lines.now) 0 }
{
    for place in 0..lines.len() {
        let event = &line_at(lines, place).event;
        if let Some(transfer) = first_begun(lines, place + 1, event) {
            return Some(transfer);
        }
    }
    None
}

/// Whether an event accepts the transfer of the message of a number from the queue of a uid.
fn accepts(uid: u64, number: u64, event: &Event<Content>) -> bool
    ensures { result ≡ accepts uid number event.now }
{
    match event {
        Event::Arrived { origin, .. } => origin.uid == uid && origin.number == number,
        Event::Base(base) => base
            .accepted()
            .iter()
            .any(|key| key.uid == uid && key.number == number),
        _ => false,
    }
}

/// Whether the transfer of the message of a number from the queue of a uid was accepted.
pub fn has_accepted(lines: &FirstEntries<'_>, uid: u64, number: u64) -> bool
    ensures { result ≡ has_accepted lines.now uid number }
{
    for place in 0..lines.len() {
        if accepts(uid, number, &line_at(lines, place).event) {
            return true;
        }
    }
    false
}

/// How many messages wait for the dead-letter queue of a uid.
pub fn waiting_count(lines: &FirstEntries<'_>, target: u64) -> u64
    ensures { result ≡ count_by (λ m. waits_for lines.now target m) (messages lines.now) }
{
    Messages::of(lines)
        .filter(|message| waits_for(lines, target, message))
        .count() as u64
}
