//! All that a registry tells of its queues, so that a call which found no memory can be seen to have left it.

use super::talk::tell;
use super::*;
use queue_core::QueueState;

/// A uid that no conversation reaches.
const END: u64 = 6;

/// Tells every entry of a queue's journal.
fn tell_entries(text: &mut String, queue: &QueueState, ticks: &mut Ticks) -> Result<(), Fault> {
    let journal = queue.journal();
    for place in 0..journal.len() {
        tell(text, &journal.line(place, ticks))?;
    }
    Ok(())
}

/// Tells every row of a queue, and what has happened since.
fn tell_rows(text: &mut String, queue: &QueueState) -> Result<(), Fault> {
    let (first, end) = queue.span();
    for minute in first..end {
        tell(text, &queue.row(minute))?;
    }
    tell(text, &(first, end, queue.current()))
}

/// Tells all that a queue tells but its clock.
fn tell_queue(text: &mut String, queue: &QueueState, ticks: &mut Ticks) -> Result<(), Fault> {
    let name = queue.name();
    tell(text, &(queue.uid(), name.as_text(), queue.message_count()))?;
    tell(text, &(queue.settings(), queue.gauges()))?;
    if let Some((from, target)) = queue.first_waiting() {
        tell(text, &(from.uid, from.number, target))?;
    }
    tell_entries(text, queue, ticks)?;
    tell_rows(text, queue)
}

/// The clock of the queue of a uid, where there is one.
fn clock_of(alloc: Global, house: &mut House, uid: u64, ticks: &mut Ticks) -> Option<Moment> {
    let looked = house.step(alloc, uid, Moment::zero(), &Command::Look, ticks);
    match &looked {
        Ok(Reply::Looked(look)) => Some(look.clock),
        _ => None,
    }
}

/// What all queues tell: each its clock, its settings and counts, what waits, its journal and its rows.
pub(super) fn told_by(
    alloc: Global,
    house: &mut House,
    ticks: &mut Ticks,
) -> Result<String, Fault> {
    let mut text = String::with_capacity(alloc, 20_000)?;
    for uid in 1..END {
        tell(&mut text, &clock_of(alloc, house, uid, ticks))?;
        if let Some(queue) = house.state(uid) {
            tell_queue(&mut text, queue, ticks)?;
        }
    }
    Ok(text)
}
