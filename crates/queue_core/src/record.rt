//! What is kept of one message.

ghost use Rattle.std.specs.Prelude.{◌≡◌, true, false, None, [], Ok, IfOk, IfErr, option_to_list};
ghost use Rattle.std.specs.List.{filter_map};
ghost use Rattle.message.specs.declared.fault.Fault.TheVariants.{OutOfMemory};
ghost use Rattle.queue_core.specs.declared.slot.Stay.TheVariants.{Hidden};
ghost use Rattle.queue_core.specs.Messages.{effect_of};
ghost use Rattle.queue_core.specs.private.Records.{record_of_birth};

use crate::effect::effect_of;
use crate::slot::{Slot, Stay};
use journal::{Event, Moment, Origin};
use message::{Content, Fault};

/// A message that a queue has, or that waits for a dead-letter queue.
#[derive(Debug, Drop)]
pub(crate) struct Record {
    pub content: Content,
    /// When it came to this queue.
    pub enqueue_time: Moment,
    /// When it was first sent, to this queue or the one that it came from.
    pub first_send_time: Moment,
    /// Where it came from, where it is a dead letter of another queue.
    pub origin: Option<Origin>,
    /// When it was first received here.
    pub first_receive: Option<Moment>,
    /// When it was last received here, 0 where it never was.
    pub last_receive: Moment,
    pub slot: Slot,
}

/// The record of the message that an event, which is no checkpoint, begins at a time, with a share of its content. Where it
/// begins none, no memory is wanted.
pub(crate) fn record_born(at: Moment, event: &Event<Content>) -> Result<Option<Record>, Fault>
    requires alone { (effect_of event.now).since ≡ None }
    ensures calm { (effect_of event.now).births ≡ [] → result ≡ Ok None }
    ensures ok { IfOk result (λ born. option_to_list born ≡ filter_map (record_of_birth at) (effect_of event.now).births) }
    ensures errors { IfErr result (λ fault. fault ≡ OutOfMemory) }
{
    match effect_of(event).birth {
        Some(birth) => {
            let sent = birth.origin.map_or(at, |origin| origin.sent);
            let due = at.milliseconds() + 1000 * u64::from(birth.delay);
            let content = birth.content.share()?;
            Ok(Some(new_record(content, at, sent, birth.origin, due)))
        }
        None => Ok(None),
    }
}

/// A message that was never received, with its times and where it came from.
fn new_record(
    content: Content,
    enqueue_time: Moment,
    first_send_time: Moment,
    origin: Option<Origin>,
    due: u64,
) -> Record
    ensures { result ≡ record {
      content = content;
      enqueue_time = enqueue_time;
      first_send_time = first_send_time;
      origin = origin;
      first_receive = None;
      last_receive = 0;
      slot = record { stay = Hidden; due = due; sent = first_send_time; is_fresh = true; is_returned = false; tries = 0 };
    } }
{
    Record {
        content,
        enqueue_time,
        first_send_time,
        origin,
        first_receive: None,
        last_receive: Moment::zero(),
        slot: Slot {
            stay: Stay::Hidden,
            due,
            sent: first_send_time.milliseconds(),
            is_fresh: true,
            is_returned: false,
            tries: 0,
        },
    }
}
