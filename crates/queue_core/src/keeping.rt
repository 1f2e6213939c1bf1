//! What a checkpoint keeps of a queue's messages.

ghost use Rattle.std.specs.Prelude.{◌≡◌, ◌++◌, option_to_list, OnOk, IfOk, IfErr};
ghost use Rattle.std.specs.List.{filter_map, range_with_len};
ghost use Rattle.message.specs.declared.fault.Fault.TheVariants.{OutOfMemory};
ghost use Rattle.queue_core.specs.private.Records.{born_in};
ghost use Rattle.queue_core.specs.private.Indexed.{waits_in, has_ended};
ghost use Rattle.queue_core.specs.private.Keeping.{kept_record, present_in, kept_in, messages_kept};

use crate::applying::after_seconds;
use crate::index::MessageIndex;
use crate::record::Record;
use crate::slot::Stay;
use journal::{KeptMessage, Moment};
use message::{Content, Fault};
use std::alloc::Global;

impl MessageIndex {
    /// The messages as a checkpoint keeps them at a time, by a retention in seconds: those that are there, by number, and behind
    /// them those that wait for a dead-letter queue, in the order in which they left. `OutOfMemory` is the only refusal.
    pub(crate) fn kept(
        &self,
        alloc: Global,
        retention: u32,
        clock: Moment,
    ) -> Result<Vec<KeptMessage<Content>>, Fault>
        ensures ok { IfOk result (λ kept. kept.items ≡ messages_kept retention clock self.now) }
        ensures errors { IfErr result (λ fault. fault ≡ OutOfMemory) }
    {
        let mut kept = Vec::new(alloc);
        self.keep_present(&mut kept, retention, clock)?;
        self.keep_left(&mut kept, retention, clock)?;
        Ok(kept)
    }

    /// Adds those that are there, by number.
    fn keep_present(
        &self,
        kept: &mut Vec<KeptMessage<Content>>,
        retention: u32,
        clock: Moment,
    ) -> Result<(), Fault>
        ensures ok { OnOk result (kept.new.items ≡ kept.old.items ++ filter_map (present_in retention clock self.now) (range_with_len 0 (born_in self.now))) }
        ensures errors { IfErr result (λ fault. fault ≡ OutOfMemory) }
    {
        for place in 0..self.receives.len() {
            let message = self.present(place as u64, retention, clock)?;
            add_some(kept, message)?;
        }
        Ok(())
    }

    /// Adds those that wait, in the order in which they left.
    fn keep_left(
        &self,
        kept: &mut Vec<KeptMessage<Content>>,
        retention: u32,
        clock: Moment,
    ) -> Result<(), Fault>
        ensures ok { OnOk result (kept.new.items ≡ kept.old.items ++ filter_map (kept_in retention clock self.now) self.now.leaving.items) }
        ensures errors { IfErr result (λ fault. fault ≡ OutOfMemory) }
    {
        for place in 0..self.leaving.len() {
            let message = self.kept_one(self.leaving[place], retention, clock)?;
            add_some(kept, message)?;
        }
        Ok(())
    }
}

impl MessageIndex {
    /// What is kept of the message of a number, where that is there.
    fn present(
        &self,
        number: u64,
        retention: u32,
        clock: Moment,
    ) -> Result<Option<KeptMessage<Content>>, Fault>
        ensures ok { IfOk result (λ message. message ≡ present_in retention clock self.now number) }
        ensures errors { IfErr result (λ fault. fault ≡ OutOfMemory) }
    {
        let Some(record) = self.records.get(&number) else {
            return Ok(None);
        };
        if waits_in(record.slot.stay).is_some() {
            return Ok(None);
        }
        Ok(Some(kept_record(number, record, retention, clock)?))
    }

    /// What is kept of the message of a number, where that is there or waits.
    fn kept_one(
        &self,
        number: u64,
        retention: u32,
        clock: Moment,
    ) -> Result<Option<KeptMessage<Content>>, Fault>
        ensures ok { IfOk result (λ message. message ≡ kept_in retention clock self.now number) }
        ensures errors { IfErr result (λ fault. fault ≡ OutOfMemory) }
    {
        let Some(record) = self.records.get(&number) else {
            return Ok(None);
        };
        Ok(Some(kept_record(number, record, retention, clock)?))
    }
}

/// Adds a message at the end, where there is one. `OutOfMemory` is the only refusal.
fn add_some(
    kept: &mut Vec<KeptMessage<Content>>,
    message: Option<KeptMessage<Content>>,
) -> Result<(), Fault>
    ensures ok { OnOk result (kept.new.items ≡ kept.old.items ++ option_to_list message) }
    ensures errors { IfErr result (λ fault. fault ≡ OutOfMemory) }
{
    if let Some(message) = message {
        kept.push(message)?;
    }
    Ok(())
}

/// The uid of the dead-letter queue that a message waits for.
fn waits_in(stay: Stay) -> Option<u64>
    ensures { result ≡ waits_in stay }
{
    match stay {
        Stay::Hidden | Stay::Shown => None,
        Stay::Left { target, .. } => Some(target),
    }
}

/// Whether a message that waits has expired by a time, by a retention in seconds.
fn has_ended(kept: &Record, retention: u32, clock: Moment) -> bool
    ensures { result ≡ has_ended retention clock kept.now.slot.stay kept.now }
{
    match kept.slot.stay {
        Stay::Hidden | Stay::Shown => false,
        Stay::Left { ran_out, .. } => {
            ran_out || after_seconds(kept.first_send_time, retention) <= clock.milliseconds()
        }
    }
}

/// What a checkpoint keeps at a time of the message of a number, with a share of its content. `OutOfMemory` is the only refusal.
fn kept_record(
    number: u64,
    kept: &Record,
    retention: u32,
    clock: Moment,
) -> Result<KeptMessage<Content>, Fault>
    ensures ok { IfOk result (λ message. message ≡ kept_record retention clock number kept.now) }
    ensures errors { IfErr result (λ fault. fault ≡ OutOfMemory) }
{
    Ok(KeptMessage {
        number,
        came: kept.enqueue_time,
        sent: kept.first_send_time,
        due: kept.slot.due,
        is_expired: has_ended(kept, retention, clock),
        is_returned: kept.slot.is_returned,
        first_receive: kept.first_receive,
        last_receive: kept.last_receive,
        origin: kept.origin,
        content: kept.content.share()?,
        target: waits_in(kept.slot.stay),
    })
}
