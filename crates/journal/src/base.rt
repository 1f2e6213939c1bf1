//! What stands for the entries that a checkpoint replaced: what a queue has to know of them to go on as
//! if they were there. What one is made of is this project's own.

ghost use Rattle.std.specs.Prelude.{◌≡◌, map, IfOk, IfErr};
ghost use Rattle.journal.specs.Base.{mark_message};
ghost use Rattle.message.specs.Content.{content_size};
ghost use Rattle.message.specs.declared.fault.Fault.TheVariants.{OutOfMemory};

use crate::entry::Origin;
use crate::moment::Moment;
use message::{Content, Fault};
use queue_config::Settings;
use std::alloc::Global;
use std::marker::Model;

/// A transfer, which a queue accepts once.
#[derive(Clone, Copy, Debug, PartialEq, Eq, Hash)]
pub struct TransferKey {
    /// The uid of the queue that the message left.
    pub uid: u64,
    /// Its number there.
    pub number: u64,
}

/// A message that was live, or waited for a dead-letter queue, when a checkpoint was made. `C` stands for
/// its content.
#[derive(Debug, Drop)]
pub struct KeptMessage<C> {
    /// Its number in this queue, from 0 on.
    pub number: u64,
    /// When it came to this queue.
    pub came: Moment,
    /// When it was first sent, to this queue or to the one that it came from.
    pub sent: Moment,
    /// From when on it is to be offered, in milliseconds: a number, since it can be later than any
    /// [`Moment`].
    pub due: u64,
    /// Whether its retention had run out. That can be so only of one that waits for a dead-letter queue.
    pub is_expired: bool,
    /// Whether it left for a dead-letter queue and came back.
    pub is_returned: bool,
    /// When it was first received here; `None` where it never was.
    pub first_receive: Option<Moment>,
    /// When it was last received here; the time 0 where it never was.
    pub last_receive: Moment,
    /// Where it came from; `None` where it was sent here.
    pub origin: Option<Origin>,
    /// Its content, or what stands for that.
    pub content: C,
    /// The uid of the dead-letter queue that it waits for; `None` where it is live.
    pub target: Option<u64>,
}

/// What had happened in a minute. The metrics above this crate say what each number is counted by.
#[derive(Clone, Copy, Debug, PartialEq, Eq)]
pub struct KeptFlows {
    /// Messages sent here.
    pub sent: u64,
    /// Their sizes, added up, in bytes.
    pub sent_size: u64,
    /// Messages offered by receives.
    pub received: u64,
    /// Receives that offered nothing.
    pub empty_receives: u64,
    /// Deletes that succeeded.
    pub deleted: u64,
    /// Requests that the queue itself refused.
    pub refused: u64,
    /// Messages that arrived from other queues.
    pub dead_letters_arrived: u64,
}

/// The metrics of a minute that was over.
#[derive(Clone, Copy, Debug, PartialEq, Eq)]
pub struct KeptRow {
    /// Minutes since the moment 0.
    pub minute: u64,
    /// What had happened in it.
    pub flows: KeptFlows,
    /// Messages visible at its end.
    pub visible: u64,
    /// Messages delayed at its end.
    pub delayed: u64,
    /// Messages in flight at its end.
    pub in_flight: u64,
    /// The age of the oldest message at its end, in seconds.
    pub age: u64,
}

/// What stands for the entries that a checkpoint replaced. It does not change. Contracts see it as its
/// parts, each vector as the list in it. `C` stands for the content of a message.
#[derive(Debug, Drop)]
pub struct Base<C> {
    parts: Box<Parts<C>>,
}

/// What a [`Base`] is made of.
#[derive(Debug, Drop)]
pub struct Parts<C> {
    /// The queue's uid.
    pub uid: u64,
    /// The settings in force.
    pub settings: Settings,
    /// When the queue was opened.
    pub created: Moment,
    /// When the queue last got settings: when it was opened, where it got none since.
    pub modified: Moment,
    /// How often each message was received that the queue ever had, by number.
    pub receives: Vec<u64>,
    /// The transfers that the queue had accepted, in the order in which it accepted them.
    pub accepted: Vec<TransferKey>,
    /// The messages that were live, by number, and then those that waited for a dead-letter queue, in the
    /// order in which they left.
    pub messages: Vec<KeptMessage<C>>,
    /// The metrics of the minutes that were over, as far as they are shown, the oldest first.
    pub rows: Vec<KeptRow>,
    /// What had happened in the minute that was not over.
    pub flows: KeptFlows,
}

impl<C> Model for Base<C> {
    ghost use Rattle.journal.specs.Base.{BaseOf};

    ghost Value = { BaseOf C };

    ghost use Rattle.journal.specs.BaseParts.{base_in};

    ghost view = { λ b. base_in b.parts.value };
}

impl<C: Drop> Base<C> {
    ghost use Rattle.journal.specs.BaseParts.{base_in};

    /// The one of these parts. `OutOfMemory` is the only refusal; the parts are then dropped.
    pub fn new(alloc: Global, parts: Parts<C>) -> Result<Base<C>, Fault>
        ensures ok { IfOk result (λ base. base ≡ base_in parts) }
        ensures errors { IfErr result (λ fault. fault ≡ OutOfMemory) }
    {
        Ok(Base {
            parts: Box::new(alloc, parts)?,
        })
    }
}

impl<C> Base<C> {
    /// The queue's uid.
    pub fn uid(&self) -> u64
        ensures { result ≡ self.now.uid }
    {
        self.parts.uid
    }

    /// The settings in force.
    pub fn settings(&self) -> Settings
        ensures { result ≡ self.now.settings }
    {
        self.parts.settings
    }

    /// When the queue was opened.
    pub fn created(&self) -> Moment
        ensures { result ≡ self.now.created }
    {
        self.parts.created
    }

    /// When the queue last got settings.
    pub fn modified(&self) -> Moment
        ensures { result ≡ self.now.modified }
    {
        self.parts.modified
    }

    /// How often each message was received that the queue ever had, by number.
    pub fn receives(&self) -> &[u64]
        ensures { result.now ≡ self.now.receives }
    {
        self.parts.receives.as_slice()
    }

    /// The transfers that the queue had accepted, in the order in which it accepted them.
    pub fn accepted(&self) -> &[TransferKey]
        ensures { result.now ≡ self.now.accepted }
    {
        self.parts.accepted.as_slice()
    }

    /// The messages that were live, by number, and then those that waited for a dead-letter queue, in the
    /// order in which they left.
    pub fn messages(&self) -> &[KeptMessage<C>]
        ensures { result.now ≡ self.now.messages }
    {
        self.parts.messages.as_slice()
    }

    /// The metrics of the minutes that were over, as far as they are shown, the oldest first.
    pub fn rows(&self) -> &[KeptRow]
        ensures { result.now ≡ self.now.rows }
    {
        self.parts.rows.as_slice()
    }

    /// What had happened in the minute that was not over.
    pub fn flows(&self) -> KeptFlows
        ensures { result ≡ self.now.flows }
    {
        self.parts.flows
    }
}

impl Base<Content> {
    ghost use Rattle.journal.specs.Base.{mark_base};

    /// The same, with the sizes of the contents in their place. `OutOfMemory` is the only refusal.
    pub(crate) fn mark(&self, alloc: Global) -> Result<Base<u64>, Fault>
        ensures ok { IfOk result (λ base. base ≡ mark_base content_size self.now) }
        ensures errors { IfErr result (λ fault. fault ≡ OutOfMemory) }
    {
        let parts = &self.parts;
        let receives = Vec::from_slice(alloc, parts.receives.as_slice())?;
        let accepted = Vec::from_slice(alloc, parts.accepted.as_slice())?;
        let rows = Vec::from_slice(alloc, parts.rows.as_slice())?;
        let messages = marks_of(alloc, parts.messages.as_slice())?;
        let parts = Parts {
            uid: parts.uid,
            settings: parts.settings,
            created: parts.created,
            modified: parts.modified,
            receives,
            accepted,
            messages,
            rows,
            flows: parts.flows,
        };
        Base::new(alloc, parts)
    }
}

impl KeptMessage<Content> {
    /// The same, with the size of the content in its place.
    fn mark(&self) -> KeptMessage<u64>
        ensures { result ≡ mark_message content_size self.now }
    {
        KeptMessage {
            number: self.number,
            came: self.came,
            sent: self.sent,
            due: self.due,
            is_expired: self.is_expired,
            is_returned: self.is_returned,
            first_receive: self.first_receive,
            last_receive: self.last_receive,
            origin: self.origin,
            content: self.content.size(),
            target: self.target,
        }
    }
}

/// The same messages, with the sizes of the contents in their place. `OutOfMemory` is the only refusal.
#[tactic(auto, using(std::proofs::lemmas::List::map_more))]
fn marks_of(
    alloc: Global,
    messages: &[KeptMessage<Content>],
) -> Result<Vec<KeptMessage<u64>>, Fault>
    ensures ok { IfOk result (λ marks. marks.items ≡ map (mark_message content_size) messages.now) }
    ensures errors { IfErr result (λ fault. fault ≡ OutOfMemory) }
{
    let mut marks = Vec::with_capacity(alloc, messages.len())?;
    for message in messages {
        marks.push_reserved(message.mark());
    }
    Ok(marks)
}
