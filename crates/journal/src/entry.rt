//! What a journal's lines say.

ghost use Rattle.std.specs.Prelude.{◌≡◌, ◌-◌, ◌^◌, min, IfOk, IfErr};
ghost use Rattle.message.specs.Content.{content_size};
ghost use Rattle.message.specs.declared.fault.Fault.TheVariants.{OutOfMemory};

use crate::base::Base;
use crate::moment::Moment;
use crate::numbers::Numbers;
use message::{Content, Fault, MessageId, QueueName};
use queue_config::Settings;
use std::alloc::Global;

/// Where a dead letter comes from: the queue that it left, and what it keeps of its time there. The uid
/// and the number together name the transfer, which a queue accepts once.
#[derive(Clone, Copy, Debug, PartialEq, Eq)]
pub struct Origin {
    /// The uid of the queue that it left.
    pub uid: u64,
    /// Its number in that queue.
    pub number: u64,
    /// That queue's name.
    pub name: QueueName,
    /// The message's id, which a transfer keeps.
    pub id: MessageId,
    /// When it was first sent.
    pub sent: Moment,
}

/// What happened to a queue. `C` stands for the content of a message.
#[derive(Debug, Drop)]
pub enum Event<C> {
    /// The queue was opened under a uid, with its first settings. A journal begins with this, or with what
    /// stands for it and the entries after it.
    Opened {
        uid: u64,
        settings: Settings,
    },
    /// A message was sent, to be offered after a delay in seconds.
    Sent {
        delay: u16,
        content: C,
    },
    /// A dead letter of another queue came here.
    Arrived {
        origin: Origin,
        content: C,
    },
    /// Messages were received: those of the offered numbers, each for a timeout in seconds from
    /// then on. Those of the leaving numbers left for the dead-letter queue of a uid, which is 0 where
    /// the queue has none.
    Received {
        timeout: u32,
        offered: Numbers,
        leaving: Numbers,
        target: u64,
    },
    /// The message of a number is due again a timeout in seconds after this entry.
    Changed {
        number: u64,
        timeout: u32,
    },
    /// The message of a number was deleted.
    Deleted {
        number: u64,
    },
    /// A delete came for a message that was gone already, or under an older handle.
    DeletedAgain,
    /// All messages that were in the queue were purged, and not those that had left for a dead-letter
    /// queue.
    Purged,
    /// The queue got settings.
    Set {
        settings: Settings,
    },
    /// The dead-letter queue has accepted the message of a number, which waited for that.
    Settled {
        number: u64,
    },
    /// The dead-letter queue of a uid is gone: the messages that waited for it came back.
    Orphaned {
        target: u64,
    },
    /// The queue itself refused a request.
    Refused {
        fault: Fault,
    },
    /// The queue was closed. No entry follows.
    Closed,
    /// A checkpoint: what stands for all entries before it, in their place. So it is a journal's first entry.
    Base(Base<C>),
}

/// An event and its time.
#[derive(Debug, Drop)]
pub struct Entry<C> {
    pub at: Moment,
    pub event: Event<C>,
}

/// An entry with the content of its message.
pub type Line = Entry<Content>;

/// An entry with the size of its message's content, in bytes.
pub type Mark = Entry<u64>;

impl Event<Content> {
    ghost use Rattle.journal.specs.Mark.{mark_event};

    /// The same event, with the size of the content in its place. `OutOfMemory` is the only refusal.
    fn mark(&self, alloc: Global) -> Result<Event<u64>, Fault>
        ensures ok { IfOk result (λ event. event ≡ mark_event content_size self.now) }
        ensures errors { IfErr result (λ fault. fault ≡ OutOfMemory) }
    {
        Ok(match self {
            Event::Opened { uid, settings } => Event::Opened {
                uid: *uid,
                settings: *settings,
            },
            Event::Sent { delay, content } => Event::Sent {
                delay: *delay,
                content: content.size(),
            },
            Event::Arrived { origin, content } => Event::Arrived {
                origin: *origin,
                content: content.size(),
            },
            Event::Received {
                timeout,
                offered,
                leaving,
                target,
            } => Event::Received {
                timeout: *timeout,
                offered: offered.copied(alloc)?,
                leaving: leaving.copied(alloc)?,
                target: *target,
            },
            Event::Changed { number, timeout } => Event::Changed {
                number: *number,
                timeout: *timeout,
            },
            Event::Deleted { number } => Event::Deleted { number: *number },
            Event::DeletedAgain => Event::DeletedAgain,
            Event::Purged => Event::Purged,
            Event::Set { settings } => Event::Set {
                settings: *settings,
            },
            Event::Settled { number } => Event::Settled { number: *number },
            Event::Orphaned { target } => Event::Orphaned { target: *target },
            Event::Refused { fault } => Event::Refused { fault: *fault },
            Event::Closed => Event::Closed,
            Event::Base(base) => Event::Base(base.mark(alloc)?),
        })
    }
}

impl Entry<Content> {
    ghost use Rattle.journal.specs.Mark.{mark_of};
    ghost use Rattle.journal.specs.Weight.{event_weight};

    /// How much of a journal's limit the line takes: 1, and a checkpoint 1 more for each message that it
    /// keeps. A weight past 2^64 - 1 stays there.
    pub(crate) fn weight(&self) -> u64
        ensures { result ≡ min (event_weight self.now.event) (2 ^ 64 - 1) }
    {
        match &self.event {
            Event::Base(base) => (base.messages().len() as u64).saturating_add(1),
            _ => 1,
        }
    }

    /// The mark of a line. Its lists of numbers take memory: `OutOfMemory` is the only refusal.
    pub(crate) fn mark(&self, alloc: Global) -> Result<Mark, Fault>
        ensures ok { IfOk result (λ mark. mark ≡ mark_of content_size self.now) }
        ensures errors { IfErr result (λ fault. fault ≡ OutOfMemory) }
    {
        let event = self.event.mark(alloc)?;
        Ok(Entry { at: self.at, event })
    }
}
