//! What a receive offers.

ghost use Rattle.std.specs.Prelude.{◌≡◌, [], ◌∷◌, ◌++◌, IfErr, OnOk, OnErr};
ghost use Rattle.message.specs.declared.fault.Fault.TheVariants.{OutOfMemory};

use journal::Moment;
use message::{Content, Fault, MessageId, QueueName};
use std::alloc::Global;
use std::marker::Model;

/// A message that a receive offers.
#[derive(Debug, Drop)]
pub struct Offer {
    /// Its number in the queue.
    pub number: u64,
    /// How often it was received, this time counted, as far as a `u64` counts.
    pub receipt: u64,
    pub id: MessageId,
    /// When it was first sent.
    pub sent: Moment,
    /// When it was first received, in this queue.
    pub first_receive: Moment,
    /// The queue that it came from, where it is a dead letter.
    pub source: Option<QueueName>,
    pub content: Content,
}

/// The messages that a receive offers, in order. Contracts see the list.
#[derive(Debug, Drop)]
pub struct Offers {
    offers: Vec<Offer>,
}

impl Model for Offers {
    ghost use Rattle.std.specs.Prelude.{List};
    ghost use Rattle.queue_core.specs.declared.offers.Offer.{Offer};

    ghost Value = { List Offer };

    ghost view = { λ o. o.offers.items };
}

impl Offers {
    /// No offers, which take no memory.
    pub(crate) fn new(alloc: Global) -> Offers
        ensures { result ≡ [] }
    {
        Offers {
            offers: Vec::new(alloc),
        }
    }

    /// Adds an offer at the end. `OutOfMemory` is the only refusal; the list is then as it was.
    pub(crate) fn push(&mut self, offer: Offer) -> Result<(), Fault>
        ensures ok { OnOk result (self.new ≡ self.old ++ offer ∷ []) }
        ensures err { OnErr result (self.new ≡ self.old) }
        ensures errors { IfErr result (λ fault. fault ≡ OutOfMemory) }
    {
        self.offers.push(offer)?;
        Ok(())
    }

    /// The offers.
    pub fn as_slice(&self) -> &[Offer]
        ensures { result.now ≡ self.now }
    {
        self.offers.as_slice()
    }
}
