//! The transfers that a queue has accepted, kept for good.

ghost use Rattle.std.specs.Prelude.{◌≡◌, ◌≤◌, ◌++◌, false, None, [], ◌∷◌, length, Ok, OnOk, IfErr, option_map, option_to_list};
ghost use Rattle.std.specs.List.{All};
ghost use Rattle.indexmap.specs.IndexSet.{spare};
ghost use Rattle.message.specs.declared.fault.Fault.TheVariants.{OutOfMemory};
ghost use Rattle.queue_core.specs.Messages.{effect_of, key_of};
ghost use Rattle.queue_core.specs.private.Accepted.{holds};

use crate::effect::effect_of;
use indexmap::IndexSet;
use journal::{Event, Origin, TransferKey};
use message::{Content, Fault};
use std::alloc::Global;

/// The transfers that a queue has accepted, in the order in which it accepted them.
#[derive(Debug, Drop)]
pub(crate) struct Accepted {
    pub keys: IndexSet<TransferKey>,
}

impl Accepted {
    /// No transfers, which take no memory.
    pub(crate) fn new(alloc: Global) -> Accepted
        ensures { result.keys.keys ≡ [] }
    {
        Accepted {
            keys: IndexSet::new(alloc),
        }
    }

    /// Whether the transfer of the message of a number from the queue of a uid is among them.
    pub(crate) fn contains(&self, uid: u64, number: u64) -> bool
        ensures { result ≡ holds self.now uid number }
    {
        self.keys.contains(&TransferKey { uid, number })
    }

    /// Makes room for the transfer by which an event, which is no checkpoint, begins a message, where it does; no other event wants
    /// memory.
    /// `OutOfMemory` is the only refusal.
    pub(crate) fn make_place(&mut self, event: &Event<Content>) -> Result<(), Fault>
        requires alone { (effect_of event.now).since ≡ None }
        ensures same { self.new.keys.keys ≡ self.old.keys.keys }
        ensures calm { (effect_of event.now).accepted ≡ [] → result ≡ Ok tt }
        ensures ok { OnOk result (length (effect_of event.now).accepted ≤ spare self.new.keys) }
        ensures errors { IfErr result (λ fault. fault ≡ OutOfMemory) }
    {
        if origin_of(event).is_some() {
            self.keys.reserve(1)?;
        }
        Ok(())
    }

    /// Adds the transfer by which an event, which is no checkpoint, begins a message, where it does, behind those before it. It is not
    /// among them yet, and there is room for it.
    pub(crate) fn note(&mut self, event: &Event<Content>)
        requires alone { (effect_of event.now).since ≡ None }
        requires room { length (effect_of event.now).accepted ≤ spare self.old.keys }
        requires first { All (λ key. holds self.old key.uid key.number ≡ false) (effect_of event.now).accepted }
        ensures { self.new.keys.keys ≡ self.old.keys.keys ++ (effect_of event.now).accepted }
    {
        if let Some(origin) = origin_of(event) {
            self.add(origin.uid, origin.number);
        }
    }

    /// Adds the transfer of the message of a number from the queue of a uid at the end.
    fn add(&mut self, uid: u64, number: u64)
        requires room { 1 ≤ spare self.old.keys }
        requires first { holds self.old uid number ≡ false }
        ensures { self.new.keys.keys ≡ self.old.keys.keys ++ record { uid = uid; number = number } ∷ [] }
    {
        self.keys.insert(TransferKey { uid, number }).unwrap();
    }
}

/// Where the message that an event, which is no checkpoint, begins came from, where it begins one that was not sent here.
fn origin_of(event: &Event<Content>) -> Option<Origin>
    requires alone { (effect_of event.now).since ≡ None }
    ensures { option_to_list (option_map key_of result) ≡ (effect_of event.now).accepted }
{
    effect_of(event).birth?.origin
}
