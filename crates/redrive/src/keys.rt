//! The uids and names of queues, by which their places in a list are found.

ghost use Rattle.std.specs.Prelude.{◌≡◌, ℕ, ◌+◌, ◌≤◌, ◌==◌, false, List, [], ◌∷◌, ◌++◌, remove, Ok, OnOk, IfErr};
ghost use Rattle.std.specs.List.{list_any, position};
ghost use Rattle.std.specs.Str.{bytes_eq};
ghost use Rattle.message.specs.declared.fault.Fault.TheVariants.{OutOfMemory};

use indexmap::IndexSet;
use message::{Fault, QueueName};
use std::alloc::Global;
use std::marker::Model;

/// The uids and the names of the queues of a list, each in the order of that list, with an index over each. Contracts see both
/// lists, and for how many queues more each index has room.
#[derive(Debug, Drop)]
pub struct Keys {
    uids: IndexSet<u64>,
    names: IndexSet<QueueName>,
}

impl Model for Keys {
    ghost use Rattle.indexmap.specs.IndexSet.{spare};
    ghost use Rattle.redrive.specs.Keys.{KeyLists};

    ghost Value = { KeyLists };

    ghost view = { λ k. record { uids = k.uids.keys; names = k.names.keys; uid_room = spare k.uids; name_room = spare k.names } };
}

impl Keys {
    /// Keys of no queue. They take no memory.
    pub fn new(alloc: Global) -> Keys
        ensures uids { result.uids ≡ [] }
        ensures names { result.names ≡ [] }
    {
        Keys {
            uids: IndexSet::new(alloc),
            names: IndexSet::new(alloc),
        }
    }

    /// The place of the queue of a uid.
    pub fn place_of(&self, uid: u64) -> Option<usize>
        ensures { result ≡ position (λ u. u == uid) self.now.uids }
    {
        self.uids.get_index_of(&uid)
    }

    /// The place of the queue of a name.
    pub fn place_named(&self, name: &QueueName) -> Option<usize>
        ensures { result ≡ position (λ n. bytes_eq n name.now) self.now.names }
    {
        self.names.get_index_of(name)
    }

    /// Makes room for one queue more. `OutOfMemory` is the only refusal, and comes only where there is none yet.
    pub fn reserve(&mut self, _alloc: Global) -> Result<(), Fault>
        ensures calm { 1 ≤ self.old.uid_room → 1 ≤ self.old.name_room → result ≡ Ok tt }
        ensures uids { self.new.uids ≡ self.old.uids }
        ensures names { self.new.names ≡ self.old.names }
        ensures ok { OnOk result ((1 ≤ self.new.uid_room) × (1 ≤ self.new.name_room)) }
        ensures errors { IfErr result (λ fault. fault ≡ OutOfMemory) }
    {
        self.uids.reserve(1)?;
        self.names.reserve(1)?;
        Ok(())
    }

    /// Adds a queue at the end, for which there is room. Neither its uid nor its name is there.
    pub fn push(&mut self, uid: u64, name: QueueName)
        requires uid_room { 1 ≤ self.old.uid_room }
        requires name_room { 1 ≤ self.old.name_room }
        requires new_uid { list_any (λ u. u == uid) self.old.uids ≡ false }
        requires new_name { list_any (λ n. bytes_eq n name) self.old.names ≡ false }
        ensures uids { self.new.uids ≡ self.old.uids ++ uid ∷ [] }
        ensures names { self.new.names ≡ self.old.names ++ name ∷ [] }
        ensures uid_room { self.old.uid_room ≤ self.new.uid_room + 1 }
        ensures name_room { self.old.name_room ≤ self.new.name_room + 1 }
    {
        self.uids.insert(uid).unwrap();
        self.names.insert(name).unwrap();
    }

    /// Takes out the queue at a place, where there is one. Those behind it come one place forward.
    pub fn remove(&mut self, place: usize)
        ensures uids { self.new.uids ≡ remove self.old.uids place }
        ensures names { self.new.names ≡ remove self.old.names place }
        ensures uid_room { self.old.uid_room ≤ self.new.uid_room }
        ensures name_room { self.old.name_room ≤ self.new.name_room }
    {
        let _uid = self.uids.shift_remove_index(place);
        let _name = self.names.shift_remove_index(place);
    }
}
