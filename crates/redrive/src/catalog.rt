//! The name directory.

ghost use Rattle.std.specs.Prelude.{◌≡◌, ◌<◌, length, OnOk, OnErr, IfOk, IfErr, None, Ok, Err, true, false, ◌==◌};
ghost use Rattle.std.specs.List.{position};
ghost use Rattle.message.specs.Fault.{Meets};
ghost use Rattle.redrive.specs.Listed.{items_of};

use crate::keys::Keys;
use crate::listing::{add_name, in_order};
use message::{Fault, QueueName};
use queue_config::QUEUE_LIMIT;
use std::alloc::Global;
use std::marker::Model;

/// Uids stay below this number, 2^62. This project's own choice.
pub const UID_LIMIT: u64 = 1 << 62;

/// A queue as the directory has it: its name, its uid, and the uid of its dead-letter target, 0 where
/// it has none.
#[derive(Clone, Copy, Debug, PartialEq, Eq)]
pub struct Registered {
    pub name: QueueName,
    pub uid: u64,
    pub target: u64,
}

/// The name directory: names, uids and targets of queues that are kept elsewhere. Contracts see the
/// uid of the next queue, and the queues in the order in which they were added.
#[derive(Debug, Drop)]
pub struct Catalog {
    next_uid: u64,
    queues: Vec<Registered>,
    /// Their uids and names, by which their places are found.
    keys: Keys,
}

impl Model for Catalog {
    ghost use Rattle.redrive.specs.Catalog.{NameDirectory};
    ghost use Rattle.redrive.specs.private.Catalog.{IsKeptDirectory};

    ghost Value = { NameDirectory };

    ghost view = { λ c. record { next_uid = c.next_uid; queues = c.queues.items } };

    ghost invariant = { λ c. IsKeptDirectory (record { next_uid = c.next_uid; queues = c.queues.items }) c.keys };
}

impl Catalog {
    ghost use Rattle.redrive.specs.Catalog.{IsDirectory, empty_directory, uid_of_name, has_uid, is_directory_full, add_answer, with_registered, without_uid, retargeted, with_target, names_with, names_to, names_to_answer, names_listed, sources_answer};

    /// A directory without queues. Uids begin at 1. It takes no memory.
    pub fn new(alloc: Global) -> Result<Catalog, Fault>
        ensures { result ≡ Ok empty_directory }
    {
        Ok(Catalog {
            next_uid: 1,
            queues: Vec::new(alloc),
            keys: Keys::new(alloc),
        })
    }

    /// Whether there are as many queues as there may be, or no uid is left.
    fn is_full(&self) -> bool
        ensures { result ≡ is_directory_full self.now }
    {
        QUEUE_LIMIT <= self.queues.len() || UID_LIMIT <= self.next_uid
    }

    /// Adds a queue of a name that is not there, and answers its uid. It is `OverLimit` where there are
    /// 1,000 queues or no uid is left, which needs no memory. A refused queue, also with `OutOfMemory`,
    /// is not added and uses up no uid.
    pub fn add(&mut self, alloc: Global, name: QueueName, target: u64) -> Result<u64, Fault>
        requires { uid_of_name self.old name ≡ None }
        ensures answer { Meets result (add_answer self.old) }
        ensures full { is_directory_full self.old ≡ true → result ≡ Err Fault.OverLimit }
        ensures ok { OnOk result (self.new ≡ with_registered self.old name target) }
        ensures err { OnErr result (self.new ≡ self.old) }
    {
        if self.is_full() {
            return Err(Fault::OverLimit);
        }
        let uid = self.next_uid;
        self.keys.reserve(alloc)?;
        self.queues.push(Registered { name, uid, target })?;
        self.keys.push(uid, name);
        self.next_uid = uid + 1;
        Ok(uid)
    }

    /// The place of the queue of a uid.
    fn place_of(&self, uid: u64) -> Option<usize>
        ensures { result ≡ position (λ q. q.uid == uid) self.now.queues }
    {
        self.keys.place_of(uid)
    }

    /// Takes out the queue of a uid. No later queue gets its uid. The answer is whether it was there.
    pub fn remove(&mut self, uid: u64) -> bool
        ensures answer { result ≡ has_uid self.old uid }
        ensures state { self.new ≡ without_uid self.old uid }
    {
        match self.place_of(uid) {
            Some(place) => {
                self.queues.remove(place);
                self.keys.remove(place);
                true
            }
            None => false,
        }
    }

    /// Gives the queue of a uid another target, 0 for none. The answer is whether it was there.
    pub fn set_target(&mut self, uid: u64, target: u64) -> bool
        ensures answer { result ≡ has_uid self.old uid }
        ensures state { self.new ≡ with_target self.old uid target }
    {
        match self.place_of(uid) {
            Some(place) => {
                self.queues[place].target = target;
                true
            }
            None => false,
        }
    }

    /// The uid of the queue of a name.
    pub fn find(&self, name: &QueueName) -> Option<u64>
        ensures found { result ≡ uid_of_name self.now name.now }
        ensures directory { IsDirectory self.now }
    {
        let place = self.keys.place_named(name)?;
        self.queues.get(place).map(|queue| queue.uid)
    }

    /// The names that begin with a prefix, in the order in which they were added. `OutOfMemory` is the only
    /// refusal, where there is such a name.
    pub fn names_with(&self, alloc: Global, prefix: &str) -> Result<Vec<QueueName>, Fault>
        ensures ok { IfOk result (λ names. names.items ≡ names_with self.now prefix.now) }
        ensures directory { IsDirectory self.now }
        ensures errors { IfErr result (λ fault. fault ≡ Fault.OutOfMemory) }
        ensures wants { OnErr result (0 < length (names_with self.now prefix.now)) }
    {
        let mut names = Vec::new(alloc);
        for queue in self.queues.as_slice() {
            add_name(&mut names, prefix, queue.name)?;
        }
        Ok(names)
    }

    /// The names that begin with a prefix, in the order of their bytes. `OutOfMemory` is the only
    /// refusal, where there is such a name.
    pub fn list(&self, alloc: Global, prefix: &str) -> Result<Vec<QueueName>, Fault>
        ensures ok { IfOk result (λ names. names.items ≡ names_listed self.now prefix.now) }
        ensures directory { IsDirectory self.now }
        ensures errors { IfErr result (λ fault. fault ≡ Fault.OutOfMemory) }
        ensures wants { OnErr result (0 < length (names_with self.now prefix.now)) }
    {
        let names = self.names_with(alloc, prefix)?;
        in_order(names)
    }

    /// Whether a queue has the uid.
    pub fn has_uid(&self, uid: u64) -> bool
        ensures { result ≡ has_uid self.now uid }
    {
        match self.place_of(uid) {
            Some(_) => true,
            None => false,
        }
    }

    /// The names of the queues whose target the queue of a uid is, in the order in which they were added. Where
    /// no queue has the uid it is `QueueDoesNotExist`, which needs no memory, as no names do.
    pub fn names_to(&self, alloc: Global, uid: u64) -> Result<Vec<QueueName>, Fault>
        ensures answer { Meets (items_of result) (names_to_answer self.now uid) }
        ensures absent { has_uid self.now uid ≡ false → result ≡ Err Fault.QueueDoesNotExist }
        ensures wants { OnErr result (has_uid self.now uid ≡ true → 0 < length (names_to self.now uid)) }
    {
        if !self.has_uid(uid) {
            return Err(Fault::QueueDoesNotExist);
        }
        self.names_of_target(alloc, uid)
    }

    /// The names of the queues whose target the queue of a uid is, in the order of their bytes. Where
    /// no queue has the uid it is `QueueDoesNotExist`, which needs no memory, as no names do.
    pub fn sources(&self, alloc: Global, uid: u64) -> Result<Vec<QueueName>, Fault>
        ensures answer { Meets (items_of result) (sources_answer self.now uid) }
        ensures absent { has_uid self.now uid ≡ false → result ≡ Err Fault.QueueDoesNotExist }
        ensures wants { OnErr result (has_uid self.now uid ≡ true → 0 < length (names_to self.now uid)) }
    {
        let names = self.names_to(alloc, uid)?;
        in_order(names)
    }

    /// The names of the queues whose target a uid is.
    fn names_of_target(&self, alloc: Global, uid: u64) -> Result<Vec<QueueName>, Fault>
        ensures ok { IfOk result (λ names. names.items ≡ names_to self.now uid) }
        ensures errors { IfErr result (λ fault. fault ≡ Fault.OutOfMemory) }
        ensures wants { OnErr result (0 < length (names_to self.now uid)) }
    {
        let mut names = Vec::new(alloc);
        for queue in self.queues.as_slice() {
            if queue.target == uid {
                names.push(queue.name)?;
            }
        }
        Ok(names)
    }
}
