//! The readers of the queues' statistics, one of each queue.

ghost use Rattle.std.specs.Prelude.{List, ◌≡◌, ◌==◌, [], ◌∷◌, ◌++◌, map, Ok, None, IfSome, IfNone, IfOk, IfErr, OnOk, OnErr};
ghost use Rattle.std.specs.List.{All, AllZip, find, position};
ghost use Rattle.std.specs.Option.{option_map};
ghost use Rattle.std.specs.Str.{bytes_eq};
ghost use Rattle.message.specs.declared.fault.Fault.TheVariants.{OutOfMemory};
ghost use Rattle.board.specs.Queue as queues;
ghost use Rattle.queue_actor.specs.Reading.{IsReadOf, IsSheetUnder};
ghost use Rattle.queue_actor.specs.private.Reading.{IsLater, HasRecord, sheet_of};

use board::{Reader, Sheet};
use message::{Fault, QueueName};
use queue_core::QueueState;
use redrive::is_same_name;
use std::alloc::Global;
use std::snapshot::Snapshot;

/// The reader of a queue's board, with the uid and the name of the queue, and the queue as it was opened, which takes
/// no bytes.
#[derive(Drop)]
pub struct Shown {
    pub uid: u64,
    pub name: QueueName,
    pub reader: Reader,
    pub queue: Snapshot<QueueState>,
    pub ghost opened: { queue.value.uid ≡ uid },
    pub ghost named: { queue.value.name ≡ name },
    pub ghost told: { reader.given ≡ queues.sheet_of queue.value },
}

impl Shown {
    /// The reader of the board of a queue: the sheet that the board began with tells of the queue as it was opened,
    /// under this uid and this name.
    pub fn new(uid: u64, name: QueueName, reader: Reader, queue: Snapshot<QueueState>) -> Shown
        requires uid { queue.value.uid ≡ uid }
        requires name { queue.value.name ≡ name }
        requires told { reader.given ≡ queues.sheet_of queue.value }
        ensures { (result.uid ≡ uid) × (result.name ≡ name) × (result.reader ≡ reader) × (result.queue ≡ queue) }
    {
        Shown {
            uid,
            name,
            reader,
            queue,
        }
    }

    /// What was printed last, as far as it is seen. It takes no turn of the queue. `OutOfMemory` is the only refusal.
    fn read(&mut self, alloc: Global) -> Result<Sheet, Fault>
        ensures read { IfOk result (IsReadOf self.old.reader.given) }
        ensures name { IfOk result (λ sheet. sheet.name ≡ self.old.name) }
        ensures under { IfOk result (IsSheetUnder self.old.name) }
        ensures same { (self.new.uid ≡ self.old.uid) × (self.new.name ≡ self.old.name) × (self.new.reader.given ≡ self.old.reader.given) }
        ensures sheet { IfOk result (λ sheet. sheet ≡ sheet_of self.new.reader) }
        ensures fits { HasRecord self.new.reader }
        ensures later { IsLater self.old.reader self.new.reader }
        ensures errors { IfErr result (λ fault. fault ≡ OutOfMemory) }
    {
        self.reader.read(alloc)
    }
}

/// The readers of all queues that have one.
#[derive(Drop)]
pub(crate) struct Readers {
    all: Vec<Shown>,
}

impl Readers {
    /// None.
    pub(crate) fn new(alloc: Global) -> Readers
        ensures { result.all.items ≡ [] }
    {
        Readers {
            all: Vec::new(alloc),
        }
    }

    /// Adds the reader of a queue. `OutOfMemory` is the only refusal.
    pub(crate) fn add(&mut self, shown: Shown) -> Result<(), Fault>
        ensures ok { OnOk result (self.new.all.items ≡ self.old.all.items ++ shown ∷ []) }
        ensures err { OnErr result (self.new.all.items ≡ self.old.all.items) }
        ensures errors { IfErr result (λ fault. fault ≡ OutOfMemory) }
    {
        self.all.push(shown)?;
        Ok(())
    }

    /// The place of the reader of a uid.
    fn place_of(&self, uid: u64) -> Option<usize>
        ensures { result ≡ position (λ shown. shown.uid == uid) self.now.all.items }
    {
        self.all.iter().position(|shown| shown.uid == uid)
    }

    /// The place of the reader of a name.
    fn place_named(&self, name: &QueueName) -> Option<usize>
        ensures { result ≡ position (λ shown. bytes_eq shown.name name.now) self.now.all.items }
    {
        self.all
            .iter()
            .position(|shown| is_same_name(&shown.name, name))
    }

    /// Takes out the reader of the queue of a uid.
    pub(crate) fn remove(&mut self, uid: u64) -> Option<Shown>
        ensures uid { IfSome result (λ shown. shown.uid ≡ uid) }
        ensures some { IfSome result (λ shown. (front : List _) × (back : List _) × (self.old.all.items ≡ front ++ shown ∷ back) × (self.new.all.items ≡ front ++ back)) }
        ensures absent { result ≡ None → position (λ shown. shown.uid == uid) self.old.all.items ≡ None }
        ensures none { IfNone result (self.new.all.items ≡ self.old.all.items) }
    {
        match self.place_of(uid) {
            Some(place) => Some(self.all.remove(place)),
            None => None,
        }
    }

    /// The statistics of the queue of a name, where it has a reader. `OutOfMemory` is the only refusal.
    pub(crate) fn sheet(&mut self, alloc: Global, name: &QueueName) -> Result<Option<Sheet>, Fault>
        ensures name { IfOk result (λ found. IfSome found (λ sheet. sheet.name ≡ name.now)) }
        ensures under { IfOk result (λ found. IfSome found (IsSheetUnder name.now)) }
        ensures sheet { IfOk result (λ found. found ≡ option_map (λ shown. sheet_of shown.reader) (find (λ shown. bytes_eq shown.name name.now) self.new.all.items)) }
        ensures fits { IfOk result (λ found. IfSome (find (λ shown. bytes_eq shown.name name.now) self.new.all.items) (λ shown. HasRecord shown.reader)) }
        ensures absent { result ≡ Ok None → position (λ shown. bytes_eq shown.name name.now) self.old.all.items ≡ None }
        ensures kept { AllZip (λ before after. (after.uid ≡ before.uid) × (after.name ≡ before.name) × IsLater before.reader after.reader) self.old.all.items self.new.all.items }
        ensures errors { IfErr result (λ fault. fault ≡ OutOfMemory) }
    {
        match self.place_named(name) {
            Some(place) => Ok(Some(self.all[place].read(alloc)?)),
            None => Ok(None),
        }
    }

    /// The statistics of all queues that have a reader, in the order in which they came. `OutOfMemory` is the only
    /// refusal.
    pub(crate) fn sheets(&mut self, alloc: Global) -> Result<Vec<Sheet>, Fault>
        ensures names { IfOk result (λ sheets. map (λ sheet. sheet.name) sheets.items ≡ map (λ shown. shown.name) self.old.all.items) }
        ensures under { IfOk result (λ sheets. All (λ sheet. IsSheetUnder sheet.name sheet) sheets.items) }
        ensures sheets { IfOk result (λ sheets. sheets.items ≡ map (λ shown. sheet_of shown.reader) self.new.all.items) }
        ensures fits { IfOk result (λ sheets. All (λ shown. HasRecord shown.reader) self.new.all.items) }
        ensures kept { AllZip (λ before after. (after.uid ≡ before.uid) × (after.name ≡ before.name) × IsLater before.reader after.reader) self.old.all.items self.new.all.items }
        ensures errors { IfErr result (λ fault. fault ≡ OutOfMemory) }
    {
        let mut sheets = Vec::with_capacity(alloc, self.all.len())?;
        for place in 0..self.all.len() {
            sheets.push(self.all[place].read(alloc)?)?;
        }
        Ok(sheets)
    }
}
