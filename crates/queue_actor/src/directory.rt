//! The directory of the queues that are served: names, mailboxes and desks.

ghost use Rattle.std.specs.Prelude.{◌≡◌, ◌≢◌, ◌⊎◌, ◌==◌, nat_eq, not, ◌||◌, [], ◌∷◌, ◌++◌, map, filter, false, true, Result, Ok, Err, Some, None, IfSome, IfOk, IfErr, OnOk, OnErr, is_some};
ghost use Rattle.std.specs.Arc.{arc_value};
ghost use Rattle.std.specs.List.{All, IsDistinct, find, position};
ghost use Rattle.std.specs.Option.{option_map_or};
ghost use Rattle.std.proofs.Props.{props};
ghost use Rattle.std.specs.Str.{bytes_eq};
ghost use Rattle.message.specs.Fault.{Meets};
ghost use Rattle.message.specs.declared.fault.Fault.TheVariants.{OutOfMemory, QueueDoesNotExist, QueueNameExists, OverLimit};
ghost use Rattle.redrive.specs.Catalog.{IsDirectory, add_answer, empty_directory, has_uid, names_listed, source_names, uid_of_name, with_registered, with_target, without_uid};
ghost use Rattle.message.specs.declared.fault.Fault.{Fault};
ghost use Rattle.queue_core.specs.Queue.{policy_target};
ghost use Rattle.queue_core.specs.declared.command.Command.TheVariants as commands;
ghost use Rattle.queue_core.specs.declared.reply.Reply.{Reply};
ghost use Rattle.desk.specs.Views.{HasCalled, IsKnown, IsNewPass, SeesMore};
ghost use Rattle.queue_actor.specs.Calling.{HasAsked};
ghost use Rattle.queue_actor.specs.Reading.{IsSheetUnder};

use crate::answer::Answer;
use crate::deadline::tell;
use crate::duties::Duties;
use crate::envelope::Envelope;
use crate::mark::ServedMark;
use crate::outbox::Outbox;
use crate::readers::{Readers, Shown};
use board::Sheet;
use crossbeam_channel::Sender;
use desk::{Desk, Gate, NoGate, Pass, Press};
use journal::Moment;
use message::{Fault, QueueName};
use queue_config::{Limits, Settings};
use queue_core::{Command, QueueState};
use redrive::{Catalog, Keys, in_order};
use std::alloc::Global;
use std::marker::Model;
use std::snapshot::Snapshot;
use std::sync::{Arc, Mutex, Wait};

/// The uid of the dead-letter queue that settings name, 0 for none.
pub fn dead_letter_target(settings: &Settings) -> u64
    ensures { result ≡ option_map_or (λ p. p.target) settings.now.redrive_policy 0 }
{
    match settings.redrive_policy {
        Some(policy) => policy.target,
        None => 0,
    }
}

/// A queue that is served: its uid and its name, its desk, a pass of that desk, and the mailbox and the duties of
/// its actor.
/// The pass in the directory is never called with: passes are split off from it.
#[derive(Drop)]
pub struct Served<P: Press> {
    pub uid: u64,
    pub name: QueueName,
    pub desk: Arc<Desk<P>>,
    pub pass: Pass<P>,
    pub mailbox: Sender<Envelope<P>>,
    pub duties: Arc<Duties>,
    pub ghost together: { pass.desk ≡ arc_value desk },
    pub ghost opened: { pass.start.uid ≡ uid },
    pub ghost named: { pass.start.name ≡ name },
}

impl<P: Press> Served<P> {
    /// A queue that is served at a desk, with a pass of that desk. Its uid and its name are those under which it
    /// was opened.
    pub fn new(
        uid: u64,
        name: QueueName,
        desk: Arc<Desk<P>>,
        pass: Pass<P>,
        mailbox: Sender<Envelope<P>>,
        duties: Arc<Duties>,
    ) -> Served<P>
        requires desk { pass.desk ≡ arc_value desk }
        requires uid { pass.start.uid ≡ uid }
        requires name { pass.start.name ≡ name }
        ensures { (result.uid ≡ uid) × (result.name ≡ name) × (result.desk ≡ desk) × (result.pass ≡ pass) }
    {
        Served {
            uid,
            name,
            desk,
            pass,
            mailbox,
            duties,
        }
    }

    /// The same queue once more, with a pass that is split off. `OutOfMemory` is the only refusal.
    fn again(&mut self) -> Result<Served<P>, Fault>
        ensures errors { IfErr result (λ fault. fault ≡ OutOfMemory) }
        ensures other { IfOk result (λ queue. (queue.uid ≡ self.old.uid) × (queue.name ≡ self.old.name) × (arc_value queue.desk ≡ arc_value self.old.desk) × IsNewPass self.old.pass queue.pass) }
        ensures same { (self.new.uid ≡ self.old.uid) × (self.new.name ≡ self.old.name) × (self.new.pass ≡ self.old.pass) }
    {
        let desk = Arc::try_clone(&self.desk)?;
        let mailbox = self.mailbox.clone()?;
        let duties = Arc::try_clone(&self.duties)?;
        let pass = self.desk.pass(&mut self.pass);
        Ok(Served::new(self.uid, self.name, desk, pass, mailbox, duties))
    }

    /// Asks the queue's desk once, with the pass that came with it. Where the actor has to look behind it, it is told
    /// the time.
    pub fn ask<R: Wait, G: Gate>(
        self,
        rt: &R,
        alloc: Global,
        at: Moment,
        command: Command,
        gate: &G,
    ) -> Answer<P>
    where
        P::Told: Drop,
        ensures desk { (result.desk ≡ arc_value self.desk) × (result.command ≡ command) }
        ensures call { HasAsked self.pass at command result.reply result.pass }
        ensures known { IsKnown result.pass }
    {
        let Served {
            desk,
            mut pass,
            mailbox,
            duties,
            ..
        } = self;
        let reply = desk.ask(rt, alloc, &mut pass, at, &command, gate).reply;
        if duties.follow(&command) {
            tell(rt, &mailbox, at);
        }
        Answer::new(desk, pass, command, reply)
    }

    /// Whether its actor has nothing to do as time goes by.
    pub(crate) fn is_quiet(&self) -> bool {
        self.duties.are_none()
    }

    /// Whether its actor has nothing to do, and no mail either.
    fn is_idle(&self) -> bool {
        self.duties.are_none() && self.mailbox.is_empty()
    }

    /// Tells the actor the time.
    pub(crate) fn tell<R: Wait>(&self, rt: &R, at: Moment) {
        tell(rt, &self.mailbox, at);
    }

    /// Tells the queue the time. Where its actor has nothing to do but to look, and the turn is free, the look is
    /// made here, so that what is printed is of that moment. Otherwise the actor is told, and so it is where it
    /// came to have something to do meanwhile. What the pass has seen then comes back.
    pub(crate) fn tick<R: Wait>(self, rt: &R, alloc: Global, at: Moment) -> Pass<P>
    where
        P::Told: Drop,
        ensures { ((reply : Result Reply Fault) × HasCalled self.pass at commands.Look reply result) ⊎ SeesMore self.pass result }
    {
        let is_idle = self.is_idle();
        let Served {
            desk,
            mut pass,
            mailbox,
            duties,
            ..
        } = self;
        if !is_idle {
            tell(rt, &mailbox, at);
            return pass;
        }
        let looked = desk.ask_now(rt, alloc, &mut pass, at, &Command::Look, &NoGate);
        if looked.is_some() && duties.are_none() {
            return pass;
        }
        tell(rt, &mailbox, at);
        pass
    }
}

/// What lies under the directory's lock: the names, and the queues that are served, each once and under the name to which its uid belongs.
#[derive(Drop)]
pub(crate) struct DirectoryEntries<P: Press> {
    catalog: Catalog,
    pub(crate) served: Vec<Served<P>>,
    /// The uids and names of those that are served, by which their places are found.
    keys: Keys,
    ghost uids: { keys.uids ≡ map (λ queue. queue.uid) served.items },
    ghost names: { keys.names ≡ map (λ queue. queue.name) served.items },
    ghost once: { IsDistinct nat_eq keys.uids } by { Prim.hlevel props },
    ghost entered: { map (λ name. uid_of_name catalog name) keys.names ≡ map (λ uid. Some uid) keys.uids },
}

impl<P: Press> DirectoryEntries<P> {
    /// No names and no queues. `OutOfMemory` is the only refusal.
    fn new(alloc: Global) -> Result<DirectoryEntries<P>, Fault>
        ensures catalog { IfOk result (λ entries. entries.catalog ≡ empty_directory) }
        ensures served { IfOk result (λ entries. entries.served.items ≡ []) }
        ensures errors { IfErr result (λ fault. fault ≡ OutOfMemory) }
    {
        Ok(DirectoryEntries {
            catalog: Catalog::new(alloc)?,
            served: Vec::new(alloc),
            keys: Keys::new(alloc),
        })
    }

    /// The place of the queue of a uid.
    fn place_of(&self, uid: u64) -> Option<usize>
        ensures { result ≡ position (λ queue. queue.uid == uid) self.now.served.items }
    {
        self.keys.place_of(uid)
    }

    /// The place of the queue of a name.
    fn place_named(&self, name: &QueueName) -> Option<usize>
        ensures { result ≡ position (λ queue. bytes_eq queue.name name.now) self.now.served.items }
    {
        self.keys.place_named(name)
    }

    /// Whether a queue is served under a uid or under a name.
    fn is_served(&self, uid: u64, name: &QueueName) -> bool
        ensures { result ≡ (is_some (position (λ queue. queue.uid == uid) self.now.served.items) || is_some (position (λ queue. bytes_eq queue.name name.now) self.now.served.items)) }
    {
        self.place_of(uid).is_some() || self.place_named(name).is_some()
    }

    /// The queue of a name once more, where it is served.
    fn find_name(&mut self, name: &QueueName) -> Result<Option<Served<P>>, Fault>
        ensures name { IfOk result (λ found. IfSome found (λ queue. queue.name ≡ name.now)) }
        ensures unserved { result ≡ Ok None → position (λ queue. bytes_eq queue.name name.now) self.old.served.items ≡ None }
        ensures same { (self.new.catalog ≡ self.old.catalog) × (self.new.keys ≡ self.old.keys) }
        ensures errors { IfErr result (λ fault. fault ≡ OutOfMemory) }
    {
        match self.place_named(name) {
            Some(place) => Ok(Some(self.served[place].again()?)),
            None => Ok(None),
        }
    }

    /// The queue of a uid once more: `None` where it has its name and is not served, and `QueueDoesNotExist`
    /// where no queue has the uid.
    fn find(&mut self, uid: u64) -> Result<Option<Served<P>>, Fault>
        ensures uid { IfOk result (λ found. IfSome found (λ queue. queue.uid ≡ uid)) }
        ensures unserved { result ≡ Ok None → (position (λ queue. queue.uid == uid) self.old.served.items ≡ None) × (has_uid self.old.catalog uid ≡ true) }
        ensures absent { result ≡ Err QueueDoesNotExist → has_uid self.old.catalog uid ≡ false }
        ensures same { (self.new.catalog ≡ self.old.catalog) × (self.new.keys ≡ self.old.keys) }
        ensures errors { IfErr result (λ fault. (fault ≡ QueueDoesNotExist) ⊎ (fault ≡ OutOfMemory)) }
    {
        match self.place_of(uid) {
            Some(place) => Ok(Some(self.served[place].again()?)),
            None if self.catalog.has_uid(uid) => Ok(None),
            None => Err(Fault::QueueDoesNotExist),
        }
    }

    /// Enters a name, and answers the uid that belongs to it from now on. `QueueNameExists` where the name is there,
    /// served or not; `OverLimit` where there are as many queues as there may be. A refused name is not entered.
    fn enter(&mut self, alloc: Global, name: QueueName) -> Result<u64, Fault>
        ensures there { uid_of_name self.old.catalog name ≢ None → result ≡ Err QueueNameExists }
        ensures answer { uid_of_name self.old.catalog name ≡ None → Meets result (add_answer self.old.catalog) }
        ensures ok { OnOk result (self.new.catalog ≡ with_registered self.old.catalog name 0) }
        ensures err { OnErr result (self.new.catalog ≡ self.old.catalog) }
        ensures same { (self.new.served.items ≡ self.old.served.items) × (self.new.keys ≡ self.old.keys) }
        ensures errors { IfErr result (λ fault. (fault ≡ QueueNameExists) ⊎ (fault ≡ OverLimit) ⊎ (fault ≡ OutOfMemory)) }
    {
        match self.catalog.find(&name) {
            Some(_) => Err(Fault::QueueNameExists),
            None => self.catalog.add(alloc, name, 0),
        }
    }

    /// Adds a queue that was opened as the snapshot says, under the name to which its uid belongs, and gives it its target.
    /// It is `QueueNameExists` where one is served under that uid or name, and `QueueDoesNotExist` where the name does not
    /// belong to the uid.
    fn serve(
        &mut self,
        alloc: Global,
        queue: Served<P>,
        target: u64,
        opened: Snapshot<QueueState>,
    ) -> Result<ServedMark, Fault>
        requires opened { opened.value ≡ queue.pass.start }
        ensures mark { IfOk result (λ mark. mark ≡ queue.pass.start) }
        ensures ok { OnOk result (self.new.served.items ≡ self.old.served.items ++ queue ∷ []) }
        ensures target { OnOk result (self.new.catalog ≡ with_target self.old.catalog queue.uid target) }
        ensures named { OnOk result (uid_of_name self.old.catalog queue.name ≡ Some queue.uid) }
        ensures err { OnErr result ((self.new.served.items ≡ self.old.served.items) × (self.new.catalog ≡ self.old.catalog)) }
        ensures once { (is_some (position (λ q. q.uid == queue.uid) self.old.served.items) || is_some (position (λ q. bytes_eq q.name queue.name) self.old.served.items)) ≡ true → result ≡ Err QueueNameExists }
        ensures exists { result ≡ Err QueueNameExists → (is_some (position (λ q. q.uid == queue.uid) self.old.served.items) || is_some (position (λ q. bytes_eq q.name queue.name) self.old.served.items)) ≡ true }
        ensures unnamed { result ≡ Err QueueDoesNotExist → uid_of_name self.old.catalog queue.name ≢ Some queue.uid }
        ensures errors { IfErr result (λ fault. (fault ≡ QueueDoesNotExist) ⊎ (fault ≡ QueueNameExists) ⊎ (fault ≡ OutOfMemory)) }
    {
        if self.is_served(queue.uid, &queue.name) {
            return Err(Fault::QueueNameExists);
        }
        if self.catalog.find(&queue.name) != Some(queue.uid) {
            return Err(Fault::QueueDoesNotExist);
        }
        self.served.reserve(1)?;
        self.keys.reserve(alloc)?;
        self.catalog.set_target(queue.uid, target);
        queue.duties.set_target(target);
        self.keys.push(queue.uid, queue.name);
        self.served.push_reserved(queue);
        Ok(ServedMark::of(self, opened))
    }

    /// Gives the queue of a uid another target. The answer is whether it was there.
    fn set_target(&mut self, uid: u64, target: u64) -> bool
        ensures there { result ≡ has_uid self.old.catalog uid }
        ensures target { self.new.catalog ≡ with_target self.old.catalog uid target }
        ensures same { (self.new.served.items ≡ self.old.served.items) × (self.new.keys ≡ self.old.keys) }
    {
        if let Some(place) = self.place_of(uid) {
            self.served[place].duties.set_target(target);
        }
        self.catalog.set_target(uid, target)
    }

    /// Takes the queue of a uid from those that are served. The others stay.
    fn unserve(&mut self, uid: u64) -> Option<Served<P>>
        ensures queue { result ≡ find (λ queue. queue.uid == uid) self.old.served.items }
        ensures left { self.new.served.items ≡ filter (λ queue. not (queue.uid == uid)) self.old.served.items }
        ensures catalog { self.new.catalog ≡ self.old.catalog }
    {
        let place = self.place_of(uid)?;
        let queue = self.served.remove(place);
        self.keys.remove(place);
        Some(queue)
    }

    /// Takes out the queue of a uid: its name, and the queue where it is served. The others stay.
    fn remove(&mut self, uid: u64) -> (bool, Option<Served<P>>)
        ensures named { result.0 ≡ has_uid self.old.catalog uid }
        ensures catalog { self.new.catalog ≡ without_uid self.old.catalog uid }
        ensures queue { result.1 ≡ find (λ queue. queue.uid == uid) self.old.served.items }
        ensures left { self.new.served.items ≡ filter (λ queue. not (queue.uid == uid)) self.old.served.items }
    {
        let queue = self.unserve(uid);
        (self.catalog.remove(uid), queue)
    }

    /// All queues that are served once more. `OutOfMemory` is the only refusal.
    fn all(&mut self, alloc: Global) -> Result<Vec<Served<P>>, Fault>
        ensures all { IfOk result (λ queues. map (λ queue. queue.uid) queues.items ≡ map (λ queue. queue.uid) self.old.served.items) }
        ensures same { (self.new.catalog ≡ self.old.catalog) × (self.new.keys ≡ self.old.keys) }
        ensures errors { IfErr result (λ fault. fault ≡ OutOfMemory) }
    {
        let mut queues = Vec::new(alloc);
        for place in 0..self.served.len() {
            queues.push(self.served[place].again()?)?;
        }
        Ok(queues)
    }
}

/// Which queues there are, under which names, and where they are served; and the readers of their statistics,
/// which lie under a lock of their own. Threads share it: each call takes one lock at a time, and has let go of it
/// when it returns. Contracts see the limits of every queue.
#[derive(Drop)]
pub struct Directory<P: Press> {
    limits: Limits,
    entries: Mutex<DirectoryEntries<P>>,
    readers: Mutex<Readers>,
}

impl<P: Press> Model for Directory<P> {
    ghost use Rattle.queue_config.specs.Limits.{QueueLimits};

    ghost Value = { QueueLimits };

    ghost view = { λ d. d.limits };
}

impl<P: Press> Directory<P> {
    /// A directory without queues.
    pub fn new(alloc: Global, limits: Limits) -> Result<Directory<P>, Fault>
        ensures ok { IfOk result (λ directory. directory ≡ limits) }
        ensures errors { IfErr result (λ fault. fault ≡ OutOfMemory) }
    {
        Ok(Directory {
            limits,
            entries: Mutex::new(DirectoryEntries::new(alloc)?),
            readers: Mutex::new(Readers::new(alloc)),
        })
    }

    /// The limits of every queue.
    pub fn limits(&self) -> Limits
        ensures { result ≡ self.now }
    {
        self.limits
    }

    /// Enters a name, and answers the uid that belongs to it from now on. Its queue is found only once it
    /// is served, and has no target before. `QueueNameExists` where the name is there, served or not; `OverLimit`
    /// where there are as many queues as there may be. A refused name is not entered.
    pub fn enter<R: Wait>(&self, rt: &R, alloc: Global, name: QueueName) -> Result<u64, Fault>
        ensures errors { IfErr result (λ fault. (fault ≡ QueueNameExists) ⊎ (fault ≡ OverLimit) ⊎ (fault ≡ OutOfMemory)) }
    {
        self.entries.lock(rt).enter(alloc, name)
    }

    /// Adds the queue of a uid that was entered, under the name that was entered with it, and gives it its target: the one
    /// of its policy, 0 for none. The snapshot is of the queue as it was opened. It is `QueueDoesNotExist` where the uid was taken out
    /// meanwhile or its name is another, and `QueueNameExists` where a queue of that uid or name is served already. A
    /// refused queue is dropped, and its name stays.
    pub fn serve<R: Wait>(
        &self,
        rt: &R,
        alloc: Global,
        queue: Served<P>,
        target: u64,
        opened: Snapshot<QueueState>,
    ) -> Result<ServedMark, Fault>
        requires opened { opened.value ≡ queue.pass.start }
        requires target { target ≡ policy_target opened.value }
        ensures mark { IfOk result (λ mark. mark ≡ queue.pass.start) }
        ensures errors { IfErr result (λ fault. (fault ≡ QueueDoesNotExist) ⊎ (fault ≡ QueueNameExists) ⊎ (fault ≡ OutOfMemory)) }
    {
        self.entries.lock(rt).serve(alloc, queue, target, opened)
    }

    /// The uid of a name.
    pub fn uid_of<R: Wait>(&self, rt: &R, name: &QueueName) -> Option<u64>
        ensures { (listed : _) × IsDirectory listed × (result ≡ uid_of_name listed name.now) }
    {
        self.entries.lock(rt).catalog.find(name)
    }

    /// The queue of a uid: its desk, its mailbox, and a pass of its own. `None` where it has its name and is not
    /// served yet; it is `QueueDoesNotExist` where no queue has the uid.
    pub fn find_uid<R: Wait>(&self, rt: &R, uid: u64) -> Result<Option<Served<P>>, Fault>
        ensures uid { IfOk result (λ found. IfSome found (λ queue. queue.uid ≡ uid)) }
        ensures errors { IfErr result (λ fault. (fault ≡ QueueDoesNotExist) ⊎ (fault ≡ OutOfMemory)) }
    {
        self.entries.lock(rt).find(uid)
    }

    /// The queue of a name, where it is served: its desk, its mailbox, and a pass of its own.
    pub fn find<R: Wait>(&self, rt: &R, name: &QueueName) -> Result<Option<Served<P>>, Fault>
        ensures name { IfOk result (λ found. IfSome found (λ queue. queue.pass.start.name ≡ name.now)) }
        ensures errors { IfErr result (λ fault. fault ≡ OutOfMemory) }
    {
        self.entries.lock(rt).find_name(name)
    }

    /// Adds the reader of a queue of a uid that was entered. `OutOfMemory` is the only refusal.
    pub fn show<R: Wait>(&self, rt: &R, shown: Shown) -> Result<(), Fault>
        ensures errors { IfErr result (λ fault. fault ≡ OutOfMemory) }
    {
        self.readers.lock(rt).add(shown)
    }

    /// The statistics of the queue of a name, where it has a reader. This takes the lock of the readers, and no turn of
    /// the queue and no lock of the names: so it is made, and tests show that it answers while a turn is held.
    pub fn sheet<R: Wait>(
        &self,
        rt: &R,
        alloc: Global,
        name: &QueueName,
    ) -> Result<Option<Sheet>, Fault>
        ensures name { IfOk result (λ found. IfSome found (λ sheet. sheet.name ≡ name.now)) }
        ensures under { IfOk result (λ found. IfSome found (IsSheetUnder name.now)) }
        ensures errors { IfErr result (λ fault. fault ≡ OutOfMemory) }
    {
        self.readers.lock(rt).sheet(alloc, name)
    }

    /// The statistics of all queues that have a reader. This too takes the lock of the readers alone, and tests show
    /// that it answers while a turn is held.
    pub fn sheets<R: Wait>(&self, rt: &R, alloc: Global) -> Result<Vec<Sheet>, Fault>
        ensures under { IfOk result (λ sheets. All (λ sheet. IsSheetUnder sheet.name sheet) sheets.items) }
        ensures errors { IfErr result (λ fault. fault ≡ OutOfMemory) }
    {
        self.readers.lock(rt).sheets(alloc)
    }

    /// Takes out the reader of the queue of a uid.
    fn hide<R: Wait>(&self, rt: &R, uid: u64) {
        let shown = self.readers.lock(rt).remove(uid);
        drop(shown);
    }

    /// Takes out the queue of a uid, with its name and its reader. The answer is whether the name was there.
    pub fn remove<R: Wait>(&self, rt: &R, uid: u64) -> bool {
        self.hide(rt, uid);
        let (named, served) = self.entries.lock(rt).remove(uid);
        drop(served);
        named
    }

    /// Gives the queue of a uid another target, 0 for none. The answer is whether it was there.
    pub fn set_target<R: Wait>(&self, rt: &R, uid: u64, target: u64) -> bool {
        self.entries.lock(rt).set_target(uid, target)
    }

    /// The names that begin with a prefix, in the order of their bytes. They are put in order once the lock is let
    /// go.
    pub fn list<R: Wait>(
        &self,
        rt: &R,
        alloc: Global,
        prefix: &str,
    ) -> Result<Vec<QueueName>, Fault>
        ensures ok { IfOk result (λ names. (listed : _) × IsDirectory listed × (names.items ≡ names_listed listed prefix.now)) }
        ensures errors { IfErr result (λ fault. fault ≡ OutOfMemory) }
    {
        let names = self.entries.lock(rt).catalog.names_with(alloc, prefix)?;
        in_order(names)
    }

    /// The names of the queues whose target the queue of a uid is, in the order of their bytes. They are put in
    /// order once the lock is let go.
    pub fn sources<R: Wait>(&self, rt: &R, alloc: Global, uid: u64) -> Result<Vec<QueueName>, Fault>
        ensures ok { IfOk result (λ names. (listed : _) × (has_uid listed uid ≡ true) × (names.items ≡ source_names listed uid)) }
        ensures errors { IfErr result (λ fault. (fault ≡ QueueDoesNotExist) ⊎ (fault ≡ OutOfMemory)) }
    {
        let names = self.entries.lock(rt).catalog.names_to(alloc, uid)?;
        in_order(names)
    }

    /// All queues that are served once more. `OutOfMemory` is the only refusal.
    pub(crate) fn all<R: Wait>(&self, rt: &R, alloc: Global) -> Result<Vec<Served<P>>, Fault>
        ensures errors { IfErr result (λ fault. fault ≡ OutOfMemory) }
    {
        self.entries.lock(rt).all(alloc)
    }
}
