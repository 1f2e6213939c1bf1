//! The queue registry.

ghost use Rattle.std.specs.Prelude.{◌≡◌, ◌≢◌, ℕ, ◌+◌, ◌<◌, ◌≤◌, ◌==◌, List, [], ◌∷◌, length, map, vec_capacity, IfSome, IfOk, OnOk, OnErr, IfErr, true, false};
ghost use Rattle.std.specs.List.{position};
ghost use Rattle.std.specs.Option.{option_copied, option_map};
ghost use Rattle.message.specs.Fault.{Meets};
ghost use Rattle.queue_config.specs.Config.{names_of, configured_uid};
ghost use Rattle.queue_core.specs.Queue.{QueueHistory, at_moment, outcome_at, IsExactWithRoom};
ghost use Rattle.redrive.specs.Listed.{items_of};
ghost use Rattle.redrive.specs.HouseSteps.{metrics_of};

use crate::keys::Keys;
use crate::listing::{add_name, in_order};
use crate::place::QueuePlace;
use crate::queues::Queues;
use crate::steps::QueueMetrics;
use journal::{Moment, Ticks};
use message::{Fault, QueueName};
use queue_config::{AlarmRule, Config, Limits, Settings, Wish, rules_of};
use queue_core::{Command, QueueState, Reply};
use std::alloc::Global;
use std::marker::Model;

/// The queue registry: all queues, each under a name of its own and a uid of its own. Contracts see
/// the limits that every queue gets, the uid of the next queue, and the queues in the order in which
/// they were created. Each call that is handed a counter of operations counts at most what the queues
/// that it comes to may, by what it makes of each, also where it is refused or finds no memory.
#[derive(Debug, Drop)]
pub struct House {
    queues: Queues,
    /// Their uids and names, by which their places are found.
    keys: Keys,
}

impl Model for House {
    ghost use Rattle.redrive.specs.House.{House};
    ghost use Rattle.redrive.specs.private.ByPlace.{IsKept};

    ghost Value = { House };

    ghost view = { λ h. h.queues };

    ghost invariant = { λ h. IsKept h.queues h.keys };
}

ghost use Rattle.redrive.specs.House.{named_target, has_all_requested, existing_answer, is_internal, has_target};

/// Whether a command is one that the registry alone gives.
fn is_internal(command: &Command) -> bool
    ensures { result ≡ is_internal command.now }
{
    matches!(
        command,
        Command::Close | Command::Arrive { .. } | Command::Settle { .. } | Command::Orphan { .. }
    )
}

/// The name of the dead-letter queue that is asked for.
fn named_target(wish: &Wish) -> Option<QueueName>
    ensures { result ≡ named_target wish.now }
{
    wish.target().unwrap_or(None)
}

/// Whether the queue's settings in force already are as requested. `target` is the uid of the
/// dead-letter queue that is asked for.
fn has_all_requested(queue: &QueueState, wish: &Wish, target: u64) -> bool
    ensures { result ≡ has_all_requested wish.now target queue.now }
{
    queue.settings().agrees(wish, target)
}

/// What a create answers where a queue has the name.
fn existing_answer(queue: &QueueState, wish: &Wish, target: u64) -> Result<u64, Fault>
    ensures { result ≡ existing_answer wish.now target queue.now }
{
    if has_all_requested(queue, wish, target) {
        Ok(queue.uid())
    } else {
        Err(Fault::QueueNameExists)
    }
}

/// Whether the dead-letter queue of a queue is that of a uid.
fn has_target(queue: &QueueState, uid: u64) -> bool
    ensures { result ≡ has_target uid queue.now }
{
    match queue.settings().redrive_policy {
        Some(policy) => policy.target == uid,
        None => false,
    }
}

/// What is told of a queue: its counts, its current minute, the row of a minute and the state of an
/// alarm.
fn metrics_of(minute: u64, alarm: usize, queue: &QueueState) -> QueueMetrics
    ensures { result ≡ metrics_of minute alarm queue.now }
{
    QueueMetrics {
        uid: queue.uid(),
        gauges: queue.gauges(),
        current: queue.current(),
        row: queue.row(minute),
        alarm: queue.alarm_state(alarm),
    }
}

impl House {
    ghost use Rattle.redrive.specs.House.{empty_house, new_house, next_queue, queue_named, queue_of_uid, has_queue, found_uid, StandsAt, target_uid, may_name_target, may_have_target, may_set, has_no_place, opens_queue, create_answer, with_queue, house_after_create, step_refusal, queue_answer, step_answer, takes_memory_in, takes_memory_at, with_queue_changed, house_after_command, house_after_step, sources_in_house, sources_answer, take_answer, delete_answer, house_after_delete, names_in_house, house_at_moment, IsRegistry};
    ghost use Rattle.redrive.specs.private.ByPlace.{closes_queue};
    ghost use Rattle.redrive.specs.History.{journal_of, closed_journal};
    ghost use Rattle.redrive.specs.Cost.{change_ticks, command_ticks, step_ticks, deletion_ticks, moment_ticks};

    /// A registry with these limits and no queue.
    fn empty(alloc: Global, limits: Limits) -> House
        ensures { result ≡ empty_house limits }
    {
        House {
            queues: Queues::new(alloc, limits),
            keys: Keys::new(alloc),
        }
    }

    /// A registry with the configuration's limits and its queues, opened at a moment in the order of
    /// the configuration. Each is found by its name under the uid that the configuration gives it, its
    /// place there counted from 1, and no other name is found. `OutOfMemory` is the only refusal; where no
    /// queue is configured, it takes no memory.
    pub fn new(alloc: Global, config: &Config, at: Moment) -> Result<House, Fault>
        ensures house { Meets result (Ok (new_house config.now at)) }
        ensures found { IfOk result (λ house. (name : List ℕ) → found_uid house name ≡ configured_uid name (names_of config.now.queues)) }
        ensures none { config.now.queues ≡ [] → result ≡ Ok (empty_house config.now.limits) }
    {
        let mut house = House::empty(alloc, config.limits);
        for queue in config.queues.as_slice() {
            let rules = rules_of(alloc, config.alarms.as_slice(), house.queues.next_uid())?;
            house.open(alloc, at, queue.name, queue.settings, rules)?;
        }
        Ok(house)
    }

    /// The queue of a name, by its uid and place: [`queue_at`](House::queue_at) and
    /// [`step_at`](House::step_at) do not look for it again.
    pub fn find_place(&self, name: &QueueName) -> Option<QueuePlace>
        ensures found { option_map (λ f. f.uid) result ≡ found_uid self.now name.now }
        ensures here { IfSome result (λ f. StandsAt self.now f) }
        ensures registry { IsRegistry self.now }
    {
        let place = self.keys.place_named(name)?;
        let uid = self.queues.as_slice()[place].uid();
        Some(QueuePlace { uid, place })
    }

    /// The queue that was found.
    pub fn queue_at(&self, found: QueuePlace) -> &QueueState
        requires { StandsAt self.now found }
        ensures { queue_of_uid self.now found.uid ≡ Some result.now }
    {
        &self.queues.as_slice()[found.place]
    }

    /// The queue of a name.
    pub fn named(&self, name: &QueueName) -> Option<&QueueState>
        ensures queue { option_copied result ≡ queue_named self.now name.now }
        ensures registry { IsRegistry self.now }
    {
        let found = self.find_place(name)?;
        Some(self.queue_at(found))
    }

    /// The uid of the queue of a name.
    pub fn find(&self, name: &QueueName) -> Option<u64>
        ensures found { result ≡ found_uid self.now name.now }
        ensures registry { IsRegistry self.now }
    {
        self.find_place(name).map(|found| found.uid)
    }

    /// The queue of a uid.
    pub fn state(&self, uid: u64) -> Option<&QueueState>
        ensures state { option_copied result ≡ queue_of_uid self.now uid }
        ensures registry { IsRegistry self.now }
    {
        let place = self.keys.place_of(uid)?;
        self.queues.as_slice().get(place)
    }

    /// Opens a queue of the next uid.
    fn open(
        &mut self,
        alloc: Global,
        at: Moment,
        name: QueueName,
        settings: Settings,
        rules: Vec<AlarmRule>,
    ) -> Result<u64, Fault>
        requires new_name { queue_named self.old name ≡ None }
        requires place { has_no_place self.old ≡ false }
        ensures answer { Meets result (Ok self.old.next_uid) }
        ensures ok { OnOk result (self.new ≡ with_queue self.old (next_queue self.old at name settings rules.items)) }
        ensures err { OnErr result (self.new ≡ self.old) }
    {
        self.keys.reserve(alloc)?;
        let uid = self.queues.open(alloc, at, name, settings, rules)?;
        self.keys.push(uid, name);
        Ok(uid)
    }

    /// Whether a queue has the uid.
    pub(crate) fn has_queue(&self, uid: u64) -> bool
        ensures there { result ≡ has_queue self.now uid }
        ensures registry { IsRegistry self.now }
    {
        self.state(uid).is_some()
    }

    /// The uid of the dead-letter queue that is asked for, 0 where none is or no queue has its name.
    fn target_uid(&self, wish: &Wish) -> u64
        ensures { result ≡ target_uid self.now wish.now }
    {
        match named_target(wish) {
            Some(name) => self.find(&name).unwrap_or(0),
            None => 0,
        }
    }

    /// Whether a queue of this name may ask for the dead-letter queue.
    fn may_name_target(&self, own: &QueueName, wish: &Wish) -> bool
        ensures { result ≡ may_name_target self.now own.now wish.now }
    {
        match named_target(wish) {
            Some(name) => name.as_text() != own.as_text() && self.find(&name).is_some(),
            None => true,
        }
    }

    /// Creates a queue, and answers its uid. A dead-letter queue that is asked for has to be there and
    /// to be another queue; else it is `InvalidAttributeValue`, which is judged first. A name that a
    /// queue has already answers that queue's uid where its settings in force are as requested, and
    /// else `QueueNameExists`; no clock moves. A new name is `OverLimit` where there are 1,000 queues
    /// or no uid is left. A create that is refused or that finds no memory changes nothing and uses up
    /// no uid.
    pub fn create(
        &mut self,
        alloc: Global,
        at: Moment,
        name: QueueName,
        wish: Wish,
    ) -> Result<u64, Fault>
        ensures answer { Meets result (create_answer self.old name wish) }
        ensures known { opens_queue self.old name wish ≡ false → result ≡ create_answer self.old name wish }
        ensures state { self.new ≡ house_after_create self.old at name wish result }
        ensures found { IfOk result (λ uid. found_uid self.new name ≡ Some uid) }
        ensures others { (other : List ℕ) → other ≢ name → found_uid self.new other ≡ found_uid self.old other }
        ensures registry { IsRegistry self.old }
    {
        let known = self.named(&name);
        if !self.may_name_target(&name, &wish) {
            return Err(Fault::InvalidAttributeValue);
        }
        let target = self.target_uid(&wish);
        if let Some(queue) = known {
            return existing_answer(queue, &wish, target);
        }
        if self.queues.has_no_place() {
            return Err(Fault::OverLimit);
        }
        let settings = Settings::default().with(&wish, target);
        self.open(alloc, at, name, settings, Vec::new(alloc))
    }

    /// The place of the queue of a uid.
    fn place_of(&self, uid: u64) -> Option<usize>
        ensures place { result ≡ position (λ q. q.uid == uid) self.now.queues }
        ensures registry { IsRegistry self.now }
    {
        self.keys.place_of(uid)
    }

    /// Does a command that closes no queue in the queue that was found.
    fn command_at(
        &mut self,
        alloc: Global,
        found: QueuePlace,
        at: Moment,
        command: &Command,
        ticks: &mut Ticks,
    ) -> Result<Reply, Fault>
        requires stays { closes_queue command.now ≡ false }
        requires here { StandsAt self.old found }
        ensures answer { Meets result (queue_answer self.old found.uid at command.now) }
        ensures exact { takes_memory_in self.old found.uid at command.now ≡ false → result ≡ queue_answer self.old found.uid at command.now }
        ensures room { IfSome (queue_of_uid self.old found.uid) (λ q. IsExactWithRoom q (outcome_at q at command.now) result) }
        ensures state { self.new ≡ house_after_command self.old found.uid at command.now result }
        ensures cost { ticks.new ≤ ticks.old + command_ticks self.old found.uid at command.now result }
    {
        let place = found.place;
        self.queues.perform_at(alloc, place, at, command, ticks)
    }

    /// Does a command that closes no queue in the queue of a uid.
    pub(crate) fn command_in(
        &mut self,
        alloc: Global,
        uid: u64,
        at: Moment,
        command: &Command,
        ticks: &mut Ticks,
    ) -> Result<Reply, Fault>
        requires { closes_queue command.now ≡ false }
        ensures answer { Meets result (queue_answer self.old uid at command.now) }
        ensures exact { takes_memory_in self.old uid at command.now ≡ false → result ≡ queue_answer self.old uid at command.now }
        ensures room { IfSome (queue_of_uid self.old uid) (λ q. IsExactWithRoom q (outcome_at q at command.now) result) }
        ensures state { self.new ≡ house_after_command self.old uid at command.now result }
        ensures cost { ticks.new ≤ ticks.old + command_ticks self.old uid at command.now result }
    {
        match self.place_of(uid) {
            Some(place) => self.command_at(alloc, QueuePlace { uid, place }, at, command, ticks),
            None => Err(Fault::QueueDoesNotExist),
        }
    }

    /// Moves the clock of the queue of a uid to a moment, where that is later.
    pub(crate) fn advance_in(&mut self, uid: u64, at: Moment, ticks: &mut Ticks)
        ensures state { self.new ≡ with_queue_changed self.old uid (λ q. at_moment q at) }
        ensures cost { ticks.new ≤ ticks.old + change_ticks self.old uid (λ q. at_moment q at) }
    {
        if let Some(place) = self.place_of(uid) {
            self.queues.advance_at(place, at, ticks);
        }
    }

    /// Whether the queue of a uid may ask for the dead-letter queue under this uid.
    fn may_have_target(&self, own: u64, wish: &Wish, target: u64) -> bool
        ensures { result ≡ may_have_target self.now own wish.now target }
    {
        match named_target(wish) {
            Some(name) => target != own && self.find(&name) == Some(target),
            None => true,
        }
    }

    /// Whether the queue of a uid may be given the settings that a command asks for.
    fn may_set(&self, uid: u64, command: &Command) -> bool
        ensures { result ≡ may_set self.now uid command.now }
    {
        match command {
            Command::Set { wish, target } => self.may_have_target(uid, wish, *target),
            _ => true,
        }
    }

    /// What refuses a command before it comes to the queue of a uid, which is there.
    fn step_refusal(&self, uid: u64, command: &Command) -> Option<Fault>
        requires { has_queue self.now uid ≡ true }
        ensures { result ≡ step_refusal self.now uid command.now }
    {
        if is_internal(command) {
            return Some(Fault::UnsupportedOperation);
        }
        if !self.may_set(uid, command) {
            return Some(Fault::InvalidAttributeValue);
        }
        None
    }

    /// Does a command in the queue that was found, as [`step`](House::step) does. The queue stands where
    /// it stood, and each name finds the queue that it found.
    pub fn step_at(
        &mut self,
        alloc: Global,
        found: QueuePlace,
        at: Moment,
        command: &Command,
        ticks: &mut Ticks,
    ) -> Result<Reply, Fault>
        requires { StandsAt self.old found }
        ensures answer { Meets result (step_answer self.old found.uid at command.now) }
        ensures refused { IfSome (step_refusal self.old found.uid command.now) (λ fault. result ≡ Err fault) }
        ensures exact { takes_memory_at self.old found.uid at command.now ≡ false → result ≡ step_answer self.old found.uid at command.now }
        ensures room { step_refusal self.old found.uid command.now ≡ None → IfSome (queue_of_uid self.old found.uid) (λ q. IsExactWithRoom q (outcome_at q at command.now) result) }
        ensures state { self.new ≡ house_after_step self.old found.uid at command.now result }
        ensures stays { StandsAt self.new found }
        ensures names { (name : List ℕ) → found_uid self.new name ≡ found_uid self.old name }
        ensures cost { ticks.new ≤ ticks.old + step_ticks self.old found.uid at command.now result }
    {
        match self.step_refusal(found.uid, command) {
            Some(fault) => Err(fault),
            None => self.command_at(alloc, found, at, command, ticks),
        }
    }

    /// Does a command in the queue of a uid. Where no queue has the uid it is `QueueDoesNotExist`. The
    /// commands that the registry itself gives, a close ([`delete_queue`](House::delete_queue)) and
    /// those of dead letters ([`move_one`](House::move_one)), are `UnsupportedOperation`. A `Set` whose
    /// dead-letter queue is not there under the uid that is given, or is the queue itself, is
    /// `InvalidAttributeValue`. Each of these changes nothing, and needs no memory. With `OutOfMemory`
    /// only that queue's clock has moved, and after `FirstParcel`, which leaves it, not even that. It is never
    /// the answer where the queue has room for one entry more and the command wants only that, as with
    /// [`QueueState::perform`](queue_core::QueueState::perform).
    pub fn step(
        &mut self,
        alloc: Global,
        uid: u64,
        at: Moment,
        command: &Command,
        ticks: &mut Ticks,
    ) -> Result<Reply, Fault>
        ensures answer { Meets result (step_answer self.old uid at command.now) }
        ensures absent { queue_of_uid self.old uid ≡ None → result ≡ Err Fault.QueueDoesNotExist }
        ensures refused { IfSome (step_refusal self.old uid command.now) (λ fault. result ≡ Err fault) }
        ensures exact { takes_memory_at self.old uid at command.now ≡ false → result ≡ step_answer self.old uid at command.now }
        ensures room { step_refusal self.old uid command.now ≡ None → IfSome (queue_of_uid self.old uid) (λ q. IsExactWithRoom q (outcome_at q at command.now) result) }
        ensures state { self.new ≡ house_after_step self.old uid at command.now result }
        ensures cost { ticks.new ≤ ticks.old + step_ticks self.old uid at command.now result }
        ensures registry { IsRegistry self.old }
    {
        match self.place_of(uid) {
            Some(place) => self.step_at(alloc, QueuePlace { uid, place }, at, command, ticks),
            None => Err(Fault::QueueDoesNotExist),
        }
    }

    /// Closes the queue of a uid, takes it out and hands it over; its name is free. Its journal has
    /// one entry more, which closes it. The uid is never used again. Where no queue has the uid it is
    /// `QueueDoesNotExist`, and changes nothing; with `OutOfMemory` only the queue's clock has moved.
    pub fn take_queue(
        &mut self,
        alloc: Global,
        uid: u64,
        at: Moment,
        ticks: &mut Ticks,
    ) -> Result<QueueState, Fault>
        ensures answer { Meets result (take_answer self.old uid at) }
        ensures absent { queue_of_uid self.old uid ≡ None → result ≡ Err Fault.QueueDoesNotExist }
        ensures state { self.new ≡ house_after_delete self.old uid at result }
        ensures cost { ticks.new ≤ ticks.old + deletion_ticks self.old uid at result }
        ensures journal { IfOk result (λ q. (deleted : List QueueHistory)
            → journal_of (record { house = self.new; deleted = q ∷ deleted }) uid
            ≡ option_map (λ old. closed_journal old at) (queue_of_uid self.old uid)) }
        ensures others { IfOk result (λ q. (deleted : List QueueHistory) (other : ℕ) → other ≢ uid
            → journal_of (record { house = self.new; deleted = q ∷ deleted }) other
            ≡ journal_of (record { house = self.old; deleted = deleted }) other) }
        ensures registry { IsRegistry self.old }
    {
        match self.place_of(uid) {
            Some(place) => {
                let queue = self.queues.close_and_take(alloc, place, at, ticks)?;
                self.keys.remove(place);
                Ok(queue)
            }
            None => Err(Fault::QueueDoesNotExist),
        }
    }

    /// Deletes the queue of a uid, so that its name is free. This is
    /// [`take_queue`](House::take_queue), which closes it, with the queue let go. Where no queue has the uid it is
    /// `QueueDoesNotExist`, and changes nothing; with `OutOfMemory` only the queue's clock has moved.
    pub fn delete_queue(
        &mut self,
        alloc: Global,
        uid: u64,
        at: Moment,
        ticks: &mut Ticks,
    ) -> Result<(), Fault>
        ensures answer { Meets result (delete_answer self.old uid) }
        ensures absent { queue_of_uid self.old uid ≡ None → result ≡ Err Fault.QueueDoesNotExist }
        ensures state { self.new ≡ house_after_delete self.old uid at result }
        ensures cost { ticks.new ≤ ticks.old + deletion_ticks self.old uid at result }
    {
        self.take_queue(alloc, uid, at, ticks)?;
        Ok(())
    }

    /// The names that begin with a prefix, in the order of their bytes. `OutOfMemory` is the only
    /// refusal, where there is such a name.
    pub fn list(&self, alloc: Global, prefix: &str) -> Result<Vec<QueueName>, Fault>
        ensures ok { IfOk result (λ names. names.items ≡ names_in_house self.now prefix.now) }
        ensures registry { IsRegistry self.now }
        ensures errors { IfErr result (λ fault. fault ≡ Fault.OutOfMemory) }
        ensures wants { OnErr result (0 < length (names_in_house self.now prefix.now)) }
    {
        let mut names = Vec::new(alloc);
        for queue in self.queues.as_slice() {
            add_name(&mut names, prefix, queue.name())?;
        }
        in_order(names)
    }

    /// The names of the queues whose dead-letter queue the queue of a uid is, in the order of their
    /// bytes. Where no queue has the uid it is `QueueDoesNotExist`, which needs no memory, as no names do.
    pub fn sources(&self, alloc: Global, uid: u64) -> Result<Vec<QueueName>, Fault>
        ensures answer { Meets (items_of result) (sources_answer self.now uid) }
        ensures absent { queue_of_uid self.now uid ≡ None → result ≡ Err Fault.QueueDoesNotExist }
        ensures wants { OnErr result (has_queue self.now uid ≡ true → 0 < length (sources_in_house self.now uid)) }
        ensures registry { IsRegistry self.now }
    {
        if !self.has_queue(uid) {
            return Err(Fault::QueueDoesNotExist);
        }
        self.source_names(alloc, uid)
    }

    /// The names of the queues whose dead-letter queue is that of a uid.
    fn source_names(&self, alloc: Global, uid: u64) -> Result<Vec<QueueName>, Fault>
        ensures ok { IfOk result (λ names. names.items ≡ sources_in_house self.now uid) }
        ensures errors { IfErr result (λ fault. fault ≡ Fault.OutOfMemory) }
        ensures wants { OnErr result (0 < length (sources_in_house self.now uid)) }
    {
        let mut names = Vec::new(alloc);
        for queue in self.queues.as_slice() {
            if has_target(queue, uid) {
                names.push(queue.name())?;
            }
        }
        in_order(names)
    }

    /// Looks at every queue at a moment, so that each clock is there at least.
    pub fn advance_all(&mut self, at: Moment, ticks: &mut Ticks)
        ensures state { self.new ≡ house_at_moment self.old at }
        ensures cost { ticks.new ≤ ticks.old + moment_ticks at self.old.queues }
        ensures registry { IsRegistry self.old }
    {
        self.queues.advance_all(at, ticks);
    }

    /// Tells of every queue, into an empty list that has room for 1,000.
    pub(crate) fn measure(&self, minute: u64, alarm: usize, metrics: &mut Vec<QueueMetrics>)
        requires empty { metrics.old.items ≡ [] }
        requires room { 1000 ≤ vec_capacity metrics.old }
        ensures { metrics.new.items ≡ map (λ q. metrics_of minute alarm q) self.now.queues }
    {
        for queue in self.queues.as_slice() {
            metrics.push_reserved(metrics_of(minute, alarm, queue));
        }
    }
}
