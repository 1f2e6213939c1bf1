//! The messages of a queue by number.

ghost use Rattle.std.specs.Prelude.{◌≡◌, ℕ, ◌+◌, ◌<◌, ◌≤◌, ◌^◌, nat_eq, true, false, None, Some, Ok, [], ◌∷◌, ◌++◌, length, if◌then◌else◌, is_some, IsSome, IfSome, IfNone, OnOk, IfErr, option_map, option_and_then, count_by};
ghost use Rattle.indexmap.specs.IndexMap.{index_map_len, spare, get, IsUnique};
ghost use Rattle.message.specs.declared.fault.Fault.TheVariants.{OutOfMemory};
ghost use Rattle.queue_core.specs.declared.slot.Stay.TheVariants.{Shown};
ghost use Rattle.std.specs.VecDeque.{deque_capacity};
ghost use Rattle.queue_core.specs.Messages.{effect_of};
ghost use Rattle.queue_core.specs.private.Tally.{births};
ghost use Rattle.queue_core.specs.private.Ages.{IsFirstHere};
ghost use Rattle.queue_core.specs.private.Slots.{one_if, is_hidden, has_age, is_left_for, IsReplaced};
ghost use Rattle.queue_core.specs.private.Records.{records_in, slots_in, born_in, with_stay, with_parts, records_settled, HasIndices, IsIndexed, IsReady, HasSame};
ghost use Rattle.queue_core.specs.private.Settling.{is_due, shown_at, was_sent_by, kept_since};
ghost use Rattle.queue_core.specs.private.Spending.{added, Costs};

use crate::effect::{Change, effect_of};
use crate::indices::{Indices, is_left_for};
use crate::record::Record;
use crate::slot::{Slot, Stay};
use indexmap::IndexMap;
use journal::{Event, Moment, Ticks};
use message::{Content, Fault};
use std::alloc::Global;
use std::collections::VecDeque;

/// The messages that a queue has and those that wait for a dead-letter queue, how often each message that
/// it ever had was received (as far as a `u64` counts), the numbers of those that wait, in the order in which they
/// left, and the indices.
#[derive(Debug, Drop)]
pub(crate) struct MessageIndex {
    pub records: IndexMap<u64, Record>,
    pub receives: Vec<u64>,
    pub leaving: VecDeque<u64>,
    pub indices: Indices,
}

/// Puts a record in under a number, for which there is room.
fn put_record(records: &mut IndexMap<u64, Record>, number: u64, kept: Record)
    requires { 1 ≤ spare records.old }
    ensures records { (n : ℕ) → get nat_eq records.new n ≡ (if nat_eq n number then Some kept else get nat_eq records.old n) }
    ensures len { index_map_len records.new ≤ index_map_len records.old + 1 }
{
    records.insert(number, kept).unwrap();
}

/// Gives the record of a number, which is there, another slot and other times of receives.
fn write_parts(
    records: &mut IndexMap<u64, Record>,
    number: u64,
    first_receive: Option<Moment>,
    last_receive: Moment,
    slot: Slot,
)
    requires { IsSome (get nat_eq records.old number) }
    ensures records { (n : ℕ) → get nat_eq records.new n
        ≡ (if nat_eq n number then option_map (with_parts first_receive last_receive slot) (get nat_eq records.old n) else get nat_eq records.old n) }
    ensures len { index_map_len records.new ≡ index_map_len records.old }
{
    let record = records.get_mut(&number).unwrap();
    record.first_receive = first_receive;
    record.last_receive = last_receive;
    record.slot = slot;
}

/// Takes the record of a number out, where it is there.
fn take_record(records: &mut IndexMap<u64, Record>, number: u64)
    ensures records { (n : ℕ) → get nat_eq records.new n ≡ (if nat_eq n number then None else get nat_eq records.old n) }
    ensures len { index_map_len records.new + one_if (is_some (get nat_eq records.old number)) ≡ index_map_len records.old }
{
    records.swap_remove(&number);
}

impl MessageIndex {
    /// No messages, of a queue that never had one, which take no memory.
    pub(crate) fn new(alloc: Global) -> MessageIndex
        ensures indices { HasIndices result }
        ensures records { (n : ℕ) → records_in result n ≡ None }
        ensures receives { result.receives.items ≡ [] }
        ensures leaving { result.leaving.items ≡ [] }
    {
        MessageIndex {
            records: IndexMap::new(alloc),
            receives: Vec::new(alloc),
            leaving: VecDeque::new(alloc),
            indices: Indices::new(alloc),
        }
    }

    /// How many messages are kept. That none of them is kept twice bounds what going through them costs.
    pub(crate) fn len(&self) -> usize
        ensures count { result ≡ index_map_len self.now.records }
        ensures small { result < 2 ^ 63 }
        ensures unique { IsUnique nat_eq self.now.records }
    {
        self.records.len()
    }

    /// Where the message of a number stands, where it is kept.
    pub(crate) fn slot_of(&self, number: u64) -> Option<Slot>
        ensures { result ≡ slots_in self.now number }
    {
        let record = self.records.get(&number)?;
        Some(record.slot)
    }

    /// How many messages have left for the dead-letter queue of a uid.
    pub(crate) fn left_for(&self, target: u64) -> u64
        ensures { result ≡ count_by (λ n. is_left_for target (slots_in self.now n)) self.now.leaving.items }
    {
        self.leaving
            .iter()
            .filter(|number| is_left_for(self.slot_of(**number), target))
            .count() as u64
    }

    /// The least number of a message whose age is looked at, where there is one.
    pub(crate) fn first_with_age(&self) -> Option<u64>
        requires { HasIndices self.now }
        ensures { IsFirstHere (λ n. has_age (slots_in self.now n)) result }
    {
        self.indices.ages.list.first()
    }

    /// How many of the messages that are kept the list of ages lacks: those that have left, and those that keep failing.
    fn without_age(&self) -> usize
        requires { IsIndexed self.now }
        ensures count { result ≡ length self.now.leaving.items + self.now.indices.failing }
        ensures few { result < 2 ^ 63 }
    {
        self.leaving.len() + self.indices.failing as usize
    }

    /// Makes room for one message more, in all that it will ever be in but the queue of those that have left,
    /// where a receive makes room. `OutOfMemory` is the only refusal.
    pub(crate) fn reserve_one(&mut self, alloc: Global) -> Result<(), Fault>
        requires indexed { IsIndexed self.old }
        requires few { index_map_len self.old.records < 2 ^ 31 }
        ensures same { HasSame self.old self.new }
        ensures indices { HasIndices self.new }
        ensures ok { OnOk result (IsReady self.new) }
        ensures errors { IfErr result (λ fault. fault ≡ OutOfMemory) }
    {
        // No index lacks more of the messages than there are records.
        let room = self.records.len() + 1;
        let lacking = self.without_age() + 1;
        self.indices.reserve(alloc, room, room, room)?;
        let numbers = self.receives.len() + 1;
        self.indices.ages.reserve(alloc, lacking, numbers)?;
        self.records.reserve(1)?;
        self.receives.reserve(1)?;
        Ok(())
    }

    /// Begins a message under the next number, for which there is room.
    pub(crate) fn begin(&mut self, kept: Record, ticks: &mut Ticks)
        requires indices { HasIndices self.old }
        requires ready { IsReady self.old }
        requires sent { kept.slot.sent ≡ kept.first_send_time }
        ensures indices { HasIndices self.new }
        ensures records { (n : ℕ) → records_in self.new n
            ≡ (if nat_eq n (born_in self.old) then Some kept else records_in self.old n) }
        ensures receives { self.new.receives.items ≡ self.old.receives.items ++ 0 ∷ [] }
        ensures leaving { self.new.leaving.items ≡ self.old.leaving.items }
        ensures cost { Costs 1 8 ticks.old self.old ticks.new self.new }
    {
        let number = self.receives.len() as u64;
        self.indices.replace(number, None, Some(kept.slot), ticks);
        put_record(&mut self.records, number, kept);
        self.receives.push_reserved(0);
    }

    /// Gives the message of a number, which is kept, another slot and other times of receives.
    pub(crate) fn rewrite(
        &mut self,
        number: u64,
        first_receive: Option<Moment>,
        last_receive: Moment,
        slot: Slot,
        ticks: &mut Ticks,
    )
        requires indices { HasIndices self.old }
        requires kept { IsSome (records_in self.old number) }
        requires sent { (r : Record) → records_in self.old number ≡ Some r → slot.sent ≡ r.slot.sent }
        ensures indices { HasIndices self.new }
        ensures records { (n : ℕ) → records_in self.new n
            ≡ (if nat_eq n number then option_map (with_parts first_receive last_receive slot) (records_in self.old n) else records_in self.old n) }
        ensures receives { self.new.receives.items ≡ self.old.receives.items }
        ensures leaving { self.new.leaving.items ≡ self.old.leaving.items }
        ensures len { index_map_len self.new.records ≡ index_map_len self.old.records }
        ensures replaced { IsReplaced number (slots_in self.old number) (Some slot) self.old.indices self.new.indices }
        ensures cost { Costs 0 (added (slots_in self.old number) (Some slot)) ticks.old self.old ticks.new self.new }
    {
        let before = self.slot_of(number);
        self.indices.replace(number, before, Some(slot), ticks);
        write_parts(&mut self.records, number, first_receive, last_receive, slot);
    }

    /// Lets the message of a number go, where it is kept.
    pub(crate) fn take_out(&mut self, number: u64, ticks: &mut Ticks)
        requires indices { HasIndices self.old }
        ensures indices { HasIndices self.new }
        ensures records { (n : ℕ) → records_in self.new n
            ≡ (if nat_eq n number then None else records_in self.old n) }
        ensures receives { self.new.receives.items ≡ self.old.receives.items }
        ensures leaving { self.new.leaving.items ≡ self.old.leaving.items }
        ensures len { index_map_len self.new.records + one_if (is_some (records_in self.old number)) ≡ index_map_len self.old.records }
        ensures cost { Costs 0 0 ticks.old self.old ticks.new self.new }
    {
        if let Some(slot) = self.slot_of(number) {
            self.indices.replace(number, Some(slot), None, ticks);
            take_record(&mut self.records, number);
        }
    }

    /// Shows what is due at a time, and lets go what is there and has run out by a retention in seconds.
    pub(crate) fn settle(&mut self, retention: u32, at: Moment, ticks: &mut Ticks)
        requires indices { HasIndices self.old }
        ensures indices { HasIndices self.new }
        ensures records { (n : ℕ) → records_in self.new n
            ≡ records_settled retention at (records_in self.old) n }
        ensures receives { self.new.receives.items ≡ self.old.receives.items }
        ensures leaving { self.new.leaving.items ≡ self.old.leaving.items }
        ensures cost { Costs 0 0 ticks.old self.old ticks.new self.new }
    {
        let at = at.milliseconds();
        self.show_due(at, ticks);
        if let Some(moment) = at.checked_sub(1000 * u64::from(retention)) {
            self.let_go(moment, ticks);
        }
    }

    /// Shows what is hidden and due by a time in milliseconds.
    #[tactic(auto, using(crate::proofs::costs::SpendingLemmas::free_then, crate::proofs::costs::SpendingLemmas::costs_none))]
    fn show_due(&mut self, at: u64, ticks: &mut Ticks)
        requires indices { HasIndices self.old }
        ensures indices { HasIndices self.new }
        ensures records { (n : ℕ) → records_in self.new n ≡ option_map (shown_at at) (records_in self.old n) }
        ensures receives { self.new.receives.items ≡ self.old.receives.items }
        ensures leaving { self.new.leaving.items ≡ self.old.leaving.items }
        ensures cost { Costs 0 0 ticks.old self.old ticks.new self.new }
    {
        while let Some(number) = self.due_by(at) {
            self.show(number, ticks);
        }
    }

    /// Lets go what is there and was first sent by a time in milliseconds.
    #[tactic(auto, using(crate::proofs::costs::SpendingLemmas::free_then, crate::proofs::costs::SpendingLemmas::costs_none))]
    fn let_go(&mut self, moment: u64, ticks: &mut Ticks)
        requires indices { HasIndices self.old }
        ensures indices { HasIndices self.new }
        ensures records { (n : ℕ) → records_in self.new n ≡ option_and_then (kept_since moment) (records_in self.old n) }
        ensures receives { self.new.receives.items ≡ self.old.receives.items }
        ensures leaving { self.new.leaving.items ≡ self.old.leaving.items }
        ensures cost { Costs 0 0 ticks.old self.old ticks.new self.new }
    {
        while let Some(number) = self.sent_by(moment) {
            self.take_out(number, ticks);
        }
    }

    /// The number of a message that is hidden and due by a time in milliseconds, where there is one.
    fn due_by(&self, at: u64) -> Option<u64>
        requires { HasIndices self.now }
        ensures found { IfSome result (λ number. option_map (is_due at) (records_in self.now number) ≡ Some true) }
        ensures none { IfNone result ((n : ℕ) (r : Record) → records_in self.now n ≡ Some r → is_due at r ≡ false) }
    {
        let (moment, number) = self.indices.due.first()?;
        if moment <= at { Some(number) } else { None }
    }

    /// The number of a message that is there and was first sent by a time in milliseconds, where there is
    /// one.
    fn sent_by(&self, moment: u64) -> Option<u64>
        requires { HasIndices self.now }
        ensures found { IfSome result (λ number. option_map (was_sent_by moment) (records_in self.now number) ≡ Some true) }
        ensures none { IfNone result ((n : ℕ) (r : Record) → records_in self.now n ≡ Some r → was_sent_by moment r ≡ false) }
    {
        let (sent, number) = self.indices.sent.first()?;
        if sent <= moment { Some(number) } else { None }
    }

    /// Shows the message of a number, which is hidden.
    fn show(&mut self, number: u64, ticks: &mut Ticks)
        requires indices { HasIndices self.old }
        requires hidden { is_hidden (slots_in self.old number) ≡ true }
        ensures indices { HasIndices self.new }
        ensures records { (n : ℕ) → records_in self.new n
            ≡ (if nat_eq n number then option_map (with_stay Shown) (records_in self.old n) else records_in self.old n) }
        ensures receives { self.new.receives.items ≡ self.old.receives.items }
        ensures leaving { self.new.leaving.items ≡ self.old.leaving.items }
        ensures fewer { self.new.indices.delayed + self.new.indices.in_flight < self.old.indices.delayed + self.old.indices.in_flight }
        ensures cost { Costs 0 0 ticks.old self.old ticks.new self.new }
    {
        let record = &self.records[&number];
        let (first_receive, last_receive) = (record.first_receive, record.last_receive);
        let slot = Slot {
            stay: Stay::Shown,
            ..record.slot
        };
        self.rewrite(number, first_receive, last_receive, slot, ticks);
    }
}

impl MessageIndex {
    /// Makes all growths that an event wants: that of a message that it begins, or of the queue of those that leave.
    /// No other event needs memory. `OutOfMemory` is the only refusal.
    pub(crate) fn make_room(&mut self, alloc: Global, event: &Event<Content>) -> Result<(), Fault>
        requires indexed { IsIndexed self.old }
        requires few { index_map_len self.old.records < 2 ^ 31 }
        requires alone { (effect_of event.now).since ≡ None }
        ensures same { HasSame self.old self.new }
        ensures indexed { IsIndexed self.new }
        ensures calm { (effect_of event.now).births ≡ [] → (effect_of event.now).departures ≡ [] → result ≡ Ok tt }
        ensures ready { OnOk result (1 ≤ births event.now → IsReady self.new) }
        ensures room { OnOk result (length self.new.leaving.items + length (effect_of event.now).departures ≤ deque_capacity self.new.leaving) }
        ensures errors { IfErr result (λ fault. fault ≡ OutOfMemory) }
    {
        let effect = effect_of(event);
        if let Change::Receive { leaving, .. } = effect.change {
            self.leaving.reserve(leaving.len())?;
            return Ok(());
        }
        if effect.birth.is_some() {
            self.reserve_one(alloc)?;
        }
        Ok(())
    }
}
