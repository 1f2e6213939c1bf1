//! What an event does to the messages of a queue.

ghost use Rattle.std.specs.Prelude.{◌≡◌, ℕ, ◌+◌, ◌≤◌, ◌*◌, ◌==◌, ◌||◌, min, not, nat_eq, true, false, None, Some, [], ◌∷◌, ◌++◌, if◌then◌else◌, filter, option_map, option_to_list, position, length, slice_index, slice_set, IsSome};
ghost use Rattle.std.specs.List.{AllPairs, filter_map};
ghost use Rattle.std.specs.Option.{OnSome};
ghost use Rattle.std.specs.VecDeque.{deque_capacity};
ghost use Rattle.indexmap.specs.IndexMap.{get};
ghost use Rattle.metric_window.specs.Flows.{greatest};
ghost use Rattle.queue_core.specs.Messages.{effect_of, contains_number};
ghost use Rattle.queue_core.specs.declared.slot.Stay.TheVariants.{Hidden, Left};
ghost use Rattle.queue_core.specs.private.Slots.{is_here, is_left, is_left_for, one_if};
ghost use Rattle.queue_core.specs.private.Records.{records_in, slots_in, born_in, record_of_birth, records_after, hidden_until, received_at, with_stay, HasIndices, IsIndexed, IsReady};
ghost use Rattle.queue_core.specs.private.Tally.{births};
ghost use Rattle.queue_core.specs.private.Spending.{added, event_adds, left_count, Costs};
ghost use Rattle.queue_core.specs.private.Applying.{CanApply, HaveReceived, HaveCounted, HasChanged, among, where_here, where_left, ended_by, returned_from};

use crate::effect::{Change, effect_of};
use crate::index::MessageIndex;
use crate::record::Record;
use crate::slot::{Slot, Stay, tried};
use indexmap::IndexMap;
use journal::{Event, Moment, Ticks};
use message::Content;
use queue_config::Settings;
use std::collections::VecDeque;

impl MessageIndex {
    /// Makes every change that an event makes of the messages, without memory, by the settings in force until
    /// then and at its time. A message that it begins is given. It is no checkpoint.
    pub(crate) fn apply(
        &mut self,
        settings: Settings,
        at: Moment,
        event: &Event<Content>,
        born: Option<Record>,
        ticks: &mut Ticks,
    )
        requires indexed { IsIndexed self.old }
        requires born { option_to_list born ≡ filter_map (record_of_birth at) (effect_of event.now).births }
        requires ready { OnSome born (IsReady self.old) }
        requires about { CanApply event.now self.old }
        ensures indexed { IsIndexed self.new }
        ensures records { (n : ℕ) → records_in self.new n
            ≡ records_after settings at event.now (born_in self.old) (records_in self.old) n }
        ensures receives { HaveReceived event.now self.old.receives.items self.new.receives.items }
        ensures leaving { self.new.leaving.items
            ≡ filter (λ n. is_left (slots_in self.new n)) self.old.leaving.items ++ (effect_of event.now).departures }
        ensures cost { Costs (births event.now) (event_adds (left_count self.old) event.now) ticks.old self.old ticks.new self.new }
    {
        match effect_of(event).change {
            Change::Nothing => {
                if let Some(kept) = born {
                    self.begin(kept, ticks);
                }
            }
            Change::Receive {
                timeout,
                offered,
                leaving,
                target,
            } => {
                self.depart_all(leaving, target, ticks);
                self.offer_all(offered, at, after_seconds(at, timeout), ticks);
            }
            Change::Reschedule(number, timeout) => {
                self.reschedule(number, after_seconds(at, timeout), ticks);
            }
            Change::Remove(number) => self.delete(number, ticks),
            Change::RemoveAll => self.purge(ticks),
            Change::EndPeriod => self.end_period(settings.retention_seconds, at, ticks),
            Change::Confirm(number) => self.confirm(number, ticks),
            Change::BringBack(target) => self.bring_back(target, at, ticks),
            Change::Close => self.close(ticks),
            Change::Base(_) => {}
        }
    }

    /// Gives the message of a number, which is kept, another slot.
    fn put_slot(&mut self, number: u64, slot: Slot, ticks: &mut Ticks)
        requires indices { HasIndices self.old }
        requires kept { IsSome (records_in self.old number) }
        requires sent { (r : Record) → records_in self.old number ≡ Some r → slot.sent ≡ r.slot.sent }
        ensures change { HasChanged (among (number ∷ []) (λ r. Some (record r { slot = slot }))) self.old self.new }
        ensures receives { self.new.receives.items ≡ self.old.receives.items }
        ensures leaving { self.new.leaving.items ≡ self.old.leaving.items }
        ensures cost { Costs 0 (added (slots_in self.old number) (Some slot)) ticks.old self.old ticks.new self.new }
    {
        let kept = self.records.get(&number).unwrap();
        let (first_receive, last_receive) = (kept.first_receive, kept.last_receive);
        self.rewrite(number, first_receive, last_receive, slot, ticks);
    }

    /// Offers the message of a number, which is there, at a time, and hides it until another. A count of receives stays at
    /// the greatest number, once it is there.
    fn offer(&mut self, number: u64, at: Moment, due: u64, ticks: &mut Ticks)
        requires indices { HasIndices self.old }
        requires here { is_here (slots_in self.old number) ≡ true }
        ensures change { HasChanged (among (number ∷ []) (λ r. Some (hidden_until due (received_at at r)))) self.old self.new }
        ensures receives { self.new.receives.items
            ≡ slice_set self.old.receives.items number (min (slice_index self.old.receives.items number + 1) greatest) }
        ensures leaving { self.new.leaving.items ≡ self.old.leaving.items }
        ensures cost { Costs 0 6 ticks.old self.old ticks.new self.new }
    {
        let kept = self.records.get(&number).unwrap();
        let first_receive = kept.first_receive.unwrap_or(at);
        let slot = Slot {
            stay: Stay::Hidden,
            due,
            is_fresh: false,
            tries: tried(kept.slot.tries),
            ..kept.slot
        };
        self.rewrite(number, Some(first_receive), at, slot, ticks);
        let count = &mut self.receives[number as usize];
        *count = count.saturating_add(1);
    }

    /// Offers the messages of these numbers.
    fn offer_all(&mut self, offered: &[u64], at: Moment, due: u64, ticks: &mut Ticks)
        requires indices { HasIndices self.old }
        requires here { (n : ℕ) → contains_number n offered.now ≡ true → is_here (slots_in self.old n) ≡ true }
        requires once { AllPairs (λ a b. nat_eq a b ≡ false) offered.now }
        ensures change { HasChanged (among offered.now (λ r. Some (hidden_until due (received_at at r)))) self.old self.new }
        ensures receives { HaveCounted offered.now self.old.receives.items self.new.receives.items }
        ensures leaving { self.new.leaving.items ≡ self.old.leaving.items }
        ensures cost { Costs 0 (6 * length offered.now) ticks.old self.old ticks.new self.new }
    {
        for number in offered {
            self.offer(*number, at, due, ticks);
        }
    }

    /// Lets the message of a number, which is there, leave for the dead-letter queue of a uid.
    fn depart(&mut self, number: u64, target: u64, ticks: &mut Ticks)
        requires indices { HasIndices self.old }
        requires here { is_here (slots_in self.old number) ≡ true }
        ensures change { HasChanged (among (number ∷ []) (λ r. Some (with_stay (Left target false) r))) self.old self.new }
        ensures receives { self.new.receives.items ≡ self.old.receives.items }
        ensures leaving { self.new.leaving.items ≡ self.old.leaving.items }
        ensures cost { Costs 0 0 ticks.old self.old ticks.new self.new }
    {
        let kept = self.records.get(&number).unwrap();
        let stay = Stay::Left {
            target,
            ran_out: false,
        };
        let slot = Slot { stay, ..kept.slot };
        self.put_slot(number, slot, ticks);
    }

    /// Lets the messages of these numbers leave for the dead-letter queue of a uid.
    #[tactic(auto, using(crate::proofs::costs::SpendingLemmas::free_then, crate::proofs::costs::SpendingLemmas::costs_none))]
    fn depart_all(&mut self, numbers: &[u64], target: u64, ticks: &mut Ticks)
        requires indices { HasIndices self.old }
        requires here { (n : ℕ) → contains_number n numbers.now ≡ true → is_here (slots_in self.old n) ≡ true }
        requires once { AllPairs (λ a b. nat_eq a b ≡ false) numbers.now }
        requires room { length self.old.leaving.items + length numbers.now ≤ deque_capacity self.old.leaving }
        ensures change { HasChanged (among numbers.now (λ r. Some (with_stay (Left target false) r))) self.old self.new }
        ensures receives { self.new.receives.items ≡ self.old.receives.items }
        ensures leaving { self.new.leaving.items ≡ self.old.leaving.items ++ numbers.now }
        ensures cost { Costs 0 0 ticks.old self.old ticks.new self.new }
    {
        append_reserved(&mut self.leaving, numbers);
        for number in numbers {
            self.depart(*number, target, ticks);
        }
    }

    /// Hides the message of a number until a time, where it is there.
    fn reschedule(&mut self, number: u64, due: u64, ticks: &mut Ticks)
        requires indices { HasIndices self.old }
        ensures change { HasChanged (among (number ∷ []) (where_here (λ r. Some (hidden_until due r)))) self.old self.new }
        ensures receives { self.new.receives.items ≡ self.old.receives.items }
        ensures leaving { self.new.leaving.items ≡ self.old.leaving.items }
        ensures cost { Costs 0 6 ticks.old self.old ticks.new self.new }
    {
        let Some(slot) = self.slot_of(number) else {
            return;
        };
        match slot.stay {
            Stay::Hidden | Stay::Shown => {
                let hidden = Slot {
                    stay: Stay::Hidden,
                    due,
                    ..slot
                };
                self.put_slot(number, hidden, ticks);
            }
            Stay::Left { .. } => {}
        }
    }

    /// Takes the message of a number out, where it is there.
    #[tactic(auto, using(crate::proofs::costs::SpendingLemmas::free_then, crate::proofs::costs::SpendingLemmas::costs_none))]
    fn delete(&mut self, number: u64, ticks: &mut Ticks)
        requires indices { HasIndices self.old }
        ensures change { HasChanged (among (number ∷ []) (where_here (λ r. None))) self.old self.new }
        ensures receives { self.new.receives.items ≡ self.old.receives.items }
        ensures leaving { self.new.leaving.items ≡ self.old.leaving.items }
        ensures cost { Costs 0 0 ticks.old self.old ticks.new self.new }
    {
        let Some(slot) = self.slot_of(number) else {
            return;
        };
        match slot.stay {
            Stay::Hidden | Stay::Shown => self.take_out(number, ticks),
            Stay::Left { .. } => {}
        }
    }

    /// Takes out every message that is there.
    #[tactic(auto, using(crate::proofs::costs::SpendingLemmas::free_then, crate::proofs::costs::SpendingLemmas::costs_none))]
    fn purge(&mut self, ticks: &mut Ticks)
        requires indices { HasIndices self.old }
        ensures change { HasChanged (λ n. where_here (λ r. None)) self.old self.new }
        ensures receives { self.new.receives.items ≡ self.old.receives.items }
        ensures leaving { self.new.leaving.items ≡ self.old.leaving.items }
        ensures cost { Costs 0 0 ticks.old self.old ticks.new self.new }
    {
        while let Some((_, number)) = self.indices.sent.first() {
            self.take_out(number, ticks);
        }
    }

    /// Notes of the message of a number, where it has left, whether its retention in seconds has ended at a time.
    fn note_end(&mut self, number: u64, retention: u32, at: Moment, ticks: &mut Ticks)
        requires indices { HasIndices self.old }
        ensures change { HasChanged (among (number ∷ []) (where_left (ended_by retention at))) self.old self.new }
        ensures receives { self.new.receives.items ≡ self.old.receives.items }
        ensures leaving { self.new.leaving.items ≡ self.old.leaving.items }
        ensures cost { Costs 0 0 ticks.old self.old ticks.new self.new }
    {
        let Some(kept) = self.records.get(&number) else {
            return;
        };
        match kept.slot.stay {
            Stay::Hidden | Stay::Shown => {}
            Stay::Left { target, ran_out } => {
                let end = after_seconds(kept.first_send_time, retention);
                let ran_out = ran_out || end <= at.milliseconds();
                let stay = Stay::Left { target, ran_out };
                let slot = Slot { stay, ..kept.slot };
                self.put_slot(number, slot, ticks);
            }
        }
    }

    /// Notes of every message that has left whether its retention in seconds has ended at a time.
    #[tactic(auto, using(crate::proofs::costs::SpendingLemmas::free_then, crate::proofs::costs::SpendingLemmas::costs_none))]
    fn end_period(&mut self, retention: u32, at: Moment, ticks: &mut Ticks)
        requires indexed { IsIndexed self.old }
        ensures change { HasChanged (λ n. where_left (ended_by retention at)) self.old self.new }
        ensures receives { self.new.receives.items ≡ self.old.receives.items }
        ensures leaving { self.new.leaving.items ≡ self.old.leaving.items }
        ensures cost { Costs 0 0 ticks.old self.old ticks.new self.new }
    {
        for place in 0..self.leaving.len() {
            let number = self.leaving[place];
            self.note_end(number, retention, at, ticks);
        }
    }

    /// Lets the message of a number go, where it has left: the transfer is confirmed.
    #[tactic(auto, using(crate::proofs::costs::SpendingLemmas::free_then, crate::proofs::costs::SpendingLemmas::costs_none))]
    fn confirm(&mut self, number: u64, ticks: &mut Ticks)
        requires indexed { IsIndexed self.old }
        ensures change { HasChanged (among (number ∷ []) (where_left (λ target ran_out r. None))) self.old self.new }
        ensures receives { self.new.receives.items ≡ self.old.receives.items }
        ensures leaving { self.new.leaving.items ≡ filter (λ n. not (n == number)) self.old.leaving.items }
        ensures cost { Costs 0 0 ticks.old self.old ticks.new self.new }
    {
        if remove_number(&mut self.leaving, number) {
            self.take_out(number, ticks);
        }
    }

    /// Brings the message of a number back at a time, where it has left for the dead-letter queue of a uid,
    /// or lets it go there, where it has run out.
    fn return_one(&mut self, number: u64, lost: u64, at: Moment, ticks: &mut Ticks)
        requires indices { HasIndices self.old }
        ensures change { HasChanged (among (number ∷ []) (where_left (returned_from lost at))) self.old self.new }
        ensures receives { self.new.receives.items ≡ self.old.receives.items }
        ensures leaving { self.new.leaving.items ≡ self.old.leaving.items }
        ensures cost { Costs 0 (8 * one_if (is_left_for lost (slots_in self.old number))) ticks.old self.old ticks.new self.new }
    {
        let Some(slot) = self.slot_of(number) else {
            return;
        };
        match slot.stay {
            Stay::Left { target, ran_out } if target == lost => {
                if ran_out {
                    self.take_out(number, ticks);
                } else {
                    let back = Slot {
                        stay: Stay::Hidden,
                        due: at.milliseconds(),
                        is_fresh: false,
                        is_returned: true,
                        ..slot
                    };
                    self.put_slot(number, back, ticks);
                }
            }
            Stay::Hidden | Stay::Shown | Stay::Left { .. } => {}
        }
    }

    /// Brings back at a time what has left for the dead-letter queue of a uid, and lets go what of it has run out.
    fn bring_back(&mut self, lost: u64, at: Moment, ticks: &mut Ticks)
        requires indexed { IsIndexed self.old }
        ensures change { HasChanged (λ n. where_left (returned_from lost at)) self.old self.new }
        ensures receives { self.new.receives.items ≡ self.old.receives.items }
        ensures leaving { self.new.leaving.items ≡ filter (λ n. is_left (slots_in self.new n)) self.old.leaving.items }
        ensures cost { Costs 0 (8 * left_count self.old lost) ticks.old self.old ticks.new self.new }
    {
        for place in 0..self.leaving.len() {
            let number = self.leaving[place];
            self.return_one(number, lost, at, ticks);
        }
        self.forget_returned();
    }

    /// Lets go the numbers of the messages that have not left any more.
    fn forget_returned(&mut self)
        ensures records { self.new.records ≡ self.old.records }
        ensures receives { self.new.receives ≡ self.old.receives }
        ensures indices { self.new.indices ≡ self.old.indices }
        ensures leaving { self.new.leaving.items ≡ filter (λ n. is_left (slots_in self.old n)) self.old.leaving.items }
    {
        let records = &self.records;
        self.leaving.retain(|number| has_left(records, *number));
    }

    /// Takes out every message.
    #[tactic(auto, using(crate::proofs::costs::SpendingLemmas::free_then, crate::proofs::costs::SpendingLemmas::costs_none))]
    fn close(&mut self, ticks: &mut Ticks)
        requires indexed { IsIndexed self.old }
        ensures change { HasChanged (λ n r. None) self.old self.new }
        ensures receives { self.new.receives.items ≡ self.old.receives.items }
        ensures leaving { self.new.leaving.items ≡ [] }
        ensures cost { Costs 0 0 ticks.old self.old ticks.new self.new }
    {
        self.purge(ticks);
        while let Some(number) = self.leaving.pop_front() {
            self.take_out(number, ticks);
        }
    }
}

/// The time so many seconds after another, in milliseconds.
pub(crate) fn after_seconds(at: Moment, seconds: u32) -> u64
    ensures { result ≡ at + 1000 * seconds }
{
    at.milliseconds() + 1000 * u64::from(seconds)
}

/// Whether the message of a number has left.
fn has_left(records: &IndexMap<u64, Record>, number: u64) -> bool
    ensures { result ≡ is_left (option_map (λ r. r.slot) (get nat_eq records.now number)) }
{
    match records.get(&number) {
        Some(kept) => match kept.slot.stay {
            Stay::Hidden | Stay::Shown => false,
            Stay::Left { .. } => true,
        },
        None => false,
    }
}

/// Adds numbers at the end, for which there is room.
fn append_reserved(queue: &mut VecDeque<u64>, numbers: &[u64])
    requires { length queue.old.items + length numbers.now ≤ deque_capacity queue.old }
    ensures { queue.new.items ≡ queue.old.items ++ numbers.now }
{
    for number in numbers {
        queue.push_back_reserved(*number);
    }
}

/// Takes a number out, and tells whether it was there. It is there once at most.
fn remove_number(queue: &mut VecDeque<u64>, number: u64) -> bool
    requires { AllPairs (λ a b. nat_eq a b ≡ false) queue.old.items }
    ensures found { result ≡ contains_number number queue.old.items }
    ensures items { queue.new.items ≡ filter (λ n. not (n == number)) queue.old.items }
{
    match place_of(queue, number) {
        Some(place) => {
            queue.remove(place);
            true
        }
        None => false,
    }
}

/// Where a number first stands.
fn place_of(queue: &VecDeque<u64>, number: u64) -> Option<usize>
    ensures { result ≡ position (λ n. n == number) queue.now.items }
{
    queue.iter().position(|n| *n == number)
}
