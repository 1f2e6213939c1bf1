//! Indices of messages by their times and numbers, and counts of those that cannot be received yet.

ghost use Rattle.std.specs.Prelude.{◌≡◌, ℕ, ◌+◌, ◌*◌, ◌<◌, ◌≤◌, ◌^◌, true, false, nat_eq, if◌then◌else◌, None, is_some, AllPairs, OnOk, length};
ghost use Rattle.std.specs.FinMap as finite;
ghost use Rattle.journal.specs.Order.{is_before};
ghost use Rattle.visible_index.specs.Pairs.{has_pair};
ghost use Rattle.queue_core.specs.private.Slots.{due_in, sent_in, is_here, is_left, is_left_for, is_delayed, is_in_flight, has_age, is_failing, one_if, CanReplace, IsReplaced, AreIndexed};
ghost use Rattle.queue_core.specs.private.Changes.{shown_in, is_at, IsReserved, HasRoom};
ghost use Rattle.queue_core.specs.private.Spending.{spent, AreBelow, moved, added, KeepsSent};

use crate::ages::Ages;
use crate::slot::{FAILING_RECEIVES, Slot, Stay};
use deadline_heap::DeadlineHeap;
use journal::Ticks;
use std::alloc::{AllocError, Global};
use visible_index::VisibleIndex;

/// When the hidden messages are due and when all that are there were first sent, those that may be received in
/// their order, how many of the hidden ones are delayed and in flight, those whose age is looked at by number, and how
/// many are there beside these.
#[derive(Debug, Drop)]
pub(crate) struct Indices {
    pub due: DeadlineHeap,
    pub sent: DeadlineHeap,
    pub visible: VisibleIndex,
    pub delayed: u64,
    pub in_flight: u64,
    pub failing: u64,
    pub ages: Ages,
}

impl Indices {
    /// Indices of no messages, which take no memory.
    pub(crate) fn new(alloc: Global) -> Indices
        ensures { AreIndexed (λ n. None) 0 result }
    {
        Indices {
            due: DeadlineHeap::new(alloc),
            sent: DeadlineHeap::new(alloc),
            visible: VisibleIndex::new(alloc),
            delayed: 0,
            in_flight: 0,
            failing: 0,
            ages: Ages::new(alloc),
        }
    }

    /// Makes room for so many numbers more among those that are due, that were sent and that are visible.
    /// `AllocError` is the only refusal.
    pub(crate) fn reserve(
        &mut self,
        alloc: Global,
        due: usize,
        sent: usize,
        visible: usize,
    ) -> Result<(), AllocError>
        ensures same { IsReserved self.old self.new }
        ensures ok { OnOk result (HasRoom due sent visible self.new) }
    {
        self.due.reserve(alloc, due)?;
        self.sent.reserve(alloc, sent)?;
        self.visible.reserve(alloc, visible)
    }

    /// Gives a number another slot, or its first, or none.
    pub(crate) fn replace(
        &mut self,
        number: u64,
        before: Option<Slot>,
        after: Option<Slot>,
        ticks: &mut Ticks,
    )
        requires { CanReplace number before after self.old }
        ensures replaced { IsReplaced number before after self.old self.new }
        ensures cost { (c : ℕ) → AreBelow c self.old → KeepsSent before after
            → spent c ticks.new self.new ≤ spent c ticks.old self.old + 2 * (c + 1) * added before after }
    {
        replace_moment(&mut self.due, number, due_in(before), due_in(after), ticks);
        replace_moment(
            &mut self.sent,
            number,
            sent_in(before),
            sent_in(after),
            ticks,
        );
        replace_pair(
            &mut self.visible,
            number,
            shown_in(before),
            shown_in(after),
            ticks,
        );
        self.delayed = self.delayed - u64::from(is_delayed(before)) + u64::from(is_delayed(after));
        self.in_flight = self.in_flight - u64::from(is_in_flight(before))
            + u64::from(is_in_flight(after));
        self.failing = self.failing - u64::from(is_failing(before)) + u64::from(is_failing(after));
        self.ages.replace(number, has_age(before), has_age(after));
    }
}

/// When it is due, where it is hidden.
fn due_in(slot: Option<Slot>) -> Option<u64>
    ensures { result ≡ due_in slot }
{
    let slot = slot?;
    match slot.stay {
        Stay::Hidden => Some(slot.due),
        Stay::Shown | Stay::Left { .. } => None,
    }
}

/// When it was first sent, where it is there.
fn sent_in(slot: Option<Slot>) -> Option<u64>
    ensures { result ≡ sent_in slot }
{
    let slot = slot?;
    match slot.stay {
        Stay::Hidden | Stay::Shown => Some(slot.sent),
        Stay::Left { .. } => None,
    }
}

/// When it is due, where it is shown.
fn shown_in(slot: Option<Slot>) -> Option<u64>
    ensures { result ≡ shown_in slot }
{
    let slot = slot?;
    match slot.stay {
        Stay::Shown => Some(slot.due),
        Stay::Hidden | Stay::Left { .. } => None,
    }
}

/// Whether it is hidden, and was never received nor brought back.
fn is_delayed(slot: Option<Slot>) -> bool
    ensures { result ≡ is_delayed slot }
{
    match slot {
        Some(slot) => matches!(slot.stay, Stay::Hidden) && slot.is_fresh,
        None => false,
    }
}

/// Whether it is hidden, and was received or brought back.
pub(crate) fn is_in_flight(slot: Option<Slot>) -> bool
    ensures { result ≡ is_in_flight slot }
{
    match slot {
        Some(slot) => matches!(slot.stay, Stay::Hidden) && !slot.is_fresh,
        None => false,
    }
}

/// Whether it is there, and does not keep failing.
fn has_age(slot: Option<Slot>) -> bool
    ensures { result ≡ has_age slot }
{
    match slot {
        Some(slot) => matches!(slot.stay, Stay::Hidden | Stay::Shown)
            && slot.tries < FAILING_RECEIVES,
        None => false,
    }
}

/// Whether it is there, and keeps failing.
fn is_failing(slot: Option<Slot>) -> bool
    ensures { result ≡ is_failing slot }
{
    match slot {
        Some(slot) => matches!(slot.stay, Stay::Hidden | Stay::Shown)
            && slot.tries >= FAILING_RECEIVES,
        None => false,
    }
}

/// Whether it is there.
pub(crate) fn is_here(slot: Option<Slot>) -> bool
    ensures { result ≡ is_here slot }
{
    match slot {
        Some(slot) => matches!(slot.stay, Stay::Hidden | Stay::Shown),
        None => false,
    }
}

/// Whether it has left for a dead-letter queue.
pub(crate) fn is_left(slot: Option<Slot>) -> bool
    ensures { result ≡ is_left slot }
{
    match slot {
        Some(slot) => matches!(slot.stay, Stay::Left { .. }),
        None => false,
    }
}

/// Whether it has left for the dead-letter queue of a uid.
pub(crate) fn is_left_for(slot: Option<Slot>, uid: u64) -> bool
    ensures { result ≡ is_left_for uid slot }
{
    match slot {
        Some(slot) => matches!(slot.stay, Stay::Left { target, .. } if target == uid),
        None => false,
    }
}

/// Gives a number of a heap another moment, or its first, or none.
fn replace_moment(
    heap: &mut DeadlineHeap,
    number: u64,
    before: Option<u64>,
    after: Option<u64>,
    ticks: &mut Ticks,
)
    requires before { finite.get heap.old.moments number ≡ before }
    requires room { before ≡ None → 1 ≤ heap.old.spare }
    ensures moments { (n : ℕ) → finite.get heap.new.moments n
        ≡ (if nat_eq n number then after else finite.get heap.old.moments n) }
    ensures spare { heap.new.spare + one_if (is_some after) ≡ heap.old.spare + one_if (is_some before) }
    ensures cost { (c : ℕ) → finite.len heap.old.moments < 2 ^ c → ticks.new ≤ ticks.old + 2 * (c + 1) * moved before after }
{
    if before == after {
        return;
    }
    match (before, after) {
        (None, None) => {}
        (None, Some(moment)) => heap.insert(number, moment, ticks),
        (Some(_), Some(moment)) => heap.move_to(number, moment, ticks),
        (Some(_), None) => {
            heap.remove(number, ticks);
        }
    }
}

/// Takes a number out of the order, where it stands there at a moment.
fn remove_pair(visible: &mut VisibleIndex, number: u64, before: Option<u64>, ticks: &mut Ticks)
    requires before { (moment : ℕ) → has_pair (moment, number) visible.old.pairs ≡ is_at before moment }
    requires strict { AllPairs (λ a b. is_before a b ≡ true) visible.old.pairs }
    ensures pairs { (moment n : ℕ) → has_pair (moment, n) visible.new.pairs
        ≡ (if nat_eq n number then false else has_pair (moment, n) visible.old.pairs) }
    ensures strict { AllPairs (λ a b. is_before a b ≡ true) visible.new.pairs }
    ensures spare { visible.new.spare ≡ visible.old.spare + one_if (is_some before) }
    ensures len { length visible.new.pairs + one_if (is_some before) ≡ length visible.old.pairs }
    ensures cost { (c : ℕ) → length visible.old.pairs < 2 ^ c → ticks.new ≤ ticks.old + 2 * (c + 1) * (2 * one_if (is_some before)) }
{
    if let Some(moment) = before {
        visible.remove(moment, number, ticks);
    }
}

/// Gives a number another moment in the order, or its first, or none.
fn replace_pair(
    visible: &mut VisibleIndex,
    number: u64,
    before: Option<u64>,
    after: Option<u64>,
    ticks: &mut Ticks,
)
    requires before { (moment : ℕ) → has_pair (moment, number) visible.old.pairs ≡ is_at before moment }
    requires strict { AllPairs (λ a b. is_before a b ≡ true) visible.old.pairs }
    requires room { before ≡ None → 1 ≤ visible.old.spare }
    ensures pairs { (moment n : ℕ) → has_pair (moment, n) visible.new.pairs
        ≡ (if nat_eq n number then is_at after moment else has_pair (moment, n) visible.old.pairs) }
    ensures strict { AllPairs (λ a b. is_before a b ≡ true) visible.new.pairs }
    ensures spare { visible.new.spare + one_if (is_some after) ≡ visible.old.spare + one_if (is_some before) }
    ensures len { length visible.new.pairs + one_if (is_some before) ≡ length visible.old.pairs + one_if (is_some after) }
    ensures cost { (c : ℕ) → length visible.old.pairs < 2 ^ c
        → ticks.new ≤ ticks.old + 2 * (c + 1) * (2 * (one_if (is_some before) + one_if (is_some after))) }
{
    if before == after {
        return;
    }
    remove_pair(visible, number, before, ticks);
    if let Some(moment) = after {
        visible.put(moment, number, ticks);
    }
}
