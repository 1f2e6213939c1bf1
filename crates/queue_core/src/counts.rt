//! The counts of a queue's messages and the age of the oldest, by its index.

ghost use Rattle.std.specs.Prelude.{◌≡◌, ℕ, ◌-◌, ◌/◌, true, Some};
ghost use Rattle.queue_core.specs.States.{gauges_of, oldest_age};
ghost use Rattle.queue_core.specs.Queue.{QueueHistory};
ghost use Rattle.queue_core.specs.private.Slots.{has_age};
ghost use Rattle.queue_core.specs.declared.record.Record.{Record};
ghost use Rattle.queue_core.specs.private.Records.{records_in, slots_in, HasIndices};
ghost use Rattle.queue_core.specs.private.Indexed.{IsIndexOf};

use crate::index::MessageIndex;
use journal::Moment;
use metric_window::Gauges;

impl MessageIndex {
    /// The counts and the age at a time to which the index has come.
    pub(crate) fn gauges(&self, at: Moment) -> Gauges
        requires { HasIndices self.now }
        ensures { (q : QueueHistory) → q.clock ≡ at → IsIndexOf q.lines q.clock self.now → result ≡ gauges_of q.lines q.clock }
    {
        Gauges {
            visible: self.indices.visible.len() as u64,
            delayed: self.indices.delayed,
            in_flight: self.indices.in_flight,
            age: self.oldest_age(at),
        }
    }

    /// Whole seconds since the first message came whose age is looked at, 0 where there is none.
    fn oldest_age(&self, at: Moment) -> u64
        requires { HasIndices self.now }
        ensures { (q : QueueHistory) → q.clock ≡ at → IsIndexOf q.lines q.clock self.now → result ≡ oldest_age q.lines q.clock }
    {
        match self.first_with_age() {
            Some(number) => self.age_of(number, at),
            None => 0,
        }
    }

    /// Whole seconds since the message of a number, which is there, came.
    fn age_of(&self, number: u64, at: Moment) -> u64
        requires { has_age (slots_in self.now number) ≡ true }
        ensures { (r : Record) → records_in self.now number ≡ Some r → result ≡ (at - r.enqueue_time) / 1000 }
    {
        match self.records.get(&number) {
            Some(kept) => {
                let since = kept.enqueue_time.milliseconds();
                at.milliseconds().saturating_sub(since) / 1000
            }
            None => unreachable!(),
        }
    }
}
