//! The alarm of one rule, minute by minute.

ghost use Rattle.std.specs.Prelude.{◌≡◌, IfOk};
ghost use Rattle.std.specs.Option.{option_to_list};
ghost use Rattle.alarm.specs.KeptAlarm.{new_alarm, with_minute, breaches_of, kept_state};

use crate::minute::satisfies;
use crate::state::{AlarmState, state_with};
use circular_buffer::HeapCircularBuffer;
use message::QueueName;
use metric_window::Row;
use queue_config::AlarmRule;
use std::alloc::{AllocError, Global};
use std::marker::Model;

/// The alarm of one rule, which is told each minute of a queue when it is over, one after another. It
/// keeps whether the last minutes were breaches, as many as the rule looks at, and no rows.
#[derive(Debug, Drop)]
pub struct Alarm {
    rule: AlarmRule,
    judged: HeapCircularBuffer<bool>,
    /// How many of the minutes that are kept were breaches.
    breaches: u64,
}

impl Model for Alarm {
    ghost use Rattle.std.specs.Prelude.{◌≡◌};
    ghost use Rattle.alarm.specs.KeptAlarm.{KeptAlarm, breaches_of};

    ghost Value = { KeptAlarm };

    ghost view = { λ a. record { rule = a.rule; judged = a.judged.items } };

    ghost invariant = { λ a. (a.judged.capacity ≡ a.rule.minutes) × (a.breaches ≡ breaches_of a.judged.items) };
}

impl Alarm {
    /// The alarm of a queue that was created in the minute that is not over. It takes the memory for all
    /// minutes that the rule looks at, and is the only call that takes any.
    pub fn new(alloc: Global, rule: AlarmRule) -> Result<Alarm, AllocError>
        ensures { IfOk result (λ alarm. alarm ≡ new_alarm rule) }
    {
        let judged = HeapCircularBuffer::with_capacity(alloc, usize::from(rule.minutes))?;
        Ok(Alarm {
            rule,
            judged,
            breaches: 0,
        })
    }

    /// Judges one minute more. That it follows the one before is for the caller to see to: the minute that
    /// the row itself names isn't looked at.
    pub fn minute_closed(&mut self, row: &Row)
        ensures { self.new ≡ with_minute self.old row.now }
    {
        let is_breach = satisfies(&self.rule, row);

        // Its clause says that the minutes are within it, so the sum below cannot overflow.
        let _minutes = self.judged.capacity();
        let before = self.judged.push_back(is_breach);
        self.breaches = self.breaches + breaches_of(Some(is_breach)) - breaches_of(before);
    }

    /// The state after the minutes that it was told.
    pub fn state(&self) -> AlarmState
        ensures { result ≡ kept_state self.now }
    {
        state_with(&self.rule, self.judged.len() as u64, self.breaches)
    }

    /// The name of the rule.
    pub fn name(&self) -> QueueName
        ensures { result ≡ self.now.rule.name }
    {
        self.rule.name
    }
}

/// What a minute, where there is one, adds to the breaches.
fn breaches_of(judged: Option<bool>) -> u64
    ensures { result ≡ breaches_of (option_to_list judged) }
{
    match judged {
        Some(true) => 1,
        Some(false) | None => 0,
    }
}
