//! The last minutes of a queue and its alarms, which are told each minute that ends.

ghost use Rattle.std.specs.Prelude.{◌≡◌, ◌≤◌, ◌<◌, map, length, IfOk, IfErr};
ghost use Rattle.std.specs.List.{All};
ghost use Rattle.message.specs.declared.fault.Fault.TheVariants.{OutOfMemory};
ghost use Rattle.metric_window.specs.KeptRows.{opened_at, current_row, with_closed};
ghost use Rattle.metric_window.specs.Window.{longest_window};
ghost use Rattle.alarm.specs.KeptAlarm.{new_alarm, with_minute};

use alarm::Alarm;
use message::Fault;
use metric_window::{Gauges, Row, Window};
use queue_config::AlarmRule;
use std::alloc::Global;

/// The rows of the last minutes, what has happened in the one that is not over, and the queue's alarms.
#[derive(Debug, Drop)]
pub(crate) struct Watch {
    pub window: Window,
    pub alarms: Vec<Alarm>,
}

impl Watch {
    /// That of a queue with these rules, which begins in a minute. It takes all memory that will ever be
    /// needed. `OutOfMemory` is the only refusal.
    pub(crate) fn open(alloc: Global, minute: u64, rules: &[AlarmRule]) -> Result<Watch, Fault>
        ensures window { IfOk result (λ watch. watch.window ≡ opened_at minute) }
        ensures alarms { IfOk result (λ watch. watch.alarms.items ≡ map new_alarm rules.now) }
        ensures allowed { IfOk result (λ watch. All (λ rule. rule.minutes ≤ longest_window) rules.now) }
        ensures errors { IfErr result (λ fault. fault ≡ OutOfMemory) }
    {
        let window = Window::open(alloc, minute)?;
        let alarms = open_alarms(alloc, rules)?;
        Ok(Watch { window, alarms })
    }

    /// The minute that is not over.
    pub(crate) fn minute(&self) -> u64
        ensures minute { result ≡ self.now.window.minute }
        ensures most { length self.now.window.rows ≤ longest_window }
    {
        self.window.span().1
    }

    /// Ends the minute, at whose last millisecond these gauges stood, and tells the alarms.
    pub(crate) fn close_minute(&mut self, gauges: Gauges)
        ensures window { self.new.window ≡ with_closed self.old.window gauges }
        ensures alarms { self.new.alarms.items ≡ map (λ alarm. with_minute alarm (current_row self.old.window gauges)) self.old.alarms.items }
    {
        let row = Row {
            minute: self.minute(),
            flows: self.window.current(),
            gauges,
        };
        self.window.close_minute(gauges);
        tell(&mut self.alarms, &row);
    }
}

/// An alarm for each rule, which was told of no minute. `OutOfMemory` is the only refusal.
fn open_alarms(alloc: Global, rules: &[AlarmRule]) -> Result<Vec<Alarm>, Fault>
    ensures alarms { IfOk result (λ alarms. alarms.items ≡ map new_alarm rules.now) }
    ensures allowed { IfOk result (λ alarms. All (λ rule. rule.minutes ≤ longest_window) rules.now) }
    ensures errors { IfErr result (λ fault. fault ≡ OutOfMemory) }
{
    let mut alarms = Vec::new(alloc);
    for rule in rules {
        // A field that is read tells the proof that the numbers are in range.
        let _minutes = rule.minutes;
        alarms.push(Alarm::new(alloc, *rule)?)?;
    }
    Ok(alarms)
}

/// Tells each alarm the row of a minute that has ended.
fn tell(alarms: &mut Vec<Alarm>, row: &Row)
    ensures { alarms.new.items ≡ map (λ alarm. with_minute alarm row.now) alarms.old.items }
{
    for alarm in alarms.iter_mut() {
        alarm.minute_closed(row);
    }
}
