//! What is judged of all queues and alarms together, where each is right by itself.

use crate::finding::{Finding, Problem};
use crate::known::{DEAD_LETTER_QUEUE, NAME, QUEUE};
use crate::spot::{Place, Spot};
use queue_config::{ALARM_LIMIT, QUEUE_LIMIT};
use toml::Value;

/// The text at a key of a table, where there is one.
pub(crate) fn text_at<'t>(table: &'t Value, key: &str) -> Option<&'t str> {
    match table.get(key) {
        Some(value) => value.as_str(),
        None => None,
    }
}

/// Judges all queues and alarms together: how many there are, their names, and then the queues that
/// they name.
pub(crate) fn judge_together<'t>(
    queues: &'t [Value],
    alarms: &'t [Value],
) -> Result<(), Finding<'t>> {
    if QUEUE_LIMIT < queues.len() {
        return Err(Finding {
            place: Spot::Queue(QUEUE_LIMIT).itself(),
            problem: Problem::TooManyQueues,
        });
    }
    judge_numbers(alarms)?;
    judge_queue_names(queues)?;
    judge_alarm_names(alarms)?;
    judge_targets(queues)?;
    for (number, alarm) in alarms.iter().enumerate() {
        if let Some(name) = text_at(alarm, QUEUE) {
            judge_name(Spot::Alarm(number).at(QUEUE), name, queues)?;
        }
    }
    Ok(())
}

/// Judges how many alarms each queue has. The first that is one too many is told.
fn judge_numbers(alarms: &[Value]) -> Result<(), Finding<'_>> {
    for (number, alarm) in alarms.iter().enumerate() {
        let queue = text_at(alarm, QUEUE);
        let before = alarms.iter().take(number);
        let count = before
            .filter(|other| text_at(other, QUEUE) == queue)
            .count();
        if ALARM_LIMIT <= count {
            let queue = queue.unwrap_or("");
            return Err(Finding {
                place: Spot::Alarm(number).itself(),
                problem: Problem::TooManyAlarms { queue },
            });
        }
    }
    Ok(())
}

/// Judges the names of queues. The first that stands before is told.
fn judge_queue_names(queues: &[Value]) -> Result<(), Finding<'_>> {
    for (number, queue) in queues.iter().enumerate() {
        let name = text_at(queue, NAME);
        let mut before = queues.iter().take(number);
        if let Some(first) = before.position(|other| text_at(other, NAME) == name) {
            let first = Spot::Queue(first);
            return Err(Finding {
                place: Spot::Queue(number).at(NAME),
                problem: Problem::QueueTwice { first },
            });
        }
    }
    Ok(())
}

/// Judges the names of alarms, among those of their queue.
fn judge_alarm_names(alarms: &[Value]) -> Result<(), Finding<'_>> {
    for (number, alarm) in alarms.iter().enumerate() {
        let (queue, name) = (text_at(alarm, QUEUE), text_at(alarm, NAME));
        let mut before = alarms.iter().take(number);
        let first = before.position(|other| text_at(other, NAME) == name
            && text_at(other, QUEUE) == queue);
        if let Some(first) = first {
            let (first, queue) = (Spot::Alarm(first), queue.unwrap_or(""));
            return Err(Finding {
                place: Spot::Alarm(number).at(NAME),
                problem: Problem::AlarmTwice { first, queue },
            });
        }
    }
    Ok(())
}

/// Judges the dead-letter queue of each queue, which has to be another one.
fn judge_targets(queues: &[Value]) -> Result<(), Finding<'_>> {
    for (number, queue) in queues.iter().enumerate() {
        if let Some(name) = text_at(queue, DEAD_LETTER_QUEUE) {
            let place = Spot::Queue(number).at(DEAD_LETTER_QUEUE);
            if text_at(queue, NAME) == Some(name) {
                let problem = Problem::OwnTarget { name };
                return Err(Finding { place, problem });
            }
            judge_name(place, name, queues)?;
        }
    }
    Ok(())
}

/// Judges whether a queue has the name.
fn judge_name<'t>(place: Place<'t>, name: &'t str, queues: &[Value]) -> Result<(), Finding<'t>> {
    if queues
        .iter()
        .any(|queue| text_at(queue, NAME) == Some(name))
    {
        return Ok(());
    }
    Err(Finding {
        place,
        problem: Problem::NoSuchQueue { name },
    })
}
