//! What is first wrong with a configuration, in the order of `docs/PROFILE.md`, section 19.

use crate::finding::{Finding, Problem};
use crate::kind::{ValueKind, Verdict};
use crate::known::{
    ALARM, BREACHES, DEAD_LETTER_QUEUE, LIMITS, MAX_RECEIVE_COUNT, MINUTES, QUEUE, is_required,
    kind_of, own_keys,
};
use crate::spot::{Place, Spot};
use crate::together::judge_together;
use toml::{Table, Value};

/// What is first wrong with a configuration, if anything is.
pub(crate) fn first_finding(table: &Table) -> Option<Finding<'_>> {
    match judge(table) {
        Ok(()) => None,
        Err(finding) => Some(finding),
    }
}

/// Judges a whole configuration.
fn judge(table: &Table) -> Result<(), Finding<'_>> {
    for (key, _) in table {
        kind_at(Spot::Top, key.as_str())?;
    }
    if let Some(limits) = table.get(LIMITS) {
        judge_keys(Spot::Limits, table_in(Spot::Top.at(LIMITS), limits)?)?;
    }
    let queues = tables_at(table, QUEUE)?;
    for (number, queue) in queues.iter().enumerate() {
        judge_queue(Spot::Queue(number), queue)?;
    }
    let alarms = tables_at(table, ALARM)?;
    for (number, alarm) in alarms.iter().enumerate() {
        judge_alarm(Spot::Alarm(number), alarm)?;
    }
    judge_together(queues, alarms)
}

/// What the value of a key has to be, where the table knows the key.
fn kind_at(spot: Spot, key: &str) -> Result<ValueKind, Finding<'_>> {
    kind_of(spot, key).ok_or(Finding {
        place: spot.at(key),
        problem: Problem::UnknownKey,
    })
}

/// The table that a value is.
fn table_in<'t>(place: Place<'t>, value: &'t Value) -> Result<&'t Table, Finding<'t>> {
    let wanted = ValueKind::Table;
    value.as_table().ok_or(Finding {
        place,
        problem: Problem::WrongKind { value, wanted },
    })
}

/// The elements of the array at a key of the file, which need not be there.
fn tables_at<'t>(table: &'t Table, key: &'static str) -> Result<&'t [Value], Finding<'t>> {
    let Some(value) = table.get(key) else {
        return Ok(&[]);
    };
    match value.as_array() {
        Some(tables) => Ok(tables.as_slice()),
        None => Err(Finding {
            place: Spot::Top.at(key),
            problem: Problem::WrongKind {
                value,
                wanted: ValueKind::Tables,
            },
        }),
    }
}

/// Judges the keys of a table, one after another, and then whether those are there that have to be.
fn judge_keys(spot: Spot, table: &Table) -> Result<(), Finding<'_>> {
    for (key, value) in table {
        judge_key(spot, key.as_str(), value)?;
    }
    for (key, _) in own_keys(spot) {
        if is_required(spot, key) && table.get(*key).is_none() {
            return Err(Finding {
                place: spot.itself(),
                problem: Problem::Missing { key },
            });
        }
    }
    Ok(())
}

/// Judges a key and its value.
fn judge_key<'t>(spot: Spot, key: &'t str, value: &'t Value) -> Result<(), Finding<'t>> {
    let wanted = kind_at(spot, key)?;
    let problem = match wanted.verdict(value) {
        Verdict::Fits => return Ok(()),
        Verdict::WrongKind => Problem::WrongKind { value, wanted },
        Verdict::OutOfRange => Problem::OutOfRange { value, wanted },
    };
    Err(Finding {
        place: spot.at(key),
        problem,
    })
}

/// Judges a queue by itself.
fn judge_queue(spot: Spot, queue: &Value) -> Result<(), Finding<'_>> {
    let table = table_in(spot.itself(), queue)?;
    judge_keys(spot, table)?;
    judge_pair(spot, table, DEAD_LETTER_QUEUE, MAX_RECEIVE_COUNT)?;
    judge_pair(spot, table, MAX_RECEIVE_COUNT, DEAD_LETTER_QUEUE)
}

/// Judges whether the other key stands where the one does.
fn judge_pair<'t>(
    spot: Spot,
    table: &'t Table,
    key: &'static str,
    other: &'static str,
) -> Result<(), Finding<'t>> {
    if table.get(key).is_some() && table.get(other).is_none() {
        return Err(Finding {
            place: spot.at(key),
            problem: Problem::Alone { key, other },
        });
    }
    Ok(())
}

/// Judges an alarm by itself.
fn judge_alarm(spot: Spot, alarm: &Value) -> Result<(), Finding<'_>> {
    let table = table_in(spot.itself(), alarm)?;
    judge_keys(spot, table)?;
    match (number_at(table, BREACHES), number_at(table, MINUTES)) {
        (Some(breaches), Some(minutes)) if minutes < breaches => Err(Finding {
            place: spot.at(BREACHES),
            problem: Problem::TooManyBreaches { breaches, minutes },
        }),
        _ => Ok(()),
    }
}

/// The whole number at a key.
fn number_at(table: &Table, key: &str) -> Option<i64> {
    match table.get(key) {
        Some(value) => value.as_integer(),
        None => None,
    }
}
