//! Which keys each table has. The settings stand in `queue_config`'s table of settings. The other keys
//! and their bounds stand there for itself alone, and here a second time; a test holds one against the
//! other.

use crate::kind::ValueKind;
use crate::spot::Spot;
use queue_config::{ALL_SETTINGS, METRICS, OPERATORS, setting_named, setting_row};
use std::alloc::{AllocError, Global};

pub(crate) const LIMITS: &str = "limits";

pub(crate) const QUEUE: &str = "queue";

pub(crate) const ALARM: &str = "alarm";

pub(crate) const NAME: &str = "name";

pub(crate) const DEAD_LETTER_QUEUE: &str = "dead_letter_queue";

pub(crate) const MAX_RECEIVE_COUNT: &str = "max_receive_count";

pub(crate) const MINUTES: &str = "minutes";

pub(crate) const BREACHES: &str = "breaches";

/// How many minutes an alarm may look at.
const A_TIME: ValueKind = ValueKind::Number {
    least: 1,
    most: 180,
};

/// The keys of a file.
static TOP_KEYS: [(&str, ValueKind); 3] = [
    (LIMITS, ValueKind::Table),
    (QUEUE, ValueKind::Tables),
    (ALARM, ValueKind::Tables),
];

/// The keys of `limits`.
static LIMIT_KEYS: [(&str, ValueKind); 2] = [
    (
        "in_flight",
        ValueKind::Number {
            least: 1,
            most: 120_000,
        },
    ),
    (
        "max_lines",
        ValueKind::Number {
            least: 1,
            most: 16_777_216,
        },
    ),
];

/// The keys of a queue that are no settings.
static QUEUE_KEYS: [(&str, ValueKind); 3] = [
    (NAME, ValueKind::Name),
    (DEAD_LETTER_QUEUE, ValueKind::Name),
    (
        MAX_RECEIVE_COUNT,
        ValueKind::Number {
            least: 1,
            most: 1000,
        },
    ),
];

/// The keys of an alarm.
static ALARM_KEYS: [(&str, ValueKind); 7] = [
    (QUEUE, ValueKind::Name),
    (NAME, ValueKind::Name),
    ("metric", ValueKind::Metric),
    ("operator", ValueKind::Operator),
    (
        "threshold",
        ValueKind::Number {
            least: 0,
            most: i64::MAX,
        },
    ),
    (MINUTES, A_TIME),
    (BREACHES, A_TIME),
];

/// The keys of a table, but for the settings.
pub(crate) fn own_keys(spot: Spot) -> &'static [(&'static str, ValueKind)] {
    match spot {
        Spot::Top => &TOP_KEYS,
        Spot::Limits => &LIMIT_KEYS,
        Spot::Queue(_) => &QUEUE_KEYS,
        Spot::Alarm(_) => &ALARM_KEYS,
        Spot::Queues | Spot::Alarms | Spot::Inside => &[],
    }
}

/// What the value of a setting's key has to be.
fn setting_kind(key: &str) -> Option<ValueKind> {
    for setting in ALL_SETTINGS {
        let row = setting_row(setting);
        if key == row.key {
            let (least, most) = (i64::from(row.least), i64::from(row.most));
            return Some(ValueKind::Number { least, most });
        }
    }
    None
}

/// What the value of a key has to be, where the table knows the key.
pub(crate) fn kind_of(spot: Spot, key: &str) -> Option<ValueKind> {
    for (known, kind) in own_keys(spot) {
        if key == *known {
            return Some(*kind);
        }
    }
    match spot {
        Spot::Queue(_) => setting_kind(key),
        _ => None,
    }
}

/// Whether a table has to have a key.
pub(crate) fn is_required(spot: Spot, key: &str) -> bool {
    match spot {
        Spot::Queue(_) => key == NAME,
        Spot::Alarm(_) => key != BREACHES,
        _ => false,
    }
}

/// All keys of a table.
pub(crate) fn known_keys(alloc: Global, spot: Spot) -> Result<Vec<&'static str>, AllocError> {
    let mut keys = Vec::new(alloc);
    for (key, _) in own_keys(spot) {
        keys.push(*key)?;
    }
    if let Spot::Queue(_) = spot {
        for setting in ALL_SETTINGS {
            keys.push(setting_row(setting).key)?;
        }
    }
    Ok(keys)
}

/// The key that has the setting which a queue's attribute is, as requests name it.
pub(crate) fn key_of_attribute(spot: Spot, name: &str) -> Option<&'static str> {
    match (spot, setting_named(name)) {
        (Spot::Queue(_), Some(setting)) => Some(setting_row(setting).key),
        _ => None,
    }
}

/// The words that a key may have as its value, where there is a table of them.
pub(crate) fn known_words(alloc: Global, kind: ValueKind) -> Result<Vec<&'static str>, AllocError> {
    let mut words = Vec::new(alloc);
    match kind {
        ValueKind::Metric => {
            for (name, _metric) in METRICS {
                words.push(*name)?;
            }
        }
        ValueKind::Operator => {
            for (name, _operator) in OPERATORS {
                words.push(*name)?;
            }
        }
        _ => {}
    }
    Ok(words)
}
