//! What is wrong with a configuration.

use crate::kind::ValueKind;
use crate::spot::{Place, Spot};
use queue_config::ConfigFault;
use toml::Value;

/// What is first wrong with a configuration, and where.
#[derive(Clone, Copy)]
pub(crate) struct Finding<'t> {
    pub(crate) place: Place<'t>,
    pub(crate) problem: Problem<'t>,
}

/// What is wrong there.
#[derive(Clone, Copy)]
pub(crate) enum Problem<'t> {
    /// The table does not know the key.
    UnknownKey,
    /// A value is of another kind than is wanted.
    WrongKind {
        value: &'t Value,
        wanted: ValueKind,
    },
    /// A value is of the kind that is wanted, and not among those that are taken.
    OutOfRange {
        value: &'t Value,
        wanted: ValueKind,
    },
    /// The table lacks a key.
    Missing {
        key: &'static str,
    },
    /// One key of a policy stands without the other.
    Alone {
        key: &'static str,
        other: &'static str,
    },
    TooManyBreaches {
        breaches: i64,
        minutes: i64,
    },
    TooManyQueues,
    /// The queue of the alarm has too many.
    TooManyAlarms {
        queue: &'t str,
    },
    /// A queue before it has the name.
    QueueTwice {
        first: Spot,
    },
    /// An alarm before it is of the same queue and has the name.
    AlarmTwice {
        first: Spot,
        queue: &'t str,
    },
    /// The file has no queue of the name that is the value.
    NoSuchQueue {
        name: &'t str,
    },
    /// The queue is named as its own dead-letter queue.
    OwnTarget {
        name: &'t str,
    },
}

impl Finding<'_> {
    /// The fault that it is.
    pub(crate) fn fault(self) -> ConfigFault {
        match self.problem {
            Problem::UnknownKey => ConfigFault::UnknownKey,
            Problem::WrongKind { .. } | Problem::Missing { .. } | Problem::Alone { .. } => {
                ConfigFault::WrongKind
            }
            Problem::OutOfRange { .. }
            | Problem::TooManyBreaches { .. }
            | Problem::TooManyQueues
            | Problem::TooManyAlarms { .. } => ConfigFault::OutOfRange,
            Problem::QueueTwice { .. } | Problem::AlarmTwice { .. } => ConfigFault::NameTwice,
            Problem::NoSuchQueue { .. } | Problem::OwnTarget { .. } => ConfigFault::NoSuchTarget,
        }
    }
}
