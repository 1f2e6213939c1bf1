//! Where something stands in a configuration, by the tables that lead there.

use crate::known::{ALARM, LIMITS, QUEUE};

/// Where a value stands, as far as something is looked for in it.
#[derive(Clone, Copy, Debug, PartialEq, Eq)]
pub(crate) enum Spot {
    /// The whole file.
    Top,
    /// The value of `limits`.
    Limits,
    /// The value of `queue`.
    Queues,
    /// One of the queues, counted from 0.
    Queue(usize),
    /// The value of `alarm`.
    Alarms,
    /// One of the alarms, counted from 0.
    Alarm(usize),
    /// In the value of any other key.
    Inside,
}

/// A table, or a key of one.
#[derive(Clone, Copy, Debug, PartialEq, Eq)]
pub(crate) struct Place<'t> {
    pub(crate) spot: Spot,
    /// None: the table itself.
    pub(crate) key: Option<&'t str>,
}

impl Spot {
    /// Where the value of a key stands.
    pub(crate) fn below(self, key: &str) -> Spot {
        if self != Spot::Top {
            Spot::Inside
        } else if key == LIMITS {
            Spot::Limits
        } else if key == QUEUE {
            Spot::Queues
        } else if key == ALARM {
            Spot::Alarms
        } else {
            Spot::Inside
        }
    }

    /// Where an element of an array stands, counted from 0.
    pub(crate) fn element(self, number: usize) -> Spot {
        match self {
            Spot::Queues => Spot::Queue(number),
            Spot::Alarms => Spot::Alarm(number),
            _ => Spot::Inside,
        }
    }

    /// The table itself.
    pub(crate) fn itself(self) -> Place<'static> {
        Place {
            spot: self,
            key: None,
        }
    }

    /// A key of the table.
    pub(crate) fn at(self, key: &str) -> Place<'_> {
        Place {
            spot: self,
            key: Some(key),
        }
    }
}
