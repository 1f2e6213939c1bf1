//! The metrics of a minute.

use crate::flows::Flows;
use crate::gauges::Gauges;

/// The metrics of one minute of a queue.
#[derive(Clone, Copy, Debug, PartialEq, Eq)]
pub struct Row {
    /// Minutes since the moment 0.
    pub minute: u64,
    /// What happened in it.
    pub flows: Flows,
    /// What stood there at its last millisecond.
    pub gauges: Gauges,
}
