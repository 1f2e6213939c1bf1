//! What stands in a queue at a moment.

/// How many messages are in each state, and the age in whole seconds of the oldest live one that was received
/// fewer than three times.
#[derive(Clone, Copy, Debug, PartialEq, Eq)]
pub struct Gauges {
    pub visible: u64,
    pub delayed: u64,
    pub in_flight: u64,
    pub age: u64,
}
