//! The alarms of a queue: the state of a rule, from the metric rows of the minutes that it looks at.
//!
//! - [`metric_value`]: the value that a metric has in a minute. [`satisfies`]: whether a minute is a
//!   breach of a rule.
//! - [`breaches_in`]: how many of these minutes are breaches. [`state_with`] and [`alarm_state_of`]: the
//!   state, by that number and by the rows. [`AlarmState::name`]: how it is written.
//! - [`Alarm`]: the state of one rule, kept from the rows that [`Alarm::minute_closed`] is told. Only
//!   [`Alarm::new`] takes memory.
//! - The functions of `laws` are empty: their contracts are laws about the definitions in `specs/`.
//!
//! Each contract is exact. Which minutes are over, and which rows there are, is for the caller to say.
#![tactic(auto)]

mod kept_alarm;
pub mod laws;
mod minute;
mod state;
#[cfg(test)]
mod tests;

pub use kept_alarm::Alarm;
pub use minute::{metric_value, satisfies};
pub use state::{AlarmState, alarm_state_of, breaches_in, state_with};
