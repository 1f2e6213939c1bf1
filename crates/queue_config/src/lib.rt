//! What a queue is configured with: settings, limits, and the attributes that a request asks for.
//!
//! - [`Setting`] and [`setting_row`]: the table of the settings, one row each with the name of its
//!   attribute, its key in a configuration, its range and its default. What a name,
//!   a key or a number is judged by is read from it.
//! - [`Settings`]: the numbers of a queue, each in its range by the type, and its [`RedrivePolicy`]:
//!   the dead-letter queue, by uid and name, and after how many receives a message goes there.
//!   [`Settings::without_target`] clears the policy for one dead-letter queue.
//! - [`Wish`]: requested attributes. [`Wish::put`] judges one name and value; [`Wish::target`] is the
//!   name of the dead-letter queue that is asked for; [`Settings::with`] gives the settings with what
//!   was requested, and [`Settings::agrees`] says whether they already have all of it.
//! - [`RequestedPolicy`]: the policy that a request asks for, before its queue's uid is known.
//! - [`is_ignored`]: the attributes that are accepted without effect.
//! - [`Limits`]: how many entries a journal has and how many messages may be in flight.
//! - [`AlarmRule`]: when an alarm of a queue is on, by a [`Metric`] and an [`Operator`], each of which
//!   has one table of names.
//! - [`Config`]: what a program is started with, the alarms of its queues among it, those of one queue by [`rules_of`];
//!   [`config_from_text`] and [`config_from_bytes`]: its reading from TOML, or the first [`ConfigFault`].
//! - [`decimal_number`]: the number that a text of decimal digits is.
//! - The function of [`laws`] is empty: its contract is a law about the definitions in `specs/`.
//!
//! Each contract is exact: which texts are taken, with which value, and which refusal comes otherwise.
#![tactic(auto)]

mod alarm_rule;
mod alarm_text;
mod config;
mod config_fault;
mod config_text;
mod decimal;
pub mod laws;
mod limits;
mod metric;
mod named;
mod operator;
mod policy;
mod requested_alarms;
mod requested_queues;
mod setting;
mod settings;
#[cfg(test)]
mod tests;
mod wish;

pub use alarm_rule::{ALARM_LIMIT, AlarmRule};
pub use config::{Config, ConfiguredAlarm, ConfiguredQueue, QUEUE_LIMIT, rules_of};
pub use config_fault::ConfigFault;
pub use config_text::{config_from_bytes, config_from_text};
pub use decimal::decimal_number;
pub use limits::Limits;
pub use metric::{METRICS, Metric, metric_named};
pub use named::named_in;
pub use operator::{OPERATORS, Operator, operator_named};
pub use policy::{RedrivePolicy, RequestedPolicy};
pub use setting::{ALL_SETTINGS, Setting, SettingRow, setting_named, setting_row};
pub use settings::Settings;
pub use wish::{Wish, is_ignored};
