//! What a queue's journal says, found by going through all of it. A queue keeps an index of its messages, and
//! answers by that; here each number is asked of the entries anew, as the definitions of `queue_core` say it.
//! No program uses this crate: its test runs commands on a queue, and after each compares what the queue tells
//! with what its journal says, its rows and alarms where a minute has ended.
//!
//! - [`Collected`], [`FirstEntries`]: all lines of a journal, each read once, and the first of them.
//! - [`settings_of`], [`created_time`], [`modified_time`], [`is_closed`]: the settings in force, when the queue
//!   was opened, when it last got settings, and whether it was closed.
//! - [`message_count`], [`message_numbered`], [`content_of`]: the messages, and what each was sent with.
//! - [`receive_count`], [`first_receive_time`], [`last_receive_time`], [`waits_for`], [`awaits_transfer`]: what
//!   became of one.
//! - [`is_in_state`], [`gauges_of`]: the messages in each state at a time, how many, and the age of the oldest.
//! - [`receive_order`], [`numbers_of`]: the visible messages in the order in which they are received.
//! - [`first_transfer`], [`has_accepted`], [`waiting_count`]: the dead letters that wait, and those that came.
//! - [`current_flows`], [`row_of`], [`alarm_state_in`]: what happened in the current minute, the row of a minute,
//!   and the state of an alarm.
//!
//! Each of them computes the definition of its name, or what its contract says by definitions: the result is
//! that of the whole list of entries, for every list, and for rows and alarms for every list in the order of times.
//! Those that make a list may find no memory.
#![tactic(auto)]

mod alarms;
mod begun;
mod entries;
mod metrics;
mod numbering;
mod order;
mod reading;
mod states;
#[cfg(test)]
mod tests;
mod transfers;

pub use alarms::alarm_state_in;
pub use entries::{Collected, FirstEntries, line_at};
pub use metrics::{current_flows, metric_row, minute_flows, row_of};
pub use numbering::Messages;
pub use order::{numbers_of, receive_order};
pub use reading::{
    awaits_transfer, content_of, created_time, first_receive_time, is_closed, last_receive_time,
    message_count, message_numbered, modified_time, settings_of, waits_for,
};
pub use states::{
    count_in_state, course_of, due_time, gauges_of, is_in_state, is_live, offers_number,
    receive_count,
};
pub use transfers::{first_transfer, has_accepted, waiting_count};
