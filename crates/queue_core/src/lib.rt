//! One queue: its journal, its clock, and the commands that it answers.
//!
//! [`QueueState`] keeps the journal, which [`QueueState::journal`] shows, and a clock, and answers from what it
//! keeps beside them: an index of its messages, with a record of each that is there or has left and is not
//! confirmed, their times in order, and counts; the rows of the last minutes; and the state of each alarm. No
//! contract names these. Each command's contract says where the clock is, which never falls, which entry is
//! added and what is answered, by the definitions in `specs/`, which ask the journal alone:
//!
//! - `Messages`: what each event does (`effect_of`), the messages of a journal, their times, retention
//!   and expiry;
//! - `States`: which messages are visible, delayed or in flight, the counts and the age;
//! - `Metrics`: the row of each minute, and the states of alarms;
//! - `Queue`: the outcome of each command;
//! - `Run`: a queue over a list of commands;
//! - `Cost`: how many operations a call may count;
//! - `Ranges`, `Legal`: what commands carry, and which journals a queue can have;
//! - `Summary`, `Standing`: what a queue has to know of its journal, and what follows from that alone.
//!
//! A command that is refused memory moves the clock and nothing else. One that adds no entry and makes no
//! checkpoint needs none. `FirstParcel` is the exception to both: it leaves the clock as it is, and may need
//! memory for the parcel that it hands over. [`QueueState::run`] performs a list of commands: its answers are
//! those of the definitions one after another. What follows from the definitions, as that no message is
//! offered before its due time, stands in the laws, which are functions without a body.
#![tactic(auto)]

mod accepted;
mod ages;
mod applying;
mod command;
mod counts;
mod effect;
pub mod examples;
pub mod facts;
mod index;
mod indices;
mod keeping;
mod laws;
mod metric_laws;
mod offers;
mod parcel;
mod passing;
mod reading;
mod receive_laws;
mod record;
mod reply;
mod slot;
mod standing_laws;
mod state;
mod sum_laws;
mod tally;
#[cfg(test)]
mod tests;
mod watch;

pub use command::{
    Command, Delay, LONGEST_DELAY, LONGEST_TIMEOUT, MOST_OFFERS, Maximum, TimedCommand, Timeout,
};
pub use laws::{
    as_many_are_offered_as_may_be, each_live_message_is_in_one_state,
    each_visible_message_has_its_turn, gauges_need_no_content, looks_tell_what_the_journal_says,
    messages_need_no_content, no_message_is_offered_early, numbers_name_contents,
    offers_are_the_first_in_order, own_refusals_change_nothing_later, refused_calls_change_nothing,
    replies_offer_what_lines_record, what_is_gone_stays_gone,
};
pub use metric_laws::{
    alarms_look_at_rows_of_the_window, refused_calls_count_once, rows_add_up_to_the_journal,
    rows_need_no_content, rows_never_change,
};
pub use metric_window::{Flows, Gauges, Row};
pub use offers::{Offer, Offers};
pub use parcel::{Arrival, Parcel};
pub use reading::{closes, gives_settings, settings_after};
pub use receive_laws::a_receive_stops_behind_its_last_offer;
pub use reply::{Look, Posted, Reply};
pub use standing_laws::{
    a_checkpoint_stands_for_its_entries, answers_follow_from_a_summary, checkpoints_are_equivalent,
    summaries_go_on_alike,
};
pub use state::QueueState;
pub use sum_laws::no_number_of_a_row_is_cut;
