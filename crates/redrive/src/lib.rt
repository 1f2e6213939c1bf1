//! The queue registry: many queues, each under a name and a uid of its own.
//!
//! - [`House`]: the queues themselves. It opens the configured ones, creates and deletes queues, finds
//!   and lists them by name, and hands each command to the queue that it is for.
//! - [`Catalog`]: the name directory, for queues that are kept elsewhere: names, uids and targets.
//!
//! `House` in `specs/` is the registry as a value, and a call is one transition of it: but
//! [`House::move_one`] is two, a hand-over and a confirmation, and [`House::run`] one for each of its steps.
//! `History` has the deleted queues beside it, whose journals the program does not keep: [`House::take_queue`] hands
//! a deleted queue over, closed. `HouseSteps` is the registry over a list of steps, of which each queue
//! sees only its own; [`House::run`] is the main theorem for the whole registry. `Cost` bounds what a
//! call counts by the queues that it comes to. `Listing` is the order of names, of which
//! [`listed_names_ascend`] is a law.
#![tactic(auto)]

mod catalog;
mod dead_letters;
mod house;
mod keys;
mod laws;
mod listing;
mod moved;
mod place;
mod queues;
mod steps;
#[cfg(test)]
mod tests;
pub mod transfer_examples;
mod transfer_laws;

pub use catalog::{Catalog, Registered, UID_LIMIT};
pub use house::House;
pub use keys::Keys;
pub use laws::{histories_begin, listed_names_ascend, refused_steps_change_nothing};
pub use listing::{in_order, is_same_name};
pub use moved::Moved;
pub use place::QueuePlace;
pub use steps::{HouseReply, HouseRun, HouseStep, QueueMetrics};
pub use transfer_laws::{
    each_departure_has_its_fate, each_message_has_one_place, moves_are_steps, moves_leave_fewer,
    no_queue_is_its_own_target, own_steps_are_history_steps, queues_stand_for_their_whole_journals,
    transfers_are_accepted_once,
};
