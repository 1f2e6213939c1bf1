//! What a server tells of the requests that it has answered, and of connections and ports: lines, and how many requests
//! there were.
//!
//! - [`Level`]: which requests get a line.
//! - [`Reply`]: what a request was answered. [`line_for`]: the line for a request, which says of one that was refused what was
//!   wrong with it. [`notice_line`]: the line for a connection or a port.
//! - [`place_of`], [`name_at`]: the actions that are counted, each at its place; [`PLACES`] is how many there are
//!   ([`places_are_all`]).
//! - [`Burst`]: the same line over and over is told once a second, with a count.
//!
//! The definitions stand in `specs/`.
#![tactic(auto)]

mod actions;
mod burst;
mod level;
mod line;
mod object;
mod refusal;
mod reply;
#[cfg(test)]
mod tests;
mod time;

pub use actions::{PLACES, name_at, place_of, places_are_all};
pub use burst::Burst;
pub use level::Level;
pub use line::{line_for, notice_line};
pub use reply::Reply;
