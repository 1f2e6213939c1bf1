//! The journal of a queue: what happened to it, entry by entry. No entry is changed afterwards; a checkpoint
//! can stand for all of them.
//!
//! - [`Moment`]: a time in milliseconds below 2^62.
//! - [`Event`], [`Entry`]: what happened, and when. Both are generic in what stands for a message's
//!   content: a [`Line`] holds the content itself, a [`Mark`] its size in bytes, so that one set of
//!   definitions serves both. [`Origin`] is where a dead letter comes from.
//! - [`Base`]: what a checkpoint says of the entries that it replaced, made of [`Parts`]: each
//!   [`KeptMessage`], each [`TransferKey`], each [`KeptRow`] and the [`KeptFlows`] of a minute.
//! - [`Numbers`]: a list of message numbers.
//! - [`Journal`]: a list of lines with a limit on their weight. [`Journal::push`] adds one at the end or
//!   leaves the journal as it was. [`Journal::reserve`] makes room for lines, which
//!   [`Journal::push_reserved`] then adds without memory. [`Journal::rebase`] puts a checkpoint in the place
//!   of all lines; nothing else changes it.
//! - [`Marks`]: a list of marks. [`Journal::marks`] gives those of the lines from a place on.
//! - [`Ticks`]: the operation counter. A line read by [`Journal::line`] or [`Journal::marks`] costs one, and
//!   so does a comparison of two pairs of a moment and a number by [`Ticks::before`].
//!
//! Contracts see a journal as the list of its lines, its limit and how many more lines it has memory for,
//! and marks as their list.
#![tactic(auto)]

mod base;
mod entry;
mod journal;
mod marks;
mod moment;
mod numbers;
#[cfg(test)]
mod tests;
mod ticks;

pub use base::{Base, KeptFlows, KeptMessage, KeptRow, Parts, TransferKey};
pub use entry::{Entry, Event, Line, Mark, Origin};
pub use journal::Journal;
pub use marks::Marks;
pub use moment::Moment;
pub use numbers::Numbers;
pub use ticks::Ticks;
