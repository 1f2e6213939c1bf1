//! The order in which a queue's visible messages are offered: pairs of a moment and a message's number.
//!
//! - [`VisibleIndex::put`] adds a pair at its place, [`VisibleIndex::take_first`] takes the least one out,
//!   and [`VisibleIndex::remove`] any other. [`VisibleIndex::get`] reads the pair at a place, and
//!   [`VisibleIndex::len`] tells how many there are.
//! - [`VisibleIndex::reserve`] makes room, and is the only call that takes memory: what was promised a
//!   place is put in without.
//! - Every comparison of two pairs is one operation on the caller's counter. A call that looks for a
//!   place costs no more than four for each of the binary digits of the number of pairs, and four more.
//!
//! Contracts see an index as the list of its pairs, least first, and how many more can be put in without
//! memory.
#![tactic(auto)]

mod index;
#[cfg(test)]
mod tests;

pub use index::VisibleIndex;
