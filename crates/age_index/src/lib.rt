//! The oldest live message of a queue: the least of some numbers, of which each is kept at a slot.
//!
//! - [`AgeIndex::add`] puts a number in and tells the slot that it is at, [`AgeIndex::remove`] takes out the
//!   number at a slot, and [`AgeIndex::first`] tells the least number.
//! - [`AgeIndex::reserve`] makes room, and is the only call that takes memory: what was promised a slot is
//!   put in without.
//! - The numbers stand in a list that is linked by slots, so that `remove` and `first` take the same time
//!   whatever the number of entries. `add` looks for its place from the end, where the newest message stands:
//!   it passes one entry for each greater number.
//!
//! Contracts see an index as a finite map from numbers to slots, and how many more numbers can be put in
//! without memory. The links and the free slots are seen by no caller.
#![tactic(auto)]

mod ages;
mod chain;
mod link;
mod node;
#[cfg(test)]
mod tests;

pub use ages::AgeIndex;
