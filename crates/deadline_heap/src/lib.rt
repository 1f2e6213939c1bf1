//! Deadlines of messages: a moment for each number, and the least of them at hand.
//!
//! - [`DeadlineHeap::insert`] puts a number in with its moment, [`DeadlineHeap::move_to`] gives it another
//!   moment, and [`DeadlineHeap::remove`] takes it out. [`DeadlineHeap::first`] tells the least pair of a
//!   moment and a number.
//! - [`DeadlineHeap::reserve`] makes room, and is the only call that takes memory: what was promised a
//!   place is put in without.
//! - Every comparison of two pairs is one operation on the caller's counter: at most two for each of the
//!   binary digits of how many numbers there are, and two more. To find a number's place costs none.
//!
//! Contracts see a heap as a finite map from numbers to moments, and how many more numbers can be put in
//! without memory. The map's heap, the table of places and the search in it are seen by no caller.
#![tactic(auto)]

mod deadlines;
mod placed;
mod places;
mod sift;
#[cfg(test)]
mod tests;

pub use deadlines::DeadlineHeap;
