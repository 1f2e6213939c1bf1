//! What readers of a queue's statistics see.
//!
//! [`Sheet`] has the statistics of one queue at one moment. Its fields are public, and `Sheet::of` reads
//! them all from a queue at its clock. Contracts see rows and alarms as lists.
//!
//! [`board`] puts such a sheet where readers see it. A [`Publisher`] is a press of a desk: it prints each
//! turn on the board. A [`Reader`] reads what was printed last, takes no turn of the queue, and waits for
//! nobody. What it has seen or learnt of is never followed by something older.
#![tactic(auto)]

mod alarms;
mod numbers;
mod place;
mod publisher;
mod reader;
mod rule;
mod sheet;
#[cfg(test)]
mod tests;
mod told;

pub use publisher::{Publisher, board};
pub use reader::Reader;
pub use sheet::Sheet;
pub use told::KnownTurns;
