//! One queue shared by threads.
//!
//! A [`Desk`] is a lock round one queue that lets callers in by tickets. [`Desk::ask`] waits for a turn,
//! calls the queue in it, and answers. Who calls carries a [`Pass`], which takes no bytes: it stands for
//! what its caller has seen of the one history of all calls, and for the calls that are its own.
//!
//! - `History`: the history of calls, the queue that it leaves, and when it is legal;
//! - `Views`: what a pass knows, what a call adds to it, what two passes know that met;
//! - `Printed`: what a [`Press`] is told of each turn;
//! - `Rule`, `Steps`: what holds between any two steps of any threads, and what each step tells. No
//!   public contract names them.
//!
//! Every answer is what a single thread would have got at its place of one history, which goes on from
//! all that its caller had seen. [`Desk::glance`], [`Desk::pass`], [`Desk::note`], [`Desk::meet`] and
//! [`Desk::end_pass`] take no turn and cannot wait. That a turn comes is not promised.
#![tactic(auto)]

mod asked;
mod desk;
mod gate;
mod held;
mod kept_rows;
mod made;
mod pass;
mod printing;
mod rule;
#[cfg(test)]
mod tests;
mod turn;
mod view;

pub use asked::CallAnswer;
pub use desk::Desk;
pub use gate::{Gate, NoGate};
pub use pass::{Note, Pass};
pub use printing::{NoPress, Press};
pub use turn::Turn;
