//! What happens while a turn is held.

use std::sync::Wait;

/// What is called in the turn of each call, while the queue is away from the desk: a test can hold a turn so.
pub trait Gate {
    /// Called in the turn of a number, which is how many turns ended before it.
    fn in_turn<R: Wait>(&self, rt: &R, turn: u64);
}

/// Nothing happens.
#[derive(Clone, Copy, Debug)]
pub struct NoGate;

impl Gate for NoGate {
    fn in_turn<R: Wait>(&self, _rt: &R, _turn: u64) {}
}
