//! What a caller of a desk gets.

use message::Fault;
use queue_core::Reply;

/// The answer to a call, and what was told of its turn.
#[derive(Debug, Drop)]
pub struct CallAnswer<T> {
    pub reply: Result<Reply, Fault>,
    /// What the press answered to the turn. `None` where the desk is spent, where memory ran out for the
    /// turn, where `print` answered `None`, and for `FirstParcel`, which changes nothing: its turn is not
    /// printed.
    pub told: Option<T>,
}
