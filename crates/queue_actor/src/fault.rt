//! Why an ask has no answer.

use desk::{Pass, Press};
use message::Fault;

/// Why an ask has no answer.
#[derive(Drop)]
pub struct AskFault<P: Press> {
    /// `OutOfMemory`, or `ActorGone` where the queue's actor has ended.
    pub fault: Fault,
    /// The pass that the ask was made with, where the mail never left. `None` where it left and was
    /// dropped.
    pub pass: Option<Pass<P>>,
}
