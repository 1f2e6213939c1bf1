//! The call that was made last, beside the queue that it was made to.

use journal::Moment;
use message::Fault;
use queue_core::{Command, Reply};
use std::snapshot::Snapshot;

/// A call, for the proofs alone: the command and the reply take no bytes.
#[derive(Drop)]
pub struct Made {
    pub at: Moment,
    pub command: Snapshot<Command>,
    pub reply: Snapshot<Result<Reply, Fault>>,
}
