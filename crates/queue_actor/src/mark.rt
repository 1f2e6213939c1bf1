//! What shows that a queue was added to a directory.

ghost use Rattle.std.specs.Prelude.{List, ◌≡◌, [], ◌∷◌, ◌++◌};

use crate::directory::DirectoryEntries;
use desk::Press;
use queue_core::QueueState;
use std::marker::Model;
use std::snapshot::Snapshot;

/// That a queue was added to those that are served. Contracts see the queue as it was opened. It takes no bytes.
#[derive(Drop)]
pub struct ServedMark {
    opened: Snapshot<QueueState>,
}

impl Model for ServedMark {
    ghost use Rattle.queue_core.specs.Queue.{QueueHistory};

    ghost Value = { QueueHistory };

    ghost view = { λ m. m.opened.value };
}

impl ServedMark {
    /// The mark of the queue that stands last.
    pub(crate) fn of<P: Press>(
        entries: &DirectoryEntries<P>,
        opened: Snapshot<QueueState>,
    ) -> ServedMark
        requires { (front : List _) × (queue : _) × (entries.now.served.items ≡ front ++ queue ∷ []) × (queue.pass.start ≡ opened.value) }
        ensures { result ≡ opened.value }
    {
        let _ = entries;
        ServedMark { opened }
    }
}
