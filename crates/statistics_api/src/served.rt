//! What a server tells of itself, beside its queues.

use std::alloc::Global;

/// How many requests of an action were answered with a status.
#[derive(Clone, Copy, Debug, PartialEq, Eq)]
pub struct Requested {
    /// The action, a word of letters: it stands in the text as it is.
    pub action: &'static str,
    pub status: u16,
    pub count: u64,
}

/// What a server tells of itself.
#[derive(Debug, Drop)]
pub struct ServerFacts {
    /// Its version, which stands in the text as it is.
    pub version: &'static str,
    /// When it was started, in seconds since 1970.
    pub started: u64,
    /// The requests that it has answered since then, in the order in which they are told.
    pub requests: Vec<Requested>,
}

impl ServerFacts {
    /// A server of no version that has answered nothing.
    pub fn nothing(alloc: Global) -> ServerFacts {
        ServerFacts {
            version: "",
            started: 0,
            requests: Vec::new(alloc),
        }
    }
}
