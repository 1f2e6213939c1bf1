//! Actors and directories at desks that print nothing.

use crossbeam_channel::Receiver;
use desk::NoPress;
use queue_actor::{Actor, Directory, Envelope, Served};

/// A directory whose desks print nothing.
pub(crate) type Shared = Directory<NoPress>;

/// A queue that is served, as its callers have it.
pub(crate) type Client = Served<NoPress>;

/// The actor of a queue that is served, and what it takes its mail from.
pub(crate) type Place = (Actor<NoPress>, Receiver<Envelope<NoPress>>);
