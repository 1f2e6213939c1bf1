//! Who is there: how many connections are open, and how many have closed.

use std::alloc::{AllocError, Global};
use std::sync::Arc;
use std::sync::atomic::{AtomicU64, Ordering};
use tokio::sync::Semaphore;

/// The connections of one acceptor, and those of all acceptors of its port. Of what threads store no clause tells.
#[derive(Drop)]
pub struct Attendance {
    here: Arc<AtomicU64>,
    everywhere: Arc<AtomicU64>,
    /// How many acceptors the port has.
    acceptors: u64,
    /// Has a permit for each connection that has closed.
    pub closed: Arc<Semaphore>,
}

impl Attendance {
    /// Nobody is there, at a port of so many acceptors.
    pub fn new(
        alloc: Global,
        acceptors: u64,
        closed: Arc<Semaphore>,
    ) -> Result<Attendance, AllocError> {
        Ok(Attendance {
            here: Arc::new(alloc, AtomicU64::new(0))?,
            everywhere: Arc::new(alloc, AtomicU64::new(0))?,
            acceptors,
            closed,
        })
    }

    /// The same for another acceptor of the port, at which nobody is.
    pub fn apart(&self, alloc: Global) -> Result<Attendance, AllocError> {
        Ok(Attendance {
            here: Arc::new(alloc, AtomicU64::new(0))?,
            everywhere: Arc::try_clone(&self.everywhere)?,
            acceptors: self.acceptors,
            closed: Arc::try_clone(&self.closed)?,
        })
    }

    /// The same once more.
    pub fn again(&self) -> Result<Attendance, AllocError> {
        Ok(Attendance {
            here: Arc::try_clone(&self.here)?,
            everywhere: Arc::try_clone(&self.everywhere)?,
            acceptors: self.acceptors,
            closed: Arc::try_clone(&self.closed)?,
        })
    }

    /// A connection that is there from now on.
    pub fn enter(&self) -> Result<Presence, AllocError> {
        let here = Arc::try_clone(&self.here)?;
        let everywhere = Arc::try_clone(&self.everywhere)?;
        let closed = Arc::try_clone(&self.closed)?;
        here.fetch_add(1, Ordering::SeqCst);
        everywhere.fetch_add(1, Ordering::SeqCst);
        Ok(Presence {
            here,
            everywhere,
            closed,
        })
    }

    /// Whether more connections are here than at the acceptors of the port on average.
    pub fn is_crowded(&self) -> bool {
        let here = self.here.load(Ordering::SeqCst);
        self.everywhere.load(Ordering::SeqCst) < here.saturating_mul(self.acceptors)
    }
}

/// A connection that is there. Once it is dropped it counts as closed, whatever has ended it.
pub struct Presence {
    here: Arc<AtomicU64>,
    everywhere: Arc<AtomicU64>,
    closed: Arc<Semaphore>,
}

impl Drop for Presence {
    fn drop(self) {
        let Self {
            here,
            everywhere,
            closed,
        } = self;
        here.fetch_sub(1, Ordering::SeqCst);
        everywhere.fetch_sub(1, Ordering::SeqCst);
        closed.add_permits(1);
    }
}
