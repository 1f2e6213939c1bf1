//! How much the large bodies may hold together that are on their way.

ghost use Rattle.std.specs.Prelude.{◌≡◌, ◌≢◌, ◌≤◌, ◌+◌, nat_le, IfSome, IfNone};
ghost use Rattle.sqs_server.specs.Head.{counted};
ghost use Rattle.sqs_server.specs.private.Head.{bodies_limit};

use crate::head::BODY_LIMIT;
use std::sync::Arc;
use std::sync::atomic::{AtomicU64, Ordering};

/// The most bytes that large bodies may have together whose requests one thread answers, from their heads until they
/// are answered: those of four of the largest. This project's own choice.
pub const BODIES_LIMIT: u64 = 4 * BODY_LIMIT;

/// The most bytes that a body may have which counts for nothing there: it comes however much the large ones hold. This
/// project's own choice.
pub const SMALL_BODY: u64 = 65_536;

/// As how many bytes a body counts. One whose size is not announced may be as long as any.
fn counted(announced: Option<u64>) -> u64
    ensures { result ≡ counted announced }
{
    match announced {
        Some(size) if size <= SMALL_BODY => 0,
        Some(size) => size,
        None => BODY_LIMIT,
    }
}

/// Whether so many bytes more may come where so many are on their way.
fn fits(held: u64, size: u64) -> bool
    ensures { result ≡ nat_le (held + size) bodies_limit }
{
    match held.checked_add(size) {
        Some(together) => together <= BODIES_LIMIT,
        None => false,
    }
}

/// How many bytes the bodies have that are on their way. Of what is stored no clause tells.
#[derive(Drop)]
pub struct Bodies {
    held: AtomicU64,
}

impl Bodies {
    /// None is on its way.
    pub fn new() -> Bodies {
        Bodies {
            held: AtomicU64::new(0),
        }
    }

    /// The part of a body whose size is announced, or not, for as long as the part is there. `None` where it would be too
    /// much, which one that counts for nothing never is.
    pub fn part(bodies: &Arc<Bodies>, announced: Option<u64>) -> Option<Part>
        ensures room { IfNone result (counted announced ≢ 0) }
        ensures counts { IfSome result (λ part. part.size ≡ counted announced) }
    {
        let size = counted(announced);
        if size == 0 {
            return Some(Part { size, bodies: None });
        }
        if !fits(bodies.held.load(Ordering::SeqCst), size) {
            return None;
        }
        let bodies = Arc::try_clone(bodies).ok()?;
        bodies.held.fetch_add(size, Ordering::SeqCst);
        Some(Part {
            size,
            bodies: Some(bodies),
        })
    }
}

/// A body's part of what all bodies hold, of which a small one has none. Once it is dropped, others have room for it.
pub struct Part {
    size: u64,
    bodies: Option<Arc<Bodies>>,
}

impl Drop for Part {
    fn drop(self) {
        let Self { size, bodies } = self;
        if let Some(bodies) = bodies {
            bodies.held.fetch_sub(size, Ordering::SeqCst);
        }
    }
}
