//! How many requests were answered, by their actions and statuses.

ghost use Rattle.std.specs.Prelude.{◌≡◌, ◌+◌, ◌*◌, ◌<◌, ◌++◌, ℕ, List, length, map, IfErr, IfOk, OnOk};
ghost use Rattle.message.specs.declared.fault.Fault.TheVariants.{OutOfMemory};
ghost use Rattle.request_log.specs.Actions.{places};
ghost use Rattle.sqs_server.specs.Counts.{status_at, told, told_at, told_from};
ghost use Rattle.sqs_server.specs.private.Counts.{status_place};

use message::Fault;
use request_log::{PLACES, name_at, places_are_all};
use statistics_api::Requested;
use std::alloc::Global;
use std::sync::atomic::{AtomicU64, Ordering};

/// How many statuses are counted, the last one for all that is none of the others.
const STATUSES: usize = 7;

/// The place of a status among them.
fn status_place(status: u16) -> usize
    ensures below { result < 7 }
    ensures place { result ≡ status_place status }
{
    match status {
        200 => 0,
        400 => 1,
        403 => 2,
        405 => 3,
        413 => 4,
        503 => 5,
        _ => 6,
    }
}

/// The place of an action's place and a status among all numbers.
fn number_place(place: usize, status: u16) -> usize
    requires { place < places }
    ensures place { result ≡ place * 7 + status_place status }
    ensures within { result < places * 7 }
{
    place * STATUSES + status_place(status)
}

/// The status that is told for a place among them.
fn status_at(place: usize) -> u16
    ensures { result ≡ status_at place }
{
    match place {
        0 => 200,
        1 => 400,
        2 => 403,
        3 => 405,
        4 => 413,
        5 => 503,
        _ => 500,
    }
}

/// Tells how many requests were counted at a place, where there were any. `OutOfMemory` is the only refusal.
fn tell_count(requests: &mut Vec<Requested>, place: usize, count: u64) -> Result<(), Fault>
    ensures ok { OnOk result (map told requests.new.items ≡ map told requests.old.items ++ told_at place count) }
    ensures errors { IfErr result (λ fault. fault ≡ OutOfMemory) }
{
    if count == 0 {
        return Ok(());
    }
    requests.push(Requested {
        action: name_at(place / STATUSES),
        status: status_at(place % STATUSES),
        count,
    })?;
    Ok(())
}

/// A number for each action and status.
#[derive(Drop)]
pub struct RequestCounts {
    numbers: Vec<AtomicU64>,
    ghost all: { length numbers.items ≡ places * 7 },
}

impl RequestCounts {
    /// All of them 0. `OutOfMemory` is the only refusal.
    pub fn new(alloc: Global) -> Result<RequestCounts, Fault>
        ensures { IfErr result (λ fault. fault ≡ OutOfMemory) }
    {
        let mut numbers = Vec::new(alloc);
        places_are_all();
        for _place in 0..PLACES * STATUSES {
            numbers.push(AtomicU64::new(0))?;
        }
        Ok(RequestCounts { numbers })
    }

    /// Counts a request.
    pub fn add(&self, place: usize, status: u16)
        requires { place < places }
    {
        self.numbers[number_place(place, status)].fetch_add(1, Ordering::SeqCst);
    }

    /// Those that are not 0, by the actions. `OutOfMemory` is the only refusal.
    pub fn requested(&self, alloc: Global) -> Result<Vec<Requested>, Fault>
        ensures told { IfOk result (λ requests. (counts : List ℕ) × (length counts ≡ places * 7) × (map told requests.items ≡ told_from 0 counts)) }
        ensures errors { IfErr result (λ fault. fault ≡ OutOfMemory) }
    {
        let mut requests = Vec::new(alloc);
        for place in 0..self.numbers.len() {
            let count = self.numbers[place].load(Ordering::SeqCst);
            tell_count(&mut requests, place, count)?;
        }
        Ok(requests)
    }
}
