//! What the server tells of the requests that it has answered: their numbers, and a line for some of them.

ghost use Rattle.std.specs.Prelude.{◌≡◌, IfErr};
ghost use Rattle.message.specs.declared.fault.Fault.TheVariants.{OutOfMemory};

use crate::arriving::KeptRequest;
use crate::clock::moment_of_day;
use crate::counts::RequestCounts;
use crate::head::action_in;
use crate::notices::Notices;
use crate::reply::Sent;
use message::Fault;
use request_log::{Level, Reply, line_for, place_of};
use startup::VERSION;
use statistics_api::ServerFacts;
use std::alloc::{AllocError, Global};
use std::sync::Wait;
use std::time::Clock;

/// What is told of the requests that were answered.
#[derive(Drop)]
pub struct Register {
    level: Level,
    /// When the server was started, in seconds since 1970.
    started: u64,
    counts: RequestCounts,
    notices: Notices,
}

impl Register {
    /// A register of a server that starts now. `OutOfMemory` is the only refusal.
    pub fn new<C: Clock>(
        clock: &C,
        alloc: Global,
        level: Level,
        notices: Notices,
    ) -> Result<Register, Fault>
        ensures { IfErr result (λ fault. fault ≡ OutOfMemory) }
    {
        Ok(Register {
            level,
            started: moment_of_day(clock).milliseconds() / 1000,
            counts: RequestCounts::new(alloc)?,
            notices,
        })
    }

    /// Where lines are told. `OutOfMemory` is the only refusal.
    pub fn notices(&self) -> Result<Notices, Fault> {
        self.notices.again()
    }

    /// Counts a request, and tells of it where it is to be told. `None` is one whose body was not read.
    pub fn note<R: Wait + Clock>(
        &self,
        rt: &R,
        alloc: Global,
        asked: Option<&KeptRequest>,
        sent: &Sent,
    ) {
        let (action, body) = match asked {
            Some(asked) => (action_in(&asked.head), asked.body.as_slice()),
            None => ("", b"".as_slice()),
        };
        self.counts.add(place_of(action), sent.status);
        let reply = Reply {
            status: sent.status,
            body: sent.body.as_slice(),
        };
        if self.level.tells(reply.is_refusal()) {
            let line = line_for(alloc, moment_of_day(rt), action, body, &reply);
            self.notices.tell(rt, line.map_err(|_| AllocError));
        }
    }

    /// What the server tells of itself. `OutOfMemory` is the only refusal.
    pub fn served(&self, alloc: Global) -> Result<ServerFacts, Fault>
        ensures { IfErr result (λ fault. fault ≡ OutOfMemory) }
    {
        Ok(ServerFacts {
            version: VERSION,
            started: self.started,
            requests: self.counts.requested(alloc)?,
        })
    }
}
