//! Why a replay ends early.

ghost use Rattle.std.specs.Prelude.{◌≡◌, Some};
ghost use Rattle.sqs_replay.specs.Fault.{fault_code, fault_text};
ghost use Rattle.sqs_replay.specs.declared.fault.ReplayFault.TheVariants.{OutOfMemory};

use std::alloc::{AllocError, AllocFailed};
use std::fmt;
use thiserror::Error;

/// Why a replay ended before all its lines were answered. `Display` writes its
/// [`text`](ReplayFault::text).
#[derive(Clone, Copy, Debug, PartialEq, Eq, Error)]
pub enum ReplayFault {
    /// The inlet failed, or was read 2^32 times without coming to its end.
    Read,
    /// The outlet failed.
    Write,
    /// An allocation was refused.
    OutOfMemory,
}

impl ReplayFault {
    /// The fault's number, 1 to 3, in the order of the variants.
    pub fn code(self) -> u8
        ensures { result ≡ fault_code self }
    {
        match self {
            ReplayFault::Read => 1,
            ReplayFault::Write => 2,
            ReplayFault::OutOfMemory => 3,
        }
    }

    /// What went wrong, in words.
    pub fn text(self) -> &'static str
        ensures { result.now ≡ fault_text self }
    {
        match self {
            ReplayFault::Read => "read failed",
            ReplayFault::Write => "write failed",
            ReplayFault::OutOfMemory => "out of memory",
        }
    }
}

impl fmt::Display for ReplayFault {
    ghost output = { λ fault. Some (fault_text fault) };

    fn fmt<W: fmt::Write>(&self, f: &mut fmt::Formatter<W>) -> fmt::Result {
        f.write_str(self.text())
    }
}

impl From<AllocError> for ReplayFault {
    ghost from_gives = { λ _ fault. fault ≡ OutOfMemory };

    fn from(_refused: AllocError) -> ReplayFault {
        ReplayFault::OutOfMemory
    }
}

impl<T: Drop> From<AllocFailed<T>> for ReplayFault {
    ghost from_gives = { λ _ fault. fault ≡ OutOfMemory };

    fn from(_refused: AllocFailed<T>) -> ReplayFault {
        ReplayFault::OutOfMemory
    }
}
