//! Why a program does not start, and what it tells of that.

ghost use Rattle.std.specs.Prelude.{◌≡◌, ◌++◌};
ghost use Rattle.std.specs.IoError.{error_kind};
ghost use Rattle.startup.specs.Start.{refusal_of_arguments, refusal_of_file, start_message};

use queue_config::ConfigFault;
use std::io;

/// Why a program does not start.
#[derive(Clone, Copy, Debug, PartialEq, Eq)]
pub enum StartFault {
    /// It was started with other arguments than it takes.
    Usage,
    /// The configuration is refused.
    Config(ConfigFault),
    /// The file of the configuration cannot be read.
    Read,
    /// Memory ran out.
    OutOfMemory,
}

/// Why arguments could not be read: an argument is no text, or memory ran out.
pub fn refusal_of_arguments(error: &io::Error) -> StartFault
    ensures { result ≡ refusal_of_arguments (error_kind error.now) }
{
    match error.kind() {
        io::ErrorKind::OutOfMemory => StartFault::OutOfMemory,
        _ => StartFault::Usage,
    }
}

/// Why a file could not be read: memory ran out, or the system refused.
pub(crate) fn refusal_of_file(error: &io::Error) -> StartFault
    ensures { result ≡ refusal_of_file (error_kind error.now) }
{
    match error.kind() {
        io::ErrorKind::OutOfMemory => StartFault::OutOfMemory,
        _ => StartFault::Read,
    }
}

/// What is told on standard error by a program of this name, of whose use this line says how it is; in three parts, one
/// after another.
pub fn start_message(
    usage: &'static str,
    program: &'static str,
    fault: StartFault,
) -> (&'static str, &'static str, &'static str)
    ensures { result.0.now ++ (result.1.now ++ result.2.now) ≡ start_message usage.now program.now fault }
{
    match fault {
        StartFault::Usage => ("", "", usage),
        StartFault::Config(ConfigFault::OutOfMemory) => (program, ": ", "out of memory"),
        StartFault::Config(fault) => (program, ": config: ", fault.name()),
        StartFault::Read => (program, ": ", "read failed"),
        StartFault::OutOfMemory => (program, ": ", "out of memory"),
    }
}

/// Why a program ends, and what there is to say beyond that, in a line of its own.
#[derive(Debug, Drop)]
pub struct Ending<R> {
    pub refusal: R,
    /// Such as which file could not be read, and why; `None` where there is no more to say, or no memory to say it.
    pub more: Option<String>,
}

impl Ending<StartFault> {
    /// The same end of a program that has this refusal for such a fault.
    pub fn of_program<R, F: FnOnce(StartFault) -> R>(self, refusal_of: F) -> Ending<R>
        requires { F.IsAlwaysCallable refusal_of }
        ensures refusal { F.post refusal_of self.refusal result.refusal }
        ensures more { result.more ≡ self.more }
    {
        Ending {
            refusal: refusal_of(self.refusal),
            more: self.more,
        }
    }
}

impl<R> From<R> for Ending<R> {
    ghost from_gives = { λ refusal ending. ending.refusal ≡ refusal };

    fn from(refusal: R) -> Ending<R> {
        Ending {
            refusal,
            more: None,
        }
    }
}
