//! The configuration that a program starts with.

ghost use Rattle.std.specs.Prelude.{◌≡◌, true, false, Err, None, IfOk, IfErr, IfSome, string_bytes};
ghost use Rattle.std.specs.Char.{is_control};
ghost use Rattle.std.specs.IoError.{error_kind};
ghost use Rattle.std.specs.Str.{is_utf8, NoCharPasses};
ghost use Rattle.queue_config.specs.ConfigText.{configuration_of_bytes};
ghost use Rattle.startup.specs.Start.{refusal_of_file, refused_by, is_short_of_memory, IsConfigured};

use crate::ending::{Ending, StartFault, refusal_of_file};
use config_report::{report, without_controls};
use queue_config::{Config, ConfigFault, config_from_bytes};
use std::alloc::{AllocError, Global};
use std::io;

/// A file's path and why it could not be read.
fn unread_line(alloc: Global, path: &str, error: &io::Error) -> Result<String, AllocError>
    ensures plain { IfOk result (λ line. NoCharPasses is_control (string_bytes line)) }
{
    let line = format!(in alloc; "{path}: {error}")?;
    without_controls(alloc, line.as_str())
}

/// What is said of a file that could not be read: which and why, but for lack of memory, of which one line is enough.
fn unread(alloc: Global, path: &str, error: &io::Error) -> Ending<StartFault>
    ensures refusal { result.refusal ≡ refusal_of_file (error_kind error.now) }
    ensures short { result.refusal ≡ StartFault.OutOfMemory → result.more ≡ None }
    ensures plain { IfSome result.more (λ line. NoCharPasses is_control (string_bytes line)) }
{
    let refusal = refusal_of_file(error);
    let more = match &refusal {
        StartFault::OutOfMemory => None,
        _ => unread_line(alloc, path, error).ok(),
    };
    Ending { refusal, more }
}

/// What is said of a file that is no configuration.
fn misread(alloc: Global, path: &str, bytes: &[u8], fault: ConfigFault) -> Ending<StartFault>
    ensures refusal { result.refusal ≡ StartFault.Config fault }
    ensures short { fault ≡ ConfigFault.OutOfMemory → result.more ≡ None }
    ensures plain { IfSome result.more (λ line. NoCharPasses is_control (string_bytes line)) }
{
    Ending {
        refusal: StartFault::Config(fault),
        more: report(alloc, path, bytes, fault).ok().flatten(),
    }
}

/// The configuration that the bytes of the file of a path are, which may not have been read. Those that are no UTF-8 are
/// refused without memory.
pub fn configuration_in(
    alloc: Global,
    path: &str,
    bytes: io::Result<Vec<u8>>,
) -> Result<Config, Ending<StartFault>>
    ensures given { IfOk bytes (λ given. IsConfigured (refused_by result) (configuration_of_bytes given.items)) }
    ensures no_text { IfOk bytes (λ given. is_utf8 given.items ≡ false → refused_by result ≡ Err (StartFault.Config ConfigFault.Syntax)) }
    ensures unread { IfErr bytes (λ error. refused_by result ≡ Err (refusal_of_file (error_kind error))) }
    ensures short { IfErr result (λ ending. is_short_of_memory ending.refusal ≡ true → ending.more ≡ None) }
    ensures plain { IfErr result (λ ending. IfSome ending.more (λ line. NoCharPasses is_control (string_bytes line))) }
{
    let bytes = match bytes {
        Ok(bytes) => bytes,
        Err(error) => return Err(unread(alloc, path, &error)),
    };
    match config_from_bytes(alloc, bytes.as_slice()) {
        Ok(config) => Ok(config),
        Err(fault) => Err(misread(alloc, path, bytes.as_slice(), fault)),
    }
}
