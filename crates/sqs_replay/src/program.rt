//! What the program makes of its arguments, and what it tells of how it ended.

ghost use Rattle.std.specs.Prelude.{◌≡◌, [], ◌++◌, Ok, Err, Some, IfOk, IfErr, string_bytes};
ghost use Rattle.std.specs.IoError.{error_kind};
ghost use Rattle.std.specs.Process.{exit_status};
ghost use Rattle.std.specs.Vec.Iter.{into_iter_items};
ghost use Rattle.queue_config.specs.Config.{default_configuration};
ghost use Rattle.queue_config.specs.ConfigText.{configuration_of};
ghost use Rattle.startup.specs.Start.{refusal_of_arguments, refused_by, IsConfigured};
ghost use Rattle.sqs_replay.specs.Program.{arguments_among, message_of, status_of, wanted_of};

use crate::ReplayFault;
use queue_config::{Config, config_from_text};
use startup::{Ending, ProgramOption, StartFault, option_of, refusal_of_arguments, start_message};
use std::alloc::Global;
use std::process::ExitCode;
use std::{env, io};

/// Why the program ends early.
#[derive(Clone, Copy, Debug, PartialEq, Eq)]
pub enum Refusal {
    /// It does not start.
    Start(StartFault),
    /// Standard input or standard output failed, or memory ran out.
    Replay(ReplayFault),
}

/// What the program is asked for.
#[derive(Debug, PartialEq, Eq, Drop)]
pub enum Wanted {
    /// A run, with the configuration of the file of this path, or that of an empty text.
    Run(Option<String>),
    /// To say what it is for and how it is called.
    Help,
    /// To say its version.
    Version,
}

/// What is asked for by an argument, which is this option if it is one.
fn wanted_of(asked: Wanted, option: Option<ProgramOption>) -> Result<Wanted, StartFault>
    ensures { result ≡ wanted_of asked option }
{
    match option {
        None => Ok(asked),
        Some(ProgramOption::Help) => Ok(Wanted::Help),
        Some(ProgramOption::Version) => Ok(Wanted::Version),
        Some(ProgramOption::Unknown) => Err(StartFault::Usage),
    }
}

/// What the arguments ask for, the first of which is the program's own name.
pub(crate) fn arguments_among(arguments: io::Result<env::Args>) -> Result<Wanted, StartFault>
    ensures given { IfOk arguments (λ given. result ≡ arguments_among (λ s. string_bytes s) (λ path. Wanted.Run (Some path)) (into_iter_items given)) }
    ensures unread { IfErr arguments (λ error. result ≡ Err (refusal_of_arguments (error_kind error))) }
{
    let mut arguments = match arguments {
        Ok(arguments) => arguments,
        Err(error) => return Err(refusal_of_arguments(&error)),
    };
    let _program = arguments.next();
    let Some(path) = arguments.next() else {
        return Ok(Wanted::Run(None));
    };
    let option = option_of(path.as_str());
    match arguments.next() {
        None => wanted_of(Wanted::Run(Some(path)), option),
        Some(_) => Err(StartFault::Usage),
    }
}

/// The configuration of the empty text, which takes no memory.
pub(crate) fn default_configuration(alloc: Global) -> Result<Config, StartFault>
    ensures config { IsConfigured result (configuration_of []) }
    ensures exact { result ≡ Ok default_configuration }
{
    match config_from_text(alloc, "") {
        Ok(config) => Ok(config),
        Err(fault) => Err(StartFault::Config(fault)),
    }
}

/// What is told on standard error, in three parts, one after another.
pub(crate) fn message_of(refusal: Refusal) -> (&'static str, &'static str, &'static str)
    ensures { result.0.now ++ (result.1.now ++ result.2.now) ≡ message_of refusal }
{
    match refusal {
        Refusal::Start(fault) => {
            start_message("usage: sqs_replay [config.toml]", "sqs_replay", fault)
        }
        Refusal::Replay(fault) => ("sqs_replay", ": ", fault.text()),
    }
}

/// The status that the program ends with: 0, 2 for wrong arguments, and 1 for any other refusal.
fn status_of(outcome: &Result<(), Refusal>) -> u8
    ensures { result ≡ status_of outcome.now }
{
    match outcome {
        Ok(()) => 0,
        Err(Refusal::Start(StartFault::Usage)) => 2,
        Err(_) => 1,
    }
}

/// The code of that status.
pub(crate) fn exit_code(outcome: &Result<(), Refusal>) -> ExitCode
    ensures { exit_status result ≡ status_of outcome.now }
{
    ExitCode::from(status_of(outcome))
}

/// Tells why the program ends on standard error.
fn tell(rt: &HostRuntime, ending: &Ending<Refusal>) {
    let (who, what, why) = message_of(ending.refusal);
    let _ = rt.eprintln(format_args!("{who}{what}{why}"));
    if let Some(more) = &ending.more {
        let _ = rt.eprintln(format_args!("{more}"));
    }
}

/// Tells a refusal on standard error, if there is one, and ends with the status.
pub(crate) fn finish(rt: &HostRuntime, outcome: Result<(), Ending<Refusal>>) -> ExitCode
    ensures { exit_status result ≡ status_of (refused_by outcome) }
{
    let outcome = match outcome {
        Ok(()) => Ok(()),
        Err(ending) => {
            tell(rt, &ending);
            Err(ending.refusal)
        }
    };
    exit_code(&outcome)
}
