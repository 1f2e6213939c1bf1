//! The arguments of the program, what it tells of a refusal, and the status that it ends with.

use super::same;
use crate::ReplayFault;
use crate::program::{
    Refusal, Wanted, arguments_among, default_configuration, exit_code, message_of,
};
use queue_config::ConfigFault;
use startup::StartFault;
use std::io;
use std::process::ExitCode;
use std::test::Fail;

/// What so many arguments, with a space between them, ask for.
fn asked(rt: &HostRuntime, arguments: &str) -> Result<Result<Wanted, StartFault>, Fail> {
    let mut given = Vec::new(rt.alloc());
    for argument in arguments.split(' ') {
        given.push(String::from_str(rt.alloc(), argument)?)?;
    }
    Ok(arguments_among(Ok(given.into_iter())))
}

/// Refusals, each with what the program tells of it and its status: of two arguments, of an option that there is not,
/// of arguments that are no text and for which there is no memory; and the others.
const REFUSALS: &str = "Start(Usage): usage: sqs_replay [config.toml], status 2
Start(Usage): usage: sqs_replay [config.toml], status 2
Start(Usage): usage: sqs_replay [config.toml], status 2
Start(OutOfMemory): sqs_replay: out of memory, status 1
Start(Config(UnknownKey)): sqs_replay: config: UnknownKey, status 1
Start(Config(OutOfMemory)): sqs_replay: out of memory, status 1
Start(Read): sqs_replay: read failed, status 1
Replay(Read): sqs_replay: read failed, status 1
Replay(Write): sqs_replay: write failed, status 1
Replay(OutOfMemory): sqs_replay: out of memory, status 1
";

/// Tells a refusal as a line of [`REFUSALS`].
fn tell(told: &mut String, refusal: Refusal) -> Result<(), Fail> {
    let (who, what, why) = message_of(refusal);
    write!(told, "{refusal:?}: {who}{what}{why}, status ")?;
    for status in 0..=9u8 {
        if exit_code(&Err(refusal)) == ExitCode::from(status) {
            write!(told, "{status}\n")?;
        }
    }
    Ok(())
}

#[test]
fn refusals(rt: HostRuntime) -> Result<(), Fail> {
    let (alloc, mut told) = (rt.alloc(), String::new(rt.alloc()));
    let path = String::from_str(alloc, "config.toml")?;
    same(asked(&rt, "sqs_replay")?, Ok(Wanted::Run(None)))?;
    same(
        asked(&rt, "sqs_replay config.toml")?,
        Ok(Wanted::Run(Some(path))),
    )?;
    same(asked(&rt, "sqs_replay -h")?, Ok(Wanted::Help))?;
    same(asked(&rt, "sqs_replay --version")?, Ok(Wanted::Version))?;
    same(default_configuration(alloc).is_ok(), true)?;
    same(exit_code(&Ok(())) == ExitCode::from(0), true)?;
    for fault in [
        asked(&rt, "sqs_replay config.toml more")?.err(),
        asked(&rt, "sqs_replay --verbose")?.err(),
        arguments_among(Err(io::Error::from(io::ErrorKind::InvalidData))).err(),
        arguments_among(Err(io::Error::from(io::ErrorKind::OutOfMemory))).err(),
        Some(StartFault::Config(ConfigFault::UnknownKey)),
        Some(StartFault::Config(ConfigFault::OutOfMemory)),
        Some(StartFault::Read),
    ] {
        tell(&mut told, Refusal::Start(fault.ok_or("a fault")?))?;
    }
    for fault in [
        ReplayFault::Read,
        ReplayFault::Write,
        ReplayFault::OutOfMemory,
    ] {
        tell(&mut told, Refusal::Replay(fault))?;
    }
    same(told.as_str(), REFUSALS)?;
    for (fault, code, text) in [
        (ReplayFault::Read, 1, "read failed"),
        (ReplayFault::Write, 2, "write failed"),
        (ReplayFault::OutOfMemory, 3, "out of memory"),
    ] {
        same((fault.code(), fault.text()), (code, text))?;
        same(fault.to_string(rt.alloc())?.as_str(), text)?;
    }
    Ok(())
}
