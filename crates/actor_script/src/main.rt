//! Plays a script of queues, their actors and those who ask them: each line of standard input does one thing, and is
//! told on standard output with its answer behind an arrow.
#![tactic(auto)]

mod callers;
mod fakes;
mod opened;
mod reading;
mod stage;
mod types;
mod words;

use message::Fault;
use stage::Stage;
use std::alloc::AllocGlobal;
use std::io;
use std::io::Write;
use std::process::ExitCode;
use std::random::RandomSource;
use std::sync::Wait;
use std::thread::Threads;

/// Plays the script of standard input. Status 0, or 1 where it cannot be read or told, or there is no memory to tell an
/// answer. A line that finds no memory is answered so.
fn main(rt: HostRuntime) -> ExitCode {
    match played(&rt, rt) {
        Ok(()) => ExitCode::from(0),
        Err(_fault) => ExitCode::from(1),
    }
}

/// Plays the script of standard input. The runtime comes twice: as itself, and as what `main` may do with it.
fn played<R: Wait + Threads + RandomSource + AllocGlobal + Copy + Send + 'static>(
    rt: &R,
    host: HostRuntime,
) -> Result<(), Fault> {
    let alloc = host.alloc();
    let lines = io::read_to_string(alloc, host.reader()).ok();
    let lines = lines.ok_or(Fault::InvalidParameterValue)?;
    let mut told = String::new(alloc);
    Stage::new(host)?.play(rt, lines.as_str(), &mut told)?;
    let written = io::writer(&host).write_all(told.as_bytes()).ok();
    written.ok_or(Fault::UnsupportedOperation)
}
