//! The replay of requests over many queues: lines of requests that carry their moments come in, and
//! exactly the answers to them go out.
//!
//! - [`replay`]: the whole run. At `Ok` what it writes is `replay_output` of what it reads, a
//!   function from configuration and bytes to bytes; at a fault a part of that, from the front.
//! - [`Inlet`] and [`Outlet`]: where the bytes come from and where they go. Each tells its bytes
//!   where it can, and counts its failures, memory refused to it and, of the inlet, its reads.
//!   [`Device`] makes one of any reader or writer of std.
//! - [`Lines`] and [`run_lines`]: what answers a line, and the run over all lines, with the state
//!   after them.
//! - [`read_line`]: a line of the input, as a moment, an action and the bytes of a body.
//!
//! The definitions stand in `specs/`: `Cutting` and `InputLine` for the lines, `Served` for
//! what a line asks, what it is answered and what it leaves, `Replay` for the whole, and `Program` for
//! the program's arguments and status.
#![tactic(auto)]

mod answer;
mod device;
mod fault;
mod input_line;
mod laws;
mod lines;
mod moves;
mod program;
mod run;
mod shown;
mod statistics;
mod steps;
#[cfg(test)]
mod tests;
mod whole;

pub use answer::{Asked, Timed};
pub use device::{Device, Inlet, Outlet};
pub use fault::ReplayFault;
pub use input_line::{InputLine, line_form, read_line};
use journal::Ticks;
pub use laws::{
    lines_are_steps, lines_keep_dead_letters, lines_move_all_parcels,
    lines_without_deletions_keep_one_place, outputs_are_of_steps, steps_come_to_their_end,
};
pub use lines::{LINE_LIMIT, Lines, one_return_is_dropped, pieces_join_to_the_bytes};
pub use moves::all_parcels_move;
pub use program::Refusal;
use program::{Wanted, arguments_among, default_configuration, finish};
use queue_config::Config;
pub use run::run_lines;
pub use shown::LineAnswer;
use startup::{Ending, StartFault, VERSION, configuration_in, first_argument, misused};
use std::process::ExitCode;
use std::{env, fs, io};
pub use whole::replay;

/// What `--help` tells.
const HELP: &str = "\
Answers requests that carry their own times, a line each, from standard input to standard output.

usage: sqs_replay [config.toml]
       sqs_replay --help | --version

config.toml   the configuration: limits, queues and alarms; the usual limits and no queue where it is not given

A line is a time in milliseconds, an action and the body of the request, as
1000 CreateQueue {\"QueueName\":\"jobs\"}
";

/// Runs the replay on standard input and output, with the configuration of the file that its one
/// argument names, or that of an empty text. Status 0, 1 for a fault, and 2 for wrong arguments.
fn main(rt: HostRuntime) -> ExitCode {
    finish(&rt, start(&rt))
}

/// What the arguments ask for.
fn wanted(rt: &HostRuntime) -> Result<Wanted, Ending<Refusal>> {
    match arguments_among(env::args(rt)) {
        Ok(wanted) => Ok(wanted),
        Err(fault) => {
            let first = first_argument(env::args(rt));
            Err(misused(rt.alloc(), first.as_deref(), fault).of_program(Refusal::Start))
        }
    }
}

/// Does as the arguments say.
fn start(rt: &HostRuntime) -> Result<(), Ending<Refusal>> {
    match wanted(rt)? {
        Wanted::Run(path) => replay_input(rt, path),
        Wanted::Help => {
            let _ = rt.print(HELP);
            Ok(())
        }
        Wanted::Version => {
            let _ = rt.println(format_args!("sqs_replay {VERSION}"));
            Ok(())
        }
    }
}

/// Runs the replay on standard input and output.
fn replay_input(rt: &HostRuntime, path: Option<String>) -> Result<(), Ending<Refusal>> {
    let config = configuration(rt, path).map_err(|ending| ending.of_program(Refusal::Start))?;
    let mut ticks = Ticks::new(rt);
    let mut inlet = Device::new(rt.reader());
    let mut outlet = Device::new(io::writer(rt));
    match replay(rt.alloc(), config, &mut inlet, &mut outlet, &mut ticks) {
        Ok(()) => Ok(()),
        Err(fault) => Err(Ending::from(Refusal::Replay(fault))),
    }
}

/// The configuration of the file of a path, or that of an empty text.
fn configuration(rt: &HostRuntime, path: Option<String>) -> Result<Config, Ending<StartFault>> {
    match path {
        Some(path) => configuration_in(rt.alloc(), path.as_str(), fs::read(rt, path.as_str())),
        None => Ok(default_configuration(rt.alloc())?),
    }
}
