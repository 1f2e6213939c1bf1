//! What the program makes of its arguments and its environment, and what it tells of how it ended.

ghost use Rattle.std.specs.Prelude.{◌≡◌, ◌++◌, Err, IfOk, IfErr, string_bytes};
ghost use Rattle.std.specs.IoError.{error_kind};
ghost use Rattle.std.specs.Process.{exit_status};
ghost use Rattle.std.specs.Vec.Iter.{into_iter_items};
ghost use Rattle.std.specs.Result.{result_map_both};
ghost use Rattle.startup.specs.Start.{refusal_of_arguments, refused_by};
ghost use Rattle.sqs_server.specs.Program.{arguments_among, count_of, environment_among, level_among, port_among, port_of, message_of, status_of, variable_name, wanted_of};

use queue_config::decimal_number;
use request_log::Level;
use startup::{Ending, ProgramOption, StartFault, option_of, refusal_of_arguments, start_message};
use std::env::VarError;
use std::process::ExitCode;
use std::{env, io};

/// The port for requests, where no other is named.
const PORT: u16 = 9324;

/// The port for statistics, where no other is named.
const STATISTICS_PORT: u16 = 9325;

/// Why the program does not serve.
#[derive(Clone, Copy, Debug, PartialEq, Eq)]
pub enum Refusal {
    /// It does not start, as for want of memory for what is there from the start.
    Start(StartFault),
    /// The port cannot be opened, or its connections cannot be waited for.
    Listen,
    /// A variable of the environment has a value that it cannot have.
    Variable(Variable),
}

/// A variable of the environment.
#[derive(Clone, Copy, Debug, PartialEq, Eq)]
pub enum Variable {
    /// The port for requests.
    Requests,
    /// The port for statistics.
    Statistics,
    /// Which requests are told.
    Log,
}

impl Variable {
    /// Its name.
    pub(crate) fn name(self) -> &'static str
        ensures { result.now ≡ variable_name self }
    {
        match self {
            Variable::Requests => "JUTKARIQ_PORT",
            Variable::Statistics => "JUTKARIQ_STATISTICS_PORT",
            Variable::Log => "JUTKARIQ_LOG",
        }
    }
}

/// What the program is asked for.
#[derive(Debug, Drop)]
pub enum Wanted {
    /// To serve.
    Serve(Arguments),
    /// To say what it is for and how it is called.
    Help,
    /// To say its version.
    Version,
}

/// What it is to serve.
#[derive(Debug, Drop)]
pub struct Arguments {
    /// The path of the configuration.
    pub path: String,
    /// How many connections have to close before the program ends; `None` where it does not end.
    pub connections: Option<u64>,
}

/// How many connections a text asks for: 1 to 9 decimal digits, and not 0.
fn count_of(text: &str) -> Option<u64>
    ensures { result ≡ count_of text.now }
{
    match decimal_number(text, 9) {
        Some(0) => None,
        count => count,
    }
}

/// What is asked for by a first argument, which is this option if it is one, and the number of connections.
fn wanted_of(arguments: Arguments, option: Option<ProgramOption>) -> Result<Wanted, StartFault>
    ensures { result ≡ wanted_of arguments option }
{
    match option {
        None => Ok(Wanted::Serve(arguments)),
        Some(ProgramOption::Help) if arguments.connections.is_none() => Ok(Wanted::Help),
        Some(ProgramOption::Version) if arguments.connections.is_none() => Ok(Wanted::Version),
        Some(_) => Err(StartFault::Usage),
    }
}

/// What the arguments ask for, the first of which is the program's own name.
pub(crate) fn arguments_among(arguments: io::Result<env::Args>) -> Result<Wanted, StartFault>
    ensures given { IfOk arguments (λ given. result ≡ arguments_among (λ s. string_bytes s) (λ path count. record { path = path; connections = count }) (into_iter_items given)) }
    ensures unread { IfErr arguments (λ error. result ≡ Err (refusal_of_arguments (error_kind error))) }
{
    let mut arguments = match arguments {
        Ok(arguments) => arguments,
        Err(error) => return Err(refusal_of_arguments(&error)),
    };
    let _program = arguments.next();
    let Some(path) = arguments.next() else {
        return Err(StartFault::Usage);
    };
    let connections = match arguments.next() {
        Some(text) => Some(count_of(text.as_str()).ok_or(StartFault::Usage)?),
        None => None,
    };
    let option = option_of(path.as_str());
    match arguments.next() {
        None => wanted_of(Arguments { path, connections }, option),
        Some(_) => Err(StartFault::Usage),
    }
}

/// The port that a text names: 1 to 5 decimal digits, up to 65,535.
fn port_of(text: &str) -> Option<u16>
    ensures { result ≡ port_of text.now }
{
    u16::try_from(decimal_number(text, 5)?).ok()
}

/// The port that a variable of the environment names, or the usual one where it is not set or empty.
fn port_among(
    variable: Variable,
    usual: u16,
    value: Result<String, VarError>,
) -> Result<u16, Refusal>
    ensures { result ≡ port_among variable usual (result_map_both (λ s. string_bytes s) (λ error. error) value) }
{
    match value {
        Ok(text) if text.is_empty() => Ok(usual),
        Ok(text) => port_of(text.as_str()).ok_or(Refusal::Variable(variable)),
        Err(VarError::NotPresent) => Ok(usual),
        Err(VarError::NotUnicode) => Err(Refusal::Variable(variable)),
        Err(VarError::OutOfMemory) => Err(Refusal::Start(StartFault::OutOfMemory)),
    }
}

/// Which requests are told: those that the variable names, or those that were refused where it is not set or empty.
fn level_among(value: Result<String, VarError>) -> Result<Level, Refusal>
    ensures { result ≡ level_among (result_map_both (λ s. string_bytes s) (λ error. error) value) }
{
    match value {
        Ok(text) if text.is_empty() => Ok(Level::Refused),
        Ok(text) => Level::named(text.as_str()).ok_or(Refusal::Variable(Variable::Log)),
        Err(VarError::NotPresent) => Ok(Level::Refused),
        Err(VarError::NotUnicode) => Err(Refusal::Variable(Variable::Log)),
        Err(VarError::OutOfMemory) => Err(Refusal::Start(StartFault::OutOfMemory)),
    }
}

/// What the variables of the environment have, each by its name.
#[derive(Drop)]
pub struct Values {
    pub port: Result<String, VarError>,
    pub statistics_port: Result<String, VarError>,
    pub log: Result<String, VarError>,
}

/// What the environment says.
#[derive(Clone, Copy, Debug, PartialEq, Eq)]
pub struct Environment {
    /// The port for requests.
    pub port: u16,
    /// The port for statistics.
    pub statistics_port: u16,
    /// Which requests are told.
    pub level: Level,
}

/// What the variables of the environment say, or the refusal of the first one that has a value it cannot have.
pub(crate) fn environment_among(values: Values) -> Result<Environment, Refusal>
    ensures { result ≡ environment_among (result_map_both (λ s. string_bytes s) (λ error. error) values.port)
        (result_map_both (λ s. string_bytes s) (λ error. error) values.statistics_port) (result_map_both (λ s. string_bytes s) (λ error. error) values.log) }
{
    let port = port_among(Variable::Requests, PORT, values.port)?;
    let statistics_port = port_among(
        Variable::Statistics,
        STATISTICS_PORT,
        values.statistics_port,
    )?;
    let level = level_among(values.log)?;
    Ok(Environment {
        port,
        statistics_port,
        level,
    })
}

/// What is told on standard error, in three parts, one after another.
pub(crate) fn message_of(refusal: Refusal) -> (&'static str, &'static str, &'static str)
    ensures { result.0.now ++ (result.1.now ++ result.2.now) ≡ message_of refusal }
{
    match refusal {
        Refusal::Start(fault) => start_message(
            "usage: sqs_server config.toml [connections]",
            "sqs_server",
            fault,
        ),
        Refusal::Listen => ("sqs_server", ": ", "cannot listen"),
        Refusal::Variable(Variable::Requests) => (
            "sqs_server: ",
            "JUTKARIQ_PORT",
            " must be a port number, 0 to 65535",
        ),
        Refusal::Variable(Variable::Statistics) => (
            "sqs_server: ",
            "JUTKARIQ_STATISTICS_PORT",
            " must be a port number, 0 to 65535",
        ),
        Refusal::Variable(Variable::Log) => (
            "sqs_server: ",
            "JUTKARIQ_LOG",
            " must be refused, all or none",
        ),
    }
}

/// The status that the program ends with: 0, 2 for wrong arguments, 3 where it cannot listen, and 1 for
/// any other refusal.
fn status_of(outcome: &Result<(), Refusal>) -> u8
    ensures { result ≡ status_of outcome.now }
{
    match outcome {
        Ok(()) => 0,
        Err(Refusal::Start(StartFault::Usage) | Refusal::Variable(_)) => 2,
        Err(Refusal::Listen) => 3,
        Err(_) => 1,
    }
}

/// The code of that status.
pub(crate) fn exit_code(outcome: &Result<(), Refusal>) -> ExitCode
    ensures { exit_status result ≡ status_of outcome.now }
{
    ExitCode::from(status_of(outcome))
}

/// Tells why the program ends on standard error.
fn tell(rt: &HostRuntime, ending: &Ending<Refusal>) {
    let (who, what, why) = message_of(ending.refusal);
    let _ = rt.eprintln(format_args!("{who}{what}{why}"));
    if let Some(more) = &ending.more {
        let _ = rt.eprintln(format_args!("{more}"));
    }
}

/// Tells a refusal on standard error, if there is one, and ends with the status.
pub(crate) fn finish(rt: &HostRuntime, outcome: Result<(), Ending<Refusal>>) -> ExitCode
    ensures { exit_status result ≡ status_of (refused_by outcome) }
{
    let outcome = match outcome {
        Ok(()) => Ok(()),
        Err(ending) => {
            tell(rt, &ending);
            Err(ending.refusal)
        }
    };
    exit_code(&outcome)
}
