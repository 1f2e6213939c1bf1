//! The HTTP server: the actions of a client over HTTP/1.1, each queue in a thread of its own.
//!
//! - `arguments`: what the program makes of its arguments and its environment, and how it ends.
//! - `head`: the order in which a request is judged, and what it asks. What it asks of one queue, one command after
//!   another, is its plan (request_plan). `reply`: what is sent.
//! - `clock`: the wall clock. `queues`: how a queue comes to be served. `order`: how one is ordered, and what becomes of that.
//! - `stage`, `arriving`: how far a request is. `bodies`: how much all bodies may hold. `front`: what becomes of it
//!   there, from its body to what is sent. `answering`: the service, whose future goes through these stages.
//! - `register`, `counts`: what is told of the requests that were answered.
//! - `statistics`: the service of the other port, which tells what was printed of the queues.
//! - `connections`: what accepts and serves connections. `attendance`: how many are open. `watch`: whether anything happens
//!   at one. `notices`: lines for standard error. `serving`: the runtimes and the queues together.
//!
//! What is pure of it has exact contracts, whose definitions stand in `specs/`.
#![tactic(auto)]

ghost use Rattle.std.specs.Prelude.{◌≡◌, ◌<◌, ◌≤◌, ◌⊎◌, None, IfErr, IfOk};
ghost use Rattle.startup.specs.declared.ending.StartFault.TheVariants.{OutOfMemory};
ghost use Rattle.sqs_server.specs.declared.arguments.Refusal.TheVariants.{Listen, Start};

mod answering;
mod arguments;
mod arriving;
mod attendance;
mod bodies;
mod clock;
mod connections;
mod counts;
mod front;
mod head;
mod notices;
mod order;
mod queues;
mod register;
mod reply;
mod serving;
mod stage;
mod statistics;
#[cfg(test)]
mod tests;
mod watch;

use arguments::{
    Arguments, Environment, Refusal, Values, Variable, Wanted, arguments_among, environment_among,
    finish,
};
use message::Fault;
use notices::{Notices, start_telling};
use register::Register;
use request_log::Level;
use serving::{Port, Ports, listen, refusal_of_system, serve};
use startup::{Ending, StartFault, VERSION, configuration_in, first_argument, misused};
use std::net::{Ipv4Addr, Net, SocketAddr, TcpListener, TcpStream};
use std::process::ExitCode;
use std::random::RandomSource;
use std::sync::Wait;
use std::thread::Threads;
use std::time::Clock;
use std::{env, fs, thread};

/// How many threads look after the connections of the port for requests, at the least. This project's own choice.
const LEAST_WORKERS: usize = 2;

/// How many they are at the most. This project's own choice.
const MOST_WORKERS: usize = 16;

/// What `--help` tells.
const HELP: &str = "\
Serves queues after Amazon SQS over HTTP, at 127.0.0.1 alone.

usage: sqs_server config.toml [connections]
       sqs_server --help | --version

config.toml   the configuration: limits, queues and alarms
connections   stop after this many connections have closed; without it, run until stopped

Environment:
JUTKARIQ_PORT              the port for requests, 9324 where it is not set or empty
JUTKARIQ_STATISTICS_PORT   the port for statistics, their page and /metrics, 9325 where it is not set or empty
JUTKARIQ_LOG               which requests get a line on standard error: refused, all or none; refused where it is not set or empty
0 picks a free port. The first line on standard output names both ports.
";

/// Serves the queues of the configuration that the first argument names, until as many connections have
/// closed as the second one says.
fn main(rt: HostRuntime) -> ExitCode {
    finish(&rt, run(&rt, &rt))
}

/// What the arguments ask for.
fn wanted(host: &HostRuntime) -> Result<Wanted, Ending<Refusal>> {
    match arguments_among(env::args(host)) {
        Ok(wanted) => Ok(wanted),
        Err(fault) => {
            let first = first_argument(env::args(host));
            Err(misused(host.alloc(), first.as_deref(), fault).of_program(Refusal::Start))
        }
    }
}

/// Does as the arguments say.
fn run<R>(rt: &R, host: &HostRuntime) -> Result<(), Ending<Refusal>>
where
    R: Wait
        + Threads
        + Clock
        + Net<Listener = TcpListener, Stream = TcpStream>
        + RandomSource
        + AllocGlobal
        + Eprint
        + Copy
        + Send
        + Sync
        + Drop
        + 'static,
{
    match wanted(host)? {
        Wanted::Serve(arguments) => run_server(rt, host, &arguments),
        Wanted::Help => {
            let _ = host.print(HELP);
            Ok(())
        }
        Wanted::Version => {
            let _ = host.println(format_args!("sqs_server {VERSION}"));
            Ok(())
        }
    }
}

/// The address of a port of this machine alone.
fn address_of(port: u16) -> SocketAddr {
    SocketAddr::from((Ipv4Addr::LOCALHOST, port))
}

/// How many threads look after the connections of the port for requests: as many as there are processors, and two at the
/// least. More than 16 would take descriptors and give nothing.
fn workers<R: Threads>(rt: &R) -> usize
    ensures least { 2 ≤ result }
    ensures most { result ≤ 16 }
{
    let processors = match thread::available_parallelism(rt) {
        Ok(count) => count.get(),
        Err(_unknown) => 0,
    };
    processors.max(LEAST_WORKERS).min(MOST_WORKERS)
}

/// What the environment says.
fn environment(host: &HostRuntime) -> Result<Environment, Refusal> {
    environment_among(Values {
        port: env::var(host, Variable::Requests.name()),
        statistics_port: env::var(host, Variable::Statistics.name()),
        log: env::var(host, Variable::Log.name()),
    })
}

/// What is told of requests, on standard error by a thread of its own.
fn register_of<R>(rt: &R, level: Level) -> Result<Register, Fault>
where
    R: Wait + Threads + Clock + AllocGlobal + Eprint + Copy + Send + 'static,
{
    let (notices, waiting) = Notices::new(rt.alloc())?;
    start_telling(rt, rt.alloc(), waiting)?;
    Register::new(rt, rt.alloc(), level, notices)
}

/// Opens a port for requests or for statistics.
fn open<R>(rt: &R, purpose: &str, port: u16) -> Result<Port, Ending<Refusal>>
where
    R: Net<Listener = TcpListener, Stream = TcpStream> + AllocGlobal,
    ensures { IfErr result (λ ending. (ending.refusal ≡ Start OutOfMemory) ⊎ (ending.refusal ≡ Listen)) }
{
    match listen(rt, address_of(port)) {
        Ok(port) => Ok(port),
        Err(error) => Err(Ending {
            refusal: refusal_of_system(&error),
            more: format!(in rt.alloc(); "port {port} for {purpose}: {error}").ok(),
        }),
    }
}

/// Says where the server is to be found.
fn greet(host: &HostRuntime, ports: &Ports, count: usize, path: &str) {
    let (Ok(requests), Ok(statistics)) = (ports.requests.address(), ports.statistics.address())
    else {
        return;
    };
    let (port, shown) = (requests.port(), statistics.port());
    let queues = if count == 1 { "queue" } else { "queues" };
    let _ = host.println(format_args!(
        "sqs_server: requests at http://localhost:{port}, statistics at http://localhost:{shown}, {count} {queues} from {path}"
    ));
}

/// Serves the queues of a configuration.
fn run_server<R>(rt: &R, host: &HostRuntime, arguments: &Arguments) -> Result<(), Ending<Refusal>>
where
    R: Wait
        + Threads
        + Clock
        + Net<Listener = TcpListener, Stream = TcpStream>
        + RandomSource
        + AllocGlobal
        + Eprint
        + Copy
        + Send
        + Sync
        + Drop
        + 'static,
    ensures goes_on { arguments.now.connections ≡ None → IfOk result (λ _. ⊥) }
{
    let path = arguments.path.as_str();
    let environment = environment(host)?;
    let config = configuration_in(host.alloc(), path, fs::read(host, path)).map_err(
        |ending| ending.of_program(Refusal::Start),
    )?;
    let ports = Ports {
        requests: open(rt, "requests", environment.port)?,
        statistics: open(rt, "statistics", environment.statistics_port)?,
        workers: workers(rt),
    };
    let Ok(register) = register_of(rt, environment.level) else {
        return Err(Refusal::Start(StartFault::OutOfMemory).into());
    };
    greet(host, &ports, config.queues.len(), path);
    serve(rt, host, ports, &config, register, arguments.connections)?;
    Ok(())
}
