//! What serves the connections of the ports: the runtimes, the queues and what accepts connections.

ghost use Rattle.std.specs.Prelude.{◌≡◌, ◌⊎◌, None, IfErr, IfOk, IfSome, min, option_map};
ghost use Rattle.std.specs.IoError.{error_kind};
ghost use Rattle.tokio.specs.Locks.{CanAcquire, owned_permits_wanted};
ghost use Rattle.sqs_server.specs.Configured.{AreOpenedInOrder};
ghost use Rattle.sqs_server.specs.Program.{refusal_of_system};
ghost use Rattle.startup.specs.declared.ending.StartFault.TheVariants.{OutOfMemory};
ghost use Rattle.sqs_server.specs.declared.arguments.Refusal.TheVariants.{Listen, Start};

use crate::arguments::Refusal;
use crate::attendance::Attendance;
use crate::bodies::Bodies;
use crate::connections::{Acceptor, MakeTask, RequestTasks, StatisticsTasks, is_shortage};
use crate::front::{Front, Hall};
use crate::notices::Notices;
use crate::queues::{Opened, Queues, open_all};
use crate::register::Register;
use crate::statistics::StatisticsFront;
use hyper::rt::TokioTimer;
use hyper::server::conn::http1::Builder;
use queue_config::Config;
use startup::StartFault;
use std::hash::RandomState;
use std::net::{self, Net, SocketAddr};
use std::random::RandomSource;
use std::sync::{Arc, Wait};
use std::thread::Threads;
use std::time::{Clock, Duration};
use std::{io, thread};
use tokio::net::TcpListener;
use tokio::runtime::LocalRuntime;
use tokio::sync::{AcquireOwned, Semaphore};

/// Why nothing can be served: memory ran out, or the system refused.
pub(crate) fn refusal_of_system(error: &io::Error) -> Refusal
    ensures { result ≡ refusal_of_system (error_kind error.now) }
{
    match error.kind() {
        io::ErrorKind::OutOfMemory => Refusal::Start(StartFault::OutOfMemory),
        _ => Refusal::Listen,
    }
}

/// A port that is open.
#[derive(Drop)]
pub struct Port {
    listener: net::TcpListener,
}

/// Opens a port.
pub(crate) fn listen<R>(rt: &R, address: SocketAddr) -> io::Result<Port>
where
    R: Net<Listener = net::TcpListener, Stream = net::TcpStream>,
{
    // This one lets as many connections wait as the system does, and std's lets 128.
    let listener = net::TcpListener::from(mio::net::TcpListener::bind(rt, address)?);
    Ok(Port { listener })
}

impl Port {
    /// Its address.
    pub(crate) fn address(&self) -> io::Result<SocketAddr> {
        self.listener.local_addr()
    }

    /// The same for another thread.
    fn again(&self) -> io::Result<Port> {
        let listener = self.listener.try_clone()?;
        Ok(Port { listener })
    }

    /// Where its connections come from, for the thread of a runtime.
    fn listener(&self, runtime: &LocalRuntime) -> io::Result<TcpListener> {
        TcpListener::from_std(self.listener.try_clone()?, runtime.handle().reactor())
    }
}

/// Lets connections in until enough have closed, or until nothing could be accepted more often in a row than is
/// said. Those that are open then are let go.
fn accept<R, M>(
    rt: &R,
    runtime: &mut LocalRuntime,
    listener: TcpListener,
    make: M,
    notices: Notices,
    patience: Option<u32>,
    counted: (Attendance, Option<AcquireOwned>),
) -> io::Result<()>
where
    R: Wait + Clock + RandomSource + AllocGlobal + Copy + Drop,
    M: MakeTask,
    requires { IfSome counted.1 CanAcquire }
    ensures goes_on { counted.1 ≡ None → patience ≡ None → IfOk result (λ _. ⊥) }
{
    let (attendance, enough) = counted;
    let timers = runtime.handle().time().clone()?;
    let tasks = runtime.task_set::<R, M::Task>(rt)?;
    let acceptor = Acceptor {
        rt: *rt,
        alloc: rt.alloc(),
        listener,
        notices,
        attendance,
        make,
        tasks: &tasks,
        timers,
        pause: None,
        gave_way: false,
        failures: 0,
        patience,
        enough,
    };
    runtime.set_shutdown_timeout(Some(Duration::from_millis(0)));
    runtime.block_on_with(rt, &tasks, acceptor)?
}

/// The future of so many closed connections.
fn closings(closed: &Arc<Semaphore>, connections: Option<u64>) -> io::Result<Option<AcquireOwned>>
    ensures fresh { IfOk result (λ enough. IfSome enough CanAcquire) }
    ensures none { connections ≡ None → IfOk result (λ enough. enough ≡ None) }
    ensures count { IfOk result (λ enough. option_map (λ e. owned_permits_wanted e) enough ≡ option_map (λ n. min n 4294967295) connections) }
{
    let Some(count) = connections else {
        return Ok(None);
    };
    let count = u32::try_from(count).unwrap_or(u32::MAX);
    let closed = Arc::try_clone(closed)?;
    Ok(Some(Semaphore::acquire_many_owned(closed, count)))
}

/// How often in a row nothing may be accepted at the port for statistics, until it counts as failed.
const PATIENCE: u32 = 10;

/// How long a port that failed stays closed, in seconds.
const REOPENING: u64 = 1;

/// What the thread works with that serves the statistics.
#[derive(Drop)]
struct StatisticsWorker<R: Wait + Drop> {
    rt: R,
    queues: Arc<Queues<R>>,
    register: Arc<Register>,
    attendance: Attendance,
    notices: Notices,
}

impl<R> StatisticsWorker<R>
where
    R: Wait
        + Threads
        + Clock
        + Net<Listener = net::TcpListener, Stream = net::TcpStream>
        + RandomSource
        + AllocGlobal
        + Copy
        + Send
        + Sync
        + Drop
        + 'static,
{
    /// What has the statistics of a socket told, by the timers of a runtime.
    fn statistics_tasks(&self, runtime: &LocalRuntime) -> io::Result<StatisticsTasks<R>> {
        let (rt, alloc) = (self.rt, self.rt.alloc());
        let timer = TokioTimer::new(rt, runtime.handle().time().clone()?);
        let Ok(notices) = self.notices.again() else {
            return Err(io::ErrorKind::OutOfMemory.into());
        };
        Ok(StatisticsTasks {
            rt,
            alloc,
            http: Builder::new(alloc, RandomState::new(&rt)?).timer(timer),
            front: StatisticsFront {
                rt,
                alloc,
                queues: Arc::try_clone(&self.queues)?,
                register: Arc::try_clone(&self.register)?,
            },
            notices,
            timers: runtime.handle().time().clone()?,
        })
    }

    /// Lets connections in at a port, until it fails.
    fn show_at(&self, port: &Port) -> io::Result<()> {
        let mut runtime = LocalRuntime::new(&self.rt)?;
        let listener = port.listener(&runtime)?;
        let make = self.statistics_tasks(&runtime)?;
        let Ok(notices) = self.notices.again() else {
            return Err(io::ErrorKind::OutOfMemory.into());
        };
        let attendance = self.attendance.again()?;
        accept(
            &self.rt,
            &mut runtime,
            listener,
            make,
            notices,
            Some(PATIENCE),
            (attendance, None),
        )
    }

    /// The same, and opens it where it is closed.
    fn show_again(&self, address: SocketAddr, port: &mut Option<Port>) -> io::Result<()> {
        let open = match port.take() {
            Some(open) => open,
            None => listen(&self.rt, address)?,
        };
        let shown = self.show_at(&open);
        *port = Some(open);
        shown
    }

    /// Lets connections in at an address for as long as the program goes. A fault is told. A port that fails is closed
    /// and opened again; in a shortage it stays open, since it might not be had again.
    fn run(self, address: SocketAddr, port: Port) {
        let mut port = Some(port);
        for _ in self.rt.forever() {
            if let Err(error) = self.show_again(address, &mut port) {
                if !is_shortage(&error) {
                    port = None;
                }
                let alloc = self.rt.alloc();
                let words = format!(in alloc; "{error}");
                self.notices
                    .tell_of(&self.rt, alloc, "statistics port", words);
            }
            thread::sleep(&self.rt, Duration::from_secs(REOPENING));
        }
    }
}

/// Starts the thread that serves the statistics: texts that are long to write hold up no request.
fn show<R>(
    rt: &R,
    port: Port,
    queues: &Arc<Queues<R>>,
    register: &Arc<Register>,
    attendance: Attendance,
) -> io::Result<()>
where
    R: Wait
        + Threads
        + Clock
        + Net<Listener = net::TcpListener, Stream = net::TcpStream>
        + RandomSource
        + AllocGlobal
        + Copy
        + Send
        + Sync
        + Drop
        + 'static,
{
    let Ok(notices) = register.notices() else {
        return Err(io::ErrorKind::OutOfMemory.into());
    };
    let address = port.address()?;
    let worker = StatisticsWorker {
        rt: *rt,
        queues: Arc::try_clone(queues)?,
        register: Arc::try_clone(register)?,
        attendance,
        notices,
    };
    let _thread = thread::spawn(rt, move || worker.run(address, port))?;
    Ok(())
}

/// What a thread works with that serves requests.
#[derive(Drop)]
struct RequestWorker<R: Wait + Drop> {
    rt: R,
    port: Port,
    front: Front<R>,
    attendance: Attendance,
    /// How many connections are to close until it ends.
    connections: Option<u64>,
    notices: Notices,
}

impl<R> RequestWorker<R>
where
    R: Wait
        + Clock
        + Net<Listener = net::TcpListener, Stream = net::TcpStream>
        + RandomSource
        + AllocGlobal
        + Copy
        + Send
        + Drop
        + 'static,
{
    /// The same for another thread.
    fn again(&self) -> io::Result<RequestWorker<R>>
        ensures { IfOk result (λ other. other.connections ≡ self.now.connections) }
    {
        let (Ok(front), Ok(notices)) = (self.front.apart(), self.notices.again()) else {
            return Err(io::ErrorKind::OutOfMemory.into());
        };
        Ok(RequestWorker {
            rt: self.rt,
            port: self.port.again()?,
            front,
            attendance: self.attendance.apart(self.rt.alloc())?,
            connections: self.connections,
            notices,
        })
    }

    /// What has the requests of a socket answered, by the timers of a runtime.
    fn request_tasks(&self, runtime: &LocalRuntime) -> io::Result<RequestTasks<R>> {
        let (rt, alloc) = (self.rt, self.rt.alloc());
        let timer = TokioTimer::new(rt, runtime.handle().time().clone()?);
        let (Ok(front), Ok(notices)) = (self.front.again(), self.notices.again()) else {
            return Err(io::ErrorKind::OutOfMemory.into());
        };
        Ok(RequestTasks {
            rt,
            alloc,
            http: Builder::new(alloc, RandomState::new(&rt)?).timer(timer),
            front,
            notices,
            timers: runtime.handle().time().clone()?,
        })
    }

    /// Lets connections in until enough have closed.
    fn serve(&self) -> io::Result<()>
        ensures goes_on { self.now.connections ≡ None → IfOk result (λ _. ⊥) }
    {
        let mut runtime = LocalRuntime::new(&self.rt)?;
        let listener = self.port.listener(&runtime)?;
        let make = self.request_tasks(&runtime)?;
        let Ok(notices) = self.notices.again() else {
            return Err(io::ErrorKind::OutOfMemory.into());
        };
        let attendance = self.attendance.again()?;
        let enough = closings(&attendance.closed, self.connections)?;
        accept(
            &self.rt,
            &mut runtime,
            listener,
            make,
            notices,
            None,
            (attendance, enough),
        )
    }

    /// The same in a thread of its own. Where the system ends it, that is told, and it begins anew.
    fn run(self) {
        for _ in self.rt.forever() {
            let Err(error) = self.serve() else {
                return;
            };
            let alloc = self.rt.alloc();
            let words = format!(in alloc; "{error}");
            self.notices
                .tell_of(&self.rt, alloc, "port for requests", words);
            thread::sleep(&self.rt, Duration::from_secs(REOPENING));
        }
    }
}

/// Starts so many threads that serve requests beside the one that calls.
fn start_workers<R>(rt: &R, worker: &RequestWorker<R>, count: usize) -> io::Result<()>
where
    R: Wait
        + Threads
        + Clock
        + Net<Listener = net::TcpListener, Stream = net::TcpStream>
        + RandomSource
        + AllocGlobal
        + Copy
        + Send
        + Drop
        + 'static,
{
    for _ in 0..count {
        let other = worker.again()?;
        let _thread = thread::spawn(rt, move || other.run())?;
    }
    Ok(())
}

/// The ports that are open, and how many threads look after the connections of the one for requests.
#[derive(Drop)]
pub struct Ports {
    pub requests: Port,
    pub statistics: Port,
    pub workers: usize,
}

/// Lets connections in that are answered over HTTP/1.1, at both ports, to the queues of a configuration.
fn serve_ports<R>(
    rt: &R,
    ports: Ports,
    _config: &Config,
    opened: Opened<R>,
    register: Register,
    connections: Option<u64>,
) -> io::Result<()>
where
    R: Wait
        + Threads
        + Clock
        + Net<Listener = net::TcpListener, Stream = net::TcpStream>
        + RandomSource
        + AllocGlobal
        + Copy
        + Send
        + Sync
        + Drop
        + 'static,
    requires marks { (at : _) × AreOpenedInOrder _config.now _config.now.limits at opened.marks.items }
    ensures goes_on { connections ≡ None → IfOk result (λ _. ⊥) }
{
    let alloc = rt.alloc();
    let Ok(notices) = register.notices() else {
        return Err(io::ErrorKind::OutOfMemory.into());
    };
    let register = Arc::new(alloc, register)?;
    let closed = Arc::new(alloc, Semaphore::new(alloc, 0)?)?;
    let shown = Attendance::new(alloc, 1, Arc::try_clone(&closed)?)?;
    show(rt, ports.statistics, &opened.queues, &register, shown)?;
    let hall = Hall {
        queues: opened.queues,
        orders: opened.orders,
        day: opened.day,
        register,
        bodies: Arc::new(alloc, Bodies::new())?,
    };
    let front = Front {
        rt: *rt,
        alloc,
        port: ports.requests.address()?.port(),
        hall: Arc::new(alloc, hall)?,
    };
    let worker = RequestWorker {
        rt: *rt,
        port: ports.requests,
        front,
        attendance: Attendance::new(alloc, ports.workers as u64, closed)?,
        connections,
        notices,
    };
    start_workers(rt, &worker, ports.workers.saturating_sub(1))?;
    worker.serve()
}

/// Serves the queues of a configuration at two open ports, the one for requests and the one for statistics, until as
/// many connections have closed at both together as are asked for. What is to be told of requests is told by the
/// register.
pub(crate) fn serve<R>(
    rt: &R,
    host: &HostRuntime,
    ports: Ports,
    config: &Config,
    register: Register,
    connections: Option<u64>,
) -> Result<(), Refusal>
where
    R: Wait
        + Threads
        + Clock
        + Net<Listener = net::TcpListener, Stream = net::TcpStream>
        + RandomSource
        + AllocGlobal
        + Eprint
        + Copy
        + Send
        + Sync
        + Drop
        + 'static,
    ensures errors { IfErr result (λ refusal. (refusal ≡ Start OutOfMemory) ⊎ (refusal ≡ Listen)) }
    ensures goes_on { connections ≡ None → IfOk result (λ _. ⊥) }
{
    let Ok(opened) = open_all(rt, host, rt.alloc(), config) else {
        return Err(Refusal::Start(StartFault::OutOfMemory));
    };
    match serve_ports(rt, ports, config, opened, register, connections) {
        Ok(()) => Ok(()),
        Err(error) => Err(refusal_of_system(&error)),
    }
}
