//! Connections are accepted, served side by side, and counted when they have closed.

ghost use Rattle.std.specs.Prelude.{◌≡◌, None, IfOk, IfSome, IsTrue};
ghost use Rattle.std.specs.IoError.{error_kind, raw_os_error};
ghost use Rattle.futures.specs.Poll.{OnPending};
ghost use Rattle.futures.specs.declared.task.Poll.TheVariants.{Pending};
ghost use Rattle.futures.specs.Task.{IsArmed, Keeps};
ghost use Rattle.tokio.specs.Locks.{CanAcquire};
ghost use Rattle.sqs_server.specs.Ports.{is_shortage};

use crate::attendance::{Attendance, Presence};
use crate::front::Front;
use crate::notices::Notices;
use crate::statistics::StatisticsFront;
use crate::watch::IdleWatch;
use bytes::Bytes;
use futures::Future;
use futures::executor::TaskSet;
use futures::task::{Context, Poll};
use http_body_util::Full;
use hyper::rt::TokioTimer;
use hyper::server::conn::http1::{Builder, Connection};
use std::alloc::Global;
use std::io;
use std::sync::Wait;
use std::time::{Clock, Duration};
use tokio::net::{TcpListener, TcpStream};
use tokio::sync::AcquireOwned;
use tokio::time::{Handle, Sleep};

/// How long nothing is accepted after the system has refused to, in milliseconds.
const PAUSE_MILLISECONDS: u64 = 50;

/// How long a connection is left to the other acceptors of a port where more are open here than there, in milliseconds.
const WAY_MILLISECONDS: u64 = 1;

/// A connection that is served: what serves it, and that it is there.
#[derive(Drop)]
pub struct ConnectionTask<C, R> {
    rt: R,
    alloc: Global,
    /// In a place of its own: it is large, and who spawns and polls a task moves it.
    connection: Box<C>,
    notices: Notices,
    watch: IdleWatch,
    /// For as long as the connection is there.
    _presence: Presence,
}

/// What is said of the fault of a connection, before what hyper calls it.
fn advice(error: &hyper::Error) -> &'static str {
    if error.is_parse() && !error.is_parse_too_large() {
        "what came is not HTTP/1.1 or 1.0; TLS is not served, use http://"
    } else if error.is_incomplete_message() {
        "the client left before it had sent all of a request, or before it was answered"
    } else {
        "the connection failed"
    }
}

/// What serves a socket over which statistics are asked for.
pub type StatisticsTask<R> = ConnectionTask<
    Connection<TcpStream, StatisticsFront<R>, Full<Bytes>, TokioTimer<R>>,
    R,
>;

impl<C: Future<Output = hyper::Result<()>>, R: Wait + Clock + Drop> Future
    for ConnectionTask<C, R> {
    type Output = ();

    ghost can_poll = { λ t. C.can_poll t.connection.value };

    ghost needs = { λ t. C.needs t.connection.value };

    /// Serves. A fault of the connection is told on standard error, and is no fault of the server. That a client asks
    /// nothing for long is no fault. A connection at which nothing happens for long is closed.
    fn poll(&mut self, cx: &mut Context<'_>) -> Poll<()> {
        match self.connection.poll(cx) {
            Poll::Pending if self.watch.is_over(cx) => {}
            Poll::Pending => return Poll::Pending,
            Poll::Ready(Ok(())) => {}
            Poll::Ready(Err(error)) if error.is_timeout() => {}
            Poll::Ready(Err(error)) => {
                let advice = advice(&error);
                let words = format!(in self.alloc; "{advice} ({error})");
                self.notices
                    .tell_of(&self.rt, self.alloc, "connection", words);
            }
        }
        Poll::Ready(())
    }
}

/// What serves a socket whose requests queues answer. It is a type of its own, so that who has it served need not
/// know what its connection is made of.
#[derive(Drop)]
pub struct RequestTask<R: Wait + Clock + Copy + Drop> {
    task: ConnectionTask<Connection<TcpStream, Front<R>, Full<Bytes>, TokioTimer<R>>, R>,
}

impl<R: Wait + Clock + Copy + Drop> Future for RequestTask<R> {
    type Output = ();

    ghost can_poll = { λ t. ⟦<ConnectionTask<Connection<TcpStream, Front<R>, Full<Bytes>, TokioTimer<R>>, R> as Future>⟧.can_poll t.task };

    ghost needs = { λ t. ⟦<ConnectionTask<Connection<TcpStream, Front<R>, Full<Bytes>, TokioTimer<R>>, R> as Future>⟧.needs t.task };

    fn poll(&mut self, cx: &mut Context<'_>) -> Poll<()> {
        self.task.poll(cx)
    }
}

/// Makes what serves a socket.
pub trait MakeTask: Drop {
    type Task: Future<Output = ()>;

    /// What serves it, from its first request on.
    fn task(&self, socket: TcpStream, presence: Presence) -> io::Result<Self::Task>
        ensures { IfOk result Self.Task.can_poll };
}

/// Has the requests of a socket answered over HTTP/1.1.
#[derive(Drop)]
pub struct RequestTasks<R: Wait + Drop> {
    pub rt: R,
    pub alloc: Global,
    pub http: Builder<TokioTimer<R>>,
    pub front: Front<R>,
    pub notices: Notices,
    pub timers: Handle,
}

impl<R: Wait + Clock + Copy + Send + Drop + 'static> MakeTask for RequestTasks<R> {
    type Task = RequestTask<R>;

    fn task(&self, socket: TcpStream, presence: Presence) -> io::Result<RequestTask<R>> {
        socket.set_nodelay(true)?;
        let (Ok(front), Ok(notices)) = (self.front.again(), self.notices.again()) else {
            return Err(io::ErrorKind::OutOfMemory.into());
        };
        let connection = self.http.serve_connection(socket, front);
        let Ok(connection) = Box::new(self.alloc, connection) else {
            return Err(io::ErrorKind::OutOfMemory.into());
        };
        let task = ConnectionTask {
            rt: self.rt,
            alloc: self.alloc,
            connection,
            notices,
            watch: IdleWatch::new(&self.rt, &self.timers),
            _presence: presence,
        };
        Ok(RequestTask { task })
    }
}

/// Has the requests of a socket for statistics answered over HTTP/1.1.
#[derive(Drop)]
pub struct StatisticsTasks<R: Wait + Drop> {
    pub rt: R,
    pub alloc: Global,
    pub http: Builder<TokioTimer<R>>,
    pub front: StatisticsFront<R>,
    pub notices: Notices,
    pub timers: Handle,
}

impl<R: Wait + Clock + Copy + Send + Drop + 'static> MakeTask for StatisticsTasks<R> {
    type Task = StatisticsTask<R>;

    fn task(&self, socket: TcpStream, presence: Presence) -> io::Result<StatisticsTask<R>> {
        socket.set_nodelay(true)?;
        let (Ok(front), Ok(notices)) = (self.front.again(), self.notices.again()) else {
            return Err(io::ErrorKind::OutOfMemory.into());
        };
        let connection = self.http.serve_connection(socket, front);
        let Ok(connection) = Box::new(self.alloc, connection) else {
            return Err(io::ErrorKind::OutOfMemory.into());
        };
        Ok(ConnectionTask {
            rt: self.rt,
            alloc: self.alloc,
            connection,
            notices,
            watch: IdleWatch::new(&self.rt, &self.timers),
            _presence: presence,
        })
    }
}

/// Whether a fault is a shortage, which passes, and none of a port: Linux has no memory, no descriptor left in the
/// system or in this program, or no memory for a socket (ENOMEM, ENFILE, EMFILE and ENOBUFS).
pub(crate) fn is_shortage(error: &io::Error) -> bool
    ensures { result ≡ is_shortage (raw_os_error error.now) (error_kind error.now) }
{
    match error.raw_os_error() {
        Some(code) => matches!(code, 12 | 23 | 24 | 105),
        None => matches!(error.kind(), io::ErrorKind::OutOfMemory),
    }
}

/// Accepts connections until enough of them have closed, where a number is asked for.
#[derive(Drop)]
pub struct Acceptor<'a, R, M: MakeTask> {
    pub rt: R,
    pub alloc: Global,
    pub listener: TcpListener,
    pub notices: Notices,
    pub attendance: Attendance,
    pub make: M,
    pub tasks: &'a TaskSet<M::Task>,
    pub timers: Handle,
    pub pause: Option<Sleep>,
    /// Whether the next connection was left to the other acceptors already.
    pub gave_way: bool,
    /// How many times in a row nothing was accepted, but for shortages.
    pub failures: u32,
    /// How often that may be. Without a number it goes on for ever.
    pub patience: Option<u32>,
    pub enough: Option<AcquireOwned>,
}

impl<R: Wait + Clock, M: MakeTask> Acceptor<'_, R, M> {
    /// Has a connection served.
    fn spawn(&self, socket: TcpStream) -> io::Result<()> {
        let task = self.make.task(socket, self.attendance.enter()?)?;
        self.tasks.spawn(task).map_err(io::Error::from)
    }

    /// The same. One that cannot be served is closed.
    fn serve(&self, socket: TcpStream) {
        if let Err(error) = self.spawn(socket) {
            let words = format!(in self.alloc; "{error}");
            self.notices
                .tell_of(&self.rt, self.alloc, "connection", words);
        }
    }

    /// Tells a fault of the system, and accepts nothing for a while. It comes back where it is one too many. A
    /// shortage, which is none of the port, does not count.
    fn refused(&mut self, error: io::Error) -> Option<io::Error>
        ensures same { (self.new.enough ≡ self.old.enough) × (self.new.patience ≡ self.old.patience) }
        ensures patient { self.old.patience ≡ None → result ≡ None }
    {
        let words = format!(in self.alloc; "{error}");
        self.notices.tell_of(&self.rt, self.alloc, "accept", words);
        if !is_shortage(&error) {
            self.failures = self.failures.saturating_add(1);
        }
        if let Some(most) = self.patience {
            if most < self.failures {
                return Some(error);
            }
        }
        let pause = Duration::from_millis(PAUSE_MILLISECONDS);
        self.pause = self.timers.sleep(&self.rt, pause).ok();
        None
    }

    /// Whether nothing is to be accepted yet.
    fn is_pausing(&mut self, cx: &mut Context<'_>) -> bool
        ensures same { (self.new.enough ≡ self.old.enough) × (self.new.patience ≡ self.old.patience) }
        ensures armed { IsTrue result → IsArmed cx.new }
        ensures kept { Keeps cx.old cx.new }
    {
        let is_pending = match &mut self.pause {
            Some(pause) => pause.poll(cx).is_pending(),
            None => false,
        };
        if !is_pending {
            self.pause = None;
        }
        is_pending
    }

    /// Lets the other acceptors of the port have the next connection for a moment, once, where more are open here than
    /// there.
    fn gives_way(&mut self, cx: &mut Context<'_>) -> bool
        ensures same { (self.new.enough ≡ self.old.enough) × (self.new.patience ≡ self.old.patience) }
        ensures armed { IsTrue result → IsArmed cx.new }
        ensures kept { Keeps cx.old cx.new }
    {
        if self.gave_way || !self.attendance.is_crowded() {
            return false;
        }
        self.gave_way = true;
        let moment = Duration::from_millis(WAY_MILLISECONDS);
        self.pause = self.timers.sleep(&self.rt, moment).ok();
        self.is_pausing(cx)
    }

    /// Whether enough connections have closed.
    fn is_enough(&mut self, cx: &mut Context<'_>) -> Poll<io::Result<()>>
        requires { IfSome self.old.enough CanAcquire }
        ensures again { OnPending result (IfSome self.new.enough CanAcquire) }
        ensures never { self.old.enough ≡ None → (result ≡ Pending) × (self.new.enough ≡ None) }
        ensures patience { self.new.patience ≡ self.old.patience }
        ensures kept { Keeps cx.old cx.new }
    {
        match &mut self.enough {
            Some(enough) => match enough.poll(cx) {
                Poll::Pending => Poll::Pending,
                Poll::Ready(Ok(_permits)) => Poll::Ready(Ok(())),
                Poll::Ready(Err(_refused)) => Poll::Ready(Err(io::ErrorKind::OutOfMemory.into())),
            },
            None => Poll::Pending,
        }
    }
}

impl<R: Wait + Clock + Drop, M: MakeTask> Future for Acceptor<'_, R, M> {
    type Output = io::Result<()>;

    ghost can_poll = { λ a. IfSome a.enough CanAcquire };

    // Without a number of connections and with patience for ever it has no output.
    ghost gives = { λ a _. a.enough ≡ None → a.patience ≡ None → ⊥ };

    fn poll(&mut self, cx: &mut Context<'_>) -> Poll<io::Result<()>> {
        if let Poll::Ready(ended) = self.is_enough(cx) {
            return Poll::Ready(ended);
        }
        if self.is_pausing(cx) || self.gives_way(cx) {
            return Poll::Pending;
        }
        self.gave_way = false;
        match self.listener.poll_accept(cx) {
            Poll::Pending => return Poll::Pending,
            Poll::Ready(Ok((socket, _))) => {
                self.failures = 0;
                self.serve(socket);
            }
            Poll::Ready(Err(error)) => {
                if let Some(error) = self.refused(error) {
                    return Poll::Ready(Err(error));
                }
            }
        }
        cx.yield_now()
    }
}
