//! Lines that are told on standard error while the server serves: requests that were refused, and faults that end no
//! program. A thread of its own tells them: whoever reads standard error may be slow, and no connection waits for that.
//! Where there is no memory for a line, that is told, at most once a second.

use crate::clock::moment_of_day;
use crossbeam_channel::{Receiver, RecvTimeoutError, Sender, bounded};
use message::Fault;
use request_log::{Burst, notice_line};
use std::alloc::{AllocError, Global};
use std::sync::atomic::{AtomicBool, Ordering};
use std::sync::{Arc, Wait};
use std::thread;
use std::thread::Threads;
use std::time::{Clock, Duration};

/// How many lines wait to be told. What comes beyond them is dropped.
const LINES: usize = 1000;

/// How long nothing comes until what was held back is told, in seconds.
const PAUSE: u64 = 1;

/// What is told where there was no memory for a line, or for what was to be told.
const SHORTAGE: &str = "sqs_server: out of memory";

/// How long nothing is told of a shortage again, in milliseconds.
const SHORTAGE_PAUSE: u64 = 1000;

/// Whether there was no memory for a line since that was last told.
#[derive(Drop)]
pub struct Shortage {
    is_there: AtomicBool,
}

impl Shortage {
    /// Notes that there was none.
    fn note(&self) {
        self.is_there.store(true, Ordering::SeqCst);
    }

    /// Whether it was noted since this was last asked.
    fn take(&self) -> bool {
        self.is_there.swap(false, Ordering::SeqCst)
    }
}

/// Where lines are told.
#[derive(Drop)]
pub struct Notices {
    lines: Sender<String>,
    shortage: Arc<Shortage>,
}

/// Where lines are found that are to be told.
#[derive(Drop)]
pub struct WaitingLines {
    pub lines: Receiver<String>,
    shortage: Arc<Shortage>,
}

impl Notices {
    /// A place for lines, and where they are found. `OutOfMemory` is the only refusal.
    pub fn new(alloc: Global) -> Result<(Notices, WaitingLines), Fault> {
        let (lines, found) = bounded::<String, Global>(alloc, LINES)?;
        let shortage = Shortage {
            is_there: AtomicBool::new(false),
        };
        let shortage = Arc::new(alloc, shortage)?;
        let waiting = WaitingLines {
            lines: found,
            shortage: Arc::try_clone(&shortage)?,
        };
        Ok((Notices { lines, shortage }, waiting))
    }

    /// The same for another connection. `OutOfMemory` is the only refusal.
    pub fn again(&self) -> Result<Notices, Fault> {
        Ok(Notices {
            lines: self.lines.clone()?,
            shortage: Arc::try_clone(&self.shortage)?,
        })
    }

    /// Has a line told, or that there was no memory for it.
    pub fn tell<R: Wait>(&self, rt: &R, line: Result<String, AllocError>) {
        match line {
            Ok(line) => {
                let _ = self.lines.try_send(rt, line);
            }
            Err(AllocError) => self.shortage.note(),
        }
    }

    /// Has what happened just now to a connection or a port told, with its time.
    pub fn tell_of<R: Wait + Clock>(
        &self,
        rt: &R,
        alloc: Global,
        about: &str,
        words: Result<String, AllocError>,
    ) {
        let line = match words {
            Ok(words) => notice_line(alloc, moment_of_day(rt), about, words.as_str()),
            Err(AllocError) => Err(Fault::OutOfMemory),
        };
        self.tell(rt, line.map_err(|_| AllocError));
    }
}

/// Tells what was held back, if it is time.
fn tell_rest<R: Clock + Eprint>(rt: &R, burst: &mut Burst, shortage: &Shortage) {
    match burst.rest(moment_of_day(rt)) {
        Ok(Some(line)) => {
            let _ = rt.eprintln(format_args!("{line}"));
        }
        Ok(None) => {}
        Err(AllocError) => shortage.note(),
    }
}

/// Tells a line, or counts it where it is the last one again.
fn tell_one<R: Clock + Eprint>(rt: &R, burst: &mut Burst, shortage: &Shortage, line: &str) {
    let Ok((before, is_told)) = burst.hear(moment_of_day(rt), line) else {
        return shortage.note();
    };
    if let Some(before) = before {
        let _ = rt.eprintln(format_args!("{before}"));
    }
    if is_told {
        let _ = rt.eprintln(format_args!("{line}"));
    }
}

/// Tells that memory was short, where that was noted and not told a moment ago. It takes no memory.
fn tell_shortage<R: Clock + Eprint>(rt: &R, shortage: &Shortage, told: &mut u64) {
    let now = moment_of_day(rt).milliseconds();
    if now.abs_diff(*told) >= SHORTAGE_PAUSE && shortage.take() {
        *told = now;
        let _ = rt.eprintln(format_args!("{SHORTAGE}"));
    }
}

/// Tells lines on standard error until nobody has any more.
fn tell_all<R: Wait + Clock + Eprint>(rt: &R, alloc: Global, waiting: WaitingLines) {
    let WaitingLines { lines, shortage } = waiting;
    let mut burst = Burst::new(alloc);
    let mut told = 0;
    for _ in rt.forever() {
        tell_shortage(rt, &shortage, &mut told);
        match lines.recv_timeout(rt, Duration::from_secs(PAUSE)) {
            Ok(line) => tell_one(rt, &mut burst, &shortage, line.as_str()),
            Err(RecvTimeoutError::Timeout) => tell_rest(rt, &mut burst, &shortage),
            Err(RecvTimeoutError::Disconnected) => return,
        }
    }
}

/// Starts the thread that tells lines. One that cannot be started is `OutOfMemory`.
pub(crate) fn start_telling<R: Wait + Clock + Threads + Eprint + Copy + Send + 'static>(
    rt: &R,
    alloc: Global,
    waiting: WaitingLines,
) -> Result<(), Fault> {
    let own = *rt;
    match thread::spawn(rt, move || tell_all(&own, alloc, waiting)) {
        Ok(_thread) => Ok(()),
        Err(_refused) => Err(Fault::OutOfMemory),
    }
}
