//! Threads at one desk, each with a pass of its own.

ghost use Rattle.std.specs.Prelude.{◌≡◌};

use super::*;
use receipt_handle::Handle;
use std::thread::Threads;

/// A thread at a desk.
#[derive(Drop)]
struct Caller<'a> {
    desk: &'a Desk<NoPress>,
    pass: Pass<NoPress>,
    alloc: Global,
    /// The number of each message that it sent, with a 0, and of each that it was offered, with the
    /// receipt, in its own order.
    told: Vec<(u64, u64)>,
    /// How many messages it saw at its last look.
    seen: u64,
    /// The refusal that it met.
    failed: Option<Fault>,
    ghost together: { pass.desk ≡ desk.now },
}

impl Caller<'_> {
    /// The command that a text says. To `delete` is to delete the message that it was offered last.
    fn command(&self, call: &str) -> Result<Command, Fault> {
        match self.told.last().copied() {
            Some((number, receipt)) if call == "delete" => {
                let handle = Handle {
                    uid: 1,
                    number,
                    receipt,
                };
                Ok(Command::Delete { handle })
            }
            _ => command(self.alloc, call),
        }
    }

    /// Asks a command at a moment through a gate, and keeps what it is told.
    fn ask<R: Wait>(&mut self, rt: &R, line: &str, gate: &impl Gate) -> Result<(), Fault> {
        let (at, call) = first_word(line);
        let (at, command) = (moment(at)?, self.command(call)?);
        let (alloc, pass) = (self.alloc, &mut self.pass);
        let asked = self.desk.ask(rt, alloc, pass, at, &command, gate);
        self.keep_told(asked)
    }

    /// Asks a command at a moment where the turn is free, and keeps what it is told. Whether it was free.
    fn ask_now<R: Wait>(&mut self, rt: &R, line: &str) -> Result<bool, Fault> {
        let (at, call) = first_word(line);
        let (at, command) = (moment(at)?, self.command(call)?);
        let (alloc, pass) = (self.alloc, &mut self.pass);
        let asked = self.desk.ask_now(rt, alloc, pass, at, &command, &NoGate);
        match asked {
            Some(asked) => self.keep_told(asked).map(|()| true),
            None => Ok(false),
        }
    }

    /// Keeps what it is told. Where no turn is printed, each call is told of all the same.
    fn keep_told(&mut self, asked: CallAnswer<()>) -> Result<(), Fault> {
        let CallAnswer { reply, told } = asked;
        match reply? {
            Reply::Sent(posted) => self.told.push((posted.number, 0))?,
            Reply::Received(offers) => self.keep(&offers)?,
            Reply::Looked(look) => self.seen = look.gauges.visible,
            Reply::Done => {}
            _ => return Err(Fault::UnsupportedOperation),
        }
        told.ok_or(Fault::OutOfMemory)
    }

    /// Keeps the numbers and the receipts of what was offered.
    fn keep(&mut self, offers: &Offers) -> Result<(), Fault> {
        for offer in offers.as_slice() {
            self.told.push((offer.number, offer.receipt))?;
        }
        Ok(())
    }

    /// Does what a line says, one after another: it asks a command; `holds` its turn meanwhile; `waits`
    /// until a turn is held, and glances; `misses` a turn that is held, for which it does not wait; or
    /// `tries` whether the turn is free, and asks where it is not.
    fn work<R: Wait>(&mut self, rt: &R, line: &str, gate: &Barrier) -> Result<(), Fault> {
        for step in line.split('|') {
            let (times, step) = step.split_once('*').unwrap_or(("1", step));
            for _ in 0..times.parse::<u64>().unwrap_or(0) {
                match first_word(step) {
                    ("waits", _) => {
                        gate.wait_for(101);
                        if self.desk.glance(&mut self.pass) == 1 {
                            gate.sum.fetch_add(1, Ordering::SeqCst);
                        }
                    }
                    ("misses", step) => {
                        gate.wait_for(101);
                        if !self.ask_now(rt, step)? {
                            gate.sum.fetch_add(1, Ordering::SeqCst);
                        }
                    }
                    ("tries", step) => {
                        if !self.ask_now(rt, step)? {
                            self.ask(rt, step, &NoGate)?;
                        }
                    }
                    ("holds", step) => self.ask(rt, step, gate)?,
                    _ => self.ask(rt, step, &NoGate)?,
                }
            }
        }
        Ok(())
    }
}

/// How many sends and offers all threads were told of. None met a refusal, and the numbers of each one's
/// own messages rise. Each number was given to one message, and none was left out; the receipts of each
/// are 1, 2 and so on, each of one offer.
fn all_of(alloc: Global, callers: &[Caller<'_>]) -> Result<usize, Fail> {
    let mut all = Vec::new(alloc);
    for caller in callers {
        let rises = caller.told.iter().filter(|told| told.1 == 0).is_sorted();
        same("a thread", "its refusal", caller.failed, None)?;
        same("a thread", "whether its numbers rise", rises, true)?;
        all.extend_from_slice(caller.told.as_slice())?;
    }
    all.as_mut_slice().sort_unstable();
    let mut last = (u64::MAX, 0u64);
    for told in all.iter().copied() {
        let wanted = match told.1 {
            0 => (last.0.wrapping_add(1), 0),
            _ => (last.0, last.1.wrapping_add(1)),
        };
        same("all threads", "the next message or offer", told, wanted)?;
        last = told;
    }
    Ok(all.len())
}

/// How many messages the last look saw.
fn seen_last(callers: &[Caller<'_>]) -> u64 {
    callers.iter().map(|caller| caller.seen).max().unwrap_or(0)
}

/// Each thread looks once more.
fn look_again<R: Wait>(rt: &R, callers: &mut [Caller<'_>]) -> Result<(), Fault> {
    for caller in callers.iter_mut() {
        caller.ask(rt, "0 look", &NoGate)?;
    }
    Ok(())
}

/// So many callers at a desk.
fn gathered<'a>(
    alloc: Global,
    desk: &'a Desk<NoPress>,
    pass: &mut Pass<NoPress>,
    count: u64,
) -> Result<Vec<Caller<'a>>, Fault>
    requires { pass.old.desk ≡ desk.now }
    ensures { pass.new.desk ≡ pass.old.desk }
{
    let mut callers = Vec::new(alloc);
    for _ in 0..count {
        callers.push(Caller {
            desk,
            pass: desk.pass(pass),
            alloc,
            told: Vec::new(alloc),
            seen: 0,
            failed: None,
        })?;
    }
    Ok(callers)
}

/// A desk with a pass, from which the passes of a crew are cut off, and what is told of them.
struct Place {
    desk: Desk<NoPress>,
    pass: Pass<NoPress>,
    alloc: Global,
    ticks: Ticks,
    text: String,
    ghost together: { pass.desk ≡ desk },
}

/// Written out, so that a function which lets a desk go has one step for all its parts in its proof.
impl Drop for Place {
    fn drop(self) {
        let Place {
            desk: _desk,
            pass: _pass,
            alloc: _alloc,
            ticks: _ticks,
            text: _text,
        } = self;
    }
}

impl Place {
    /// A desk to which no call was made.
    fn open(rt: &HostRuntime) -> Result<Place, Fault> {
        let (alloc, ticks) = (rt.alloc(), Ticks::new(rt));
        let text = String::with_capacity(alloc, 200)?;
        let (desk, pass) = Desk::new(rt, alloc, open(alloc)?, NoPress)?;
        Ok(Place {
            desk,
            pass,
            alloc,
            ticks,
            text,
        })
    }

    /// Lets a crew do what its lines say, and tells how many sends and offers there were, and how many messages
    /// the last look saw.
    fn work<R: Threads + Sync + Wait>(
        &mut self,
        rt: &R,
        crew: &str,
        gate: &Barrier,
    ) -> Result<(usize, u64), Fail> {
        let (count, lines) = first_word(crew);
        let count = count.parse().unwrap_or(0);
        let mut callers = gathered(self.alloc, &self.desk, &mut self.pass, count)?;
        thread::for_each_mut(
            rt,
            callers.as_mut_slice(),
            8,
            &|index, caller| {
                let line = lines.lines().nth(index % 4 + 1).unwrap_or("");
                caller.failed = caller.work(rt, line, gate).err();
            },
        );
        let told = all_of(self.alloc, callers.as_slice())?;
        let seen = seen_last(callers.as_slice());
        look_again(rt, callers.as_mut_slice())?;
        Ok((told, seen))
    }

    /// Closes the desk.
    fn close<R: Wait>(self, rt: &R) -> Result<Left, Fault> {
        let Place {
            desk,
            pass,
            alloc: _alloc,
            ticks,
            text,
        } = self;
        let queue = desk.close(rt, pass)?;
        Ok(Left { queue, ticks, text })
    }

    /// Lets a crew do what its lines say, and tells that, with what the gate was told and how many turns had ended.
    fn tell<R: Threads + Sync + Wait>(&mut self, rt: &R, crew: &str) -> Result<(), Fail> {
        let gate = Barrier::new(104);
        let (told, seen) = self.work(rt, crew, &gate)?;
        let (gate, turns) = (
            gate.sum.load(Ordering::SeqCst),
            self.desk.glance(&mut self.pass),
        );
        Ok(write!(
            self.text,
            "gate {gate}, {told} told, {seen} seen, {turns} turns; "
        )?)
    }

    /// Compares what the threads of a crew did, and what they left, with what was wanted.
    fn hold<R: Threads + Sync + Wait>(mut self, rt: &R, crew: &str) -> Result<(), Fail> {
        let (crew, wanted) = crew.split_once("\n--\n").ok_or("a line --")?;
        self.tell(rt, crew)?;
        let mut left = self.close(rt)?;
        left.tell_counts()?;
        same(crew, "--", left.text.as_str(), wanted)
    }
}

/// Crews of threads, each at a desk of its own. Its first line says how many they are. Each of the four
/// lines behind it is what a fourth of them does, step by step, with how often before a `*`. Behind `--`
/// stands what the gate was told, how many sends and offers there were, how many messages the last look
/// saw, how many turns had ended when each thread had looked once more, and what was left then.
///
/// While the turn 1 is held, three threads glance, and count the turn that had ended before it. They
/// call then, and all are served after it. Who looks last sees all.
///
/// While the turn 1 is held, three threads find it taken, one after another or at once, and nothing is sent
/// for them. They wait for a turn then.
///
/// Eight threads make 320 sends, half of them where the turn is free, for which they wait only where it is
/// not. Each send is made once.
///
/// Eight threads make 192 sends, 24 receives that each offer two messages, and 18 deletions, all of them
/// accepted. Two of them receive for no time, so that what they were offered stays visible. The journal
/// has each call once, behind the opening.
const CREWS: &str = "4 threads, of which three call while a turn is held
1000 send a|holds 2000 send a|900 look
waits|2000 send a|900 look
waits|2000 send a|900 look
waits|2000 send a|900 look
--
gate 104, 5 told, 5 seen, 13 turns; 5 messages, 0 in flight; 5 visible, 6 entries at 2000

4 threads, of which three do not wait while a turn is held
tries 1000 send a|holds 2000 send a|900 look
misses 2000 send a|2000 send b|900 look
misses 2000 send a|2000 send b|900 look
misses 2000 send a|2000 send b|900 look
--
gate 104, 5 told, 5 seen, 13 turns; 5 messages, 0 in flight; 5 visible, 6 entries at 2000

8 threads, of which every other waits for no turn that is free
40*tries 0 send a
40*0 send a
40*tries 0 send a
40*0 send a
--
gate 0, 320 told, 0 seen, 328 turns; 320 messages, 0 in flight; 320 visible, 321 entries at 0

8 threads, which call as fast as they can
8*0 send a|0 receive 2 0|8*1 send a|1 receive 2 0|8*2 send a|2 receive 2 0
8*0 send a|0 receive 2 600|0 delete|8*1 send a|1 receive 2 600|1 delete|8*2 send a|2 receive 2 600|2 delete
8*0 send a|0 receive 2 600|0 delete|8*1 send a|1 receive 2 600|1 delete|8*2 send a|2 receive 2 600|2 delete
8*0 send a|0 receive 2 600|0 delete|8*1 send a|1 receive 2 600|1 delete|8*2 send a|2 receive 2 600|2 delete
--
gate 0, 240 told, 0 seen, 242 turns; 192 messages, 18 in flight; 156 visible, 235 entries at 2";

/// What the threads of each crew did is what was wanted.
#[test]
fn crews(rt: HostRuntime) -> Result<(), Fail> {
    for crew in CREWS.split("\n\n") {
        Place::open(&rt)?.hold(&rt, crew)?;
    }
    Ok(())
}
