//! Calls at one desk, one after another.

ghost use Rattle.std.specs.Prelude.{◌≡◌, []};

use super::*;
use std::mem;

/// What a press was shown of a turn: how many turns it was shown, this one with them, how many marks and
/// entries, and the clock in milliseconds.
type Shown = (u64, usize, u64, u64);

/// A press that tells what it was shown of each turn, and finds no memory for the third.
#[derive(Drop)]
struct Counting {
    turns: u64,
}

impl Press for Counting {
    type Told = Shown;

    ghost stands = { λ _ _. Unit {0} };

    ghost place = { λ _. [] };

    ghost tells = { λ _ _ _. Unit {0} };

    fn blank(&self) -> Option<Shown> {
        None
    }

    fn print<R: Wait>(&mut self, _rt: &R, _alloc: Global, turn: Turn) -> Option<Shown> {
        self.turns = self.turns.wrapping_add(1);
        let (marks, clock) = (turn.marks.len(), turn.clock.milliseconds());
        Some((self.turns, marks, turn.lines, clock)).filter(|shown| shown.0 != 3)
    }
}

/// A desk with two passes: its first one, p, and q that is cut off from it. The text is what was told last. Of all
/// turns that were told it adds up the marks, but where the journal is so small that it begins anew. It counts the calls that
/// found no memory, and the turns aside from the case.
struct Talk {
    desk: Desk<Counting>,
    p: Pass<Counting>,
    q: Pass<Counting>,
    alloc: Global,
    ticks: Ticks,
    text: String,
    marks: u64,
    refused: u32,
    aside: u64,
    is_small: bool,
    ghost first: { p.desk ≡ desk },
    ghost second: { q.desk ≡ desk },
}

/// Written out, so that a function which lets a conversation go has one step for all its parts in its proof.
impl Drop for Talk {
    fn drop(self) {
        let Talk {
            desk: _desk,
            p: _p,
            q: _q,
            alloc: _alloc,
            ticks: _ticks,
            text: _text,
            marks: _marks,
            refused: _refused,
            aside: _aside,
            is_small: _is_small,
        } = self;
    }
}

impl Talk {
    /// A desk to which no call was made. Where it is small, its queue's journal may weigh 4.
    fn open(rt: &HostRuntime, is_small: bool) -> Result<Talk, Fault> {
        let (max_lines, in_flight) = (4, 10);
        let limits = if is_small {
            Limits {
                max_lines,
                in_flight,
            }
        } else {
            Limits::default()
        };
        let (alloc, ticks, press) = (rt.alloc(), Ticks::new(rt), Counting { turns: 0 });
        let text = String::with_capacity(alloc, 200)?;
        let (desk, mut p) = Desk::new(rt, alloc, open_with(alloc, limits)?, press)?;
        let q = desk.pass(&mut p);
        Ok(Talk {
            desk,
            p,
            q,
            alloc,
            ticks,
            text,
            marks: 0,
            refused: 0,
            aside: 0,
            is_small,
        })
    }

    /// Puts the passes in each other's place.
    fn swap(&mut self) {
        let spare = self.desk.pass(&mut self.p);
        let q = mem::replace(&mut self.q, spare);
        self.q = mem::replace(&mut self.p, q);
    }

    /// Does what a line says of the pass p, and tells what is told.
    fn act<R: Wait>(&mut self, rt: &R, line: &str) -> Result<(), Fault> {
        self.text.clear();
        match line {
            "counts" => {
                let turns = self.desk.glance(&mut self.p).wrapping_sub(self.aside);
                write!(self.text, "{turns}")?;
            }
            "parts" => self.p = self.desk.pass(&mut self.p),
            "cuts off" => self.q = self.desk.pass(&mut self.p),
            "meets" => {
                let note = self.desk.note(&mut self.q);
                self.desk.meet(&mut self.p, note);
            }
            "ends" => {
                let next = self.desk.pass(&mut self.p);
                let ended = mem::replace(&mut self.q, next);
                self.desk.end_pass(&mut self.p, ended);
            }
            _ => self.ask(rt, line)?,
        }
        Ok(())
    }

    /// Adds up the marks of turns that were told: those of all entries, none of them lost or doubled.
    fn add_marks(&mut self, told: &Option<Shown>) -> Result<(), Fault> {
        if let Some((_, marks, entries, _)) = told {
            self.marks = self.marks.wrapping_add(*marks as u64);
            if self.marks != *entries && !self.is_small {
                return Err(Fault::UnsupportedOperation);
            }
        }
        Ok(())
    }

    /// What a look of p sees, in a turn aside from the case.
    fn look<R: Wait>(&mut self, rt: &R) -> Result<Look, Fault> {
        self.aside = self.aside.wrapping_add(1);
        let (alloc, p) = (self.alloc, &mut self.p);
        let asked = self
            .desk
            .ask(rt, alloc, p, Moment::zero(), &Command::Look, &NoGate);
        let CallAnswer { reply, told } = asked;
        self.add_marks(&told)?;
        match &reply {
            Ok(Reply::Looked(look)) => Ok(*look),
            _ => Err(Fault::UnsupportedOperation),
        }
    }

    /// The command of a text, made once more where it finds no memory.
    fn command(&mut self, call: &str) -> Result<Command, Fault> {
        match command(self.alloc, call) {
            Err(Fault::OutOfMemory) => {
                self.refused = self.refused.saturating_add(1);
                command(self.alloc, call)
            }
            command => command,
        }
    }

    /// Asks a command at a moment, which is one turn, also where it finds no memory. It `tries` by a call
    /// that waits for no turn.
    fn ask<R: Wait>(&mut self, rt: &R, line: &str) -> Result<(), Fault> {
        let (verb, rest) = first_word(line);
        let (at, call) = first_word(rest);
        let (at, gate) = (moment(at)?, Barrier::new(0));
        let command = self.command(call)?;
        let before = self.desk.glance(&mut self.p);
        let (desk, alloc, p) = (&self.desk, self.alloc, &mut self.p);
        let asked = match verb {
            "tries" => desk.ask_now(rt, alloc, p, at, &command, &gate),
            _ => Some(desk.ask(rt, alloc, p, at, &command, &gate)),
        };
        let Some(asked) = asked else {
            return Ok(self.text.push_str("taken")?);
        };
        let turns = self.desk.glance(&mut self.p).wrapping_sub(before);
        if turns != 1 {
            return Ok(write!(self.text, "{turns} turns")?);
        }
        self.add_marks(&asked.told)?;
        tell_asked(&mut self.text, verb, &gate, &asked)
    }

    /// What a look sees behind a call of a line that found no memory: what one saw before it, at the moment of the call.
    fn wanted(&self, before: Look, line: &str) -> Result<Look, Fault> {
        let (_, rest) = first_word(line);
        let (at, _) = first_word(rest);
        let at = moment(at)?;
        let is_later = before.clock.milliseconds() < at.milliseconds();
        let clock = if is_later { at } else { before.clock };
        Ok(Look { clock, ..before })
    }

    /// Does what a line says, once more where it finds no memory: it was a turn, which has left the queue as it was, but
    /// for the clock.
    fn act_again<R: Wait>(&mut self, rt: &R, who: &str, line: &str) -> Result<(), Fault> {
        let before = self.look(rt)?;
        match self.act_as(rt, who, line) {
            Err(Fault::OutOfMemory) => {
                self.refused = self.refused.saturating_add(1);
                self.aside = self.aside.wrapping_add(1);
                if self.look(rt)? != self.wanted(before, line)? {
                    return Err(Fault::UnsupportedOperation);
                }
                self.act_as(rt, who, line)
            }
            told => told,
        }
    }

    /// Does what a line says of one of the passes.
    fn act_as<R: Wait>(&mut self, rt: &R, who: &str, line: &str) -> Result<(), Fault> {
        if who != "q" {
            return self.act(rt, line);
        }
        self.swap();
        let told = self.act(rt, line);
        self.swap();
        told
    }

    /// Does what each line says, and wants what is told behind an arrow. `is_again`: what finds no memory is done once
    /// more.
    fn go_through<R: Wait>(
        &mut self,
        rt: &R,
        title: &str,
        lines: &str,
        is_again: bool,
    ) -> Result<(), Fail> {
        for line in lines.lines() {
            let (call, wanted) = line.split_once(" => ").unwrap_or((line, ""));
            let (who, call) = first_word(call);
            if is_again {
                self.act_again(rt, who, call)?;
            } else {
                self.act_as(rt, who, call)?;
            }
            same(title, line, self.text.as_str(), wanted)?;
        }
        Ok(())
    }

    /// Closes the desk with p.
    fn close<R: Wait>(self, rt: &R) -> Result<Left, Fault> {
        let Talk {
            desk,
            p,
            q: _q,
            alloc: _alloc,
            ticks,
            text,
            marks: _marks,
            refused: _refused,
            aside: _aside,
            is_small: _is_small,
        } = self;
        let queue = desk.close(rt, p)?;
        Ok(Left { queue, ticks, text })
    }

    /// Goes through a case. Then p closes the desk: what is left of the queue is what a look sees, and what a
    /// receive is offered then. How many calls found no memory.
    fn hold<R: Wait>(mut self, rt: &R, case: &str, is_again: bool) -> Result<u32, Fail> {
        let alloc = self.alloc;
        let (title, lines) = case.split_once("\n").ok_or("a title")?;
        let (lines, wanted) = lines.split_once("\n--\n").ok_or("a line --")?;
        self.go_through(rt, title, lines, is_again)?;
        let refused = self.refused;
        let mut left = self.close(rt)?;
        left.tell_offers(alloc)?;
        same(title, "--", left.text.as_str(), wanted)?;
        Ok(refused)
    }
}

/// Tells what was asked: what the press `shows`; or the answer, and where it `knocks` what the gate was told.
fn tell_asked(
    text: &mut String,
    verb: &str,
    gate: &Barrier,
    asked: &CallAnswer<Shown>,
) -> Result<(), Fault> {
    match (verb, &asked.reply) {
        (_, Err(Fault::OutOfMemory)) => Err(Fault::OutOfMemory),
        ("shows", _) => Ok(write!(text, "{:?}", asked.told)?),
        ("knocks", reply) => {
            write!(text, "{}: ", gate.sum.load(Ordering::SeqCst))?;
            tell(text, reply)
        }
        (_, reply) => tell(text, reply),
    }
}

/// Cases, each at a desk of its own. Its first line says what it shows. Then each line is what the pass p
/// or q does: it `counts` the turns that have ended, `parts` from itself, `cuts off` the other anew, `meets`
/// the other or `ends` it, which is cut off anew then; it `asks` a command at a moment, or `tries` it where
/// the turn is free; it `knocks`, which
/// is to ask and to be told of the gate: 100 for each time that it was told of the turn, and the number of
/// the turn; or it `shows` what the press was shown of the turn that it asks for. Behind `--` stands what is
/// left of the queue when p closes the desk.
const CASES: &str =
    "two passes count the turns of both, whoever they have met, and an earlier moment than the clock is the clock's
p counts => 0
p asks 1000 send a => sent 0
p counts => 1
p cuts off
q asks 900 send b => sent 1
q counts => 2
p counts => 2
p meets
p asks 1000 look => 2 visible, 3 entries at 1000
p counts => 3
--
2 visible, 3 entries at 1000; offered 0.1 a of 1000 1.1 b of 1000

no command moves the clock back, a question for a parcel leaves it, and a queue that was closed stays so for a pass that was there before
p asks 5000 send a => sent 0
p asks 1000 send b => sent 1
p asks 0 look => 2 visible, 3 entries at 5000
p asks 9000 parcel => Parcel(None)
p asks 0 look => 2 visible, 3 entries at 5000
p asks 6000 receive 2 => offered 0.1 a of 5000 1.1 b of 5000
p asks 0 look => 0 visible, 4 entries at 6000
p asks 5500 close => Done
p asks 7000 send c => QueueDoesNotExist
p asks 0 look => 0 visible, 5 entries at 7000, closed
q asks 100 send d => QueueDoesNotExist
q asks 8000 close => QueueDoesNotExist
q asks 0 look => 0 visible, 5 entries at 8000, closed
p ends
p counts => 13
p asks 0 look => 0 visible, 5 entries at 8000, closed
--
0 visible, 5 entries at 8000, closed; QueueDoesNotExist

two passes that were cut off from one are two, and their calls are two calls
p parts
q asks 1000 send a => sent 0
p asks 1000 send a => sent 1
p meets
p asks 1000 look => 2 visible, 3 entries at 1000
p ends
p counts => 3
--
2 visible, 3 entries at 1000; offered 0.1 a of 1000 1.1 a of 1000

a pass that has met nobody closes the desk, and gets what others have done
q asks 1000 send a => sent 0
--
1 visible, 2 entries at 1000; offered 0.1 a of 1000

a turn that nobody holds is free for a pass that has seen none of those before it
p tries 1000 send a => sent 0
q tries 900 send b => sent 1
p asks 1000 send c => sent 2
q tries 0 look => 3 visible, 4 entries at 1000
q counts => 4
p tries 0 close => Done
q tries 0 send d => QueueDoesNotExist
--
0 visible, 5 entries at 1000, closed; QueueDoesNotExist

a gate is told of each turn once, by the number of the turns before it, those of another pass and of a refused call with them
p knocks 0 look => 100: 0 visible, 1 entries at 0
q asks 0 close => Done
p knocks 0 send a => 102: QueueDoesNotExist
q asks 0 parcel => Parcel(None)
p knocks 0 look => 104: 0 visible, 2 entries at 0, closed
--
0 visible, 2 entries at 0, closed; QueueDoesNotExist

a press is shown what was entered since the last turn that was printed: the opening first, nothing behind a look, two entries where it found no memory; a question for a parcel it is not shown
p shows 1000 send a => Some((1, 2, 2, 1000))
p shows 2000 parcel => None
p shows 2000 look => Some((2, 0, 2, 2000))
p shows 2000 send b => None
p shows 3000 send c => Some((4, 2, 4, 3000))
p cuts off
q shows 0 close => Some((5, 1, 5, 3000))
p shows 4000 send d => Some((6, 0, 5, 4000))
--
0 visible, 5 entries at 4000, closed; QueueDoesNotExist";

/// All cases, one after another.
#[test]
fn cases(rt: HostRuntime) -> Result<(), Fail> {
    for case in CASES.split("\n\n") {
        Talk::open(&rt, false)?.hold(&rt, case, false)?;
    }
    Ok(())
}

/// A journal that may weigh 4: a command that comes to it at its limit begins it anew, with a checkpoint that weighs 1 and 1
/// more for each message. What is shown of a turn are its marks, what the journal weighs and the clock.
const ANEW: &str =
    "a checkpoint is shown once, before what is added behind it; what was added before it and not shown is not shown any more
p shows 1000 send a => Some((1, 2, 2, 1000))
p shows 1000 receive 1 => Some((2, 1, 3, 1000))
p shows 1000 send b => None
p shows 2000 receive 1 => Some((4, 2, 4, 2000))
p shows 2500 look => Some((5, 0, 4, 2500))
p shows 3000 parcel => None
p shows 3000 send c => Some((6, 2, 4, 3000))
p shows 4000 receive 1 => Some((7, 0, 4, 4000))
p asks 4000 receive 1 => JournalFull
p shows 5000 close => Some((9, 1, 5, 5000))
--
0 visible, 5 entries at 5000, closed; QueueDoesNotExist";

/// A journal that begins anew at a desk.
#[test]
fn begun_anew(rt: HostRuntime) -> Result<(), Fail> {
    Talk::open(&rt, true)?.hold(&rt, ANEW, false)?;
    Ok(())
}

/// Calls whose allocation may be refused, and what each leaves. They stand behind the first of the cases.
const REFUSED: &str = "a call that finds no memory ends its turn and answers when it is asked again
p asks 1000 send a => sent 0
p asks 0 look => 1 visible, 2 entries at 1000
p asks 1000 send b => sent 1
p asks 1200 receive 2 => offered 0.1 a of 1000 1.1 b of 1000
q asks 1000 receive 2 => offered
p asks 0 look => 0 visible, 5 entries at 1200
p meets
p asks 1300 send c => sent 2
q asks 1400 send d => sent 3
p ends
p asks 0 look => 2 visible, 7 entries at 1400
p asks 9000 parcel => Parcel(None)
q tries 1400 receive 1 => offered 2.1 c of 1300
p asks 0 look => 1 visible, 8 entries at 1400
p counts => 12
p asks 1500 close => Done
p asks 1500 send e => QueueDoesNotExist
--
0 visible, 9 entries at 1500, closed; QueueDoesNotExist";

/// Calls of which the second receive and the third send begin the journal anew, which may weigh 4. A call that finds no memory
/// for the checkpoint leaves it as it was.
const REFUSED_ANEW: &str = "a checkpoint that finds no memory is made when the call is made again
p asks 1000 send a => sent 0
p asks 1000 receive 1 => offered 0.1 a of 1000
p asks 1000 send b => sent 1
p asks 1100 receive 1 => offered 1.1 b of 1000
p asks 0 look => 0 visible, 4 entries at 1100
p asks 1200 send c => sent 2
p asks 0 look => 1 visible, 4 entries at 1200
p asks 1300 receive 1 => JournalFull
p asks 1400 close => Done
--
0 visible, 5 entries at 1400, closed; QueueDoesNotExist";

/// A desk that is made once more where it finds no memory, and then a case. How often it found none.
fn held_again<R: Wait>(
    host: &HostRuntime,
    rt: &R,
    case: &str,
    is_small: bool,
) -> Result<u32, Fail> {
    match Talk::open(host, is_small) {
        Err(Fault::OutOfMemory) => {
            let refused = Talk::open(host, is_small)?.hold(rt, case, true)?;
            Ok(refused.saturating_add(1))
        }
        talk => talk?.hold(rt, case, true),
    }
}

/// A desk that finds no memory is not made, and can be made after that. A call that finds none has taken its turn, and
/// moved the clock alone. The marks of a turn that found none come with the next. All is held twice from the start, and
/// forgiven once: with ample memory, as the gate runs this, a call that gave up would do so twice.
/// `rt try --test --fail-alloc N -- refused_memory` refuses the Nth allocation.
#[test]
fn refused_memory(rt: HostRuntime) -> Result<(), Fail> {
    let (first, _) = CASES.split_once("\n\n").ok_or("a case")?;
    let mut refused: u32 = 0;
    for _ in 0..2 {
        for case in [first, REFUSED] {
            refused = refused.saturating_add(held_again(&rt, &rt, case, false)?);
        }
        refused = refused.saturating_add(held_again(&rt, &rt, REFUSED_ANEW, true)?);
    }
    assert!(rt; refused <= 1);
    Ok(())
}
