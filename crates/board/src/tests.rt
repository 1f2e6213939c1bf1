//! A queue whose turns are printed on a board, and who reads there. What is wanted was worked out by hand.

ghost use Rattle.std.specs.Prelude.{◌≡◌, IfOk};
ghost use Rattle.board.specs.Printed.{place_of};

use super::*;
use alarm::AlarmState;
use desk::{Desk, NoGate, Pass};
use journal::{Moment, Ticks};
use message::{Content, Fault, QueueName};
use queue_config::{AlarmRule, Limits, Metric, Operator, Settings};
use queue_core::{Command, QueueState};
use std::alloc::Global;
use std::sync::Wait;
use std::test::Fail;

/// The rule of an alarm that is on where a message was visible at the end of the last minute.
fn waiting() -> Result<AlarmRule, Fault> {
    Ok(AlarmRule {
        name: QueueName::read("waiting")?,
        metric: Metric::ApproximateNumberOfMessagesVisible,
        operator: Operator::GreaterThanThreshold,
        threshold: 0,
        minutes: 1,
        breaches: 1,
    })
}

/// A queue that was opened at 0 under the uid 1, with the default settings and one alarm. Its journal begins anew where it
/// has four entries.
fn open(alloc: Global) -> Result<QueueState, Fault>
    ensures { IfOk result (λ queue. queue.clock ≡ 0) }
{
    let (name, mut rules) = (QueueName::read("jobs")?, Vec::new(alloc));
    rules.push(waiting()?)?;
    let settings = Settings::default();
    let limits = Limits {
        max_lines: 4,
        in_flight: 10,
    };
    QueueState::open(alloc, 1, name, settings, limits, rules, Moment::zero())
}

/// The sheet of a queue at a moment, to which its clock moves.
fn sheet_at(
    alloc: Global,
    queue: &mut QueueState,
    at: u64,
    ticks: &mut Ticks,
) -> Result<Sheet, Fault> {
    let at = Moment::new(at).ok_or(Fault::InvalidParameterValue)?;
    let look = queue.look(at, ticks);
    Sheet::of(alloc, queue, look.clock)
}

/// The command that sends a body.
fn send(alloc: Global, body: &str) -> Result<Command, Fault> {
    let body = String::from_str(alloc, body)?;
    let content = Content::new(alloc, body, Vec::new(alloc))?;
    Ok(Command::Send {
        content,
        delay: None,
    })
}

/// How many entries a sheet tells of, its clock in milliseconds, and how many messages are visible.
fn told(sheet: &Sheet) -> (u64, u64, u64) {
    (
        sheet.lines,
        sheet.clock.milliseconds(),
        sheet.gauges.visible,
    )
}

/// The command that sends a body, a look where it is empty, and a purge where it is a hyphen.
fn command(alloc: Global, body: &str) -> Result<Command, Fault> {
    match body {
        "" => Ok(Command::Look),
        "-" => Ok(Command::Purge),
        body => send(alloc, body),
    }
}

/// Whether two sheets show the same, with their clocks or without.
fn shows_as(one: &Sheet, other: &Sheet, with_clock: bool) -> bool {
    let is_clock_same = one.clock == other.clock || !with_clock;
    let is_queue_same = one.lines == other.lines && one.gauges == other.gauges;
    let are_rows_same = one.rows.as_slice() == other.rows.as_slice();
    is_clock_same
        && is_queue_same
        && are_rows_same
        && one.current == other.current
        && alarm(one) == alarm(other)
}

/// The name and the state of the alarm of a sheet, where it has one alone.
fn alarm(sheet: &Sheet) -> Option<(&str, AlarmState)> {
    match sheet.alarms.as_slice() {
        [(name, state)] => Some((name.as_text(), *state)),
        _ => None,
    }
}

/// A desk whose turns are printed on a board, its pass, and a reader of the board.
struct Talk<R: Wait + Drop> {
    desk: Desk<Publisher<R>>,
    pass: Pass<Publisher<R>>,
    reader: Reader,
    ghost own: { pass.desk ≡ desk },
    ghost place: { pass.place ≡ place_of reader.book },
}

/// Written out, so that a function which lets a talk go has one step for all its parts in its proof.
impl<R: Wait + Drop> Drop for Talk<R> {
    fn drop(self) {
        let Talk {
            desk: _desk,
            pass: _pass,
            reader: _reader,
        } = self;
    }
}

impl<R: Wait + Copy + Drop> Talk<R> {
    /// A desk with a queue to which no call was made.
    fn open(host: &HostRuntime, rt: R) -> Result<Talk<R>, Fault> {
        let alloc = host.alloc();
        let queue = open(alloc)?;
        let sheet = Sheet::of(alloc, &queue, Moment::zero())?;
        let (publisher, mut readers) = board(alloc, rt, &sheet, 1)?;
        let Some(reader) = readers.pop() else {
            return Err(Fault::UnsupportedOperation);
        };
        let (desk, pass) = Desk::new(host, alloc, queue, publisher)?;
        Ok(Talk { desk, pass, reader })
    }

    /// The same, begun once more where it finds no memory, which is counted.
    fn open_twice(host: &HostRuntime, rt: R, refused: &mut u32) -> Result<Talk<R>, Fault> {
        match Talk::open(host, rt) {
            Err(Fault::OutOfMemory) => {
                *refused = refused.saturating_add(1);
                Talk::open(host, rt)
            }
            made => made,
        }
    }

    /// Asks a command at 1000. True where something is told of it, which the reader learns if it is to.
    fn ask<W: Wait>(
        &mut self,
        rt: &W,
        alloc: Global,
        command: &Command,
        learns: bool,
    ) -> Result<bool, Fault> {
        let at = Moment::new(1000).ok_or(Fault::InvalidParameterValue)?;
        let asked = self
            .desk
            .ask(rt, alloc, &mut self.pass, at, command, &NoGate);
        let _reply = asked.reply?;
        let Some(told) = asked.told else {
            return Ok(false);
        };
        if learns {
            self.reader.learn(told);
        }
        Ok(true)
    }

    /// What is read, once more where it finds no memory, which is counted.
    fn read_twice(&mut self, alloc: Global, refused: &mut u32) -> Result<Sheet, Fault> {
        match self.reader.read(alloc) {
            Err(Fault::OutOfMemory) => {
                *refused = refused.saturating_add(1);
                self.reader.read(alloc)
            }
            sheet => sheet,
        }
    }

    /// Asks a command that the reader learns of. Where it finds no memory, the reader reads what it read before, but for the
    /// clock, and the command is asked again. Where its turn finds none, the reader reads the old sheet, and a look is
    /// asked, with whose turn the other is printed. Both are counted.
    fn ask_twice<W: Wait>(
        &mut self,
        rt: &W,
        alloc: Global,
        command: &Command,
        refused: &mut u32,
    ) -> Result<(), Fail> {
        let before = self.read_twice(alloc, refused)?;
        let answer = self.ask(rt, alloc, command, true);
        if answer == Ok(true) {
            return Ok(());
        }
        *refused = refused.saturating_add(1);
        let is_printed_later = answer == Ok(false);
        let behind = self.read_twice(alloc, refused)?;
        let look = Command::Look;
        let next = if is_printed_later { &look } else { command };
        let is_told = self.ask(rt, alloc, next, true)?;
        if is_told && shows_as(&behind, &before, is_printed_later) {
            return Ok(());
        }
        Err(Fail::new("it has changed what is read, or nothing is told"))
    }

    /// Asks for each text that it is sent, a look where it is empty, or a purge where it is a hyphen, and reads what stands
    /// beside it. With the last text the journal begins anew: the entry that stands for the four before it, and the new one.
    fn go_through<W: Wait>(
        &mut self,
        rt: &W,
        alloc: Global,
        refused: &mut u32,
    ) -> Result<(), Fail> {
        for (body, wanted) in [
            ("a", (2, 1000, 1)),
            ("", (2, 1000, 1)),
            ("b", (3, 1000, 2)),
            ("-", (4, 1000, 0)),
            ("c", (2, 1000, 1)),
        ] {
            let command = command(alloc, body).or_else(|_| command(alloc, body))?;
            self.ask_twice(rt, alloc, &command, refused)?;
            let read = told(&self.read_twice(alloc, refused)?);
            if read != wanted {
                return Err(Fail::new(format_args!("{body}: {read:?}, not {wanted:?}")));
            }
        }
        Ok(())
    }
}

/// A queue with no message, and with one that was sent in the minute before.
#[test]
fn alarm_of_a_queue(rt: HostRuntime) -> Result<(), Fail> {
    let alloc = rt.alloc();
    let (mut queue, mut ticks) = (open(alloc)?, Ticks::new(&rt));
    let sheet = Sheet::of(alloc, &queue, Moment::zero())?;
    assert_eq!(rt; told(&sheet), (1, 0, 0));
    assert_eq!(rt;
        alarm(&sheet),
        Some(("waiting", AlarmState::InsufficientData))
    );
    let sheet = sheet_at(alloc, &mut queue, 60000, &mut ticks)?;
    assert_eq!(rt; told(&sheet), (1, 60000, 0));
    assert_eq!(rt; alarm(&sheet), Some(("waiting", AlarmState::Okay)));
    let sent = send(alloc, "a")?;
    let _reply = queue.perform(alloc, Moment::zero(), &sent, &mut ticks)?;
    let sheet = sheet_at(alloc, &mut queue, 120000, &mut ticks)?;
    assert_eq!(rt; told(&sheet), (2, 120000, 1));
    assert_eq!(rt; alarm(&sheet), Some(("waiting", AlarmState::Alarm)));
    Ok(())
}

#[test]
fn a_turn_is_read_that_nobody_was_told_of(rt: HostRuntime) -> Result<(), Fail> {
    let alloc = rt.alloc();
    let mut talk = Talk::open(&rt, &rt)?;
    let (first, second) = (send(alloc, "a")?, send(alloc, "b")?);
    assert_eq!(rt; told(&talk.reader.read(alloc)?), (1, 0, 0));
    assert!(rt; talk.ask(&rt, alloc, &first, false)?);
    assert_eq!(rt; told(&talk.reader.read(alloc)?), (2, 1000, 1));
    assert!(rt; talk.ask(&rt, alloc, &second, false)?);
    assert_eq!(rt; told(&talk.reader.read(alloc)?), (3, 1000, 2));
    Ok(())
}

/// What a reader learnt is what it reads, also where a turn could not be printed and comes with the next one. All is asked
/// twice from the start, and forgiven once: with ample memory, as the gate runs this, a call that gave up would do so
/// twice. `rt try --test --fail-alloc N -- refused_memory` refuses the Nth allocation.
#[test]
fn refused_memory(rt: HostRuntime) -> Result<(), Fail> {
    let alloc = rt.alloc();
    let mut refused: u32 = 0;
    for _ in 0..2 {
        let mut talk = Talk::open_twice(&rt, &rt, &mut refused)?;
        assert_eq!(rt; told(&talk.read_twice(alloc, &mut refused)?), (1, 0, 0));
        talk.go_through(&rt, alloc, &mut refused)?;
    }
    assert!(rt; refused <= 1);
    Ok(())
}
