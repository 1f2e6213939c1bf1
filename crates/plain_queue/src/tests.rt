//! Commands from scripts, performed on a queue: before a receive, a change, a settling, an orphaning and an
//! arrival its answer is foreseen from the journal's entries, and after each command what the queue tells is
//! compared with what they say, its rows and alarms where a minute has ended. No answer is written down.

mod beside;
mod commands;
mod said;
mod scripts;

use super::*;
use commands::{open, origin, rule, step};
use journal::{Moment, Ticks};
use message::Fault;
use metric_window::minute_of;
use queue_core::{Command, Look, QueueState, Reply, TimedCommand};
use said::{first_waiting_of, foreseen, look_of, rows_of, tell_received};
use std::alloc::Global;
use std::process::Abort;
use std::test::Fail;

/// Tells an answer as it is foreseen.
fn told(
    alloc: Global,
    queue: &QueueState,
    answer: &Result<Reply, Fault>,
    ticks: &mut Ticks,
) -> Result<String, Fault> {
    match answer {
        Ok(Reply::Received(offers)) => {
            let read = Collected::of(alloc, queue.journal(), ticks)?;
            tell_received(alloc, &read.entries(), offers.as_slice())
        }
        Ok(reply) => Ok(format!(in alloc; "{reply:?}")?),
        Err(fault) => Ok(format!(in alloc; "{fault:?}")?),
    }
}

/// The text of the answer to a command at a time, where it is foreseen and the journal may weigh so much.
fn wanted(
    alloc: Global,
    queue: &QueueState,
    clock: Moment,
    command: &Command,
    most_lines: u32,
    ticks: &mut Ticks,
) -> Result<Option<String>, Fault> {
    let read = Collected::of(alloc, queue.journal(), ticks)?;
    foreseen(alloc, &read.entries(), clock, command, most_lines)
}

/// Asserts that the metrics of each minute and the state of the alarm are those of the entries.
fn compare_rows(
    rt: &impl Abort,
    alloc: Global,
    queue: &QueueState,
    clock: Moment,
    call: &str,
    ticks: &mut Ticks,
) -> Result<(), Fail> {
    let read = Collected::of(alloc, queue.journal(), ticks)?;
    let lines = &read.entries();
    let rows = rows_of(alloc, lines, clock)?;
    assert_eq!(rt; queue.rows(alloc)?.as_slice(), rows.as_slice(), "{call}");
    for row in rows.as_slice() {
        assert_eq!(rt; queue.row(row.minute), Some(*row), "{call}");
    }
    let state = alarm_state_in(lines, clock, &rule()?);
    assert_eq!(rt; queue.alarm_state(0), Some(state), "{call}");
    Ok(())
}

/// Asserts that what the queue tells is what its entries say.
fn compare(
    rt: &impl Abort,
    alloc: Global,
    queue: &QueueState,
    look: Look,
    call: &str,
    ticks: &mut Ticks,
) -> Result<(), Fail> {
    let read = Collected::of(alloc, queue.journal(), ticks)?;
    let lines = &read.entries();
    assert_eq!(rt; look, look_of(lines, look.clock), "{call}");
    assert_eq!(rt; queue.message_count(), message_count(lines), "{call}");
    assert_eq!(rt; queue.first_waiting(), first_waiting_of(lines)?, "{call}");
    for number in 0..4 {
        let from = origin(number, Moment::zero())?;
        let known = has_accepted(lines, from.uid, from.number);
        assert_eq!(rt; queue.has_accepted(&from), known, "{call}");
    }
    let flows = current_flows(lines, look.clock);
    assert_eq!(rt; queue.current(), flows, "{call}");
    Ok(())
}

/// Performs the command of a line on a queue whose clock is known and whose journal may weigh so much, and gives its clock
/// afterwards. The rows, which are those of the minutes before, are compared where another minute begins.
fn perform(
    rt: &impl Abort,
    alloc: Global,
    queue: &mut QueueState,
    clock: Moment,
    call: &str,
    most_lines: u32,
    ticks: &mut Ticks,
) -> Result<Moment, Fail> {
    let TimedCommand { at, command } = step(alloc, call)?;
    let wanted = wanted(alloc, queue, clock.later(at), &command, most_lines, ticks)?;
    let answer = queue.perform(alloc, at, &command, ticks);
    if let Some(wanted) = wanted {
        let told = told(alloc, queue, &answer, ticks)?;
        assert_eq!(rt; told.as_str(), wanted.as_str(), "{call}");
    }
    let look = queue.look(Moment::zero(), ticks);
    let now = look.clock;
    compare(rt, alloc, queue, look, call, ticks)?;
    if minute_of(clock) != minute_of(now) {
        compare_rows(rt, alloc, queue, now, call, ticks)?;
    }
    Ok(now)
}

/// Performs a script: its first line opens the queue, whose journal may weigh so much, each other one is a command.
fn run(rt: &impl Abort, host: &HostRuntime, script: &str, most_lines: u32) -> Result<(), Fail> {
    let ticks = &mut Ticks::new(host);
    let (first, calls) = script.split_once("\n").unwrap_or((script, ""));
    let mut queue = open(host.alloc(), first, most_lines)?;
    let mut clock = Moment::zero();
    for call in calls.lines() {
        clock = perform(rt, host.alloc(), &mut queue, clock, call, most_lines, ticks)?;
    }
    compare_rows(rt, host.alloc(), &queue, clock, script, ticks)
}

/// Queues with journals that hold all entries or nearly so, that begin anew every few commands, and that are often full.
#[test]
fn queues_tell_what_their_journals_say(rt: HostRuntime) -> Result<(), Fail> {
    for most_lines in [60, 20, 4] {
        for script in scripts::SCRIPTS {
            run(&rt, &rt, script, most_lines)?;
        }
        let script = scripts::drawn(rt.alloc(), 7, 120)?;
        run(&rt, &rt, script.as_str(), most_lines)?;
    }
    Ok(())
}
