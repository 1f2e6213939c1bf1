//! A queue whose journal begins anew again and again, and beside it one that keeps its whole journal: each command comes to
//! both, and both answer and tell the same. Where the first is full, the other's clock moves instead.

use super::commands::{open, origin, step};
use super::said::is_full;
use super::*;
use scripts::{SCRIPTS, drawn};
use std::fmt::Debug;

/// As much as a journal may weigh at most, which no script comes to.
const UNLIMITED: u32 = 16_777_216;

/// How much the journals may weigh that begin anew: from 1, at which none does, up to what holds much that is live.
const LEAST: u32 = 1;

const MOST: u32 = 30;

/// From how much on a journal holds a message beside the entry that it begins with.
const ENOUGH: u32 = 4;

/// How many commands the script has that is drawn for each of them.
const COMMANDS: u64 = 240;

/// A queue whose journal may weigh so much, and the queue that keeps all its entries.
struct Pair {
    short: QueueState,
    whole: QueueState,
    most_lines: u32,
}

/// Written out, so that a function which lets both queues go has one step for them in its proof.
impl Drop for Pair {
    fn drop(self) {
        let Pair {
            short: _short,
            whole: _whole,
            most_lines: _,
        } = self;
    }
}

/// The text of a value, as it prints itself.
fn told_as<T: Debug>(alloc: Global, value: &T) -> Result<String, Fault> {
    Ok(format!(in alloc; "{value:?}")?)
}

/// The text of an answer, but for the number of entries that a look tells.
fn text_of(alloc: Global, answer: &Result<Reply, Fault>) -> Result<String, Fault> {
    match answer {
        Ok(Reply::Looked(look)) => told_as(alloc, &Look { lines: 0, ..*look }),
        answer => told_as(alloc, answer),
    }
}

/// Whether a command is one that a full journal refuses.
fn wants_room(command: &Command) -> bool {
    !matches!(
        command,
        Command::Look | Command::Close | Command::FirstParcel
    )
}

/// Whether the first queue has to answer a command at a time that its journal is full.
fn is_refused(
    alloc: Global,
    pair: &Pair,
    clock: Moment,
    command: &Command,
    ticks: &mut Ticks,
) -> Result<bool, Fault> {
    let read = Collected::of(alloc, pair.short.journal(), ticks)?;
    let lines = &read.entries();
    let is_full = is_full(lines, clock, u64::from(pair.most_lines));
    Ok(wants_room(command) && !is_closed(lines) && is_full)
}

/// Asserts that both queues tell the same, but for their entries.
fn compare(
    rt: &impl Abort,
    alloc: Global,
    pair: &mut Pair,
    call: &str,
    ticks: &mut Ticks,
) -> Result<(), Fail> {
    let look = pair.short.look(Moment::zero(), ticks);
    let wanted = pair.whole.look(Moment::zero(), ticks);
    let lines = look.lines;
    assert_eq!(rt; look, Look { lines, ..wanted }, "{call}");
    let (short, whole) = (&pair.short, &pair.whole);
    assert_eq!(rt; short.message_count(), whole.message_count(), "{call}");
    assert_eq!(rt; short.current(), whole.current(), "{call}");
    let (rows, wanted) = (short.rows(alloc)?, whole.rows(alloc)?);
    assert_eq!(rt; rows.as_slice(), wanted.as_slice(), "{call}");
    assert_eq!(rt; short.alarm_state(0), whole.alarm_state(0), "{call}");
    assert_eq!(rt; short.first_waiting(), whole.first_waiting(), "{call}");
    for number in 0..8 {
        let from = origin(number, Moment::zero())?;
        let known = whole.has_accepted(&from);
        assert_eq!(rt; short.has_accepted(&from), known, "{call}");
    }
    Ok(())
}

/// Performs the command of a line on both queues. Where the first has to be full, it says so, and the other's clock moves.
fn perform(
    rt: &impl Abort,
    alloc: Global,
    pair: &mut Pair,
    call: &str,
    ticks: &mut Ticks,
) -> Result<(), Fail> {
    let TimedCommand { at, command } = step(alloc, call)?;
    let clock = pair.whole.look(Moment::zero(), ticks).clock.later(at);
    let is_refused = is_refused(alloc, pair, clock, &command, ticks)?;
    let answer = pair.short.perform(alloc, at, &command, ticks);
    let is_full = matches!(answer, Err(Fault::JournalFull));
    assert_eq!(rt; is_full, is_refused, "{call}");
    if is_full {
        pair.whole.advance(at, ticks);
        return compare(rt, alloc, pair, call, ticks);
    }
    let told = text_of(alloc, &answer)?;
    let answer = pair.whole.perform(alloc, at, &command, ticks);
    let wanted = text_of(alloc, &answer)?;
    assert_eq!(rt; told.as_str(), wanted.as_str(), "{call}");
    compare(rt, alloc, pair, call, ticks)
}

/// Performs a script on both queues, and gives whether the first one's journal began anew.
fn run(rt: &impl Abort, host: &HostRuntime, script: &str, most_lines: u32) -> Result<bool, Fail> {
    let (alloc, ticks) = (host.alloc(), &mut Ticks::new(host));
    let (first, calls) = script.split_once("\n").unwrap_or((script, ""));
    let short = open(alloc, first, most_lines)?;
    let whole = open(alloc, first, UNLIMITED)?;
    let mut pair = Pair {
        short,
        whole,
        most_lines,
    };
    for call in calls.lines() {
        perform(rt, alloc, &mut pair, call, ticks)?;
    }
    Ok(pair.short.journal().len() < pair.whole.journal().len())
}

/// A queue whose journal begins anew answers as if it had kept all its entries, but for how many it has, and where it is full.
#[test]
fn short_journals_answer_as_whole_ones(rt: HostRuntime) -> Result<(), Fail> {
    for most_lines in LEAST..MOST + 1 {
        for script in SCRIPTS {
            run(&rt, &rt, script, most_lines)?;
        }
        let script = drawn(rt.alloc(), u64::from(most_lines), COMMANDS)?;
        let began_anew = run(&rt, &rt, script.as_str(), most_lines)?;
        assert!(rt; began_anew || most_lines < ENOUGH, "{most_lines}");
    }
    Ok(())
}
