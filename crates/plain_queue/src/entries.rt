//! The lines that rows, gauges and all else are found by: all of a journal's, or those before a time.

ghost use Rattle.std.specs.Prelude.{◌≡◌, ℕ, ◌+◌, ◌<◌, ◌≤◌, ◌^◌, nat_lt, filter, length, map, take, slice_get, Some, IfOk, IfErr};
ghost use Rattle.std.specs.Option.{option_copied};
ghost use Rattle.message.specs.declared.fault.Fault.TheVariants.{OutOfMemory};
ghost use Rattle.queue_core.specs.Legal.{IsOrdered};
ghost use Rattle.queue_core.specs.Messages.{message_count};

use crate::begun::births;
use journal::{Journal, Line, Ticks};
use message::Fault;
use std::alloc::Global;
use std::marker::Model;

/// All lines of a journal, each read once. Contracts see the list. The messages that begin with them have numbers of 64 bits.
#[derive(Drop)]
pub struct Collected<'a> {
    lines: Vec<&'a Line>,
}

impl<'a> Model for Collected<'a> {
    ghost use Rattle.std.specs.Prelude.{◌<◌, ◌^◌, List, map};
    ghost use Rattle.message.specs.Content.{ContentText};
    ghost use Rattle.journal.specs.declared.entry.Entry.{Entry};
    ghost use Rattle.queue_core.specs.Messages.{message_count};

    ghost Value = { List (Entry ContentText) };

    ghost view = { λ c. map (λ line. line.now) c.lines.items };

    ghost invariant = { λ c. message_count (map (λ line. line.now) c.lines.items) < 2 ^ 64 };
}

impl<'a> Collected<'a> {
    /// Reads the lines of a journal, each for one operation. `OutOfMemory` is the only refusal, also of a journal with more
    /// messages than there are numbers for, of which no machine has the memory.
    pub fn of(
        alloc: Global,
        journal: &'a Journal,
        ticks: &mut Ticks,
    ) -> Result<Collected<'a>, Fault>
        ensures lines { IfOk result (λ collected. collected ≡ journal.now.lines) }
        ensures errors { IfErr result (λ fault. fault ≡ OutOfMemory) }
    {
        let mut lines = Vec::new(alloc);
        let mut begun = 0;
        for place in 0..journal.len() {
            let line = read_line(journal, place, ticks);
            begun = with_more(begun, births(&line.event))?;
            lines.push(line)?;
        }
        Ok(Collected { lines })
    }

    /// All of them as entries.
    pub fn entries(&self) -> FirstEntries<'_>
        ensures { result ≡ self.now }
    {
        let lines = self.lines.as_slice();
        FirstEntries {
            lines,
            count: count_of(lines),
        }
    }
}

/// So many messages and more, where there are numbers for them.
fn with_more(begun: u64, births: u64) -> Result<u64, Fault>
    ensures ok { IfOk result (λ all. all ≡ begun + births) }
    ensures fits { IfOk result (λ all. all < 2 ^ 64) }
    ensures errors { IfErr result (λ fault. fault ≡ OutOfMemory) }
{
    match begun.checked_add(births) {
        Some(all) => Ok(all),
        None => Err(Fault::OutOfMemory),
    }
}

/// The line at a place of a journal, which has one there.
fn read_line<'a>(journal: &'a Journal, place: usize, ticks: &mut Ticks) -> &'a Line
    requires { place < length journal.now.lines }
    ensures { slice_get journal.now.lines place ≡ Some result.now }
{
    match journal.line(place, ticks) {
        Some(line) => line,
        None => unreachable!(),
    }
}

/// The first entries of a journal. Contracts see the list.
#[derive(Drop)]
pub struct FirstEntries<'a> {
    lines: &'a [&'a Line],
    count: usize,
}

impl<'a> Model for FirstEntries<'a> {
    ghost use Rattle.std.specs.Prelude.{◌≤◌, ◌<◌, ◌^◌, List, map, take, length};
    ghost use Rattle.message.specs.Content.{ContentText};
    ghost use Rattle.journal.specs.declared.entry.Entry.{Entry};
    ghost use Rattle.queue_core.specs.Messages.{message_count};

    ghost Value = { List (Entry ContentText) };

    ghost view = { λ e. take e.count (map (λ line. line.now) e.lines.now) };

    ghost invariant = { λ e. (e.count ≤ length (map (λ line. line.now) e.lines.now)) × (message_count (map (λ line. line.now) e.lines.now) < 2 ^ 64) };
}

impl<'a> FirstEntries<'a> {
    /// Those before a time in milliseconds, where they stand in the order of their times.
    pub fn before(&self, end: u64) -> FirstEntries<'a>
        ensures { (from clock : ℕ) → IsOrdered from self.now clock
            → result ≡ filter (λ e. nat_lt e.at end) self.now }
    {
        FirstEntries {
            lines: self.lines,
            count: count_before(self, end),
        }
    }

    /// Its messages have numbers of 64 bits.
    pub(crate) fn are_numbered(&self)
        ensures { message_count self.now < 2 ^ 64 }
    {
        let _ = &self.lines;
    }

    /// How many there are.
    pub fn len(&self) -> usize
        ensures { result ≡ length self.now }
    {
        self.count
    }

    /// The entry at a place, counted from 0.
    pub fn get(&self, place: usize) -> Option<&'a Line>
        ensures { option_copied result ≡ slice_get self.now place }
    {
        if place < self.count {
            nth(self.lines, place)
        } else {
            None
        }
    }
}

/// How many lines a list has.
fn count_of(lines: &[&Line]) -> usize
    ensures { result ≡ length (map (λ line. line.now) lines.now) }
{
    lines.len()
}

/// The line at a place of a list.
fn nth<'a>(lines: &[&'a Line], place: usize) -> Option<&'a Line>
    ensures { option_copied result ≡ slice_get (map (λ line. line.now) lines.now) place }
{
    match lines.get(place) {
        Some(line) => Some(*line),
        None => None,
    }
}

/// The entry at a place.
pub fn line_at<'a>(lines: &FirstEntries<'a>, place: usize) -> &'a Line
    requires { place < length lines.now }
    ensures { slice_get lines.now place ≡ Some result.now }
{
    match lines.get(place) {
        Some(line) => line,
        None => unreachable!(),
    }
}

/// How many entries come before a time in milliseconds, where they stand in the order of their times.
fn count_before(lines: &FirstEntries<'_>, end: u64) -> usize
    ensures within { result ≤ length lines.now }
    ensures before { (from clock : ℕ) → IsOrdered from lines.now clock
        → take result lines.now ≡ filter (λ e. nat_lt e.at end) lines.now }
{
    for place in 0..lines.len() {
        if end <= line_at(lines, place).at.milliseconds() {
            return place;
        }
    }
    lines.len()
}
