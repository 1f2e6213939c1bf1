//! The list of lines.

ghost use Rattle.std.specs.Prelude.{◌≡◌, ◌+◌, max, ◌<◌, ◌≤◌, ◌-◌, ◌^◌, min, ◌↔◌, ◌⊎◌, [], ◌∷◌, ◌++◌, length, drop, map, slice_get, Ok, IfOk, IfErr, OnOk, OnErr, IsErrOf};
ghost use Rattle.std.specs.Option.{option_copied};
ghost use Rattle.message.specs.Content.{content_size};
ghost use Rattle.message.specs.declared.fault.Fault.TheVariants.{JournalFull, OutOfMemory};
ghost use Rattle.journal.specs.Mark.{mark_of};
ghost use Rattle.journal.specs.Ticks.{after_ticks};
ghost use Rattle.journal.specs.Weight.{weight_of};

use crate::base::Base;
use crate::entry::{Entry, Event, Line};
use crate::marks::Marks;
use crate::moment::Moment;
use crate::ticks::Ticks;
use message::{Content, Fault};
use std::alloc::Global;
use std::fmt;
use std::marker::Model;

/// The lines of a queue, oldest first, and how much they may weigh: each line 1, and a checkpoint 1 more
/// for each message that it keeps. So a journal without a checkpoint weighs as much as it has lines.
/// Contracts see also for how many lines more there is memory for sure: that many [`Journal::reserve`] has
/// promised and no push has taken.
#[derive(Drop)]
pub struct Journal {
    lines: Vec<Line>,
    limit: usize,
    /// How many lines there are, and how many more were promised a place.
    room: usize,
    /// How much the lines weigh, or 2^64 - 1 where that is more.
    weight: u64,
}

impl Model for Journal {
    ghost use Rattle.std.specs.Prelude.{◌≡◌, ◌-◌, ◌≤◌, ◌^◌, min, length, vec_capacity};
    ghost use Rattle.journal.specs.Journal.{Lines};
    ghost use Rattle.journal.specs.Weight.{weight_of};

    ghost Value = { Lines };

    ghost view = { λ j. record { lines = j.lines.items; limit = j.limit; spare = j.room - length j.lines.items } };

    ghost invariant = { λ j. (length j.lines.items ≤ j.room) × (j.room ≤ vec_capacity j.lines) × (j.weight ≡ min (weight_of j.lines.items) (2 ^ 64 - 1)) };
}

impl fmt::Debug for Journal {
    /// How many lines there are, how much they weigh, and how much they may: what a line is costs an operation.
    fn fmt<W: fmt::Write>(&self, f: &mut fmt::Formatter<W>) -> fmt::Result {
        f.debug_struct("Journal")
            .field("len", &self.lines.len())
            .field("weight", &self.weight)
            .field("limit", &self.limit)
            .finish_non_exhaustive()
    }
}

impl Journal {
    ghost use Rattle.journal.specs.Journal.{no_lines, with_line, based};

    /// A journal without lines, which takes lines while they weigh less than `limit`. It takes no memory.
    pub fn new(alloc: Global, limit: usize) -> Result<Journal, Fault>
        ensures { result ≡ Ok (no_lines limit) }
    {
        Ok(Journal {
            lines: Vec::new(alloc),
            limit,
            room: 0,
            weight: 0,
        })
    }

    /// Adds a line at the end. A journal at its limit answers `JournalFull`, and one that finds no
    /// memory `OutOfMemory`; it is then as it was, and the line is dropped. Where places are reserved it
    /// takes one of them, and finds memory.
    pub fn push(&mut self, _alloc: Global, line: Line) -> Result<(), Fault>
        ensures ok { OnOk result (self.new ≡ with_line self.old line) }
        ensures full { IsErrOf result JournalFull ↔ (self.old.limit ≤ weight_of self.old.lines) }
        ensures errors { IfErr result (λ fault. (fault ≡ JournalFull) ⊎ (fault ≡ OutOfMemory)) }
        ensures err { OnErr result (self.new ≡ self.old) }
        ensures reserved { IsErrOf result OutOfMemory → self.old.spare ≡ 0 }
    {
        if self.limit as u64 <= self.weight {
            return Err(Fault::JournalFull);
        }
        let weight = self.weight.saturating_add(line.weight());
        self.lines.push(line)?;
        self.weight = weight;
        self.room = self.room.max(self.lines.len());
        Ok(())
    }

    /// Makes room for so many lines more, which [`Journal::push_reserved`] then adds without memory, up to the
    /// journal's limit. `OutOfMemory` is the only refusal; the journal is then as it was.
    pub fn reserve(&mut self, _alloc: Global, additional: usize) -> Result<(), Fault>
        ensures lines { self.new ≡ record self.old { spare = self.new.spare } }
        ensures ok { OnOk result (additional ≤ self.new.spare) }
        ensures exact { OnOk result (self.new.spare ≡ max self.old.spare additional) }
        ensures not_less { self.old.spare ≤ self.new.spare }
        ensures errors { IfErr result (λ fault. fault ≡ OutOfMemory) }
        ensures err { OnErr result (self.new ≡ self.old) }
        ensures full { OnErr result (self.old.spare < additional) }
    {
        self.lines.reserve(additional)?;
        self.room = self.room.max(self.lines.len() + additional);
        Ok(())
    }

    /// Adds a line at the end, at a place that was reserved, in a journal that is not at its limit.
    pub fn push_reserved(&mut self, line: Line)
        requires spare { 1 ≤ self.old.spare }
        requires place { weight_of self.old.lines < self.old.limit }
        ensures { self.new ≡ with_line self.old line }
    {
        self.weight = self.weight.saturating_add(line.weight());
        self.lines.push_reserved(line);
    }

    /// Puts one entry, which stands for them, in the place of all lines, whatever the limit is, and makes
    /// room for one line more. It keeps the memory that the lines had. `OutOfMemory` is the only refusal; the
    /// journal is then as it was, and the base is dropped.
    pub fn rebase(&mut self, _alloc: Global, at: Moment, base: Base<Content>) -> Result<(), Fault>
        ensures lines { OnOk result (self.new.lines ≡ based at base) }
        ensures limit { self.new.limit ≡ self.old.limit }
        ensures room { OnOk result (1 ≤ self.new.spare) }
        ensures exact { OnOk result (self.new.spare ≡ max (self.old.spare + length self.old.lines) 2 - 1) }
        ensures errors { IfErr result (λ fault. fault ≡ OutOfMemory) }
        ensures err { OnErr result (self.new ≡ self.old) }
    {
        let missing = 2_usize.saturating_sub(self.lines.len());
        self.lines.reserve(missing)?;
        let entry = Entry {
            at,
            event: Event::Base(base),
        };
        self.weight = entry.weight();
        self.lines.clear();
        self.lines.push_reserved(entry);
        self.room = self.room.max(2);
        Ok(())
    }

    /// For how many lines more there is memory for sure.
    pub fn spare(&self) -> usize
        ensures spare { result ≡ self.now.spare }
        ensures small { result < 2 ^ 63 }
    {
        self.room - self.lines.len()
    }

    /// How much the lines weigh: 1 each, and a checkpoint 1 more for each message that it keeps. A weight
    /// past 2^64 - 1 stays there. It costs no operation, and no memory.
    pub fn weight(&self) -> u64
        ensures { result ≡ min (weight_of self.now.lines) (2 ^ 64 - 1) }
    {
        self.weight
    }

    /// How many lines there are.
    pub fn len(&self) -> usize
        ensures { result ≡ length self.now.lines }
    {
        self.lines.len()
    }

    /// The line at a place, counted from 0. It costs one operation, whether there is a line or not.
    pub fn line(&self, place: usize, ticks: &mut Ticks) -> Option<&Line>
        ensures line { option_copied result ≡ slice_get self.now.lines place }
        ensures cost { ticks.new ≡ after_ticks 1 ticks.old }
    {
        ticks.add(1);
        self.lines.get(place)
    }

    /// The marks of the lines from a place on, in order: none where there is no line from there on.
    /// Each of these lines costs one operation. `OutOfMemory` is the only refusal, and costs nothing; where there is
    /// no such line, no memory is wanted.
    #[tactic(auto, using(std::proofs::lemmas::List::drop_min))]
    pub fn marks(&self, alloc: Global, from: usize, ticks: &mut Ticks) -> Result<Marks, Fault>
        ensures marks { IfOk result (λ marks. marks ≡ map (mark_of content_size) (drop from self.now.lines)) }
        ensures cost { OnOk result (ticks.new ≡ after_ticks (length (drop from self.now.lines)) ticks.old) }
        ensures errors { IfErr result (λ fault. fault ≡ OutOfMemory) }
        ensures wants { OnErr result (from < length self.now.lines) }
        ensures err { OnErr result (ticks.new ≡ ticks.old) }
    {
        let lines = &self.lines[from.min(self.lines.len())..];
        let marks = Marks::of(alloc, lines)?;
        ticks.add(lines.len() as u64);
        Ok(marks)
    }
}
