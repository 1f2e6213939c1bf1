//! Lists of marks.

ghost use Rattle.std.specs.Prelude.{◌≡◌, ◌<◌, [], length, map, IfOk, IfErr, OnErr};
ghost use Rattle.message.specs.Content.{content_size};
ghost use Rattle.message.specs.declared.fault.Fault.TheVariants.{OutOfMemory};
ghost use Rattle.journal.specs.Mark.{mark_of};

use crate::entry::{Line, Mark};
use message::Fault;
use std::alloc::Global;
use std::marker::Model;

/// Marks, in the order of their entries. Contracts see the list.
#[derive(Debug, Drop)]
pub struct Marks {
    marks: Vec<Mark>,
}

impl Model for Marks {
    ghost use Rattle.std.specs.Prelude.{ℕ, List};
    ghost use Rattle.journal.specs.declared.entry.Entry.{Entry};

    ghost Value = { List (Entry ℕ) };

    ghost view = { λ m. m.marks.items };
}

impl Marks {
    /// No marks, which take no memory.
    pub fn new(alloc: Global) -> Marks
        ensures { result ≡ [] }
    {
        Marks {
            marks: Vec::new(alloc),
        }
    }

    /// The marks of lines, in order. `OutOfMemory` is the only refusal, where there is a line.
    #[tactic(auto, using(std::proofs::lemmas::List::map_more))]
    pub(crate) fn of(alloc: Global, lines: &[Line]) -> Result<Marks, Fault>
        ensures ok { IfOk result (λ marks. marks ≡ map (mark_of content_size) lines.now) }
        ensures errors { IfErr result (λ fault. fault ≡ OutOfMemory) }
        ensures wants { OnErr result (0 < length lines.now) }
    {
        let mut marks = Vec::with_capacity(alloc, lines.len())?;
        for line in lines {
            let mark = line.mark(alloc)?;
            marks.push_reserved(mark);
        }
        Ok(Marks { marks })
    }

    /// How many there are.
    pub fn len(&self) -> usize
        ensures { result ≡ length self.now }
    {
        self.marks.len()
    }

    /// The marks.
    pub fn as_slice(&self) -> &[Mark]
        ensures { result.now ≡ self.now }
    {
        self.marks.as_slice()
    }
}
