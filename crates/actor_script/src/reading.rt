//! Statistics that are asked for in a turn of their queue.

ghost use Rattle.std.specs.Prelude.{◌≡◌, IfOk};

use crate::types::Shared;
use board::{Publisher, Sheet, board};
use desk::{Desk, Gate, Pass};
use journal::Moment;
use message::{Fault, QueueName};
use queue_actor::Shown;
use queue_config::{Limits, Settings};
use queue_core::{Command, QueueState};
use std::alloc::Global;
use std::snapshot::Snapshot;
use std::sync::Wait;
use std::sync::atomic::{AtomicU64, Ordering};

/// Asks a directory for statistics in each turn, and keeps how many entries the sheets told of.
#[derive(Drop)]
struct Witness {
    alloc: Global,
    directory: Shared,
    name: QueueName,
    /// What the sheet of the name told, 0 where none was told.
    one: AtomicU64,
    /// What all sheets told together.
    all: AtomicU64,
}

impl Witness {
    /// What the sheet of the name tells.
    fn look_at_one<R: Wait>(&self, rt: &R) -> u64 {
        match self.directory.sheet(rt, self.alloc, &self.name) {
            Ok(Some(sheet)) => sheet.lines,
            _ => 0,
        }
    }

    /// What all sheets tell together.
    fn look_at_all<R: Wait>(&self, rt: &R) -> u64 {
        let mut lines = 0u64;
        if let Ok(sheets) = self.directory.sheets(rt, self.alloc) {
            for sheet in sheets.as_slice() {
                lines = lines.saturating_add(sheet.lines);
            }
        }
        lines
    }

    /// What was told in the last turn.
    fn told(&self) -> (u64, u64) {
        (
            self.one.load(Ordering::SeqCst),
            self.all.load(Ordering::SeqCst),
        )
    }
}

impl Gate for Witness {
    fn in_turn<R: Wait>(&self, rt: &R, _turn: u64) {
        self.one.store(self.look_at_one(rt), Ordering::SeqCst);
        self.all.store(self.look_at_all(rt), Ordering::SeqCst);
    }
}

/// A queue whose turns are printed on a board, and who reads there.
type Printing<R> = (Desk<Publisher<R>>, Pass<Publisher<R>>, Shown);

/// A queue that was opened at 0 under the uid 1 and a name, to which no call was made.
fn printing<R: Wait + Copy + Drop>(
    rt: R,
    host: &HostRuntime,
    name: QueueName,
) -> Result<Printing<R>, Fault>
    ensures { IfOk result (λ r. r.1.desk ≡ r.0) }
{
    let alloc = host.alloc();
    let (settings, limits) = (Settings::default(), Limits::default());
    let rules = Vec::new(alloc);
    let queue = QueueState::open(alloc, 1, name, settings, limits, rules, Moment::zero())?;
    let (sheet, opened) = (
        Sheet::of(alloc, &queue, Moment::zero())?,
        Snapshot::of(&queue),
    );
    let (publisher, mut readers) = board(alloc, rt, &sheet, 1)?;
    let Some(reader) = readers.pop() else {
        return Err(Fault::UnsupportedOperation);
    };
    let (desk, pass) = Desk::new(host, alloc, queue, publisher)?;
    Ok((desk, pass, Shown::new(1, name, reader, opened)))
}

/// What a directory tells in each of two turns of a queue, in which it is asked: the entries after the turn before, as
/// the sheet of the name has them, and all sheets. The queue does a command in each turn, which is not to be refused.
pub(crate) fn told_in_a_turn<R: Wait>(
    rt: &R,
    host: &HostRuntime,
    name: QueueName,
    sent: &Command,
) -> Result<((u64, u64), (u64, u64)), Fault> {
    let alloc = host.alloc();
    let (desk, mut pass, shown) = printing(rt, host, name)?;
    let directory = Shared::new(alloc, Limits::default())?;
    directory.show(rt, shown)?;
    let witness = Witness {
        alloc,
        directory,
        name,
        one: AtomicU64::new(0),
        all: AtomicU64::new(0),
    };
    let _ = desk
        .ask(rt, alloc, &mut pass, Moment::zero(), sent, &witness)
        .reply?;
    let first = witness.told();
    let _ = desk
        .ask(rt, alloc, &mut pass, Moment::zero(), sent, &witness)
        .reply?;
    Ok((first, witness.told()))
}
