//! The board of a queue's statistics, and the press that puts each turn there.

ghost use Rattle.std.specs.Prelude.{ℕ, List, ◌≡◌, ◌^◌, ◌<◌, ◌++◌, [], ◌∷◌, drop, replicate, IfOk, IfErr, IfSome, IfNone};
ghost use Rattle.message.specs.declared.fault.Fault.TheVariants.{OutOfMemory};
ghost use Rattle.std.specs.Arc.{arc_value};
ghost use Rattle.left_right.specs.Sides.{view};
ghost use Rattle.board.specs.Numbers.{figures_of};
ghost use Rattle.desk.specs.Printed.{TurnReport, IsPublicationRecord};
ghost use Rattle.board.specs.Printed.{place_of};
ghost use Rattle.board.specs.private.Rule.{IsAt, count_of};

use crate::numbers::Numbers;
use crate::place::{Hear, OnePlace, See, Tell};
use crate::reader::Reader;
use crate::sheet::Sheet;
use crate::told::{Count, KnownTurns, open};
use desk::{Press, Turn};
use left_right::reader::Reader as Side;
use left_right::writer::Writer;
use message::Fault;
use std::alloc::{AllocError, Global};
use std::marker::Model;
use std::mem::replace;
use std::snapshot::Snapshot;
use std::sync::{Arc, Wait};

/// Two copies of what lies on the board, of which readers take one.
type Copies = Writer<KnownTurns, KnownTurns, [u64; 0], OnePlace>;

/// How many readers a board may have, and one more. This project's own choice.
const READERS: usize = 1 << 32;

/// A press that puts each turn on a board. It keeps the runtime, since its drop waits for readers.
/// Contracts see the turns that it printed.
pub struct Publisher<R: Wait + Drop> {
    count: Count,
    told: KnownTurns,
    copies: Option<Copies>,
    rt: R,
}

impl<R: Wait + Drop> Model for Publisher<R> {
    ghost use Rattle.std.specs.Prelude.{◌≡◌, drop};
    ghost use Rattle.std.specs.Option.{ForSome};
    ghost use Rattle.board.specs.Printed.{Publications, place_of};
    ghost use Rattle.board.specs.private.Rule.{IsAt, count_of};

    ghost Value = { Publications };

    ghost view = { λ p. p.told };

    ghost invariant = { λ p. (p.count ≡ count_of p.told.book) × ForSome p.copies (λ w. IsAt (place_of p.told.book) w.desk.shown.value (drop w.behind w.log.items) w.desk.place.me.0.client) };
}

/// The copies of a new board, with places for so many readers.
fn new_copies<W: Wait>(
    alloc: Global,
    rt: &W,
    told: &KnownTurns,
    readers: usize,
) -> Result<Copies, AllocError>
    requires { (0 < readers) × (readers < 2 ^ 32) }
    ensures { IfOk result (λ w. IsAt (place_of told.now.book) w.desk.shown.value (drop w.behind w.log.items) (view w.desk.place)) }
{
    let first = told.copy()?;
    let second = told.copy()?;
    let copies: Copies = Writer::new(alloc, first, second, readers)?;
    // The empty list of operations is published, so that the writer's view is the place.
    let (copies, shown) = copies.publish_as::<See, W>(rt);
    if shown.is_err() {
        drop(copies.take(rt));
        return Err(AllocError);
    }
    Ok(copies)
}

/// Puts turns on the board. Where memory runs out they are let go, and readers see them with the next ones.
fn put<W: Wait>(rt: &W, copies: Copies, told: KnownTurns) -> Copies
    requires { IsAt (place_of told.book) copies.desk.shown.value (drop copies.behind copies.log.items) (view copies.desk.place) }
    ensures { IsAt (place_of told.book) result.desk.shown.value (drop result.behind result.log.items) (view result.desk.place) }
{
    let mut copies = copies;
    drop(copies.append(told));
    copies.publish_as::<See, W>(rt).0
}

/// The numbers of a turn, to be shared by three. `OutOfMemory` is the only refusal.
fn shared_numbers(
    alloc: Global,
    turn: Turn,
) -> Result<(Arc<Numbers>, Arc<Numbers>, Arc<Numbers>), Fault>
    ensures first { IfOk result (λ n. arc_value n.0 ≡ figures_of turn) }
    ensures second { IfOk result (λ n. arc_value n.1 ≡ figures_of turn) }
    ensures third { IfOk result (λ n. arc_value n.2 ≡ figures_of turn) }
    ensures errors { IfErr result (λ fault. fault ≡ OutOfMemory) }
{
    let numbers = Arc::new(alloc, Numbers::of(turn))?;
    let second = Arc::try_clone(&numbers)?;
    let third = Arc::try_clone(&numbers)?;
    Ok((numbers, second, third))
}

impl<R: Wait + Drop> Publisher<R> {
    /// Puts turns on the board, which are those that were printed.
    fn put<W: Wait>(&mut self, rt: &W, told: KnownTurns)
        requires { told.book ≡ self.old.book }
        ensures { self.new ≡ self.old }
    {
        let Some(copies) = self.copies.take() else {
            return;
        };
        // Nothing lies there meanwhile; but only a writer that is taken may be let go.
        if let Some(other) = replace(&mut self.copies, Some(put(rt, copies, told))) {
            drop(other.take(rt));
        }
    }

    /// Prints a turn. `None` is lack of memory, or that no more turns can be counted: the readers see what
    /// they saw.
    fn publish<W: Wait>(&mut self, rt: &W, alloc: Global, turn: Turn) -> Option<KnownTurns>
        requires { IsPublicationRecord (self.old.turns ++ turn ∷ []) }
        ensures told { IfSome result (λ told. (told.book ≡ self.old.book) × (told.turns ≡ self.old.turns ++ turn ∷ [])) }
        ensures some { IfSome result (λ told. self.new.turns ≡ self.old.turns ++ turn ∷ []) }
        ensures none { IfNone result (self.new ≡ self.old) }
        ensures book { self.new.book ≡ self.old.book }
    {
        let entry = Snapshot::of(&turn);
        let (mine, shown, answer) = shared_numbers(alloc, turn).ok()?;
        let (seen, count) = self.told.add(&self.count, &entry)?;
        self.told = KnownTurns::of(mine, count, &seen);
        self.put(rt, KnownTurns::of(shown, count, &seen));
        Some(KnownTurns::of(answer, count, &seen))
    }

    /// A reader of this board. `OutOfMemory` is the only refusal.
    fn reader(&mut self, alloc: Global, given: &Sheet) -> Result<Reader, Fault>
        ensures reader { IfOk result (λ reader. reader ≡ record { given = given.now; book = self.old.book; turns = self.old.turns }) }
        ensures errors { IfErr result (λ fault. fault ≡ OutOfMemory) }
        ensures same { self.new ≡ self.old }
    {
        let given = given.copy(alloc)?;
        let told = self.told.copy()?;
        let Some(copies) = &mut self.copies else {
            return Err(Fault::OutOfMemory);
        };
        let mut side: Side<KnownTurns, [u64; 0], OnePlace> = copies.factory().reader()?;
        side.learn::<Hear>(copies.tell::<Tell>());
        Ok(Reader::new(given, told, side))
    }

    /// So many readers of this board. `OutOfMemory` is the only refusal.
    fn readers(&mut self, alloc: Global, given: &Sheet, count: usize) -> Result<Vec<Reader>, Fault>
        ensures readers { IfOk result (λ all. all.items ≡ replicate count (record { given = given.now; book = self.old.book; turns = self.old.turns })) }
        ensures errors { IfErr result (λ fault. fault ≡ OutOfMemory) }
        ensures same { self.new ≡ self.old }
    {
        let mut all = Vec::new(alloc);
        while all.len() < count {
            all.push(self.reader(alloc, given)?)?;
        }
        Ok(all)
    }
}

/// A sink for turns, which prints each one on its board.
impl<R: Wait + Drop> Press for Publisher<R> {
    type Told = KnownTurns;

    ghost stands = { λ p turns. p.turns ≡ turns };

    ghost place = { λ p. place_of p.book };

    ghost tells = { λ place turn told. (place_of told.book ≡ place) × ((before : List TurnReport) × (told.turns ≡ before ++ turn ∷ [])) };

    fn blank(&self) -> Option<KnownTurns> {
        None
    }

    fn print<W: Wait>(&mut self, rt: &W, alloc: Global, turn: Turn) -> Option<KnownTurns> {
        self.publish(rt, alloc, turn)
    }
}

impl<R: Wait + Drop> Drop for Publisher<R> {
    fn drop(self) {
        let Self {
            count: _count,
            told: _told,
            copies,
            rt,
        } = self;
        if let Some(copies) = copies {
            drop(copies.take(&rt));
        }
    }
}

/// A board with a sheet, its press, and so many readers, which are shown that sheet until a turn is
/// printed. `OutOfMemory` is the only refusal.
pub fn board<R: Wait + Drop>(
    alloc: Global,
    rt: R,
    sheet: &Sheet,
    readers: usize,
) -> Result<(Publisher<R>, Vec<Reader>), Fault>
    ensures none { IfOk result (λ b. b.0.turns ≡ []) }
    ensures readers { IfOk result (λ b. b.1.items ≡ replicate readers (record { given = sheet.now; book = b.0.book; turns = [] })) }
    ensures errors { IfErr result (λ fault. fault ≡ OutOfMemory) }
{
    if readers >= READERS {
        return Err(Fault::OutOfMemory);
    }
    let (count, told) = open();
    let copies = new_copies(alloc, &rt, &told, readers.max(1))?;
    let mut publisher = Publisher {
        count,
        told,
        copies: Some(copies),
        rt,
    };
    let all = publisher.readers(alloc, sheet, readers)?;
    Ok((publisher, all))
}
