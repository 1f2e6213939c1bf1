//! What is known of the turns that were printed on a board.

ghost use Rattle.std.specs.Prelude.{◌≡◌, ◌++◌, ◌∷◌, [], Some, None, length, IfOk, IfErr, IfSome};
ghost use Rattle.std.specs.Arc.{arc_value};
ghost use Rattle.message.specs.declared.fault.Fault.TheVariants.{OutOfMemory};
ghost use mathlib.Core.List.{IsPrefix};
ghost use Rattle.desk.specs.Printed.{IsPublicationRecord};
ghost use Rattle.board.specs.Numbers.{figures_of, last_figures};
ghost use Rattle.board.specs.Shown.{sheet_after};
ghost use Rattle.board.specs.private.Rule.{count_of};

use crate::numbers::Numbers;
use crate::rule::{Add, Law, Nothing};
use crate::sheet::Sheet;
use desk::Turn;
use left_right::Absorb;
use logbook::{Offer, Seen, Start, Word};
use message::Fault;
use std::alloc::{AllocError, Global};
use std::marker::Model;
use std::snapshot::Snapshot;
use std::sync::Arc;

/// The word of a board that counts its printed turns.
pub(crate) type Count = Word<Turn, u64, Law>;

/// The turns that were printed on a board, as far as they are known. At run time it has the numbers of the
/// last of them, and how many they are. Contracts see the turns.
#[derive(Drop)]
pub struct KnownTurns {
    /// Those of the last turn.
    numbers: Option<Arc<Numbers>>,
    /// How many turns they are.
    count: u64,
    seen: Seen<Turn, u64, Law>,
}

impl Model for KnownTurns {
    ghost use Rattle.std.specs.Prelude.{◌≡◌, length};
    ghost use Rattle.std.specs.Option.{option_map};
    ghost use Rattle.std.specs.Arc.{arc_value};
    ghost use Rattle.desk.specs.Printed.{IsPublicationRecord};
    ghost use Rattle.board.specs.Numbers.{last_figures};
    ghost use Rattle.board.specs.Printed.{Publications};

    ghost Value = { Publications };

    ghost view = { λ t. record { book = t.seen.book; turns = t.seen.log } };

    ghost invariant = { λ t. (t.count ≡ length t.seen.log) × IsPublicationRecord t.seen.log × (option_map arc_value t.numbers ≡ last_figures t.seen.log) };
}

/// A new book of turns: the word that counts them, and that none was printed.
pub(crate) fn open() -> (Count, KnownTurns)
    ensures count { result.0 ≡ count_of result.1.book }
    ensures none { result.1.turns ≡ [] }
{
    let (seen, mut first, _second) = Seen::open(Start::alone(), 0, 0);
    let count = Word::tracked(0, &mut first);
    let told = KnownTurns {
        numbers: None,
        count: 0,
        seen,
    };
    (count, told)
}

impl KnownTurns {
    /// The turns that were seen, where the last has these numbers.
    pub(crate) fn of(numbers: Arc<Numbers>, count: u64, seen: &Seen<Turn, u64, Law>) -> KnownTurns
        requires count { count ≡ length seen.now.log }
        requires fits { IsPublicationRecord seen.now.log }
        requires last { last_figures seen.now.log ≡ Some (arc_value numbers) }
        ensures { result ≡ record { book = seen.now.book; turns = seen.now.log } }
    {
        KnownTurns {
            numbers: Some(numbers),
            count,
            seen: seen.again(),
        }
    }

    /// A copy. `OutOfMemory` is the only refusal.
    pub(crate) fn copy(&self) -> Result<KnownTurns, AllocError>
        ensures { IfOk result (λ told. told ≡ self.now) }
    {
        let numbers = match &self.numbers {
            Some(numbers) => Some(Arc::try_clone(numbers)?),
            None => None,
        };
        Ok(KnownTurns {
            numbers,
            count: self.count,
            seen: self.seen.again(),
        })
    }

    /// Adds a turn to the book, behind all that is known here. `None` where others stand there, or where
    /// no more can be counted. Otherwise all turns, and how many they are.
    #[tactic(auto, using(crate::proofs::Prefixes::last_figures_snoc))]
    pub(crate) fn add(
        &self,
        count: &Count,
        turn: &Snapshot<Turn>,
    ) -> Option<(Seen<Turn, u64, Law>, u64)>
        requires word { count.now ≡ count_of self.now.book }
        requires fits { IsPublicationRecord (self.now.turns ++ turn.now.value ∷ []) }
        ensures book { IfSome result (λ r. r.0.book ≡ self.now.book) }
        ensures turns { IfSome result (λ r. r.0.log ≡ self.now.turns ++ turn.now.value ∷ []) }
        ensures fits { IfSome result (λ r. IsPublicationRecord r.0.log) }
        ensures last { IfSome result (λ r. last_figures r.0.log ≡ Some (figures_of turn.now.value)) }
        ensures count { IfSome result (λ r. r.1 ≡ length r.0.log) }
    {
        let before = self.count;
        if before == u64::MAX {
            return None;
        }
        let mut seen = self.seen.again();
        let mut offer: Offer<Turn, u64, Law, Nothing> = seen.plain::<Nothing, Snapshot<Turn>, Add>(
            turn,
        );
        let mut pen = seen.no_pen();
        let found = count.compare_exchange::<Add, Nothing>(
            before,
            before + 1,
            &mut seen,
            &mut offer,
            &mut pen,
        );
        if found == before {
            Some((seen, before + 1))
        } else {
            None
        }
    }

    /// Keeps the longer of two.
    pub(crate) fn meet(&mut self, other: KnownTurns)
        requires { other.book ≡ self.old.book }
        ensures book { self.new.book ≡ self.old.book }
        ensures own { IsPrefix self.old.turns self.new.turns }
        ensures met { IsPrefix other.turns self.new.turns }
    {
        let mut both = self.seen.again();
        both.learn(&other.seen);
        if self.count < other.count {
            *self = other;
        }
    }

    /// The sheet after these turns. `OutOfMemory` is the only refusal.
    pub(crate) fn sheet(&self, alloc: Global, given: &Sheet) -> Result<Sheet, Fault>
        ensures ok { IfOk result (λ sheet. sheet ≡ sheet_after given.now self.now.turns) }
        ensures fits { IsPublicationRecord self.now.turns }
        ensures errors { IfErr result (λ fault. fault ≡ OutOfMemory) }
    {
        match &self.numbers {
            Some(numbers) => numbers.sheet(alloc, given),
            None => given.copy(alloc),
        }
    }
}

/// What lies on the board is the turns that were put there last.
impl Absorb<KnownTurns> for KnownTurns {
    ghost use Rattle.board.specs.Printed.{place_of};
    ghost use Rattle.board.specs.Rule.{place_with};

    type State = [u64; 0];

    ghost state = { λ told. place_of told.book };

    ghost applied = { place_with };

    fn absorb_first(
        &mut self,
        operation: &KnownTurns,
        _other: &KnownTurns,
    ) -> Result<(), AllocError> {
        *self = operation.copy()?;
        Ok(())
    }

    fn absorb_second(
        &mut self,
        operation: KnownTurns,
        _other: &KnownTurns,
    ) -> Result<(), KnownTurns> {
        *self = operation;
        Ok(())
    }
}
