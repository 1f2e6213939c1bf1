//! Who reads a queue's statistics without a turn.

ghost use Rattle.std.specs.Prelude.{◌≡◌, IfOk, IfErr, IfSome};
ghost use Rattle.message.specs.declared.fault.Fault.TheVariants.{OutOfMemory};
ghost use mathlib.Core.List.{IsPrefix};
ghost use Rattle.left_right.specs.Sides.{view};
ghost use Rattle.desk.specs.Printed.{IsPublicationRecord};
ghost use Rattle.board.specs.Printed.{place_of};
ghost use Rattle.board.specs.Shown.{sheet_after};

use crate::place::{OnePlace, See};
use crate::sheet::Sheet;
use crate::told::KnownTurns;
use left_right::reader::Reader as Side;
use message::Fault;
use std::alloc::Global;
use std::marker::Model;

/// A reader of one board. Contracts see the sheet that the board began with, and the turns that this
/// reader has seen or learnt of.
#[derive(Drop)]
pub struct Reader {
    given: Sheet,
    told: KnownTurns,
    side: Option<Side<KnownTurns, [u64; 0], OnePlace>>,
}

impl Model for Reader {
    ghost use Rattle.std.specs.Prelude.{◌≡◌};
    ghost use Rattle.std.specs.Option.{ForSome};
    ghost use Rattle.board.specs.Printed.{place_of};
    ghost use Rattle.board.specs.Shown.{Reader};

    ghost Value = { Reader };

    ghost view = { λ r. record { given = r.given; book = r.told.book; turns = r.told.turns } };

    ghost invariant = { λ r. ForSome r.side (λ s. s.place.me.0.client ≡ place_of r.told.book) };
}

impl Reader {
    /// A reader that takes this side.
    pub(crate) fn new(
        given: Sheet,
        told: KnownTurns,
        side: Side<KnownTurns, [u64; 0], OnePlace>,
    ) -> Reader
        requires { view side.place ≡ place_of told.book }
        ensures { result ≡ record { given = given; book = told.book; turns = told.turns } }
    {
        Reader {
            given,
            told,
            side: Some(side),
        }
    }

    /// What lies on the board. `None` where its publisher is gone, or it can be shared by no more.
    fn look(&mut self) -> Option<KnownTurns>
        ensures met { IfSome result (λ told. told.book ≡ self.old.book) }
        ensures same { self.new ≡ self.old }
    {
        match self.side.take()?.enter_as::<See>() {
            Ok(reading) => {
                let met = reading.get().copy();
                self.side = Some(reading.leave());
                met.ok()
            }
            Err(side) => {
                self.side = Some(side);
                None
            }
        }
    }

    /// The sheet after the turns that this reader has then seen, which begin with all that it saw before
    /// or was told of. It takes no turn, and cannot wait. `OutOfMemory` is the only refusal.
    pub fn read(&mut self, alloc: Global) -> Result<Sheet, Fault>
        ensures sheet { IfOk result (λ sheet. sheet ≡ sheet_after self.new.given self.new.turns) }
        ensures fits { IsPublicationRecord self.new.turns }
        ensures later { IsPrefix self.old.turns self.new.turns }
        ensures given { self.new.given ≡ self.old.given }
        ensures book { self.new.book ≡ self.old.book }
        ensures errors { IfErr result (λ fault. fault ≡ OutOfMemory) }
    {
        if let Some(met) = self.look() {
            self.told.meet(met);
        }
        self.told.sheet(alloc, &self.given)
    }

    /// Learns what the publisher told: from now on no sheet is older. What was told has to be of this board.
    pub fn learn(&mut self, told: KnownTurns)
        requires { place_of told.book ≡ place_of self.old.book }
        ensures told { IsPrefix told.turns self.new.turns }
        ensures later { IsPrefix self.old.turns self.new.turns }
        ensures given { self.new.given ≡ self.old.given }
        ensures book { self.new.book ≡ self.old.book }
    {
        self.told.meet(told);
    }
}
