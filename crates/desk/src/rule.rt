//! The rule of a desk, and what each step tells. These types are for the proofs alone.

ghost use Rattle.desk.specs.private.Steps.{has_counted, has_drawn, has_waited, has_begun, has_ended, has_looked, has_entered};

use crate::held::Held;
use crate::printing::Press;
use crate::view::View;
use atomic_table::{Join, Play, Split, TableRule};
use std::snapshot::Snapshot;

/// Turns are taken in the order of the tickets. The table is told what the desk is made with: the queue and
/// the place of its press.
pub struct InTurn;

impl<P: Press> TableRule<Option<Held<P>>, View, Snapshot<Held<P>>> for InTurn {
    ghost use Rattle.desk.specs.private.Views.{first_view};
    ghost use Rattle.desk.specs.private.Rule.{IsInTurn};

    ghost holds = { λ key. IsInTurn key.value };

    ghost first = { λ key. first_view key.value };
}

/// The tickets that were drawn are counted.
pub struct Count;

impl<P: Press> Play<Option<Held<P>>, View> for Count {
    ghost then = { has_counted };
}

/// A ticket is drawn.
pub struct Draw;

impl<P: Press> Play<Option<Held<P>>, View> for Draw {
    ghost then = { has_drawn };
}

/// The turns that have ended are counted.
pub struct Await;

impl<P: Press> Play<Option<Held<P>>, View> for Await {
    ghost then = { has_waited };
}

/// A ticket is drawn whose turn has come.
pub struct Begin;

impl<P: Press> Play<Option<Held<P>>, View> for Begin {
    ghost then = { has_begun };
}

/// A turn ends.
pub struct End;

impl<P: Press> Play<Option<Held<P>>, View> for End {
    ghost then = { has_ended };
}

/// The turns that have ended are counted, for a pass that holds no ticket.
pub struct Look;

impl<P: Press> Play<Option<Held<P>>, View> for Look {
    ghost then = { has_looked };
}

/// A pass that was cut off gets its number.
pub struct Enter;

impl<P: Press> Play<Option<Held<P>>, View> for Enter {
    ghost then = { has_entered };
}

/// A pass is cut off from another.
pub struct CutOff;

impl Split<View> for CutOff {
    ghost use Rattle.desk.specs.private.Views.{cut_off};

    ghost left = { λ v. v };

    ghost right = { cut_off };
}

/// A pass hears what a note says, which is used up.
pub struct Hear;

impl Join<View> for Hear {
    ghost use Rattle.desk.specs.private.Views.{hearing, ended_view};

    ghost both = { hearing };

    ghost spent = { ended_view };
}

/// A pass hears what another has seen, which ends.
pub struct Absorb;

impl Join<View> for Absorb {
    ghost use Rattle.desk.specs.private.Views.{absorbing, ended_view};

    ghost both = { absorbing };

    ghost spent = { ended_view };
}
