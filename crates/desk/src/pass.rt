//! What callers of a desk carry.

use crate::held::Held;
use crate::printing::Press;
use crate::view::View;
use atomic_table::Seat;
use std::marker::Model;

/// The right to call at one desk, and what the caller has seen there. It takes no bytes. Contracts see
/// which desk it is of, its number, the history that it has seen and its own calls in it.
#[derive(Drop)]
pub struct Pass<P: Press> {
    pub(crate) seat: Seat<Option<Held<P>>, View>,
}

impl<P: Press> Model for Pass<P> {
    ghost use Rattle.std.specs.Prelude.{◌≡◌, []};
    ghost use Rattle.desk.specs.declared.view.PassStage.TheVariants.{Idle};
    ghost use Rattle.desk.specs.Views.{Pass, IsKnown, pass_of};

    ghost Value = { Pass };

    ghost view = { λ p. pass_of p.seat.table_id p.seat.me.0 };

    ghost invariant = { λ p. (p.seat.me.1 ≡ []) × (p.seat.me.0.stage ≡ Idle) × IsKnown (pass_of p.seat.table_id p.seat.me.0) };
}

/// What a pass had seen when the note was made, for another pass of the same desk. It takes no bytes.
/// Contracts see which desk it is of and the history that was seen.
#[derive(Drop)]
pub struct Note<P: Press> {
    pub(crate) seat: Seat<Option<Held<P>>, View>,
}

impl<P: Press> Model for Note<P> {
    ghost use Rattle.std.specs.Prelude.{◌≡◌, []};
    ghost use Rattle.desk.specs.declared.view.PassStage.TheVariants.{Fresh};
    ghost use Rattle.desk.specs.Views.{Remark, remark_of};

    ghost Value = { Remark };

    ghost view = { λ n. remark_of n.seat.table_id n.seat.me.0 };

    ghost invariant = { λ n. (n.seat.me.1 ≡ []) × (n.seat.me.0.stage ≡ Fresh) };
}
