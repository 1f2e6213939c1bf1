//! The rule of what lies on the board, for the proofs alone: all of it is of one place.

use crate::told::KnownTurns;
use atomic_table::{Join, Split};
use crossbeam_utils::rule::{Outcome, Protocol};

/// A view is the place of what lies there, or empty yet.
pub struct OnePlace;

impl Protocol<KnownTurns, [u64; 0]> for OnePlace {
    ghost use Rattle.std.specs.Prelude.{[]};
    ghost use Rattle.board.specs.private.Rule.{IsOfPlace};

    ghost holds = { IsOfPlace };

    ghost first = { [] };
}

/// A step that looks, or puts something there.
pub(crate) struct See;

impl Outcome<KnownTurns, [u64; 0]> for See {
    ghost use Rattle.board.specs.private.Rule.{Sees};

    ghost then = { Sees };
}

/// The place is told to a reader, and still known.
pub(crate) struct Tell;

impl Split<[u64; 0]> for Tell {
    ghost left = { λ view. view };

    ghost right = { λ view. view };
}

/// A reader takes in the place that it was told.
pub(crate) struct Hear;

impl Join<[u64; 0]> for Hear {
    ghost use Rattle.std.specs.Prelude.{[]};

    ghost both = { λ view told. told };

    ghost spent = { [] };
}
