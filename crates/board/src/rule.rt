//! The rule of the book of printed turns, for the proofs alone.

use desk::Turn;
use logbook::{Gain, Plain, Play, Rule};
use std::snapshot::Snapshot;

/// The rule of the book of printed turns.
pub struct Law;

impl Rule<Turn, u64> for Law {
    ghost use Rattle.std.specs.Prelude.{[]};
    ghost use base.Fml.{ftrue};
    ghost use Rattle.board.specs.private.Rule.{IsKept};

    ghost holds = { λ cells log. IsKept cells log };

    ghost first = { [] };

    ghost hinted = { λ n log. Unit {0} };

    ghost shows = { λ log. [] };

    ghost keeps = { λ names log. ftrue };

    ghost moves = { λ ask before after answer. Unit {0} };
}

/// Nothing is traded at a step.
pub(crate) struct Nothing;

impl Gain<Turn, u64> for Nothing {
    ghost use base.Fml.{ftrue};

    ghost after = { λ names about answer. ftrue };
}

/// A step that adds a turn.
pub(crate) struct Add;

impl Play<Turn, u64> for Add {
    ghost use Rattle.board.specs.private.Rule.{Adds};

    ghost then = { Adds };
}

impl Plain<Snapshot<Turn>, Turn, u64> for Add {
    ghost use Rattle.std.specs.Prelude.{None};

    ghost ask = { λ turn. turn.value };

    ghost state = { λ turn. None };
}
