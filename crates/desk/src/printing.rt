//! What is told of each turn, and to whom.

ghost use Rattle.std.specs.Prelude.{◌≡◌, ℕ, List, [], ◌∷◌, ◌++◌, IfSome, IfNone, IsSome};
ghost use Rattle.desk.specs.Printed.{TurnReport, IsNextIn, IsPublicationRecord};

use crate::turn::Turn;
use std::alloc::Global;
use std::sync::Wait;

/// A sink for what each turn leaves of the queue. It stands for lists of turns: those that it may have
/// printed. It has a place, which stays as it is: where readers find what it has printed.
pub trait Press: Drop {
    /// What it answers to a turn that was printed.
    type Told;

    // The lists of printed turns that a press stands for.
    ghost stands: { Self → List TurnReport → Type 0 };

    // The place of what it prints, by which a reader knows that it was printed there.
    ghost place: { Self → List ℕ };

    // What an answer tells of a turn that was printed at a place.
    ghost tells: { List ℕ → TurnReport → Self.Told → Type 0 };

    /// What a press answers to every turn without looking at it, where it stands for every list of
    /// turns: no turn is made for it then, and `print` is not called.
    fn blank(&self) -> Option<Self::Told>
        ensures told { IfSome result (λ told. (turn : TurnReport) → tells (place self.now) turn told) }
        ensures every { IfSome result (λ told. (turns : List TurnReport) → stands self.now turns) };

    /// Prints a turn, before it ends. `None` is lack of memory: the press stands for what it stood for.
    /// Its place stays.
    fn print<R: Wait>(&mut self, rt: &R, alloc: Global, turn: Turn) -> Option<Self::Told>
        requires { IsNextIn (stands self.old) turn }
        ensures some { IfSome result (λ told. (turns : List TurnReport) → stands self.old turns → IsPublicationRecord (turns ++ turn ∷ []) → stands self.new (turns ++ turn ∷ [])) }
        ensures told { IfSome result (λ told. tells (place self.old) turn told) }
        ensures none { IfNone result ((turns : List TurnReport) → stands self.old turns → stands self.new turns) }
        ensures place { place self.new ≡ place self.old };
}

/// A press for which no turn is printed: it stands for every list of turns, has no place, and answers
/// `Some` always.
#[derive(Clone, Copy, Debug, Drop)]
pub struct NoPress;

impl Press for NoPress {
    type Told = ();

    ghost stands = { λ _ _. Unit {0} };

    ghost place = { λ _. [] };

    ghost tells = { λ _ _ _. Unit {0} };

    fn blank(&self) -> Option<()>
        ensures { IsSome result }
    {
        Some(())
    }

    fn print<R: Wait>(&mut self, _rt: &R, _alloc: Global, _turn: Turn) -> Option<()>
        ensures { IsSome result }
    {
        self.blank()
    }
}
