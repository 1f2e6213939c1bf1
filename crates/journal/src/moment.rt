//! Times.

ghost use Rattle.std.specs.Prelude.{◌≡◌, ◌^◌, ◌<◌, max};
ghost use Rattle.journal.specs.Moment.{moment_of};

use std::marker::Model;

/// A time in milliseconds, below 2^62. Contracts see it as the number of milliseconds. What it
/// counts from is its user's choice: the replay's requests carry their times.
#[derive(Clone, Copy, Debug, PartialEq, Eq, PartialOrd, Ord)]
pub struct Moment {
    milliseconds: u64,
}

impl Model for Moment {
    ghost use Rattle.std.specs.Prelude.{ℕ, ◌^◌, ◌<◌};

    ghost Value = { ℕ };

    ghost view = { λ m. m.milliseconds };

    ghost invariant = { λ m. m.milliseconds < 2 ^ 62 };

    ghost inverse = { λ n. record { milliseconds = n } };
}

impl Moment {
    /// The time 0 milliseconds.
    pub fn zero() -> Moment
        ensures { result ≡ 0 }
    {
        Moment { milliseconds: 0 }
    }

    /// The time of so many milliseconds, or `None` from 2^62 on.
    pub fn new(milliseconds: u64) -> Option<Moment>
        ensures { result ≡ moment_of milliseconds }
    {
        if milliseconds < 1 << 62 {
            Some(Moment { milliseconds })
        } else {
            None
        }
    }

    /// How many milliseconds it is.
    pub fn milliseconds(self) -> u64
        ensures value { result ≡ self }
        ensures range { result < 2 ^ 62 }
    {
        self.milliseconds
    }

    /// The later of two times.
    pub fn later(self, other: Moment) -> Moment
        ensures { result ≡ max self other }
    {
        Moment {
            milliseconds: self.milliseconds.max(other.milliseconds),
        }
    }
}
