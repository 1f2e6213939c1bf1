//! The operation counter.

ghost use Rattle.std.specs.Prelude.{◌≡◌, ◌≤◌};
ghost use Rattle.journal.specs.Order.{is_before};
ghost use Rattle.journal.specs.Ticks.{after_ticks};

use std::marker::Model;

/// Counts operations: each call of [`Journal::line`](crate::Journal::line) is one, and so is each line
/// that [`Journal::marks`](crate::Journal::marks) goes over, but where it finds no memory none, and each
/// comparison of two pairs by [`Ticks::before`]. The count stops at 2^64 - 1. Only [`Ticks::new`] makes a counter, and it takes the
/// program's runtime, which `main` and each test are handed and nothing makes: code that is handed a
/// counter and no runtime can count on that counter alone.
#[derive(Debug, Drop)]
pub struct Ticks {
    count: u64,
}

impl Model for Ticks {
    ghost use Rattle.std.specs.Prelude.{ℕ};

    ghost Value = { ℕ };

    ghost view = { λ t. t.count };
}

impl Ticks {
    /// A counter that stands at 0.
    pub fn new(_rt: &HostRuntime) -> Ticks
        ensures { result ≡ 0 }
    {
        Ticks { count: 0 }
    }

    /// How many operations were counted.
    pub fn count(&self) -> u64
        ensures { result ≡ self.now }
    {
        self.count
    }

    /// Whether the first pair of a moment, in milliseconds, and a message's number is less than the
    /// second: by the moment, and by the number where the moments are equal. It costs one operation.
    pub fn before(&mut self, a: (u64, u64), b: (u64, u64)) -> bool
        ensures test { result ≡ is_before a b }

        // Linear arithmetic cannot see this through the definition that `cost` cites.
        ensures not_less { self.old ≤ self.new }
        ensures cost { self.new ≡ after_ticks 1 self.old }
    {
        self.add(1);
        a.0 < b.0 || a.0 == b.0 && a.1 < b.1
    }

    /// Counts so many operations.
    pub(crate) fn add(&mut self, operations: u64)
        ensures not_less { self.old ≤ self.new }
        ensures cost { self.new ≡ after_ticks operations self.old }
    {
        self.count = self.count.saturating_add(operations);
    }
}
