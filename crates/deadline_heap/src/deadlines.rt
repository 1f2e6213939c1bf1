//! The map of deadlines.

ghost use Rattle.std.specs.Prelude.{◌≡◌, ℕ, ◌+◌, ◌*◌, ◌^◌, ◌<◌, ◌≤◌, if◌then◌else◌, is_some, None, IsSome, IfNone, OnOk, OnErr};
ghost use Rattle.std.specs.FinMap as finite;

use crate::placed::PlacedPairs;
use journal::Ticks;
use std::alloc::{AllocError, Global};
use std::marker::Model;

/// A moment, in milliseconds, for each of some numbers. Contracts see the map, and how many more numbers
/// can be put in without memory: that many [`DeadlineHeap::reserve`] has promised a place, and a number
/// that is taken out gives its place back.
#[derive(Debug, Drop)]
pub struct DeadlineHeap {
    heap: PlacedPairs,
}

impl Model for DeadlineHeap {
    ghost use Rattle.deadline_heap.specs.Deadlines.{Deadlines, moments_of};
    ghost use Rattle.deadline_heap.specs.private.Deadlines.{deadlines_code};
    ghost use Rattle.deadline_heap.specs.private.Heap.{IsHeap};
    ghost use Rattle.deadline_heap.specs.private.Placed.{HasDistinctNumbers};

    ghost Value = { Deadlines };

    ghost coded = { deadlines_code };

    ghost view = { λ d. record { moments = moments_of d.heap.pairs; spare = d.heap.spare } };

    ghost invariant = { λ d. IsHeap d.heap.pairs × HasDistinctNumbers d.heap.pairs };
}

impl DeadlineHeap {
    ghost use Rattle.deadline_heap.specs.Deadlines.{IsFirst};

    /// A heap without numbers, which takes no memory.
    pub fn new(alloc: Global) -> DeadlineHeap
        ensures { result ≡ record { moments = finite.empty; spare = 0 } }
    {
        DeadlineHeap {
            heap: PlacedPairs::new(alloc),
        }
    }

    /// Makes room for so many numbers more. `AllocError` is the only refusal; the heap is then as it was.
    pub fn reserve(&mut self, _alloc: Global, additional: usize) -> Result<(), AllocError>
        ensures moments { self.new.moments ≡ self.old.moments }
        ensures ok { OnOk result (additional ≤ self.new.spare) }
        ensures not_less { self.old.spare ≤ self.new.spare }
        ensures err { OnErr result (self.new ≡ self.old) }
        ensures full { OnErr result (self.old.spare < additional) }
    {
        self.heap.reserve(additional)
    }

    /// Puts a number in that is not there, with its moment, for which there is room. It costs one
    /// operation for each comparison of two pairs.
    pub fn insert(&mut self, number: u64, moment: u64, ticks: &mut Ticks)
        requires spare { 1 ≤ self.old.spare }
        requires absent { finite.get self.old.moments number ≡ None }
        ensures moments { self.new.moments ≡ finite.insert self.old.moments number moment }
        ensures spare { self.new.spare + 1 ≡ self.old.spare }
        ensures not_less { ticks.old ≤ ticks.new }

        // c is any number of binary digits in which the number of entries can be written.
        ensures cost { (c : ℕ) → finite.len self.old.moments < 2 ^ c → ticks.new ≤ ticks.old + 2 * (c + 1) }
    {
        let place = self.heap.len();
        self.heap.push((moment, number));
        self.heap.rise(place, ticks);
    }

    /// Gives a number that is there another moment. It costs one operation for each comparison of two
    /// pairs.
    pub fn move_to(&mut self, number: u64, moment: u64, ticks: &mut Ticks)
        requires { IsSome (finite.get self.old.moments number) }
        ensures moments { self.new.moments ≡ finite.insert self.old.moments number moment }
        ensures spare { self.new.spare ≡ self.old.spare }
        ensures not_less { ticks.old ≤ ticks.new }

        // c is any number of binary digits in which the number of entries can be written.
        ensures cost { (c : ℕ) → finite.len self.old.moments < 2 ^ c → ticks.new ≤ ticks.old + 2 * (c + 1) }
    {
        let place = self.heap.place_of(number).unwrap();
        self.heap.set(place, (moment, number));
        self.heap.settle(place, ticks);
    }

    /// Takes a number out, and tells its moment, where it was there. It costs one operation for each
    /// comparison of two pairs.
    pub fn remove(&mut self, number: u64, ticks: &mut Ticks) -> Option<u64>
        ensures value { result ≡ finite.get self.old.moments number }
        ensures moments { self.new.moments ≡ finite.remove self.old.moments number }
        ensures spare { self.new.spare ≡ self.old.spare + (if is_some result then 1 else 0) }
        ensures absent { IfNone result (ticks.new ≡ ticks.old) }
        ensures not_less { ticks.old ≤ ticks.new }

        // c is any number of binary digits in which the number of entries can be written.
        ensures cost { (c : ℕ) → finite.len self.old.moments < 2 ^ c → ticks.new ≤ ticks.old + 2 * (c + 1) }
    {
        let gap = self.heap.place_of(number)?;
        let last = self.heap.len() - 1;
        self.heap.exchange(gap, last);
        let (moment, _) = self.heap.pop();
        self.heap.settle(gap, ticks);
        Some(moment)
    }

    /// The least pair of a moment and a number, where there is one. It compares nothing.
    pub fn first(&self) -> Option<(u64, u64)>
        ensures { IsFirst self.now.moments result }
    {
        if self.heap.len() == 0 {
            return None;
        }
        Some(self.heap.at(0))
    }
}
