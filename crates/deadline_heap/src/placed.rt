//! Pairs by place, and the place of each number.

ghost use Rattle.std.specs.Prelude.{◌≡◌, ℕ, ◌+◌, ◌<◌, ◌≤◌, [], ◌∷◌, ◌++◌, length, slice_index_or, slice_set, IfSome, IfNone, OnOk, OnErr};
ghost use Rattle.std.specs.List.{swap};
ghost use Rattle.deadline_heap.specs.private.Placed.{HasDistinctNumbers, LacksNumber, HasNumberAt};

use crate::places::Places;
use std::alloc::{AllocError, Global};
use std::marker::Model;

/// Pairs of a moment and a number, no two with one number, in a list, and the place of each number in it.
#[derive(Debug, Drop)]
pub(crate) struct PlacedPairs {
    pairs: Vec<(u64, u64)>,
    places: Places,
    /// How many pairs there are, and how many more were promised a place.
    room: usize,
}

impl Model for PlacedPairs {
    ghost use Rattle.std.specs.Prelude.{◌+◌, ◌-◌, ◌≤◌, length, vec_capacity};
    ghost use Rattle.deadline_heap.specs.Placed.{Arrangement};
    ghost use Rattle.deadline_heap.specs.private.Placed.{IsPlaced};

    ghost Value = { Arrangement };

    ghost view = { λ p. record { pairs = p.pairs.items; spare = p.room - length p.pairs.items } };

    ghost invariant = { λ p. IsPlaced p.pairs.items p.places.places × (length p.pairs.items ≤ p.room) × (p.room ≤ vec_capacity p.pairs) × (p.room ≤ length p.pairs.items + p.places.spare) };
}

impl PlacedPairs {
    /// No pairs, which takes no memory.
    pub(crate) fn new(alloc: Global) -> PlacedPairs
        ensures { result ≡ record { pairs = []; spare = 0 } }
    {
        PlacedPairs {
            pairs: Vec::new(alloc),
            places: Places::new(alloc),
            room: 0,
        }
    }

    /// Makes room for so many pairs more. `AllocError` is the only refusal; no promise has changed then.
    pub(crate) fn reserve(&mut self, additional: usize) -> Result<(), AllocError>
        ensures pairs { self.new.pairs ≡ self.old.pairs }
        ensures ok { OnOk result (additional ≤ self.new.spare) }
        ensures not_less { self.old.spare ≤ self.new.spare }
        ensures err { OnErr result (self.new ≡ self.old) }
        ensures full { OnErr result (self.old.spare < additional) }
    {
        self.pairs.reserve(additional)?;
        self.places.reserve(additional)?;
        self.room = self.room.max(self.pairs.len() + additional);
        Ok(())
    }

    /// How many pairs there are.
    pub(crate) fn len(&self) -> usize
        ensures { result ≡ length self.now.pairs }
    {
        self.pairs.len()
    }

    /// The pair at a place.
    pub(crate) fn at(&self, place: usize) -> (u64, u64)
        requires { place < length self.now.pairs }
        ensures { (d : ℕ × ℕ) → slice_index_or self.now.pairs place d ≡ result }
    {
        self.pairs[place]
    }

    /// The place of a number, where it has one.
    pub(crate) fn place_of(&self, number: u64) -> Option<usize>
        ensures found { IfSome result (HasNumberAt self.now.pairs number) }
        ensures absent { IfNone result (LacksNumber self.now.pairs number) }
    {
        self.places.get(number)
    }

    /// Adds a pair at the end, under a number that is not there, for which there is room.
    pub(crate) fn push(&mut self, pair: (u64, u64))
        requires spare { 1 ≤ self.old.spare }
        requires absent { LacksNumber self.old.pairs pair.1 }
        ensures pairs { self.new.pairs ≡ self.old.pairs ++ pair ∷ [] }
        ensures spare { self.new.spare + 1 ≡ self.old.spare }
        ensures distinct { HasDistinctNumbers self.new.pairs }
    {
        self.places.set(pair.1, self.pairs.len());
        self.pairs.push_reserved(pair);
    }

    /// Writes another pair of the same number over the one at a place.
    pub(crate) fn set(&mut self, place: usize, pair: (u64, u64))
        requires { HasNumberAt self.old.pairs pair.1 place }
        ensures pairs { self.new.pairs ≡ slice_set self.old.pairs place pair }
        ensures spare { self.new.spare ≡ self.old.spare }
        ensures distinct { HasDistinctNumbers self.new.pairs }
    {
        self.pairs[place] = pair;
    }

    /// Lets the pairs at two places change them.
    pub(crate) fn exchange(&mut self, one: usize, other: usize)
        requires one { one < length self.old.pairs }
        requires other { other < length self.old.pairs }
        ensures pairs { self.new.pairs ≡ swap self.old.pairs one other }
        ensures spare { self.new.spare ≡ self.old.spare }
        ensures distinct { HasDistinctNumbers self.new.pairs }
    {
        let (first, second) = (self.pairs[one].1, self.pairs[other].1);
        self.places.set(first, other);
        self.places.set(second, one);
        self.pairs.swap(one, other);
    }

    /// Takes the last pair out.
    pub(crate) fn pop(&mut self) -> (u64, u64)
        requires { 0 < length self.old.pairs }
        ensures pairs { self.old.pairs ≡ self.new.pairs ++ result ∷ [] }
        ensures spare { self.new.spare ≡ self.old.spare + 1 }
        ensures distinct { HasDistinctNumbers self.new.pairs }
    {
        let pair = self.pairs.pop().unwrap();
        self.places.remove(pair.1);
        pair
    }
}
