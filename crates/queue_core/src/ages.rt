//! The messages whose age is looked at, in the order in which they came.

ghost use Rattle.std.specs.Prelude.{◌≡◌, ℕ, ◌+◌, ◌<◌, ◌≤◌, ◌^◌, ◌≢◌, true, false, length, slice_index, slice_set, if◌then◌else◌, OnOk};
ghost use Rattle.std.specs.FinMap as finite;
ghost use Rattle.queue_core.specs.private.Ages.{place_if, AreAges, IsLonger, HasPlaces, CanList, IsListed};

use age_index::AgeIndex;
use std::alloc::{AllocError, Global};

/// The list of the messages whose age is looked at, by number, and the slot at which the list has each: a place for
/// every number, so that one is taken out without a search.
#[derive(Debug, Drop)]
pub(crate) struct Ages {
    pub list: AgeIndex,
    pub places: Vec<u32>,
}

impl Ages {
    /// The list of no messages, which takes no memory.
    pub(crate) fn new(alloc: Global) -> Ages
        ensures { AreAges (λ n. false) 0 0 result }
    {
        Ages {
            list: AgeIndex::new(alloc),
            places: Vec::new(alloc),
        }
    }

    /// Makes room for so many messages more, and a place for each of so many numbers. `AllocError` is the only
    /// refusal.
    pub(crate) fn reserve(
        &mut self,
        alloc: Global,
        lacking: usize,
        numbers: usize,
    ) -> Result<(), AllocError>
        requires { finite.len self.old.list.slots + lacking < 2 ^ 32 }
        ensures same { IsLonger self.old self.new }
        ensures ok { OnOk result (HasPlaces lacking numbers self.new) }
    {
        self.list.reserve(alloc, lacking)?;
        extend_places(&mut self.places, numbers)
    }

    /// Puts a number in or takes it out, by whether it was there and whether it is to be there.
    pub(crate) fn replace(&mut self, number: u64, before: bool, after: bool)
        requires { CanList number before self.old }
        ensures { IsListed number before after self.old self.new }
    {
        match (before, after) {
            (false, true) => self.put_in(number),
            (true, false) => self.take_out(number),
            (false, false) | (true, true) => {}
        }
    }

    /// Puts a number in, which is not there.
    fn put_in(&mut self, number: u64)
        requires { CanList number false self.old }
        ensures { IsListed number false true self.old self.new }
    {
        let slot = self.list.add(number);
        self.places[number as usize] = slot;
    }

    /// Takes a number out, which is there.
    fn take_out(&mut self, number: u64)
        requires { CanList number true self.old }
        ensures { IsListed number true false self.old self.new }
    {
        self.list.remove(self.places[number as usize]);
    }
}

/// Makes a place for each of so many numbers, where there are fewer.
fn extend_places(places: &mut Vec<u32>, numbers: usize) -> Result<(), AllocError>
    ensures same { (n : ℕ) → slice_index places.new.items n ≡ slice_index places.old.items n }
    ensures longer { length places.old.items ≤ length places.new.items }
    ensures ok { OnOk result (numbers ≤ length places.new.items) }
{
    if places.len() < numbers {
        places.resize(numbers, 0)?;
    }
    Ok(())
}
