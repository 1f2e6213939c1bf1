//! The map of slots.

ghost use Rattle.std.specs.Prelude.{◌≡◌, ◌≢◌, ℕ, ◌+◌, ◌^◌, ◌<◌, ◌≤◌, if◌then◌else◌, slice_index_or, is_some, Some, None, length, vec_len, vec_capacity, OnOk, OnErr};
ghost use Rattle.std.specs.FinMap as finite;
ghost use Rattle.age_index.specs.private.Nodes.{AreFree, number_in, unused};

use crate::node::{Chain, Node};
use std::alloc::{AllocError, Global};
use std::marker::Model;

/// Numbers of messages, each at a slot of its own. Contracts see the slot of each number, and how many more
/// numbers can be put in without memory: that many [`AgeIndex::reserve`] has promised a slot, and a number
/// that is taken out gives its slot back.
#[derive(Debug, Drop)]
pub struct AgeIndex {
    chain: Chain,
    /// The slots without a number, for each of which there is room here however many are free.
    free: Vec<u32>,
}

impl Model for AgeIndex {
    ghost use Rattle.std.specs.Prelude.{ℕ, ◌≡◌, ◌+◌, ◌<◌, ◌≤◌, length, vec_capacity};
    ghost use Rattle.std.specs.FinMap as finite;
    ghost use Rattle.age_index.specs.Ages.{Ages};
    ghost use Rattle.age_index.specs.private.Ages.{ages_code};
    ghost use Rattle.age_index.specs.private.Links.{IsChain};
    ghost use Rattle.age_index.specs.Nodes.{slots_of};
    ghost use Rattle.age_index.specs.private.Nodes.{AreFree, number_at, after_of, before_of};

    ghost Value = { Ages };

    ghost coded = { ages_code };

    ghost view = { λ a. record { slots = slots_of a.chain.nodes.items; spare = length a.free.items } };

    ghost invariant = { λ a. IsChain (number_at a.chain) (after_of a.chain) (before_of a.chain)
        × AreFree a.chain.nodes.items a.free.items
        × (length a.free.items + finite.len (slots_of a.chain.nodes.items) ≡ length a.chain.nodes.items)
        × (length a.chain.nodes.items ≤ vec_capacity a.free)
        × (length a.chain.nodes.items < 4294967296) };
}

impl AgeIndex {
    ghost use Rattle.age_index.specs.Ages.{IsNumberAt, IsFirst, slots_without};

    /// An index without numbers, which takes no memory.
    pub fn new(alloc: Global) -> AgeIndex
        ensures { result ≡ record { slots = finite.empty; spare = 0 } }
    {
        AgeIndex {
            chain: Chain {
                nodes: Vec::new(alloc),
                first: None,
                last: None,
            },
            free: Vec::new(alloc),
        }
    }

    /// Makes room for so many numbers more. `AllocError` is the only refusal; the index is then as it was.
    pub fn reserve(&mut self, _alloc: Global, additional: usize) -> Result<(), AllocError>
        requires { finite.len self.old.slots + additional < 2 ^ 32 }
        ensures slots { self.new.slots ≡ self.old.slots }
        ensures ok { OnOk result (additional ≤ self.new.spare) }
        ensures not_less { self.old.spare ≤ self.new.spare }
        ensures err { OnErr result (self.new ≡ self.old) }
        ensures full { OnErr result (self.old.spare < additional) }
    {
        let missing = additional.saturating_sub(self.free.len());
        self.chain.nodes.reserve(missing)?;
        self.free
            .reserve(self.chain.nodes.len() + missing - self.free.len())?;
        make_free(&mut self.chain.nodes, &mut self.free, missing);
        Ok(())
    }

    /// Puts a number in that is not there, for which there is room, and tells its slot, at which no other
    /// number is.
    pub fn add(&mut self, number: u64) -> u32
        requires spare { 1 ≤ self.old.spare }
        requires absent { finite.get self.old.slots number ≡ None }
        ensures slots { self.new.slots ≡ finite.insert self.old.slots number result }
        ensures fresh { (n : ℕ) → finite.get self.old.slots n ≢ Some result }
        ensures spare { self.new.spare + 1 ≡ self.old.spare }
    {
        let before = self.chain.place_for(number);
        let slot = self.free.pop().unwrap();
        self.chain.link_in(slot, number, before);
        slot
    }

    /// Takes the number at a slot out, and tells it, where there is one.
    pub fn remove(&mut self, slot: u32) -> Option<u64>
        ensures value { IsNumberAt self.old.slots slot result }
        ensures slots { self.new.slots ≡ slots_without self.old.slots result }
        ensures spare { self.new.spare ≡ self.old.spare + (if is_some result then 1 else 0) }
    {
        let number = self.chain.number(slot)?;
        self.chain.link_out(slot);
        self.free.push_reserved(slot);
        Some(number)
    }

    /// The least number, where there is one.
    pub fn first(&self) -> Option<u64>
        ensures { IsFirst self.now.slots result }
    {
        match self.chain.first {
            Some(slot) => self.chain.number(slot),
            None => None,
        }
    }
}

/// Makes so many free nodes more, for which there is room.
fn make_free(nodes: &mut Vec<Node>, free: &mut Vec<u32>, count: usize)
    requires nodes { vec_len nodes.old + count ≤ vec_capacity nodes.old }
    requires free { vec_len free.old + count ≤ vec_capacity free.old }
    requires few { vec_len nodes.old + count < 4294967296 }
    requires are_free { AreFree nodes.old.items free.old.items }
    ensures are_free { AreFree nodes.new.items free.new.items }
    ensures same { (x : ℕ) → slice_index_or nodes.new.items x unused ≡ slice_index_or nodes.old.items x unused }
    ensures nodes { vec_len nodes.new ≡ vec_len nodes.old + count }
    ensures free { vec_len free.new ≡ vec_len free.old + count }
    ensures capacity { vec_capacity free.new ≡ vec_capacity free.old }
{
    for _made in 0..count {
        make_one(nodes, free);
    }
}

/// Makes one free node more, for which there is room.
fn make_one(nodes: &mut Vec<Node>, free: &mut Vec<u32>)
    requires nodes { vec_len nodes.old < vec_capacity nodes.old }
    requires free { vec_len free.old < vec_capacity free.old }
    requires few { vec_len nodes.old + 1 < 4294967296 }
    requires are_free { AreFree nodes.old.items free.old.items }
    ensures are_free { AreFree nodes.new.items free.new.items }
    ensures same { (x : ℕ) → slice_index_or nodes.new.items x unused ≡ slice_index_or nodes.old.items x unused }
    ensures nodes { vec_len nodes.new ≡ vec_len nodes.old + 1 }
    ensures free { vec_len free.new ≡ vec_len free.old + 1 }
    ensures nodes_capacity { vec_capacity nodes.new ≡ vec_capacity nodes.old }
    ensures free_capacity { vec_capacity free.new ≡ vec_capacity free.old }
{
    free.push_reserved(nodes.len() as u32);
    nodes.push_reserved(Node::unused());
}
