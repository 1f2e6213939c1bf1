//! Talks with an index: by answers worked out by hand, and against a plain list.

ghost use Rattle.std.specs.Prelude.{◌≡◌, ◌≤◌, ◌==◌, ℕ, false, None, length};
ghost use Rattle.std.specs.FinMap as finite;
ghost use Rattle.std.specs.List.{list_any};

use super::*;
use std::alloc::{AllocError, Global};
use std::test::Fail;

/// An index, and the numbers that were ever put in, each with its slot. No number is put in twice, as no
/// message is born twice.
#[derive(Drop)]
struct Talk {
    index: AgeIndex,
    known: Vec<(u64, u32)>,
    ghost strangers: { (n : ℕ) → list_any (λ row. row.0 == n) known.items ≡ false → finite.get index.slots n ≡ None },
    ghost few: { finite.len index.slots ≤ length known.items },
}

/// Whether the number has a row.
fn is_known(rows: &[(u64, u32)], number: u64) -> bool
    ensures { result ≡ list_any (λ row. row.0 == number) rows.now }
{
    rows.iter().any(|row| row.0 == number)
}

impl Talk {
    fn new(alloc: Global) -> Talk {
        Talk {
            index: AgeIndex::new(alloc),
            known: Vec::new(alloc),
        }
    }

    /// Makes room for so many numbers more.
    fn reserve(&mut self, alloc: Global, count: u64) -> Result<(), AllocError> {
        if count > 1000 || self.known.len() > 1000 {
            return Ok(());
        }
        self.index.reserve(alloc, count as usize)
    }

    /// Puts a number in, unless it was in before, for which memory is taken first.
    fn add(&mut self, alloc: Global, number: u64) -> Result<(), AllocError> {
        if self.known.len() > 1000 || is_known(&self.known, number) {
            return Ok(());
        }
        self.known.reserve(1)?;
        self.index.reserve(alloc, 1)?;
        let slot = self.index.add(number);
        self.known.push_reserved((number, slot));
        Ok(())
    }

    /// Takes out what is at the slot at which a number was put in, and tells it.
    fn remove(&mut self, number: u64) -> Option<u64> {
        let row = self.known.iter().find(|row| row.0 == number).copied()?;
        self.remove_at(row.1)
    }

    /// Takes out what is at a slot, and tells it.
    fn remove_at(&mut self, slot: u32) -> Option<u64> {
        self.index.remove(slot)
    }

    /// Does what a call says, and gives the number that is told.
    fn told(&mut self, alloc: Global, call: &str) -> Result<Option<u64>, AllocError> {
        let (verb, operand) = call.split_once(' ').unwrap_or((call, ""));
        let operand = operand.parse::<u64>().unwrap_or(0);
        match verb {
            "reserve" => self.reserve(alloc, operand)?,
            "add" => self.add(alloc, operand)?,
            "remove" => return Ok(self.remove(operand)),
            "slot" => return Ok(self.remove_at(operand.min(4294967295) as u32)),
            _ => return Ok(self.index.first()),
        }
        Ok(None)
    }
}

/// What is told of each call, with `|` between calls that are told the same. A number is removed by the
/// slot at which it was put in.
const CALLS: &str = "\
first | slot 0 | slot 4294967295 => none
reserve 3 | add 0 | add 2 | add 1 => none
first => 0
remove 0 => 0
first => 1
// The slot is free, and is given to the next number.
remove 0 => none
add 5 => none
remove 0 => 5
remove 5 => none
// The last one, the first one, and the only one.
remove 2 => 2
first => 1
remove 1 => 1
first | remove 1 => none
// Each goes before all others, more of them than were ever promised a slot.
add 40 | add 30 | add 20 | add 10 => none
first => 10
remove 20 => 20
remove 10 => 10
first => 30
// The greatest number comes after all.
add 18446744073709551615 | add 35 => none
remove 30 => 30
first => 35
remove 35 => 35
first => 40
remove 40 => 40
first => 18446744073709551615
remove 18446744073709551615 => 18446744073709551615
first | slot 3 => none
";

/// Each call is told as its line says. One that finds no memory changes nothing, and is made again: so this
/// passes with ample memory, and under `rt try --test --fail-alloc N`, which refuses the Nth allocation.
#[test]
fn refused_memory(rt: HostRuntime) -> Result<(), Fail> {
    let alloc = rt.alloc();
    let mut talk = Talk::new(alloc);
    for line in CALLS.lines().filter(|line| !line.starts_with("//")) {
        let (calls, wanted) = line.split_once(" => ").unwrap_or((line, ""));
        for call in calls.split(" | ") {
            let told = match talk.told(alloc, call) {
                Err(AllocError) => talk.told(alloc, call)?,
                Ok(told) => told,
            };
            assert_eq!(rt; told, wanted.parse::<u64>().ok(), "{call}");
        }
    }
    Ok(())
}

/// Numbers that are put in, and with a minus those that are taken out: at the ends and between others, in a
/// slot that was free and in a new one, twice and not there.
const SCRIPT: &str = "\
0 2 1 -0 -0 9 5 7 -2 3 4 -9 -7 8 6 -1 -3 -5 12 11 10 -8 -4 -6 -10 -12 -11 -99 \
20 30 25 22 28 -25 26 24 -20 21 -30 31 29 -22 23 -31 27 -21 -23 -24 -26 -27 -28 -29 \
50 49 48 47 -50 -47 46 51 -48 52 45 -45 -46 -51 53 -49 -52";

/// After each call the least number is that of a plain list, and a number is told where it is in the list.
#[test]
fn plain_list(rt: HostRuntime) -> Result<(), Fail> {
    let alloc = rt.alloc();
    let mut talk = Talk::new(alloc);
    let mut plain = Vec::new(alloc);
    for call in SCRIPT.split_whitespace() {
        let number = call.trim_start_matches('-').parse::<u64>().unwrap_or(0);
        if call.starts_with('-') {
            let place = plain.iter().position(|other| *other == number);
            let wanted = place.map(|place| plain.swap_remove(place));
            assert_eq!(rt; talk.remove(number), wanted, "{call}");
        } else {
            talk.add(alloc, number)?;
            plain.push(number)?;
        }
        assert_eq!(rt; talk.index.first(), plain.iter().copied().min(), "{call}");
    }
    assert_eq!(rt; talk.index.first(), Some(53));
    Ok(())
}
