//! The place of each number.

ghost use Rattle.std.specs.Prelude.{◌≡◌, ◌+◌, ◌<◌, ◌≤◌, false, if◌then◌else◌, is_some, IfOk, IfErr, IfSome, OnOk, OnErr};
ghost use Rattle.std.specs.FinMap as finite;
ghost use Rattle.deadline_heap.specs.private.Rows.{IsRising, IsRowOf, IsGapFor};

use std::alloc::{AllocError, Global};
use std::collections::VecDeque;
use std::marker::Model;

/// The place of each number, in rows that are searched by halving. A row that is put in or taken out at
/// either end moves no other, and one in the middle those of the shorter side.
#[derive(Debug, Drop)]
pub(crate) struct Places {
    /// A number and its place, the least number first.
    rows: VecDeque<(u64, usize)>,
    /// How many rows there are, and how many more were promised a place.
    room: usize,
}

impl Model for Places {
    ghost use Rattle.std.specs.Prelude.{◌-◌, ◌≤◌, length};
    ghost use Rattle.std.specs.FinMap as finite;
    ghost use Rattle.std.specs.VecDeque.{deque_capacity};
    ghost use Rattle.deadline_heap.specs.private.Placed.{PlaceTable, place_table_code};
    ghost use Rattle.deadline_heap.specs.private.Rows.{IsRising};

    ghost Value = { PlaceTable };

    ghost coded = { place_table_code };

    ghost view = { λ p. record { places = finite.from_entries p.rows.items; spare = p.room - length p.rows.items } };

    ghost invariant = { λ p. IsRising p.rows.items × (length p.rows.items ≤ p.room) × (p.room ≤ deque_capacity p.rows) };
}

impl Places {
    /// No places, which takes no memory.
    pub(crate) fn new(alloc: Global) -> Places
        ensures { result ≡ record { places = finite.empty; spare = 0 } }
    {
        Places {
            rows: VecDeque::new(alloc),
            room: 0,
        }
    }

    /// Makes room for so many numbers more. `AllocError` is the only refusal; nothing has changed then.
    pub(crate) fn reserve(&mut self, additional: usize) -> Result<(), AllocError>
        ensures places { self.new.places ≡ self.old.places }
        ensures ok { OnOk result (additional ≤ self.new.spare) }
        ensures not_less { self.old.spare ≤ self.new.spare }
        ensures err { OnErr result (self.new ≡ self.old) }
        ensures full { OnErr result (self.old.spare < additional) }
    {
        self.rows.reserve(additional)?;
        self.room = self.room.max(self.rows.len() + additional);
        Ok(())
    }

    /// The place of a number, where it has one.
    pub(crate) fn get(&self, number: u64) -> Option<usize>
        ensures { result ≡ finite.get self.now.places number }
    {
        match search(&self.rows, number) {
            Ok(at) => Some(self.rows[at].1),
            Err(_) => None,
        }
    }

    /// Gives a number a place, which is new or takes the place of the one it had.
    pub(crate) fn set(&mut self, number: u64, place: usize)
        requires { is_some (finite.get self.old.places number) ≡ false → 1 ≤ self.old.spare }
        ensures places { self.new.places ≡ finite.insert self.old.places number place }
        ensures spare { self.new.spare + (if is_some (finite.get self.old.places number) then 0 else 1) ≡ self.old.spare }
    {
        match search(&self.rows, number) {
            Ok(at) => self.rows[at] = (number, place),
            Err(at) => self.rows.insert(at, (number, place)).unwrap(),
        }
    }

    /// Takes the place of a number out, where it has one.
    pub(crate) fn remove(&mut self, number: u64)
        ensures places { self.new.places ≡ finite.remove self.old.places number }
        ensures spare { self.new.spare ≡ self.old.spare + (if is_some (finite.get self.old.places number) then 1 else 0) }
    {
        match search(&self.rows, number) {
            Ok(at) => {
                self.rows.remove(at);
            }
            Err(_) => {}
        }
    }
}

/// The row of a number, if no number is missing between the least one and this: as far behind the first one as it is
/// greater.
fn row_by_distance(rows: &VecDeque<(u64, usize)>, number: u64) -> Option<usize>
    ensures { IfSome result (IsRowOf rows.now.items number) }
{
    let &(least, _) = rows.front()?;
    let at = number.checked_sub(least)? as usize;
    match rows.get(at) {
        Some(&(key, _)) if key == number => Some(at),
        _ => None,
    }
}

/// Where the row of a number is, or where it would go. A new number is mostly the greatest, and few are missing among the
/// others, as messages mostly go in the order in which they came.
fn search(rows: &VecDeque<(u64, usize)>, number: u64) -> Result<usize, usize>
    requires { IsRising rows.now.items }
    ensures found { IfOk result (IsRowOf rows.now.items number) }
    ensures absent { IfErr result (IsGapFor rows.now.items number) }
{
    match rows.back() {
        Some(&(last, _)) if last < number => Err(rows.len()),
        _ => match row_by_distance(rows, number) {
            Some(at) => Ok(at),
            None => rows.binary_search_by_key(&number, |&(key, _)| key),
        },
    }
}
