//! Talks with a heap, by answers worked out by hand, and what it costs to put many numbers in.

use super::*;
use journal::Ticks;
use message::Fault;
use std::alloc::Global;
use std::test::Fail;

/// The number that a text is.
fn number(text: &str) -> Result<u64, Fault> {
    text.parse::<u64>().map_err(|_| Fault::UnsupportedOperation)
}

/// Puts a number in at its moment, which is not there or is taken out before. One that finds no memory
/// changes nothing.
#[tactic(auto, using(crate::proofs::Keyed::get_removed))]
fn inserted(
    alloc: Global,
    talk: &mut (DeadlineHeap, Ticks),
    number: u64,
    moment: u64,
) -> Result<Option<u64>, Fault> {
    let (heap, ticks) = talk;
    heap.reserve(alloc, 1)?;
    let old = heap.remove(number, ticks);
    heap.insert(number, moment, ticks);
    Ok(old)
}

/// Moves the first number to another moment, and tells it.
fn delayed(talk: &mut (DeadlineHeap, Ticks), moment: u64) -> Option<u64> {
    let (heap, ticks) = talk;
    let first = heap.first()?;
    heap.move_to(first.1, moment, ticks);
    Some(first.1)
}

/// Does what a call says of a heap and a count of ticks, and gives what is told. The text has its memory
/// first, so that the call can be made again where memory is refused.
fn told(alloc: Global, talk: &mut (DeadlineHeap, Ticks), call: &str) -> Result<String, Fault> {
    let mut text = String::with_capacity(alloc, 500)?;
    let mut words = call.split(' ');
    let verb = words.next().unwrap_or("");
    let one = number(words.next().unwrap_or("0"))?;
    let other = number(words.next().unwrap_or("0"))?;
    match verb {
        "reserve" => talk.0.reserve(alloc, one as usize)?,
        "insert" => write!(text, "{:?}", inserted(alloc, talk, one, other)?)?,
        "delay" => write!(text, "{:?}", delayed(talk, one))?,
        "remove" => write!(text, "{:?}", talk.0.remove(one, &mut talk.1))?,
        "first" => write!(text, "{:?}", talk.0.first())?,
        _ => write!(text, "{}", talk.1.count())?,
    }
    Ok(text)
}

/// What is told of each call, with `|` between calls that are told the same; nothing of a reserve. A number
/// is inserted at a moment, and the first one is delayed to another. Ticks are counted on: those of a pair
/// on its way up, one a level, and on its way down, two a level where two pairs stand below.
const CALLS: &str = "\
first | delay 9 | remove 0 => None
ticks => 0
// The least moment comes first, and the least number where the moments are equal.
reserve 2
insert 7 500 | insert 3 500 => None
first => Some((500, 3))
delay 900 => Some(3)
first => Some((500, 7))
remove 7 => Some(500)
remove 7 => None
remove 3 => Some(900)
first => None
ticks => 2
// Each rises to the top.
insert 1 50 | insert 2 40 | insert 3 30 | insert 4 20 | insert 5 10 => None
first => Some((10, 5))
ticks => 8
// One sinks by the lesser of the two below it, on the left and then on the right.
delay 45 => Some(5)
first => Some((20, 4))
ticks => 12
// What takes the place of a removed one stays there, or sinks.
remove 1 => Some(50)
ticks => 13
remove 4 => Some(20)
remove 3 => Some(30)
remove 2 => Some(40)
remove 5 => Some(45)
ticks => 16
// It may have to rise.
insert 1 1 | insert 2 10 | insert 3 2 | insert 4 11 | insert 5 12 | insert 6 3 | insert 7 4 => None
ticks => 22
remove 4 => Some(11)
ticks => 25
remove 1 => Some(1)
first => Some((2, 3))
remove 3 => Some(2)
first => Some((3, 6))
remove 6 => Some(3)
first => Some((4, 7))
remove 7 => Some(4)
first => Some((10, 2))
ticks => 32
// The greatest number at the greatest moment.
insert 18446744073709551615 18446744073709551615 => None
remove 18446744073709551615 => Some(18446744073709551615)
remove 2 => Some(10)
first => Some((12, 5))
remove 5 => Some(12)
first => None
ticks => 33
";

/// Each call is told as its line says. One that finds no memory changes nothing, and is made again: so this
/// passes with ample memory, and under `rt try --test --fail-alloc N`, which refuses the Nth allocation.
#[test]
fn refused_memory(rt: HostRuntime) -> Result<(), Fail> {
    let alloc = rt.alloc();
    let mut talk = (DeadlineHeap::new(alloc), Ticks::new(&rt));
    for line in CALLS.lines().filter(|line| !line.starts_with("//")) {
        let (calls, wanted) = line.split_once(" => ").unwrap_or((line, ""));
        for call in calls.split(" | ") {
            let told = match told(alloc, &mut talk, call) {
                Err(Fault::OutOfMemory) => told(alloc, &mut talk, call),
                told => told,
            };
            let told = match &told {
                Ok(text) => text.as_str(),
                Err(fault) => fault.name(),
            };
            assert_eq!(rt; told, wanted, "{call}");
        }
    }
    Ok(())
}

/// Each number that is put in by falling moment rises to the top of a heap, by 7,987 comparisons for a thousand: one that makes
/// some of them by other means than the counter's would count less.
#[test]
fn falling_moments(rt: HostRuntime) -> Result<(), Fail> {
    let alloc = rt.alloc();
    let mut talk = (DeadlineHeap::new(alloc), Ticks::new(&rt));
    for number in 0..1000 {
        let _none = inserted(alloc, &mut talk, number, 1000 - number)?;
    }
    assert!(rt; talk.1.count() >= 7_900);
    assert_eq!(rt; talk.0.first(), Some((1, 999)));
    Ok(())
}

/// By rising moment none rises, which takes one comparison each, and in mixed order 2,278 are made in all: each moment comes
/// once, as 617 and 1000 have no common factor.
#[test]
fn rising_and_mixed_moments(rt: HostRuntime) -> Result<(), Fail> {
    let alloc = rt.alloc();
    for (factor, least) in [(1, 999), (617, 2_200)] {
        let mut talk = (DeadlineHeap::new(alloc), Ticks::new(&rt));
        for number in 0..1000_u64 {
            let moment = number.wrapping_mul(factor) % 1000;
            let _none = inserted(alloc, &mut talk, number, moment)?;
        }
        assert!(rt; talk.1.count() >= least);
        assert_eq!(rt; talk.0.first(), Some((0, 0)));
    }
    Ok(())
}
