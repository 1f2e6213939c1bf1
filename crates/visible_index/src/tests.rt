//! Talks with an index, by answers worked out by hand, and what it costs to put many pairs in.

use super::*;
use journal::Ticks;
use message::Fault;
use std::alloc::Global;
use std::test::Fail;

/// The number that a text is.
fn number(text: &str) -> Result<u64, Fault> {
    text.parse::<u64>().map_err(|_| Fault::UnsupportedOperation)
}

/// Does what a call says of an index and a count of ticks, and gives what is told. The text has its memory
/// first, so that the call can be made again where memory is refused.
fn told(alloc: Global, talk: &mut (VisibleIndex, Ticks), call: &str) -> Result<String, Fault> {
    let (index, ticks) = talk;
    let mut text = String::with_capacity(alloc, 500)?;
    let mut words = call.split(' ');
    let verb = words.next().unwrap_or("");
    let moment = number(words.next().unwrap_or("0"))?;
    let number = number(words.next().unwrap_or("0"))?;
    match verb {
        "reserve" => index.reserve(alloc, moment as usize)?,
        "put" => {
            index.reserve(alloc, 1)?;
            index.put(moment, number, ticks);
        }
        "first" => write!(text, "{:?}", index.take_first())?,
        "remove" => write!(text, "{}", index.remove(moment, number, ticks))?,
        _ => {
            for place in 0..index.len() {
                if let Some((moment, number)) = index.get(place) {
                    write!(text, "{moment} {number}, ")?;
                }
            }
            write!(
                text,
                "{:?}, {} ticks",
                index.get(index.len()),
                ticks.count()
            )?;
        }
    }
    Ok(text)
}

/// What is told of each call, with `|` between calls that are told the same; nothing of a reserve or a
/// put. Ticks are counted on: one for the last pair, one for the first where the last is not less, those of a search by
/// halving where the first is less, and one more where `remove` finds a pair that is not less.
const CALLS: &str = "\
list => None, 0 ticks
first => None
remove 0 0 => false
// Pairs stand by moment, and by number where the moments are equal.
reserve 3 | put 5 1 | put 5 0 | put 4 9
list => 4 9, 5 0, 5 1, None, 4 ticks
// A pair is taken out once.
remove 5 0 => true
remove 5 0 | remove 9 9 => false
list => 4 9, 5 1, None, 15 ticks
// A pair may be there twice, and then goes once at a time.
put 5 1
list => 4 9, 5 1, 5 1, None, 19 ticks
// The least one is taken first, at no cost.
first => Some((4, 9))
first | first => Some((5, 1))
first => None
list => None, 19 ticks
// The greatest moments and numbers.
put 18446744073709551615 18446744073709551615 | put 0 18446744073709551615 | put 18446744073709551615 0
list => 0 18446744073709551615, 18446744073709551615 0, 18446744073709551615 18446744073709551615, None, 25 ticks
";

/// Each call is told as its line says. One that finds no memory changes nothing, and is made again: so this
/// passes with ample memory, and under `rt try --test --fail-alloc N`, which refuses the Nth allocation.
#[test]
fn refused_memory(rt: HostRuntime) -> Result<(), Fail> {
    let alloc = rt.alloc();
    let mut talk = (VisibleIndex::new(alloc), Ticks::new(&rt));
    for line in CALLS.lines().filter(|line| !line.starts_with("//")) {
        let (calls, wanted) = line.split_once(" => ").unwrap_or((line, ""));
        for call in calls.split(" | ") {
            let told = match told(alloc, &mut talk, call) {
                Err(Fault::OutOfMemory) => told(alloc, &mut talk, call),
                told => told,
            };
            let told = match &told {
                Ok(text) => text.as_str(),
                Err(fault) => fault.name(),
            };
            assert_eq!(rt; told, wanted, "{call}");
        }
    }
    Ok(())
}

/// A pair is compared with the last one and then with the first: a thousand by falling moment compare 1,998 times. An index
/// that makes some of its comparisons by other means than the counter's would count less.
#[test]
fn falling_moments(rt: HostRuntime) -> Result<(), Fail> {
    let alloc = rt.alloc();
    let (mut index, mut ticks) = (VisibleIndex::new(alloc), Ticks::new(&rt));
    for moment in (0..1000).rev() {
        index.reserve(alloc, 1)?;
        index.put(moment, 7, &mut ticks);
    }
    assert!(rt; ticks.count() >= 1_998);
    for (place, wanted) in [(0, Some((0, 7))), (999, Some((999, 7))), (1000, None)] {
        assert_eq!(rt; index.get(place), wanted, "{place}");
    }
    Ok(())
}

/// The same by rising moment, where the last one is enough, and in mixed order: each moment once, as 617 and 1000 have no
/// common factor. Whoever searches by halves for the places of a thousand pairs compares 7,987 times at least.
#[test]
fn rising_and_mixed_moments(rt: HostRuntime) -> Result<(), Fail> {
    let alloc = rt.alloc();
    for (factor, least) in [(1, 999), (617, 7_900)] {
        let (mut index, mut ticks) = (VisibleIndex::new(alloc), Ticks::new(&rt));
        for number in 0..1000_u64 {
            index.reserve(alloc, 1)?;
            index.put(number.wrapping_mul(factor) % 1000, 7, &mut ticks);
        }
        assert!(rt; ticks.count() >= least);
        for (place, wanted) in [(0, Some((0, 7))), (999, Some((999, 7))), (1000, None)] {
            assert_eq!(rt; index.get(place), wanted, "{place}");
        }
    }
    Ok(())
}
