//! What each event counts as, the minutes of times, the borders of the window and what a window keeps,
//! with numbers that were worked out by hand.

use super::*;
use journal::{Base, Entry, Event, KeptFlows, Moment, Numbers, Origin, Parts};
use message::{Content, Fault, MessageId, QueueName};
use queue_config::Settings;
use std::alloc::Global;
use std::test::Fail;

/// The time of the milliseconds that a text is.
fn moment(text: &str) -> Result<Moment, Fail> {
    let milliseconds = text.parse::<u64>().ok().ok_or("a number")?;
    Ok(Moment::new(milliseconds).ok_or("a time in range")?)
}

/// A checkpoint that keeps no message, and of its minute 1 sent, with 20 bytes, 3 received, 4 empty
/// receives, 5 deleted, 6 refused and 7 arrived.
fn checkpoint(alloc: Global) -> Result<Event<Content>, Fault> {
    let flows = KeptFlows {
        sent: 1,
        sent_size: 20,
        received: 3,
        empty_receives: 4,
        deleted: 5,
        refused: 6,
        dead_letters_arrived: 7,
    };
    let parts = Parts {
        uid: 1,
        settings: Settings::default(),
        created: Moment::zero(),
        modified: Moment::zero(),
        receives: Vec::new(alloc),
        accepted: Vec::new(alloc),
        messages: Vec::new(alloc),
        rows: Vec::new(alloc),
        flows,
    };
    Ok(Event::Base(Base::new(alloc, parts)?))
}

/// The event that a word says, of the body hello where it has one. `receive-` is a receive that offers a
/// message for each `o` behind it, and by which one leaves for each `l`.
fn event(alloc: Global, word: &str) -> Result<Event<Content>, Fault> {
    let (settings, number, timeout) = (Settings::default(), 0, 0);
    let content = Content::new(alloc, String::from_str(alloc, "hello")?, Vec::new(alloc))?;
    let origin = Origin {
        uid: 2,
        number,
        name: QueueName::read("jobs")?,
        id: MessageId { uid: 2, number },
        sent: Moment::zero(),
    };
    let fault = Fault::ReceiptHandleIsInvalid;
    if let Some(letters) = word.strip_prefix("receive-") {
        let (mut offered, mut leaving) = (Numbers::new(alloc), Numbers::new(alloc));
        for letter in letters.chars() {
            if letter == 'o' {
                offered.push(alloc, 7)?;
            } else {
                leaving.push(alloc, 7)?;
            }
        }
        let target = 0;
        return Ok(Event::Received {
            timeout,
            offered,
            leaving,
            target,
        });
    }
    match word {
        "opened" => Ok(Event::Opened { uid: 1, settings }),
        "sent" => Ok(Event::Sent { delay: 0, content }),
        "arrived" => Ok(Event::Arrived { origin, content }),
        "changed" => Ok(Event::Changed { number, timeout }),
        "deleted" => Ok(Event::Deleted { number }),
        "again" => Ok(Event::DeletedAgain),
        "purged" => Ok(Event::Purged),
        "set" => Ok(Event::Set { settings }),
        "settled" => Ok(Event::Settled { number }),
        "orphaned" => Ok(Event::Orphaned { target: 1 }),
        "refused" => Ok(Event::Refused { fault }),
        "closed" => Ok(Event::Closed),
        "base" => checkpoint(alloc),
        _ => Err(Fault::UnsupportedOperation),
    }
}

/// What is told of a text: a minute; a window, and which of four minutes it has; or what events count as,
/// from no flows on or from flows that are nearly as great as may be.
fn told(alloc: Global, text: &str) -> Result<String, Fail> {
    let (verb, rest) = text.split_once(' ').ok_or("what is asked")?;
    if verb == "minute" {
        return Ok(format!(in alloc; "{}", minute_of(moment(rest)?))?);
    }
    if verb == "window" {
        let (created, clock) = rest.split_once(' ').ok_or("a clock")?;
        let (created, clock) = (moment(created)?, moment(clock)?);
        let (first, end) = (window_start(created, clock), window_end(clock));
        let mut text = format!(in alloc; "{:?} {:?}", window_of(created, clock), (first, end))?;
        for minute in [first, end, u64::MAX, 0] {
            write!(text, " {}", is_in_window(created, clock, minute))?;
        }
        return Ok(text);
    }
    let mut flows = Flows::none();
    if verb == "greatest" {
        (flows.sent, flows.sent_size) = (u64::MAX - 1, u64::MAX - 4);
        flows.received = u64::MAX - 2;
    }
    for word in rest.split(' ') {
        let (at, event) = (Moment::zero(), event(alloc, word)?);
        flows = flows.with(&Entry { at, event });
    }
    Ok(format!(in alloc; "{flows:?}")?)
}

/// What is told of each text, with `|` between those of which the same is told.
const LINES: &str = "\
// Each event, and what it counts as: sent, their size, received, empty receives, deleted, refused, arrived.
none opened | none changed | none purged set settled orphaned closed => Flows { sent: 0, sent_size: 0, received: 0, empty_receives: 0, deleted: 0, refused: 0, dead_letters_arrived: 0 }
none sent => Flows { sent: 1, sent_size: 5, received: 0, empty_receives: 0, deleted: 0, refused: 0, dead_letters_arrived: 0 }
none arrived => Flows { sent: 0, sent_size: 0, received: 0, empty_receives: 0, deleted: 0, refused: 0, dead_letters_arrived: 1 }
none receive-ooo => Flows { sent: 0, sent_size: 0, received: 3, empty_receives: 0, deleted: 0, refused: 0, dead_letters_arrived: 0 }
none receive-ll => Flows { sent: 0, sent_size: 0, received: 0, empty_receives: 1, deleted: 0, refused: 0, dead_letters_arrived: 0 }
none receive-oll => Flows { sent: 0, sent_size: 0, received: 1, empty_receives: 0, deleted: 0, refused: 0, dead_letters_arrived: 0 }
none deleted | none again => Flows { sent: 0, sent_size: 0, received: 0, empty_receives: 0, deleted: 1, refused: 0, dead_letters_arrived: 0 }
none refused => Flows { sent: 0, sent_size: 0, received: 0, empty_receives: 0, deleted: 0, refused: 1, dead_letters_arrived: 0 }
// A checkpoint counts as what it keeps of its minute.
none base => Flows { sent: 1, sent_size: 20, received: 3, empty_receives: 4, deleted: 5, refused: 6, dead_letters_arrived: 7 }
none arrived base sent => Flows { sent: 2, sent_size: 25, received: 3, empty_receives: 4, deleted: 5, refused: 6, dead_letters_arrived: 8 }
none sent receive-ooo receive-ll sent again refused arrived deleted => Flows { sent: 2, sent_size: 10, received: 3, empty_receives: 1, deleted: 2, refused: 1, dead_letters_arrived: 1 }
// A number stays at 2^64 - 1.
greatest base => Flows { sent: 18446744073709551615, sent_size: 18446744073709551615, received: 18446744073709551615, empty_receives: 4, deleted: 5, refused: 6, dead_letters_arrived: 7 }
greatest sent receive-ooo sent => Flows { sent: 18446744073709551615, sent_size: 18446744073709551615, received: 18446744073709551615, empty_receives: 0, deleted: 0, refused: 0, dead_letters_arrived: 0 }
// A minute has 60,000 milliseconds.
minute 0 | minute 59999 => 0
minute 60000 | minute 119999 => 1
minute 4611686018427387903 => 76861433640456
// The window begins with the minute of the creation, moves on after 180 minutes, and ends before the clock's
// minute. Whether it has its first minute, the one that ends it, the greatest number and 0.
window 0 0 => (0, 0) (0, 0) false false false false
window 59999 60000 => (0, 1) (0, 1) true false false true
window 120000 179999 => (2, 2) (2, 2) false false false false
window 0 10800000 => (0, 180) (0, 180) true false false true
window 0 10860000 => (1, 181) (1, 181) true false false false
window 0 18000000 => (120, 300) (120, 300) true false false false
window 17000000 18000000 => (283, 300) (283, 300) true false false false
";

/// Each text is told as its line says.
#[test]
fn lines(rt: HostRuntime) -> Result<(), Fail> {
    for line in LINES.lines().filter(|line| !line.starts_with("//")) {
        let (texts, wanted) = line.split_once(" => ").ok_or("what is told")?;
        for text in texts.split(" | ") {
            let told = told(rt.alloc(), text)?;
            assert_eq!(rt; told.as_str(), wanted, "{text}");
        }
    }
    assert_eq!(rt; Flows::default(), Flows::none());
    assert_eq!(rt; LONGEST_WINDOW, 180);
    Ok(())
}

/// The number that a text is.
fn number(text: &str) -> Result<u64, Fault> {
    text.parse::<u64>().map_err(|_| Fault::UnsupportedOperation)
}

/// Closes so many minutes with counts and an age, which grows by so many seconds from one to the next.
fn close_minutes(window: &mut Window, numbers: &str) -> Result<(), Fault> {
    let mut words = numbers.split(' ');
    let count = number(words.next().unwrap_or(""))?;
    let mut gauges = Gauges {
        visible: number(words.next().unwrap_or(""))?,
        delayed: number(words.next().unwrap_or(""))?,
        in_flight: number(words.next().unwrap_or(""))?,
        age: number(words.next().unwrap_or(""))?,
    };
    let growth = number(words.next().unwrap_or("0"))?;
    for _ in 0..count {
        window.close_minute(gauges);
        gauges.age = gauges.age.saturating_add(growth);
    }
    Ok(())
}

/// Skips to a minute, where that is a later one.
fn skip(window: &mut Window, minute: u64) -> Result<(), Fault> {
    if minute <= window.span().1 {
        return Err(Fault::InvalidParameterValue);
    }
    window.skip_to(minute);
    Ok(())
}

/// Writes the seven numbers of flows.
fn write_flows(text: &mut String, flows: Flows) -> Result<(), Fault> {
    let (sent, size) = (flows.sent, flows.sent_size);
    write!(
        text,
        "{sent} {size} {} {}",
        flows.received, flows.empty_receives
    )?;
    let (deleted, refused) = (flows.deleted, flows.refused);
    write!(text, " {deleted} {refused} {}", flows.dead_letters_arrived)?;
    Ok(())
}

/// Writes a row: its minute, its flows, and its counts and age.
fn write_row(text: &mut String, row: Option<Row>) -> Result<(), Fault> {
    let Some(row) = row else {
        write!(text, "none")?;
        return Ok(());
    };
    write!(text, "{}: ", row.minute)?;
    write_flows(text, row.flows)?;
    let (visible, delayed) = (row.gauges.visible, row.gauges.delayed);
    let (in_flight, age) = (row.gauges.in_flight, row.gauges.age);
    write!(text, ", {visible} {delayed} {in_flight} {age}")?;
    Ok(())
}

/// Does what a call says of a window, and gives what is told. The text has its memory first, so that the
/// call can be made again where memory is refused.
fn told_of(alloc: Global, talk: &mut Option<Window>, call: &str) -> Result<String, Fault> {
    let mut text = String::with_capacity(alloc, 300)?;
    let (verb, rest) = call.split_once(' ').unwrap_or((call, "0"));
    if verb == "open" {
        *talk = Some(Window::open(alloc, number(rest)?)?);
        return Ok(text);
    }
    let window = talk.as_mut().ok_or(Fault::UnsupportedOperation)?;
    match verb {
        "count" => {
            let (at, event) = (Moment::zero(), event(alloc, rest)?);
            window.count(&Entry { at, event });
        }
        "close" => close_minutes(window, rest)?,
        "skip" => skip(window, number(rest)?)?,
        "minute" => write_row(&mut text, window.row(number(rest)?))?,
        "span" => write!(text, "{:?}", window.span())?,
        _ => write_flows(&mut text, window.current())?,
    }
    Ok(text)
}

/// What is told of each call, with `|` between calls that are told the same; nothing of those that change
/// the window. `minute` asks for the row of one. `close` says how many minutes, the messages visible,
/// delayed and in flight, the age and by how much that grows.
const CALLS: &str = "\
// Two messages are sent and received in minute 0, and then nothing comes until minute 300: so 120 minutes
// are skipped. At the end of minute 120 one message is visible again, at the end of the next one both are,
// and in minute 200 they are gone.
open 0 | count sent | count sent | count receive-o | count receive-o
current => 2 10 2 0 0 0 0
span => (0, 0)
minute 0 => none
skip 120
current => 0 0 0 0 0 0 0
span => (120, 120)
minute 0 | minute 119 | minute 120 => none
close 1 1 0 1 7259 | close 79 2 0 0 7319 60 | close 100 0 0 0 0
span => (120, 300)
minute 120 => 120: 0 0 0 0 0 0 0, 1 0 1 7259
minute 121 => 121: 0 0 0 0 0 0 0, 2 0 0 7319
minute 199 => 199: 0 0 0 0 0 0 0, 2 0 0 11999
minute 200 => 200: 0 0 0 0 0 0 0, 0 0 0 0
minute 299 => 299: 0 0 0 0 0 0 0, 0 0 0 0
minute 0 | minute 119 | minute 300 | minute 18446744073709551615 => none
// Where nothing comes for 180 minutes, none is skipped: what came before still has its row, and a minute
// later it has none.
open 5 | count sent | count deleted | count receive-l
current => 1 5 0 1 1 0 0
close 180 0 0 0 0
span => (5, 185)
minute 5 => 5: 1 5 0 1 1 0 0, 0 0 0 0
minute 6 => 6: 0 0 0 0 0 0 0, 0 0 0 0
count refused | close 1 3 2 1 9
span => (6, 186)
minute 5 => none
minute 6 => 6: 0 0 0 0 0 0 0, 0 0 0 0
minute 185 => 185: 0 0 0 0 0 1 0, 3 2 1 9
current => 0 0 0 0 0 0 0
// Rows go by a skip, and so does what was counted. No minute is skipped back to.
count arrived | count base
current => 1 20 3 4 5 6 8
skip 187
span => (187, 187)
minute 185 | minute 186 => none
current => 0 0 0 0 0 0 0
skip 187 | skip 0 => InvalidParameterValue
// The greatest minute does not end.
open 18446744073709551614 | count refused | close 1 0 0 0 0 | count arrived | close 2 1 1 1 1
span => (18446744073709551614, 18446744073709551615)
minute 18446744073709551614 => 18446744073709551614: 0 0 0 0 0 1 0, 0 0 0 0
minute 18446744073709551615 | minute 0 => none
current => 0 0 0 0 0 0 1
";

/// Each call is told as its line says. One that finds no memory changes nothing, and is made again: so this
/// passes with ample memory, and under `rt try --test --fail-alloc N`, which refuses the Nth allocation.
#[test]
fn refused_memory(rt: HostRuntime) -> Result<(), Fail> {
    let alloc = rt.alloc();
    let mut talk = None;
    for line in CALLS.lines().filter(|line| !line.starts_with("//")) {
        let (calls, wanted) = line.split_once(" => ").unwrap_or((line, ""));
        for call in calls.split(" | ") {
            let told = match told_of(alloc, &mut talk, call) {
                Err(Fault::OutOfMemory) => told_of(alloc, &mut talk, call),
                told => told,
            };
            let told = match &told {
                Ok(text) => text.as_str(),
                Err(fault) => fault.name(),
            };
            assert_eq!(rt; told, wanted, "{call}");
        }
    }
    Ok(())
}
