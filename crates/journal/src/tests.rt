//! Talks with journals, by answers worked out by hand: the borders of times and of a journal's limit, each
//! call once, and once more where its memory is refused.

use super::*;
use message::{Content, Fault, MessageId, QueueName};
use queue_config::Settings;
use std::alloc::Global;
use std::fmt::Debug;
use std::test::Fail;

/// The number that a text is.
fn number(text: &str) -> Result<u64, Fault> {
    text.parse::<u64>().map_err(|_| Fault::UnsupportedOperation)
}

/// The pair of a moment and a number that a text is.
fn pair(text: &str) -> Result<(u64, u64), Fault> {
    let (moment, rest) = text.split_once(' ').unwrap_or((text, ""));
    Ok((number(moment)?, number(rest)?))
}

/// The time of the milliseconds that a text is.
fn moment(text: &str) -> Result<Moment, Fault> {
    Moment::new(number(text)?).ok_or(Fault::InvalidParameterValue)
}

/// The list of the numbers of a text, with commas between them; `-` has none. A push that finds no memory
/// leaves the list as it was, and the same push comes again, which is counted.
fn numbers(alloc: Global, text: &str, refused: &mut u32) -> Result<Numbers, Fault> {
    let mut numbers = Numbers::new(alloc);
    for part in text.split(',').filter(|part| *part != "-") {
        if numbers.push(alloc, number(part)?).is_err() {
            *refused = refused.saturating_add(1);
            numbers.push(alloc, number(part)?)?;
        }
    }
    Ok(numbers)
}

/// The event that a text tells: a body that was sent; a timeout, what a receive offers, what leaves by it
/// and for which queue; the number of a message that was deleted; or the end.
fn event(alloc: Global, text: &str, refused: &mut u32) -> Result<Event<Content>, Fault> {
    let (verb, rest) = text.split_once(' ').unwrap_or((text, ""));
    let mut words = rest.split(' ');
    let first = words.next().unwrap_or("");
    Ok(match verb {
        "sent" => Event::Sent {
            delay: 7,
            content: Content::new(alloc, String::from_str(alloc, first)?, Vec::new(alloc))?,
        },
        "received" => Event::Received {
            timeout: u32::try_from(number(first)?).unwrap_or(0),
            offered: numbers(alloc, words.next().unwrap_or(""), refused)?,
            leaving: numbers(alloc, words.next().unwrap_or(""), refused)?,
            target: number(words.next().unwrap_or(""))?,
        },
        "deleted" => Event::Deleted {
            number: number(first)?,
        },
        _ => Event::Closed,
    })
}

/// The message of a number, as a checkpoint keeps it: one of an odd number came from another queue, had
/// expired, and waits for the queue of uid 9.
fn kept(alloc: Global, number: u64) -> Result<KeptMessage<Content>, Fault> {
    let waits = number % 2 == 1;
    let origin = Origin {
        uid: 2,
        number: 8,
        name: QueueName::read("jobs")?,
        id: MessageId { uid: 2, number: 8 },
        sent: Moment::zero(),
    };
    Ok(KeptMessage {
        number,
        came: moment("11")?,
        sent: moment("5")?,
        due: u64::MAX,
        is_expired: waits,
        is_returned: !waits,
        first_receive: Some(moment("12")?),
        last_receive: moment("13")?,
        origin: if waits { Some(origin) } else { None },
        content: Content::new(alloc, String::from_str(alloc, "text")?, Vec::new(alloc))?,
        target: if waits { Some(9) } else { None },
    })
}

/// A checkpoint of queue 3 that keeps the messages of the numbers of a text, with commas between them; `-`
/// has none.
fn base(alloc: Global, text: &str) -> Result<Base<Content>, Fault> {
    let mut messages = Vec::new(alloc);
    for part in text.split(',').filter(|part| *part != "-") {
        messages.push(kept(alloc, number(part)?)?)?;
    }
    let flows = KeptFlows {
        sent: 1,
        sent_size: 2,
        received: 3,
        empty_receives: 4,
        deleted: 5,
        refused: 6,
        dead_letters_arrived: 7,
    };
    let row = KeptRow {
        minute: 8,
        flows,
        visible: 9,
        delayed: 10,
        in_flight: 11,
        age: 12,
    };
    let settings = Settings {
        delay_seconds: 5,
        ..Settings::default()
    };
    let parts = Parts {
        uid: 3,
        settings,
        created: moment("10")?,
        modified: moment("20")?,
        receives: vec![in alloc; 0, 1, u64::MAX]?,
        accepted: vec![in alloc;
            TransferKey { uid: 7, number: 4 },
            TransferKey { uid: 7, number: 0 },
        ]?,
        messages,
        rows: vec![in alloc; row]?,
        flows,
    };
    Base::new(alloc, parts)
}

/// Tells what a checkpoint says, and of each message that it keeps.
fn tell_base<C: Debug>(text: &mut String, base: &Base<C>) -> Result<(), Fault> {
    let created = base.created().milliseconds();
    let modified = base.modified().milliseconds();
    let delay = base.settings().delay_seconds;
    write!(
        text,
        "queue {}, delay {delay}, {created} {modified}, ",
        base.uid()
    )?;
    write!(text, "{:?} {:?} ", base.receives(), base.accepted())?;
    write!(text, "{:?} {:?}", base.rows(), base.flows())?;
    for message in base.messages() {
        tell_kept(text, message)?;
    }
    Ok(())
}

/// Tells of a message that a checkpoint keeps: its content, its times, and how it stands.
fn tell_kept<C: Debug>(text: &mut String, message: &KeptMessage<C>) -> Result<(), Fault> {
    let (came, sent) = (message.came.milliseconds(), message.sent.milliseconds());
    let first = message
        .first_receive
        .unwrap_or(Moment::zero())
        .milliseconds();
    let last = message.last_receive.milliseconds();
    write!(
        text,
        "; {} {:?}, {came} {sent} ",
        message.number, message.content
    )?;
    write!(text, "{first} {last} {}, ", message.due)?;
    write!(text, "{} {} ", message.is_expired, message.is_returned)?;
    write!(text, "{} {:?}", message.origin.is_some(), message.target)?;
    Ok(())
}

/// Tells the time and the event of a line, where there is one.
fn tell(text: &mut String, line: Option<&Line>) -> Result<(), Fault> {
    match line {
        Some(Entry { at, event }) => Ok(write!(text, "{} {event:?}; ", at.milliseconds())?),
        None => Ok(text.push_str("none; ")?),
    }
}

/// Does what a call says of a journal and a count of ticks, and gives what is told. The text has its memory
/// first, so that the call can be made again where memory is refused; the third of a talk is how often it was.
fn told(alloc: Global, talk: &mut (Journal, Ticks, u32), call: &str) -> Result<String, Fault> {
    let (journal, ticks, refused) = talk;
    let mut text = String::with_capacity(alloc, 2000)?;
    let (verb, rest) = call.split_once(' ').unwrap_or((call, ""));
    match verb {
        "later" => {
            let (one, other) = rest.split_once(' ').unwrap_or((rest, ""));
            let (one, other) = (moment(one)?, moment(other)?);
            let later = one.later(other).milliseconds();
            write!(text, "{later} {} {}", one < other, one > other)?;
        }
        "before" => {
            let (one, other) = rest.split_once(" and ").unwrap_or((rest, ""));
            write!(text, "{}", ticks.before(pair(one)?, pair(other)?))?;
        }
        "journal" => *journal = Journal::new(alloc, number(rest)? as usize)?,
        "reserved" => {
            let (at, rest) = rest.split_once(' ').unwrap_or((rest, ""));
            let (at, event) = (moment(at)?, event(alloc, rest, refused)?);
            let mut fresh = Journal::new(alloc, 2)?;
            fresh.reserve(alloc, 2)?;
            fresh.push_reserved(Entry { at, event });
            *journal = fresh;
        }
        "read" => {
            for place in rest.split(' ') {
                let line = journal.line(number(place)? as usize, ticks);
                tell(&mut text, line)?;
            }
            write!(text, "{} lines, {} ticks", journal.len(), ticks.count())?;
        }
        "marks" => {
            let marks = journal.marks(alloc, number(rest)? as usize, ticks)?;
            let (count, cost) = (marks.len(), ticks.count());
            write!(text, "{:?} of {count}, {cost} ticks", marks.as_slice())?;
        }
        "rebase" => {
            let (at, rest) = rest.split_once(' ').unwrap_or((rest, ""));
            let (at, base) = (moment(at)?, base(alloc, rest)?);
            journal.rebase(alloc, at, base)?;
        }
        "weight" => write!(text, "{} of {}", journal.weight(), journal.len())?,
        "shown" => write!(text, "{:?}", &*journal)?,
        "base" => {
            if let Some(Entry { at, event }) = journal.line(0, ticks)
                && let Event::Base(base) = event
            {
                write!(text, "{} ", at.milliseconds())?;
                tell_base(&mut text, base)?;
            }
        }
        "mark" => {
            let marks = journal.marks(alloc, 0, ticks)?;
            if let [Entry { at, event }, ..] = marks.as_slice()
                && let Event::Base(base) = event
            {
                write!(text, "{} ", at.milliseconds())?;
                tell_base(&mut text, base)?;
            }
        }
        at => {
            let (at, event) = (moment(at)?, event(alloc, rest, refused)?);
            journal.push(alloc, Entry { at, event })?;
        }
    }
    Ok(text)
}

/// What is told of each call, with `|` between calls that are told the same; nothing of a new journal with
/// a limit, nor of one that takes two lines and has one at a reserved place, nor of a push that is done. Ticks are
/// counted on.
const CALLS: &str = "\
// Times end before 2^62 milliseconds. The later of two, and whether it is the second or the first.
later 0 1 => 1 true false
later 3 5 => 5 true false
later 5 3 => 5 false true
later 5 5 => 5 false false
later 4611686018427387902 4611686018427387903 => 4611686018427387903 true false
later 4611686018427387902 0 => 4611686018427387902 false true
later 0 4611686018427387904 | later 0 9223372036854775808 | later 0 18446744073709551615 => InvalidParameterValue
// A journal takes as many lines as its limit says, and then answers JournalFull as often as it is asked.
// Reading a place costs one tick, also where there is no line.
journal 0
20 deleted 99 | 20 deleted 99 => JournalFull
read 0 18446744073709551615 => none; none; 0 lines, 2 ticks
journal 1 | 10 deleted 0
20 deleted 99 | 20 deleted 99 => JournalFull
read 0 1 18446744073709551615 => 10 Deleted { number: 0 }; none; none; 1 lines, 5 ticks
journal 9 | 10 deleted 0 | 10 deleted 1 | 10 deleted 2 | 10 deleted 3 | 10 deleted 4 | 10 deleted 5 | 10 deleted 6 | 10 deleted 7 | 10 deleted 8
20 deleted 99 | 20 deleted 99 => JournalFull
read 0 1 2 3 4 5 6 7 8 9 18446744073709551615 => 10 Deleted { number: 0 }; 10 Deleted { number: 1 }; 10 Deleted { number: 2 }; 10 Deleted { number: 3 }; 10 Deleted { number: 4 }; 10 Deleted { number: 5 }; 10 Deleted { number: 6 }; 10 Deleted { number: 7 }; 10 Deleted { number: 8 }; none; none; 9 lines, 16 ticks
// There are as many marks as lines from a place on, each for one tick, and none past the end.
journal 3 | 10 deleted 0 | 10 deleted 1 | 10 deleted 2
20 deleted 99 | 20 deleted 99 => JournalFull
read 0 1 2 3 18446744073709551615 => 10 Deleted { number: 0 }; 10 Deleted { number: 1 }; 10 Deleted { number: 2 }; none; none; 3 lines, 21 ticks
marks 0 => [Entry { at: Moment { milliseconds: 10 }, event: Deleted { number: 0 } }, Entry { at: Moment { milliseconds: 10 }, event: Deleted { number: 1 } }, Entry { at: Moment { milliseconds: 10 }, event: Deleted { number: 2 } }] of 3, 24 ticks
marks 2 => [Entry { at: Moment { milliseconds: 10 }, event: Deleted { number: 2 } }] of 1, 25 ticks
marks 3 | marks 4 | marks 18446744073709551615 => [] of 0, 25 ticks
// A mark has the size of a content in its place, and all else as the line has it, each number as often.
journal 5 | 0 sent text | 0 received 30 3,1 - 0 | 0 received 0 - 1 7 | 0 closed | 0 received 30 5,3,5,0,18446744073709551615,1,2,4,9,8,7,5 - 0
read 0 1 => 0 Sent { delay: 7, content: Content { parts: Parts { body: \"text\", attributes: [], size: 4 } } }; 0 Received { timeout: 30, offered: Numbers { numbers: [3, 1] }, leaving: Numbers { numbers: [] }, target: 0 }; 5 lines, 27 ticks
marks 0 => [Entry { at: Moment { milliseconds: 0 }, event: Sent { delay: 7, content: 4 } }, Entry { at: Moment { milliseconds: 0 }, event: Received { timeout: 30, offered: Numbers { numbers: [3, 1] }, leaving: Numbers { numbers: [] }, target: 0 } }, Entry { at: Moment { milliseconds: 0 }, event: Received { timeout: 0, offered: Numbers { numbers: [] }, leaving: Numbers { numbers: [1] }, target: 7 } }, Entry { at: Moment { milliseconds: 0 }, event: Closed }, Entry { at: Moment { milliseconds: 0 }, event: Received { timeout: 30, offered: Numbers { numbers: [5, 3, 5, 0, 18446744073709551615, 1, 2, 4, 9, 8, 7, 5] }, leaving: Numbers { numbers: [] }, target: 0 } }] of 5, 32 ticks
// Pairs go by the moment, and by the number where the moments are equal. A comparison costs one tick.
before 4 9 and 5 0 | before 5 0 and 5 1 | before 0 18446744073709551615 and 18446744073709551615 0 => true
before 5 0 and 4 9 | before 5 1 and 5 0 | before 5 1 and 5 1 => false
// A line at a reserved place stands as one that was pushed, and counts for the limit.
reserved 10 deleted 4
read 0 1 => 10 Deleted { number: 4 }; none; 1 lines, 40 ticks
20 deleted 5
20 deleted 99 | 20 deleted 99 => JournalFull
read 1 => 20 Deleted { number: 5 }; 2 lines, 41 ticks
weight => 2 of 2
// A journal can be shown without a tick, but not what its lines are.
shown => Journal { len: 2, weight: 2, limit: 2, .. }
// A checkpoint takes the place of all lines, and weighs 1 more than the messages that it keeps.
rebase 30 2,5
weight => 3 of 1
base => 30 queue 3, delay 5, 10 20, [0, 1, 18446744073709551615] [TransferKey { uid: 7, number: 4 }, TransferKey { uid: 7, number: 0 }] [KeptRow { minute: 8, flows: KeptFlows { sent: 1, sent_size: 2, received: 3, empty_receives: 4, deleted: 5, refused: 6, dead_letters_arrived: 7 }, visible: 9, delayed: 10, in_flight: 11, age: 12 }] KeptFlows { sent: 1, sent_size: 2, received: 3, empty_receives: 4, deleted: 5, refused: 6, dead_letters_arrived: 7 }; 2 Content { parts: Parts { body: \"text\", attributes: [], size: 4 } }, 11 5 12 13 18446744073709551615, false true false None; 5 Content { parts: Parts { body: \"text\", attributes: [], size: 4 } }, 11 5 12 13 18446744073709551615, true false true Some(9)
read 1 => none; 1 lines, 43 ticks
// Its mark has the sizes of the contents, and all else as it stands there. It costs one operation, as that of any line does.
mark => 30 queue 3, delay 5, 10 20, [0, 1, 18446744073709551615] [TransferKey { uid: 7, number: 4 }, TransferKey { uid: 7, number: 0 }] [KeptRow { minute: 8, flows: KeptFlows { sent: 1, sent_size: 2, received: 3, empty_receives: 4, deleted: 5, refused: 6, dead_letters_arrived: 7 }, visible: 9, delayed: 10, in_flight: 11, age: 12 }] KeptFlows { sent: 1, sent_size: 2, received: 3, empty_receives: 4, deleted: 5, refused: 6, dead_letters_arrived: 7 }; 2 4, 11 5 12 13 18446744073709551615, false true false None; 5 4, 11 5 12 13 18446744073709551615, true false true Some(9)
read 1 => none; 1 lines, 45 ticks
// A limit is one of weight.
journal 4 | rebase 30 2,5 | 40 deleted 5
weight => 4 of 2
50 deleted 99 | 50 deleted 99 => JournalFull
marks 1 => [Entry { at: Moment { milliseconds: 40 }, event: Deleted { number: 5 } }] of 1, 46 ticks
rebase 60 -
weight => 1 of 1
mark => 60 queue 3, delay 5, 10 20, [0, 1, 18446744073709551615] [TransferKey { uid: 7, number: 4 }, TransferKey { uid: 7, number: 0 }] [KeptRow { minute: 8, flows: KeptFlows { sent: 1, sent_size: 2, received: 3, empty_receives: 4, deleted: 5, refused: 6, dead_letters_arrived: 7 }, visible: 9, delayed: 10, in_flight: 11, age: 12 }] KeptFlows { sent: 1, sent_size: 2, received: 3, empty_receives: 4, deleted: 5, refused: 6, dead_letters_arrived: 7 }
70 deleted 5 | 70 deleted 6 | 70 deleted 7
weight => 4 of 4
80 deleted 99 | 80 deleted 99 => JournalFull
// A checkpoint is taken past the limit too, and no line behind it.
rebase 90 1,2,3,4
weight => 5 of 1
95 deleted 99 | 95 deleted 99 => JournalFull
journal 0 | rebase 0 -
weight => 1 of 1
0 deleted 99 => JournalFull
";

/// Each call is told as its line says, twice from the start. One that finds no memory changes nothing, and is made
/// again, which is forgiven once: so this passes with ample memory, where a call that gave up would do so twice, and
/// under `rt try --test --fail-alloc N`, which refuses the Nth allocation.
#[test]
fn refused_memory(rt: HostRuntime) -> Result<(), Fail> {
    let alloc = rt.alloc();
    let mut refused = 0;
    for _ in 0..2 {
        let mut talk = (Journal::new(alloc, 0)?, Ticks::new(&rt), refused);
        for line in CALLS.lines().filter(|line| !line.starts_with("//")) {
            let (calls, wanted) = line.split_once(" => ").unwrap_or((line, ""));
            for call in calls.split(" | ") {
                let told = match told(alloc, &mut talk, call) {
                    Err(Fault::OutOfMemory) => {
                        talk.2 = talk.2.saturating_add(1);
                        told(alloc, &mut talk, call)
                    }
                    told => told,
                };
                let told = match &told {
                    Ok(text) => text.as_str(),
                    Err(fault) => fault.name(),
                };
                assert_eq!(rt; told, wanted, "{call}");
            }
        }
        refused = talk.2;
    }
    assert!(rt; refused <= 1);
    assert!(rt; Marks::new(alloc).as_slice().is_empty());
    assert_eq!(rt; Moment::zero().milliseconds(), 0);
    Ok(())
}
