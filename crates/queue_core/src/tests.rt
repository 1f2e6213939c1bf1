//! What only the queue itself can be asked, by answers worked out by hand, and what a refused allocation
//! leaves. What a client can ask and see stands in the stored runs of `sqs_replay`.

mod answers;
mod full;
mod many;
mod talk;

use super::*;
use journal::{Moment, Origin, Ticks};
use message::{Content, Fault, MessageId, QueueName};
use queue_config::{AlarmRule, Limits, Metric, Operator, Settings, Wish};
use receipt_handle::Handle;
use std::alloc::Global;
use std::fmt::Debug;
use std::test::Fail;
use talk::Talk;

/// Two queues with a dead-letter queue, one of which may have eight entries.
const OPENED: [&str; 2] = [
    r#"open 99 0 RedrivePolicy {"deadLetterTargetArn":"arn:aws:sqs:elasticmq:000000000000:dead","maxReceiveCount":1}"#,
    r#"open 8 0 RedrivePolicy {"deadLetterTargetArn":"arn:aws:sqs:elasticmq:000000000000:dead","maxReceiveCount":1}"#,
];

/// What makes such a queue one of eight entries, and the calls whose entry is the ninth, for which the journal grows or, where it is
/// at its limit, is made anew.
const FIRST: &str =
    "1000 send 1 a => Sent(Posted { number: 0, id: MessageId { uid: 2, number: 0 } })
1000 send 1 b => Sent(Posted { number: 1, id: MessageId { uid: 2, number: 1 } })
1000 send 1 c => Sent(Posted { number: 2, id: MessageId { uid: 2, number: 2 } })
1000 receive 1 0 => offered 0.1 a
1001 receive 1 30 => offered 1.1 b
1001 set MaximumMessageSize 1024 => Done
1001 set DelaySeconds 0 => Done
";

const NINTH: &str =
    "1002 send 1 d => Sent(Posted { number: 3, id: MessageId { uid: 2, number: 3 } })
1002 send 1025 d => InvalidParameterValue
1002 receive 2 30 => offered 2.1 c
1002 change 1.1 9 => Done
1002 change 1.2 9 => ReceiptHandleIsInvalid
1002 delete 1.1 => Done
1002 delete 1.2 => ReceiptHandleIsInvalid
1002 purge => Done
1002 set DelaySeconds 1 => Done
1002 arrive 0 => Arrived(New)
1001 parcel => ((2, 0, \"jobs\", MessageId { uid: 2, number: 0 }, Moment { milliseconds: 1000 }), 1, \"a\")
1002 settle 0 => Settled(true)
1002 settle 1 => Settled(false)
1002 orphan 1 => Orphaned(1)
1002 close => Done
";

/// Room for seven entries, and the calls that take it, none of which begins a message or is a receive.
const RESERVE: &str = "reserve 7";

const WITH_ROOM: &str = "1002 change 1.1 9 => Done
1002 change 1.2 9 => ReceiptHandleIsInvalid
1002 delete 1.1 => Done
1002 purge => Done
1002 settle 0 => Settled(true)
1002 settle 0 => Settled(false)
1002 orphan 1 => Orphaned(0)
1002 close => Done
";

/// What is read of a queue that was opened in the minute 2, before and after a send in the minute 4, and two
/// minutes later.
const READINGS: &str = r#"open 99 125000 DelaySeconds 0
queue => (2, "jobs", true)
span => ((2, 2), 0)
minute 2 => None
advance 240000
240000 send 1 text => Sent(Posted { number: 0, id: MessageId { uid: 2, number: 0 } })
now => (Gauges { visible: 1, delayed: 0, in_flight: 0, age: 0 }, Flows { sent: 1, sent_size: 4, received: 0, empty_receives: 0, deleted: 0, refused: 0, dead_letters_arrived: 0 })
name 0 => "deep"
state 0 => (Some(InsufficientData), [InsufficientData])
line 1 => Some(Entry { at: Moment { milliseconds: 240000 }, event: Sent { delay: 0, content: Content { parts: Parts { body: "text", attributes: [], size: 4 } } } })
marks 1 => ([Entry { at: Moment { milliseconds: 240000 }, event: Sent { delay: 0, content: 4 } }], 2)
advance 360000
now => (Gauges { visible: 1, delayed: 0, in_flight: 0, age: 120 }, Flows { sent: 0, sent_size: 0, received: 0, empty_receives: 0, deleted: 0, refused: 0, dead_letters_arrived: 0 })
state 0 => (Some(Alarm), [Alarm])
name 1 => "none"
state 1 => (None, [Alarm])
span => ((2, 6), 4)
minute 4 => Some(Row { minute: 4, flows: Flows { sent: 1, sent_size: 4, received: 0, empty_receives: 0, deleted: 0, refused: 0, dead_letters_arrived: 0 }, gauges: Gauges { visible: 1, delayed: 0, in_flight: 0, age: 59 } })
minute 1 => None
minute 18446744073709551615 => None
"#;

/// What a queue is asked after the list of commands in `STEPS`, which was run twice.
const LOOKED: &str =
    "0 look => (Gauges { visible: 0, delayed: 0, in_flight: 0, age: 0 }, 3, 7, (0, 0), None, false)";

/// A list of two commands.
const STEPS: [&str; 2] = ["5 purge", "7 look"];

impl Talk {
    /// Has a conversation with a queue of eight entries for each call whose entry is the ninth.
    fn ninth(&mut self, rt: &HostRuntime, opened: &str) -> Result<(), Fail> {
        for last in NINTH.lines() {
            self.hold_or_again(rt, [opened, FIRST, last])?;
        }
        Ok(())
    }
}

/// Calls whose allocation is refused answer `OutOfMemory`, move the clock and nothing else of all that the queue
/// tells, and give their answers when asked again, which is forgiven once. The conversation is held once more then: with
/// ample memory, as the gate runs this, a call that gave up would do so twice. `rt try --test --fail-alloc N -- refused_memory`
/// refuses the Nth allocation.
#[test]
fn refused_memory(rt: HostRuntime) -> Result<(), Fail> {
    let mut talk = Talk::new(&rt)?;
    talk.ninth(&rt, OPENED[0])?;
    talk.hold_or_again(&rt, [READINGS, "", ""])?;
    talk.end()
}

/// The same where the journal is at its limit. So it is of `full_journals`, which is run with each allocation refused too.
#[test]
fn refused_memory_at_the_limit(rt: HostRuntime) -> Result<(), Fail> {
    let mut talk = Talk::new(&rt)?;
    talk.ninth(&rt, OPENED[1])?;
    talk.end()
}

/// A list of commands is not begun where there is no memory for its answers: the clock has not moved
/// either. This too is asked twice and forgiven once, and run with each allocation refused.
#[test]
fn refused_memory_for_answers(rt: HostRuntime) -> Result<(), Fail> {
    let mut talk = Talk::new(&rt)?;
    for _ in 0..2 {
        talk.list(STEPS)?;
    }
    talk.hold(&rt, LOOKED)?;
    talk.end()
}

/// Behind `reserve` no entry that wants no more than its place finds no memory. This too is asked twice and
/// forgiven once, and run with each allocation refused.
#[test]
fn refused_memory_with_room(rt: HostRuntime) -> Result<(), Fail> {
    let mut talk = Talk::new(&rt)?;
    for _ in 0..2 {
        talk.hold(&rt, OPENED[0])?;
        talk.hold(&rt, FIRST)?;
        talk.hold(&rt, RESERVE)?;
        talk.hold_with_room(&rt, WITH_ROOM)?;
    }
    talk.end()
}
