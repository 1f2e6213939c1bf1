//! What no request can say of the registry: calls by uid, the halves of a dead letter's move, lists of
//! steps, the name directory, and refused memory. What requests can say stands in the stored runs of
//! the crate sqs_replay.
//!
//! The tests read texts. A line has a call, a queue's name or uid, a moment, and what else the call
//! takes. Behind an arrow stands its answer: the name of a refusal, or what is told of it. A look tells
//! the clock, the entries of the journal, and how many messages are visible, delayed and in flight.

mod talk;
mod told;

use crate::{Catalog, House, HouseReply, HouseRun, HouseStep, Moved, QueueMetrics};
use journal::{Moment, Ticks};
use message::{Content, Fault, QueueName};
use queue_config::{Wish, config_from_text};
use queue_core::{Command, Look, Maximum, Reply};
use std::alloc::Global;
use std::fmt::Debug;
use std::test::Fail;
use talk::{Plan, Talk};

/// A step reaches the queue of its uid alone, and time reaches all. A policy names a queue by its name
/// and its uid. No step closes a queue or moves a dead letter, whether or not its queue is there.
const STEPS: &str = r#"create jobs 0 => created 1
create dlq 0 => created 2
create jobs 0 => created 1
create other 0 RedrivePolicy={"deadLetterTargetArn":"arn:aws:sqs:::dlq","maxReceiveCount":3} => created 3
send 1 5 => sent 0
send 2 5 => sent 0
send 1 5 => sent 1
send 1 5 => JournalFull
send 9 5 => QueueDoesNotExist
close 3 5 => UnsupportedOperation
close 9 5 => QueueDoesNotExist
settle 3 5 0 => UnsupportedOperation
settle 9 5 0 => QueueDoesNotExist
orphan 3 5 1 => UnsupportedOperation
set 3 5 1 RedrivePolicy={"deadLetterTargetArn":"arn:aws:sqs:::dlq","maxReceiveCount":3} => InvalidAttributeValue
set 9 5 2 RedrivePolicy={"deadLetterTargetArn":"arn:aws:sqs:::dlq","maxReceiveCount":3} => QueueDoesNotExist
look 3 0 => 0 1 0 0 0
advance all 6 => Advanced
look 1 0 => 6 3 2 0 0
look 2 0 => 6 2 1 0 0
look 3 0 => 6 1 0 0 0
delete 2 7 => deleted 2: 7 3 0 0 0
delete 2 7 => QueueDoesNotExist
send 2 7 => QueueDoesNotExist
set 3 7 2 RedrivePolicy={"deadLetterTargetArn":"arn:aws:sqs:::dlq","maxReceiveCount":3} => InvalidAttributeValue
create dlq 7 => created 4
look 4 7 => 7 1 0 0 0
set 3 7 8 RedrivePolicy= => Performed(Done)
create other 7 RedrivePolicy= => created 3"#;

/// A parcel is handed over as often as that is asked, accepted once, and confirmed once, not before it
/// is accepted. Where its queue is gone it comes back, though that queue had accepted it.
const HALVES: &str = r#"create dlq 5 => created 1
create jobs 5 VisibilityTimeout=0 RedrivePolicy={"deadLetterTargetArn":"arn:aws:sqs:::dlq","maxReceiveCount":1} => created 2
send 2 5 => sent 0
hand 2 5 => None
receive 2 5 => offered 1
receive 2 5 => offered 0
confirm 2 5 => Confirmed(Settled(false))
hand 2 5 => Arrived
hand 2 5 => Again
confirm 2 5 => Confirmed(Settled(true))
confirm 2 5 => Confirmed(Settled(false))
hand 2 5 => None
hand 3 5 => QueueDoesNotExist
confirm 3 5 => QueueDoesNotExist
look 1 5 => 5 2 1 0 0
look 2 5 => 5 5 0 0 0
send 2 5 => sent 1
receive 2 5 => offered 1
receive 2 5 => offered 0
hand 2 5 => Arrived
delete 1 5 => deleted 1: 5 4 0 0 0
create jobs 5 RedrivePolicy= => QueueNameExists
hand 2 5 => Orphaned
hand 2 5 => None
create jobs 5 RedrivePolicy= => created 2
look 2 5 => 5 9 1 0 0"#;

/// Two configured queues with journals of four entries.
const SMALL: &str = r#"[limits]
max_lines = 4

[[queue]]
name = "dead"

[[queue]]
name = "jobs"
visibility_timeout = 1
dead_letter_queue = "dead"
max_receive_count = 1
"#;

/// The second sends what leaves, by which its journal comes to its limit.
const AT_LIMIT: &str = "send 2 1000 => sent 0
receive 2 2000 => offered 1
receive 2 3000 => offered 0
look 2 0 => 3000 4 0 0 0";

/// Its journal begins anew, with what waits, and it confirms.
const ROOM: &str = "move 2 3000 => Arrived or Again
look 1 0 => 3000 2 1 0 0
look 2 0 => 3000 3 0 0 0
move 2 3000 => None
look 2 0 => 3000 3 0 0 0";

/// A source whose journal is full of what it holds cannot confirm: the parcel waits, and is accepted once.
const FULL: &str = "send 2 3000 => sent 1
look 2 0 => 3000 3 1 0 0
send 2 3000 => sent 2
move 2 3000 => JournalFull
look 1 0 => 3000 2 1 0 0
move 2 3000 => JournalFull
look 1 0 => 3000 2 1 0 0
look 2 0 => 3000 4 2 0 0";

/// The same two queues with journals of five entries, of which the second keeps messages for a minute.
const SHORT: &str = r#"[limits]
max_lines = 5

[[queue]]
name = "dead"

[[queue]]
name = "jobs"
visibility_timeout = 1
retention_seconds = 60
dead_letter_queue = "dead"
max_receive_count = 1
"#;

/// A message leaves, and runs out while it waits. Behind that the second keeps messages for two minutes.
const RUN_OUT: &str = "send 2 0 => sent 0
receive 2 0 => offered 1
receive 2 1000 => offered 0
set 2 90000 1 MessageRetentionPeriod=120 => Performed(Done)
look 2 0 => 90000 5 0 0 0";

/// The dead-letter queue is gone: the second takes back what ran out, and its journal, which began anew before that, knows so still.
const GONE_SINCE: &str = "delete 1 91000 => deleted 1: 91000 2 0 0 0
move 2 91000 => Orphaned
look 2 0 => 91000 3 0 0 0
move 2 91000 => None";

/// Two configured queues, of which the first keeps messages for a minute.
const PAIR: &str = r#"[[queue]]
name = "dead"
retention_seconds = 60

[[queue]]
name = "jobs"
visibility_timeout = 1
dead_letter_queue = "dead"
max_receive_count = 1
"#;

/// The first of two messages is received again, and leaves.
const LEAVES: &str = "send 2 1000 => sent 0
receive 2 3000 => offered 1
send 2 4500 => sent 1
receive 2 5000 => offered 1";

/// It arrives, is received there, and stays until a minute after it was sent first.
const ARRIVED: &str = "move 2 5000 => Arrived or Again
receive 1 6000 => offered 1
look 1 60000 => 60000 3 1 0 0
row 1 0 => Some(Row { minute: 0, flows: Flows { sent: 0, sent_size: 0, received: 1, empty_receives: 0, deleted: 0, refused: 0, dead_letters_arrived: 1 }, gauges: Gauges { visible: 1, delayed: 0, in_flight: 0, age: 54 } })
look 1 60999 => 60999 3 1 0 0
look 1 61000 => 61000 3 0 0 0";

/// It arrives once, however often it is asked for. The question for a parcel moves no clock.
const ONCE: &str = "hand 2 5000 => Arrived
move 2 5001 => Again or Again
move 2 5002 => None
parcel 2 9000 => Performed(Parcel(None))
look 1 0 => 5001 2 1 0 0
look 2 0 => 5001 6 0 0 1";

/// Where the queue that had accepted it is gone, it comes back, to a queue without a policy.
const GONE: &str = "hand 2 5000 => Arrived
drop 1 5001 => ()
state 1 => false
move 2 5002 => Orphaned
look 2 0 => 5002 6 1 0 1
create jobs 5002 VisibilityTimeout=1 RedrivePolicy= => created 2
move 2 5002 => None";

/// A queue beside two that are configured. Journals of four and of eight entries have no room left.
const MADE: &str = "find dlq => Some(2)
place dlq => (2, 1, 2)
place other => None
create other 0 => created 3
send 3 1000 => sent 0
send 3 1001 => sent 1
send 3 1002 => sent 2
send 3 1003 => sent 3
send 3 1004 => sent 4
send 3 1005 => sent 5
send 3 1006 => sent 6
list => 3 dlq jobs other
drop 3 1900 => ()
drop 3 1900 => QueueDoesNotExist
state 3 => false";

/// Two queues of four entries, so that the next one takes memory. A message of the second has left.
const LEFT: &str = r#"create dlq 0 => created 1
create jobs 0 VisibilityTimeout=0 RedrivePolicy={"deadLetterTargetArn":"arn:aws:sqs:::dlq","maxReceiveCount":1} => created 2
send 1 1000 => sent 0
send 1 1000 => sent 1
send 1 1000 => sent 2
send 2 1000 => sent 0
receive 2 1000 => offered 1
receive 2 1000 => offered 0
sources 1 => 1 jobs"#;

/// They are taken out, one after the other, closed: each has no messages, and one entry more.
const TAKEN: &str = "delete 1 1900 => deleted 1: 1900 5 0 0 0
state 0 => false
state 1 => false
state 2 => true
state 3 => false
find dlq => None
place dlq => None
place jobs => (2, 0, 2)
look 2 0 => 1000 4 0 0 0
delete 1 1900 => QueueDoesNotExist
sources 1 => QueueDoesNotExist
delete 2 500 => deleted 2: 1000 5 0 0 0
create jobs 0 => created 3";

/// The parcel is handed over, again, and then moved: it arrives once, and is confirmed once.
const HANDED: &str = "hand 2 1900 => Arrived
look 1 0 => 1900 5 4 0 0
look 2 0 => 1000 4 0 0 0
hand 2 1900 => Again
move 2 1950 => Again or Again
look 1 0 => 1950 5 4 0 0
look 2 0 => 1950 5 0 0 0
move 2 2000 => None
hand 2 2000 => None
move 9 2000 => QueueDoesNotExist
hand 9 2000 => QueueDoesNotExist";

/// The dead-letter queue is gone, and the message comes back, to a queue without a policy.
const BACK: &str = "drop 1 1900 => ()
create jobs 1900 RedrivePolicy= => QueueNameExists
move 2 1900 => Orphaned
look 2 0 => 1900 5 1 0 0
create jobs 1900 RedrivePolicy= => created 2
move 2 1900 => None";

/// A directory gives uids to names, lists them, and knows which queues have a queue for their target.
const NAMES: &str = "entry dlq => None
add dlq 0 => added 1
add jobs 1 => added 2
add backup 1 => added 3
entry jobs => Some(2)
names => 3 backup dlq jobs
names b => 1 backup
users 1 => 2 backup jobs
users 2 => 0
target 2 3 => true
target 4 3 => false
users 1 => 1 backup
users 3 => 1 jobs
remove 3 => true
remove 3 => false
entry backup => None
users 3 => QueueDoesNotExist
add backup 2 => added 4
add other 2 => added 5
add archive 2 => added 6
names => 5 archive backup dlq jobs other
users 2 => 3 archive backup other";

/// The parcel is moved at once. Where the second half finds no memory, it has arrived when it is moved again.
const MOVED: &str = "move 2 1900 => Arrived or Again
look 1 0 => 1900 5 4 0 0
look 2 0 => 1900 5 0 0 0";

/// Steps are answered alike one by one and in a list, and a list counts the queues at its end.
#[test]
fn answers_steps(rt: HostRuntime) -> Result<(), Fail> {
    let (config, texts) = ("[limits]\nmax_lines = 3\n", ["", ""]);
    let mut refused: u32 = 0;
    let steps = [STEPS, ""];
    Talk::after(
        &rt,
        Plan {
            config,
            texts: steps,
        },
        &mut refused,
    )?;
    for (config, text, counts) in [(config, STEPS, "3 1:2 3:0 4:0"), ("", HALVES, "1 2:1")] {
        let plan = Plan { config, texts };
        Talk::after(&rt, plan, &mut refused)?.list(&rt, plan, text, counts, &mut refused)?;
    }
    assert!(rt; refused <= 1);
    Ok(())
}

/// Calls whose allocation is refused answer `OutOfMemory`. All queues tell then what they told before, but for the
/// clock of the one that the call had come to, and the call gives its value when it is made again. A move that had
/// handed its parcel over leaves it waiting, and is answered `Again`. All is held twice from the start, and
/// forgiven once: with ample memory, as the gate runs this, a call that gave up would do so twice.
/// `rt try --test --fail-alloc N -- refused_memory` refuses the Nth allocation.
#[test]
fn refused_memory(rt: HostRuntime) -> Result<(), Fail> {
    let mut refused: u32 = 0;
    for _ in 0..2 {
        hold_all(&rt, &mut refused)?;
        run_all(&rt, &mut refused)?;
    }
    assert!(rt; refused <= 1);
    Ok(())
}

/// Has each conversation once, and counts the calls that were made again.
fn hold_all(rt: &HostRuntime, refused: &mut u32) -> Result<(), Fail> {
    let named = "[[queue]]\nname = \"jobs\"\n[[queue]]\nname = \"dlq\"\n";
    for (config, texts) in [
        (named, [MADE, NAMES]),
        (SMALL, [AT_LIMIT, ROOM]),
        (SMALL, [AT_LIMIT, FULL]),
        (SHORT, [RUN_OUT, GONE_SINCE]),
        (PAIR, [LEAVES, ARRIVED]),
        (PAIR, [LEAVES, ONCE]),
        (PAIR, [LEAVES, GONE]),
        ("", [LEFT, TAKEN]),
        ("", [LEFT, HANDED]),
        ("", [LEFT, MOVED]),
        ("", [LEFT, BACK]),
    ] {
        Talk::after(rt, Plan { config, texts }, refused)?;
    }
    Ok(())
}

/// The same of lists of steps, and what a look sees behind them.
fn run_all(rt: &HostRuntime, refused: &mut u32) -> Result<(), Fail> {
    let steps =
        "send 1 1900 => sent 3\ncreate other 1900 => created 3\ndelete 2 1900 => deleted 2: 1900 5 0 0 0";
    let hand = "hand 2 1900 => Arrived";
    let confirm = "confirm 2 1900 => Confirmed(Settled(true))";
    for (before, text, counts, looks) in [
        ("", steps, "2 1:4 3:0", "look 1 0 => 1900 5 4 0 0"),
        ("", hand, "2 1:4 2:0", "look 2 0 => 1000 4 0 0 0"),
        (hand, confirm, "2 1:4 2:0", "look 2 0 => 1900 5 0 0 0"),
    ] {
        let plan = Plan {
            config: "",
            texts: [LEFT, before],
        };
        let mut talk = Talk::after(rt, plan, refused)?;
        talk.list(rt, plan, text, counts, refused)?;
        talk.hold(rt, plan, looks, refused)?;
    }
    Ok(())
}
