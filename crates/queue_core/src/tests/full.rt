//! Journals at their limit: where a queue makes its journal anew, where it is full, and what is known of it from then on.

use super::Talk;
use std::test::Fail;

/// In order: what is gone is let go, and known still; journals of one and of two entries; what waits counts too; a journal
/// is made anew before an answer without an entry, and before each refusal that is one, but never before a look, a close, a first
/// parcel or in a closed queue; what waits is confirmed, had expired, waits in the order in which it left; twelve hours.
/// A look before a command that comes a second later or more shows the age at which a call without memory leaves
/// the queue.
const CASES: &str = r#"open 4 0 DelaySeconds 0
1000 send 1 a => Sent(Posted { number: 0, id: MessageId { uid: 2, number: 0 } })
2000 look => (Gauges { visible: 1, delayed: 0, in_flight: 0, age: 1 }, 2, 2000, (0, 0), None, false)
2000 receive 1 => offered 0.1 a
3000 look => (Gauges { visible: 0, delayed: 0, in_flight: 1, age: 2 }, 3, 3000, (0, 0), None, false)
3000 delete 0.1 => Done
4000 look => (Gauges { visible: 0, delayed: 0, in_flight: 0, age: 0 }, 4, 4000, (0, 0), None, false)
4000 send 1 b => Sent(Posted { number: 1, id: MessageId { uid: 2, number: 1 } })
4000 look => (Gauges { visible: 1, delayed: 0, in_flight: 0, age: 0 }, 2, 4000, (0, 0), None, false)
now => (Gauges { visible: 1, delayed: 0, in_flight: 0, age: 0 }, Flows { sent: 2, sent_size: 2, received: 1, empty_receives: 0, deleted: 1, refused: 0, dead_letters_arrived: 0 })
4100 delete 0.1 => Done
4150 delete 0.2 => ReceiptHandleIsInvalid
4150 look => (Gauges { visible: 1, delayed: 0, in_flight: 0, age: 0 }, 4, 4150, (0, 0), None, false)
4200 send 1 c => Sent(Posted { number: 2, id: MessageId { uid: 2, number: 2 } })
4200 look => (Gauges { visible: 2, delayed: 0, in_flight: 0, age: 0 }, 3, 4200, (0, 0), None, false)
4300 send 1 d => Sent(Posted { number: 3, id: MessageId { uid: 2, number: 3 } })
4300 look => (Gauges { visible: 3, delayed: 0, in_flight: 0, age: 0 }, 4, 4300, (0, 0), None, false)
4400 send 1 e => JournalFull
4400 look => (Gauges { visible: 3, delayed: 0, in_flight: 0, age: 0 }, 4, 4400, (0, 0), None, false)

open 1 0 DelaySeconds 0
0 send 1 a => JournalFull
0 receive 1 30 => JournalFull
0 change 0.1 9 => JournalFull
0 delete 0.1 => JournalFull
0 purge => JournalFull
0 set DelaySeconds 1 => JournalFull
0 arrive 0 => JournalFull
0 settle 0 => JournalFull
0 orphan 1 => JournalFull
0 parcel => Parcel(None)
0 look => (Gauges { visible: 0, delayed: 0, in_flight: 0, age: 0 }, 1, 0, (0, 0), None, false)
0 close => Done
0 look => (Gauges { visible: 0, delayed: 0, in_flight: 0, age: 0 }, 2, 0, (0, 0), None, true)

open 2 0 MessageRetentionPeriod 60
0 send 1 a => Sent(Posted { number: 0, id: MessageId { uid: 2, number: 0 } })
1 purge => JournalFull
59999 receive 1 30 => JournalFull
60000 look => (Gauges { visible: 0, delayed: 0, in_flight: 0, age: 0 }, 2, 60000, (0, 0), None, false)
60000 purge => Done
60000 look => (Gauges { visible: 0, delayed: 0, in_flight: 0, age: 0 }, 2, 60000, (0, 0), None, false)
minute 0 => Some(Row { minute: 0, flows: Flows { sent: 1, sent_size: 1, received: 0, empty_receives: 0, deleted: 0, refused: 0, dead_letters_arrived: 0 }, gauges: Gauges { visible: 1, delayed: 0, in_flight: 0, age: 59 } })
60000 purge => Done
60001 send 1 b => Sent(Posted { number: 1, id: MessageId { uid: 2, number: 1 } })
60001 look => (Gauges { visible: 1, delayed: 0, in_flight: 0, age: 0 }, 2, 60001, (0, 0), None, false)
60002 send 1 c => JournalFull
60002 close => Done
60002 look => (Gauges { visible: 0, delayed: 0, in_flight: 0, age: 0 }, 3, 60002, (0, 0), None, true)
60003 purge => QueueDoesNotExist
60003 look => (Gauges { visible: 0, delayed: 0, in_flight: 0, age: 0 }, 3, 60003, (0, 0), None, true)

open 3 0 RedrivePolicy {"deadLetterTargetArn":"arn:aws:sqs:elasticmq:000000000000:dead","maxReceiveCount":1}
0 send 1 a => Sent(Posted { number: 0, id: MessageId { uid: 2, number: 0 } })
0 receive 1 1 => offered 0.1 a
1000 look => (Gauges { visible: 1, delayed: 0, in_flight: 0, age: 1 }, 3, 1000, (0, 0), Some(1), false)
1000 receive 1 1 => offered
1000 look => (Gauges { visible: 0, delayed: 0, in_flight: 0, age: 0 }, 3, 1000, (0, 0), Some(1), false)
1000 send 1 b => Sent(Posted { number: 1, id: MessageId { uid: 2, number: 1 } })
1000 look => (Gauges { visible: 1, delayed: 0, in_flight: 0, age: 0 }, 3, 1000, (0, 0), Some(1), false)
1000 settle 0 => JournalFull
1000 look => (Gauges { visible: 1, delayed: 0, in_flight: 0, age: 0 }, 3, 1000, (0, 0), Some(1), false)
1000 parcel => ((2, 0, "jobs", MessageId { uid: 2, number: 0 }, Moment { milliseconds: 0 }), 1, "a")

open 4 0 MessageRetentionPeriod 60
1000 arrive 0 => Arrived(New)
1000 receive 1 30 => offered 0.1 d
1000 delete 0.1 => Done
1000 look => (Gauges { visible: 0, delayed: 0, in_flight: 0, age: 0 }, 4, 1000, (0, 0), None, false)
1001 arrive 0 => Arrived(Again)
1001 look => (Gauges { visible: 0, delayed: 0, in_flight: 0, age: 0 }, 1, 1001, (0, 0), None, false)
1001 arrive 0 => Arrived(Again)
1001 look => (Gauges { visible: 0, delayed: 0, in_flight: 0, age: 0 }, 1, 1001, (0, 0), None, false)

open 3 5 DelaySeconds 0
6 set DelaySeconds 0 => Done
7 purge => Done
8 settle 0 => Settled(false)
8 look => (Gauges { visible: 0, delayed: 0, in_flight: 0, age: 0 }, 1, 8, (5, 6), None, false)

open 3 0 MaximumMessageSize 1024
1 purge => Done
2 purge => Done
3 send 1025 d => InvalidParameterValue
3 look => (Gauges { visible: 0, delayed: 0, in_flight: 0, age: 0 }, 2, 3, (0, 0), None, false)
4 change 0.1 9 => ReceiptHandleIsInvalid
5 delete 0.1 => ReceiptHandleIsInvalid
5 look => (Gauges { visible: 0, delayed: 0, in_flight: 0, age: 0 }, 2, 5, (0, 0), None, false)
now => (Gauges { visible: 0, delayed: 0, in_flight: 0, age: 0 }, Flows { sent: 0, sent_size: 0, received: 0, empty_receives: 0, deleted: 0, refused: 3, dead_letters_arrived: 0 })

open 4 0 VisibilityTimeout 30
0 send 1 a => Sent(Posted { number: 0, id: MessageId { uid: 2, number: 0 } })
0 receive 1 30 => offered 0.1 a
0 delete 0.1 => Done
1 change 0.1 9 => MessageNotInflight
1 look => (Gauges { visible: 0, delayed: 0, in_flight: 0, age: 0 }, 2, 1, (0, 0), None, false)

open 5/1 0 VisibilityTimeout 30
0 send 1 a => Sent(Posted { number: 0, id: MessageId { uid: 2, number: 0 } })
0 send 1 b => Sent(Posted { number: 1, id: MessageId { uid: 2, number: 1 } })
0 receive 1 30 => offered 0.1 a
1 receive 1 30 => OverLimit
1 look => (Gauges { visible: 1, delayed: 0, in_flight: 1, age: 0 }, 5, 1, (0, 0), None, false)
2 receive 1 30 => OverLimit
2 look => (Gauges { visible: 1, delayed: 0, in_flight: 1, age: 0 }, 4, 2, (0, 0), None, false)

open 3 0 DelaySeconds 0
1 purge => Done
2 purge => Done
3 look => (Gauges { visible: 0, delayed: 0, in_flight: 0, age: 0 }, 3, 3, (0, 0), None, false)
3 parcel => Parcel(None)
3 look => (Gauges { visible: 0, delayed: 0, in_flight: 0, age: 0 }, 3, 3, (0, 0), None, false)
4 close => Done
4 look => (Gauges { visible: 0, delayed: 0, in_flight: 0, age: 0 }, 4, 4, (0, 0), None, true)
5 settle 0 => QueueDoesNotExist
5 close => QueueDoesNotExist
5 look => (Gauges { visible: 0, delayed: 0, in_flight: 0, age: 0 }, 4, 5, (0, 0), None, true)

open 4 0 RedrivePolicy {"deadLetterTargetArn":"arn:aws:sqs:elasticmq:000000000000:dead","maxReceiveCount":1}
1000 send 1 a => Sent(Posted { number: 0, id: MessageId { uid: 2, number: 0 } })
2000 look => (Gauges { visible: 1, delayed: 0, in_flight: 0, age: 1 }, 2, 2000, (0, 0), Some(1), false)
2000 receive 1 1 => offered 0.1 a
3000 look => (Gauges { visible: 1, delayed: 0, in_flight: 0, age: 2 }, 3, 3000, (0, 0), Some(1), false)
3000 receive 1 1 => offered
3000 parcel => ((2, 0, "jobs", MessageId { uid: 2, number: 0 }, Moment { milliseconds: 1000 }), 1, "a")
3000 look => (Gauges { visible: 0, delayed: 0, in_flight: 0, age: 0 }, 4, 3000, (0, 0), Some(1), false)
3000 settle 0 => Settled(true)
3000 parcel => Parcel(None)
3000 look => (Gauges { visible: 0, delayed: 0, in_flight: 0, age: 0 }, 3, 3000, (0, 0), Some(1), false)

open 5 0 RedrivePolicy {"deadLetterTargetArn":"arn:aws:sqs:elasticmq:000000000000:dead","maxReceiveCount":1}; MessageRetentionPeriod 60
0 send 1 a => Sent(Posted { number: 0, id: MessageId { uid: 2, number: 0 } })
0 receive 1 1 => offered 0.1 a
1000 look => (Gauges { visible: 1, delayed: 0, in_flight: 0, age: 1 }, 3, 1000, (0, 0), Some(1), false)
1000 receive 1 1 => offered
90000 look => (Gauges { visible: 0, delayed: 0, in_flight: 0, age: 0 }, 4, 90000, (0, 0), Some(1), false)
90000 set MessageRetentionPeriod 120 => Done
91000 look => (Gauges { visible: 0, delayed: 0, in_flight: 0, age: 0 }, 5, 91000, (0, 90000), Some(1), false)
91000 orphan 1 => Orphaned(1)
91000 look => (Gauges { visible: 0, delayed: 0, in_flight: 0, age: 0 }, 3, 91000, (0, 90000), None, false)

open 6 0 RedrivePolicy {"deadLetterTargetArn":"arn:aws:sqs:elasticmq:000000000000:dead","maxReceiveCount":1}
0 send 1 a => Sent(Posted { number: 0, id: MessageId { uid: 2, number: 0 } })
0 send 1 b => Sent(Posted { number: 1, id: MessageId { uid: 2, number: 1 } })
0 receive 2 1 => offered 0.1 a 1.1 b
500 change 0.1 2 => Done
5000 look => (Gauges { visible: 2, delayed: 0, in_flight: 0, age: 5 }, 5, 5000, (0, 0), Some(1), false)
5000 receive 2 1 => offered
5000 parcel => ((2, 1, "jobs", MessageId { uid: 2, number: 1 }, Moment { milliseconds: 0 }), 1, "b")
6000 look => (Gauges { visible: 0, delayed: 0, in_flight: 0, age: 0 }, 6, 6000, (0, 0), Some(1), false)
6000 settle 7 => Settled(false)
6000 look => (Gauges { visible: 0, delayed: 0, in_flight: 0, age: 0 }, 3, 6000, (0, 0), Some(1), false)
6000 parcel => ((2, 1, "jobs", MessageId { uid: 2, number: 1 }, Moment { milliseconds: 0 }), 1, "b")

open 4 0 DelaySeconds 0
0 send 1 a => Sent(Posted { number: 0, id: MessageId { uid: 2, number: 0 } })
1000 look => (Gauges { visible: 1, delayed: 0, in_flight: 0, age: 1 }, 2, 1000, (0, 0), None, false)
1000 receive 1 30 => offered 0.1 a
1001 change 0.1 43200 => InvalidParameterValue
1002 change 0.1 43199 => Done
1002 look => (Gauges { visible: 0, delayed: 0, in_flight: 1, age: 1 }, 3, 1002, (0, 0), None, false)
"#;

/// A journal at its limit is made anew wherever that makes room, and what is known of the queue stays.
#[test]
fn full_journals(rt: HostRuntime) -> Result<(), Fail> {
    let mut talk = Talk::new(&rt)?;
    for case in CASES.split("\n\n") {
        talk.hold_or_again(&rt, [case, "", ""])?;
    }
    talk.end()
}
