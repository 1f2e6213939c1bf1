//! Dead letters step by step, changes of settings to the millisecond, and closed queues.

use super::Talk;
use std::test::Fail;

/// Dead letters leave and are confirmed, come back, arrive once, and meet a full journal. Then a queue is
/// closed that got settings before, and one whose journal is full. The last one is asked what no command
/// asks; then numbers are out of their ranges. `open` opens another queue.
const LINES: &str =
    r#"open 99 0 RedrivePolicy {"deadLetterTargetArn":"arn:aws:sqs:elasticmq:000000000000:dead","maxReceiveCount":1}
1000 send 1 a => Sent(Posted { number: 0, id: MessageId { uid: 2, number: 0 } })
3000 receive 1 1 => offered 0.1 a
4500 send 1 b => Sent(Posted { number: 1, id: MessageId { uid: 2, number: 1 } })
5000 receive 1 1 => offered 1.1 b
5000 look => (Gauges { visible: 0, delayed: 0, in_flight: 1, age: 0 }, 5, 5000, (0, 0), Some(1), false)
5000 parcel => ((2, 0, "jobs", MessageId { uid: 2, number: 0 }, Moment { milliseconds: 1000 }), 1, "a")
5100 delete 0.1 => Done
5100 change 0.1 0 => MessageNotInflight
5200 purge => Done
5200 parcel => ((2, 0, "jobs", MessageId { uid: 2, number: 0 }, Moment { milliseconds: 1000 }), 1, "a")
5300 settle 1 => Settled(false)
5300 settle 0 => Settled(true)
5400 settle 0 => Settled(false)
5400 parcel => Parcel(None)
5500 orphan 1 => Orphaned(0)
9000 look => (Gauges { visible: 0, delayed: 0, in_flight: 0, age: 0 }, 10, 9000, (0, 0), None, false)
open 99 0 RedrivePolicy {"deadLetterTargetArn":"arn:aws:sqs:elasticmq:000000000000:dead","maxReceiveCount":1}
1000 send 1 a => Sent(Posted { number: 0, id: MessageId { uid: 2, number: 0 } })
3000 receive 1 1 => offered 0.1 a
4500 send 1 b => Sent(Posted { number: 1, id: MessageId { uid: 2, number: 1 } })
5000 receive 1 1 => offered 1.1 b
5001 orphan 9 => Orphaned(0)
5001 parcel => ((2, 0, "jobs", MessageId { uid: 2, number: 0 }, Moment { milliseconds: 1000 }), 1, "a")
5001 look => (Gauges { visible: 0, delayed: 0, in_flight: 1, age: 0 }, 6, 5001, (0, 0), Some(1), false)
5002 orphan 1 => Orphaned(1)
5002 parcel => Parcel(None)
5002 look => (Gauges { visible: 1, delayed: 0, in_flight: 1, age: 4 }, 7, 5002, (0, 0), None, false)
5002 receive 10 30 => offered 0.2 a
open 99 0 MessageRetentionPeriod 60
5000 arrive 1000 => Arrived(New)
5000 arrive 1000 => Arrived(Again)
5000 look => (Gauges { visible: 1, delayed: 0, in_flight: 0, age: 0 }, 2, 5000, (0, 0), None, false)
6000 receive 10 30 => offered 0.1 d
61000 look => (Gauges { visible: 0, delayed: 0, in_flight: 0, age: 0 }, 3, 61000, (0, 0), None, false)
61000 arrive 1000 => Arrived(Again)
open 2 0 MessageRetentionPeriod 60
1 arrive 0 => Arrived(New)
1 arrive 0 => JournalFull
1 settle 0 => JournalFull
1 orphan 9 => JournalFull
1 parcel => Parcel(None)
1 look => (Gauges { visible: 1, delayed: 0, in_flight: 0, age: 0 }, 2, 1, (0, 0), None, false)
open 99 0 DelaySeconds 0
1000 send 1 a => Sent(Posted { number: 0, id: MessageId { uid: 2, number: 0 } })
2000 receive 1 30 => offered 0.1 a
2500 set ReceiveMessageWaitTimeSeconds 20 => Done
2500 look => (Gauges { visible: 0, delayed: 0, in_flight: 1, age: 1 }, 4, 2500, (0, 2500), None, false)
2501 set ReceiveMessageWaitTimeSeconds 20 => Done
2501 look => (Gauges { visible: 0, delayed: 0, in_flight: 1, age: 1 }, 5, 2501, (0, 2501), None, false)
3000 close => Done
3000 look => (Gauges { visible: 0, delayed: 0, in_flight: 0, age: 0 }, 6, 3000, (0, 2501), None, true)
9000 send 1 b => QueueDoesNotExist
9000 receive 1 30 => QueueDoesNotExist
9000 change 0.1 0 => QueueDoesNotExist
9000 delete 0.1 => QueueDoesNotExist
9000 purge => QueueDoesNotExist
9000 set DelaySeconds 1 => QueueDoesNotExist
9000 close => QueueDoesNotExist
0 look => (Gauges { visible: 0, delayed: 0, in_flight: 0, age: 0 }, 6, 9000, (0, 2501), None, true)
open 1 0 DelaySeconds 0
0 purge => JournalFull
1 close => Done
0 look => (Gauges { visible: 0, delayed: 0, in_flight: 0, age: 0 }, 2, 1, (0, 0), None, true)
9000 send 1 b => QueueDoesNotExist
9000 receive 1 30 => QueueDoesNotExist
9000 change 0.1 0 => QueueDoesNotExist
9000 delete 0.1 => QueueDoesNotExist
9000 purge => QueueDoesNotExist
9000 set DelaySeconds 1 => QueueDoesNotExist
9000 close => QueueDoesNotExist
0 look => (Gauges { visible: 0, delayed: 0, in_flight: 0, age: 0 }, 2, 9000, (0, 0), None, true)
open 99 0 RedrivePolicy {"deadLetterTargetArn":"arn:aws:sqs:elasticmq:000000000000:dead","maxReceiveCount":1}
1000 send 1 a 0 => Sent(Posted { number: 0, id: MessageId { uid: 2, number: 0 } })
1000 receive 10 9 => offered 0.1 a
1000 change 0.1 0 => Done
waiting => "none"
1000 receive 10 => offered
waiting => ((2, 0, "jobs", MessageId { uid: 2, number: 0 }, Moment { milliseconds: 1000 }), 1, "")
1000 parcel => ((2, 0, "jobs", MessageId { uid: 2, number: 0 }, Moment { milliseconds: 1000 }), 1, "a")
1000 settle 0 => Settled(true)
1000 orphan 1 => Orphaned(0)
arrives 0 => (false, New)
arrives 0 => (true, Again)
1000 delete 0.1 => Done
1000 set DelaySeconds 1 => Done
1000 purge => Done
messages => 2
1000 close => Done
in_range 0 => (Some(Delay { seconds: 0 }), Some(Timeout { seconds: 0 }), None)
in_range 11 => (Some(Delay { seconds: 11 }), Some(Timeout { seconds: 11 }), None)
in_range 901 => (None, Some(Timeout { seconds: 901 }), None)
in_range 43201 => (None, None, None)
limits => (900, 43200, 10)
"#;

#[test]
fn answers(rt: HostRuntime) -> Result<(), Fail> {
    let mut talk = Talk::new(&rt)?;
    talk.hold(&rt, LINES)?;
    talk.end()
}
