//! What no stored run of `cases/` can show: devices that fail, memory that is refused, the parts of a
//! line, one that is cut, the longest line, and what the program makes of its arguments and tells of its
//! end.

mod devices;
mod lines;
mod program;

use super::{Device, ReplayFault, replay};
use journal::Ticks;
use queue_config::{Config, Limits};
use std::fmt::Debug;
use std::test::Fail;

/// A failure unless what was found is what was wanted.
fn same<T: Debug + Drop + PartialEq>(found: T, wanted: T) -> Result<(), Fail> {
    if found == wanted {
        return Ok(());
    }
    Err(Fail::new(format_args!("found {found:?}, wanted {wanted:?}")))
}

/// A request of each kind of answer.
const INPUT: &str = r#"1 CreateQueue {"QueueName":"jobs"}
2 SendMessage {"QueueUrl":"jobs","MessageBody":"hello"}
3 ReceiveMessage {"QueueUrl":"jobs"}
4 ChangeMessageVisibility {"QueueUrl":"jobs","ReceiptHandle":"000000000000000100000000000000000000000000000001","VisibilityTimeout":0}
5 Foo {}
6 SendMessageBatch {"QueueUrl":"jobs","Entries":[{"Id":"x","MessageBody":"b","MessageAttributes":{"a":{"DataType":"Binary","BinaryValue":"AA=="}}},{"Id":"y"}]}
7 ReceiveMessage {"QueueUrl":"jobs","MaxNumberOfMessages":2,"MessageAttributeNames":["a"]}
60000 Rows {"QueueUrl":"jobs"}
60000 Statistics {}
60000 Statistics {"QueueUrl":"jobs"}
60000 Alarms {"QueueUrl":"jobs"}
"#;

const ANSWERS: &str = r#"200 {"QueueUrl":"http://localhost:9324/000000000000/jobs"}
200 {"MD5OfMessageBody":"5d41402abc4b2a76b9719d911017c592","MessageId":"00000000-0000-0001-0000-000000000000"}
200 {"Messages":[{"Body":"hello","MD5OfBody":"5d41402abc4b2a76b9719d911017c592","MessageId":"00000000-0000-0001-0000-000000000000","ReceiptHandle":"000000000000000100000000000000000000000000000001"}]}
200 {}
400 {"__type":"com.amazonaws.sqs#UnsupportedOperation","message":"The action is not supported."}
200 {"Failed":[{"Code":"InvalidParameterValue","Id":"y","Message":"Parameter value not allowed.","SenderFault":true}],"Successful":[{"Id":"x","MD5OfMessageAttributes":"571c39fbc54bae37495f6de54f270af5","MD5OfMessageBody":"92eb5ffee6ae2fec3ad71c777531578f","MessageId":"00000000-0000-0001-0000-000000000001"}]}
200 {"Messages":[{"Body":"hello","MD5OfBody":"5d41402abc4b2a76b9719d911017c592","MessageId":"00000000-0000-0001-0000-000000000000","ReceiptHandle":"000000000000000100000000000000000000000000000002"},{"Body":"b","MD5OfBody":"92eb5ffee6ae2fec3ad71c777531578f","MD5OfMessageAttributes":"571c39fbc54bae37495f6de54f270af5","MessageAttributes":{"a":{"BinaryValue":"AA==","DataType":"Binary"}},"MessageId":"00000000-0000-0001-0000-000000000001","ReceiptHandle":"000000000000000100000000000000010000000000000001"}]}
200 {"rows":[{"age":59,"deadLettersArrived":0,"delayed":0,"deleted":0,"emptyReceives":0,"inFlight":0,"minute":0,"received":3,"refused":0,"sent":2,"sentSize":14,"visible":2}]}
200 {"queues":[{"age":59,"clock":60000,"current":{"deadLettersArrived":0,"deleted":0,"emptyReceives":0,"received":0,"refused":0,"sent":0,"sentSize":0},"delayed":0,"inFlight":0,"lines":6,"name":"jobs","visible":2}]}
200 {"age":59,"clock":60000,"current":{"deadLettersArrived":0,"deleted":0,"emptyReceives":0,"received":0,"refused":0,"sent":0,"sentSize":0},"delayed":0,"inFlight":0,"lines":6,"name":"jobs","visible":2}
200 {"alarms":[]}
"#;

/// Replays an input in memory, and gives the outcome and what was written.
fn replayed(rt: &HostRuntime, input: &[u8]) -> (Result<(), ReplayFault>, Vec<u8>) {
    let config = Config::with_limits(rt.alloc(), Limits::default());
    let mut inlet = Device::new(input);
    let mut outlet = Device::new(Vec::new(rt.alloc()));
    let mut ticks = Ticks::new(rt);
    let result = replay(rt.alloc(), config, &mut inlet, &mut outlet, &mut ticks);
    (result, outlet.into_inner())
}

/// A replay whose allocation is refused has written a part of its text from the front, and never that
/// memory ran out, and gives the whole when it is run again. The gate runs this with ample memory;
/// `rt try --test --fail-alloc N -- refused_memory` refuses the Nth allocation.
#[test]
fn refused_memory(rt: HostRuntime) -> Result<(), Fail> {
    let (result, written) = match replayed(&rt, INPUT.as_bytes()) {
        (Err(ReplayFault::OutOfMemory), written) => {
            same(ANSWERS.as_bytes().starts_with(written.as_slice()), true)?;
            replayed(&rt, INPUT.as_bytes())
        }
        replayed => replayed,
    };
    same(result, Ok(()))?;
    same(str::from_utf8(written.as_slice())?, ANSWERS)
}

/// A line whose queue is not there, and its answer.
const LINE: &str = r#"1000 SendMessage {"QueueUrl":"jobs","MessageBody":"hello"}"#;

const ABSENT: &str =
    r#"400 {"__type":"com.amazonaws.sqs#QueueDoesNotExist","message":"The specified queue does not exist."}
"#;

/// The answer to a line that cannot be read.
const UNREAD: &str =
    r#"400 {"__type":"com.amazonaws.sqs#SerializationException","message":"The request cannot be read."}
"#;

/// A line that is cut, wherever that is and whatever ends it, is answered once, and cannot be read.
#[test]
fn cut_lines(rt: HostRuntime) -> Result<(), Fail> {
    for end in ["", "\n", "\r\n"] {
        for length in 1..=LINE.len() {
            let mut input = Vec::new(rt.alloc());
            input.extend_from_slice(LINE.as_bytes().get(..length).ok_or("a front")?)?;
            input.extend_from_slice(end.as_bytes())?;
            let (result, written) = replayed(&rt, input.as_slice());
            let answer = if length < LINE.len() { UNREAD } else { ABSENT };
            same(result, Ok(()))?;
            same(str::from_utf8(written.as_slice())?, answer)?;
        }
    }
    Ok(())
}
