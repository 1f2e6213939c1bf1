//! Requests, and what is read of them or answered: what a run of `sqs_replay` cannot show, and each
//! action and each reply once where memory is refused. All else stands in the stored runs of
//! `crates/sqs_replay/cases`. Answers were worked out from docs/PROFILE.md by hand; digests were
//! computed with Python's `hashlib`.

mod explanation;

use super::*;
use journal::{Moment, Origin, Ticks};
use message::{Content, Fault, MessageId, QueueName};
use queue_config::{Limits, RedrivePolicy, Settings, Wish};
use queue_core::{Command, Gauges, Look, Offers, Parcel, QueueState};
use std::alloc::Global;
use std::fmt::Debug;
use std::test::Fail;

/// What is asked, and behind an arrow what is told of it. Each action and each reply stands here once.
///
/// - After `read` a request, and what was read of it: the delay, the timeout and the policy that a
///   queue of the defaults gets; a prefix; how many messages a receive asks for, its timeout and its
///   wait, and the two sorts of attributes; a handle, and a timeout.
/// - After `names` a body, and the queue that it names.
/// - `nothing`, and the reply to a batch of no entries.
/// - Else a request, and its reply: by [`shape_of`].
const LINES: &str =
    r#"CreateQueue {"QueueName":"jobs","Attributes":{"VisibilityTimeout":"5"}} => {"QueueUrl":"http://localhost:9324/000000000000/jobs"}
SetQueueAttributes {"QueueUrl":"jobs","Attributes":{"DelaySeconds":"5"}} => {}
PurgeQueue {"QueueUrl":"jobs"} => {}
DeleteQueue {"QueueUrl":"jobs"} => {}
GetQueueUrl {"QueueName":"jobs"} => {"QueueUrl":"http://localhost:9324/000000000000/jobs"}
ListQueues {"QueueNamePrefix":"b,A-1"} => {"QueueUrls":["http://localhost:9324/000000000000/b","http://localhost:9324/000000000000/A-1"]}
ListDeadLetterSourceQueues {"QueueUrl":"alpha"} => {"queueUrls":["http://localhost:9324/000000000000/alpha"]}
GetQueueAttributes {"QueueUrl":"beta","AttributeNames":["All"]} => {"Attributes":{"ApproximateNumberOfMessages":"7","ApproximateNumberOfMessagesDelayed":"0","ApproximateNumberOfMessagesNotVisible":"18446744073709551615","CreatedTimestamp":"4","DelaySeconds":"1","LastModifiedTimestamp":"5","MaximumMessageSize":"1025","MessageRetentionPeriod":"61","QueueArn":"arn:aws:sqs:elasticmq:000000000000:beta","ReceiveMessageWaitTimeSeconds":"3","RedrivePolicy":"{\"deadLetterTargetArn\":\"arn:aws:sqs:elasticmq:000000000000:alpha\",\"maxReceiveCount\":3}","VisibilityTimeout":"2"}}
SendMessage {"QueueUrl":"jobs","MessageBody":"hello","DelaySeconds":7} => {"MD5OfMessageBody":"5d41402abc4b2a76b9719d911017c592","MessageId":"01234567-89ab-cdef-fedc-ba9876543210"}
SendMessage {"QueueUrl":"jobs","MessageBody":"hello","MessageAttributes":{"b":{"DataType":"String","StringValue":"x"},"a":{"DataType":"Binary","BinaryValue":"AA=="}}} => {"MD5OfMessageAttributes":"2cc23ebbcef47291d79349d5c0a33a94","MD5OfMessageBody":"5d41402abc4b2a76b9719d911017c592","MessageId":"01234567-89ab-cdef-fedc-ba9876543210"}
ReceiveMessage {"QueueUrl":"dead","AttributeNames":["All"],"MessageAttributeNames":["b.*","foo"]} => {"Messages":[{"Attributes":{"ApproximateFirstReceiveTimestamp":"6000","ApproximateReceiveCount":"1","SenderId":"000000000000","SentTimestamp":"1000"},"Body":"hi","MD5OfBody":"49f68a5c8493ec2c0bf489821c21fc3b","MD5OfMessageAttributes":"e65da9a78f5eedcdf32f7219d9236dc3","MessageAttributes":{"b.c":{"BinaryValue":"AA==","DataType":"Binary"},"foo":{"DataType":"String","StringValue":"1"}},"MessageId":"00000000-0000-0001-0000-000000000000","ReceiptHandle":"000000000000000100000000000000000000000000000001"},{"Attributes":{"ApproximateFirstReceiveTimestamp":"6000","ApproximateReceiveCount":"1","DeadLetterQueueSourceArn":"arn:aws:sqs:elasticmq:000000000000:jobs","SenderId":"000000000000","SentTimestamp":"1000"},"Body":"a","MD5OfBody":"0cc175b9c0f1b6a831c399e269772661","MessageId":"00000000-0000-0002-0000-000000000000","ReceiptHandle":"000000000000000100000000000000010000000000000001"}]}
ReceiveMessage {"QueueUrl":"dead"} => {"Messages":[{"Body":"hi","MD5OfBody":"49f68a5c8493ec2c0bf489821c21fc3b","MessageId":"00000000-0000-0001-0000-000000000000","ReceiptHandle":"000000000000000100000000000000000000000000000001"},{"Body":"a","MD5OfBody":"0cc175b9c0f1b6a831c399e269772661","MessageId":"00000000-0000-0002-0000-000000000000","ReceiptHandle":"000000000000000100000000000000010000000000000001"}]}
DeleteMessage {"QueueUrl":"jobs","ReceiptHandle":"000000000000000100000000000000020000000000000003"} => {}
ChangeMessageVisibility {"QueueUrl":"jobs","ReceiptHandle":"000000000000000100000000000000020000000000000003","VisibilityTimeout":4} => {}
SendMessageBatch {"QueueUrl":"jobs","Entries":[{"Id":"e","MessageBody":"a"},{"Id":"d"},{"Id":"c","MessageBody":"b","MessageAttributes":{"b":{"DataType":"String","StringValue":"x"},"a":{"DataType":"Binary","BinaryValue":"AA=="}}},{"Id":"b","MessageBody":"\u0001"},{"Id":"z","MessageBody":"a","DelaySeconds":1},{"Id":"a-_9","MessageBody":"a"}]} => {"Failed":[{"Code":"InvalidParameterValue","Id":"d","Message":"Parameter value not allowed.","SenderFault":true},{"Code":"InvalidMessageContents","Id":"b","Message":"Characters not allowed in the message.","SenderFault":true},{"Code":"JournalFull","Id":"a-_9","Message":"The journal of the queue is full.","SenderFault":false}],"Successful":[{"Id":"e","MD5OfMessageBody":"0cc175b9c0f1b6a831c399e269772661","MessageId":"00000000-0000-0001-0000-000000000000"},{"Id":"c","MD5OfMessageAttributes":"2cc23ebbcef47291d79349d5c0a33a94","MD5OfMessageBody":"92eb5ffee6ae2fec3ad71c777531578f","MessageId":"00000000-0000-0001-0000-000000000000"},{"Id":"z"}]}
DeleteMessageBatch {"QueueUrl":"jobs","Entries":[{"Id":"a","ReceiptHandle":"z"},{"Id":"b","ReceiptHandle":"000000000000000100000000000000020000000000000003"},{"Id":"z","ReceiptHandle":"000000000000000100000000000000020000000000000003"},{"Id":"a-_9","ReceiptHandle":"000000000000000100000000000000020000000000000003"}]} => {"Failed":[{"Code":"ReceiptHandleIsInvalid","Id":"a","Message":"The receipt handle is not valid.","SenderFault":true},{"Code":"JournalFull","Id":"a-_9","Message":"The journal of the queue is full.","SenderFault":false}],"Successful":[{"Id":"b"},{"Id":"z"}]}
ChangeMessageVisibilityBatch {"QueueUrl":"jobs","Entries":[{"Id":"a","ReceiptHandle":"000000000000000100000000000000020000000000000003","VisibilityTimeout":4},{"Id":"b","ReceiptHandle":"z","VisibilityTimeout":4},{"Id":"z","ReceiptHandle":"000000000000000100000000000000020000000000000003","VisibilityTimeout":4},{"Id":"a-_9","ReceiptHandle":"000000000000000100000000000000020000000000000003","VisibilityTimeout":4}]} => {"Failed":[{"Code":"ReceiptHandleIsInvalid","Id":"b","Message":"The receipt handle is not valid.","SenderFault":true},{"Code":"JournalFull","Id":"a-_9","Message":"The journal of the queue is full.","SenderFault":false}],"Successful":[{"Id":"a"},{"Id":"z"}]}
nothing => {"Failed":[],"Successful":[]}
names {"QueueUrl":"http://localhost:9324/000000000000/jobs"} => jobs
names {"QueueUrl":null} => none
read CreateQueue {"QueueName":"jobs","Attributes":{"VisibilityTimeout":"1","RedrivePolicy":"{\"deadLetterTargetArn\":\"arn:aws:sqs:elasticmq:000000000000:dead\",\"maxReceiveCount\":1}"}} => (0, 1, "dead", 1)
read SetQueueAttributes {"QueueUrl":"beta","Attributes":{"RedrivePolicy":"{\"deadLetterTargetArn\":\"arn:aws:sqs:elasticmq:000000000000:beta\",\"maxReceiveCount\":3}","DelaySeconds":"5"}} => (5, 30, "beta", 3)
read ListQueues {"QueueNamePrefix":"/ \n","MaxResults":1} => Text { text: "/ \n" }
read ReceiveMessage {"QueueUrl":"jobs"} => (1, None, None, [], [])
read ReceiveMessage {"QueueUrl":"jobs","MaxNumberOfMessages":null,"VisibilityTimeout":null,"WaitTimeSeconds":null,"AttributeNames":null} => (1, None, None, [], [])
read ReceiveMessage {"QueueUrl":"jobs","MaxNumberOfMessages":1,"VisibilityTimeout":0,"WaitTimeSeconds":0} => (1, Some(Timeout { seconds: 0 }), Some(0), [], [])
read ReceiveMessage {"QueueUrl":"jobs","MaxNumberOfMessages":10,"VisibilityTimeout":43200,"WaitTimeSeconds":20} => (10, Some(Timeout { seconds: 43200 }), Some(20), [], [])
read ReceiveMessage {"WaitTimeSeconds":3,"VisibilityTimeout":4,"MaxNumberOfMessages":2,"QueueUrl":"jobs","MessageBody":5} => (2, Some(Timeout { seconds: 4 }), Some(3), [], [])
read ReceiveMessage {"QueueUrl":"jobs","AttributeNames":["SentTimestamp","SentTimestamp"],"MessageSystemAttributeNames":["SenderId"],"MessageAttributeNames":["b","All","foo.*","b",""]} => (1, None, None, [Sender, Sent], [Text { text: "b" }, Text { text: "All" }, Text { text: "foo.*" }, Text { text: "b" }, Text { text: "" }])
read ReceiveMessage {"QueueUrl":"jobs","MessageAttributeNames":["x y","\u00e9","AWS."],"AttributeNames":["All"]} => (1, None, None, [FirstReceive, ReceiveCount, Source, Sender, Sent], [Text { text: "x y" }, Text { text: "é" }, Text { text: "AWS." }])
read DeleteMessage {"QueueUrl":"jobs","ReceiptHandle":"000000000000000100000000000000000000000000000001","VisibilityTimeout":0} => Handle { uid: 1, number: 0, receipt: 1 }
read DeleteMessage {"QueueUrl":"//a/jobs","ReceiptHandle":"0123456789abcdeffedcba987654321000000000000003e8","VisibilityTimeout":43200} => Handle { uid: 81985529216486895, number: 18364758544493064720, receipt: 1000 }
read DeleteMessage {"VisibilityTimeout":60,"ReceiptHandle":"000000000000000000000000000000000000000000000000","QueueUrl":"jobs"} => Handle { uid: 0, number: 0, receipt: 0 }
read ChangeMessageVisibility {"QueueUrl":"jobs","ReceiptHandle":"000000000000000100000000000000000000000000000001","VisibilityTimeout":0} => (Handle { uid: 1, number: 0, receipt: 1 }, Timeout { seconds: 0 })
read ChangeMessageVisibility {"QueueUrl":"//a/jobs","ReceiptHandle":"0123456789abcdeffedcba987654321000000000000003e8","VisibilityTimeout":43200} => (Handle { uid: 81985529216486895, number: 18364758544493064720, receipt: 1000 }, Timeout { seconds: 43200 })
read ChangeMessageVisibility {"VisibilityTimeout":60,"ReceiptHandle":"000000000000000000000000000000000000000000000000","QueueUrl":"jobs"} => (Handle { uid: 0, number: 0, receipt: 0 }, Timeout { seconds: 60 })
"#;

/// Each line of [`LINES`] is told as it says. A call whose allocation is refused answers
/// `OutOfMemory`, and the same call gives its value after it. The gate runs this with ample memory,
/// where the first calls answer; `rt try --test --fail-alloc N -- refused_memory` refuses the Nth
/// allocation.
#[test]
fn refused_memory(rt: HostRuntime) -> Result<(), Fail> {
    let ticks = &mut Ticks::new(&rt);
    for line in LINES.lines() {
        let (asked, wanted) = line.split_once(" => ").unwrap_or((line, ""));
        let told = told_again(rt.alloc(), ticks, asked)?;
        assert_eq!(rt; told.as_str(), wanted, "{asked}");
    }
    Ok(())
}

/// What is told of a line, where a call whose memory is refused is made again.
fn told_again(alloc: Global, ticks: &mut Ticks, line: &str) -> Result<String, Fault> {
    match told(alloc, ticks, line) {
        Err(Fault::OutOfMemory) => told(alloc, ticks, line),
        told => told,
    }
}

/// What is told of a line.
fn told(alloc: Global, ticks: &mut Ticks, line: &str) -> Result<String, Fault> {
    match line.split_once(' ') {
        Some(("read", request)) => told_request(alloc, &request_of(alloc, request)?),
        Some(("names", body)) => told_queue(alloc, body),
        Some(_) => reply_text(
            alloc,
            9324,
            &shape_of(alloc, request_of(alloc, line)?, ticks)?,
        ),
        None => reply_text(alloc, 9324, &ReplyShape::Batch(BatchAnswers::new(alloc))),
    }
}

/// The request that an action and a body are.
fn request_of(alloc: Global, text: &str) -> Result<Request, Fault> {
    let (action, body) = text.split_once(' ').unwrap_or((text, ""));
    parse(alloc, action, body.as_bytes())
}

/// Tells which queue a body names, or that it names none.
fn told_queue(alloc: Global, body: &str) -> Result<String, Fault> {
    match read_queue(alloc, body.as_bytes())? {
        Some(queue) => Ok(String::from_str(alloc, queue.as_text())?),
        None => Ok(String::from_str(alloc, "none")?),
    }
}

/// Tells a value as it prints itself.
fn shown<T: Debug>(alloc: Global, value: &T) -> Result<String, Fault> {
    Ok(format!(in alloc; "{value:?}")?)
}

/// Tells what of a request no reply shows.
fn told_request(alloc: Global, request: &Request) -> Result<String, Fault> {
    match request {
        Request::CreateQueue { wish, .. } | Request::SetQueueAttributes { wish, .. } => {
            told_wish(alloc, wish)
        }
        Request::ListQueues { prefix } => shown(alloc, prefix),
        Request::ReceiveMessage {
            maximum,
            timeout,
            wait,
            names,
            attributes,
            ..
        } => {
            let (names, attributes) = (names.asked.as_slice(), attributes.as_slice());
            shown(
                alloc,
                &(maximum.messages(), timeout, wait, names, attributes),
            )
        }
        Request::DeleteMessage { handle, .. } => shown(alloc, handle),
        Request::ChangeMessageVisibility {
            handle,
            timeout,
            ..
        } => shown(alloc, &(handle, timeout)),
        _ => Err(Fault::UnsupportedOperation),
    }
}

/// Tells the delay and the timeout that a queue of the defaults gets, and its policy.
fn told_wish(alloc: Global, wish: &Wish) -> Result<String, Fault> {
    let settings = Settings::default().with(wish, 0);
    let (delay, timeout) = (settings.delay_seconds, settings.visibility_timeout);
    let policy = settings.redrive_policy.ok_or(Fault::InvalidParameterValue)?;
    shown(
        alloc,
        &(
            delay,
            timeout,
            policy.name.as_text(),
            policy.max_receive_count,
        ),
    )
}

/// What a request is answered here: a list of queues by [`listed`], a send by an id of many digits, a
/// request for attributes by [`look`], a receive by [`offered`], a batch by [`answer_of`], and
/// others as if they were done.
fn shape_of(alloc: Global, request: Request, ticks: &mut Ticks) -> Result<ReplyShape, Fault> {
    match request {
        Request::CreateQueue { name, .. } => Ok(ReplyShape::QueueUrl(name)),
        Request::GetQueueUrl { name } => Ok(ReplyShape::QueueUrl(name)),
        Request::ListQueues { prefix } => {
            Ok(ReplyShape::QueueUrls(listed(alloc, prefix.as_text())?))
        }
        Request::ListDeadLetterSourceQueues { queue } => {
            Ok(ReplyShape::SourceQueueUrls(listed(alloc, queue.as_text())?))
        }
        Request::SendMessage { content, .. } => Ok(sent(content)),
        Request::GetQueueAttributes { queue, names } => looked(queue, names),
        Request::ReceiveMessage {
            names,
            attributes,
            ..
        } => received(alloc, names, attributes, ticks),
        Request::Batch { entries, .. } => done(alloc, entries),
        _ => Ok(ReplyShape::Nothing),
    }
}

/// The queues whose names a text is, with commas between them, in this order.
fn listed(alloc: Global, text: &str) -> Result<QueueNames, Fault> {
    let mut names = Vec::new(alloc);
    for name in text.split(',') {
        names.push(QueueName::read(name)?)?;
    }
    Ok(QueueNames::new(names))
}

/// A moment of so many milliseconds, which a moment can have.
fn moment(milliseconds: u64) -> Moment {
    Moment::new(milliseconds).unwrap_or(Moment::zero())
}

/// The answer to a send, by an id of many digits.
fn sent(content: Content) -> ReplyShape {
    let id = MessageId {
        uid: 0x0123456789ABCDEF,
        number: 0xFEDCBA9876543210,
    };
    ReplyShape::Sent { content, id }
}

/// The answer to a request for attributes.
fn looked(queue: QueueName, names: Option<AttributeNames>) -> Result<ReplyShape, Fault> {
    let look = look(QueueName::read("alpha")?);
    Ok(ReplyShape::Attributes { names, queue, look })
}

/// A look at a queue of 7 visible messages, none delayed, and the most in flight that a count can
/// say, whose other numbers are all different, with a dead-letter queue of this name.
fn look(name: QueueName) -> Look {
    Look {
        gauges: Gauges {
            visible: 7,
            delayed: 0,
            in_flight: u64::MAX,
            age: 8,
        },
        settings: Settings {
            delay_seconds: 1,
            visibility_timeout: 2,
            retention_seconds: 61,
            wait_seconds: 3,
            maximum_message_size: 1025,
            redrive_policy: Some(RedrivePolicy {
                target: 1,
                name,
                max_receive_count: 3,
            }),
        },
        created: moment(4999),
        modified: moment(5000),
        lines: 6,
        clock: moment(7000),
        closed: false,
    }
}

/// What is sent by a request.
fn content_of(alloc: Global, request: &str) -> Result<Content, Fault> {
    match request_of(alloc, request)? {
        Request::SendMessage { content, .. } => Ok(content),
        _ => Err(Fault::UnsupportedOperation),
    }
}

/// A dead letter that the queue `jobs` of the uid 2 lost to the queue of the uid 1.
fn dead_letter(alloc: Global) -> Result<Parcel, Fault> {
    let content = content_of(
        alloc,
        r#"SendMessage {"QueueUrl":"jobs","MessageBody":"a"}"#,
    )?;
    let origin = Origin {
        uid: 2,
        number: 0,
        name: QueueName::read("jobs")?,
        id: MessageId { uid: 2, number: 0 },
        sent: moment(1000),
    };
    Ok(Parcel {
        origin,
        target: 1,
        content,
    })
}

/// What was sent to the queue `dead`.
const SENT: &str =
    r#"SendMessage {"QueueUrl":"dead","MessageBody":"hi","MessageAttributes":{"foo":{"DataType":"String","StringValue":"1"},"foobar":{"DataType":"Number","StringValue":"2"},"b.c":{"DataType":"Binary","BinaryValue":"AA=="}}}"#;

/// The queue `dead` of the uid 1.
fn opened(alloc: Global) -> Result<QueueState, Fault> {
    let (name, rules) = (QueueName::read("dead")?, Vec::new(alloc));
    let (settings, limits) = (Settings::default(), Limits::default());
    QueueState::open(alloc, 1, name, settings, limits, rules, Moment::zero())
}

/// What the first receive at 6000 offers of a queue, to which a message was sent at 1000, and where a
/// dead letter arrived at 5000.
fn offered(alloc: Global, queue: &mut QueueState, ticks: &mut Ticks) -> Result<Offers, Fault> {
    queue.send(alloc, moment(1000), content_of(alloc, SENT)?, None, ticks)?;
    queue.arrive(alloc, moment(5000), dead_letter(alloc)?, ticks)?;
    queue.receive(alloc, moment(6000), 10, None, ticks)
}

/// The answer to a receive.
fn received(
    alloc: Global,
    names: ReceiveNames,
    attributes: Patterns,
    ticks: &mut Ticks,
) -> Result<ReplyShape, Fault> {
    let offers = offered(alloc, &mut opened(alloc)?, ticks)?;
    Ok(ReplyShape::Messages {
        uid: 1,
        names,
        attributes,
        offers,
    })
}

/// The answers to the entries of a batch.
fn done(alloc: Global, entries: Entries) -> Result<ReplyShape, Fault> {
    let mut answers = BatchAnswers::new(alloc);
    for entry in entries.into_vec() {
        let BatchEntry { id, command } = entry;
        let answer = answer_of(id, command);
        answers.push(alloc, BatchAnswer { id, answer })?;
    }
    Ok(ReplyShape::Batch(answers))
}

/// The answer to an entry: one of the id `a-_9` finds the journal full, a send without a delay is
/// answered as sent, and any other command as done.
fn answer_of(id: QueueName, command: Result<Command, Fault>) -> Result<EntryReply, Fault> {
    if id.as_text() == "a-_9" {
        return Err(Fault::JournalFull);
    }
    match command? {
        Command::Send {
            content,
            delay: None,
        } => {
            let id = MessageId { uid: 1, number: 0 };
            Ok(EntryReply::Sent { content, id })
        }
        _ => Ok(EntryReply::Done),
    }
}

/// The refusals that no stored run is answered, each with its status and text, in the order of the
/// table in docs/PROFILE.md.
const REFUSALS: &str =
    r#"400 {"__type":"com.amazonaws.sqs#BatchRequestTooLong","message":"The batch is too long."}
500 {"__type":"com.amazonaws.sqs#OutOfMemory","message":"Out of memory."}
500 {"__type":"com.amazonaws.sqs#Spent","message":"The desk is spent."}
500 {"__type":"com.amazonaws.sqs#ActorGone","message":"The queue has stopped."}
"#;

#[test]
fn refusals(rt: HostRuntime) -> Result<(), Fail> {
    let faults = [
        Fault::BatchRequestTooLong,
        Fault::OutOfMemory,
        Fault::Spent,
        Fault::ActorGone,
    ];
    let mut told = String::new(rt.alloc());
    for fault in &faults {
        write!(told, "{} {}\n", status(*fault), fault_text(*fault))?;
    }
    assert_eq!(rt; told.as_str(), REFUSALS);
    Ok(())
}

/// Each action that is served has a place of its own, and nothing else has one.
#[test]
fn places_of_actions(rt: HostRuntime) {
    for place in 0..ACTION_COUNT {
        assert!(rt; action_at(place).and_then(action_place) == Some(place));
    }
    assert!(rt; action_at(ACTION_COUNT).is_none());
    assert!(rt; action_place("sendMessage").is_none());
}

#[test]
fn behind_the_last_slash(rt: HostRuntime) {
    for url in ["http://localhost:9324/000000000000/jobs", "/jobs", "jobs"] {
        assert_eq!(rt; name_part(url), "jobs", "{url}");
    }
}
