//! Lines for requests, the refusals by their bytes, and the actions by their names.

use crate::refusal::{Refusal, refusal_of};
use crate::{Burst, Level, PLACES, Reply, line_for, name_at, notice_line, place_of};
use aws_json::{fault_text, status};
use journal::Moment;
use message::Fault;
use std::alloc::{AllocError, Global};
use std::process::Abort;

/// A moment in milliseconds since 1970, an action, a body, a status, a reply, and behind an arrow the line. The texts were
/// worked out by hand; what is said behind the name of a refusal is that of aws_json's own cases.
const LINES: &str =
    r#"43384123 SendMessage {"QueueUrl":"http://localhost:9324/000000000000/jobs","MessageBody":""} 400 {"__type":"com.amazonaws.sqs#InvalidParameterValue","message":"Parameter value not allowed."} => 12:03:04.123Z SendMessage jobs 400 InvalidParameterValue: MessageBody is empty
0 ListQueues {} 200 {"QueueUrls":[]} => 00:00:00.000Z ListQueues - 200
86399999 CreateQueue {"QueueName":"jobs"} 200 {"QueueUrl":"http://localhost:9324/000000000000/jobs"} => 23:59:59.999Z CreateQueue jobs 200
86400000 GetQueueUrl {"QueueName":"jobs"} 400 {"__type":"com.amazonaws.sqs#QueueDoesNotExist","message":"The specified queue does not exist."} => 00:00:00.000Z GetQueueUrl jobs 400 QueueDoesNotExist: QueueName is jobs, and no open queue has this name
1764218284007 Foo {} 400 {"__type":"com.amazonaws.sqs#UnsupportedOperation","message":"The action is not supported."} => 04:38:04.007Z - - 400 UnsupportedOperation: The action Foo is not served
61000 SendMessageBatch {"QueueUrl":"jobs","Entries":[{"Id":"a","MessageBody":"x"},{"Id":"b","MessageBody":""}]} 200 {"Failed":[{"Code":"InvalidParameterValue","Id":"b","Message":"Parameter value not allowed.","SenderFault":true}],"Successful":[]} => 00:01:01.000Z SendMessageBatch jobs 200 InvalidParameterValue: Entries[1].MessageBody is empty; 1 entry was refused: "b"
61000 SendMessageBatch {"QueueUrl":"jobs","Entries":[{"Id":"a","MessageBody":""},{"Id":"b","MessageBody":""}]} 200 {"Failed":[{"Code":"InvalidParameterValue","Id":"a","Message":"Parameter value not allowed.","SenderFault":true},{"Code":"InvalidParameterValue","Id":"b","Message":"Parameter value not allowed.","SenderFault":true}],"Successful":[]} => 00:01:01.000Z SendMessageBatch jobs 200 InvalidParameterValue: Entries[0].MessageBody is empty; 2 entries were refused: "a", "b"
61000 SendMessageBatch {"QueueUrl":"jobs","Entries":[{"Id":"a","MessageBody":""},{"Id":"b","MessageBody":"\u0001"}]} 200 {"Failed":[{"Code":"InvalidParameterValue","Id":"a","Message":"Parameter value not allowed.","SenderFault":true},{"Code":"InvalidMessageContents","Id":"b","Message":"Characters not allowed in the message.","SenderFault":true}],"Successful":[]} => 00:01:01.000Z SendMessageBatch jobs 200 InvalidParameterValue: Entries[0].MessageBody is empty; 2 entries were refused: "a", "b"
61000 SendMessageBatch {"QueueUrl":"jobs","Entries":[{"Id":"c","MessageBody":"a"},{"Id":"d","MessageBody":""},{"Id":"-b_2","MessageBody":""},{"Id":"xxxxxxxxxxxxxxxxxxxxxxxxxxxxxxxxxxxxxxxxxxxxxxxxxxxxxxxxxxxxxxxxxxxxxxxxxxxxxxxx","MessageBody":""}]} 200 {"Failed":[{"Code":"InvalidParameterValue","Id":"d","Message":"Parameter value not allowed.","SenderFault":true},{"Code":"InvalidParameterValue","Id":"-b_2","Message":"Parameter value not allowed.","SenderFault":true},{"Code":"InvalidParameterValue","Id":"xxxxxxxxxxxxxxxxxxxxxxxxxxxxxxxxxxxxxxxxxxxxxxxxxxxxxxxxxxxxxxxxxxxxxxxxxxxxxxxx","Message":"Parameter value not allowed.","SenderFault":true}],"Successful":[]} => 00:01:01.000Z SendMessageBatch jobs 200 InvalidParameterValue: Entries[1].MessageBody is empty; 3 entries were refused: "d", "-b_2", "xxxxxxxxxxxxxxxxxxxxxxxxxxxxxxxxxxxxxxxxxxxxxxxxxxxxxxxxxxxxxxxxxxxxxxxxxxxxxxxx"
1 -  405 {"message":"method not allowed"} => 00:00:00.001Z - - 405 MethodNotAllowed: its method is not POST; the page, statistics and metrics are at the other port
1 -  403 {"message":"requests of web pages are not answered"} => 00:00:00.001Z - - 403 Forbidden: the request has the header Origin, as requests of web pages do
1 -  413 {"message":"body too large"} => 00:00:00.001Z - - 413 ContentTooLarge: its body has more than 8,388,608 bytes
1 SendMessage {"QueueUrl":"jobs","MessageBody":"a"} 500 {"__type":"com.amazonaws.sqs#ServiceUnavailable","message":"Too many requests wait for the queue."} => 00:00:00.001Z SendMessage jobs 500 ServiceUnavailable: 1,000 requests wait for the queue already
1 -  503 {"__type":"com.amazonaws.sqs#ServiceUnavailable","message":"Too much of other requests is on its way."} => 00:00:00.001Z - - 503 ServiceUnavailable: with its body, the large ones on their way would have more than 33,554,432 bytes
"#;

/// Why a test stops.
#[derive(Debug, Drop)]
enum Fail {
    Memory,
    Form(&'static str),
}

impl From<Fault> for Fail {
    fn from(_fault: Fault) -> Fail {
        Fail::Memory
    }
}

impl From<&'static str> for Fail {
    fn from(why: &'static str) -> Fail {
        Fail::Form(why)
    }
}

/// The moment of so many milliseconds.
fn moment_of(text: &str) -> Option<Moment> {
    text.parse::<u64>().ok().and_then(Moment::new)
}

/// The line for a request.
fn told(alloc: Global, request: &str) -> Result<String, Fail> {
    let (at, rest) = request.split_once(' ').ok_or("a moment")?;
    let (action, rest) = rest.split_once(' ').ok_or("an action")?;
    let (rest, body) = rest.rsplit_once(" {").ok_or("a reply")?;
    let (asked, code) = rest.rsplit_once(' ').ok_or("a status")?;
    let at = moment_of(at).ok_or("a moment")?;
    let status = code.parse::<u16>().ok().ok_or("a status")?;
    let mut reply = String::from_str(alloc, "{").map_err(|_| Fail::Memory)?;
    reply.push_str(body).map_err(|_| Fail::Memory)?;
    let reply = Reply {
        status,
        body: reply.as_bytes(),
    };
    Ok(line_for(alloc, at, action, asked.as_bytes(), &reply)?)
}

/// Each request has its line; one whose memory was refused is asked for again.
#[test]
fn lines(rt: HostRuntime) -> Result<(), Fail> {
    for case in LINES.lines() {
        let (request, wanted) = case.split_once(" => ").ok_or("a line")?;
        let said = match told(rt.alloc(), request) {
            Err(Fail::Memory) => told(rt.alloc(), request)?,
            said => said?,
        };
        assert_eq!(rt; said.as_str(), wanted);
    }
    Ok(())
}

/// Moments, what something happened to and words, each with its line.
const NOTICES: &str =
    "43384123 connection Connection reset by peer (os error 104) => 12:03:04.123Z connection: Connection reset by peer (os error 104)
0 accept Too many open files (os error 24) => 00:00:00.000Z accept: Too many open files (os error 24)";

/// The line for what happened to a connection or a port.
fn noticed(alloc: Global, notice: &str) -> Result<String, Fail> {
    let (at, rest) = notice.split_once(' ').ok_or("a moment")?;
    let (about, words) = rest.split_once(' ').ok_or("words")?;
    let at = moment_of(at).ok_or("a moment")?;
    Ok(notice_line(alloc, at, about, words)?)
}

/// Each of them has its line; one whose memory was refused is asked for again.
#[test]
fn notices(rt: HostRuntime) -> Result<(), Fail> {
    for case in NOTICES.lines() {
        let (notice, wanted) = case.split_once(" => ").ok_or("a line")?;
        let said = match noticed(rt.alloc(), notice) {
            Err(Fail::Memory) => noticed(rt.alloc(), notice)?,
            said => said?,
        };
        assert_eq!(rt; said.as_str(), wanted);
    }
    Ok(())
}

/// Each refusal is known by its bytes, and no success is taken for one.
#[test]
fn refusals(rt: HostRuntime) {
    for fault in [
        Fault::QueueDoesNotExist,
        Fault::QueueNameExists,
        Fault::InvalidAttributeName,
        Fault::InvalidAttributeValue,
        Fault::InvalidParameterValue,
        Fault::InvalidMessageContents,
        Fault::ReceiptHandleIsInvalid,
        Fault::MessageNotInflight,
        Fault::OverLimit,
        Fault::EmptyBatchRequest,
        Fault::TooManyEntriesInBatchRequest,
        Fault::BatchEntryIdsNotDistinct,
        Fault::InvalidBatchEntryId,
        Fault::BatchRequestTooLong,
        Fault::UnsupportedOperation,
        Fault::SerializationException,
        Fault::JournalFull,
        Fault::OutOfMemory,
        Fault::Spent,
        Fault::ActorGone,
    ] {
        let reply = Reply {
            status: status(fault),
            body: fault_text(fault).as_bytes(),
        };
        assert!(rt; refusal_of(&reply) == Some(Refusal::Fault(fault)));
        assert!(rt; reply.is_refusal());
    }
    let reply = Reply {
        status: 200,
        body: br#"{"Failed":[],"Successful":[]}"#,
    };
    assert!(rt; !reply.is_refusal());
}

/// Each action has a place of its own, and the levels have their words.
#[test]
fn places_and_levels(rt: HostRuntime) {
    for place in 0..PLACES {
        assert!(rt; place_of(name_at(place)) == place);
    }
    assert!(rt; place_of("sendMessage") == PLACES - 1);
    assert!(rt; Level::named("refused") == Some(Level::Refused));
    assert!(rt; Level::named("all") == Some(Level::All));
    assert!(rt; Level::named("none") == Some(Level::Nothing));
    assert!(rt; Level::named("None").is_none());
    assert!(rt; Level::Refused.tells(true));
    assert!(rt; !Level::Refused.tells(false));
    assert!(rt; Level::All.tells(false));
    assert!(rt; !Level::Nothing.tells(true));
}

/// A moment in milliseconds and the line that comes then, or nothing, and behind an arrow what is told, with `|` between
/// two.
const BURSTS: &str = "100 a => a
200 b => b
300 b =>
400 b =>
1199  =>
1200  => b (2 times more)
1300 b =>
2250 b => b (2 times more)
2300 b =>
2400 c => b (1 time more)|c
9000 c => c
9999 c =>
20000 c => c (2 times more)
20001 d => d
5000 d => d
6100 12:00:00.000Z GetQueueUrl nope 400 => 12:00:00.000Z GetQueueUrl nope 400
6200 12:00:00.100Z GetQueueUrl nope 400 =>
6900 12:00:00.800Z GetQueueUrl nope 400 =>
7100 12:00:01.000Z GetQueueUrl nope 400 => 12:00:01.000Z GetQueueUrl nope 400 (3 times more)
7200 12:00:01.100Z GetQueueUrl nope 400 =>
7300 12:00:01.200Z GetQueueUrl none 400 => 12:00:01.100Z GetQueueUrl nope 400 (1 time more)|12:00:01.200Z GetQueueUrl none 400
7400 12:00:01.300Z accept: none => 12:00:01.300Z accept: none
7450 12:00:01.350Z accept: none =>
7500 12:00:01.400Z accept: none, again => 12:00:01.350Z accept: none (1 time more)|12:00:01.400Z accept: none, again
7600 12:00:01.500Z jobs 400 missing => 12:00:01.500Z jobs 400 missing
7700 12:00:01.600Z jobs 400 empty => 12:00:01.600Z jobs 400 empty
";

/// What is told of a line.
fn heard(alloc: Global, burst: &mut Burst, at: Moment, line: &str) -> Result<String, AllocError> {
    if line.is_empty() {
        let told = burst.rest(at)?;
        return match told {
            Some(told) => Ok(told),
            None => Ok(String::new(alloc)),
        };
    }
    let (before, is_told) = burst.hear(at, line)?;
    match (before, is_told) {
        (Some(before), true) => format!(in alloc; "{before}|{line}"),
        (Some(before), false) => Ok(before),
        (None, true) => String::from_str(alloc, line),
        (None, false) => Ok(String::new(alloc)),
    }
}

/// The same line over and over is counted; one whose memory was refused is not asked for again, since it may have been
/// told.
#[test]
fn bursts(rt: HostRuntime) -> Result<(), Fail> {
    let mut burst = Burst::new(rt.alloc());
    for case in BURSTS.lines() {
        let (came, wanted) = case.split_once(" =>").ok_or("what is told")?;
        let (at, line) = came.split_once(' ').ok_or("a moment")?;
        let at = at
            .parse::<u64>()
            .ok()
            .and_then(Moment::new)
            .ok_or("a moment")?;
        let Ok(told) = heard(rt.alloc(), &mut burst, at, line) else {
            return Ok(());
        };
        assert_eq!(rt; told.as_str(), wanted.trim(), "{case}");
    }
    Ok(())
}
