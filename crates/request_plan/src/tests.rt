//! Requests that are asked of a queue in memory, step by step.

use crate::{Outcome, Performed, Step, Task, after, task_of};
use aws_json::{fault_text, parse, reply_text};
use journal::{Moment, Ticks};
use message::{Fault, QueueName};
use queue_config::{Limits, Settings};
use queue_core::{Command, QueueState};
use std::alloc::{AllocError, Global};
use std::process::Abort;

/// Requests to a new queue with `|` between two, behind an arrow the commands that the last one asks, each with the
/// seconds that it may wait, and behind another one a part of what its client is told. What is wanted was worked out by
/// hand from the API reference and RFC 1321; what is said of a refusal is that of aws_json's own cases.
const CASES: &str =
    r#"SendMessage {"QueueUrl":"jobs","MessageBody":"a"} => Send 0 => "MD5OfMessageBody":"0cc175b9c0f1b6a831c399e269772661"
SendMessage {"QueueUrl":"jobs","MessageBody":"a"}|GetQueueAttributes {"QueueUrl":"jobs","AttributeNames":["ApproximateNumberOfMessages"]} => Look 0 => {"Attributes":{"ApproximateNumberOfMessages":"1"}}
SendMessage {"QueueUrl":"jobs","MessageBody":"a"}|ReceiveMessage {"QueueUrl":"jobs","WaitTimeSeconds":20} => Receive 20 => "Body":"a"
SendMessage {"QueueUrl":"jobs","MessageBody":"a"}|ReceiveMessage {"QueueUrl":"jobs"} => Look 0 Receive 5 => "Body":"a"
ReceiveMessage {"QueueUrl":"jobs"} => Look 0 Receive 5 => {}
SendMessage {"QueueUrl":"jobs","MessageBody":"a"}|PurgeQueue {"QueueUrl":"jobs"} => Purge 0 => {}
DeleteMessage {"QueueUrl":"jobs","ReceiptHandle":"000000000000000200000000000000000000000000000001"} => Delete 0 => ReceiptHandleIsInvalid
ChangeMessageVisibility {"QueueUrl":"jobs","ReceiptHandle":"000000000000000200000000000000000000000000000001","VisibilityTimeout":1} => Change 0 => ReceiptHandleIsInvalid
SendMessageBatch {"QueueUrl":"jobs","Entries":[{"Id":"x","MessageBody":"a"},{"Id":"y","MessageBody":""},{"Id":"z","MessageBody":"b"}]} => Send 0 Send 0 => "Failed":[{"Code":"InvalidParameterValue","Id":"y"
SendMessageBatch {"QueueUrl":"jobs","Entries":[{"Id":"x","MessageBody":"a"},{"Id":"y","MessageBody":""},{"Id":"z","MessageBody":"b"}]} => Send 0 Send 0 => "MD5OfMessageBody":"92eb5ffee6ae2fec3ad71c777531578f"
SendMessageBatch {"QueueUrl":"jobs","Entries":[{"Id":"y","MessageBody":""}]} =>  => "Successful":[]
"#;

/// Why a test stops.
#[derive(Debug, Drop)]
enum Fail {
    Memory,
    Refused(Fault),
    Form(&'static str),
}

impl From<AllocError> for Fail {
    fn from(_refused: AllocError) -> Fail {
        Fail::Memory
    }
}

impl From<Fault> for Fail {
    fn from(fault: Fault) -> Fail {
        match fault {
            Fault::OutOfMemory => Fail::Memory,
            fault => Fail::Refused(fault),
        }
    }
}

impl From<&'static str> for Fail {
    fn from(why: &'static str) -> Fail {
        Fail::Form(why)
    }
}

/// A queue that was opened at 0, and waits five seconds for messages where a request does not say how long.
fn open(alloc: Global) -> Result<QueueState, Fault> {
    let settings = Settings {
        wait_seconds: 5,
        ..Settings::default()
    };
    let (name, rules) = (QueueName::read("jobs")?, Vec::new(alloc));
    QueueState::open(
        alloc,
        1,
        name,
        settings,
        Limits::default(),
        rules,
        Moment::zero(),
    )
}

/// The word for a command.
fn word_of(command: &Command) -> &'static str {
    match command {
        Command::Send { .. } => "Send",
        Command::Receive { .. } => "Receive",
        Command::Delete { .. } => "Delete",
        Command::Change { .. } => "Change",
        Command::Purge => "Purge",
        Command::Look => "Look",
        _ => "another",
    }
}

/// A queue, its clock's counter, and what was asked of it.
#[derive(Drop)]
struct Talk {
    alloc: Global,
    queue: QueueState,
    ticks: Ticks,
    asked: String,
}

impl Talk {
    fn new(rt: &HostRuntime, alloc: Global) -> Result<Talk, Fail> {
        Ok(Talk {
            alloc,
            queue: open(alloc)?,
            ticks: Ticks::new(rt),
            asked: String::new(alloc),
        })
    }

    /// Asks a command of the queue.
    fn perform(&mut self, command: Command, seconds: u64) -> Result<Outcome, Fail> {
        let word = word_of(&command);
        let gap = if self.asked.is_empty() { "" } else { " " };
        let told = format!(in self.alloc; "{gap}{word} {seconds}")?;
        self.asked.push_str(told.as_str())?;
        let done = self
            .queue
            .perform(self.alloc, Moment::zero(), &command, &mut self.ticks);
        match done {
            Ok(reply) => Ok(Ok(Performed { command, reply })),
            Err(Fault::OutOfMemory) => Err(Fail::Memory),
            Err(fault) => Ok(Err(fault)),
        }
    }

    /// What a client is told in the end.
    fn answer(&mut self, first: Step) -> Result<String, Fail> {
        let mut step = first;
        for _ in 0..10 {
            match step {
                Step::Ask {
                    command,
                    seconds,
                    then,
                } => {
                    let outcome = self.perform(command, seconds)?;
                    step = after(self.alloc, 1, then, outcome);
                }
                Step::Answer(Ok(shape)) => return Ok(reply_text(self.alloc, 9324, &shape)?),
                Step::Answer(Err(Fault::OutOfMemory)) => return Err(Fail::Memory),
                Step::Answer(Err(fault)) => {
                    return Ok(String::from_str(self.alloc, fault_text(fault))?);
                }
            }
        }
        Err(Fail::Form("an end"))
    }

    /// The same of a request.
    fn ask(&mut self, request: &str) -> Result<String, Fail> {
        self.asked = String::new(self.alloc);
        let (action, body) = request.split_once(' ').ok_or("a body")?;
        let request = parse(self.alloc, action, body.as_bytes())?;
        match task_of(self.alloc, request) {
            Task::Ask { queue: _, step } => self.answer(step),
            _ => Err(Fail::Form("a queue")),
        }
    }
}

/// Batches whose first entry finds no memory, behind an arrow the commands that are asked behind that, and behind another
/// one what the client is told: that entry fails by itself, and the one behind it is asked all the same.
const STARVED: &str =
    r#"SendMessageBatch {"QueueUrl":"jobs","Entries":[{"Id":"x","MessageBody":"a"},{"Id":"y","MessageBody":"a"}]} => Send 0 => {"Failed":[{"Code":"OutOfMemory","Id":"x","Message":"Out of memory.","SenderFault":false}],"Successful":[{"Id":"y","MD5OfMessageBody":"0cc175b9c0f1b6a831c399e269772661","MessageId":"00000000-0000-0001-0000-000000000000"}]}
DeleteMessageBatch {"QueueUrl":"jobs","Entries":[{"Id":"x","ReceiptHandle":"000000000000000100000000000000000000000000000001"},{"Id":"y","ReceiptHandle":"000000000000000100000000000000000000000000000001"}]} => Delete 0 => {"Failed":[{"Code":"OutOfMemory","Id":"x","Message":"Out of memory.","SenderFault":false},{"Code":"ReceiptHandleIsInvalid","Id":"y","Message":"The receipt handle is not valid.","SenderFault":true}],"Successful":[]}
ChangeMessageVisibilityBatch {"QueueUrl":"jobs","Entries":[{"Id":"x","ReceiptHandle":"000000000000000100000000000000000000000000000001","VisibilityTimeout":1},{"Id":"y","ReceiptHandle":"000000000000000100000000000000000000000000000001","VisibilityTimeout":1}]} => Change 0 => {"Failed":[{"Code":"OutOfMemory","Id":"x","Message":"Out of memory.","SenderFault":false},{"Code":"ReceiptHandleIsInvalid","Id":"y","Message":"The receipt handle is not valid.","SenderFault":true}],"Successful":[]}
"#;

/// What is asked for a batch behind its first entry, which finds no memory, and what its client is told.
fn starved(rt: &HostRuntime, alloc: Global, batch: &str) -> Result<(String, String), Fail> {
    let mut talk = Talk::new(rt, alloc)?;
    let (action, body) = batch.split_once(' ').ok_or("a body")?;
    let request = parse(alloc, action, body.as_bytes())?;
    let told = match task_of(alloc, request) {
        Task::Ask {
            queue: _,
            step: Step::Ask { then, .. },
        } => talk.answer(after(alloc, 1, then, Err(Fault::OutOfMemory)))?,
        _ => return Err(Fail::Form("a command")),
    };
    Ok((talk.asked, told))
}

/// What is asked for the last of some requests, and what its client is told.
fn last_of(rt: &HostRuntime, alloc: Global, requests: &str) -> Result<(String, String), Fail> {
    let mut talk = Talk::new(rt, alloc)?;
    let mut told = String::new(alloc);
    for request in requests.split('|') {
        told = talk.ask(request)?;
    }
    Ok((talk.asked, told))
}

/// Each request asks its commands, and its client is told what they came to. Requests whose memory was refused are asked
/// of another queue.
#[test]
fn requests(rt: HostRuntime) -> Result<(), Fail> {
    for case in CASES.lines() {
        let (requests, wanted) = case.split_once(" => ").ok_or("commands")?;
        let (commands, part) = wanted.split_once(" => ").ok_or("an answer")?;
        let (asked, told) = match last_of(&rt, rt.alloc(), requests) {
            Err(Fail::Memory) => last_of(&rt, rt.alloc(), requests)?,
            said => said?,
        };
        assert_eq!(rt; asked.as_str(), commands);
        assert!(rt; told.as_str().contains(part), "{told}");
    }
    Ok(())
}

/// An entry of a batch that finds no memory fails by itself.
#[test]
fn entry_without_memory(rt: HostRuntime) -> Result<(), Fail> {
    for case in STARVED.lines() {
        let (batch, wanted) = case.split_once(" => ").ok_or("commands")?;
        let (commands, answer) = wanted.split_once(" => ").ok_or("an answer")?;
        let (asked, told) = match starved(&rt, rt.alloc(), batch) {
            Err(Fail::Memory) => starved(&rt, rt.alloc(), batch)?,
            said => said?,
        };
        assert_eq!(rt; asked.as_str(), commands);
        assert_eq!(rt; told.as_str(), answer);
    }
    Ok(())
}

/// The task that a request begins.
fn word_of_task(task: &Task) -> &'static str {
    match task {
        Task::Create { .. } => "Create",
        Task::Delete { .. } => "Delete",
        Task::Set { .. } => "Set",
        Task::Url { .. } => "Url",
        Task::Urls { .. } => "Urls",
        Task::Sources { .. } => "Sources",
        Task::Ask { .. } => "Ask",
    }
}

/// Requests about the directory, and behind an arrow what they are about.
const TASKS: &str = r#"CreateQueue {"QueueName":"jobs"} => Create
DeleteQueue {"QueueUrl":"jobs"} => Delete
SetQueueAttributes {"QueueUrl":"jobs","Attributes":{"DelaySeconds":"1"}} => Set
GetQueueUrl {"QueueName":"jobs"} => Url
ListQueues {} => Urls
ListDeadLetterSourceQueues {"QueueUrl":"jobs"} => Sources
PurgeQueue {"QueueUrl":"jobs"} => Ask
"#;

/// What a request is about; one whose memory was refused is read again.
#[test]
fn tasks(rt: HostRuntime) -> Result<(), Fail> {
    let alloc = rt.alloc();
    for case in TASKS.lines() {
        let (request, wanted) = case.split_once(" => ").ok_or("a task")?;
        let (action, body) = request.split_once(' ').ok_or("a body")?;
        let request = match parse(alloc, action, body.as_bytes()) {
            Err(Fault::OutOfMemory) => parse(alloc, action, body.as_bytes())?,
            read => read?,
        };
        assert_eq!(rt; word_of_task(&task_of(alloc, request)), wanted);
    }
    Ok(())
}
