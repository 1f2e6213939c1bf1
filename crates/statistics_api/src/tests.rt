//! Each path, method and text. The texts were written by hand from docs/PROFILE.md, with the keys in
//! byte order; the numbers were chosen so that no two of a queue's are the same. Texts with numbers that
//! are 0 stand in the stored runs of `sqs_replay`, as in `order_of_offers`.

use super::*;
use alarm::AlarmState;
use board::Sheet;
use journal::Moment;
use message::{Fault, QueueName};
use metric_window::{Flows, Gauges, Row};
use std::alloc::Global;
use std::process::Abort;
use std::test::Fail;

/// Seven numbers from one on.
fn flows(first: u8) -> Flows {
    let first = u64::from(first);
    Flows {
        dead_letters_arrived: first,
        deleted: first + 1,
        empty_receives: first + 2,
        received: first + 3,
        refused: first + 4,
        sent: first + 5,
        sent_size: first + 6,
    }
}

/// Four numbers from one on.
fn gauges(first: u8) -> Gauges {
    let first = u64::from(first);
    Gauges {
        age: first,
        delayed: first + 1,
        in_flight: first + 2,
        visible: first + 3,
    }
}

/// A queue without rows and alarms. Its journal has so many entries.
fn sheet(alloc: Global, name: &str, lines: u64) -> Result<Sheet, Fault> {
    Ok(Sheet {
        name: QueueName::read(name)?,
        lines,
        clock: Moment::new(4500).ok_or(Fault::InvalidParameterValue)?,
        gauges: gauges(1),
        current: flows(11),
        rows: Vec::new(alloc),
        alarms: Vec::new(alloc),
    })
}

/// The queue jobs with two rows and three alarms.
fn jobs(alloc: Global) -> Result<Sheet, Fault> {
    let mut jobs = sheet(alloc, "jobs", 6)?;
    for (minute, first_flow, first_gauge) in [(100, 110, 120), (200, 210, 220)] {
        jobs.rows.push(Row {
            minute,
            flows: flows(first_flow),
            gauges: gauges(first_gauge),
        })?;
    }
    for (name, state) in [
        ("deep", AlarmState::InsufficientData),
        ("calm", AlarmState::Okay),
        ("busy", AlarmState::Alarm),
    ] {
        jobs.alarms.push((QueueName::read(name)?, state))?;
    }
    Ok(jobs)
}

/// The queues jobs, B, a, jobs-2 and once more jobs, in this order.
fn queues(alloc: Global) -> Result<Vec<Sheet>, Fault> {
    let mut sheets = Vec::new(alloc);
    sheets.push(jobs(alloc)?)?;
    for (name, lines) in [("B", 7), ("a", 8), ("jobs-2", 9), ("jobs", 10)] {
        sheets.push(sheet(alloc, name, lines)?)?;
    }
    Ok(sheets)
}

/// What a method is told of a path: the text, and before it the status where that is not 200. By a word
/// alone it is a text that the paths are told, of the queue jobs or of all queues.
fn told(alloc: Global, sheets: &[Sheet], call: &str) -> Result<String, Fault> {
    match call {
        "sheets" => return sheets_text(alloc, sheets),
        "sheet" => return sheet_text(alloc, &jobs(alloc)?),
        "rows" => return rows_text(alloc, jobs(alloc)?.rows.as_slice()),
        "alarms" => return alarms_text(alloc, jobs(alloc)?.alarms.as_slice()),
        _ => {}
    }
    let (method, path) = call.rsplit_once(' ').unwrap_or((call, ""));
    let (status, text) = answer(alloc, method, path, sheets);
    match (status, text.as_str()) {
        (200, text) => Ok(String::from_str(alloc, text)?),
        (500, r#"{"message":"out of memory"}"#) => Err(Fault::OutOfMemory),
        (status, text) => Ok(format!(in alloc; "{status} {text}")?),
    }
}

/// Asserts what is told of each call of a line. A call whose memory is refused is made again.
fn hold(rt: &impl Abort, alloc: Global, sheets: &[Sheet], line: &str) -> Result<(), Fail> {
    let (calls, wanted) = line.split_once(" => ").ok_or("what is told of it")?;
    for call in calls.split(" | ") {
        let told = match told(alloc, sheets, call) {
            Err(Fault::OutOfMemory) => told(alloc, sheets, call)?,
            told => told?,
        };
        assert_eq!(rt; told.as_str(), wanted, "{call}");
    }
    Ok(())
}

/// What is told of the queues of [`queues`], with `|` between calls that are told the same. What begins
/// with `//` says what the next lines show.
const CASES: &str = r#"// A queue without rows and alarms.
GET /statistics/queues/a/rows => {"rows":[]}
GET /statistics/queues/a/alarms => {"alarms":[]}
// A path that is none of the four, or a queue that is not there, is not found.
GET  | GET / | GET /statistics | GET /statistics/queue | GET statistics/queues | GET /statistics/queues/ | GET /statistics/queues//rows => 404 {"message":"not found"}
GET /statistics/queues/jobs/ | GET /statistics/queues/jobs/row | GET /statistics/queues/jobs/rows/ | GET /statistics/queues/jobs/rowsa | GET /statistics/queues/jobs/Alarms | GET /statistics/queues/jobs/rows/alarms => 404 {"message":"not found"}
GET /statistics/queues/Jobs | GET /statistics/queues/j%6fbs | GET /statistics/queues/job | GET /statistics/queues/jobs?x | GET /statistics/queues/ü => 404 {"message":"not found"}
// On one of the four paths another method than GET is not allowed, also where the queue is not there;
// elsewhere nothing is found.
POST /statistics/queues | HEAD /statistics/queues | get /statistics/queues | GET  /statistics/queues |  /statistics/queues => 405 {"message":"method not allowed"}
POST /statistics/queues/jobs | HEAD /statistics/queues/jobs | get /statistics/queues/jobs | GET  /statistics/queues/jobs |  /statistics/queues/jobs => 405 {"message":"method not allowed"}
POST /statistics/queues/none | HEAD /statistics/queues/none | get /statistics/queues/none | GET  /statistics/queues/none |  /statistics/queues/none => 405 {"message":"method not allowed"}
POST /statistics/queues/none/rows | HEAD /statistics/queues/none/rows | get /statistics/queues/none/rows | GET  /statistics/queues/none/rows |  /statistics/queues/none/rows => 405 {"message":"method not allowed"}
POST /statistics/queues/none/alarms | HEAD /statistics/queues/none/alarms | get /statistics/queues/none/alarms | GET  /statistics/queues/none/alarms |  /statistics/queues/none/alarms => 405 {"message":"method not allowed"}
POST /foo | HEAD /foo | get /foo | GET  /foo |  /foo => 404 {"message":"not found"}
POST /statistics/queues/ | HEAD /statistics/queues/ | get /statistics/queues/ | GET  /statistics/queues/ |  /statistics/queues/ => 404 {"message":"not found"}
POST /statistics/queues/jobs/ | HEAD /statistics/queues/jobs/ | get /statistics/queues/jobs/ | GET  /statistics/queues/jobs/ |  /statistics/queues/jobs/ => 404 {"message":"not found"}
"#;

/// Each text by its path and alone. All queues stand in the order of their names' bytes, whatever order
/// they come in, and those of one name as they came; the first of these is the one of that name.
const CALLS: &str =
    r#"GET /statistics/queues | sheets => {"queues":[{"age":1,"clock":4500,"current":{"deadLettersArrived":11,"deleted":12,"emptyReceives":13,"received":14,"refused":15,"sent":16,"sentSize":17},"delayed":2,"inFlight":3,"lines":7,"name":"B","visible":4},{"age":1,"clock":4500,"current":{"deadLettersArrived":11,"deleted":12,"emptyReceives":13,"received":14,"refused":15,"sent":16,"sentSize":17},"delayed":2,"inFlight":3,"lines":8,"name":"a","visible":4},{"age":1,"clock":4500,"current":{"deadLettersArrived":11,"deleted":12,"emptyReceives":13,"received":14,"refused":15,"sent":16,"sentSize":17},"delayed":2,"inFlight":3,"lines":6,"name":"jobs","visible":4},{"age":1,"clock":4500,"current":{"deadLettersArrived":11,"deleted":12,"emptyReceives":13,"received":14,"refused":15,"sent":16,"sentSize":17},"delayed":2,"inFlight":3,"lines":10,"name":"jobs","visible":4},{"age":1,"clock":4500,"current":{"deadLettersArrived":11,"deleted":12,"emptyReceives":13,"received":14,"refused":15,"sent":16,"sentSize":17},"delayed":2,"inFlight":3,"lines":9,"name":"jobs-2","visible":4}]}
GET /statistics/queues/jobs | sheet => {"age":1,"clock":4500,"current":{"deadLettersArrived":11,"deleted":12,"emptyReceives":13,"received":14,"refused":15,"sent":16,"sentSize":17},"delayed":2,"inFlight":3,"lines":6,"name":"jobs","visible":4}
GET /statistics/queues/jobs/rows | rows => {"rows":[{"age":120,"deadLettersArrived":110,"delayed":121,"deleted":111,"emptyReceives":112,"inFlight":122,"minute":100,"received":113,"refused":114,"sent":115,"sentSize":116,"visible":123},{"age":220,"deadLettersArrived":210,"delayed":221,"deleted":211,"emptyReceives":212,"inFlight":222,"minute":200,"received":213,"refused":214,"sent":215,"sentSize":216,"visible":223}]}
GET /statistics/queues/jobs/alarms | alarms => {"alarms":[{"name":"deep","state":"INSUFFICIENT_DATA"},{"name":"calm","state":"OK"},{"name":"busy","state":"ALARM"}]}
"#;

/// Where there is no queue, none is found; and each line of [`CASES`] is told as it says.
#[test]
fn cases(rt: HostRuntime) -> Result<(), Fail> {
    let list = r#"GET /statistics/queues => {"queues":[]}"#;
    hold(&rt, rt.alloc(), &[], list)?;
    let queue = r#"GET /statistics/queues/none => 404 {"message":"not found"}"#;
    hold(&rt, rt.alloc(), &[], queue)?;
    let sheets = queues(rt.alloc())?;
    for line in CASES.lines().filter(|line| !line.starts_with("//")) {
        hold(&rt, rt.alloc(), sheets.as_slice(), line)?;
    }
    Ok(())
}

/// What is refused, with its status.
const REFUSALS: &str = r#"GET /statistics/queues/none => 404
GET /statistics/queues/jobs/ => 404
GET /statistics/queues//rows => 404
GET /statistics/queues/jobs/row => 404
POST /statistics/queues => 405
POST /statistics/queues/none => 405
POST /statistics/queues/jobs/rows => 405
POST /statistics/queues/jobs/alarms => 405
POST /metrics => 405
POST / => 405
POST /health => 405
GET /health/ => 404
"#;

/// With ample memory each path answers, and where memory was refused it answers 500, and then its text. What is
/// refused takes no memory, so that no such call is made again.
#[test]
fn refused_memory(rt: HostRuntime) -> Result<(), Fail> {
    let sheets = match queues(rt.alloc()) {
        Err(Fault::OutOfMemory) => queues(rt.alloc())?,
        sheets => sheets?,
    };
    for line in CALLS.lines() {
        hold(&rt, rt.alloc(), sheets.as_slice(), line)?;
    }
    let server = ServerFacts {
        version: "1",
        started: 0,
        requests: Vec::new(rt.alloc()),
    };
    for line in REFUSALS.lines() {
        let (call, status) = line.split_once(" => ").ok_or("a status")?;
        let (method, path) = call.split_once(' ').ok_or("a method")?;
        let response = respond(rt.alloc(), method, path, sheets.as_slice(), &server);
        assert_eq!(rt; Some(response.status), status.parse::<u16>().ok(), "{call}");
    }
    Ok(())
}

/// A server that has answered three requests.
fn server(alloc: Global) -> Result<ServerFacts, Fault> {
    let mut requests = Vec::new(alloc);
    requests.push(Requested {
        action: "SendMessage",
        status: 200,
        count: 2,
    })?;
    requests.push(Requested {
        action: "-",
        status: 405,
        count: 1,
    })?;
    Ok(ServerFacts {
        version: "1.2.3",
        started: 1764218284,
        requests,
    })
}

/// What the port answers of the queues jobs and a: the status, the content type and the text; but in the
/// place of the page `PAGE`.
fn told_on_port(alloc: Global, sheets: &[Sheet], call: &str) -> Result<String, Fault> {
    let (method, path) = call.rsplit_once(' ').unwrap_or((call, ""));
    let server = server(alloc)?;
    let response = respond(alloc, method, path, sheets, &server);
    if response.status == 500 {
        return Err(Fault::OutOfMemory);
    }
    let text = response.text.as_str();
    let text = if text == PAGE { "PAGE" } else { text };
    let status = response.status;
    let content_type = response.content_type;
    Ok(format!(in alloc; "{status} {content_type} {text}")?)
}

/// The same, asked once more where it finds no memory.
fn told_again(alloc: Global, sheets: &[Sheet], call: &str) -> Result<String, Fault> {
    match told_on_port(alloc, sheets, call) {
        Err(Fault::OutOfMemory) => told_on_port(alloc, sheets, call),
        told => told,
    }
}

/// The queues jobs and a.
fn jobs_and_another(alloc: Global) -> Result<Vec<Sheet>, Fault> {
    let mut sheets = Vec::new(alloc);
    sheets.push(jobs(alloc)?)?;
    sheets.push(sheet(alloc, "a", 8)?)?;
    Ok(sheets)
}

/// The metrics of the queues jobs and a. The text was written by hand from docs/PROFILE.md.
const METRICS: &str =
    r#"200 text/plain; version=0.0.4; charset=utf-8 # HELP jutkariq_queue_messages_visible Messages that a receive can take.
# TYPE jutkariq_queue_messages_visible gauge
jutkariq_queue_messages_visible{queue="a"} 4
jutkariq_queue_messages_visible{queue="jobs"} 4
# HELP jutkariq_queue_messages_delayed Messages whose delay is not over.
# TYPE jutkariq_queue_messages_delayed gauge
jutkariq_queue_messages_delayed{queue="a"} 2
jutkariq_queue_messages_delayed{queue="jobs"} 2
# HELP jutkariq_queue_messages_in_flight Messages that were received and not deleted, while they are hidden.
# TYPE jutkariq_queue_messages_in_flight gauge
jutkariq_queue_messages_in_flight{queue="a"} 3
jutkariq_queue_messages_in_flight{queue="jobs"} 3
# HELP jutkariq_queue_oldest_message_age_seconds Age of the oldest message that was received fewer than three times.
# TYPE jutkariq_queue_oldest_message_age_seconds gauge
jutkariq_queue_oldest_message_age_seconds{queue="a"} 1
jutkariq_queue_oldest_message_age_seconds{queue="jobs"} 1
# HELP jutkariq_queue_journal_entries Entries of the journal; a checkpoint counts 1, and 1 more for each message that it keeps.
# TYPE jutkariq_queue_journal_entries gauge
jutkariq_queue_journal_entries{queue="a"} 8
jutkariq_queue_journal_entries{queue="jobs"} 6
# HELP jutkariq_queue_minute_messages_sent Messages sent in the current minute.
# TYPE jutkariq_queue_minute_messages_sent gauge
jutkariq_queue_minute_messages_sent{queue="a"} 16
jutkariq_queue_minute_messages_sent{queue="jobs"} 16
# HELP jutkariq_queue_minute_sent_bytes Size of the messages sent in the current minute.
# TYPE jutkariq_queue_minute_sent_bytes gauge
jutkariq_queue_minute_sent_bytes{queue="a"} 17
jutkariq_queue_minute_sent_bytes{queue="jobs"} 17
# HELP jutkariq_queue_minute_messages_received Messages received in the current minute.
# TYPE jutkariq_queue_minute_messages_received gauge
jutkariq_queue_minute_messages_received{queue="a"} 14
jutkariq_queue_minute_messages_received{queue="jobs"} 14
# HELP jutkariq_queue_minute_empty_receives Receives without a message in the current minute.
# TYPE jutkariq_queue_minute_empty_receives gauge
jutkariq_queue_minute_empty_receives{queue="a"} 13
jutkariq_queue_minute_empty_receives{queue="jobs"} 13
# HELP jutkariq_queue_minute_deletes Deletes in the current minute.
# TYPE jutkariq_queue_minute_deletes gauge
jutkariq_queue_minute_deletes{queue="a"} 12
jutkariq_queue_minute_deletes{queue="jobs"} 12
# HELP jutkariq_queue_minute_refused_calls Calls that the queue refused in the current minute.
# TYPE jutkariq_queue_minute_refused_calls gauge
jutkariq_queue_minute_refused_calls{queue="a"} 15
jutkariq_queue_minute_refused_calls{queue="jobs"} 15
# HELP jutkariq_queue_minute_dead_letters_arrived Dead letters that arrived in the current minute.
# TYPE jutkariq_queue_minute_dead_letters_arrived gauge
jutkariq_queue_minute_dead_letters_arrived{queue="a"} 11
jutkariq_queue_minute_dead_letters_arrived{queue="jobs"} 11
# HELP jutkariq_queue_alarm_state 1 for the state that the alarm is in, 0 for the two others.
# TYPE jutkariq_queue_alarm_state gauge
jutkariq_queue_alarm_state{queue="jobs",alarm="deep",state="OK"} 0
jutkariq_queue_alarm_state{queue="jobs",alarm="deep",state="ALARM"} 0
jutkariq_queue_alarm_state{queue="jobs",alarm="deep",state="INSUFFICIENT_DATA"} 1
jutkariq_queue_alarm_state{queue="jobs",alarm="calm",state="OK"} 1
jutkariq_queue_alarm_state{queue="jobs",alarm="calm",state="ALARM"} 0
jutkariq_queue_alarm_state{queue="jobs",alarm="calm",state="INSUFFICIENT_DATA"} 0
jutkariq_queue_alarm_state{queue="jobs",alarm="busy",state="OK"} 0
jutkariq_queue_alarm_state{queue="jobs",alarm="busy",state="ALARM"} 1
jutkariq_queue_alarm_state{queue="jobs",alarm="busy",state="INSUFFICIENT_DATA"} 0
# HELP jutkariq_requests_total Requests answered since the server was started.
# TYPE jutkariq_requests_total counter
jutkariq_requests_total{action="SendMessage",status="200"} 2
jutkariq_requests_total{action="-",status="405"} 1
# HELP jutkariq_build_info 1 for the version of the server.
# TYPE jutkariq_build_info gauge
jutkariq_build_info{version="1.2.3"} 1
# HELP process_start_time_seconds When the server was started, in seconds since 1970.
# TYPE process_start_time_seconds gauge
process_start_time_seconds 1764218284
"#;

/// What else the port answers.
const PORT: &str = r#"GET / => 200 text/html; charset=utf-8 PAGE
HEAD / => 200 text/html; charset=utf-8 PAGE
POST / => 405 application/json {"message":"method not allowed"}
GET /health => 200 application/json {"status":"ok"}
HEAD /health => 200 application/json {"status":"ok"}
head /health => 405 application/json {"message":"method not allowed"}
POST /health => 405 application/json {"message":"method not allowed"}
GET /health/ => 404 application/json {"message":"not found"}
HEAD /metrics => 405 application/json {"message":"method not allowed"}
GET /metrics/ => 404 application/json {"message":"not found"}
GET /statistics/queues/jobs/rows/ => 404 application/json {"message":"not found"}
GET /statistics/queues/a/rows => 200 application/json {"rows":[]}
POST /statistics/queues => 405 application/json {"message":"method not allowed"}
"#;

/// The port has the page, the metrics, and the paths of [`answer`]. A call whose memory is refused is
/// made again.
#[test]
fn port(rt: HostRuntime) -> Result<(), Fail> {
    let sheets = match jobs_and_another(rt.alloc()) {
        Err(Fault::OutOfMemory) => jobs_and_another(rt.alloc())?,
        sheets => sheets?,
    };
    let metrics = told_again(rt.alloc(), sheets.as_slice(), "GET /metrics")?;
    assert_eq!(rt; metrics.as_str(), METRICS);
    for line in PORT.lines() {
        let (call, wanted) = line.split_once(" => ").ok_or("what is told of it")?;
        let told = told_again(rt.alloc(), sheets.as_slice(), call)?;
        assert_eq!(rt; told.as_str(), wanted, "{call}");
    }
    Ok(())
}
