//! Statistics in the text format of Prometheus.

ghost use Rattle.std.specs.Prelude.{◌≡◌, Ok, flat_map, map, string_bytes};
ghost use Rattle.message.specs.Fault.{Meets};
ghost use Rattle.statistics_api.specs.Steps.{result_map};
ghost use Rattle.statistics_api.specs.Metrics.{head_text, sample_text, family_text, state_digit, state_text, alarm_text, queue_alarms_text, alarms_family_text, request_text, requests_family_text, build_text, start_text, served_text, metrics_text};

use crate::measure::{MEASURES, Measure};
use crate::order::by_name;
use crate::served::{Requested, ServerFacts};
use alarm::AlarmState;
use board::Sheet;
use message::{Fault, QueueName};
use std::alloc::Global;

/// The two lines before the numbers of a metric, which is a gauge or a counter.
fn head(alloc: Global, kind: &str, name: &str, help: &str) -> Result<String, Fault>
    ensures { Meets (result_map (λ s. string_bytes s) result) (Ok (head_text kind.now name.now help.now)) }
{
    Ok(format!(in alloc; "# HELP {name} {help}\n# TYPE {name} {kind}\n")?)
}

/// The line of a queue. A queue's name has no character that is escaped.
fn sample(alloc: Global, measure: Measure, sheet: &Sheet) -> Result<String, Fault>
    ensures { Meets (result_map (λ s. string_bytes s) result) (Ok (sample_text measure sheet.now)) }
{
    let name = measure.name();
    let queue = sheet.name.as_text();
    let value = measure.of(sheet);
    Ok(format!(in alloc; "{name}{{queue=\"{queue}\"}} {value}\n")?)
}

/// The lines of queues.
fn samples(alloc: Global, measure: Measure, sheets: &[&Sheet]) -> Result<String, Fault>
    ensures { Meets (result_map (λ s. string_bytes s) result) (Ok (flat_map (λ s. sample_text measure s.now) sheets.now)) }
{
    let mut text = String::new(alloc);
    for sheet in sheets {
        let line = sample(alloc, measure, sheet)?;
        text.push_str(line.as_str())?;
    }
    Ok(text)
}

/// A metric of queues.
fn family(alloc: Global, measure: Measure, sheets: &[&Sheet]) -> Result<String, Fault>
    ensures { Meets (result_map (λ s. string_bytes s) result) (Ok (family_text (map (λ s. s.now) sheets.now) measure)) }
{
    let name = measure.name();
    let help = measure.help();
    let first = head(alloc, "gauge", name, help)?;
    let lines = samples(alloc, measure, sheets)?;
    Ok(format!(in alloc; "{first}{lines}")?)
}

/// These metrics of queues.
fn families(alloc: Global, measures: &[Measure], sheets: &[&Sheet]) -> Result<String, Fault>
    ensures { Meets (result_map (λ s. string_bytes s) result) (Ok (flat_map (family_text (map (λ s. s.now) sheets.now)) measures.now)) }
{
    let mut text = String::new(alloc);
    for measure in measures {
        let lines = family(alloc, *measure, sheets)?;
        text.push_str(lines.as_str())?;
    }
    Ok(text)
}

/// 1 for the state that an alarm is in, and 0 for another.
fn state_digit(state: AlarmState, current: AlarmState) -> &'static str
    ensures { result.now ≡ state_digit state current }
{
    if state == current { "1" } else { "0" }
}

/// The line of one of the three states.
fn state_line(
    alloc: Global,
    queue: &QueueName,
    alarm: &(QueueName, AlarmState),
    state: AlarmState,
) -> Result<String, Fault>
    ensures { Meets (result_map (λ s. string_bytes s) result) (Ok (state_text queue.now alarm.now state)) }
{
    let queue = queue.as_text();
    let name = alarm.0.as_text();
    let word = state.name();
    let digit = state_digit(state, alarm.1);
    Ok(format!(in alloc;
        "jutkariq_queue_alarm_state{{queue=\"{queue}\",alarm=\"{name}\",state=\"{word}\"}} {digit}\n"
    )?)
}

/// The lines of an alarm.
fn alarm_lines(
    alloc: Global,
    queue: &QueueName,
    alarm: &(QueueName, AlarmState),
) -> Result<String, Fault>
    ensures { Meets (result_map (λ s. string_bytes s) result) (Ok (alarm_text queue.now alarm.now)) }
{
    let okay = state_line(alloc, queue, alarm, AlarmState::Okay)?;
    let firing = state_line(alloc, queue, alarm, AlarmState::Alarm)?;
    let unknown = state_line(alloc, queue, alarm, AlarmState::InsufficientData)?;
    Ok(format!(in alloc; "{okay}{firing}{unknown}")?)
}

/// The lines of these alarms of a queue.
fn alarms_lines(
    alloc: Global,
    queue: &QueueName,
    alarms: &[(QueueName, AlarmState)],
) -> Result<String, Fault>
    ensures { Meets (result_map (λ s. string_bytes s) result) (Ok (flat_map (alarm_text queue.now) alarms.now)) }
{
    let mut text = String::new(alloc);
    for alarm in alarms {
        let lines = alarm_lines(alloc, queue, alarm)?;
        text.push_str(lines.as_str())?;
    }
    Ok(text)
}

/// The lines of a queue's alarms.
fn queue_alarms(alloc: Global, sheet: &Sheet) -> Result<String, Fault>
    ensures { Meets (result_map (λ s. string_bytes s) result) (Ok (queue_alarms_text sheet.now)) }
{
    alarms_lines(alloc, &sheet.name, sheet.alarms.as_slice())
}

/// The lines of the alarms of queues.
fn all_alarms(alloc: Global, sheets: &[&Sheet]) -> Result<String, Fault>
    ensures { Meets (result_map (λ s. string_bytes s) result) (Ok (flat_map (λ s. queue_alarms_text s.now) sheets.now)) }
{
    let mut text = String::new(alloc);
    for sheet in sheets {
        let lines = queue_alarms(alloc, sheet)?;
        text.push_str(lines.as_str())?;
    }
    Ok(text)
}

/// The alarms of queues.
fn alarms_family(alloc: Global, sheets: &[&Sheet]) -> Result<String, Fault>
    ensures { Meets (result_map (λ s. string_bytes s) result) (Ok (alarms_family_text (map (λ s. s.now) sheets.now))) }
{
    let help = "1 for the state that the alarm is in, 0 for the two others.";
    let first = head(alloc, "gauge", "jutkariq_queue_alarm_state", help)?;
    let lines = all_alarms(alloc, sheets)?;
    Ok(format!(in alloc; "{first}{lines}")?)
}

/// The line of an action's requests that were answered with a status.
fn request(alloc: Global, requested: &Requested) -> Result<String, Fault>
    ensures { Meets (result_map (λ s. string_bytes s) result) (Ok (request_text requested.now)) }
{
    let action = requested.action;
    let status = requested.status;
    let count = requested.count;
    Ok(format!(in alloc;
        "jutkariq_requests_total{{action=\"{action}\",status=\"{status}\"}} {count}\n"
    )?)
}

/// The lines of all.
fn all_requests(alloc: Global, requests: &[Requested]) -> Result<String, Fault>
    ensures { Meets (result_map (λ s. string_bytes s) result) (Ok (flat_map request_text requests.now)) }
{
    let mut text = String::new(alloc);
    for requested in requests {
        let line = request(alloc, requested)?;
        text.push_str(line.as_str())?;
    }
    Ok(text)
}

/// The requests that were answered.
fn requests_family(alloc: Global, requests: &[Requested]) -> Result<String, Fault>
    ensures { Meets (result_map (λ s. string_bytes s) result) (Ok (requests_family_text requests.now)) }
{
    let help = "Requests answered since the server was started.";
    let first = head(alloc, "counter", "jutkariq_requests_total", help)?;
    let lines = all_requests(alloc, requests)?;
    Ok(format!(in alloc; "{first}{lines}")?)
}

/// Which server it is.
fn build(alloc: Global, version: &str) -> Result<String, Fault>
    ensures { Meets (result_map (λ s. string_bytes s) result) (Ok (build_text version.now)) }
{
    let help = "1 for the version of the server.";
    let first = head(alloc, "gauge", "jutkariq_build_info", help)?;
    Ok(format!(in alloc; "{first}jutkariq_build_info{{version=\"{version}\"}} 1\n")?)
}

/// When it was started.
fn start(alloc: Global, started: u64) -> Result<String, Fault>
    ensures { Meets (result_map (λ s. string_bytes s) result) (Ok (start_text started)) }
{
    let help = "When the server was started, in seconds since 1970.";
    let first = head(alloc, "gauge", "process_start_time_seconds", help)?;
    Ok(format!(in alloc; "{first}process_start_time_seconds {started}\n")?)
}

/// What a server tells of itself.
fn served(alloc: Global, served: &ServerFacts) -> Result<String, Fault>
    ensures { Meets (result_map (λ s. string_bytes s) result) (Ok (served_text served.now)) }
{
    let requests = requests_family(alloc, served.requests.as_slice())?;
    let build = build(alloc, served.version)?;
    let start = start(alloc, served.started)?;
    Ok(format!(in alloc; "{requests}{build}{start}")?)
}

/// The text that Prometheus reads (this project's own metrics, in Prometheus's text format): each metric of queues, and
/// in it a line for each queue, in the order of their names; then what the server tells of itself. `OutOfMemory` is
/// the only refusal.
pub fn metrics_text(alloc: Global, sheets: &[Sheet], server: &ServerFacts) -> Result<String, Fault>
    ensures { Meets (result_map (λ s. string_bytes s) result) (Ok (metrics_text sheets.now (served_text server.now))) }
{
    let order = by_name(alloc, sheets)?;
    let numbers = families(alloc, &MEASURES, order.as_slice())?;
    let alarms = alarms_family(alloc, order.as_slice())?;
    let own = served(alloc, server)?;
    Ok(format!(in alloc; "{numbers}{alarms}{own}")?)
}
