//! Values, breaches and states, with answers that were worked out by hand. What each operator says below,
//! at and above its threshold is shown by the stored run `operators_of_alarms` of `sqs_replay`.

use super::*;
use metric_window::{Flows, Gauges, Row};
use queue_config::{AlarmRule, ConfigFault, METRICS, config_from_text};
use std::alloc::Global;
use std::test::Fail;

/// A minute with another number for each metric, in the order in which they are documented, and so many
/// refused calls, which are the tenth.
fn row(refused: u64) -> Row {
    Row {
        minute: 0,
        flows: Flows {
            sent: 1,
            sent_size: 2,
            received: 3,
            empty_receives: 4,
            deleted: 5,
            refused,
            dead_letters_arrived: 11,
        },
        gauges: Gauges {
            visible: 6,
            delayed: 7,
            in_flight: 8,
            age: 9,
        },
    }
}

/// The rule for refused calls that these keys of an alarm's table say, in one line.
fn rule(alloc: Global, keys: &str) -> Result<AlarmRule, ConfigFault> {
    let mut text = String::from_str(alloc, "queue = [{name = \"jobs\"}]\n")?;
    text.push_str("alarm = [{queue = \"jobs\", name = \"deep\", metric = \"RefusedCalls\", ")?;
    write!(text, "{keys}}}]")?;
    let config = config_from_text(alloc, text.as_str())?;
    Ok(config.alarms.first().ok_or(ConfigFault::NoSuchTarget)?.rule)
}

/// How many breaches there are and the state, where a text says how many minutes are complete and how many
/// calls were refused in each of the last ones. The state is the same by the rows and by the breaches.
fn told(alloc: Global, rule: &AlarmRule, text: &str) -> Result<String, Fail> {
    let (complete, values) = text.split_once(':').ok_or("minutes and values")?;
    let complete = complete.parse::<u64>().ok().ok_or("a number of minutes")?;
    let mut rows = Vec::new(alloc);
    for value in values.split_whitespace() {
        rows.push(row(value.parse::<u64>().ok().ok_or("a number")?))?;
    }
    let breaches = breaches_in(rule, rows.as_slice());
    let counted = rows.iter().filter(|row| satisfies(rule, row)).count();
    let state = alarm_state_of(rule, complete, rows.as_slice());
    if state_with(rule, complete, breaches as u64) != state || breaches != counted {
        return Err("another state".into());
    }
    Ok(format!(in alloc; "{breaches} {}", state.name())?)
}

/// What is told by a rule, which stands in a line before, with `|` between texts that are told the same.
const LINES: &str = r#"// The least and the greatest numbers.
operator = "LessThanThreshold", threshold = 0, minutes = 1
1: 0 | 1: 18446744073709551615 => 0 OK
operator = "GreaterThanOrEqualToThreshold", threshold = 0, minutes = 1
1: 0 => 1 ALARM
operator = "GreaterThanThreshold", threshold = 9223372036854775807, minutes = 1
1: 9223372036854775807 => 0 OK
1: 9223372036854775808 | 1: 18446744073709551615 => 1 ALARM
operator = "GreaterThanThreshold", threshold = 9, minutes = 1
1: 9 => 0 OK
1: 10 => 1 ALARM
// Too few minutes, whatever they have; breaches anywhere among them.
operator = "GreaterThanThreshold", threshold = 0, minutes = 3, breaches = 2
0: | 2: 0 0 => 0 INSUFFICIENT_DATA
1: 1 => 1 INSUFFICIENT_DATA
2: 1 1 => 2 INSUFFICIENT_DATA
3: 0 0 0 | 18446744073709551615: 0 0 0 => 0 OK
4: 0 0 1 | 9: 1 0 0 => 1 OK
5: 0 1 1 | 7: 1 1 0 | 8: 1 0 1 => 2 ALARM
6: 1 1 1 => 3 ALARM
// All minutes have to be breaches where nothing is said.
operator = "GreaterThanOrEqualToThreshold", threshold = 1, minutes = 1
0: => 0 INSUFFICIENT_DATA
1: 1 => 1 ALARM
2: 0 => 0 OK
operator = "LessThanThreshold", threshold = 1, minutes = 2
1: 0 => 1 INSUFFICIENT_DATA
2: 0 0 => 2 ALARM
2: 0 1 | 2: 1 0 => 1 OK
operator = "LessThanThreshold", threshold = 1, minutes = 180, breaches = 1
179: 0 => 1 INSUFFICIENT_DATA
180: 0 => 1 ALARM
180: 1 => 0 OK
"#;

/// Each metric has its value, and each text is told as its line says.
#[test]
fn lines(rt: HostRuntime) -> Result<(), Fail> {
    for ((_name, metric), value) in METRICS.iter().zip([1, 2, 3, 4, 5, 6, 7, 8, 9, 10, 11]) {
        assert_eq!(rt; metric_value(*metric, &row(10)), value);
    }
    let mut judged_by = None;
    for line in LINES.lines().filter(|line| !line.starts_with("//")) {
        let Some((texts, wanted)) = line.split_once(" => ") else {
            judged_by = Some(rule(rt.alloc(), line)?);
            continue;
        };
        for text in texts.split(" | ") {
            let told = told(rt.alloc(), judged_by.as_ref().ok_or("a rule")?, text)?;
            assert_eq!(rt; told.as_str(), wanted, "{line}");
        }
    }
    Ok(())
}

/// Does what a call says of an alarm, and gives what is told. The text has its memory first, so that the
/// call can be made again where memory is refused.
fn told_of(alloc: Global, talk: &mut Option<Alarm>, call: &str) -> Result<String, ConfigFault> {
    let mut text = String::with_capacity(alloc, 100)?;
    let (verb, rest) = call.split_once(' ').unwrap_or((call, ""));
    if verb == "new" {
        *talk = Some(Alarm::new(alloc, rule(alloc, rest)?)?);
    }
    let alarm = talk.as_mut().ok_or(ConfigFault::Syntax)?;
    if verb == "told" {
        let (count, value) = rest.split_once(' ').ok_or(ConfigFault::Syntax)?;
        let count = count.parse::<u64>().map_err(|_| ConfigFault::WrongKind)?;
        let value = value.parse::<u64>().map_err(|_| ConfigFault::WrongKind)?;
        for _ in 0..count {
            alarm.minute_closed(&row(value));
        }
    }
    write!(text, "{}", alarm.state().name())?;
    if verb == "name" {
        write!(text, " {}", alarm.name().as_text())?;
    }
    Ok(text)
}

/// The state after each call, with `|` between calls after which it is the same. `told` says of how many
/// minutes an alarm is told, and how many calls were refused in each.
const CALLS: &str = r#"// The queue was created in minute 0, and the first breach is in minute 3.
new operator = "GreaterThanThreshold", threshold = 0, minutes = 3, breaches = 2 | told 2 0 => INSUFFICIENT_DATA
name => INSUFFICIENT_DATA deep
told 1 0 | told 1 1 => OK
told 1 1 | told 1 1 => ALARM
// Two of the last three, wherever they are, and no other.
told 1 0 => ALARM
told 1 0 | told 1 1 | told 1 0 => OK
told 1 1 => ALARM
told 2 0 => OK
told 2 18446744073709551615 => ALARM
// Breaches do not make up for minutes.
new operator = "GreaterThanThreshold", threshold = 0, minutes = 3, breaches = 1 | told 2 1 => INSUFFICIENT_DATA
told 1 0 | told 1 0 => ALARM
told 1 0 => OK
// The longest rule, as after a jump; the oldest of its minutes counts, and the one before it does not.
new operator = "LessThanThreshold", threshold = 1, minutes = 180, breaches = 180 | told 179 0 => INSUFFICIENT_DATA
told 1 0 | told 300 0 => ALARM
told 1 1 | told 179 0 => OK
told 1 0 => ALARM
// The shortest rule.
new operator = "GreaterThanOrEqualToThreshold", threshold = 9, minutes = 1 => INSUFFICIENT_DATA
told 1 9 => ALARM
told 1 8 => OK
"#;

/// After each call the state is as its line says. One that finds no memory changes nothing, and is made
/// again: so this passes with ample memory, and under `rt try --test --fail-alloc N`, which refuses the Nth
/// allocation.
#[test]
fn refused_memory(rt: HostRuntime) -> Result<(), Fail> {
    let alloc = rt.alloc();
    let mut talk = None;
    for line in CALLS.lines().filter(|line| !line.starts_with("//")) {
        let (calls, wanted) = line.split_once(" => ").ok_or("what is told")?;
        for call in calls.split(" | ") {
            let told = match told_of(alloc, &mut talk, call) {
                Err(ConfigFault::OutOfMemory) => told_of(alloc, &mut talk, call)?,
                told => told?,
            };
            assert_eq!(rt; told.as_str(), wanted, "{call}");
        }
    }
    Ok(())
}
