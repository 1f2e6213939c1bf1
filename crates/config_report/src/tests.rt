//! What is told of configurations that are refused; the table of keys beside `queue_config`'s own; and
//! what a refused allocation gives.

use super::*;
use crate::kind::ValueKind;
use crate::known::own_keys;
use crate::spot::Spot;
use cases::CASES;
use queue_config::{ConfigFault, config_from_bytes, config_from_text};
use std::alloc::{AllocError, Global};
use std::process::Abort;
use std::test::Fail;

mod cases;

/// Adds a line of a case, as often as it says.
fn add_line(text: &mut String, line: &str) -> Result<(), AllocError> {
    let (count, body) = line.split_once(" times ").unwrap_or(("", ""));
    let Ok(count) = count.parse::<u32>() else {
        text.push_str(line)?;
        return text.push('\n');
    };
    let (before, after) = body.split_once('#').unwrap_or((body, ""));
    for number in 0..count {
        writeln!(text, "{before}{number}{after}")?;
    }
    Ok(())
}

/// The bytes that the text of a case stands for.
fn spelled(alloc: Global, text: &str) -> Result<Vec<u8>, AllocError> {
    let mut bytes = Vec::new(alloc);
    let mut spelled = String::new(alloc);
    for character in text.chars() {
        match character {
            '¿' => {
                bytes.extend_from_slice(spelled.as_bytes())?;
                bytes.push(0xFF)?;
                spelled.clear();
            }
            '¶' => spelled.push('\r')?,
            '¤' => spelled.push('\u{FEFF}')?,
            _ => spelled.push(character)?,
        }
    }
    bytes.extend_from_slice(spelled.as_bytes())?;
    Ok(bytes)
}

/// Asserts that a configuration is refused as its case says, and what is told of it; and that nothing is
/// told of lack of memory.
fn is_told(rt: &impl Abort, alloc: Global, text: &str, wanted: &str) -> Result<(), Fail> {
    let bytes = spelled(alloc, text)?;
    let read = config_from_bytes(alloc, &bytes);
    let fault = read.err().ok_or("a fault")?;
    let told = report(alloc, "example.toml", &bytes, fault)?;
    let line = told.ok_or("a line")?;
    let told = format!(in alloc; "{} {}", fault.name(), line.as_str())?;
    assert_eq!(rt; told.as_str(), wanted, "{text}");
    let none = report(alloc, "example.toml", &bytes, ConfigFault::OutOfMemory)?;
    assert!(rt; none.is_none());
    Ok(())
}

/// Each case is refused and told as it says.
#[test]
fn lines(rt: HostRuntime) -> Result<(), Fail> {
    let mut text = String::new(rt.alloc());
    for line in CASES.lines() {
        match line.split_once("=> ") {
            Some((before, wanted)) => {
                text.push_str(before)?;
                is_told(&rt, rt.alloc(), text.as_str(), wanted)?;
                text.clear();
            }
            None => add_line(&mut text, line)?,
        }
    }
    Ok(())
}

#[test]
fn controls_are_left_out(rt: HostRuntime) -> Result<(), Fail> {
    let text = without_controls(rt.alloc(), "a\u{1b}[0m é\n\u{85} b\u{7f}")?;
    assert_eq!(rt; text.as_str(), "a[0m é b");
    Ok(())
}

/// Of each key whose bounds stand in the table of this crate a configuration, with `#` where the key and
/// its value stand and `|` for the end of a line.
const RANGES: &str = r#"in_flight limits = {#}
max_lines limits = {#}
max_receive_count queue = [{name = "a"}, {name = "b", dead_letter_queue = "a", #}]
threshold queue = [{name = "a"}]|alarm = [{queue = "a", name = "x", metric = "RefusedCalls", operator = "LessThanThreshold", minutes = 180, #}]
minutes queue = [{name = "a"}]|alarm = [{queue = "a", name = "x", metric = "RefusedCalls", operator = "LessThanThreshold", threshold = 0, #}]
breaches queue = [{name = "a"}]|alarm = [{queue = "a", name = "x", metric = "RefusedCalls", operator = "LessThanThreshold", threshold = 0, minutes = 180, #}]"#;

/// What a configuration of [`RANGES`] is refused for, with a number in its place.
fn fault_at(alloc: Global, key: &str, number: i64) -> Result<Option<ConfigFault>, Fail> {
    for line in RANGES.lines() {
        let (ranged, form) = line.split_once(' ').ok_or("a key")?;
        let (before, after) = form.split_once('#').ok_or("a place")?;
        let (queues, before) = before.split_once('|').unwrap_or(("", before));
        if ranged == key {
            let text = format!(in alloc; "{queues}\n{before}{key} = {number}{after}")?;
            return Ok(config_from_text(alloc, text.as_str()).err());
        }
    }
    Err("a line of the table".into())
}

/// The bounds of the table are those of `queue_config`.
#[test]
fn ranges(rt: HostRuntime) -> Result<(), Fail> {
    let alloc = rt.alloc();
    for spot in [Spot::Limits, Spot::Queue(0), Spot::Alarm(0)] {
        for (key, kind) in own_keys(spot) {
            if let ValueKind::Number { least, most } = kind {
                let refused = Some(ConfigFault::OutOfRange);
                assert_eq!(rt; fault_at(alloc, key, *least)?, None, "{key}");
                assert_eq!(rt; fault_at(alloc, key, *most)?, None, "{key}");
                if let Some(below) = least.checked_sub(1) {
                    assert_eq!(rt; fault_at(alloc, key, below)?, refused, "{key}");
                }
                if let Some(above) = most.checked_add(1) {
                    assert_eq!(rt; fault_at(alloc, key, above)?, refused, "{key}");
                }
            }
        }
    }
    Ok(())
}

/// A configuration for each way to a line, with the line behind the arrow and an empty line between two.
const LINES: &str = r#"[[queue]
=> a:1: column 9: unclosed array table, expected `]]`

queue = [{name = "b"}, {nmae = "a"}]
=> a:1: [[queue]] number 2: unknown key nmae: did you mean name?

queue = [{name = "b", delay_seconds = 1.5}]
=> a:1: [[queue]] "b": delay_seconds = 1.5 is a float, and a whole number from 0 to 900 is wanted

alarm = [{metric = "SentMessages"}]
=> a:1: [[alarm]] number 1: metric = "SentMessages" is no metric: did you mean SentMessageSize?

queue = [{name = "b"}, {name = "b"}]
=> a:1: [[queue]] "b": another queue has this name, in line 1

queue = [{name = "b", dead_letter_queue = "mail", max_receive_count = 1}, {name = "mails"}]
=> a:1: [[queue]] "b": dead_letter_queue = "mail" is not in the file: did you mean mails?"#;

/// What is first wrong with a configuration.
fn fault_of(alloc: Global, text: &str) -> Option<ConfigFault> {
    match config_from_text(alloc, text).err() {
        Some(ConfigFault::OutOfMemory) => config_from_text(alloc, text).err(),
        fault => fault,
    }
}

/// A call whose allocation is refused says so, and tells the line when it is made again. The gate runs
/// this with ample memory; `rt try --test --fail-alloc N -- refused_memory` refuses the Nth allocation.
#[test]
fn refused_memory(rt: HostRuntime) -> Result<(), Fail> {
    let alloc = rt.alloc();
    for case in LINES.split("\n\n") {
        let (text, wanted) = case.split_once("=> ").ok_or("a text and a line")?;
        let (bytes, fault) = (text.as_bytes(), fault_of(alloc, text).ok_or("a fault")?);
        let told = report(alloc, "a", bytes, fault);
        let line = told.or_else(|_| report(alloc, "a", bytes, fault))?;
        assert_eq!(rt; line.ok_or("a line")?.as_str(), wanted);
    }
    let told = report(alloc, "a", b"\xFF", ConfigFault::Syntax);
    let line = told.or_else(|_| report(alloc, "a", b"\xFF", ConfigFault::Syntax))?;
    assert_eq!(rt;
        line.ok_or("a line")?.as_str(),
        "a:1: column 1: the byte 0xff is no UTF-8"
    );
    Ok(())
}
