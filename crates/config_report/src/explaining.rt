//! The line for a configuration that was refused.

ghost use Rattle.std.specs.Prelude.{◌≡◌, None, Ok, IfOk, IfSome, string_bytes};
ghost use Rattle.std.specs.Char.{is_control};
ghost use Rattle.std.specs.Str.{NoCharPasses};
ghost use Rattle.config_report.specs.Plain.{without_controls};

use crate::judging::first_finding;
use crate::line::Line;
use crate::told::Configuration;
use crate::walk::{column_at, line_at};
use queue_config::ConfigFault;
use std::alloc::{AllocError, Global};

/// The line for the bytes of a configuration that `config_from_bytes` refused: the path and the number of
/// the line, the table, and what is wrong there. It ends without a line feed. Control characters of the
/// path and of the bytes are shown by their escapes, as `\u{1b}`. None where there is nothing to tell of
/// the bytes, as of lack of memory, and of a fault that they do not have.
pub fn report(
    alloc: Global,
    path: &str,
    bytes: &[u8],
    fault: ConfigFault,
) -> Result<Option<String>, AllocError>
    ensures memory { fault ≡ ConfigFault.OutOfMemory → result ≡ Ok None }
    ensures plain { IfOk result (λ told. IfSome told (λ line. NoCharPasses is_control (string_bytes line))) }
{
    let line = match fault {
        ConfigFault::OutOfMemory => return Ok(None),
        ConfigFault::Syntax => syntax_line(alloc, path, bytes)?,
        _ => finding_line(alloc, path, bytes, fault)?,
    };
    match line {
        Some(line) => Ok(Some(without_controls(alloc, line.as_str())?)),
        None => Ok(None),
    }
}

/// The text without control characters. Of a report's line nothing is left out, as tests show: [`Line`] has escaped them
/// all before.
pub fn without_controls(alloc: Global, line: &str) -> Result<String, AllocError>
    ensures text { IfOk result (λ text. string_bytes text ≡ without_controls line.now) }
    ensures plain { IfOk result (λ text. NoCharPasses is_control (string_bytes text)) }
{
    let mut text = String::new(alloc);
    for character in line.chars() {
        if character.is_control() {
            continue;
        }
        text.push(character)?;
    }
    Ok(text)
}

/// The line for bytes that are no TOML.
fn syntax_line(alloc: Global, path: &str, bytes: &[u8]) -> Result<Option<String>, AllocError> {
    let text = match str::from_utf8(bytes) {
        Ok(text) => text,
        Err(error) => {
            let index = error.valid_up_to();
            let byte = bytes.get(index).copied().unwrap_or(0);
            let mut line = line_with_column(alloc, path, bytes, index)?;
            write!(line.text, "the byte 0x{byte:02x} is no UTF-8")?;
            return Ok(Some(line.text));
        }
    };
    let error = match toml::table_from_str(alloc, text) {
        Ok(_) => return Ok(None),
        Err(error) => error,
    };
    match error.span() {
        Some(span) => {
            let mut line = line_with_column(alloc, path, bytes, span.start)?;
            line.text.push_str(error.message())?;
            Ok(Some(line.text))
        }
        None => Err(AllocError),
    }
}

/// Begins a line with the number of the line of a byte, and its column.
fn line_with_column(
    alloc: Global,
    path: &str,
    bytes: &[u8],
    index: usize,
) -> Result<Line, AllocError> {
    let mut line = Line::new(alloc, path, Some(line_at(bytes, index)))?;
    let column = column_at(bytes, index);
    write!(line.text, "column {column}: ")?;
    Ok(line)
}

/// The line for what is first wrong with a tree, where that is the fault.
fn finding_line(
    alloc: Global,
    path: &str,
    bytes: &[u8],
    fault: ConfigFault,
) -> Result<Option<String>, AllocError> {
    let Ok(text) = str::from_utf8(bytes) else {
        return Ok(None);
    };
    let tree = match toml::table_from_str(alloc, text) {
        Ok(tree) => tree,
        Err(error) if error.is_memory() => return Err(AllocError),
        Err(_) => return Ok(None),
    };
    let configuration = Configuration {
        alloc,
        text,
        table: &tree,
    };
    match first_finding(&tree) {
        Some(finding) if finding.fault() == fault => {
            Ok(Some(configuration.told(path, finding)?))
        }
        _ => Ok(None),
    }
}
