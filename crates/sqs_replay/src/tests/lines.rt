//! The parts of a line.

use super::same;
use crate::{InputLine, read_line};
use std::test::Fail;

/// The parts of a line, with a `|` before each, or nothing where it cannot be read.
fn parts_of(rt: &HostRuntime, line: &[u8]) -> Result<String, Fail> {
    match read_line(line) {
        Ok(InputLine { at, action, body }) => {
            let at = at.milliseconds();
            let body = str::from_utf8(body).unwrap_or("no text");
            Ok(format!(in rt.alloc(); "|{at}|{action}|{body}")?)
        }
        Err(_) => Ok(String::new(rt.alloc())),
    }
}

/// Lines of the right form, each with its moment, action and body, and one without bytes, with nothing
/// behind it.
const LINES: &str = "1 Foo |1|Foo|
1 Tick  {}|1|Tick| {}
0001 Tick {}|1|Tick|{}
1000 CreateQueue {\"QueueName\":\"jobs\"}|1000|CreateQueue|{\"QueueName\":\"jobs\"}
0 a b c |0|a|b c \n4611686018427387903 Z \t|4611686018427387903|Z|\t
0000000000000000007 Tick \r|7|Tick|\r
5 abcdefghijklmnopqrstuvwxyzABCDEFGHIJKLMNOPQRSTUVWXYZabcdefghijkl x|5|abcdefghijklmnopqrstuvwxyzABCDEFGHIJKLMNOPQRSTUVWXYZabcdefghijkl|x
";

/// The body may be any bytes.
#[test]
fn line_parts(rt: HostRuntime) -> Result<(), Fail> {
    for row in LINES.split('\n') {
        let end = row.find('|').unwrap_or(row.len());
        let parts = parts_of(&rt, row[..end].as_bytes())?;
        same(parts.as_str(), &row[end..])?;
    }
    let body = match read_line(b"1 Foo \xFF \x00") {
        Ok(line) => line.body,
        Err(_) => b"".as_slice(),
    };
    same(body, b"\xFF \x00".as_slice())
}
