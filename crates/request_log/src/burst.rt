//! The same line over and over is told once a second, with a count.

use journal::Moment;
use std::alloc::{AllocError, Global};
use std::mem;

/// How long a line is held back after it was told, in milliseconds.
const PAUSE: u64 = 1000;

/// How many bytes a time of day has, as 12:03:04.123Z.
const TIME: usize = 13;

/// What a line says behind the time of day that it may begin with: its first word, if that is as long as a time.
fn behind_time(line: &str) -> &str {
    match line.split_once(' ') {
        Some((time, rest)) if time.len() == TIME => rest,
        _ => line,
    }
}

/// The last line that came, when one was last told, and how often it has come again since then. Lines that differ only by
/// their time of day are the same.
#[derive(Debug, Drop)]
pub struct Burst {
    alloc: Global,
    line: String,
    told_at: Moment,
    again: u64,
}

impl Burst {
    /// Nothing has been told.
    pub fn new(alloc: Global) -> Burst {
        Burst {
            alloc,
            line: String::new(alloc),
            told_at: Moment::zero(),
            again: 0,
        }
    }

    /// Whether the last line was told within the second before a moment.
    fn is_fresh(&self, at: Moment) -> bool {
        let (told_at, at) = (self.told_at.milliseconds(), at.milliseconds());
        told_at <= at && at - told_at < PAUSE
    }

    /// What is told of the last line where it came again: the line, and how often.
    fn told_again(&mut self) -> Result<Option<String>, AllocError> {
        let count = mem::replace(&mut self.again, 0);
        if count == 0 {
            return Ok(None);
        }
        let line = self.line.as_str();
        let times = if count == 1 { "time" } else { "times" };
        Ok(Some(format!(in self.alloc; "{line} ({count} {times} more)")?))
    }

    /// What is told where nothing came until a moment: the last line with a count, where it came again and a second is
    /// over.
    pub fn rest(&mut self, at: Moment) -> Result<Option<String>, AllocError> {
        if self.is_fresh(at) {
            return Ok(None);
        }
        let told = self.told_again()?;
        if told.is_some() {
            self.told_at = at;
        }
        Ok(told)
    }

    /// What is told where a line came at a moment, before that line, which is told itself only where this says so: the
    /// last line within a second is counted, and told with its latest time.
    pub fn hear(&mut self, at: Moment, line: &str) -> Result<(Option<String>, bool), AllocError> {
        let is_last = behind_time(line) == behind_time(self.line.as_str());
        if is_last && (self.is_fresh(at) || self.again > 0) {
            self.again = self.again.saturating_add(1);
            self.line = String::from_str(self.alloc, line)?;
            return Ok((self.rest(at)?, false));
        }
        let before = self.told_again()?;
        self.line = String::from_str(self.alloc, line)?;
        self.told_at = at;
        Ok((before, true))
    }
}
