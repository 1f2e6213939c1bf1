//! What is told of a finding.

use crate::finding::{Finding, Problem};
use crate::kind::{ValueKind, is_shown, kind_words, show_value};
use crate::known::{
    ALARM, BREACHES, MINUTES, NAME, QUEUE, key_of_attribute, known_keys, known_words,
};
use crate::line::Line;
use crate::nearest::nearest;
use crate::spot::{Place, Spot};
use crate::together::text_at;
use crate::walk::line_of;
use queue_config::{ALARM_LIMIT, QUEUE_LIMIT};
use std::alloc::{AllocError, Global};
use toml::{Table, Value};

/// A configuration, as text and as the tree that the text is.
#[derive(Clone, Copy)]
pub(crate) struct Configuration<'t> {
    pub(crate) alloc: Global,
    pub(crate) text: &'t str,
    pub(crate) table: &'t Table,
}

impl<'t> Configuration<'t> {
    /// The line for a finding.
    pub(crate) fn told(self, path: &str, finding: Finding<'t>) -> Result<String, AllocError> {
        let place = finding.place;
        let number = line_of(self.alloc, self.text, place)?;
        let mut line = Line::new(self.alloc, path, number)?;
        self.write_table(&mut line, place.spot)?;
        self.write_problem(&mut line, place, finding.problem)?;
        Ok(line.text)
    }

    /// Names the table: a queue and an alarm by their names, or by their numbers, from 1, where they
    /// have none.
    fn write_table(self, line: &mut Line, spot: Spot) -> Result<(), AllocError> {
        match spot {
            Spot::Limits => line.text.push_str("[limits]: "),
            Spot::Queue(number) => self.write_element(line, QUEUE, number),
            Spot::Alarm(number) => self.write_element(line, ALARM, number),
            Spot::Top | Spot::Queues | Spot::Alarms | Spot::Inside => Ok(()),
        }
    }

    /// Names one of the tables at a key.
    fn write_element(
        self,
        line: &mut Line,
        key: &'static str,
        number: usize,
    ) -> Result<(), AllocError> {
        write!(line.text, "[[{key}]] ")?;
        match self.name_of(key, number) {
            Some(name) => line.quote(self.alloc, name)?,
            None => {
                let number = number.saturating_add(1);
                write!(line.text, "number {number}")?;
            }
        }
        line.text.push_str(": ")
    }

    /// The tables at a key of the file.
    fn tables_at(self, key: &'static str) -> &'t [Value] {
        match self.table.get(key) {
            Some(value) => match value.as_array() {
                Some(tables) => tables.as_slice(),
                None => &[],
            },
            None => &[],
        }
    }

    /// The name of one of them, where it has one.
    fn name_of(self, key: &'static str, number: usize) -> Option<&'t str> {
        match self.tables_at(key).get(number) {
            Some(table) => text_at(table, NAME),
            None => None,
        }
    }

    /// Writes what is wrong.
    fn write_problem(
        self,
        line: &mut Line,
        place: Place<'t>,
        problem: Problem<'t>,
    ) -> Result<(), AllocError> {
        match problem {
            Problem::UnknownKey => self.write_unknown_key(line, place),
            Problem::WrongKind { value, wanted } => {
                self.write_wrong_kind(line, place, value, wanted)
            }
            Problem::OutOfRange { value, wanted } => {
                self.write_out_of_range(line, place, value, wanted)
            }
            Problem::Missing { key } => write!(line.text, "{key} is missing"),
            Problem::Alone { key, other } => write!(line.text, "{key} stands without {other}"),
            Problem::TooManyBreaches { breaches, minutes } => {
                write_breaches(line, breaches, minutes)
            }
            Problem::TooManyQueues => {
                write!(line.text, "there are more than {QUEUE_LIMIT} queues")
            }
            Problem::TooManyAlarms { queue } => self.write_too_many_alarms(line, queue),
            Problem::QueueTwice { first } => self.write_queue_twice(line, first),
            Problem::AlarmTwice { first, queue } => self.write_alarm_twice(line, queue, first),
            Problem::NoSuchQueue { name } => self.write_no_such_queue(line, place, name),
            Problem::OwnTarget { name } => self.write_own_target(line, place, name),
        }
    }

    /// Writes what is wrong with a key that its table does not know.
    fn write_unknown_key(self, line: &mut Line, place: Place<'t>) -> Result<(), AllocError> {
        let key = place.key.unwrap_or("");
        line.text.push_str("unknown key ")?;
        line.show_key(self.alloc, key)?;
        let meant = match key_of_attribute(place.spot, key) {
            Some(known) => Some(known),
            None => nearest(
                self.alloc,
                key,
                known_keys(self.alloc, place.spot)?.as_slice(),
            )?,
        };
        write_meant(line, meant)
    }

    /// Writes that a value is of another kind than is wanted.
    fn write_wrong_kind(
        self,
        line: &mut Line,
        place: Place<'t>,
        value: &'t Value,
        wanted: ValueKind,
    ) -> Result<(), AllocError> {
        self.write_value(line, place, value)?;
        let is = kind_words(value);
        write!(line.text, " is {is}, and ")?;
        wanted.write_wanted(line)?;
        if let Spot::Top = place.spot {
            write_header(line, place.key, wanted)?;
        }
        line.text.push_str(" is wanted")
    }

    /// Writes that a value is out of range.
    fn write_out_of_range(
        self,
        line: &mut Line,
        place: Place<'t>,
        value: &'t Value,
        wanted: ValueKind,
    ) -> Result<(), AllocError> {
        self.write_value(line, place, value)?;
        line.text.push_str(" is ")?;
        wanted.write_missed(line)?;
        let given = value.as_str().unwrap_or("");
        if wanted == ValueKind::Name && given.ends_with(".fifo") {
            line.text.push_str("; there are no FIFO queues")?;
        }
        let words = known_words(self.alloc, wanted)?;
        let meant = nearest(self.alloc, given, words.as_slice())?;
        if meant.is_none() {
            let mut before = "; known are ";
            for word in words.as_slice() {
                line.text.push_str(before)?;
                line.text.push_str(word)?;
                before = ", ";
            }
        }
        write_meant(line, meant)
    }

    /// Writes a value, with its key where it has one.
    fn write_value(
        self,
        line: &mut Line,
        place: Place<'t>,
        value: &'t Value,
    ) -> Result<(), AllocError> {
        match place.key {
            Some(key) => {
                line.show_key(self.alloc, key)?;
                if is_shown(value) {
                    line.text.push_str(" = ")?;
                }
            }
            None if is_shown(value) => {}
            None => line.text.push_str("it")?,
        }
        show_value(self.alloc, line, value)
    }

    /// Writes a key and its text.
    fn write_text(
        self,
        line: &mut Line,
        place: Place<'t>,
        text: &'t str,
    ) -> Result<(), AllocError> {
        line.show_key(self.alloc, place.key.unwrap_or(""))?;
        line.text.push_str(" = ")?;
        line.quote(self.alloc, text)
    }

    /// Writes that a queue has more alarms than it may have.
    fn write_too_many_alarms(self, line: &mut Line, queue: &'t str) -> Result<(), AllocError> {
        write!(line.text, "there are more than {ALARM_LIMIT} alarms of ")?;
        line.quote(self.alloc, queue)
    }

    /// Writes that a queue before has the name.
    fn write_queue_twice(self, line: &mut Line, first: Spot) -> Result<(), AllocError> {
        line.text.push_str("another queue has this name")?;
        self.write_first(line, first)
    }

    /// Writes that an alarm before, of the same queue, has the name.
    fn write_alarm_twice(
        self,
        line: &mut Line,
        queue: &'t str,
        first: Spot,
    ) -> Result<(), AllocError> {
        line.text.push_str("another alarm of ")?;
        line.quote(self.alloc, queue)?;
        line.text.push_str(" has this name")?;
        self.write_first(line, first)
    }

    /// Writes where a name stands first.
    fn write_first(self, line: &mut Line, first: Spot) -> Result<(), AllocError> {
        match line_of(self.alloc, self.text, first.at(NAME))? {
            Some(number) => write!(line.text, ", in line {number}"),
            None => Ok(()),
        }
    }

    /// Writes that no queue of the file has a name.
    fn write_no_such_queue(
        self,
        line: &mut Line,
        place: Place<'t>,
        name: &'t str,
    ) -> Result<(), AllocError> {
        self.write_text(line, place, name)?;
        line.text.push_str(" is not in the file")?;
        let mut names = Vec::new(self.alloc);
        for queue in self.tables_at(QUEUE) {
            if let Some(name) = text_at(queue, NAME) {
                names.push(name)?;
            }
        }
        write_meant(line, nearest(self.alloc, name, names.as_slice())?)
    }

    /// Writes that a queue is named as its own dead-letter queue.
    fn write_own_target(
        self,
        line: &mut Line,
        place: Place<'t>,
        name: &'t str,
    ) -> Result<(), AllocError> {
        self.write_text(line, place, name)?;
        line.text.push_str(" is the queue itself")
    }
}

/// Writes that a rule has more breaches than minutes.
fn write_breaches(line: &mut Line, breaches: i64, minutes: i64) -> Result<(), AllocError> {
    write!(
        line.text,
        "{BREACHES} = {breaches} is more than {MINUTES} = {minutes}"
    )
}

/// Writes the header that begins what is wanted at a key of the file.
fn write_header(line: &mut Line, key: Option<&str>, wanted: ValueKind) -> Result<(), AllocError> {
    match (key, wanted) {
        (Some(key), ValueKind::Table) => write!(line.text, " ([{key}])"),
        (Some(key), ValueKind::Tables) => write!(line.text, " ([[{key}]])"),
        _ => Ok(()),
    }
}

/// Writes what was meant, perhaps.
fn write_meant(line: &mut Line, meant: Option<&str>) -> Result<(), AllocError> {
    match meant {
        Some(word) => {
            line.text.push_str(": did you mean ")?;
            line.show(word)?;
            line.text.push_str("?")
        }
        None => Ok(()),
    }
}
