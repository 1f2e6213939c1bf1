//! The text of a configuration, gone through for the line of a place. The text has been read as TOML, so
//! that what no TOML has ends the walk without an answer.

ghost use Rattle.std.specs.Prelude.{◌≡◌, ◌<◌, ◌==◌, length, IfOk};
ghost use Rattle.std.specs.List.{count_by};

use crate::spot::{Place, Spot};
use std::alloc::{AllocError, Global};
use toml_parser::text::{first, skip, skip_blank, skip_ws};
use toml_parser::{ErrorKind, Key, ParseError, dotted_key, quoted, starts_string, unquoted};

/// What stands before every text of some editors.
const BYTE_ORDER_MARK: char = '\u{FEFF}';

/// A bracket that is open.
#[derive(Clone, Copy, Debug)]
enum Open {
    /// Of an array, and how many of its elements have begun.
    Array(Spot, usize),
    /// Of a table.
    Table(Spot),
}

/// A walk through a text.
#[derive(Drop)]
struct Walk<'p> {
    alloc: Global,
    /// What is looked for.
    place: Place<'p>,
    /// How many bytes of the text are left where it stands.
    found: Option<usize>,
    /// How many `[[queue]]` there were.
    queues: usize,
    /// How many `[[alarm]]` there were.
    alarms: usize,
    /// What the last header began.
    section: Spot,
    /// The brackets that are open, the inner ones last.
    open: Vec<Open>,
}

impl Walk<'_> {
    /// Notes a place, which stands at the front of the rest, where it is the one and comes first.
    fn see(&mut self, place: Place<'_>, rest: &str) {
        if self.found.is_none() && self.place == place {
            self.found = Some(rest.len());
        }
    }

    /// Goes through a key with dots from a table on, and tells where its value stands.
    fn follow(&mut self, from: Spot, key: &Key, rest: &str) -> Spot {
        let mut spot = from;
        for part in &key.path {
            self.see(spot.at(part.as_str()), rest);
            spot = self.last_of(spot.below(part.as_str()));
        }
        self.see(spot.at(key.last.as_str()), rest);
        spot.below(key.last.as_str())
    }

    /// A header goes on in the last element of an array.
    fn last_of(&self, spot: Spot) -> Spot {
        match spot {
            Spot::Queues => spot.element(self.queues.saturating_sub(1)),
            Spot::Alarms => spot.element(self.alarms.saturating_sub(1)),
            _ => spot,
        }
    }

    /// Begins a further element of an array.
    fn next_of(&mut self, spot: Spot) -> Spot {
        match spot {
            Spot::Queues => self.queues = self.queues.saturating_add(1),
            Spot::Alarms => self.alarms = self.alarms.saturating_add(1),
            _ => {}
        }
        self.last_of(spot)
    }

    /// Goes past one token, or past a key and the front of its value. The text does not begin with
    /// blanks or a comment.
    fn step<'t>(&mut self, text: &'t str) -> Result<&'t str, ParseError>
        ensures { IfOk result (λ rest. length rest.now < length text.now) }
    {
        match self.open.last().copied() {
            Some(open) => self.inside(open, text),
            None if first(text) == b'[' => self.header(text),
            None => self.pair(self.section, text),
        }
    }

    /// Goes past a header.
    fn header<'t>(&mut self, text: &'t str) -> Result<&'t str, ParseError>
        ensures { IfOk result (λ rest. length rest.now < length text.now) }
    {
        let inner = past(text, b'[', ErrorKind::Key)?;
        let is_array = first(inner) == b'[';
        let inner = if is_array { skip(inner, 1) } else { inner };
        let (key, rest) = dotted_key(self.alloc, skip_ws(inner))?;
        let spot = self.follow(Spot::Top, &key, text);
        self.section = if is_array { self.next_of(spot) } else { spot };
        self.see(self.section.itself(), text);
        let rest = past(rest, b']', ErrorKind::UnclosedTable)?;
        if is_array {
            past(rest, b']', ErrorKind::UnclosedArrayTable)
        } else {
            Ok(rest)
        }
    }

    /// Goes past a key of a table and the front of its value.
    fn pair<'t>(&mut self, table: Spot, text: &'t str) -> Result<&'t str, ParseError>
        ensures { IfOk result (λ rest. length rest.now < length text.now) }
    {
        let (key, rest) = dotted_key(self.alloc, text)?;
        let spot = self.follow(table, &key, text);
        let value = past(rest, b'=', ErrorKind::MissingEquals)?;
        self.value(spot, skip_ws(value))
    }

    /// Goes past a value that has no brackets, or past its first bracket.
    fn value<'t>(&mut self, spot: Spot, text: &'t str) -> Result<&'t str, ParseError>
        ensures { IfOk result (λ rest. length rest.now < length text.now) }
    {
        if first(text) == b'[' {
            self.open.push(Open::Array(spot, 0))?;
            return Ok(skip(text, 1));
        }
        if first(text) == b'{' {
            self.open.push(Open::Table(spot))?;
            return Ok(skip(text, 1));
        }
        if starts_string(text) {
            let (_, rest) = quoted(self.alloc, text)?;
            return Ok(rest);
        }
        let (_, rest) = unquoted(self.alloc, text)?;
        Ok(rest)
    }

    /// Goes on between the innermost brackets: past a comma, past the closing bracket, or to what
    /// stands there.
    fn inside<'t>(&mut self, open: Open, text: &'t str) -> Result<&'t str, ParseError>
        ensures { IfOk result (λ rest. length rest.now < length text.now) }
    {
        let byte = first(text);
        if byte == b',' {
            return Ok(skip(text, 1));
        }
        if byte == b']' || byte == b'}' {
            self.open.pop();
            return Ok(skip(text, 1));
        }
        match open {
            Open::Table(spot) => self.pair(spot, text),
            Open::Array(spot, number) => {
                self.open.pop();
                self.open.push(Open::Array(spot, number.saturating_add(1)))?;
                let element = spot.element(number);
                self.see(element.itself(), text);
                self.value(element, text)
            }
        }
    }
}

/// What follows a byte, which has to come next.
fn past(text: &str, byte: u8, missing: ErrorKind) -> Result<&str, ParseError>
    requires some { 0 < byte }
    requires ascii { byte < 128 }
    ensures { IfOk result (λ rest. length rest.now < length text.now) }
{
    if first(text) == byte {
        Ok(skip(text, 1))
    } else {
        Err(ParseError::at(missing, text))
    }
}

/// How many bytes of a text are left where a place stands, if it stands there.
fn left_at(alloc: Global, text: &str, place: Place<'_>) -> Result<Option<usize>, ParseError> {
    let mut walk = Walk {
        alloc,
        place,
        found: None,
        queues: 0,
        alarms: 0,
        section: Spot::Top,
        open: Vec::new(alloc),
    };
    let mut rest = text.strip_prefix(BYTE_ORDER_MARK).unwrap_or(text);
    'tokens: loop {
        let start = skip_blank(rest, true);
        if start.is_empty() || walk.found.is_some() {
            return Ok(walk.found);
        }
        rest = walk.step(start)?;
    }
}

/// The number of the line at which a place of a configuration stands, if it stands there.
pub(crate) fn line_of(
    alloc: Global,
    text: &str,
    place: Place<'_>,
) -> Result<Option<usize>, AllocError> {
    match left_at(alloc, text, place) {
        Ok(Some(left)) => Ok(Some(line_at(text.as_bytes(), text.len().saturating_sub(left)))),
        Ok(None) | Err(ParseError::At(..)) => Ok(None),
        Err(ParseError::OutOfMemory) => Err(AllocError),
    }
}

/// How many line feeds there are.
fn line_feeds(bytes: &[u8]) -> usize
    ensures { result ≡ count_by (λ byte. byte == 10) bytes.now }
{
    bytes.iter().filter(|byte| **byte == b'\n').count()
}

/// The number of the line, from 1, on which the byte at an index stands.
pub(crate) fn line_at(bytes: &[u8], index: usize) -> usize {
    let before = &bytes[..index.min(bytes.len())];
    line_feeds(before).saturating_add(1)
}

/// The number of its character on that line, from 1.
pub(crate) fn column_at(bytes: &[u8], index: usize) -> usize {
    let mut column: usize = 1;
    for byte in bytes.iter().take(index) {
        if *byte == b'\n' {
            column = 1;
        } else if *byte & 0xC0 != 0x80 {
            column = column.saturating_add(1);
        }
    }
    column
}
