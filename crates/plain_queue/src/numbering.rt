//! The messages of a journal, numbered in the order of their entries.

ghost use Rattle.std.specs.Prelude.{◌≡◌, ◌+◌, ◌^◌, ◌<◌, ◌≤◌, length, slice_get, Some, IfSome, IfNone};
ghost use Rattle.std.specs.Iterator.{YieldsFirst, item_count};
ghost use Rattle.queue_core.specs.Messages.{messages};
ghost use Rattle.plain_queue.specs.private.Numbering.{IsAt};

use crate::begun::message_of;
use crate::entries::{FirstEntries, line_at};
use queue_core::facts::Message;
use std::marker::Model;

/// A message, the place of the line that begins it, and how many messages begin with that line before it.
#[derive(Drop)]
struct Begun {
    message: Message,
    place: usize,
    before: u64,
}

/// The message of a number, which is the next one behind those of the lines before a place and so many of the line there.
fn first_message(lines: &FirstEntries<'_>, from: usize, number: u64, before: u64) -> Option<Begun>
    requires { IsAt lines.now from number before }
    ensures first { IfSome result (λ begun. slice_get (messages lines.now) number ≡ Some begun.message) }
    ensures place { IfSome result (λ begun. IsAt lines.now begun.place (number + 1) (begun.before + 1)) }
    ensures none { IfNone result (length (messages lines.now) ≤ number) }
{
    let mut before = before;
    for place in from..lines.len() {
        if let Some(message) = message_of(line_at(lines, place), place, number, before) {
            return Some(Begun {
                message,
                place,
                before,
            });
        }
        before = 0;
    }
    None
}

/// Goes over the messages of a journal. Contracts see those that are left.
#[derive(Drop)]
pub struct Messages<'a, 'j> {
    lines: &'a FirstEntries<'j>,
    /// The place of the line that begins the next message, or of one before it.
    place: usize,
    /// The number of the next message.
    number: u64,
    /// How many messages begin with that line before the next one.
    before: u64,
}

impl<'a, 'j> Model for Messages<'a, 'j> {
    ghost use Rattle.std.specs.Prelude.{List, drop};
    ghost use Rattle.queue_core.specs.declared.facts.Message.{Message};
    ghost use Rattle.queue_core.specs.Messages.{messages};
    ghost use Rattle.plain_queue.specs.private.Numbering.{IsAt};

    ghost Value = { List Message };

    ghost view = { λ m. drop m.number (messages m.lines.now) };

    ghost invariant = { λ m. IsAt m.lines.now m.place m.number m.before };
}

impl<'a, 'j> Messages<'a, 'j> {
    /// All messages of a journal.
    pub fn of(lines: &'a FirstEntries<'j>) -> Messages<'a, 'j>
        ensures all { result ≡ messages lines.now }
        ensures few { length result < 2 ^ 64 }
    {
        lines.are_numbered();
        Messages {
            lines,
            place: 0,
            number: 0,
            before: 0,
        }
    }
}

impl<'a, 'j> Iterator for Messages<'a, 'j> {
    type Item = Message;

    ghost next_gives = { YieldsFirst (λ left. left) };

    ghost remaining = { item_count (λ left. left) };

    fn next(&mut self) -> Option<Message> {
        self.lines.are_numbered();
        let begun = first_message(self.lines, self.place, self.number, self.before)?;
        self.place = begun.place;
        self.number += 1;
        self.before = begun.before + 1;
        Some(begun.message)
    }
}
