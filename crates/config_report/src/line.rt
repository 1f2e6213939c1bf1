//! A line that is being written.

use std::alloc::{AllocError, Global};
use toml_parser::bytes::is_bare;

/// How many characters of the file a line shows at most.
const SHOWN_LIMIT: usize = 200;

/// How many characters it shows of one key or value. A name has no more.
const PIECE_LIMIT: usize = 80;

/// A line that is being written, and how much of the file it may still show.
#[derive(Drop)]
pub(crate) struct Line {
    /// What stands there. Nothing of the file comes in but by [`Line::show`] and [`Line::quote`].
    pub(crate) text: String,
    /// In characters.
    left: usize,
}

impl Line {
    /// Begins a line, with the path and the number of a line of the file, where it is known.
    pub(crate) fn new(
        alloc: Global,
        path: &str,
        number: Option<usize>,
    ) -> Result<Line, AllocError> {
        let mut text = String::new(alloc);
        for character in path.chars() {
            push_visible(&mut text, character)?;
        }
        if let Some(number) = number {
            write!(text, ":{number}")?;
        }
        text.push_str(": ")?;
        Ok(Line {
            text,
            left: SHOWN_LIMIT,
        })
    }

    /// Shows what the file said, as it stands there, up to the limit.
    pub(crate) fn show(&mut self, said: &str) -> Result<(), AllocError> {
        let most = self.left.min(PIECE_LIMIT);
        for (place, character) in said.chars().enumerate() {
            if most <= place {
                return self.text.push_str("..");
            }
            push_visible(&mut self.text, character)?;
            self.left = self.left.saturating_sub(1);
        }
        Ok(())
    }

    /// Shows it in quotes and with escapes, up to the limit.
    pub(crate) fn quote(&mut self, alloc: Global, said: &str) -> Result<(), AllocError> {
        let most = self.left.min(PIECE_LIMIT);
        let front: String = said.chars().take(most).collect(alloc)?;
        self.left = self.left.saturating_sub(front.chars().count());
        write!(self.text, "{front:?}")?;
        if front.len() < said.len() {
            self.text.push_str("..")?;
        }
        Ok(())
    }

    /// Shows a key, in quotes where TOML wants them.
    pub(crate) fn show_key(&mut self, alloc: Global, key: &str) -> Result<(), AllocError> {
        if key.is_empty() || !key.bytes().all(is_bare) {
            self.quote(alloc, key)
        } else {
            self.show(key)
        }
    }
}

/// Puts a character there, escaped where it is a control character.
fn push_visible(text: &mut String, character: char) -> Result<(), AllocError> {
    if character.is_control() {
        let escaped = character.escape_debug();
        write!(text, "{escaped}")
    } else {
        text.push(character)
    }
}
