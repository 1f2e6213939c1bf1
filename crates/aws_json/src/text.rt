//! Texts that a client gives for names to begin with or to be.

ghost use Rattle.std.specs.Prelude.{◌≡◌, Ok};
ghost use Rattle.message.specs.Fault.{Meets};

use message::Fault;
use std::alloc::Global;
use std::marker::Model;

/// A text that a client gives. Contracts see its bytes.
#[derive(Debug, Drop)]
pub struct Text {
    text: String,
}

impl Model for Text {
    ghost use Rattle.std.specs.Prelude.{ℕ, List, string_bytes};

    ghost Value = { List ℕ };

    ghost view = { λ t. string_bytes t.text };
}

impl Text {
    /// The same text. `OutOfMemory` is the only refusal.
    pub(crate) fn new(alloc: Global, text: &str) -> Result<Text, Fault>
        ensures { Meets result (Ok text.now) }
    {
        let text = String::from_str(alloc, text)?;
        Ok(Text { text })
    }

    /// Its text.
    pub fn as_text(&self) -> &str
        ensures { result.now ≡ self.now }
    {
        self.text.as_str()
    }
}

/// What the names of queues begin with that a client asks for (Amazon SQS API Reference,
/// `ListQueues`).
pub type Prefix = Text;
