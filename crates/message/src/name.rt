//! Names of queues.

ghost use Rattle.std.specs.Prelude.{◌≡◌, ◌-◌, ◌≤◌, IsTrue, ◌++◌, length, replicate};
ghost use Rattle.std.specs.List.{list_all};
ghost use Rattle.message.specs.Name.{is_name_character, is_queue_name, queue_name_of};

use crate::fault::Fault;
use std::marker::Model;

/// How many characters a queue's name has at most (Amazon SQS API Reference, `CreateQueue`).
pub const NAME_LIMIT: usize = 80;

/// The name of a queue: 1 to 80 ASCII letters, digits, hyphens and underscores, as the Amazon SQS
/// API Reference has it for standard queues. Two names are equal where their texts are; case counts.
#[derive(Clone, Copy, Debug, PartialEq, Eq, Hash)]
pub struct QueueName {
    bytes: [u8; 80],
    len: usize,
}

impl Model for QueueName {
    ghost use Rattle.std.specs.Prelude.{ℕ, List, ◌++◌, ◌-◌, length, take, replicate};
    ghost use Rattle.message.specs.private.StoredName.{IsStoredName, stored_name};

    ghost Value = { List ℕ };

    ghost view = { λ n. take n.len n.bytes };

    ghost invariant = { λ n. IsStoredName n.bytes n.len };

    ghost inverse = { λ text. record { bytes = text ++ replicate (80 - length text) 0; len = length text } };

    ghost inverse_ok = { λ n h. stored_name n.bytes n.len h (λ bytes len. record { bytes = bytes; len = len }) };
}

/// Whether a byte may stand in a name.
pub(crate) fn is_name_byte(byte: u8) -> bool
    ensures { result ≡ is_name_character byte }
{
    byte.is_ascii_alphanumeric() || byte == b'-' || byte == b'_'
}

/// Whether every byte may stand in a name.
fn has_name_bytes(text: &[u8]) -> bool
    ensures { result ≡ list_all is_name_character text.now }
{
    text.iter().all(|byte| is_name_byte(*byte))
}

/// Whether the bytes are a name.
fn is_queue_name(text: &[u8]) -> bool
    ensures { result ≡ is_queue_name text.now }
{
    1 <= text.len() && text.len() <= NAME_LIMIT && has_name_bytes(text)
}

/// The bytes, and zeros after them.
fn padded(text: &[u8]) -> [u8; 80]
    requires { length text.now ≤ 80 }
    ensures { result ≡ text.now ++ replicate (80 - length text.now) 0 }
{
    let mut bytes = [0; 80];
    for (place, byte) in text.iter().enumerate() {
        bytes[place] = *byte;
    }
    bytes
}

impl QueueName {
    /// Reads a name. A text that is no name is refused as `InvalidParameterValue`.
    pub fn read(text: &str) -> Result<QueueName, Fault>
        ensures { result ≡ queue_name_of text.now }
    {
        let text = text.as_bytes();
        if !is_queue_name(text) {
            return Err(Fault::InvalidParameterValue);
        }
        let bytes = padded(text);
        let len = text.len();
        Ok(QueueName { bytes, len })
    }

    /// The name's text.
    pub fn as_text(&self) -> &str
        ensures text { result.now ≡ self.now }
        ensures name { IsTrue (is_queue_name self.now) }
    {
        let text = &self.bytes[..self.len];
        match str::from_utf8(text) {
            Ok(text) => text,
            Err(_) => unreachable!(),
        }
    }
}
