//! Handles and their texts.

ghost use Rattle.std.specs.Prelude.{◌≡◌, ◌+◌, ◌≤◌, IsTrue, IfOk, IfErr, length, slice_range, string_bytes};
ghost use Rattle.std.specs.List.{list_all};
ghost use Rattle.std.specs.Str.Parse.{digits_value};
ghost use Rattle.receipt_handle.specs.Digits.{is_handle_digit, is_handle_text};
ghost use Rattle.message.specs.declared.fault.Fault.TheVariants.{OutOfMemory};

use message::Fault;
use std::alloc::Global;

/// Which receive of which message it names.
#[derive(Clone, Copy, Debug, PartialEq, Eq)]
pub struct Handle {
    /// The uid of the queue that gave it.
    pub uid: u64,
    /// The number of the message in that queue, counted from 0.
    pub number: u64,
    /// The message's receive count at that receive, so that the first is 1.
    pub receipt: u64,
}

/// Whether a byte may stand in a handle.
fn is_handle_digit(byte: u8) -> bool
    ensures { result ≡ is_handle_digit byte }
{
    matches!(byte, b'0'..=b'9' | b'a'..=b'f')
}

/// Whether every byte may stand in a handle.
fn has_digit_bytes(text: &[u8]) -> bool
    ensures { result ≡ list_all is_handle_digit text.now }
{
    text.iter().all(|byte| is_handle_digit(*byte))
}

/// Whether the bytes are a handle.
fn is_handle_text(text: &[u8]) -> bool
    ensures { result ≡ is_handle_text text.now }
{
    text.len() == 48 && has_digit_bytes(text)
}

/// The number of the sixteen digits from a place on.
fn number_at(text: &str, start: usize) -> u64
    requires text { IsTrue (is_handle_text text.now) }
    requires within { start ≤ 32 }
    ensures { result ≡ digits_value 16 (slice_range text.now start (start + 16)) }
{
    match u64::from_str_radix(&text[start..start + 16], 16) {
        Ok(number) => number,
        Err(_) => unreachable!(),
    }
}

impl Handle {
    ghost use Rattle.receipt_handle.specs.Handle.{handle_of, handle_text};

    /// The handle's text, which a client gives back. `OutOfMemory` is the only refusal.
    pub fn write(self, alloc: Global) -> Result<String, Fault>
        ensures text { IfOk result (λ text. string_bytes text ≡ handle_text self) }
        ensures reads_back { IfOk result (λ text. handle_of (string_bytes text) ≡ Ok self) }
        ensures refusal { IfErr result (λ fault. fault ≡ OutOfMemory) }
    {
        Ok(format!(in alloc;
            "{:016x}{:016x}{:016x}",
            self.uid, self.number, self.receipt
        )?)
    }

    /// The handle that a text is. Every other text is refused as `ReceiptHandleIsInvalid`.
    pub fn read(text: &str) -> Result<Handle, Fault>
        ensures { result ≡ handle_of text.now }
    {
        if !is_handle_text(text.as_bytes()) {
            return Err(Fault::ReceiptHandleIsInvalid);
        }
        let uid = number_at(text, 0);
        let number = number_at(text, 16);
        let receipt = number_at(text, 32);
        Ok(Handle {
            uid,
            number,
            receipt,
        })
    }
}
