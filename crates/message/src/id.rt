//! Identifiers of messages.

ghost use Rattle.std.specs.Prelude.{◌≡◌, IfOk, IfErr, string_bytes};

use crate::fault::Fault;
use std::alloc::Global;
use uuid::Uuid;

/// Which message it is: the uid of the queue that it was first sent to, and its number there,
/// counted from 0. A message keeps its id when it moves to another queue.
#[derive(Clone, Copy, Debug, PartialEq, Eq)]
pub struct MessageId {
    pub uid: u64,
    pub number: u64,
}

impl MessageId {
    ghost use Rattle.message.specs.Id.{message_id_text, message_id_of};

    /// The id as a client reads it: a UUID's hyphenated lower-case text, its upper half the uid and
    /// its lower half the number (this project's own choice). `OutOfMemory` is the only refusal.
    pub fn text(self, alloc: Global) -> Result<String, Fault>
        ensures text { IfOk result (λ text. string_bytes text ≡ message_id_text self) }
        ensures reads_back { IfOk result (λ text. message_id_of (string_bytes text) ≡ Some self) }
        ensures refusal { IfErr result (λ fault. fault ≡ Fault.OutOfMemory) }
    {
        let mut buffer = Uuid::encode_buffer();
        let id = Uuid::from_u64_pair(self.uid, self.number);
        let text = id.hyphenated().encode_lower(&mut buffer);
        Ok(String::from_str(alloc, text)?)
    }

    /// The id that a text is, in any form in which a UUID is written.
    pub fn read(text: &str) -> Option<MessageId>
        ensures { result ≡ message_id_of text.now }
    {
        match Uuid::parse_str(text) {
            Ok(id) => {
                let (uid, number) = id.as_u64_pair();
                Some(MessageId { uid, number })
            }
            Err(_) => None,
        }
    }
}
