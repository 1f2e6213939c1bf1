//! What a line is answered, and its JSON text.

ghost use Rattle.std.specs.Prelude.{◌≡◌, Ok, string_bytes};
ghost use Rattle.message.specs.Fault.{Meets};
ghost use Rattle.aws_json.specs.Steps.{result_map};
ghost use Rattle.sqs_replay.specs.Served.{shown_text};

use aws_json::{Listed, ReplyShape, reply_text};
use board::Sheet;
use message::Fault;
use statistics_api::{alarms_text, rows_text, sheet_text, sheets_text};
use std::alloc::Global;

/// The port in the URLs of queues: that of the server where it is told no other.
const PORT: u16 = 9324;

/// What a line is answered.
#[derive(Debug, Drop)]
pub enum LineAnswer {
    /// What a client is answered.
    Reply(ReplyShape),
    /// The statistics of a queue.
    Queue(Sheet),
    /// The statistics of queues, by name.
    Queues(Listed<Sheet>),
    /// The rows of a queue.
    Rows(Sheet),
    /// The alarms of a queue.
    Alarms(Sheet),
}

/// The JSON text of an answer. `OutOfMemory` is the only refusal.
pub(crate) fn shown_text(alloc: Global, shown: &LineAnswer) -> Result<String, Fault>
    ensures { Meets (result_map (λ s. string_bytes s) result) (Ok (shown_text shown.now)) }
{
    match shown {
        LineAnswer::Reply(shape) => reply_text(alloc, PORT, shape),
        LineAnswer::Queue(sheet) => sheet_text(alloc, sheet),
        LineAnswer::Queues(sheets) => sheets_text(alloc, sheets.as_slice()),
        LineAnswer::Rows(sheet) => rows_text(alloc, sheet.rows.as_slice()),
        LineAnswer::Alarms(sheet) => alarms_text(alloc, sheet.alarms.as_slice()),
    }
}
