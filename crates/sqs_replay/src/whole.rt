//! The whole replay.

ghost use Rattle.std.specs.Prelude.{◌≡◌, ◌≤◌, ◌+◌, ◌^◌, ℕ, List, length, OnOk, OnErr, IfSome};
ghost use Rattle.std.specs.Io.KnownBytes.{Appends, IsAtEnd};
ghost use Rattle.sqs_replay.specs.Failures.{AppendsPart};
ghost use Rattle.sqs_replay.specs.Progress.{AnswersAll, AnswersPart, AnswersWhole, OnReadFault, ReadingHasCause, InletHasCause, OutletHasCause, MemoryHasCause};
ghost use Rattle.redrive.specs.House.{House, new_house};
ghost use Rattle.sqs_replay.specs.Served.{text_of_line, house_of_line};
ghost use Rattle.sqs_replay.specs.Replay.{replay_output};

use crate::run::run_lines;
use crate::{Inlet, Outlet, ReplayFault};
use journal::{Moment, Ticks};
use queue_config::Config;
use redrive::House;
use std::alloc::Global;

/// Reads lines of requests, each with its moment, and writes the answers to them and nothing else.
/// The configured queues are there from the start, opened at the moment 0.
///
/// At `Ok` what is written is the answers to all that was read. At a fault it is a part of the
/// answers to the whole lines read, from the front (and of the last piece, where the input had
/// ended). At `Read` it is all of those, and what comes after the last line feed read is not
/// answered. `Read` and `Write` come only where the device failed in this run, or `Read` after 2^32
/// reads that each took a byte at least; a device that failed ends the run so and not otherwise.
/// There are at most 2^32 reads. `OutOfMemory` comes where no device failed, and is never written as
/// an answer. That memory was then refused is no clause.
pub fn replay<I: Inlet, O: Outlet>(
    alloc: Global,
    config: Config,
    inlet: &mut I,
    outlet: &mut O,
    ticks: &mut Ticks,
) -> Result<(), ReplayFault>
    // All that the inlet had left was read and answered.
    ensures text { OnOk result (IfSome (I.left inlet.old) (λ input.
        Appends (O.taken outlet.old) (O.taken outlet.new) (replay_output config input))) }
    ensures all_read { OnOk result (IsAtEnd (I.left inlet.new)) }

    // However it ends, what was appended is a front of the whole text.
    ensures front { IfSome (I.left inlet.old) (λ input.
        AppendsPart (O.taken outlet.old) (O.taken outlet.new) (replay_output config input)) }

    // What was read and written, whether or not the inlet's bytes were known before.
    ensures ok { OnOk result ((input : List ℕ) × (end : House)
        × AnswersAll text_of_line house_of_line (new_house config 0) end
        (I.left inlet.old) (I.left inlet.new) (O.taken outlet.old) (O.taken outlet.new) input) }
    ensures err { OnErr result ((read : List ℕ) × AnswersPart text_of_line house_of_line (new_house config 0)
        (I.left inlet.old) (I.left inlet.new) (O.taken outlet.old) (O.taken outlet.new) read) }

    // Where no more could be read, the whole lines read are answered, and nothing else.
    ensures read_stops { OnReadFault result ((read : List ℕ) × (end : House)
        × AnswersWhole text_of_line house_of_line (new_house config 0) end
        (I.left inlet.old) (I.left inlet.new) (O.taken outlet.old) (O.taken outlet.new) read
        × ReadingHasCause (I.failures inlet.old) (I.failures inlet.new) (I.reads inlet.old) (I.reads inlet.new) (length read)) }

    // A fault has its cause, and the counts tell it: where a device failed it is that device's fault.
    ensures read_fault { InletHasCause result (I.failures inlet.old) (I.failures inlet.new)
        (I.reads inlet.old) (I.reads inlet.new) }
    ensures write_fault { OutletHasCause result (O.failures outlet.old) (O.failures outlet.new) }
    ensures inlet_memory { MemoryHasCause result (I.refusals inlet.old) (I.refusals inlet.new) }
    ensures outlet_memory { MemoryHasCause result (O.refusals outlet.old) (O.refusals outlet.new) }

    // However it ends, it has read at most 2^32 times.
    ensures reads { I.reads inlet.new ≤ I.reads inlet.old + 2 ^ 32 }
{
    match House::new(alloc, &config, Moment::zero()) {
        Ok(mut house) => run_lines(alloc, &mut house, inlet, outlet, ticks),
        Err(_) => Err(ReplayFault::OutOfMemory),
    }
}
