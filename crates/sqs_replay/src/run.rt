//! The run over an input.

ghost use Rattle.std.specs.Prelude.{◌≡◌, ◌<◌, ◌≤◌, ◌+◌, ◌^◌, ℕ, List, [], ◌∷◌, ◌++◌, length, Option, false, IfOk, OnOk, OnErr, IfSome, vec_len};
ghost use Rattle.std.specs.Io.KnownBytes.{Appends, IsAtEnd};
ghost use Rattle.sqs_replay.specs.Fault.{is_read_fault};
ghost use Rattle.sqs_replay.specs.Failures.{AppendsPart};
ghost use Rattle.sqs_replay.specs.Cutting.{lines_among, whole_lines};
ghost use Rattle.sqs_replay.specs.Answers.{texts, state_after, replay_text, replay_state};
ghost use Rattle.sqs_replay.specs.Progress.{AnswersAll, AnswersPart, AnswersWhole, StopsBefore, StopsAmong, Stops, OnReadFault, ReadingHasCause, InletHasCause, OutletHasCause, MemoryHasCause};
ghost use Rattle.sqs_replay.specs.private.Progress.{HasRead};

use crate::lines::without_return;
use crate::{Inlet, LINE_LIMIT, Lines, Outlet, ReplayFault};
use journal::Ticks;
use std::alloc::{AllocError, Global};

/// How many bytes one read asks for.
const BUFFER_BYTES: usize = 65_536;

/// How many bytes of a line are kept: what is dropped after them can't make a line that is too long
/// a shorter one, even if the last of them is a carriage return.
const KEPT_LIMIT: usize = LINE_LIMIT + 2;

/// How often an inlet is read.
const READ_LIMIT: u64 = 1 << 32;

/// Reads the inlet to its end, and appends to the outlet the text that answers each line.
///
/// It reads at most 2^32 times, and then gives up with [`ReplayFault::Read`]. Where it does, or where
/// a read fails, the whole lines read are answered, and what comes after the last line feed is not.
/// Of the input it means to keep 64 KiB and 8,388,706 bytes of a line, which no clause says.
pub fn run_lines<S: Lines, I: Inlet, O: Outlet>(
    alloc: Global,
    server: &mut S,
    inlet: &mut I,
    outlet: &mut O,
    ticks: &mut Ticks,
) -> Result<(), ReplayFault>
    // All that the inlet had left was read and answered.
    ensures text { OnOk result (IfSome (I.left inlet.old) (λ input.
        Appends (O.taken outlet.old) (O.taken outlet.new) (replay_text S.text S.after server.old input))) }
    ensures state { OnOk result (IfSome (I.left inlet.old) (λ input.
        server.new ≡ replay_state S.after server.old input)) }
    ensures all_read { OnOk result (IsAtEnd (I.left inlet.new)) }

    // However it ends, what was appended is a front of the whole text.
    ensures front { IfSome (I.left inlet.old) (λ input.
        AppendsPart (O.taken outlet.old) (O.taken outlet.new) (replay_text S.text S.after server.old input)) }

    // Whatever the inlet gave, known or not.
    ensures ok { OnOk result ((input : List ℕ) × AnswersAll S.text S.after server.old server.new
        (I.left inlet.old) (I.left inlet.new) (O.taken outlet.old) (O.taken outlet.new) input) }
    ensures err { OnErr result ((read : List ℕ) × AnswersPart S.text S.after server.old
        (I.left inlet.old) (I.left inlet.new) (O.taken outlet.old) (O.taken outlet.new) read) }

    // At a fault, the lines answered whole and a part of the next one's text at most.
    ensures stopped { OnErr result ((read : List ℕ) × Stops S.text S.after server.old
        (I.left inlet.old) (I.left inlet.new) (O.taken outlet.old) (O.taken outlet.new) read) }

    // Where no more could be read, the whole lines read are answered, and nothing else.
    ensures read_stops { OnReadFault result ((read : List ℕ) × AnswersWhole S.text S.after server.old server.new
        (I.left inlet.old) (I.left inlet.new) (O.taken outlet.old) (O.taken outlet.new) read
        × ReadingHasCause (I.failures inlet.old) (I.failures inlet.new) (I.reads inlet.old) (I.reads inlet.new) (length read)) }

    // A fault has its cause, and the counts tell it: where a device failed it is that device's fault.
    ensures read_fault { InletHasCause result (I.failures inlet.old) (I.failures inlet.new)
        (I.reads inlet.old) (I.reads inlet.new) }
    ensures write_fault { OutletHasCause result (O.failures outlet.old) (O.failures outlet.new) }
    ensures inlet_memory { MemoryHasCause result (I.refusals inlet.old) (I.refusals inlet.new) }
    ensures outlet_memory { MemoryHasCause result (O.refusals outlet.old) (O.refusals outlet.new) }

    // However it ends, it has read at most 2^32 times.
    ensures reads { I.reads inlet.new ≤ I.reads inlet.old + 2 ^ 32 }
{
    let mut buffer = read_buffer(alloc)?;
    read_lines(alloc, server, inlet, outlet, ticks, buffer.as_mut_slice())
}

/// A buffer to read into.
fn read_buffer(alloc: Global) -> Result<Vec<u8>, AllocError>
    ensures { IfOk result (λ buffer. 0 < vec_len buffer) }
{
    vec![in alloc; 0; BUFFER_BYTES]
}

/// The run, with a buffer to read into.
fn read_lines<S: Lines, I: Inlet, O: Outlet>(
    alloc: Global,
    server: &mut S,
    inlet: &mut I,
    outlet: &mut O,
    ticks: &mut Ticks,
    buffer: &mut [u8],
) -> Result<(), ReplayFault>
    requires { 0 < length buffer.old }
    ensures ok { OnOk result ((input : List ℕ) × AnswersAll S.text S.after server.old server.new
        (I.left inlet.old) (I.left inlet.new) (O.taken outlet.old) (O.taken outlet.new) input) }
    ensures stopped { OnErr result ((read : List ℕ) × Stops S.text S.after server.old
        (I.left inlet.old) (I.left inlet.new) (O.taken outlet.old) (O.taken outlet.new) read) }
    ensures read_stops { OnReadFault result ((read : List ℕ) × AnswersWhole S.text S.after server.old server.new
        (I.left inlet.old) (I.left inlet.new) (O.taken outlet.old) (O.taken outlet.new) read
        × ReadingHasCause (I.failures inlet.old) (I.failures inlet.new) (I.reads inlet.old) (I.reads inlet.new) (length read)) }
    ensures read_fault { InletHasCause result (I.failures inlet.old) (I.failures inlet.new)
        (I.reads inlet.old) (I.reads inlet.new) }
    ensures write_fault { OutletHasCause result (O.failures outlet.old) (O.failures outlet.new) }
    ensures inlet_memory { MemoryHasCause result (I.refusals inlet.old) (I.refusals inlet.new) }
    ensures outlet_memory { MemoryHasCause result (O.refusals outlet.old) (O.refusals outlet.new) }
    ensures reads { I.reads inlet.new ≤ I.reads inlet.old + 2 ^ 32 }
{
    let mut kept = Vec::new(alloc);
    for _turn in 0..READ_LIMIT {
        let count = inlet.read(buffer)?;
        if count == 0 {
            return answer_piece(alloc, server, kept.as_slice(), outlet, ticks);
        }
        take_bytes(alloc, server, &mut kept, &buffer[..count], outlet, ticks)?;
    }
    Err(ReplayFault::Read)
}

/// Takes some bytes of the input.
fn take_bytes<S: Lines, O: Outlet>(
    alloc: Global,
    server: &mut S,
    kept: &mut Vec<u8>,
    bytes: &[u8],
    outlet: &mut O,
    ticks: &mut Ticks,
) -> Result<(), ReplayFault>
    ensures ok { OnOk result ((start : S) (before : Option (List ℕ)) (read : List ℕ) →
        HasRead S.text S.after start before read server.old kept.old.items (O.taken outlet.old) →
        HasRead S.text S.after start before (read ++ bytes.now) server.new kept.new.items (O.taken outlet.new)) }
    ensures stopped { OnErr result ((start : S) (before : Option (List ℕ)) (read : List ℕ) →
        HasRead S.text S.after start before read server.old kept.old.items (O.taken outlet.old) →
        StopsAmong S.text S.after start before (O.taken outlet.new) (whole_lines (read ++ bytes.now))) }
    ensures no_read_fault { is_read_fault result ≡ false }
    ensures write_fault { OutletHasCause result (O.failures outlet.old) (O.failures outlet.new) }
    ensures outlet_memory { MemoryHasCause result (O.refusals outlet.old) (O.refusals outlet.new) }
{
    for byte in bytes {
        take_byte(alloc, server, kept, *byte, outlet, ticks)?;
    }
    Ok(())
}

/// Takes one byte of the input: a line feed ends the line, any other byte goes on with it.
fn take_byte<S: Lines, O: Outlet>(
    alloc: Global,
    server: &mut S,
    kept: &mut Vec<u8>,
    byte: u8,
    outlet: &mut O,
    ticks: &mut Ticks,
) -> Result<(), ReplayFault>
    ensures ok { OnOk result ((start : S) (before : Option (List ℕ)) (read : List ℕ) →
        HasRead S.text S.after start before read server.old kept.old.items (O.taken outlet.old) →
        HasRead S.text S.after start before (read ++ byte ∷ []) server.new kept.new.items (O.taken outlet.new)) }
    ensures stopped { OnErr result ((start : S) (before : Option (List ℕ)) (read : List ℕ) →
        HasRead S.text S.after start before read server.old kept.old.items (O.taken outlet.old) →
        StopsAmong S.text S.after start before (O.taken outlet.new) (whole_lines (read ++ byte ∷ []))) }
    ensures no_read_fault { is_read_fault result ≡ false }
    ensures write_fault { OutletHasCause result (O.failures outlet.old) (O.failures outlet.new) }
    ensures outlet_memory { MemoryHasCause result (O.refusals outlet.old) (O.refusals outlet.new) }
{
    if byte == b'\n' {
        answer_piece(alloc, server, kept.as_slice(), outlet, ticks)?;
        kept.clear();
    } else if kept.len() < KEPT_LIMIT {
        kept.push(byte)?;
    }
    Ok(())
}

/// Answers a piece of the input, unless its line is empty.
fn answer_piece<S: Lines, O: Outlet>(
    alloc: Global,
    server: &mut S,
    piece: &[u8],
    outlet: &mut O,
    ticks: &mut Ticks,
) -> Result<(), ReplayFault>
    ensures text { OnOk result (Appends (O.taken outlet.old) (O.taken outlet.new)
        (texts S.text S.after server.old (lines_among (piece.now ∷ [])))) }
    ensures state { OnOk result (server.new ≡ state_after S.after server.old (lines_among (piece.now ∷ []))) }
    ensures stopped { OnErr result (StopsBefore S.text server.old (O.taken outlet.old) (O.taken outlet.new)
        [] (lines_among (piece.now ∷ []))) }
    ensures no_read_fault { is_read_fault result ≡ false }
    ensures write_fault { OutletHasCause result (O.failures outlet.old) (O.failures outlet.new) }
    ensures outlet_memory { MemoryHasCause result (O.refusals outlet.old) (O.refusals outlet.new) }
{
    let line = without_return(piece);
    if line.is_empty() {
        return Ok(());
    }
    let text = server.answer(alloc, line, ticks)?;
    outlet.write(text.as_slice())
}
