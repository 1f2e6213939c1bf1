//! What answers the lines of a replay, and how the input is cut into them.

ghost use Rattle.std.specs.Prelude.{◌≡◌, ◌⊎◌, ◌<◌, ℕ, List, [], ◌∷◌, ◌++◌, length, IfOk, OnOk, IfErr};
ghost use Rattle.std.specs.List.{AllByRecursion, flat_map};
ghost use Rattle.sqs_replay.specs.Cutting.{HasNoFeed, whole_pieces, last_piece, line_of};

use crate::ReplayFault;
use journal::Ticks;
use std::alloc::Global;

/// The longest line that can be a request, in bytes: `longest_line` of the definitions. Any longer
/// line is too long, whatever it says.
pub const LINE_LIMIT: usize = 8_388_704;

/// What answers lines, one after another.
pub trait Lines {
    ghost use Rattle.sqs_replay.specs.Cutting.{longest_line};

    /// The bytes that answer a line, in a state.
    ghost text: { Self → List ℕ → List ℕ };

    /// The state after a line.
    ghost after: { Self → List ℕ → Self };

    /// Answers a line, which is not empty and has neither its line feed nor the carriage return
    /// before it. Of a line longer than [`LINE_LIMIT`] it may be given another that is too long.
    /// `OutOfMemory` is the only fault; no clause says which state it leaves.
    fn answer(
        &mut self,
        alloc: Global,
        line: &[u8],
        ticks: &mut Ticks,
    ) -> Result<Vec<u8>, ReplayFault>
        requires { 0 < length line.now }
        ensures text { IfOk result (λ bytes. bytes.items ≡ text self.old line.now) }
        ensures state { OnOk result (self.new ≡ after self.old line.now) }
        ensures fault { IfErr result (λ fault. fault ≡ ReplayFault.OutOfMemory) };

    /// All lines that are too long are answered alike.
    ghost same_text: { (state : Self) (first second : List ℕ) → longest_line < length first → longest_line < length second → text state first ≡ text state second };

    /// All lines that are too long leave the same state.
    ghost same_after: { (state : Self) (first second : List ℕ) → longest_line < length first → longest_line < length second → after state first ≡ after state second };
}

/// A piece without the one carriage return that may end it.
pub(crate) fn without_return(piece: &[u8]) -> &[u8]
    ensures { result.now ≡ line_of piece.now }
{
    let end = piece.len();
    if end > 0 && piece[end - 1] == b'\r' {
        return &piece[..end - 1];
    }
    piece
}

/// The law of the cutting: the pieces, each with a line feed after it, and what comes after the last
/// are the input, and no piece holds a line feed. No other pieces are so.
pub fn pieces_join_to_the_bytes()
    ensures joined { (input : List ℕ) →
        flat_map (λ piece. piece ++ 10 ∷ []) (whole_pieces input) ++ last_piece input ≡ input }
    ensures whole { (input : List ℕ) → AllByRecursion HasNoFeed (whole_pieces input) }
    ensures last { (input : List ℕ) → HasNoFeed (last_piece input) }
    ensures only { (input : List ℕ) (pieces : List (List ℕ)) (last : List ℕ) →
        AllByRecursion HasNoFeed pieces → HasNoFeed last →
        flat_map (λ piece. piece ++ 10 ∷ []) pieces ++ last ≡ input →
        (pieces ≡ whole_pieces input) × (last ≡ last_piece input) }
{}

/// The law of the carriage return: one at the end of a piece is dropped, and no other byte.
pub fn one_return_is_dropped()
    ensures dropped { (line : List ℕ) → line_of (line ++ 13 ∷ []) ≡ line }
    ensures others_stay { (piece : List ℕ) → (line_of piece ≡ piece) ⊎ (piece ≡ line_of piece ++ 13 ∷ []) }
{}
