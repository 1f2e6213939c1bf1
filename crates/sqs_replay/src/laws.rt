//! Laws about the lines of an input. What runs here is other laws, which do nothing: the contract of each function is the
//! law.

ghost use Rattle.std.specs.Prelude.{◌≡◌, ◌⊎◌, ◌≤◌, ℕ, false, List, Some, None, Ok};
ghost use Rattle.std.specs.Option.{ForSome};
ghost use Rattle.queue_config.specs.Config.{Configuration, AreConfigured};
ghost use Rattle.queue_core.specs.Legal.{IsLegal};
ghost use Rattle.redrive.specs.Places.{EachHasOnePlace};
ghost use Rattle.redrive.specs.House.{House, first_parcel_in, found_uid, new_house, queue_of_uid, IsRegistry};
ghost use Rattle.request_plan.specs.declared.plan.Step.{Step};
ghost use Rattle.sqs_replay.specs.declared.answer.Timed.{Timed};
ghost use Rattle.sqs_replay.specs.Answers.{state_after};
ghost use Rattle.sqs_replay.specs.Cutting.{lines_of};
ghost use Rattle.sqs_replay.specs.Moves.{WasRefused};
ghost use Rattle.sqs_replay.specs.Replay.{replay_output};
ghost use Rattle.sqs_replay.specs.Served.{asked_of, asked_served, most_commands, played, queue_of_asked, steps_served, house_of_line};
ghost use Rattle.sqs_replay.specs.Steps.{AskNoDeletion, LineCourse, DeleteNone, IsOutputOf, KeepsDeadLetters, kept_after, asks_deletion, everything_after};

use redrive::{
    each_departure_has_its_fate, each_message_has_one_place, own_steps_are_history_steps,
    transfers_are_accepted_once,
};

/// What a line leaves, with the moves behind it, is what a list of steps of the registry leaves, as
/// [`House::run`](redrive::House::run) takes them. Each look and each receive among them is answered with what the journal
/// of its queue gives. A line that asks to delete no queue has no deletion among them.
pub fn lines_are_steps()
    ensures steps { (w : House) (line : List ℕ) → IsRegistry w → LineCourse w (house_of_line w line) }
    ensures deletions { (w : House) (line : List ℕ) → IsRegistry w → asks_deletion (asked_of line) ≡ false
        → (course : LineCourse w (house_of_line w line)) × DeleteNone course.steps }
{}

/// The output of a replay is that of a list of steps of the registry which the configuration makes: each line is answered
/// in a registry that steps have left.
pub fn outputs_are_of_steps()
    ensures { (config : Configuration) (input : List ℕ) → AreConfigured config.queues
        → IsOutputOf (new_house config 0) (new_house config 0) (lines_of input) (replay_output config input) }
{}

/// After any steps of the registry that a configuration makes, each with an answer that it may have, looks and receives with
/// what the journal gives: no dead letter is accepted twice, each departure has its fate, and each message is in one place at
/// most, unless a queue was deleted while it relayed a message. All three hold of whole journals, the first and the last also
/// of those that are there, which may begin with a checkpoint. No line is named here: [`lines_are_steps`] and [`outputs_are_of_steps`] say what lines have to
/// do with such steps.
pub fn lines_keep_dead_letters()
    ensures { (config : Configuration) (new : House) (course : LineCourse (new_house config 0) new) → KeepsDeadLetters config new course }
{
    own_steps_are_history_steps();
    transfers_are_accepted_once();
    each_departure_has_its_fate();
    each_message_has_one_place();
}

/// Behind a line that names a queue which is there no parcel waits in it, or the last move was refused. The queue's journal
/// is one that a queue can have, as each queue's is.
pub fn lines_move_all_parcels()
    ensures { (w : House) (line name : List ℕ) (timed : Timed) (uid : ℕ)
        → asked_of line ≡ Ok timed → queue_of_asked timed.asked ≡ Some name
        → found_uid (asked_served w timed.at timed.asked).house name ≡ Some uid
        → ForSome (queue_of_uid (asked_served w timed.at timed.asked).house uid) (λ q. IsLegal q)
        → (first_parcel_in (house_of_line w line) uid ≡ None)
        ⊎ WasRefused (asked_served w timed.at timed.asked).house uid timed.at (house_of_line w line) }
{}

/// No step asks more commands than the model allows it: to allow more changes nothing.
pub fn steps_come_to_their_end()
    ensures { (most : ℕ) (w : House) (uid at : ℕ) (step : Step) → most_commands step ≤ most
        → played most w uid at step ≡ steps_served w uid at step }
{}

/// After any steps none of which deletes a queue, each message is in one place at most, by whole journals and by those that
/// are there [courses]. Where no line asks to delete a queue, there are such steps that leave the registry which the lines
/// leave, and this holds after them [lines]. That clause says nothing of what the lines are answered.
pub fn lines_without_deletions_keep_one_place()
    ensures courses { (config : Configuration) (new : House) (course : LineCourse (new_house config 0) new) → DeleteNone course.steps
        → EachHasOnePlace (everything_after config new course) × EachHasOnePlace (kept_after config new course) }
    ensures lines { (config : Configuration) (lines : List (List ℕ)) → AreConfigured config.queues → AskNoDeletion lines
        → (course : LineCourse (new_house config 0) (state_after house_of_line (new_house config 0) lines))
        × DeleteNone course.steps
        × EachHasOnePlace (everything_after config (state_after house_of_line (new_house config 0) lines) course)
        × EachHasOnePlace (kept_after config (state_after house_of_line (new_house config 0) lines) course) }
{
    lines_keep_dead_letters();
}
