//! Runs with dead letters, computed. Nothing runs here: each function is empty, and the checker
//! computes what its contract says.

ghost use Rattle.std.specs.Prelude.{◌≡◌, List, [], ◌∷◌};
ghost use Rattle.redrive.specs.History.{AllQueues};
ghost use Rattle.redrive.specs.HistorySteps.{HistoryStep, AreHistoryAnswers};
ghost use Rattle.redrive.specs.examples.DeadLetters.{answers_to};
ghost use Rattle.redrive.specs.examples.DeadLetters as example;

/// The runs are such as the laws speak of: whatever the steps are, each of these answers is the one
/// that is wanted.
pub fn steps_are_answered()
    ensures { (all : AllQueues) (steps : List HistoryStep) → AreHistoryAnswers all steps (answers_to all steps) }
{}

/// A message moves on from queue to queue, and is in one of them only.
pub fn messages_move_on()
    ensures sent { example.standing_after example.sent_and_received_twice ≡ [] }
    ensures handed_over { example.standing_after example.handed_over ≡ example.stands_at 2 0 ∷ [] }
    ensures relayed { example.standing_after example.relayed ≡ example.stands_at 3 0 ∷ [] }
{}

/// Why one place has a premise: a queue in the middle is deleted before the source had its transfer
/// confirmed. The source takes the message back, which stands in another queue already. Where the
/// transfer was confirmed before, it does not.
pub fn deleting_a_relay_doubles_a_message()
    ensures doubled { example.standing_after example.relayed_and_deleted
        ≡ example.stands_at 1 0 ∷ example.stands_at 3 0 ∷ [] }
    ensures confirmed_before { example.standing_after example.confirmed_and_deleted
        ≡ example.stands_at 3 0 ∷ [] }
{}

/// A transfer that was accepted can be confirmed after its queue was deleted, by threads: then the
/// message went with that queue. The registry, which keeps no journal of it, takes the message back.
pub fn transfers_are_confirmed_late()
    ensures confirmed { example.standing_after_all example.confirmed_late ≡ [] }
    ensures by_itself { example.standing_after example.confirmed_late_by_itself ≡ example.stands_at 1 0 ∷ [] }
{}

/// A message that is deleted in a dead-letter queue comes back to its source, where that queue is
/// deleted before the source had its transfer confirmed.
pub fn messages_deleted_with_their_queue_come_back()
    ensures back { example.standing_after example.deleted_with_its_queue
        ≡ example.stands_at 1 0 ∷ [] }
{}
