//! Laws about dead letters, over every list of steps of everything that a registry ever had: those of
//! the registry, and confirmations that ask deleted queues too, as threads can give them. Nothing runs
//! here: each function is empty, and its contract is the law.

ghost use Rattle.std.specs.Prelude.{◌≡◌, ◌≢◌, ℕ, ◌<◌, length, false, List, [], ◌∷◌, map, Result, Ok};
ghost use Rattle.std.specs.Option.{ForSome};
ghost use Rattle.std.specs.List.{All};
ghost use Rattle.message.specs.declared.fault.Fault.{Fault};
ghost use Rattle.message.specs.Fault.{Meets};
ghost use Rattle.queue_config.specs.Config.{Configuration, AreConfigured};
ghost use Rattle.queue_core.specs.Legal.{IsLegal};
ghost use Rattle.redrive.specs.declared.steps.HouseStep.{HouseStep};
ghost use Rattle.redrive.specs.declared.steps.HouseStep.TheVariants.{HandOver};
ghost use Rattle.redrive.specs.declared.moved.Moved.{Moved};
ghost use Rattle.redrive.specs.House.{House, new_house, queue_of_uid, arrive_answer, IsHandedOver, IsMoved, has_target};
ghost use Rattle.redrive.specs.Waiting.{waiting_in};
ghost use Rattle.redrive.specs.History.{AllQueues};
ghost use Rattle.redrive.specs.HistorySteps.{HistoryStep, Own, AreHistoryAnswers, after_history_steps};
ghost use Rattle.redrive.specs.WholeSteps.{StandForWhole, whole_after_steps};
ghost use Rattle.redrive.specs.HouseSteps.{HouseAnswer, AreHouseAnswers, AreStepsTo, steps_of_move, house_after_all, history_after};
ghost use Rattle.redrive.specs.Places.{first_history, EachAcceptedOnce, EachHasItsFate, EachHasOnePlace, NoRelayDeleted};

/// Whatever the steps are, and wherever memory runs out, each queue that is there or was deleted stands for
/// the queue with its whole journal: it has the same uid, name and clock, and its journal, of which a checkpoint
/// may be the first entry, comes to the same.
pub fn queues_stand_for_their_whole_journals()
    ensures { (config : Configuration) (at : ℕ) (steps : List HistoryStep) (answers : List HouseAnswer)
        → AreHistoryAnswers (first_history config at) steps answers
        → StandForWhole (after_history_steps (first_history config at) steps answers) (whole_after_steps (first_history config at) steps answers) }
{}

/// A queue accepts a transfer once: whatever the steps are, and wherever memory runs out, no journal
/// of a queue that is there or was deleted accepts the same message of the same source twice. [whole] is of
/// whole journals, [kept] of those that are there, which may begin with a checkpoint.
pub fn transfers_are_accepted_once()
    ensures whole { (config : Configuration) (at : ℕ) (steps : List HistoryStep) (answers : List HouseAnswer)
        → AreHistoryAnswers (first_history config at) steps answers
        → EachAcceptedOnce (whole_after_steps (first_history config at) steps answers) }
    ensures kept { (config : Configuration) (at : ℕ) (steps : List HistoryStep) (answers : List HouseAnswer)
        → AreHistoryAnswers (first_history config at) steps answers
        → EachAcceptedOnce (after_history_steps (first_history config at) steps answers) }
{}

/// In each queue that is there, each message that left for a dead-letter queue waits for it still, or
/// was transferred, and that queue, which is there or was deleted, has accepted it, or came back. A message
/// that left more than once has such a fate each time; the first entry behind the departure that ends the
/// transfer tells which.
pub fn each_departure_has_its_fate()
    ensures { (config : Configuration) (at : ℕ) (steps : List HistoryStep) (answers : List HouseAnswer)
        → AreHistoryAnswers (first_history config at) steps answers
        → EachHasItsFate (whole_after_steps (first_history config at) steps answers) }
{}

/// Each message is in one place at most: live in one queue under one number, or in transit from one. [whole]
/// reads whole journals, [kept] those that are there, which may begin with a checkpoint. The premise, for this
/// law alone and read off whole journals, is that no queue is deleted while it relays a message: while the
/// transfer by which the message came there is not confirmed at its source, although a next queue has accepted
/// it from there. The source would take the message back, since it cannot know.
pub fn each_message_has_one_place()
    ensures whole { (config : Configuration) (at : ℕ) (steps : List HistoryStep) (answers : List HouseAnswer)
        → AreHistoryAnswers (first_history config at) steps answers
        → NoRelayDeleted (first_history config at) steps answers
        → EachHasOnePlace (whole_after_steps (first_history config at) steps answers) }
    ensures kept { (config : Configuration) (at : ℕ) (steps : List HistoryStep) (answers : List HouseAnswer)
        → AreHistoryAnswers (first_history config at) steps answers
        → NoRelayDeleted (first_history config at) steps answers
        → EachHasOnePlace (after_history_steps (first_history config at) steps answers) }
{}

/// The registry's own steps are steps of everything that it ever had: they are answered so, and leave
/// the same. So the laws over lists of such steps are laws of [`House::run`](crate::House::run).
pub fn own_steps_are_history_steps()
    ensures answered { (all : AllQueues) (steps : List HouseStep) (answers : List HouseAnswer)
        → AreHouseAnswers all.house steps answers → AreHistoryAnswers all (map Own steps) answers }
    ensures left { (all : AllQueues) (steps : List HouseStep) (answers : List HouseAnswer)
        → after_history_steps all (map Own steps) answers ≡ history_after all steps answers }
{}

/// What [`House::arrive_one`](crate::House::arrive_one) and [`House::move_one`](crate::House::move_one)
/// leave is what steps leave: a hand-over, and, after `Arrived` or `Again`, a confirmation. So the laws
/// over lists of steps are laws of these calls.
pub fn moves_are_steps()
    ensures handed_over { (old new : House) (source at : ℕ) (answer : Result Moved Fault)
        → Meets answer (arrive_answer old source at) → IsHandedOver old source at answer new
        → AreStepsTo old (HandOver at source ∷ []) new }
    ensures moved { (old new : House) (source at : ℕ) (answer : Result Moved Fault) (m : IsMoved old source at answer new)
        → AreStepsTo old (steps_of_move source at m.handed_over) new }
{}

/// Whoever moves one parcel after another comes to an end: a move that is not refused leaves fewer
/// messages waiting in its source than there were, unless none waited. The source's journal is one that
/// a queue can have, as each queue's is.
pub fn moves_leave_fewer()
    ensures { (old new : House) (source at : ℕ) (moved : Moved)
        → moved ≢ Moved.None → ForSome (queue_of_uid old source) (λ q. IsLegal q)
        → IsMoved old source at (Ok moved) new
        → length (waiting_in new source) < length (waiting_in old source) }
{}

/// No queue is ever its own dead-letter queue: from configured queues of which none is, whatever the
/// steps are and however they are answered.
pub fn no_queue_is_its_own_target()
    ensures { (config : Configuration) (at : ℕ) (steps : List HouseStep) (answers : List HouseAnswer)
        → AreConfigured config.queues
        → All (λ q. has_target q.uid q ≡ false) (house_after_all (new_house config at) steps answers).queues }
{}
