//! Laws about the definitions in `specs/`. Nothing runs here: each function is empty, and its
//! contract is the law.

ghost use Rattle.std.specs.Prelude.{◌≡◌, ℕ, true, false, List, [], ◌∷◌, ◌++◌, length, nat_eq, Err, IsTrue};
ghost use Rattle.std.specs.List.{All, Contains, IsDistinct, starts_with};
ghost use Rattle.std.specs.Option.{option_map};
ghost use Rattle.std.specs.Str.{bytes_eq};
ghost use Rattle.message.specs.declared.fault.Fault.{Fault};
ghost use Rattle.message.specs.Order.{is_ascending, text_before};
ghost use Rattle.queue_core.specs.declared.command.Command.{Command};
ghost use Rattle.queue_core.specs.Legal.{IsLegal};
ghost use Rattle.queue_core.specs.Refusals.{is_own_refusal};
ghost use Rattle.redrive.specs.declared.steps.HouseStep.{HouseStep};
ghost use Rattle.redrive.specs.declared.steps.HouseStep.TheVariants.{Perform};
ghost use Rattle.redrive.specs.History.{IsWholeHistory};
ghost use Rattle.redrive.specs.Listing.{listed_names};
ghost use Rattle.redrive.specs.Refused.{IsRefusedBy};
ghost use Rattle.redrive.specs.House.{House, IsRegistry, queue_of_uid};
ghost use Rattle.redrive.specs.HouseSteps.{HouseAnswer, AreHouseAnswers, house_after, house_after_all};

/// Of names that differ, each that is listed stands before the next in the order of their bytes, and
/// the names listed are those that begin with the prefix.
pub fn listed_names_ascend()
    ensures ascending { (prefix : List ℕ) (names : List (List ℕ))
        → IsDistinct bytes_eq names → IsTrue (is_ascending text_before (listed_names prefix names)) }
    ensures all { (prefix : List ℕ) (names : List (List ℕ)) (name : List ℕ)
        → Contains names name → IsTrue (starts_with nat_eq name prefix)
        → Contains (listed_names prefix names) name }
    ensures no_other { (prefix : List ℕ) (names : List (List ℕ))
        → All (λ name. Contains names name × IsTrue (starts_with nat_eq name prefix))
        (listed_names prefix names) }
{}

/// A registry in which no queue was deleted yet is the whole history: the steps of
/// [`House::run`](crate::House::run) keep it one.
pub fn histories_begin()
    ensures { (w : House) → IsRegistry w → IsWholeHistory (record { house = w; deleted = [] }) }
{}

/// Wherever it stands in a list of steps, as [`House::run`](crate::House::run) answers them, a command
/// that its queue itself refuses leaves one entry there, which records that, and nothing else in the
/// whole registry: at every later moment the queue stands as if the call had not been made. Where its
/// journal was at its limit, that is so of the queue with a checkpoint in the place of its entries. A
/// command that is refused in any other way, or finds no memory, leaves every journal as it was, of
/// queues that began with journals that a queue can have.
pub fn refused_steps_change_nothing()
    ensures own { (w : House) (steps later : List HouseStep) (answers rest : List HouseAnswer) (at uid : ℕ) (command : Command) (fault : Fault)
        → length steps ≡ length answers
        → AreHouseAnswers w (steps ++ Perform at uid command ∷ later) (answers ++ Err fault ∷ rest)
        → is_own_refusal fault ≡ true
        → IsRefusedBy (house_after_all w steps answers) uid at command fault
        (house_after (house_after_all w steps answers) (Perform at uid command) (Err fault)) }
    ensures no_other { (w : House) (steps later : List HouseStep) (answers rest : List HouseAnswer) (at uid : ℕ) (command : Command) (fault : Fault)
        → length steps ≡ length answers
        → AreHouseAnswers w (steps ++ Perform at uid command ∷ later) (answers ++ Err fault ∷ rest)
        → is_own_refusal fault ≡ false → All (λ q. IsLegal q) w.queues
        → (other : ℕ) → option_map (λ q. q.lines) (queue_of_uid (house_after (house_after_all w steps answers) (Perform at uid command) (Err fault)) other)
        ≡ option_map (λ q. q.lines) (queue_of_uid (house_after_all w steps answers) other) }
{}
