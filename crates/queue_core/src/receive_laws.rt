//! Laws about where a receive stops, for every queue. Nothing runs here: each function is empty, and
//! its contract is the law.

ghost use Rattle.std.specs.Prelude.{◌≡◌, ℕ, not, filter, List};
ghost use Rattle.queue_core.specs.declared.facts.Candidate.{Candidate};
ghost use Rattle.queue_core.specs.Queue.{QueueHistory, is_exhausted, scanned_candidates, offered_candidates, leaving_candidates};
ghost use Rattle.queue_core.specs.Turns.{remaining_candidates};
ghost use Rattle.queue_core.specs.Stops.{StopsBetween};

/// A receive goes through the visible messages in order, and stops behind the last one that it may
/// offer, or behind the hundredth that leaves. There is one such place alone, and it is the place at
/// which a receive stops: of the messages before it, it offers those that may be received once more, in
/// that order, and the others leave. So a message behind the last offer stays as it is, also one that
/// was received as often as the policy allows.
pub fn a_receive_stops_behind_its_last_offer()
    ensures stops { (q : QueueHistory) (maximum : ℕ)
        → StopsBetween q maximum (scanned_candidates q maximum) (remaining_candidates q maximum) }
    ensures only_there { (q : QueueHistory) (maximum : ℕ) (come rest : List Candidate)
        → StopsBetween q maximum come rest → scanned_candidates q maximum ≡ come }
    ensures offered { (q : QueueHistory) (maximum : ℕ) (come rest : List Candidate)
        → StopsBetween q maximum come rest
        → offered_candidates q maximum ≡ filter (λ c. not (is_exhausted q c)) come }
    ensures leaving { (q : QueueHistory) (maximum : ℕ) (come rest : List Candidate)
        → StopsBetween q maximum come rest
        → leaving_candidates q maximum ≡ filter (λ c. is_exhausted q c) come }
{}
