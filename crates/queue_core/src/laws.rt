//! Laws about the definitions in `specs/`, for every journal and every queue. Nothing runs here:
//! each function is empty, and its contract is the law.

ghost use Rattle.std.specs.Prelude.{◌≡◌, ◌≢◌, ℕ, ◌+◌, ◌-◌, ◌*◌, ◌≤◌, ◌<◌, min, true, false, count_by, List, [], ◌∷◌, ◌++◌, map, length, Option, Some, None, Result, Ok, Err, IsTrue};
ghost use Rattle.std.specs.List.{All, AllPairs, Contains};
ghost use Rattle.message.specs.declared.fault.Fault.{Fault};
ghost use Rattle.message.specs.Fault.{Meets};
ghost use Rattle.message.specs.Content.{ContentText, content_size};
ghost use Rattle.journal.specs.declared.entry.Entry.{Entry};
ghost use Rattle.journal.specs.declared.entry.Event.TheVariants.{Refused};
ghost use Rattle.queue_core.specs.declared.command.Command.{Command};
ghost use Rattle.queue_core.specs.declared.command.Command.TheVariants.{Send, Look};
ghost use Rattle.queue_core.specs.declared.command.TimedCommand.{TimedCommand};
ghost use Rattle.queue_core.specs.declared.reply.Reply.{Reply};
ghost use Rattle.queue_core.specs.declared.reply.Reply.TheVariants.{Sent, Looked};
ghost use Rattle.queue_core.specs.declared.reply.Posted.{Posted};
ghost use Rattle.queue_core.specs.declared.facts.Message.{Message};
ghost use Rattle.queue_core.specs.declared.facts.Candidate.{Candidate};
ghost use Rattle.queue_core.specs.declared.facts.MessageState.TheVariants.{Visible, Delayed, InFlight};
ghost use Rattle.queue_core.specs.Messages.{messages, settings_of, receive_count, is_expired, due_time};
ghost use Rattle.queue_core.specs.States.{is_live, is_in_state, count_in_state, gauges_of, candidate_of, receive_order};
ghost use Rattle.queue_core.specs.Queue.{QueueHistory, at_moment, rebased_where, reached, outcome_at, with_event, after_answer, look_of, in_flight_count, scanned_candidates, offered_candidates, leaving_candidates, received_event, offers_of, numbers_of};
ghost use Rattle.queue_core.specs.Lasting.{StandsAs, content_numbered, is_removed_number, is_gone_number, NamesOrLetGo, left_by_refusal};
ghost use Rattle.queue_core.specs.Refusals.{is_own_refusal, LastsAs};
ghost use Rattle.queue_core.specs.Run.{AreExact, NeverRebases, after_all};
ghost use Rattle.queue_core.specs.Legal.{IsLegal};
ghost use Rattle.queue_core.specs.Standing.{StandsFor};
ghost use Rattle.journal.specs.Mark.{mark_of};
ghost use Rattle.queue_core.specs.Turns.{ComesBefore, remaining_candidates, IsVisibleCandidate};

/// Counts and age need no content: from the entries' marks, which have a content's size in its
/// place, they come out as from the lines.
pub fn gauges_need_no_content()
    ensures gauges { (lines : List (Entry ContentText)) (clock : ℕ)
        → gauges_of (map (mark_of content_size) lines) clock ≡ gauges_of lines clock }
{}

/// Nor is a content needed for the messages' numbers and times, the settings, how often a message
/// was received, and the order in which messages are received.
pub fn messages_need_no_content()
    ensures messages { (lines : List (Entry ContentText))
        → messages (map (mark_of content_size) lines) ≡ messages lines }
    ensures settings { (lines : List (Entry ContentText))
        → settings_of (map (mark_of content_size) lines) ≡ settings_of lines }
    ensures receives { (lines : List (Entry ContentText)) (number : ℕ)
        → receive_count (map (mark_of content_size) lines) number ≡ receive_count lines number }
    ensures order { (lines : List (Entry ContentText)) (clock : ℕ)
        → receive_order (map (mark_of content_size) lines) clock ≡ receive_order lines clock }
{}

/// The messages that a receive comes to, each of which it offers or lets leave, stand first in the
/// order of the visible messages. In that order each message comes before every later one, by the time
/// at which it is due and, of equal times, by its number. So each message that is offered or leaves
/// comes before each visible one that does neither, and no message is offered twice, or offered and let
/// go.
pub fn offers_are_the_first_in_order()
    ensures first { (q : QueueHistory) (maximum : ℕ)
        → scanned_candidates q maximum ++ remaining_candidates q maximum
        ≡ receive_order q.lines q.clock }
    ensures in_order { (lines : List (Entry ContentText)) (clock : ℕ)
        → AllPairs (λ a b. ComesBefore a b) (receive_order lines clock) }
    ensures before_the_rest { (q : QueueHistory) (maximum : ℕ) (a b : Candidate)
        → Contains (scanned_candidates q maximum) a → Contains (remaining_candidates q maximum) b
        → ComesBefore a b }
    ensures once { (q : QueueHistory) (maximum : ℕ)
        → AllPairs (λ a b. a ≢ b) (numbers_of (scanned_candidates q maximum)) }
{}

/// The order has each visible message, with the time at which it is due, and nothing else.
pub fn each_visible_message_has_its_turn()
    ensures all { (lines : List (Entry ContentText)) (clock : ℕ) (m : Message)
        → Contains (messages lines) m → IsTrue (is_in_state Visible lines clock m)
        → Contains (receive_order lines clock) (candidate_of lines m) }
    ensures no_other { (lines : List (Entry ContentText)) (clock : ℕ)
        → All (λ c. IsVisibleCandidate lines clock c) (receive_order lines clock) }
{}

/// A receive offers at most as many messages as it asks for and as the in-flight limit leaves, and at
/// most 100 leave by it. Where it stays below both, it comes to every visible message. Without a
/// dead-letter queue it offers as many as it asks for, as the limit leaves and as are visible, whichever
/// is least.
pub fn as_many_are_offered_as_may_be()
    ensures order { (lines : List (Entry ContentText)) (clock : ℕ)
        → length (receive_order lines clock) ≡ count_in_state Visible lines clock }
    ensures at_most { (q : QueueHistory) (maximum : ℕ)
        → length (offered_candidates q maximum) ≤ min maximum (q.limits.in_flight - in_flight_count q) }
    ensures leaving { (q : QueueHistory) (maximum : ℕ)
        → length (leaving_candidates q maximum) ≤ 100 }
    ensures all { (q : QueueHistory) (maximum : ℕ)
        → length (offered_candidates q maximum) < min maximum (q.limits.in_flight - in_flight_count q)
        → length (leaving_candidates q maximum) < 100
        → scanned_candidates q maximum ≡ receive_order q.lines q.clock }
    ensures without_policy { (q : QueueHistory) (maximum : ℕ)
        → (settings_of q.lines).redrive_policy ≡ None
        → length (offered_candidates q maximum)
        ≡ min (min maximum (q.limits.in_flight - in_flight_count q)) (count_in_state Visible q.lines q.clock) }
{}

/// The offers that answer a receive are those of the numbers that its entry records, in that order:
/// none is lost for want of a content.
pub fn replies_offer_what_lines_record()
    ensures numbers { (q : QueueHistory) (maximum : ℕ)
        → map (λ o. o.number) (offers_of q (offered_candidates q maximum))
        ≡ numbers_of (offered_candidates q maximum) }
{}

/// The three counts add up to the number of live messages: each is in one state.
pub fn each_live_message_is_in_one_state()
    ensures counts { (lines : List (Entry ContentText)) (clock : ℕ)
        → (count_in_state Visible lines clock + count_in_state Delayed lines clock)
        + count_in_state InFlight lines clock
        ≡ count_by (λ m. is_live lines clock m) (messages lines) }
{}

/// A call that is refused, or finds no memory, leaves the messages, the counts, the age, the order, where
/// each message stands and when it is due, how often it was received and when first and last, the settings,
/// the times, the transfers that wait, those that were accepted, and what each handle may do as they are at
/// its moment without it. Where the journal is at its limit, that is so of the queue whose journal begins
/// anew with a checkpoint, and this one stands for the queue as it was: it knows no more of what is gone
/// than how often that was received, and what is live or waits is as it was, with its time, its receives
/// and its content, and so are the settings, the times, the transfers, the rows and the flows. Want of
/// memory makes no checkpoint.
pub fn refused_calls_change_nothing()
    ensures stands { (q : QueueHistory) (at : ℕ) (command : Command) (fault : Fault)
        → Meets {T = Reply} (Err fault) (outcome_at q at command).reply
        → StandsAs (after_answer {T = Reply} q at command (Err fault)) (left_by_refusal q at command fault) }
    ensures in_place { (q : QueueHistory) (at : ℕ) (command : Command) (fault : Fault)
        → Meets {T = Reply} (Err fault) (outcome_at q at command).reply → (outcome_at q at command).rebases ≡ false
        → StandsAs (after_answer {T = Reply} q at command (Err fault)) (reached q at command) }
    ensures checkpoint { (q : QueueHistory) (at : ℕ) (command : Command) (fault : Fault)
        → IsLegal q → StandsFor (left_by_refusal q at command fault) (reached q at command) }
{}

/// A queue's own refusals are `InvalidParameterValue`, `ReceiptHandleIsInvalid`, `MessageNotInflight` and
/// `OverLimit`: each adds the one entry that records it, and no other refusal adds an entry. Where the
/// journal is at its limit, a checkpoint comes before that entry, and none comes before another refusal:
/// that leaves the queue as it is at its moment. The entry changes nothing but the count of refused calls,
/// and the place in the journal that it takes: at every later moment the queue stands as the queue without
/// it, with the same messages due at the same times and expired.
pub fn own_refusals_change_nothing_later()
    ensures entry { (q : QueueHistory) (at : ℕ) (command : Command) (fault : Fault)
        → (outcome_at q at command).reply ≡ Err fault → is_own_refusal fault ≡ true
        → after_answer {T = Reply} q at command (Err fault)
        ≡ with_event (rebased_where (outcome_at q at command).rebases (reached q at command)) (Refused fault) }
    ensures no_other { (q : QueueHistory) (at : ℕ) (command : Command) (fault : Fault)
        → (outcome_at q at command).reply ≡ Err fault → is_own_refusal fault ≡ false
        → after_answer {T = Reply} q at command (Err fault)
        ≡ rebased_where (outcome_at q at command).rebases (reached q at command) }
    ensures in_place { (q : QueueHistory) (at : ℕ) (command : Command) (fault : Fault)
        → IsLegal q → (outcome_at q at command).reply ≡ Err fault → is_own_refusal fault ≡ false
        → (outcome_at q at command).rebases ≡ false }
    ensures lasts { (q : QueueHistory) (fault : Fault) → LastsAs (with_event q (Refused fault)) q }
{}

/// The message of a number that is gone stays so, whatever commands follow, at whatever moments and with
/// whatever answers, through checkpoints too: what was deleted, purged or closed away is never there
/// again, and what has expired has expired for good. Behind a checkpoint a message that had expired is
/// told as removed, unless it waits for a dead-letter queue; as long as none comes, it stays expired.
pub fn what_is_gone_stays_gone()
    ensures removed { (q : QueueHistory) (steps : List TimedCommand) (answers : List (Result Reply Fault)) (number : ℕ)
        → is_removed_number q.lines number ≡ true → is_removed_number (after_all q steps answers).lines number ≡ true }
    ensures gone { (q : QueueHistory) (steps : List TimedCommand) (answers : List (Result Reply Fault)) (number : ℕ)
        → is_gone_number q.lines q.clock number ≡ true
        → is_gone_number (after_all q steps answers).lines (after_all q steps answers).clock number ≡ true }
    ensures expired { (q : QueueHistory) (steps : List TimedCommand) (answers : List (Result Reply Fault)) (m : Message)
        → NeverRebases q steps answers → is_expired q.lines q.clock m ≡ true
        → is_expired (after_all q steps answers).lines (after_all q steps answers).clock m ≡ true }
{}

/// A look after a list of commands tells the counts, the age, the settings and the times that the
/// definitions give for the journal which those commands leave, found by going through all of it.
pub fn looks_tell_what_the_journal_says()
    ensures look { (q : QueueHistory) (steps : List TimedCommand) (answers : List (Result Reply Fault)) (at : ℕ) (answer : Result Reply Fault)
        → AreExact q (steps ++ record { at = at; command = Look } ∷ []) (answers ++ answer ∷ [])
        → answer ≡ Ok (Looked (look_of (at_moment (after_all q steps answers) at))) }
{}

/// The number that answers a send is that of the content which was sent, and stays so whatever
/// commands follow, until the message was removed or has expired and a checkpoint lets its content go.
/// No number ever names another content.
pub fn numbers_name_contents()
    ensures sent { (q : QueueHistory) (at : ℕ) (content : ContentText) (delay : Option ℕ) (posted : Posted)
        → (outcome_at q at (Send content delay)).reply ≡ Ok (Sent posted)
        → content_numbered (after_answer {T = Reply} q at (Send content delay) (Ok (Sent posted))).lines posted.number ≡ Some content }
    ensures lasting { (q : QueueHistory) (steps : List TimedCommand) (answers : List (Result Reply Fault)) (number : ℕ) (content : ContentText)
        → content_numbered q.lines number ≡ Some content → NamesOrLetGo (after_all q steps answers).lines number content }
    ensures lasting_in_place { (q : QueueHistory) (steps : List TimedCommand) (answers : List (Result Reply Fault)) (number : ℕ) (content : ContentText)
        → NeverRebases q steps answers → content_numbered q.lines number ≡ Some content
        → content_numbered (after_all q steps answers).lines number ≡ Some content }
{}

/// A receive offers no message before its due time, and each that it offers is due again when the
/// timeout that it is offered for ends.
pub fn no_message_is_offered_early()
    ensures due { (q : QueueHistory) (maximum : ℕ)
        → All (λ c. due_time q.lines c.message ≤ q.clock) (offered_candidates q maximum) }
    ensures due_again { (q : QueueHistory) (maximum timeout : ℕ) (c : Candidate)
        → Contains (offered_candidates q maximum) c
        → due_time (with_event q (received_event q maximum (Some timeout))).lines c.message
        ≡ q.clock + 1000 * timeout }
{}
