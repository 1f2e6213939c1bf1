//! What a queue's journal comes to is all that its answers follow from, as laws. Nothing runs here: each function is empty, and its contract is the law.

ghost use Rattle.std.specs.Prelude.{◌≡◌, ◌+◌, ◌≤◌, ℕ, false, List, Result, is_some, length};
ghost use Rattle.message.specs.declared.fault.Fault.{Fault};
ghost use Rattle.std.specs.FinMap as finite;
ghost use Rattle.journal.specs.declared.entry.Entry.{Entry};
ghost use Rattle.queue_core.specs.declared.facts.MessageState.TheVariants.{Visible, Delayed, InFlight};
ghost use Rattle.queue_core.specs.declared.index.MessageIndex.{MessageIndex};
ghost use Rattle.queue_core.specs.private.Indexed.{IsIndexOf};
ghost use Rattle.queue_core.specs.private.Heaps.{next_time, sent_time, visible_pairs};
ghost use Rattle.queue_core.specs.declared.command.Command.{Command};
ghost use Rattle.queue_core.specs.declared.command.TimedCommand.{TimedCommand};
ghost use Rattle.queue_core.specs.declared.reply.Reply.{Reply};
ghost use Rattle.queue_core.specs.States.{kept_count, has_age, count_in_state, is_numbered, gauges_of};
ghost use Rattle.message.specs.Content.{ContentText, content_size};
ghost use Rattle.queue_config.specs.AlarmRules.{Rule};
ghost use Rattle.metric_window.specs.Window.{longest_window};
ghost use Rattle.queue_core.specs.Metrics.{alarm_state_in};
ghost use Rattle.journal.specs.declared.entry.Event.{Event};
ghost use Rattle.queue_core.specs.Queue.{QueueHistory, rebased, is_full, at_moment, with_event};
ghost use Rattle.queue_core.specs.Legal.{IsLegal, IsCausedIn};
ghost use Rattle.journal.specs.Weight.{weight_of};
ghost use Rattle.queue_core.specs.Messages.{is_closed};
ghost use Rattle.queue_core.specs.Standing.{StandsFor, AnswersAs};
ghost use Rattle.queue_core.specs.Run.{AreAnswers, after_all};
ghost use Rattle.queue_core.specs.Whole.{AnswerAsWhole, whole_after_all};

/// Two queues of the same uid, name, clock and in-flight limit whose journals come to the same, and which are
/// both full or both not, answer each command alike and add the same entry, whatever else their journals
/// hold. Only the weight differs that a look tells. Lack of memory is none of this.
pub fn answers_follow_from_a_summary()
    ensures answers { (q w : QueueHistory) (command : Command) → IsLegal q → IsLegal w → StandsFor q w → is_full q ≡ is_full w → AnswersAs q w command }
    ensures gauges { (q w : QueueHistory) → IsLegal q → IsLegal w → StandsFor q w → gauges_of q.lines q.clock ≡ gauges_of w.lines w.clock }
    ensures alarms { (q w : QueueHistory) (rule : Rule) → IsLegal q → IsLegal w → StandsFor q w → rule.minutes ≤ longest_window
        → alarm_state_in content_size q.lines q.clock rule ≡ alarm_state_in content_size w.lines w.clock rule }
{}

/// They stay so, however much time passes and whatever event comes to both.
pub fn summaries_go_on_alike()
    ensures time { (q w : QueueHistory) (at : ℕ) → IsLegal q → IsLegal w → StandsFor q w → StandsFor (at_moment q at) (at_moment w at) }
    ensures event { (q w : QueueHistory) (event : Event ContentText) → IsLegal q → IsLegal w → StandsFor q w → IsCausedIn q event → IsCausedIn w event
        → StandsFor (with_event q event) (with_event w event) }
{}

/// One entry stands for all entries of an open queue, whatever its journal begins with: the queue whose journal is
/// that entry alone stands for the queue whose entries it replaced. It weighs 1, and 1 more for each message that is live
/// or waits for a dead-letter queue.
pub fn a_checkpoint_stands_for_its_entries()
    ensures stands { (q : QueueHistory) → IsLegal q → is_closed q.lines ≡ false → StandsFor (rebased q) q }
    ensures weight { (q : QueueHistory) → IsLegal q → is_closed q.lines ≡ false → weight_of (rebased q).lines ≡ 1 + kept_count q.lines q.clock }
{}

/// A queue whose journal begins anew wherever that makes room is the queue with its whole journal and no
/// limit. Two queues that stand for each other, as one does with itself, come to the same commands at the same
/// moments; the first has its limit, the second has none. Each command adds the same entry to both journals,
/// and has the same reply, but for the weight that a look tells. A command that finds the first
/// queue's journal full, or no memory, only comes to its moment in the second too. At the end the two stand for
/// each other still, with the counts, the age, the order, the rows, the alarms and whatever else follows from
/// that.
pub fn checkpoints_are_equivalent()
    ensures answers { (q w : QueueHistory) (steps : List TimedCommand) (answers : List (Result Reply Fault)) → IsLegal q → IsLegal w → StandsFor q w
        → AreAnswers q steps answers → AnswerAsWhole q w steps answers }
    ensures stands { (q w : QueueHistory) (steps : List TimedCommand) (answers : List (Result Reply Fault)) → IsLegal q → IsLegal w → StandsFor q w
        → AreAnswers q steps answers → StandsFor (after_all q steps answers) (whole_after_all w steps answers) }
{}

/// The indices of a queue's messages, each by itself: a heap of the due times of what is live and not visible,
/// one of the times at which what is live was first sent, the visible messages in order, the numbers of those
/// whose age is looked at, and how many are visible, delayed and in flight.
pub(crate) fn indices_are_those_of_the_journal()
    ensures due { (lines : List (Entry ContentText)) (clock : ℕ) (x : MessageIndex) → IsIndexOf lines clock x → (n : ℕ) → finite.get x.indices.due.moments n ≡ next_time lines clock n }
    ensures sent { (lines : List (Entry ContentText)) (clock : ℕ) (x : MessageIndex) → IsIndexOf lines clock x → (n : ℕ) → finite.get x.indices.sent.moments n ≡ sent_time lines clock n }
    ensures visible { (lines : List (Entry ContentText)) (clock : ℕ) (x : MessageIndex) → IsIndexOf lines clock x → x.indices.visible.pairs ≡ visible_pairs lines clock }
    ensures ages { (lines : List (Entry ContentText)) (clock : ℕ) (x : MessageIndex) → IsIndexOf lines clock x
        → (n : ℕ) → is_some (finite.get x.indices.ages.list.slots n) ≡ is_numbered (λ m. has_age lines clock m) lines n }
    ensures shown { (lines : List (Entry ContentText)) (clock : ℕ) (x : MessageIndex) → IsIndexOf lines clock x → length x.indices.visible.pairs ≡ count_in_state Visible lines clock }
    ensures delayed { (lines : List (Entry ContentText)) (clock : ℕ) (x : MessageIndex) → IsIndexOf lines clock x → x.indices.delayed ≡ count_in_state Delayed lines clock }
    ensures in_flight { (lines : List (Entry ContentText)) (clock : ℕ) (x : MessageIndex) → IsIndexOf lines clock x → x.indices.in_flight ≡ count_in_state InFlight lines clock }
{}
