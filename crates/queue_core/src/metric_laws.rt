//! Laws about metric rows, for every journal and every queue. Nothing runs here: each function is
//! empty, and its contract is the law.

ghost use Rattle.std.specs.Prelude.{◌≡◌, ◌≢◌, ℕ, ◌+◌, ◌-◌, ◌≤◌, ◌<◌, true, false, List, map, drop, length, Some, None, Result, Err};
ghost use Rattle.std.specs.List.{All};
ghost use Rattle.message.specs.declared.fault.Fault.{Fault};
ghost use Rattle.message.specs.Content.{ContentText, content_size};
ghost use Rattle.queue_config.specs.AlarmRules.{Rule, most_minutes};
ghost use Rattle.journal.specs.declared.entry.Entry.{Entry};
ghost use Rattle.journal.specs.declared.entry.Event.TheVariants.{Refused};
ghost use Rattle.journal.specs.Mark.{mark_of};
ghost use Rattle.metric_window.specs.Flows.{added, total, capped, minute_of, minute_flows, flows_total};
ghost use Rattle.metric_window.specs.Window.{longest_window, window_end, is_in_window};
ghost use Rattle.alarm.specs.declared.state.AlarmState.TheVariants.{InsufficientData};
ghost use Rattle.queue_core.specs.declared.command.Command.{Command};
ghost use Rattle.queue_core.specs.declared.command.TimedCommand.{TimedCommand};
ghost use Rattle.queue_core.specs.declared.reply.Reply.{Reply};
ghost use Rattle.queue_core.specs.Messages.{created_time};
ghost use Rattle.queue_core.specs.Metrics.{minute_end, metric_row, current_flows, row_of, window_rows, complete_minutes, last_rows, alarm_state_in, with_one_more_refused};
ghost use Rattle.queue_core.specs.Queue.{QueueHistory, rebased_where, outcome_of, with_optional_event};
ghost use Rattle.queue_core.specs.Lasting.{refusal_event};
ghost use Rattle.queue_core.specs.Legal.{IsWhole};
ghost use Rattle.queue_core.specs.Run.{NeverRebases, after_all};

/// A row never changes once its minute is over, whatever commands follow, at whatever moments and with
/// whatever answers, as long as it is shown: a checkpoint keeps the rows of the window. As long as no
/// checkpoint comes, no row does.
pub fn rows_never_change()
    ensures shown { (q : QueueHistory) (steps : List TimedCommand) (answers : List (Result Reply Fault)) (minute : ℕ)
        → minute_end minute ≤ q.clock
        → is_in_window (created_time (after_all q steps answers).lines) (after_all q steps answers).clock minute ≡ true
        → metric_row content_size (after_all q steps answers).lines minute
        ≡ metric_row content_size q.lines minute }
    ensures row { (q : QueueHistory) (steps : List TimedCommand) (answers : List (Result Reply Fault)) (minute : ℕ)
        → NeverRebases q steps answers → minute_end minute ≤ q.clock
        → metric_row content_size (after_all q steps answers).lines minute
        ≡ metric_row content_size q.lines minute }
{}

/// As long as no minute has fallen out of the window, the flows of all rows and of the current minute
/// add up to what all entries of the journal are counted as, where it is whole: behind a checkpoint the
/// entries are gone that the rows tell of. No number goes beyond the greatest that a
/// row can show.
pub fn rows_add_up_to_the_journal()
    ensures sum { (q : QueueHistory) → IsWhole q
        → window_end q.clock ≤ minute_of (created_time q.lines) + longest_window
        → capped (added (total (map (λ r. r.flows) (window_rows content_size q.lines q.clock))) (current_flows content_size q.lines q.clock))
        ≡ capped (flows_total content_size q.lines) }
{}

/// A call that the queue itself refuses counts once as refused in the minute of the moment at which it
/// acts, which is the queue's clock here, up to the greatest number that a row can show. It counts as
/// nothing else, and in no other minute. A call that adds no entry counts as nothing. A refusal adds an
/// entry unless the queue is not there or its journal is full. All of this is so too where a checkpoint
/// comes first, which keeps of the other minutes the rows that are shown.
pub fn refused_calls_count_once()
    ensures counted { (q : QueueHistory) (command : Command) (fault : Fault)
        → (outcome_of q command).event ≡ Some (Refused fault)
        → current_flows content_size (with_optional_event (rebased_where (outcome_of q command).rebases q) (outcome_of q command).event).lines q.clock
        ≡ with_one_more_refused (current_flows content_size q.lines q.clock) }
    ensures shown { (q : QueueHistory) (command : Command) (minute : ℕ)
        → row_of content_size (with_optional_event (rebased_where (outcome_of q command).rebases q) (outcome_of q command).event).lines q.clock minute
        ≡ row_of content_size q.lines q.clock minute }
    ensures uncounted { (q : QueueHistory) (command : Command)
        → (outcome_of q command).event ≡ None
        → current_flows content_size (with_optional_event (rebased_where (outcome_of q command).rebases q) (outcome_of q command).event).lines q.clock
        ≡ current_flows content_size q.lines q.clock }
    ensures other_minutes { (q : QueueHistory) (command : Command) (minute : ℕ)
        → (outcome_of q command).rebases ≡ false → minute ≢ minute_of q.clock
        → minute_flows content_size (with_optional_event q (outcome_of q command).event).lines minute
        ≡ minute_flows content_size q.lines minute }
    ensures recorded { (q : QueueHistory) (command : Command) (fault : Fault)
        → (outcome_of q command).reply ≡ Err fault → (outcome_of q command).event ≡ refusal_event fault }
{}

/// Where as many minutes are over as a rule looks at, the rows that it looks at are the last ones of the
/// window, and each is what is shown of its minute; where fewer are over the state is that of too few,
/// whatever happened. So no alarm depends on a minute without a row.
pub fn alarms_look_at_rows_of_the_window()
    ensures last { (lines : List (Entry ContentText)) (clock : ℕ) (rule : Rule)
        → rule.minutes ≤ most_minutes → rule.minutes ≤ complete_minutes lines clock
        → last_rows content_size lines clock rule.minutes
        ≡ drop (length (window_rows content_size lines clock) - rule.minutes) (window_rows content_size lines clock) }
    ensures shown { (lines : List (Entry ContentText)) (clock : ℕ) (rule : Rule)
        → rule.minutes ≤ most_minutes → rule.minutes ≤ complete_minutes lines clock
        → All (λ row. row_of content_size lines clock row.minute ≡ Some row)
        (last_rows content_size lines clock rule.minutes) }
    ensures insufficient { (lines : List (Entry ContentText)) (clock : ℕ) (rule : Rule)
        → complete_minutes lines clock < rule.minutes
        → alarm_state_in content_size lines clock rule ≡ InsufficientData }
{}

/// Rows need no content: from the entries' marks, which have a content's size in its place, they come
/// out as from the lines, and so do the current minute, the states of alarms, and the time of the
/// queue's creation, from which on there are rows.
pub fn rows_need_no_content()
    ensures row { (lines : List (Entry ContentText)) (minute : ℕ)
        → metric_row (λ size. size) (map (mark_of content_size) lines) minute
        ≡ metric_row content_size lines minute }
    ensures rows { (lines : List (Entry ContentText)) (clock : ℕ)
        → window_rows (λ size. size) (map (mark_of content_size) lines) clock
        ≡ window_rows content_size lines clock }
    ensures current { (lines : List (Entry ContentText)) (clock : ℕ)
        → current_flows (λ size. size) (map (mark_of content_size) lines) clock
        ≡ current_flows content_size lines clock }
    ensures alarm { (lines : List (Entry ContentText)) (clock : ℕ) (rule : Rule)
        → alarm_state_in (λ size. size) (map (mark_of content_size) lines) clock rule
        ≡ alarm_state_in content_size lines clock rule }
    ensures created { (lines : List (Entry ContentText))
        → created_time (map (mark_of content_size) lines) ≡ created_time lines }
{}
