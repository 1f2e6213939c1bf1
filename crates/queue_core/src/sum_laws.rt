//! Laws that the numbers of metric rows are plain sums, for every queue. Nothing runs here: each
//! function is empty, and its contract is the law.

ghost use Rattle.std.specs.Prelude.{◌≡◌, ℕ, ◌+◌, ◌≤◌, map, length, Some};
ghost use Rattle.message.specs.declared.fault.Fault.{Fault};
ghost use Rattle.message.specs.Content.{content_size};
ghost use Rattle.queue_config.specs.Limits.{max_lines_row};
ghost use Rattle.journal.specs.declared.entry.Event.TheVariants.{Refused};
ghost use Rattle.metric_window.specs.Flows.{added, total, minute_of, entries_in, minute_flows, flows_total};
ghost use Rattle.metric_window.specs.Window.{longest_window, window_end};
ghost use Rattle.queue_core.specs.declared.command.Command.{Command};
ghost use Rattle.queue_core.specs.Messages.{created_time};
ghost use Rattle.queue_core.specs.Metrics.{current_flows, window_rows};
ghost use Rattle.queue_core.specs.Queue.{QueueHistory, rebased_where, outcome_of, with_optional_event};
ghost use Rattle.queue_core.specs.Legal.{IsWhole};

/// No number of a row is ever cut where a journal is whole: it is too short, and its contents are too
/// small, for any to come near the greatest that a row can show. So in each minute, and over the whole
/// window as long as no minute has fallen out of it, what rows show are the plain sums over the entries,
/// and a refused call makes the refusals of its minute one more. Every queue has a journal so short
/// ([`QueueState::journal`](crate::QueueState::journal)), and one that is whole until a checkpoint
/// comes; behind one, rows show numbers up to the greatest.
pub fn no_number_of_a_row_is_cut()
    ensures minute { (q : QueueHistory) (minute : ℕ) → IsWhole q → length q.lines ≤ max_lines_row.most + 1
        → minute_flows content_size q.lines minute ≡ flows_total content_size (entries_in minute q.lines) }
    ensures sum { (q : QueueHistory) → IsWhole q → length q.lines ≤ max_lines_row.most + 1
        → window_end q.clock ≤ minute_of (created_time q.lines) + longest_window
        → added (total (map (λ r. r.flows) (window_rows content_size q.lines q.clock))) (current_flows content_size q.lines q.clock)
        ≡ flows_total content_size q.lines }
    ensures refused { (q : QueueHistory) (command : Command) (fault : Fault) → IsWhole q → length q.lines ≤ max_lines_row.most + 1
        → (outcome_of q command).event ≡ Some (Refused fault)
        → (current_flows content_size (with_optional_event (rebased_where (outcome_of q command).rebases q) (outcome_of q command).event).lines q.clock).refused
        ≡ (current_flows content_size q.lines q.clock).refused + 1 }
{}
