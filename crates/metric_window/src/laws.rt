//! Laws about the definitions in `specs/`. Nothing runs here: each function is empty, and its
//! contract is the law.

ghost use Rattle.std.specs.Prelude.{◌≡◌, ℕ, ◌+◌, ◌-◌, ◌*◌, ◌<◌, ◌≤◌, ◌==◌, if◌then◌else◌, List, [], ◌∷◌, ◌++◌, map, length, None, IsSome, IsTrue};
ghost use Rattle.std.specs.List.{All, range_with_len};
ghost use Rattle.message.specs.Content.{ContentText, content_size};
ghost use Rattle.journal.specs.declared.entry.Entry.{Entry};
ghost use Rattle.circular_buffer.specs.Buffer.{keep_last};
ghost use Rattle.metric_window.specs.declared.flows.Flows.{Flows};
ghost use Rattle.metric_window.specs.declared.row.Row.{Row};
ghost use Rattle.metric_window.specs.Flows.{no_flows, flows_of, added, total, capped, minute_of, entries_in, flows_total, minute_flows};
ghost use Rattle.journal.specs.Mark.{mark_of};
ghost use Rattle.metric_window.specs.KeptRows.{row_in, AreLast};
ghost use Rattle.metric_window.specs.Window.{longest_window, window_start, window_end, is_in_window};

/// Counting line by line, from no flows on and up to the greatest number, gives what happened in the
/// minute: the sum of all, or the greatest number where that is more.
pub fn minutes_are_counted_line_by_line()
    ensures none { (minute : ℕ) → minute_flows content_size [] minute ≡ no_flows }
    ensures one_more { (lines : List (Entry ContentText)) (e : Entry ContentText) (minute : ℕ)
        → minute_flows content_size (lines ++ e ∷ []) minute
        ≡ (if minute_of e.at == minute
        then capped (added (minute_flows content_size lines minute) (flows_of content_size e.event))
        else minute_flows content_size lines minute) }
    ensures capped_before { (f g : Flows) → capped (added (capped f) g) ≡ capped (added f g) }
{}

/// Flows need no content: from the sizes alone they come out as from the contents.
pub fn flows_need_no_content()
    ensures flows { (lines : List (Entry ContentText)) (minute : ℕ)
        → minute_flows (λ n. n) (map (mark_of content_size) lines) minute
        ≡ minute_flows content_size lines minute }
{}

/// Each entry counts in one minute: the flows of all minutes from one on, where no greatest number cuts
/// them off, add up to those of all entries.
pub fn each_entry_counts_in_one_minute()
    ensures all { (lines : List (Entry ContentText)) (first minutes : ℕ)
        → All (λ e. (first ≤ minute_of e.at) × (minute_of e.at < first + minutes)) lines
        → total (map (λ minute. flows_total content_size (entries_in minute lines)) (range_with_len first minutes))
        ≡ flows_total content_size lines }
{}

/// A minute with a row is over, began no earlier than the minute of the queue's creation, and is one of
/// the last 180 before the clock's.
pub fn rows_are_of_the_last_minutes()
    ensures over { (created clock minute : ℕ) → IsTrue (is_in_window created clock minute)
        → 60000 * minute + 60000 ≤ clock }
    ensures created { (created clock minute : ℕ) → IsTrue (is_in_window created clock minute)
        → minute_of created ≤ minute }
    ensures last { (created clock minute : ℕ) → IsTrue (is_in_window created clock minute)
        → minute_of clock ≤ minute + longest_window }
    ensures longest { (created clock : ℕ)
        → window_end clock ≤ window_start created clock + longest_window }
{}

/// Rows that fell out before make no difference to those that are kept; and a minute has a row exactly
/// where it is one of the last, as many as are kept.
pub fn rows_are_the_last_that_were_closed()
    ensures fallen { (rows : List Row) (row : Row)
        → keep_last longest_window (keep_last longest_window rows ++ row ∷ []) ≡ keep_last longest_window (rows ++ row ∷ []) }
    ensures before { (end minute : ℕ) (rows : List Row) → AreLast end rows
        → minute + length rows < end → row_in rows minute ≡ None }
    ensures within { (end minute : ℕ) (rows : List Row) → AreLast end rows
        → end ≤ minute + length rows → minute < end → IsSome (row_in rows minute) }
    ensures after { (end minute : ℕ) (rows : List Row) → AreLast end rows
        → end ≤ minute → row_in rows minute ≡ None }
{}
