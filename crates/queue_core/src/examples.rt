//! The definitions in `specs/`, computed on small journals. Nothing runs here: each function is
//! empty, and the checker computes what its contract says.

ghost use Rattle.std.specs.Prelude.{◌≡◌, ℕ, ◌+◌, ◌∷◌, [], true, false, length, option_map, Some, None, Ok};
ghost use Rattle.message.specs.declared.fault.Fault.TheVariants.{InvalidParameterValue, ReceiptHandleIsInvalid, MessageNotInflight, OverLimit, JournalFull};
ghost use Rattle.queue_config.specs.Limits.{default_limits};
ghost use Rattle.queue_config.specs.Settings.{default_settings, no_requested_attributes};
ghost use Rattle.journal.specs.declared.entry.Event.TheVariants as events;
ghost use Rattle.queue_core.specs.declared.command.Command.TheVariants.{Send, Receive, Change, Delete, Purge, Set, Arrive, Settle, Orphan, Close, Look};
ghost use Rattle.queue_core.specs.declared.reply.Reply.TheVariants as replies;
ghost use Rattle.queue_core.specs.declared.parcel.Arrival.TheVariants as arrivals;
ghost use Rattle.message.specs.Content.{ContentText, content_size};
ghost use Rattle.journal.specs.Base.{BaseOf};
ghost use Rattle.journal.specs.Journal.{based};
ghost use Rattle.journal.specs.Weight.{weight_of};
ghost use Rattle.metric_window.specs.Flows.{row_kept};
ghost use Rattle.queue_core.specs.Messages.{settings_of, is_expired, created_time, modified_time, is_closed, receive_count, last_receive_time, base_receives};
ghost use Rattle.queue_core.specs.Metrics.{current_flows, row_of};
ghost use Rattle.queue_core.specs.States.{oldest_age, receive_order};
ghost use Rattle.queue_core.specs.Queue.{at_moment, numbers_of, outcome_at, first_parcel_of, done, adding, answering, refusal, uncounted_refusal};
ghost use Rattle.queue_core.specs.Queue.{QueueHistory};
ghost use Rattle.queue_core.specs.Legal.{IsAllowedIn};
ghost use Rattle.queue_core.specs.examples.Journals as example;

/// A message is delayed until it is due and in flight until its timeout ends. From that very
/// millisecond on it is visible.
pub fn messages_become_visible()
    ensures at_once { example.counts_at 1500 example.hello_sent ≡ example.counts 1 0 0 }
    ensures delayed_until_due { example.counts_at 10999 example.hello_sent_with_ten_seconds_delay
        ≡ example.counts 0 1 0 }
    ensures visible_when_due { example.counts_at 11000 example.hello_sent_with_ten_seconds_delay
        ≡ example.counts 1 0 0 }
    ensures in_flight_until_its_timeout { example.counts_at 31999 example.hello_received
        ≡ example.counts 0 0 1 }
    ensures visible_at_its_timeout { example.counts_at 32000 example.hello_received
        ≡ example.counts 1 0 0 }
{}

/// A message expires at the very end of its retention. A change of the retention acts on messages
/// that are there already: the old one counts up to the change and at its very millisecond, the
/// new one from then on.
pub fn messages_expire()
    ensures kept_before_the_end { example.counts_at 59999 example.kept_for_a_minute
        ≡ example.counts 1 0 0 }
    ensures expired_at_the_end { example.counts_at 60000 example.kept_for_a_minute
        ≡ example.counts 0 0 0 }
    ensures kept_for_four_days { example.counts_at 345600999 example.hello_sent
        ≡ example.counts 1 0 0 }
    ensures expired_after_four_days { example.counts_at 345601000 example.hello_sent
        ≡ example.counts 0 0 0 }
    ensures raised_too_late { example.counts_at 60000 example.raised_at_its_end
        ≡ example.counts 0 0 0 }
    ensures raised_in_time { example.counts_at 60000 example.raised_before_its_end
        ≡ example.counts 1 0 0 }
    ensures raised_retention_ends { example.counts_at 120000 example.raised_before_its_end
        ≡ example.counts 0 0 0 }
    ensures lowered_for_a_second { example.counts_at 91000 example.lowered_for_a_second
        ≡ example.counts 0 0 0 }
    ensures expires_while_delayed { example.counts_at 60000 example.delayed_beyond_its_retention
        ≡ example.counts 0 0 0 }
    ensures judged_by_a_period_that_it_saw { is_expired example.came_before_the_raise 60000
        (example.sent_a_minute_before 1)
        ≡ true }
    ensures not_judged_by_a_period_before_it { is_expired example.came_after_the_raise 60000
        (example.sent_a_minute_before 2)
        ≡ false }
{}

/// A purge removes all messages that are there, those in flight too, and none that comes after it,
/// even in the same millisecond.
pub fn purges_remove_what_is_there()
    ensures all_gone { example.counts_at 3000 example.one_of_two_received_and_purged
        ≡ example.counts 0 0 0 }
    ensures sent_afterwards { example.counts_at 3000 example.sent_after_a_purge
        ≡ example.counts 1 0 0 }
{}

/// What sends answer and add.
pub fn sends_are_answered()
    ensures first_number { example.outcome example.only_opened 1000 (Send example.hello None)
        ≡ example.sent_outcome 0 example.hello 0 }
    ensures next_number { example.outcome example.hello_sent 2000 (Send example.letter_a None)
        ≡ example.sent_outcome 0 example.letter_a 1 }
    ensures delay_of_its_own { example.outcome (example.opened_with (example.with_delay 10)) 1000
        (Send example.hello (Some 20))
        ≡ example.sent_outcome 20 example.hello 0 }
    ensures delay_of_the_queue { example.outcome (example.opened_with (example.with_delay 10)) 1000
        (Send example.hello None)
        ≡ example.sent_outcome 10 example.hello 0 }
    ensures as_large_as_may_be { example.outcome
        (example.opened_with (example.with_largest_size 1024)) 1000
        (Send (example.letters 1024) None)
        ≡ example.sent_outcome 0 (example.letters 1024) 0 }
    ensures too_large { example.outcome (example.opened_with (example.with_largest_size 1024)) 1000
        (Send (example.letters 1025) None)
        ≡ refusal InvalidParameterValue }
{}

/// What receives offer, and in which order: the earlier due time first. An offer has the receipt
/// number, this receive counted, and the time of the first receive.
pub fn receives_are_answered()
    ensures offered { example.outcome example.hello_sent 2000 (Receive 1 None)
        ≡ example.received_outcome 30 (example.hello_offered ∷ []) }
    ensures timeout_of_its_own { example.outcome example.hello_sent 2000 (Receive 1 (Some 5))
        ≡ example.received_outcome 5 (example.hello_offered ∷ []) }
    ensures nothing_is_visible { example.outcome example.hello_received 31999 (Receive 1 None)
        ≡ example.received_outcome 30 [] }
    ensures offered_a_third_time { example.outcome example.hello_received_twice 4000
        (Receive 1 None)
        ≡ example.received_outcome 1 (example.hello_offered_a_third_time ∷ []) }
    ensures released_last { numbers_of (receive_order example.first_of_two_released_once 5000)
        ≡ 1 ∷ 0 ∷ [] }
    ensures released_is_offered_last { example.outcome example.first_of_two_released_once 5000
        (Receive 2 None)
        ≡ example.received_outcome 30
        (example.letter_b_offered ∷ example.letter_a_offered_again ∷ []) }
{}

/// What changes of a timeout answer. The first thing that is wrong is told: the handle, then that
/// the message is not in flight under it, then that its timeout would pass twelve hours.
pub fn changes_are_answered()
    ensures released { example.outcome example.first_of_two_received 4000
        (Change (example.handle 1) 0)
        ≡ done (events.Changed 0 0) }
    ensures released_already { example.outcome example.first_of_two_released 4500
        (Change (example.handle 1) 0)
        ≡ refusal MessageNotInflight }
    ensures receipt_not_given_yet { example.outcome example.hello_received 2500
        (Change (example.handle 2) 60)
        ≡ refusal ReceiptHandleIsInvalid }
    ensures refused_change_moves_nothing { example.counts_at 31999
        example.hello_received_and_a_handle_refused
        ≡ example.counts 0 0 1 }
    ensures and_not_later { example.counts_at 32000 example.hello_received_and_a_handle_refused
        ≡ example.counts 1 0 0 }
    ensures twelve_hours { example.outcome example.hello_received_at_three_seconds 3000
        (Change (example.handle 1) 43200)
        ≡ done (events.Changed 0 43200) }
    ensures one_millisecond_more { example.outcome example.changed_to_twelve_hours 3001
        (Change (example.handle 1) 43200)
        ≡ refusal InvalidParameterValue }
    ensures one_second_less { example.outcome example.changed_to_twelve_hours_once 3002
        (Change (example.handle 1) 43199)
        ≡ done (events.Changed 0 43199) }
    ensures handle_is_asked_first { example.outcome example.hello_received 32000
        (Change (example.handle 2) 43200)
        ≡ refusal ReceiptHandleIsInvalid }
    ensures in_flight_is_asked_next { example.outcome example.hello_received 32000
        (Change (example.handle 1) 43200)
        ≡ refusal MessageNotInflight }
    ensures twelve_hours_are_asked_last { example.outcome example.hello_received 2001
        (Change (example.handle 1) 43200)
        ≡ refusal InvalidParameterValue }
{}

/// What deletes answer. Only the latest handle of a message that is still there deletes it.
pub fn deletes_are_answered()
    ensures older_handle { example.outcome example.hello_received_twice 3100
        (Delete (example.handle 1))
        ≡ done events.DeletedAgain }
    ensures still_in_flight { example.counts_at 3100 example.deleted_under_the_older_handle
        ≡ example.counts 0 0 1 }
    ensures latest_handle { example.outcome example.deleted_under_the_older_handle 3200
        (Delete (example.handle 2))
        ≡ done (events.Deleted 0) }
    ensures gone { example.counts_at 3200 example.deleted_under_the_latest_handle
        ≡ example.counts 0 0 0 }
    ensures deleted_again { example.outcome example.deleted_under_the_latest_handle 3300
        (Delete (example.handle 2))
        ≡ done events.DeletedAgain }
    ensures after_its_timeout { example.outcome example.hello_received_and_a_handle_refused 32000
        (Delete (example.handle 1))
        ≡ done (events.Deleted 0) }
    ensures gone_when_visible { example.counts_at 32000
        example.hello_received_and_deleted_when_visible
        ≡ example.counts 0 0 0 }
    ensures receipt_not_given_yet { example.outcome example.hello_received 2500
        (Delete (example.handle 2))
        ≡ refusal ReceiptHandleIsInvalid }
    ensures receipt_that_is_none { example.outcome example.hello_received 2500
        (Delete (example.handle 0))
        ≡ refusal ReceiptHandleIsInvalid }
    ensures number_not_given_yet { example.outcome example.hello_received 2500
        (Delete (example.handle_of 1 1 1))
        ≡ refusal ReceiptHandleIsInvalid }
    ensures handle_of_another_queue { example.outcome example.hello_received 2500
        (Delete (example.handle_of 2 0 1))
        ≡ refusal ReceiptHandleIsInvalid }
{}

/// What a purge, new settings and a look answer. A change of settings is an entry even where it
/// requests nothing.
pub fn other_commands_are_answered()
    ensures purge { example.outcome example.hello_sent 2000 Purge ≡ done events.Purged }
    ensures set { example.outcome example.hello_sent 2000 (Set (example.requested_retention 60) 0)
        ≡ done (events.Set (example.with_retention 60)) }
    ensures set_nothing { example.outcome example.hello_sent 2000 (Set no_requested_attributes 0)
        ≡ done (events.Set default_settings) }
    ensures look { example.outcome example.first_of_two_released_once 4500 Look
        ≡ example.looked_outcome example.look_at_released }
{}

/// A full journal refuses every command but a look, `FirstParcel` and a close, and the refusal is no
/// entry. A queue with as many messages in flight as may be refuses a receive, and that refusal is one.
pub fn limits_are_kept()
    ensures fourth_send { outcome_at (example.queue_with (example.at_most_lines 4) 1000
        example.three_sent)
        2000 (Send example.hello None)
        ≡ uncounted_refusal JournalFull }
    ensures three_are_there { example.counts_at 2000 example.three_sent ≡ example.counts 3 0 0 }
    ensures before_an_invalid_handle { outcome_at (example.queue_with (example.at_most_lines 4) 1000
        example.three_sent)
        2000 (Delete (example.handle 1))
        ≡ uncounted_refusal JournalFull }
    ensures filled_by_its_opening { outcome_at (example.queue_with (example.at_most_lines 1) 0
        example.only_opened)
        1000 Purge
        ≡ uncounted_refusal JournalFull }
    ensures two_of_ten_are_offered { outcome_at (example.queue_with example.at_most_two_in_flight
        1000 example.three_sent)
        3000 (Receive 10 None)
        ≡ example.received_outcome 30 (example.offered_of_three 0 example.letter_a
        ∷ example.offered_of_three 1 example.letter_b ∷ []) }
    ensures no_more_in_flight { outcome_at (example.queue_with example.at_most_two_in_flight 3000
        example.two_of_three_received)
        3001 (Receive 10 None)
        ≡ refusal OverLimit }
{}

/// The clock never falls: what comes with an earlier time acts at the clock. Where memory runs out
/// the clock moves and nothing else.
pub fn clocks_never_fall()
    ensures clock { at_moment (example.queue 9000 example.only_opened) 8000
        ≡ example.queue 9000 example.only_opened }
    ensures sent_at_the_clock { example.left_with_answer (example.queue 9000 example.only_opened)
        8000 (Send example.letter_a None)
        ≡ example.queue 9000 example.sent_at_nine_seconds }
    ensures offered_at_the_clock { outcome_at (example.queue 9000 example.sent_at_nine_seconds) 0
        (Receive 1 None)
        ≡ example.received_outcome 30 (example.sent_at_nine_seconds_offered ∷ []) }
    ensures no_memory { example.left_without_memory (example.queue 9000 example.only_opened)
        9500 (Send example.letter_a None)
        ≡ example.queue 9500 example.only_opened }
{}

/// A message that was received as often as its queue's policy allows is not offered again: it leaves,
/// and waits, also through a purge. Where the dead-letter queue is lost it comes back, visible at once,
/// and the policy that named that queue is gone.
pub fn dead_letters_leave_and_come_back()
    ensures leaves { (example.outcome example.one_received_of_two 5000 (Receive 1 None)).event
        ≡ Some (events.Received 1 (1 ∷ []) (0 ∷ []) 9) }
    ensures gone { example.counts_at 5000 example.first_of_two_left ≡ example.counts 0 0 1 }
    ensures waits { first_parcel_of (example.queue 5000 example.first_of_two_left)
        ≡ Some example.parcel_of_a }
    ensures not_purged { first_parcel_of (example.queue 5001 example.first_of_two_left_and_purged)
        ≡ Some example.parcel_of_a }
    ensures confirmed { example.outcome example.first_of_two_left 5001 (Settle 0)
        ≡ adding (events.Settled 0) (Ok (replies.Settled true)) }
    ensures not_waiting { example.outcome example.first_of_two_left 5001 (Settle 1)
        ≡ answering (Ok (replies.Settled false)) }
    ensures lost { example.outcome example.first_of_two_left 5002 (Orphan 9)
        ≡ adding (events.Orphaned 9) (Ok (replies.Orphaned 1)) }
    ensures back { example.counts_at 5002 example.first_of_two_back ≡ example.counts 1 0 1 }
    ensures nothing_waits { first_parcel_of (example.queue 5002 example.first_of_two_back) ≡ None }
    ensures without_its_policy { settings_of example.first_of_two_back ≡ example.with_timeout 1 }
{}

/// A receive stops behind its last offer. A message behind that one stays where it is, also one that
/// may not be received again, until a receive comes to it.
pub fn receives_stop_behind_their_last_offer()
    ensures order { numbers_of (receive_order example.spent_one_due_last 5000) ≡ 1 ∷ 0 ∷ [] }
    ensures stays { (example.outcome example.spent_one_due_last 5000 (Receive 1 None)).event
        ≡ Some (events.Received 1 (1 ∷ []) [] 9) }
    ensures visible { example.counts_at 5000 example.spent_one_stays ≡ example.counts 1 0 1 }
    ensures come_to { (example.outcome example.spent_one_due_last 5000 (Receive 2 None)).event
        ≡ Some (events.Received 1 (1 ∷ []) (0 ∷ []) 9) }
    ensures leaves_next { (example.outcome example.spent_one_stays 5000 (Receive 1 None)).event
        ≡ Some (events.Received 1 [] (0 ∷ []) 9) }
{}

/// A dead letter is accepted once. Its age runs from its arrival, its retention from the first send.
pub fn dead_letters_arrive()
    ensures accepted { (example.outcome (example.opened_with (example.with_retention 60)) 5000
        (Arrive example.parcel_of_a)).event
        ≡ Some (events.Arrived example.origin_of_a example.letter_a) }
    ensures again { example.outcome example.arrived_at_five_seconds 6000 (Arrive example.parcel_of_a)
        ≡ answering (Ok (replies.Arrived arrivals.Again)) }
    ensures aged_from_its_arrival { oldest_age example.arrived_at_five_seconds 59999 ≡ 54 }
    ensures kept_from_its_first_send { example.counts_at 60999 example.arrived_at_five_seconds
        ≡ example.counts 1 0 0 }
    ensures until_that_is_over { example.counts_at 61000 example.arrived_at_five_seconds
        ≡ example.counts 0 0 0 }
{}

/// The times and the age that a look tells.
pub fn times_are_told()
    ensures created { created_time example.opened_at_one_second_and_set_at_five ≡ 1000 }
    ensures modified { modified_time example.opened_at_one_second_and_set_at_five ≡ 5000 }
    ensures modified_by_its_opening { modified_time example.hello_sent ≡ 0 }
    ensures less_than_a_second { oldest_age example.hello_sent 1999 ≡ 0 }
    ensures one_second { oldest_age example.hello_sent 2000 ≡ 1 }
    ensures no_message { oldest_age example.only_opened 5000 ≡ 0 }
{}

/// The age is that of the first message that was received fewer than three times.
pub fn what_keeps_failing_has_no_age()
    ensures received_twice { oldest_age example.received_twice 2999 ≡ 1 }
    ensures received_three_times { oldest_age example.received_three_times 3000 ≡ 0 }
    ensures sent_behind_it { oldest_age example.sent_behind_what_fails 9999 ≡ 4 }
    ensures both_are_there { example.counts_at 9999 example.sent_behind_what_fails ≡ example.counts 2 0 0 }
{}

/// The journals of these examples are those that commands leave.
pub fn journals_come_of_commands()
    ensures delayed { example.lines_after default_settings
        (example.step 1000 (Send example.hello (Some 10)) ∷ [])
        ≡ example.hello_sent_with_ten_seconds_delay }
    ensures lowered_for_a_second { example.lines_after (example.with_retention 120)
        (example.step 0 (Send example.letter_a None)
        ∷ example.step 90000 (Set (example.requested_retention 60) 0)
        ∷ example.step 91000 (Set (example.requested_retention 120) 0) ∷ [])
        ≡ example.lowered_for_a_second }
    ensures purged { example.lines_after default_settings
        (example.step 1000 (Send example.letter_a None)
        ∷ example.step 1000 (Send example.letter_b None) ∷ example.step 2000 (Receive 1 None)
        ∷ example.step 3000 Purge ∷ example.step 3000 (Send example.hello None) ∷ [])
        ≡ example.sent_after_a_purge }
    ensures released { example.lines_after default_settings
        (example.step 1000 (Send example.letter_a None)
        ∷ example.step 2000 (Send example.letter_b None) ∷ example.step 3000 (Receive 1 None)
        ∷ example.step 4000 (Change (example.handle 1) 0)
        ∷ example.step 4500 (Change (example.handle 1) 0) ∷ [])
        ≡ example.first_of_two_released_once }
    ensures handle_refused { example.lines_after default_settings
        (example.step 1000 (Send example.hello None) ∷ example.step 2000 (Receive 1 None)
        ∷ example.step 2500 (Change (example.handle 2) 60)
        ∷ example.step 32000 (Delete (example.handle 1)) ∷ [])
        ≡ example.hello_received_and_deleted_when_visible }
    ensures deleted { example.lines_after (example.with_timeout 1)
        (example.step 1000 (Send example.hello None) ∷ example.step 2000 (Receive 1 None)
        ∷ example.step 3000 (Receive 1 None) ∷ example.step 3100 (Delete (example.handle 1))
        ∷ example.step 3200 (Delete (example.handle 2)) ∷ [])
        ≡ example.deleted_under_the_latest_handle }
    ensures spent_one_stays { example.lines_after example.with_policy
        (example.step 1000 (Send example.letter_a None) ∷ example.step 3000 (Receive 1 None)
        ∷ example.step 3500 (Send example.letter_b None) ∷ example.step 5000 (Receive 1 None) ∷ [])
        ≡ example.spent_one_stays }
    ensures twelve_hours { example.lines_after default_settings
        (example.step 1000 (Send example.hello None) ∷ example.step 3000 (Receive 1 None)
        ∷ example.step 3000 (Change (example.handle 1) 43200)
        ∷ example.step 3001 (Change (example.handle 1) 43200) ∷ [])
        ≡ example.changed_to_twelve_hours_once }
    ensures two_received { example.queue_after
        (example.queue_with example.at_most_two_in_flight 0 example.only_opened)
        (example.step 1000 (Send example.letter_a None)
        ∷ example.step 1000 (Send example.letter_b None)
        ∷ example.step 1000 (Send example.hello None) ∷ example.step 3000 (Receive 10 None) ∷ [])
        ≡ example.queue_with example.at_most_two_in_flight 3000 example.two_of_three_received }
    ensures filled { example.queue_after
        (example.queue_with (example.at_most_lines 4) 0 example.only_opened)
        (example.step 1000 (Send example.letter_a None)
        ∷ example.step 1000 (Send example.letter_b None)
        ∷ example.step 1000 (Send example.hello None)
        ∷ example.step 2000 (Send example.hello None) ∷ [])
        ≡ example.queue_with (example.at_most_lines 4) 2000 example.three_sent }
    ensures clock_asked_to_fall { example.queue_after (example.queue 0 example.only_opened)
        (example.step 9000 Look ∷ example.step 8000 (Send example.letter_a None) ∷ [])
        ≡ example.queue 9000 example.sent_at_nine_seconds }
{}

/// No journal holds what is out of range: a client cannot send it.
pub fn nothing_out_of_range_is_legal()
    ensures delay { (q : QueueHistory) → IsAllowedIn q (Send example.hello (Some 901)) → ⊥ }
    ensures empty_body { (q : QueueHistory) → IsAllowedIn q (Send example.empty None) → ⊥ }
    ensures no_messages { (q : QueueHistory) → IsAllowedIn q (Receive 0 None) → ⊥ }
    ensures eleven_messages { (q : QueueHistory) → IsAllowedIn q (Receive 11 None) → ⊥ }
    ensures timeout { (q : QueueHistory) → IsAllowedIn q (Change (example.handle 1) 43201) → ⊥ }
{}

/// A journal goes on from a checkpoint as from the entries that it stands for: what is gone counts no
/// more, and its number and its receipts stay known.
pub fn journals_go_on_from_a_checkpoint()
    ensures counts { example.counts_at 4000 example.sent_behind_a_checkpoint ≡ example.counts 1 0 0 }
    ensures next_number { example.outcome (based 4000 example.base_without_messages) 4000 (Send example.letter_b None)
        ≡ example.sent_outcome 0 example.letter_b 1 }
    ensures deleted_again { example.outcome example.sent_behind_a_checkpoint 4100 (Delete (example.handle 1))
        ≡ done events.DeletedAgain }
    ensures never_given { example.outcome example.sent_behind_a_checkpoint 4150 (Delete (example.handle 2))
        ≡ refusal ReceiptHandleIsInvalid }
    ensures flows { current_flows content_size example.sent_behind_a_checkpoint 4000
        ≡ record { sent = 2; sent_size = 2; received = 1; empty_receives = 0; deleted = 1; refused = 0; dead_letters_arrived = 0 } }
{}

/// A checkpoint keeps what is live and what waits for a dead-letter queue, with its times, its receives
/// and whether it had expired; the transfers that were accepted, and the rows that are shown.
pub fn checkpoints_keep_what_goes_on()
    ensures in_flight { example.counts_at 94999 example.two_kept ≡ example.counts 0 0 1 }
    ensures visible_when_due { example.counts_at 95000 example.two_kept ≡ example.counts 1 0 0 }
    ensures kept_until_its_end { example.counts_at 169999 example.two_kept ≡ example.counts 1 0 0 }
    ensures expires_by_its_first_send { example.counts_at 170000 example.two_kept ≡ example.counts 0 0 0 }
    ensures received_so_often { (example.outcome example.two_kept 95000 (Receive 1 None)).event
        ≡ Some (events.Received 1 [] (2 ∷ []) 9) }
    ensures waits { first_parcel_of (example.queue 91000 example.two_kept) ≡ Some example.parcel_of_expired_a }
    ensures lost { (example.outcome example.two_kept 91000 (Orphan 9)).reply ≡ Ok (replies.Orphaned 1) }
    ensures expired_before { example.counts_at 91000 example.two_kept_and_orphaned ≡ example.counts 0 0 1 }
    ensures accepted { (example.outcome example.two_kept 91000 (Arrive example.parcel_of_seventh)).reply
        ≡ Ok (replies.Arrived arrivals.Again) }
    ensures shown { row_of content_size example.two_kept 91000 0 ≡ Some (row_kept example.row_of_first_minute) }
    ensures gone { receive_count example.two_kept 0 ≡ 4 }
{}

/// A journal at its limit begins anew with a checkpoint, where that makes room: what is gone counts no
/// more, and what is known of it stays. What waits for a dead-letter queue is kept, with the order in
/// which it left and whether it had expired; so are the twelve hours since the last receive. Neither a
/// look nor a close makes a checkpoint, and none is made where memory runs out.
pub fn a_full_journal_begins_anew()
    ensures filled { (example.queue_after (example.of_four 0 example.only_opened)
        (example.step 1000 (Send example.letter_a None) ∷ example.step 2000 (Receive 1 None)
        ∷ example.step 3000 (Delete (example.handle 1)) ∷ [])).lines
        ≡ example.sent_received_and_deleted }
    ensures looked_at { (outcome_at (example.of_four 3000 example.sent_received_and_deleted) 4000 Look).rebases ≡ false }
    ensures closed { outcome_at (example.of_four 3000 example.sent_received_and_deleted) 4000 Close
        ≡ done events.Closed }
    ensures no_memory { example.left_without_memory (example.of_four 3000 example.sent_received_and_deleted)
        4000 (Send example.letter_b None)
        ≡ example.of_four 4000 example.sent_received_and_deleted }
    ensures next_number { outcome_at (example.of_four 3000 example.sent_received_and_deleted) 4000 (Send example.letter_b None)
        ≡ example.behind_a_checkpoint (example.sent_outcome 0 example.letter_b 1) }
    ensures one_for_four { (example.left_with_answer (example.of_four 3000 example.sent_received_and_deleted)
        4000 (Send example.letter_b None)).lines
        ≡ example.sent_behind_a_checkpoint }
    ensures look { outcome_at (example.of_four 4000 example.sent_behind_a_checkpoint) 4000 Look
        ≡ example.looked_outcome example.look_behind_a_checkpoint }
    ensures deleted_again { outcome_at (example.of_four 4000 example.sent_behind_a_checkpoint) 4100 (Delete (example.handle 1))
        ≡ done events.DeletedAgain }
    ensures never_given { outcome_at (example.of_four 4100 example.sent_behind_a_checkpoint) 4150 (Delete (example.handle 2))
        ≡ refusal ReceiptHandleIsInvalid }
    ensures full_again { weight_of example.asked_twice_behind_a_checkpoint ≡ 4 }
    ensures two_kept { weight_of (example.left_with_answer (example.of_four 4150 example.asked_twice_behind_a_checkpoint)
        4200 (Send example.hello None)).lines
        ≡ 3 }
    ensures three_kept { weight_of example.two_sent_behind_them.lines ≡ 4 }
    ensures no_room { outcome_at example.two_sent_behind_them 4400 (Send example.hello None) ≡ uncounted_refusal JournalFull }
    ensures counts { example.counts_at 4400 example.two_sent_behind_them.lines ≡ example.counts 3 0 0 }
    ensures expired { example.lines_after example.short_policy
        (example.step 0 (Send example.letter_a None) ∷ example.step 0 (Receive 1 None)
        ∷ example.step 1000 (Receive 1 None) ∷ example.step 90000 (Set (example.requested_retention 120) 0) ∷ [])
        ≡ example.left_and_expired }
    ensures orphaned { outcome_at (example.queue_with (example.at_most_lines 5) 90000 example.left_and_expired) 91000 (Orphan 9)
        ≡ example.behind_a_checkpoint (adding (events.Orphaned 9) (Ok (replies.Orphaned 1))) }
    ensures kept_and_orphaned { weight_of example.orphaned_at_the_limit.lines ≡ 3 }
    ensures expired_for_good { example.counts_at 91000 example.orphaned_at_the_limit.lines ≡ example.counts 0 0 0 }
    ensures left { example.lines_after example.with_policy
        (example.step 0 (Send example.letter_a None) ∷ example.step 0 (Send example.letter_b None)
        ∷ example.step 0 (Receive 2 None) ∷ example.step 500 (Change (example.handle 1) 2)
        ∷ example.step 5000 (Receive 2 None) ∷ [])
        ≡ example.left_as_they_were_due }
    ensures first_left { option_map (λ p. p.origin.number) (first_parcel_of (example.queue 5000 example.left_as_they_were_due)) ≡ Some 1 }
    ensures none_waits_so { outcome_at (example.queue_with (example.at_most_lines 6) 5000 example.left_as_they_were_due) 6000 (Settle 7)
        ≡ example.behind_a_checkpoint (answering (Ok (replies.Settled false))) }
    ensures both_kept { weight_of example.asked_for_another.lines ≡ 3 }
    ensures still_first { option_map (λ p. p.origin.number) (first_parcel_of example.asked_for_another) ≡ Some 1 }
    ensures refused_once { example.lines_after default_settings
        (example.step 0 (Send example.letter_a None) ∷ example.step 1000 (Receive 1 None)
        ∷ example.step 1001 (Change (example.handle 1) 43200) ∷ [])
        ≡ example.received_and_refused_once }
    ensures changed { outcome_at (example.of_four 1001 example.received_and_refused_once) 1002 (Change (example.handle 1) 43199)
        ≡ example.behind_a_checkpoint (done (events.Changed 0 43199)) }
    ensures kept_and_changed { weight_of (example.left_with_answer (example.of_four 1001 example.received_and_refused_once)
        1002 (Change (example.handle 1) 43199)).lines
        ≡ 3 }
{}

/// What a checkpoint says is what its journal says.
pub fn a_checkpoint_says_itself()
    ensures settings { (at : ℕ) (b : BaseOf ContentText) → settings_of (based at b) ≡ b.settings }
    ensures created { (at : ℕ) (b : BaseOf ContentText) → created_time (based at b) ≡ b.created }
    ensures modified { (at : ℕ) (b : BaseOf ContentText) → modified_time (based at b) ≡ b.modified }
    ensures open { (at : ℕ) (b : BaseOf ContentText) → is_closed (based at b) ≡ false }
    ensures last { (at number : ℕ) (b : BaseOf ContentText) → last_receive_time (based at b) number ≡ (base_receives b number).last }
    ensures weight { (at : ℕ) (b : BaseOf ContentText) → weight_of (based at b) ≡ 1 + length b.messages }
{}
