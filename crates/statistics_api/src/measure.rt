//! What is measured of a queue.

ghost use Rattle.std.specs.Prelude.{◌≡◌};
ghost use Rattle.statistics_api.specs.Metrics.{measure_name, measure_help, measured};

use board::Sheet;

/// A number that is told of each queue.
#[derive(Clone, Copy, Debug, PartialEq, Eq)]
pub(crate) enum Measure {
    /// Visible messages.
    Visible,
    /// Delayed messages.
    Delayed,
    /// Messages in flight.
    InFlight,
    /// The age of the oldest message that was received fewer than three times, in seconds.
    Age,
    /// The weight of the journal.
    Entries,
    /// Of the current minute, as the others below: messages sent.
    Sent,
    /// Their bytes.
    SentSize,
    /// Messages received.
    Received,
    /// Receives that offered none.
    EmptyReceives,
    /// Deletions.
    Deleted,
    /// Calls that the queue refused.
    Refused,
    /// Dead letters that arrived.
    DeadLettersArrived,
}

/// All of them, in the order in which they are told.
pub(crate) const MEASURES: [Measure; 12] = [
    Measure::Visible,
    Measure::Delayed,
    Measure::InFlight,
    Measure::Age,
    Measure::Entries,
    Measure::Sent,
    Measure::SentSize,
    Measure::Received,
    Measure::EmptyReceives,
    Measure::Deleted,
    Measure::Refused,
    Measure::DeadLettersArrived,
];

impl Measure {
    /// Its metric's name.
    pub(crate) fn name(self) -> &'static str
        ensures { result.now ≡ measure_name self }
    {
        match self {
            Measure::Visible => "jutkariq_queue_messages_visible",
            Measure::Delayed => "jutkariq_queue_messages_delayed",
            Measure::InFlight => "jutkariq_queue_messages_in_flight",
            Measure::Age => "jutkariq_queue_oldest_message_age_seconds",
            Measure::Entries => "jutkariq_queue_journal_entries",
            Measure::Sent => "jutkariq_queue_minute_messages_sent",
            Measure::SentSize => "jutkariq_queue_minute_sent_bytes",
            Measure::Received => "jutkariq_queue_minute_messages_received",
            Measure::EmptyReceives => "jutkariq_queue_minute_empty_receives",
            Measure::Deleted => "jutkariq_queue_minute_deletes",
            Measure::Refused => "jutkariq_queue_minute_refused_calls",
            Measure::DeadLettersArrived => "jutkariq_queue_minute_dead_letters_arrived",
        }
    }

    /// What it counts, in words.
    pub(crate) fn help(self) -> &'static str
        ensures { result.now ≡ measure_help self }
    {
        match self {
            Measure::Visible => "Messages that a receive can take.",
            Measure::Delayed => "Messages whose delay is not over.",
            Measure::InFlight =>
                "Messages that were received and not deleted, while they are hidden.",
            Measure::Age => "Age of the oldest message that was received fewer than three times.",
            Measure::Entries =>
                "Entries of the journal; a checkpoint counts 1, and 1 more for each message that it keeps.",
            Measure::Sent => "Messages sent in the current minute.",
            Measure::SentSize => "Size of the messages sent in the current minute.",
            Measure::Received => "Messages received in the current minute.",
            Measure::EmptyReceives => "Receives without a message in the current minute.",
            Measure::Deleted => "Deletes in the current minute.",
            Measure::Refused => "Calls that the queue refused in the current minute.",
            Measure::DeadLettersArrived => "Dead letters that arrived in the current minute.",
        }
    }

    /// How much it is of a queue.
    pub(crate) fn of(self, sheet: &Sheet) -> u64
        ensures { result ≡ measured self sheet.now }
    {
        match self {
            Measure::Visible => sheet.gauges.visible,
            Measure::Delayed => sheet.gauges.delayed,
            Measure::InFlight => sheet.gauges.in_flight,
            Measure::Age => sheet.gauges.age,
            Measure::Entries => sheet.lines,
            Measure::Sent => sheet.current.sent,
            Measure::SentSize => sheet.current.sent_size,
            Measure::Received => sheet.current.received,
            Measure::EmptyReceives => sheet.current.empty_receives,
            Measure::Deleted => sheet.current.deleted,
            Measure::Refused => sheet.current.refused,
            Measure::DeadLettersArrived => sheet.current.dead_letters_arrived,
        }
    }
}
