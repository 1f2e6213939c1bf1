//! What happens in a minute.

ghost use Rattle.std.specs.Prelude.{◌≡◌};
ghost use Rattle.message.specs.Content.{content_size};
ghost use Rattle.metric_window.specs.Flows.{no_flows, receive_flows, flows_of, flows_kept, added, capped};

use journal::{Event, KeptFlows, Line};

/// What happened in a minute of a queue (Amazon SQS metrics for CloudWatch; `refused` and
/// `dead_letters_arrived` are this project's own).
#[derive(Clone, Copy, Debug, PartialEq, Eq)]
pub struct Flows {
    /// Messages sent here: NumberOfMessagesSent.
    pub sent: u64,
    /// Their sizes, added up, in bytes: SentMessageSize.
    pub sent_size: u64,
    /// Messages offered by receives: NumberOfMessagesReceived.
    pub received: u64,
    /// Receives that offered nothing: NumberOfEmptyReceives.
    pub empty_receives: u64,
    /// Deletes that succeeded, those of messages gone already counted: NumberOfMessagesDeleted.
    pub deleted: u64,
    /// Requests that the queue itself refused: RefusedCalls.
    pub refused: u64,
    /// Messages that arrived from other queues: DeadLettersArrived.
    pub dead_letters_arrived: u64,
}

impl Flows {
    /// Nothing happened.
    pub fn none() -> Flows
        ensures { result ≡ no_flows }
    {
        Flows {
            sent: 0,
            sent_size: 0,
            received: 0,
            empty_receives: 0,
            deleted: 0,
            refused: 0,
            dead_letters_arrived: 0,
        }
    }

    /// The same and a line more (Amazon SQS metrics for CloudWatch). A checkpoint counts as what it keeps
    /// of its own minute. A number that would pass 2^64 - 1 stays there.
    pub fn with(self, line: &Line) -> Flows
        ensures { result ≡ capped (added self (flows_of content_size line.now.event)) }
    {
        match &line.event {
            Event::Sent { content, .. } => Flows {
                sent: self.sent.saturating_add(1),
                sent_size: self.sent_size.saturating_add(content.size()),
                ..self
            },
            Event::Arrived { .. } => Flows {
                dead_letters_arrived: self.dead_letters_arrived.saturating_add(1),
                ..self
            },
            Event::Received { offered, .. } => self.with_offers(offered.as_slice().len()),
            Event::Deleted { .. } | Event::DeletedAgain => Flows {
                deleted: self.deleted.saturating_add(1),
                ..self
            },
            Event::Refused { .. } => Flows {
                refused: self.refused.saturating_add(1),
                ..self
            },
            Event::Base(base) => self.with_kept(base.flows()),
            _ => self,
        }
    }

    /// The same and those that a checkpoint keeps.
    fn with_kept(self, kept: KeptFlows) -> Flows
        ensures { result ≡ capped (added self (flows_kept kept)) }
    {
        Flows {
            sent: self.sent.saturating_add(kept.sent),
            sent_size: self.sent_size.saturating_add(kept.sent_size),
            received: self.received.saturating_add(kept.received),
            empty_receives: self.empty_receives.saturating_add(kept.empty_receives),
            deleted: self.deleted.saturating_add(kept.deleted),
            refused: self.refused.saturating_add(kept.refused),
            dead_letters_arrived: self
                .dead_letters_arrived
                .saturating_add(kept.dead_letters_arrived),
        }
    }

    /// The same and a receive more, by how many messages it offers.
    fn with_offers(self, offers: usize) -> Flows
        ensures { result ≡ capped (added self (receive_flows offers)) }
    {
        let empty = if offers == 0 { 1 } else { 0 };
        Flows {
            received: self.received.saturating_add(offers as u64),
            empty_receives: self.empty_receives.saturating_add(empty),
            ..self
        }
    }
}

impl Default for Flows {
    /// Nothing happened.
    fn default() -> Flows
        ensures { result ≡ no_flows }
    {
        Flows::none()
    }
}
