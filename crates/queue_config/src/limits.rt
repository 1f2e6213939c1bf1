//! How much a queue may hold.

ghost use Rattle.std.specs.Prelude.{◌≡◌};
ghost use Rattle.queue_config.specs.Limits.{default_limits};

use std::marker::Model;

/// What is fixed of a limit.
#[derive(Clone, Copy, Debug)]
pub(crate) struct LimitRow {
    /// The key in the table `limits` of a configuration.
    pub(crate) key: &'static str,
    pub(crate) least: u32,
    pub(crate) most: u32,
    /// What the limit is where nothing is said.
    pub(crate) default: u32,
}

/// How many entries a journal may have. That a journal is limited is this project's own choice.
pub(crate) const MAX_LINES: LimitRow = LimitRow {
    key: "max_lines",
    least: 1,
    most: 16_777_216,
    default: 1_000_000,
};

/// How many messages of a queue may be in flight: the Amazon SQS quota for standard queues.
pub(crate) const IN_FLIGHT: LimitRow = LimitRow {
    key: "in_flight",
    least: 1,
    most: 120_000,
    default: 120_000,
};

/// The limits of every queue: how many entries its journal may have, and how many of its messages
/// may be in flight. Each number is in its range by the type.
#[derive(Clone, Copy, Debug, PartialEq, Eq)]
pub struct Limits {
    pub max_lines: u32,
    pub in_flight: u32,
}

impl Model for Limits {
    ghost use Rattle.queue_config.specs.Limits.{QueueLimits};
    ghost use Rattle.queue_config.specs.private.Limits.{AreLimits};

    ghost Value = { QueueLimits };

    ghost view = { λ l. record { max_lines = l.max_lines; in_flight = l.in_flight } };

    ghost invariant = { λ l. AreLimits l.max_lines l.in_flight };

    ghost inverse = { λ v. record { max_lines = v.max_lines; in_flight = v.in_flight } };
}

impl Default for Limits {
    ghost is_default = { λ limits. limits ≡ default_limits };

    /// A journal of 1,000,000 entries, and 120,000 messages in flight.
    fn default() -> Limits {
        Limits {
            max_lines: MAX_LINES.default,
            in_flight: IN_FLIGHT.default,
        }
    }
}
