//! Why a configuration is refused.

ghost use Rattle.std.specs.Prelude.{◌≡◌};
ghost use Rattle.queue_config.specs.ConfigFault.{config_fault_code, config_fault_name};
ghost use Rattle.queue_config.specs.declared.config_fault.ConfigFault.TheVariants.{OutOfMemory};

use std::alloc::{AllocError, AllocFailed};
use thiserror::Error;

/// What is first wrong with the text of a configuration. Names, numbers and their order are this
/// project's own choice. What `Display` writes is shown by tests, and by no contract.
#[derive(Clone, Copy, Debug, PartialEq, Eq, Error)]
pub enum ConfigFault {
    /// The text is no TOML.
    #[error("The text is not TOML.")]
    Syntax,
    /// A table has a key that it does not know.
    #[error("A key is unknown.")]
    UnknownKey,
    /// A value is of another kind, or a key is missing that has to be there, such as one of the two of
    /// a policy.
    #[error("A value is of the wrong kind, or missing.")]
    WrongKind,
    /// A value is out of its range, a text is no name or word of a table, a rule has more breaches
    /// than minutes, or there are too many queues, or alarms of one queue.
    #[error("A value is out of range.")]
    OutOfRange,
    /// Two queues, or two alarms of one queue, have one name.
    #[error("A name is given twice.")]
    NameTwice,
    /// A dead-letter queue is not in the text, or is the queue itself; or an alarm's queue is not in
    /// the text.
    #[error("A target does not exist.")]
    NoSuchTarget,
    /// An allocation was refused.
    #[error("Out of memory.")]
    OutOfMemory,
}

impl ConfigFault {
    /// The fault's number: 1 to 6 in the order of the variants, and 18 for lack of memory, as among
    /// the refusals of requests.
    pub fn code(self) -> u8
        ensures { result ≡ config_fault_code self }
    {
        match self {
            ConfigFault::Syntax => 1,
            ConfigFault::UnknownKey => 2,
            ConfigFault::WrongKind => 3,
            ConfigFault::OutOfRange => 4,
            ConfigFault::NameTwice => 5,
            ConfigFault::NoSuchTarget => 6,
            ConfigFault::OutOfMemory => 18,
        }
    }

    /// The variant's name, as programs print it.
    pub fn name(self) -> &'static str
        ensures { result.now ≡ config_fault_name self }
    {
        match self {
            ConfigFault::Syntax => "Syntax",
            ConfigFault::UnknownKey => "UnknownKey",
            ConfigFault::WrongKind => "WrongKind",
            ConfigFault::OutOfRange => "OutOfRange",
            ConfigFault::NameTwice => "NameTwice",
            ConfigFault::NoSuchTarget => "NoSuchTarget",
            ConfigFault::OutOfMemory => "OutOfMemory",
        }
    }
}

impl From<AllocError> for ConfigFault {
    ghost from_gives = { λ _ fault. fault ≡ OutOfMemory };

    fn from(_refused: AllocError) -> ConfigFault {
        ConfigFault::OutOfMemory
    }
}

impl<T: Drop> From<AllocFailed<T>> for ConfigFault {
    ghost from_gives = { λ _ fault. fault ≡ OutOfMemory };

    fn from(_refused: AllocFailed<T>) -> ConfigFault {
        ConfigFault::OutOfMemory
    }
}
