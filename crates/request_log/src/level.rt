//! Which requests get a line.

ghost use Rattle.std.specs.Prelude.{◌≡◌};
ghost use Rattle.request_log.specs.Level.{level_named, tells};

/// Which requests get a line.
#[derive(Clone, Copy, Debug, PartialEq, Eq)]
pub enum Level {
    /// Those that were refused, whole or in an entry.
    Refused,
    /// All.
    All,
    /// None.
    Nothing,
}

impl Level {
    /// The level that a word names.
    pub fn named(word: &str) -> Option<Level>
        ensures { result ≡ level_named word.now }
    {
        match word {
            "refused" => Some(Level::Refused),
            "all" => Some(Level::All),
            "none" => Some(Level::Nothing),
            _ => None,
        }
    }

    /// Whether a request gets a line, by whether it was refused.
    pub fn tells(self, is_refused: bool) -> bool
        ensures { result ≡ tells self is_refused }
    {
        match self {
            Level::Refused => is_refused,
            Level::All => true,
            Level::Nothing => false,
        }
    }
}
