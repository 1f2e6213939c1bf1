//! The text of an answer.

ghost use Rattle.std.specs.Prelude.{◌≡◌};
ghost use Rattle.statistics_api.specs.Text.{bytes_of};

/// The text of an answer: one that was written for it, or a constant, which takes no memory.
/// Contracts see its bytes by `bytes_of`.
#[derive(Debug, Drop)]
pub enum AnswerText {
    Written(String),
    Constant(&'static str),
}

impl AnswerText {
    /// The text.
    pub fn as_str(&self) -> &str
        ensures { result.now ≡ bytes_of self.now }
    {
        match self {
            AnswerText::Written(text) => text.as_str(),
            AnswerText::Constant(text) => text,
        }
    }
}
