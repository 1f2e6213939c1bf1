//! Which message attributes a receive asks for (Amazon SQS API Reference, `ReceiveMessage`).

ghost use Rattle.std.specs.Prelude.{◌≡◌};
ghost use Rattle.aws_json.specs.Attributes.{is_asked, is_asked_by};

use crate::listed::Listed;
use crate::text::Text;

/// The names of message attributes that a receive asks for, as a client gives them: `All` for all
/// of them, a text and `.*` for those whose names begin with the text, or a name. Contracts see the
/// list of texts.
pub type Patterns = Listed<Text>;

impl Listed<Text> {
    /// Whether an attribute of the name is asked for.
    pub fn asks(&self, name: &str) -> bool
        ensures { result ≡ is_asked self.now name.now }
    {
        is_asked(self.as_slice(), name)
    }
}

/// Whether one of the texts asks for the attribute of a name.
fn is_asked(texts: &[Text], name: &str) -> bool
    ensures { result ≡ is_asked texts.now name.now }
{
    for text in texts {
        if is_asked_by(text.as_text().as_bytes(), name.as_bytes()) {
            return true;
        }
    }
    false
}

/// Whether a text asks for the attribute of a name.
fn is_asked_by(pattern: &[u8], name: &[u8]) -> bool
    ensures { result ≡ is_asked_by pattern.now name.now }
{
    pattern == b"All".as_slice()
        || (pattern.ends_with(b".*") && name.starts_with(&pattern[..pattern.len() - 2]))
        || pattern == name
}
