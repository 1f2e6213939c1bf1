//! The characters that messages may have.

ghost use Rattle.std.specs.Prelude.{◌≡◌};
ghost use Rattle.message.specs.Characters.{is_message_character, is_message_text};

/// Whether messages may have the character (W3C XML 1.0, `Char`, as the Amazon SQS API Reference
/// has it for message bodies).
fn is_message_character(character: char) -> bool
    ensures { result ≡ is_message_character character }
{
    matches!(
        character,
        '\t' | '\n' | '\r' | ' '..='\u{D7FF}' | '\u{E000}'..='\u{FFFD}' | '\u{10000}'..='\u{10FFFF}'
    )
}

/// Whether messages may have all characters of the text.
pub(crate) fn is_message_text(text: &str) -> bool
    ensures { result ≡ is_message_text text.now }
{
    text.chars()
        .all(|character| is_message_character(character))
}
