//! Lines of the replay's input (this project's own format): a moment, a space, an action, a space,
//! and the body.

ghost use Rattle.std.specs.Prelude.{◌≡◌, ℕ, List, Ok, position};
ghost use Rattle.aws_json.specs.Steps.{result_map};
ghost use Rattle.sqs_replay.specs.InputLine.{is_space, cut, moment_read, is_action, action_of, LineParts, parts_of, input_line_of, IsInputLine};
ghost use Rattle.message.specs.Name.{is_letter};
ghost use Rattle.std.specs.List.{list_all};

use journal::Moment;
use message::Fault;
use queue_config::decimal_number;

/// How many digits a moment has at most.
const MOMENT_DIGITS: usize = 19;

/// How many letters an action has at most.
const ACTION_LIMIT: usize = 64;

/// A line of the input: when something is asked, what is asked, and the
/// body of the request as it was given.
#[derive(Clone, Copy, Debug, PartialEq, Eq)]
pub struct InputLine<'a> {
    pub at: Moment,
    pub action: &'a str,
    pub body: &'a [u8],
}

/// Where the first space stands.
fn first_space(text: &[u8]) -> Option<usize>
    ensures { result ≡ position is_space text.now }
{
    text.iter().position(|byte| *byte == b' ')
}

/// What stands before the first space, and what stands after it.
fn cut(text: &[u8]) -> Result<(&[u8], &[u8]), Fault>
    ensures { result_map (λ parts. (parts.0.now, parts.1.now)) result ≡ cut text.now }
{
    match first_space(text) {
        Some(place) => Ok((&text[..place], &text[place + 1..])),
        None => Err(Fault::SerializationException),
    }
}

/// The moment that 1 to 19 decimal digits are, below 2^62.
fn read_moment(text: &[u8]) -> Result<Moment, Fault>
    ensures { result ≡ moment_read text.now }
{
    let Ok(text) = str::from_utf8(text) else {
        return Err(Fault::SerializationException);
    };
    let Some(milliseconds) = decimal_number(text, MOMENT_DIGITS) else {
        return Err(Fault::SerializationException);
    };
    Moment::new(milliseconds).ok_or(Fault::SerializationException)
}

/// Whether every byte is an ASCII letter.
fn has_letters_alone(text: &[u8]) -> bool
    ensures { result ≡ list_all is_letter text.now }
{
    text.iter().all(|byte| byte.is_ascii_alphabetic())
}

/// Whether the bytes are 1 to 64 ASCII letters.
fn is_action(text: &[u8]) -> bool
    ensures { result ≡ is_action text.now }
{
    1 <= text.len() && text.len() <= ACTION_LIMIT && has_letters_alone(text)
}

/// The action that 1 to 64 ASCII letters are.
fn read_action(text: &[u8]) -> Result<&str, Fault>
    ensures { result_map (λ action. action.now) result ≡ action_of text.now }
{
    if !is_action(text) {
        return Err(Fault::SerializationException);
    }
    match str::from_utf8(text) {
        Ok(text) => Ok(text),
        Err(_) => unreachable!(),
    }
}

/// The parts of a line, without the line feed that ended it. A line of another form is a
/// `SerializationException`. The body may be any bytes.
pub fn read_line(line: &[u8]) -> Result<InputLine<'_>, Fault>
    ensures { result_map parts_of result ≡ input_line_of line.now }
{
    let (moment, rest) = cut(line)?;
    let (action, body) = cut(rest)?;
    let at = read_moment(moment)?;
    let action = read_action(action)?;
    Ok(InputLine { at, action, body })
}

/// What [`read_line`] reads, as a relation: decimal digits, a space, letters, a space and the body
/// are read, and nothing else is.
pub fn line_form()
    ensures form { (line : List ℕ) → (parts : LineParts)
        → input_line_of line ≡ Ok parts → IsInputLine line parts }
    ensures reads { (line : List ℕ) → (parts : LineParts)
        → IsInputLine line parts → input_line_of line ≡ Ok parts }
{}
