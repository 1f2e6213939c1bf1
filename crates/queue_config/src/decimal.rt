//! Numbers written in decimal digits.

ghost use Rattle.std.specs.Prelude.{◌≡◌, ◌≤◌};
ghost use Rattle.std.specs.Char.{is_ascii_digit};
ghost use Rattle.std.specs.List.{list_all};
ghost use Rattle.queue_config.specs.Decimal.{decimal_of};

/// Whether every byte is a decimal digit.
fn has_digits_alone(text: &[u8]) -> bool
    ensures { result ≡ list_all is_ascii_digit text.now }
{
    text.iter().all(|byte| byte.is_ascii_digit())
}

/// The number that a text of 1 to `most` decimal digits is. Leading zeros are fine; a sign, a blank
/// or any other character is not. `most` is at most 19, so that the number fits 64 bits.
pub fn decimal_number(text: &str, most: usize) -> Option<u64>
    requires { most ≤ 19 }
    ensures { result ≡ decimal_of most text.now }
{
    let digits = text.as_bytes();
    if digits.is_empty() || most < digits.len() || !has_digits_alone(digits) {
        return None;
    }
    text.parse::<u64>().ok()
}
