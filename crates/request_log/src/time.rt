//! The time of day as a text.

ghost use Rattle.std.specs.Prelude.{◌≡◌, Ok, string_bytes};
ghost use Rattle.message.specs.Fault.{Meets};
ghost use Rattle.aws_json.specs.Steps.{result_map};
ghost use Rattle.request_log.specs.Line.{time_of_day, two_digits, three_digits};

use journal::Moment;
use message::Fault;
use std::alloc::Global;

/// The last two decimal digits of a number.
fn two_digits(alloc: Global, number: u64) -> Result<String, Fault>
    ensures { Meets (result_map (λ s. string_bytes s) result) (Ok (two_digits number)) }
{
    let ten = number / 10 % 10;
    let one = number % 10;
    Ok(format!(in alloc; "{ten}{one}")?)
}

/// The last three.
fn three_digits(alloc: Global, number: u64) -> Result<String, Fault>
    ensures { Meets (result_map (λ s. string_bytes s) result) (Ok (three_digits number)) }
{
    let hundred = number / 100 % 10;
    let others = two_digits(alloc, number)?;
    Ok(format!(in alloc; "{hundred}{others}")?)
}

/// The time of day at a moment since 1970, to the millisecond, as 12:03:04.123Z (UTC).
pub(crate) fn time_of_day(alloc: Global, at: Moment) -> Result<String, Fault>
    ensures { Meets (result_map (λ s. string_bytes s) result) (Ok (time_of_day at)) }
{
    let at = at.milliseconds();
    let hours = two_digits(alloc, at / 3_600_000 % 24)?;
    let minutes = two_digits(alloc, at / 60_000 % 60)?;
    let seconds = two_digits(alloc, at / 1000 % 60)?;
    let milliseconds = three_digits(alloc, at % 1000)?;
    Ok(format!(in alloc; "{hours}:{minutes}:{seconds}.{milliseconds}Z")?)
}
