//! What is said of arguments that a program does not start with.

ghost use Rattle.std.specs.Prelude.{◌≡◌, Some, None, IfOk, IfErr, IfSome, option_map, string_bytes};
ghost use Rattle.std.specs.Vec.Iter.{into_iter_items};
ghost use Rattle.startup.specs.Misuse.{first_of, unknown_text, option_text, misuse_text};
ghost use Rattle.startup.specs.Option.{option_of};

use crate::ending::{Ending, StartFault};
use crate::option::{ProgramOption, option_of};
use config_report::without_controls;
use std::alloc::{AllocError, Global};
use std::{env, io};

/// The first argument behind the program's own name; none where the arguments cannot be read.
pub fn first_argument(arguments: io::Result<env::Args>) -> Option<String>
    ensures given { IfOk arguments (λ given. result ≡ first_of (into_iter_items given)) }
    ensures unread { IfErr arguments (λ _. result ≡ None) }
{
    let mut arguments = arguments.ok()?;
    let _program = arguments.next();
    arguments.next()
}

/// What is said of an option that no program has.
fn unknown_line(alloc: Global, option: &str) -> Result<String, AllocError>
    ensures { IfOk result (λ line. string_bytes line ≡ unknown_text option.now) }
{
    let line = format!(in alloc; "there is no option {option}; --help explains")?;
    without_controls(alloc, line.as_str())
}

/// What is said of a first argument that is an option which no program has.
fn unknown_option(alloc: Global, first: &str) -> Option<String>
    ensures { IfSome result (λ line. Some (string_bytes line) ≡ option_text first.now (option_of first.now)) }
{
    match option_of(first) {
        Some(ProgramOption::Unknown) => unknown_line(alloc, first).ok(),
        _ => None,
    }
}

/// The end of a program that does not start by its arguments, of which this is the first: besides, which option there is
/// not.
pub fn misused(alloc: Global, first: Option<&str>, fault: StartFault) -> Ending<StartFault>
    ensures refusal { result.refusal ≡ fault }
    ensures more { IfSome result.more (λ line. Some (string_bytes line) ≡ misuse_text fault (option_map (λ s. s.now) first.entry)) }
{
    let more = match (fault, first) {
        (StartFault::Usage, Some(first)) => unknown_option(alloc, first),
        _ => None,
    };
    Ending {
        refusal: fault,
        more,
    }
}
