//! What both programs share at their start.
//!
//! - [`option_of`]: the option that an argument is, as `--help`.
//! - [`configuration_in`]: the configuration that the bytes of a file are, or why there is none.
//! - [`StartFault`]: why a program does not start; [`start_message`]: what it tells of that; [`Ending`]: that and what more
//!   there is to say.
//! - [`refusal_of_arguments`]: what an argument that is no text comes to. [`misused`]: what more is said of arguments that are
//!   refused, by the [`first_argument`].
//!
//! It reads and prints nothing: it is given what was read. The definitions stand in `specs/`.
#![tactic(auto)]

mod configuration;
mod ending;
mod misuse;
mod option;
#[cfg(test)]
mod tests;

pub use configuration::configuration_in;
pub use ending::{Ending, StartFault, refusal_of_arguments, start_message};
pub use misuse::{first_argument, misused};
pub use option::{ProgramOption, VERSION, option_of};
