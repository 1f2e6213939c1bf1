//! What is wrong with a configuration that was refused, and where: one line for whoever wrote it.
//!
//! - [`report`]: the line for the bytes of a file and the fault that `queue_config` refused them for, as
//!   `example.toml:7: [[queue]] "jobs": delay_seconds = 901 is not in 0 to 900`.
//! - [`without_controls`]: a text without its control characters, for a terminal.
//!
//! It reads the bytes anew and judges the tree that `toml` makes of them, in the order of
//! `docs/PROFILE.md`, section 19, until something is wrong. Where the fault of that is another than the
//! one that was told, it says nothing. A tree knows no lines, so that the text is walked with
//! `toml_parser` until what is wrong comes. That takes time and memory, and is for a program that ends.
//!
//! What the file said is shown with its control characters escaped, and never more than 200 characters
//! of it. Every function is proved safe and to end, on any bytes, and no line to have a control character.
//! What a line says is shown by tests, and by no contract.
#![tactic(auto)]

mod explaining;
mod finding;
mod judging;
mod kind;
mod known;
mod line;
mod nearest;
mod spot;
#[cfg(test)]
mod tests;
mod together;
mod told;
mod walk;

pub use explaining::{report, without_controls};
