//! Receipt handles: what a client shows to change or delete a message that it received.
//!
//! - [`Handle`]: which receive of which message it names. [`Handle::write`] gives its text,
//!   [`Handle::read`] the handle that a text is.
//! - [`every_handle_reads_back`], [`every_handle_has_one_text`]: laws of the format. They do
//!   nothing when they run; their contracts are theorems.
//!
//! A handle's text is 48 lower-case hex digits. The contracts promise that `write` gives exactly
//! this text and is refused for lack of memory alone, that `read` takes exactly these texts, takes
//! no memory and refuses every other text as `ReceiptHandleIsInvalid`, that what is written is read
//! back, and that no two texts are one handle. They don't promise that a handle can't be guessed,
//! and they ask no queue whether it gave the handle. The definitions stand in `specs/`.
#![tactic(auto)]

mod handle;
mod laws;
#[cfg(test)]
mod tests;

pub use handle::Handle;
pub use laws::{every_handle_has_one_text, every_handle_reads_back};
