//! The statistics of queues as a resource: paths, methods and texts (this project's own).
//!
//! - [`answer`]: the status and the text that a request is answered.
//! - [`respond`]: what the port of the statistics answers: the page, the metrics and the word on its health too.
//!   [`asked_for`]: the queues whose statistics that takes. [`ServerFacts`]: what a server tells of itself.
//! - [`AnswerText`]: a text that was written, or a constant.
//! - [`sheet_text`], [`sheets_text`], [`rows_text`], [`alarms_text`]: the texts alone.
//! - The function of [`laws`] is empty: its contract is a law about the definitions in `specs/`.
//!
//! The contracts say each text exactly, and which path, method and queue it is the answer to.
#![tactic(auto)]

mod asked;
pub mod laws;
mod measure;
mod metrics;
mod order;
mod page;
mod port;
mod put;
mod replies;
mod routes;
mod served;
#[cfg(test)]
mod tests;
mod text;
mod texts;
mod values;

pub use asked::{AskedSheets, asked_for};
pub use metrics::metrics_text;
pub use page::PAGE;
pub use port::{Response, out_of_memory, respond};
pub use replies::answer;
pub use served::{Requested, ServerFacts};
pub use text::AnswerText;
pub use texts::{alarms_text, rows_text, sheet_text, sheets_text};
