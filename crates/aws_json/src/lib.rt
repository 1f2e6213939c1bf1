//! The request grammar: what a client asks and what it is answered, as JSON texts (AWS JSON 1.0,
//! Amazon SQS API Reference).
//!
//! - [`parse`]: the request that an action and a body are, or the first fault in a fixed order: the
//!   action, JSON, the kinds of all members that the action knows, at any depth, then these members
//!   one after another. A batch is a list of [`Entries`], each a queue's command or its own fault.
//! - [`reply_text`]: the JSON text of a reply. [`BatchAnswers`]: the answers to the entries of a batch, in its text.
//! - [`fault_text`] and [`status`]: the JSON text and the status of a refusal.
//! - [`explain`]: what was wrong with a request that was refused, in words.
//! - [`QueueAttribute`] and [`SystemAttribute`]: the attributes that a client asks for by their names.
//!   [`Patterns`]: which message attributes a receive asks for.
//! - [`Prefix`] and [`QueueNames`]: which queues a client lists, and which there are.
//! - [`Listed`]: a list, which contracts see as such.
//! - [`action_place`], [`action_at`], [`ACTION_COUNT`]: the actions that are served, each at its place in a table.
//! - [`read_object`]: the JSON object that a body is. [`read_queue`]: the queue that it names. [`name_part`]: what a URL says
//!   behind its last slash.
//!
//! Each contract but that of [`explain`] is exact: it names the value, or the one refusal, that a
//! definition in `specs/` computes from the bytes. Lack of memory is the one thing that may come in
//! its place.
#![tactic(auto)]

mod actions;
mod attribute_names;
mod batch;
mod batch_reply;
mod entries;
mod explanation;
mod listed;
mod members;
mod message_reply;
mod message_text;
mod named_queue;
mod put;
mod queue_reply;
mod refusal;
mod reply;
mod request;
mod requested;
mod selection;
#[cfg(test)]
mod tests;
mod text;

pub use actions::{ACTION_COUNT, action_at, action_place, parse, read_queue};
pub use attribute_names::{QueueAttribute, SystemAttribute};
pub use batch::{BatchAnswer, BatchAnswers, BatchEntry, Entries, EntryReply};
pub use explanation::explain;
pub use listed::Listed;
pub use members::read_object;
pub use named_queue::name_part;
pub use refusal::{fault_text, status};
pub use reply::{QueueNames, ReplyShape, reply_text};
pub use request::{AttributeNames, ReceiveNames, Request};
pub use selection::Patterns;
pub use text::{Prefix, Text};
