//! What every other crate speaks of: the faults, queue names, message ids and message contents.
//!
//! - [`Fault`]: the twenty refusals, each with its number, its status, its name and its text, which
//!   `Display` writes.
//! - [`QueueName`]: 1 to 80 ASCII letters, digits, hyphens and underscores, checked once by
//!   [`QueueName::read`].
//! - [`Content`]: a body and its attributes, checked once by [`Content::new`] and shared without
//!   copying by [`Content::share`]. Contracts see the body's bytes and the attributes, and count
//!   its size in bytes. [`body_fault`] judges a body alone.
//! - [`Attribute`]: a name, a type text and a value, which any texts may be until a content takes
//!   them. A content has at most ten, of different names, in the byte order of these, and each has
//!   passed the rules for its name, its type and its value. [`Attribute::copy`] gives one again to
//!   readers that pick some of a content's attributes, and [`is_binary_type`] tells which types have
//!   raw bytes.
//! - [`MessageId`]: the number of a message in the queue that it was first sent to, and its text as
//!   a UUID.
//!
//! Each contract is exact: what is accepted, which refusal comes first otherwise, and the value. What
//! is at fault is refused without memory: `OutOfMemory` comes only in the place of a value. The
//! definitions stand in `specs/`.
#![tactic(auto)]

mod attribute;
mod attributes;
mod characters;
mod content;
mod fault;
mod id;
mod name;
#[cfg(test)]
mod tests;

pub use attribute::{Attribute, AttributeValue, is_binary_type};
pub use content::{Content, body_fault};
pub use fault::Fault;
pub use id::MessageId;
pub use name::{NAME_LIMIT, QueueName};
