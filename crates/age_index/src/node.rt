//! The nodes of the list.

use crate::link::Link;
use std::mem::size_of;

/// What stands at a slot. One that is free has no number and no links: it is as it was made.
#[derive(Debug, Drop, Clone, Copy)]
pub(crate) struct Node {
    pub(crate) number: Option<u64>,
    /// The slot of the next number below this one.
    pub(crate) before: Link,
    /// The slot of the next number above this one.
    pub(crate) after: Link,
}

// 16 bytes for the number, as any `Option<u64>`, and 4 for each link.
const _: () = prove!(size_of::<Node>() <= 24);

/// Nodes by slot, those with a number linked in the order of their numbers.
#[derive(Debug, Drop)]
pub(crate) struct Chain {
    pub(crate) nodes: Vec<Node>,
    /// The slot of the least number.
    pub(crate) first: Option<u32>,
    /// The slot of the greatest number.
    pub(crate) last: Option<u32>,
}
