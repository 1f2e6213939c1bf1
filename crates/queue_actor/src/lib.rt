//! An actor for each queue, and the futures of those who ask it.
//!
//! - [`Mail`], [`Ask`]: what an actor finds in its mailbox: a command with a pass of a desk, a tick of the
//!   clock, or its end.
//! - [`Envelope`]: mail as it goes through a channel, where the slot of an ask is the one for its question.
//! - [`AskFuture`]: sends an ask, and is the future of its answer. [`AskFault`] is why there is none.
//! - [`ask_now`]: asks a queue's desk without its actor, where the turn is free; [`Duties`] is what the actor has to
//!   do behind that.
//! - [`Answer`]: the pass, behind the call that was made with it, beside the command and the reply. [`AnswerSlot`] is
//!   where the one to a question goes.
//! - [`Outbox`]: a mailbox, as those who send see it.
//! - [`Actor`]: serves the mails of one queue, keeps polls that wait, and moves the queue's dead letters.
//! - [`Inbox`]: where its mail comes from, and where its answers go.
//! - [`Targets`]: the queues that dead letters are for, and [`Delivery`], what became of one there.
//! - [`Directory`]: which queues there are, and where each is served; [`Served`] is one of them, [`ServedMark`] shows that
//!   one was added, and [`Shown`] is the reader of one's statistics. [`dead_letter_target`] is where its dead letters go.
//! - [`deadline_loop`]: tells the queues the time.
//!
//! `Answered` in `specs/` has the words for answers. An answer's pass is of its desk, and its last call has
//! the answer's command and reply, by the type: so it holds after the answer has crossed threads too. A
//! future that waits has registered with a slot, or asked to be polled again. `Serving` relates what happens
//! at a mailbox: which mails come, and which answers are given between them. None of these answers is
//! swapped, lost, given twice, given early or of another moment, as far as the mailbox tells what happened.
//! A mailbox in memory tells all of it. One of channels tells the types alone: by these a future gives no answer
//! but the one to its own question (`Questions`).
#![tactic(auto)]

mod actor;
mod answer;
mod deadline;
mod directory;
mod duties;
mod envelope;
mod fault;
mod future;
mod inbox;
mod mail;
mod mark;
mod now;
mod outbox;
mod parcels;
mod readers;
mod slot;
#[cfg(test)]
mod tests;

pub use actor::Actor;
pub use answer::Answer;
pub use deadline::{Beat, Bells, TICK_MILLISECONDS, deadline_loop};
pub use directory::{Directory, Served, dead_letter_target};
pub use duties::Duties;
pub use envelope::Envelope;
pub use fault::AskFault;
pub use future::AskFuture;
pub use inbox::Inbox;
pub use mail::{Ask, Mail};
pub use mark::ServedMark;
pub use now::{Unasked, ask_now, is_for_actor};
pub use outbox::Outbox;
pub use parcels::{Delivery, Targets};
pub use readers::Shown;
pub use slot::AnswerSlot;
