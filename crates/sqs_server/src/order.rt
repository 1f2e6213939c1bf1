//! Orders for queues, and what becomes of each.

ghost use Rattle.std.specs.Prelude.{◌≡◌, IfOk, IfSome};
ghost use Rattle.std.specs.Arc.{arc_value};
ghost use Rattle.futures.specs.Channel.{completed_source};
ghost use Rattle.sqs_server.specs.Orders.{IsMadeFor};

use counted_slot::{Counted, FREE, Fits, TAKEN};
use futures::channel::oneshot;
use futures::channel::oneshot::{Receiver, Sender};
use journal::Moment;
use message::{Fault, QueueName};
use queue_actor::ServedMark;
use queue_config::Settings;
use std::alloc::{AllocError, Global};
use std::marker::Model;
use std::sync::Arc;

/// A queue that is to be there: its name, its settings, and the moment of the request.
#[derive(Clone, Copy, Debug)]
pub struct OrderedQueue {
    pub name: QueueName,
    pub settings: Settings,
    pub at: Moment,
}

/// What became of an order: the mark of its queue, which was added to those that are served, or why there is none.
#[derive(Drop)]
pub struct Made {
    pub outcome: Result<ServedMark, Fault>,
}

/// It fits a place that was made for its order.
impl Fits for Made {
    ghost use Rattle.sqs_server.specs.Orders.{IsMadeFor};

    type Tag = OrderedQueue;

    ghost fits = { IsMadeFor };
}

/// Where it lies between who makes queues and who ordered one.
type Cell = Arc<Counted<Option<Made>>>;

/// Where it goes. Contracts see what was ordered, and the source of the place where it is awaited.
#[derive(Drop)]
pub struct MadeSlot {
    cell: Cell,
    tells: Sender<()>,
}

impl Model for MadeSlot {
    ghost use Rattle.std.specs.Arc.{arc_value};
    ghost use Rattle.futures.specs.Channel.{canceled_source};
    ghost use Rattle.sqs_server.specs.Orders.{AwaitedQueue};

    ghost Value = { AwaitedQueue };

    ghost view = { λ s. record { ordered = arc_value s.cell; source = canceled_source s.tells } };
}

impl MadeSlot {
    /// Gives what became of the order that the slot was made for.
    pub(crate) fn give(self, made: Made)
        requires { IsMadeFor self.ordered made }
    {
        let MadeSlot { cell, tells } = self;
        let (found, claim) = cell.turn(FREE, TAKEN);
        if found != FREE {
            claim.done();
            return;
        }
        drop(claim.put(Some(made), FREE));
        let _ = tells.send(());
    }
}

/// Where it comes, and how it is told that it came.
#[derive(Drop)]
pub struct MadePlace {
    cell: Cell,
    pub(crate) told: Receiver<()>,
}

impl MadePlace {
    /// Takes it, where it was given.
    pub(crate) fn take(&self) -> Option<Made>
        ensures { IfSome result (IsMadeFor (arc_value self.now.cell)) }
    {
        let (found, claim) = self.cell.turn(FREE, TAKEN);
        if found != FREE {
            claim.done();
            return None;
        }
        claim.put(None, FREE)
    }
}

/// The slot for what becomes of an order, and the place where it comes.
pub(crate) fn slot_and_place(
    alloc: Global,
    ordered: &OrderedQueue,
) -> Result<(MadeSlot, MadePlace), AllocError>
    ensures slot { IfOk result (λ both. both.0.ordered ≡ ordered.now) }
    ensures place { IfOk result (λ both. arc_value both.1.cell ≡ ordered.now) }
    ensures source { IfOk result (λ both. both.0.source ≡ completed_source both.1.told) }
{
    let cell = Arc::new(alloc, Counted::new(None, ordered))?;
    let other = Arc::try_clone(&cell)?;
    let (tells, told) = oneshot::channel(alloc)?;
    Ok((MadeSlot { cell, tells }, MadePlace { cell: other, told }))
}

/// An order, and where it is told what became of it. By its type the slot was made for such an order.
#[derive(Drop)]
pub struct Order {
    pub ordered: OrderedQueue,
    pub slot: MadeSlot,
    pub ghost own: { slot.ordered ≡ ordered },
}
