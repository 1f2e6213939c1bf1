//! Queues that are opened and served.

ghost use Rattle.std.specs.Prelude.{◌≡◌, IfOk};
ghost use Rattle.std.specs.Arc.{arc_value};
ghost use Rattle.std.specs.Option.{option_map_or};
ghost use Rattle.queue_core.specs.Queue.{policy_target};

use crate::types::{Client, Place};
use crossbeam_channel::unbounded;
use desk::{Desk, NoPress, Pass};
use journal::Moment;
use message::{Fault, QueueName};
use queue_actor::{Actor, Duties, Envelope, Served};
use queue_config::{Limits, Settings};
use queue_core::QueueState;
use std::alloc::Global;
use std::snapshot::Snapshot;
use std::sync::Arc;

/// A desk to be shared, its first pass, and its queue as it was opened.
type Fresh = (Arc<Desk<NoPress>>, Pass<NoPress>, Snapshot<QueueState>);

/// A desk of a queue that was opened at 0 under a uid and a name.
fn opened(
    rt: &HostRuntime,
    alloc: Global,
    uid: u64,
    name: QueueName,
    settings: Settings,
    limits: Limits,
) -> Result<Fresh, Fault>
    ensures desk { IfOk result (λ r. r.1.desk ≡ arc_value r.0) }
    ensures start { IfOk result (λ r. r.2.value ≡ r.1.start) }
    ensures queue { IfOk result (λ r. (r.1.start.uid ≡ uid) × (r.1.start.name ≡ name) × (r.1.start.limits ≡ limits)) }
    ensures target { IfOk result (λ r. policy_target r.2.value ≡ option_map_or (λ p. p.target) settings.redrive_policy 0) }
{
    let rules = Vec::new(alloc);
    let state = QueueState::open(alloc, uid, name, settings, limits, rules, Moment::zero())?;
    let start = Snapshot::of(&state);
    let (desk, pass) = Desk::new(rt, alloc, state, NoPress)?;
    Ok((Arc::new(alloc, desk)?, pass, start))
}

/// A queue that is served under a uid and a name, as it was opened, and its actor's place.
pub(crate) fn served(
    rt: &HostRuntime,
    alloc: Global,
    uid: u64,
    name: QueueName,
    settings: Settings,
    limits: Limits,
) -> Result<(Client, Snapshot<QueueState>, Place), Fault>
    ensures start { IfOk result (λ r. r.1.value ≡ r.0.pass.start) }
    ensures target { IfOk result (λ r. policy_target r.1.value ≡ option_map_or (λ p. p.target) settings.redrive_policy 0) }
{
    let (mailbox, mails) = unbounded::<Envelope<NoPress>, Global>(alloc)?;
    let (desk, mut pass, start) = opened(rt, alloc, uid, name, settings, limits)?;
    let own = desk.pass(&mut pass);
    let duties = Arc::new(alloc, Duties::new())?;
    let shared = Arc::try_clone(&duties)?;
    let actor = Actor::new(Arc::try_clone(&desk)?, own, uid, limits, shared);
    let queue = Served::new(uid, name, desk, pass, mailbox, duties);
    Ok((queue, start, (actor, mails)))
}
