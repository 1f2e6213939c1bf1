//! How a queue comes to be served: it gets a uid, a desk, a mailbox, and an actor in a thread of its own.
//! Queues that clients create are made by one thread, so that no poll has to start a thread.

ghost use Rattle.std.specs.Prelude.{◌≡◌, nat_le, [], IfErr, IfOk};
ghost use Rattle.std.specs.Arc.{arc_value};
ghost use Rattle.board.specs.Printed.{place_of};
ghost use Rattle.board.specs.Queue.{sheet_of};
ghost use Rattle.desk.specs.Views.{first_pass};
ghost use Rattle.message.specs.declared.fault.Fault.TheVariants.{OutOfMemory};
ghost use Rattle.queue_config.specs.Config.{rules_of};
ghost use Rattle.queue_core.specs.Kept.{opened_queue};
ghost use Rattle.sqs_server.specs.Configured.{AreOpenedInOrder};
ghost use Rattle.sqs_server.specs.Orders.{IsMadeFor, IsUnmade};

use crate::clock::Day;
use crate::order::{Made, Order, OrderedQueue};
use board::{Publisher, Reader, Sheet, board};
use crossbeam_channel::{Receiver, Sender, unbounded};
use desk::{Desk, NoGate, Pass};
use journal::Moment;
use message::{Fault, QueueName};
use queue_actor::{
    Actor, Beat, Directory, Duties, Envelope, Served, ServedMark, Shown, TICK_MILLISECONDS,
    dead_letter_target, deadline_loop,
};
use queue_config::{
    AlarmRule, Config, ConfiguredAlarm, ConfiguredQueue, Limits, Settings, rules_of,
};
use queue_core::QueueState;
use std::alloc::Global;
use std::snapshot::Snapshot;
use std::sync::{Arc, Wait};
use std::thread;
use std::thread::Threads;
use std::time::{Clock, Duration};

/// What prints the turns of a queue, for the readers of its statistics.
pub type Printer<R> = Publisher<R>;

/// Where mail for an actor is put.
pub type Mailbox<R> = Sender<Envelope<Printer<R>>>;

/// A queue as a request has it at hand: its desk, a pass of that desk, and the mailbox and the duties of its actor.
#[derive(Drop)]
pub struct Queue<R: Wait + Drop> {
    pub uid: u64,
    pub desk: Arc<Desk<Printer<R>>>,
    pub pass: Pass<Printer<R>>,
    pub mailbox: Mailbox<R>,
    pub duties: Arc<Duties>,
    pub ghost together: { pass.desk ≡ arc_value desk },
}

impl<R: Wait + Drop> Queue<R> {
    /// The queue of these parts.
    pub fn new(
        uid: u64,
        desk: Arc<Desk<Printer<R>>>,
        pass: Pass<Printer<R>>,
        mailbox: Mailbox<R>,
        duties: Arc<Duties>,
    ) -> Queue<R>
        requires { pass.desk ≡ arc_value desk }
        ensures { (result.uid ≡ uid) × (result.desk ≡ desk) × (result.pass ≡ pass) }
    {
        Queue {
            uid,
            desk,
            pass,
            mailbox,
            duties,
        }
    }

    /// A queue that was found in the directory.
    pub fn of(served: Served<Printer<R>>) -> Queue<R>
        ensures { (result.uid ≡ served.uid) × (result.desk ≡ served.desk) × (result.pass ≡ served.pass) }
    {
        let Served {
            uid,
            name: _,
            desk,
            pass,
            mailbox,
            duties,
        } = served;
        Queue::new(uid, desk, pass, mailbox, duties)
    }
}

/// How many mails may wait for the actor of a queue, and how many orders for new queues, before requests are
/// turned away: each may be as long as a request, and stays where its client has left. This project's own choice.
pub const MAIL_LIMIT: usize = 1_000;

/// Whether as many mails wait as may wait.
pub(crate) fn is_full(waiting: usize) -> bool
    ensures { result ≡ nat_le 1000 waiting }
{
    MAIL_LIMIT <= waiting
}

/// The queues that are served.
pub type Queues<R> = Directory<Printer<R>>;

/// The time of day, looked at every so often.
#[derive(Drop)]
struct Ticking<C> {
    clock: C,
    day: Arc<Day>,
}

impl<C: Clock> Beat for Ticking<C> {
    // Of the time of day no contract knows anything.
    ghost ticks = { λ _ _ _. Unit {0} };

    fn next(&mut self) -> Option<Moment> {
        thread::sleep(&self.clock, Duration::from_millis(TICK_MILLISECONDS));
        Some(self.day.moment(&self.clock))
    }
}

/// A queue that is to be there.
#[derive(Debug, Drop)]
struct NewQueue {
    name: QueueName,
    settings: Settings,
    rules: Vec<AlarmRule>,
}

/// The queues that are served, where more of them are ordered, the time of day that they are told, and the marks of the
/// configured ones, in the order of the configuration.
#[derive(Drop)]
pub struct Opened<R: Wait + Drop> {
    pub queues: Arc<Queues<R>>,
    pub orders: Sender<Order>,
    pub day: Arc<Day>,
    pub marks: Vec<ServedMark>,
}

/// How often an actor that has ended looks whether it has its queue alone.
const LINGERS: u64 = 1000;

/// How long it waits in between, in milliseconds.
const LINGER_MILLISECONDS: u64 = 10;

/// An actor and what its thread works with.
#[derive(Drop)]
pub struct Serving<R: Wait + Drop> {
    rt: R,
    alloc: Global,
    actor: Actor<Printer<R>>,
    mails: Receiver<Envelope<Printer<R>>>,
    queues: Arc<Queues<R>>,
}

impl<R: Wait + Clock + Copy + Drop> Serving<R> {
    /// Serves the queue until its mailbox ends. Then it waits until who asked it last has let go of it: so the memory
    /// of what lies in it goes here, and holds up no request.
    fn run(self) {
        let Serving {
            rt,
            alloc,
            mut actor,
            mut mails,
            queues,
        } = self;
        actor.run(&rt, alloc, &mut mails, &*queues, &NoGate);
        drop(mails);
        for _ in 0..LINGERS {
            if Arc::strong_count(&actor.desk) <= 1 {
                return;
            }
            thread::sleep(&rt, Duration::from_millis(LINGER_MILLISECONDS));
        }
    }
}

/// Starts the thread of an actor. A thread that cannot be started is `OutOfMemory`.
fn start_actor<R: Wait + Threads + Clock + Copy + Send + Drop + 'static>(
    rt: &R,
    alloc: Global,
    actor: Actor<Printer<R>>,
    mails: Receiver<Envelope<Printer<R>>>,
    queues: Arc<Queues<R>>,
) -> Result<(), Fault>
    ensures { IfErr result (λ fault. fault ≡ OutOfMemory) }
{
    let serving = Serving {
        rt: *rt,
        alloc,
        actor,
        mails,
        queues,
    };
    match thread::spawn(rt, move || serving.run()) {
        Ok(_thread) => Ok(()),
        Err(_refused) => Err(Fault::OutOfMemory),
    }
}

/// A press for the turns of a queue that was opened at a moment, and the one reader of its board. `OutOfMemory` is
/// the only refusal.
fn open_board<R: Wait + Copy + Drop>(
    rt: &R,
    alloc: Global,
    queue: &QueueState,
    at: Moment,
) -> Result<(Printer<R>, Reader), Fault>
    requires { at ≡ queue.now.clock }
    ensures none { IfOk result (λ made. made.0.turns ≡ []) }
    ensures book { IfOk result (λ made. made.1.book ≡ made.0.book) }
    ensures given { IfOk result (λ made. made.1.given ≡ sheet_of queue.now) }
    ensures errors { IfErr result (λ fault. fault ≡ OutOfMemory) }
{
    let sheet = Sheet::of(alloc, queue, at)?;
    let (printer, mut readers) = board(alloc, *rt, &sheet, 1)?;
    match readers.pop() {
        Some(reader) => Ok((printer, reader)),
        None => Err(Fault::OutOfMemory),
    }
}

/// A queue that was opened: its desk, a pass of it, the reader of its statistics, and two snapshots of it as it was then,
/// which take no bytes.
#[derive(Drop)]
struct OpenDesk<R: Wait + Drop> {
    desk: Desk<Printer<R>>,
    pass: Pass<Printer<R>>,
    reader: Reader,
    shown: Snapshot<QueueState>,
    opened: Snapshot<QueueState>,
}

/// Opens a queue at a moment, on a desk, and a board for its statistics. `OutOfMemory` is the only refusal.
fn open_desk<R: Wait + Copy + Drop>(
    rt: &R,
    host: &HostRuntime,
    alloc: Global,
    uid: u64,
    new: NewQueue,
    limits: Limits,
    at: Moment,
) -> Result<OpenDesk<R>, Fault>
    ensures ok { IfOk result (λ made. made.pass ≡ first_pass made.desk (opened_queue uid new.name new.settings limits new.rules.items at) (place_of made.reader.book)) }
    ensures given { IfOk result (λ made. made.reader.given ≡ sheet_of (opened_queue uid new.name new.settings limits new.rules.items at)) }
    ensures opened { IfOk result (λ made. (made.shown.value ≡ opened_queue uid new.name new.settings limits new.rules.items at) × (made.opened.value ≡ opened_queue uid new.name new.settings limits new.rules.items at)) }
    ensures errors { IfErr result (λ fault. fault ≡ OutOfMemory) }
{
    let state = QueueState::open(alloc, uid, new.name, new.settings, limits, new.rules, at)?;
    let (shown, opened) = (Snapshot::of(&state), Snapshot::of(&state));
    let (printer, reader) = open_board(rt, alloc, &state, at)?;
    let (desk, pass) = Desk::new(host, alloc, state, printer)?;
    Ok(OpenDesk {
        desk,
        pass,
        reader,
        shown,
        opened,
    })
}

/// What an actor and those who ask it are given beside its desk: both ends of its mailbox, its duties twice, and the
/// directory.
#[derive(Drop)]
struct ActorParts<R: Wait + Drop> {
    mailbox: Mailbox<R>,
    mails: Receiver<Envelope<Printer<R>>>,
    duties: Arc<Duties>,
    shared: Arc<Duties>,
    queues: Arc<Queues<R>>,
}

/// An empty mailbox, duties that are none yet, and the directory once more. `OutOfMemory` is the only refusal.
fn actor_parts<R: Wait + Drop>(
    alloc: Global,
    queues: &Arc<Queues<R>>,
) -> Result<ActorParts<R>, Fault>
    ensures errors { IfErr result (λ fault. fault ≡ OutOfMemory) }
{
    let (mailbox, mails) = unbounded::<Envelope<Printer<R>>, Global>(alloc)?;
    let duties = Arc::new(alloc, Duties::new())?;
    let shared = Arc::try_clone(&duties)?;
    Ok(ActorParts {
        mailbox,
        mails,
        duties,
        shared,
        queues: Arc::try_clone(queues)?,
    })
}

/// Opens a queue at a moment under a uid that was entered, and serves it. Its mark comes back.
#[tactic(auto, using(crate::proofs::OrderLemmas::memory_unmade))]
fn start_queue<R: Wait + Threads + Clock + Copy + Send + Drop + 'static>(
    rt: &R,
    host: &HostRuntime,
    alloc: Global,
    queues: &Arc<Queues<R>>,
    uid: u64,
    new: NewQueue,
    at: Moment,
) -> Result<ServedMark, Fault>
    ensures opened { IfOk result (λ opened. opened ≡ opened_queue uid new.name new.settings (arc_value queues.now) new.rules.items at) }
    ensures errors { IfErr result IsUnmade }
{
    let name = new.name;
    let target = dead_letter_target(&new.settings);
    let limits = queues.limits();
    let ActorParts {
        mailbox,
        mails,
        duties,
        shared,
        queues: others,
    } = actor_parts(alloc, queues)?;
    let OpenDesk {
        desk,
        mut pass,
        reader,
        shown,
        opened,
    } = open_desk(rt, host, alloc, uid, new, limits, at)?;
    let own = desk.pass(&mut pass);
    let desk = Arc::new(alloc, desk)?;
    let asked = Arc::try_clone(&desk)?;
    let actor = Actor::new(asked, own, uid, limits, shared);
    start_actor(rt, alloc, actor, mails, others)?;
    queues.show(rt, Shown::new(uid, name, reader, shown))?;
    let queue = Served::new(uid, name, desk, pass, mailbox, duties);
    Ok(queues.serve(rt, alloc, queue, target, opened)?)
}

/// Makes a queue at a moment. `QueueNameExists` where its name is there, `OverLimit` where there are as
/// many queues as there may be, `QueueDoesNotExist` where its name was taken out meanwhile, and `OutOfMemory` also where
/// its thread cannot be started. A refused queue leaves no name. The mark of one that is served comes back.
fn make_queue<R: Wait + Threads + Clock + Copy + Send + Drop + 'static>(
    rt: &R,
    host: &HostRuntime,
    alloc: Global,
    queues: &Arc<Queues<R>>,
    new: NewQueue,
    at: Moment,
) -> Result<ServedMark, Fault>
    ensures opened { IfOk result (λ opened. (uid : _) × (opened ≡ opened_queue uid new.name new.settings (arc_value queues.now) new.rules.items at)) }
    ensures errors { IfErr result IsUnmade }
{
    let uid = queues.enter(rt, alloc, new.name)?;
    let started = start_queue(rt, host, alloc, queues, uid, new, at);
    if started.is_err() {
        queues.remove(rt, uid);
    }
    started
}

/// A configured queue, as it is to be made at its place, counted from 1. `OutOfMemory` is the only refusal.
fn configured(
    alloc: Global,
    queue: ConfiguredQueue,
    alarms: &[ConfiguredAlarm],
    place: u64,
) -> Result<NewQueue, Fault>
    ensures ok { IfOk result (λ new. (new.name ≡ queue.name) × (new.settings ≡ queue.settings) × (new.rules.items ≡ rules_of alarms.now place)) }
    ensures errors { IfErr result (λ fault. fault ≡ OutOfMemory) }
{
    Ok(NewQueue {
        name: queue.name,
        settings: queue.settings,
        rules: rules_of(alloc, alarms, place)?,
    })
}

/// Makes the configured queues at a moment, in their order. Their marks come back.
fn make_configured<R: Wait + Threads + Clock + Copy + Send + Drop + 'static>(
    rt: &R,
    host: &HostRuntime,
    alloc: Global,
    queues: &Arc<Queues<R>>,
    config: &Config,
    at: Moment,
) -> Result<Vec<ServedMark>, Fault>
    ensures served { IfOk result (λ marks. AreOpenedInOrder config.now (arc_value queues.now) at marks.items) }
{
    let mut marks = Vec::new(alloc);
    let mut place = 0u64;
    for queue in config.queues.as_slice() {
        place += 1;
        let new = configured(alloc, *queue, config.alarms.as_slice(), place)?;
        marks.push(make_queue(rt, host, alloc, queues, new, at)?)?;
    }
    Ok(marks)
}

/// Starts the thread that tells the queues the time.
fn start_clock<R: Wait + Threads + Clock + Copy + Send + Drop + 'static>(
    rt: &R,
    alloc: Global,
    queues: Arc<Queues<R>>,
    day: Arc<Day>,
) -> Result<(), Fault> {
    let own = *rt;
    let telling = thread::spawn(rt, move || {
        deadline_loop(&own, alloc, &*queues, &mut Ticking { clock: own, day })
    });
    match telling {
        Ok(_thread) => Ok(()),
        Err(_refused) => Err(Fault::OutOfMemory),
    }
}

/// What the thread works with that makes queues.
#[derive(Drop)]
pub struct Maker<R: Wait + Drop> {
    rt: R,
    host: HostRuntime,
    alloc: Global,
    queues: Arc<Queues<R>>,
    orders: Receiver<Order>,
}

impl<R: Wait + Threads + Clock + Copy + Send + Drop + 'static> Maker<R> {
    /// What becomes of an order.
    fn made(&self, ordered: OrderedQueue) -> Made
        ensures { IsMadeFor ordered result }
    {
        let new = NewQueue {
            name: ordered.name,
            settings: ordered.settings,
            rules: Vec::new(self.alloc),
        };
        let at = ordered.at;
        let outcome = make_queue(&self.rt, &self.host, self.alloc, &self.queues, new, at);
        Made { outcome }
    }

    /// Makes the queues that are ordered, one after another, until nobody can order any more.
    fn run(self) {
        for _ in self.rt.forever() {
            let Ok(Order { ordered, slot }) = self.orders.recv(&self.rt) else {
                return;
            };
            slot.give(self.made(ordered));
        }
    }
}

/// Starts the thread that makes queues.
fn start_maker<R: Wait + Threads + Clock + Copy + Send + Drop + 'static>(
    rt: &R,
    host: &HostRuntime,
    alloc: Global,
    queues: Arc<Queues<R>>,
    orders: Receiver<Order>,
) -> Result<(), Fault> {
    let maker = Maker {
        rt: *rt,
        host: *host,
        alloc,
        queues,
        orders,
    };
    match thread::spawn(rt, move || maker.run()) {
        Ok(_thread) => Ok(()),
        Err(_refused) => Err(Fault::OutOfMemory),
    }
}

/// The queues of a configuration, opened and served from now on.
pub(crate) fn open_all<R: Wait + Threads + Clock + Copy + Send + Drop + 'static>(
    rt: &R,
    host: &HostRuntime,
    alloc: Global,
    config: &Config,
) -> Result<Opened<R>, Fault>
    ensures served { IfOk result (λ opened. (at : _) × AreOpenedInOrder config.now config.now.limits at opened.marks.items) }
{
    let day = Arc::new(alloc, Day::new())?;
    let queues = Arc::new(alloc, Directory::new(alloc, config.limits)?)?;
    let marks = make_configured(rt, host, alloc, &queues, config, day.moment(rt))?;
    start_clock(rt, alloc, Arc::try_clone(&queues)?, Arc::try_clone(&day)?)?;
    let (orders, ordered) = unbounded::<Order, Global>(alloc)?;
    start_maker(rt, host, alloc, Arc::try_clone(&queues)?, ordered)?;
    Ok(Opened {
        queues,
        orders,
        day,
        marks,
    })
}
