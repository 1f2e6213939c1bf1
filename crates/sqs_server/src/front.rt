//! What comes over HTTP is asked of the queues, and what they answer is sent.

ghost use Rattle.std.specs.Prelude.{◌≡◌, ◌⊎◌, Ok, Err, None, IfOk, IfErr};
ghost use Rattle.futures.specs.Task.{Covers, Keeps};
ghost use Rattle.aws_json.specs.declared.reply.ReplyShape.TheVariants as shapes;
ghost use Rattle.message.specs.declared.fault.Fault.TheVariants.{OutOfMemory, QueueDoesNotExist};
ghost use Rattle.queue_config.specs.Settings.{requested_target};
ghost use Rattle.redrive.specs.Catalog.{NameDirectory, IsDirectory, names_listed, source_names};
ghost use Rattle.sqs_server.specs.declared.stage.Purpose.TheVariants as purposes;
ghost use Rattle.request_plan.specs.declared.task.Task.TheVariants as tasks;
ghost use Rattle.sqs_server.specs.Responses.{Halts, OnHeld};
ghost use Rattle.sqs_server.specs.Stages.{Asks, AsksFound, AsksNow, AwaitsAnswer, AwaitsQueue, Begun, Changed, Collects, Compared, Creates, GoesOn, IsJudged, IsLost, IsMissed, IsOpenedAs, IsPostponed, IsRead, IsTarget, IsTurnedAway, IsTurnedAwayWith, IsWokenAt, Looked, Makes, Names, Ordered, Regains, Resumes, Returned, Seen, Sends, SentOfError, Tells, TellsSources, TellsUrl, TellsUrls, Turns, Unmade};
ghost use Rattle.sqs_server.specs.Orders.{IsOrder};
ghost use Rattle.sqs_server.specs.Stages as told;
ghost use Rattle.request_plan.specs.Task.{Begins};
ghost use Rattle.sqs_server.specs.Turns.{OnWaits};

use crate::arriving::{Arriving, KeptRequest};
use crate::bodies::{Bodies, Part};
use crate::clock::{Day, wait_limit};
use crate::head::{Denial, asked_of, target_of};
use crate::order::{Made, MadePlace, Order, OrderedQueue, slot_and_place};
use crate::queues::{Mailbox, Printer, Queue, Queues, is_full};
use crate::register::Register;
use crate::reply::{Sent, busy, denied, refused, sent_for};
use crate::stage::{Creation, Exchange, Halt, Next, Polled, Postponed, Purpose, Stage};
use aws_json::{Prefix, QueueNames, ReplyShape, Request};
use crossbeam_channel::{SendError, Sender};
use desk::NoGate;
use futures::Future;
use futures::task::{Context, Poll};
use http::request::Parts;
use http_body_util::{Collected, LimitedError};
use journal::Moment;
use message::{Fault, QueueName};
use queue_actor::{Answer, AskFault, AskFuture, Duties, Unasked, ask_now, is_for_actor};
use queue_config::{Settings, Wish};
use queue_core::{Command, Reply};
use request_plan::{Outcome, Performed, Step, Task, Then, after, task_of};
use std::alloc::Global;
use std::sync::{Arc, Wait};
use std::time::Clock;

/// What the connections of a thread share: the queues, where more of them are ordered, the time of day, what is told of
/// requests, and how much their bodies hold.
#[derive(Drop)]
pub struct Hall<R: Wait + Drop> {
    pub queues: Arc<Queues<R>>,
    pub orders: Sender<Order>,
    pub day: Arc<Day>,
    pub register: Arc<Register>,
    pub bodies: Arc<Bodies>,
}

impl<R: Wait + Drop> Hall<R> {
    /// The same for another thread, of whose connections no body is on its way. `OutOfMemory` is the only refusal.
    fn apart(&self, alloc: Global) -> Result<Hall<R>, Fault>
        ensures { IfErr result (λ fault. fault ≡ OutOfMemory) }
    {
        Ok(Hall {
            queues: Arc::try_clone(&self.queues)?,
            orders: self.orders.clone()?,
            day: Arc::try_clone(&self.day)?,
            register: Arc::try_clone(&self.register)?,
            bodies: Arc::new(alloc, Bodies::new())?,
        })
    }
}

/// Answers the requests of one connection.
#[derive(Drop)]
pub struct Front<R: Wait + Drop> {
    pub rt: R,
    pub alloc: Global,
    /// The port at which requests are answered, which the URLs of queues have.
    pub port: u16,
    pub hall: Arc<Hall<R>>,
}

impl<R: Wait + Copy + Drop> Front<R> {
    /// The same for another connection or request. `OutOfMemory` is the only refusal.
    pub fn again(&self) -> Result<Front<R>, Fault>
        ensures same { IfOk result (λ front. front.port ≡ self.now.port) }
        ensures errors { IfErr result (λ fault. fault ≡ OutOfMemory) }
    {
        Ok(Front {
            rt: self.rt,
            alloc: self.alloc,
            port: self.port,
            hall: Arc::try_clone(&self.hall)?,
        })
    }

    /// The same for the connections of another thread: how many of them there are is counted apart, so that threads do
    /// not wait for one another to count. `OutOfMemory` is the only refusal.
    pub fn apart(&self) -> Result<Front<R>, Fault>
        ensures same { IfOk result (λ front. front.port ≡ self.now.port) }
        ensures errors { IfErr result (λ fault. fault ≡ OutOfMemory) }
    {
        let mut front = self.again()?;
        front.hall = Arc::new(self.alloc, self.hall.apart(self.alloc)?)?;
        Ok(front)
    }
}

/// What a refusal comes to.
fn refuses<R: Wait + Drop>(fault: Fault) -> Next<R>
    ensures { result ≡ told.refuses fault }
{
    Next::Ends(Ok(refused(fault)))
}

/// What comes to be sent of a body that did not come whole.
fn sent_of_error(error: LimitedError<hyper::Error>) -> Result<Sent, hyper::Error>
    ensures { SentOfError error result }
{
    match error {
        LimitedError::LengthLimit => Ok(denied(Denial::BodyTooLarge)),
        LimitedError::Body(error) if error.is_out_of_memory() => Ok(refused(Fault::OutOfMemory)),
        LimitedError::Body(error) => Err(error),
    }
}

/// What is ordered where no queue is there.
fn order_of(creation: &Creation, target: u64) -> OrderedQueue
    ensures { IsOrder creation.now target result }
{
    OrderedQueue {
        name: creation.name,
        settings: Settings::default().with(&creation.wish, target),
        at: creation.at,
    }
}

/// Whether a command that may wait so many seconds is left to the actor of its queue: what waits is, and what is for it
/// alone.
fn goes_by_mail(command: &Command, seconds: u64) -> bool
    ensures { result ≡ told.goes_by_mail command.now seconds }
{
    seconds > 0 || is_for_actor(command)
}

/// Whether a step asks for a queue's attributes.
fn is_for_attributes(step: &Step) -> bool
    ensures { result ≡ told.is_for_attributes step.now }
{
    matches!(
        step,
        Step::Ask {
            then: Then::Attributes { .. },
            ..
        }
    )
}

/// What became of a command that was answered.
fn outcome_of(command: Command, reply: Result<Reply, Fault>) -> Outcome
    ensures { result ≡ told.outcome command reply }
{
    match reply {
        Ok(reply) => Ok(Performed { command, reply }),
        Err(fault) => Err(fault),
    }
}

impl<R: Wait + Clock + Drop> Front<R> {
    /// What an answer comes to.
    fn answers(&self, answer: Result<ReplyShape, Fault>) -> Next<R>
        ensures { Tells self.now.port answer result }
    {
        Next::Ends(Ok(sent_for(self.alloc, self.port, &answer)))
    }

    /// Goes on where an order of a queue was refused. One of its name that came to be there meanwhile is looked at.
    fn unmade(&self, creation: Creation, fault: Fault) -> Next<R>
        ensures { Unmade self.now.port creation fault result }
    {
        match fault {
            Fault::QueueNameExists => Next::On(Stage::Creating(creation)),
            fault => refuses(fault),
        }
    }

    /// Goes on where the look at a queue was refused. One that was taken out meanwhile is made anew.
    fn unseen(&self, creation: Creation, fault: Fault) -> Next<R>
        ensures { Looked self.now.port creation (Err fault) result }
    {
        match fault {
            Fault::ActorGone => Next::On(Stage::Creating(creation)),
            fault => refuses(fault),
        }
    }

    /// The queue of a name; or what the client is sent.
    fn find(&self, name: &QueueName) -> Result<Queue<R>, Sent>
        ensures found { IfOk result (IsOpenedAs name.now) }
        ensures errors { IfErr result IsLost }
    {
        match self.hall.queues.find(&self.rt, name) {
            Ok(Some(queue)) => Ok(Queue::of(queue)),
            Ok(None) => Err(refused(Fault::QueueDoesNotExist)),
            Err(fault) => Err(refused(fault)),
        }
    }

    /// The queue of a name, where more mail may wait for it; or what the client is sent.
    fn find_free(&self, name: &QueueName) -> Result<Queue<R>, Sent>
        ensures found { IfOk result (IsOpenedAs name.now) }
        ensures errors { IfErr result IsTurnedAway }
    {
        match self.find(name) {
            Ok(queue) if is_full(queue.mailbox.len()) => Err(busy()),
            Ok(queue) => Ok(queue),
            Err(sent) => Err(sent),
        }
    }

    /// The queue of a name for what a request asks of it. However much mail waits, attributes are told.
    fn find_for(&self, name: &QueueName, step: &Step) -> Result<Queue<R>, Sent>
        ensures found { IfOk result (IsOpenedAs name.now) }
        ensures errors { IfErr result (IsTurnedAwayWith step.now) }
    {
        if is_for_attributes(step) {
            self.find(name)
        } else {
            self.find_free(name)
        }
    }

    /// The uid of the dead-letter queue that a queue of a name is to have, 0 for none. It has to be there
    /// and to be another one.
    fn target_uid(&self, own: &QueueName, wish: &Wish) -> Result<u64, Fault>
        ensures { IsTarget own.now (requested_target wish.now) result }
    {
        let name = match wish.target() {
            Some(Some(name)) => name,
            _ => return Ok(0),
        };
        if name == *own {
            return Err(Fault::InvalidAttributeValue);
        }
        match self.hall.queues.uid_of(&self.rt, &name) {
            Some(uid) => Ok(uid),
            None => Err(Fault::InvalidAttributeValue),
        }
    }

    /// The URL of a queue that is there.
    fn url(&self, name: QueueName) -> Result<ReplyShape, Fault>
        ensures { (result ≡ Ok (shapes.QueueUrl name)) ⊎ (result ≡ Err QueueDoesNotExist) }
    {
        match self.hall.queues.uid_of(&self.rt, &name) {
            Some(_) => Ok(ReplyShape::QueueUrl(name)),
            None => Err(Fault::QueueDoesNotExist),
        }
    }

    /// The URLs of the queues whose names begin with a prefix.
    fn urls(&self, prefix: &Prefix) -> Result<ReplyShape, Fault>
        ensures ok { IfOk result (λ shape. (listed : NameDirectory) × IsDirectory listed × (shape ≡ shapes.QueueUrls (names_listed listed prefix.now))) }
        ensures errors { IfErr result (λ fault. fault ≡ OutOfMemory) }
    {
        let names = self
            .hall
            .queues
            .list(&self.rt, self.alloc, prefix.as_text())?;
        Ok(ReplyShape::QueueUrls(QueueNames::new(names)))
    }

    /// The URLs of the queues that have a queue for their dead letters.
    fn source_urls(&self, name: &QueueName) -> Result<ReplyShape, Fault>
        ensures ok { IfOk result (λ shape. (listed : NameDirectory) × (uid : _) × (shape ≡ shapes.SourceQueueUrls (source_names listed uid))) }
        ensures errors { IfErr result IsMissed }
    {
        let Some(uid) = self.hall.queues.uid_of(&self.rt, name) else {
            return Err(Fault::QueueDoesNotExist);
        };
        let names = self.hall.queues.sources(&self.rt, self.alloc, uid)?;
        Ok(ReplyShape::SourceQueueUrls(QueueNames::new(names)))
    }

    /// Sends a command to a queue by mail. Where there is no memory for that, it goes on with that fault.
    fn send(
        &self,
        queue: Queue<R>,
        at: Moment,
        command: Command,
        seconds: u64,
        purpose: Purpose,
    ) -> Next<R>
        ensures { Sends self.now.port queue at command seconds purpose result }
    {
        let Queue {
            uid,
            desk,
            pass,
            mailbox,
            duties,
        } = queue;
        let until = wait_limit(at, seconds);
        let asked = AskFuture::new(
            &self.rt, self.alloc, &mailbox, desk, pass, at, command, until,
        );
        match asked {
            Ok(future) => Next::On(Stage::Asking(Exchange {
                uid,
                mailbox,
                duties,
                at,
                purpose,
                future,
            })),
            Err(unsent) => self.resume(uid, None, at, purpose, Err(unsent.fault)),
        }
    }

    /// Goes on with an answer, and with the queue that gave it.
    fn regain(
        &self,
        uid: u64,
        mailbox: Mailbox<R>,
        duties: Arc<Duties>,
        at: Moment,
        purpose: Purpose,
        answer: Answer<Printer<R>>,
    ) -> Next<R>
        ensures { Regains self.now.port uid at purpose answer result }
    {
        let (desk, pass, command, reply) = answer.into_parts();
        let queue = Queue::new(uid, desk, pass, mailbox, duties);
        self.resume(uid, Some(queue), at, purpose, outcome_of(command, reply))
    }

    /// Asks a queue right now, where its turn is free or soon is and no mail waits for its actor. Where nothing was
    /// asked, it all comes back.
    fn ask_soon(
        &self,
        queue: Queue<R>,
        at: Moment,
        command: Command,
        purpose: Purpose,
    ) -> Result<Next<R>, Postponed<R>>
        ensures asked { IfOk result (AsksNow self.now.port queue at command purpose) }
        ensures back { IfErr result (IsPostponed queue command purpose) }
    {
        let Queue {
            uid,
            desk,
            pass,
            mailbox,
            duties,
        } = queue;
        let asked = ask_now(
            &self.rt, self.alloc, &mailbox, &duties, desk, pass, at, command, &NoGate,
        );
        match asked {
            Ok(told) => Ok(self.regain(uid, mailbox, duties, at, purpose, told)),
            Err(
                Unasked {
                    desk,
                    pass,
                    command,
                },
            ) => Err(Postponed {
                queue: Queue::new(uid, desk, pass, mailbox, duties),
                command,
                purpose,
            }),
        }
    }

    /// Asks a queue. What waits, and what is for its actor alone, goes by mail.
    fn ask(
        &self,
        queue: Queue<R>,
        at: Moment,
        command: Command,
        seconds: u64,
        purpose: Purpose,
    ) -> Next<R>
        ensures { Asks self.now.port queue at command seconds purpose result }
    {
        if goes_by_mail(&command, seconds) {
            return self.send(queue, at, command, seconds, purpose);
        }
        match self.ask_soon(queue, at, command, purpose) {
            Ok(next) => next,
            Err(back) => self.send(back.queue, at, back.command, 0, back.purpose),
        }
    }

    /// Asks a queue of a name what a request asks of it.
    fn begins(&self, name: &QueueName, at: Moment, step: Step) -> Next<R>
        ensures { Begun self.now.port (tasks.Ask name.now step) at result }
    {
        match self.find_for(name, &step) {
            Ok(queue) => Next::On(Stage::Going {
                uid: queue.uid,
                queue: Some(queue),
                at,
                step,
            }),
            Err(sent) => Next::Ends(Ok(sent)),
        }
    }

    /// Closes a queue, however much mail waits for it.
    fn delete(&self, name: &QueueName, at: Moment) -> Next<R>
        ensures { Begun self.now.port (tasks.Delete name.now) at result }
    {
        match self.find(name) {
            Ok(queue) => self.send(queue, at, Command::Close, 0, Purpose::Change),
            Err(sent) => Next::Ends(Ok(sent)),
        }
    }

    /// Gives a queue settings.
    fn set(&self, name: &QueueName, at: Moment, wish: Wish) -> Next<R>
        ensures { Begun self.now.port (tasks.Set name.now wish) at result }
    {
        let queue = match self.find_free(name) {
            Ok(queue) => queue,
            Err(sent) => return Next::Ends(Ok(sent)),
        };
        let target = match self.target_uid(name, &wish) {
            Ok(target) => target,
            Err(fault) => return refuses(fault),
        };
        self.send(queue, at, Command::Set { wish, target }, 0, Purpose::Change)
    }

    /// Tells the URL of a queue that is there.
    fn tells_url(&self, name: QueueName) -> Next<R>
        ensures { TellsUrl self.now.port name result }
    {
        match self.url(name) {
            Ok(shape) => self.answers(Ok(shape)),
            Err(fault) => refuses(fault),
        }
    }

    /// Tells the URLs of the queues whose names begin with a prefix.
    fn tells_urls(&self, prefix: &Prefix) -> Next<R>
        ensures { TellsUrls self.now.port prefix.now result }
    {
        match self.urls(prefix) {
            Ok(shape) => self.answers(Ok(shape)),
            Err(fault) => refuses(fault),
        }
    }

    /// Tells the URLs of the queues that have a queue for their dead letters.
    fn tells_sources(&self, name: &QueueName) -> Next<R>
        ensures { TellsSources self.now.port result }
    {
        match self.source_urls(name) {
            Ok(shape) => self.answers(Ok(shape)),
            Err(fault) => refuses(fault),
        }
    }

    /// Begins a task.
    fn about(&self, task: Task, at: Moment) -> Next<R>
        ensures { Begun self.now.port task at result }
    {
        match task {
            Task::Create { name, wish } => Next::On(Stage::Creating(Creation { name, wish, at })),
            Task::Delete { queue } => self.delete(&queue, at),
            Task::Set { queue, wish } => self.set(&queue, at, wish),
            Task::Url { name } => self.tells_url(name),
            Task::Urls { prefix } => self.tells_urls(&prefix),
            Task::Sources { queue } => self.tells_sources(&queue),
            Task::Ask { queue, step } => self.begins(&queue, at, step),
        }
    }

    /// Begins what a request is about.
    fn begin(&self, request: Request, at: Moment) -> Next<R>
        ensures { (task : _) × Begins request task × Begun self.now.port task at result }
    {
        self.about(task_of(self.alloc, request), at)
    }

    /// Begins what the header that names the action and these bytes ask.
    fn judge(&self, head: &Parts, bytes: &[u8]) -> Next<R>
        ensures { IsJudged self.now.port head.now bytes.now result }
    {
        match asked_of(self.alloc, target_of(head), bytes) {
            Ok(request) => self.begin(request, self.hall.day.moment(&self.rt)),
            Err(fault) => refuses(fault),
        }
    }

    /// Begins what a request asks whose body has come, and keeps the request.
    fn read(
        &self,
        head: Parts,
        body: Collected,
        part: Part,
        kept: &mut Option<KeptRequest>,
    ) -> Next<R>
        ensures { IsRead self.now.port head body result }
    {
        match body.to_bytes() {
            Ok(body) => {
                let next = self.judge(&head, body.as_slice());
                *kept = Some(KeptRequest { head, body, part });
                next
            }
            Err(_refused) => refuses(Fault::OutOfMemory),
        }
    }

    /// Looks whether the body has come.
    fn await_body(
        &self,
        cx: &mut Context<'_>,
        arriving: Arriving,
        kept: &mut Option<KeptRequest>,
    ) -> Polled<R>
        ensures waits { OnWaits result (λ stage. Covers cx.new (IsWokenAt stage)) }
        ensures kept { Keeps cx.old cx.new }
        ensures leads { Collects self.now.port arriving result }
    {
        let Arriving {
            head,
            mut body,
            part,
        } = arriving;
        match body.poll(cx) {
            Poll::Pending => Polled::Waits(Stage::Collecting(Arriving { head, body, part })),
            Poll::Ready(Ok(body)) => Polled::Goes(self.read(head, body, part, kept)),
            Poll::Ready(Err(error)) => Polled::Goes(Next::Ends(sent_of_error(error))),
        }
    }

    /// Orders a queue that is not there, where more orders may wait.
    fn order(&self, creation: Creation, target: u64) -> Next<R>
        ensures { Ordered creation target result }
    {
        if is_full(self.hall.orders.len()) {
            return Next::Ends(Ok(busy()));
        }
        let ordered = order_of(&creation, target);
        let Ok((slot, made)) = slot_and_place(self.alloc, &ordered) else {
            return refuses(Fault::OutOfMemory);
        };
        match self.hall.orders.send(&self.rt, Order { ordered, slot }) {
            Ok(()) => Next::On(Stage::Making { creation, made }),
            Err(SendError::OutOfMemory(_)) => refuses(Fault::OutOfMemory),
            Err(SendError::Disconnected(_)) => refuses(Fault::ActorGone),
        }
    }

    /// Answers for a queue that was ordered. One of its name that came to be there meanwhile is looked at.
    fn ordered(&self, creation: Creation, made: Made) -> Next<R>
        ensures { Makes self.now.port creation made.outcome result }
    {
        match made.outcome {
            Ok(_opened) => self.answers(Ok(ReplyShape::QueueUrl(creation.name))),
            Err(fault) => self.unmade(creation, fault),
        }
    }

    /// Looks whether a queue was made that was ordered.
    fn await_queue(
        &self,
        cx: &mut Context<'_>,
        creation: Creation,
        mut made: MadePlace,
    ) -> Polled<R>
        ensures waits { OnWaits result (λ stage. Covers cx.new (IsWokenAt stage)) }
        ensures kept { Keeps cx.old cx.new }
        ensures leads { AwaitsQueue self.now.port creation made result }
    {
        match made.told.poll(cx) {
            Poll::Pending => Polled::Waits(Stage::Making { creation, made }),
            Poll::Ready(Ok(())) => match made.take() {
                Some(made) => Polled::Goes(self.ordered(creation, made)),
                None => Polled::Goes(refuses(Fault::ActorGone)),
            },
            Poll::Ready(Err(_gone)) => Polled::Goes(refuses(Fault::ActorGone)),
        }
    }

    /// Creates a queue, or looks at the one that has its name. While that one is being opened, what is asked
    /// for comes back.
    fn create(&self, creation: Creation) -> Result<Next<R>, Creation>
        ensures { Creates self.now.port creation result }
    {
        let target = match self.target_uid(&creation.name, &creation.wish) {
            Ok(target) => target,
            Err(fault) => return Ok(refuses(fault)),
        };
        if self.hall.queues.uid_of(&self.rt, &creation.name).is_none() {
            return Ok(self.order(creation, target));
        }
        match self.hall.queues.find(&self.rt, &creation.name) {
            Ok(Some(queue)) if is_full(queue.mailbox.len()) => Ok(Next::Ends(Ok(busy()))),
            Ok(Some(queue)) => {
                let purpose = Purpose::Existing(creation);
                // By mail: a queue that is being closed keeps its name until its actor has taken it out.
                Ok(self.send(Queue::of(queue), creation.at, Command::Look, 0, purpose))
            }
            Ok(None) => Err(creation),
            Err(fault) => Ok(refuses(fault)),
        }
    }

    /// The same, and looks for that one again once others had a turn.
    fn await_name(&self, cx: &mut Context<'_>, creation: Creation) -> Polled<R>
        ensures waits { OnWaits result (λ stage. Covers cx.new (IsWokenAt stage)) }
        ensures kept { Keeps cx.old cx.new }
        ensures leads { Names self.now.port creation result }
    {
        match self.create(creation) {
            Ok(next) => Polled::Goes(next),
            Err(creation) => {
                let _: Poll<()> = cx.yield_now();
                Polled::Waits(Stage::Creating(creation))
            }
        }
    }

    /// Asks a queue that is looked for by its uid, and goes on without it where it is not to be had.
    fn ask_found(&self, uid: u64, at: Moment, command: Command, seconds: u64, then: Then) -> Next<R>
        ensures { AsksFound self.now.port uid at command seconds then result }
    {
        let fault = match self.hall.queues.find_uid(&self.rt, uid) {
            Ok(Some(queue)) => {
                return self.ask(Queue::of(queue), at, command, seconds, Purpose::Plan(then));
            }
            Ok(None) => Fault::QueueDoesNotExist,
            Err(fault) => fault,
        };
        self.planned(uid, None, at, then, Err(fault))
    }

    /// Asks what is next, or answers.
    fn go_on(&self, uid: u64, queue: Option<Queue<R>>, at: Moment, step: Step) -> Next<R>
        ensures { GoesOn self.now.port uid queue at step result }
    {
        match (step, queue) {
            (Step::Answer(answer), _) => self.answers(answer),
            (
                Step::Ask {
                    command,
                    seconds,
                    then,
                },
                Some(queue),
            ) => self.ask(queue, at, command, seconds, Purpose::Plan(then)),
            (
                Step::Ask {
                    command,
                    seconds,
                    then,
                },
                None,
            ) => self.ask_found(uid, at, command, seconds, then),
        }
    }

    /// Tells that a queue was closed, or that it was given settings.
    fn changed(&self, outcome: Outcome) -> Next<R>
        ensures { Changed self.now.port outcome result }
    {
        match outcome {
            Ok(_) => self.answers(Ok(ReplyShape::Nothing)),
            Err(fault) => refuses(fault),
        }
    }

    /// Answers for a queue that was there already, by its settings.
    fn compared(&self, creation: Creation, settings: Settings) -> Next<R>
        ensures { Compared self.now.port creation settings result }
    {
        let target = match self.target_uid(&creation.name, &creation.wish) {
            Ok(target) => target,
            Err(fault) => return refuses(fault),
        };
        if settings.agrees(&creation.wish, target) {
            self.answers(Ok(ReplyShape::QueueUrl(creation.name)))
        } else {
            refuses(Fault::QueueNameExists)
        }
    }

    /// The same, by a look at it. One that was closed is made anew.
    fn seen(&self, creation: Creation, reply: Reply) -> Next<R>
        ensures { Seen self.now.port creation reply result }
    {
        match reply {
            Reply::Looked(look) if look.closed => Next::On(Stage::Creating(creation)),
            Reply::Looked(look) => self.compared(creation, look.settings),
            _ => self.answers(Ok(ReplyShape::QueueUrl(creation.name))),
        }
    }

    /// The same, by what became of the look. One that was taken out meanwhile is made anew.
    fn looked(&self, creation: Creation, outcome: Outcome) -> Next<R>
        ensures { Looked self.now.port creation outcome result }
    {
        match outcome {
            Ok(Performed { command: _, reply }) => self.seen(creation, reply),
            Err(fault) => self.unseen(creation, fault),
        }
    }

    /// Goes on as a request has it, with what became of a command.
    fn planned(
        &self,
        uid: u64,
        queue: Option<Queue<R>>,
        at: Moment,
        then: Then,
        outcome: Outcome,
    ) -> Next<R>
        ensures { Resumes self.now.port uid queue at (purposes.Plan then) outcome result }
    {
        Next::On(Stage::Going {
            uid,
            queue,
            at,
            step: after(self.alloc, uid, then, outcome),
        })
    }

    /// Goes on with what became of a command, and with the queue where it has answered.
    fn resume(
        &self,
        uid: u64,
        queue: Option<Queue<R>>,
        at: Moment,
        purpose: Purpose,
        outcome: Outcome,
    ) -> Next<R>
        ensures { Resumes self.now.port uid queue at purpose outcome result }
    {
        match purpose {
            Purpose::Plan(then) => self.planned(uid, queue, at, then, outcome),
            Purpose::Change => self.changed(outcome),
            Purpose::Existing(creation) => self.looked(creation, outcome),
        }
    }

    /// Goes on with the answer to a command, or without one.
    fn answered(
        &self,
        exchange: Exchange<R>,
        given: Result<Answer<Printer<R>>, AskFault<Printer<R>>>,
    ) -> Next<R>
        ensures { Returned self.now.port exchange given result }
    {
        let Exchange {
            uid,
            mailbox,
            duties,
            at,
            purpose,
            future: _,
        } = exchange;
        match given {
            Ok(answer) => self.regain(uid, mailbox, duties, at, purpose, answer),
            Err(AskFault { fault, pass: _ }) => self.resume(uid, None, at, purpose, Err(fault)),
        }
    }

    /// Looks whether a command was answered.
    fn await_answer(&self, cx: &mut Context<'_>, mut exchange: Exchange<R>) -> Polled<R>
        ensures waits { OnWaits result (λ stage. Covers cx.new (IsWokenAt stage)) }
        ensures kept { Keeps cx.old cx.new }
        ensures leads { AwaitsAnswer self.now.port exchange result }
    {
        match exchange.future.poll(cx) {
            Poll::Pending => Polled::Waits(Stage::Asking(exchange)),
            Poll::Ready(given) => Polled::Goes(self.answered(exchange, given)),
        }
    }

    /// Looks at a stage. A request whose body has come is kept.
    pub(crate) fn turn(
        &self,
        cx: &mut Context<'_>,
        stage: Stage<R>,
        kept: &mut Option<KeptRequest>,
    ) -> Polled<R>
        ensures waits { OnWaits result (λ stage. Covers cx.new (IsWokenAt stage)) }
        ensures kept { Keeps cx.old cx.new }
        ensures leads { Turns self.now.port stage result }
    {
        match stage {
            Stage::Collecting(arriving) => self.await_body(cx, arriving, kept),
            Stage::Creating(creation) => self.await_name(cx, creation),
            Stage::Making { creation, made } => self.await_queue(cx, creation, made),
            Stage::Asking(exchange) => self.await_answer(cx, exchange),
            Stage::Going {
                uid,
                queue,
                at,
                step,
            } => Polled::Goes(self.go_on(uid, queue, at, step)),
            Stage::Sending(sent) => Polled::Goes(Next::Ends(Ok(sent))),
            Stage::Over => Polled::Goes(refuses(Fault::OutOfMemory)),
        }
    }

    /// Notes how a request has ended. One whose connection failed gets no answer.
    pub(crate) fn note(&self, asked: Option<&KeptRequest>, ended: &Result<Sent, hyper::Error>) {
        if let Ok(sent) = ended {
            self.hall.register.note(&self.rt, self.alloc, asked, sent);
        }
    }

    /// Goes through stages, until one waits or the request ends. A request whose body has come is kept.
    pub(crate) fn run(
        &self,
        cx: &mut Context<'_>,
        mut stage: Stage<R>,
        kept: &mut Option<KeptRequest>,
    ) -> Halt<R>
        ensures waits { OnHeld result (λ stage. Covers cx.new (IsWokenAt stage)) }
        ensures kept { Keeps cx.old cx.new }
        ensures leads { Halts self.now.port stage result }
    {
        for _ in self.rt.forever() {
            match self.turn(cx, stage, kept) {
                Polled::Waits(left) => return Halt::Waits(left),
                Polled::Goes(Next::On(next)) => stage = next,
                Polled::Goes(Next::Ends(ended)) => return Halt::Ends(ended),
            }
        }
        unreachable!()
    }
}
