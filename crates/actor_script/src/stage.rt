//! Queues, their actors and their callers, who do what the lines of a text say.

use crate::callers::{begin, sends};
use crate::fakes::{Barrier, MOST_LOOKS, Moments, Numbered, serve_all};
use crate::opened::served;
use crate::reading::told_in_a_turn;
use crate::types::{Client, Place, Shared};
use crate::words::{command, moment, number, parts, policy, tell};
use crossbeam_channel::Receiver;
use desk::{Gate, NoGate, NoPress};
use futures::task::Poll;
use futures::test::MockTask;
use message::{Fault, QueueName};
use queue_actor::{
    Actor, Answer, Ask, AskFault, AskFuture, Envelope, Mail, Outbox, Served, ask_now,
    dead_letter_target, deadline_loop,
};
use queue_config::{Limits, Settings};
use std::alloc::{AllocGlobal, Global};
use std::collections::VecDeque;
use std::random::RandomSource;
use std::sync::atomic::{AtomicU64, Ordering};
use std::sync::{Arc, Wait};
use std::thread;
use std::thread::{JoinHandle, Threads};

/// The future of the answer to an ask, and the task that polls it.
type Begun = (AskFuture<NoPress>, MockTask);

/// Polls for an answer so many times at most, and tells it.
fn polled(text: &mut String, begun: &mut Begun, looks: u64) -> Result<(), Fault> {
    for _ in 0..looks {
        match begun.1.poll(&mut begun.0) {
            Poll::Pending => thread::yield_now(),
            Poll::Ready(answer) => return tell_ready(text, &answer),
        }
    }
    Ok(text.push_str("pending")?)
}

/// Tells what a future gave. Of a refusal it is told whether a pass came with it.
fn tell_ready(
    text: &mut String,
    ready: &Result<Answer<NoPress>, AskFault<NoPress>>,
) -> Result<(), Fault> {
    match ready {
        Ok(answer) => tell(text, answer.reply()),
        Err(refused) => {
            let (fault, is_kept) = (refused.fault, refused.pass.is_some());
            Ok(write!(text, "{fault:?}, with a pass: {is_kept}")?)
        }
    }
}

/// Tells answers as they came, each behind its slot.
fn tell_given(text: &mut String, given: &[(u64, Answer<NoPress>)]) -> Result<(), Fault> {
    for (slot, answer) in given {
        write!(text, "{slot}: ")?;
        tell(text, answer.reply())?;
        text.push_str("; ")?;
    }
    Ok(())
}

/// The moment of a mail, 0 where it has none.
fn moment_of(letter: &Envelope<NoPress>) -> u64 {
    match letter.mail() {
        Mail::Tick(at) => at.milliseconds(),
        Mail::Ask(ask) => ask.moment.milliseconds(),
        Mail::End => 0,
    }
}

/// Serves a mailbox until it is told to end. That it came to this is told by 1.
fn work<R: Wait, G: Gate>(rt: &R, alloc: Global, place: Place, queues: &Shared, gate: &G) -> u64 {
    let (mut actor, mut mails) = place;
    actor.run(rt, alloc, &mut mails, queues, gate);
    1
}

/// The settings that words say: the default ones, but for a policy.
fn settings(alloc: Global, words: &str) -> Result<Settings, Fault> {
    match words.strip_prefix("policy ") {
        Some(target) => {
            let (wish, target) = policy(alloc, target)?;
            Ok(Settings::default().with(&wish, target))
        }
        None => Ok(Settings::default()),
    }
}

/// The limits that words say: one message may be in flight (`narrow`), or a journal has one entry (`full`); the
/// default ones beside a policy, and where there are no words.
fn limits(words: &str) -> Result<Limits, Fault> {
    let mut limits = Limits::default();
    match words {
        "narrow" => limits.in_flight = 1,
        "full" => limits.max_lines = 1,
        _ => {
            if !words.is_empty() && !words.starts_with("policy ") {
                return Err(Fault::UnsupportedOperation);
            }
        }
    }
    Ok(limits)
}

/// An actor, what it takes its mail from, and what else its thread works with.
#[derive(Drop)]
struct Service<R> {
    rt: R,
    alloc: Global,
    actor: Actor<NoPress>,
    mails: Receiver<Envelope<NoPress>>,
    directory: Arc<Shared>,
    gate: Arc<Barrier>,
}

impl<R: Wait + Copy> Service<R> {
    /// Serves the mailbox until it is told to end.
    fn run(self) -> u64 {
        let Service {
            rt,
            alloc,
            actor,
            mails,
            directory,
            gate,
        } = self;
        work(&rt, alloc, (actor, mails), &directory, &*gate)
    }
}

/// Starts the thread of an actor.
fn start_actor<R: Wait + Threads + Copy + Send + 'static>(
    rt: &R,
    service: Service<R>,
) -> Result<JoinHandle<u64>, Fault> {
    match thread::spawn(rt, move || service.run()) {
        Ok(thread) => Ok(thread),
        Err(_refused) => Err(Fault::OutOfMemory),
    }
}

/// A directory, a turn that may be held, the actors of queues that were served, each with what it takes its
/// mail from, what was asked, the threads, and what was told last.
pub(crate) struct Stage {
    host: HostRuntime,
    directory: Arc<Shared>,
    gate: Arc<Barrier>,
    places: Vec<Place>,
    begun: Vec<Begun>,
    threads: Vec<JoinHandle<u64>>,
    text: String,
}

/// Written out, so that a function which lets a stage go has one step for all its parts in its proof.
impl Drop for Stage {
    fn drop(self) {
        let Stage {
            host: _host,
            directory: _directory,
            gate: _gate,
            places: _places,
            begun: _begun,
            threads: _threads,
            text: _text,
        } = self;
    }
}

impl Stage {
    /// A directory without queues.
    pub(crate) fn new(host: HostRuntime) -> Result<Stage, Fault> {
        let alloc = host.alloc();
        let text = String::with_capacity(alloc, 200)?;
        let barrier = Barrier {
            before: AtomicU64::new(u64::MAX),
            state: AtomicU64::new(0),
        };
        let gate = Arc::new(alloc, barrier)?;
        let directory = Arc::new(alloc, Shared::new(alloc, Limits::default())?)?;
        Ok(Stage {
            host,
            directory,
            gate,
            places: Vec::new(alloc),
            begun: Vec::new(alloc),
            threads: Vec::new(alloc),
            text,
        })
    }

    /// Tells a number.
    fn tell_number(&mut self, number: u64) -> Result<(), Fault> {
        Ok(write!(self.text, "{number}")?)
    }

    /// Where the actor of a uid is.
    fn place_of(&self, uid: &str) -> Result<usize, Fault> {
        let uid = number(uid)?;
        let place = self.places.iter().position(|place| place.0.uid == uid);
        place.ok_or(Fault::ActorGone)
    }

    /// Takes the actor of a uid, and what it takes its mail from.
    fn take(&mut self, uid: &str) -> Result<Place, Fault> {
        let place = self.place_of(uid)?;
        if place < self.places.len() {
            return Ok(self.places.remove(place));
        }
        Err(Fault::ActorGone)
    }

    /// The queue of a uid, which has to be served.
    fn client<R: Wait>(&self, rt: &R, uid: &str) -> Result<Client, Fault> {
        let found = self.directory.find_uid(rt, number(uid)?)?;
        found.ok_or(Fault::QueueDoesNotExist)
    }

    /// The uid of a name, which is entered where it is not there.
    fn entered<R: Wait>(&self, rt: &R, name: QueueName) -> Result<u64, Fault> {
        match self.directory.uid_of(rt, &name) {
            Some(uid) => Ok(uid),
            None => self.directory.enter(rt, self.host.alloc(), name),
        }
    }

    /// Serves a fresh queue under a name, which is entered where it is not there, and gives its uid. Words say its
    /// policy and its limits.
    fn serve<R: Wait>(&mut self, rt: &R, name: &str, words: &str) -> Result<u64, Fault> {
        let alloc = self.host.alloc();
        let name = QueueName::read(name)?;
        let limits = limits(words)?;
        let uid = self.entered(rt, name)?;
        let settings = settings(alloc, words)?;
        let target = dead_letter_target(&settings);
        let (client, start, place) = served(&self.host, alloc, uid, name, settings, limits)?;
        self.places.push(place)?;
        self.directory.serve(rt, alloc, client, target, start)?;
        Ok(uid)
    }

    /// A mail in memory: `end`, `tick` and a moment, or an ask at the desk of a uid.
    fn mail<R: Wait>(&self, rt: &R, uid: &str, text: &str, slot: u64) -> Result<Numbered, Fault> {
        if text == "end" {
            return Ok(Mail::End);
        }
        if let Some(at) = text.strip_prefix("tick ") {
            return Ok(Mail::Tick(moment(at)?));
        }
        let (at, call, until) = parts(text);
        let (at, until) = (moment(at)?, moment(until)?);
        let command = command(self.host.alloc(), call)?;
        let Served { desk, pass, .. } = self.client(rt, uid)?;
        Ok(Mail::Ask(Ask::new(desk, pass, at, command, until, slot)))
    }

    /// The mails that a text says.
    fn mails<R: Wait>(&self, rt: &R, uid: &str, text: &str) -> Result<VecDeque<Numbered>, Fault> {
        let mut mails = VecDeque::new(self.host.alloc());
        for one in text.split("; ") {
            let mail = self.mail(rt, uid, one, mails.len() as u64)?;
            mails.push_back(mail)?;
        }
        Ok(mails)
    }

    /// Runs the actor of a uid over mails in memory, and tells its answers as they came, each behind its slot.
    fn run<R: Wait>(&mut self, rt: &R, uid: &str, text: &str) -> Result<(), Fault> {
        let alloc = self.host.alloc();
        let place = self.place_of(uid)?;
        let mails = self.mails(rt, uid, text)?;
        match self.places.get_mut(place) {
            Some((actor, _)) => {
                let given = serve_all(rt, alloc, actor, mails, &*self.directory)?;
                tell_given(&mut self.text, given.as_slice())
            }
            None => Err(Fault::ActorGone),
        }
    }

    /// Does what a word says of the directory; any other word is handed on. The number is the uid of a queue, 0 for
    /// none, how many names there are, or 1 where it was done, else 0.
    fn of_directory<R: Wait>(&mut self, rt: &R, words: (&str, &str, &str)) -> Result<u64, Fault> {
        let (verb, who, text) = words;
        let (alloc, directory) = (self.host.alloc(), &self.directory);
        match verb {
            "enter" => directory.enter(rt, alloc, QueueName::read(who)?),
            "find" => {
                let found = directory.find(rt, &QueueName::read(who)?)?;
                Ok(found.map_or(0, |client| client.uid))
            }
            "remove" => Ok(u64::from(directory.remove(rt, number(who)?))),
            "target" => Ok(u64::from(directory.set_target(rt, number(who)?, number(text)?))),
            "list" => Ok(directory.list(rt, alloc, who)?.len() as u64),
            "sources" => Ok(directory.sources(rt, alloc, number(who)?)?.len() as u64),
            _ => self.of_actor(rt, words),
        }
    }

    /// Does what a word says of a queue, of its actor, or of the clock; any other word is handed on. The number is the uid
    /// of a queue that is served, the moment of a mail, the entries that were told, or 1 where it was done.
    fn of_actor<R: Wait>(&mut self, rt: &R, words: (&str, &str, &str)) -> Result<u64, Fault> {
        let (verb, who, text) = words;
        match verb {
            "queue" => self.serve(rt, who, text),
            "next" => self.next(rt, who),
            "late" => self.serve_late(rt, who),
            "ask" => self.ask(rt, who, text),
            "end" => {
                let _ = self.client(rt, who)?.mailbox.put(rt, Mail::End);
                Ok(1)
            }
            "work" => Ok(work(
                rt,
                self.host.alloc(),
                self.take(who)?,
                &self.directory,
                &NoGate,
            )),
            "clock" => self.tick(rt, text),
            "witness" => self.witness(rt, who, text),
            _ => self.of_stage(verb, who),
        }
    }

    /// Does what a word says of what was asked, or of the turn that is held: 1 where it was done.
    fn of_stage(&mut self, verb: &str, who: &str) -> Result<u64, Fault> {
        match verb {
            "forget" => {
                self.begun.clear();
                Ok(1)
            }
            "woken" => {
                let begun = self.begun.as_slice().first().ok_or(Fault::Spent)?;
                Ok(u64::from(begun.1.is_woken()))
            }
            "hold" => {
                self.gate.before.store(number(who)?, Ordering::SeqCst);
                Ok(1)
            }
            "held" => Ok(u64::from(self.gate.comes_to(1))),
            "free" => Ok(u64::from(self.gate.state.swap(2, Ordering::SeqCst) == 1)),
            _ => Err(Fault::UnsupportedOperation),
        }
    }

    /// Removes a queue, and serves a fresh one under its uid and its name after that.
    fn serve_late<R: Wait>(&self, rt: &R, uid: &str) -> Result<u64, Fault> {
        let alloc = self.host.alloc();
        let Served { uid, name, .. } = self.client(rt, uid)?;
        let (settings, limits) = (Settings::default(), Limits::default());
        let (client, start, _place) = served(&self.host, alloc, uid, name, settings, limits)?;
        self.directory.remove(rt, uid);
        self.directory
            .serve(rt, alloc, client, dead_letter_target(&settings), start)?;
        Ok(1)
    }

    /// Has a fresh queue under a name do a command twice, and asks a directory of its own for its statistics in each of
    /// the two turns. The number is how many entries they told in the second, where they told one in the first.
    fn witness<R: Wait>(&self, rt: &R, name: &str, text: &str) -> Result<u64, Fault> {
        let (name, command) = (QueueName::read(name)?, command(self.host.alloc(), text)?);
        match told_in_a_turn(rt, &self.host, name, &command)? {
            ((1, 1), (one, all)) if one == all => Ok(one),
            _ => Err(Fault::UnsupportedOperation),
        }
    }

    /// Puts an ask into the mailbox of a queue.
    fn ask<R: Wait>(&mut self, rt: &R, uid: &str, text: &str) -> Result<u64, Fault> {
        let task = MockTask::new(&self.host).map_err(|_| Fault::OutOfMemory)?;
        let future = begin(rt, self.host.alloc(), self.client(rt, uid)?, text)?;
        self.begun.push((future, task))?;
        Ok(1)
    }

    /// Runs the clock over the moments that a text says.
    fn tick<R: Wait>(&mut self, rt: &R, text: &str) -> Result<u64, Fault> {
        let alloc = self.host.alloc();
        let mut clock = Moments {
            left: VecDeque::new(alloc),
        };
        for at in text.split(' ') {
            clock.left.push_back(moment(at)?)?;
        }
        deadline_loop(rt, alloc, &*self.directory, &mut clock);
        Ok(1)
    }

    /// The moment of the next mail in a mailbox, 0 where there is none.
    fn next<R: Wait>(&self, rt: &R, uid: &str) -> Result<u64, Fault> {
        match self.places.as_slice().get(self.place_of(uid)?) {
            Some((_, mails)) => match mails.try_recv(rt) {
                Ok(letter) => Ok(moment_of(&letter)),
                Err(_) => Ok(0),
            },
            None => Err(Fault::ActorGone),
        }
    }

    /// Asks a queue's desk without its actor.
    fn call<R: Wait>(&mut self, rt: &R, uid: &str, text: &str) -> Result<(), Fault> {
        let (at, call, _) = parts(text);
        let (alloc, at) = (self.host.alloc(), moment(at)?);
        let command = command(alloc, call)?;
        let answer = self.client(rt, uid)?.ask(rt, alloc, at, command, &NoGate);
        tell(&mut self.text, answer.reply())
    }

    /// Asks a queue's desk where it is free and no mail waits, and tells the answer, or that it was not asked.
    fn now<R: Wait>(&mut self, rt: &R, uid: &str, text: &str) -> Result<(), Fault> {
        let (at, call, _) = parts(text);
        let (alloc, at) = (self.host.alloc(), moment(at)?);
        let command = command(alloc, call)?;
        let Served {
            desk,
            pass,
            mailbox,
            duties,
            ..
        } = self.client(rt, uid)?;
        match ask_now(
            rt, alloc, &mailbox, &duties, desk, pass, at, command, &NoGate,
        ) {
            Ok(answer) => tell(&mut self.text, answer.reply()),
            Err(_back) => Ok(self.text.push_str("not asked")?),
        }
    }

    /// Polls for the answer to an ask, by its number, so many times at most.
    fn poll(&mut self, which: &str, looks: u64) -> Result<(), Fault> {
        let place = usize::try_from(number(which)?).map_err(|_| Fault::Spent)?;
        match self.begun.get_mut(place) {
            Some(begun) => polled(&mut self.text, begun, looks),
            None => Err(Fault::Spent),
        }
    }

    /// Does what a line says: a verb, what it is about, and a text behind a colon. It tells the answer.
    fn answer<R: Wait>(&mut self, rt: &R, line: &str) -> Result<(), Fault> {
        let (head, text) = line.split_once(": ").unwrap_or((line, ""));
        let (verb, who) = head.split_once(' ').unwrap_or((head, ""));
        match verb {
            "run" => self.run(rt, who, text),
            "call" => self.call(rt, who, text),
            "now" => self.now(rt, who, text),
            "poll" => self.poll(who, 1),
            "wait" => self.poll(who, MOST_LOOKS),
            _ => {
                let number = self.of_directory(rt, (verb, who, text))?;
                self.tell_number(number)
            }
        }
    }

    /// Keeps a thread that was started.
    fn keep(&mut self, thread: JoinHandle<u64>) -> Result<(), Fault> {
        self.threads.push(thread)?;
        self.tell_number(1)
    }

    /// Starts a thread in which the actor of a uid serves its mailbox.
    fn start<R: Wait + Threads + Copy + Send + 'static>(
        &mut self,
        rt: &R,
        uid: &str,
    ) -> Result<(), Fault> {
        let directory = Arc::try_clone(&self.directory)?;
        let gate = Arc::try_clone(&self.gate)?;
        let (actor, mails) = self.take(uid)?;
        let service = Service {
            rt: *rt,
            alloc: self.host.alloc(),
            actor,
            mails,
            directory,
            gate,
        };
        let thread = start_actor(rt, service)?;
        self.keep(thread)
    }

    /// Starts a thread that sends five times.
    fn send<R: Wait + Threads + RandomSource + AllocGlobal + Copy + Send + 'static>(
        &mut self,
        rt: &R,
        body: &str,
    ) -> Result<(), Fault> {
        let (own, body) = (*rt, number(body)?);
        let directory = Arc::try_clone(&self.directory)?;
        let asks = move || sends(&own, &directory, body).unwrap_or(0);
        match thread::spawn(rt, asks) {
            Ok(thread) => self.keep(thread),
            Err(_refused) => Err(Fault::OutOfMemory),
        }
    }

    /// Waits for the end of the thread that was started last, and tells its number.
    fn join<R: Threads>(&mut self, rt: &R) -> Result<(), Fault> {
        let thread = self.threads.pop().ok_or(Fault::Spent)?;
        self.tell_number(thread.join(rt))
    }

    /// Does what a line says, also of threads, and tells the answer, or the refusal.
    fn tell_line<R: Wait + Threads + RandomSource + AllocGlobal + Copy + Send + 'static>(
        &mut self,
        rt: &R,
        line: &str,
    ) -> Result<(), Fault> {
        let (verb, who) = line.split_once(' ').unwrap_or((line, ""));
        self.text.clear();
        let answer = match verb {
            "start" => self.start(rt, who),
            "sends" => self.send(rt, who),
            "join" => self.join(rt),
            _ => self.answer(rt, line),
        };
        match answer {
            Ok(()) => Ok(()),
            Err(fault) => Ok(write!(self.text, "{fault:?}")?),
        }
    }

    /// Does what each line of a text says, and tells it with its answer behind an arrow.
    pub(crate) fn play<R: Wait + Threads + RandomSource + AllocGlobal + Copy + Send + 'static>(
        &mut self,
        rt: &R,
        lines: &str,
        told: &mut String,
    ) -> Result<(), Fault> {
        for line in lines.lines() {
            self.tell_line(rt, line)?;
            let answer = self.text.as_str().trim();
            write!(told, "{line} => {answer}\n")?;
        }
        Ok(())
    }
}
