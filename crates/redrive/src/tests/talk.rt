//! Conversations with a registry and a name directory.

use super::told::told_by;
use super::*;

/// A registry, a name directory, what their calls take, what was told last, and how many lines were had.
pub(super) struct Talk {
    alloc: Global,
    house: House,
    catalog: Catalog,
    ticks: Ticks,
    text: String,
    had: usize,
}

/// The configuration of a registry, and two conversations, one behind the other.
#[derive(Clone, Copy)]
pub(super) struct Plan {
    pub(super) config: &'static str,
    pub(super) texts: [&'static str; 2],
}

/// Written out, so that a function which lets a conversation go has one step for all its parts in its proof.
impl Drop for Talk {
    fn drop(self) {
        let Talk {
            alloc: _alloc,
            house: _house,
            catalog: _catalog,
            ticks: _ticks,
            text: _text,
            had: _had,
        } = self;
    }
}

/// The first word of a text, and what stands behind it.
fn first_word(text: &str) -> (&str, &str) {
    text.split_once(' ').unwrap_or((text, ""))
}

/// The number that a text is, and 0 where it is none.
fn number(text: &str) -> u64 {
    text.parse::<u64>().unwrap_or(0)
}

/// The parts of a line: its call, the queue's name, its uid, the moment, and a number.
fn parts(line: &str) -> (&str, &str, u64, Moment, u64) {
    let (call, rest) = first_word(line);
    let (name, rest) = first_word(rest);
    let (at, rest) = first_word(rest);
    let (more, _) = first_word(rest);
    let at = Moment::new(number(at)).unwrap_or(Moment::zero());
    (call, name, number(name), at, number(more))
}

/// Requests the attribute of a word that has an equals sign.
fn request(alloc: Global, wish: &mut Wish, word: &str) -> Result<(), Fault> {
    match word.split_once('=') {
        Some((name, value)) => wish.put(alloc, name, value),
        None => Ok(()),
    }
}

/// The attributes that a line requests: each word of it with an equals sign.
fn requested(alloc: Global, line: &str) -> Result<Wish, Fault> {
    let mut wish = Wish::new();
    for word in line.split(' ') {
        request(alloc, &mut wish, word)?;
    }
    Ok(wish)
}

/// The command of a line. A call that is none has a look.
fn command(alloc: Global, call: &str, number: u64, line: &str) -> Result<Command, Fault> {
    let (delay, timeout) = (None, None);
    match call {
        "send" => {
            let body = String::from_str(alloc, "hello")?;
            let content = Content::new(alloc, body, Vec::new(alloc))?;
            Ok(Command::Send { content, delay })
        }
        "receive" => {
            let maximum = Maximum::new(1).ok_or(Fault::InvalidParameterValue)?;
            Ok(Command::Receive { maximum, timeout })
        }
        "set" => {
            let (wish, target) = (requested(alloc, line)?, number);
            Ok(Command::Set { wish, target })
        }
        "settle" => Ok(Command::Settle { number }),
        "orphan" => Ok(Command::Orphan { target: number }),
        "close" => Ok(Command::Close),
        "parcel" => Ok(Command::FirstParcel),
        _ => Ok(Command::Look),
    }
}

/// The step of a line. A call that is none is a command.
fn step(alloc: Global, line: &str) -> Result<HouseStep, Fault> {
    let (call, name, uid, at, number) = parts(line);
    match call {
        "create" => {
            let (name, wish) = (QueueName::read(name)?, requested(alloc, line)?);
            Ok(HouseStep::Create { at, name, wish })
        }
        "delete" => Ok(HouseStep::Delete { at, uid }),
        "hand" => Ok(HouseStep::HandOver { at, source: uid }),
        "confirm" => Ok(HouseStep::Confirm { at, source: uid }),
        "advance" => Ok(HouseStep::Advance { at }),
        _ => {
            let command = command(alloc, call, number, line)?;
            Ok(HouseStep::Perform { at, uid, command })
        }
    }
}

/// Tells a value as it prints itself.
pub(super) fn tell<T: Debug>(text: &mut String, value: &T) -> Result<(), Fault> {
    Ok(write!(text, "{value:?}")?)
}

/// Tells a word and a number.
fn tell_number(text: &mut String, word: &str, number: u64) -> Result<(), Fault> {
    Ok(write!(text, "{word} {number}")?)
}

/// Tells what a look sees: the clock, the entries of the journal, and how many messages are visible,
/// delayed and in flight.
fn tell_look(text: &mut String, look: &Look) -> Result<(), Fault> {
    let (at, lines, gauges) = (look.clock.milliseconds(), look.lines, look.gauges);
    let (visible, delayed) = (gauges.visible, gauges.delayed);
    Ok(write!(
        text,
        "{at} {lines} {visible} {delayed} {}",
        gauges.in_flight
    )?)
}

/// Tells how many names a list has, and which.
fn tell_names(text: &mut String, names: &Vec<QueueName>) -> Result<(), Fault> {
    write!(text, "{}", names.len())?;
    for name in names {
        write!(text, " {}", name.as_text())?;
    }
    Ok(())
}

/// A failure unless what a line gave is what was wanted.
fn same<T: Debug + Drop + PartialEq>(line: &str, told: T, wanted: T) -> Result<(), Fail> {
    if told == wanted {
        return Ok(());
    }
    Err(Fail::new(format_args!("{line}: {told:?}, not {wanted:?}")))
}

/// Tells a reply, each kind in its own words.
fn tell_reply(text: &mut String, reply: &Reply) -> Result<(), Fault> {
    match reply {
        Reply::Sent(posted) => tell_number(text, "sent", posted.number),
        Reply::Received(offers) => tell_number(text, "offered", offers.as_slice().len() as u64),
        Reply::Looked(look) => tell_look(text, look),
        other => {
            text.push_str("Performed(")?;
            tell(text, other)?;
            Ok(text.push(')')?)
        }
    }
}

/// Tells the uid and the place of the queue of a name, and the uid of the queue that stands there.
fn tell_place(text: &mut String, house: &House, name: &QueueName) -> Result<(), Fault> {
    match house.find_place(name) {
        Some(found) => tell(text, &(found.uid, found.place, house.queue_at(found).uid())),
        None => Ok(text.push_str("None")?),
    }
}

/// A registry with the limits and the queues of a configuration.
fn configured(alloc: Global, config: &str) -> Result<House, Fault> {
    let config = config_from_text(alloc, config).map_err(|_| Fault::OutOfMemory)?;
    House::new(alloc, &config, Moment::zero())
}

impl Talk {
    /// A registry with the limits and the queues of a configuration, and an empty directory.
    fn open(rt: &HostRuntime, config: &str) -> Result<Talk, Fault> {
        let (alloc, ticks) = (rt.alloc(), Ticks::new(rt));
        let text = String::with_capacity(alloc, 300)?;
        let catalog = Catalog::new(alloc)?;
        let house = configured(alloc, config)?;
        Ok(Talk {
            alloc,
            house,
            catalog,
            ticks,
            text,
            had: 0,
        })
    }

    /// The same after the conversations of a plan. One that finds no memory to begin with begins again, which is counted.
    pub(super) fn after(rt: &HostRuntime, plan: Plan, refused: &mut u32) -> Result<Talk, Fail> {
        let mut talk = match Talk::open(rt, plan.config) {
            Err(Fault::OutOfMemory) => {
                *refused = refused.saturating_add(1);
                Talk::open(rt, plan.config)?
            }
            talk => talk?,
        };
        for text in plan.texts {
            talk.hold(rt, plan, text, refused)?;
        }
        Ok(talk)
    }

    /// A talk by the plan that has come to as many lines, and was refused nothing.
    fn twin(&self, rt: &HostRuntime, plan: Plan) -> Result<Talk, Fault> {
        let mut twin = Talk::open(rt, plan.config)?;
        for text in plan.texts {
            for line in text.lines().take(self.had.saturating_sub(twin.had)) {
                let (call, _) = line.split_once(" => ").unwrap_or((line, ""));
                let step = step(self.alloc, call)?;
                drop(twin.call(call, &step));
                twin.had = twin.had.saturating_add(1);
            }
        }
        Ok(twin)
    }

    /// The step of a line, made once more where it finds no memory, which is counted.
    fn step(&self, line: &str, refused: &mut u32) -> Result<HouseStep, Fault> {
        match step(self.alloc, line) {
            Err(Fault::OutOfMemory) => {
                *refused = refused.saturating_add(1);
                step(self.alloc, line)
            }
            step => step,
        }
    }

    /// Makes the call of a step.
    fn make(&mut self, step: &HouseStep) -> Result<HouseReply, Fault> {
        let (alloc, house, ticks) = (self.alloc, &mut self.house, &mut self.ticks);
        match step {
            HouseStep::Create { at, name, wish } => {
                Ok(HouseReply::Created(house.create(alloc, *at, *name, *wish)?))
            }
            HouseStep::Delete { at, uid } => {
                Ok(HouseReply::Deleted(house.take_queue(alloc, *uid, *at, ticks)?))
            }
            HouseStep::Perform { at, uid, command } => {
                Ok(HouseReply::Performed(house.step(alloc, *uid, *at, command, ticks)?))
            }
            HouseStep::HandOver { at, source } => {
                Ok(HouseReply::HandedOver(house.arrive_one(alloc, *source, *at, ticks)?))
            }
            HouseStep::Confirm { .. } => Err(Fault::UnsupportedOperation),
            HouseStep::Advance { at } => {
                house.advance_all(*at, ticks);
                Ok(HouseReply::Advanced)
            }
        }
    }

    /// Tells the answer to a step, each kind in its own words: of a queue that was deleted what a look
    /// sees.
    fn tell(&mut self, answer: &mut Result<HouseReply, Fault>) -> Result<(), Fault> {
        let text = &mut self.text;
        text.clear();
        match answer {
            Ok(HouseReply::Created(uid)) => tell_number(text, "created", *uid),
            Ok(HouseReply::Deleted(queue)) => {
                write!(text, "deleted {}: ", queue.uid())?;
                tell_look(text, &queue.look(Moment::zero(), &mut self.ticks))
            }
            Ok(HouseReply::Performed(reply)) => tell_reply(text, reply),
            Ok(HouseReply::HandedOver(moved)) => tell(text, moved),
            Err(fault) => Ok(text.push_str(fault.name())?),
            Ok(other) => tell(text, other),
        }
    }

    /// Makes the call of a step, and tells its answer.
    fn act(&mut self, step: &HouseStep) -> Result<(), Fault> {
        let mut answer = self.make(step);
        match answer {
            Err(fault) => Err(fault),
            _ => self.tell(&mut answer),
        }
    }

    /// Makes the call of a line, which may be a step, and tells its answer.
    fn call(&mut self, line: &str, step: &HouseStep) -> Result<(), Fault> {
        let (call, name, uid, at, _) = parts(line);
        let (alloc, house, text) = (self.alloc, &mut self.house, &mut self.text);
        text.clear();
        match call {
            "find" => tell(text, &house.find(&QueueName::read(name)?)),
            "place" => tell_place(text, house, &QueueName::read(name)?),
            "state" => tell(text, &house.state(uid).is_some()),
            "row" => tell(
                text,
                &house
                    .state(uid)
                    .and_then(|queue| queue.row(at.milliseconds())),
            ),
            "list" => tell_names(text, &house.list(alloc, name)?),
            "sources" => tell_names(text, &house.sources(alloc, uid)?),
            "move" => tell(text, &house.move_one(alloc, uid, at, &mut self.ticks)?),
            "drop" => tell(text, &house.delete_queue(alloc, uid, at, &mut self.ticks)?),
            "entry" | "names" | "users" | "remove" | "target" | "add" => self.look_up(line),
            _ => self.act(step),
        }
    }

    /// The uid of the queue whose clock moves where the call finds no memory for an entry, and 0 where there is none.
    fn moved(&self, call: &str, uid: u64) -> u64 {
        match call {
            "send" | "receive" | "set" | "delete" | "drop" => uid,
            "hand" | "move" => {
                let first = self
                    .house
                    .state(uid)
                    .and_then(|queue| queue.first_waiting());
                match first {
                    Some((_, target)) if self.house.state(target).is_some() => target,
                    Some(_) => uid,
                    None => 0,
                }
            }
            _ => 0,
        }
    }

    /// Moves the clock of the queue of a uid.
    fn look(&mut self, uid: u64, at: Moment) {
        let look = self
            .house
            .step(self.alloc, uid, at, &Command::Look, &mut self.ticks);
        drop(look);
    }

    /// Whether a parcel was handed over.
    fn hand(&mut self, uid: u64, at: Moment) -> bool {
        let (alloc, house, ticks) = (self.alloc, &mut self.house, &mut self.ticks);
        let moved = house.arrive_one(alloc, uid, at, ticks);
        moved == Ok(Moved::Arrived) || moved == Ok(Moved::Again)
    }

    /// All that the queues tell.
    fn told(&mut self) -> Result<String, Fault> {
        let (alloc, house, ticks) = (self.alloc, &mut self.house, &mut self.ticks);
        told_by(alloc, house, ticks)
    }

    /// Whether two registries tell the same.
    fn tells_as(&mut self, other: &mut Talk) -> Result<bool, Fault> {
        let (told, wanted) = (self.told()?, other.told()?);
        Ok(told.as_str() == wanted.as_str())
    }

    /// Whether the call of a line, which found no memory, has done the first half of a move. It has done no more:
    /// the queues tell what they told before, at the moment of the call; or what they tell where a parcel was handed
    /// over, and its source then looked at.
    fn is_half_done(&mut self, rt: &HostRuntime, plan: Plan, line: &str) -> Result<bool, Fail> {
        let (call, _, uid, at, _) = parts(line);
        let mut twin = self.twin(rt, plan)?;
        let moved = twin.moved(call, uid);
        twin.look(moved, at);
        if self.tells_as(&mut twin)? {
            return Ok(false);
        }
        let is_move = call == "move" && twin.hand(uid, at);
        twin.look(uid, at);
        if is_move && self.tells_as(&mut twin)? {
            return Ok(true);
        }
        Err(Fail::new(format_args!("{line}: it has changed what is told")))
    }

    /// Makes the call of a line at the name directory, and tells its answer.
    fn look_up(&mut self, line: &str) -> Result<(), Fault> {
        let (call, name, uid, at, _) = parts(line);
        let (alloc, target) = (self.alloc, at.milliseconds());
        let (catalog, text) = (&mut self.catalog, &mut self.text);
        match call {
            "entry" => tell(text, &catalog.find(&QueueName::read(name)?)),
            "names" => tell_names(text, &catalog.list(alloc, name)?),
            "users" => tell_names(text, &catalog.sources(alloc, uid)?),
            "remove" => tell(text, &catalog.remove(uid)),
            "target" => tell(text, &catalog.set_target(uid, target)),
            _ => {
                let name = QueueName::read(name)?;
                if catalog.find(&name).is_some() {
                    return Ok(());
                }
                tell_number(text, "added", catalog.add(alloc, name, target)?)
            }
        }
    }

    /// Has a conversation, in which each call has to answer what its line says. One that finds no memory is made
    /// again, which is counted, and answers what stands behind `or` where its first half was done.
    pub(super) fn hold(
        &mut self,
        rt: &HostRuntime,
        plan: Plan,
        text: &str,
        refused: &mut u32,
    ) -> Result<(), Fail> {
        for line in text.lines() {
            let (call, wanted) = line.split_once(" => ").ok_or("an answer")?;
            let (mut wanted, or) = wanted.split_once(" or ").unwrap_or((wanted, ""));
            let step = self.step(call, refused)?;
            let mut answer = self.call(call, &step);
            if answer == Err(Fault::OutOfMemory) {
                *refused = refused.saturating_add(1);
                wanted = if self.is_half_done(rt, plan, call)? {
                    or
                } else {
                    wanted
                };
                answer = self.call(call, &step);
            }
            if let Err(fault) = answer {
                self.tell(&mut Err(fault))?;
            }
            same(line, self.text.as_str(), wanted)?;
            self.had = self.had.saturating_add(1);
        }
        Ok(())
    }

    /// Runs the steps of a text. One that finds no memory for its lists does nothing.
    fn run(&mut self, text: &str) -> Result<HouseRun, Fault> {
        let mut steps = Vec::new(self.alloc);
        for line in text.lines() {
            let (call, _) = line.split_once(" => ").unwrap_or((line, ""));
            steps.push(step(self.alloc, call)?)?;
        }
        self.house.run(self.alloc, &steps, 0, 0, &mut self.ticks)
    }

    /// Runs a step again alone, and tells its answer and what is told of the queues then.
    fn run_again(&mut self, line: &str, metrics: &mut Vec<QueueMetrics>) -> Result<(), Fault> {
        let mut again = self.run(line)?;
        *metrics = again.metrics;
        for answer in again.answers.iter_mut() {
            self.tell(answer)?;
        }
        Ok(())
    }

    /// Counts the queues: how many there are, and each by its uid and its visible messages.
    fn count(&mut self, metrics: &Vec<QueueMetrics>) -> Result<(), Fault> {
        self.text.clear();
        write!(self.text, "{}", metrics.len())?;
        for queue in metrics {
            write!(self.text, " {}:{}", queue.uid, queue.gauges.visible)?;
        }
        Ok(())
    }

    /// Compares what a list of steps gave with what each line says, and the queues after it with `counts`. A
    /// step that finds no memory is run again alone, which is counted.
    fn compare(
        &mut self,
        text: &str,
        run: &mut HouseRun,
        counts: &str,
        refused: &mut u32,
    ) -> Result<(), Fail> {
        same(text, run.answers.len(), text.lines().count())?;
        for (line, answer) in text.lines().zip(run.answers.iter_mut()) {
            let (_, wanted) = line.split_once(" => ").ok_or("an answer")?;
            self.tell(answer)?;
            if self.text.as_str() == Fault::OutOfMemory.name() {
                *refused = refused.saturating_add(1);
                self.run_again(line, &mut run.metrics)?;
            }
            same(line, self.text.as_str(), wanted)?;
        }
        self.count(&run.metrics)?;
        same(text, self.text.as_str(), counts)
    }

    /// Runs a list of steps, each of which has to answer what its line says, and counts the queues after
    /// it: how many there are, and each by its uid and its visible messages. A list that finds no memory for what
    /// it gives is run again, which is counted.
    pub(super) fn list(
        &mut self,
        rt: &HostRuntime,
        plan: Plan,
        text: &str,
        counts: &str,
        refused: &mut u32,
    ) -> Result<(), Fail> {
        let mut run = match self.run(text) {
            Err(Fault::OutOfMemory) => {
                *refused = refused.saturating_add(1);
                same(text, self.is_half_done(rt, plan, "")?, false)?;
                self.run(text)?
            }
            run => run?,
        };
        self.compare(text, &mut run, counts, refused)
    }
}
