//! Conversations with a queue.

use super::*;

/// The first word of a text, and what stands behind it.
fn first_word(text: &str) -> (&str, &str) {
    text.split_once(' ').unwrap_or((text, ""))
}

/// The number that a text is, and the greatest of all where it is none.
fn number(text: &str) -> u64 {
    text.parse::<u64>().unwrap_or(u64::MAX)
}

/// The time of the milliseconds that a text is.
fn moment(text: &str) -> Option<Moment> {
    Moment::new(number(text))
}

/// The time of the milliseconds that a text has to be.
pub(super) fn known_moment(text: &str) -> Result<Moment, Fault> {
    moment(text).ok_or(Fault::UnsupportedOperation)
}

/// A request of attributes, each with its value behind it, and between them `; `.
fn wish(alloc: Global, text: &str) -> Result<Wish, Fault> {
    let mut wish = Wish::new();
    for one in text.split("; ") {
        let (name, value) = first_word(one);
        wish.put(alloc, name, value)?;
    }
    Ok(wish)
}

/// The content of a text so many times over, without attributes.
fn content(alloc: Global, count: &str, text: &str) -> Result<Content, Fault> {
    let body = text.repeat(alloc, number(count) as usize)?;
    Content::new(alloc, body, Vec::new(alloc))
}

/// The handle of a message of the queue: its number and a receipt, with a point between them.
fn handle(text: &str) -> Handle {
    let (message, receipt) = text.split_once('.').unwrap_or((text, ""));
    Handle {
        uid: 2,
        number: number(message),
        receipt: number(receipt),
    }
}

/// Where the dead letter comes from that was sent to another queue at a time.
fn origin(sent: &str) -> Result<Origin, Fault> {
    Ok(Origin {
        uid: 7,
        number: 5,
        name: QueueName::read("other")?,
        id: MessageId { uid: 6, number: 4 },
        sent: known_moment(sent)?,
    })
}

/// The dead letter `d` of another queue, that was sent there at a time.
fn dead_letter(alloc: Global, sent: &str) -> Result<Parcel, Fault> {
    Ok(Parcel {
        origin: origin(sent)?,
        target: 2,
        content: content(alloc, "1", "d")?,
    })
}

/// The delay of so many seconds.
fn delay(text: &str) -> Option<Delay> {
    Delay::new(text.parse::<u16>().unwrap_or(u16::MAX))
}

/// The timeout of so many seconds.
fn timeout(text: &str) -> Option<Timeout> {
    Timeout::new(text.parse::<u32>().unwrap_or(u32::MAX))
}

/// So many messages at most.
fn maximum(text: &str) -> Option<Maximum> {
    Maximum::new(text.parse::<u8>().unwrap_or(u8::MAX))
}

/// The command that a text says: `send` so many times a text, after a delay or the queue's own, `receive` so
/// many for a timeout or the queue's own, `change` a handle to a timeout, `delete` a handle, `purge`, `set`
/// attributes to values, `arrive` a dead letter sent at a time, `settle` a number, `orphan` a uid,
/// `close`, `look`, or the first `parcel`.
fn command(alloc: Global, text: &str) -> Result<Command, Fault> {
    let (verb, rest) = first_word(text);
    let (first, second) = first_word(rest);
    match verb {
        "send" => {
            let (body, seconds) = first_word(second);
            let (content, delay) = (content(alloc, first, body)?, delay(seconds));
            Ok(Command::Send { content, delay })
        }
        "receive" => {
            let maximum = maximum(first).ok_or(Fault::InvalidParameterValue)?;
            let timeout = timeout(second);
            Ok(Command::Receive { maximum, timeout })
        }
        "change" => {
            let timeout = timeout(second).ok_or(Fault::InvalidParameterValue)?;
            let handle = handle(first);
            Ok(Command::Change { handle, timeout })
        }
        "set" => {
            let (wish, target) = (wish(alloc, rest)?, 0);
            Ok(Command::Set { wish, target })
        }
        "arrive" => {
            let parcel = dead_letter(alloc, first)?;
            Ok(Command::Arrive { parcel })
        }
        "delete" => Ok(Command::Delete {
            handle: handle(first),
        }),
        "settle" => Ok(Command::Settle {
            number: number(first),
        }),
        "orphan" => Ok(Command::Orphan {
            target: number(first),
        }),
        "purge" => Ok(Command::Purge),
        "close" => Ok(Command::Close),
        "look" => Ok(Command::Look),
        _ => Ok(Command::FirstParcel),
    }
}

/// The moment and the command that a text says.
pub(super) fn step(alloc: Global, text: &str) -> Result<TimedCommand, Fault> {
    let (at, call) = first_word(text);
    let (at, command) = (known_moment(at)?, command(alloc, call)?);
    Ok(TimedCommand { at, command })
}

/// The rule of an alarm that is on where a message was visible in two of the last three minutes.
fn deep() -> Result<AlarmRule, Fault> {
    Ok(AlarmRule {
        name: QueueName::read("deep")?,
        metric: Metric::ApproximateNumberOfMessagesVisible,
        operator: Operator::GreaterThanThreshold,
        threshold: 0,
        minutes: 3,
        breaches: 2,
    })
}

/// The limits that a text says: how much a journal may weigh, and, behind a stroke, how many messages may be in flight.
fn limits(text: &str) -> Limits {
    let default = Limits::default();
    let (lines, in_flight) = text.split_once("/").unwrap_or((text, ""));
    let lines = lines.parse::<u32>().unwrap_or(1);
    let in_flight = in_flight.parse::<u32>().unwrap_or(default.in_flight);
    Limits {
        max_lines: lines.clamp(1, 16_777_216),
        in_flight: in_flight.clamp(1, 120_000),
    }
}

/// The queue `jobs` of uid 2 with the alarm `deep` that a text says: its limits, when it is opened, and attributes
/// with their values. The dead-letter queue that a policy names has the uid 1.
fn open(alloc: Global, text: &str) -> Result<QueueState, Fault> {
    let (most, rest) = first_word(text);
    let (at, attributes) = first_word(rest);
    let settings = Settings::default().with(&wish(alloc, attributes)?, 1);
    let (at, name, rule) = (known_moment(at)?, QueueName::read("jobs")?, deep()?);
    let mut rules = Vec::new(alloc);
    rules.push(rule)?;
    QueueState::open(alloc, 2, name, settings, limits(most), rules, at)
}

/// Tells a value as it prints itself.
fn tell<T: Debug>(text: &mut String, value: &T) -> Result<(), Fault> {
    Ok(write!(text, "{value:?}")?)
}

/// Tells offers: of each its number, its receipt and its body.
fn tell_offers(text: &mut String, offers: &[Offer]) -> Result<(), Fault> {
    text.push_str("offered")?;
    for offer in offers {
        let body = offer.content.body();
        write!(text, " {}.{} {body}", offer.number, offer.receipt)?;
    }
    Ok(())
}

/// Tells a look: counts and age, entries, its moment, when the queue was opened and when it got settings,
/// the uid of its dead-letter queue, and whether it is closed.
fn tell_look(text: &mut String, look: &Look) -> Result<(), Fault> {
    let target = look.settings.redrive_policy.map(|policy| policy.target);
    let clock = look.clock.milliseconds();
    let times = (look.created.milliseconds(), look.modified.milliseconds());
    tell(
        text,
        &(look.gauges, look.lines, clock, times, target, look.closed),
    )
}

/// Tells where a dead letter comes from, the uid of the queue that it is for, and its body.
fn tell_parcel(text: &mut String, from: &Origin, to: u64, body: &str) -> Result<(), Fault> {
    let from = (
        from.uid,
        from.number,
        from.name.as_text(),
        from.id,
        from.sent,
    );
    tell(text, &(from, to, body))
}

/// Tells an answer: the reply, or the refusal.
fn tell_answer(text: &mut String, answer: &Result<Reply, Fault>) -> Result<(), Fault> {
    match answer {
        Ok(Reply::Received(offers)) => tell_offers(text, offers.as_slice()),
        Ok(Reply::Looked(look)) => tell_look(text, look),
        Ok(Reply::Parcel(Some(parcel))) => {
            tell_parcel(text, &parcel.origin, parcel.target, parcel.content.body())
        }
        Ok(reply) => tell(text, reply),
        Err(fault) => tell(text, fault),
    }
}

/// Tells of a `queue` its uid, its name and whether it has the default settings; how many `messages` it ever
/// had; the row of a `minute`; its counts `now` and what happened in its minute; the `name` of the alarm at a
/// place; the dead letter that is `waiting` first. Tells the delay, the timeout and the
/// maximum of a number that is `in_range`, or their `limits`. None of that takes memory.
fn tell_reading(text: &mut String, queue: &QueueState, call: &str) -> Result<(), Fault> {
    let (word, rest) = first_word(call);
    let at = number(rest);
    match word {
        "queue" => {
            let is_default = queue.settings() == Settings::default();
            tell(text, &(queue.uid(), queue.name().as_text(), is_default))
        }
        "messages" => tell(text, &queue.message_count()),
        "minute" => tell(text, &queue.row(at)),
        "now" => tell(text, &(queue.gauges(), queue.current())),
        "name" => match queue.alarm_name(at as usize) {
            Some(name) => tell(text, &name.as_text()),
            None => tell(text, &"none"),
        },
        "waiting" => match queue.first_waiting() {
            Some((from, to)) => tell_parcel(text, &from, to, ""),
            None => tell(text, &"none"),
        },
        "in_range" => tell(text, &(delay(rest), timeout(rest), maximum(rest))),
        _ => tell(text, &(LONGEST_DELAY, LONGEST_TIMEOUT, MOST_OFFERS)),
    }
}

/// Tells every line of the journal.
fn tell_lines(text: &mut String, queue: &QueueState, ticks: &mut Ticks) -> Result<(), Fault> {
    let journal = queue.journal();
    for place in 0..journal.len() {
        tell(text, &journal.line(place, ticks))?;
    }
    Ok(())
}

/// Tells every row, what has happened since, and the states of the first two alarms.
fn tell_rows(text: &mut String, queue: &QueueState) -> Result<(), Fault> {
    let (first, end) = queue.span();
    for minute in first..end {
        tell(text, &queue.row(minute))?;
    }
    tell(
        text,
        &(queue.current(), queue.alarm_state(0), queue.alarm_state(1)),
    )
}

/// Tells everything that a queue tells but its clock: its uid, name and settings, its counts, lines, rows and alarms,
/// the dead letter that waits first, and whether that of `dead_letter` was accepted. It takes no memory while the
/// text has room.
fn tell_all(text: &mut String, queue: &QueueState, ticks: &mut Ticks) -> Result<(), Fault> {
    text.clear();
    tell_reading(text, queue, "queue")?;
    tell_reading(text, queue, "messages")?;
    tell_reading(text, queue, "waiting")?;
    tell(text, &queue.has_accepted(&origin("0")?))?;
    tell(text, &(queue.settings(), queue.gauges(), queue.span()))?;
    tell_lines(text, queue, ticks)?;
    tell_rows(text, queue)
}

/// How many of these rows are of minutes in which nothing happened and nothing was there.
fn quiet_rows(rows: &[Row]) -> usize {
    let nothing = Gauges {
        visible: 0,
        delayed: 0,
        in_flight: 0,
        age: 0,
    };
    rows.iter()
        .filter(|row| row.flows == Flows::none() && row.gauges == nothing)
        .count()
}

/// A failure unless what a line gave is what was wanted.
fn same(line: &str, told: &str, wanted: &str) -> Result<(), Fail> {
    if told == wanted {
        return Ok(());
    }
    Err(Fail::new(format_args!("{line}: {told}, not {wanted}")))
}

/// A queue, what its calls take, what was told last, what the queue told before a call and behind it, the
/// operations of telling that, and how many calls found no memory.
pub(super) struct Talk {
    pub(super) alloc: Global,
    pub(super) queue: QueueState,
    pub(super) ticks: Ticks,
    text: String,
    before: String,
    behind: String,
    aside: Ticks,
    refused: u32,
}

/// Written out, so that a function which lets a conversation go has one step for all its parts in its proof.
impl Drop for Talk {
    fn drop(self) {
        let Talk {
            alloc: _alloc,
            queue: _queue,
            ticks: _ticks,
            text: _text,
            before: _before,
            behind: _behind,
            aside: _aside,
            refused: _refused,
        } = self;
    }
}

impl Talk {
    /// A conversation with a queue to begin with. What is told has its memory from the beginning, so that a call
    /// can be made again where memory is refused, and that to tell the queue's own state takes none.
    fn open(rt: &HostRuntime) -> Result<Talk, Fault> {
        let (alloc, ticks) = (rt.alloc(), Ticks::new(rt));
        let text = String::with_capacity(alloc, 1000)?;
        let before = String::with_capacity(alloc, 10_000)?;
        let behind = String::with_capacity(alloc, 10_000)?;
        let queue = open(alloc, "99 0 DelaySeconds 0")?;
        Ok(Talk {
            alloc,
            queue,
            ticks,
            text,
            before,
            behind,
            aside: Ticks::new(rt),
            refused: 0,
        })
    }

    /// The same, opened once more where memory was refused.
    pub(super) fn new(rt: &HostRuntime) -> Result<Talk, Fault> {
        Talk::open(rt).or_else(|_| Talk::open(rt))
    }

    /// What a look sees at the clock.
    fn look(&mut self) -> Look {
        self.queue.look(Moment::zero(), &mut self.ticks)
    }

    /// Notes all that the queue tells but its clock.
    fn note(&mut self) -> Result<(), Fault> {
        tell_all(&mut self.before, &self.queue, &mut self.aside)
    }

    /// Whether the queue tells what was noted.
    fn is_as_noted(&mut self) -> Result<bool, Fault> {
        tell_all(&mut self.behind, &self.queue, &mut self.aside)?;
        Ok(self.behind.as_str() == self.before.as_str())
    }

    /// Performs a command, and tells the answer. Where memory is refused and the clock alone has moved, it
    /// comes again.
    fn perform(&mut self, at: Moment, command: &Command) -> Result<(), Fault> {
        self.note()?;
        let old = self.look();
        let answer = self.queue.perform(self.alloc, at, command, &mut self.ticks);
        match answer {
            Err(Fault::OutOfMemory) => self.perform_again(Look { clock: at, ..old }, command),
            _ => tell_answer(&mut self.text, &answer),
        }
    }

    /// Performs a command at the clock, where a look sees what it has to see and the queue tells what was noted, and
    /// tells the answer.
    fn perform_again(&mut self, wanted: Look, command: &Command) -> Result<(), Fault> {
        if self.look() != wanted || !self.is_as_noted()? {
            return Err(Fault::UnsupportedOperation);
        }
        self.refused = self.refused.saturating_add(1);
        let at = wanted.clock;
        let answer = self.queue.perform(self.alloc, at, command, &mut self.ticks);
        tell_answer(&mut self.text, &answer)
    }

    /// Goes on with another queue.
    fn reopen(&mut self, text: &str) -> Result<(), Fault> {
        self.queue = open(self.alloc, text)?;
        Ok(())
    }

    /// Tells of a dead letter that arrives whether it was known, and the answer.
    fn arrive(&mut self, sent: &str) -> Result<(), Fault> {
        let parcel = dead_letter(self.alloc, sent)?;
        let (origin, ticks) = (parcel.origin, &mut self.ticks);
        let known = self.queue.has_accepted(&origin);
        let arrival = self.queue.arrive(self.alloc, origin.sent, parcel, ticks)?;
        tell(&mut self.text, &(known, arrival))
    }

    /// Tells what is read: the `span` of the minutes and how many rows; how many rows are of `zeros`; the `state` of
    /// the alarm at a place, and all states; the `line` at a place, and the `marks` from there on, with the operations counted; of a dead letter that `arrives`
    /// whether it was known. It may `advance` the clock, `reserve` room for so many entries or `open` another queue. Any other reading takes no memory.
    fn read(&mut self, call: &str) -> Result<(), Fault> {
        let (word, rest) = first_word(call);
        let (at, alloc) = (number(rest) as usize, self.alloc);
        let (queue, text) = (&mut self.queue, &mut self.text);
        match word {
            "span" => tell(text, &(queue.span(), queue.rows(alloc)?.len())),
            "zeros" => tell(text, &quiet_rows(queue.rows(alloc)?.as_slice())),
            "state" => {
                let states = queue.alarm_states(alloc)?;
                tell(text, &(queue.alarm_state(at), states.as_slice()))
            }
            "line" => tell(text, &queue.journal().line(at, &mut self.ticks)),
            "marks" => {
                let marks = queue.journal().marks(alloc, at, &mut self.ticks)?;
                tell(text, &(marks.as_slice(), self.ticks.count()))
            }
            "advance" => {
                queue.advance(known_moment(rest)?, &mut self.ticks);
                Ok(())
            }
            "reserve" => queue.reserve(alloc, at),
            "arrives" => self.arrive(rest),
            "open" => self.reopen(rest),
            _ => tell_reading(text, queue, call),
        }
    }

    /// Makes the call of a line, and tells its answer: a command, behind its moment, or else a reading.
    fn call(&mut self, line: &str) -> Result<(), Fault> {
        self.text.clear();
        let (at, rest) = first_word(line);
        match moment(at) {
            Some(at) => {
                let command = command(self.alloc, rest)?;
                self.perform(at, &command)
            }
            None => self.read(line),
        }
    }

    /// Has a conversation, in which each call has to answer what its line says behind its arrow. A call that finds
    /// no memory is made again. Operations are counted anew.
    pub(super) fn hold(&mut self, rt: &HostRuntime, text: &str) -> Result<(), Fail> {
        self.ticks = Ticks::new(rt);
        for line in text.lines() {
            let (call, wanted) = line.split_once(" => ").unwrap_or((line, ""));
            match self.call(call) {
                Err(Fault::OutOfMemory) => {
                    self.refused = self.refused.saturating_add(1);
                    self.call(call)?;
                }
                told => told?,
            }
            same(line, self.text.as_str(), wanted)?;
        }
        Ok(())
    }

    /// Has a conversation in three parts.
    fn hold_parts(&mut self, rt: &HostRuntime, parts: [&str; 3]) -> Result<(), Fail> {
        for part in parts {
            self.hold(rt, part)?;
        }
        Ok(())
    }

    /// The same, and once more where a call found no memory. Behind that no conversation is begun.
    pub(super) fn hold_or_again(&mut self, rt: &HostRuntime, parts: [&str; 3]) -> Result<(), Fail> {
        if 0 < self.refused {
            return Ok(());
        }
        self.hold_parts(rt, parts)?;
        if self.refused == 0 {
            return Ok(());
        }
        self.hold_parts(rt, parts)
    }

    /// Has a conversation where no call may find no memory.
    pub(super) fn hold_with_room(&mut self, rt: &HostRuntime, text: &str) -> Result<(), Fail> {
        let before = self.refused;
        self.hold(rt, text)?;
        if self.refused == before {
            return Ok(());
        }
        Err(Fail::new("a call found no memory where there was room"))
    }

    /// A failure where more than one call found no memory.
    pub(super) fn end(&self) -> Result<(), Fail> {
        if self.refused <= 1 {
            return Ok(());
        }
        Err(Fail::new("more than one call found no memory"))
    }

    /// Runs two commands in a list, which have to answer that they are done and what a look sees. Where there is
    /// no memory for their answers, nothing has changed, the clock neither, and they are run again.
    pub(super) fn list(&mut self, texts: [&str; 2]) -> Result<(), Fail> {
        let steps = [step(self.alloc, texts[0])?, step(self.alloc, texts[1])?];
        self.note()?;
        let before = self.look();
        let is_done = match self.run(&steps) {
            Err(Fault::OutOfMemory) if self.look() == before && self.is_as_noted()? => {
                self.refused = self.refused.saturating_add(1);
                self.run(&steps)?
            }
            is_done => is_done?,
        };
        if is_done {
            return Ok(());
        }
        Err(Fail::new("other answers"))
    }

    /// Runs commands, and gives whether they answered that the first is done and what a look sees.
    fn run(&mut self, steps: &[TimedCommand]) -> Result<bool, Fault> {
        let answers = self.queue.run(self.alloc, steps, &mut self.ticks)?;
        Ok(matches!(answers.as_slice(), [Ok(Reply::Done), Ok(Reply::Looked(_))]))
    }
}
