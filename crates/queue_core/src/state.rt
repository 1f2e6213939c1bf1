//! A queue, kept as its journal, a clock, an index of its messages, and a watch of its last minutes.

ghost use Rattle.std.specs.Prelude.{◌≡◌, ℕ, max, ◌+◌, ◌-◌, ◌<◌, ◌≤◌, ◌^◌, ◌/◌, ◌≢◌, nat_lt, nat_le, true, false, length, slice_get, option_map, if◌then◌else◌, unwrap_or, Some, None, Ok, Err, IsTrue, IfSome, IfOk, OnOk, OnErr, IfErr};
ghost use Rattle.std.specs.Option.{ForSome, option_map_or};
ghost use Rattle.message.specs.declared.fault.Fault.TheVariants.{OutOfMemory};
ghost use Rattle.message.specs.Fault.{Meets, is_out_of_memory};
ghost use Rattle.message.specs.Content.{content_size, is_content};
ghost use Rattle.journal.specs.Weight.{weight_of};
ghost use Rattle.queue_config.specs.Limits.{max_lines_row};
ghost use Rattle.queue_config.specs.Settings.{AreSettings, settings_with};

use crate::accepted::Accepted;
use crate::command::{Command, Delay, Maximum, TimedCommand, Timeout};
use crate::index::MessageIndex;
use crate::indices::{is_here, is_in_flight};
use crate::offers::{Offer, Offers};
use crate::parcel::Arrival;
use crate::passing::catch_up;
use crate::record::{Record, record_born};
use crate::reply::{Look, Posted, Reply};
use crate::tally::Tally;
use crate::watch::Watch;
use journal::{Entry, Event, Journal, Moment, Numbers, Origin, Ticks};
use message::{Content, Fault, MessageId, QueueName};
use metric_window::{Gauges, minute_of};
use queue_config::{AlarmRule, Limits, Settings, Wish};
use receipt_handle::Handle;
use std::alloc::Global;
use std::marker::Model;

mod alarms;
mod dead_letters;
mod metrics;
mod rebase;

/// How many messages may leave by one receive. This project's own choice.
const MOST_DEPARTURES: u64 = 100;

/// What a receive does: the numbers of the messages that it offers and of those that leave, each in order.
#[derive(Drop)]
struct Scan {
    offered: Numbers,
    leaving: Numbers,
}

/// One queue. Contracts see its uid, its name, its limits, the rules of its alarms, its clock, its
/// journal's lines, and its spare: for how many entries more there is room for sure. [`QueueState::reserve`]
/// makes such room, and each entry takes one place of it, where there is one. A queue that is opened has none.
///
/// Where there is room for one entry more and no checkpoint comes first, a command needs memory only where it begins a
/// message, is a receive or hands over a parcel: every other one, and every refusal, is never answered `OutOfMemory`.
///
/// Each command but `FirstParcel` acts at the later of the moment that it is handed and the queue's
/// clock, which it leaves there; `FirstParcel` leaves the clock as it is. A closed queue answers each
/// command but a look and `FirstParcel` with `QueueDoesNotExist`, before anything else is judged, also
/// before `JournalFull`; only its clock moves.
///
/// Each call that is handed a counter of operations counts at most `most_ticks` of the queue before and behind it, also
/// where it is refused or finds no memory; `run` at most the sum of that over its commands. An operation is a
/// comparison of two pairs of a time and a number, or a line of the journal that is read.
#[derive(Debug)]
pub struct QueueState {
    uid: u64,
    name: QueueName,
    limits: Limits,
    rules: Vec<AlarmRule>,
    clock: Moment,
    journal: Journal,
    tally: Tally,
    index: MessageIndex,
    accepted: Accepted,
    watch: Watch,
}

impl Model for QueueState {
    ghost use Rattle.queue_core.specs.Queue.{QueueHistory};
    ghost use Rattle.queue_core.specs.private.Kept.{IsKept};
    ghost use Rattle.queue_core.specs.private.Tally.{Tallies};
    ghost use Rattle.queue_core.specs.private.Indexed.{Keeps};
    ghost use Rattle.queue_core.specs.Summary.{summary_of};
    ghost use Rattle.queue_core.specs.private.Accepted.{AreAccepted};
    ghost use Rattle.metric_window.specs.Flows.{minute_of};
    ghost use Rattle.queue_core.specs.private.Watched.{IsWatchOf};

    ghost Value = { QueueHistory };

    ghost view = { λ q. record { uid = q.uid; name = q.name; limits = q.limits; rules = q.rules.items; clock = q.clock; lines = q.journal.lines; spare = q.journal.spare } };

    ghost invariant = { λ q. IsKept (record { uid = q.uid; name = q.name; limits = q.limits; rules = q.rules.items; clock = q.clock; lines = q.journal.lines; spare = q.journal.spare }) q.journal.limit × Tallies q.tally (summary_of q.journal.lines q.clock) × Keeps q.index (summary_of q.journal.lines q.clock) q.clock × AreAccepted q.accepted (summary_of q.journal.lines q.clock).accepted × IsWatchOf (summary_of q.journal.lines q.clock).rows (summary_of q.journal.lines q.clock).flows (minute_of q.clock) q.rules.items q.watch };
}

// It does what a derived one does. It is written out since a derived one is gone through part by part in the proof of every
// function that lets a queue go, and this one is a call there.
impl Drop for QueueState {
    fn drop(self) {
        let QueueState {
            uid: _,
            name: _,
            limits: _,
            rules,
            clock: _,
            journal,
            tally: _,
            index,
            accepted,
            watch,
        } = self;
        let _parts = (rules, journal, index, accepted, watch);
    }
}

impl QueueState {
    ghost use Rattle.journal.specs.declared.entry.Event.TheVariants.{Deleted, DeletedAgain, Refused};
    ghost use Rattle.queue_core.specs.declared.facts.MessageState.TheVariants.{InFlight};
    ghost use Rattle.queue_core.specs.Messages.{is_closed, created_time, modified_time, message_count, own_id, message_id, content_of, settings_of, receive_count, first_receive_time};
    ghost use Rattle.queue_core.specs.States.{is_live, is_in_state, is_numbered, message_numbered, receive_order, oldest_age, gauges_of};
    ghost use Rattle.queue_core.specs.declared.facts.Candidate.{Candidate};
    ghost use Rattle.queue_core.specs.declared.facts.Message.{Message};
    ghost use Rattle.queue_core.specs.private.Recorded.{IsRecordOf};
    ghost use Rattle.queue_core.specs.Queue.{QueueHistory, has_room, wants_place_alone, at_moment, is_at_limit, first_refusal, in_flight_count, offer_limit, offered_candidates, leaving_candidates, numbers_of, policy_target, offer_of, offers_of, is_valid_handle, is_latest_handle, holds_in_flight, holds_live, passes_twelve_hours, change_refusal, look_of, outcome_in, outcome_at, IsExact, IsExactWithRoom, with_event, after_outcome, after_answer, as_reply};
    ghost use Rattle.queue_core.specs.Ranges.{IsDelay, IsTimeout, IsMaximum};
    ghost use Rattle.queue_core.specs.Legal.{IsLegal, IsCausedIn};
    ghost use Rattle.queue_core.specs.Kept.{opened_queue};
    ghost use Rattle.queue_core.specs.Run.{AreAnswers, AreExact, AreExactWithRoom, after_all};
    ghost use Rattle.queue_core.specs.Cost.{most_ticks, most_ticks_of_all};
    ghost use Rattle.queue_core.specs.private.Spending.{HasCome};

    /// Opens a queue, with the rules of its alarms. `OutOfMemory` is the only refusal.
    pub fn open(
        alloc: Global,
        uid: u64,
        name: QueueName,
        settings: Settings,
        limits: Limits,
        rules: Vec<AlarmRule>,
        at: Moment,
    ) -> Result<QueueState, Fault>
        ensures { Meets result (Ok (opened_queue uid name settings limits rules.items at)) }
    {
        let mut journal = Journal::new(alloc, limits.max_lines as usize + 1)?;
        // A field that is read tells the proof that the numbers are in range.
        let _seconds = settings.delay_seconds;
        let event = Event::Opened { uid, settings };
        journal.push(alloc, Entry { at, event })?;
        let watch = Watch::open(alloc, minute_of(at), rules.as_slice())?;
        Ok(QueueState {
            uid,
            name,
            limits,
            rules,
            clock: at,
            journal,
            tally: Tally::opened(settings, at),
            index: MessageIndex::new(alloc),
            accepted: Accepted::new(alloc),
            watch,
        })
    }

    /// Moves the clock to a moment, where that is later.
    fn move_to(&mut self, at: Moment, ticks: &mut Ticks)
        ensures state { self.new ≡ at_moment self.old at }
        ensures come { HasCome ticks.old self.old ticks.new self.new }
    {
        let _kept = self.index.len();
        let clock = self.clock.later(at);
        let retention = self.tally.settings.retention_seconds;
        catch_up(&mut self.index, &mut self.watch, retention, clock, ticks);
        self.clock = clock;
    }

    /// Whether the queue was closed.
    fn is_closed(&self) -> bool
        ensures { result ≡ is_closed self.now.lines }
    {
        self.tally.is_closed
    }

    /// What refuses a command before anything of it is asked.
    fn first_refusal(&self) -> Option<Fault>
        ensures { result ≡ first_refusal self.now }
    {
        if self.is_closed() {
            return Some(Fault::QueueDoesNotExist);
        }
        if self.is_full() {
            return Some(Fault::JournalFull);
        }
        None
    }

    /// Moves the clock, and refuses what comes to a closed queue or a full journal. It takes no
    /// memory.
    fn begin(&mut self, at: Moment, ticks: &mut Ticks) -> Result<(), Fault>
        ensures state { self.new ≡ at_moment self.old at }
        ensures ok { OnOk result (first_refusal self.new ≡ None) }
        ensures refused { IfErr result (λ fault. first_refusal self.new ≡ Some fault) }
        ensures come { HasCome ticks.old self.old ticks.new self.new }
        ensures cost { ticks.new ≤ ticks.old + most_ticks self.old self.new }
    {
        self.move_to(at, ticks);
        match self.first_refusal() {
            Some(fault) => Err(fault),
            None => Ok(()),
        }
    }

    /// The uid that it was opened with.
    pub fn uid(&self) -> u64
        ensures { result ≡ self.now.uid }
    {
        self.uid
    }

    /// The name that it was opened with.
    pub fn name(&self) -> QueueName
        ensures { result ≡ self.now.name }
    {
        self.name
    }

    /// The queue's journal itself. It may have one line more than the queue, for the entry that closes
    /// it.
    pub fn journal(&self) -> &Journal
        ensures lines { result.now.lines ≡ self.now.lines }
        ensures limit { result.now.limit ≡ self.now.limits.max_lines + 1 }
        ensures spare { result.now.spare ≡ self.now.spare }
        ensures within { length self.now.lines ≤ max_lines_row.most + 1 }
    {
        // A number that is read tells the proof that it is in range.
        let _most = self.limits.max_lines;
        &self.journal
    }

    /// Makes room for so many entries in all. Each entry takes one place, that of a send or a receive too. As long as a
    /// place is left and the journal is not at its limit, a change, a delete, a purge, new settings, a confirmation, an orphaning, a
    /// close and every refusal answer what they answer where memory is ample. `OutOfMemory` is the only refusal, which cannot be where that
    /// much room is there; the queue is then as it was. The clock stays where it is.
    pub fn reserve(&mut self, alloc: Global, additional: usize) -> Result<(), Fault>
        ensures ok { OnOk result (self.new ≡ record self.old { spare = max self.old.spare additional }) }
        ensures err { OnErr result (self.new ≡ self.old) }
        ensures errors { IfErr result (λ fault. fault ≡ OutOfMemory) }
        ensures wants { OnErr result (self.old.spare < additional) }
    {
        self.journal.reserve(alloc, additional)
    }

    /// The settings in force.
    pub fn settings(&self) -> Settings
        ensures { result ≡ settings_of self.now.lines }
    {
        self.tally.settings
    }

    /// When the queue was opened.
    fn created(&self) -> Moment
        ensures { result ≡ created_time self.now.lines }
    {
        self.tally.created
    }

    /// When the queue last got settings.
    fn modified(&self) -> Moment
        ensures { result ≡ modified_time self.now.lines }
    {
        self.tally.modified
    }

    /// Whether a content is larger than the queue takes.
    fn is_too_large(&self, content: &Content) -> bool
        ensures size { result
            ≡ nat_lt (settings_of self.now.lines).maximum_message_size (content_size content.now) }
        ensures allowed { IsTrue (is_content content.now) }
    {
        u64::from(self.settings().maximum_message_size) < content.size()
    }

    /// The delay in seconds, or the queue's own.
    fn delay_or_own(&self, delay: Option<u16>) -> u16
        ensures { result ≡ unwrap_or delay (settings_of self.now.lines).delay_seconds }
    {
        delay.unwrap_or(self.settings().delay_seconds)
    }

    /// How many messages the queue ever had, which is the number of the next.
    pub fn message_count(&self) -> u64
        ensures { result ≡ message_count self.now.lines }
    {
        self.tally.messages
    }

    /// The same number, which can be counted on.
    fn messages_so_far(&self) -> u64
        ensures count { result ≡ message_count self.now.lines }
        ensures small { result < 2 ^ 63 }
        ensures weight { weight_of self.now.lines < 2 ^ 30 }
    {
        let count = self.message_count();
        // The journal weighs at most one more than this, a number of 25 bits.
        let _most = self.limits.max_lines;
        count
    }

    /// Whether as many messages are in flight as may be.
    fn is_at_in_flight_limit(&self) -> bool
        ensures { result ≡ nat_le self.now.limits.in_flight (in_flight_count self.now) }
    {
        u64::from(self.limits.in_flight) <= self.in_flight_count()
    }

    /// How many messages are in flight.
    fn in_flight_count(&self) -> u64
        ensures { result ≡ in_flight_count self.now }
    {
        self.index.indices.in_flight
    }

    /// How many more messages may be in flight.
    fn free_in_flight(&self) -> u64
        ensures { result ≡ self.now.limits.in_flight - in_flight_count self.now }
    {
        u64::from(self.limits.in_flight).saturating_sub(self.in_flight_count())
    }

    /// How many messages a receive of at most so many may offer.
    fn offer_limit(&self, maximum: u8) -> u64
        ensures { result ≡ offer_limit self.now maximum }
    {
        u64::from(maximum).min(self.free_in_flight())
    }

    /// Whether the message of a number was received as often as the queue's policy allows.
    fn is_exhausted(&self, number: u64) -> bool
        ensures { result
            ≡ option_map_or (λ p. nat_le p.max_receive_count (receive_count self.now.lines number)) (settings_of self.now.lines).redrive_policy false }
    {
        match self.settings().redrive_policy {
            Some(policy) => u64::from(policy.max_receive_count) <= self.receive_count(number),
            None => false,
        }
    }

    /// The messages that a receive of at most so many offers, and those that leave by it: it goes through
    /// those that are visible, in order, until so many are offered or 100 leave.
    fn scan(&self, alloc: Global, maximum: u8) -> Result<Scan, Fault>
        ensures offered { IfOk result (λ scan. scan.offered ≡ numbers_of (offered_candidates self.now maximum)) }
        ensures leaving { IfOk result (λ scan. scan.leaving ≡ numbers_of (leaving_candidates self.now maximum)) }
        ensures errors { IfErr result (λ fault. fault ≡ OutOfMemory) }
    {
        let mut offered = Numbers::new(alloc);
        let mut leaving = Numbers::new(alloc);
        let mut may_be_offered = self.offer_limit(maximum);
        let mut may_leave = MOST_DEPARTURES;
        for place in 0..self.index.indices.visible.len() {
            if may_be_offered == 0 || may_leave == 0 {
                return Ok(Scan { offered, leaving });
            }
            let number = self.number_in_turn(place);
            if self.is_exhausted(number) {
                leaving.push(alloc, number)?;
                may_leave -= 1;
            } else {
                offered.push(alloc, number)?;
                may_be_offered -= 1;
            }
        }
        Ok(Scan { offered, leaving })
    }

    /// The number of the visible message at a place in the order of receives.
    fn number_in_turn(&self, place: usize) -> u64
        requires { place < length (receive_order self.now.lines self.now.clock) }
        ensures { option_map (λ c. c.message.number) (slice_get (receive_order self.now.lines self.now.clock) place) ≡ Some result }
    {
        match self.index.indices.visible.get(place) {
            Some((_, number)) => number,
            None => unreachable!(),
        }
    }

    /// The uid of the queue's dead-letter queue, 0 where it has none.
    fn policy_target(&self) -> u64
        ensures { result ≡ policy_target self.now }
    {
        match self.settings().redrive_policy {
            Some(policy) => policy.target,
            None => 0,
        }
    }

    /// The offer of the message of a number, of which this is the record, with its content.
    fn offer_of(&self, number: u64, kept: &Record, content: Content) -> Offer
        ensures { (c : Candidate) → c.message.number ≡ number → IsRecordOf self.now.lines c.message kept.now → result ≡ offer_of self.now c content }
    {
        Offer {
            number,
            receipt: self.receive_count(number).saturating_add(1),
            id: self.message_id(number, kept.origin),
            sent: kept.first_send_time,
            first_receive: kept.first_receive.unwrap_or(self.clock),
            source: kept.origin.map(|origin| origin.name),
            content,
        }
    }

    /// How often the message of a number was received.
    fn receive_count(&self, number: u64) -> u64
        ensures { result ≡ receive_count self.now.lines number }
    {
        match self.index.receives.get(number as usize) {
            Some(count) => *count,
            None => 0,
        }
    }

    /// The offers of the messages of these numbers, which a receive of at most so many offers.
    fn offers_of(&self, alloc: Global, numbers: &Numbers) -> Result<Offers, Fault>
        ensures ok { (maximum : ℕ) → numbers.now ≡ numbers_of (offered_candidates self.now maximum)
            → IfOk result (λ offers. offers ≡ offers_of self.now (offered_candidates self.now maximum)) }
        ensures errors { IfErr result (λ fault. fault ≡ OutOfMemory) }
    {
        let mut offers = Offers::new(alloc);
        for number in numbers.as_slice() {
            match self.index.records.get(number) {
                Some(kept) => offers.push(self.offer_of(*number, kept, kept.content.share()?))?,
                None => {}
            }
        }
        Ok(offers)
    }

    /// The timeout in seconds, or the queue's own.
    fn timeout_or_own(&self, timeout: Option<u32>) -> u32
        ensures { result ≡ unwrap_or timeout (settings_of self.now.lines).visibility_timeout }
    {
        timeout.unwrap_or(self.settings().visibility_timeout)
    }

    /// Whether this queue gave the handle.
    fn is_valid_handle(&self, handle: &Handle) -> bool
        ensures { result ≡ is_valid_handle self.now handle.now }
    {
        handle.uid == self.uid
            && handle.number < self.message_count()
            && 1 <= handle.receipt
            && handle.receipt <= self.receive_count(handle.number)
    }

    /// Whether it is the handle of the message's latest receive.
    fn is_latest_handle(&self, handle: &Handle) -> bool
        ensures { result ≡ is_latest_handle self.now handle.now }
    {
        handle.receipt == self.receive_count(handle.number)
    }

    /// Whether the message of a number is in flight.
    fn is_in_flight(&self, number: u64) -> bool
        ensures { result
            ≡ is_numbered (λ m. is_in_state InFlight self.now.lines self.now.clock m) self.now.lines number }
    {
        is_in_flight(self.index.slot_of(number))
    }

    /// Whether the message of a number is live.
    fn is_live(&self, number: u64) -> bool
        ensures { result
            ≡ is_numbered (λ m. is_live self.now.lines self.now.clock m) self.now.lines number }
    {
        is_here(self.index.slot_of(number))
    }

    /// Whether it is the latest handle of a message in flight.
    fn holds_in_flight(&self, handle: &Handle) -> bool
        ensures { result ≡ holds_in_flight self.now handle.now }
    {
        self.is_in_flight(handle.number) && self.is_latest_handle(handle)
    }

    /// Whether it is the latest handle of a live message.
    fn holds_live(&self, handle: &Handle) -> bool
        ensures { result ≡ holds_live self.now handle.now }
    {
        self.is_live(handle.number) && self.is_latest_handle(handle)
    }

    /// Whether a timeout in seconds from now on ends later than twelve hours after the last
    /// receive of the message of a number, which is in flight.
    fn passes_twelve_hours(&self, number: u64, timeout: u32) -> bool
        requires { is_numbered (λ m. is_in_state InFlight self.now.lines self.now.clock m) self.now.lines number ≡ true }
        ensures { result ≡ passes_twelve_hours self.now number timeout }
    {
        match self.index.records.get(&number) {
            Some(kept) => {
                let last = kept.last_receive.milliseconds();
                last + 43_200_000 < self.clock.milliseconds() + 1000 * u64::from(timeout)
            }
            None => unreachable!(),
        }
    }

    /// The id of a message that is sent to this queue.
    fn own_id(&self, number: u64) -> MessageId
        ensures { result ≡ own_id self.now.uid number }
    {
        MessageId {
            uid: self.uid,
            number,
        }
    }

    /// The id of the message of a number, which it may have brought with it.
    fn message_id(&self, number: u64, origin: Option<Origin>) -> MessageId
        ensures { (m : Message) → m.number ≡ number → m.origin ≡ origin → result ≡ message_id self.now.uid m }
    {
        match origin {
            Some(origin) => origin.id,
            None => self.own_id(number),
        }
    }

    /// Adds an entry at the clock. `OutOfMemory` is the only refusal; the queue is then as it was.
    fn add(&mut self, alloc: Global, event: Event<Content>, ticks: &mut Ticks) -> Result<(), Fault>
        requires { IsCausedIn self.old event }
        ensures ok { OnOk result (self.new ≡ with_event self.old event) }
        ensures err { OnErr result (self.new ≡ self.old) }
        ensures errors { IfErr result (λ fault. fault ≡ OutOfMemory) }
        ensures room { has_room self.old ≡ true → wants_place_alone event ≡ true → result ≡ Ok tt }
        ensures cost { (p : QueueHistory) (before : ℕ) → HasCome before p ticks.old self.old → ticks.new ≤ before + most_ticks p self.new }
    {
        let at = self.clock;
        let settings = self.tally.settings;
        let tally = self.tally.after(self.messages_so_far(), at, &event);
        let born = record_born(at, &event)?;
        // None is kept twice, so that no more are kept than the journal weighs.
        let _kept = self.index.len();
        self.index.make_room(alloc, &event)?;
        self.accepted.make_place(&event)?;
        self.journal.reserve(alloc, 1)?;
        let _kept = self.index.len();
        self.index.apply(settings, at, &event, born, ticks);
        let retention = tally.settings.retention_seconds;
        self.index.settle(retention, at, ticks);
        self.accepted.note(&event);
        self.tally = tally;
        let entry = Entry { at, event };
        self.watch.window.count(&entry);
        self.journal.push_reserved(entry);
        Ok(())
    }

    /// Refuses a command with an entry. With `OutOfMemory` in its place the queue is as it was.
    fn refuse<T>(&mut self, alloc: Global, fault: Fault, ticks: &mut Ticks) -> Result<T, Fault>
        requires caused { IsCausedIn self.old (Refused fault) }
        requires refusal { fault ≢ OutOfMemory }
        ensures answer { Meets result (Err fault) }
        ensures room { has_room self.old ≡ true → result ≡ Err fault }
        ensures state { self.new ≡ (if is_out_of_memory result then self.old else with_event self.old (Refused fault)) }
        ensures cost { (p : QueueHistory) (before : ℕ) → HasCome before p ticks.old self.old → ticks.new ≤ before + most_ticks p self.new }
    {
        self.add(alloc, Event::Refused { fault }, ticks)?;
        Err(fault)
    }

    /// Sends a message, after a delay in seconds or the queue's own. A content larger than the
    /// queue's maximum is `InvalidParameterValue`, which is an entry; a full journal answers
    /// `JournalFull`; with `OutOfMemory` only the clock has moved.
    pub fn send(
        &mut self,
        alloc: Global,
        at: Moment,
        content: Content,
        delay: Option<u16>,
        ticks: &mut Ticks,
    ) -> Result<Posted, Fault>
        requires { ForSome delay (λ seconds. IsDelay seconds) }
        ensures answer { Meets (as_reply Reply.Sent result) (outcome_at self.old at (Command.Send content delay)).reply }
        ensures exact { IsExact (outcome_at self.old at (Command.Send content delay)) (as_reply Reply.Sent result) }
        ensures room { IsExactWithRoom self.old (outcome_at self.old at (Command.Send content delay)) (as_reply Reply.Sent result) }
        ensures state { self.new ≡ after_answer self.old at (Command.Send content delay) result }
        ensures cost { ticks.new ≤ ticks.old + most_ticks self.old self.new }
    {
        self.begin(at, ticks)?;
        let replaced = self.make_way(alloc)?;
        let answer = self.send_now(alloc, content, delay, ticks);
        self.put_back(replaced, answer)
    }

    /// The same at the queue's clock, in the journal as it stands, where nothing refuses it before anything of it is asked.
    fn send_now(
        &mut self,
        alloc: Global,
        content: Content,
        delay: Option<u16>,
        ticks: &mut Ticks,
    ) -> Result<Posted, Fault>
        requires open { first_refusal self.old ≡ None }
        requires place { is_at_limit self.old ≡ false }
        requires delay { ForSome delay (λ seconds. IsDelay seconds) }
        ensures answer { Meets (as_reply Reply.Sent result) (outcome_in self.old (Command.Send content delay)).reply }
        ensures exact { IsExact (outcome_in self.old (Command.Send content delay)) (as_reply Reply.Sent result) }
        ensures room { IsExactWithRoom self.old (outcome_in self.old (Command.Send content delay)) (as_reply Reply.Sent result) }
        ensures state { self.new ≡ after_outcome self.old (outcome_in self.old (Command.Send content delay)) result }
        ensures cost { (p : QueueHistory) (before : ℕ) → HasCome before p ticks.old self.old → ticks.new ≤ before + most_ticks p self.new }
    {
        if self.is_too_large(&content) {
            return self.refuse(alloc, Fault::InvalidParameterValue, ticks);
        }
        let number = self.message_count();
        let id = self.own_id(number);
        let delay = self.delay_or_own(delay);
        self.add(alloc, Event::Sent { delay, content }, ticks)?;
        Ok(Posted { number, id })
    }

    /// The same at a moment, for a content that stays where it is: it is shared, where nothing refuses the message.
    fn send_shared(
        &mut self,
        alloc: Global,
        at: Moment,
        content: &Content,
        delay: Option<u16>,
        ticks: &mut Ticks,
    ) -> Result<Posted, Fault>
        requires { ForSome delay (λ seconds. IsDelay seconds) }
        ensures answer { Meets (as_reply Reply.Sent result) (outcome_at self.old at (Command.Send content.now delay)).reply }
        ensures exact { IsExact (outcome_at self.old at (Command.Send content.now delay)) (as_reply Reply.Sent result) }
        ensures room { IsExactWithRoom self.old (outcome_at self.old at (Command.Send content.now delay)) (as_reply Reply.Sent result) }
        ensures state { self.new ≡ after_answer self.old at (Command.Send content.now delay) result }
        ensures cost { ticks.new ≤ ticks.old + most_ticks self.old self.new }
    {
        self.begin(at, ticks)?;
        let replaced = self.make_way(alloc)?;
        let answer = self.send_shared_now(alloc, content, delay, ticks);
        self.put_back(replaced, answer)
    }

    /// The same at the queue's clock, in the journal as it stands, where nothing refuses it before anything of it is asked.
    fn send_shared_now(
        &mut self,
        alloc: Global,
        content: &Content,
        delay: Option<u16>,
        ticks: &mut Ticks,
    ) -> Result<Posted, Fault>
        requires open { first_refusal self.old ≡ None }
        requires place { is_at_limit self.old ≡ false }
        requires range { ForSome delay (λ seconds. IsDelay seconds) }
        ensures answer { Meets (as_reply Reply.Sent result) (outcome_in self.old (Command.Send content.now delay)).reply }
        ensures exact { IsExact (outcome_in self.old (Command.Send content.now delay)) (as_reply Reply.Sent result) }
        ensures room { IsExactWithRoom self.old (outcome_in self.old (Command.Send content.now delay)) (as_reply Reply.Sent result) }
        ensures state { self.new ≡ after_outcome self.old (outcome_in self.old (Command.Send content.now delay)) result }
        ensures cost { (p : QueueHistory) (before : ℕ) → HasCome before p ticks.old self.old → ticks.new ≤ before + most_ticks p self.new }
    {
        if self.is_too_large(content) {
            let fault = Fault::InvalidParameterValue;
            return self.refuse(alloc, fault, ticks);
        }
        let content = content.share()?;
        self.send_now(alloc, content, delay, ticks)
    }

    /// Offers visible messages, the earliest due first and of those due at one time the lower number
    /// first, at most as many as asked for and as the in-flight limit leaves room for. Each is due
    /// again a timeout in seconds later, or the queue's own; with 0 seconds it stays visible. Where the
    /// queue has a dead-letter queue, a message that was received as often as its policy allows is not
    /// offered: it leaves, at most 100 at a time. A receive that offers nothing is an entry too. At the in-flight limit it answers `OverLimit`,
    /// which is an entry; a full journal answers `JournalFull`; with `OutOfMemory` only the clock has
    /// moved.
    pub fn receive(
        &mut self,
        alloc: Global,
        at: Moment,
        maximum: u8,
        timeout: Option<u32>,
        ticks: &mut Ticks,
    ) -> Result<Offers, Fault>
        requires maximum { IsMaximum maximum }
        requires timeout { ForSome timeout (λ seconds. IsTimeout seconds) }
        ensures answer { Meets (as_reply Reply.Received result) (outcome_at self.old at (Command.Receive maximum timeout)).reply }
        ensures exact { IsExact (outcome_at self.old at (Command.Receive maximum timeout)) (as_reply Reply.Received result) }
        ensures room { IsExactWithRoom self.old (outcome_at self.old at (Command.Receive maximum timeout)) (as_reply Reply.Received result) }
        ensures state { self.new ≡ after_answer self.old at (Command.Receive maximum timeout) result }
        ensures cost { ticks.new ≤ ticks.old + most_ticks self.old self.new }
    {
        self.begin(at, ticks)?;
        let replaced = self.make_way(alloc)?;
        let answer = self.receive_now(alloc, maximum, timeout, ticks);
        self.put_back(replaced, answer)
    }

    /// The same at the queue's clock, in the journal as it stands, where nothing refuses it before anything of it is asked.
    fn receive_now(
        &mut self,
        alloc: Global,
        maximum: u8,
        timeout: Option<u32>,
        ticks: &mut Ticks,
    ) -> Result<Offers, Fault>
        requires open { first_refusal self.old ≡ None }
        requires place { is_at_limit self.old ≡ false }
        requires maximum { IsMaximum maximum }
        requires timeout { ForSome timeout (λ seconds. IsTimeout seconds) }
        ensures answer { Meets (as_reply Reply.Received result) (outcome_in self.old (Command.Receive maximum timeout)).reply }
        ensures exact { IsExact (outcome_in self.old (Command.Receive maximum timeout)) (as_reply Reply.Received result) }
        ensures room { IsExactWithRoom self.old (outcome_in self.old (Command.Receive maximum timeout)) (as_reply Reply.Received result) }
        ensures state { self.new ≡ after_outcome self.old (outcome_in self.old (Command.Receive maximum timeout)) result }
        ensures cost { (p : QueueHistory) (before : ℕ) → HasCome before p ticks.old self.old → ticks.new ≤ before + most_ticks p self.new }
    {
        if self.is_at_in_flight_limit() {
            return self.refuse(alloc, Fault::OverLimit, ticks);
        }
        let scan = self.scan(alloc, maximum)?;
        let offers = self.offers_of(alloc, &scan.offered)?;
        let event = Event::Received {
            timeout: self.timeout_or_own(timeout),
            offered: scan.offered,
            leaving: scan.leaving,
            target: self.policy_target(),
        };
        self.add(alloc, event, ticks)?;
        Ok(offers)
    }

    /// The same for numbers that are in range by their type, with the reply as a whole.
    fn receive_checked(
        &mut self,
        alloc: Global,
        at: Moment,
        maximum: Maximum,
        timeout: Option<Timeout>,
        ticks: &mut Ticks,
    ) -> Result<Reply, Fault>
        ensures answer { Meets result (outcome_at self.old at (Command.Receive maximum timeout)).reply }
        ensures exact { IsExact (outcome_at self.old at (Command.Receive maximum timeout)) result }
        ensures room { IsExactWithRoom self.old (outcome_at self.old at (Command.Receive maximum timeout)) result }
        ensures state { self.new ≡ after_answer self.old at (Command.Receive maximum timeout) result }
        ensures cost { ticks.new ≤ ticks.old + most_ticks self.old self.new }
    {
        let timeout = timeout.map(|timeout| timeout.seconds());
        let offers = self.receive(alloc, at, maximum.messages(), timeout, ticks)?;
        Ok(Reply::Received(offers))
    }

    /// Gives a message in flight another timeout in seconds from now on; 0 makes it visible. A
    /// handle that this queue never gave is `ReceiptHandleIsInvalid`; a message not in flight, or
    /// an older handle, `MessageNotInflight`; a timeout that ends later than twelve hours after the
    /// last receive `InvalidParameterValue`; each of these is an entry. A full journal answers
    /// `JournalFull`; with `OutOfMemory` only the clock has moved.
    pub fn change(
        &mut self,
        alloc: Global,
        at: Moment,
        handle: Handle,
        timeout: u32,
        ticks: &mut Ticks,
    ) -> Result<(), Fault>
        requires { IsTimeout timeout }
        ensures answer { Meets (as_reply (λ _. Reply.Done) result) (outcome_at self.old at (Command.Change handle timeout)).reply }
        ensures exact { IsExact (outcome_at self.old at (Command.Change handle timeout)) (as_reply (λ _. Reply.Done) result) }
        ensures room { IsExactWithRoom self.old (outcome_at self.old at (Command.Change handle timeout)) (as_reply (λ _. Reply.Done) result) }
        ensures state { self.new ≡ after_answer self.old at (Command.Change handle timeout) result }
        ensures cost { ticks.new ≤ ticks.old + most_ticks self.old self.new }
    {
        self.begin(at, ticks)?;
        let replaced = self.make_way(alloc)?;
        let answer = self.change_now(alloc, handle, timeout, ticks);
        self.put_back(replaced, answer)
    }

    /// The same at the queue's clock, in the journal as it stands, where nothing refuses it before anything of it is asked.
    fn change_now(
        &mut self,
        alloc: Global,
        handle: Handle,
        timeout: u32,
        ticks: &mut Ticks,
    ) -> Result<(), Fault>
        requires open { first_refusal self.old ≡ None }
        requires place { is_at_limit self.old ≡ false }
        requires range { IsTimeout timeout }
        ensures answer { Meets (as_reply (λ _. Reply.Done) result) (outcome_in self.old (Command.Change handle timeout)).reply }
        ensures exact { IsExact (outcome_in self.old (Command.Change handle timeout)) (as_reply (λ _. Reply.Done) result) }
        ensures room { IsExactWithRoom self.old (outcome_in self.old (Command.Change handle timeout)) (as_reply (λ _. Reply.Done) result) }
        ensures state { self.new ≡ after_outcome self.old (outcome_in self.old (Command.Change handle timeout)) result }
        ensures cost { (p : QueueHistory) (before : ℕ) → HasCome before p ticks.old self.old → ticks.new ≤ before + most_ticks p self.new }
    {
        match self.change_refusal(&handle, timeout) {
            Some(fault) => self.refuse(alloc, fault, ticks),
            None => {
                let number = handle.number;
                self.add(alloc, Event::Changed { number, timeout }, ticks)
            }
        }
    }

    /// Why a change is refused, if it is.
    fn change_refusal(&self, handle: &Handle, timeout: u32) -> Option<Fault>
        requires { IsTimeout timeout }
        ensures refusal { result ≡ change_refusal self.now handle.now timeout }
        ensures never { IfSome result (λ fault. fault ≢ OutOfMemory) }
    {
        if !self.is_valid_handle(handle) {
            return Some(Fault::ReceiptHandleIsInvalid);
        }
        if !self.holds_in_flight(handle) {
            return Some(Fault::MessageNotInflight);
        }
        if self.passes_twelve_hours(handle.number, timeout) {
            return Some(Fault::InvalidParameterValue);
        }
        None
    }

    /// Deletes a live message by its latest handle, even after its timeout. Every other handle that
    /// this queue gave is answered alike and deletes nothing (this project's own choice); both are
    /// entries. A handle that it never gave is `ReceiptHandleIsInvalid`, which is an entry; a full
    /// journal answers `JournalFull`; with `OutOfMemory` only the clock has moved.
    pub fn delete(
        &mut self,
        alloc: Global,
        at: Moment,
        handle: Handle,
        ticks: &mut Ticks,
    ) -> Result<(), Fault>
        ensures answer { Meets (as_reply (λ _. Reply.Done) result) (outcome_at self.old at (Command.Delete handle)).reply }
        ensures exact { IsExact (outcome_at self.old at (Command.Delete handle)) (as_reply (λ _. Reply.Done) result) }
        ensures room { IsExactWithRoom self.old (outcome_at self.old at (Command.Delete handle)) (as_reply (λ _. Reply.Done) result) }
        ensures state { self.new ≡ after_answer self.old at (Command.Delete handle) result }
        ensures cost { ticks.new ≤ ticks.old + most_ticks self.old self.new }
    {
        self.begin(at, ticks)?;
        let replaced = self.make_way(alloc)?;
        let answer = self.delete_now(alloc, handle, ticks);
        self.put_back(replaced, answer)
    }

    /// The same at the queue's clock, in the journal as it stands, where nothing refuses it before anything of it is asked.
    fn delete_now(&mut self, alloc: Global, handle: Handle, ticks: &mut Ticks) -> Result<(), Fault>
        requires open { first_refusal self.old ≡ None }
        requires place { is_at_limit self.old ≡ false }
        ensures answer { Meets (as_reply (λ _. Reply.Done) result) (outcome_in self.old (Command.Delete handle)).reply }
        ensures exact { IsExact (outcome_in self.old (Command.Delete handle)) (as_reply (λ _. Reply.Done) result) }
        ensures room { IsExactWithRoom self.old (outcome_in self.old (Command.Delete handle)) (as_reply (λ _. Reply.Done) result) }
        ensures state { self.new ≡ after_outcome self.old (outcome_in self.old (Command.Delete handle)) result }
        ensures cost { (p : QueueHistory) (before : ℕ) → HasCome before p ticks.old self.old → ticks.new ≤ before + most_ticks p self.new }
    {
        if !self.is_valid_handle(&handle) {
            return self.refuse(alloc, Fault::ReceiptHandleIsInvalid, ticks);
        }
        let event = self.deletion(&handle);
        self.add(alloc, event, ticks)
    }

    /// What a delete by a valid handle is.
    fn deletion(&self, handle: &Handle) -> Event<Content>
        ensures { result ≡ (if holds_live self.now handle.now then Deleted handle.now.number else DeletedAgain) }
    {
        if self.holds_live(handle) {
            Event::Deleted {
                number: handle.number,
            }
        } else {
            Event::DeletedAgain
        }
    }

    /// Removes all messages that are in the queue; those that have left for a dead-letter queue are not
    /// among them. A full journal answers `JournalFull`; with `OutOfMemory` only the clock has moved.
    pub fn purge(&mut self, alloc: Global, at: Moment, ticks: &mut Ticks) -> Result<(), Fault>
        ensures answer { Meets (as_reply (λ _. Reply.Done) result) (outcome_at self.old at Command.Purge).reply }
        ensures exact { IsExact (outcome_at self.old at Command.Purge) (as_reply (λ _. Reply.Done) result) }
        ensures room { IsExactWithRoom self.old (outcome_at self.old at Command.Purge) (as_reply (λ _. Reply.Done) result) }
        ensures state { self.new ≡ after_answer self.old at Command.Purge result }
        ensures cost { ticks.new ≤ ticks.old + most_ticks self.old self.new }
    {
        self.begin(at, ticks)?;
        let replaced = self.make_way(alloc)?;
        let answer = self.purge_now(alloc, ticks);
        self.put_back(replaced, answer)
    }

    /// The same at the queue's clock, in the journal as it stands, where nothing refuses it before anything of it is asked.
    fn purge_now(&mut self, alloc: Global, ticks: &mut Ticks) -> Result<(), Fault>
        requires open { first_refusal self.old ≡ None }
        requires place { is_at_limit self.old ≡ false }
        ensures answer { Meets (as_reply (λ _. Reply.Done) result) (outcome_in self.old Command.Purge).reply }
        ensures exact { IsExact (outcome_in self.old Command.Purge) (as_reply (λ _. Reply.Done) result) }
        ensures room { IsExactWithRoom self.old (outcome_in self.old Command.Purge) (as_reply (λ _. Reply.Done) result) }
        ensures state { self.new ≡ after_outcome self.old (outcome_in self.old Command.Purge) result }
        ensures cost { (p : QueueHistory) (before : ℕ) → HasCome before p ticks.old self.old → ticks.new ≤ before + most_ticks p self.new }
    {
        self.add(alloc, Event::Purged, ticks)
    }

    /// Gives the queue the requested settings. They act at once: the retention on messages already
    /// there, the delay on later sends, the visibility timeout on later receives. A full journal
    /// answers `JournalFull`; with `OutOfMemory` only the clock has moved.
    pub fn set(
        &mut self,
        alloc: Global,
        at: Moment,
        wish: &Wish,
        target: u64,
        ticks: &mut Ticks,
    ) -> Result<(), Fault>
        ensures answer { Meets (as_reply (λ _. Reply.Done) result) (outcome_at self.old at (Command.Set wish.now target)).reply }
        ensures exact { IsExact (outcome_at self.old at (Command.Set wish.now target)) (as_reply (λ _. Reply.Done) result) }
        ensures room { IsExactWithRoom self.old (outcome_at self.old at (Command.Set wish.now target)) (as_reply (λ _. Reply.Done) result) }
        ensures state { self.new ≡ after_answer self.old at (Command.Set wish.now target) result }
        ensures cost { ticks.new ≤ ticks.old + most_ticks self.old self.new }
    {
        self.begin(at, ticks)?;
        let replaced = self.make_way(alloc)?;
        let answer = self.set_now(alloc, wish, target, ticks);
        self.put_back(replaced, answer)
    }

    /// The same at the queue's clock, in the journal as it stands, where nothing refuses it before anything of it is asked.
    fn set_now(
        &mut self,
        alloc: Global,
        wish: &Wish,
        target: u64,
        ticks: &mut Ticks,
    ) -> Result<(), Fault>
        requires open { first_refusal self.old ≡ None }
        requires place { is_at_limit self.old ≡ false }
        ensures answer { Meets (as_reply (λ _. Reply.Done) result) (outcome_in self.old (Command.Set wish.now target)).reply }
        ensures exact { IsExact (outcome_in self.old (Command.Set wish.now target)) (as_reply (λ _. Reply.Done) result) }
        ensures room { IsExactWithRoom self.old (outcome_in self.old (Command.Set wish.now target)) (as_reply (λ _. Reply.Done) result) }
        ensures state { self.new ≡ after_outcome self.old (outcome_in self.old (Command.Set wish.now target)) result }
        ensures cost { (p : QueueHistory) (before : ℕ) → HasCome before p ticks.old self.old → ticks.new ≤ before + most_ticks p self.new }
    {
        let settings = self.settings_with(wish, target);
        self.add(alloc, Event::Set { settings }, ticks)
    }

    /// The settings with what is requested in its place. Their numbers are in range by their type.
    fn settings_with(&self, wish: &Wish, target: u64) -> Settings
        ensures settings { result ≡ settings_with (settings_of self.now.lines) wish.now target }
        ensures range { AreSettings result }
    {
        let settings = self.settings().with(wish, target);
        // A field that is read tells the proof that the numbers are in range.
        let _seconds = settings.delay_seconds;
        settings
    }

    /// Closes the queue for good: no message is left, and from here on every call that can answer
    /// `QueueDoesNotExist` does. This is an entry, for which a full journal has a place. A queue that
    /// was closed answers `QueueDoesNotExist`; with `OutOfMemory` only the clock has moved.
    pub fn close(&mut self, alloc: Global, at: Moment, ticks: &mut Ticks) -> Result<(), Fault>
        ensures answer { Meets (as_reply (λ _. Reply.Done) result) (outcome_at self.old at Command.Close).reply }
        ensures exact { IsExact (outcome_at self.old at Command.Close) (as_reply (λ _. Reply.Done) result) }
        ensures room { IsExactWithRoom self.old (outcome_at self.old at Command.Close) (as_reply (λ _. Reply.Done) result) }
        ensures state { self.new ≡ after_answer self.old at Command.Close result }
        ensures cost { ticks.new ≤ ticks.old + most_ticks self.old self.new }
    {
        self.move_to(at, ticks);
        if self.is_closed() {
            return Err(Fault::QueueDoesNotExist);
        }
        self.add(alloc, Event::Closed, ticks)
    }

    /// Moves the clock to a moment, where that is later, and nothing else.
    pub fn advance(&mut self, at: Moment, ticks: &mut Ticks)
        ensures state { self.new ≡ at_moment self.old at }
        ensures cost { ticks.new ≤ ticks.old + most_ticks self.old self.new }
    {
        self.move_to(at, ticks);
    }

    /// The queue at a moment: counts, age, settings, times, weight of the journal and clock. The clock moves there,
    /// where that is later. Nothing refuses it.
    pub fn look(&mut self, at: Moment, ticks: &mut Ticks) -> Look
        ensures answer { result ≡ look_of (at_moment self.old at) }
        ensures state { self.new ≡ at_moment self.old at }
        ensures cost { ticks.new ≤ ticks.old + most_ticks self.old self.new }
    {
        self.move_to(at, ticks);
        self.look_of()
    }

    /// The queue at its clock.
    fn look_of(&self) -> Look
        ensures { result ≡ look_of self.now }
    {
        Look {
            gauges: self.gauges(),
            settings: self.settings(),
            created: self.created(),
            modified: self.modified(),
            lines: self.weight(),
            clock: self.clock,
            closed: self.is_closed(),
        }
    }

    /// The counts and the age at the queue's clock.
    pub fn gauges(&self) -> Gauges
        ensures counts { result ≡ gauges_of self.now.lines self.now.clock }
        ensures legal { IsLegal self.now }
    {
        self.index.gauges(self.clock)
    }

    /// Sends a message after a delay that was judged before.
    fn send_checked(
        &mut self,
        alloc: Global,
        at: Moment,
        content: &Content,
        delay: Option<Delay>,
        ticks: &mut Ticks,
    ) -> Result<Reply, Fault>
        ensures answer { Meets result (outcome_at self.old at (Command.Send content.now delay)).reply }
        ensures exact { IsExact (outcome_at self.old at (Command.Send content.now delay)) result }
        ensures room { IsExactWithRoom self.old (outcome_at self.old at (Command.Send content.now delay)) result }
        ensures state { self.new ≡ after_answer self.old at (Command.Send content.now delay) result }
        ensures cost { ticks.new ≤ ticks.old + most_ticks self.old self.new }
    {
        let delay = delay.map(|delay| delay.seconds());
        Ok(Reply::Sent(self.send_shared(alloc, at, content, delay, ticks)?))
    }

    /// Changes a timeout to one that was judged before.
    fn change_checked(
        &mut self,
        alloc: Global,
        at: Moment,
        handle: Handle,
        timeout: Timeout,
        ticks: &mut Ticks,
    ) -> Result<Reply, Fault>
        ensures answer { Meets result (outcome_at self.old at (Command.Change handle timeout)).reply }
        ensures exact { IsExact (outcome_at self.old at (Command.Change handle timeout)) result }
        ensures room { IsExactWithRoom self.old (outcome_at self.old at (Command.Change handle timeout)) result }
        ensures state { self.new ≡ after_answer self.old at (Command.Change handle timeout) result }
        ensures cost { ticks.new ≤ ticks.old + most_ticks self.old self.new }
    {
        self.change(alloc, at, handle, timeout.seconds(), ticks)?;
        Ok(Reply::Done)
    }

    /// What a call answered, as the reply to its command.
    fn as_done(answer: Result<(), Fault>) -> Result<Reply, Fault>
        ensures { result ≡ as_reply (λ _. Reply.Done) answer }
    {
        answer?;
        Ok(Reply::Done)
    }

    /// The same for an arrival.
    fn as_arrived(answer: Result<Arrival, Fault>) -> Result<Reply, Fault>
        ensures { result ≡ as_reply Reply.Arrived answer }
    {
        Ok(Reply::Arrived(answer?))
    }

    /// The same for a confirmation.
    fn as_settled(answer: Result<bool, Fault>) -> Result<Reply, Fault>
        ensures { result ≡ as_reply Reply.Settled answer }
    {
        Ok(Reply::Settled(answer?))
    }

    /// The same for an orphaning.
    fn as_orphaned(answer: Result<u64, Fault>) -> Result<Reply, Fault>
        ensures { result ≡ as_reply Reply.Orphaned answer }
    {
        Ok(Reply::Orphaned(answer?))
    }

    /// Does what the call that the command names does. A send and an arrival share the content, and a share
    /// that is refused is `OutOfMemory`; what the queue refuses, and an arrival that was accepted before,
    /// shares nothing; a checkpoint that comes before it shares what is kept.
    pub fn perform(
        &mut self,
        alloc: Global,
        at: Moment,
        command: &Command,
        ticks: &mut Ticks,
    ) -> Result<Reply, Fault>
        ensures answer { Meets result (outcome_at self.old at command.now).reply }
        ensures exact { IsExact (outcome_at self.old at command.now) result }
        ensures room { IsExactWithRoom self.old (outcome_at self.old at command.now) result }
        ensures state { self.new ≡ after_answer self.old at command.now result }
        ensures cost { ticks.new ≤ ticks.old + most_ticks self.old self.new }
    {
        match command {
            Command::Send { content, delay } => {
                self.send_checked(alloc, at, content, *delay, ticks)
            }
            Command::Receive { maximum, timeout } => {
                self.receive_checked(alloc, at, *maximum, *timeout, ticks)
            }
            Command::Change { handle, timeout } => {
                self.change_checked(alloc, at, *handle, *timeout, ticks)
            }
            Command::Delete { handle } => Self::as_done(self.delete(alloc, at, *handle, ticks)),
            Command::Purge => Self::as_done(self.purge(alloc, at, ticks)),
            Command::Set { wish, target } => Self::as_done(self.set(
                alloc, at, wish, *target, ticks,
            )),
            Command::Arrive { parcel } => Self::as_arrived(self.arrive_shared(
                alloc, at, parcel, ticks,
            )),
            Command::Settle { number } => Self::as_settled(self.settle(alloc, at, *number, ticks)),
            Command::Orphan { target } => Self::as_orphaned(self.orphan(alloc, at, *target, ticks)),
            Command::Close => Self::as_done(self.close(alloc, at, ticks)),
            Command::Look => Ok(Reply::Looked(self.look(at, ticks))),
            Command::FirstParcel => Ok(Reply::Parcel(self.first_parcel(alloc)?)),
        }
    }

    /// Performs commands one after another, and gives their answers in order. Where the list of
    /// answers finds no memory, nothing is performed and nothing counted; that of no commands wants none.
    pub fn run(
        &mut self,
        alloc: Global,
        steps: &[TimedCommand],
        ticks: &mut Ticks,
    ) -> Result<Vec<Result<Reply, Fault>>, Fault>
        ensures answers { IfOk result (λ answers. AreAnswers self.old steps.now answers.items) }
        ensures exact { IfOk result (λ answers. AreExact self.old steps.now answers.items) }
        ensures room { IfOk result (λ answers. AreExactWithRoom self.old steps.now answers.items) }
        ensures state { IfOk result (λ answers. self.new ≡ after_all self.old steps.now answers.items) }
        ensures err { OnErr result (self.new ≡ self.old) }
        ensures errors { IfErr result (λ fault. fault ≡ OutOfMemory) }
        ensures wants { OnErr result (0 < length steps.now) }
        ensures cost { IfOk result (λ answers. ticks.new ≤ ticks.old + most_ticks_of_all self.old steps.now answers.items) }
        ensures calm { OnErr result (ticks.new ≡ ticks.old) }
    {
        let mut answers = Vec::with_capacity(alloc, steps.len())?;
        for step in steps {
            let answer = self.perform(alloc, step.at, &step.command, ticks);
            answers.push_reserved(answer);
        }
        Ok(answers)
    }
}
