//! The actor of a queue: it takes the queue's mail, answers asks, and keeps polls that wait.

ghost use Rattle.std.specs.Prelude.{◌≡◌, ◌<◌, ◌≤◌, ◌||◌, nat_le, true, false, [], ◌∷◌, ◌++◌, List, is_some};
ghost use Rattle.std.specs.Arc.{arc_value};
ghost use Rattle.std.specs.VecDeque.{deque_len, deque_capacity};
ghost use Rattle.desk.specs.Views.{IsKnown};
ghost use Rattle.queue_actor.specs.Course.{MailboxEvent, GoesThrough};
ghost use Rattle.queue_actor.specs.declared.mail.Mail.{Mail};
ghost use Rattle.queue_actor.specs.Answered.{Answered};
ghost use Rattle.queue_actor.specs.Calling.{HasAsked, Finds, KeepsWaiting, LooksAtTick, is_quiet};
ghost use Rattle.queue_actor.specs.Questions.{is_receive};
ghost use Rattle.queue_actor.specs.Serving.{is_tick, may_wait, has_closed, Enters, IsAnswerAt, IsServedAt, AreServedAt, LooksAt, LooksOver, Admits, Leads, TakesIn, Ends, Serves};
ghost use Rattle.queue_actor.specs.Waiting.{TakesAnswers, waiting_with, moment_with};
ghost use Rattle.queue_actor.specs.private.Ending.{EndFrom, WaitBeyond, earlier, earliest, end_with};

use crate::answer::Answer;
use crate::deadline::TICK_MILLISECONDS;
use crate::duties::Duties;
use crate::inbox::Inbox;
use crate::mail::{Ask, Mail};
use crate::parcels::{Targets, enter};
use desk::{Desk, Gate, Pass, Press};
use journal::Moment;
use message::Fault;
use queue_config::Limits;
use queue_core::{Command, Reply};
use std::alloc::Global;
use std::collections::VecDeque;
use std::sync::{Arc, Wait};

/// The actor of a queue: the queue's desk, the pass that the actor calls with, the uid and the limits of the queue,
/// and where it stores how many polls wait. It looks with this pass whether polls have to wait, and moves the queue's dead letters with it.
#[derive(Drop)]
pub struct Actor<P: Press> {
    pub desk: Arc<Desk<P>>,
    pub pass: Pass<P>,
    pub uid: u64,
    pub limits: Limits,
    pub duties: Arc<Duties>,
    pub ghost together: { pass.desk ≡ arc_value desk },
    pub ghost named: { pass.start.uid ≡ uid },
    pub ghost limited: { pass.start.limits ≡ limits },
}

impl<P: Press> Actor<P>
where
    P::Told: Drop,
{
    ghost use Rattle.std.specs.Prelude.{IfSome};

    /// The actor of a desk, which calls with a pass of that desk, and knows the uid and the limits under which
    /// its queue was opened.
    pub fn new(
        desk: Arc<Desk<P>>,
        pass: Pass<P>,
        uid: u64,
        limits: Limits,
        duties: Arc<Duties>,
    ) -> Actor<P>
        requires desk { pass.desk ≡ arc_value desk }
        requires uid { pass.start.uid ≡ uid }
        requires limits { pass.start.limits ≡ limits }
        ensures { (result.desk ≡ desk) × (result.pass ≡ pass) × (result.uid ≡ uid) × (result.limits ≡ limits) }
    {
        Actor {
            desk,
            pass,
            uid,
            limits,
            duties,
        }
    }

    /// Asks the actor's own desk with its own pass.
    pub(crate) fn ask<R: Wait, G: Gate>(
        &mut self,
        rt: &R,
        alloc: Global,
        at: Moment,
        command: &Command,
        gate: &G,
    ) -> Result<Reply, Fault>
        ensures call { HasAsked self.old.pass at command.now result self.new.pass }
        ensures known { IsKnown self.new.pass }
    {
        self.desk
            .ask(rt, alloc, &mut self.pass, at, command, gate)
            .reply
    }

    /// Looks whether there is nothing to receive.
    fn finds_quiet<R: Wait, G: Gate>(
        &mut self,
        rt: &R,
        alloc: Global,
        at: Moment,
        limit: u32,
        gate: &G,
    ) -> bool
        ensures { Finds limit at false result self.old.pass self.new.pass }
    {
        let reply = self.ask(rt, alloc, at, &Command::Look, gate);
        is_quiet(&reply, limit)
    }

    /// Whether a poll that may wait until a time goes on waiting. The actor looks, unless it knows from its
    /// last look that there is nothing to receive.
    fn keeps_waiting<R: Wait, G: Gate>(
        &mut self,
        rt: &R,
        alloc: Global,
        at: Moment,
        limit: u32,
        quiet: bool,
        until: Moment,
        gate: &G,
    ) -> bool
        ensures { KeepsWaiting limit at quiet until result self.old.pass self.new.pass }
    {
        if until.milliseconds() <= at.milliseconds() {
            return false;
        }
        if quiet {
            return true;
        }
        self.finds_quiet(rt, alloc, at, limit, gate)
    }

    /// Looks at the queue at a tick, so that what is printed of it is of that moment, also where nobody asks it
    /// anything. It is told whether the actor knows from this look that there is nothing to receive.
    fn look_at_tick<R: Wait, G: Gate>(
        &mut self,
        rt: &R,
        alloc: Global,
        at: Moment,
        limit: u32,
        is_tick: bool,
        gate: &G,
    ) -> bool
        ensures { LooksAtTick limit at is_tick result self.old.pass self.new.pass }
    {
        if is_tick {
            self.finds_quiet(rt, alloc, at, limit, gate)
        } else {
            false
        }
    }

    /// Looks at a poll that waits, and gives it back where it goes on waiting. One whose client waits no longer
    /// is dropped, and nothing is asked.
    fn look_at<S: Drop, I: Inbox<Mail<P, S>, S, Answer<P>>, R: Wait, G: Gate>(
        &mut self,
        rt: &R,
        alloc: Global,
        at: Moment,
        limit: u32,
        quiet: bool,
        poll: Ask<P, S>,
        mailbox: &mut I,
        gate: &G,
    ) -> Option<Ask<P, S>>
        requires may { (given : Answered) → IsAnswerAt at poll given → I.may_give mailbox.old poll.reply given }
        ensures looked { (happened : List (MailboxEvent (Mail P S P.Told) S Answered)) × LooksAt limit at quiet self.old.pass poll happened (is_some result) self.new.pass × GoesThrough I.brings I.is_over I.gives I.was_left mailbox.old happened mailbox.new }
        ensures same { IfSome result (λ kept. kept ≡ poll) }
    {
        if mailbox.is_left(&poll.reply) {
            return None;
        }
        if self.keeps_waiting(rt, alloc, at, limit, quiet, poll.wait_until, gate) {
            return Some(poll);
        }
        answer(rt, alloc, at, poll, mailbox, gate);
        None
    }

    /// Looks over the polls that wait, one and all, in the order in which they came. Each goes on waiting, or is
    /// asked, or is dropped where its client waits no longer. It may be known before that there is nothing to receive.
    fn look_over_all<S: Drop, I: Inbox<Mail<P, S>, S, Answer<P>>, R: Wait, G: Gate>(
        &mut self,
        rt: &R,
        alloc: Global,
        at: Moment,
        limit: u32,
        known: bool,
        parked: &mut VecDeque<Ask<P, S>>,
        mailbox: &mut I,
        gate: &G,
    )
        requires may { TakesAnswers I.brings I.is_over I.may_give I.gives I.was_left parked.old.items at mailbox.old }
        ensures looked { (happened : List (MailboxEvent (Mail P S P.Told) S Answered)) × LooksOver limit at known self.old.pass parked.old.items happened self.new.pass parked.new.items × GoesThrough I.brings I.is_over I.gives I.was_left mailbox.old happened mailbox.new }
        ensures may { TakesAnswers I.brings I.is_over I.may_give I.gives I.was_left parked.new.items at mailbox.new }
    {
        let mut quiet = known;
        for _ in 0..parked.len() {
            let Some(poll) = parked.pop_front() else {
                unreachable!()
            };
            let kept = self.look_at(rt, alloc, at, limit, quiet, poll, mailbox, gate);
            quiet = kept.is_some();
            if let Some(poll) = kept {
                parked.push_back_reserved(poll);
            }
        }
    }

    /// The same where the wait of none is over: once one goes on waiting, those behind it do too, and none of them
    /// is looked at.
    fn look_over_first<S: Drop, I: Inbox<Mail<P, S>, S, Answer<P>>, R: Wait, G: Gate>(
        &mut self,
        rt: &R,
        alloc: Global,
        at: Moment,
        limit: u32,
        known: bool,
        parked: &mut VecDeque<Ask<P, S>>,
        mailbox: &mut I,
        gate: &G,
    )
        requires may { TakesAnswers I.brings I.is_over I.may_give I.gives I.was_left parked.old.items at mailbox.old }
        requires early { WaitBeyond at parked.old.items }
        ensures looked { (happened : List (MailboxEvent (Mail P S P.Told) S Answered)) × LooksOver limit at known self.old.pass parked.old.items happened self.new.pass parked.new.items × GoesThrough I.brings I.is_over I.gives I.was_left mailbox.old happened mailbox.new }
        ensures may { TakesAnswers I.brings I.is_over I.may_give I.gives I.was_left parked.new.items at mailbox.new }
    {
        let mut quiet = known;
        while let Some(poll) = parked.pop_front() {
            if let Some(poll) = self.look_at(rt, alloc, at, limit, quiet, poll, mailbox, gate) {
                parked.push_front_reserved(poll);
                return;
            }
            quiet = false;
        }
    }

    /// Looks over the polls that wait. Only where the wait of one may be over, or all are to be gone through, it comes to all
    /// of them. It is told the earliest end of their waits, or an earlier time, and tells the same of those that are left: the
    /// earliest end where it came to all of them.
    fn look_over<S: Drop, I: Inbox<Mail<P, S>, S, Answer<P>>, R: Wait, G: Gate>(
        &mut self,
        rt: &R,
        alloc: Global,
        at: Moment,
        limit: u32,
        is_sweep: bool,
        known: bool,
        soonest: u64,
        parked: &mut VecDeque<Ask<P, S>>,
        mailbox: &mut I,
        gate: &G,
    ) -> u64
        requires may { TakesAnswers I.brings I.is_over I.may_give I.gives I.was_left parked.old.items at mailbox.old }
        requires ends { EndFrom soonest parked.old.items }
        ensures looked { (happened : List (MailboxEvent (Mail P S P.Told) S Answered)) × LooksOver limit at known self.old.pass parked.old.items happened self.new.pass parked.new.items × GoesThrough I.brings I.is_over I.gives I.was_left mailbox.old happened mailbox.new }
        ensures may { TakesAnswers I.brings I.is_over I.may_give I.gives I.was_left parked.new.items at mailbox.new }
        ensures ends { EndFrom result parked.new.items }
        ensures all { (is_sweep || nat_le soonest at) ≡ true → result ≡ earliest 18446744073709551615 parked.new.items }
        ensures first { (is_sweep || nat_le soonest at) ≡ false → result ≡ soonest }
    {
        if is_sweep || soonest <= at.milliseconds() {
            self.look_over_all(rt, alloc, at, limit, known, parked, mailbox, gate);
            return earliest(parked);
        }
        self.look_over_first(rt, alloc, at, limit, known, parked, mailbox, gate);
        soonest
    }

    /// Serves the mails of a mailbox one after another, until it is told to end, its queue is closed, or no
    /// mail will come any more. A mailbox has to take the answer to each ask that it brought, once. A receive that
    /// would wait is answered at its moment, like other asks, where memory for it is refused: no other mail waits for
    /// that memory.
    pub fn run<S: Drop, I: Inbox<Mail<P, S>, S, Answer<P>>, D: Targets, R: Wait, G: Gate>(
        &mut self,
        rt: &R,
        alloc: Global,
        mailbox: &mut I,
        directory: &D,
        gate: &G,
    )
        requires may { TakesAnswers {S = S} I.brings I.is_over I.may_give I.gives I.was_left [] 0 mailbox.old }
        ensures served { (mails : List (Mail P S P.Told)) × (events : List (MailboxEvent (Mail P S P.Told) S Answered))
            × Serves (D.was_told directory.now) (D.was_taken_out directory.now) (D.was_retargeted directory.now) self.old.uid self.old.limits.in_flight self.old.pass [] 0 mails events self.new.pass
            × GoesThrough I.brings I.is_over I.gives I.was_left mailbox.old events mailbox.new }
        ensures known { IsKnown self.new.pass }
    {
        let uid = self.uid;
        let limits = self.limits;
        let limit = limits.in_flight;
        let mut parked = VecDeque::new(alloc);
        let mut last = Moment::zero();
        let mut due = 0;
        let mut soonest = u64::MAX;
        for _ in rt.forever() {
            let Some(mail) = mailbox.next(rt) else {
                return self.end(rt, alloc, last, parked, mailbox, directory, gate);
            };
            let is_tick = is_tick(&mail);
            let earliest_end = end_with(&mail, soonest);
            let (at, is_last) = take_in(
                rt,
                alloc,
                uid,
                mail,
                last,
                &mut parked,
                mailbox,
                directory,
                gate,
            );
            if is_last {
                return self.end(rt, alloc, at, parked, mailbox, directory, gate);
            }
            last = at;
            self.duties.set_polls(parked.len());
            let quiet = self.look_at_tick(rt, alloc, at, limit, is_tick, gate);
            let (is_sweep, next) = sweep(is_tick, due, at);
            due = next;
            soonest = self.look_over(
                rt,
                alloc,
                at,
                limit,
                is_sweep,
                quiet,
                earliest_end,
                &mut parked,
                mailbox,
                gate,
            );
            self.move_parcels(rt, alloc, at, directory, gate);
        }
        unreachable!()
    }

    /// Answers the polls that wait, at the moment of the last mail.
    fn end<S: Drop, I: Inbox<Mail<P, S>, S, Answer<P>>, D: Targets, R: Wait, G: Gate>(
        &mut self,
        rt: &R,
        alloc: Global,
        last: Moment,
        parked: VecDeque<Ask<P, S>>,
        mailbox: &mut I,
        directory: &D,
        gate: &G,
    )
        requires may { TakesAnswers I.brings I.is_over I.may_give I.gives I.was_left parked.items last mailbox.old }
        ensures served { (happened : List (MailboxEvent (Mail P S P.Told) S Answered)) × Ends (D.was_told directory.now) (D.was_taken_out directory.now) (D.was_retargeted directory.now) last self.old.pass parked.items happened self.new.pass × GoesThrough I.brings I.is_over I.gives I.was_left mailbox.old happened mailbox.new }
        ensures known { IsKnown self.new.pass }
    {
        answer_all(rt, alloc, last, parked, mailbox, gate);
        self.move_parcels(rt, alloc, last, directory, gate);
    }
}

/// Whether a reply to a look shows that nothing is visible and that the in-flight limit is not reached.
fn is_quiet(reply: &Result<Reply, Fault>, limit: u32) -> bool
    ensures { result ≡ is_quiet limit reply.now }
{
    match reply {
        Ok(Reply::Looked(look)) => {
            look.gauges.visible == 0 && look.gauges.in_flight < u64::from(limit)
        }
        _ => false,
    }
}

/// Whether a mail is a tick.
fn is_tick<P: Press, S: Drop>(mail: &Mail<P, S>) -> bool
    ensures { result ≡ is_tick mail.now }
{
    matches!(mail, Mail::Tick(_))
}

/// Whether all polls are gone through for those whose clients wait no longer, and the time in milliseconds from which they
/// are again: at a tick, and not within the time between two ticks of the clock, since each send that is asked without
/// its actor puts a tick too.
fn sweep(is_tick: bool, due: u64, at: Moment) -> (bool, u64) {
    let at = at.milliseconds();
    if is_tick && due <= at {
        (true, at + TICK_MILLISECONDS)
    } else {
        (false, due)
    }
}

/// Whether a command is a receive.
fn is_receive(command: &Command) -> bool
    ensures { result ≡ is_receive command.now }
{
    matches!(command, Command::Receive { .. })
}

/// Whether an ask is a receive that has time to wait when it comes.
fn may_wait<P: Press, S: Drop>(ask: &Ask<P, S>) -> bool
    ensures { result ≡ may_wait ask.now }
{
    is_receive(&ask.command) && ask.moment.milliseconds() < ask.wait_until.milliseconds()
}

/// The earlier of two times.
fn earlier(time: u64, other: u64) -> u64
    ensures { result ≡ earlier time other }
{
    if other < time { other } else { time }
}

/// The earliest end of the waits of polls, in milliseconds; the last time there is where none waits.
fn earliest<P: Press, S: Drop>(parked: &VecDeque<Ask<P, S>>) -> u64
    ensures { result ≡ earliest 18446744073709551615 parked.now.items }
{
    let mut soonest = u64::MAX;
    for place in 0..parked.len() {
        soonest = earlier(soonest, parked[place].wait_until.milliseconds());
    }
    soonest
}

/// A time before which no wait ends, once a mail has come; `soonest` is one before it came. The end of an ask counts if it
/// may wait.
fn end_with<P: Press, S: Drop>(mail: &Mail<P, S>, soonest: u64) -> u64
    ensures { result ≡ end_with mail.now soonest }
{
    match mail {
        Mail::Ask(ask) if may_wait(ask) => earlier(soonest, ask.wait_until.milliseconds()),
        _ => soonest,
    }
}

/// Asks what an ask asks, at a moment, at its own desk and with its own pass. The answer stands behind its
/// slot.
fn asked<P: Press, S: Drop, R: Wait, G: Gate>(
    rt: &R,
    alloc: Global,
    at: Moment,
    ask: Ask<P, S>,
    gate: &G,
) -> (S, Answer<P>)
where
    P::Told: Drop,
    ensures slot { result.0 ≡ ask.reply }
    ensures answer { IsAnswerAt at ask result.1 }
{
    let Ask {
        desk,
        mut pass,
        moment: _,
        command,
        wait_until: _,
        reply: slot,
    } = ask;
    let reply = desk.ask(rt, alloc, &mut pass, at, &command, gate).reply;
    (slot, Answer::new(desk, pass, command, reply))
}

/// Asks what an ask asks, at a moment, and gives the answer to its slot.
fn answer<P: Press, S: Drop, I: Inbox<Mail<P, S>, S, Answer<P>>, R: Wait, G: Gate>(
    rt: &R,
    alloc: Global,
    at: Moment,
    ask: Ask<P, S>,
    mailbox: &mut I,
    gate: &G,
)
where
    P::Told: Drop,
    requires may { (given : Answered) → IsAnswerAt at ask given → I.may_give mailbox.old ask.reply given }
    ensures { (given : Answered) × IsAnswerAt at ask given × I.gives mailbox.old ask.reply given mailbox.new }
{
    let (slot, answer) = asked(rt, alloc, at, ask, gate);
    mailbox.give(slot, answer);
}

/// The same, unless nobody waits for the answer any more: then nothing is asked.
fn answer_awaited<P: Press, S: Drop, I: Inbox<Mail<P, S>, S, Answer<P>>, R: Wait, G: Gate>(
    rt: &R,
    alloc: Global,
    at: Moment,
    ask: Ask<P, S>,
    mailbox: &mut I,
    gate: &G,
)
where
    P::Told: Drop,
    requires may { (given : Answered) → IsAnswerAt at ask given → I.may_give mailbox.old ask.reply given }
    ensures { (happened : List (MailboxEvent (Mail P S P.Told) S Answered)) × IsServedAt at ask happened × GoesThrough I.brings I.is_over I.gives I.was_left mailbox.old happened mailbox.new }
{
    if !mailbox.is_left(&ask.reply) {
        answer(rt, alloc, at, ask, mailbox, gate);
    }
}

/// Makes room for an ask that may wait, unless memory for it is refused. It is told whether the ask may wait and has room.
fn makes_room<P: Press, S: Drop>(ask: &Ask<P, S>, parked: &mut VecDeque<Ask<P, S>>) -> bool
    ensures same { parked.new.items ≡ parked.old.items }
    ensures room { result ≡ true → (may_wait ask.now ≡ true) × (deque_len parked.new < deque_capacity parked.new) }
    ensures none { result ≡ false → may_wait ask.now ≡ true → deque_capacity parked.old ≤ deque_len parked.old }
{
    may_wait(ask) && parked.reserve(1).is_ok()
}

/// Answers an ask at its moment. What the command changes in the directory is entered there before its
/// answer is given. It is told whether the queue is closed.
fn answer_now<P: Press, S: Drop, I: Inbox<Mail<P, S>, S, Answer<P>>, D: Targets, R: Wait, G: Gate>(
    rt: &R,
    alloc: Global,
    uid: u64,
    ask: Ask<P, S>,
    mailbox: &mut I,
    directory: &D,
    gate: &G,
) -> bool
where
    P::Told: Drop,
    requires may { (given : Answered) → IsAnswerAt ask.moment ask given → I.may_give mailbox.old ask.reply given }
    ensures { (given : Answered) × IsAnswerAt ask.moment ask given
        × (result ≡ has_closed given.command given.reply) × Enters (D.was_taken_out directory.now) (D.was_retargeted directory.now) uid given.command given.reply
        × I.gives mailbox.old ask.reply given mailbox.new }
{
    let (slot, answer) = asked(rt, alloc, ask.moment, ask, gate);
    let is_closed = enter(rt, directory, uid, answer.command(), answer.reply());
    mailbox.give(slot, answer);
    is_closed
}

/// An ask that may wait is kept behind the polls that wait, where there is room for it. Every other is answered at its
/// moment, unless it is a receive whose client waits no longer. So a receive that would wait is asked at once where
/// memory for it is refused: its client gets what is there, maybe nothing. No clause can say that memory was refused:
/// [kept] says that a place which is there is taken. It is told whether the queue is closed.
fn admit<P: Press, S: Drop, I: Inbox<Mail<P, S>, S, Answer<P>>, D: Targets, R: Wait, G: Gate>(
    rt: &R,
    alloc: Global,
    uid: u64,
    ask: Ask<P, S>,
    parked: &mut VecDeque<Ask<P, S>>,
    mailbox: &mut I,
    directory: &D,
    gate: &G,
) -> bool
where
    P::Told: Drop,
    requires may { TakesAnswers I.brings I.is_over I.may_give I.gives I.was_left (parked.old.items ++ ask ∷ []) ask.moment mailbox.old }
    ensures admitted { (happened : List (MailboxEvent (Mail P S P.Told) S Answered)) × Admits ask parked.old.items happened parked.new.items
        × Leads (D.was_taken_out directory.now) (D.was_retargeted directory.now) uid happened result
        × GoesThrough I.brings I.is_over I.gives I.was_left mailbox.old happened mailbox.new }
    ensures kept { may_wait ask ≡ true → deque_len parked.old < deque_capacity parked.old → parked.new.items ≡ parked.old.items ++ ask ∷ [] }
    ensures may { TakesAnswers I.brings I.is_over I.may_give I.gives I.was_left parked.new.items ask.moment mailbox.new }
{
    if makes_room(&ask, parked) {
        parked.push_back_reserved(ask);
        return false;
    }
    if is_receive(&ask.command) && mailbox.is_left(&ask.reply) {
        return false;
    }
    answer_now(rt, alloc, uid, ask, mailbox, directory, gate)
}

/// Takes a mail in: an ask waits or is answered. It is told which moment the last mail had, and whether the
/// actor ends.
fn take_in<P: Press, S: Drop, I: Inbox<Mail<P, S>, S, Answer<P>>, D: Targets, R: Wait, G: Gate>(
    rt: &R,
    alloc: Global,
    uid: u64,
    mail: Mail<P, S>,
    last: Moment,
    parked: &mut VecDeque<Ask<P, S>>,
    mailbox: &mut I,
    directory: &D,
    gate: &G,
) -> (Moment, bool)
where
    P::Told: Drop,
    requires may { TakesAnswers I.brings I.is_over I.may_give I.gives I.was_left (waiting_with parked.old.items mail) (moment_with last mail) mailbox.old }
    ensures taken { (happened : List (MailboxEvent (Mail P S P.Told) S Answered))
        × TakesIn (D.was_taken_out directory.now) (D.was_retargeted directory.now) uid mail last parked.old.items happened parked.new.items result.0 result.1
        × GoesThrough I.brings I.is_over I.gives I.was_left mailbox.old happened mailbox.new }
    ensures may { TakesAnswers I.brings I.is_over I.may_give I.gives I.was_left parked.new.items result.0 mailbox.new }
{
    match mail {
        Mail::Ask(ask) => {
            let at = ask.moment;
            let is_closed = admit(rt, alloc, uid, ask, parked, mailbox, directory, gate);
            (at, is_closed)
        }
        Mail::Tick(at) => (at, false),
        Mail::End => (last, true),
    }
}

/// Asks what every poll asks that waits, at a moment, in the order in which they came.
fn answer_all<P: Press, S: Drop, I: Inbox<Mail<P, S>, S, Answer<P>>, R: Wait, G: Gate>(
    rt: &R,
    alloc: Global,
    at: Moment,
    mut parked: VecDeque<Ask<P, S>>,
    mailbox: &mut I,
    gate: &G,
)
where
    P::Told: Drop,
    requires may { TakesAnswers I.brings I.is_over I.may_give I.gives I.was_left parked.items at mailbox.old }
    ensures { (happened : List (MailboxEvent (Mail P S P.Told) S Answered)) × AreServedAt at parked.items happened × GoesThrough I.brings I.is_over I.gives I.was_left mailbox.old happened mailbox.new }
{
    while let Some(poll) = parked.pop_front() {
        answer_awaited(rt, alloc, at, poll, mailbox, gate);
    }
}
