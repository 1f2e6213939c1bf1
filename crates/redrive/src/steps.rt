//! The queue registry over a list of steps.

ghost use Rattle.std.specs.Prelude.{◌≡◌, ℕ, ◌+◌, ◌≤◌, IfOk, OnErr, IfErr};

use crate::house::House;
use crate::moved::Moved;
use alarm::AlarmState;
use journal::{Moment, Ticks};
use message::{Fault, QueueName};
use metric_window::{Flows, Gauges, Row};
use queue_config::{QUEUE_LIMIT, Wish};
use queue_core::{Command, QueueState, Reply};
use std::alloc::Global;

/// A step of the registry, and the moment that it comes at.
#[derive(Debug, Drop)]
pub enum HouseStep {
    /// A queue of a name is created: [`House::create`].
    Create {
        at: Moment,
        name: QueueName,
        wish: Wish,
    },
    /// The queue of a uid is deleted: [`House::take_queue`].
    Delete {
        at: Moment,
        uid: u64,
    },
    /// The queue of a uid performs a command: [`House::step`].
    Perform {
        at: Moment,
        uid: u64,
        command: Command,
    },
    /// The first parcel of the queue of a uid is handed over, and not confirmed:
    /// [`House::arrive_one`].
    HandOver {
        at: Moment,
        source: u64,
    },
    /// The first parcel of the queue of a uid is confirmed, where the queue that it is for has accepted
    /// it: the second half of [`House::move_one`].
    Confirm {
        at: Moment,
        source: u64,
    },
    /// Time passes for all queues: [`House::advance_all`].
    Advance {
        at: Moment,
    },
}

/// The answer to a step that was not refused.
#[derive(Debug, Drop)]
pub enum HouseReply {
    /// The uid of the queue that was created, or that has the name.
    Created(u64),
    /// The queue that was deleted, closed.
    Deleted(QueueState),
    /// What the queue answered.
    Performed(Reply),
    /// What became of the first parcel.
    HandedOver(Moved),
    /// Whether a parcel was confirmed.
    Confirmed(Reply),
    Advanced,
}

/// What is told of a queue at its clock.
#[derive(Clone, Copy, Debug, PartialEq, Eq)]
pub struct QueueMetrics {
    pub uid: u64,
    /// Its counts and its age.
    pub gauges: Gauges,
    /// What has happened so far in the clock's minute.
    pub current: Flows,
    /// The row of the minute that was asked for, where there is one.
    pub row: Option<Row>,
    /// The state of the alarm that was asked for, where there is one.
    pub alarm: Option<AlarmState>,
}

/// What a list of steps gave: the answers in the order of the steps, and what is told of each queue that
/// is there after it, in the order in which they were created.
#[derive(Debug, Drop)]
pub struct HouseRun {
    pub answers: Vec<Result<HouseReply, Fault>>,
    pub metrics: Vec<QueueMetrics>,
}

impl House {
    ghost use Rattle.redrive.specs.History.{AllQueues, IsWholeHistory};
    ghost use Rattle.redrive.specs.House.{queue_of_uid, IsRegistry};
    ghost use Rattle.redrive.specs.Cost.{ticks_of_steps};
    ghost use Rattle.redrive.specs.private.Cost.{IsDone};
    ghost use Rattle.redrive.specs.HouseSteps.{act_of, AreHouseAnswers, house_after_all, history_after, IsAsIfAlone, AreRecomputed};

    /// Does one step.
    fn take_step(
        &mut self,
        alloc: Global,
        step: &HouseStep,
        ticks: &mut Ticks,
    ) -> Result<HouseReply, Fault>
        ensures done { IsDone self.old (act_of self.old step.now) result self.new ticks.old ticks.new }
        ensures registry { IsRegistry self.old }
    {
        match step {
            HouseStep::Create { at, name, wish } => {
                Ok(HouseReply::Created(self.create(alloc, *at, *name, *wish)?))
            }
            HouseStep::Delete { at, uid } => {
                Ok(HouseReply::Deleted(self.take_queue(alloc, *uid, *at, ticks)?))
            }
            HouseStep::Perform { at, uid, command } => {
                Ok(HouseReply::Performed(self.step(alloc, *uid, *at, command, ticks)?))
            }
            HouseStep::HandOver { at, source } => {
                Ok(HouseReply::HandedOver(self.arrive_one(alloc, *source, *at, ticks)?))
            }
            HouseStep::Confirm { at, source } => {
                Ok(HouseReply::Confirmed(self.confirm(alloc, *source, *at, ticks)?))
            }
            HouseStep::Advance { at } => {
                self.advance_all(*at, ticks);
                Ok(HouseReply::Advanced)
            }
        }
    }

    /// Does steps one after another: queues are created and deleted, perform commands, hand over dead
    /// letters, confirm them, and see time pass. Then it tells of every queue that is there the counts, the age, what has
    /// happened in the current minute, the row of a minute, and the state of the alarm at a place among
    /// its own, counted from 0. Whatever the steps, the minute and the place are, what is told of a queue
    /// is what its own journal gives, as if no other queue were there. A queue that is deleted is
    /// handed over closed. Where the two lists find no memory, nothing is done.
    pub fn run(
        &mut self,
        alloc: Global,
        steps: &[HouseStep],
        minute: u64,
        alarm: usize,
        ticks: &mut Ticks,
    ) -> Result<HouseRun, Fault>
        ensures answers { IfOk result (λ run. AreHouseAnswers self.old steps.now run.answers.items) }
        ensures state { IfOk result (λ run. self.new ≡ house_after_all self.old steps.now run.answers.items) }
        ensures alone { IfOk result (λ run. (uid : ℕ) → IsAsIfAlone self.old uid (queue_of_uid self.old uid)
            steps.now run.answers.items (queue_of_uid self.new uid)) }
        ensures history { IfOk result (λ run. (all : AllQueues) → all.house ≡ self.old → IsWholeHistory all
            → IsWholeHistory (history_after all steps.now run.answers.items)) }
        ensures recomputed { IfOk result (λ run. AreRecomputed self.old self.new steps.now run.answers.items minute alarm run.metrics.items) }
        ensures err { OnErr result (self.new ≡ self.old) }
        ensures cost { IfOk result (λ run. ticks.new ≤ ticks.old + ticks_of_steps self.old steps.now run.answers.items) }
        ensures calm { OnErr result (ticks.new ≡ ticks.old) }
        ensures errors { IfErr result (λ fault. fault ≡ Fault.OutOfMemory) }
    {
        let mut answers = Vec::with_capacity(alloc, steps.len())?;
        let mut metrics = Vec::with_capacity(alloc, QUEUE_LIMIT)?;
        for step in steps {
            let answer = self.take_step(alloc, step, ticks);
            answers.push_reserved(answer);
        }
        self.measure(minute, alarm, &mut metrics);
        Ok(HouseRun { answers, metrics })
    }
}
