//! What a request asks of one queue, a step after another.

ghost use Rattle.std.specs.Prelude.{◌≡◌, ℕ, List, IfOk, IfErr, OnOk};
ghost use Rattle.message.specs.declared.fault.Fault.TheVariants.{OutOfMemory};
ghost use Rattle.message.specs.Fault.{Meets};
ghost use Rattle.redrive.specs.House.{found_uid, StandsAt};
ghost use Rattle.request_plan.specs.Plan.{Comes};
ghost use Rattle.sqs_replay.specs.Served.{Leaves, step_served, steps_served};

use aws_json::ReplyShape;
use journal::{Moment, Ticks};
use message::Fault;
use queue_core::Command;
use redrive::{House, QueuePlace};
use request_plan::{Performed, Step, Then, after};
use std::alloc::Global;

/// Does a command in the queue that was found, and gives the step that comes behind it. Only lack of
/// memory is a fault of the whole.
fn next_step(
    alloc: Global,
    house: &mut House,
    at: Moment,
    found: QueuePlace,
    command: Command,
    then: Then,
    ticks: &mut Ticks,
) -> Result<Step, Fault>
    requires { StandsAt house.old found }
    ensures step { IfOk result (λ step. Comes step (step_served house.old found.uid at command then).answer) }
    ensures fault { IfErr result (λ fault. fault ≡ OutOfMemory) }
    ensures state { OnOk result (house.new ≡ (step_served house.old found.uid at command then).house) }
    ensures stays { StandsAt house.new found }
    ensures names { (name : List ℕ) → found_uid house.new name ≡ found_uid house.old name }
{
    let outcome = match house.step_at(alloc, found, at, &command, ticks) {
        Ok(reply) => Ok(Performed { command, reply }),
        Err(Fault::OutOfMemory) => return Err(Fault::OutOfMemory),
        Err(fault) => Err(fault),
    };
    Ok(after(alloc, found.uid, then, outcome))
}

/// Asks the queue that was found a step after another, until there is an answer. The replay does not
/// wait.
pub(crate) fn play(
    alloc: Global,
    house: &mut House,
    at: Moment,
    found: QueuePlace,
    first: Step,
    ticks: &mut Ticks,
) -> Result<ReplyShape, Fault>
    requires { StandsAt house.old found }
    ensures answer { Meets result (steps_served house.old found.uid at first).answer }
    ensures state { Leaves result house.new (steps_served house.old found.uid at first).house }
    ensures stays { StandsAt house.new found }
    ensures names { (name : List ℕ) → found_uid house.new name ≡ found_uid house.old name }
{
    let mut step = first;
    loop {
        match step {
            Step::Ask { command, then, .. } => {
                step = next_step(alloc, house, at, found, command, then, ticks)?;
            }
            Step::Answer(answer) => return answer,
        }
    }
}
