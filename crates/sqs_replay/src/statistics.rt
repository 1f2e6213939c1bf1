//! The statistics of queues, by their own calls.

ghost use Rattle.std.specs.Prelude.{◌≡◌, map, IfOk, IfErr, OnOk, Ok};
ghost use Rattle.std.specs.Option.{ForSome};
ghost use Rattle.message.specs.declared.fault.Fault.TheVariants.{OutOfMemory};
ghost use Rattle.message.specs.Fault.{Meets};
ghost use Rattle.queue_core.specs.declared.reply.Reply.TheVariants.{Looked};
ghost use Rattle.queue_core.specs.Queue.{look_of};
ghost use Rattle.redrive.specs.House.{queue_of_uid, house_at_moment, IsRegistry};
ghost use Rattle.sqs_replay.specs.Sheets.{sheets_of};
ghost use Rattle.sqs_replay.specs.Served.{Leaves, sheet_in, sheet_served, named_sheet_served, asked_served};
ghost use Rattle.sqs_replay.specs.declared.answer.Asked.TheVariants.{Statistics, Rows, Alarms};

use crate::shown::LineAnswer;
use aws_json::Listed;
use board::Sheet;
use journal::{Moment, Ticks};
use message::{Fault, QueueName};
use queue_core::{Command, Reply};
use redrive::House;
use std::alloc::Global;

/// The statistics of the queue of a uid, where a look at it was answered so.
fn sheet_in(alloc: Global, house: &House, uid: u64, reply: &Reply) -> Result<Sheet, Fault>
    requires { ForSome (queue_of_uid house.now uid) (λ q. reply.now ≡ Looked (look_of q)) }
    ensures { Meets result (sheet_in house.now uid) }
{
    match (house.state(uid), reply) {
        (Some(queue), Reply::Looked(look)) => Sheet::of(alloc, queue, look.clock),
        _ => Err(Fault::QueueDoesNotExist),
    }
}

/// Looks at the queue of a uid, and gives its statistics.
fn sheet_of_uid(
    alloc: Global,
    house: &mut House,
    at: Moment,
    uid: u64,
    ticks: &mut Ticks,
) -> Result<Sheet, Fault>
    ensures answer { Meets result (sheet_served house.old uid at).answer }
    ensures state { Leaves result house.new (sheet_served house.old uid at).house }
{
    let reply = house.step(alloc, uid, at, &Command::Look, ticks)?;
    sheet_in(alloc, house, uid, &reply)
}

/// Looks at the queue of a name, and gives its statistics.
fn named_sheet(
    alloc: Global,
    house: &mut House,
    at: Moment,
    name: &QueueName,
    ticks: &mut Ticks,
) -> Result<Sheet, Fault>
    ensures answer { Meets result (named_sheet_served house.old at name.now).answer }
    ensures state { Leaves result house.new (named_sheet_served house.old at name.now).house }
{
    let Some(uid) = house.find(name) else {
        return Err(Fault::QueueDoesNotExist);
    };
    sheet_of_uid(alloc, house, at, uid, ticks)
}

/// The statistics of each queue of these names.
fn sheets_of_names(
    alloc: Global,
    house: &mut House,
    at: Moment,
    names: &[QueueName],
    ticks: &mut Ticks,
) -> Result<Vec<Sheet>, Fault>
    requires at { house.old ≡ house_at_moment house.old at }
    requires registry { IsRegistry house.old }
    requires names { names.now ≡ map (λ s. s.name) (sheets_of house.old) }
    ensures sheets { IfOk result (λ sheets. sheets.items ≡ sheets_of house.old) }
    ensures fault { IfErr result (λ fault. fault ≡ OutOfMemory) }
    ensures state { OnOk result (house.new ≡ house.old) }
{
    let mut sheets = Vec::new(alloc);
    for name in names {
        let sheet = named_sheet(alloc, house, at, name, ticks)?;
        sheets.push(sheet)?;
    }
    Ok(sheets)
}

/// Moves every queue's clock, and gives the statistics of all queues, by name.
fn all_sheets(
    alloc: Global,
    house: &mut House,
    at: Moment,
    ticks: &mut Ticks,
) -> Result<Listed<Sheet>, Fault>
    ensures answer { Meets result (Ok (sheets_of (house_at_moment house.old at))) }
    ensures state { Leaves result house.new (house_at_moment house.old at) }
{
    house.advance_all(at, ticks);
    let names = house.list(alloc, "")?;
    let sheets = sheets_of_names(alloc, house, at, names.as_slice(), ticks)?;
    Ok(Listed::of(sheets))
}

/// Answers the statistics of a queue, or of all queues.
pub(crate) fn show_statistics(
    alloc: Global,
    house: &mut House,
    at: Moment,
    queue: &Option<QueueName>,
    ticks: &mut Ticks,
) -> Result<LineAnswer, Fault>
    ensures answer { Meets result (asked_served house.old at (Statistics queue.now)).answer }
    ensures state { Leaves result house.new (asked_served house.old at (Statistics queue.now)).house }
{
    match queue {
        Some(name) => Ok(LineAnswer::Queue(named_sheet(alloc, house, at, name, ticks)?)),
        None => Ok(LineAnswer::Queues(all_sheets(alloc, house, at, ticks)?)),
    }
}

/// Answers the rows of a queue.
pub(crate) fn show_rows(
    alloc: Global,
    house: &mut House,
    at: Moment,
    queue: &QueueName,
    ticks: &mut Ticks,
) -> Result<LineAnswer, Fault>
    ensures answer { Meets result (asked_served house.old at (Rows queue.now)).answer }
    ensures state { Leaves result house.new (asked_served house.old at (Rows queue.now)).house }
{
    Ok(LineAnswer::Rows(named_sheet(alloc, house, at, queue, ticks)?))
}

/// Answers the alarms of a queue.
pub(crate) fn show_alarms(
    alloc: Global,
    house: &mut House,
    at: Moment,
    queue: &QueueName,
    ticks: &mut Ticks,
) -> Result<LineAnswer, Fault>
    ensures answer { Meets result (asked_served house.old at (Alarms queue.now)).answer }
    ensures state { Leaves result house.new (asked_served house.old at (Alarms queue.now)).house }
{
    Ok(LineAnswer::Alarms(named_sheet(alloc, house, at, queue, ticks)?))
}
