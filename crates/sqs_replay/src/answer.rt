//! What a line of the input asks, and its answer.

ghost use Rattle.std.specs.Prelude.{◌≡◌, ◌++◌, codes, decimal, IfOk, IfErr, OnOk, Ok, Some, false};
ghost use Rattle.message.specs.Fault.{Meets, is_out_of_memory};
ghost use Rattle.redrive.specs.House.{names_in_house, sources_answer, target_uid};
ghost use Rattle.aws_json.specs.declared.reply.ReplyShape.TheVariants.{QueueUrl, QueueUrls, SourceQueueUrls};
ghost use Rattle.aws_json.specs.Steps.{result_map};
ghost use Rattle.request_plan.specs.declared.task.Task.TheVariants.{Create, Delete, Set, Ask};
ghost use Rattle.request_plan.specs.Task.{queue_of_task, task_of};
ghost use Rattle.sqs_replay.specs.declared.shown.LineAnswer.TheVariants.{Reply};
ghost use Rattle.sqs_replay.specs.Served.{asked_by, asked_of, unchanged, in_queue, task_served, served, asked_served, queue_of_asked, required_queue, line_served, answer_text, text_of_line, house_of_line, Leaves};
ghost use Rattle.sqs_replay.specs.private.Place.{IsPlaceOf};

use crate::ReplayFault;
use crate::input_line::{InputLine, read_line};
use crate::lines::{LINE_LIMIT, Lines};
use crate::moves::move_dead_letters;
use crate::shown::{LineAnswer, shown_text};
use crate::statistics::{show_alarms, show_rows, show_statistics};
use crate::steps::play;
use aws_json::{
    Prefix, QueueNames, ReplyShape, Request, fault_text, parse, read_object, read_queue, status,
};
use journal::{Moment, Ticks};
use message::{Fault, QueueName};
use queue_config::Wish;
use queue_core::Command;
use redrive::{House, QueuePlace};
use request_plan::{Step, Task, queue_of_task, task_of};
use std::alloc::Global;

/// What a line asks.
#[derive(Debug, Drop)]
pub enum Asked {
    /// A client's request.
    Client(Request),
    /// That every queue's clock moves.
    Tick,
    /// The statistics of a queue, or of all queues.
    Statistics(Option<QueueName>),
    /// The rows of a queue.
    Rows(QueueName),
    /// The alarms of a queue.
    Alarms(QueueName),
}

/// What a line asks, and when.
#[derive(Debug, Drop)]
pub struct Timed {
    pub at: Moment,
    pub asked: Asked,
}

/// The queue that a body has to name.
fn required_queue(alloc: Global, body: &[u8]) -> Result<QueueName, Fault>
    ensures { Meets result (required_queue body.now) }
{
    let queue = read_queue(alloc, body)?;
    queue.ok_or(Fault::InvalidParameterValue)
}

/// Reads one of the replay's own actions, or a client's request.
fn read_asked(alloc: Global, action: &str, body: &[u8]) -> Result<Asked, Fault>
    ensures { Meets result (asked_by action.now body.now) }
{
    match action {
        "Tick" => {
            read_object(alloc, body)?;
            Ok(Asked::Tick)
        }
        "Statistics" => read_queue(alloc, body).map(Asked::Statistics),
        "Rows" => required_queue(alloc, body).map(Asked::Rows),
        "Alarms" => required_queue(alloc, body).map(Asked::Alarms),
        _ => parse(alloc, action, body).map(Asked::Client),
    }
}

/// Reads a line. One that is too long cannot be read, whatever it says.
fn read_timed(alloc: Global, line: &[u8]) -> Result<Timed, Fault>
    ensures { Meets result (asked_of line.now) }
{
    if LINE_LIMIT < line.len() {
        return Err(Fault::SerializationException);
    }
    match read_line(line) {
        Ok(InputLine { at, action, body }) => {
            let asked = read_asked(alloc, action, body)?;
            Ok(Timed { at, asked })
        }
        Err(fault) => Err(fault),
    }
}

/// Creates a queue.
fn create(
    alloc: Global,
    house: &mut House,
    at: Moment,
    name: QueueName,
    wish: Wish,
) -> Result<ReplyShape, Fault>
    ensures answer { Meets result (task_served house.old at (Create name wish)).answer }
    ensures state { Leaves result house.new (task_served house.old at (Create name wish)).house }
{
    house.create(alloc, at, name, wish)?;
    Ok(ReplyShape::QueueUrl(name))
}

/// Deletes a queue.
fn delete_queue(
    alloc: Global,
    house: &mut House,
    at: Moment,
    queue: &QueueName,
    ticks: &mut Ticks,
) -> Result<ReplyShape, Fault>
    ensures answer { Meets result (task_served house.old at (Delete queue.now)).answer }
    ensures state { Leaves result house.new (task_served house.old at (Delete queue.now)).house }
{
    let Some(uid) = house.find(queue) else {
        return Err(Fault::QueueDoesNotExist);
    };
    house.delete_queue(alloc, uid, at, ticks)?;
    Ok(ReplyShape::Nothing)
}

/// Answers the URL of a queue that is there. No clock moves.
fn url(house: &House, name: &QueueName) -> Result<ReplyShape, Fault>
    ensures { result ≡ (in_queue house.now name.now (λ uid. unchanged house.now (Ok (QueueUrl name.now)))).answer }
{
    match house.find(name) {
        Some(_) => Ok(ReplyShape::QueueUrl(*name)),
        None => Err(Fault::QueueDoesNotExist),
    }
}

/// Answers the URLs of the queues that have a queue for their dead letters. No clock moves.
fn source_urls(alloc: Global, house: &House, queue: &QueueName) -> Result<ReplyShape, Fault>
    ensures { Meets result (in_queue house.now queue.now (λ uid. unchanged house.now (result_map SourceQueueUrls (sources_answer house.now uid)))).answer }
{
    let Some(uid) = house.find(queue) else {
        return Err(Fault::QueueDoesNotExist);
    };
    let names = house.sources(alloc, uid)?;
    Ok(ReplyShape::SourceQueueUrls(QueueNames::new(names)))
}

/// Gives a queue settings.
fn set_attributes(
    alloc: Global,
    house: &mut House,
    at: Moment,
    queue: &QueueName,
    wish: Wish,
    ticks: &mut Ticks,
) -> Result<ReplyShape, Fault>
    ensures answer { Meets result (task_served house.old at (Set queue.now wish)).answer }
    ensures state { Leaves result house.new (task_served house.old at (Set queue.now wish)).house }
{
    let Some(uid) = house.find(queue) else {
        return Err(Fault::QueueDoesNotExist);
    };
    let target = target_uid(house, &wish);
    let command = Command::Set { wish, target };
    house.step(alloc, uid, at, &command, ticks)?;
    Ok(ReplyShape::Nothing)
}

/// The uid of the dead-letter queue that a request names, 0 where it names none or no queue has the
/// name.
fn target_uid(house: &House, wish: &Wish) -> u64
    ensures { result ≡ target_uid house.now wish.now }
{
    match wish.target() {
        Some(Some(name)) => house.find(&name).unwrap_or(0),
        _ => 0,
    }
}

/// Answers the URLs of the queues whose names begin with a prefix. No clock moves.
fn urls(alloc: Global, house: &House, prefix: &Prefix) -> Result<ReplyShape, Fault>
    ensures { Meets result (Ok (QueueUrls (names_in_house house.now prefix.now))) }
{
    let names = house.list(alloc, prefix.as_text())?;
    Ok(ReplyShape::QueueUrls(QueueNames::new(names)))
}

/// An answer, and where the queue stands whose dead letters then move.
#[derive(Drop)]
struct AskedAnswer {
    answer: Result<LineAnswer, Fault>,
    place: Option<QueuePlace>,
}

/// An answer behind which the dead letters of the queue of a name move, where that queue is there.
fn answered(
    house: &House,
    queue: Option<QueueName>,
    answer: Result<LineAnswer, Fault>,
) -> AskedAnswer
    ensures answer { result.answer ≡ answer }
    ensures place { IsPlaceOf house.now queue result.place }
{
    let place = match queue {
        Some(name) => house.find_place(&name),
        None => None,
    };
    AskedAnswer { answer, place }
}

/// The same of a reply.
fn replied(house: &House, queue: Option<QueueName>, reply: Result<ReplyShape, Fault>) -> AskedAnswer
    ensures answer { result.answer ≡ result_map Reply reply }
    ensures place { IsPlaceOf house.now queue result.place }
{
    answered(house, queue, reply.map(LineAnswer::Reply))
}

/// Asks the queue of a name, from a step on. It is looked for once.
fn ask(
    alloc: Global,
    house: &mut House,
    at: Moment,
    queue: &QueueName,
    step: Step,
    ticks: &mut Ticks,
) -> AskedAnswer
    ensures place { IsPlaceOf house.new (Some queue.now) result.place }
    ensures answer { Meets result.answer (result_map Reply (task_served house.old at (Ask queue.now step)).answer) }
    ensures state { Leaves result.answer house.new (task_served house.old at (Ask queue.now step)).house }
{
    match house.find_place(queue) {
        Some(found) => {
            let reply = play(alloc, house, at, found, step, ticks);
            AskedAnswer {
                answer: reply.map(LineAnswer::Reply),
                place: Some(found),
            }
        }
        None => AskedAnswer {
            answer: Err(Fault::QueueDoesNotExist),
            place: None,
        },
    }
}

/// Does what a request is about.
fn serve_task(
    alloc: Global,
    house: &mut House,
    at: Moment,
    task: Task,
    ticks: &mut Ticks,
) -> AskedAnswer
    ensures place { IsPlaceOf house.new (queue_of_task task) result.place }
    ensures answer { Meets result.answer (result_map Reply (task_served house.old at task).answer) }
    ensures state { Leaves result.answer house.new (task_served house.old at task).house }
{
    match task {
        Task::Create { name, wish } => {
            let reply = create(alloc, house, at, name, wish);
            replied(house, None, reply)
        }
        Task::Delete { queue } => {
            let reply = delete_queue(alloc, house, at, &queue, ticks);
            replied(house, Some(queue), reply)
        }
        Task::Set { queue, wish } => {
            let reply = set_attributes(alloc, house, at, &queue, wish, ticks);
            replied(house, Some(queue), reply)
        }
        Task::Url { name } => replied(house, None, url(house, &name)),
        Task::Urls { prefix } => replied(house, None, urls(alloc, house, &prefix)),
        Task::Sources { queue } => {
            let reply = source_urls(alloc, house, &queue);
            replied(house, Some(queue), reply)
        }
        Task::Ask { queue, step } => ask(alloc, house, at, &queue, step, ticks),
    }
}

/// Answers a client's request.
fn serve(
    alloc: Global,
    house: &mut House,
    at: Moment,
    request: Request,
    ticks: &mut Ticks,
) -> AskedAnswer
    ensures place { IsPlaceOf house.new (queue_of_task (task_of request)) result.place }
    ensures answer { Meets result.answer (result_map Reply (served house.old at request).answer) }
    ensures state { Leaves result.answer house.new (served house.old at request).house }
{
    let task = task_of(alloc, request);
    serve_task(alloc, house, at, task, ticks)
}

/// Answers what a line asks.
fn serve_asked(alloc: Global, house: &mut House, timed: Timed, ticks: &mut Ticks) -> AskedAnswer
    ensures place { IsPlaceOf house.new (queue_of_asked timed.asked) result.place }
    ensures answer { Meets result.answer (asked_served house.old timed.at timed.asked).answer }
    ensures state { Leaves result.answer house.new (asked_served house.old timed.at timed.asked).house }
{
    let Timed { at, asked } = timed;
    match asked {
        Asked::Client(request) => serve(alloc, house, at, request, ticks),
        Asked::Tick => {
            house.advance_all(at, ticks);
            replied(house, None, Ok(ReplyShape::Nothing))
        }
        Asked::Statistics(queue) => {
            let answer = show_statistics(alloc, house, at, &queue, ticks);
            answered(house, queue, answer)
        }
        Asked::Rows(queue) => {
            let answer = show_rows(alloc, house, at, &queue, ticks);
            answered(house, Some(queue), answer)
        }
        Asked::Alarms(queue) => {
            let answer = show_alarms(alloc, house, at, &queue, ticks);
            answered(house, Some(queue), answer)
        }
    }
}

/// Answers a line, and then moves the dead letters of the queue that it names.
fn serve_line(
    alloc: Global,
    house: &mut House,
    line: &[u8],
    ticks: &mut Ticks,
) -> Result<LineAnswer, Fault>
    ensures answer { Meets result (line_served house.old (asked_of line.now)).answer }
    ensures state { Leaves result house.new (line_served house.old (asked_of line.now)).house }
{
    let timed = read_timed(alloc, line)?;
    let at = timed.at;
    let AskedAnswer { answer, place } = serve_asked(alloc, house, timed, ticks);
    if matches!(answer, Err(Fault::OutOfMemory)) {
        return answer;
    }
    if let Some(found) = place {
        move_dead_letters(alloc, house, at, found, ticks)?;
    }
    answer
}

/// The text of an answer: its status, a space, the JSON text and a line feed. That memory ran out is
/// never told as an answer.
fn text_of_answer(alloc: Global, answer: &Result<LineAnswer, Fault>) -> Result<Vec<u8>, ReplayFault>
    ensures text { IfOk result (λ bytes. bytes.items ≡ answer_text answer.now) }
    ensures answered { OnOk result (is_out_of_memory answer.now ≡ false) }
    ensures fault { IfErr result (λ fault. fault ≡ ReplayFault.OutOfMemory) }
{
    match answer {
        Ok(shown) => {
            let json = shown_text(alloc, shown).map_err(|_| ReplayFault::OutOfMemory)?;
            written(alloc, 200, json.as_str())
        }
        Err(Fault::OutOfMemory) => Err(ReplayFault::OutOfMemory),
        Err(fault) => written(alloc, status(*fault), fault_text(*fault)),
    }
}

/// A status, a space, a JSON text and a line feed.
fn written(alloc: Global, status: u16, json: &str) -> Result<Vec<u8>, ReplayFault>
    ensures text { IfOk result (λ bytes. bytes.items ≡ decimal status ++ codes " " ++ json.now ++ codes "\n") }
    ensures fault { IfErr result (λ fault. fault ≡ ReplayFault.OutOfMemory) }
{
    let text = format!(in alloc; "{status} {json}\n")?;
    Ok(text.into_bytes())
}

impl Lines for House {
    ghost use Rattle.sqs_replay.specs.LongLines.{text_of_long_line, house_of_long_line};

    ghost text = { text_of_line };

    ghost after = { house_of_line };

    fn answer(
        &mut self,
        alloc: Global,
        line: &[u8],
        ticks: &mut Ticks,
    ) -> Result<Vec<u8>, ReplayFault> {
        let answer = serve_line(alloc, self, line, ticks);
        text_of_answer(alloc, &answer)
    }

    ghost same_text = { text_of_long_line };

    ghost same_after = { house_of_long_line };
}
