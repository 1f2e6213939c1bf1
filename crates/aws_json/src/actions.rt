//! The actions (Amazon SQS API Reference): each is a line of [`ACTIONS`], has the members of its row
//! with their kinds in [`columns_of`], and has an arm of [`judge`], where they are judged one after
//! another. Which fault is which, and the order in which they are judged, is this project's own choice.

ghost use Rattle.std.specs.Prelude.{◌≡◌, ◌<◌, Err, Some, None, IfSome, is_some, option_map, map, length, codes};
ghost use Rattle.std.specs.List.{position};
ghost use Rattle.std.specs.Str.{bytes_eq};
ghost use Rattle.message.specs.Fault.{Meets};
ghost use Rattle.serde_json.specs.View.{view};
ghost use Rattle.aws_json.specs.Members.{column, text_in};
ghost use Rattle.aws_json.specs.Request.{row, served_actions, name_in, action_named, action_place, action_at, has_kinds, maximum_given, named_queue, create_queue, set_queue_attributes, get_queue_url, list_queues, send_message, receive_message, delete_message, change_message_visibility, get_queue_attributes, batch, action_row, request_of, queue_of_body};

use crate::attribute_names::{asked_attribute_names, asked_names, asked_patterns};
use crate::batch::{EntryKind, GivenMessage};
use crate::entries::{
    batch_of, entries_have_kinds, given_handle, message_given, required_timeout, timeout_within,
};
use crate::members::{
    Kind, have_kinds, items_in, members_in, number_in, read_object, text_in, within,
};
use crate::named_queue::{known_name, named_queue, new_name, queue_given};
use crate::request::Request;
use crate::requested::{request_members, requested_attributes};
use crate::text::Text;
use message::{Fault, QueueName};
use queue_config::named_in;
use queue_core::{MOST_OFFERS, Maximum};
use serde_json::Value;
use std::alloc::Global;

/// The actions that are served.
#[derive(Clone, Copy, Debug, PartialEq, Eq)]
pub(crate) enum Action {
    CreateQueue,
    SetQueueAttributes,
    PurgeQueue,
    DeleteQueue,
    GetQueueUrl,
    ListQueues,
    ListDeadLetterSourceQueues,
    GetQueueAttributes,
    SendMessage,
    ReceiveMessage,
    DeleteMessage,
    ChangeMessageVisibility,
    /// The action on several messages, each an entry of this kind.
    Batch(EntryKind),
}

/// The actions that are served, by their names, each at the place at which it is counted. A name is
/// compared with these from the front, so those that are asked for most often come first.
const ACTIONS: &[(&str, Action)] = &[
    ("SendMessage", Action::SendMessage),
    ("ReceiveMessage", Action::ReceiveMessage),
    ("DeleteMessage", Action::DeleteMessage),
    ("SendMessageBatch", Action::Batch(EntryKind::Send)),
    ("DeleteMessageBatch", Action::Batch(EntryKind::Delete)),
    ("ChangeMessageVisibility", Action::ChangeMessageVisibility),
    (
        "ChangeMessageVisibilityBatch",
        Action::Batch(EntryKind::Change),
    ),
    ("GetQueueAttributes", Action::GetQueueAttributes),
    ("GetQueueUrl", Action::GetQueueUrl),
    ("CreateQueue", Action::CreateQueue),
    ("DeleteQueue", Action::DeleteQueue),
    ("ListQueues", Action::ListQueues),
    (
        "ListDeadLetterSourceQueues",
        Action::ListDeadLetterSourceQueues,
    ),
    ("SetQueueAttributes", Action::SetQueueAttributes),
    ("PurgeQueue", Action::PurgeQueue),
];

/// How many actions are served.
pub const ACTION_COUNT: usize = ACTIONS.len();

/// The queue that an action is about.
fn queue_of(body: &Value) -> Result<QueueName, Fault>
    ensures { result ≡ named_queue (text_in (codes "QueueUrl") (view body.now)) }
{
    named_queue(text_in(body, "QueueUrl"))
}

/// Reads a creation: the name first, then the attributes.
fn create_queue(alloc: Global, body: &Value) -> Result<Request, Fault>
    ensures { Meets result (create_queue (view body.now)) }
{
    let name = new_name(text_in(body, "QueueName"))?;
    let wish = requested_attributes(alloc, members_in(body, "Attributes"))?;
    Ok(Request::CreateQueue { name, wish })
}

/// Reads a change of settings: the queue first, then the attributes, which have to be there.
fn set_queue_attributes(alloc: Global, body: &Value) -> Result<Request, Fault>
    ensures { Meets result (set_queue_attributes (view body.now)) }
{
    let queue = queue_of(body)?;
    let members = members_in(body, "Attributes").ok_or(Fault::InvalidParameterValue)?;
    let wish = request_members(alloc, members)?;
    Ok(Request::SetQueueAttributes { queue, wish })
}

/// Reads a request for a queue's URL.
fn get_queue_url(body: &Value) -> Result<Request, Fault>
    ensures { result ≡ get_queue_url (view body.now) }
{
    let name = known_name(text_in(body, "QueueName"))?;
    Ok(Request::GetQueueUrl { name })
}

/// Reads a request for the URLs of queues.
fn list_queues(alloc: Global, body: &Value) -> Result<Request, Fault>
    ensures { Meets result (list_queues (view body.now)) }
{
    let text = text_in(body, "QueueNamePrefix").unwrap_or("");
    let prefix = Text::new(alloc, text)?;
    Ok(Request::ListQueues { prefix })
}

/// Reads a send: the queue first, then what is sent.
fn send_message(alloc: Global, body: &Value) -> Result<Request, Fault>
    ensures { Meets result (send_message (view body.now)) }
{
    let queue = queue_of(body)?;
    let GivenMessage { content, delay } = message_given(alloc, body)?;
    Ok(Request::SendMessage {
        queue,
        content,
        delay,
    })
}

/// How many messages a receive asks for: one where it does not say.
pub(crate) fn maximum_given(number: Option<Option<u64>>) -> Result<Maximum, Fault>
    ensures { result ≡ maximum_given number }
{
    let messages = within(1, u64::from(MOST_OFFERS), number)?.unwrap_or(1);
    match Maximum::new(messages as u8) {
        Some(maximum) => Ok(maximum),
        None => Err(Fault::InvalidParameterValue),
    }
}

/// Reads a receive: the queue first, then the numbers, then the names of attributes.
fn receive_message(alloc: Global, body: &Value) -> Result<Request, Fault>
    ensures { Meets result (receive_message (view body.now)) }
{
    let queue = queue_of(body)?;
    let maximum = maximum_given(number_in(body, "MaxNumberOfMessages"))?;
    let timeout = timeout_within(number_in(body, "VisibilityTimeout"))?;
    let wait = within(0, 20, number_in(body, "WaitTimeSeconds"))?;
    let names = asked_names(alloc, body)?;
    let attributes = asked_patterns(alloc, items_in(body, "MessageAttributeNames"))?;
    Ok(Request::ReceiveMessage {
        queue,
        maximum,
        timeout,
        wait,
        names,
        attributes,
    })
}

/// Reads a delete: the queue first, then the handle.
fn delete_message(body: &Value) -> Result<Request, Fault>
    ensures { result ≡ delete_message (view body.now) }
{
    let queue = queue_of(body)?;
    let handle = given_handle(text_in(body, "ReceiptHandle"))?;
    Ok(Request::DeleteMessage { queue, handle })
}

/// Reads a change of visibility: the queue first, then the handle, then the timeout.
fn change_message_visibility(body: &Value) -> Result<Request, Fault>
    ensures { result ≡ change_message_visibility (view body.now) }
{
    let queue = queue_of(body)?;
    let handle = given_handle(text_in(body, "ReceiptHandle"))?;
    let timeout = required_timeout(number_in(body, "VisibilityTimeout"))?;
    Ok(Request::ChangeMessageVisibility {
        queue,
        handle,
        timeout,
    })
}

/// Reads a request for attributes: the queue first, then the names.
fn get_queue_attributes(alloc: Global, body: &Value) -> Result<Request, Fault>
    ensures { Meets result (get_queue_attributes (view body.now)) }
{
    let queue = queue_of(body)?;
    let names = asked_attribute_names(alloc, items_in(body, "AttributeNames"))?;
    Ok(Request::GetQueueAttributes { queue, names })
}

/// Reads a batch of a kind: the queue first, then the entries.
fn batch(alloc: Global, kind: EntryKind, body: &Value) -> Result<Request, Fault>
    ensures { Meets result (batch kind (view body.now)) }
{
    let queue = queue_of(body)?;
    let items = items_in(body, "Entries").ok_or(Fault::InvalidParameterValue)?;
    let entries = batch_of(alloc, kind, items)?;
    Ok(Request::Batch { queue, entries })
}

/// Whether a row has the name.
fn has_name(row: &(&str, Action), name: &str) -> bool
    ensures { result ≡ bytes_eq name.now row.now.0.now }
{
    name == row.0
}

/// The place of the first row that has the name.
fn first_place(rows: &[(&str, Action)], name: &str) -> Option<usize>
    ensures { result ≡ position (λ row. bytes_eq name.now row.0.now) rows.now }
{
    rows.iter().position(|row| has_name(row, name))
}

/// The action of a name, where it is served.
pub(crate) fn action_named(name: &str) -> Option<Action>
    ensures { result ≡ action_named name.now }
{
    named_in(ACTIONS, name)
}

/// The place of an action in the table of those that are served, by its name; `None` where it is not served.
pub fn action_place(name: &str) -> Option<usize>
    ensures place { result ≡ action_place name.now }
    ensures range { IfSome result (λ place. place < length served_actions) }
    ensures named { IfSome result (λ place. action_at place ≡ Some name.now) }
    ensures served { is_some result ≡ is_some (action_row name.now) }
{
    first_place(ACTIONS, name)
}

/// The name in the row at a place.
fn name_in(rows: &[(&'static str, Action)], place: usize) -> Option<&'static str>
    ensures { option_map (λ name. name.now) result ≡ name_in (map (λ row. (row.0.now, row.1)) rows.now) place }
{
    match rows.get(place) {
        Some(row) => Some(row.0),
        None => None,
    }
}

/// The name of the action at a place of the table; `None` behind its last row.
pub fn action_at(place: usize) -> Option<&'static str>
    ensures { option_map (λ name. name.now) result ≡ action_at place }
{
    name_in(ACTIONS, place)
}

/// The members that an action knows, with their kinds; without the entries of a batch.
pub(crate) fn columns_of(action: Action) -> &'static [(&'static str, Kind)]
    ensures { map (λ c. column c.0.now c.1) result.now ≡ (row action).columns }
{
    match action {
        Action::CreateQueue => &[("QueueName", Kind::Text), ("Attributes", Kind::NamedTexts)],
        Action::SetQueueAttributes => {
            &[("QueueUrl", Kind::Text), ("Attributes", Kind::NamedTexts)]
        }
        Action::GetQueueUrl => &[("QueueName", Kind::Text)],
        Action::ListQueues => &[("QueueNamePrefix", Kind::Text)],
        Action::GetQueueAttributes => {
            &[("QueueUrl", Kind::Text), ("AttributeNames", Kind::Texts)]
        }
        Action::SendMessage => &[
            ("QueueUrl", Kind::Text),
            ("MessageBody", Kind::Text),
            ("DelaySeconds", Kind::Number),
            ("MessageAttributes", Kind::MessageAttributes),
        ],
        Action::ReceiveMessage => &[
            ("QueueUrl", Kind::Text),
            ("MaxNumberOfMessages", Kind::Number),
            ("VisibilityTimeout", Kind::Number),
            ("WaitTimeSeconds", Kind::Number),
            ("AttributeNames", Kind::Texts),
            ("MessageSystemAttributeNames", Kind::Texts),
            ("MessageAttributeNames", Kind::Texts),
        ],
        Action::DeleteMessage => &[("QueueUrl", Kind::Text), ("ReceiptHandle", Kind::Text)],
        Action::ChangeMessageVisibility => &[
            ("QueueUrl", Kind::Text),
            ("ReceiptHandle", Kind::Text),
            ("VisibilityTimeout", Kind::Number),
        ],
        _ => &[("QueueUrl", Kind::Text)],
    }
}

/// Whether the members that an action knows have their kinds, those of the entries of a batch among
/// them. A member that is not known is of any kind.
fn has_kinds(action: Action, body: &Value) -> bool
    ensures { result ≡ has_kinds (row action) (view body.now) }
{
    let entries_fit = match action {
        Action::Batch(kind) => entries_have_kinds(kind, body),
        _ => true,
    };
    entries_fit && have_kinds(body, columns_of(action))
}

/// The request that an action and the members of an object are, or the first fault of the members.
fn judge(alloc: Global, action: Action, body: &Value) -> Result<Request, Fault>
    ensures { Meets result ((row action).judge (view body.now)) }
{
    match action {
        Action::CreateQueue => create_queue(alloc, body),
        Action::SetQueueAttributes => set_queue_attributes(alloc, body),
        Action::PurgeQueue => Ok(Request::PurgeQueue {
            queue: queue_of(body)?,
        }),
        Action::DeleteQueue => Ok(Request::DeleteQueue {
            queue: queue_of(body)?,
        }),
        Action::GetQueueUrl => get_queue_url(body),
        Action::ListQueues => list_queues(alloc, body),
        Action::ListDeadLetterSourceQueues => Ok(Request::ListDeadLetterSourceQueues {
            queue: queue_of(body)?,
        }),
        Action::GetQueueAttributes => get_queue_attributes(alloc, body),
        Action::SendMessage => send_message(alloc, body),
        Action::ReceiveMessage => receive_message(alloc, body),
        Action::DeleteMessage => delete_message(body),
        Action::ChangeMessageVisibility => change_message_visibility(body),
        Action::Batch(kind) => batch(alloc, kind, body),
    }
}

/// The request that an action and a body are, or the first fault. An action that is not served is
/// `UnsupportedOperation`, whatever the body is; a member of another kind is a
/// `SerializationException` before all other faults of members.
pub fn parse(alloc: Global, action: &str, body: &[u8]) -> Result<Request, Fault>
    ensures request { Meets result (request_of action.now body.now) }
    ensures unserved { action_row action.now ≡ None → result ≡ Err Fault.UnsupportedOperation }
{
    let Some(action) = action_named(action) else {
        return Err(Fault::UnsupportedOperation);
    };
    let object = read_object(alloc, body)?;
    if has_kinds(action, &object) {
        judge(alloc, action, &object)
    } else {
        Err(Fault::SerializationException)
    }
}

/// The queue that a body names by its `QueueUrl`, for an action that is none of these: the body is
/// judged as that of an action with this one member, which is `None` where it is missing or null.
pub fn read_queue(alloc: Global, body: &[u8]) -> Result<Option<QueueName>, Fault>
    ensures { Meets result (queue_of_body body.now) }
{
    let body = read_object(alloc, body)?;
    if have_kinds(&body, &[("QueueUrl", Kind::Text)]) {
        queue_given(text_in(&body, "QueueUrl"))
    } else {
        Err(Fault::SerializationException)
    }
}
