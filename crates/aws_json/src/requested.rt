//! The attributes that a creation or a change of settings requests (Amazon SQS API Reference,
//! `CreateQueue`, `SetQueueAttributes`).

ghost use Rattle.std.specs.Prelude.{◌≡◌, option_map};
ghost use Rattle.message.specs.Fault.{Meets};
ghost use Rattle.queue_config.specs.Settings.{no_requested_attributes};
ghost use Rattle.serde_json.specs.View.{members_view};
ghost use Rattle.aws_json.specs.Request.{request_text, request_members, requested_attributes};

use message::Fault;
use queue_config::Wish;
use serde_json::{Map, Value};
use std::alloc::Global;

/// The requested attributes after one more member; one that is no text asks for nothing.
fn request_text(alloc: Global, wish: Wish, name: &str, text: Option<&str>) -> Result<Wish, Fault>
    ensures { Meets result (request_text wish name.now (option_map (λ s. s.now) text.entry)) }
{
    let mut wish = wish;
    if let Some(text) = text {
        wish.put(alloc, name, text)?;
    }
    Ok(wish)
}

/// The attributes that the members ask for, one after another.
pub(crate) fn request_members(alloc: Global, attributes: &Map<String, Value>) -> Result<Wish, Fault>
    ensures { Meets result
        (request_members no_requested_attributes (members_view attributes.now.entries)) }
{
    let mut wish = Wish::new();
    for (name, value) in attributes {
        wish = request_text(alloc, wish, name.as_str(), value.as_str())?;
    }
    Ok(wish)
}

/// The attributes that are asked for; none where there are no members.
pub(crate) fn requested_attributes(
    alloc: Global,
    attributes: Option<&Map<String, Value>>,
) -> Result<Wish, Fault>
    ensures { Meets result (requested_attributes
        (option_map (λ members. members_view members.now.entries) attributes.entry)) }
{
    match attributes {
        Some(attributes) => request_members(alloc, attributes),
        None => Ok(Wish::new()),
    }
}
