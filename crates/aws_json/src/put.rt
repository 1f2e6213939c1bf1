//! Members of JSON objects, put in one after another.

ghost use Rattle.std.specs.Prelude.{◌≡◌, OnOk, IfErr, Option, option_map};
ghost use Rattle.message.specs.declared.fault.Fault.TheVariants.{OutOfMemory};
ghost use Rattle.serde_json.specs.Data.{string, put};
ghost use Rattle.serde_json.specs.View.{view, members_view};
ghost use Rattle.aws_json.specs.Reply.{put_given};

use message::Fault;
use serde_json::{Map, Value};
use std::alloc::Global;

/// Puts a value among the members.
pub(crate) fn put_value(
    alloc: Global,
    members: &mut Map<String, Value>,
    name: &str,
    value: Value,
) -> Result<(), Fault>
    ensures ok { OnOk result (members_view members.new.entries
        ≡ put name.now (view value) (members_view members.old.entries)) }
    ensures refusal { IfErr result (λ fault. fault ≡ OutOfMemory) }
{
    let name = String::from_str(alloc, name)?;
    members.insert(name, value)?;
    Ok(())
}

/// Puts a text among the members.
pub(crate) fn put_text(
    alloc: Global,
    members: &mut Map<String, Value>,
    name: &str,
    text: &str,
) -> Result<(), Fault>
    ensures ok { OnOk result (members_view members.new.entries
        ≡ put name.now (string text.now) (members_view members.old.entries)) }
    ensures refusal { IfErr result (λ fault. fault ≡ OutOfMemory) }
{
    let text = String::from_str(alloc, text)?;
    put_value(alloc, members, name, Value::from(text))
}

/// Puts a text among the members, where there is one.
pub(crate) fn put_given(
    alloc: Global,
    members: &mut Map<String, Value>,
    name: &str,
    text: Option<&str>,
) -> Result<(), Fault>
    ensures ok { OnOk result (members_view members.new.entries
        ≡ put_given name.now (option_map (λ s. s.now) text.entry) (members_view members.old.entries)) }
    ensures refusal { IfErr result (λ fault. fault ≡ OutOfMemory) }
{
    if let Some(text) = text {
        put_text(alloc, members, name, text)?;
    }
    Ok(())
}
