//! Bodies as JSON objects.

ghost use Rattle.std.specs.Prelude.{◌≡◌, IfErr, IfOk, option_map};
ghost use Rattle.message.specs.declared.fault.Fault.TheVariants.{OutOfMemory};
ghost use Rattle.serde_json.specs.View.{view};
ghost use Rattle.request_log.specs.Line.{object_in};

use aws_json::read_object;
use message::Fault;
use serde_json::Value;
use std::alloc::Global;

/// The JSON object that a body is, where it is one. `OutOfMemory` is the only refusal.
pub(crate) fn object_in(alloc: Global, body: &[u8]) -> Result<Option<Value>, Fault>
    ensures object { IfOk result (λ object. option_map (λ v. view v) object ≡ object_in body.now) }
    ensures short { IfErr result (λ fault. fault ≡ OutOfMemory) }
{
    match read_object(alloc, body) {
        Ok(body) => Ok(Some(body)),
        Err(Fault::SerializationException) => Ok(None),
        Err(_) => Err(Fault::OutOfMemory),
    }
}
