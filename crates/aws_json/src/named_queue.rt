//! The queues that requests name. Which fault is which is this project's own choice.

ghost use Rattle.std.specs.Prelude.{◌≡◌, option_map};
ghost use Rattle.aws_json.specs.Request.{name_part, named_queue, queue_given, known_name, new_name};

use message::{Fault, QueueName};

/// The text after the last slash, or all of it where there is none.
pub fn name_part(url: &str) -> &str
    ensures { result.now ≡ name_part url.now }
{
    match url.rsplit_once('/') {
        Some((_, name)) => name,
        None => url,
    }
}

/// The queue that a `QueueUrl` names. It has to be there; a name that no queue can have is
/// `QueueDoesNotExist`.
pub(crate) fn named_queue(url: Option<&str>) -> Result<QueueName, Fault>
    ensures { result ≡ named_queue (option_map (λ s. s.now) url.entry) }
{
    let url = url.ok_or(Fault::InvalidParameterValue)?;
    known_name(Some(name_part(url)))
}

/// The queue that a `QueueUrl` names, where that is there.
pub(crate) fn queue_given(url: Option<&str>) -> Result<Option<QueueName>, Fault>
    ensures { result ≡ queue_given (option_map (λ s. s.now) url.entry) }
{
    match url {
        Some(url) => Ok(Some(named_queue(Some(url))?)),
        None => Ok(None),
    }
}

/// The name of a queue that is looked for. It has to be there; a name that no queue can have is
/// `QueueDoesNotExist`.
pub(crate) fn known_name(name: Option<&str>) -> Result<QueueName, Fault>
    ensures { result ≡ known_name (option_map (λ s. s.now) name.entry) }
{
    let name = name.ok_or(Fault::InvalidParameterValue)?;
    match QueueName::read(name) {
        Ok(name) => Ok(name),
        Err(_) => Err(Fault::QueueDoesNotExist),
    }
}

/// The name of a new queue. It has to be there.
pub(crate) fn new_name(name: Option<&str>) -> Result<QueueName, Fault>
    ensures { result ≡ new_name (option_map (λ s. s.now) name.entry) }
{
    let name = name.ok_or(Fault::InvalidParameterValue)?;
    QueueName::read(name)
}
