//! What a client reads of a refusal (AWS JSON 1.0 for the form). Its status, name and text are those
//! of the table of refusals in the crate `message`.

ghost use Rattle.std.specs.Prelude.{◌≡◌};
ghost use Rattle.serde_json.specs.Written.{compact_text};
ghost use Rattle.aws_json.specs.FaultText.{fault_name, fault_message, fault_body, fault_data, fault_status};

use message::Fault;

/// The status of a refusal: 400 for a fault of the client's, 500 for one of the server's.
pub fn status(fault: Fault) -> u16
    ensures { result ≡ fault_status fault }
{
    fault.status()
}

/// The JSON text of a refusal.
#[tactic(auto, unfolding(serde_json::proofs::OnLiterals::serde_json_on_literals))]
pub fn fault_text(fault: Fault) -> &'static str
    ensures text { result.now ≡ fault_body fault }
    ensures json { result.now ≡ compact_text (fault_data fault) }
{
    match fault {
        Fault::QueueDoesNotExist => {
            r#"{"__type":"com.amazonaws.sqs#QueueDoesNotExist","message":"The specified queue does not exist."}"#
        }
        Fault::QueueNameExists => {
            r#"{"__type":"com.amazonaws.sqs#QueueNameExists","message":"A queue of this name exists with other attributes."}"#
        }
        Fault::InvalidAttributeName => {
            r#"{"__type":"com.amazonaws.sqs#InvalidAttributeName","message":"Unknown attribute name."}"#
        }
        Fault::InvalidAttributeValue => {
            r#"{"__type":"com.amazonaws.sqs#InvalidAttributeValue","message":"Attribute value not allowed."}"#
        }
        Fault::InvalidParameterValue => {
            r#"{"__type":"com.amazonaws.sqs#InvalidParameterValue","message":"Parameter value not allowed."}"#
        }
        Fault::InvalidMessageContents => {
            r#"{"__type":"com.amazonaws.sqs#InvalidMessageContents","message":"Characters not allowed in the message."}"#
        }
        Fault::ReceiptHandleIsInvalid => {
            r#"{"__type":"com.amazonaws.sqs#ReceiptHandleIsInvalid","message":"The receipt handle is not valid."}"#
        }
        Fault::MessageNotInflight => {
            r#"{"__type":"com.amazonaws.sqs#MessageNotInflight","message":"The message is not in flight."}"#
        }
        Fault::OverLimit => {
            r#"{"__type":"com.amazonaws.sqs#OverLimit","message":"A limit is reached."}"#
        }
        Fault::EmptyBatchRequest => {
            r#"{"__type":"com.amazonaws.sqs#EmptyBatchRequest","message":"The batch has no entries."}"#
        }
        Fault::TooManyEntriesInBatchRequest => {
            r#"{"__type":"com.amazonaws.sqs#TooManyEntriesInBatchRequest","message":"The batch has more than 10 entries."}"#
        }
        Fault::BatchEntryIdsNotDistinct => {
            r#"{"__type":"com.amazonaws.sqs#BatchEntryIdsNotDistinct","message":"Two entries have the same id."}"#
        }
        Fault::InvalidBatchEntryId => {
            r#"{"__type":"com.amazonaws.sqs#InvalidBatchEntryId","message":"An entry id is not allowed."}"#
        }
        Fault::BatchRequestTooLong => {
            r#"{"__type":"com.amazonaws.sqs#BatchRequestTooLong","message":"The batch is too long."}"#
        }
        Fault::UnsupportedOperation => {
            r#"{"__type":"com.amazonaws.sqs#UnsupportedOperation","message":"The action is not supported."}"#
        }
        Fault::SerializationException => {
            r#"{"__type":"com.amazonaws.sqs#SerializationException","message":"The request cannot be read."}"#
        }
        Fault::JournalFull => {
            r#"{"__type":"com.amazonaws.sqs#JournalFull","message":"The journal of the queue is full."}"#
        }
        Fault::OutOfMemory => {
            r#"{"__type":"com.amazonaws.sqs#OutOfMemory","message":"Out of memory."}"#
        }
        Fault::Spent => { r#"{"__type":"com.amazonaws.sqs#Spent","message":"The desk is spent."}"# }
        Fault::ActorGone => {
            r#"{"__type":"com.amazonaws.sqs#ActorGone","message":"The queue has stopped."}"#
        }
    }
}

/// The name of a refusal, as a client reads it.
pub(crate) fn fault_name(fault: Fault) -> &'static str
    ensures { result.now ≡ fault_name fault }
{
    fault.name()
}

/// What a refusal says in words.
pub(crate) fn fault_message(fault: Fault) -> &'static str
    ensures { result.now ≡ fault_message fault }
{
    fault.text()
}
