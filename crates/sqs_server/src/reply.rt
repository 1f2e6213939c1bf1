//! What a client is sent: status, content type and bytes of each reply.

ghost use Rattle.std.specs.Prelude.{◌≡◌, ◌⊎◌, [], IfErr, Ok};
ghost use Rattle.aws_json.specs.Reply.{reply_data};
ghost use Rattle.http.specs.Response.{body_of, head_of};
ghost use Rattle.http.specs.StatusCode.{IsStatusCode};
ghost use Rattle.message.specs.Fault.{Meets};
ghost use Rattle.message.specs.declared.fault.Fault.TheVariants.{OutOfMemory};
ghost use Rattle.serde_json.specs.Written.{compact_text};
ghost use Rattle.sqs_server.specs.Sent.{HoldsBody, busy, crowded, denied, refused, reply_headers, sent_for};

use crate::head::Denial;
use aws_json::{ReplyShape, fault_text, reply_text, status};
use bytes::Bytes;
use http::header::{CONTENT_TYPE, HeaderValue};
use http::{Response, StatusCode};
use http_body_util::Full;
use message::Fault;
use std::alloc::Global;

/// The content type of every reply (AWS JSON 1.0).
const CONTENT: &str = "application/x-amz-json-1.0";

/// A status and the bytes of a body.
#[derive(Debug, Drop)]
pub struct Sent {
    pub status: u16,
    pub body: Bytes,
}

/// What is sent where a request is not looked at.
pub(crate) fn denied(denial: Denial) -> Sent
    ensures { result ≡ denied denial }
{
    let (status, text) = match denial {
        Denial::FromPage => (
            403,
            r#"{"message":"requests of web pages are not answered"}"#,
        ),
        Denial::MethodNotAllowed => (405, r#"{"message":"method not allowed"}"#),
        Denial::BodyTooLarge => (413, r#"{"message":"body too large"}"#),
    };
    Sent {
        status,
        body: Bytes::from_static(text.as_bytes()),
    }
}

/// What is sent where too much mail waits for a queue. Its status is one at which clients try again.
pub(crate) fn busy() -> Sent
    ensures { result ≡ busy }
{
    let text =
        r#"{"__type":"com.amazonaws.sqs#ServiceUnavailable","message":"Too many requests wait for the queue."}"#;
    Sent {
        status: 500,
        body: Bytes::from_static(text.as_bytes()),
    }
}

/// What is sent where the bodies that are on their way hold too much together. Clients try again at this status too.
pub(crate) fn crowded() -> Sent
    ensures { result ≡ crowded }
{
    let text =
        r#"{"__type":"com.amazonaws.sqs#ServiceUnavailable","message":"Too much of other requests is on its way."}"#;
    Sent {
        status: 503,
        body: Bytes::from_static(text.as_bytes()),
    }
}

/// What is sent for a refusal, which takes no memory.
pub(crate) fn refused(fault: Fault) -> Sent
    ensures { result ≡ refused fault }
{
    Sent {
        status: status(fault),
        body: Bytes::from_static(fault_text(fault).as_bytes()),
    }
}

/// The bytes of a reply.
fn reply_bytes(alloc: Global, port: u16, shape: &ReplyShape) -> Result<Bytes, Fault>
    ensures { Meets result (Ok (compact_text (reply_data port shape.now))) }
{
    let text = reply_text(alloc, port, shape)?;
    Ok(Bytes::from_string(text)?)
}

/// What is sent for an answer where requests come to a port. One that there is no memory for is sent as that refusal.
pub(crate) fn sent_for(alloc: Global, port: u16, answer: &Result<ReplyShape, Fault>) -> Sent
    ensures reply { (result ≡ sent_for port answer.now) ⊎ (result ≡ refused OutOfMemory) }
    ensures refusal { IfErr answer.now (λ fault. result ≡ refused fault) }
{
    match answer {
        Ok(shape) => match reply_bytes(alloc, port, shape) {
            Ok(body) => Sent { status: 200, body },
            Err(fault) => refused(fault),
        },
        Err(fault) => refused(*fault),
    }
}

/// The response that sends it. Where there is no memory for its content type it goes without.
pub(crate) fn response_of(alloc: Global, sent: Sent) -> Response<Full<Bytes>>
    ensures status { IsStatusCode sent.status → (head_of result).status ≡ sent.status }
    ensures body { HoldsBody (body_of result) sent.body }
    ensures headers { ((head_of result).headers ≡ reply_headers) ⊎ ((head_of result).headers ≡ []) }
{
    let mut response = Response::new(alloc, Full::new(sent.body));
    if let Ok(status) = StatusCode::from_u16(sent.status) {
        *response.status_mut() = status;
    }
    let kind = HeaderValue::from_static(CONTENT);
    let _ = response.headers_mut().insert(CONTENT_TYPE, kind);
    response
}
