//! What a request over HTTP asks: the order in which its method, its size, its target and its body are
//! judged.

ghost use Rattle.std.specs.Prelude.{◌≡◌, option_map, Err, IfErr};
ghost use Rattle.message.specs.Fault.{Meets};
ghost use Rattle.aws_json.specs.Steps.{result_map};
ghost use Rattle.sqs_server.specs.Head.{denial_of, is_host, is_foreign, action_text, action_of, asked_of};
ghost use Rattle.sqs_server.specs.Stages as stages;

use aws_json::{Request, parse};
use http::request::Parts;
use message::Fault;
use std::alloc::Global;
use std::str;

/// The most bytes that the body of a request may have.
pub const BODY_LIMIT: u64 = 8_388_608;

/// What the target of a request begins with, before the action (AWS JSON 1.0).
const TARGET_PREFIX: &[u8] = b"AmazonSQS.";

/// Why a request is not looked at.
#[derive(Clone, Copy, Debug, PartialEq, Eq)]
pub enum Denial {
    /// It tells an origin, as a browser does for a web page: no client of a queue does.
    FromPage,
    /// Its method is not `POST`.
    MethodNotAllowed,
    /// Its body is longer than [`BODY_LIMIT`].
    BodyTooLarge,
}

/// Why a request is not looked at, by whether it tells an origin, its method, and the least size that its body can have.
pub(crate) fn denial_of(has_origin: bool, method: &str, size: u64) -> Option<Denial>
    ensures { result ≡ denial_of has_origin method.now size }
{
    if has_origin {
        Some(Denial::FromPage)
    } else if method != "POST" {
        Some(Denial::MethodNotAllowed)
    } else if size > BODY_LIMIT {
        Some(Denial::BodyTooLarge)
    } else {
        None
    }
}

/// Whether a host that a client names is this one of the machine's names, with any port.
fn is_host(name: &[u8], host: &[u8]) -> bool
    ensures { result ≡ is_host name.now host.now }
{
    match host.strip_prefix(name) {
        Some(rest) => rest.is_empty() || rest.starts_with(b":"),
        None => false,
    }
}

/// Whether a client names another host than this machine by its loopback names: so does a web page of a name that was
/// made to lead here.
pub(crate) fn is_foreign(host: Option<&[u8]>) -> bool
    ensures { result ≡ is_foreign (option_map (λ s. s.now) host.entry) }
{
    match host {
        Some(host) => {
            !(is_host(b"localhost", host) || is_host(b"127.0.0.1", host) || is_host(b"[::1]", host))
        }
        None => false,
    }
}

/// The text that bytes are. Others are `UnsupportedOperation`.
#[tactic(auto, using(queue_config::proofs::Utf8Lemmas::tested_text, queue_config::proofs::Utf8Lemmas::tested_no_text))]
fn action_text(action: &[u8]) -> Result<&str, Fault>
    ensures { result_map (λ s. s.now) result ≡ action_text action.now }
{
    match str::from_utf8(action) {
        Ok(action) => Ok(action),
        Err(_) => Err(Fault::UnsupportedOperation),
    }
}

/// The action that a target names. One that is missing, is no text or begins otherwise is
/// `UnsupportedOperation`.
fn action_of(target: Option<&[u8]>) -> Result<&str, Fault>
    ensures { result_map (λ s. s.now) result ≡ action_of (option_map (λ s. s.now) target.entry) }
{
    match target {
        Some(target) => match target.strip_prefix(TARGET_PREFIX) {
            Some(action) => action_text(action),
            None => Err(Fault::UnsupportedOperation),
        },
        None => Err(Fault::UnsupportedOperation),
    }
}

/// The value of the header that names the action.
pub(crate) fn target_of(head: &Parts) -> Option<&[u8]>
    ensures { option_map (λ s. s.now) result ≡ stages.target_in head.now }
{
    match head.headers.get("x-amz-target") {
        Some(value) => Some(value.as_bytes()),
        None => None,
    }
}

/// The action that a head names, and no text where it names none.
pub(crate) fn action_in(head: &Parts) -> &str {
    action_of(target_of(head)).unwrap_or("")
}

/// The request that a target and a body are, or the first fault. The target is judged before the body.
pub(crate) fn asked_of(alloc: Global, target: Option<&[u8]>, body: &[u8]) -> Result<Request, Fault>
    ensures asked { Meets result (asked_of (option_map (λ s. s.now) target.entry) body.now) }
    ensures target { IfErr (action_of (option_map (λ s. s.now) target.entry)) (λ fault. result ≡ Err fault) }
{
    parse(alloc, action_of(target)?, body)
}
