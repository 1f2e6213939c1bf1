//! What the port of the statistics answers.

ghost use Rattle.std.specs.Prelude.{◌≡◌, ◌≢◌, ◌⊎◌, true, false, string_bytes};
ghost use Rattle.statistics_api.specs.Text.{is_written, shown};
ghost use Rattle.statistics_api.specs.Answer.{out_of_memory};
ghost use Rattle.statistics_api.specs.Metrics.{served_text};
ghost use Rattle.statistics_api.specs.Response.{told_by, as_json, page, health, for_prometheus, metrics, if_get, if_read, is_constant, response_of};

use crate::metrics::metrics_text;
use crate::page::PAGE;
use crate::replies;
use crate::replies::{answer, method_not_allowed};
use crate::served::ServerFacts;
use crate::text::AnswerText;
use board::Sheet;
use std::alloc::Global;

/// What is answered: a status, a content type and a text.
#[derive(Debug, Drop)]
pub struct Response {
    pub status: u16,
    pub content_type: &'static str,
    pub text: AnswerText,
}

/// An answer, which is a JSON text.
fn as_json(answer: (u16, AnswerText)) -> Response
    ensures told { told_by result ≡ as_json (shown answer) }
    ensures constant { is_written result.text ≡ is_written answer.1 }
    ensures status { result.status ≡ answer.0 }
{
    let (status, text) = answer;
    let content_type = "application/json";
    Response {
        status,
        content_type,
        text,
    }
}

/// The page.
fn page() -> Response
    ensures told { told_by result ≡ page }
    ensures constant { is_written result.text ≡ false }
{
    let content_type = "text/html; charset=utf-8";
    Response {
        status: 200,
        content_type,
        text: AnswerText::Constant(PAGE),
    }
}

/// The page, where the method is `GET` or `HEAD`.
fn page_to(method: &str) -> Response
    ensures told { told_by result ≡ if_read method.now page }
    ensures constant { is_written result.text ≡ false }
{
    if method != "GET" && method != "HEAD" {
        return as_json(method_not_allowed());
    }
    page()
}

/// That the server is there.
fn health() -> Response
    ensures told { told_by result ≡ health }
    ensures constant { is_written result.text ≡ false }
{
    as_json((200, AnswerText::Constant(r#"{"status":"ok"}"#)))
}

/// The same, where the method is `GET` or `HEAD`.
fn health_to(method: &str) -> Response
    ensures told { told_by result ≡ if_read method.now health }
    ensures constant { is_written result.text ≡ false }
{
    if method != "GET" && method != "HEAD" {
        return as_json(method_not_allowed());
    }
    health()
}

/// A text for Prometheus.
fn for_prometheus(text: String) -> Response
    ensures told { told_by result ≡ for_prometheus (string_bytes text) }
    ensures status { result.status ≡ 200 }
{
    let content_type = "text/plain; version=0.0.4; charset=utf-8";
    Response {
        status: 200,
        content_type,
        text: AnswerText::Written(text),
    }
}

/// Lack of memory, which is told without any.
pub fn out_of_memory() -> Response
    ensures told { told_by result ≡ as_json out_of_memory }
    ensures constant { is_written result.text ≡ false }
{
    as_json(replies::out_of_memory())
}

/// The metrics, or lack of memory.
fn metrics(alloc: Global, sheets: &[Sheet], served: &ServerFacts) -> Response
    ensures told { (told_by result ≡ metrics sheets.now (served_text served.now)) ⊎ (told_by result ≡ as_json out_of_memory) }
    ensures constant { (result.status ≡ 200) ⊎ (is_written result.text ≡ false) }
{
    match metrics_text(alloc, sheets, served) {
        Ok(text) => for_prometheus(text),
        Err(_) => out_of_memory(),
    }
}

/// The metrics, where the method is `GET`, or lack of memory.
fn metrics_to(alloc: Global, method: &str, sheets: &[Sheet], served: &ServerFacts) -> Response
    ensures told { (told_by result ≡ if_get method.now (metrics sheets.now (served_text served.now))) ⊎ (told_by result ≡ as_json out_of_memory) }
    ensures exact { (if_get method.now (metrics sheets.now (served_text served.now))).0 ≢ 200 → told_by result ≡ if_get method.now (metrics sheets.now (served_text served.now)) }
    ensures constant { (result.status ≡ 200) ⊎ (is_written result.text ≡ false) }
{
    if method != "GET" {
        return as_json(method_not_allowed());
    }
    metrics(alloc, sheets, served)
}

/// What the port of the statistics answers (this project's own): to `GET` or `HEAD` at `/` the page, and at `/health`
/// that the server is there, which take no memory; to `GET /metrics` the numbers of all queues and of the server for
/// Prometheus; to every other path what [`answer`] says. Another method on these three paths is 405. 500 may stand in
/// the place of a 200 for lack of memory, but not of a constant's, and of no other answer. HTTP leaves out the text of
/// an answer to `HEAD`.
pub fn respond(
    alloc: Global,
    method: &str,
    path: &str,
    sheets: &[Sheet],
    served: &ServerFacts,
) -> Response
    ensures response { (told_by result ≡ response_of method.now path.now sheets.now (served_text served.now)) ⊎ (told_by result ≡ as_json out_of_memory) }
    ensures constant { is_constant path.now ≡ true → told_by result ≡ response_of method.now path.now sheets.now (served_text served.now) }
    ensures exact { (response_of method.now path.now sheets.now (served_text served.now)).0 ≢ 200 → told_by result ≡ response_of method.now path.now sheets.now (served_text served.now) }
    ensures written { is_written result.text ≡ true → (result.status ≡ 200) × (is_constant path.now ≡ false) }
{
    match path {
        "/" => page_to(method),
        "/health" => health_to(method),
        "/metrics" => metrics_to(alloc, method, sheets, served),
        _ => as_json(answer(alloc, method, path, sheets)),
    }
}
