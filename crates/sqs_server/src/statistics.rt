//! The service of a connection to the port of the statistics: each request is answered from what was printed of the
//! queues, and no queue's turn is taken.

ghost use Rattle.std.specs.Prelude.{◌≡◌, ◌⊎◌, true, false, [], IfOk, IfErr, IsOk, IsOkAnd, IsSomeAnd, option_map};
ghost use Rattle.http.specs.Response.{body_of, head_of};
ghost use Rattle.http.specs.StatusCode.{IsStatusCode};
ghost use Rattle.message.specs.declared.fault.Fault.TheVariants.{OutOfMemory};
ghost use Rattle.statistics_api.specs.Asked.{TellsOfQueues};
ghost use Rattle.statistics_api.specs.Response.{told_by};
ghost use Rattle.statistics_api.specs.Text.{bytes_of, is_written};
ghost use Rattle.sqs_server.specs.Sent.{HoldsBody};
ghost use Rattle.sqs_server.specs.Viewed.{ArePrinted, IsAnswered, IsJudged, IsJudgedBySize, IsTold, Sends, body_too_large, foreign_host, host_in, no_memory, typed_headers};

use crate::head::{BODY_LIMIT, is_foreign};
use crate::queues::Queues;
use crate::register::Register;
use board::Sheet;
use bytes::Bytes;
use futures::future;
use futures::future::Ready;
use http::header::{CONTENT_TYPE, HeaderValue};
use http::request::Parts;
use http::{Response, StatusCode};
use http_body::Body;
use http_body_util::Full;
use hyper::Request;
use hyper::body::Incoming;
use hyper::service::Service;
use message::{Fault, QueueName};
use statistics_api::{AnswerText, AskedSheets, ServerFacts, asked_for, out_of_memory, respond};
use std::alloc::Global;
use std::sync::{Arc, Wait};

/// Answers the requests of one connection to the port of the statistics.
#[derive(Drop)]
pub struct StatisticsFront<R: Wait + Drop> {
    pub rt: R,
    pub alloc: Global,
    pub queues: Arc<Queues<R>>,
    pub register: Arc<Register>,
}

/// What a request is answered, before it is sent.
type Told = statistics_api::Response;

impl<R: Wait + Copy + Drop> StatisticsFront<R> {
    /// The same for another connection. `OutOfMemory` is the only refusal.
    pub fn again(&self) -> Result<StatisticsFront<R>, Fault>
        ensures { IfErr result (λ fault. fault ≡ OutOfMemory) }
    {
        Ok(StatisticsFront {
            rt: self.rt,
            alloc: self.alloc,
            queues: Arc::try_clone(&self.queues)?,
            register: Arc::try_clone(&self.register)?,
        })
    }
}

/// What is told where the body of a request is too long.
fn body_too_large() -> Told
    ensures told { told_by result ≡ body_too_large }
    ensures constant { is_written result.text ≡ false }
{
    Told {
        status: 413,
        content_type: "application/json",
        text: AnswerText::Constant(r#"{"message":"body too large"}"#),
    }
}

/// What is told where a client names another host than this machine.
fn foreign_host() -> Told
    ensures told { told_by result ≡ foreign_host }
    ensures constant { is_written result.text ≡ false }
{
    Told {
        status: 403,
        content_type: "application/json",
        text: AnswerText::Constant(r#"{"message":"this host is not served"}"#),
    }
}

/// The host that a head names.
fn host_of(head: &Parts) -> Option<&[u8]>
    ensures { option_map (λ s. s.now) result ≡ host_in head.now }
{
    match head.headers.get("host") {
        Some(value) => Some(value.as_bytes()),
        None => None,
    }
}

/// The bytes of a text. `OutOfMemory` is the only refusal, and a constant takes no memory.
fn bytes_of(text: AnswerText) -> Result<Bytes, Fault>
    ensures ok { IfOk result (λ bytes. bytes ≡ bytes_of text) }
    ensures constant { is_written text ≡ false → IsOk result }
    ensures errors { IfErr result (λ fault. fault ≡ OutOfMemory) }
{
    match text {
        AnswerText::Written(text) => Ok(Bytes::from_string(text)?),
        AnswerText::Constant(text) => Ok(Bytes::from_static(text.as_bytes())),
    }
}

/// The response of a status, a content type and bytes. Where there is no memory for its content type it goes
/// without.
fn response_with(
    alloc: Global,
    status: u16,
    content_type: &str,
    bytes: Bytes,
) -> Response<Full<Bytes>>
    ensures status { IsStatusCode status → (head_of result).status ≡ status }
    ensures body { HoldsBody (body_of result) bytes }
    ensures headers { ((head_of result).headers ≡ typed_headers content_type.now) ⊎ ((head_of result).headers ≡ []) }
{
    let mut response = Response::new(alloc, Full::new(bytes));
    if let Ok(status) = StatusCode::from_u16(status) {
        *response.status_mut() = status;
    }
    if let Ok(kind) = HeaderValue::from_str(alloc, content_type) {
        let _ = response.headers_mut().insert(CONTENT_TYPE, kind);
    }
    response
}

/// The response for lack of memory.
fn response_without_memory(alloc: Global) -> Response<Full<Bytes>>
    ensures { Sends no_memory result }
{
    let bytes = Bytes::from_static(r#"{"message":"out of memory"}"#.as_bytes());
    response_with(alloc, 500, "application/json", bytes)
}

/// The response that sends what is told. A text that there is no memory to send is lack of memory.
fn response_of(alloc: Global, told: Told) -> Response<Full<Bytes>>
    ensures { Sends (told_by told) result ⊎ (Sends no_memory result × (is_written told.text ≡ true)) }
{
    match bytes_of(told.text) {
        Ok(bytes) => response_with(alloc, told.status, told.content_type, bytes),
        Err(_) => response_without_memory(alloc),
    }
}

impl<R: Wait + Drop> StatisticsFront<R> {
    /// The statistics of the queue of a name, where there is one. `OutOfMemory` is the only refusal.
    fn sheets_named(&self, name: &str) -> Result<Vec<Sheet>, Fault>
        ensures printed { IfOk result (λ sheets. ArePrinted sheets.items) }
        ensures errors { IfErr result (λ fault. fault ≡ OutOfMemory) }
    {
        let mut sheets = Vec::new(self.alloc);
        if let Ok(name) = QueueName::read(name) {
            if let Some(sheet) = self.queues.sheet(&self.rt, self.alloc, &name)? {
                sheets.push(sheet)?;
            }
        }
        Ok(sheets)
    }

    /// The statistics that the answer to a request takes. `OutOfMemory` is the only refusal, and only where an
    /// answer can tell of queues.
    fn sheets(&self, method: &str, path: &str) -> Result<Vec<Sheet>, Fault>
        ensures printed { IfOk result (λ sheets. ArePrinted sheets.items) }
        ensures errors { IfErr result (λ fault. (fault ≡ OutOfMemory) × TellsOfQueues method.now path.now) }
    {
        match asked_for(method, path) {
            AskedSheets::Nothing => Ok(Vec::new(self.alloc)),
            AskedSheets::Queues => self.queues.sheets(&self.rt, self.alloc),
            AskedSheets::Queue(name) => self.sheets_named(name),
        }
    }

    /// What the server tells of itself, where that is asked for. `OutOfMemory` is the only refusal, and only where an
    /// answer can tell of it.
    fn served(&self, method: &str, path: &str) -> Result<ServerFacts, Fault>
        ensures { IfErr result (λ fault. (fault ≡ OutOfMemory) × TellsOfQueues method.now path.now) }
    {
        match asked_for(method, path) {
            AskedSheets::Queues => self.register.served(self.alloc),
            _ => Ok(ServerFacts::nothing(self.alloc)),
        }
    }

    /// What a method and a path are answered. Only what tells of queues takes memory.
    fn told(&self, method: &str, path: &str) -> Told
        ensures told { IsTold method.now path.now (told_by result) }
        ensures written { is_written result.text ≡ true → TellsOfQueues method.now path.now }
    {
        let Ok(served) = self.served(method, path) else {
            return out_of_memory();
        };
        match self.sheets(method, path) {
            Ok(sheets) => respond(self.alloc, method, path, sheets.as_slice(), &served),
            Err(_) => out_of_memory(),
        }
    }

    /// The same, where the least size that a body can have is not too large for the one method whose bodies are
    /// looked at.
    fn judged_by_size(&self, method: &str, path: &str, size: u64) -> Told
        ensures told { IsJudgedBySize method.now path.now size (told_by result) }
        ensures written { is_written result.text ≡ true → IsJudgedBySize method.now path.now size no_memory }
    {
        if method == "GET" && size > BODY_LIMIT {
            return body_too_large();
        }
        self.told(method, path)
    }

    /// The same, where the client names this machine.
    fn judged(&self, host: Option<&[u8]>, method: &str, path: &str, size: u64) -> Told
        ensures told { IsJudged (option_map (λ s. s.now) host.entry) method.now path.now size (told_by result) }
        ensures written { is_written result.text ≡ true → IsJudged (option_map (λ s. s.now) host.entry) method.now path.now size no_memory }
    {
        if is_foreign(host) {
            return foreign_host();
        }
        self.judged_by_size(method, path, size)
    }

    /// The response to a request. Its body is not looked at.
    fn answer(&self, request: Request<Incoming>) -> Response<Full<Bytes>>
        ensures { IsAnswered request result }
    {
        let (head, body) = request.into_parts();
        let announced = body.size_hint().exact();
        let size = announced.unwrap_or(0);
        let host = host_of(&head);
        let told = self.judged(host, head.method.as_str(), head.uri.path(), size);
        response_of(self.alloc, told)
    }
}

impl<R: Wait + Drop> Service<Request<Incoming>> for StatisticsFront<R> {
    type Response = Response<Full<Bytes>>;

    type Error = hyper::Error;

    type Future = Ready<Result<Response<Full<Bytes>>, hyper::Error>>;

    ghost calls = { λ _ request ready. IsSomeAnd ready.0 (λ given. IsOkAnd given (IsAnswered request)) };

    fn call(
        &self,
        request: Request<Incoming>,
    ) -> Ready<Result<Response<Full<Bytes>>, hyper::Error>> {
        future::ok(self.answer(request))
    }
}
