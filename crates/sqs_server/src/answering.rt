//! The service of a connection: each request gets a future of its response.

ghost use Rattle.std.specs.Prelude.{◌≡◌, ℕ, Ok, None, IfOk};
ghost use Rattle.sqs_server.specs.Responses as response;
ghost use Rattle.sqs_server.specs.Responses.{Begins, Comes, IsFirstStage, IsGiven, IsFirstOf, Responds, WayNeeds};

use crate::arriving::{Arriving, KeptRequest};
use crate::bodies::{Bodies, Part};
use crate::front::Front;
use crate::head::{BODY_LIMIT, denial_of};
use crate::reply::{Sent, crowded, denied, refused, response_of};
use crate::stage::{Halt, Stage};
use bytes::Bytes;
use futures::Future;
use futures::task::{Context, Poll};
use http::request::Parts;
use http_body::Body;
use http_body_util::{BodyExt, Full, Limited};
use hyper::body::Incoming;
use hyper::service::Service;
use hyper::{Request, Response};
use message::Fault;
use std::alloc::Global;
use std::mem;
use std::sync::{Arc, Wait};
use std::time::Clock;

/// How far a request is that is being answered.
#[derive(Drop)]
pub(crate) struct Progress<R: Wait + Drop> {
    front: Front<R>,
    stage: Stage<R>,
    /// What is kept of it, once its body has come.
    kept: Option<KeptRequest>,
}

/// How a response comes.
#[derive(Drop)]
pub(crate) enum Way<R: Wait + Drop> {
    /// Stage by stage. The request lies in a place of its own: it is large, and who polls a future moves it.
    Stages(Box<Progress<R>>),
    /// This was known at once.
    Known(Sent),
    /// It was given.
    Over,
}

/// The future of a response.
#[derive(Drop)]
pub struct Answering<R: Wait + Drop> {
    alloc: Global,
    way: Way<R>,
}

/// What is sent where there is no memory to begin. What is known by the head needs none.
fn without_memory<R: Wait + Drop>(stage: Stage<R>) -> Sent
    ensures { result ≡ response.without_memory stage }
{
    match stage {
        Stage::Sending(sent) => sent,
        _ => refused(Fault::OutOfMemory),
    }
}

/// How a response comes to a request that begins with a stage.
fn way_of<R: Wait + Drop>(
    alloc: Global,
    front: Result<Front<R>, Fault>,
    stage: Stage<R>,
    port: u16,
) -> Way<R>
    requires { IfOk front (λ front. front.port ≡ port) }
    ensures { Begins port stage result }
{
    let Ok(front) = front else {
        return Way::Known(without_memory(stage));
    };
    let progress = Progress {
        front,
        stage: Stage::Over,
        kept: None,
    };
    match Box::new(alloc, progress) {
        Ok(mut progress) => {
            progress.stage = stage;
            Way::Stages(progress)
        }
        Err(_refused) => Way::Known(without_memory(stage)),
    }
}

/// The response to a request that has ended so.
fn respond(
    alloc: Global,
    ended: Result<Sent, hyper::Error>,
) -> Result<Response<Full<Bytes>>, hyper::Error>
    ensures { Responds ended result }
{
    match ended {
        Ok(sent) => Ok(response_of(alloc, sent)),
        Err(error) => Err(error),
    }
}

/// The stage of a request whose body comes behind a head.
fn collecting<R: Wait + Drop>(alloc: Global, head: Parts, body: Incoming, part: Part) -> Stage<R>
    ensures { (size : ℕ) → part.size ≡ size → Comes head body size result }
{
    let body = Limited::new(body, BODY_LIMIT as usize).collect(alloc);
    Stage::Collecting(Arriving { head, body, part })
}

/// Whether a head tells an origin.
fn has_origin(head: &Parts) -> bool
    ensures { result ≡ response.has_origin head.now }
{
    match head.headers.get("origin") {
        Some(_) => true,
        None => false,
    }
}

/// The stage that a request begins with, by its head and by the size that is announced, where one is: without one no
/// body is too large yet.
fn judged<R: Wait + Drop>(
    alloc: Global,
    bodies: &Arc<Bodies>,
    head: Parts,
    body: Incoming,
    announced: Option<u64>,
) -> Stage<R>
    ensures { IsFirstOf head body announced result }
{
    let least = announced.unwrap_or(0);
    match denial_of(has_origin(&head), head.method.as_str(), least) {
        Some(denial) => Stage::Sending(denied(denial)),
        None => match Bodies::part(bodies, announced) {
            Some(part) => collecting(alloc, head, body, part),
            None => Stage::Sending(crowded()),
        },
    }
}

/// The stage that a request begins with.
fn first_stage<R: Wait + Drop>(
    alloc: Global,
    bodies: &Arc<Bodies>,
    request: Request<Incoming>,
) -> Stage<R>
    ensures { IsFirstStage request result }
{
    let (head, body) = request.into_parts();
    let hint = body.size_hint();
    let announced = hint.exact();
    judged(alloc, bodies, head, body, announced)
}

impl<R: Wait + Clock + Drop> Future for Answering<R> {
    type Output = Result<Response<Full<Bytes>>, hyper::Error>;

    ghost needs = { λ answering. WayNeeds answering.way };

    ghost gives = { λ answering given. IsGiven answering.way given };

    fn poll(&mut self, cx: &mut Context<'_>) -> Poll<Result<Response<Full<Bytes>>, hyper::Error>> {
        let mut request = match mem::replace(&mut self.way, Way::Over) {
            Way::Stages(request) => request,
            Way::Known(sent) => return Poll::Ready(respond(self.alloc, Ok(sent))),
            Way::Over => return Poll::Ready(respond(self.alloc, Ok(refused(Fault::OutOfMemory)))),
        };
        let progress = &mut *request;
        let stage = mem::replace(&mut progress.stage, Stage::Over);
        match progress.front.run(cx, stage, &mut progress.kept) {
            Halt::Waits(stage) => {
                progress.stage = stage;
                self.way = Way::Stages(request);
                Poll::Pending
            }
            Halt::Ends(ended) => {
                progress.front.note(progress.kept.as_ref(), &ended);
                Poll::Ready(respond(self.alloc, ended))
            }
        }
    }
}

impl<R: Wait + Clock + Copy + Drop> Service<Request<Incoming>> for Front<R> {
    type Response = Response<Full<Bytes>>;

    type Error = hyper::Error;

    type Future = Answering<R>;

    ghost calls = { λ front request answering. (stage : _) × IsFirstStage request stage × Begins front.port stage answering.way };

    fn call(&self, request: Request<Incoming>) -> Answering<R> {
        let stage = first_stage(self.alloc, &self.hall.bodies, request);
        Answering {
            alloc: self.alloc,
            way: way_of(self.alloc, self.again(), stage, self.port),
        }
    }
}
