//! A request whose body comes, or has come.

ghost use Rattle.std.specs.Prelude.{IsSome};

use crate::bodies::Part;
use bytes::Bytes;
use http::request::Parts;
use http_body_util::Limited;
use http_body_util::combinators::Collect;
use hyper::body::Incoming;

/// A request whose body comes.
#[derive(Drop)]
pub struct Arriving {
    pub head: Parts,
    pub body: Collect<Limited<Incoming>>,
    pub part: Part,
    // The body has not been handed over.
    pub ghost here: { ∥ IsSome body.collected ∥₁ },
}

/// A request whose body has come: what is told of it once it is answered.
#[derive(Drop)]
pub struct KeptRequest {
    pub head: Parts,
    pub body: Bytes,
    pub part: Part,
}
