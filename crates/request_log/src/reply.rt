//! What a request was answered.

ghost use Rattle.std.specs.Prelude.{◌≡◌};
ghost use Rattle.request_log.specs.Refusals.{is_refusal};

use crate::refusal::has_failed;

/// What a request was answered: a status and the bytes of a body.
#[derive(Clone, Copy, Debug)]
pub struct Reply<'a> {
    pub status: u16,
    pub body: &'a [u8],
}

impl Reply<'_> {
    /// Whether it is a refusal, or tells of an entry of a batch that was refused.
    pub fn is_refusal(&self) -> bool
        ensures { result ≡ is_refusal self.now.status self.now.body.now }
    {
        self.status != 200 || has_failed(self)
    }
}
