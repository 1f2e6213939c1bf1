//! What a message holds.

ghost use Rattle.std.specs.Prelude.{◌≡◌, ◌+◌, IsTrue, Ok, Err, IfOk, IfErr, length, string_bytes, sum_by};
ghost use Rattle.message.specs.declared.fault.Fault.TheVariants.{OutOfMemory};
ghost use Rattle.message.specs.Fault.{Meets};
ghost use Rattle.message.specs.Attribute.{attribute_size};
ghost use Rattle.message.specs.Content.{body_fault, content_of, content_size, is_content};

use crate::attribute::Attribute;
use crate::attributes;
use crate::characters::is_message_text;
use crate::fault::Fault;
use std::alloc::Global;
use std::marker::Model;
use std::sync::Arc;

/// A body and its attributes, kept once however many messages and offers share them.
#[derive(Debug, Drop)]
struct Parts {
    body: String,
    attributes: Vec<Attribute>,
    size: u64,
}

impl Parts {
    /// The parts with their size. A size that cannot be counted is that of no memory: it is refused
    /// as `OutOfMemory`.
    fn of(body: String, attributes: Vec<Attribute>) -> Result<Parts, Fault>
        ensures ok { IfOk result (λ parts. parts ≡ record { body = body; attributes = attributes; size = length (string_bytes body) + sum_by attribute_size attributes.items }) }
        ensures errors { IfErr result (λ fault. fault ≡ OutOfMemory) }
    {
        match attributes::size(body.as_str(), attributes.as_slice()) {
            Some(size) => Ok(Parts {
                body,
                attributes,
                size,
            }),
            None => Err(Fault::OutOfMemory),
        }
    }
}

/// What a message holds: a body of one or more characters, all of them allowed, and at most ten
/// attributes, ascending by name. Contracts see the body's UTF-8 bytes and the list of attributes.
#[derive(Debug, Drop)]
pub struct Content {
    parts: Arc<Parts>,
}

impl Model for Content {
    ghost use Rattle.message.specs.Content.{ContentText};
    ghost use Rattle.message.specs.StoredContent.{text_of};
    ghost use Rattle.message.specs.private.StoredContent.{IsStoredContent};

    ghost Value = { ContentText };

    ghost view = { λ c. text_of c.parts.value };

    ghost invariant = { λ c. IsStoredContent c.parts.value };
}

/// What is wrong with a body: an empty one is `InvalidParameterValue`, one with a character that
/// messages may not have is `InvalidMessageContents`.
pub fn body_fault(body: &str) -> Option<Fault>
    ensures { result ≡ body_fault body.now }
{
    if body.is_empty() {
        return Some(Fault::InvalidParameterValue);
    }
    if !is_message_text(body) {
        return Some(Fault::InvalidMessageContents);
    }
    None
}

impl Content {
    /// The content with this body and these attributes, which may come in any order, or the first
    /// fault. The body is judged as [`body_fault`] judges it. Then more than ten attributes, or two
    /// of one name, are `InvalidParameterValue`. Then the attributes are judged in byte order of
    /// their names, each its name, its type and its value: a value with a character that messages
    /// may not have is `InvalidMessageContents`, every other fault `InvalidParameterValue`.
    /// `OutOfMemory` may come in the place of a content, and of no fault.
    pub fn new(alloc: Global, body: String, attributes: Vec<Attribute>) -> Result<Content, Fault>
        ensures content { Meets result (content_of (string_bytes body) attributes.items) }
        ensures refused { IfErr (content_of (string_bytes body) attributes.items) (λ fault. result ≡ Err fault) }
    {
        if let Some(fault) = body_fault(body.as_str()) {
            return Err(fault);
        }
        let attributes = attributes::judged(attributes)?;
        let parts = Parts::of(body, attributes)?;
        let parts = Arc::new(alloc, parts)?;
        Ok(Content { parts })
    }

    /// The body's text.
    pub fn body(&self) -> &str
        ensures body { result.now ≡ self.now.body }
        ensures allowed { IsTrue (is_content self.now) }
    {
        self.parts.body.as_str()
    }

    /// The attributes, ascending by name.
    pub fn attributes(&self) -> &[Attribute]
        ensures attributes { result.now ≡ self.now.attributes }
        ensures allowed { IsTrue (is_content self.now) }
    {
        self.parts.attributes.as_slice()
    }

    /// How many bytes the content has: those of the body's UTF-8 and, for each attribute, those of
    /// its name, its type text and its value.
    pub fn size(&self) -> u64
        ensures size { result ≡ content_size self.now }
        ensures allowed { IsTrue (is_content self.now) }
    {
        self.parts.size
    }

    /// The same content once more, without a copy of its texts. `OutOfMemory` where no more
    /// shares can be counted.
    pub fn share(&self) -> Result<Content, Fault>
        ensures { Meets result (Ok self.now) }
    {
        let parts = Arc::try_clone(&self.parts)?;
        Ok(Content { parts })
    }
}
