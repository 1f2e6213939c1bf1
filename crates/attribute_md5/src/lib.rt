//! The MD5 digests that clients check a message by (RFC 1321).
//!
//! - [`body_md5`]: the digest of a message's body, as `MD5OfMessageBody` and `MD5OfBody` show it.
//! - [`attributes_md5`]: the digest of a message's attributes, as `MD5OfMessageAttributes` shows it,
//!   and none without attributes. [`list_md5`] gives that of a list of attributes.
//! - [`preimage`]: the bytes that the digest of the attributes is taken of.
//!
//! Each contract is the definition of MD5 in the crate `md5`, over the stated bytes and written in
//! lower-case hex digits. The bytes of attributes are those of the Amazon SQS Developer Guide,
//! "Calculating the MD5 message digest for message attributes"; `specs/Digest.antt` writes them out.
#![tactic(auto)]

ghost use Rattle.std.specs.Prelude.{◌≡◌, [], IfOk, IfErr, option_map, string_bytes};
ghost use Rattle.attribute_md5.specs.Digest.{attributes_digest, body_digest, preimage_of};
ghost use Rattle.hex.specs.Hex.{encode_lower};
ghost use Rattle.md5.specs.Md5.{md5};
ghost use Rattle.message.specs.declared.fault.Fault.TheVariants.{OutOfMemory};

use md5::{Digest, Md5};
use message::{Attribute, Content, Fault};
use std::alloc::Global;

mod bytes;
#[cfg(test)]
mod tests;

/// The MD5 digest of the bytes, as 32 lower-case hex digits.
fn hex_md5(alloc: Global, bytes: &[u8]) -> Result<String, Fault>
    ensures digest { IfOk result (λ text. string_bytes text ≡ encode_lower (md5 bytes.now)) }
    ensures refusal { IfErr result (λ fault. fault ≡ OutOfMemory) }
{
    let digest = Md5::digest(bytes);
    Ok(hex::encode(alloc, digest.as_slice())?)
}

/// The MD5 digest of the body's UTF-8 bytes, as 32 lower-case hex digits. `OutOfMemory` is the only
/// refusal.
pub fn body_md5(alloc: Global, body: &str) -> Result<String, Fault>
    ensures digest { IfOk result (λ text. string_bytes text ≡ body_digest body.now) }
    ensures refusal { IfErr result (λ fault. fault ≡ OutOfMemory) }
{
    hex_md5(alloc, body.as_bytes())
}

/// The MD5 digest of these attributes, in the order in which they stand, as 32 lower-case hex
/// digits; none without attributes. `OutOfMemory` is the only refusal, and none comes without
/// attributes.
///
/// For a list whose names ascend, such as those of a [`Content`] that a receive selected.
pub fn list_md5(alloc: Global, attributes: &[Attribute]) -> Result<Option<String>, Fault>
    ensures digest { IfOk result (λ digest. option_map string_bytes digest ≡ attributes_digest attributes.now) }
    ensures none { attributes.now ≡ [] → result ≡ Ok None }
    ensures refusal { IfErr result (λ fault. fault ≡ OutOfMemory) }
{
    if attributes.is_empty() {
        return Ok(None);
    }
    let preimage = bytes::preimage_of(alloc, attributes)?;
    Ok(Some(hex_md5(alloc, preimage.as_slice())?))
}

/// The MD5 digest of the content's attributes, as 32 lower-case hex digits; none without
/// attributes. `OutOfMemory` is the only refusal, and none comes without attributes.
pub fn attributes_md5(alloc: Global, content: &Content) -> Result<Option<String>, Fault>
    ensures digest { IfOk result (λ digest. option_map string_bytes digest ≡ attributes_digest content.now.attributes) }
    ensures none { content.now.attributes ≡ [] → result ≡ Ok None }
    ensures refusal { IfErr result (λ fault. fault ≡ OutOfMemory) }
{
    list_md5(alloc, content.attributes())
}

/// The bytes that the digest of the content's attributes is taken of; none without attributes.
/// `OutOfMemory` is the only refusal.
pub fn preimage(alloc: Global, content: &Content) -> Result<Vec<u8>, Fault>
    ensures preimage { IfOk result (λ bytes. bytes.items ≡ preimage_of content.now.attributes) }
    ensures refusal { IfErr result (λ fault. fault ≡ OutOfMemory) }
{
    bytes::preimage_of(alloc, content.attributes())
}
