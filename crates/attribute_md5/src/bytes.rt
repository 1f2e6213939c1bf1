//! The bytes of attributes that their digest is taken of.

ghost use Rattle.std.specs.Prelude.{◌≡◌, ◌++◌, OnOk, IfOk, IfErr};
ghost use Rattle.attribute_md5.specs.Digest.{attribute_preimage, preimage_of, sized};
ghost use Rattle.message.specs.declared.fault.Fault.TheVariants.{OutOfMemory};

use message::{Attribute, AttributeValue, Fault};
use std::alloc::Global;

/// What stands before a value that is a text.
const TEXT: u8 = 1;
/// What stands before a value that is raw bytes.
const BINARY: u8 = 2;

/// Writes how many bytes follow, as the lowest four bytes of that number, the highest first, and
/// then the bytes.
fn push_sized(preimage: &mut Vec<u8>, bytes: &[u8]) -> Result<(), Fault>
    ensures pushed { OnOk result (preimage.new.items ≡ preimage.old.items ++ sized bytes.now) }
    ensures refusal { IfErr result (λ fault. fault ≡ OutOfMemory) }
{
    let length = bytes.len().to_be_bytes();
    preimage.extend_from_slice(&length[4..])?;
    preimage.extend_from_slice(bytes)?;
    Ok(())
}

/// Writes an attribute's name, its type text, which kind of value it has, and the value.
fn push_attribute_preimage(preimage: &mut Vec<u8>, attribute: &Attribute) -> Result<(), Fault>
    ensures pushed { OnOk result (preimage.new.items ≡ preimage.old.items ++ attribute_preimage attribute.now) }
    ensures refusal { IfErr result (λ fault. fault ≡ OutOfMemory) }
{
    push_sized(preimage, attribute.name.as_bytes())?;
    push_sized(preimage, attribute.kind.as_bytes())?;
    let (transport, value) = match &attribute.value {
        AttributeValue::Text(text) => (TEXT, text.as_bytes()),
        AttributeValue::Binary(bytes) => (BINARY, bytes.as_slice()),
    };
    preimage.push(transport)?;
    push_sized(preimage, value)
}

/// The bytes of all the attributes, in the order in which they stand.
pub fn preimage_of(alloc: Global, attributes: &[Attribute]) -> Result<Vec<u8>, Fault>
    ensures preimage { IfOk result (λ bytes. bytes.items ≡ preimage_of attributes.now) }
    ensures refusal { IfErr result (λ fault. fault ≡ OutOfMemory) }
{
    let mut preimage = Vec::new(alloc);
    for attribute in attributes {
        push_attribute_preimage(&mut preimage, attribute)?;
    }
    Ok(preimage)
}
