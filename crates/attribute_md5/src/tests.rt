//! Digests from outside, and what a refused allocation gives.

use super::{attributes_md5, body_md5, list_md5, preimage};
use message::{Attribute, AttributeValue, Content, Fault};
use std::alloc::Global;
use std::test::Fail;

/// The attributes that a text tells, with a `;` between them: of each its name, its type text and its
/// value, with a `|` before each of the two. A value that ends in `|raw` is raw.
fn attributes_from(alloc: Global, told: &str) -> Result<Vec<Attribute>, Fault> {
    let mut attributes = Vec::new(alloc);
    for one in told.split(';').filter(|one| !one.is_empty()) {
        let (name, rest) = one.split_once('|').unwrap_or((one, ""));
        let (kind, given) = rest.split_once('|').unwrap_or((rest, ""));
        let value = match given.strip_suffix("|raw") {
            Some(bytes) => AttributeValue::Binary(Vec::from_slice(alloc, bytes.as_bytes())?),
            None => AttributeValue::Text(String::from_str(alloc, given)?),
        };
        attributes.push(Attribute {
            name: String::from_str(alloc, name)?,
            kind: String::from_str(alloc, kind)?,
            value,
        })?;
    }
    Ok(attributes)
}

/// What is told of a text: the digest of a body; that of a list of attributes in their order; or that of
/// the attributes of a content, and the bytes that it is of.
fn told(alloc: Global, verb: &str, text: &str) -> Result<String, Fault> {
    if verb == "body" {
        return body_md5(alloc, text);
    }
    let attributes = attributes_from(alloc, text)?;
    if verb == "list" {
        let digest = list_md5(alloc, attributes.as_slice())?;
        return Ok(format!(in alloc; "{digest:?}")?);
    }
    let content = Content::new(alloc, String::from_str(alloc, "hello")?, attributes)?;
    let (digest, bytes) = (attributes_md5(alloc, &content)?, preimage(alloc, &content)?);
    Ok(format!(in alloc; "{digest:?} {:?}", bytes.as_slice())?)
}

/// What is told of each text, behind an arrow.
const LINES: &str = "\
// The test suite of RFC 1321, and a body that is not ASCII as the md5sum of GNU coreutils digests its
// UTF-8 bytes C3 A9.
body  => d41d8cd98f00b204e9800998ecf8427e
body a => 0cc175b9c0f1b6a831c399e269772661
body abc => 900150983cd24fb0d6963f7d28e17f72
body message digest => f96b697d7cb7938d525a2f31aaf161d0
body abcdefghijklmnopqrstuvwxyz => c3fcd3d76192e4007dfb496cca67e13b
body ABCDEFGHIJKLMNOPQRSTUVWXYZabcdefghijklmnopqrstuvwxyz0123456789 => d174ab98d277d9f5a5611c2c9f419d9f
body 12345678901234567890123456789012345678901234567890123456789012345678901234567890 => 57edf4a22be3c955ac49da2e2107b67a
body é => 66ddcd97cfdeabb2f6fb8a999b4bc76f
// The digests that Python's hashlib gives of the bytes that the published method states, which its struct
// wrote: a string, a number, raw bytes, type texts with a label, two attributes and ten; then a value of
// 400 bytes, so that two bytes of its length are not 0.
list city|String|Oslo => Some(\"cbcd83b13b0b49717b14e6ca985fc6b7\")
list count|Number|42 => Some(\"2ee5fa915753ff72599b2514463a2897\")
list a|Binary|\0|raw => Some(\"571c39fbc54bae37495f6de54f270af5\")
list price|Number.price|9.75 => Some(\"48a9b3709c60c40cdbce67620d9273f3\")
list name|String.é|é => Some(\"d0a2b77a48436aeb83e1bdcf2245b00d\")
list a|Binary|\0|raw;b|String|x => Some(\"2cc23ebbcef47291d79349d5c0a33a94\")
list name0|Number|0;name1|Number|1;name2|Number|2;name3|Number|3;name4|Number|4;name5|Number|5;name6|Number|6;name7|Number|7;name8|Number|8;name9|Number|9 => Some(\"aeac0216f8911a0cd7657c496339c587\")
list text|String|éééééééééééééééééééééééééééééééééééééééééééééééééééééééééééééééééééééééééééééééééééééééééééééééééééééééééééééééééééééééééééééééééééééééééééééééééééééééééééééééééééééééééééééééééééééééééééééééééééééééé => Some(\"f2a1a10f70d06048aefc79accfd81563\")
// A content whose attributes are given in descending order, and none.
content b|String|x;a|Binary|\0|raw => Some(\"2cc23ebbcef47291d79349d5c0a33a94\") [0, 0, 0, 1, 97, 0, 0, 0, 6, 66, 105, 110, 97, 114, 121, 2, 0, 0, 0, 1, 0, 0, 0, 0, 1, 98, 0, 0, 0, 6, 83, 116, 114, 105, 110, 103, 1, 0, 0, 0, 1, 120]
list  => None
content  => None []
";

/// Each line is told as it says. A call whose allocation is refused answers `OutOfMemory`, and the same
/// call gives its value after it. The gate runs this with ample memory, where the first call answers;
/// `rt try --test --fail-alloc N -- refused_memory` refuses the Nth allocation.
#[test]
fn refused_memory(rt: HostRuntime) -> Result<(), Fail> {
    let alloc = rt.alloc();
    for line in LINES.lines().filter(|line| !line.starts_with("//")) {
        let (call, wanted) = line.split_once(" => ").ok_or("what is told of it")?;
        let (verb, text) = call.split_once(' ').ok_or("a text")?;
        let told = match told(alloc, verb, text) {
            Err(Fault::OutOfMemory) => told(alloc, verb, text)?,
            told => told?,
        };
        assert_eq!(rt; told.as_str(), wanted, "{call}");
    }
    Ok(())
}
