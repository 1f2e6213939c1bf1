//! The text of what a receive offers. Most receives ask for no attributes, so no tree is made for them.

ghost use Rattle.std.specs.Prelude.{◌≡◌, ◌++◌, ◌==◌, true, false, [], length, Ok, OnOk, IfErr, string_bytes};
ghost use Rattle.json.specs.Print.{print};
ghost use Rattle.message.specs.Fault.{Meets};
ghost use Rattle.message.specs.declared.fault.Fault.TheVariants.{OutOfMemory};
ghost use Rattle.serde_json.specs.Written.{compact_text};
ghost use Rattle.aws_json.specs.Steps.{result_map};
ghost use Rattle.aws_json.specs.Reply.{messages_data};
ghost use Rattle.aws_json.specs.private.Offered.{texts_tokens, offer_tokens, offers_tokens, plain_tokens};

use crate::message_reply::{handle_of_offer, messages_reply};
use crate::request::ReceiveNames;
use crate::selection::Patterns;
use attribute_md5::body_md5;
use json::Writer;
use message::Fault;
use queue_core::Offer;
use std::alloc::{AllocError, Global};

/// How many bytes are made room for at first: enough for an offer with a short body.
const ROOM: usize = 512;

/// Writes an offer without attributes, by its texts.
fn write_texts(
    out: &mut Writer,
    body: &str,
    digest: &str,
    id: &str,
    handle: &str,
) -> Result<(), AllocError>
    ensures tokens { OnOk result (out.new.tokens ≡ out.old.tokens ++ texts_tokens body.now digest.now id.now handle.now) }
    ensures before { out.new.before ≡ out.old.before }
{
    out.begin_object()?;
    out.key("Body")?;
    out.string(body)?;
    out.key("MD5OfBody")?;
    out.string(digest)?;
    out.key("MessageId")?;
    out.string(id)?;
    out.key("ReceiptHandle")?;
    out.string(handle)?;
    out.end_object()?;
    Ok(())
}

/// Writes an offer of the queue of a uid, without attributes.
fn write_offer(alloc: Global, out: &mut Writer, uid: u64, offer: &Offer) -> Result<(), Fault>
    ensures tokens { OnOk result (out.new.tokens ≡ out.old.tokens ++ offer_tokens uid offer.now) }
    ensures before { out.new.before ≡ out.old.before }
    ensures errors { IfErr result (λ fault. fault ≡ OutOfMemory) }
{
    let body = offer.content.body();
    let digest = body_md5(alloc, body)?;
    let id = offer.id.text(alloc)?;
    let handle = handle_of_offer(uid, offer).write(alloc)?;
    write_texts(out, body, digest.as_str(), id.as_str(), handle.as_str())?;
    Ok(())
}

/// Writes offers of the queue of a uid, without attributes, one after another.
fn write_offers(alloc: Global, out: &mut Writer, uid: u64, offers: &[Offer]) -> Result<(), Fault>
    ensures tokens { OnOk result (out.new.tokens ≡ out.old.tokens ++ offers_tokens uid offers.now) }
    ensures before { out.new.before ≡ out.old.before }
    ensures errors { IfErr result (λ fault. fault ≡ OutOfMemory) }
{
    for offer in offers {
        write_offer(alloc, out, uid, offer)?;
    }
    Ok(())
}

/// The text of offers of the queue of a uid, without attributes.
fn plain_text(alloc: Global, uid: u64, offers: &[Offer]) -> Result<String, Fault>
    ensures { Meets (result_map (λ s. string_bytes s) result) (Ok (print (plain_tokens uid offers.now))) }
{
    let mut out = Writer::new(Vec::with_capacity(alloc, ROOM)?);
    out.begin_object()?;
    out.key("Messages")?;
    out.begin_array()?;
    write_offers(alloc, &mut out, uid, offers)?;
    out.end_array()?;
    out.end_object()?;
    Ok(String::from_utf8(out.into_inner()).unwrap())
}

/// Whether there are offers, and no attributes of them are asked for.
fn is_plain(names: &ReceiveNames, patterns: &Patterns, offers: &[Offer]) -> bool
    ensures { result ≡ true → (names.now.asked ≡ []) × (patterns.now ≡ []) × ((length offers.now == 0) ≡ false) }
{
    !offers.is_empty() && names.asked.as_slice().is_empty() && patterns.as_slice().is_empty()
}

/// The JSON text of what a receive offers of the queue of a uid.
pub(crate) fn messages_text(
    alloc: Global,
    uid: u64,
    names: &ReceiveNames,
    patterns: &Patterns,
    offers: &[Offer],
) -> Result<String, Fault>
    ensures { Meets (result_map (λ s. string_bytes s) result)
        (Ok (compact_text (messages_data uid names.now patterns.now offers.now))) }
{
    if is_plain(names, patterns, offers) {
        return plain_text(alloc, uid, offers);
    }
    let value = messages_reply(alloc, uid, names, patterns, offers)?;
    let text = value.to_string(alloc)?;
    Ok(text)
}
