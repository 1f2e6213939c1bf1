//! Texts of handles, texts at the borders of the format, and what a refused allocation gives.

use super::*;
use message::Fault;
use std::alloc::Global;
use std::process::Abort;
use std::test::Fail;

/// Asserts that a handle has this text, and that the text is that handle's. A write whose allocation
/// is refused answers `OutOfMemory`, and the same call gives the text after it. The gate runs the
/// tests with ample memory, where the first call answers; `rt try --test --fail-alloc N` refuses the
/// Nth allocation.
fn has_text(rt: &impl Abort, alloc: Global, handle: Handle, text: &str) -> Result<(), Fail> {
    let written = match handle.write(alloc) {
        Err(Fault::OutOfMemory) => handle.write(alloc)?,
        answer => answer?,
    };
    assert_eq!(rt; written.as_str(), text);
    assert_eq!(rt; Handle::read(text), Ok(handle));
    Ok(())
}

/// A handle by its three numbers.
fn handle(uid: u64, number: u64, receipt: u64) -> Handle {
    Handle {
        uid,
        number,
        receipt,
    }
}

/// Texts whose thirds are the numbers' hexadecimal digits: the first receive of the first message of
/// the first queue, the least and the greatest handle, and one with every digit.
#[test]
fn texts(rt: HostRuntime) -> Result<(), Fail> {
    let alloc = rt.alloc();
    let first = handle(1, 0, 1);
    has_text(
        &rt,
        alloc,
        first,
        "000000000000000100000000000000000000000000000001",
    )?;
    let least = handle(0, 0, 0);
    has_text(
        &rt,
        alloc,
        least,
        "000000000000000000000000000000000000000000000000",
    )?;
    let greatest = handle(u64::MAX, u64::MAX, u64::MAX);
    has_text(
        &rt,
        alloc,
        greatest,
        "ffffffffffffffffffffffffffffffffffffffffffffffff",
    )?;
    let every_digit = handle(0x0123456789ABCDEF, 0xFEDCBA9876543210, 1000);
    has_text(
        &rt,
        alloc,
        every_digit,
        "0123456789abcdeffedcba987654321000000000000003e8",
    )
}

/// Texts that are no handle, one a line, the first of them empty: other lengths, an upper-case digit,
/// the characters beside the digits in ASCII, signs and separators that other readers of numbers take,
/// and characters of more than one byte, within a number and across two.
const REFUSED: &str = "
0
00000000000000010000000000000000
00000000000000010000000000000000000000000000001
0000000000000001000000000000000000000000000000001
00000000000000010000000000000000000000000000000A
F00000000000000100000000000000000000000000000001
00000000000000010000000000000000000000000000000g
0000000000000001000000000000000/0000000000000001
000000000000000100000000000000:00000000000000001
0000000000000001000000000000`0000000000000000001
000000000000000@00000000000000000000000000000001
0000000000000001000000000000000000000000000000 1
+00000000000000100000000000000000000000000000001
0000000000000001+0000000000000000000000000000001
-00000000000000100000000000000000000000000000001
0x0000000000000100000000000000000000000000000001
0000000000000001-000000000000000-000000000000001
é0000000000001000000000000000000000000000000001
000000000000000é0000000000000000000000000000001
éééééééééééééééééééééééé
\u{0}00000000000000100000000000000000000000000000001
";

/// A text of another form is refused.
#[test]
fn refused_texts(rt: HostRuntime) {
    for text in REFUSED.lines() {
        assert_eq!(rt;
            Handle::read(text),
            Err(Fault::ReceiptHandleIsInvalid),
            "{text:?}"
        );
    }
}
