//! Options, each with what it is; and files, each with what it comes to.

use super::*;
use std::alloc::{AllocError, Global};
use std::io;
use std::process::Abort;
use std::test::Fail;

/// Each argument has the option that stands beside it.
#[test]
fn options(rt: HostRuntime) {
    let help = Some(ProgramOption::Help);
    let version = Some(ProgramOption::Version);
    let unknown = Some(ProgramOption::Unknown);
    for (argument, option) in [
        ("-h", help),
        ("--help", help),
        ("-V", version),
        ("--version", version),
        ("-v", unknown),
        ("--Help", unknown),
        ("-", unknown),
        ("--", unknown),
        ("--help ", unknown),
        ("help", None),
        ("", None),
        ("config.toml", None),
        ("a-b", None),
        ("h", None),
    ] {
        assert!(rt; option_of(argument) == option);
    }
}

/// An option that there is not is named, without its control characters; nothing else is. Where memory was refused, what
/// more there is to say is asked for again.
#[test]
fn misuse(rt: HostRuntime) -> Result<(), Fail> {
    let (usage, read) = (StartFault::Usage, StartFault::Read);
    let told = "there is no option --foo[0m; --help explains";
    for (fault, first, more) in [
        (usage, Some("--foo\u{1b}[0m"), Some(told)),
        (usage, Some("--help"), None),
        (usage, Some("config.toml"), None),
        (usage, None, None),
        (read, Some("--foo"), None),
    ] {
        let mut ending = misused(rt.alloc(), first, fault);
        if ending.more.is_none() {
            ending = misused(rt.alloc(), first, fault);
        }
        assert!(rt; ending.refusal == fault && ending.more.as_deref() == more);
    }
    Ok(())
}

/// What a program ends with whose file was read so: the fault, and what more there is to say; or how many lines its
/// configuration lets a journal have.
fn told(alloc: Global, bytes: io::Result<Vec<u8>>) -> Result<String, AllocError> {
    let (fault, more) = match configuration_in(alloc, "example.toml", bytes) {
        Ok(config) => return config.limits.max_lines.to_string(alloc),
        Err(ending) => (ending.refusal, ending.more),
    };
    match more {
        Some(more) => format!(in alloc; "{fault:?}, {more}"),
        None => format!(in alloc; "{fault:?}"),
    }
}

/// The same of a file with such bytes, or of one that is not there.
fn told_of(alloc: Global, bytes: Option<&[u8]>) -> Result<String, AllocError> {
    match bytes {
        Some(bytes) => told(alloc, Ok(Vec::from_slice(alloc, bytes)?)),
        None => told(alloc, Err(io::Error::from_raw_os_error(2))),
    }
}

/// A configuration with a fault in line 7, and what is told of it.
const FAULTY: &[u8] = b"\n\n\n\n[[queue]]\nname = \"jobs\"\ndelay_seconds = 901\n";

const FAULT: &str =
    r#"Config(OutOfRange), example.toml:7: [[queue]] "jobs": delay_seconds = 901 is not in 0 to 900"#;

/// Each file comes to what docs/PROFILE.md says in sections 18, 19 and 25. One whose allocation is refused comes to lack
/// of memory, or to its fault with no more to say, and to the whole when it is read again. The gate runs this with ample
/// memory; `rt try --test --fail-alloc N -- refused_memory` refuses the Nth allocation.
#[test]
fn refused_memory(rt: HostRuntime) -> Result<(), Fail> {
    let alloc = rt.alloc();
    let no_text = "Config(Syntax), example.toml:1: column 1: the byte 0xff is no UTF-8";
    let absent = "Read, example.toml: No such file or directory (os error 2)";
    let files: [(Option<&[u8]>, &str); 5] = [
        (Some(b"[limits]\nmax_lines = 4\n"), "4"),
        (Some(b""), "1000000"),
        (Some(FAULTY), FAULT),
        (Some(b"\xFF"), no_text),
        (None, absent),
    ];
    for (bytes, wanted) in files {
        let first = told_of(alloc, bytes);
        let told = match first {
            Ok(told) if told.as_str() == wanted => told,
            Ok(told) => {
                let (fault, _) = wanted.split_once(", ").unwrap_or((wanted, ""));
                let faults = [fault, "Config(OutOfMemory)"];
                assert!(rt; faults.contains(&told.as_str()), "{told}");
                told_of(alloc, bytes)?
            }
            Err(_refused) => told_of(alloc, bytes)?,
        };
        assert_eq!(rt; told.as_str(), wanted);
    }
    let starved = Err(io::Error::from(io::ErrorKind::OutOfMemory));
    let ending = configuration_in(alloc, "example.toml", starved).err();
    let ending = ending.ok_or("an end")?;
    assert_eq!(rt; ending.refusal, StartFault::OutOfMemory);
    assert!(rt; ending.more.is_none());
    Ok(())
}
