//! Conversations with the server over loopback. What is wanted was worked out by hand from what each
//! request asks, and never taken from the program.

mod conversations;

use crate::arguments::Refusal;
use crate::notices::Notices;
use crate::queues::is_full;
use crate::register::Register;
use crate::serving::{Ports, listen, refusal_of_system, serve};
use crossbeam_channel::{Receiver, unbounded};
use desk::NoPress;
use queue_actor::Mail;
use request_log::Level;
use startup::configuration_in;
use std::alloc::{AllocError, Global};
use std::io::{ErrorKind, Read, Write};
use std::net::{Ipv4Addr, Net, SocketAddr, TcpListener, TcpStream};
use std::process::Abort;
use std::random::RandomSource;
use std::sync::Wait;
use std::test::Fail;
use std::thread::Threads;
use std::time::{Clock, Duration};
use std::{str, thread};

/// How long a test waits for anything, in seconds: longer than a busy machine needs.
const PATIENCE: u64 = 300;

/// A server at two ports of its own, in threads of its own.
#[derive(Drop)]
struct Started {
    address: SocketAddr,
    statistics: SocketAddr,
    ended: Receiver<bool>,
    /// The lines for standard error.
    lines: Receiver<String>,
}

/// Starts a server with a configuration, which ends after so many connections.
fn start<R>(rt: &R, host: &HostRuntime, text: &str, connections: u64) -> Result<Started, Fail>
where
    R: Wait
        + Threads
        + Clock
        + Net<Listener = TcpListener, Stream = TcpStream>
        + RandomSource
        + AllocGlobal
        + Eprint
        + Copy
        + Send
        + Sync
        + Drop
        + 'static,
{
    let alloc = rt.alloc();
    let config = configuration_in(
        alloc,
        "config.toml",
        Ok(Vec::from_slice(alloc, text.as_bytes())?),
    )?;
    let ports = Ports {
        requests: listen(rt, SocketAddr::from((Ipv4Addr::LOCALHOST, 0)))?,
        statistics: listen(rt, SocketAddr::from((Ipv4Addr::LOCALHOST, 0)))?,
        workers: 2,
    };
    let (address, statistics) = (ports.requests.address()?, ports.statistics.address()?);
    let (ends, ended) = unbounded::<bool, Global>(alloc)?;
    let (notices, waiting) = Notices::new(alloc)?;
    let register = Register::new(rt, alloc, Level::Refused, notices)?;
    let (own, host) = (*rt, *host);
    let _server = thread::spawn(rt, move || {
        let outcome = serve(&own, &host, ports, &config, register, Some(connections));
        let _ = ends.send(&own, outcome.is_ok());
    })?;
    Ok(Started {
        address,
        statistics,
        ended,
        lines: waiting.lines,
    })
}

/// Whether the server ends, and as it should.
fn has_ended<R: Wait + Clock>(rt: &R, server: &Started) -> bool {
    let patience = Duration::from_secs(PATIENCE);
    matches!(server.ended.recv_timeout(rt, patience), Ok(true))
}

/// A connection to a port of the server.
fn connect(rt: &HostRuntime, address: SocketAddr) -> Result<TcpStream, Fail> {
    let stream = TcpStream::connect(rt, address)?;
    stream.set_read_timeout(Some(Duration::from_secs(PATIENCE)))?;
    stream.set_write_timeout(Some(Duration::from_secs(PATIENCE)))?;
    stream.set_nodelay(true)?;
    Ok(stream)
}

/// A request of an action.
fn request(alloc: Global, action: &str, body: &str) -> Result<String, AllocError> {
    let length = body.len();
    format!(in alloc;
        "POST / HTTP/1.1\r\nHost: localhost\r\nX-Amz-Target: AmazonSQS.{action}\r\nContent-Length: {length}\r\n\r\n{body}"
    )
}

/// The number of bytes that a head announces.
fn length_in(head: &str) -> Option<usize> {
    let (_, rest) = head.split_once("content-length: ")?;
    match rest.split_once("\r\n") {
        Some((length, _)) => length.parse::<usize>().ok(),
        None => rest.parse::<usize>().ok(),
    }
}

/// The head and the body of a reply, where it has come whole.
fn whole_reply(bytes: &[u8]) -> Option<(&str, &str)> {
    let (head, body) = str::from_utf8(bytes).ok()?.split_once("\r\n\r\n")?;
    if body.len() == length_in(head)? {
        Some((head, body))
    } else {
        None
    }
}

/// The content type in a head.
fn type_in(head: &str) -> Option<&str> {
    let (_, rest) = head.split_once("\r\ncontent-type: ")?;
    match rest.split_once("\r\n") {
        Some((kind, _)) => Some(kind),
        None => Some(rest),
    }
}

/// The status of a reply, its content type and its body, with spaces between them. That of the port for requests is
/// left out: every reply there has it.
fn told(alloc: Global, head: &str, body: &str) -> Result<String, Fail> {
    let (_, status) = head.split_once("HTTP/1.1 ").ok_or("a status")?;
    let (code, _) = status.split_once(" ").ok_or("a code")?;
    match type_in(head).ok_or("a content type")? {
        "application/x-amz-json-1.0" => Ok(format!(in alloc; "{code} {body}")?),
        kind => Ok(format!(in alloc; "{code} {kind} {body}")?),
    }
}

/// The next reply of a connection: its status and its body.
fn next_reply(alloc: Global, stream: &mut TcpStream) -> Result<String, Fail> {
    let mut came = Vec::new(alloc);
    for _ in 0..10_000 {
        if let Some((head, body)) = whole_reply(came.as_slice()) {
            return told(alloc, head, body);
        }
        let mut piece = [0u8; 1024];
        let count = stream.read(&mut piece)?;
        if count == 0 {
            return Err(Fail::from("the connection ended"));
        }
        came.extend_from_slice(&piece[..count])?;
    }
    Err(Fail::from("a reply without end"))
}

/// What a client has yet to read, and who it is.
#[derive(Drop)]
struct Client {
    letter: u8,
    stream: TcpStream,
}

/// The place of a client, which connects where it has not yet done so.
fn place_of(
    rt: &HostRuntime,
    server: &Started,
    clients: &mut Vec<Client>,
    letter: u8,
) -> Result<usize, Fail> {
    if let Some(place) = clients.iter().position(|it| it.letter == letter) {
        return Ok(place);
    }
    let is_viewer = letter.is_ascii_lowercase();
    let address = if is_viewer {
        server.statistics
    } else {
        server.address
    };
    let stream = connect(rt, address)?;
    clients.push(Client { letter, stream })?;
    Ok(clients.len() - 1)
}

/// Sends chunks of a body, 65,536 blanks each. One that cannot be sent any more is no fault.
fn send_chunks(alloc: Global, stream: &mut TcpStream, chunks: u32) -> Result<(), Fail> {
    let chunk = Vec::from_elem(alloc, b' ', 65_536)?;
    for _ in 0..chunks {
        let sent = stream
            .write_all(b"10000\r\n")
            .and_then(|_| stream.write_all(chunk.as_slice()))
            .and_then(|_| stream.write_all(b"\r\n"));
        if sent.is_err() {
            break;
        }
    }
    Ok(())
}

/// Sends pieces of a body, 65,536 blanks each. One that cannot be sent any more is no fault.
fn send_blanks(alloc: Global, stream: &mut TcpStream, pieces: u32) -> Result<(), Fail> {
    let piece = Vec::from_elem(alloc, b' ', 65_536)?;
    for _ in 0..pieces {
        if stream.write_all(piece.as_slice()).is_err() {
            break;
        }
    }
    Ok(())
}

/// Whether nothing comes for 300 milliseconds. The end of the connection is something.
fn is_silent(stream: &mut TcpStream) -> Result<bool, Fail> {
    stream.set_read_timeout(Some(Duration::from_millis(300)))?;
    let mut piece = [0u8; 1];
    let is_silent = match stream.read(&mut piece) {
        Ok(_) => false,
        Err(error) => matches!(error.kind(), ErrorKind::WouldBlock | ErrorKind::TimedOut),
    };
    stream.set_read_timeout(Some(Duration::from_secs(PATIENCE)))?;
    Ok(is_silent)
}

/// Does what a line says of a client, and gives what it got where the line says what it gets.
fn act(
    alloc: Global,
    stream: &mut TcpStream,
    verb: &str,
    rest: &str,
) -> Result<Option<String>, Fail> {
    match verb {
        "asks" => {
            let (action, body) = rest.split_once(" ").ok_or("an action and a body")?;
            let text = request(alloc, action, body)?;
            stream.write_all(text.as_bytes())?;
        }
        "views" => {
            let text = format!(in alloc; "GET {rest} HTTP/1.1\r\nHost: localhost\r\n\r\n")?;
            stream.write_all(text.as_bytes())?;
        }
        "sends" => {
            let text = rest.replace(alloc, "~", "\r\n")?;
            stream.write_all(text.as_bytes())?;
        }
        "chunks" => send_chunks(alloc, stream, rest.parse::<u32>().ok().ok_or("a number")?)?,
        "blanks" => send_blanks(alloc, stream, rest.parse::<u32>().ok().ok_or("a number")?)?,
        "gets" | "begins" | "holds" | "lacks" => return Ok(Some(next_reply(alloc, stream)?)),
        "waits" => {
            if !is_silent(stream)? {
                return Err(Fail::from("no silence"));
            }
        }
        _ => return Err(Fail::from("another word")),
    }
    Ok(None)
}

/// The next line for standard error, without its time of day, where it is not as wanted.
fn logged<R: Wait + Clock>(rt: &R, server: &Started, wanted: &str) -> Result<Option<String>, Fail> {
    let line = server
        .lines
        .recv_timeout(rt, Duration::from_secs(PATIENCE))
        .map_err(|_| "a line")?;
    let (time, told) = line.split_once(' ').ok_or("a time of day")?;
    if time.len() == "12:03:04.123Z".len() && told == wanted {
        Ok(None)
    } else {
        Ok(Some(line))
    }
}

/// Does what each line says of a client, and gives the first line that went otherwise, with what came. `PORT` is the
/// port for requests.
fn talk<R: Wait + Clock>(
    rt: &R,
    host: &HostRuntime,
    server: &Started,
    steps: &str,
) -> Result<String, Fail> {
    let alloc = host.alloc();
    let port = server.address.port().to_string(alloc)?;
    let steps = steps.replace(alloc, "PORT", port.as_str())?;
    let mut clients = Vec::new(alloc);
    for line in steps.lines() {
        let letter = line.bytes().next().ok_or("a client")?;
        let (_, rest) = line.split_once(" ").ok_or("a verb")?;
        let (verb, rest) = rest.split_once(" ").ok_or("a thing")?;
        let place = place_of(host, server, &mut clients, letter)?;
        if verb == "leaves" && place < clients.len() {
            thread::sleep(
                host,
                Duration::from_millis(rest.parse::<u64>().unwrap_or(0)),
            );
            clients.remove(place);
            continue;
        }
        if verb == "logs" {
            if let Some(told) = logged(rt, server, rest)? {
                return Ok(format!(in alloc; "{line}: {told}")?);
            }
            continue;
        }
        let client = clients.get_mut(place).ok_or("a client")?;
        let came = act(alloc, &mut client.stream, verb, rest)?;
        if !is_as_wanted(came.as_ref(), verb, rest) {
            return Ok(format!(in alloc; "{line}: {came:?}")?);
        }
    }
    Ok(String::new(alloc))
}

/// Whether a client got what it was to get, or nothing where it was to get nothing.
fn is_as_wanted(came: Option<&String>, verb: &str, wanted: &str) -> bool {
    match came {
        Some(came) if verb == "begins" => came.starts_with(wanted),
        Some(came) if verb == "holds" => came.contains(wanted),
        Some(came) if verb == "lacks" => !came.contains(wanted),
        Some(came) => came.as_str() == wanted,
        None => true,
    }
}

/// A thousand mails fill a mailbox, and one less does not.
#[test]
fn thousand_mails(rt: HostRuntime) -> Result<(), Fail> {
    let (mailbox, _mails) = unbounded::<Mail<NoPress, u8>, Global>(rt.alloc())?;
    for count in 0..1_000u32 {
        assert!(rt; !is_full(mailbox.len()), "{count} mails");
        assert!(rt; mailbox.send(&rt, Mail::End).is_ok());
    }
    assert!(rt; is_full(mailbox.len()));
    Ok(())
}

/// How many clients the lines have: their letters go up from A, and those of statistics from a.
fn clients_in(steps: &str) -> u64 {
    let (mut callers, mut viewers) = (0, 0);
    for line in steps.lines() {
        let letter = line.bytes().next().unwrap_or(b'A');
        if letter.is_ascii_lowercase() {
            viewers = u64::max(viewers, letter.saturating_sub(b'a') as u64 + 1);
        } else {
            callers = u64::max(callers, letter.saturating_sub(b'A') as u64 + 1);
        }
    }
    callers.saturating_add(viewers)
}
