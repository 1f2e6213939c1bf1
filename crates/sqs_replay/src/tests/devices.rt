//! Runs over devices that give or take little at a time, or fail.

ghost use Rattle.std.specs.Prelude.{ℕ};
ghost use Rattle.std.proofs.Common.{ap};
ghost use Rattle.sqs_replay.specs.private.Toy.{toy_text, toy_count, toy_text-beyond, toy_count-beyond};

use super::same;
use crate::{Device, Inlet, LINE_LIMIT, Lines, Outlet, ReplayFault, replay, run_lines};
use journal::Ticks;
use queue_config::{Config, Limits};
use std::alloc::Global;
use std::io;
use std::test::Fail;

/// A server that answers how many lines it answered before, and how long the line is. It runs out
/// of memory after so many lines.
#[derive(Drop)]
struct Toy {
    count: u64,
    most: u64,
}

impl Lines for Toy {
    ghost text = { λ toy line. toy_text toy.count line };

    ghost after = { λ toy line. record toy { count = toy_count toy.count line } };

    ghost same_text = { λ toy first second one two. toy_text-beyond toy.count first second one two };

    ghost same_after = { λ toy first second one two. ap (λ (n : ℕ). record toy { count = n }) (toy_count-beyond toy.count first second one two) };

    fn answer(
        &mut self,
        alloc: Global,
        line: &[u8],
        _ticks: &mut Ticks,
    ) -> Result<Vec<u8>, ReplayFault> {
        if line.len() > LINE_LIMIT {
            return Ok(String::from_str(alloc, "too long\n")?.into_bytes());
        }
        let count = self.count;
        if count >= self.most {
            return Err(ReplayFault::OutOfMemory);
        }
        let length = line.len();
        let text = format!(in alloc; "{count} {length}\n")?;
        self.count = self.count.saturating_add(1);
        Ok(text.into_bytes())
    }
}

/// A reader and writer that gives or takes at most so many bytes at once, and so many in all. Asked for
/// more, it `starves` for lack of memory, or `blocks` and takes nothing, or is `unplugged`.
#[derive(Drop)]
struct Flawed<'a> {
    given: &'a [u8],
    taken: Vec<u8>,
    size: usize,
    left: usize,
    way: &'a str,
    calls: u64,
}

impl Flawed<'_> {
    /// How many bytes a call may give or take.
    fn room(&mut self) -> io::Result<usize> {
        self.calls = self.calls.saturating_add(1);
        if self.left > 0 {
            return Ok(self.size.min(self.left));
        }
        match self.way {
            "starves" => Err(io::Error::from(io::ErrorKind::OutOfMemory)),
            "blocks" => Ok(0),
            _ => Err(io::Error::other("unplugged")),
        }
    }
}

impl io::Read for Flawed<'_> {
    fn read(&mut self, buffer: &mut [u8]) -> io::Result<usize> {
        let room = self.room()?;
        let count = room.min(self.given.len()).min(buffer.len());
        buffer[..count].copy_from_slice(&self.given[..count]);
        self.given = &self.given[count..];
        self.left = self.left.saturating_sub(count);
        Ok(count)
    }
}

impl io::Write for Flawed<'_> {
    fn write(&mut self, bytes: &[u8]) -> io::Result<usize> {
        let room = self.room()?;
        let count = room.min(bytes.len());
        self.taken.extend_from_slice(&bytes[..count])?;
        self.left = self.left.saturating_sub(count);
        Ok(count)
    }

    fn flush(&mut self) -> io::Result<()> {
        Ok(())
    }
}

/// Runs, one a line, whose cells are:
///
/// - the server: a `replay`, one to whose outlet no byte and a byte are written before it begins, a
///   `toy`, or a toy that runs out of memory after so many lines;
/// - its input;
/// - the flaw: which device fails and in which way; how many bytes both give or take at once, by turns,
///   and how many the flawed one does in all, or each number from one to another. One more than the
///   input has are asked of the inlet, to find its end;
/// - the outcome: `done` or the fault; how often the inlet failed and was refused memory, and how often
///   the outlet; and, where that is told, how many lines the toy answered, and the calls of each device;
/// - the output, of which exactly as many bytes are written as the outlet takes.
///
/// The lines of `<path>` end at its bytes 38, 97 and 267, and their answers at 59, 170 and 310. The first
/// line of `<two>` ends at its byte 35. What `~` stands for makes the line as long as a line may be.
const RUNS: &str = "toy||<whole>|done 0 0 0 0, 0 1 0.|
toy|a;b|<whole>|done 0 0 0 0, 2 2 2.|0 1;1 1;
toy|a;bc;|<whole>|done 0 0 0 0, 2 2 2.|0 1;1 2;
toy|;;|<whole>|done 0 0 0 0, 0 2 0.|
toy|^;|<whole>|done 0 0 0 0, 0 2 0.|
toy|^|<whole>|done 0 0 0 0, 0 2 0.|
toy|^^;|<whole>|done 0 0 0 0, 1 2 1.|0 1;
toy|a^;^;bcd^|<whole>|done 0 0 0 0, 2 2 2.|0 1;1 3;
toy|a^b;|<whole>|done 0 0 0 0, 1 2 1.|0 3;
toy 2|a;b;c;|<whole>|out of memory 0 0 0 0, 2 1 2.|0 1;1 1;
toy|a;b|reads unplugged 1 9|done 0 0 0 0, 2 4 8.|0 1;1 1;
toy|a;b|reads unplugged 1 4|done 0 0 0 0, 2 4 8.|0 1;1 1;
toy|a;b|reads unplugged 1 3|read failed 1 0 0 0, 1 4 4.|0 1;
toy|a;b|reads unplugged 1 2|read failed 1 0 0 0, 1 3 4.|0 1;
toy|a;b|reads unplugged 1 1|read failed 1 0 0 0, 0 2 0.|
toy|a;b|reads unplugged 1 0|read failed 1 0 0 0, 0 1 0.|
toy|a;b|writes unplugged 3 8|done 0 0 0 0, 2 2 4.|0 1;1 1;
toy|a;b|writes unplugged 3 7|write failed 0 0 1 0|0 1;1 1;
toy|a;b|writes unplugged 3 3|write failed 0 0 1 0|0 1;1 1;
toy|a;b|writes unplugged 3 0|write failed 0 0 1 0|0 1;1 1;
toy|a;b|reads starves 4 0|out of memory 0 1 0 0, 0 1 0.|
toy|a;b|writes starves 4 0|out of memory 0 0 0 1, 1 1 1.|
again|<path>|writes blocks 4 0|write failed 0 0 2 0, 0 10 2.|
replay|<path>|reads unplugged 1,7,267 0-37|read failed 1 0 0 0|
replay|<path>|reads unplugged 1,7,267 38-96|read failed 1 0 0 0|<url>
replay|<path>|reads unplugged 1,7,267 97-266|read failed 1 0 0 0|<url><sent>
replay|<path>|reads unplugged 1,7,267 267|read failed 1 0 0 0|<url><sent><counts>
replay|<path>|reads unplugged 1 268|done 0 0 0 0, 0 268 310.|<url><sent><counts>
replay|<path>|reads unplugged 7 268|done 0 0 0 0, 0 40 45.|<url><sent><counts>
replay|<path>|reads unplugged 267 268|done 0 0 0 0, 0 2 3.|<url><sent><counts>
replay|<path>|writes unplugged 1,7,140 0-309|write failed 0 0 1 0|<url><sent><counts>
replay|<path>|writes unplugged 1 310|done 0 0 0 0, 0 268 310.|<url><sent><counts>
replay|<path>|writes unplugged 7 310|done 0 0 0 0, 0 40 45.|<url><sent><counts>
replay|<path>|writes unplugged 140 310|done 0 0 0 0, 0 3 3.|<url><sent><counts>
replay|<two>|reads unplugged 1 0-34|read failed 1 0 0 0|
replay|<two>|reads unplugged 1 35-69|read failed 1 0 0 0|<url>
replay|<two>|reads unplugged 1 70|done 0 0 0 0, 0 70 118.|<url><url>
replay|<two>|writes unplugged 1 0-117|write failed 0 0 1 0|<url><url>
replay|<two>|writes unplugged 1 118|done 0 0 0 0, 0 70 118.|<url><url>
replay|1 Tick ~{}^;2 Tick {}|<whole>|done 0 0 0 0|200 {};200 {};
replay|1 Tick ~ {}^;2 Tick {}|<whole>|done 0 0 0 0|<unread>200 {};
replay|1 Tick ~   {};2 Tick {}|<whole>|done 0 0 0 0|<unread>200 {};";

/// What stands in [`RUNS`] for something longer. Besides, `;` is a line feed, `^` a carriage return, and
/// `~` 8,388,695 blanks.
const WORDS: &str = r#"<whole> reads unplugged 99999999 99999999
<path> 1000 CreateQueue {"QueueName":"jobs"};1000 SendMessage {"QueueUrl":"jobs","MessageBody":"hello"};1500 GetQueueAttributes {"QueueUrl":"jobs","AttributeNames":["ApproximateNumberOfMessages","ApproximateNumberOfMessagesDelayed","ApproximateNumberOfMessagesNotVisible"]};
<two> 1 CreateQueue {"QueueName":"jobs"};2 GetQueueUrl {"QueueName":"jobs"}
<url> 200 {"QueueUrl":"http://localhost:9324/000000000000/jobs"};
<sent> 200 {"MD5OfMessageBody":"5d41402abc4b2a76b9719d911017c592","MessageId":"00000000-0000-0001-0000-000000000000"};
<counts> 200 {"Attributes":{"ApproximateNumberOfMessages":"1","ApproximateNumberOfMessagesDelayed":"0","ApproximateNumberOfMessagesNotVisible":"0"}};
<unread> 400 {"__type":"com.amazonaws.sqs#SerializationException","message":"The request cannot be read."};"#;

/// What stands in front of a mark and behind it.
fn cut(text: &str, mark: char) -> (&str, &str) {
    text.split_once(mark).unwrap_or((text, ""))
}

const THIRTY_FIVE_BLANKS: &str = "                                   ";

/// A cell with all that its words stand for.
fn spelled(alloc: Global, cell: &str) -> Result<String, Fail> {
    let mut text = String::from_str(alloc, cell)?;
    for line in WORDS.lines() {
        let (word, meaning) = cut(line, ' ');
        text = text.as_str().replace(alloc, word, meaning)?;
    }
    text = text.as_str().replace(alloc, "^", "\r")?;
    text = text.as_str().replace(alloc, ";", "\n")?;
    if cell.find('~').is_none() {
        return Ok(text);
    }
    let mut blanks = String::new(alloc);
    for _ in 0..239_677 {
        blanks.push_str(THIRTY_FIVE_BLANKS)?;
    }
    Ok(text.as_str().replace(alloc, "~", blanks.as_str())?)
}

/// How a run of a server from one device to another ends, and how many lines a toy has answered.
fn run(
    rt: &HostRuntime,
    server: &str,
    inlet: &mut impl Inlet,
    outlet: &mut impl Outlet,
) -> Result<(Result<(), ReplayFault>, u64), Fail> {
    let (alloc, mut ticks) = (rt.alloc(), Ticks::new(rt));
    if server == "again" {
        same(outlet.write(b""), Ok(()))?;
        same(outlet.write(b"a"), Err(ReplayFault::Write))?;
    }
    let (name, most) = cut(server, ' ');
    if name != "toy" {
        let config = Config::with_limits(alloc, Limits::default());
        return Ok((replay(alloc, config, inlet, outlet, &mut ticks), 0));
    }
    let most = most.parse().unwrap_or(u64::MAX);
    let mut toy = Toy { count: 0, most };
    let result = run_lines(alloc, &mut toy, inlet, outlet, &mut ticks);
    Ok((result, toy.count))
}

/// The outcome of such a run, and what was written.
fn outcome_of(
    rt: &HostRuntime,
    server: &str,
    inlet: Flawed<'_>,
    outlet: Flawed<'_>,
) -> Result<(String, Vec<u8>), Fail> {
    let (mut inlet, mut outlet) = (Device::new(inlet), Device::new(outlet));
    let (result, lines) = run(rt, server, &mut inlet, &mut outlet)?;
    let end = match result {
        Ok(()) => "done",
        Err(fault) => fault.text(),
    };
    let (failed, refused, reads) = (inlet.failures(), inlet.refusals(), inlet.reads());
    let (blocked, starved, outlet) = (outlet.failures(), outlet.refusals(), outlet.into_inner());
    let counts = format!(in rt.alloc(); "{failed} {refused} {blocked} {starved}")?;
    let writes = outlet.calls;
    let told = format!(in rt.alloc(); "{end} {}, {lines} {reads} {writes}.", counts.as_str())?;
    Ok((told, outlet.taken))
}

/// Asserts the outcome and the output of a row, for each number of bytes of its flaw.
fn run_row(rt: &HostRuntime, line: &str) -> Result<(), Fail> {
    let (server, cells) = cut(line, '|');
    let (input, cells) = cut(cells, '|');
    let (flaw, cells) = cut(cells, '|');
    let (wanted, output) = cut(cells, '|');
    let (input, output) = (spelled(rt.alloc(), input)?, spelled(rt.alloc(), output)?);
    let (flaw, output) = (spelled(rt.alloc(), flaw)?, output.as_bytes());
    let (side, flaw) = cut(flaw.as_str(), ' ');
    let (way, flaw) = cut(flaw, ' ');
    let (sizes, range) = cut(flaw, ' ');
    let (first, last) = cut(range, '-');
    let first = first.parse().unwrap_or(usize::MAX);
    let last = last.parse().unwrap_or(first);
    same(first <= last && last < usize::MAX, true)?;
    for size in sizes.split(',') {
        let size = size.parse().unwrap_or(0);
        for left in first..last.saturating_add(1) {
            let (gives, takes) = match side {
                "reads" => (left, usize::MAX),
                _ => (usize::MAX, left),
            };
            let inlet = device(rt.alloc(), input.as_str(), size, gives, way);
            let outlet = device(rt.alloc(), input.as_str(), size, takes, way);
            let (told, written) = outcome_of(rt, server, inlet, outlet)?;
            let wrote = written.as_slice() == &output[..output.len().min(takes)];
            if !wrote || !told.as_str().starts_with(wanted) {
                let told = told.as_str();
                return Err(Fail::new(format_args!("{line}: at {size} {left} {told} {wrote}")));
            }
        }
    }
    Ok(())
}

/// A device that gives a text, or takes others.
fn device<'a>(alloc: Global, text: &'a str, size: usize, left: usize, way: &'a str) -> Flawed<'a> {
    Flawed {
        given: text.as_bytes(),
        taken: Vec::new(alloc),
        size,
        left,
        way,
        calls: 0,
    }
}

#[test]
fn runs(rt: HostRuntime) -> Result<(), Fail> {
    for line in RUNS.lines() {
        run_row(&rt, line)?;
    }
    Ok(())
}
