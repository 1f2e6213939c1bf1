//! Which fault a configuration is refused for and what it is read as, and what of requested attributes
//! no client can see: two values of one name, and policies by uid. What a client can ask and see stands
//! in the stored runs of `crates/sqs_replay/cases`.

use super::*;
use message::Fault;
use std::alloc::Global;
use std::test::Fail;
use texts::TEXTS;

mod texts;

/// The keys of an alarm and their values, which `..` stands for in its table.
const USUAL: &str =
    r#"queue = "a", name = "x", metric = "RefusedCalls", operator = "LessThanThreshold", threshold = 0, minutes = 2"#;

/// A text with what stands between round brackets as often as its number says, each time with its own
/// number in the place of `#`.
fn repeated(alloc: Global, line: &str) -> Result<String, Fail> {
    let mut text = String::new(alloc);
    for part in line.split('(') {
        let (again, rest) = part.split_once(')').unwrap_or(("", part));
        let (count, body) = again.split_once(' ').unwrap_or(("0", ""));
        let (before, after) = body.split_once('#').unwrap_or((body, ""));
        for number in 0..count.parse::<u32>().unwrap_or(0) {
            write!(text, "{before}{number}{after}")?;
        }
        text.push_str(rest)?;
    }
    Ok(text)
}

/// Adds the table of an alarm, or another, with the keys of [`USUAL`] that it does not have in the
/// place of `..`.
fn add_table(text: &mut String, table: &str) -> Result<(), Fail> {
    let Some((given, rest)) = table.split_once("..") else {
        return Ok(text.push_str(table)?);
    };
    let mut is_first = given.is_empty();
    text.push_str(given)?;
    for usual in USUAL.split(", ") {
        let (key, _) = usual.split_once('=').ok_or("a key")?;
        if given.find(key).is_none() {
            if !is_first {
                text.push_str(", ")?;
            }
            text.push_str(usual)?;
            is_first = false;
        }
    }
    text.push_str(rest)?;
    Ok(())
}

/// The configuration that a text of [`texts`] stands for.
fn spelled(alloc: Global, text: &str) -> Result<String, Fail> {
    let mut spelled = String::new(alloc);
    for line in repeated(alloc, text)?.as_str().split('|') {
        let mut tables = line.split('{');
        spelled.push_str(tables.next().unwrap_or(""))?;
        for table in tables {
            spelled.push('{')?;
            add_table(&mut spelled, table)?;
        }
        spelled.push('\n')?;
    }
    Ok(spelled)
}

/// Tells the settings that are others than before: each number with its key, and the policy by the
/// name and the uid of the dead-letter queue and the number of receives.
fn tell_changes(text: &mut String, before: Settings, settings: Settings) -> Result<(), Fail> {
    for setting in ALL_SETTINGS {
        let number = settings.setting_value(setting);
        if number != before.setting_value(setting) {
            write!(text, " {}={number}", setting_row(setting).key)?;
        }
    }
    match settings.redrive_policy {
        policy if policy == before.redrive_policy => {}
        Some(policy) => {
            let (name, target) = (policy.name, policy.target);
            let count = policy.max_receive_count;
            write!(text, " {}#{target} after {count}", name.as_text())?;
        }
        None => text.push_str(" no policy")?,
    }
    Ok(())
}

/// Tells what is read: the number and the name of a fault; or the limits, the queues, and the alarms, each
/// with the uid of its queue.
fn tell(text: &mut String, read: Result<Config, ConfigFault>) -> Result<(), Fail> {
    text.clear();
    let config = match read {
        Ok(config) => config,
        Err(fault) => return Ok(write!(text, "{} {}", fault.code(), fault.name())?),
    };
    let limits = config.limits;
    write!(text, "{} {}", limits.max_lines, limits.in_flight)?;
    for queue in &config.queues {
        write!(text, "; {}", queue.name.as_text())?;
        tell_changes(text, Settings::default(), queue.settings)?;
    }
    for alarm in &config.alarms {
        let (queue, rule) = (alarm.queue, alarm.rule);
        let (name, metric) = (rule.name.as_text(), rule.metric);
        let (operator, threshold) = (rule.operator, rule.threshold);
        write!(text, "; {name} of {queue}: {metric:?}")?;
        write!(text, " {operator:?} {threshold}, ")?;
        write!(text, "{} of {}", rule.breaches, rule.minutes)?;
    }
    Ok(())
}

/// Each text of [`texts`] is read as its line says.
#[test]
fn configurations(rt: HostRuntime) -> Result<(), Fail> {
    let (alloc, mut told) = (rt.alloc(), String::new(rt.alloc()));
    for line in TEXTS.lines().filter(|line| !line.starts_with("//")) {
        let (text, wanted) = line.split_once(" => ").ok_or("a text and an answer")?;
        let wanted = repeated(alloc, wanted)?;
        let (before, rest) = text.split_once('<').unwrap_or((text, ""));
        let (values, after) = rest.split_once('>').unwrap_or(("", ""));
        for value in values.split(';') {
            let text = format!(in alloc; "{before}{value}{after}")?;
            let read = config_from_text(alloc, spelled(alloc, text.as_str())?.as_str());
            tell(&mut told, read)?;
            assert_eq!(rt; told.as_str(), wanted.as_str(), "{text}");
        }
    }
    Ok(())
}

/// The example of docs/PROFILE.md.
const EXAMPLE: &str = r#"[limits]
in_flight = 2

[[queue]]
name = "dead"

[[queue]]
name = "jobs"
visibility_timeout = 1
dead_letter_queue = "dead"
max_receive_count = 1
"#;

/// What each prefix of the example gives, from the empty one on, a line for each of its lines: a
/// configuration, or the fault Syntax or WrongKind.
const PREFIXES: &str = "CSSSSSSSC\
CSSSSSSSSSSSSC\
C\
CSSSSSSSSW\
WSSSSSSSSSSSSC\
C\
CSSSSSSSSW\
WSSSSSSSSSSSSC\
CSSSSSSSSSSSSSSSSSSSSSC\
CSSSSSSSSSSSSSSSSSSSSSSSSSW\
WSSSSSSSSSSSSSSSSSSSSCC";

/// What bytes give, as a letter of [`PREFIXES`].
fn letter(alloc: Global, bytes: &[u8]) -> char {
    match config_from_bytes(alloc, bytes) {
        Ok(_) => 'C',
        Err(ConfigFault::Syntax) => 'S',
        Err(ConfigFault::WrongKind) => 'W',
        Err(_) => '-',
    }
}

/// Each prefix of the example is a configuration or a fault. Bytes that are no text are no TOML.
#[test]
fn prefixes(rt: HostRuntime) -> Result<(), Fail> {
    let (alloc, mut letters) = (rt.alloc(), String::new(rt.alloc()));
    for end in 0..=EXAMPLE.len() {
        let prefix = EXAMPLE.as_bytes().get(..end).ok_or("a prefix")?;
        letters.push(letter(alloc, prefix))?;
    }
    assert_eq!(rt; letters.as_str(), PREFIXES);
    assert_eq!(rt; letter(alloc, b"# \xFF\n"), 'S');
    Ok(())
}

/// The settings before a request. The dead-letter queue has the uid 7.
const BEFORE: &str =
    r#"DelaySeconds=7|VisibilityTimeout=8|MessageRetentionPeriod=90|ReceiveMessageWaitTimeSeconds=9|MaximumMessageSize=2048|RedrivePolicy={"deadLetterTargetArn":"arn:aws:sqs:::old","maxReceiveCount":9}"#;

/// A request: the uid that the name of a dead-letter queue stands for, and attributes one after the
/// other, with `|` between them. Before a `/` stands what was requested of the defaults before, in the
/// place of [`BEFORE`]. Behind the arrow: of each attribute `done` or the number of its refusal, the name
/// of the dead-letter queue that is asked for, whether the settings have all of it before, and what it
/// changes of them. Of two values of one name the second counts; one that is refused leaves the request
/// as it was. A policy that is of another uid is another one. The empty text clears the policy. Behind
/// `-` stands the uid of a queue that is gone then: a policy is cleared for its own dead-letter queue
/// alone.
const REQUESTS: &str = r#"7 => agrees
8 => agrees
7 DelaySeconds=5|DelaySeconds=7 => done done agrees
7 DelaySeconds=7|DelaySeconds=5 => done done delay_seconds=5
7 DelaySeconds=1|VisibilityTimeout=2|MessageRetentionPeriod=61|ReceiveMessageWaitTimeSeconds=3|MaximumMessageSize=1025|DelaySeconds=901|VisibilityTimeout=|MessageRetentionPeriod=59|ReceiveMessageWaitTimeSeconds=-1|MaximumMessageSize=five|visibilitytimeout=5|Policy=5 => done done done done done 4 4 4 4 4 3 done delay_seconds=1 visibility_timeout=2 retention_seconds=61 wait_seconds=3 maximum_message_size=1025
7 RedrivePolicy={"deadLetterTargetArn":"arn:aws:sqs:::dead","maxReceiveCount":3} => done for dead dead#7 after 3
7 RedrivePolicy=|RedrivePolicy={"deadLetterTargetArn":"arn:aws:sqs:::dead","maxReceiveCount":3} => done done for dead dead#7 after 3
7 RedrivePolicy={"deadLetterTargetArn":"arn:aws:sqs:::dead","maxReceiveCount":3}|RedrivePolicy= => done done for none no policy
7 RedrivePolicy={"deadLetterTargetArn":"arn:aws:sqs:::dead","maxReceiveCount":3}|RedrivePolicy={"deadLetterTargetArn":"arn:aws:sqs:::dead","maxReceiveCount":0} => done 4 for dead dead#7 after 3
7 RedrivePolicy={"deadLetterTargetArn":"arn:aws:sqs:::old","maxReceiveCount":9} => done for old agrees
8 RedrivePolicy={"deadLetterTargetArn":"arn:aws:sqs:::old","maxReceiveCount":9} => done for old old#8 after 9
5 - / - => agrees
7 - / RedrivePolicy={"deadLetterTargetArn":"arn:aws:sqs:elasticmq:000000000000:dead","maxReceiveCount":3} => done for dead dead#7 after 3
7 RedrivePolicy={"deadLetterTargetArn":"arn:aws:sqs:elasticmq:000000000000:dead","maxReceiveCount":3} / RedrivePolicy={"deadLetterTargetArn":"arn:aws:sqs:elasticmq:000000000000:dead","maxReceiveCount":3} => done for dead agrees
8 RedrivePolicy={"deadLetterTargetArn":"arn:aws:sqs:elasticmq:000000000000:dead","maxReceiveCount":3} / RedrivePolicy={"deadLetterTargetArn":"arn:aws:sqs:elasticmq:000000000000:dead","maxReceiveCount":3} => done for dead dead#8 after 3
8 RedrivePolicy={"deadLetterTargetArn":"arn:aws:sqs:elasticmq:000000000000:dead","maxReceiveCount":3} / - => agrees
7 - / RedrivePolicy= => done for none agrees
7 RedrivePolicy={"deadLetterTargetArn":"arn:aws:sqs:elasticmq:000000000000:dead","maxReceiveCount":3} / RedrivePolicy= => done for none no policy
7-8 - / RedrivePolicy={"deadLetterTargetArn":"arn:aws:sqs:elasticmq:000000000000:dead","maxReceiveCount":3} => done for dead dead#7 after 3
8-7 - / RedrivePolicy={"deadLetterTargetArn":"arn:aws:sqs:elasticmq:000000000000:dead","maxReceiveCount":3} => done for dead dead#8 after 3
7-7 - / RedrivePolicy={"deadLetterTargetArn":"arn:aws:sqs:elasticmq:000000000000:dead","maxReceiveCount":3} => done for dead
"#;

/// Requests the attributes of a text, and tells what they are answered.
fn put(alloc: Global, told: &mut String, text: &str) -> Result<Wish, Fail> {
    let mut wish = Wish::new();
    for attribute in text.split('|') {
        if let Some((name, value)) = attribute.split_once('=') {
            match wish.put(alloc, name, value) {
                Ok(()) => told.push_str(" done")?,
                Err(fault) => write!(told, " {}", fault.code())?,
            }
        }
    }
    Ok(wish)
}

/// What is told of a request.
fn told_request(alloc: Global, request: &str) -> Result<String, Fail> {
    let (uids, texts) = request.split_once(' ').unwrap_or((request, ""));
    let (before, text) = texts.split_once(" / ").unwrap_or((BEFORE, texts));
    let (target, gone) = uids.split_once('-').unwrap_or((uids, ""));
    let (target, gone) = (target.parse().unwrap_or(0), gone.parse().unwrap_or(0));
    let mut told = String::new(alloc);
    let before = Settings::default().with(&put(alloc, &mut told, before)?, 7);
    told.clear();
    let wish = put(alloc, &mut told, text)?;
    match wish.target() {
        Some(Some(name)) => write!(told, " for {}", name.as_text())?,
        Some(None) => told.push_str(" for none")?,
        None => {}
    }
    let settings = before.with(&wish, target);
    if before.agrees(&wish, target) {
        told.push_str(" agrees")?;
    }
    if !settings.agrees(&wish, target) {
        told.push_str(" differs afterwards")?;
    }
    tell_changes(&mut told, before, settings.without_target(gone))?;
    Ok(told)
}

/// Each line of [`REQUESTS`] is told as it says.
#[test]
fn requests(rt: HostRuntime) -> Result<(), Fail> {
    for line in REQUESTS.lines() {
        let (request, wanted) = line.split_once(" => ").ok_or("a request and an answer")?;
        let told = told_request(rt.alloc(), request)?;
        assert_eq!(rt; told.as_str().trim_start(), wanted, "{line}");
    }
    Ok(())
}

/// The names of the settings, the metrics and the operators, in the order in which they are documented.
const WORDS: &str =
    "DelaySeconds VisibilityTimeout MessageRetentionPeriod ReceiveMessageWaitTimeSeconds MaximumMessageSize NumberOfMessagesSent SentMessageSize NumberOfMessagesReceived NumberOfEmptyReceives NumberOfMessagesDeleted ApproximateNumberOfMessagesVisible ApproximateNumberOfMessagesDelayed ApproximateNumberOfMessagesNotVisible ApproximateAgeOfOldestMessage RefusedCalls DeadLettersArrived GreaterThanThreshold GreaterThanOrEqualToThreshold LessThanThreshold LessThanOrEqualToThreshold";

/// Texts of digits, each with how many there may be before it, and its number behind it: up to the
/// longest that are read, and one digit more.
const NUMBERS: &str = "19  => none
19 0 => 0
19 0000000000000000000 => 0
19 4611686018427387904 => 4611686018427387904
19 9999999999999999999 => 9999999999999999999
19 10000000000000000000 => none
19 999999999999999999\u{669} => none
19 +1 => none
19 -1 => none
1 9 => 9
1 10 => none
0 0 => none";

/// Each setting, metric and operator is that of its own name, and each number that of its digits.
#[test]
fn words(rt: HostRuntime) -> Result<(), Fail> {
    let mut words = String::new(rt.alloc());
    for setting in ALL_SETTINGS {
        let name = setting_row(setting).name;
        assert_eq!(rt; setting_named(name), Some(setting));
        write!(words, "{name} ")?;
    }
    for (name, metric) in METRICS {
        assert_eq!(rt; metric_named(name), Some(*metric));
        write!(words, "{metric:?} ")?;
    }
    for (name, operator) in OPERATORS {
        assert_eq!(rt; operator_named(name), Some(*operator));
        write!(words, "{operator:?} ")?;
    }
    assert_eq!(rt; words.as_str().trim_end(), WORDS);
    for line in NUMBERS.lines() {
        let (text, wanted) = line.split_once(" => ").ok_or("digits and a number")?;
        let (most, digits) = text.split_once(' ').ok_or("how many")?;
        let number = decimal_number(digits, most.parse().unwrap_or(0).min(19));
        assert_eq!(rt; number, wanted.parse().ok(), "{line}");
    }
    Ok(())
}

/// A limit, a dead-letter queue that comes later, and an alarm.
const CONFIGURATION: &str = r#"[limits]
in_flight = 2
[[queue]]
name = "a"
dead_letter_queue = "b"
max_receive_count = 3
[[queue]]
name = "b"
[[alarm]]
queue = "b"
name = "deep"
metric = "RefusedCalls"
operator = "GreaterThanThreshold"
threshold = 4
minutes = 3
"#;

/// What it is read as.
const READ: &str =
    "1000000 2; a b#2 after 3; b; deep of 2: RefusedCalls GreaterThanThreshold 4, 3 of 3";

/// An attribute that is requested twice.
const TWICE: &str =
    r#"RedrivePolicy={"deadLetterTargetArn":"arn:aws:sqs:::dead","maxReceiveCount":3}|RedrivePolicy={"deadLetterTargetArn":"arn:aws:sqs:::dead","maxReceiveCount":3}"#;

/// A call whose allocation is refused is `OutOfMemory`, changes nothing, and gives its value when it
/// is made again; its number is that of the refusals. The gate runs this with ample memory; `rt try
/// --test --fail-alloc N -- refused_memory` refuses the Nth allocation.
#[test]
fn refused_memory(rt: HostRuntime) -> Result<(), Fail> {
    let alloc = rt.alloc();
    let told = String::with_capacity(alloc, 200);
    let mut told = told.or_else(|_| String::with_capacity(alloc, 200))?;
    let read = config_from_text(alloc, CONFIGURATION);
    let config = read.or_else(|_| config_from_text(alloc, CONFIGURATION))?;
    let (limits, bytes) = (config.limits, CONFIGURATION.as_bytes());
    let alarms = config.alarms.as_slice();
    let rules = rules_of(alloc, alarms, 2);
    let rules = rules.or_else(|_| rules_of(alloc, alarms, 2))?;
    assert_eq!(rt; rules.as_slice().len(), 1);
    assert!(rt;
        rules.as_slice().iter().all(|rule| rule.threshold == 4),
        "the rule of b"
    );
    assert_eq!(rt; rules_of(alloc, alarms, 1)?.as_slice().len(), 0);
    tell(&mut told, Ok(config))?;
    assert_eq!(rt; told.as_str(), READ);
    let read = config_from_bytes(alloc, bytes);
    tell(&mut told, read.or_else(|_| config_from_bytes(alloc, bytes)))?;
    assert_eq!(rt; told.as_str(), READ);
    tell(&mut told, Ok(Config::with_limits(alloc, limits)))?;
    assert_eq!(rt; told.as_str(), "1000000 2");

    told.clear();
    let wish = put(alloc, &mut told, TWICE)?;
    let answers = [" done done", " 18 done", " done 18"];
    assert!(rt; answers.contains(&told.as_str()), "{told}");
    let target = wish.target().ok_or("a policy")?.ok_or("a name")?;
    assert_eq!(rt; target.as_text(), "dead");
    assert_eq!(rt; ConfigFault::OutOfMemory.code(), Fault::OutOfMemory.code());
    assert_eq!(rt; ConfigFault::OutOfMemory.name(), "OutOfMemory");
    Ok(())
}
