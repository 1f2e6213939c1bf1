//! The scripts: their first line opens a queue, each other one is a command and its moment in milliseconds.

use message::Fault;
use std::alloc::Global;

/// Delays and timeouts that run out at a millisecond, a policy by which messages leave, come back and are confirmed,
/// arrivals that come again, changes of the retention, purges, older handles, the in-flight limit, twelve hours,
/// three hours without an entry, a queue that is closed, and messages that wait in another order than that of their numbers, and expire there.
pub(super) const SCRIPTS: [&str; 7] = [
    r#"0 DelaySeconds 5
1000 send a
1000 send b 0
1500 send c 2
2000 receive 2 10
3499 receive 1 10
3500 receive 1 10
5999 look
6000 receive 10
6000 change 1.1 0
6000 change 0.1 1
6001 receive 10 0
6001 change 1.1 5
6002 delete 1.1
6002 delete 1.2
7001 delete 0.1
7001 delete 9.1
7001 change 2.2 1
61000 set DelaySeconds 0
61001 send d
121001 receive 10 43200
180000 purge
181000 send e
181000 receive 1 600
181500 change 4.1 43200
182000 change 4.1 43199
43380999 change 4.1 0
43381000 change 4.1 0
"#,
    r#"1000 RedrivePolicy {"deadLetterTargetArn":"arn:aws:sqs:elasticmq:000000000000:dead","maxReceiveCount":1}
1000 send a
1001 send b
1002 send c
2000 receive 1 1
3000 receive 10 30
3500 receive 10 1
4600 receive 10 1
4600 parcel
5000 settle 2
5001 settle 0
5001 settle 0
6000 send d 1
33000 receive 10 0
33000 receive 10 0
33001 purge
33001 parcel
34000 orphan 9
35000 orphan 1
35000 orphan 1
36000 receive 10 30
64999 set RedrivePolicy
66001 receive 10 30
120000 close
120000 receive 1 1
120000 orphan 1
120000 settle 1
"#,
    r#"59000 MessageRetentionPeriod 60
60000 arrive 1 59500
60000 arrive 1 59500
60001 send a
61000 receive 1 200
119499 look
119500 look
119501 arrive 1 119501
120000 set MessageRetentionPeriod 120
120002 send b 1
180000 set MessageRetentionPeriod 60
180001 look
180002 receive 10 1
190000 arrive 0 150000
190000 arrive 2 150000
190001 receive 1 60
230000 look
260000 delete 4.1
11000000 look
11000000 send c
"#,
    r#"0 VisibilityTimeout 7
1 send a
1 send b
2 send c
3 send d
4 send e
4 send f 0
10 receive 3
11 receive 3
12 receive 1 9
13 change 0.1 0
14 receive 10 0
15 receive 10 3
3014 look
3015 receive 2
7010 receive 10
7010 delete 1.1
7011 receive 10 2
9011 close
9012 send g
9012 close
"#,
    r#"1 DelaySeconds 0
60000 send a
120000 send b
180000 send c 900
240000 receive 1 30
300000 delete 0.1
360000 purge
420000 send d
421000 receive 1 0
422000 set RedrivePolicy {"deadLetterTargetArn":"arn:aws:sqs:elasticmq:000000000000:dead","maxReceiveCount":1}
423000 receive 1 0
424000 set MessageRetentionPeriod 60
480000 settle 3
481000 orphan 1
500000 look
"#,
    r#"0 RedrivePolicy {"deadLetterTargetArn":"arn:aws:sqs:elasticmq:000000000000:dead","maxReceiveCount":1}
0 send a
0 send b
0 receive 2 1
500 change 0.1 2
5000 receive 2 1
5000 parcel
6000 settle 7
6000 parcel
7000 set MessageRetentionPeriod 60
60000 set MessageRetentionPeriod 120
61000 settle 1
61000 parcel
62000 orphan 1
62000 look
"#,
    r#"0 DelaySeconds 0
0 send a
1000 receive 1 30
1001 change 0.1 43200
1002 change 0.1 43199
1003 change 0.1 43199
2000 change 0.1 43199
2001 change 0.1 43199
2002 delete 0.1
"#,
];

/// Numbers that follow one another without a pattern, by Knuth's linear congruential generator.
#[derive(Drop)]
struct Draws {
    state: u64,
}

impl Draws {
    /// The next one, below a bound.
    fn below(&mut self, bound: u64) -> u64 {
        self.state = self
            .state
            .wrapping_mul(6_364_136_223_846_793_005)
            .wrapping_add(1_442_695_040_888_963_407);
        (self.state >> 33).checked_rem(bound).unwrap_or(0)
    }
}

/// A command that is drawn. Its numbers are small, so that many name a message.
fn drawn_command(alloc: Global, draws: &mut Draws) -> Result<String, Fault> {
    let number = draws.below(30);
    let seconds = draws.below(8);
    let receipt = draws.below(2).saturating_add(1);
    Ok(match draws.below(20) {
        0..=3 => format!(in alloc; "send m{number} {seconds}")?,
        4 => format!(in alloc; "send m{number}")?,
        5..=9 => format!(in alloc; "receive {receipt} {seconds}")?,
        10 | 11 => format!(in alloc; "change {number}.{receipt} {seconds}")?,
        12 | 13 => format!(in alloc; "delete {number}.{receipt}")?,
        14 => format!(in alloc; "arrive {seconds} {number}")?,
        15 | 16 => format!(in alloc; "settle {number}")?,
        17 if seconds < 2 => format!(in alloc; "orphan 1")?,
        17 if seconds < 3 => format!(in alloc; "purge")?,
        18 => format!(in alloc; "set MessageRetentionPeriod {}", seconds.saturating_add(60))?,
        19 => format!(in alloc;
            r#"set RedrivePolicy {{"deadLetterTargetArn":"arn:aws:sqs:elasticmq:000000000000:dead","maxReceiveCount":{receipt}}}"#
        )?,
        _ => format!(in alloc; "look")?,
    })
}

/// A script of so many commands that are drawn from a number on, at most two seconds from one to the next.
pub(super) fn drawn(alloc: Global, from: u64, count: u64) -> Result<String, Fault> {
    let mut draws = Draws { state: from };
    let mut text = String::new(alloc);
    text.push_str("0 MessageRetentionPeriod 60")?;
    let mut at: u64 = 0;
    for _ in 0..count {
        at = at.saturating_add(draws.below(2_001));
        let command = drawn_command(alloc, &mut draws)?;
        write!(text, "\n{at} {command}")?;
    }
    Ok(text)
}
