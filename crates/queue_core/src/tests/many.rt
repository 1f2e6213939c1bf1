//! Many minutes and many messages: what takes too long where a call goes through all that was there before.

use super::talk::{Talk, known_moment, step};
use super::*;

/// Rows and states of the alarm where minutes pass at once: 179 of them and then one more twice, 180, 181, so
/// many that the first have no row any more, and the most that a clock can be moved by a test. The alarm is on where a message was
/// visible in two of the last three minutes; a message that ran out at the end of the minute 298 is in its row
/// no more than in the next.
const MINUTES: &str = r#"open 9 0 DelaySeconds 0
0 send 1 a => Sent(Posted { number: 0, id: MessageId { uid: 2, number: 0 } })
advance 10799999
span => ((0, 179), 179)
minute 0 => Some(Row { minute: 0, flows: Flows { sent: 1, sent_size: 1, received: 0, empty_receives: 0, deleted: 0, refused: 0, dead_letters_arrived: 0 }, gauges: Gauges { visible: 1, delayed: 0, in_flight: 0, age: 59 } })
advance 10800000
span => ((0, 180), 180)
minute 0 => Some(Row { minute: 0, flows: Flows { sent: 1, sent_size: 1, received: 0, empty_receives: 0, deleted: 0, refused: 0, dead_letters_arrived: 0 }, gauges: Gauges { visible: 1, delayed: 0, in_flight: 0, age: 59 } })
minute 179 => Some(Row { minute: 179, flows: Flows { sent: 0, sent_size: 0, received: 0, empty_receives: 0, deleted: 0, refused: 0, dead_letters_arrived: 0 }, gauges: Gauges { visible: 1, delayed: 0, in_flight: 0, age: 10799 } })
minute 180 => None
advance 10860000
span => ((1, 181), 180)
minute 0 => None
minute 180 => Some(Row { minute: 180, flows: Flows { sent: 0, sent_size: 0, received: 0, empty_receives: 0, deleted: 0, refused: 0, dead_letters_arrived: 0 }, gauges: Gauges { visible: 1, delayed: 0, in_flight: 0, age: 10859 } })
open 9 0 DelaySeconds 0
0 send 1 a => Sent(Posted { number: 0, id: MessageId { uid: 2, number: 0 } })
advance 10800000
span => ((0, 180), 180)
minute 0 => Some(Row { minute: 0, flows: Flows { sent: 1, sent_size: 1, received: 0, empty_receives: 0, deleted: 0, refused: 0, dead_letters_arrived: 0 }, gauges: Gauges { visible: 1, delayed: 0, in_flight: 0, age: 59 } })
state 0 => (Some(Alarm), [Alarm])
open 9 0 DelaySeconds 0
0 send 1 a => Sent(Posted { number: 0, id: MessageId { uid: 2, number: 0 } })
advance 10860000
span => ((1, 181), 180)
minute 0 => None
minute 1 => Some(Row { minute: 1, flows: Flows { sent: 0, sent_size: 0, received: 0, empty_receives: 0, deleted: 0, refused: 0, dead_letters_arrived: 0 }, gauges: Gauges { visible: 1, delayed: 0, in_flight: 0, age: 119 } })
open 9 0 DelaySeconds 0
0 send 1 a => Sent(Posted { number: 0, id: MessageId { uid: 2, number: 0 } })
advance 18000000
span => ((120, 300), 180)
minute 119 => None
minute 120 => Some(Row { minute: 120, flows: Flows { sent: 0, sent_size: 0, received: 0, empty_receives: 0, deleted: 0, refused: 0, dead_letters_arrived: 0 }, gauges: Gauges { visible: 1, delayed: 0, in_flight: 0, age: 7259 } })
minute 299 => Some(Row { minute: 299, flows: Flows { sent: 0, sent_size: 0, received: 0, empty_receives: 0, deleted: 0, refused: 0, dead_letters_arrived: 0 }, gauges: Gauges { visible: 1, delayed: 0, in_flight: 0, age: 17999 } })
minute 300 => None
now => (Gauges { visible: 1, delayed: 0, in_flight: 0, age: 18000 }, Flows { sent: 0, sent_size: 0, received: 0, empty_receives: 0, deleted: 0, refused: 0, dead_letters_arrived: 0 })
state 0 => (Some(Alarm), [Alarm])
open 9 0 MessageRetentionPeriod 17940
0 send 1 a => Sent(Posted { number: 0, id: MessageId { uid: 2, number: 0 } })
advance 18000000
minute 298 => Some(Row { minute: 298, flows: Flows { sent: 0, sent_size: 0, received: 0, empty_receives: 0, deleted: 0, refused: 0, dead_letters_arrived: 0 }, gauges: Gauges { visible: 1, delayed: 0, in_flight: 0, age: 17939 } })
minute 299 => Some(Row { minute: 299, flows: Flows { sent: 0, sent_size: 0, received: 0, empty_receives: 0, deleted: 0, refused: 0, dead_letters_arrived: 0 }, gauges: Gauges { visible: 0, delayed: 0, in_flight: 0, age: 0 } })
state 0 => (Some(Alarm), [Alarm])
advance 18060000
state 0 => (Some(Okay), [Okay])
open 9 0 DelaySeconds 0
0 send 1 a => Sent(Posted { number: 0, id: MessageId { uid: 2, number: 0 } })
advance 2305843009213693952
span => ((38430716820048, 38430716820228), 180)
zeros => 180
minute 0 => None
minute 38430716820228 => None
minute 38430716820047 => None
minute 38430716820048 => Some(Row { minute: 38430716820048, flows: Flows { sent: 0, sent_size: 0, received: 0, empty_receives: 0, deleted: 0, refused: 0, dead_letters_arrived: 0 }, gauges: Gauges { visible: 0, delayed: 0, in_flight: 0, age: 0 } })
state 0 => (Some(Okay), [Okay])
"#;

/// Each row is of what stood in the queue at that minute's own last millisecond, however many pass at once.
#[test]
fn many_minutes(rt: HostRuntime) -> Result<(), Fail> {
    let mut talk = Talk::new(&rt)?;
    talk.hold(&rt, MINUTES)?;
    talk.end()
}

impl Talk {
    /// Performs a step, whatever it answers but a refusal.
    fn do_step(&mut self, step: &TimedCommand) -> Result<(), Fault> {
        self.queue
            .perform(self.alloc, step.at, &step.command, &mut self.ticks)?;
        Ok(())
    }

    /// Performs a step so many times.
    fn repeat(&mut self, step: &TimedCommand, count: u32) -> Result<(), Fault> {
        for _ in 0..count {
            self.do_step(step)?;
        }
        Ok(())
    }

    /// Sends so many messages at the time 0.
    fn send_many(&mut self, count: u32) -> Result<(), Fault> {
        let send = step(self.alloc, "0 send 1 a")?;
        self.repeat(&send, count)
    }

    /// Receives a message at a time, and deletes it.
    fn take_one(&mut self, at: Moment) -> Result<(), Fault> {
        let offers = self
            .queue
            .receive(self.alloc, at, 1, None, &mut self.ticks)?;
        for offer in offers.as_slice() {
            let handle = Handle {
                uid: 2,
                number: offer.number,
                receipt: offer.receipt,
            };
            self.queue.delete(self.alloc, at, handle, &mut self.ticks)?;
        }
        Ok(())
    }

    /// Performs each of these steps so many times, and gives how many operations that counted.
    fn repeat_each(&mut self, steps: &str, count: u32) -> Result<u64, Fault> {
        let before = self.ticks.count();
        for text in steps.lines() {
            let step = step(self.alloc, text)?;
            self.repeat(&step, count)?;
        }
        Ok(self.ticks.count().saturating_sub(before))
    }

    /// Receives so many messages at the time 1, one by one, and deletes each.
    fn take_many(&mut self, count: u32) -> Result<(), Fault> {
        let at = known_moment("1")?;
        for _ in 0..count {
            self.take_one(at)?;
        }
        Ok(())
    }
}

/// What is asked a hundred times each where 40,000 messages are there, of which the first was received.
const OTHERS: &str = "1 look
1 change 0.1 30
1 set DelaySeconds 0
1 arrive 0
1 settle 0
1 orphan 1
1 parcel
1 delete 0.1";

/// What 900 calls may count at 40,000 messages, each of which touches one at most: 24 times 17 times 2.
const MOST_OF_OTHERS: u64 = 734_400;

/// 40,000 messages are sent, and 10,000 of them are received and deleted. A body that goes through the
/// entries of the journal at each call reads over 10^9 of them. In between each other command comes a
/// hundred times, but for purges, which come behind the one that removes what is left. A body that goes through
/// 40,000 of what is counted in one of them alone counts 4,000,000.
#[test]
fn many_messages(rt: HostRuntime) -> Result<(), Fail> {
    let mut talk = Talk::new(&rt)?;
    talk.hold(&rt, "open 16777216 0 DelaySeconds 0")?;
    talk.send_many(40_000)?;
    talk.repeat_each("1 receive 1 30", 1)?;
    let others = talk.repeat_each(OTHERS, 100)?;
    talk.take_many(10_000)?;
    talk.hold(&rt, TAKEN)?;
    talk.repeat_each("1 purge", 1)?;
    let purges = talk.repeat_each("1 purge", 100)?;
    if others.saturating_add(purges) <= MOST_OF_OTHERS {
        return Ok(());
    }
    Err(Fail::new(format_args!("{others} and {purges} operations")))
}

const TAKEN: &str =
    "1 look => (Gauges { visible: 30000, delayed: 0, in_flight: 0, age: 0 }, 60403, 1, (0, 1), None, false)";

/// 10,000 messages are sent, received and deleted, one after another, in a journal of at most 1,000 entries, which begins anew
/// thirty times. A checkpoint that goes through all messages there ever were for each of them does not come to its end.
#[test]
fn many_checkpoints(rt: HostRuntime) -> Result<(), Fail> {
    let mut talk = Talk::new(&rt)?;
    talk.hold(&rt, "open 1000 0 DelaySeconds 0")?;
    for _ in 0..10_000 {
        talk.send_many(1)?;
        talk.take_many(1)?;
    }
    talk.hold(&rt, CYCLED)?;
    Ok(())
}

/// The last checkpoint came with the command 29,971, a send, and stood for no message: behind it and that send 29 commands came.
const CYCLED: &str =
    "1 look => (Gauges { visible: 0, delayed: 0, in_flight: 0, age: 0 }, 31, 1, (0, 0), None, false)
messages => 10000";
