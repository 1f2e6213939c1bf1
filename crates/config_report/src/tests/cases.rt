//! Configurations that are refused, and what is told of each.

/// A configuration, and behind the arrow the fault that it is refused for and the line that is told. The
/// lines were worked out by hand from docs/PROFILE.md, sections 3 and 19. `¿` stands for a byte 0xFF, `¶`
/// for a carriage return, and `¤` for a byte order mark. A line that begins with a number and `times`
/// stands for as many lines, each with its own number, from 0, in the place of `#`.
pub(super) const CASES: &str = r##"[[queue]]
name = "jobs"
delay_seconds = 901
=> OutOfRange example.toml:3: [[queue]] "jobs": delay_seconds = 901 is not in 0 to 900
# The queues of a shop.
[limits]
in_flight = 2

[[queue]]
name = "dead"

[[queue]]
name = "jobs" # what is to be done
retention_seconds = 59
=> OutOfRange example.toml:10: [[queue]] "jobs": retention_seconds = 59 is not in 60 to 1209600
[[queue]]
visibility_timeout = 43_201
name = "jobs"
=> OutOfRange example.toml:2: [[queue]] "jobs": visibility_timeout = 43201 is not in 0 to 43200
[[queue]]
name = "jobs"
wait_seconds = -1
=> OutOfRange example.toml:3: [[queue]] "jobs": wait_seconds = -1 is not in 0 to 20
[[queue]]
name = "jobs"
maximum_message_size = 0x3FF
=> OutOfRange example.toml:3: [[queue]] "jobs": maximum_message_size = 1023 is not in 1024 to 1048576
[[queue]]
name = "jobs"
dead_letter_queue = "dead"
max_receive_count = 1001
[[queue]]
name = "dead"
=> OutOfRange example.toml:4: [[queue]] "jobs": max_receive_count = 1001 is not in 1 to 1000
[limits]
max_lines = 0
in_flight = 0
=> OutOfRange example.toml:3: [limits]: in_flight = 0 is not in 1 to 120000
limits = {in_flight = 1, max_lines = 16777217}
=> OutOfRange example.toml:1: [limits]: max_lines = 16777217 is not in 1 to 16777216
limits.in_flight = 120001
=> OutOfRange example.toml:1: [limits]: in_flight = 120001 is not in 1 to 120000
[[queue]]
name = "a b"
=> OutOfRange example.toml:2: [[queue]] "a b": name = "a b" is no name of 1 to 80 letters, digits, - and _
[[queue]]
name = "jobs"
[[queue]]
name = ""
=> OutOfRange example.toml:4: [[queue]] "": name = "" is no name of 1 to 80 letters, digits, - and _
[[queue]]
name = "jobs"
dead_letter_queue = "dead.fifo"
max_receive_count = 3
=> OutOfRange example.toml:3: [[queue]] "jobs": dead_letter_queue = "dead.fifo" is no name of 1 to 80 letters, digits, - and _; there are no FIFO queues
queue = [
1001 times {name = "q#"},
]
=> OutOfRange example.toml:1002: [[queue]] "q1000": there are more than 1000 queues
[[queue]]
name = "jobs"
[[queue]]
name = "jobs"
wait_seconds = 21
=> OutOfRange example.toml:5: [[queue]] "jobs": wait_seconds = 21 is not in 0 to 20
[[queue]]
name = "jobs"
visibilty_timeout = 5
=> UnknownKey example.toml:3: [[queue]] "jobs": unknown key visibilty_timeout: did you mean visibility_timeout?
[[queue]]
name = "dead"
[[queue]]
name = "jobs"
Delay_Seconds = 5
=> UnknownKey example.toml:5: [[queue]] "jobs": unknown key Delay_Seconds: did you mean delay_seconds?
[[queue]]
name = "jobs"
MessageRetentionPeriod = 60
=> UnknownKey example.toml:3: [[queue]] "jobs": unknown key MessageRetentionPeriod: did you mean retention_seconds?
[[queue]]
name = "jobs"
colour = "red"
=> UnknownKey example.toml:3: [[queue]] "jobs": unknown key colour
[[queue]]
nmae = "jobs"
=> UnknownKey example.toml:2: [[queue]] number 1: unknown key nmae: did you mean name?
[[queue]]
name = "jobs"
max_lines = 5
=> UnknownKey example.toml:3: [[queue]] "jobs": unknown key max_lines
[[queue]]
name = "dead"
[[queue]]
name = "jobs"
[queue.policy]
max_receive_count = 3
=> UnknownKey example.toml:5: [[queue]] "jobs": unknown key policy
[limits]
in_fligth = 5
=> UnknownKey example.toml:2: [limits]: unknown key in_fligth: did you mean in_flight?
[[queue]]
name = 5

[limit]
in_flight = 5
=> UnknownKey example.toml:4: unknown key limit: did you mean limits?
[[queues]]
name = "jobs"
=> UnknownKey example.toml:1: unknown key queues: did you mean queue?
zebra = 1
apple.pie = 2
=> UnknownKey example.toml:2: unknown key apple
"a \"b\"\u0007" = 1
=> UnknownKey example.toml:1: unknown key "a \"b\"\u{7}"
[[queue]]
name = "jobs"
"\u001B[2J\u009B\u007F\ncolour" = "red"
=> UnknownKey example.toml:3: [[queue]] "jobs": unknown key "\u{1b}[2J\u{9b}\u{7f}\ncolour"
ä = 1
=> Syntax example.toml:1: column 1: invalid key, expected letters, numbers, `-`, `_` or a quoted key
[[queue]]
name = "jobs"
delay_seconds = "5"
=> WrongKind example.toml:3: [[queue]] "jobs": delay_seconds = "5" is a string, and a whole number from 0 to 900 is wanted
[[queue]]
name = "dead"
[[queue]]
name = "jobs"
wait_seconds = 1.5
=> WrongKind example.toml:5: [[queue]] "jobs": wait_seconds = 1.5 is a float, and a whole number from 0 to 20 is wanted
[[queue]]
name = "jobs"
max_receive_count = true
=> WrongKind example.toml:3: [[queue]] "jobs": max_receive_count = true is a boolean, and a whole number from 1 to 1000 is wanted
[[queue]]
name = 2026-11-27
=> WrongKind example.toml:2: [[queue]] number 1: name = 2026-11-27 is a date or time, and a string is wanted
[[queue]]
name = "jobs"
delay_seconds = [1, 2]
=> WrongKind example.toml:3: [[queue]] "jobs": delay_seconds is an array, and a whole number from 0 to 900 is wanted
[[queue]]
name = "jobs"
delay_seconds.minutes = 5
=> WrongKind example.toml:3: [[queue]] "jobs": delay_seconds is a table, and a whole number from 0 to 900 is wanted
[[queue]]
name = "dead"
[[queue]]
name = "jobs"
dead_letter_queue = 7
max_receive_count = 3
=> WrongKind example.toml:5: [[queue]] "jobs": dead_letter_queue = 7 is a whole number, and a string is wanted
[queue]
name = "jobs"
=> WrongKind example.toml:1: queue is a table, and an array of tables ([[queue]]) is wanted
alarm = 5
=> WrongKind example.toml:1: alarm = 5 is a whole number, and an array of tables ([[alarm]]) is wanted
[[limits]]
in_flight = 5
=> WrongKind example.toml:1: limits is an array, and a table ([limits]) is wanted
queue = [{name = "jobs"},
    5]
=> WrongKind example.toml:2: [[queue]] number 2: 5 is a whole number, and a table is wanted
alarm = [[1], [2]]
=> WrongKind example.toml:1: [[alarm]] number 1: it is an array, and a table is wanted
[[queue]]
delay_seconds = 5
=> WrongKind example.toml:1: [[queue]] number 1: name is missing
[[queue]]
name = "jobs"

[[queue]]
delay_seconds = 5
=> WrongKind example.toml:4: [[queue]] number 2: name is missing
[[queue]]
name = "jobs"
dead_letter_queue = "dead"
[[queue]]
name = "dead"
=> WrongKind example.toml:3: [[queue]] "jobs": dead_letter_queue stands without max_receive_count
[[queue]]
name = "dead"
[[queue]]
max_receive_count = 3
name = "jobs"
=> WrongKind example.toml:4: [[queue]] "jobs": max_receive_count stands without dead_letter_queue
[[queue]]
name = "jobs"

[[queue]]
name = "dead"

[[queue]]
name = "jobs"
=> NameTwice example.toml:8: [[queue]] "jobs": another queue has this name, in line 2
queue = [{name = "a"}, {name = "b"},
    {delay_seconds = 1, name = "b"}, {name = "a"}]
=> NameTwice example.toml:2: [[queue]] "b": another queue has this name, in line 1
[[queue]]
name = "jobs"
dead_letter_queue = "ded"
max_receive_count = 3

[[queue]]
name = "dead"
=> NoSuchTarget example.toml:3: [[queue]] "jobs": dead_letter_queue = "ded" is not in the file: did you mean dead?
[[queue]]
name = "dead"
[[queue]]
name = "jobs"
max_receive_count = 3
dead_letter_queue = "elsewhere"
=> NoSuchTarget example.toml:6: [[queue]] "jobs": dead_letter_queue = "elsewhere" is not in the file
[[queue]]
name = "jobs"
dead_letter_queue = "jobs"
max_receive_count = 3
=> NoSuchTarget example.toml:3: [[queue]] "jobs": dead_letter_queue = "jobs" is the queue itself
[[queue]]
name = "jobs"
[[alarm]]
queue = "jobs"
name = "deep"
metric = "refused_calls"
operator = "GreaterThanThreshold"
threshold = 100
minutes = 3
=> OutOfRange example.toml:6: [[alarm]] "deep": metric = "refused_calls" is no metric: did you mean RefusedCalls?
[[queue]]
name = "jobs"
[[alarm]]
queue = "jobs"
name = "deep"
metric = "RefusedCalls"
operator = "GreaterThanThreshold"
threshold = 100
minutes = 3
[[alarm]]
queue = "jobs"
name = "deeper"
metric = "RefusedCalls"
operator = ">"
threshold = 100
minutes = 3
=> OutOfRange example.toml:14: [[alarm]] "deeper": operator = ">" is no operator; known are GreaterThanThreshold, GreaterThanOrEqualToThreshold, LessThanThreshold, LessThanOrEqualToThreshold
[[alarm]]
metric = "Foo"
=> OutOfRange example.toml:2: [[alarm]] number 1: metric = "Foo" is no metric; known are NumberOfMessagesSent, SentMessageSize, NumberOfMessagesReceived, NumberOfEmptyReceives, NumberOfMessagesDeleted, ApproximateNumberOfMessagesVisible, ApproximateNumberOfMessagesDelayed, ApproximateNumberOfMessagesNotVisible, ApproximateAgeOfOldestMessage, RefusedCalls, DeadLettersArrived
[[alarm]]
queue = "all jobs"
name = "deep"
=> OutOfRange example.toml:2: [[alarm]] "deep": queue = "all jobs" is no name of 1 to 80 letters, digits, - and _
[[alarm]]
queue = "jobs"
name = "deep"
threshold = -1
=> OutOfRange example.toml:4: [[alarm]] "deep": threshold = -1 is not in 0 to 9223372036854775807
[[alarm]]
queue = "jobs"
name = "deep"
threshold = 9223372036854775808
=> Syntax example.toml:4: column 13: number out of range
[[alarm]]
queue = "jobs"
name = "deep"
minutes = 181
=> OutOfRange example.toml:4: [[alarm]] "deep": minutes = 181 is not in 1 to 180
[[queue]]
name = "jobs"
[[alarm]]
queue = "jobs"
name = "deep"
metric = "RefusedCalls"
operator = "GreaterThanThreshold"
threshold = 100
minutes = 3
breaches = 4
=> OutOfRange example.toml:10: [[alarm]] "deep": breaches = 4 is more than minutes = 3
[[alarm]]
queue = "jobs"
name = "deep"
breaches = 0
=> OutOfRange example.toml:4: [[alarm]] "deep": breaches = 0 is not in 1 to 180
alarm = [
16 times {queue = "jobs", name = "x#", metric = "RefusedCalls", operator = "LessThanThreshold", threshold = 0, minutes = 2},
{queue = "other", name = "x0", metric = "RefusedCalls", operator = "LessThanThreshold", threshold = 0, minutes = 2},
{queue = "jobs", name = "x0", metric = "RefusedCalls", operator = "LessThanThreshold", threshold = 0, minutes = 2},
]
=> OutOfRange example.toml:19: [[alarm]] "x0": there are more than 16 alarms of "jobs"
[[queue]]
name = "jobs"
[[alarm]]
queue = "jobs"
name = "deep"
thresold = 1
=> UnknownKey example.toml:6: [[alarm]] "deep": unknown key thresold: did you mean threshold?
[[queue]]
name = "jobs"
[[alarm]]
queue = "jobs"
name = "deep"
metric = "RefusedCalls"
operator = "GreaterThanThreshold"
threshold = 100
minutes = 3
[[alarm]]
delay_seconds = 5
=> UnknownKey example.toml:11: [[alarm]] number 2: unknown key delay_seconds
[[alarm]]
queue = "jobs"
name = "deep"
metric = 5
=> WrongKind example.toml:4: [[alarm]] "deep": metric = 5 is a whole number, and a string is wanted
[[alarm]]
queue = "jobs"
name = "deep"
threshold = "many"
=> WrongKind example.toml:4: [[alarm]] "deep": threshold = "many" is a string, and a whole number from 0 to 9223372036854775807 is wanted
[[alarm]]
queue = "jobs"
name = "deep"
operator = "GreaterThanThreshold"
threshold = 100
minutes = 3
=> WrongKind example.toml:1: [[alarm]] "deep": metric is missing
[[queue]]
name = "jobs"
[[alarm]]
queue = "jobs"
name = "deep"
metric = "RefusedCalls"
operator = "GreaterThanThreshold"
threshold = 100
minutes = 3

[[alarm]]
name = "deeper"
=> WrongKind example.toml:11: [[alarm]] "deeper": queue is missing
[[queue]]
name = "jobs"
[[alarm]]
queue = "jobs"
name = "deep"
metric = "RefusedCalls"
operator = "GreaterThanThreshold"
threshold = 100
minutes = 3

[[alarm]]
queue = "jobs"
name = "deep"
metric = "SentMessageSize"
operator = "LessThanThreshold"
threshold = 1
minutes = 1
=> NameTwice example.toml:13: [[alarm]] "deep": another alarm of "jobs" has this name, in line 5
[[queue]]
name = "jobs"
[[alarm]]
queue = "job"
name = "deep"
metric = "RefusedCalls"
operator = "GreaterThanThreshold"
threshold = 100
minutes = 3
=> NoSuchTarget example.toml:4: [[alarm]] "deep": queue = "job" is not in the file: did you mean jobs?
[[alarm]]
queue = "jobs"
name = "deep"
metric = "RefusedCalls"
operator = "GreaterThanThreshold"
threshold = 100
minutes = 3
[[alarm]]
queue = "mail"
name = "deep"
metric = "RefusedCalls"
operator = "GreaterThanThreshold"
threshold = 100
minutes = 3
[[queue]]
name = "jobs"
=> NoSuchTarget example.toml:9: [[alarm]] "deep": queue = "mail" is not in the file
[[queue]]
name = "jobs"
dead_letter_queue = "dead"
max_receive_count = 3
zzz = 5
aaa = 5
=> UnknownKey example.toml:6: [[queue]] "jobs": unknown key aaa
[[queue]]
name = "dead"
[[queue]]
name = "jobs"
dead_letter_queue = "ded"
max_receive_count = 3
[[queue]]
name = "jobs"
=> NameTwice example.toml:8: [[queue]] "jobs": another queue has this name, in line 4
[[alarm]]
zzz = 5
[[queue]]
name = "jobs"
wait_seconds = 21
[limits]
in_flight = "2"
=> WrongKind example.toml:7: [limits]: in_flight = "2" is a string, and a whole number from 1 to 120000 is wanted
[[queue]]
name = "jobs"
delay_seconds = 5
delay_seconds = 6
=> Syntax example.toml:4: column 1: duplicate key
[[queue]
name = "jobs"
=> Syntax example.toml:1: column 9: unclosed array table, expected `]]`
[[queue]]
name = "jobs"
delay_seconds 5
=> Syntax example.toml:3: column 15: key with no value, expected `=`
[[queue]]
name = "jobs
delay_seconds = 5
=> Syntax example.toml:2: column 13: invalid string
[[queue]]
name = jobs
=> Syntax example.toml:2: column 8: invalid value, expected a string, number, boolean, date-time, array or inline table
# Größe
[[queue]] # für ¿
=> Syntax example.toml:2: column 17: the byte 0xff is no UTF-8
¿=> Syntax example.toml:1: column 1: the byte 0xff is no UTF-8
¤[[queue]]¶
name = "jobs"¶
¶
[[queue]]¶
name = "mail"¶
delay_seconds = 1000¶
=> OutOfRange example.toml:6: [[queue]] "mail": delay_seconds = 1000 is not in 0 to 900
queue = [ # [[[ ", the queues
    {name = "a", delay_seconds = 0},
    # {name = "b"},
    {
        name = 'b', wait_seconds = 20,
        delay_seconds = 901,
    },
]
=> OutOfRange example.toml:6: [[queue]] "b": delay_seconds = 901 is not in 0 to 900
alarm = [{queue = """
[[queue]]
name = 'jobs'
""", name = "x"}]
queue = [{name = '''
]}''', delay_seconds = 5}]
=> OutOfRange example.toml:5: [[queue]] "]}": name = "]}" is no name of 1 to 80 letters, digits, - and _
[["queue"]]
'name' = "jobs"
"delay_seconds" = 901
=> OutOfRange example.toml:3: [[queue]] "jobs": delay_seconds = 901 is not in 0 to 900
[[queue]]
name = "one\u0000\u001b[31m\ntwo\u009b\u202e"
=> OutOfRange example.toml:2: [[queue]] "one\0\u{1b}[31m\ntwo\u{9b}\u{202e}": name = "one\0\u{1b}[31m\ntwo\u{9b}\u{202e}" is no name of 1 to 80 letters, digits, - and _
[[queue]]
name = "nnnnnnnnnnnnnnnnnnnnnnnnnnnnnnnnnnnnnnnnnnnnnnnnnnnnnnnnnnnnnnnnnnnnnnnnnnnnnnnnn"
=> OutOfRange example.toml:2: [[queue]] "nnnnnnnnnnnnnnnnnnnnnnnnnnnnnnnnnnnnnnnnnnnnnnnnnnnnnnnnnnnnnnnnnnnnnnnnnnnnnnnn"..: name = "nnnnnnnnnnnnnnnnnnnnnnnnnnnnnnnnnnnnnnnnnnnnnnnnnnnnnnnnnnnnnnnnnnnnnnnnnnnnnnnn".. is no name of 1 to 80 letters, digits, - and _
nnnnnnnnnnnnnnnnnnnnnnnnnnnnnnnnnnnnnnnnnnnnnnnnnnnnnnnnnnnnnnnnnnnnnnnnnnnnnnnnn = 1
=> UnknownKey example.toml:1: unknown key nnnnnnnnnnnnnnnnnnnnnnnnnnnnnnnnnnnnnnnnnnnnnnnnnnnnnnnnnnnnnnnnnnnnnnnnnnnnnnnn..
[[queue]]
name = "nnnnnnnnnnnnnnnnnnnnnnnnnnnnnnnnnnnnnnnnnnnnnnnnnnnnnnnnnnnnnnnnnnnnnnnnnnnnnnnn"
dead_letter_queue = "mmmmmmmmmmmmmmmmmmmmmmmmmmmmmmmmmmmmmmmmmmmmmmmmmmmmmmmmmmmmmmmmmmmmmmmmmmmmmmmn"
max_receive_count = 3
[[queue]]
name = "mmmmmmmmmmmmmmmmmmmmmmmmmmmmmmmmmmmmmmmmmmmmmmmmmmmmmmmmmmmmmmmmmmmmmmmmmmmmmmmm"
=> NoSuchTarget example.toml:3: [[queue]] "nnnnnnnnnnnnnnnnnnnnnnnnnnnnnnnnnnnnnnnnnnnnnnnnnnnnnnnnnnnnnnnnnnnnnnnnnnnnnnnn": dead_letter_queue = "mmmmmmmmmmmmmmmmmmmmmmmmmmmmmmmmmmmmmmmmmmmmmmmmmmmmmmmmmmmmmmmmmmmmmmmmmmmmmmmn" is not in the file: did you mean mmmmmmmmmmmmmmmmmmmmmmm..?
"##;
