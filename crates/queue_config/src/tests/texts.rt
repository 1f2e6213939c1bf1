//! Configurations. Each line has a text, in which `|` ends a line, and what it is read as behind an
//! arrow: the number and the name of its first fault, or the limits, each queue with the settings that
//! are not the default, and each alarm with its queue's uid. `<A;B>` makes two texts of it, one with A
//! in that place and one with B. `(16 TEXT)` is TEXT 16 times, with the numbers from 0 in the place of
//! `#`, also behind the arrow. In the table of an alarm `..` stands for the keys of
//! [`USUAL`](super::USUAL) that the table does not have. A line that begins with `//` says what those
//! behind it show. What each text is read as was computed with another reader of TOML, from the ranges
//! and the order of the faults in docs/PROFILE.md.

/// What each configuration is read as.
pub(super) const TEXTS: &str = r#"// Texts with one fault or none.
 => 1000000 120000
queue = [] => 1000000 120000
[limits]|in_flight = 2||[[queue]]|name = "dead"||[[queue]]|name = "jobs"|visibility_timeout = 1 => 1000000 2; dead; jobs visibility_timeout=1
limits.max_lines = 16777216|queue = [{name = "a"}, {wait_seconds = 20, name = "b", delay_seconds = 900}] => 16777216 120000; a; b delay_seconds=900 wait_seconds=20
[[queue]]|name = "Q_-9"|retention_seconds = 60|visibility_timeout = 43200|maximum_message_size = 1024 => 1000000 120000; Q_-9 visibility_timeout=43200 retention_seconds=60 maximum_message_size=1024
<a =;limits = 1|limits = 2;[limits]|in_flight = 9223372036854775808> => 1 Syntax
<x = 1;limits = 1|zzz = 1;[[alarms]];[limits]|max_lines = 0|lines = 1;[[queue]]|name = "a"|[[queue]]|name = "a"|[[queue]]|nom = "a"> => 2 UnknownKey
<limits = 1;[[limits]];[queue]|name = "a";[[queue]];[[queue]]|delay_seconds = 5;[[queue]]|name = 5> => 3 WrongKind
queue = <1;[1]> => 3 WrongKind
[limits]|in_flight = <"2";2.0> => 3 WrongKind
[limits]|in_flight = <0;120001> => 4 OutOfRange
[limits]|max_lines = <0;16777217;-1> => 4 OutOfRange
<[limits]|max_lines = 0|more = 1;[[queue]]|delay_seconds = 901;[[queue]]|name = "a"|visibility_timeout = 43201;[[queue]]|name = "a"|retention_seconds = 59> => 4 OutOfRange
[[queue]]|name = <"a b";""> => 4 OutOfRange
<[[queue]]|name = "a"|wait_seconds = 21;[[queue]]|name = "a"|maximum_message_size = 1048577;[limits]|in_flight = 0|[[queue]]|nom = "a"> => 4 OutOfRange
[[queue]]|name = "a"|[[queue]]|name = "A"|[[queue]]|name = "a" => 5 NameTwice
// Forms of TOML: inline tables, dotted and quoted keys, numbers and values of every kind.
queue = [] => 1000000 120000
<queue = {};limits = [];queue = [[]];queue = [{}];limits.in_flight.x = 1;[limits.in_flight];[[queue]]|name.x = "a";[limits]|max_lines = 1.5> => 3 WrongKind
limits = {} => 1000000 120000
queue = [{name = "a", wait_seconds = 0x14}] => 1000000 120000; a wait_seconds=20
limits.in_flight = 1_000|limits.max_lines = 1 => 1 1000
<[[queue]]|"name" = "a"|"" = 1;name = "a";[[queue]]|name = "a"|[queue.more];[[queue]]|zzz = 1|[[queue]]|name = "a"|[[queue]]|name = "a"> => 2 UnknownKey
[[queue]]|name = "a"|"delay_seconds" = +5 => 1000000 120000; a delay_seconds=5
<[limits]|[limits];[[queue]]|name = "a"|name = "b";[queue]|[[queue]];[limits]|in_flight = -9223372036854775809> => 1 Syntax
[[queue]]|name = "a"|wait_seconds = <1.0;1e0;nan;true;2026-01-01;[1];"1"> => 3 WrongKind
<[[queue]]|name = "a"|wait_seconds = -1;[limits]|in_flight = 9223372036854775807;[[queue]]|[limits]|in_flight = 0> => 4 OutOfRange
[[queue]]|name = "a"|retention_seconds = <-60;1209601> => 4 OutOfRange
[[queue]]|name = "a"|delay_seconds = <-9223372036854775808;65536> => 4 OutOfRange
[[queue]]|name = "a"|maximum_message_size = <4294967296;1023> => 4 OutOfRange
[[queue]]|name = "nnnnnnnnnnnnnnnnnnnnnnnnnnnnnnnnnnnnnnnnnnnnnnnnnnnnnnnnnnnnnnnnnnnnnnnnnnnnnnnn" => 1000000 120000; nnnnnnnnnnnnnnnnnnnnnnnnnnnnnnnnnnnnnnnnnnnnnnnnnnnnnnnnnnnnnnnnnnnnnnnnnnnnnnnn
[[queue]]|name = <"nnnnnnnnnnnnnnnnnnnnnnnnnnnnnnnnnnnnnnnnnnnnnnnnnnnnnnnnnnnnnnnnnnnnnnnnnnnnnnnnn";"\u00e9"> => 4 OutOfRange
[[queue]]|name = "a"|retention_seconds = 1209600|maximum_message_size = 1048576 => 1000000 120000; a retention_seconds=1209600
// Arrays, inline tables and the parts of a key, 80 in one another and 81.
<x = (80 [#, )0(80 , #]);x = (80 {x# = )0(80 , y# = 0});x(79 .x#) = 0> => 2 UnknownKey
<x = (81 [#, )0(81 , #]);x = (81 {x# = )0(81 , y# = 0});x(80 .x#) = 0> => 1 Syntax
// Texts with two faults, each pair in either order, and two faults of one table, whose keys are
// judged in the order of their bytes.
<[[queue]]|name = "u"|zzz = 1|a =;[[queue]]|name = 5|a =;a =|[[queue]]|name = "u"|zzz = 1;a =|[[queue]]|name = 5;a =|[[queue]]|name = "r"|wait_seconds = 21> => 1 Syntax
<[[queue]]|name = "r"|wait_seconds = 21|a =;[[queue]]|name = "a"|[[queue]]|name = "a"|a =;a =|[[queue]]|name = "a"|[[queue]]|name = "a"> => 1 Syntax
<[[queue]]|name = "u"|zzz = 1|[[queue]]|name = 5;[[queue]]|name = "u"|zzz = 1|[[queue]]|name = "r"|wait_seconds = 21> => 2 UnknownKey
<[[queue]]|name = 5|[[queue]]|name = "u"|zzz = 1;[[queue]]|name = 5|[[queue]]|name = "r"|wait_seconds = 21;[[queue]]|name = 5|[[queue]]|name = "a"|[[queue]]|name = "a"> => 3 WrongKind
<[[queue]]|name = "r"|wait_seconds = 21|[[queue]]|name = "u"|zzz = 1;[[queue]]|name = "r"|wait_seconds = 21|[[queue]]|name = 5> => 4 OutOfRange
<[[queue]]|name = "u"|zzz = 1|[[queue]]|name = "a"|[[queue]]|name = "a";[[queue]]|name = "a"|[[queue]]|name = "a"|[[queue]]|name = "u"|zzz = 1;[[queue]]|aaa = 1|name = 5> => 2 UnknownKey
<[[queue]]|name = "a"|[[queue]]|name = "a"|[[queue]]|name = 5;[[queue]]|name = 5|zzz = 1;[[queue]]|zzz = 1|name = 5> => 3 WrongKind
<[[queue]]|name = "r"|wait_seconds = 21|[[queue]]|name = "a"|[[queue]]|name = "a";[[queue]]|name = "a"|[[queue]]|name = "a"|[[queue]]|name = "r"|wait_seconds = 21> => 4 OutOfRange
<[[queue]]|name = 5|aaa = 1;[[queue]]|aaa = 1|delay_seconds = 901;[[queue]]|delay_seconds = 901|aaa = 1> => 2 UnknownKey
<[[queue]]|delay_seconds = 901|name = 5;[[queue]]|name = 5|delay_seconds = 901;[[queue]]|delay_seconds = 901|zzz = 1;[[queue]]|zzz = 1|delay_seconds = 901> => 4 OutOfRange
<[[queue]]|name = "a b"|wait_seconds = "1";[[queue]]|wait_seconds = "1"|name = "a b"> => 4 OutOfRange
// Dead-letter queues: the examples of docs/PROFILE.md, targets before and after their queue in the
// text, two queues that name each other; then targets that are not there, half a policy, and values
// of another kind or out of range; then texts with two faults.
[limits]|in_flight = 2||[[queue]]|name = "dead"||[[queue]]|name = "jobs"|visibility_timeout = 1|dead_letter_queue = "dead"|max_receive_count = 1 => 1000000 2; dead; jobs visibility_timeout=1 dead#1 after 1
[[queue]]|name = "dead"|retention_seconds = 60|[[queue]]|name = "jobs"|visibility_timeout = 1|dead_letter_queue = "dead"|max_receive_count = 1 => 1000000 120000; dead retention_seconds=60; jobs visibility_timeout=1 dead#1 after 1
[[queue]]|name = "jobs"|max_receive_count = 1000|dead_letter_queue = "dead"|[[queue]]|name = "other"|[[queue]]|name = "dead" => 1000000 120000; jobs dead#3 after 1000; other; dead
queue = [{name = "a", dead_letter_queue = "b", max_receive_count = 3}, {name = "b", dead_letter_queue = "a", max_receive_count = 4}] => 1000000 120000; a b#2 after 3; b a#1 after 4
queue = [{name = "a", dead_letter_queue = "b", max_receive_count = 3}, {name = "b", dead_letter_queue = "c", max_receive_count = 4}, {name = "c"}] => 1000000 120000; a b#2 after 3; b c#3 after 4; c
queue = [{name = "a"}, {name = "b", dead_letter_queue = "a", max_receive_count = 0x3e8}, {name = "c", dead_letter_queue = "a", max_receive_count = 2}] => 1000000 120000; a; b a#1 after 1000; c a#1 after 2
[[queue]]|name = "a"|dead_letter_queue = <"a";"b">|max_receive_count = 1 => 6 NoSuchTarget
[[queue]]|name = "a"|dead_letter_queue = <"DEAD";"dea">|max_receive_count = 1|[[queue]]|name = "dead" => 6 NoSuchTarget
<[[queue]]|name = "dead"|[[queue]]|name = "a"|dead_letter_queue = "dead";[[queue]]|name = "dead"|[[queue]]|name = "a"|max_receive_count = 1> => 3 WrongKind
<[[queue]]|dead_letter_queue = "dead"|max_receive_count = 1|[[queue]]|name = "dead";[[queue]]|delay_seconds = 901|dead_letter_queue = 5> => 3 WrongKind
[[queue]]|name = "a"|dead_letter_queue = <5;["dead"]>|max_receive_count = 1 => 3 WrongKind
[[queue]]|name = "a"|dead_letter_queue = <"a b";"">|max_receive_count = 1 => 4 OutOfRange
<[[queue]]|name = "a"|dead_letter_queue = "arn:aws:sqs:::dead"|max_receive_count = 1|[[queue]]|name = "dead";[[queue]]|max_receive_count = 0|maximum_message_size = "1024"> => 4 OutOfRange
[[queue]]|name = "a"|dead_letter_queue = "dead"|max_receive_count = <0;1001;65537;-1> => 4 OutOfRange
[[queue]]|name = "a"|dead_letter_queue = "dead"|max_receive_count = <"1";1.0> => 3 WrongKind
<[[queue]]|dead_letter_queue = "a b"|aaa = 1;[[queue]]|max_receive_count = 1|zzz = 1;[[queue]]|zzz = 1|[[queue]]|name = "a"|max_receive_count = 1> => 2 UnknownKey
<[[queue]]|delay_seconds = "1"|max_receive_count = 0;[[queue]]|name = "a"|max_receive_count = 1|[[queue]]|zzz = 1;[[queue]]|name = "a"|[[queue]]|name = "a"|dead_letter_queue = "b"> => 3 WrongKind
<[[queue]]|name = 5|max_receive_count = 1001;[[queue]]|name = "a"|dead_letter_queue = "a"|max_receive_count = 1|[[queue]]|name = "b"|wait_seconds = 21> => 4 OutOfRange
[[queue]]|name = "a"|dead_letter_queue = "b"|max_receive_count = 1|[[queue]]|name = "a" => 5 NameTwice
// The example of docs/PROFILE.md with an alarm, every metric and operator, the ends of each range,
// and alarms of several queues.
[limits]|in_flight = 2||[[queue]]|name = "dead"||[[queue]]|name = "jobs"|visibility_timeout = 1|dead_letter_queue = "dead"|max_receive_count = 1||[[alarm]]|queue = "jobs"|name = "deep"|metric = "RefusedCalls"|operator = "GreaterThanOrEqualToThreshold"|threshold = 1|minutes = 1 => 1000000 2; dead; jobs visibility_timeout=1 dead#1 after 1; deep of 2: RefusedCalls GreaterThanOrEqualToThreshold 1, 1 of 1
alarm = [] => 1000000 120000
queue = [{name = "a"}]|alarm = [{name = "m0", metric = "NumberOfMessagesSent", operator = "GreaterThanThreshold" ..}, {name = "m1", metric = "SentMessageSize", operator = "GreaterThanOrEqualToThreshold", threshold = 1 ..}, {name = "m2", metric = "NumberOfMessagesReceived", threshold = 2 ..}, {name = "m3", metric = "NumberOfEmptyReceives", operator = "LessThanOrEqualToThreshold", threshold = 3 ..}, {name = "m4", metric = "NumberOfMessagesDeleted", operator = "GreaterThanThreshold", threshold = 4 ..}, {name = "m5", metric = "ApproximateNumberOfMessagesVisible", operator = "GreaterThanOrEqualToThreshold", threshold = 5 ..}, {name = "m6", metric = "ApproximateNumberOfMessagesDelayed", threshold = 6 ..}, {name = "m7", metric = "ApproximateNumberOfMessagesNotVisible", operator = "LessThanOrEqualToThreshold", threshold = 7 ..}, {name = "m8", metric = "ApproximateAgeOfOldestMessage", operator = "GreaterThanThreshold", threshold = 8 ..}, {name = "m9", operator = "GreaterThanOrEqualToThreshold", threshold = 9 ..}, {name = "m10", metric = "DeadLettersArrived", threshold = 10 ..}] => 1000000 120000; a; m0 of 1: NumberOfMessagesSent GreaterThanThreshold 0, 2 of 2; m1 of 1: SentMessageSize GreaterThanOrEqualToThreshold 1, 2 of 2; m2 of 1: NumberOfMessagesReceived LessThanThreshold 2, 2 of 2; m3 of 1: NumberOfEmptyReceives LessThanOrEqualToThreshold 3, 2 of 2; m4 of 1: NumberOfMessagesDeleted GreaterThanThreshold 4, 2 of 2; m5 of 1: ApproximateNumberOfMessagesVisible GreaterThanOrEqualToThreshold 5, 2 of 2; m6 of 1: ApproximateNumberOfMessagesDelayed LessThanThreshold 6, 2 of 2; m7 of 1: ApproximateNumberOfMessagesNotVisible LessThanOrEqualToThreshold 7, 2 of 2; m8 of 1: ApproximateAgeOfOldestMessage GreaterThanThreshold 8, 2 of 2; m9 of 1: RefusedCalls GreaterThanOrEqualToThreshold 9, 2 of 2; m10 of 1: DeadLettersArrived LessThanThreshold 10, 2 of 2
queue = [{name = "a"}]|alarm = [{breaches = 1 ..}] => 1000000 120000; a; x of 1: RefusedCalls LessThanThreshold 0, 1 of 2
queue = [{name = "a"}]|alarm = [{minutes = 180 ..}] => 1000000 120000; a; x of 1: RefusedCalls LessThanThreshold 0, 180 of 180
queue = [{name = "a"}]|alarm = [{minutes = 180, breaches = 180 ..}] => 1000000 120000; a; x of 1: RefusedCalls LessThanThreshold 0, 180 of 180
queue = [{name = "a"}]|alarm = [{minutes = 180, breaches = 179 ..}] => 1000000 120000; a; x of 1: RefusedCalls LessThanThreshold 0, 179 of 180
queue = [{name = "a"}]|alarm = [{minutes = 1, breaches = 1 ..}] => 1000000 120000; a; x of 1: RefusedCalls LessThanThreshold 0, 1 of 1
queue = [{name = "a"}]|alarm = [{threshold = 9223372036854775807 ..}] => 1000000 120000; a; x of 1: RefusedCalls LessThanThreshold 9223372036854775807, 2 of 2
queue = [{name = "a"}]|alarm = [{threshold = 0x10 ..}] => 1000000 120000; a; x of 1: RefusedCalls LessThanThreshold 16, 2 of 2
queue = [{name = "a"}]|alarm = [{name = "nnnnnnnnnnnnnnnnnnnnnnnnnnnnnnnnnnnnnnnnnnnnnnnnnnnnnnnnnnnnnnnnnnnnnnnnnnnnnnnn" ..}] => 1000000 120000; a; nnnnnnnnnnnnnnnnnnnnnnnnnnnnnnnnnnnnnnnnnnnnnnnnnnnnnnnnnnnnnnnnnnnnnnnnnnnnnnnn of 1: RefusedCalls LessThanThreshold 0, 2 of 2
queue = [{name = "b"}, {name = "a"}]|alarm = [{name = "y" ..}, {..}] => 1000000 120000; b; a; y of 2: RefusedCalls LessThanThreshold 0, 2 of 2; x of 2: RefusedCalls LessThanThreshold 0, 2 of 2
queue = [{name = "b"}, {name = "a"}]|alarm = [{..}, {queue = "b" ..}, {name = "X" ..}] => 1000000 120000; b; a; x of 2: RefusedCalls LessThanThreshold 0, 2 of 2; x of 1: RefusedCalls LessThanThreshold 0, 2 of 2; X of 2: RefusedCalls LessThanThreshold 0, 2 of 2
[[alarm]]|queue = "b"|name = "x"|metric = "SentMessageSize"|operator = "GreaterThanThreshold"|threshold = 5|minutes = 3|breaches = 2|[[queue]]|name = "a"|[[queue]]|name = "b" => 1000000 120000; a; b; x of 2: SentMessageSize GreaterThanThreshold 5, 2 of 3
// Alarms with one fault.
<[[alarm]];alarm = {};[alarm]|queue = "a";alarm = [[]]> => 3 WrongKind
alarm = <1;[1]> => 3 WrongKind
alarms = [] => 2 UnknownKey
queue = [{name = "a"}]|alarm = [<{more = 1 ..};{Metric = "RefusedCalls" ..}>] => 2 UnknownKey
queue = [{name = "a"}]|alarm = [{queue = <1;["a"]> ..}] => 3 WrongKind
queue = [{name = "a"}]|alarm = [<{name = 1 ..};{operator = 1 ..};{name = "x", metric = "RefusedCalls", operator = "LessThanThreshold", threshold = 0, minutes = 2}>] => 3 WrongKind
queue = [{name = "a"}]|alarm = [{metric = <1;["RefusedCalls"]> ..}] => 3 WrongKind
queue = [{name = "a"}]|alarm = [{threshold = <"1";1.0> ..}] => 3 WrongKind
queue = [{name = "a"}]|alarm = [{minutes = <"2";2.0> ..}] => 3 WrongKind
queue = [{name = "a"}]|alarm = [{breaches = <"2";true> ..}] => 3 WrongKind
queue = [{name = "a"}]|alarm = [<{queue = "a b" ..};{minutes = 179, breaches = 180 ..}>] => 4 OutOfRange
queue = [{name = "a"}]|alarm = [{name = <"";"nnnnnnnnnnnnnnnnnnnnnnnnnnnnnnnnnnnnnnnnnnnnnnnnnnnnnnnnnnnnnnnnnnnnnnnnnnnnnnnnn"> ..}] => 4 OutOfRange
queue = [{name = "a"}]|alarm = [{metric = <"refusedCalls";"";"RefusedCall";"RefusedCalls ";"GreaterThanThreshold"> ..}] => 4 OutOfRange
queue = [{name = "a"}]|alarm = [{operator = ">" ..}] => 4 OutOfRange
queue = [{name = "a"}]|alarm = [{operator = <"GreaterThan";"lessThanThreshold";"RefusedCalls"> ..}] => 4 OutOfRange
queue = [{name = "a"}]|alarm = [{threshold = <-1;-9223372036854775808> ..}] => 4 OutOfRange
queue = [{name = "a"}]|alarm = [{threshold = 9223372036854775808 ..}] => 1 Syntax
queue = [{name = "a"}]|alarm = [{minutes = <0;181;-2;258> ..}] => 4 OutOfRange
queue = [{name = "a"}]|alarm = [{breaches = <0;181;-1;257;3> ..}] => 4 OutOfRange
queue = [{name = "a"}]|alarm = [{queue = "a", metric = "RefusedCalls", operator = "LessThanThreshold", threshold = 0, minutes = 2}] => 3 WrongKind
queue = [{name = "a"}]|alarm = [{queue = "a", name = "x", operator = "LessThanThreshold", threshold = 0, minutes = 2}] => 3 WrongKind
queue = [{name = "a"}]|alarm = [{queue = "a", name = "x", metric = "RefusedCalls", threshold = 0, minutes = 2}] => 3 WrongKind
queue = [{name = "a"}]|alarm = [{queue = "a", name = "x", metric = "RefusedCalls", operator = "LessThanThreshold", minutes = 2}] => 3 WrongKind
queue = [{name = "a"}]|alarm = [{queue = "a", name = "x", metric = "RefusedCalls", operator = "LessThanThreshold", threshold = 0}] => 3 WrongKind
queue = [{name = "a"}]|alarm = [{queue = "a", name = "x", metric = "RefusedCalls", operator = "LessThanThreshold", threshold = 0, breaches = 1}] => 3 WrongKind
queue = [{name = "a"}]|alarm = [<{..}, {..};{..}, {name = "y" ..}, {metric = "SentMessageSize" ..}>] => 5 NameTwice
queue = [{name = "a"}]|alarm = [{queue = <"b";"A";"ab"> ..}] => 6 NoSuchTarget
queue = []|alarm = [{..}] => 6 NoSuchTarget
// Alarms with two faults, pairs of tables in either order, and two faults of one table, whose keys
// are judged in the order of their bytes.
queue = [{name = "a"}]|alarm = [<{zzz = 1 ..}, {metric = 1 ..};{zzz = 1 ..}, {minutes = 181 ..}>] => 2 UnknownKey
queue = [{name = "a"}]|alarm = [<{metric = 1 ..}, {zzz = 1 ..};{queue = "a", metric = "RefusedCalls", operator = "LessThanThreshold", threshold = 0, minutes = 2}, {zzz = 1 ..}>] => 3 WrongKind
queue = [{name = "a"}]|alarm = [<{minutes = 181 ..}, {zzz = 1 ..};{name = "b", breaches = 3 ..}, {zzz = 1 ..};{minutes = 181 ..}, {metric = 1 ..}>] => 4 OutOfRange
queue = [{name = "a"}]|alarm = [{zzz = 1 ..}, {queue = "a", metric = "RefusedCalls", operator = "LessThanThreshold", threshold = 0, minutes = 2}] => 2 UnknownKey
queue = [{name = "a"}]|alarm = [<{zzz = 1 ..}, {name = "b", breaches = 3 ..};{zzz = 1 ..}, {queue = "b" ..};{queue = "b" ..}, {zzz = 1 ..};{aaa = 1, breaches = 0 ..}>] => 2 UnknownKey
queue = [{name = "a"}]|alarm = [<{metric = 1 ..}, {minutes = 181 ..};{metric = 1 ..}, {name = "b", breaches = 3 ..}>] => 3 WrongKind
queue = [{name = "a"}]|alarm = [{name = "b", breaches = 3 ..}, {metric = 1 ..}] => 4 OutOfRange
queue = [{name = "a"}]|alarm = [{minutes = 181 ..}, {queue = "a", metric = "RefusedCalls", operator = "LessThanThreshold", threshold = 0, minutes = 2}] => 4 OutOfRange
queue = [{name = "a"}]|alarm = [{queue = "a", metric = "RefusedCalls", operator = "LessThanThreshold", threshold = 0, minutes = 2}, {minutes = 181 ..}] => 3 WrongKind
queue = [{name = "a"}]|alarm = [{queue = "a", metric = "RefusedCalls", operator = "LessThanThreshold", threshold = 0, minutes = 2}, {name = "b", breaches = 3 ..}] => 3 WrongKind
queue = [{name = "a"}]|alarm = [{name = "b", breaches = 3 ..}, {queue = "a", metric = "RefusedCalls", operator = "LessThanThreshold", threshold = 0, minutes = 2}] => 4 OutOfRange
queue = [{name = "a"}]|alarm = [<{metric = 1 ..}, {queue = "b" ..};{queue = "b" ..}, {metric = 1 ..}>] => 3 WrongKind
queue = [{name = "a"}]|alarm = [<{minutes = 181 ..}, {queue = "b" ..};{queue = "b" ..}, {minutes = 181 ..};{name = "b", breaches = 3 ..}, {queue = "b" ..}>] => 4 OutOfRange
queue = [{name = "a"}]|alarm = [{queue = "a", metric = "RefusedCalls", operator = "LessThanThreshold", threshold = 0, minutes = 2}, {queue = "b" ..}] => 3 WrongKind
queue = [{name = "a"}]|alarm = [{queue = "b" ..}, {queue = "a", metric = "RefusedCalls", operator = "LessThanThreshold", threshold = 0, minutes = 2}] => 3 WrongKind
queue = [{name = "a"}]|alarm = [<{queue = "b" ..}, {name = "b", breaches = 3 ..};{metric = 1, breaches = 0 ..};{metric = "none", minutes = "1" ..};{name = 1, minutes = 0 ..}>] => 4 OutOfRange
queue = [{name = "a"}]|alarm = [<{metric = "none", breaches = "1" ..};{metric = 1, minutes = 0 ..};{name = "", minutes = "1" ..};{name = 1, operator = "" ..}>] => 3 WrongKind
queue = [{name = "a"}]|alarm = [<{name = "", operator = 1 ..};{queue = 1, operator = "" ..};{queue = "", threshold = "0" ..};{threshold = -1, zzz = 1 ..}>] => 4 OutOfRange
queue = [{name = "a"}]|alarm = [<{queue = "", operator = 1 ..};{queue = 1, threshold = -1 ..};{threshold = "1", zzz = 1 ..}>] => 3 WrongKind
queue = [{name = "a"}]|alarm = [<{minutes = 1, zzz = 1, breaches = 2 ..};{queue = "a", metric = "RefusedCalls", operator = "LessThanThreshold", threshold = 0, minutes = 2, zzz = 1}>] => 2 UnknownKey
queue = [{name = "a"}]|alarm = [{queue = "a", metric = "RefusedCalls", operator = "LessThanThreshold", threshold = -1, minutes = 2}] => 4 OutOfRange
queue = [{name = "a"}]|alarm = [{queue = "a", metric = "RefusedCalls", operator = "LessThanThreshold", threshold = 0, minutes = 1, breaches = 2}] => 3 WrongKind
queue = [{name = "a"}]|alarm = [<{queue = "a", name = "x", metric = "RefusedCalls", operator = "LessThanThreshold", threshold = 0, breaches = 181};{queue = "b" ..}, {breaches = 3 ..}>] => 4 OutOfRange
<alarm = [{zzz = 1}]|queue = [{name = 1}];queue = [{name = 1}]|alarm = [{zzz = 1}];alarm = [{zzz = 1}]|limits = 1> => 3 WrongKind
<alarm = 1|queue = [{zzz = 1}];alarm = [{zzz = 1}]|more = 1;alarm = 1|more = 1> => 2 UnknownKey
queue = [{name = "a"}, {name = "a"}]|alarm = [{minutes = 0 ..}] => 4 OutOfRange
<queue = [{name = "a"}, {name = "a"}]|alarm = [{..}];queue = [{name = "a"}, {name = "a"}]|alarm = [{queue = "b" ..}]> => 5 NameTwice
queue = [{name = "a"}, {name = "b", dead_letter_queue = "c", max_receive_count = 1}]|alarm = [{..}, {..}] => 5 NameTwice
queue = [{name = "a", dead_letter_queue = "a", max_receive_count = 1}]|alarm = [{..}, {..}] => 5 NameTwice
queue = [{name = "a"}]|alarm = [<{queue = "b" ..}, {queue = "b" ..};{queue = "b" ..}, {..}, {..};{..}, {..}, {queue = "b" ..}>] => 5 NameTwice
queue = [{name = "a", dead_letter_queue = "a", max_receive_count = 1}]|alarm = [{queue = "b" ..}] => 6 NoSuchTarget
queue = [{name = "a", dead_letter_queue = "c", max_receive_count = 1}]|alarm = [{..}] => 6 NoSuchTarget
queue = [{name = "a"}]|alarm = [{..}, {zzz = 1 ..}, {..}] => 2 UnknownKey
// The 1,001st queue and the 17th alarm of a queue, in the text or not, are refused before equal names
// and targets that are not there. Alarms of other queues do not count. 1,000 queues, and 16 alarms of a
// queue beside those of another, are read.
(1000 [[queue]]|name = "q#"|)dead_letter_queue = "q1000"|max_receive_count = 1 => 6 NoSuchTarget
(1000 [[queue]]|name = "q#"|)dead_letter_queue = "q1000"|max_receive_count = 1|[[queue]]|name = "q1" => 4 OutOfRange
queue = [{name = "a"}, {name = "b"}]|alarm = [{queue = "b", name = "x0" ..}, (17 {name = "x#" ..}, ){queue = "b", name = "x1" ..}] => 4 OutOfRange
queue = [{name = "a"}, {name = "b"}]|alarm = [{name = "x98" ..}, (15 {name = "x#" ..}, ){name = "x99" ..}] => 4 OutOfRange
queue = [{name = "a"}, {name = "b"}]|alarm = [{queue = "b", name = "x0" ..}, (16 {name = "x#" ..}, ){queue = "b", name = "x0" ..}] => 5 NameTwice
queue = [{name = "a"}, {name = "b"}]|alarm = [{queue = "b", name = "x0" ..}, (17 {name = "x#" ..}, ){queue = "b", name = "x0" ..}] => 4 OutOfRange
queue = [{name = "a"}, {name = "b"}]|alarm = [{queue = "c", name = "x0" ..}, (16 {name = "x#" ..}, ){queue = "c", name = "x1" ..}] => 6 NoSuchTarget
queue = [{name = "a"}, {name = "b"}]|alarm = [{queue = "c", name = "x0" ..}, (17 {name = "x#" ..}, ){queue = "c", name = "x1" ..}] => 4 OutOfRange
queue = [{name = "a"}, {name = "b"}]|alarm = [{queue = "c", name = "x0" ..}, (16 {name = "x#" ..}, ){queue = "c", name = "x0" ..}] => 5 NameTwice
(16 [[alarm]]|queue = "a"|name = "x#"|metric = "RefusedCalls"|operator = "LessThanThreshold"|threshold = 1|minutes = 1|) => 6 NoSuchTarget
alarm = [(16 {name = "x#" ..}, ){name = "x0" ..}] => 4 OutOfRange
(1000 [[queue]]|name = "q#"|) => 1000000 120000(1000 ; q#)
queue = [{name = "a"}, {name = "b"}]|alarm = [{queue = "b", name = "x0" ..}, (16 {name = "x#" ..}, ){queue = "b", name = "x1" ..}] => 1000000 120000; a; b; x0 of 2: RefusedCalls LessThanThreshold 0, 2 of 2(16 ; x# of 1: RefusedCalls LessThanThreshold 0, 2 of 2); x1 of 2: RefusedCalls LessThanThreshold 0, 2 of 2
queue = [{name = "a"}, {name = "b"}]|alarm = [{name = "x98" ..}, (14 {name = "x#" ..}, ){name = "x99" ..}] => 1000000 120000; a; b; x98 of 1: RefusedCalls LessThanThreshold 0, 2 of 2(14 ; x# of 1: RefusedCalls LessThanThreshold 0, 2 of 2); x99 of 1: RefusedCalls LessThanThreshold 0, 2 of 2
"#;
