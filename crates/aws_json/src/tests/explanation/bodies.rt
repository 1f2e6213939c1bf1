//! Bodies of requests, most of which are refused in reading.

/// Whole bodies.
pub(super) const BODIES: &str = r##"
null
[]
"QueueUrl"
5
{
{}x
{"QueueUrl":"jo
{"QueueUrl":"jo}
{"QueueUrl":"\ud800"}
{"QueueUrl":1e999}
{'QueueUrl':'jobs'}
{}
{"QueueUrl":"jobs"}
{"QueueUrl":"no such"}
{"QueueName":"al pha"}
{"QueueUrl":"jobs","Attributes":{"Zzz":"","RedrivePolicy":"{}"}}
{"QueueUrl":"no such","Attributes":{"RedrivePolicy":"[]"}}
{"QueueName":"no such","Attributes":{"RedrivePolicy":"{}"}}
{"QueueName":"jobs","Attributes":{"DelaySeconds":"5","RedrivePolicy":"{\"maxReceiveCount\":1.0}"}}
{"QueueName":"jobs","Attributes":{"RedrivePolicy":" "}}
{"QueueName":"jobs","Attributes":{"RedrivePolicy":"null"}}
{"QueueName":"jobs","Attributes":{"RedrivePolicy":"{\"deadLetterTargetArn\":[\"arn:aws:sqs:::dead\"],\"maxReceiveCount\":3}"}}
{"QueueName":"jobs","Attributes":{"RedrivePolicy":"{\"deadLetterTargetArn\":1e0,\"maxReceiveCount\":3}"}}
{"QueueName":"jobs","Attributes":{"RedrivePolicy":"{\"deadLetterTargetArn\":\"arn:aws:sqs:::d\\u00e9ad\",\"maxReceiveCount\":3}"}}
{"QueueName":"jobs","Attributes":{"RedrivePolicy":"{\"deadLetterTargetArn\":\"arn:aws:sqs:::dead\",\"maxReceiveCount\":{\"3\":3}}"}}
{"QueueName":"jobs","Attributes":{"RedrivePolicy":"{\"deadLetterTargetArn\":\"arn:aws:sqs:::dead\",\"maxReceiveCount\":3"}}
{"QueueUrl":"no such","MessageBody":"\u0001","DelaySeconds":901,"MessageAttributes":{"x y":{}}}
{"QueueUrl":"jobs","MessageBody":"\u0001","DelaySeconds":901,"MessageAttributes":{"x y":{}}}
{"QueueUrl":"jobs","MessageBody":"a","DelaySeconds":901,"MessageAttributes":{"x y":{}}}
{"QueueUrl":"jobs","MessageBody":"a","DelaySeconds":900,"MessageAttributes":{"x y":{}}}
{"QueueUrl":"jobs","MessageBody":"a","MessageAttributes":{"a":{"DataType":"String"},"B":{"DataType":"Number.x","StringValue":"\uFFFE"}}}
{"QueueUrl":"jobs","MessageBody":"a","MessageAttributes":{"a":{"DataType":"String","StringValue":"x"},"a-":{"DataType":"String","StringValue":"\u0000"},"a.":{}}}
{"QueueUrl":"jobs","MessageBody":"a","MessageAttributes":{"B":{},"a":{"DataType":"String","StringValue":"\u0001"}}}
{"QueueUrl":"jobs","MessageBody":"a","MessageAttributes":{"aws.x":{"DataType":"String","StringValue":"x"}}}
{"QueueUrl":"jobs","MessageBody":"a","MessageAttributes":{"a":{"DataType":"Binary.","BinaryValue":"AA=="}}}
{"QueueUrl":"jobs","MessageBody":"a","MessageAttributes":{"a":{"DataType":"Binary","BinaryValue":"AA==\n"}}}
{"QueueUrl":"jobs","MessageBody":"a","MessageAttributes":{"a":{"DataType":"Binary","BinaryValue":"="}}}
{"QueueUrl":"jobs","MessageBody":"a","MessageAttributes":{"a":{"DataType":"Binary","BinaryValue":"AA\u0000="}}}
{"QueueUrl":"jobs","MessageBody":"a","MessageAttributes":{"a":{"DataType":"Binary","BinaryValue":"-_-_"}}}
{"MessageAttributes":{"a":{"DataType":"String","StringValue":"x"},"b":{},"c":[null]}}
{"QueueUrl":"jobs","MaxNumberOfMessages":1,"VisibilityTimeout":43200,"WaitTimeSeconds":20,"AttributeNames":["all"]}
{"QueueUrl":"jobs","ReceiptHandle":"000000000000000100000000000000000000000000000001"}
{"QueueUrl":"jobs","ReceiptHandle":"000000000000000100000000000000000000000000000001 ","VisibilityTimeout":5}
{"QueueUrl":"jobs","Entries":[]}
{"QueueUrl":"jobs","Entries":[null]}
{"QueueUrl":"jobs","Entries":[{}]}
{"QueueUrl":"jobs","Entries":[{"Id":"a"},{"Id":"a"}]}
{"QueueUrl":"jobs","Entries":[{"Id":"a"},{"Id":"b"},{"Id":"a b"},{"Id":"b"}]}
{"QueueUrl":"jobs","Entries":[{"Id":"a"},{"Id":"b","ReceiptHandle":"z","MessageBody":"\u0001"},{"Id":"c","ReceiptHandle":"000000000000000000000000000000000000000000000000","MessageBody":"a","DelaySeconds":901}]}
{"QueueUrl":"jobs","Entries":[{"Id":"a","MessageBody":"a","MessageAttributes":{"a":{}}},{"Id":"b","VisibilityTimeout":5.5}]}
{"QueueUrl":"jobs","Entries":[{},{},{},{},{},{},{},{},{},{},{}]}
"##;

/// What stands before a member, and behind a `|` what stands behind it.
pub(super) const FRAMES: &str = r##"{|}
{"QueueUrl":"jobs",|}
{"QueueUrl":"x/jobs","QueueName":"jobs","MessageBody":"a","ReceiptHandle":"000000000000000000000000000000000000000000000000",|}
{"QueueUrl":"jobs","Entries":[{"Id":"a","MessageBody":"a"},{|}]}
{"QueueUrl":"jobs","Entries":[{"Id":"a","MessageBody":"a"},{"Id":"b",|}]}
"##;

/// The names of members.
pub(super) const NAMES: &str =
    "QueueUrl QueueName QueueNamePrefix Attributes AttributeNames MessageBody DelaySeconds MessageAttributes MaxNumberOfMessages VisibilityTimeout WaitTimeSeconds MessageSystemAttributeNames MessageAttributeNames ReceiptHandle Entries Id";

/// Values of a member.
pub(super) const VALUES: &str = r##"null
true
0
-1
1.5
-0
901
18446744073709551616
""
"a b"
"\u0001"
[]
[null]
["All"]
["\u0007all"]
[{}]
{}
{"a":null}
{"a":1}
{"a":"1"}
{"DelaySeconds":"x"}
{"RedrivePolicy":"{}"}
{"a":{}}
{"a b":{"DataType":"String","StringValue":"x"}}
{"a":{"DataType":"Binary","BinaryValue":"x"}}
{"a":{"DataType":"String","StringValue":"\u0001"}}
{"a":{"DataType":false}}
"##;
