//! Conversations, each between a server of its own and clients with letters.

use super::*;

/// A conversation's first line says what it shows; then come the lines of its configuration. Behind `--` each line
/// is what a client does: `asks` an action with a body; `sends` bytes, a tilde for the end of a line; sends so many
/// `chunks`, or pieces of `blanks`; `logs` what the server tells on standard error next, behind a time of day; `gets` a status and a body, or what `begins` so, `holds` or `lacks` a text; `waits`,
/// and gets nothing; `leaves`, at once or so many milliseconds later. A client with a small letter is one of the port
/// for statistics: it `views` a path, and gets the content type too.
const CONVERSATIONS: &str = r#"a creation, on a connection that its client asks to be closed
--
A sends POST / HTTP/1.1~Host: localhost~X-Amz-Target: AmazonSQS.CreateQueue~Content-Length: 20~Connection: close~~{"QueueName":"jobs"}
A gets 200 {"QueueUrl":"http://localhost:PORT/000000000000/jobs"}

several requests on one connection
--
A asks CreateQueue {"QueueName":"jobs"}
A gets 200 {"QueueUrl":"http://localhost:PORT/000000000000/jobs"}
A asks CreateQueue {"QueueName":"jobs"}
A gets 200 {"QueueUrl":"http://localhost:PORT/000000000000/jobs"}
A asks SendMessage {"QueueUrl":"jobs","MessageBody":"hello"}
A gets 200 {"MD5OfMessageBody":"5d41402abc4b2a76b9719d911017c592","MessageId":"00000000-0000-0001-0000-000000000000"}
A asks ReceiveMessage {"QueueUrl":"jobs"}
A gets 200 {"Messages":[{"Body":"hello","MD5OfBody":"5d41402abc4b2a76b9719d911017c592","MessageId":"00000000-0000-0001-0000-000000000000","ReceiptHandle":"000000000000000100000000000000000000000000000001"}]}
A asks DeleteMessage {"QueueUrl":"jobs","ReceiptHandle":"000000000000000100000000000000000000000000000001"}
A gets 200 {}

time ends a delay, and then a visibility timeout
[[queue]]
name = "jobs"
--
A asks SendMessage {"QueueUrl":"jobs","MessageBody":"later","DelaySeconds":1}
A gets 200 {"MD5OfMessageBody":"c18788c2f274c779da72d9854ea4bfbf","MessageId":"00000000-0000-0001-0000-000000000000"}
A asks ReceiveMessage {"QueueUrl":"jobs","WaitTimeSeconds":0}
A gets 200 {}
A asks ReceiveMessage {"QueueUrl":"jobs","WaitTimeSeconds":20,"VisibilityTimeout":1}
A gets 200 {"Messages":[{"Body":"later","MD5OfBody":"c18788c2f274c779da72d9854ea4bfbf","MessageId":"00000000-0000-0001-0000-000000000000","ReceiptHandle":"000000000000000100000000000000000000000000000001"}]}
A asks ReceiveMessage {"QueueUrl":"jobs","WaitTimeSeconds":0}
A gets 200 {}
A asks ReceiveMessage {"QueueUrl":"jobs","WaitTimeSeconds":20}
A gets 200 {"Messages":[{"Body":"later","MD5OfBody":"c18788c2f274c779da72d9854ea4bfbf","MessageId":"00000000-0000-0001-0000-000000000000","ReceiptHandle":"000000000000000100000000000000000000000000000002"}]}

a batch of ten entries, and a receive whose reply is longer than 4 KB, from a queue that was created when the server began
[[queue]]
name = "jobs"
--
A asks SendMessageBatch {"QueueUrl":"jobs","Entries":[{"Id":"a","MessageBody":"aaaaaaaaaaaaaaaaaaaaaaaaaaaaaaaaaaaaaaaaaaaaaaaaaaaaaaaaaaaaaaaaaaaaaaaaaaaaaaaaaaaaaaaaaaaaaaaaaaaaaaaaaaaaaaaaaaaaaaaaaaaaaaaaaaaaaaaaaaaaaaaaaaaaaaaaaaaaaaaaaaaaaaaaaaaaaaaaaaaaaaaaaaaaaaaaaaaaaaaaaaaaaaaaaaaaaaaaaaaaaaaaaaaaaaaaaaaaaaaaaaaaaaaaaaaaaaaaaaaaaaaaaaaaaaaaaaaaaaaaaaaaaaaaaaaaaaaaaaaaaaaaaaaaaaaaaaaaaaaaaaaaaaaaaaaaaaaaaaaaaaaaaaaaaaaaaaaaaaaaaaaaaaaaaaaaaaaaaaaaaaaaaaaaaaaaaaaaaaaaaaaaaaaaaaaaaaaaaaaaaaaaaaaaaaaaaaaaaaaaaaaaaaaaaaaaaaaaaaaaaaaaaaaaaaaaaaaaaaaaaaaaaaaaaaaaaaaaaaaa"},{"Id":"b","MessageBody":"bbbbbbbbbbbbbbbbbbbbbbbbbbbbbbbbbbbbbbbbbbbbbbbbbbbbbbbbbbbbbbbbbbbbbbbbbbbbbbbbbbbbbbbbbbbbbbbbbbbbbbbbbbbbbbbbbbbbbbbbbbbbbbbbbbbbbbbbbbbbbbbbbbbbbbbbbbbbbbbbbbbbbbbbbbbbbbbbbbbbbbbbbbbbbbbbbbbbbbbbbbbbbbbbbbbbbbbbbbbbbbbbbbbbbbbbbbbbbbbbbbbbbbbbbbbbbbbbbbbbbbbbbbbbbbbbbbbbbbbbbbbbbbbbbbbbbbbbbbbbbbbbbbbbbbbbbbbbbbbbbbbbbbbbbbbbbbbbbbbbbbbbbbbbbbbbbbbbbbbbbbbbbbbbbbbbbbbbbbbbbbbbbbbbbbbbbbbbbbbbbbbbbbbbbbbbbbbbbbbbbbbbbbbbbbbbbbbbbbbbbbbbbbbbbbbbbbbbbbbbbbbbbbbbbbbbbbbbbbbbbbbbbbbbbbbbbbbbbbbb"},{"Id":"c","MessageBody":"cccccccccccccccccccccccccccccccccccccccccccccccccccccccccccccccccccccccccccccccccccccccccccccccccccccccccccccccccccccccccccccccccccccccccccccccccccccccccccccccccccccccccccccccccccccccccccccccccccccccccccccccccccccccccccccccccccccccccccccccccccccccccccccccccccccccccccccccccccccccccccccccccccccccccccccccccccccccccccccccccccccccccccccccccccccccccccccccccccccccccccccccccccccccccccccccccccccccccccccccccccccccccccccccccccccccccccccccccccccccccccccccccccccccccccccccccccccccccccccccccccccccccccccccccccc"},{"Id":"d","MessageBody":"dddddddddddddddddddddddddddddddddddddddddddddddddddddddddddddddddddddddddddddddddddddddddddddddddddddddddddddddddddddddddddddddddddddddddddddddddddddddddddddddddddddddddddddddddddddddddddddddddddddddddddddddddddddddddddddddddddddddddddddddddddddddddddddddddddddddddddddddddddddddddddddddddddddddddddddddddddddddddddddddddddddddddddddddddddddddddddddddddddddddddddddddddddddddddddddddddddddddddddddddddddddddddddddddddddddddddddddddddddddddddddddddddddddddddddddddddddddddddddddddddddddddddddddddddddd"},{"Id":"e","MessageBody":"eeeeeeeeeeeeeeeeeeeeeeeeeeeeeeeeeeeeeeeeeeeeeeeeeeeeeeeeeeeeeeeeeeeeeeeeeeeeeeeeeeeeeeeeeeeeeeeeeeeeeeeeeeeeeeeeeeeeeeeeeeeeeeeeeeeeeeeeeeeeeeeeeeeeeeeeeeeeeeeeeeeeeeeeeeeeeeeeeeeeeeeeeeeeeeeeeeeeeeeeeeeeeeeeeeeeeeeeeeeeeeeeeeeeeeeeeeeeeeeeeeeeeeeeeeeeeeeeeeeeeeeeeeeeeeeeeeeeeeeeeeeeeeeeeeeeeeeeeeeeeeeeeeeeeeeeeeeeeeeeeeeeeeeeeeeeeeeeeeeeeeeeeeeeeeeeeeeeeeeeeeeeeeeeeeeeeeeeeeeeeeeeeeeeeeeeeeeeeeeeeeeeeeeeeeeeeeeeeeeeeeeeeeeeeeeeeeeeeeeeeeeeeeeeeeeeeeeeeeeeeeeeeeeeeeeeeeeeeeeeeeeeeeeeeeeeeeeeeeee"},{"Id":"f","MessageBody":"ffffffffffffffffffffffffffffffffffffffffffffffffffffffffffffffffffffffffffffffffffffffffffffffffffffffffffffffffffffffffffffffffffffffffffffffffffffffffffffffffffffffffffffffffffffffffffffffffffffffffffffffffffffffffffffffffffffffffffffffffffffffffffffffffffffffffffffffffffffffffffffffffffffffffffffffffffffffffffffffffffffffffffffffffffffffffffffffffffffffffffffffffffffffffffffffffffffffffffffffffffffffffffffffffffffffffffffffffffffffffffffffffffffffffffffffffffffffffffffffffffffffffffffffffffff"},{"Id":"g","MessageBody":"gggggggggggggggggggggggggggggggggggggggggggggggggggggggggggggggggggggggggggggggggggggggggggggggggggggggggggggggggggggggggggggggggggggggggggggggggggggggggggggggggggggggggggggggggggggggggggggggggggggggggggggggggggggggggggggggggggggggggggggggggggggggggggggggggggggggggggggggggggggggggggggggggggggggggggggggggggggggggggggggggggggggggggggggggggggggggggggggggggggggggggggggggggggggggggggggggggggggggggggggggggggggggggggggggggggggggggggggggggggggggggggggggggggggggggggggggggggggggggggggggggggggggggggggggggg"},{"Id":"h","MessageBody":"hhhhhhhhhhhhhhhhhhhhhhhhhhhhhhhhhhhhhhhhhhhhhhhhhhhhhhhhhhhhhhhhhhhhhhhhhhhhhhhhhhhhhhhhhhhhhhhhhhhhhhhhhhhhhhhhhhhhhhhhhhhhhhhhhhhhhhhhhhhhhhhhhhhhhhhhhhhhhhhhhhhhhhhhhhhhhhhhhhhhhhhhhhhhhhhhhhhhhhhhhhhhhhhhhhhhhhhhhhhhhhhhhhhhhhhhhhhhhhhhhhhhhhhhhhhhhhhhhhhhhhhhhhhhhhhhhhhhhhhhhhhhhhhhhhhhhhhhhhhhhhhhhhhhhhhhhhhhhhhhhhhhhhhhhhhhhhhhhhhhhhhhhhhhhhhhhhhhhhhhhhhhhhhhhhhhhhhhhhhhhhhhhhhhhhhhhhhhhhhhhhhhhhhhhhhhhhhhhhhhhhhhhhhhhhhhhhhhhhhhhhhhhhhhhhhhhhhhhhhhhhhhhhhhhhhhhhhhhhhhhhhhhhhhhhhhhhhhhhhh"},{"Id":"i","MessageBody":"iiiiiiiiiiiiiiiiiiiiiiiiiiiiiiiiiiiiiiiiiiiiiiiiiiiiiiiiiiiiiiiiiiiiiiiiiiiiiiiiiiiiiiiiiiiiiiiiiiiiiiiiiiiiiiiiiiiiiiiiiiiiiiiiiiiiiiiiiiiiiiiiiiiiiiiiiiiiiiiiiiiiiiiiiiiiiiiiiiiiiiiiiiiiiiiiiiiiiiiiiiiiiiiiiiiiiiiiiiiiiiiiiiiiiiiiiiiiiiiiiiiiiiiiiiiiiiiiiiiiiiiiiiiiiiiiiiiiiiiiiiiiiiiiiiiiiiiiiiiiiiiiiiiiiiiiiiiiiiiiiiiiiiiiiiiiiiiiiiiiiiiiiiiiiiiiiiiiiiiiiiiiiiiiiiiiiiiiiiiiiiiiiiiiiiiiiiiiiiiiiiiiiiiiiiiiiiiiiiiiiiiiiiiiiiiiiiiiiiiiiiiiiiiiiiiiiiiiiiiiiiiiiiiiiiiiiiiiiiiiiiiiiiiiiiiiiiiiiiii"},{"Id":"j","MessageBody":"jjjjjjjjjjjjjjjjjjjjjjjjjjjjjjjjjjjjjjjjjjjjjjjjjjjjjjjjjjjjjjjjjjjjjjjjjjjjjjjjjjjjjjjjjjjjjjjjjjjjjjjjjjjjjjjjjjjjjjjjjjjjjjjjjjjjjjjjjjjjjjjjjjjjjjjjjjjjjjjjjjjjjjjjjjjjjjjjjjjjjjjjjjjjjjjjjjjjjjjjjjjjjjjjjjjjjjjjjjjjjjjjjjjjjjjjjjjjjjjjjjjjjjjjjjjjjjjjjjjjjjjjjjjjjjjjjjjjjjjjjjjjjjjjjjjjjjjjjjjjjjjjjjjjjjjjjjjjjjjjjjjjjjjjjjjjjjjjjjjjjjjjjjjjjjjjjjjjjjjjjjjjjjjjjjjjjjjjjjjjjjjjjjjjjjjjjjjjjjjjjjjjjjjjjjjjjjjjjjjjjjjjjjjjjjjjjjjjjjjjjjjjjjjjjjjjjjjjjjjjjjjjjjjjjjjjjjjjjjjjjjjjjjjjjjjjjjjjjjjj"}]}
A gets 200 {"Failed":[],"Successful":[{"Id":"a","MD5OfMessageBody":"be39ba69b8fe1601f6f24f85fa20ce6c","MessageId":"00000000-0000-0001-0000-000000000000"},{"Id":"b","MD5OfMessageBody":"8024cdcf93b5f41fa5699800fac49be6","MessageId":"00000000-0000-0001-0000-000000000001"},{"Id":"c","MD5OfMessageBody":"84baf13137eb70974cdf4aacdf147ab7","MessageId":"00000000-0000-0001-0000-000000000002"},{"Id":"d","MD5OfMessageBody":"614a9dcef86a55bd43d2face6bfff742","MessageId":"00000000-0000-0001-0000-000000000003"},{"Id":"e","MD5OfMessageBody":"454816a537fb9a0e0aa8bef48f089dec","MessageId":"00000000-0000-0001-0000-000000000004"},{"Id":"f","MD5OfMessageBody":"b50ebcdcddc34a74a528698841e3abac","MessageId":"00000000-0000-0001-0000-000000000005"},{"Id":"g","MD5OfMessageBody":"a5396873796d6f477be04a6d26634bb5","MessageId":"00000000-0000-0001-0000-000000000006"},{"Id":"h","MD5OfMessageBody":"33f85871e3506a0b25454e450604e6b3","MessageId":"00000000-0000-0001-0000-000000000007"},{"Id":"i","MD5OfMessageBody":"86ad7868aeb97080f870a386906988d6","MessageId":"00000000-0000-0001-0000-000000000008"},{"Id":"j","MD5OfMessageBody":"2e6539fbe9e49dc4dc34eecff204a0ff","MessageId":"00000000-0000-0001-0000-000000000009"}]}
A asks ReceiveMessage {"QueueUrl":"jobs","MaxNumberOfMessages":10}
A gets 200 {"Messages":[{"Body":"aaaaaaaaaaaaaaaaaaaaaaaaaaaaaaaaaaaaaaaaaaaaaaaaaaaaaaaaaaaaaaaaaaaaaaaaaaaaaaaaaaaaaaaaaaaaaaaaaaaaaaaaaaaaaaaaaaaaaaaaaaaaaaaaaaaaaaaaaaaaaaaaaaaaaaaaaaaaaaaaaaaaaaaaaaaaaaaaaaaaaaaaaaaaaaaaaaaaaaaaaaaaaaaaaaaaaaaaaaaaaaaaaaaaaaaaaaaaaaaaaaaaaaaaaaaaaaaaaaaaaaaaaaaaaaaaaaaaaaaaaaaaaaaaaaaaaaaaaaaaaaaaaaaaaaaaaaaaaaaaaaaaaaaaaaaaaaaaaaaaaaaaaaaaaaaaaaaaaaaaaaaaaaaaaaaaaaaaaaaaaaaaaaaaaaaaaaaaaaaaaaaaaaaaaaaaaaaaaaaaaaaaaaaaaaaaaaaaaaaaaaaaaaaaaaaaaaaaaaaaaaaaaaaaaaaaaaaaaaaaaaaaaaaaaaaaaaaaaaaa","MD5OfBody":"be39ba69b8fe1601f6f24f85fa20ce6c","MessageId":"00000000-0000-0001-0000-000000000000","ReceiptHandle":"000000000000000100000000000000000000000000000001"},{"Body":"bbbbbbbbbbbbbbbbbbbbbbbbbbbbbbbbbbbbbbbbbbbbbbbbbbbbbbbbbbbbbbbbbbbbbbbbbbbbbbbbbbbbbbbbbbbbbbbbbbbbbbbbbbbbbbbbbbbbbbbbbbbbbbbbbbbbbbbbbbbbbbbbbbbbbbbbbbbbbbbbbbbbbbbbbbbbbbbbbbbbbbbbbbbbbbbbbbbbbbbbbbbbbbbbbbbbbbbbbbbbbbbbbbbbbbbbbbbbbbbbbbbbbbbbbbbbbbbbbbbbbbbbbbbbbbbbbbbbbbbbbbbbbbbbbbbbbbbbbbbbbbbbbbbbbbbbbbbbbbbbbbbbbbbbbbbbbbbbbbbbbbbbbbbbbbbbbbbbbbbbbbbbbbbbbbbbbbbbbbbbbbbbbbbbbbbbbbbbbbbbbbbbbbbbbbbbbbbbbbbbbbbbbbbbbbbbbbbbbbbbbbbbbbbbbbbbbbbbbbbbbbbbbbbbbbbbbbbbbbbbbbbbbbbbbbbbbbbbbbbb","MD5OfBody":"8024cdcf93b5f41fa5699800fac49be6","MessageId":"00000000-0000-0001-0000-000000000001","ReceiptHandle":"000000000000000100000000000000010000000000000001"},{"Body":"cccccccccccccccccccccccccccccccccccccccccccccccccccccccccccccccccccccccccccccccccccccccccccccccccccccccccccccccccccccccccccccccccccccccccccccccccccccccccccccccccccccccccccccccccccccccccccccccccccccccccccccccccccccccccccccccccccccccccccccccccccccccccccccccccccccccccccccccccccccccccccccccccccccccccccccccccccccccccccccccccccccccccccccccccccccccccccccccccccccccccccccccccccccccccccccccccccccccccccccccccccccccccccccccccccccccccccccccccccccccccccccccccccccccccccccccccccccccccccccccccccccccccccccccccccc","MD5OfBody":"84baf13137eb70974cdf4aacdf147ab7","MessageId":"00000000-0000-0001-0000-000000000002","ReceiptHandle":"000000000000000100000000000000020000000000000001"},{"Body":"dddddddddddddddddddddddddddddddddddddddddddddddddddddddddddddddddddddddddddddddddddddddddddddddddddddddddddddddddddddddddddddddddddddddddddddddddddddddddddddddddddddddddddddddddddddddddddddddddddddddddddddddddddddddddddddddddddddddddddddddddddddddddddddddddddddddddddddddddddddddddddddddddddddddddddddddddddddddddddddddddddddddddddddddddddddddddddddddddddddddddddddddddddddddddddddddddddddddddddddddddddddddddddddddddddddddddddddddddddddddddddddddddddddddddddddddddddddddddddddddddddddddddddddddddddd","MD5OfBody":"614a9dcef86a55bd43d2face6bfff742","MessageId":"00000000-0000-0001-0000-000000000003","ReceiptHandle":"000000000000000100000000000000030000000000000001"},{"Body":"eeeeeeeeeeeeeeeeeeeeeeeeeeeeeeeeeeeeeeeeeeeeeeeeeeeeeeeeeeeeeeeeeeeeeeeeeeeeeeeeeeeeeeeeeeeeeeeeeeeeeeeeeeeeeeeeeeeeeeeeeeeeeeeeeeeeeeeeeeeeeeeeeeeeeeeeeeeeeeeeeeeeeeeeeeeeeeeeeeeeeeeeeeeeeeeeeeeeeeeeeeeeeeeeeeeeeeeeeeeeeeeeeeeeeeeeeeeeeeeeeeeeeeeeeeeeeeeeeeeeeeeeeeeeeeeeeeeeeeeeeeeeeeeeeeeeeeeeeeeeeeeeeeeeeeeeeeeeeeeeeeeeeeeeeeeeeeeeeeeeeeeeeeeeeeeeeeeeeeeeeeeeeeeeeeeeeeeeeeeeeeeeeeeeeeeeeeeeeeeeeeeeeeeeeeeeeeeeeeeeeeeeeeeeeeeeeeeeeeeeeeeeeeeeeeeeeeeeeeeeeeeeeeeeeeeeeeeeeeeeeeeeeeeeeeeeeeeeeeee","MD5OfBody":"454816a537fb9a0e0aa8bef48f089dec","MessageId":"00000000-0000-0001-0000-000000000004","ReceiptHandle":"000000000000000100000000000000040000000000000001"},{"Body":"ffffffffffffffffffffffffffffffffffffffffffffffffffffffffffffffffffffffffffffffffffffffffffffffffffffffffffffffffffffffffffffffffffffffffffffffffffffffffffffffffffffffffffffffffffffffffffffffffffffffffffffffffffffffffffffffffffffffffffffffffffffffffffffffffffffffffffffffffffffffffffffffffffffffffffffffffffffffffffffffffffffffffffffffffffffffffffffffffffffffffffffffffffffffffffffffffffffffffffffffffffffffffffffffffffffffffffffffffffffffffffffffffffffffffffffffffffffffffffffffffffffffffffffffffffff","MD5OfBody":"b50ebcdcddc34a74a528698841e3abac","MessageId":"00000000-0000-0001-0000-000000000005","ReceiptHandle":"000000000000000100000000000000050000000000000001"},{"Body":"gggggggggggggggggggggggggggggggggggggggggggggggggggggggggggggggggggggggggggggggggggggggggggggggggggggggggggggggggggggggggggggggggggggggggggggggggggggggggggggggggggggggggggggggggggggggggggggggggggggggggggggggggggggggggggggggggggggggggggggggggggggggggggggggggggggggggggggggggggggggggggggggggggggggggggggggggggggggggggggggggggggggggggggggggggggggggggggggggggggggggggggggggggggggggggggggggggggggggggggggggggggggggggggggggggggggggggggggggggggggggggggggggggggggggggggggggggggggggggggggggggggggggggggggggggg","MD5OfBody":"a5396873796d6f477be04a6d26634bb5","MessageId":"00000000-0000-0001-0000-000000000006","ReceiptHandle":"000000000000000100000000000000060000000000000001"},{"Body":"hhhhhhhhhhhhhhhhhhhhhhhhhhhhhhhhhhhhhhhhhhhhhhhhhhhhhhhhhhhhhhhhhhhhhhhhhhhhhhhhhhhhhhhhhhhhhhhhhhhhhhhhhhhhhhhhhhhhhhhhhhhhhhhhhhhhhhhhhhhhhhhhhhhhhhhhhhhhhhhhhhhhhhhhhhhhhhhhhhhhhhhhhhhhhhhhhhhhhhhhhhhhhhhhhhhhhhhhhhhhhhhhhhhhhhhhhhhhhhhhhhhhhhhhhhhhhhhhhhhhhhhhhhhhhhhhhhhhhhhhhhhhhhhhhhhhhhhhhhhhhhhhhhhhhhhhhhhhhhhhhhhhhhhhhhhhhhhhhhhhhhhhhhhhhhhhhhhhhhhhhhhhhhhhhhhhhhhhhhhhhhhhhhhhhhhhhhhhhhhhhhhhhhhhhhhhhhhhhhhhhhhhhhhhhhhhhhhhhhhhhhhhhhhhhhhhhhhhhhhhhhhhhhhhhhhhhhhhhhhhhhhhhhhhhhhhhhhhhhhh","MD5OfBody":"33f85871e3506a0b25454e450604e6b3","MessageId":"00000000-0000-0001-0000-000000000007","ReceiptHandle":"000000000000000100000000000000070000000000000001"},{"Body":"iiiiiiiiiiiiiiiiiiiiiiiiiiiiiiiiiiiiiiiiiiiiiiiiiiiiiiiiiiiiiiiiiiiiiiiiiiiiiiiiiiiiiiiiiiiiiiiiiiiiiiiiiiiiiiiiiiiiiiiiiiiiiiiiiiiiiiiiiiiiiiiiiiiiiiiiiiiiiiiiiiiiiiiiiiiiiiiiiiiiiiiiiiiiiiiiiiiiiiiiiiiiiiiiiiiiiiiiiiiiiiiiiiiiiiiiiiiiiiiiiiiiiiiiiiiiiiiiiiiiiiiiiiiiiiiiiiiiiiiiiiiiiiiiiiiiiiiiiiiiiiiiiiiiiiiiiiiiiiiiiiiiiiiiiiiiiiiiiiiiiiiiiiiiiiiiiiiiiiiiiiiiiiiiiiiiiiiiiiiiiiiiiiiiiiiiiiiiiiiiiiiiiiiiiiiiiiiiiiiiiiiiiiiiiiiiiiiiiiiiiiiiiiiiiiiiiiiiiiiiiiiiiiiiiiiiiiiiiiiiiiiiiiiiiiiiiiiiiiii","MD5OfBody":"86ad7868aeb97080f870a386906988d6","MessageId":"00000000-0000-0001-0000-000000000008","ReceiptHandle":"000000000000000100000000000000080000000000000001"},{"Body":"jjjjjjjjjjjjjjjjjjjjjjjjjjjjjjjjjjjjjjjjjjjjjjjjjjjjjjjjjjjjjjjjjjjjjjjjjjjjjjjjjjjjjjjjjjjjjjjjjjjjjjjjjjjjjjjjjjjjjjjjjjjjjjjjjjjjjjjjjjjjjjjjjjjjjjjjjjjjjjjjjjjjjjjjjjjjjjjjjjjjjjjjjjjjjjjjjjjjjjjjjjjjjjjjjjjjjjjjjjjjjjjjjjjjjjjjjjjjjjjjjjjjjjjjjjjjjjjjjjjjjjjjjjjjjjjjjjjjjjjjjjjjjjjjjjjjjjjjjjjjjjjjjjjjjjjjjjjjjjjjjjjjjjjjjjjjjjjjjjjjjjjjjjjjjjjjjjjjjjjjjjjjjjjjjjjjjjjjjjjjjjjjjjjjjjjjjjjjjjjjjjjjjjjjjjjjjjjjjjjjjjjjjjjjjjjjjjjjjjjjjjjjjjjjjjjjjjjjjjjjjjjjjjjjjjjjjjjjjjjjjjjjjjjjjjjjjjjjjjjj","MD5OfBody":"2e6539fbe9e49dc4dc34eecff204a0ff","MessageId":"00000000-0000-0001-0000-000000000009","ReceiptHandle":"000000000000000100000000000000090000000000000001"}]}
A asks GetQueueAttributes {"QueueUrl":"jobs","AttributeNames":["CreatedTimestamp"]}
A lacks "CreatedTimestamp":"0"

a batch, of which an entry that cannot be read fails by itself and takes no number
[[queue]]
name = "jobs"
--
A asks SendMessageBatch {"QueueUrl":"jobs","Entries":[{"Id":"x","MessageBody":"\u0001"},{"Id":"y","MessageBody":"b"}]}
A gets 200 {"Failed":[{"Code":"InvalidMessageContents","Id":"x","Message":"Characters not allowed in the message.","SenderFault":true}],"Successful":[{"Id":"y","MD5OfMessageBody":"92eb5ffee6ae2fec3ad71c777531578f","MessageId":"00000000-0000-0001-0000-000000000000"}]}

batches of which each entry is done or refused by itself, and what they leave
[[queue]]
name = "jobs"
visibility_timeout = 600
--
A asks SendMessageBatch {"QueueUrl":"jobs","Entries":[{"Id":"x","MessageBody":"a"},{"Id":"y","MessageBody":"b"},{"Id":"z","MessageBody":"c"}]}
A gets 200 {"Failed":[],"Successful":[{"Id":"x","MD5OfMessageBody":"0cc175b9c0f1b6a831c399e269772661","MessageId":"00000000-0000-0001-0000-000000000000"},{"Id":"y","MD5OfMessageBody":"92eb5ffee6ae2fec3ad71c777531578f","MessageId":"00000000-0000-0001-0000-000000000001"},{"Id":"z","MD5OfMessageBody":"4a8a08f09d37b73795649038408b5f33","MessageId":"00000000-0000-0001-0000-000000000002"}]}
A asks ReceiveMessage {"QueueUrl":"jobs","MaxNumberOfMessages":10}
A gets 200 {"Messages":[{"Body":"a","MD5OfBody":"0cc175b9c0f1b6a831c399e269772661","MessageId":"00000000-0000-0001-0000-000000000000","ReceiptHandle":"000000000000000100000000000000000000000000000001"},{"Body":"b","MD5OfBody":"92eb5ffee6ae2fec3ad71c777531578f","MessageId":"00000000-0000-0001-0000-000000000001","ReceiptHandle":"000000000000000100000000000000010000000000000001"},{"Body":"c","MD5OfBody":"4a8a08f09d37b73795649038408b5f33","MessageId":"00000000-0000-0001-0000-000000000002","ReceiptHandle":"000000000000000100000000000000020000000000000001"}]}
A asks ChangeMessageVisibilityBatch {"QueueUrl":"jobs","Entries":[{"Id":"v","ReceiptHandle":"000000000000000100000000000000000000000000000001","VisibilityTimeout":0},{"Id":"w","ReceiptHandle":"none","VisibilityTimeout":0},{"Id":"x","ReceiptHandle":"000000000000000100000000000000010000000000000001","VisibilityTimeout":0},{"Id":"y","ReceiptHandle":"000000000000000100000000000000000000000000000001","VisibilityTimeout":0}]}
A gets 200 {"Failed":[{"Code":"ReceiptHandleIsInvalid","Id":"w","Message":"The receipt handle is not valid.","SenderFault":true},{"Code":"MessageNotInflight","Id":"y","Message":"The message is not in flight.","SenderFault":true}],"Successful":[{"Id":"v"},{"Id":"x"}]}
A asks GetQueueAttributes {"QueueUrl":"jobs","AttributeNames":["ApproximateNumberOfMessages","ApproximateNumberOfMessagesDelayed","ApproximateNumberOfMessagesNotVisible"]}
A gets 200 {"Attributes":{"ApproximateNumberOfMessages":"2","ApproximateNumberOfMessagesDelayed":"0","ApproximateNumberOfMessagesNotVisible":"1"}}
A asks DeleteMessageBatch {"QueueUrl":"jobs","Entries":[{"Id":"v","ReceiptHandle":"000000000000000100000000000000020000000000000001"},{"Id":"w","ReceiptHandle":"000000000000000100000000000000090000000000000001"},{"Id":"x","ReceiptHandle":"000000000000000100000000000000000000000000000001"}]}
A gets 200 {"Failed":[{"Code":"ReceiptHandleIsInvalid","Id":"w","Message":"The receipt handle is not valid.","SenderFault":true}],"Successful":[{"Id":"v"},{"Id":"x"}]}
A asks GetQueueAttributes {"QueueUrl":"jobs","AttributeNames":["ApproximateNumberOfMessages","ApproximateNumberOfMessagesDelayed","ApproximateNumberOfMessagesNotVisible"]}
A gets 200 {"Attributes":{"ApproximateNumberOfMessages":"1","ApproximateNumberOfMessagesDelayed":"0","ApproximateNumberOfMessagesNotVisible":"0"}}
A asks ReceiveMessage {"QueueUrl":"jobs","MaxNumberOfMessages":10}
A gets 200 {"Messages":[{"Body":"b","MD5OfBody":"92eb5ffee6ae2fec3ad71c777531578f","MessageId":"00000000-0000-0001-0000-000000000001","ReceiptHandle":"000000000000000100000000000000010000000000000002"}]}
A asks SendMessageBatch {"QueueUrl":"nosuch","Entries":[{"Id":"x","MessageBody":"a"},{"Id":"y","MessageBody":"b"},{"Id":"z","MessageBody":"c"}]}
A gets 400 {"__type":"com.amazonaws.sqs#QueueDoesNotExist","message":"The specified queue does not exist."}

each setting of a configured queue, and its alarms in the order of the file
[[queue]]
name = "jobs"
delay_seconds = 600
maximum_message_size = 2048
retention_seconds = 6000
visibility_timeout = 7
wait_seconds = 2
[[alarm]]
queue = "jobs"
name = "deep"
metric = "ApproximateNumberOfMessagesVisible"
operator = "GreaterThanThreshold"
threshold = 0
minutes = 3
[[alarm]]
queue = "jobs"
name = "busy"
metric = "NumberOfMessagesSent"
operator = "GreaterThanThreshold"
threshold = 0
minutes = 3
--
A asks GetQueueAttributes {"QueueUrl":"jobs","AttributeNames":["DelaySeconds","MaximumMessageSize","MessageRetentionPeriod","ReceiveMessageWaitTimeSeconds","VisibilityTimeout"]}
A gets 200 {"Attributes":{"DelaySeconds":"600","MaximumMessageSize":"2048","MessageRetentionPeriod":"6000","ReceiveMessageWaitTimeSeconds":"2","VisibilityTimeout":"7"}}
a views /statistics/queues/jobs/alarms
a gets 200 application/json {"alarms":[{"name":"deep","state":"INSUFFICIENT_DATA"},{"name":"busy","state":"INSUFFICIENT_DATA"}]}

queues that share a target, in the order of their names, and one that is asked for again with its policy, and with another
[[queue]]
name = "dead"
--
A asks CreateQueue {"QueueName":"late","Attributes":{"RedrivePolicy":"{\"deadLetterTargetArn\":\"arn:aws:sqs:elasticmq:000000000000:dead\",\"maxReceiveCount\":3}"}}
A gets 200 {"QueueUrl":"http://localhost:PORT/000000000000/late"}
A asks CreateQueue {"QueueName":"early","Attributes":{"RedrivePolicy":"{\"deadLetterTargetArn\":\"arn:aws:sqs:elasticmq:000000000000:dead\",\"maxReceiveCount\":3}"}}
A gets 200 {"QueueUrl":"http://localhost:PORT/000000000000/early"}
A asks ListDeadLetterSourceQueues {"QueueUrl":"dead"}
A gets 200 {"queueUrls":["http://localhost:PORT/000000000000/early","http://localhost:PORT/000000000000/late"]}
A asks CreateQueue {"QueueName":"late","Attributes":{"RedrivePolicy":"{\"deadLetterTargetArn\":\"arn:aws:sqs:elasticmq:000000000000:dead\",\"maxReceiveCount\":3}"}}
A gets 200 {"QueueUrl":"http://localhost:PORT/000000000000/late"}
A asks CreateQueue {"QueueName":"late","Attributes":{"RedrivePolicy":"{\"deadLetterTargetArn\":\"arn:aws:sqs:elasticmq:000000000000:early\",\"maxReceiveCount\":3}"}}
A begins 400 {"__type":"com.amazonaws.sqs#QueueNameExists",

settings that a creation gives, and that are read, compared and changed
--
A asks CreateQueue {"QueueName":"jobs","Attributes":{"VisibilityTimeout":"7","DelaySeconds":"600","MessageRetentionPeriod":"6000","ReceiveMessageWaitTimeSeconds":"2","MaximumMessageSize":"2048"}}
A gets 200 {"QueueUrl":"http://localhost:PORT/000000000000/jobs"}
A asks GetQueueAttributes {"QueueUrl":"jobs","AttributeNames":["DelaySeconds","MaximumMessageSize","MessageRetentionPeriod","QueueArn","ReceiveMessageWaitTimeSeconds","VisibilityTimeout"]}
A gets 200 {"Attributes":{"DelaySeconds":"600","MaximumMessageSize":"2048","MessageRetentionPeriod":"6000","QueueArn":"arn:aws:sqs:elasticmq:000000000000:jobs","ReceiveMessageWaitTimeSeconds":"2","VisibilityTimeout":"7"}}
A asks GetQueueAttributes {"QueueUrl":"jobs","AttributeNames":["CreatedTimestamp"]}
A begins 200 {"Attributes":{"CreatedTimestamp":"
A asks GetQueueAttributes {"QueueUrl":"jobs","AttributeNames":["CreatedTimestamp"]}
A lacks "0"
A asks SendMessage {"QueueUrl":"jobs","MessageBody":"a"}
A gets 200 {"MD5OfMessageBody":"0cc175b9c0f1b6a831c399e269772661","MessageId":"00000000-0000-0001-0000-000000000000"}
A asks GetQueueAttributes {"QueueUrl":"jobs","AttributeNames":["ApproximateNumberOfMessages","ApproximateNumberOfMessagesDelayed","ApproximateNumberOfMessagesNotVisible"]}
A gets 200 {"Attributes":{"ApproximateNumberOfMessages":"0","ApproximateNumberOfMessagesDelayed":"1","ApproximateNumberOfMessagesNotVisible":"0"}}
A asks CreateQueue {"QueueName":"jobs","Attributes":{"VisibilityTimeout":"8"}}
A gets 400 {"__type":"com.amazonaws.sqs#QueueNameExists","message":"A queue of this name exists with other attributes."}
A asks CreateQueue {"QueueName":"jobs","Attributes":{"VisibilityTimeout":"7"}}
A gets 200 {"QueueUrl":"http://localhost:PORT/000000000000/jobs"}
A asks SetQueueAttributes {"QueueUrl":"jobs","Attributes":{"VisibilityTimeout":"8"}}
A gets 200 {}
A asks CreateQueue {"QueueName":"jobs","Attributes":{"VisibilityTimeout":"7"}}
A gets 400 {"__type":"com.amazonaws.sqs#QueueNameExists","message":"A queue of this name exists with other attributes."}

limits that are configured: two messages in flight, and a journal that may weigh six, which five messages fill
[limits]
in_flight = 2
max_lines = 6
[[queue]]
name = "jobs"
visibility_timeout = 600
--
A asks SendMessageBatch {"QueueUrl":"jobs","Entries":[{"Id":"x","MessageBody":"a"},{"Id":"y","MessageBody":"b"},{"Id":"z","MessageBody":"c"}]}
A begins 200 {"Failed":[],
A asks ReceiveMessage {"QueueUrl":"jobs","MaxNumberOfMessages":10}
A gets 200 {"Messages":[{"Body":"a","MD5OfBody":"0cc175b9c0f1b6a831c399e269772661","MessageId":"00000000-0000-0001-0000-000000000000","ReceiptHandle":"000000000000000100000000000000000000000000000001"},{"Body":"b","MD5OfBody":"92eb5ffee6ae2fec3ad71c777531578f","MessageId":"00000000-0000-0001-0000-000000000001","ReceiptHandle":"000000000000000100000000000000010000000000000001"}]}
A asks ReceiveMessage {"QueueUrl":"jobs"}
A gets 400 {"__type":"com.amazonaws.sqs#OverLimit","message":"A limit is reached."}
A asks SendMessageBatch {"QueueUrl":"jobs","Entries":[{"Id":"x","MessageBody":"d"},{"Id":"y","MessageBody":"e"}]}
A begins 200 {"Failed":[],
A asks SendMessage {"QueueUrl":"jobs","MessageBody":"f"}
A gets 500 {"__type":"com.amazonaws.sqs#JournalFull","message":"The journal of the queue is full."}
A asks SendMessageBatch {"QueueUrl":"jobs","Entries":[{"Id":"x","MessageBody":"f"},{"Id":"y","MessageBody":"g"}]}
A gets 200 {"Failed":[{"Code":"JournalFull","Id":"x","Message":"The journal of the queue is full.","SenderFault":false},{"Code":"JournalFull","Id":"y","Message":"The journal of the queue is full.","SenderFault":false}],"Successful":[]}
A asks GetQueueAttributes {"QueueUrl":"jobs","AttributeNames":["ApproximateNumberOfMessages","ApproximateNumberOfMessagesDelayed","ApproximateNumberOfMessagesNotVisible"]}
A gets 200 {"Attributes":{"ApproximateNumberOfMessages":"3","ApproximateNumberOfMessagesDelayed":"0","ApproximateNumberOfMessagesNotVisible":"2"}}
A asks DeleteQueue {"QueueUrl":"jobs"}
A gets 200 {}

queues that are created, found, listed and deleted
[[queue]]
name = "alpha"
--
A asks CreateQueue {"QueueName":"beta","Attributes":{"RedrivePolicy":"{\"deadLetterTargetArn\":\"arn:aws:sqs:elasticmq:000000000000:alpha\",\"maxReceiveCount\":3}"}}
A gets 200 {"QueueUrl":"http://localhost:PORT/000000000000/beta"}
A asks CreateQueue {"QueueName":"beta","Attributes":{"VisibilityTimeout":"5"}}
A gets 400 {"__type":"com.amazonaws.sqs#QueueNameExists","message":"A queue of this name exists with other attributes."}
A asks GetQueueUrl {"QueueName":"beta"}
A gets 200 {"QueueUrl":"http://localhost:PORT/000000000000/beta"}
A asks GetQueueUrl {"QueueName":"gamma"}
A gets 400 {"__type":"com.amazonaws.sqs#QueueDoesNotExist","message":"The specified queue does not exist."}
A asks ListQueues {}
A gets 200 {"QueueUrls":["http://localhost:PORT/000000000000/alpha","http://localhost:PORT/000000000000/beta"]}
A asks ListQueues {"QueueNamePrefix":"b"}
A gets 200 {"QueueUrls":["http://localhost:PORT/000000000000/beta"]}
A asks ListDeadLetterSourceQueues {"QueueUrl":"http://localhost:PORT/000000000000/alpha"}
A gets 200 {"queueUrls":["http://localhost:PORT/000000000000/beta"]}
A asks SetQueueAttributes {"QueueUrl":"beta","Attributes":{"RedrivePolicy":""}}
A gets 200 {}
A asks ListDeadLetterSourceQueues {"QueueUrl":"http://localhost:PORT/000000000000/alpha"}
A gets 200 {"queueUrls":[]}
A asks DeleteQueue {"QueueUrl":"http://localhost:PORT/000000000000/alpha"}
A gets 200 {}
A asks GetQueueUrl {"QueueName":"alpha"}
A gets 400 {"__type":"com.amazonaws.sqs#QueueDoesNotExist","message":"The specified queue does not exist."}

a message that was received as often as it may be is found in the dead-letter queue
[[queue]]
name = "dead"
[[queue]]
name = "jobs"
visibility_timeout = 0
dead_letter_queue = "dead"
max_receive_count = 1
--
A asks SendMessage {"QueueUrl":"jobs","MessageBody":"a"}
A begins 200 {
A asks ReceiveMessage {"QueueUrl":"jobs"}
A begins 200 {"Messages":[{"Body":"a"
A asks ReceiveMessage {"QueueUrl":"jobs"}
A gets 200 {}
A asks ReceiveMessage {"QueueUrl":"dead","WaitTimeSeconds":20}
A gets 200 {"Messages":[{"Body":"a","MD5OfBody":"0cc175b9c0f1b6a831c399e269772661","MessageId":"00000000-0000-0002-0000-000000000000","ReceiptHandle":"000000000000000100000000000000000000000000000001"}]}

policies that are configured, cleared, given, and refused
[[queue]]
name = "dead"
[[queue]]
name = "jobs"
dead_letter_queue = "dead"
max_receive_count = 1
--
A asks ListDeadLetterSourceQueues {"QueueUrl":"dead"}
A gets 200 {"queueUrls":["http://localhost:PORT/000000000000/jobs"]}
A asks SetQueueAttributes {"QueueUrl":"jobs","Attributes":{"RedrivePolicy":""}}
A gets 200 {}
A asks ListDeadLetterSourceQueues {"QueueUrl":"dead"}
A gets 200 {"queueUrls":[]}
A asks SetQueueAttributes {"QueueUrl":"jobs","Attributes":{"RedrivePolicy":"{\"deadLetterTargetArn\":\"arn:aws:sqs:elasticmq:000000000000:dead\",\"maxReceiveCount\":2}"}}
A gets 200 {}
A asks SetQueueAttributes {"QueueUrl":"jobs","Attributes":{"RedrivePolicy":"{\"deadLetterTargetArn\":\"arn:aws:sqs:elasticmq:000000000000:nosuch\",\"maxReceiveCount\":2}"}}
A gets 400 {"__type":"com.amazonaws.sqs#InvalidAttributeValue","message":"Attribute value not allowed."}
A asks ListDeadLetterSourceQueues {"QueueUrl":"dead"}
A gets 200 {"queueUrls":["http://localhost:PORT/000000000000/jobs"]}

a message that is made visible again, and then purged
[[queue]]
name = "jobs"
--
A asks SendMessage {"QueueUrl":"jobs","MessageBody":"a"}
A begins 200 {
A asks ReceiveMessage {"QueueUrl":"jobs"}
A begins 200 {"Messages":[{
A asks GetQueueAttributes {"QueueUrl":"jobs","AttributeNames":["ApproximateNumberOfMessages","ApproximateNumberOfMessagesNotVisible"]}
A gets 200 {"Attributes":{"ApproximateNumberOfMessages":"0","ApproximateNumberOfMessagesNotVisible":"1"}}
A asks ChangeMessageVisibility {"QueueUrl":"jobs","ReceiptHandle":"000000000000000100000000000000000000000000000001","VisibilityTimeout":0}
A gets 200 {}
A asks GetQueueAttributes {"QueueUrl":"jobs","AttributeNames":["ApproximateNumberOfMessages","ApproximateNumberOfMessagesNotVisible"]}
A gets 200 {"Attributes":{"ApproximateNumberOfMessages":"1","ApproximateNumberOfMessagesNotVisible":"0"}}
A asks ChangeMessageVisibility {"QueueUrl":"jobs","ReceiptHandle":"000000000000000100000000000000000000000000000001","VisibilityTimeout":0}
A gets 400 {"__type":"com.amazonaws.sqs#MessageNotInflight","message":"The message is not in flight."}
A asks PurgeQueue {"QueueUrl":"jobs"}
A gets 200 {}
A asks GetQueueAttributes {"QueueUrl":"jobs","AttributeNames":["ApproximateNumberOfMessages","ApproximateNumberOfMessagesNotVisible"]}
A gets 200 {"Attributes":{"ApproximateNumberOfMessages":"0","ApproximateNumberOfMessagesNotVisible":"0"}}

a target that is missing, foreign or of no action, and another method
--
A sends POST / HTTP/1.1~Host: localhost~Content-Length: 2~~{}
A gets 400 {"__type":"com.amazonaws.sqs#UnsupportedOperation","message":"The action is not supported."}
B sends POST / HTTP/1.1~Host: localhost~X-Amz-Target: DynamoDB_20120810.ListQueues~Content-Length: 2~~{}
B gets 400 {"__type":"com.amazonaws.sqs#UnsupportedOperation","message":"The action is not supported."}
C asks Foo {
C gets 400 {"__type":"com.amazonaws.sqs#UnsupportedOperation","message":"The action is not supported."}
D sends GET / HTTP/1.1~Host: localhost~~
D gets 405 {"message":"method not allowed"}

what is told on standard error: requests that were refused, and nothing of others
[[queue]]
name = "jobs"
--
A asks SendMessage {"QueueUrl":"jobs","MessageBody":""}
A begins 400 {
A logs SendMessage jobs 400 InvalidParameterValue: MessageBody is empty
A asks SendMessage {"QueueUrl":"jobs","MessageBody":"a"}
A begins 200 {
A asks SendMessageBatch {"QueueUrl":"jobs","Entries":[{"Id":"a","MessageBody":"b"},{"Id":"b","MessageBody":"c","DelaySeconds":901}]}
A begins 200 {"Failed":[{"Code":"InvalidParameterValue","Id":"b"
A logs SendMessageBatch jobs 200 InvalidParameterValue: Entries[1].DelaySeconds is 901, and 0 to 900 is wanted; 1 entry was refused: "b"
A asks ReceiveMessage {"QueueUrl":"http://localhost:9324/000000000000/nosuch"}
A begins 400 {
A logs ReceiveMessage nosuch 400 QueueDoesNotExist: QueueUrl names the queue nosuch, and no open queue has this name
A asks Foo {}
A begins 400 {
A logs - - 400 UnsupportedOperation: The action Foo is not served
A sends GET / HTTP/1.1~Host: localhost~~
A begins 405 {
A logs - - 405 MethodNotAllowed: its method is not POST; the page, statistics and metrics are at the other port
A sends POST / HTTP/1.1~Host: localhost~Origin: http://example.com~Content-Length: 2~~{}
A begins 403 {
A logs - - 403 Forbidden: the request has the header Origin, as requests of web pages do
a views /metrics
a holds jutkariq_requests_total{action="SendMessage",status="200"} 1
a views /metrics
a holds jutkariq_requests_total{action="SendMessage",status="400"} 1
a views /metrics
a holds jutkariq_requests_total{action="ReceiveMessage",status="400"} 1
a views /metrics
a holds jutkariq_requests_total{action="-",status="405"} 1
a views /metrics
a lacks action="DeleteMessage"
a views /health
a gets 200 application/json {"status":"ok"}

an origin, as a web page has it, whatever the method and the announced size are; and none
--
A sends POST / HTTP/1.1~Host: localhost~Origin: http://localhost:9325~X-Amz-Target: AmazonSQS.ListQueues~Content-Length: 2~~{}
A gets 403 {"message":"requests of web pages are not answered"}
B sends OPTIONS / HTTP/1.1~Host: localhost~Origin: https://example.com~~
B gets 403 {"message":"requests of web pages are not answered"}
C sends PUT / HTTP/1.1~Host: localhost~Origin: null~Expect: 100-continue~Content-Length: 8388609~~
C gets 403 {"message":"requests of web pages are not answered"}
D sends POST / HTTP/1.1~Host: example.com~X-Amz-Target: AmazonSQS.ListQueues~Content-Length: 2~~{}
D gets 200 {"QueueUrls":[]}

hosts at the port of the statistics: the machine's own names, with a port and without one, and others
--
a sends GET /statistics/queues HTTP/1.1~Host: localhost~~
a gets 200 application/json {"queues":[]}
a sends GET /statistics/queues HTTP/1.1~Host: localhost:9325~~
a gets 200 application/json {"queues":[]}
a sends GET /statistics/queues HTTP/1.1~Host: 127.0.0.1~~
a gets 200 application/json {"queues":[]}
a sends GET /statistics/queues HTTP/1.1~Host: 127.0.0.1:80~~
a gets 200 application/json {"queues":[]}
a sends GET /statistics/queues HTTP/1.1~Host: [::1]~~
a gets 200 application/json {"queues":[]}
a sends GET /statistics/queues HTTP/1.1~Host: [::1]:9325~~
a gets 200 application/json {"queues":[]}
b sends GET /statistics/queues HTTP/1.1~Host: example.com:9325~~
b gets 403 application/json {"message":"this host is not served"}
c sends GET / HTTP/1.1~Host: localhost.example.com~~
c gets 403 application/json {"message":"this host is not served"}
d sends POST /nothing HTTP/1.1~Host: 127.0.0.11~Content-Length: 0~~
d gets 403 application/json {"message":"this host is not served"}

a body that is announced with one byte too many, whatever the target is, and another method whatever is announced
--
A sends POST / HTTP/1.1~Host: localhost~X-Amz-Target: AmazonSQS.ListQueues~Expect: 100-continue~Content-Length: 8388609~~
A gets 413 {"message":"body too large"}
B sends POST / HTTP/1.1~Host: localhost~X-Amz-Target: Other.Nothing~Expect: 100-continue~Content-Length: 8388609~~
B gets 413 {"message":"body too large"}
C sends PUT / HTTP/1.1~Host: localhost~Expect: 100-continue~Content-Length: 8388609~~
C gets 405 {"message":"method not allowed"}

a body in chunks with one byte too many, and one of as many as there may be, which is no JSON
--
A sends POST / HTTP/1.1~Host: localhost~X-Amz-Target: AmazonSQS.ListQueues~Transfer-Encoding: chunked~~1~ ~
A chunks 128
A gets 413 {"message":"body too large"}
B sends POST / HTTP/1.1~Host: localhost~X-Amz-Target: AmazonSQS.ListQueues~Transfer-Encoding: chunked~~
B chunks 128
B sends 0~~
B gets 400 {"__type":"com.amazonaws.sqs#SerializationException","message":"The request cannot be read."}

a body that is announced with as many bytes as there may be, and one that is announced with more and sent, which ends its connection alone
--
A sends POST / HTTP/1.1~Host: localhost~X-Amz-Target: Other.Nothing~Content-Length: 8388608~~
A blanks 128
A gets 400 {"__type":"com.amazonaws.sqs#UnsupportedOperation","message":"The action is not supported."}
B sends POST / HTTP/1.1~Host: localhost~X-Amz-Target: AmazonSQS.ListQueues~Content-Length: 8389504~~
B blanks 128
B gets 413 {"message":"body too large"}
C asks ListQueues {}
C gets 200 {"QueueUrls":[]}

bodies that are cut, that name a queue that is not there, and that are refused before it is looked for
--
A asks SendMessage {"QueueUrl":"jo
A gets 400 {"__type":"com.amazonaws.sqs#SerializationException","message":"The request cannot be read."}
A asks SendMessage {"QueueUrl":"jobs","MessageBody":"hello"}
A gets 400 {"__type":"com.amazonaws.sqs#QueueDoesNotExist","message":"The specified queue does not exist."}
A asks SendMessage {"QueueUrl":"nosuch","MessageBody":""}
A gets 400 {"__type":"com.amazonaws.sqs#InvalidParameterValue","message":"Parameter value not allowed."}

connections that are cut in a head and in a body leave the next one answered
--
A sends POST / HTTP/1.1~Host: loc
A leaves now
B sends POST / HTTP/1.1~Host: localhost~X-Amz-Target: AmazonSQS.ListQueues~Content-Length: 20~~{
B leaves now
C asks ListQueues {}
C gets 200 {"QueueUrls":[]}

a receive that waits is answered by a send on another connection, and not before
[[queue]]
name = "jobs"
--
A asks ReceiveMessage {"QueueUrl":"jobs","WaitTimeSeconds":20}
A waits for nothing
B asks SendMessage {"QueueUrl":"jobs","MessageBody":"a"}
B begins 200 {
A gets 200 {"Messages":[{"Body":"a","MD5OfBody":"0cc175b9c0f1b6a831c399e269772661","MessageId":"00000000-0000-0001-0000-000000000000","ReceiptHandle":"000000000000000100000000000000000000000000000001"}]}

a receive that waits as its queue has it, and is then answered without messages
[[queue]]
name = "jobs"
wait_seconds = 5
--
A asks ReceiveMessage {"QueueUrl":"jobs"}
A waits for nothing
A waits for nothing
A gets 200 {}

a receive that waits is answered when its queue is deleted
[[queue]]
name = "jobs"
--
A asks ReceiveMessage {"QueueUrl":"jobs","WaitTimeSeconds":20}
A waits for nothing
B asks DeleteQueue {"QueueUrl":"jobs"}
B gets 200 {}
A gets 400 {"__type":"com.amazonaws.sqs#QueueDoesNotExist","message":"The specified queue does not exist."}

a consumer that leaves while it waits takes no message, so that the next one gets it where a message is received once at most
[[queue]]
name = "dead"
[[queue]]
name = "jobs"
dead_letter_queue = "dead"
max_receive_count = 1
--
A asks ReceiveMessage {"QueueUrl":"jobs","WaitTimeSeconds":20}
A waits for nothing
A leaves now
B waits for nothing
B asks SendMessage {"QueueUrl":"jobs","MessageBody":"a"}
B begins 200 {
B asks ReceiveMessage {"QueueUrl":"jobs"}
B begins 200 {"Messages":[{"Body":"a"

a consumer that gives up five times before its time to wait is over, and asks again, gets the message at its sixth time
[[queue]]
name = "jobs"
--
A asks ReceiveMessage {"QueueUrl":"jobs","WaitTimeSeconds":20}
A waits for nothing
A leaves now
B asks ReceiveMessage {"QueueUrl":"jobs","WaitTimeSeconds":20}
B waits for nothing
B leaves now
C asks ReceiveMessage {"QueueUrl":"jobs","WaitTimeSeconds":20}
C waits for nothing
C leaves now
D asks ReceiveMessage {"QueueUrl":"jobs","WaitTimeSeconds":20}
D waits for nothing
D leaves now
E asks ReceiveMessage {"QueueUrl":"jobs","WaitTimeSeconds":20}
E waits for nothing
E leaves now
F asks ReceiveMessage {"QueueUrl":"jobs","WaitTimeSeconds":20}
F waits for nothing
G asks SendMessage {"QueueUrl":"jobs","MessageBody":"a"}
G begins 200 {
F gets 200 {"Messages":[{"Body":"a","MD5OfBody":"0cc175b9c0f1b6a831c399e269772661","MessageId":"00000000-0000-0001-0000-000000000000","ReceiptHandle":"000000000000000100000000000000000000000000000001"}]}

deletions whose connection is cut up to five milliseconds behind them: each name is free
--
A asks CreateQueue {"QueueName":"a0"}
A gets 200 {"QueueUrl":"http://localhost:PORT/000000000000/a0"}
A asks CreateQueue {"QueueName":"a1"}
A gets 200 {"QueueUrl":"http://localhost:PORT/000000000000/a1"}
A asks CreateQueue {"QueueName":"a2"}
A gets 200 {"QueueUrl":"http://localhost:PORT/000000000000/a2"}
A asks CreateQueue {"QueueName":"a3"}
A gets 200 {"QueueUrl":"http://localhost:PORT/000000000000/a3"}
A asks CreateQueue {"QueueName":"a4"}
A gets 200 {"QueueUrl":"http://localhost:PORT/000000000000/a4"}
A asks CreateQueue {"QueueName":"a5"}
A gets 200 {"QueueUrl":"http://localhost:PORT/000000000000/a5"}
B asks DeleteQueue {"QueueUrl":"a0"}
B leaves 0
C asks DeleteQueue {"QueueUrl":"a1"}
C leaves 1
D asks DeleteQueue {"QueueUrl":"a2"}
D leaves 2
E asks DeleteQueue {"QueueUrl":"a3"}
E leaves 3
F asks DeleteQueue {"QueueUrl":"a4"}
F leaves 4
G asks DeleteQueue {"QueueUrl":"a5"}
G leaves 5
A waits for nothing
A asks ListQueues {}
A gets 200 {"QueueUrls":[]}
A asks CreateQueue {"QueueName":"a0"}
A gets 200 {"QueueUrl":"http://localhost:PORT/000000000000/a0"}
A asks CreateQueue {"QueueName":"a1"}
A gets 200 {"QueueUrl":"http://localhost:PORT/000000000000/a1"}
A asks CreateQueue {"QueueName":"a2"}
A gets 200 {"QueueUrl":"http://localhost:PORT/000000000000/a2"}
A asks CreateQueue {"QueueName":"a3"}
A gets 200 {"QueueUrl":"http://localhost:PORT/000000000000/a3"}
A asks CreateQueue {"QueueName":"a4"}
A gets 200 {"QueueUrl":"http://localhost:PORT/000000000000/a4"}
A asks CreateQueue {"QueueName":"a5"}
A gets 200 {"QueueUrl":"http://localhost:PORT/000000000000/a5"}
A asks SendMessage {"QueueUrl":"a3","MessageBody":"a"}
A begins 200 {

policies whose connection is cut up to five milliseconds behind them: the dead-letter queue has each source
[[queue]]
name = "dead"
--
A asks CreateQueue {"QueueName":"b0"}
A gets 200 {"QueueUrl":"http://localhost:PORT/000000000000/b0"}
A asks CreateQueue {"QueueName":"b1"}
A gets 200 {"QueueUrl":"http://localhost:PORT/000000000000/b1"}
A asks CreateQueue {"QueueName":"b2"}
A gets 200 {"QueueUrl":"http://localhost:PORT/000000000000/b2"}
A asks CreateQueue {"QueueName":"b3"}
A gets 200 {"QueueUrl":"http://localhost:PORT/000000000000/b3"}
A asks CreateQueue {"QueueName":"b4"}
A gets 200 {"QueueUrl":"http://localhost:PORT/000000000000/b4"}
A asks CreateQueue {"QueueName":"b5"}
A gets 200 {"QueueUrl":"http://localhost:PORT/000000000000/b5"}
B asks SetQueueAttributes {"QueueUrl":"b0","Attributes":{"RedrivePolicy":"{\"deadLetterTargetArn\":\"arn:aws:sqs:elasticmq:000000000000:dead\",\"maxReceiveCount\":2}"}}
B leaves 0
C asks SetQueueAttributes {"QueueUrl":"b1","Attributes":{"RedrivePolicy":"{\"deadLetterTargetArn\":\"arn:aws:sqs:elasticmq:000000000000:dead\",\"maxReceiveCount\":2}"}}
C leaves 1
D asks SetQueueAttributes {"QueueUrl":"b2","Attributes":{"RedrivePolicy":"{\"deadLetterTargetArn\":\"arn:aws:sqs:elasticmq:000000000000:dead\",\"maxReceiveCount\":2}"}}
D leaves 2
E asks SetQueueAttributes {"QueueUrl":"b3","Attributes":{"RedrivePolicy":"{\"deadLetterTargetArn\":\"arn:aws:sqs:elasticmq:000000000000:dead\",\"maxReceiveCount\":2}"}}
E leaves 3
F asks SetQueueAttributes {"QueueUrl":"b4","Attributes":{"RedrivePolicy":"{\"deadLetterTargetArn\":\"arn:aws:sqs:elasticmq:000000000000:dead\",\"maxReceiveCount\":2}"}}
F leaves 4
G asks SetQueueAttributes {"QueueUrl":"b5","Attributes":{"RedrivePolicy":"{\"deadLetterTargetArn\":\"arn:aws:sqs:elasticmq:000000000000:dead\",\"maxReceiveCount\":2}"}}
G leaves 5
A waits for nothing
A asks ListDeadLetterSourceQueues {"QueueUrl":"dead"}
A gets 200 {"queueUrls":["http://localhost:PORT/000000000000/b0","http://localhost:PORT/000000000000/b1","http://localhost:PORT/000000000000/b2","http://localhost:PORT/000000000000/b3","http://localhost:PORT/000000000000/b4","http://localhost:PORT/000000000000/b5"]}

statistics of a new queue, which go with it, and what is refused there
--
A asks CreateQueue {"QueueName":"jobs"}
A gets 200 {"QueueUrl":"http://localhost:PORT/000000000000/jobs"}
a views /statistics/queues/none
a gets 404 application/json {"message":"not found"}
a views /statistics/queues/no%20name/rows
a gets 404 application/json {"message":"not found"}
a views /statistics/queues/jobs/alarms
a gets 200 application/json {"alarms":[]}
a views /statistics
a gets 404 application/json {"message":"not found"}
a sends POST /statistics/queues/none HTTP/1.1~Host: localhost~Content-Length: 2~~{}
a gets 405 application/json {"message":"method not allowed"}
a sends DELETE /metrics HTTP/1.1~Host: localhost~~
a gets 405 application/json {"message":"method not allowed"}
b sends GET /statistics/queues HTTP/1.1~Host: localhost~Content-Length: 8388609~~
b gets 413 application/json {"message":"body too large"}
a views /
a begins 200 text/html; charset=utf-8 <!doctype html>
a views /metrics
a holds jutkariq_queue_messages_visible{queue="jobs"} 0
A asks DeleteQueue {"QueueUrl":"jobs"}
A gets 200 {}
a views /statistics/queues/jobs
a gets 404 application/json {"message":"not found"}
a views /statistics/queues?all
a gets 200 application/json {"queues":[]}
A asks CreateQueue {"QueueName":"jobs"}
A gets 200 {"QueueUrl":"http://localhost:PORT/000000000000/jobs"}
a views /statistics/queues/jobs
a holds "delayed":0,"inFlight":0,"lines":1,"name":"jobs","visible":0}

what is printed of each call, and of a queue that is asked nothing while time goes on
[[queue]]
name = "other"
[[queue]]
name = "jobs"
[[alarm]]
queue = "jobs"
name = "deep"
metric = "ApproximateNumberOfMessagesVisible"
operator = "GreaterThanThreshold"
threshold = 0
minutes = 3
--
a views /statistics/queues/jobs/alarms
a gets 200 application/json {"alarms":[{"name":"deep","state":"INSUFFICIENT_DATA"}]}
A asks SendMessage {"QueueUrl":"jobs","MessageBody":"later","DelaySeconds":3}
A begins 200 {"MD5OfMessageBody":"c18788c2f274c779da72d9854ea4bfbf"
a views /statistics/queues/jobs
a holds "delayed":1,"inFlight":0,"lines":2,"name":"jobs","visible":0}
a views /statistics/queues
a holds "delayed":1,"inFlight":0,"lines":2,"name":"jobs","visible":0},{"age":0,
B leaves 6000
a views /statistics/queues/jobs
a holds "delayed":0,"inFlight":0,"lines":2,"name":"jobs","visible":1}

eight connections that are open at once, each of which asks for one queue, sends a body of its own, and is answered
--
A asks CreateQueue {"QueueName":"jobs"}
B asks CreateQueue {"QueueName":"jobs"}
C asks CreateQueue {"QueueName":"jobs"}
D asks CreateQueue {"QueueName":"jobs"}
E asks CreateQueue {"QueueName":"jobs"}
F asks CreateQueue {"QueueName":"jobs"}
G asks CreateQueue {"QueueName":"jobs"}
H asks CreateQueue {"QueueName":"jobs"}
A gets 200 {"QueueUrl":"http://localhost:PORT/000000000000/jobs"}
B gets 200 {"QueueUrl":"http://localhost:PORT/000000000000/jobs"}
C gets 200 {"QueueUrl":"http://localhost:PORT/000000000000/jobs"}
D gets 200 {"QueueUrl":"http://localhost:PORT/000000000000/jobs"}
E gets 200 {"QueueUrl":"http://localhost:PORT/000000000000/jobs"}
F gets 200 {"QueueUrl":"http://localhost:PORT/000000000000/jobs"}
G gets 200 {"QueueUrl":"http://localhost:PORT/000000000000/jobs"}
H gets 200 {"QueueUrl":"http://localhost:PORT/000000000000/jobs"}
A asks ListQueues {}
A gets 200 {"QueueUrls":["http://localhost:PORT/000000000000/jobs"]}
A asks SendMessage {"QueueUrl":"jobs","MessageBody":"a"}
B asks SendMessage {"QueueUrl":"jobs","MessageBody":"b"}
C asks SendMessage {"QueueUrl":"jobs","MessageBody":"c"}
D asks SendMessage {"QueueUrl":"jobs","MessageBody":"d"}
E asks SendMessage {"QueueUrl":"jobs","MessageBody":"e"}
F asks SendMessage {"QueueUrl":"jobs","MessageBody":"f"}
G asks SendMessage {"QueueUrl":"jobs","MessageBody":"g"}
H asks SendMessage {"QueueUrl":"jobs","MessageBody":"h"}
A begins 200 {"MD5OfMessageBody":"0cc175b9c0f1b6a831c399e269772661","MessageId":"00000000-0000-0001-0000-00000000000
B begins 200 {"MD5OfMessageBody":"92eb5ffee6ae2fec3ad71c777531578f","MessageId":"00000000-0000-0001-0000-00000000000
C begins 200 {"MD5OfMessageBody":"4a8a08f09d37b73795649038408b5f33","MessageId":"00000000-0000-0001-0000-00000000000
D begins 200 {"MD5OfMessageBody":"8277e0910d750195b448797616e091ad","MessageId":"00000000-0000-0001-0000-00000000000
E begins 200 {"MD5OfMessageBody":"e1671797c52e15f763380b45e841ec32","MessageId":"00000000-0000-0001-0000-00000000000
F begins 200 {"MD5OfMessageBody":"8fa14cdd754f91cc6554c9e71929cce7","MessageId":"00000000-0000-0001-0000-00000000000
G begins 200 {"MD5OfMessageBody":"b2f5ff47436671b6e533d8dc3614845d","MessageId":"00000000-0000-0001-0000-00000000000
H begins 200 {"MD5OfMessageBody":"2510c39011c5be704182423e3a695e91","MessageId":"00000000-0000-0001-0000-00000000000
A asks GetQueueAttributes {"QueueUrl":"jobs","AttributeNames":["ApproximateNumberOfMessages"]}
A gets 200 {"Attributes":{"ApproximateNumberOfMessages":"8"}}
"#;

/// All conversations, one after another.
#[test]
fn conversations(rt: HostRuntime) -> Result<(), Fail> {
    for text in CONVERSATIONS.trim().split("\n\n") {
        let (head, steps) = text.split_once("\n--\n").ok_or("a line --")?;
        let config = head.split_once("\n").map_or("", |it| it.1);
        let server = start(&rt, &rt, config, clients_in(steps))?;
        let other = talk(&rt, &rt, &server, steps)?;
        assert!(rt; other.is_empty(), "{head}: {other}");
        assert!(rt; has_ended(&rt, &server), "{head}");
    }
    Ok(())
}

/// The server ends when as many connections have closed as were asked for, at both ports together, and not before. One
/// that is still open does not count, and does not keep it.
#[test]
fn closed_connections_are_counted(rt: HostRuntime) -> Result<(), Fail> {
    let alloc = rt.alloc();
    let server = start(&rt, &rt, "", 2)?;
    let mut open = connect(&rt, server.address)?;
    for is_last in [false, true] {
        act(alloc, &mut open, "asks", "ListQueues {}")?;
        let told = next_reply(alloc, &mut open)?;
        assert_eq!(rt; told.as_str(), r#"200 {"QueueUrls":[]}"#);
        let port = if is_last {
            server.statistics
        } else {
            server.address
        };
        let mut other = connect(&rt, port)?;
        act(alloc, &mut other, "views", "/statistics/queues")?;
        next_reply(alloc, &mut other)?;
        drop(other);
        if !is_last {
            let soon = server.ended.recv_timeout(&rt, Duration::from_millis(300));
            assert!(rt; soon.is_err());
        }
    }
    assert!(rt; has_ended(&rt, &server));
    Ok(())
}

/// A port that is taken cannot be opened.
#[test]
fn taken_port_is_refused(rt: HostRuntime) -> Result<(), Fail> {
    let first = listen(&rt, SocketAddr::from((Ipv4Addr::LOCALHOST, 0)))?;
    let Err(refused) = listen(&rt, first.address()?) else {
        return Err(Fail::from("a port that is taken"));
    };
    assert_eq!(rt; refusal_of_system(&refused), Refusal::Listen);
    Ok(())
}
