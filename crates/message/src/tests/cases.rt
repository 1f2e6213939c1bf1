//! Lines of cases, and where their answers come from.

/// What `<249>` stands for in a line: the letter `a` 249 times.
pub(super) const LETTERS: &str =
    "aaaaaaaaaaaaaaaaaaaaaaaaaaaaaaaaaaaaaaaaaaaaaaaaaaaaaaaaaaaaaaaaaaaaaaaaaaaaaaaaaaaaaaaaaaaaaaaaaaaaaaaaaaaaaaaaaaaaaaaaaaaaaaaaaaaaaaaaaaaaaaaaaaaaaaaaaaaaaaaaaaaaaaaaaaaaaaaaaaaaaaaaaaaaaaaaaaaaaaaaaaaaaaaaaaaaaaaaaaaaaaaaaaaaaaaaaaaaaaaaaaaaaaaaa";

/// Behind an arrow stands what [`told`](super::told) says of the text before it, or the name of its
/// refusal. `<A~B>` makes two texts of a line, one with A in that place and one with B; `LF` between
/// the brackets is a line feed. What begins with `//` says what the next lines show.
pub(super) const CASES: &str = "\
// Amazon SQS API Reference, CreateQueue: \"A queue name can have up to 80 characters. Valid values:
// alphanumeric characters, hyphens (-), and underscores (_).\" Each class at its borders. Case counts.
queue <0~9~A~Z~a~z~-~_~jobs-2_B> => true true
queue abcdefghij-klmnopqrs_ABCDEFGHIJKLMNOPQRSTUVWXYZ0123456789abcdefghij0123456789end => true true
queue jobs-2_B=Jobs-2_B => true false
queue abcdefghij-klmnopqrs_ABCDEFGHIJKLMNOPQRSTUVWXYZ0123456789abcdefghij0123456789end1 => InvalidParameterValue
queue <~/~:~@~[~`~{~.~ ~\u{7F}~\u{0}~LF~é~jobs.fifo~jobs ~a/b~naïve> => InvalidParameterValue
// An id's halves are the hexadecimal digits of the uid and of the number. It is read in the forms that
// RFC 9562 and its URN namespace write a UUID in, and from no other text.
id 00000000-0000-0001-0000-000000000000 => 1 0 00000000-0000-0001-0000-000000000000
id 00000000-0000-03e9-0000-000000000000 => 3e9 0 00000000-0000-03e9-0000-000000000000
id ffffffff-ffff-ffff-ffff-ffffffffffff => ffffffffffffffff ffffffffffffffff ffffffff-ffff-ffff-ffff-ffffffffffff
id <01234567-89ab-cdef-0fed-cba987654321~01234567-89AB-CDEF-0FED-CBA987654321~0123456789abcdef0fedcba987654321~0123456789ABCDEF0FEDCBA987654321~{01234567-89ab-cdef-0fed-cba987654321}~{01234567-89AB-CDEF-0FED-CBA987654321}~urn:uuid:01234567-89ab-cdef-0fed-cba987654321~URN:UUID:01234567-89AB-CDEF-0FED-CBA987654321> => 123456789abcdef fedcba987654321 01234567-89ab-cdef-0fed-cba987654321
id <~0123456789abcdef0fedcba98765432~0123456789abcdef0fedcba9876543210~0123456789abcdef0fedcba98765432g~01234567-89ab-cdef-0fed-cba98765432~01234567-89ab-cdef-0fed-cba9876543210~01234567-89ab-cdef-0fed-cba98765432é> => none
id <0123456-789ab-cdef-0fed-cba987654321~(01234567-89ab-cdef-0fed-cba987654321)~{0123456789abcdef0fedcba987654321}~{01234567-89ab-cdef-0fed-cba987654321} > => none
id urn:<uid:01234567-89ab-cdef-0fed-cba987654321~uuid:01234567-89ab-cdef-0fed-cba98765432~uuid:01234567-89ab-cdef-0fed-cba9876543210> => none
// The characters at the borders of what the Amazon SQS API Reference allows in SendMessage: #x9 | #xA
// | #xD | #x20 to #xD7FF | #xE000 to #xFFFD | #x10000 to #x10FFFF. Sizes are those of UTF-8 (RFC 3629).
size <a~\u{9}~LF~\u{D}~\u{20}~\u{7F}> => 1
size \u{7FF} => 2
size <a\u{80}~\u{800}~\u{D7FF}~\u{E000}~\u{FFFD}> => 3
size \u{10000} => 4
size \u{10FFFF}z => 5
size <\u{0}~\u{8}~\u{B}~\u{C}~\u{E}~\u{1F}~\u{FFFE}~\u{FFFF}~\u{1F}a~a\u{B}a~a\u{FFFE}> => InvalidMessageContents
size  => InvalidParameterValue
parts naïve<LF> => 7 \"naïve\\n\"
// Amazon SQS Developer Guide, Message attribute components: a name has up to 256 characters, each an
// ASCII letter, a digit, an underscore, a hyphen or a period, starts and ends with no period, has no two
// in sequence, and does not start with AWS. or Amazon. in any casing.
size a;<0~9~A~Z~a~z~-~_> => 9
size a;<a.b~AWS> => 11
size a;awsx => 12
size a;a.b.c => 13
size a;<Amazon~aws_.x> => 14
size a;<amazonx~a.aws.x> => 15
size a;xAmazon.y => 17
size a;<249>aaaaaaa => 264
size a;<249>aaaaaaaa => InvalidParameterValue
size a;<~.~.a~a.~a..b~a...b~..> => InvalidParameterValue
size a;</~:~@~[~`~{~,~^~ ~a ~a/b~\u{0}~\u{7F}~é~naïve> => InvalidParameterValue
size a;<aws.x~AWS.x~aWs.x~AWS.~amazon.y~Amazon.x~aMaZoN.y~AMAZON.y> => InvalidParameterValue
// The same, and the API Reference, MessageAttributeValue: a type is String, Number or Binary, alone or
// with a label after a period, and has up to 256 bytes. The value of a Binary is raw.
size a;n|<String|v~Number|v~Binary|v|raw> => 9
size a;n|<String.a|v~String..|v~Binary.x|v|raw> => 11
size a;n|String. \t |v => 13
size a;n|<Number.Binary|v~Binary.String|v|raw> => 16
size a;n|String.<249>|v => 259
size a;n|<~string~STRING~String.~Number.~Binary.~Stringx~Strin~ String~String ~.String~Foo~Foo.String~String.\u{1}~String.a\u{FFFE}>|v => InvalidParameterValue
size a;n|<~string~STRING~String.~Number.~Binary.~Stringx~Strin~ String~String ~.String~Foo~Foo.String~String.\u{1}~String.a\u{FFFE}>|v|raw => InvalidParameterValue
size a;n|String.a<249>|v => InvalidParameterValue
raw <Binary~Binary.png~Binary..> => true
raw <~binary~Binary.~Binaries~BinaryString~String~Number.Binary> => false
// A value is not empty, is of the sort of its type, and has the characters that bodies may have.
size a;n|String|\t\u{FFFD} => 12
size a;n|Number|1.5 => 11
size a;n|Number|no number => 17
size a;n|Binary|\u{0}|raw => 9
size a;n|<String|~Number|~Binary||raw~Binary|v~Binary|\u{1}~Binary.x|v~String|v|raw~Number|1|raw> => InvalidParameterValue
size a;n|<String|\u{1}~Number.x|1\u{1F}> => InvalidMessageContents
// Amazon SQS Developer Guide: up to ten attributes, and each name is unique in a message. Case counts.
size a;j;i;h;g;f;e;d;c;b;a => 81
size a;j;i;h;g;f;e;d;c;b;a;k => InvalidParameterValue
size a;a;A => 17
size a;<a;a|String|w~a;b;a~b;a;a> => InvalidParameterValue
// The body is judged first, then how many attributes there are and whether two have one name, and then
// each attribute in the byte order of the names: its name, its type and its value.
size ;a|String|\u{1} => InvalidParameterValue
size <\u{1}~\u{1};a.> => InvalidMessageContents
size a;<a|String|\u{1}~b.;a|String|\u{1}> => InvalidMessageContents
size a;<a.~a|String|\u{1};a|String|\u{1}~b|String|\u{1};a.> => InvalidParameterValue
size a;a|String|\u{1};b|String|\u{1};c;d;e;f;g;h;i;j;k => InvalidParameterValue
size a;<b|String|\u{1};a|Foo|v~a.|String|\u{1}~a|Foo|\u{1}~a|Binary|\u{1}> => InvalidParameterValue
// The names ascend so: -, ., digits, capital letters, _, small letters, a name before those it begins.
parts a;<-;0;B;_;a;a-b;a.b;aa;b~b;aa;a.b;a-b;a;_;B;0;-~a;-;b;_;a.b;0;aa;B;a-b> => 78 \"a\";-|String|Text(\"v\");0|String|Text(\"v\");B|String|Text(\"v\");_|String|Text(\"v\");a|String|Text(\"v\");a-b|String|Text(\"v\");a.b|String|Text(\"v\");aa|String|Text(\"v\");b|String|Text(\"v\")
// A size counts bytes of UTF-8 (RFC 3629), in names, types and values too.
size é;n => 10
size a;<name~n|Number.é|v> => 12
size a;n|String|é\u{10000} => 14
";

/// Each call that takes memory: a content with an attribute of each sort, and the text of an id.
pub(super) const CALLS: &str = "\
parts text;price|Number.é|1.5;image|Binary|\u{0}é|raw => 35 \"text\";image|Binary|Binary([0, 195, 169]);price|Number.é|Text(\"1.5\")
id 00000000-0000-0001-0000-00000000000a => 1 a 00000000-0000-0001-0000-00000000000a
";
