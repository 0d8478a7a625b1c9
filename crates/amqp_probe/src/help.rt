//! What `--help` prints.

pub const HELP: &str = "\
Reads lines from standard input, decodes each as AMQP 1.0, and prints what its
value is encoded as.

A line is a type, one space, and an even number of hexadecimal digits (none
too), at most 65,536 bytes in all:

    u32 70000000ff

Its answer is one line on standard output:

    ok 52ff rest 0        the canonical bytes of the value at the front, and how
                          many bytes stand behind it
    refused InvalidValue  the name of the refusal: Message, Io (bytes are
                          missing), InvalidFormatCode, InvalidValue,
                          InvalidUtf8Encoding, SequenceLengthMismatch or
                          InvalidLength
    bad line 3            the third line is none; standard error says why, and
                          no further line is read

Types: bool i32 u32 u64 string symbol list-i32 list-u64 list-unit list-list-i32
       list-array-i32 array-i32 array-string option-u32 tuple-u32-bool
       map-string-u32

The exit status is 0 where each line was answered, 2 after a bad line, and 3
where reading, writing or memory failed.
";
