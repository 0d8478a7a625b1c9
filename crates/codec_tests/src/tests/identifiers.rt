//! What says which variant of an enum stands next, by the calls that look at it.

use super::answer::{Answer, UNEXPECTED_EOF, name_of};
use super::asked::{Asked, taken};
use Answer::{InvalidFormatCode, InvalidUtf8Encoding, InvalidValue};
use amqp_base::{EncodingCodes, Error};
use amqp_de::{Deserializer, Identifier};
use amqp_read::Read;
use amqp_types::Descriptor;
use std::alloc::Global;

/// An identifier whose text is known.
#[derive(Clone, Copy)]
enum Seen {
    Index(u64),
    Name(&'static str),
    DescriptorName(&'static str),
    DescriptorCode(u64),
    Code(EncodingCodes),
}

use Seen::{Code, DescriptorCode, DescriptorName, Index, Name};

/// A call, and what it answers.
#[derive(Clone, Copy)]
enum Call {
    Identifier(Result<Seen, Answer>),
    Ignored(Result<Seen, Answer>),
    /// `deserialize_descriptor` answers this number.
    Descriptor(u64),
}

use Call::{Identifier as Identified, Ignored};

/// It is this identifier.
fn is_seen(found: &Identifier, want: Seen) -> bool {
    match found {
        Identifier::Index(index) => matches!(want, Index(other) if other == *index),
        Identifier::Name(name) => matches!(want, Name(other) if other == name.as_str()),
        Identifier::DescriptorName(name) => {
            matches!(want, DescriptorName(other) if other == name.as_str())
        }
        Identifier::DescriptorCode(code) => matches!(want, DescriptorCode(other) if other == *code),
        Identifier::Code(code) => matches!(want, Code(other) if other == *code),
    }
}

/// The call gave the identifier, or the refusal of this name.
fn is(outcome: Result<Identifier, Error>, want: Result<Seen, Answer>) -> bool {
    match outcome {
        Ok(found) => match want {
            Ok(seen) => is_seen(&found, seen),
            Err(_) => false,
        },
        Err(e) => want.is_err_and(|name| name == name_of(&e)),
    }
}

/// The call gave the descriptor of this number.
fn is_code(outcome: Result<Descriptor, Error>, want: u64) -> bool {
    match outcome {
        Ok(Descriptor::Code(code)) => code == want,
        Ok(Descriptor::Name(_)) => false,
        Err(_) => false,
    }
}

/// The call is answered so.
fn answers<R: Read>(de: &mut Deserializer<R>, alloc: Global, call: Call) -> bool {
    match call {
        Call::Identifier(want) => is(de.deserialize_identifier(alloc), want),
        Call::Ignored(want) => is(de.deserialize_ignored_any(alloc), want),
        Call::Descriptor(want) => is_code(de.deserialize_descriptor(alloc), want),
    }
}

/// They are answered so, one after the other.
#[derive(Drop)]
struct Calls<'c>(&'c [Call]);

impl Asked for Calls<'_> {
    fn is_answered<R: Read>(&self, alloc: Global, de: &mut Deserializer<R>) -> bool {
        let mut is_so = true;
        for call in self.0 {
            is_so = answers(de, alloc, *call) && is_so;
        }
        is_so
    }
}

/// Each row of bytes is answered so, and then so many of them are consumed.
fn all_go(alloc: Global, rows: &[(&[u8], &[Call], usize)]) -> bool {
    let mut is_so = true;
    for (bytes, calls, count) in rows {
        is_so = taken(alloc, bytes, &Calls(calls)) == Some(*count) && is_so;
    }
    is_so
}

/// An index or a name is consumed by the one call, and stays with the other.
const KEYS: &[(&[u8], &[Call], usize)] = &[
    (b"\x43", &[Identified(Ok(Index(0)))], 1),
    (b"\x52\x07", &[Identified(Ok(Index(7)))], 2),
    (b"\x70\0\0\x01\0", &[Identified(Ok(Index(256)))], 5),
    (b"\x44", &[Identified(Ok(Index(0)))], 1),
    (b"\x53\x07", &[Identified(Ok(Index(7)))], 2),
    (
        b"\x80\x01\0\0\0\0\0\0\0",
        &[Identified(Ok(Index(1 << 56)))],
        9,
    ),
    (b"\xa1\x01a", &[Identified(Ok(Name("a")))], 3),
    (b"\xb1\0\0\0\x01a", &[Identified(Ok(Name("a")))], 6),
    (b"\xa3\x01a", &[Identified(Ok(Name("a")))], 3),
    (b"\xb3\0\0\0\x01a", &[Identified(Ok(Name("a")))], 6),
    (
        b"\x52\x07",
        &[Ignored(Ok(Code(EncodingCodes::SmallUint)))],
        0,
    ),
    (
        b"\xa1\x01a\x43",
        &[
            Ignored(Ok(Code(EncodingCodes::Str8))),
            Identified(Ok(Name("a"))),
            Identified(Ok(Index(0))),
        ],
        4,
    ),
];

#[test]
fn an_index_or_a_name_is_an_identifier(rt: HostRuntime) {
    assert!(rt; all_go(rt.alloc(), KEYS));
}

/// A descriptor and a code stay with both calls.
const OTHERS: &[(&[u8], &[Call], usize)] = &[
    (
        b"\0\x53\x71",
        &[
            Identified(Ok(DescriptorCode(113))),
            Identified(Ok(DescriptorCode(113))),
            Ignored(Ok(DescriptorCode(113))),
            Call::Descriptor(113),
            Identified(Err(UNEXPECTED_EOF)),
        ],
        3,
    ),
    (b"\0\x44", &[Ignored(Ok(DescriptorCode(0)))], 0),
    (
        b"\0\x80\0\0\0\0\0\0\x01\x02",
        &[Ignored(Ok(DescriptorCode(258)))],
        0,
    ),
    (b"\0\xa3\x01a", &[Ignored(Ok(DescriptorName("a")))], 0),
    (
        b"\0\xa3\x09test:name",
        &[
            Identified(Ok(DescriptorName("test:name"))),
            Ignored(Ok(DescriptorName("test:name"))),
        ],
        0,
    ),
    (
        b"\0\xb3\0\0\0\x01a",
        &[Identified(Ok(DescriptorName("a")))],
        0,
    ),
    (b"\0\xa3\0", &[Identified(Ok(DescriptorName("")))], 0),
    (b"\x40", &[Identified(Ok(Code(EncodingCodes::Null)))], 0),
    (
        b"\xc0\x01\0",
        &[Identified(Ok(Code(EncodingCodes::List8)))],
        0,
    ),
];

#[test]
fn a_descriptor_or_a_code_stays(rt: HostRuntime) {
    assert!(rt; all_go(rt.alloc(), OTHERS));
}

/// What none stands in, and nothing is answered behind it.
const NONE: &[(&[u8], Answer)] = &[
    (b"", UNEXPECTED_EOF),
    (b"\x57", InvalidFormatCode),
    (b"\0", UNEXPECTED_EOF),
    (b"\0\x57", InvalidFormatCode),
    (b"\0\x40", InvalidFormatCode),
    (b"\0\x52\x07", InvalidFormatCode),
    (b"\0\0\x44", InvalidFormatCode),
    (b"\0\x53", UNEXPECTED_EOF),
    (b"\0\x80\0\0\0\0\0\0\0", UNEXPECTED_EOF),
    (b"\0\xa3", UNEXPECTED_EOF),
    (b"\0\xa3\x01", UNEXPECTED_EOF),
    (b"\0\xb3\xff\xff\xff\xff\x61", UNEXPECTED_EOF),
    (b"\0\xa3\x01\xff", InvalidUtf8Encoding),
];

#[test]
fn where_none_stands_both_calls_are_refused(rt: HostRuntime) {
    let alloc = rt.alloc();
    for (bytes, answer) in NONE {
        let identified = [Identified(Err(*answer)), Identified(Err(InvalidValue))];
        assert!(rt;
            taken(alloc, bytes, &Calls(&identified)) == Some(0),
            "{bytes:?}"
        );
        let ignored = [Ignored(Err(*answer)), Ignored(Err(InvalidValue))];
        assert!(rt;
            taken(alloc, bytes, &Calls(&ignored)) == Some(0),
            "{bytes:?}"
        );
    }
}

/// A key that is cut short, or that is no text.
const CUT: &[(&[u8], &[Call], usize)] = &[
    (
        b"\x52",
        &[
            Identified(Err(UNEXPECTED_EOF)),
            Identified(Err(InvalidValue)),
        ],
        1,
    ),
    (
        b"\xa1\x01\xff",
        &[
            Identified(Err(InvalidUtf8Encoding)),
            Ignored(Err(InvalidValue)),
        ],
        2,
    ),
];

#[test]
fn a_key_that_is_cut_short_is_refused(rt: HostRuntime) {
    assert!(rt; all_go(rt.alloc(), CUT));
}
