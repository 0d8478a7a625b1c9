//! A deserializer's calls one after the other, looks at the next item, and what follows a refusal
//! or a dropped access.

use super::answer::{Answer, UNEXPECTED_EOF};
use super::calls::{Call, End, Part, all_end, all_go};
use Call::{Code, Int, List, Newtype, NewtypeList, NoList, Text, Uint};
use amqp_base::EncodingCodes;

const OTHER: Answer = Answer::InvalidFormatCode;

const BEHIND: Answer = Answer::InvalidValue;

/// Items one after the other; bytes behind them stay. A newtype is a number or a list.
const ITEMS: &[(&[u8], &[Call], usize)] = &[
    (
        b"\x70\x00\x00\x00\xff\x54\xff\xa1\x02hi\x43\x40",
        &[Uint(Ok(255)), Int(Ok(-1)), Text(Ok("hi")), Uint(Ok(0))],
        12,
    ),
    (
        b"\x54\xfe\xc0\x02\x01\x43\x43",
        &[Newtype(Ok(-2)), NewtypeList(&[0])],
        6,
    ),
];

#[test]
fn items_are_read_one_after_the_other(rt: HostRuntime) {
    assert!(rt; all_go(rt.alloc(), ITEMS));
}

/// The code is ahead, also when asked again.
const LOOKS: &[(&[u8], &[Call], usize)] = &[
    (
        b"\x43",
        &[
            Code(Ok(EncodingCodes::Uint0)),
            Code(Ok(EncodingCodes::Uint0)),
        ],
        0,
    ),
    (
        b"\x54\x05",
        &[
            Code(Ok(EncodingCodes::SmallInt)),
            Code(Ok(EncodingCodes::SmallInt)),
        ],
        0,
    ),
    (
        b"\xa1\x02hi",
        &[Code(Ok(EncodingCodes::Str8)), Code(Ok(EncodingCodes::Str8))],
        0,
    ),
    (
        b"\xe0\x01\x00",
        &[
            Code(Ok(EncodingCodes::Array8)),
            Code(Ok(EncodingCodes::Array8)),
        ],
        0,
    ),
    (
        b"\x00\x53\x13\x45",
        &[
            Code(Ok(EncodingCodes::DescribedType)),
            Code(Ok(EncodingCodes::DescribedType)),
        ],
        0,
    ),
    // behind a code that is none, nothing is ahead
    (b"\x57", &[Code(Err(OTHER)), Code(Err(BEHIND))], 0),
    // the item is still there behind a look; behind all items a look is refused
    (
        b"\x54\x05",
        &[
            Code(Ok(EncodingCodes::SmallInt)),
            Int(Ok(5)),
            Code(Err(UNEXPECTED_EOF)),
            Code(Err(BEHIND)),
        ],
        2,
    ),
];

#[test]
fn a_look_at_a_format_code_consumes_nothing(rt: HostRuntime) {
    assert!(rt; all_go(rt.alloc(), LOOKS));
}

/// What is refused, and so all that follows.
const REFUSED: &[(&[u8], &[Call], usize)] = &[
    (b"\x43\x43", &[Newtype(Err(OTHER))], 1),
    (b"\x43\x57\x43\x43", &[Uint(Ok(0)), Uint(Err(OTHER))], 2),
    (b"\x43\x57\x43\x43", &[Int(Err(OTHER))], 1),
    (
        b"\xa1\x01\xff\x43",
        &[Text(Err(Answer::InvalidUtf8Encoding))],
        2,
    ),
    (b"\x57\x43", &[Code(Err(OTHER))], 0),
];

#[test]
fn nothing_is_read_behind_a_refusal(rt: HostRuntime) {
    assert!(rt; all_end(rt.alloc(), REFUSED));
}

const ZERO: Part = Part::Uint(Ok(Some(0)));

/// An int is no uint, nor is what follows read.
const INT_FOR_UINT: &[Part] = &[Part::Uint(Err(OTHER)), Part::Uint(Err(BEHIND))];

/// Also a type that the bytes would stand for is refused behind it.
const INT_BEHIND_UINT: &[Part] = &[Part::Uint(Err(OTHER)), Part::Int(Err(BEHIND))];

/// A refusal that the type makes itself, which consumes nothing and by itself ends nothing, ends
/// the access that reads it as a part.
const ITS_OWN: &[Part] = &[Part::NoDecimal(Answer::Message), Part::Uint(Err(BEHIND))];

const UNREAD: Answer = Answer::SequenceLengthMismatch;

/// A list is not opened, is dropped, or is ended before its end or behind a refusal.
const UNENDED: &[(&[u8], &[Call], usize)] = &[
    (b"\xc0\x00\x00\x43", &[NoList(Answer::InvalidLength)], 3),
    // dropped before its end and behind its elements, ended behind the first of two and before one
    (b"\x45\x43", &[List(&[], End::Dropped)], 1),
    (b"\xc0\x02\x01\x43\x43", &[List(&[ZERO], End::Dropped)], 4),
    (
        b"\xc0\x03\x02\x43\x43\x43",
        &[List(&[ZERO], End::Ended(UNREAD))],
        4,
    ),
    (
        b"\xc0\x02\x01\x43\x43",
        &[List(&[], End::Elements(UNREAD))],
        3,
    ),
    // ended behind a refused part, and behind a refused element
    (
        b"\xc0\x03\x02\x54\x05\x43\x43",
        &[List(INT_FOR_UINT, End::Ended(BEHIND))],
        4,
    ),
    (
        b"\xc0\x02\x01\x54\x05\x43",
        &[List(INT_BEHIND_UINT, End::Elements(BEHIND))],
        4,
    ),
    (
        b"\xc0\x02\x02\x84\x43\x43",
        &[List(ITS_OWN, End::Ended(BEHIND))],
        3,
    ),
];

#[test]
fn nothing_is_read_behind_a_list_that_was_not_read_to_its_end(rt: HostRuntime) {
    assert!(rt; all_end(rt.alloc(), UNENDED));
}
