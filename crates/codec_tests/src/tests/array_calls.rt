//! Arrays element by element: one constructor for all of them, which is written in its widest form
//! and restored behind an array inside.

use super::answer::Answer;
use super::calls::{Call, End, Part, all_end, all_go};
use super::puts::{Element, Put, writes_all};
use Answer::{InvalidFormatCode, InvalidValue, SequenceLengthMismatch, Taken};
use Element::{Int, Ints, List, NoInt, Null, Truth, Uint, Uints, Ulong};
use Put::Array;

/// The array is ended, and all its elements were taken.
const ENDED: Option<Answer> = Some(Taken);

/// Arrays that are written one after the other, and their bytes.
const ARRAYS: &[(&[(Put<'static>, Answer)], &[u8])] = &[
    // [1, 2], and [[-1], []] behind it
    (
        &[
            (
                Array(None, &[(Uint(1), Taken), (Uint(2), Taken)], ENDED),
                Taken,
            ),
            (
                Array(Some(2), &[(List(&[-1]), Taken), (List(&[]), Taken)], ENDED),
                Taken,
            ),
        ],
        b"\xe0\x0a\x02\x70\x00\x00\x00\x01\x00\x00\x00\x02\
            \xe0\x14\x02\xd0\x00\x00\x00\x06\x00\x00\x00\x01\x54\xff\
            \x00\x00\x00\x04\x00\x00\x00\x00",
    ),
    // [1, 2] by one call for both
    (
        &[(Array(None, &[(Ints(&[1, 2]), Taken)], ENDED), Taken)],
        b"\xe0\x0a\x02\x71\x00\x00\x00\x01\x00\x00\x00\x02",
    ),
    // [true, false], and [0, 1] behind it
    (
        &[
            (
                Array(
                    Some(2),
                    &[(Truth(true), Taken), (Truth(false), Taken)],
                    ENDED,
                ),
                Taken,
            ),
            (
                Array(Some(2), &[(Ulong(0), Taken), (Ulong(1), Taken)], ENDED),
                Taken,
            ),
        ],
        b"\xe0\x04\x02\x56\x01\x00\
            \xe0\x12\x02\x80\x00\x00\x00\x00\x00\x00\x00\x00\x00\x00\x00\x00\x00\x00\x00\x01",
    ),
];

#[test]
fn an_array_has_one_constructor_in_its_widest_form(rt: HostRuntime) {
    assert!(rt; writes_all(rt.alloc(), ARRAYS));
}

/// An element of another constructor is refused, and all that follows.
const MIXED: Put<'static> = Array(
    None,
    &[
        (Uint(1), Taken),
        (Int(1), InvalidValue),
        (Uint(1), InvalidValue),
    ],
    Some(InvalidValue),
);

/// The same of many at once, also where they are none.
const MANY_MIXED: Put<'static> = Array(
    None,
    &[
        (Ints(&[1]), Taken),
        (Uints(&[1]), InvalidValue),
        (Uints(&[]), InvalidValue),
        (Ints(&[]), InvalidValue),
    ],
    Some(InvalidValue),
);

/// Null as the first element is refused, and the array with it.
const NULL: Put<'static> = Array(Some(1), &[(Null, InvalidValue)], Some(InvalidValue));

const NO_NUMBER: Put<'static> = Array(Some(1), &[(NoInt, InvalidValue)], Some(InvalidValue));

/// Nothing is written of these.
const UNWRITTEN: &[(&[(Put<'static>, Answer)], &[u8])] = &[
    (&[(MIXED, Taken)], b""),
    (&[(MANY_MIXED, Taken)], b""),
    (&[(NULL, Taken)], b""),
    (&[(NO_NUMBER, Taken)], b""),
];

#[test]
fn null_and_elements_of_another_constructor_are_refused(rt: HostRuntime) {
    assert!(rt; writes_all(rt.alloc(), UNWRITTEN));
}

/// The array or list is ended, and all of it was read.
const READ: End = End::Ended(Taken);

const NO_UINT: Part = Part::Uint(Ok(None));

/// [1, 2]
const UINTS: &[Part] = &[
    Part::Uint(Ok(Some(1))),
    Part::Uint(Ok(Some(2))),
    NO_UINT,
    NO_UINT,
];

/// An empty array, and 0 behind it.
const EMPTY: &[Call] = &[Call::Array(&[NO_UINT], READ), ZERO];

const ZERO: Call = Call::Uint(Ok(0));

/// Bytes, the calls, and how many bytes are then consumed.
const SEQUENCES: &[(&[u8], &[Call], usize)] = &[
    // [1, 2] and 0 behind it, as an array and as a list
    (
        b"\xe0\x0a\x02\x70\x00\x00\x00\x01\x00\x00\x00\x02\x43",
        &[Call::Array(UINTS, READ), ZERO],
        13,
    ),
    (
        b"\xc0\x05\x02\x52\x01\x52\x02\x43",
        &[Call::List(UINTS, READ), ZERO],
        8,
    ),
    // empty ones, of which an array takes all its bytes
    (b"\xe0\x01\x00\x43", EMPTY, 4),
    (b"\xe0\x02\x00\x40\x43", EMPTY, 5),
    (b"\xf0\x00\x00\x00\x04\x00\x00\x00\x00\x43", EMPTY, 10),
    (b"\x45\x43", &[Call::List(&[NO_UINT], READ), ZERO], 2),
    // [[1], [2, 3], []], all of them arrays: behind each of them the outer constructor stands again
    (INNER, &[Call::Array(LISTS, READ), ZERO], 37),
];

const INNER: &[u8] = b"\xe0\x22\x03\
    \xf0\x00\x00\x00\x09\x00\x00\x00\x01\x70\x00\x00\x00\x01\
    \x00\x00\x00\x07\x00\x00\x00\x02\x52\x02\x03\
    \x00\x00\x00\x04\x00\x00\x00\x00\x43";

const LISTS: &[Part] = &[
    Part::Uints(&[1]),
    Part::Uints(&[2, 3]),
    Part::Uints(&[]),
    NO_UINT,
];

#[test]
fn a_sequence_says_whether_it_is_an_array(rt: HostRuntime) {
    assert!(rt; all_go(rt.alloc(), SEQUENCES));
}

const PAIR: &[u8] = b"\xe0\x04\x02\x52\x01\x02\x43";

const ONE: &[Part] = &[Part::Uint(Ok(Some(1)))];

/// An element of another kind, and nothing behind it.
const OTHER_KIND: &[Part] = &[
    Part::Int(Err(InvalidFormatCode)),
    Part::Uint(Err(InvalidValue)),
];

/// An element that goes past the size of its array.
const PAST: &[Part] = &[Part::Uint(Err(InvalidValue)), Part::Uint(Err(InvalidValue))];

/// Nothing is read behind these calls.
const ENDING: &[(&[u8], &[Call], usize)] = &[
    // one that is not opened
    (b"\x43", &[Call::NoList(InvalidFormatCode)], 1),
    (PAIR, &[Call::Array(ONE, End::Dropped)], 5),
    (PAIR, &[Call::Array(&[], End::Dropped)], 4),
    // ended before all was read
    (
        PAIR,
        &[Call::Array(ONE, End::Ended(SequenceLengthMismatch))],
        5,
    ),
    (
        PAIR,
        &[Call::Array(OTHER_KIND, End::Ended(InvalidValue))],
        4,
    ),
    (
        b"\xe0\x03\x01\x70\x00\x00\x00\x05",
        &[Call::Array(PAST, End::Ended(InvalidValue))],
        8,
    ),
];

#[test]
fn nothing_is_read_behind_an_array_that_was_not_ended(rt: HostRuntime) {
    assert!(rt; all_end(rt.alloc(), ENDING));
}
