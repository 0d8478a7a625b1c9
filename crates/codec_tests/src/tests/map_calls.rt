//! Maps key by key and value by value: `MapAccess` and `MapSerializer`.

use super::answer::{Answer, told};
use super::calls::{Call, Pair, all_go};
use super::puts::{Entry, Put, is_pair, writes_all};
use super::written::{By, Writes, written};
use Call::{Map, Truth};
use Pair::{Key, Value};
use amqp_base::Sink;
use amqp_ser::{MapSerializer, Serializer};
use std::alloc::Global;

/// {0: true}
const ONE_PAIR: &[u8] = b"\xc1\x03\x02\x43\x41";

const FIRST: Pair = Key(Ok(Some(0)));

const REFUSED: Answer = Answer::InvalidValue;

/// The map, the calls, and how many bytes are then consumed.
const IN_TURN: &[(&[u8], &[Call], usize)] = &[
    (
        ONE_PAIR,
        &[Map(&[FIRST, Value(Ok(true)), Key(Ok(None))], Answer::Taken)],
        5,
    ),
    // a value is asked for before its key, a second key before the value of the first
    (
        ONE_PAIR,
        &[Map(&[Value(Err(REFUSED)), Key(Err(REFUSED))], REFUSED)],
        3,
    ),
    (ONE_PAIR, &[Map(&[FIRST, Key(Err(REFUSED))], REFUSED)], 4),
    // the map is ended before a value was read, and nothing is read behind it
    (
        ONE_PAIR,
        &[
            Map(&[FIRST], Answer::SequenceLengthMismatch),
            Truth(Err(REFUSED)),
        ],
        4,
    ),
];

#[test]
fn keys_and_values_are_read_in_turn(rt: HostRuntime) {
    assert!(rt; all_go(rt.alloc(), IN_TURN));
}

/// {1: true, 2: (-1, null)}, the second pair by one call.
const TWO_PAIRS: &[(Entry, Answer)] = &[
    (Entry::Key(1), Answer::Taken),
    (Entry::Truth(true), Answer::Taken),
    (Entry::PairAndNull(2, -1), Answer::Taken),
];

/// 51 pairs of six bytes are taken.
fn are_put<W: Sink>(map: &mut MapSerializer<'_, W>, alloc: Global) -> bool {
    let mut is_so = true;
    for n in 256..307u32 {
        is_so = is_pair(map, alloc, n, &(), Answer::Taken) && is_so;
    }
    is_so
}

/// They are taken, and the end.
fn puts_pairs<W: Sink>(map: MapSerializer<'_, W>, alloc: Global) -> bool {
    let mut map = map;
    let is_so = are_put(&mut map, alloc);
    told(map.end()) == Answer::Taken && is_so
}

/// A map of them is taken.
struct Map32;

impl Writes for Map32 {
    fn is_answered<W: Sink>(&self, alloc: Global, ser: &mut Serializer<W>) -> bool {
        match ser.serialize_map(alloc, None) {
            Ok(map) => puts_pairs(map, alloc),
            Err(_) => false,
        }
    }
}

/// It is written as a map32.
fn writes_map32(alloc: Global) -> bool {
    let front = b"\xd1\x00\x00\x01\x36\x00\x00\x00\x66\x70\x00\x00\x01\x00\x40";
    match written(alloc, By::New, &Map32) {
        Some(bytes) => bytes.len() == 9 + 51 * 6 && bytes.as_slice().starts_with(front),
        None => false,
    }
}

/// A value comes first: it is refused, and all that follows.
const VALUE_FIRST: Put<'static> = Put::Map(
    None,
    &[(Entry::Number(1), REFUSED), (Entry::Key(1), REFUSED)],
    Some(REFUSED),
);

/// A pair comes behind a key.
const PAIR_BEHIND_A_KEY: Put<'static> = Put::Map(
    None,
    &[(Entry::Key(1), Answer::Taken), (Entry::Pair(2, 3), REFUSED)],
    None,
);

/// A map is ended behind a key.
const NO_VALUE: Put<'static> = Put::Map(
    None,
    &[(Entry::Key(1), Answer::Taken)],
    Some(Answer::InvalidLength),
);

const BEHIND: (Put<'static>, Answer) = (Put::Uint(1), REFUSED);

/// Maps, and what is written of them.
const WRITTEN: &[(&[(Put<'static>, Answer)], &[u8])] = &[
    (
        &[(Put::Map(None, &[], Some(Answer::Taken)), Answer::Taken)],
        b"\xc1\x01\x00",
    ),
    (
        &[(
            Put::Map(Some(2), TWO_PAIRS, Some(Answer::Taken)),
            Answer::Taken,
        )],
        b"\xc1\x0c\x04\x52\x01\x41\x52\x02\xc0\x04\x02\x54\xff\x40",
    ),
    (&[(VALUE_FIRST, Answer::Taken), BEHIND], b""),
    (&[(PAIR_BEHIND_A_KEY, Answer::Taken)], b""),
    (&[(NO_VALUE, Answer::Taken), BEHIND], b""),
];

#[test]
fn keys_and_values_are_written_in_turn(rt: HostRuntime) {
    let alloc = rt.alloc();
    assert!(rt; writes_all(alloc, WRITTEN));
    assert!(rt; writes_map32(alloc));
}
