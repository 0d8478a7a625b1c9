//! Tuples, which stand as lists of as many elements as they have parts, as they are written and by
//! their calls. What is read as one is a line of the stored runs.

use super::answer::Answer;
use super::bytes::{are_written, is_made_as, is_written_as};
use super::calls::{Call, Part, goes};
use super::made::string;
use super::puts;
use super::puts::{Put, writes};
use Call::Tuple;
use Part::{Truth, Uint};

/// (true, 13, "amqp")
fn three_parts(text: Option<String>) -> Option<(bool, u64, String)> {
    match text {
        Some(text) => Some((true, 13, text)),
        None => None,
    }
}

/// Pairs.
const PAIRS: &[((u32, bool), &[u8])] = &[
    ((13, true), b"\xc0\x04\x02\x52\x0d\x41"),
    ((1, true), b"\xc0\x04\x02\x52\x01\x41"),
];

#[test]
fn a_tuple_is_a_list_of_its_parts(rt: HostRuntime) {
    let alloc = rt.alloc();
    assert!(rt; is_written_as(alloc, &(1i32,), b"\xc0\x03\x01\x54\x01"));
    assert!(rt; is_written_as(alloc, &(7u32,), b"\xc0\x03\x01\x52\x07"));
    assert!(rt; is_written_as(alloc, &(0u32,), b"\xc0\x02\x01\x43"));
    assert!(rt; are_written(alloc, PAIRS));
}

#[test]
fn tuples_of_three_and_four_parts(rt: HostRuntime) {
    let alloc = rt.alloc();
    let parts = three_parts(string(alloc, "amqp"));
    assert!(rt; is_made_as(alloc, parts, b"\xc0\x0a\x03\x41\x53\x0d\xa1\x04amqp"));
    let nested = b"\xc0\x09\x03\x43\xc0\x04\x02\x54\xff\x40\x42";
    assert!(rt; is_written_as(alloc, &(0u32, (-1i32, ()), false), nested));
    assert!(rt;
        is_written_as(
            alloc,
            &((), true, false, 0u32),
            b"\xc0\x05\x04\x40\x41\x42\x43"
        )
    );
    let four = b"\xc0\x0c\x04\x50\x01\x60\x00\x02\x44\x73\x00\x00\x00\x61";
    assert!(rt; is_written_as(alloc, &(1u8, 2u16, 0u64, 'a'), four));
}

const EMPTY: Put<'static> = Put::Tuple(0, &[], Answer::Taken);

const TOO_MANY: Put<'static> = Put::Tuple(1, &[1, 2], Answer::SequenceLengthMismatch);

/// Too few are refused at the end, and all that follows.
const TOO_FEW: &[(Put<'static>, Answer)] = &[
    (Put::Uint(0), Answer::Taken),
    (
        Put::Tuple(2, &[1], Answer::SequenceLengthMismatch),
        Answer::Taken,
    ),
    (Put::Uint(1), Answer::InvalidValue),
    (Put::None, Answer::InvalidValue),
    (EMPTY, Answer::InvalidValue),
];

#[test]
fn a_tuple_is_written_with_as_many_parts_as_it_was_opened_for(rt: HostRuntime) {
    let alloc = rt.alloc();
    assert!(rt; writes(alloc, &[EMPTY, Put::None], b"\x45\x40"));
    assert!(rt; writes(alloc, &[TOO_MANY], b""));
    assert!(rt; puts::goes(alloc, TOO_FEW, b"\x43"));
}

const PARTS: Call = Tuple(2, &[Uint(Ok(Some(13))), Truth(true)], Answer::Taken);

const NO_PARTS: Call = Tuple(0, &[], Answer::Taken);

#[test]
fn parts_of_a_tuple_are_read_in_turn(rt: HostRuntime) {
    let alloc = rt.alloc();
    assert!(rt; goes(alloc, b"\xc0\x04\x02\x52\x0d\x41\x40", &[PARTS], 6));
    assert!(rt; goes(alloc, b"\x45\x40", &[NO_PARTS], 1));
}
