//! Lists: `Vec` as it is written, the most elements that are read, and lists part by part. Every
//! form and refusal is a line of the stored runs.

use super::answer::Answer;
use super::bytes::{is_front, is_made_as, refuses};
use super::calls::{Call, End, Part, all_go};
use super::made::{and, both, list, strings, symbol};
use super::puts::{Element, Put, writes};
use Call::List;
use Part::{Int, Uint};
use amqp_de::Deserialize;
use amqp_read::SliceReader;
use amqp_types::Symbol;
use std::alloc::Global;

/// The list that was made stands at the front of the bytes, and takes so many of them.
fn is_made_front<'s, T: Deserialize<SliceReader<'s>> + PartialEq>(
    alloc: Global,
    made: Option<Vec<T>>,
    bytes: &'s [u8],
    taken: usize,
) -> bool {
    match made {
        Some(list) => is_front(alloc, bytes, &list, taken),
        None => false,
    }
}

/// Lists of ints.
const INTS: &[(&[i32], &[u8])] = &[
    (&[], b"\x45"),
    (&[1, 2], b"\xc0\x05\x02\x54\x01\x54\x02"),
    (
        &[1, 2, 3, 4],
        b"\xc0\x09\x04\x54\x01\x54\x02\x54\x03\x54\x04",
    ),
];

#[test]
fn a_list_is_written_in_its_shortest_form(rt: HostRuntime) {
    let alloc = rt.alloc();
    for (elements, bytes) in INTS {
        assert!(rt; is_made_as(alloc, list(alloc, elements), bytes));
    }
}

/// [[[0, 1], []], []]
fn lists(alloc: Global) -> Option<Vec<Vec<Vec<u32>>>> {
    let first = both(alloc, list(alloc, &[0u32, 1]), list(alloc, &[]));
    both(alloc, first, Some(Vec::new(alloc)))
}

/// [["a", ""], []]
fn texts(alloc: Global) -> Option<Vec<Vec<String>>> {
    both(alloc, strings(alloc, &["a", ""]), strings(alloc, &[]))
}

/// [[1, 256], [], [7]]
fn three(alloc: Global) -> Option<Vec<Vec<u32>>> {
    let front = both(alloc, list(alloc, &[1u32, 256]), list(alloc, &[]));
    and(front, list(alloc, &[7]))
}

/// [a, b]
fn symbols(alloc: Global) -> Option<Vec<Symbol>> {
    both(alloc, symbol(alloc, "a"), symbol(alloc, "b"))
}

#[test]
fn lists_of_lists(rt: HostRuntime) {
    let alloc = rt.alloc();
    let bytes = b"\xc0\x0c\x02\xc0\x08\x02\xc0\x04\x02\x43\x52\x01\x45\x45";
    assert!(rt; is_made_as(alloc, lists(alloc), bytes));
    let bytes = b"\xc0\x0a\x02\xc0\x06\x02\xa1\x01a\xa1\x00\x45";
    assert!(rt; is_made_as(alloc, texts(alloc), bytes));
    let bytes = b"\xc0\x11\x03\xc0\x08\x02\x52\x01\x70\x00\x00\x01\x00\x45\xc0\x03\x01\x52\x07";
    assert!(rt; is_made_as(alloc, three(alloc), bytes));
    assert!(rt; is_made_as(alloc, symbols(alloc), b"\xc0\x07\x02\xa3\x01a\xa3\x01b"));
}

/// The header, and behind it so many uints of one byte.
fn zeros(alloc: Global, header: &[u8], count: usize) -> Option<Vec<u8>> {
    let mut bytes = Vec::new(alloc);
    let mut are_in = bytes.extend_from_slice(header).is_ok();
    for _ in 0..count {
        are_in = bytes.push(0x43).is_ok() && are_in;
    }
    if are_in { Some(bytes) } else { None }
}

/// The bytes are read as a list of 65,536 zeros.
fn are_zeros(alloc: Global, most: Option<Vec<u8>>) -> bool {
    match most {
        Some(most) => {
            let list = vec![in alloc; 0u32; 65_536].ok();
            is_made_front(alloc, list, most.as_slice(), 65_545)
        }
        None => false,
    }
}

/// The bytes, which were made, are refused so.
fn are_refused(alloc: Global, bytes: Option<Vec<u8>>, name: Answer) -> bool {
    match bytes {
        Some(bytes) => refuses::<Vec<u32>>(alloc, bytes.as_slice(), name),
        None => false,
    }
}

#[test]
fn a_list_has_at_most_65536_elements(rt: HostRuntime) {
    let alloc = rt.alloc();
    let most = zeros(alloc, b"\xd0\x00\x01\x00\x04\x00\x01\x00\x00", 65_536);
    assert!(rt; are_zeros(alloc, most));
    let more = zeros(alloc, b"\xd0\x00\x01\x00\x05\x00\x01\x00\x01", 65_537);
    assert!(rt; are_refused(alloc, more, Answer::InvalidValue));
}

const NONE: Part = Uint(Ok(None));

const THREE_AND_NONE: &[Part] = &[
    Uint(Ok(Some(0))),
    Int(Ok(Some(-2))),
    Part::Text("hi"),
    NONE,
    NONE,
];

/// Slices of two types, and an empty one.
const SLICES: &[(Element<'static>, Answer)] = &[
    (Element::Ints(&[1, 300]), Answer::Taken),
    (Element::Uints(&[]), Answer::Taken),
    (Element::Uints(&[0, 2]), Answer::Taken),
];

const ZERO: Call = Call::Uint(Ok(0));

/// Bytes, the calls, and how many bytes are then consumed.
const BY_PARTS: &[(&[u8], &[Call], usize)] = &[
    // parts of three types, twice none, and then the deserializer answers again
    (
        b"\xc0\x08\x03\x43\x54\xfe\xa1\x02hi\x43",
        &[List(THREE_AND_NONE, End::Ended(Answer::Taken)), ZERO],
        11,
    ),
    // the same of one element
    (
        b"\xc0\x03\x01\x52\x09\x43",
        &[
            List(&[Uint(Ok(Some(9))), NONE], End::Elements(Answer::Taken)),
            ZERO,
        ],
        6,
    ),
];

#[test]
fn a_list_is_read_part_by_part_and_written_many_at_once(rt: HostRuntime) {
    let alloc = rt.alloc();
    assert!(rt; all_go(alloc, BY_PARTS));
    let list = Put::List(None, SLICES, Some(Answer::Taken));
    assert!(rt;
        writes(
            alloc,
            &[list],
            b"\xc0\x0b\x04\x54\x01\x71\x00\x00\x01\x2c\x43\x52\x02"
        )
    );
}
