//! Arrays as they are written, and the most elements that are read. Every form and refusal is a
//! line of the stored runs.

use super::answer::Answer;
use super::bytes::{is_array, is_made_as, is_made_read, is_read_as, is_unwritten, refuses};
use super::made::{array, both, list, map, map_of, strings, with};
use Answer::InvalidValue;
use amqp_types::{Array, OrderedMap};
use std::alloc::Global;

/// The array of the bytes from 0 on, so many, is written with this in front of them, and read back.
fn is_counted(alloc: Global, count: u8, front: &[u8]) -> bool {
    let mut bytes = Vec::new(alloc);
    let mut numbers = Vec::new(alloc);
    let mut is_so = bytes.extend_from_slice(front).is_ok();
    for n in 0..count {
        is_so = bytes.push(n).is_ok() && is_so;
        is_so = numbers.push(n).is_ok() && is_so;
    }
    is_so && is_array(alloc, numbers.as_slice(), bytes.as_slice())
}

/// Arrays of ints, as they are written.
const INTS: &[(&[i32], &[u8])] = &[
    (&[], b"\xe0\x01\x00"),
    (&[1], b"\xe0\x06\x01\x71\x00\x00\x00\x01"),
    (&[1, 2], b"\xe0\x0a\x02\x71\x00\x00\x00\x01\x00\x00\x00\x02"),
    (
        &[1, 2, 3],
        b"\xe0\x0e\x03\x71\x00\x00\x00\x01\x00\x00\x00\x02\x00\x00\x00\x03",
    ),
    (
        &[1, 2, 3, 4],
        b"\xe0\x12\x04\x71\x00\x00\x00\x01\x00\x00\x00\x02\x00\x00\x00\x03\x00\x00\x00\x04",
    ),
];

#[test]
fn an_array_has_one_constructor(rt: HostRuntime) {
    let alloc = rt.alloc();
    for (elements, bytes) in INTS {
        assert!(rt; is_made_as(alloc, array(list(alloc, elements)), bytes));
    }
    // 254 bytes behind the size are the most of the short form
    assert!(rt; is_counted(alloc, 253, b"\xe0\xff\xfd\x50"));
    assert!(rt; is_counted(alloc, 254, b"\xf0\x00\x00\x01\x03\x00\x00\x00\xfe\x50"));
}

/// Arrays of strings, as they are written.
const STRINGS: &[(&[&str], &[u8])] = &[
    (&["é"], b"\xe0\x08\x01\xb1\x00\x00\x00\x02\xc3\xa9"),
    (&["abc"], b"\xe0\x09\x01\xb1\x00\x00\x00\x03abc"),
    (
        &["abc", "def"],
        b"\xe0\x10\x02\xb1\x00\x00\x00\x03abc\x00\x00\x00\x03def",
    ),
    (
        &["abc", "def", "ghi"],
        b"\xe0\x17\x03\xb1\x00\x00\x00\x03abc\x00\x00\x00\x03def\x00\x00\x00\x03ghi",
    ),
];

#[test]
fn arrays_of_texts(rt: HostRuntime) {
    let alloc = rt.alloc();
    for (texts, bytes) in STRINGS {
        assert!(rt; is_made_as(alloc, array(strings(alloc, texts)), bytes));
    }
}

/// [[1], []] as an array of lists
fn lists(alloc: Global) -> Option<Array<Vec<i32>>> {
    array(both(alloc, list(alloc, &[1i32]), list(alloc, &[])))
}

/// [[1], [2]] as an array of arrays
fn arrays(alloc: Global) -> Option<Array<Array<i32>>> {
    let first = array(list(alloc, &[1i32]));
    array(both(alloc, first, array(list(alloc, &[2i32]))))
}

#[test]
fn arrays_of_lists_and_arrays(rt: HostRuntime) {
    let alloc = rt.alloc();
    let bytes = b"\xe0\x14\x02\xd0\x00\x00\x00\x06\x00\x00\x00\x01\x54\x01\
        \x00\x00\x00\x04\x00\x00\x00\x00";
    assert!(rt; is_made_as(alloc, lists(alloc), bytes));
    let bytes = b"\xe0\x1c\x02\xf0\x00\x00\x00\x09\x00\x00\x00\x01\x71\x00\x00\x00\x01\
        \x00\x00\x00\x09\x00\x00\x00\x01\x71\x00\x00\x00\x02";
    assert!(rt; is_made_as(alloc, arrays(alloc), bytes));
}

/// [{1: true}, {}] as an array of maps
fn maps(alloc: Global) -> Option<Array<OrderedMap<u32, bool>>> {
    array(both(alloc, map(alloc, &[(1u32, true)]), map(alloc, &[])))
}

/// {1: [7], 2: []} as a map of arrays
fn map_of_arrays(alloc: Global) -> Option<OrderedMap<u32, Array<i32>>> {
    let seven = map_of(alloc, 1u32, array(list(alloc, &[7i32])));
    with(seven, 2, array(list(alloc, &[])))
}

#[test]
fn arrays_of_tuples(rt: HostRuntime) {
    let bytes = b"\xe0\x18\x02\xd0\x00\x00\x00\x07\x00\x00\x00\x02\x52\x01\x41\
        \x00\x00\x00\x07\x00\x00\x00\x02\x52\x02\x42";
    let alloc = rt.alloc();
    let pairs = array(list(alloc, &[(1u32, true), (2, false)]));
    assert!(rt; is_made_as(alloc, pairs, bytes));
}

#[test]
fn arrays_of_maps_and_maps_of_arrays(rt: HostRuntime) {
    let alloc = rt.alloc();
    let bytes = b"\xe0\x15\x02\xd1\x00\x00\x00\x07\x00\x00\x00\x02\x52\x01\x41\
        \x00\x00\x00\x04\x00\x00\x00\x00";
    assert!(rt; is_made_as(alloc, maps(alloc), bytes));
    let bytes = b"\xc1\x10\x04\x52\x01\xe0\x06\x01\x71\x00\x00\x00\x07\x52\x02\xe0\x01\x00";
    assert!(rt; is_made_as(alloc, map_of_arrays(alloc), bytes));
}

#[test]
fn an_array_with_null_is_not_written(rt: HostRuntime) {
    let alloc = rt.alloc();
    let ints = array(list(alloc, &[Some(1i32), None]));
    assert!(rt; is_unwritten(alloc, ints, InvalidValue));
    assert!(rt; is_unwritten(alloc, array(list(alloc, &[()])), InvalidValue));
}

/// 65,536 units, which have no bytes.
fn units(alloc: Global) -> Option<Vec<()>> {
    vec![in alloc; (); 65_536].ok()
}

/// Twice as many.
fn twice_units(alloc: Global) -> Option<Vec<Vec<()>>> {
    both(alloc, units(alloc), units(alloc))
}

/// The header, and these bytes behind it.
fn behind(alloc: Global, header: &[u8], bytes: &[u8]) -> Option<Vec<u8>> {
    let mut whole = Vec::new(alloc);
    let has_header = whole.extend_from_slice(header).is_ok();
    let is_whole = whole.extend_from_slice(bytes).is_ok();
    if has_header && is_whole {
        Some(whole)
    } else {
        None
    }
}

/// The bytes are read from an array of them, which one of one byte more isn't.
fn are_most(alloc: Global, most: &Vec<u8>, array: Option<Vec<u8>>, more: &[u8]) -> bool {
    match array {
        Some(array) => {
            let is_read = is_read_as(alloc, array.as_slice(), most);
            refuses::<Vec<u8>>(alloc, more, InvalidValue) && is_read
        }
        None => false,
    }
}

/// So are 65,536 bytes 0.
fn are_zeros(alloc: Global, zeros: Option<Vec<u8>>) -> bool {
    match zeros {
        Some(zeros) => {
            let header = b"\xf0\x00\x01\x00\x05\x00\x01\x00\x00\x50";
            let array = behind(alloc, header, zeros.as_slice());
            are_most(
                alloc,
                &zeros,
                array,
                b"\xf0\x00\x01\x00\x06\x00\x01\x00\x01\x50",
            )
        }
        None => false,
    }
}

#[test]
fn an_array_has_at_most_65536_elements(rt: HostRuntime) {
    let alloc = rt.alloc();
    assert!(rt; are_zeros(alloc, vec![in alloc; 0u8; 65_536].ok()));
    // as many without bytes, from ten bytes, and twice as many from 28
    let ten = b"\xf0\x00\x01\x00\x00\x00\x01\x00\x00\x40";
    assert!(rt; is_made_read(alloc, units(alloc), ten));
    let bytes = b"\xf0\x00\x00\x00\x17\x00\x00\x00\x02\
        \xf0\x00\x01\x00\x00\x00\x01\x00\x00\x40\x00\x01\x00\x00\x00\x01\x00\x00\x40";
    assert!(rt; is_made_read(alloc, twice_units(alloc), bytes));
}
