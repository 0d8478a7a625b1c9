//! Maps, `OrderedMap` and `BTreeMap`, as they are written, and the most pairs that are read. Every
//! form and refusal, and what becomes of a repeated key, are lines of the stored runs.

use super::answer::{Answer, told};
use super::asked::{Asked, taken};
use super::bytes::{is_made_as, is_written_as, refuses};
use super::made::{map, map_of, string};
use amqp_base::Error;
use amqp_de::{Deserialize, Deserializer};
use amqp_read::Read;
use amqp_types::{OrderedMap, Timestamp};
use serde_amqp::from_slice;
use std::alloc::Global;
use std::collections::BTreeMap;

/// {2: false, 1: true}, the first of them put in again.
fn put_again(front: Option<OrderedMap<u8, bool>>) -> Option<OrderedMap<u8, bool>> {
    match front {
        Some(map) => {
            let mut map = map;
            if map.insert(2, false).ok() == Some(Some(true)) {
                Some(map)
            } else {
                None
            }
        }
        None => None,
    }
}

/// The same pairs, sorted.
fn sorted(alloc: Global) -> Option<BTreeMap<u8, bool>> {
    let mut map = BTreeMap::new(alloc);
    let first = map.insert(2u8, true).is_ok();
    let second = map.insert(1u8, true).is_ok();
    let again = map.insert(2u8, false).is_ok();
    if first && second && again {
        Some(map)
    } else {
        None
    }
}

/// {a timestamp of 0: the text}
fn is_map_text(alloc: Global, text: Option<String>) -> bool {
    let map = map_of(alloc, Timestamp::from_milliseconds(0), text);
    let bytes = b"\xc1\x0d\x02\x83\x00\x00\x00\x00\x00\x00\x00\x00\xa1\x01x";
    is_made_as(alloc, map, bytes)
}

#[test]
fn a_map_is_its_keys_and_values_in_turn(rt: HostRuntime) {
    let alloc = rt.alloc();
    let empty = b"\xc1\x01\x00";
    assert!(rt; is_made_as(alloc, map::<u8, bool>(alloc, &[]), empty));
    assert!(rt; is_written_as(alloc, &BTreeMap::<u8, bool>::new(alloc), empty));
    assert!(rt; is_map_text(alloc, string(alloc, "x")));
    // a key that is put in again stays in its first place; a `BTreeMap` is written by its keys
    let again = put_again(map(alloc, &[(2, true), (1, true)]));
    assert!(rt; is_made_as(alloc, again, b"\xc1\x07\x04\x50\x02\x42\x50\x01\x41"));
    assert!(rt;
        is_made_as(
            alloc,
            sorted(alloc),
            b"\xc1\x07\x04\x50\x01\x41\x50\x02\x42"
        )
    );
}

/// Maps of uints, as they are written.
const UINTS: &[(&[(u32, u32)], &[u8])] = &[
    (
        &[(7, 3), (5, 1), (6, 2)],
        b"\xc1\x0d\x06\x52\x07\x52\x03\x52\x05\x52\x01\x52\x06\x52\x02",
    ),
    (
        &[(7, 0), (5, 3), (6, 2)],
        b"\xc1\x0c\x06\x52\x07\x43\x52\x05\x52\x03\x52\x06\x52\x02",
    ),
    (
        &[(7, 0), (5, 1), (6, 3)],
        b"\xc1\x0c\x06\x52\x07\x43\x52\x05\x52\x01\x52\x06\x52\x03",
    ),
];

/// These pairs sorted, the last of those with one key.
fn sorted_uints(alloc: Global, pairs: &[(u32, u32)]) -> Option<BTreeMap<u32, u32>> {
    let mut map = BTreeMap::new(alloc);
    let mut are_taken = true;
    for (key, value) in pairs {
        are_taken = map.insert(*key, *value).is_ok() && are_taken;
    }
    if are_taken { Some(map) } else { None }
}

#[test]
fn a_map_keeps_the_order_of_its_keys(rt: HostRuntime) {
    let alloc = rt.alloc();
    for (pairs, bytes) in UINTS {
        assert!(rt; is_made_as(alloc, map(alloc, pairs), bytes));
    }
    assert!(rt; is_made_as(alloc, map(alloc, &[(0u32, true)]), b"\xc1\x03\x02\x43\x41"));
    let in_order = b"\xc1\x0c\x06\x52\x05\x52\x01\x52\x06\x52\x02\x52\x07\x43";
    let again = sorted_uints(alloc, &[(7, 3), (5, 1), (6, 2), (7, 0)]);
    assert!(rt; is_made_as(alloc, again, in_order));
}

/// The key is there, and the value is taken under it.
fn puts(map: &mut BTreeMap<String, i32>, key: Option<String>, value: i32) -> bool {
    match key {
        Some(key) => map.insert(key, value).is_ok(),
        None => false,
    }
}

/// {a: 1, m: 2, p: 4, q: 3}
fn letters(alloc: Global) -> Option<BTreeMap<String, i32>> {
    let mut map = BTreeMap::new(alloc);
    let p = puts(&mut map, string(alloc, "p"), 4);
    let a = puts(&mut map, string(alloc, "a"), 1);
    let q = puts(&mut map, string(alloc, "q"), 3);
    let m = puts(&mut map, string(alloc, "m"), 2);
    if a && m && p && q { Some(map) } else { None }
}

#[test]
fn a_sorted_map_of_strings_is_written_by_their_bytes(rt: HostRuntime) {
    let alloc = rt.alloc();
    let bytes = b"\xc1\x15\x08\xa1\x01a\x54\x01\xa1\x01m\x54\x02\xa1\x01p\x54\x04\xa1\x01q\x54\x03";
    assert!(rt; is_made_as(alloc, letters(alloc), bytes));
}

/// A map32 of so many pairs, from each number to null.
fn wide(alloc: Global, pairs: u32) -> Option<Vec<u8>> {
    let mut bytes = Vec::new(alloc);
    let size = 6u32.wrapping_mul(pairs).wrapping_add(4).to_be_bytes();
    let count = 2u32.wrapping_mul(pairs).to_be_bytes();
    let code = bytes.push(0xd1).is_ok();
    let size = bytes.extend_from_slice(&size).is_ok();
    let count = bytes.extend_from_slice(&count).is_ok();
    let mut is_so = code && size && count;
    for key in 0..pairs {
        let [a, b, c, d] = key.to_be_bytes();
        is_so = bytes.extend_from_slice(&[0x70, a, b, c, d, 0x40]).is_ok() && is_so;
    }
    if is_so { Some(bytes) } else { None }
}

/// An `OrderedMap` of 32,768 pairs is read.
struct Most;

impl Asked for Most {
    fn is_answered<R: Read>(&self, alloc: Global, de: &mut Deserializer<R>) -> bool {
        match OrderedMap::<u32, ()>::deserialize(alloc, de) {
            Ok(map) => map.len() == 32_768,
            Err(_) => false,
        }
    }
}

/// 32,768 pairs are read from the bytes, all of them.
fn are_most(alloc: Global, most: Option<Vec<u8>>) -> bool {
    match most {
        Some(most) => taken(alloc, most.as_slice(), &Most) == Some(most.len()),
        None => false,
    }
}

/// A `BTreeMap` at the front of the bytes.
fn sorted_units(alloc: Global, bytes: &[u8]) -> Result<BTreeMap<u32, ()>, Error> {
    from_slice(alloc, bytes)
}

/// The same pairs are read as a `BTreeMap`.
fn are_most_sorted(alloc: Global, most: Option<Vec<u8>>) -> bool {
    match most {
        Some(most) => match sorted_units(alloc, most.as_slice()) {
            Ok(map) => map.len() == 32_768,
            Err(_) => false,
        },
        None => false,
    }
}

/// The pairs are refused by each kind of map.
fn are_refused(alloc: Global, more: Option<Vec<u8>>) -> bool {
    match more {
        Some(more) => {
            let sorted = told(sorted_units(alloc, more.as_slice()));
            let is_sorted = sorted == Answer::InvalidValue;
            is_sorted
                && refuses::<OrderedMap<u32, ()>>(alloc, more.as_slice(), Answer::InvalidValue)
        }
        None => false,
    }
}

#[test]
fn a_map_has_at_most_32768_pairs(rt: HostRuntime) {
    let alloc = rt.alloc();
    assert!(rt; are_most(alloc, wide(alloc, 32_768)));
    assert!(rt; are_most_sorted(alloc, wide(alloc, 32_768)));
    assert!(rt; are_refused(alloc, wide(alloc, 32_769)));
}
