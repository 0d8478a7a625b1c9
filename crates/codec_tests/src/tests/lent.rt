//! Texts and bytes that a slice lends, by their calls. A `SymbolRef` and a `BinaryRef`, alone,
//! inside other types, and as a field of a type of one's own, are lines of the stored runs; here
//! stands what is lent to a map and to a type of one's own, part by part.

use super::answer::{Answer, UNEXPECTED_EOF, name_of, told};
use super::bytes::{are_written, is_made_as, is_made_read, is_written_as};
use super::made::{array, both, list_of, map_of};
use Answer::{InvalidFormatCode, InvalidUtf8Encoding, InvalidValue};
use amqp_de::Deserializer;
use amqp_read::{Read, SliceReader};
use amqp_types::{BinaryRef, Described, Descriptor, SymbolRef};
use own_types::kept;
use serde_amqp::from_slice;
use std::alloc::Global;
use std::collections::BTreeMap;

/// The text that a deserializer lends, which stays when the deserializer is gone, and how many
/// bytes it consumed.
fn text(bytes: &[u8]) -> (Result<&str, Answer>, usize) {
    let mut de = Deserializer::new(SliceReader::new(bytes));
    let lent = match de.deserialize_str() {
        Ok(text) => Ok(text),
        Err(e) => Err(name_of(&e)),
    };
    (lent, de.into_reader().bytes_consumed())
}

/// The same of bytes.
fn binary(bytes: &[u8]) -> (Result<&[u8], Answer>, usize) {
    let mut de = Deserializer::new(SliceReader::new(bytes));
    let lent = match de.deserialize_bytes() {
        Ok(binary) => Ok(binary),
        Err(e) => Err(name_of(&e)),
    };
    (lent, de.into_reader().bytes_consumed())
}

/// What a text answers, then a binary, and how many bytes both consumed.
fn text_and_binary(bytes: &[u8]) -> (Answer, Answer, usize) {
    let mut de = Deserializer::new(SliceReader::new(bytes));
    let first = told(de.deserialize_str());
    let second = told(de.deserialize_bytes());
    (first, second, de.into_reader().bytes_consumed())
}

#[test]
fn texts_and_bytes_are_lent_by_name(rt: HostRuntime) {
    assert!(rt; text(b"\xa1\x02hi\x40") == (Ok("hi"), 4));
    assert!(rt; text(b"\xa3\x01\xff\x40") == (Err(InvalidUtf8Encoding), 2));
    assert!(rt; text(b"\xa0\x01a") == (Err(InvalidFormatCode), 1));
    assert!(rt; binary(b"\xa0\x01\xff\x40") == (Ok(b"\xff"), 3));
    assert!(rt; binary(b"\xa0\x02\xff") == (Err(UNEXPECTED_EOF), 2));
    let both = b"\xa3\x01a\xa0\x01\xff";
    assert!(rt; text_and_binary(both) == (Answer::Taken, Answer::Taken, 6));
    // behind a refusal each call is refused
    let none = b"\x40\xa0\x01\xff";
    assert!(rt; text_and_binary(none) == (InvalidFormatCode, InvalidValue, 1));
}

/// Texts, as they are written.
const TEXTS: &[(SymbolRef<'static>, &[u8])] = &[
    (SymbolRef("ab"), b"\xa3\x02ab"),
    (SymbolRef(""), b"\xa3\x00"),
    (SymbolRef("é"), b"\xa3\x02\xc3\xa9"),
];

/// Bytes, as they are written.
const BINARIES: &[(BinaryRef<'static>, &[u8])] = &[
    (BinaryRef(b"\x0a\xbc"), b"\xa0\x02\x0a\xbc"),
    (BinaryRef(b""), b"\xa0\x00"),
];

/// Two symbols.
fn a_and_b(alloc: Global) -> Option<Vec<SymbolRef<'static>>> {
    both(alloc, Some(SymbolRef("a")), Some(SymbolRef("b")))
}

/// The text behind the descriptor of this code.
fn under(code: u64, text: &str) -> Described<SymbolRef<'_>> {
    Described {
        descriptor: Descriptor::Code(code),
        value: SymbolRef(text),
    }
}

/// A sorted map from `a` to 1.
fn sorted(alloc: Global) -> Option<BTreeMap<SymbolRef<'static>, u32>> {
    let mut map = BTreeMap::new(alloc);
    if map.insert(SymbolRef("a"), 1u32).is_ok() {
        Some(map)
    } else {
        None
    }
}

/// The bytes are read as a sorted map whose only key is `a`, with the value 1.
fn is_sorted(alloc: Global, bytes: &[u8]) -> bool {
    match from_slice::<BTreeMap<SymbolRef, u32>>(alloc, bytes) {
        Ok(map) => map.len() == 1 && map.get(&SymbolRef("a")) == Some(&1),
        Err(_) => false,
    }
}

#[test]
fn what_is_lent_is_a_key_and_stands_behind_a_descriptor(rt: HostRuntime) {
    let alloc = rt.alloc();
    assert!(rt; is_made_as(alloc, sorted(alloc), b"\xc1\x06\x02\xa3\x01a\x52\x01"));
    assert!(rt; is_sorted(alloc, b"\xc1\x06\x02\xa1\x01a\x52\x01"));
    let one = array(list_of(alloc, Some(under(0x10, "a"))));
    assert!(rt; is_made_read(alloc, one, b"\xe0\x07\x01\x00\x53\x10\xa3\x01a"));
    let two = both(alloc, Some(under(0x10, "a")), Some(under(0x10, "b")));
    let symbols = b"\xe0\x0f\x02\x00\x53\x10\xb3\x00\x00\x00\x01a\x00\x00\x00\x01b";
    assert!(rt; is_made_as(alloc, array(two), symbols));
}

/// A mechanism, a response, and a host; and the mechanism alone, as a string.
const INIT: &[u8] = b"\x00\x53\x41\xc0\x0f\x03\xa3\x05PLAIN\xa0\x02\x00a\xa1\x01h";

const MECHANISM: &[u8] = b"\x00\x53\x41\xc0\x08\x01\xa1\x05PLAIN";

/// The same with all fields, as it is written.
const ALL_FIELDS: &[u8] = b"\x00\x53\x41\xc0\x0a\x03\xa3\x05PLAIN\x40\x40";

/// The bytes are read as what a client sends once it chose, and written as these.
fn is_init(alloc: Global, bytes: &[u8], response: Option<&[u8]>, written: &[u8]) -> bool {
    match kept::sasl_init_is_kept(alloc, bytes) {
        Ok(init) => {
            let is_so = init.mechanism.as_str() == "PLAIN";
            let lent = match &init.initial_response {
                Some(found) => Some(found.0),
                None => None,
            };
            is_so && lent == response && is_written_as(alloc, &init, written)
        }
        Err(_) => false,
    }
}

#[test]
fn fields_of_a_struct_are_lent(rt: HostRuntime) {
    let alloc = rt.alloc();
    assert!(rt; is_init(alloc, INIT, Some(b"\x00a"), INIT));
    assert!(rt; is_init(alloc, MECHANISM, None, ALL_FIELDS));
}

#[test]
fn what_is_lent_is_written_as_what_is_owned(rt: HostRuntime) {
    let alloc = rt.alloc();
    assert!(rt; are_written(alloc, TEXTS));
    assert!(rt; are_written(alloc, BINARIES));
    assert!(rt; is_made_as(alloc, a_and_b(alloc), b"\xc0\x07\x02\xa3\x01a\xa3\x01b"));
    let symbols = b"\xe0\x0c\x02\xb3\x00\x00\x00\x01a\x00\x00\x00\x01b";
    assert!(rt; is_made_as(alloc, array(a_and_b(alloc)), symbols));
    let pair = map_of(alloc, SymbolRef("a"), Some(BinaryRef(b"\x08")));
    assert!(rt; is_made_as(alloc, pair, b"\xc1\x07\x02\xa3\x01a\xa0\x01\x08"));
}

#[test]
fn options_tuples_and_described_values_of_what_is_lent_are_written(rt: HostRuntime) {
    let alloc = rt.alloc();
    assert!(rt; is_written_as(alloc, &Some(SymbolRef("a")), b"\xa3\x01a"));
    let bytes = b"\xc0\x07\x02\xa3\x01a\xa0\x01\x07";
    assert!(rt; is_written_as(alloc, &(SymbolRef("a"), BinaryRef(b"\x07")), bytes));
    let some = both(alloc, Some(None), Some(Some(BinaryRef(b"\x07"))));
    assert!(rt; is_made_as(alloc, some, b"\xc0\x05\x02\x40\xa0\x01\x07"));
    assert!(rt; is_written_as(alloc, &under(0x10, "a"), b"\x00\x53\x10\xa3\x01a"));
}
