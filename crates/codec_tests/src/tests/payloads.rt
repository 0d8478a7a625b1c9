//! Binaries, strings and symbols, as they are written and by their calls. Every form and refusal is
//! a line of the stored runs.

use super::bytes::{is_made_as, is_read_as, is_written_as};
use super::calls::{Call, goes};
use super::made::{list, string, symbol};
use super::puts::{Put, writes};
use amqp_types::{Binary, BinaryRef, SymbolRef};
use serde_amqp::to_vec;
use std::alloc::Global;

/// The text has this length and front, and is read as the binary.
fn is_long_text(alloc: Global, value: &Binary, text: &[u8], len: usize, front: &[u8]) -> bool {
    text.len() == len && text.starts_with(front) && is_read_as(alloc, text, value)
}

/// So many bytes 0x07.
fn sevens(alloc: Global, count: usize) -> Option<Vec<u8>> {
    vec![in alloc; 7u8; count].ok()
}

/// So many bytes 0x07 are written as so many bytes that begin so, and read back.
fn is_long_binary(alloc: Global, count: usize, len: usize, front: &[u8]) -> bool {
    match sevens(alloc, count) {
        Some(value) => {
            let value = Binary(value);
            match to_vec(alloc, &value) {
                Ok(text) => is_long_text(alloc, &value, text.as_slice(), len, front),
                Err(_) => false,
            }
        }
        None => false,
    }
}

/// The binary of the bytes.
fn binary(bytes: Option<Vec<u8>>) -> Option<Binary> {
    match bytes {
        Some(bytes) => Some(Binary(bytes)),
        None => None,
    }
}

/// Binaries, as they are written.
const BINARIES: &[(&[u8], &[u8])] = &[
    (b"\xff", b"\xa0\x01\xff"),
    (b"", b"\xa0\x00"),
    (b"\x01\x02", b"\xa0\x02\x01\x02"),
    (b"\x00\xff", b"\xa0\x02\x00\xff"),
    (b"amqp", b"\xa0\x04amqp"),
];

#[test]
fn a_short_binary_has_the_narrow_constructor(rt: HostRuntime) {
    let alloc = rt.alloc();
    for (value, bytes) in BINARIES {
        assert!(rt;
            is_made_as(alloc, binary(list(alloc, value)), bytes),
            "{bytes:?}"
        );
    }
    assert!(rt; is_written_as(alloc, &BinaryRef(b"\x00\xff"), b"\xa0\x02\x00\xff"));
}

/// vbin8 is written up to 254 bytes: how many, the length of the text, and its front.
const LONG_BINARIES: &[(usize, usize, &[u8])] = &[
    (254, 256, b"\xa0\xfe\x07"),
    (255, 260, b"\xb0\x00\x00\x00\xff\x07"),
    (256, 261, b"\xb0\x00\x00\x01\x00\x07"),
];

#[test]
fn a_long_binary_has_the_wide_constructor(rt: HostRuntime) {
    for (count, len, front) in LONG_BINARIES {
        assert!(rt; is_long_binary(rt.alloc(), *count, *len, front), "{count}");
    }
}

/// Texts as strings, and as symbols, as they are written.
const TEXTS: &[(&str, &[u8], &[u8])] = &[
    ("", b"\xa1\x00", b"\xa3\x00"),
    ("ab", b"\xa1\x02ab", b"\xa3\x02ab"),
    ("amqp", b"\xa1\x04amqp", b"\xa3\x04amqp"),
    (
        "Small String",
        b"\xa1\x0cSmall String",
        b"\xa3\x0cSmall String",
    ),
    ("hello AMQP", b"\xa1\x0ahello AMQP", b"\xa3\x0ahello AMQP"),
    ("é", b"\xa1\x02\xc3\xa9", b"\xa3\x02\xc3\xa9"),
];

#[test]
fn strings_and_symbols_are_texts(rt: HostRuntime) {
    let alloc = rt.alloc();
    for (text, own, name) in TEXTS {
        assert!(rt; is_made_as(alloc, string(alloc, text), own), "{text}");
        assert!(rt; is_made_as(alloc, symbol(alloc, text), name), "{text}");
    }
    assert!(rt; is_written_as(alloc, &SymbolRef("ab"), b"\xa3\x02ab"));
}

const WRITTEN: &[Put<'static>] = &[Put::Bytes(b"\x00\xff"), Put::Str("amqp"), Put::Symbol("ab")];

#[test]
fn payloads_are_written_by_name(rt: HostRuntime) {
    let bytes = b"\xa0\x02\x00\xff\xa1\x04amqp\xa3\x02ab";
    assert!(rt; writes(rt.alloc(), WRITTEN, bytes));
}

const READ: &[Call] = &[
    Call::Bytes(b"\x00\xff"),
    Call::Text(Ok("hi")),
    Call::Symbol("amqp"),
];

#[test]
fn payloads_are_read_by_name(rt: HostRuntime) {
    let bytes = b"\xa0\x02\x00\xff\xa1\x02hi\xa3\x04amqp";
    assert!(rt; goes(rt.alloc(), bytes, READ, 14));
}
