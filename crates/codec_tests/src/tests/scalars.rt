//! Booleans, characters and null, as they are written and by their calls. Every form and refusal is
//! a line of the stored runs.

use super::bytes::are_written;
use super::calls::{Call, goes};
use super::puts::{Put, writes};
use Call::{Char, Truth, Unit, UnitStruct};

const BOOLEANS: &[(bool, &[u8])] = &[(true, b"\x41"), (false, b"\x42")];

const NULL: &[((), &[u8])] = &[((), b"\x40")];

#[test]
fn boolean_has_a_constructor_for_each_value_and_null_has_one(rt: HostRuntime) {
    let alloc = rt.alloc();
    assert!(rt; are_written(alloc, BOOLEANS));
    assert!(rt; are_written(alloc, NULL));
}

const CHARS: &[(char, &[u8])] = &[
    ('\u{0}', b"\x73\x00\x00\x00\x00"),
    ('c', b"\x73\x00\x00\x00\x63"),
    ('\u{d7ff}', b"\x73\x00\x00\xd7\xff"),
    ('\u{e000}', b"\x73\x00\x00\xe0\x00"),
    ('\u{1f600}', b"\x73\x00\x01\xf6\x00"),
    ('\u{10ffff}', b"\x73\x00\x10\xff\xff"),
];

#[test]
fn char_is_a_unicode_scalar_value(rt: HostRuntime) {
    assert!(rt; are_written(rt.alloc(), CHARS));
}

const WRITTEN: &[Put<'static>] = &[Put::Unit, Put::UnitStruct, Put::Truth(true), Put::Char('a')];

const READ: &[Call] = &[Unit, UnitStruct, Truth(Ok(true)), Char('a')];

#[test]
fn calls_by_name(rt: HostRuntime) {
    let alloc = rt.alloc();
    assert!(rt; writes(alloc, WRITTEN, b"\x40\x40\x41\x73\x00\x00\x00\x61"));
    assert!(rt; goes(alloc, b"\x40\x40\x56\x01\x73\x00\x00\x00\x61", READ, 9));
}
