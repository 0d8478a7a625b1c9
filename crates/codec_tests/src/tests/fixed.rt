//! Floats, decimals, timestamps and uuids, whose data are so many bytes, as they are written and by
//! their calls. Every form and refusal is a line of the stored runs.

use super::answer::{Answer, gave, told};
use super::asked::{Asked, taken};
use super::bytes::are_written;
use super::calls::{Call, goes};
use super::puts::{Put, writes};
use amqp_de::Deserializer;
use amqp_read::Read;
use amqp_types::{Dec32, Dec64, Dec128, Decimal, Double, Float, Timestamp, Uuid};
use std::alloc::Global;

/// Bytes of another kind.
const OTHER: Answer = Answer::InvalidFormatCode;

#[test]
fn float_has_one_constructor(rt: HostRuntime) {
    let alloc = rt.alloc();
    let floats: &[(Float, &[u8])] = &[
        (Float::from_bits(0), b"\x72\x00\x00\x00\x00"),
        (Float::from_bits(0x8000_0000), b"\x72\x80\x00\x00\x00"),
        (Float::from_bits(0xc2f6_e979), b"\x72\xc2\xf6\xe9\x79"),
        (Float::from_bits(0x42f6_e979), b"\x72\x42\xf6\xe9\x79"),
        (Float::from_bits(0xff7f_ffff), b"\x72\xff\x7f\xff\xff"),
        (Float::from_bits(0x7f7f_ffff), b"\x72\x7f\x7f\xff\xff"),
        (Float::from_bits(0xffff_ffff), b"\x72\xff\xff\xff\xff"),
    ];
    assert!(rt; are_written(alloc, floats));
}

#[test]
fn double_has_one_constructor(rt: HostRuntime) {
    let alloc = rt.alloc();
    let doubles: &[(Double, &[u8])] = &[
        (
            Double::from_bits(0),
            b"\x82\x00\x00\x00\x00\x00\x00\x00\x00",
        ),
        (
            Double::from_bits(1),
            b"\x82\x00\x00\x00\x00\x00\x00\x00\x01",
        ),
        (
            Double::from_bits(0x3ff0_0000_0000_0001),
            b"\x82\x3f\xf0\x00\x00\x00\x00\x00\x01",
        ),
        (
            Double::from_bits(0x405e_dd2f_1a9f_be77),
            b"\x82\x40\x5e\xdd\x2f\x1a\x9f\xbe\x77",
        ),
        (
            Double::from_bits(0xffff_ffff_ffff_ffff),
            b"\x82\xff\xff\xff\xff\xff\xff\xff\xff",
        ),
    ];
    assert!(rt; are_written(alloc, doubles));
}

#[test]
fn decimal32_has_one_constructor(rt: HostRuntime) {
    let alloc = rt.alloc();
    let narrow: &[(Dec32, &[u8])] = &[
        (Dec32::from([0; 4]), b"\x74\x00\x00\x00\x00"),
        (Dec32::from([1, 2, 3, 4]), b"\x74\x01\x02\x03\x04"),
        (Dec32::from(*b"1234"), b"\x741234"),
        (Dec32::from([0xff; 4]), b"\x74\xff\xff\xff\xff"),
    ];
    assert!(rt; are_written(alloc, narrow));
}

#[test]
fn decimal64_has_one_constructor(rt: HostRuntime) {
    let alloc = rt.alloc();
    let middle: &[(Dec64, &[u8])] = &[
        (Dec64::from([0; 8]), b"\x84\x00\x00\x00\x00\x00\x00\x00\x00"),
        (
            Dec64::from([1, 2, 3, 4, 5, 6, 7, 8]),
            b"\x84\x01\x02\x03\x04\x05\x06\x07\x08",
        ),
        (Dec64::from(*b"12345678"), b"\x8412345678"),
        (
            Dec64::from([0xff; 8]),
            b"\x84\xff\xff\xff\xff\xff\xff\xff\xff",
        ),
    ];
    assert!(rt; are_written(alloc, middle));
}

#[test]
fn decimal128_has_one_constructor(rt: HostRuntime) {
    let alloc = rt.alloc();
    let wide: &[(Dec128, &[u8])] = &[
        (
            Dec128::from([0; 16]),
            b"\x94\x00\x00\x00\x00\x00\x00\x00\x00\x00\x00\x00\x00\x00\x00\x00\x00",
        ),
        (
            Dec128::from([9; 16]),
            b"\x94\x09\x09\x09\x09\x09\x09\x09\x09\x09\x09\x09\x09\x09\x09\x09\x09",
        ),
        (
            Dec128::from(*b"\x01\x02\x03\x04\x05\x06\x07\x08\x09\x0a\x0b\x0c\x0d\x0e\x0f\x10"),
            b"\x94\x01\x02\x03\x04\x05\x06\x07\x08\x09\x0a\x0b\x0c\x0d\x0e\x0f\x10",
        ),
        (Dec128::from(*b"0123456789abcdef"), b"\x940123456789abcdef"),
        (
            Dec128::from([0xff; 16]),
            b"\x94\xff\xff\xff\xff\xff\xff\xff\xff\xff\xff\xff\xff\xff\xff\xff\xff",
        ),
    ];
    assert!(rt; are_written(alloc, wide));
}

#[test]
fn timestamp_has_one_constructor(rt: HostRuntime) {
    let alloc = rt.alloc();
    let timestamps: &[(Timestamp, &[u8])] = &[
        (
            Timestamp::from(-9_223_372_036_854_775_808),
            b"\x83\x80\x00\x00\x00\x00\x00\x00\x00",
        ),
        (Timestamp::from(-1), b"\x83\xff\xff\xff\xff\xff\xff\xff\xff"),
        (Timestamp::from(0), b"\x83\x00\x00\x00\x00\x00\x00\x00\x00"),
        (
            Timestamp::from(9_223_372_036_854_775_807),
            b"\x83\x7f\xff\xff\xff\xff\xff\xff\xff",
        ),
    ];
    assert!(rt; are_written(alloc, timestamps));
}

#[test]
fn uuid_has_one_constructor(rt: HostRuntime) {
    let alloc = rt.alloc();
    let uuids: &[(Uuid, &[u8])] = &[
        (
            Uuid::from([0; 16]),
            b"\x98\x00\x00\x00\x00\x00\x00\x00\x00\x00\x00\x00\x00\x00\x00\x00\x00",
        ),
        (
            Uuid::from(*b"amqp\x05\x06\x07\x08\x09\x0a\x0b\x0c\x0d\x0e\x0f\x10"),
            b"\x98amqp\x05\x06\x07\x08\x09\x0a\x0b\x0c\x0d\x0e\x0f\x10",
        ),
        (
            Uuid::from(*b"\x01\x02\x03\x04\x05\x06\x07\x08\x09\x0a\x0b\x0c\x0d\x0e\x0f\x10"),
            b"\x98\x01\x02\x03\x04\x05\x06\x07\x08\x09\x0a\x0b\x0c\x0d\x0e\x0f\x10",
        ),
        (Uuid::from(*b"0123456789abcdef"), b"\x980123456789abcdef"),
        (
            Uuid::from([0xff; 16]),
            b"\x98\xff\xff\xff\xff\xff\xff\xff\xff\xff\xff\xff\xff\xff\xff\xff\xff",
        ),
    ];
    assert!(rt; are_written(alloc, uuids));
}

const WRITTEN: &[Put<'static>] = &[
    Put::Float(1),
    Put::Double(1),
    Put::Milliseconds(1),
    Put::Uuid(*b"0123456789abcdef"),
    Put::Dec32(*b"1234"),
    Put::Dec64(*b"12345678"),
    Put::Dec128(*b"0123456789abcdef"),
];

#[test]
fn values_are_written_by_name(rt: HostRuntime) {
    let bytes = b"\x72\x00\x00\x00\x01\x82\x00\x00\x00\x00\x00\x00\x00\x01\
        \x83\x00\x00\x00\x00\x00\x00\x00\x01\x980123456789abcdef\
        \x741234\x8412345678\x940123456789abcdef";
    assert!(rt; writes(rt.alloc(), WRITTEN, bytes));
}

const READ: &[Call] = &[
    Call::Float(0x8000_0000),
    Call::Milliseconds(-2),
    Call::Double(0x7ff0_0000_0000_0001),
    Call::Uuid(*b"abcdefghijklmnop"),
];

#[test]
fn values_are_read_by_name(rt: HostRuntime) {
    let bytes = b"\x72\x80\x00\x00\x00\x83\xff\xff\xff\xff\xff\xff\xff\xfe\
        \x82\x7f\xf0\x00\x00\x00\x00\x00\x01\x98abcdefghijklmnop";
    assert!(rt; goes(rt.alloc(), bytes, READ, 40));
}

/// The next decimal is this.
fn is_decimal<R: Read>(de: &mut Deserializer<R>, want: &Decimal) -> bool {
    gave(de.deserialize_decimal(), want)
}

/// Decimals of each width by one call, and a float, which is none.
struct Decimals;

impl Asked for Decimals {
    fn is_answered<R: Read>(&self, _alloc: Global, de: &mut Deserializer<R>) -> bool {
        let first = is_decimal(de, &Decimal::Dec32(Dec32::from(*b"abcd")));
        let second = is_decimal(de, &Decimal::Dec64(Dec64::from(*b"abcdefgh")));
        let wide = Decimal::Dec128(Dec128::from(*b"abcdefghijklmnop"));
        let third = is_decimal(de, &wide);
        let is_refused = told(de.deserialize_decimal()) == OTHER;
        first && second && third && is_refused
    }
}

#[test]
fn decimals_of_every_width_are_read_by_one_call(rt: HostRuntime) {
    let bytes = b"\x74abcd\x84abcdefgh\x94abcdefghijklmnop\x72";
    assert!(rt; taken(rt.alloc(), bytes, &Decimals).is_some());
}
