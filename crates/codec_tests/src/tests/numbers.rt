//! Numbers without a point, as they are written: each type by each of its constructors, with the
//! first and the last value. What is read as one, and what isn't, are lines of the stored runs.

use super::bytes::are_written;
use super::calls::{Call, all_go};
use super::puts::{Put, writes};
use Call::{Byte, Int, Long, Short, Ubyte, Uint, Ulong, Ushort};

const UBYTES: &[(u8, &[u8])] = &[(0, b"\x50\x00"), (255, b"\x50\xff")];

const USHORTS: &[(u16, &[u8])] = &[
    (0, b"\x60\x00\x00"),
    (131, b"\x60\x00\x83"),
    (258, b"\x60\x01\x02"),
    (65_535, b"\x60\xff\xff"),
];

#[test]
fn ubyte_and_ushort_have_one_constructor(rt: HostRuntime) {
    let alloc = rt.alloc();
    assert!(rt; are_written(alloc, UBYTES));
    assert!(rt; are_written(alloc, USHORTS));
}

const UINTS: &[(u32, &[u8])] = &[
    (0, b"\x43"),
    (255, b"\x52\xff"),
    (256, b"\x70\x00\x00\x01\x00"),
    (4_294_967_295, b"\x70\xff\xff\xff\xff"),
];

const ULONGS: &[(u64, &[u8])] = &[
    (0, b"\x44"),
    (255, b"\x53\xff"),
    (256, b"\x80\x00\x00\x00\x00\x00\x00\x01\x00"),
    (
        18_446_744_073_709_551_615,
        b"\x80\xff\xff\xff\xff\xff\xff\xff\xff",
    ),
];

#[test]
fn uint_and_ulong_are_written_in_their_shortest_form(rt: HostRuntime) {
    let alloc = rt.alloc();
    assert!(rt; are_written(alloc, UINTS));
    assert!(rt; are_written(alloc, ULONGS));
}

const BYTES: &[(i8, &[u8])] = &[
    (-128, b"\x51\x80"),
    (-1, b"\x51\xff"),
    (0, b"\x51\x00"),
    (127, b"\x51\x7f"),
];

const SHORTS: &[(i16, &[u8])] = &[
    (-32_768, b"\x61\x80\x00"),
    (-2, b"\x61\xff\xfe"),
    (-1, b"\x61\xff\xff"),
    (0, b"\x61\x00\x00"),
    (32_767, b"\x61\x7f\xff"),
];

#[test]
fn byte_and_short_have_one_constructor(rt: HostRuntime) {
    let alloc = rt.alloc();
    assert!(rt; are_written(alloc, BYTES));
    assert!(rt; are_written(alloc, SHORTS));
}

const INTS: &[(i32, &[u8])] = &[
    (-128, b"\x54\x80"),
    (0, b"\x54\x00"),
    (127, b"\x54\x7f"),
    (-129, b"\x71\xff\xff\xff\x7f"),
    (128, b"\x71\x00\x00\x00\x80"),
    (-2_147_483_648, b"\x71\x80\x00\x00\x00"),
    (2_147_483_647, b"\x71\x7f\xff\xff\xff"),
];

const LONGS: &[(i64, &[u8])] = &[
    (-128, b"\x55\x80"),
    (-1, b"\x55\xff"),
    (0, b"\x55\x00"),
    (127, b"\x55\x7f"),
    (-129, b"\x81\xff\xff\xff\xff\xff\xff\xff\x7f"),
    (128, b"\x81\x00\x00\x00\x00\x00\x00\x00\x80"),
    (
        -9_223_372_036_854_775_808,
        b"\x81\x80\x00\x00\x00\x00\x00\x00\x00",
    ),
    (
        9_223_372_036_854_775_807,
        b"\x81\x7f\xff\xff\xff\xff\xff\xff\xff",
    ),
];

#[test]
fn int_and_long_have_two_constructors(rt: HostRuntime) {
    let alloc = rt.alloc();
    assert!(rt; are_written(alloc, INTS));
    assert!(rt; are_written(alloc, LONGS));
}

const WRITTEN: &[Put<'static>] = &[
    Put::Ubyte(255),
    Put::Ushort(258),
    Put::Uint(256),
    Put::Ulong(7),
    Put::Byte(-1),
    Put::Short(-2),
    Put::Int(-1),
    Put::Long(127),
];

#[test]
fn numbers_are_written_by_name(rt: HostRuntime) {
    let bytes =
        b"\x50\xff\x60\x01\x02\x70\x00\x00\x01\x00\x53\x07\x51\xff\x61\xff\xfe\x54\xff\x55\x7f";
    assert!(rt; writes(rt.alloc(), WRITTEN, bytes));
}

const READ: &[(&[u8], &[Call], usize)] = &[
    (
        b"\x50\xff\x60\xfe\xff\x52\xff\x53\xff",
        &[Ubyte(255), Ushort(0xfeff), Uint(Ok(255)), Ulong(255)],
        9,
    ),
    (
        b"\x51\x80\x61\xff\xfe\x54\x80\x55\x80",
        &[Byte(-128), Short(-2), Int(Ok(-128)), Long(-128)],
        9,
    ),
];

#[test]
fn numbers_are_read_by_name(rt: HostRuntime) {
    assert!(rt; all_go(rt.alloc(), READ));
}
