//! Printed texts.

use amqp_types::{BinaryRef, Uuid};
use std::alloc::Global;
use std::fmt;
use std::fmt::{Display, LowerHex, UpperHex};

/// `{}` prints the text.
pub(crate) fn prints<T: Display>(alloc: Global, value: &T, text: &str) -> bool {
    match format!(in alloc; "{value}") {
        Ok(printed) => printed.as_str() == text,
        Err(_) => false,
    }
}

/// Shows a value in lower hexadecimal.
#[derive(Drop)]
struct Lower<T>(T);

impl<T: LowerHex> Display for Lower<T> {
    fn fmt<W: fmt::Write>(&self, f: &mut fmt::Formatter<W>) -> fmt::Result {
        LowerHex::fmt(&self.0, f)
    }
}

/// Shows a value in upper hexadecimal.
#[derive(Drop)]
struct Upper<T>(T);

impl<T: UpperHex> Display for Upper<T> {
    fn fmt<W: fmt::Write>(&self, f: &mut fmt::Formatter<W>) -> fmt::Result {
        UpperHex::fmt(&self.0, f)
    }
}

/// The bytes print these texts, in lower and in upper hexadecimal.
fn binary_prints(alloc: Global, bytes: &[u8], lower: &str, upper: &str) -> bool {
    let in_lower = prints(alloc, &Lower(BinaryRef(bytes)), lower);
    let in_upper = prints(alloc, &Upper(BinaryRef(bytes)), upper);
    in_lower && in_upper
}

/// A uuid of these bytes prints these texts, in lower and in upper hexadecimal.
fn uuid_prints(alloc: Global, bytes: [u8; 16], lower: &str, upper: &str) -> bool {
    let in_lower = prints(alloc, &Lower(Uuid::from(bytes)), lower);
    let in_upper = prints(alloc, &Upper(Uuid::from(bytes)), upper);
    in_lower && in_upper
}

#[test]
fn a_binary_prints_each_byte_without_a_leading_zero(rt: HostRuntime) {
    let alloc = rt.alloc();
    assert!(rt; binary_prints(alloc, &[0x0a, 0xbc], "abc", "ABC"));
    assert!(rt; binary_prints(alloc, b"amqp", "616d7170", "616D7170"));
    assert!(rt; binary_prints(alloc, &[0x00, 0x10, 0x0f, 0xff], "010fff", "010FFF"));
    assert!(rt; binary_prints(alloc, &[], "", ""));
}

#[test]
fn a_uuid_prints_32_digits_and_four_hyphens(rt: HostRuntime) {
    let bytes = [
        0x61, 0x6d, 0x71, 0x70, 0x05, 0x06, 0x07, 0x08, 0x09, 0x0a, 0x0b, 0x0c, 0x0d, 0x0e, 0x0f,
        0x10,
    ];
    let lower = "616d7170-0506-0708-090a-0b0c0d0e0f10";
    let upper = "616D7170-0506-0708-090A-0B0C0D0E0F10";
    assert!(rt; uuid_prints(rt.alloc(), bytes, lower, upper));
}
