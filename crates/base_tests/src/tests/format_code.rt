//! The format codes, against the table of part 1, sections 1.2 and 1.6.

use super::answer::{Answer, name_of};
use super::printed::prints;
use amqp_base::{Category, EncodingCodes, IsDescribed};
use std::alloc::Global;
use std::convert::TryFrom;

/// The primitive codes, in the order of the standard.
const PRIMITIVE: [u8; 39] = [
    0x40, 0x56, 0x41, 0x42, 0x50, 0x60, 0x70, 0x52, 0x43, 0x80, 0x53, 0x44, 0x51, 0x61, 0x71, 0x54,
    0x81, 0x55, 0x72, 0x82, 0x74, 0x84, 0x94, 0x73, 0x83, 0x98, 0xa0, 0xb0, 0xa1, 0xb1, 0xa3, 0xb3,
    0x45, 0xc0, 0xd0, 0xc1, 0xd1, 0xe0, 0xf0,
];

const PRINTED: &[(EncodingCodes, &str)] = &[
    (EncodingCodes::Vbin8, "Vbin8:0xa0"),
    (EncodingCodes::Null, "Null:0x40"),
    (EncodingCodes::DescribedType, "DescribedType:0x0"),
    (EncodingCodes::SmallUlong, "SmallUlong:0x53"),
    (EncodingCodes::Decimal128, "Decimal128:0x94"),
    (EncodingCodes::Array32, "Array32:0xf0"),
];

/// `{:?}` prints the name.
fn is_named(alloc: Global, code: EncodingCodes, name: &str) -> bool {
    match format!(in alloc; "{code:?}") {
        Ok(printed) => printed.as_str() == name,
        Err(_) => false,
    }
}

#[test]
fn a_code_prints_its_name_and_byte(rt: HostRuntime) {
    let alloc = rt.alloc();
    for (code, text) in PRINTED {
        assert!(rt; prints(alloc, code, text), "{text}");
    }
    assert!(rt; is_named(alloc, EncodingCodes::Vbin8, "Vbin8"));
}

/// The category of a code (part 1, section 1.2): by its high half, but for 0x56.
fn expected(byte: u8) -> Category {
    match byte {
        0x56 => Category::Fixed(1),
        0x40..=0x4f => Category::Fixed(0),
        0x50..=0x5f => Category::Fixed(1),
        0x60..=0x6f => Category::Fixed(2),
        0x70..=0x7f => Category::Fixed(4),
        0x80..=0x8f => Category::Fixed(8),
        0x90..=0x9f => Category::Fixed(16),
        0xa0..=0xaf => Category::Variable(1),
        0xb0..=0xbf => Category::Variable(4),
        0xc0..=0xcf => Category::Compound(1),
        0xd0..=0xdf => Category::Compound(4),
        0xe0..=0xef => Category::Array(1),
        _ => Category::Array(4),
    }
}

/// The code says the byte in both ways.
fn is_byte(code: EncodingCodes, byte: u8) -> bool {
    code as u8 == byte && code.byte() == byte
}

/// The byte is a code's, which says its byte in both ways, and its category.
fn is_code(byte: u8, category: Result<Category, IsDescribed>) -> bool {
    match EncodingCodes::try_from(byte) {
        Ok(code) => is_byte(code, byte) && Category::try_from(code) == category,
        Err(_) => false,
    }
}

/// The byte is no code's.
fn is_refused(byte: u8) -> bool {
    match EncodingCodes::try_from(byte) {
        Ok(_) => false,
        Err(e) => name_of(&e) == Answer::InvalidFormatCode,
    }
}

#[test]
fn forty_bytes_are_format_codes_whose_high_half_is_the_category(rt: HostRuntime) {
    let mut taken = 0u32;
    for byte in 0..=255u8 {
        if PRIMITIVE.contains(&byte) {
            assert!(rt; is_code(byte, Ok(expected(byte))), "{byte}");
            taken = taken.saturating_add(1);
        } else if byte != 0 {
            assert!(rt; is_refused(byte), "{byte}");
        }
    }
    assert!(rt; taken == 39);
    assert!(rt; is_code(0, Err(IsDescribed)));
    assert!(rt; Category::Fixed(1) != Category::Variable(1));
}
