//! The variants of enums, read by their calls.

use super::answer::{Answer, UNEXPECTED_EOF, is, name_of, told};
use super::asked::{Asked, taken};
use super::calls::is_some_str;
use Answer::{
    InvalidFormatCode, InvalidLength, InvalidUtf8Encoding, InvalidValue, Message,
    SequenceLengthMismatch, Taken,
};
use amqp_base::{DESCRIPTOR, EncodingCodes, Error, UNTAGGED_ENUM, VALUE};
use amqp_de::{Deserialize, Deserializer, Identifier, ListAccess, StructAccess};
use amqp_read::Read;
use std::alloc::Global;

/// Which variant is told.
#[derive(Clone, Copy)]
enum Told {
    Index(u64),
    Name(&'static str),
    Descriptor(u64),
    Code(EncodingCodes),
    Refused(Answer),
}

/// What is asked of it then, and the answer.
#[derive(Clone, Copy)]
enum Held {
    Dropped,
    Unit(Answer),
    Uint(Result<u32, Answer>),
    Ulong(Result<u64, Answer>),
    /// So many fields, the first a uint, the second a truth.
    Tuple(usize, Result<(u32, bool), Answer>),
    Struct(usize, Result<(u32, bool), Answer>),
    IntAndText(i32, &'static str),
}

/// An enum of this name is told and held so; behind it a uint is answered so.
#[derive(Clone, Copy)]
struct Enumeration(&'static str, Told, Held, Result<u32, Answer>);

/// The variant is told so.
fn is_told(outcome: Result<Identifier, Error>, want: Told) -> bool {
    match outcome {
        Ok(Identifier::Index(index)) => matches!(want, Told::Index(other) if other == index),
        Ok(Identifier::Name(name)) => matches!(want, Told::Name(other) if other == name.as_str()),
        Ok(Identifier::DescriptorName(_)) => false,
        Ok(Identifier::DescriptorCode(code)) => {
            matches!(want, Told::Descriptor(other) if other == code)
        }
        Ok(Identifier::Code(code)) => matches!(want, Told::Code(other) if other == code),
        Err(e) => matches!(want, Told::Refused(name) if name == name_of(&e)),
    }
}

/// The fields of a list, or what its end answers.
fn fields<R: Read>(list: ListAccess<'_, R>, alloc: Global) -> Result<(u32, bool), Answer> {
    let mut list = list;
    let first = list.next_element::<u32>(alloc);
    let second = list.next_element::<bool>(alloc);
    let ended = told(list.end());
    both(first, second, ended)
}

/// The same of a struct.
fn members<R: Read>(access: StructAccess<'_, R>, alloc: Global) -> Result<(u32, bool), Answer> {
    let mut access = access;
    let first = access.next_element::<u32>(alloc);
    let second = access.next_element::<bool>(alloc);
    let ended = told(access.end());
    both(first, second, ended)
}

/// The list holds this number and this text, and no more.
fn int_and_text<R: Read>(list: ListAccess<'_, R>, alloc: Global, number: i32, text: &str) -> bool {
    let mut list = list;
    let first = is(list.next_element::<i32>(alloc), Ok(Some(number)));
    let second = is_some_str(list.next_element::<String>(alloc), text);
    let ended = told(list.end());
    first && second && ended == Taken
}

/// Both values, or the first refusal.
fn both(
    first: Result<Option<u32>, Error>,
    second: Result<Option<bool>, Error>,
    ended: Answer,
) -> Result<(u32, bool), Answer> {
    match first {
        Ok(Some(first)) => match second {
            Ok(Some(second)) => {
                if ended == Taken {
                    Ok((first, second))
                } else {
                    Err(ended)
                }
            }
            Ok(None) => Err(ended),
            Err(e) => Err(name_of(&e)),
        },
        Ok(None) => Err(ended),
        Err(e) => Err(name_of(&e)),
    }
}

/// The variant is told so, and let go.
fn is_dropped<R: Read>(
    de: &mut Deserializer<R>,
    alloc: Global,
    name: &'static str,
    told_so: Told,
) -> bool {
    match de.deserialize_enum(alloc, name) {
        Ok(variant) => {
            let mut variant = variant;
            is_told(variant.variant(alloc), told_so)
        }
        Err(_) => false,
    }
}

/// The variant is told so, and then whether it holds nothing.
fn is_unit<R: Read>(
    de: &mut Deserializer<R>,
    alloc: Global,
    name: &'static str,
    told_so: Told,
    want: Answer,
) -> bool {
    match de.deserialize_enum(alloc, name) {
        Ok(variant) => {
            let mut variant = variant;
            let is_so = is_told(variant.variant(alloc), told_so);
            told(variant.unit_variant()) == want && is_so
        }
        Err(_) => false,
    }
}

/// The variant is told so, and then the value that it holds.
fn is_value<R: Read, T: Deserialize<R> + PartialEq + Copy>(
    de: &mut Deserializer<R>,
    alloc: Global,
    name: &'static str,
    told_so: Told,
    want: Result<T, Answer>,
) -> bool {
    match de.deserialize_enum(alloc, name) {
        Ok(variant) => {
            let mut variant = variant;
            let is_so = is_told(variant.variant(alloc), told_so);
            is(variant.newtype_variant::<T>(alloc), want) && is_so
        }
        Err(_) => false,
    }
}

/// The variant is told so, and then the fields of its list.
fn are_fields<R: Read>(
    de: &mut Deserializer<R>,
    alloc: Global,
    name: &'static str,
    told_so: Told,
    len: usize,
    want: Result<(u32, bool), Answer>,
) -> bool {
    match de.deserialize_enum(alloc, name) {
        Ok(variant) => {
            let mut variant = variant;
            let is_so = is_told(variant.variant(alloc), told_so);
            let found = match variant.tuple_variant(len) {
                Ok(list) => fields(list, alloc),
                Err(e) => Err(name_of(&e)),
            };
            found == want && is_so
        }
        Err(_) => false,
    }
}

/// The variant is told so, and then the number and the text of its list.
fn is_int_and_text<R: Read>(
    de: &mut Deserializer<R>,
    alloc: Global,
    name: &'static str,
    told_so: Told,
    number: i32,
    text: &str,
) -> bool {
    match de.deserialize_enum(alloc, name) {
        Ok(variant) => {
            let mut variant = variant;
            let is_so = is_told(variant.variant(alloc), told_so);
            let found = match variant.tuple_variant(2) {
                Ok(list) => Ok(int_and_text(list, alloc, number, text)),
                Err(e) => Err(name_of(&e)),
            };
            found == Ok(true) && is_so
        }
        Err(_) => false,
    }
}

/// The variant is told so, and then the fields of its struct.
fn are_members<R: Read>(
    de: &mut Deserializer<R>,
    alloc: Global,
    name: &'static str,
    told_so: Told,
    len: usize,
    want: Result<(u32, bool), Answer>,
) -> bool {
    match de.deserialize_enum(alloc, name) {
        Ok(variant) => {
            let mut variant = variant;
            let is_so = is_told(variant.variant(alloc), told_so);
            let found = match variant.struct_variant(len) {
                Ok(access) => members(access, alloc),
                Err(e) => Err(name_of(&e)),
            };
            found == want && is_so
        }
        Err(_) => false,
    }
}

/// The enum is told and held so.
fn goes<R: Read>(de: &mut Deserializer<R>, alloc: Global, want: Enumeration) -> bool {
    let Enumeration(name, told_so, held, _) = want;
    match held {
        Held::Dropped => is_dropped(de, alloc, name, told_so),
        Held::Unit(answer) => is_unit(de, alloc, name, told_so, answer),
        Held::Uint(value) => is_value::<R, u32>(de, alloc, name, told_so, value),
        Held::Ulong(value) => is_value::<R, u64>(de, alloc, name, told_so, value),
        Held::Tuple(len, parts) => are_fields(de, alloc, name, told_so, len, parts),
        Held::Struct(len, parts) => are_members(de, alloc, name, told_so, len, parts),
        Held::IntAndText(number, text) => is_int_and_text(de, alloc, name, told_so, number, text),
    }
}

impl Asked for Enumeration {
    fn is_answered<R: Read>(&self, alloc: Global, de: &mut Deserializer<R>) -> bool {
        let is_so = goes(de, alloc, *self);
        is(de.deserialize_u32(), self.3) && is_so
    }
}

/// Each row of bytes goes so, and so many of them are consumed.
fn all_go(alloc: Global, rows: &[(&[u8], Enumeration, usize)]) -> bool {
    let mut is_so = true;
    for (bytes, want, count) in rows {
        is_so = taken(alloc, bytes, want) == Some(*count) && is_so;
    }
    is_so
}

const ENDED: Result<u32, Answer> = Err(InvalidValue);

/// An index or a name alone, and the item behind it.
const UNITS: &[(&[u8], Enumeration, usize)] = &[
    (
        b"\x52\x01\x43",
        Enumeration("E", Told::Index(1), Held::Unit(Taken), Ok(0)),
        3,
    ),
    (
        b"\x53\x01\x43",
        Enumeration("E", Told::Index(1), Held::Unit(Taken), Ok(0)),
        3,
    ),
    (
        b"\xa1\x0bUnitVariant\x43",
        Enumeration("E", Told::Name("UnitVariant"), Held::Unit(Taken), Ok(0)),
        14,
    ),
    (
        b"\xa3\x01a\x43",
        Enumeration("E", Told::Name("a"), Held::Unit(Taken), Ok(0)),
        4,
    ),
    // a bare index holds nothing, whatever stands behind it
    (
        b"\x52\x02",
        Enumeration(
            "E",
            Told::Index(2),
            Held::Tuple(3, Err(InvalidFormatCode)),
            ENDED,
        ),
        2,
    ),
    (
        b"\x52\x01\x52\x0d",
        Enumeration(
            "E",
            Told::Index(1),
            Held::Uint(Err(InvalidFormatCode)),
            ENDED,
        ),
        2,
    ),
    (
        b"\x43\x45",
        Enumeration(
            "E",
            Told::Index(0),
            Held::Struct(0, Err(InvalidFormatCode)),
            ENDED,
        ),
        1,
    ),
    (
        b"\x43\x43",
        Enumeration("E", Told::Index(0), Held::Dropped, ENDED),
        1,
    ),
];

#[test]
fn a_variant_alone_is_its_index_or_its_name(rt: HostRuntime) {
    assert!(rt; all_go(rt.alloc(), UNITS));
}

/// A pair of an index or a name and what the variant holds, a map or a list.
const PAIRS: &[(&[u8], Enumeration, usize)] = &[
    (
        b"\xc1\x05\x02\x52\x01\x52\x0d\x43",
        Enumeration("E", Told::Index(1), Held::Uint(Ok(13)), Ok(0)),
        8,
    ),
    (
        b"\xc1\x05\x02\x52\x01\x53\x0d\x43",
        Enumeration("E", Told::Index(1), Held::Ulong(Ok(13)), Ok(0)),
        8,
    ),
    (
        b"\xc0\x05\x02\x52\x01\x52\x0d\x43",
        Enumeration("E", Told::Index(1), Held::Uint(Ok(13)), Ok(0)),
        8,
    ),
    (
        b"\xd1\0\0\0\x09\0\0\0\x02\xa1\x01a\x52\x0d\x43",
        Enumeration("E", Told::Name("a"), Held::Uint(Ok(13)), Ok(0)),
        15,
    ),
    (
        b"\xd0\0\0\0\x08\0\0\0\x02\x52\x01\x52\x0d\x43",
        Enumeration("E", Told::Index(1), Held::Uint(Ok(13)), Ok(0)),
        14,
    ),
    (
        b"\xc1\x09\x02\x52\x03\xc0\x04\x02\x52\x07\x42\x43",
        Enumeration("E", Told::Index(3), Held::Tuple(2, Ok((7, false))), Ok(0)),
        12,
    ),
    (
        b"\xc1\x09\x02\x52\x03\xc0\x04\x02\x52\x07\x42\x43",
        Enumeration("E", Told::Index(3), Held::Struct(2, Ok((7, false))), Ok(0)),
        12,
    ),
    (
        b"\xc1\x0e\x02\x52\x01\xc0\x09\x02\x54\x0d\xa1\x04amqp\x43",
        Enumeration("E", Told::Index(1), Held::IntAndText(13, "amqp"), Ok(0)),
        17,
    ),
    (
        b"\xc1\x08\x02\x43\xc0\x04\x02\x52\x0d\x41\x43",
        Enumeration("E", Told::Index(0), Held::Struct(2, Ok((13, true))), Ok(0)),
        11,
    ),
    (
        b"\xc1\x09\x02\x52\x03\xc0\x04\x02\x52\x07\x42",
        Enumeration(
            "E",
            Told::Index(3),
            Held::Tuple(3, Err(SequenceLengthMismatch)),
            ENDED,
        ),
        8,
    ),
    (
        b"\xc1\x05\x02\x52\x01\x52\x0d",
        Enumeration(
            "E",
            Told::Index(1),
            Held::Struct(1, Err(InvalidFormatCode)),
            ENDED,
        ),
        6,
    ),
    // what it holds isn't left behind
    (
        b"\xc1\x04\x02\x43\x52\x0d",
        Enumeration(
            "E",
            Told::Index(0),
            Held::Unit(SequenceLengthMismatch),
            ENDED,
        ),
        4,
    ),
    (
        b"\xc1\x05\x02\x52\x01\x52",
        Enumeration("E", Told::Index(1), Held::Uint(Err(UNEXPECTED_EOF)), ENDED),
        6,
    ),
    (
        b"\xc1\x04\x02\x52\x01\x40",
        Enumeration(
            "E",
            Told::Index(1),
            Held::Uint(Err(InvalidFormatCode)),
            ENDED,
        ),
        6,
    ),
];

#[test]
fn a_variant_with_a_value_is_a_pair(rt: HostRuntime) {
    assert!(rt; all_go(rt.alloc(), PAIRS));
}

/// No variant, and how many bytes were consumed by then.
const NONE: &[(&[u8], &str, Answer, usize)] = &[
    (b"", "E", UNEXPECTED_EOF, 0),
    (b"\x45", "E", InvalidFormatCode, 0),
    (b"\x40", "E", InvalidFormatCode, 0),
    (b"\x54\x01", "E", InvalidFormatCode, 0),
    (b"\x57", "E", InvalidFormatCode, 0),
    (b"\xe0\x01\0", "E", InvalidFormatCode, 0),
    (b"\x52", "E", UNEXPECTED_EOF, 1),
    (b"\xa1\x01\xff", "E", InvalidUtf8Encoding, 2),
    (b"\xc1\x05\x04\x52\x01\x52\x0d", "E", InvalidLength, 3),
    (b"\xc0\x03\x01\x52\x01", "E", InvalidLength, 3),
    (b"\xc1\x01\x01", "E", InvalidLength, 3),
    (b"\xc0\0\x02", "E", InvalidLength, 3),
    (b"\xc1\x01", "E", UNEXPECTED_EOF, 2),
    (b"\xc1\x06\x02\0\x53\x01\x52\x0d", "E", InvalidFormatCode, 4),
    (b"\xc1\x05\x02\x40\x52\x0d", "E", InvalidFormatCode, 4),
    (b"\xc1\x05\x02", "E", UNEXPECTED_EOF, 3),
    (b"\0\x40\x40", "E", InvalidFormatCode, 0),
    (b"\0\x57", UNTAGGED_ENUM, InvalidFormatCode, 0),
    (b"\x57", VALUE, InvalidFormatCode, 0),
    (b"\x40", DESCRIPTOR, InvalidFormatCode, 1),
    (b"\0", DESCRIPTOR, UNEXPECTED_EOF, 1),
    (b"\0\x57", DESCRIPTOR, InvalidFormatCode, 1),
    (b"\0\x40\x40", DESCRIPTOR, Message, 1),
    (b"\0\0\x44", DESCRIPTOR, Message, 1),
];

#[test]
fn where_no_variant_stands_it_is_refused(rt: HostRuntime) {
    let alloc = rt.alloc();
    for (bytes, name, answer, count) in NONE {
        let want = Enumeration(
            *name,
            Told::Refused(*answer),
            Held::Unit(InvalidValue),
            ENDED,
        );
        assert!(rt; taken(alloc, bytes, &want) == Some(*count), "{bytes:?}");
        let want = Enumeration(*name, Told::Refused(*answer), Held::Uint(ENDED), ENDED);
        assert!(rt; taken(alloc, bytes, &want) == Some(*count), "{bytes:?}");
    }
}

/// What other names of an enum ask for: the item itself is held, which stays.
const ITEMS: &[(&[u8], Enumeration, usize)] = &[
    (
        b"\0\x53\x13\x43",
        Enumeration(
            "E",
            Told::Descriptor(0x13),
            Held::Unit(SequenceLengthMismatch),
            ENDED,
        ),
        0,
    ),
    (
        b"\0\x53\x13\x43",
        Enumeration(
            "E",
            Told::Descriptor(0x13),
            Held::Tuple(1, Err(InvalidFormatCode)),
            ENDED,
        ),
        1,
    ),
    (
        b"\x52\x01\x43",
        Enumeration(UNTAGGED_ENUM, Told::Index(1), Held::Unit(Taken), Ok(0)),
        3,
    ),
    (
        b"\x52\x01\x43",
        Enumeration(
            UNTAGGED_ENUM,
            Told::Index(1),
            Held::Uint(Err(InvalidFormatCode)),
            ENDED,
        ),
        2,
    ),
    (
        b"\xc0\x04\x02\x52\x07\x42\x43",
        Enumeration(
            UNTAGGED_ENUM,
            Told::Code(EncodingCodes::List8),
            Held::Tuple(2, Ok((7, false))),
            Ok(0),
        ),
        7,
    ),
    (
        b"\xc0\x04\x02\x52\x07\x42\x43",
        Enumeration(
            UNTAGGED_ENUM,
            Told::Code(EncodingCodes::List8),
            Held::Struct(2, Ok((7, false))),
            Ok(0),
        ),
        7,
    ),
    (
        b"\x40",
        Enumeration(
            UNTAGGED_ENUM,
            Told::Code(EncodingCodes::Null),
            Held::Unit(SequenceLengthMismatch),
            ENDED,
        ),
        0,
    ),
    (
        b"\x52\x0d\x43",
        Enumeration(
            VALUE,
            Told::Code(EncodingCodes::SmallUint),
            Held::Uint(Ok(13)),
            Ok(0),
        ),
        3,
    ),
    (
        b"\0\x44\x40",
        Enumeration(
            VALUE,
            Told::Code(EncodingCodes::DescribedType),
            Held::Uint(Err(InvalidFormatCode)),
            ENDED,
        ),
        1,
    ),
    (
        b"\x43",
        Enumeration(
            VALUE,
            Told::Code(EncodingCodes::Uint0),
            Held::Unit(SequenceLengthMismatch),
            ENDED,
        ),
        0,
    ),
    (
        b"\0\x53\x13\x43",
        Enumeration(
            DESCRIPTOR,
            Told::Code(EncodingCodes::SmallUlong),
            Held::Ulong(Ok(0x13)),
            Ok(0),
        ),
        4,
    ),
    (
        b"\0\x44\x43",
        Enumeration(
            DESCRIPTOR,
            Told::Code(EncodingCodes::Ulong0),
            Held::Unit(SequenceLengthMismatch),
            ENDED,
        ),
        1,
    ),
];

#[test]
fn a_variant_may_hold_the_item_itself(rt: HostRuntime) {
    assert!(rt; all_go(rt.alloc(), ITEMS));
}

/// What it holds is asked before which variant it is.
fn is_early<R: Read>(de: &mut Deserializer<R>, alloc: Global) -> bool {
    match de.deserialize_enum(alloc, "E") {
        Ok(variant) => {
            let variant = variant;
            told(variant.unit_variant()) == InvalidValue
        }
        Err(_) => false,
    }
}

/// Calls out of order, which end the deserializer.
struct Unordered;

impl Asked for Unordered {
    fn is_answered<R: Read>(&self, alloc: Global, de: &mut Deserializer<R>) -> bool {
        let early = is_early(de, alloc);
        is(de.deserialize_u32(), Err(InvalidValue)) && early
    }
}

/// Which variant it is is asked twice.
struct Twice;

impl Asked for Twice {
    fn is_answered<R: Read>(&self, alloc: Global, de: &mut Deserializer<R>) -> bool {
        match de.deserialize_enum(alloc, "E") {
            Ok(variant) => {
                let mut variant = variant;
                let first = is_told(variant.variant(alloc), Told::Index(0));
                let second = is_told(variant.variant(alloc), Told::Refused(InvalidValue));
                told(variant.unit_variant()) == InvalidValue && first && second
            }
            Err(_) => false,
        }
    }
}

#[test]
fn which_variant_it_is_comes_first_and_once(rt: HostRuntime) {
    let alloc = rt.alloc();
    assert!(rt; taken(alloc, b"\x43\x43", &Unordered) == Some(0));
    assert!(rt; taken(alloc, b"\x43\x43", &Twice) == Some(1));
}
