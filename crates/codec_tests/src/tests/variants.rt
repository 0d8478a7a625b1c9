//! The variants of enums, written by their calls.

use super::answer::{Answer, told};
use super::made::string;
use super::written::{By, Writes, writes_so};
use Answer::{InvalidValue, SequenceLengthMismatch, Taken};
use amqp_base::{DESCRIPTOR, Sink};
use amqp_ser::{Serializer, VariantSerializer};
use std::alloc::Global;

/// A field, and whether it is handed with a name.
#[derive(Clone, Copy)]
enum Field {
    Truth(bool),
    Ulong(u64),
    Int(i32),
    Text(&'static str),
    Uint(&'static str, u32),
    Named(&'static str, bool),
}

use Field::{Int, Named, Text, Truth, Uint, Ulong};

/// What is written of an enum.
#[derive(Clone, Copy)]
enum Kind {
    Unit(u32),
    /// A number under an index, of an enum of this name.
    Newtype(&'static str, u32, u32),
    /// A number of eight bytes under an index.
    Long(u32, u64),
    Tuple(u32, usize, &'static [Field]),
    Struct(u32, usize, &'static [Field]),
}

/// The text is taken.
fn takes_text<W: Sink>(
    of: &mut VariantSerializer<'_, W>,
    alloc: Global,
    text: Option<String>,
) -> bool {
    match text {
        Some(text) => told(of.serialize_field(alloc, &text)) == Taken,
        None => false,
    }
}

/// The field is taken.
fn takes<W: Sink>(of: &mut VariantSerializer<'_, W>, alloc: Global, field: Field) -> bool {
    match field {
        Truth(value) => told(of.serialize_field(alloc, &value)) == Taken,
        Ulong(value) => told(of.serialize_field(alloc, &value)) == Taken,
        Int(value) => told(of.serialize_field(alloc, &value)) == Taken,
        Text(text) => takes_text(of, alloc, string(alloc, text)),
        Uint(name, value) => told(of.serialize_field_named(alloc, name, &value)) == Taken,
        Named(name, value) => told(of.serialize_field_named(alloc, name, &value)) == Taken,
    }
}

/// The fields are taken, one behind the other.
fn takes_each<W: Sink>(of: &mut VariantSerializer<'_, W>, alloc: Global, fields: &[Field]) -> bool {
    for field in fields {
        if !takes(of, alloc, *field) {
            return false;
        }
    }
    true
}

/// What the end behind these fields answers.
fn ended<W: Sink>(of: VariantSerializer<'_, W>, alloc: Global, fields: &[Field]) -> Answer {
    let mut of = of;
    let so = takes_each(&mut of, alloc, fields);
    let ended = told(of.end());
    if so { ended } else { InvalidValue }
}

/// What is answered to it.
fn puts<W: Sink>(ser: &mut Serializer<W>, alloc: Global, kind: Kind) -> Answer {
    match kind {
        Kind::Unit(index) => told(ser.serialize_unit_variant(alloc, "Enumeration", index, "A")),
        Kind::Newtype(name, index, value) => {
            told(ser.serialize_newtype_variant(alloc, name, index, "A", &value))
        }
        Kind::Long(index, value) => {
            told(ser.serialize_newtype_variant(alloc, "Enumeration", index, "A", &value))
        }
        Kind::Tuple(index, len, fields) => {
            match ser.serialize_tuple_variant(alloc, "Enumeration", index, "A", len) {
                Ok(of) => ended(of, alloc, fields),
                Err(_) => InvalidValue,
            }
        }
        Kind::Struct(index, len, fields) => {
            match ser.serialize_struct_variant(alloc, "Enumeration", index, "A", len) {
                Ok(of) => ended(of, alloc, fields),
                Err(_) => InvalidValue,
            }
        }
    }
}

/// It is answered so.
#[derive(Drop)]
struct Enumeration(Kind, Answer);

impl Writes for Enumeration {
    fn is_answered<W: Sink>(&self, alloc: Global, ser: &mut Serializer<W>) -> bool {
        puts(ser, alloc, self.0) == self.1
    }
}

/// What is written of each, and nothing where it is refused.
const ROWS: &[(Enumeration, &[u8])] = &[
    (Enumeration(Kind::Unit(0), Taken), b"\x43"),
    (Enumeration(Kind::Unit(1), Taken), b"\x52\x01"),
    (Enumeration(Kind::Unit(256), Taken), b"\x70\0\0\x01\0"),
    (
        Enumeration(Kind::Newtype("Enumeration", 1, 13), Taken),
        b"\xc1\x05\x02\x52\x01\x52\x0d",
    ),
    (
        Enumeration(Kind::Newtype(DESCRIPTOR, 1, 13), InvalidValue),
        b"",
    ),
    (
        Enumeration(Kind::Long(1, 13), Taken),
        b"\xc1\x05\x02\x52\x01\x53\x0d",
    ),
    (
        Enumeration(Kind::Tuple(2, 2, &[Truth(true), Ulong(13)]), Taken),
        b"\xc1\x09\x02\x52\x02\xc0\x04\x02\x41\x53\x0d",
    ),
    (
        Enumeration(Kind::Tuple(1, 2, &[Int(13), Text("amqp")]), Taken),
        b"\xc1\x0e\x02\x52\x01\xc0\x09\x02\x54\x0d\xa1\x04amqp",
    ),
    (
        Enumeration(Kind::Tuple(2, 0, &[]), Taken),
        b"\xc1\x04\x02\x52\x02\x45",
    ),
    (
        Enumeration(Kind::Tuple(2, 2, &[Truth(true)]), SequenceLengthMismatch),
        b"",
    ),
    (
        Enumeration(
            Kind::Tuple(2, 1, &[Truth(true), Truth(true)]),
            SequenceLengthMismatch,
        ),
        b"",
    ),
    (
        Enumeration(
            Kind::Struct(3, 2, &[Uint("id", 7), Named("is_true", false)]),
            Taken,
        ),
        b"\xc1\x09\x02\x52\x03\xc0\x04\x02\x52\x07\x42",
    ),
    (
        Enumeration(
            Kind::Struct(0, 2, &[Uint("num", 13), Named("is_a", true)]),
            Taken,
        ),
        b"\xc1\x08\x02\x43\xc0\x04\x02\x52\x0d\x41",
    ),
    // the name of a field isn't written, whatever it is
    (
        Enumeration(Kind::Struct(3, 1, &[Uint(DESCRIPTOR, 7)]), Taken),
        b"\xc1\x08\x02\x52\x03\xc0\x03\x01\x52\x07",
    ),
];

#[test]
fn a_variant_is_its_index_or_a_pair_of_it(rt: HostRuntime) {
    let alloc = rt.alloc();
    for (variant, bytes) in ROWS {
        assert!(rt; writes_so(alloc, By::New, variant, bytes), "{bytes:?}");
    }
}

/// A variant with fields and one that is dropped before its end, one behind the other.
struct Two;

impl Writes for Two {
    fn is_answered<W: Sink>(&self, alloc: Global, ser: &mut Serializer<W>) -> bool {
        let first = puts(ser, alloc, Kind::Tuple(2, 1, &[Truth(true)]));
        let dropped = ser
            .serialize_tuple_variant(alloc, "Enumeration", 2, "A", 1)
            .is_ok();
        let after = puts(ser, alloc, Kind::Unit(0));
        first == Taken && dropped && after == InvalidValue
    }
}

#[test]
fn a_variant_that_is_dropped_ends_its_serializer(rt: HostRuntime) {
    let bytes = b"\xc1\x07\x02\x52\x02\xc0\x02\x01\x41";
    assert!(rt; writes_so(rt.alloc(), By::New, &Two, bytes));
}
