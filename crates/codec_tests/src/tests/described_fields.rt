//! Structs and tuple structs behind a descriptor, written field by field.

use super::answer::{Answer, told};
use super::written::{By, Writes, writes_so, written};
use Answer::{InvalidValue, SequenceLengthMismatch, Taken};
use amqp_base::{DESCRIBED_BASIC, DESCRIBED_LIST, DESCRIBED_MAP, DESCRIPTOR, Sink};
use amqp_ser::{Serializer, StructSerializer, TupleStructSerializer};
use amqp_types::Descriptor;
use std::alloc::Global;

/// What is written of a struct, and the answer.
#[derive(Clone, Copy)]
enum Put {
    Code(u64, Answer),
    Truth(&'static str, bool, Answer),
    Int(&'static str, i32, Answer),
    Uint(&'static str, u32, Answer),
}

use Put::{Code, Int, Truth, Uint};

/// The step is answered so.
fn puts<W: Sink>(of: &mut StructSerializer<'_, W>, alloc: Global, put: Put) -> bool {
    match put {
        Code(code, want) => {
            told(of.serialize_descriptor(alloc, &Descriptor::Code(code))) == want
        }
        Truth(name, value, want) => told(of.serialize_field(alloc, name, &value)) == want,
        Int(name, value, want) => told(of.serialize_field(alloc, name, &value)) == want,
        Uint(name, value, want) => told(of.serialize_field(alloc, name, &value)) == want,
    }
}

/// The steps are answered so, one behind the other.
fn puts_each<W: Sink>(of: &mut StructSerializer<'_, W>, alloc: Global, steps: &[Put]) -> bool {
    for put in steps {
        if !puts(of, alloc, *put) {
            return false;
        }
    }
    true
}

/// The steps are answered so, and the end behind them.
fn puts_all<W: Sink>(
    of: StructSerializer<'_, W>,
    alloc: Global,
    steps: &[Put],
    want: Answer,
) -> bool {
    let mut of = of;
    let so = puts_each(&mut of, alloc, steps);
    let ended = told(of.end());
    so && ended == want
}

/// A struct of this name is written by these steps, and its end is answered so.
#[derive(Drop)]
struct Fields(&'static str, &'static [Put], Answer);

impl Writes for Fields {
    fn is_answered<W: Sink>(&self, alloc: Global, ser: &mut Serializer<W>) -> bool {
        match ser.serialize_struct(alloc, self.0, 2) {
            Ok(of) => puts_all(of, alloc, self.1, self.2),
            Err(_) => false,
        }
    }
}

const CODE: Put = Code(0x13, Taken);

/// What is written.
const WHOLE: &[(Fields, &[u8])] = &[
    (
        Fields(
            DESCRIBED_LIST,
            &[CODE, Truth("a", true, Taken), Int("b", 3, Taken)],
            Taken,
        ),
        b"\x00\x53\x13\xc0\x04\x02\x41\x54\x03",
    ),
    (Fields(DESCRIBED_LIST, &[CODE], Taken), b"\x00\x53\x13\x45"),
    (
        Fields(DESCRIBED_MAP, &[CODE, Uint("a", 1, Taken)], Taken),
        b"\x00\x53\x13\xc1\x06\x02\xa1\x01a\x52\x01",
    ),
    (
        Fields(DESCRIBED_BASIC, &[CODE, Uint("a", 5, Taken)], Taken),
        b"\x00\x53\x13\x52\x05",
    ),
    (
        Fields(
            "Foo",
            &[Uint("bar", 13, Taken), Truth("is_fool", true, Taken)],
            Taken,
        ),
        b"\xc0\x04\x02\x52\x0d\x41",
    ),
    (
        Fields(
            "Foo",
            &[Int("a_field", 13, Taken), Truth("b", true, Taken)],
            Taken,
        ),
        b"\xc0\x04\x02\x54\x0d\x41",
    ),
];

/// What is refused.
const REFUSED: &[Fields] = &[
    // just one field stands there
    Fields(
        DESCRIBED_BASIC,
        &[CODE, Uint("a", 5, Taken), Uint("b", 6, Taken)],
        SequenceLengthMismatch,
    ),
    Fields(DESCRIBED_BASIC, &[CODE], SequenceLengthMismatch),
    // the descriptor comes first, once, and of no plain struct
    Fields(DESCRIBED_BASIC, &[Uint("a", 5, InvalidValue)], InvalidValue),
    Fields(DESCRIBED_LIST, &[], InvalidValue),
    Fields(
        DESCRIBED_LIST,
        &[CODE, Code(0x13, InvalidValue)],
        InvalidValue,
    ),
    Fields(
        DESCRIBED_BASIC,
        &[CODE, Uint("a", 5, Taken), Code(0x13, InvalidValue)],
        InvalidValue,
    ),
    Fields("Foo", &[Code(0x13, InvalidValue)], InvalidValue),
    // no field has its name
    Fields(
        DESCRIBED_MAP,
        &[CODE, Uint(DESCRIPTOR, 1, InvalidValue)],
        InvalidValue,
    ),
];

#[test]
fn a_struct_is_written_behind_its_descriptor_field_by_field(rt: HostRuntime) {
    let alloc = rt.alloc();
    for (fields, bytes) in WHOLE {
        assert!(rt; writes_so(alloc, By::New, fields, bytes), "{bytes:?}");
    }
    for fields in REFUSED {
        assert!(rt; written(alloc, By::New, fields).is_some());
    }
}

/// The same struct is written so often.
struct Twice;

impl Writes for Twice {
    fn is_answered<W: Sink>(&self, alloc: Global, ser: &mut Serializer<W>) -> bool {
        let described = &[CODE, Truth("a", true, Taken)];
        let plain = &[Uint("bar", 13, Taken), Truth("is_fool", true, Taken)];
        let before = Fields(DESCRIBED_LIST, described, Taken).is_answered(alloc, ser);
        let first = Fields("Foo", plain, Taken).is_answered(alloc, ser);
        let second = Fields("Foo", plain, Taken).is_answered(alloc, ser);
        before && first && second
    }
}

#[test]
fn a_setting_stays_behind_a_described_struct(rt: HostRuntime) {
    let alloc = rt.alloc();
    let bytes = b"\x00\x53\x13\xc0\x02\x01\x41\
        \xc1\x12\x04\xa1\x03bar\x52\x0d\xa1\x07is_fool\x41\
        \xc1\x12\x04\xa1\x03bar\x52\x0d\xa1\x07is_fool\x41";
    assert!(rt; writes_so(alloc, By::DescribedMap, &Twice, bytes));
}

/// The field is answered so.
fn puts_next<W: Sink>(of: &mut TupleStructSerializer<'_, W>, alloc: Global, put: Put) -> bool {
    match put {
        Code(code, want) => {
            told(of.serialize_descriptor(alloc, &Descriptor::Code(code))) == want
        }
        Truth(_, value, want) => told(of.serialize_field(alloc, &value)) == want,
        Int(_, value, want) => told(of.serialize_field(alloc, &value)) == want,
        Uint(_, value, want) => told(of.serialize_field(alloc, &value)) == want,
    }
}

/// The steps are answered so, one behind the other.
fn puts_each_next<W: Sink>(
    of: &mut TupleStructSerializer<'_, W>,
    alloc: Global,
    steps: &[Put],
) -> bool {
    for put in steps {
        if !puts_next(of, alloc, *put) {
            return false;
        }
    }
    true
}

/// The steps are answered so, and the end behind them.
fn puts_row<W: Sink>(
    of: TupleStructSerializer<'_, W>,
    alloc: Global,
    steps: &[Put],
    want: Answer,
) -> bool {
    let mut of = of;
    let so = puts_each_next(&mut of, alloc, steps);
    let ended = told(of.end());
    so && ended == want
}

/// A tuple struct of this name is written by these steps, and its end is answered so.
#[derive(Drop)]
struct Row(&'static str, &'static [Put], Answer);

impl Writes for Row {
    fn is_answered<W: Sink>(&self, alloc: Global, ser: &mut Serializer<W>) -> bool {
        match ser.serialize_tuple_struct(alloc, self.0, 2) {
            Ok(of) => puts_row(of, alloc, self.1, self.2),
            Err(_) => false,
        }
    }
}

/// What is written; a tuple struct is never a map, so that name is a plain one.
const ROWS: &[(Row, &[u8])] = &[
    (
        Row(
            DESCRIBED_LIST,
            &[CODE, Truth("", true, Taken), Int("", 3, Taken)],
            Taken,
        ),
        b"\x00\x53\x13\xc0\x04\x02\x41\x54\x03",
    ),
    (
        Row(DESCRIBED_BASIC, &[CODE, Uint("", 5, Taken)], Taken),
        b"\x00\x53\x13\x52\x05",
    ),
    (
        Row(DESCRIBED_MAP, &[Uint("", 5, Taken)], Taken),
        b"\xc0\x03\x01\x52\x05",
    ),
];

/// What is refused.
const NO_ROWS: &[Row] = &[
    Row(DESCRIBED_MAP, &[Code(0x13, InvalidValue)], InvalidValue),
    Row(DESCRIBED_LIST, &[Uint("", 5, InvalidValue)], InvalidValue),
    Row(DESCRIBED_BASIC, &[CODE], SequenceLengthMismatch),
];

#[test]
fn a_tuple_struct_is_written_behind_its_descriptor_field_by_field(rt: HostRuntime) {
    let alloc = rt.alloc();
    for (row, bytes) in ROWS {
        assert!(rt; writes_so(alloc, By::New, row, bytes), "{bytes:?}");
    }
    for row in NO_ROWS {
        assert!(rt; written(alloc, By::New, row).is_some());
    }
}
