//! Structs behind a descriptor: by hand, part by part, and by their fields.

use super::answer::{Answer, UNEXPECTED_EOF, is, name_of, told};
use super::asked::{Asked, taken};
use super::bytes::is_made_as;
use super::made::{array, both, string, symbol};
use super::written::{By, Writes, writes_so};
use Answer::{InvalidFormatCode, InvalidValue, Message, SequenceLengthMismatch, Taken};
use amqp_base::{DESCRIBED_BASIC, DESCRIBED_LIST, DESCRIBED_MAP, Error, Sink};
use amqp_de::{Deserializer, StructAccess};
use amqp_read::Read;
use amqp_ser::{Serializer, Struct, Written};
use amqp_types::{Descriptor, Symbol};
use own_types::Open;
use std::alloc::Global;

/// What is asked of a struct behind a descriptor, and the answer.
#[derive(Clone, Copy)]
enum Step {
    Code(u64),
    NoCode(Answer),
    Number(Result<Option<u32>, Answer>),
    Key(Result<Option<u32>, Answer>),
    Value(Result<u32, Answer>),
}

use Step::{Code, Key, NoCode, Number, Value};

/// The descriptor is this code.
fn is_code(outcome: Result<Descriptor, Error>, want: u64) -> bool {
    match outcome {
        Ok(found) => match &found {
            Descriptor::Code(code) => *code == want,
            Descriptor::Name(_) => false,
        },
        Err(_) => false,
    }
}

/// What the descriptor is.
fn described<R: Read>(foo: &mut StructAccess<'_, R>, alloc: Global) -> Result<Descriptor, Error> {
    match foo {
        StructAccess::Described(access) => access.descriptor(alloc),
        _ => Err(Error::InvalidLength),
    }
}

/// The step is answered so.
fn answers<R: Read>(foo: &mut StructAccess<'_, R>, alloc: Global, step: Step) -> bool {
    match step {
        Code(want) => is_code(described(foo, alloc), want),
        NoCode(want) => told(described(foo, alloc)) == want,
        Number(want) => is(foo.next_element::<u32>(alloc), want),
        Key(want) => is(foo.next_key::<u32>(alloc), want),
        Value(want) => is(foo.next_value::<u32>(alloc), want),
    }
}

/// The steps are answered so, one behind the other, and the end behind them.
fn ends<R: Read>(foo: StructAccess<'_, R>, alloc: Global, steps: &[Step], ended: Answer) -> bool {
    let mut foo = foo;
    let mut is_so = true;
    for step in steps {
        is_so = answers(&mut foo, alloc, *step) && is_so;
    }
    let end = told(foo.end());
    is_so && end == ended
}

/// A struct of this name is opened and answers the steps, and then the end or else the opening
/// answers so.
#[derive(Drop)]
struct Behind {
    name: &'static str,
    steps: &'static [Step],
    answer: Answer,
}

impl Asked for Behind {
    fn is_answered<R: Read>(&self, alloc: Global, de: &mut Deserializer<R>) -> bool {
        match de.deserialize_struct(alloc, self.name, 2) {
            Ok(foo) => ends(foo, alloc, self.steps, self.answer),
            Err(e) => self.steps.is_empty() && name_of(&e) == self.answer,
        }
    }
}

const LIST: &[u8] = b"\x00\x53\x13\xc0\x05\x02\x52\x07\x52\x08";

const MAP: &[u8] = b"\x00\x53\x13\xc1\x05\x02\x52\x01\x52\x08";

/// The name of a struct, its bytes, the steps, and the answer of the end or of the opening.
const STRUCTS: &[(&'static str, &[u8], &'static [Step], Answer)] = &[
    (
        DESCRIBED_LIST,
        LIST,
        &[
            Code(0x13),
            Number(Ok(Some(7))),
            Number(Ok(Some(8))),
            Number(Ok(None)),
        ],
        Taken,
    ),
    (
        DESCRIBED_LIST,
        LIST,
        &[Code(0x13), Number(Ok(Some(7)))],
        SequenceLengthMismatch,
    ),
    (DESCRIBED_LIST, LIST, &[], SequenceLengthMismatch),
    (
        DESCRIBED_LIST,
        LIST,
        &[Number(Err(InvalidValue))],
        InvalidValue,
    ),
    (
        DESCRIBED_LIST,
        LIST,
        &[Code(0x13), NoCode(InvalidValue)],
        InvalidValue,
    ),
    (
        DESCRIBED_LIST,
        LIST,
        &[Code(0x13), Key(Err(InvalidValue))],
        InvalidValue,
    ),
    (
        DESCRIBED_LIST,
        b"\x00\x53\x13\xa1\x00",
        &[NoCode(Message)],
        InvalidValue,
    ),
    (
        DESCRIBED_LIST,
        b"\x00\x53\x13\x00",
        &[NoCode(Message)],
        InvalidValue,
    ),
    (
        DESCRIBED_LIST,
        b"\x00\x53\x13\x57",
        &[NoCode(InvalidFormatCode)],
        InvalidValue,
    ),
    (
        DESCRIBED_LIST,
        b"\x00\x53\x13",
        &[NoCode(UNEXPECTED_EOF)],
        InvalidValue,
    ),
    (
        DESCRIBED_LIST,
        b"\x00\x40\x45",
        &[NoCode(Message)],
        InvalidValue,
    ),
    (DESCRIBED_LIST, b"\x00\x53\x13\x45", &[Code(0x13)], Taken),
    (DESCRIBED_LIST, b"\xc0\x00\x00", &[], InvalidFormatCode),
    (DESCRIBED_LIST, b"", &[], UNEXPECTED_EOF),
    (
        DESCRIBED_MAP,
        MAP,
        &[Code(0x13), Key(Ok(Some(1))), Value(Ok(8)), Key(Ok(None))],
        Taken,
    ),
    (
        DESCRIBED_MAP,
        b"\x00\x53\x13\xc1\x03\x02\x40\x41",
        &[Code(0x13), Key(Err(InvalidFormatCode))],
        InvalidValue,
    ),
    (DESCRIBED_MAP, LIST, &[NoCode(Message)], InvalidValue),
    (
        DESCRIBED_BASIC,
        b"\x00\x53\x13\x52\x07",
        &[Code(0x13), Number(Ok(Some(7))), Number(Ok(None))],
        Taken,
    ),
    (
        DESCRIBED_BASIC,
        b"\x00\x53\x13\x52\x07",
        &[Code(0x13)],
        SequenceLengthMismatch,
    ),
];

/// A struct of this name at the front of the bytes does so.
fn goes(
    alloc: Global,
    name: &'static str,
    bytes: &[u8],
    steps: &'static [Step],
    answer: Answer,
) -> bool {
    let asked = Behind {
        name,
        steps,
        answer,
    };
    taken(alloc, bytes, &asked).is_some()
}

#[test]
fn a_struct_behind_a_descriptor_is_read_by_hand(rt: HostRuntime) {
    let alloc = rt.alloc();
    for (name, bytes, steps, answer) in STRUCTS {
        assert!(rt; goes(alloc, name, bytes, steps, *answer), "{bytes:?}");
    }
}

/// A descriptor, and the number 5 behind it.
struct Five;

impl Writes for Five {
    fn is_answered<W: Sink>(&self, alloc: Global, ser: &mut Serializer<W>) -> bool {
        let first = told(ser.serialize_descriptor(alloc, &Descriptor::Code(0x13)));
        let second = told(ser.serialize_u32(alloc, 5));
        first == Taken && second == Taken
    }
}

/// A struct of this name with the field `a`, behind the descriptor 0x13, is answered so.
struct One(&'static str, Answer);

impl Writes for One {
    fn is_answered<W: Sink>(&self, alloc: Global, ser: &mut Serializer<W>) -> bool {
        let one = Struct {
            name: self.0,
            fields: Written {
                name: "a",
                value: &1u32,
                rest: (),
            },
        };
        told(ser.serialize_described_fields(alloc, &Descriptor::Code(0x13), &one)) == self.1
    }
}

#[test]
fn a_descriptor_is_written_before_its_value(rt: HostRuntime) {
    let alloc = rt.alloc();
    assert!(rt; writes_so(alloc, By::New, &Five, b"\x00\x53\x13\x52\x05"));
    let map = b"\x00\x53\x13\xc1\x06\x02\xa1\x01\x61\x52\x01";
    assert!(rt; writes_so(alloc, By::New, &One(DESCRIBED_MAP, Taken), map));
    let row = b"\x00\x53\x13\xc0\x03\x01\x52\x01";
    assert!(rt; writes_so(alloc, By::New, &One(DESCRIBED_LIST, Taken), row));
    assert!(rt; writes_so(alloc, By::New, &One("Foo", InvalidValue), b""));
}

/// A descriptor by its code or by its name.
#[derive(Clone, Copy)]
enum Alone {
    Code(u64),
    Name(&'static str),
}

/// The descriptor of this name is taken.
fn takes_name<W: Sink>(ser: &mut Serializer<W>, alloc: Global, name: Option<Symbol>) -> bool {
    match name {
        Some(name) => told(ser.serialize_descriptor(alloc, &Descriptor::Name(name))) == Taken,
        None => false,
    }
}

impl Writes for Alone {
    fn is_answered<W: Sink>(&self, alloc: Global, ser: &mut Serializer<W>) -> bool {
        match *self {
            Alone::Code(code) => {
                told(ser.serialize_descriptor(alloc, &Descriptor::Code(code))) == Taken
            }
            Alone::Name(name) => takes_name(ser, alloc, symbol(alloc, name)),
        }
    }
}

const ALONE: &[(Alone, &[u8])] = &[
    (Alone::Name("amqp"), b"\x00\xa3\x04amqp"),
    (Alone::Code(0xf2), b"\x00\x53\xf2"),
    (Alone::Code(113), b"\x00\x53\x71"),
    (Alone::Name("test:name"), b"\x00\xa3\x09test:name"),
];

#[test]
fn a_descriptor_is_written_alone(rt: HostRuntime) {
    let alloc = rt.alloc();
    for (descriptor, bytes) in ALONE {
        assert!(rt; writes_so(alloc, By::New, descriptor, bytes), "{bytes:?}");
    }
}

/// What a container `a` says that leaves the rest open.
fn open(id: Option<String>, channel_max: Option<u16>) -> Option<Open> {
    match id {
        Some(container_id) => Some(Open {
            container_id,
            hostname: None,
            max_frame_size: None,
            channel_max,
        }),
        None => None,
    }
}

const OPEN: &[u8] = b"\x00\x53\x10\xc0\x07\x04\xa1\x01\x61\x40\x40\x40";

#[test]
fn a_performative_is_written_with_all_its_fields(rt: HostRuntime) {
    let alloc = rt.alloc();
    assert!(rt; is_made_as(alloc, open(string(alloc, "a"), None), OPEN));
    let channels = b"\x00\x53\x10\xc0\x09\x04\xa1\x01\x61\x40\x40\x60\x00\xff";
    assert!(rt; is_made_as(alloc, open(string(alloc, "a"), Some(255)), channels));
}

/// Two performatives behind the descriptor that they share.
const OPENS: &[u8] = b"\xe0\x21\x02\x00\x53\x10\xd0\
    \x00\x00\x00\x0a\x00\x00\x00\x04\xa1\x01\x61\x40\x40\x40\
    \x00\x00\x00\x0a\x00\x00\x00\x04\xa1\x01\x62\x40\x40\x40";

#[test]
fn performatives_are_elements_of_an_array(rt: HostRuntime) {
    let alloc = rt.alloc();
    let a = open(string(alloc, "a"), None);
    let b = open(string(alloc, "b"), None);
    assert!(rt; is_made_as(alloc, array(both(alloc, a, b)), OPENS));
}
