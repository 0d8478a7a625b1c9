//! Structs and tuple structs by hand, opened by their form and written field by field.

use super::answer::{Answer, UNEXPECTED_EOF, is, name_of, told};
use super::asked::{Asked, taken};
use super::written::{By, Writes, writes_so, written};
use amqp_base::{DESCRIBED_LIST, DESCRIBED_MAP, DESCRIPTOR, Error, Sink};
use amqp_de::{Deserialize, Deserializer, StructAccess};
use amqp_read::Read;
use amqp_ser::{Serialize, Serializer, StructSerializer, TupleStructSerializer, Written};
use std::alloc::Global;

/// A list of 13 and true.
const ROW: &[u8] = b"\xc0\x04\x02\x52\x0d\x41";

/// A map from `bar` to 13.
const NAMED: &[u8] = b"\xc1\x08\x02\xa1\x03bar\x52\x0d";

/// What is asked of an open struct, and the answer.
#[derive(Clone, Copy)]
enum Step {
    Number(Result<Option<u32>, Answer>),
    Truth(Result<Option<bool>, Answer>),
    Key(Option<&'static str>),
    KeyRefused(Answer),
    Value(u32),
    Entry(&'static str, u32),
}

use Step::{Entry, Key, KeyRefused, Number, Truth, Value};

/// The next field in order is this.
fn is_field<R: Read, T: Deserialize<R> + Copy + PartialEq>(
    foo: &mut StructAccess<'_, R>,
    alloc: Global,
    want: Result<Option<T>, Answer>,
) -> bool {
    is(foo.next_element::<T>(alloc), want)
}

/// The name is this, or none.
fn is_name(outcome: Result<Option<String>, Error>, want: Option<&str>) -> bool {
    match outcome {
        Ok(found) => match found {
            Some(name) => want == Some(name.as_str()),
            None => want.is_none(),
        },
        Err(_) => false,
    }
}

/// The field is of this name, and is this number.
fn is_entry(outcome: Result<Option<(String, u32)>, Error>, key: &str, value: u32) -> bool {
    match outcome {
        Ok(found) => match found {
            Some(entry) => entry.0.as_str() == key && entry.1 == value,
            None => false,
        },
        Err(_) => false,
    }
}

/// The step by a name is answered so.
fn answers_name<R: Read>(foo: &mut StructAccess<'_, R>, alloc: Global, step: Step) -> bool {
    match step {
        Key(want) => is_name(foo.next_key::<String>(alloc), want),
        KeyRefused(want) => told(foo.next_key::<u32>(alloc)) == want,
        Entry(key, value) => is_entry(foo.next_entry::<String, u32>(alloc), key, value),
        _ => false,
    }
}

/// The step is answered so.
fn answers<R: Read>(foo: &mut StructAccess<'_, R>, alloc: Global, step: Step) -> bool {
    match step {
        Number(want) => is_field(foo, alloc, want),
        Truth(want) => is_field(foo, alloc, want),
        Value(want) => is(foo.next_value::<u32>(alloc), Ok(want)),
        _ => answers_name(foo, alloc, step),
    }
}

/// The steps are answered so, one behind the other, and the end behind them.
fn ends<R: Read>(foo: StructAccess<'_, R>, alloc: Global, steps: &[Step], ended: Answer) -> bool {
    let mut foo = foo;
    let mut is_so = true;
    for step in steps {
        is_so = answers(&mut foo, alloc, *step) && is_so;
    }
    let end = told(foo.end());
    is_so && end == ended
}

/// A struct of this name and two fields is opened and answers the steps, and then the end or else
/// the opening answers so.
#[derive(Drop)]
struct Struct {
    name: &'static str,
    steps: &'static [Step],
    answer: Answer,
}

impl Asked for Struct {
    fn is_answered<R: Read>(&self, alloc: Global, de: &mut Deserializer<R>) -> bool {
        match de.deserialize_struct(alloc, self.name, 2) {
            Ok(foo) => ends(foo, alloc, self.steps, self.answer),
            Err(e) => self.steps.is_empty() && name_of(&e) == self.answer,
        }
    }
}

/// 13 is the first of two fields of a tuple struct, whose end answers so.
fn ends_row<R: Read>(de: &mut Deserializer<R>, alloc: Global, end: Answer) -> bool {
    match de.deserialize_tuple_struct(alloc, "Foo", 2) {
        Ok(foo) => ends(foo, alloc, &[Number(Ok(Some(13)))], end),
        Err(_) => false,
    }
}

/// A tuple struct with a field left unread is refused at its end, and so is what follows it.
struct Row;

impl Asked for Row {
    fn is_answered<R: Read>(&self, alloc: Global, de: &mut Deserializer<R>) -> bool {
        let is_ended = ends_row(de, alloc, Answer::SequenceLengthMismatch);
        told(de.deserialize_bool()) == Answer::InvalidValue && is_ended
    }
}

const REFUSED: Answer = Answer::InvalidValue;

/// The name of a struct, its bytes, the steps, and the answer of the end or of the opening.
const STRUCTS: &[(&'static str, &[u8], &'static [Step], Answer)] = &[
    // a list has the fields in order, and no names
    (
        "Foo",
        ROW,
        &[Number(Ok(Some(13))), Truth(Ok(Some(true))), Truth(Ok(None))],
        Answer::Taken,
    ),
    (
        "Foo",
        ROW,
        &[KeyRefused(REFUSED), Number(Err(REFUSED))],
        REFUSED,
    ),
    // a map has the fields under their names, and no order
    (
        "Foo",
        NAMED,
        &[Key(Some("bar")), Value(13), Key(None)],
        Answer::Taken,
    ),
    ("Foo", NAMED, &[Entry("bar", 13)], Answer::Taken),
    ("Foo", NAMED, &[Number(Err(REFUSED))], REFUSED),
    // what is opened
    (DESCRIBED_LIST, ROW, &[], Answer::InvalidFormatCode),
    ("Foo", b"", &[], UNEXPECTED_EOF),
    ("Foo", b"\x40", &[], Answer::InvalidFormatCode),
    ("Foo", b"\x45", &[], Answer::SequenceLengthMismatch),
    ("Foo", b"\xc1\x01\x01", &[], Answer::InvalidLength),
    ("Foo", b"\xc1\x01\x00", &[], Answer::Taken),
];

/// A struct of this name at the front of the bytes does so.
fn goes(
    alloc: Global,
    name: &'static str,
    bytes: &[u8],
    steps: &'static [Step],
    answer: Answer,
) -> bool {
    let asked = Struct {
        name,
        steps,
        answer,
    };
    taken(alloc, bytes, &asked).is_some()
}

#[test]
fn a_struct_is_read_as_a_list_in_order_or_a_map_by_its_names(rt: HostRuntime) {
    let alloc = rt.alloc();
    for (name, bytes, steps, answer) in STRUCTS {
        assert!(rt; goes(alloc, name, bytes, steps, *answer), "{bytes:?}");
    }
    assert!(rt; taken(alloc, ROW, &Row).is_some());
}

/// What comes of the field.
fn put<W: Sink, T: Serialize>(
    foo: &mut StructSerializer<'_, W>,
    alloc: Global,
    key: &'static str,
    value: &T,
) -> Answer {
    told(foo.serialize_field(alloc, key, value))
}

/// The fields `bar: 13` and `is_fool: true` are taken, and the end.
fn puts_foo<W: Sink>(foo: StructSerializer<'_, W>, alloc: Global) -> bool {
    let mut foo = foo;
    let bar = put(&mut foo, alloc, "bar", &13u32);
    let is_fool = put(&mut foo, alloc, "is_fool", &true);
    [bar, is_fool, told(foo.end())] == [Answer::Taken; 3]
}

/// The struct `{ bar: 13, is_fool: true }` is taken.
struct Foo;

impl Writes for Foo {
    fn is_answered<W: Sink>(&self, alloc: Global, ser: &mut Serializer<W>) -> bool {
        match ser.serialize_struct(alloc, "Foo", 2) {
            Ok(foo) => puts_foo(foo, alloc),
            Err(_) => false,
        }
    }
}

/// What comes of the field of a tuple struct.
fn put_next<W: Sink, T: Serialize>(
    pair: &mut TupleStructSerializer<'_, W>,
    alloc: Global,
    value: &T,
) -> Answer {
    told(pair.serialize_field(alloc, value))
}

/// The fields 13 and true of a tuple struct are taken, and the end.
fn puts_pair<W: Sink>(pair: TupleStructSerializer<'_, W>, alloc: Global) -> bool {
    let mut pair = pair;
    let first = put_next(&mut pair, alloc, &13u32);
    let second = put_next(&mut pair, alloc, &true);
    [first, second, told(pair.end())] == [Answer::Taken; 3]
}

/// A tuple struct of 13 and true is taken.
struct Pair;

impl Writes for Pair {
    fn is_answered<W: Sink>(&self, alloc: Global, ser: &mut Serializer<W>) -> bool {
        match ser.serialize_tuple_struct(alloc, "Pair", 0) {
            Ok(pair) => puts_pair(pair, alloc),
            Err(_) => false,
        }
    }
}

/// What comes of writing a field of this name, and the end behind it.
fn put_one<W: Sink>(foo: StructSerializer<'_, W>, alloc: Global, key: &'static str) -> Answer {
    let mut foo = foo;
    let outcome = put(&mut foo, alloc, key, &13u32);
    if outcome == Answer::Taken {
        told(foo.end())
    } else {
        outcome
    }
}

/// The name of a struct, that of its one field, and what comes of writing it.
#[derive(Drop)]
struct Named(&'static str, &'static str, Answer);

impl Writes for Named {
    fn is_answered<W: Sink>(&self, alloc: Global, ser: &mut Serializer<W>) -> bool {
        match ser.serialize_struct(alloc, self.0, 1) {
            Ok(foo) => put_one(foo, alloc, self.1) == self.2,
            Err(e) => name_of(&e) == self.2,
        }
    }
}

/// The names of descriptors are reserved.
const NAMES: &[Named] = &[
    Named("Foo", "bar", Answer::Taken),
    Named("Foo", DESCRIPTOR, Answer::InvalidValue),
    Named(DESCRIBED_MAP, "bar", Answer::InvalidValue),
];

#[test]
fn a_struct_is_written_as_a_list_or_under_the_described_map_setting_a_map(rt: HostRuntime) {
    let alloc = rt.alloc();
    let map = b"\xc1\x12\x04\xa1\x03bar\x52\x0d\xa1\x07is_fool\x41";
    assert!(rt; writes_so(alloc, By::New, &Foo, ROW));
    assert!(rt; writes_so(alloc, By::DescribedList, &Foo, ROW));
    assert!(rt; writes_so(alloc, By::DescribedMap, &Foo, map));
    assert!(rt; writes_so(alloc, By::DescribedMap, &Pair, ROW));
    for named in NAMES {
        assert!(rt; written(alloc, By::New, named).is_some());
    }
}

/// A field of a row is copied with its name and its value.
fn is_copied(field: &Written<'_, u32, ()>) -> bool {
    match field.clone() {
        Ok(other) => other.name == field.name && *other.value == *field.value,
        Err(_) => false,
    }
}

#[test]
fn a_field_of_a_row_is_copied(rt: HostRuntime) {
    let number = 13;
    let field = Written {
        name: "bar",
        value: &number,
        rest: (),
    };
    assert!(rt; is_copied(&field));
}
