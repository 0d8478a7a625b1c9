//! What the calls of a serializer answer, one after the other, and what they write.

use super::answer::{Answer, name_of, told};
use super::written::{By, Writes, writes_so};
use amqp_base::Sink;
use amqp_ser::{MapSerializer, SeqSerializer, Serialize, Serializer};
use amqp_types::{Dec32, Dec64, Dec128, Double, Float, Uuid};
use std::alloc::Global;

/// What is put into an open list or array.
#[derive(Clone, Copy)]
pub(crate) enum Element<'p> {
    Null,
    NoInt,
    Truth(bool),
    Uint(u32),
    Ulong(u64),
    Int(i32),
    List(&'p [i32]),
    /// Many elements by one call.
    Uints(&'p [u32]),
    Ints(&'p [i32]),
}

/// What is put into an open map.
#[derive(Clone, Copy)]
pub(crate) enum Entry {
    Key(u32),
    Number(u32),
    Truth(bool),
    /// A key and its value by one call.
    Pair(u32, u32),
    PairAndNull(u32, i32),
}

/// A call, and what is put into what it opens, with the answers. A compound has the answer of its
/// end, or is dropped.
#[derive(Clone, Copy)]
pub(crate) enum Put<'p> {
    None,
    SomeUint(u32),
    Newtype(i32),
    Unit,
    UnitStruct,
    Truth(bool),
    Char(char),
    Ubyte(u8),
    Ushort(u16),
    Uint(u32),
    Ulong(u64),
    Byte(i8),
    Short(i16),
    Int(i32),
    Long(i64),
    /// The bits of a float.
    Float(u32),
    Double(u64),
    Milliseconds(i64),
    Uuid([u8; 16]),
    Dec32([u8; 4]),
    Dec64([u8; 8]),
    Dec128([u8; 16]),
    Bytes(&'p [u8]),
    Str(&'p str),
    Symbol(&'p str),
    /// A vector, by its own call.
    Ints(&'p [i32]),
    List(Option<usize>, &'p [(Element<'p>, Answer)], Option<Answer>),
    Array(Option<usize>, &'p [(Element<'p>, Answer)], Option<Answer>),
    Tuple(usize, &'p [u32], Answer),
    Map(Option<usize>, &'p [(Entry, Answer)], Option<Answer>),
}

/// The element is answered so.
fn is_element<W: Sink, T: Serialize>(
    list: &mut SeqSerializer<'_, W>,
    alloc: Global,
    value: &T,
    want: Answer,
) -> bool {
    told(list.serialize_element(alloc, value)) == want
}

/// Elements that are put by one call are answered so.
fn are_elements<W: Sink, T: Serialize>(
    list: &mut SeqSerializer<'_, W>,
    alloc: Global,
    values: &[T],
    want: Answer,
) -> bool {
    told(list.serialize_each(alloc, values)) == want
}

/// A list as an element is answered so.
fn is_list_element<W: Sink>(
    list: &mut SeqSerializer<'_, W>,
    alloc: Global,
    values: &[i32],
    want: Answer,
) -> bool {
    match values.to_vec(alloc) {
        Ok(value) => is_element(list, alloc, &value, want),
        Err(_) => false,
    }
}

/// The number is answered so.
fn is_number<W: Sink>(
    list: &mut SeqSerializer<'_, W>,
    alloc: Global,
    element: Element<'_>,
    want: Answer,
) -> bool {
    match element {
        Element::Truth(value) => is_element(list, alloc, &value, want),
        Element::Uint(value) => is_element(list, alloc, &value, want),
        Element::Ulong(value) => is_element(list, alloc, &value, want),
        Element::Int(value) => is_element(list, alloc, &value, want),
        _ => false,
    }
}

/// What is put is answered so.
fn is_put<W: Sink>(
    list: &mut SeqSerializer<'_, W>,
    alloc: Global,
    element: Element<'_>,
    want: Answer,
) -> bool {
    match element {
        Element::Null => is_element(list, alloc, &(), want),
        Element::NoInt => is_element(list, alloc, &None::<i32>, want),
        Element::List(values) => is_list_element(list, alloc, values, want),
        Element::Uints(values) => are_elements(list, alloc, values, want),
        Element::Ints(values) => are_elements(list, alloc, values, want),
        _ => is_number(list, alloc, element, want),
    }
}

/// The elements are answered so.
fn are_put<W: Sink>(
    list: &mut SeqSerializer<'_, W>,
    alloc: Global,
    elements: &[(Element<'_>, Answer)],
) -> bool {
    let mut is_so = true;
    for (element, want) in elements {
        is_so = is_put(list, alloc, *element, *want) && is_so;
    }
    is_so
}

/// The list or array answers so, and its end.
fn puts_elements<W: Sink>(
    list: SeqSerializer<'_, W>,
    alloc: Global,
    elements: &[(Element<'_>, Answer)],
    end: Option<Answer>,
) -> bool {
    let mut list = list;
    let is_so = are_put(&mut list, alloc, elements);
    match end {
        Some(name) => told(list.end()) == name && is_so,
        None => {
            drop(list);
            is_so
        }
    }
}

/// The value is answered so.
fn is_value<W: Sink, V: Serialize>(
    map: &mut MapSerializer<'_, W>,
    alloc: Global,
    value: &V,
    want: Answer,
) -> bool {
    told(map.serialize_value(alloc, value)) == want
}

/// A key and its value by one call are answered so.
pub(crate) fn is_pair<W: Sink, V: Serialize>(
    map: &mut MapSerializer<'_, W>,
    alloc: Global,
    key: u32,
    value: &V,
    want: Answer,
) -> bool {
    told(map.serialize_entry(alloc, &key, value)) == want
}

/// The key is answered so.
fn is_key<W: Sink>(map: &mut MapSerializer<'_, W>, alloc: Global, key: u32, want: Answer) -> bool {
    told(map.serialize_key(alloc, &key)) == want
}

/// A key, a value or both are answered so.
fn is_entry<W: Sink>(
    map: &mut MapSerializer<'_, W>,
    alloc: Global,
    entry: Entry,
    want: Answer,
) -> bool {
    match entry {
        Entry::Key(key) => is_key(map, alloc, key, want),
        Entry::Number(value) => is_value(map, alloc, &value, want),
        Entry::Truth(value) => is_value(map, alloc, &value, want),
        Entry::Pair(key, value) => is_pair(map, alloc, key, &value, want),
        Entry::PairAndNull(key, value) => is_pair(map, alloc, key, &(value, ()), want),
    }
}

/// The keys and values are answered so.
fn are_entries<W: Sink>(
    map: &mut MapSerializer<'_, W>,
    alloc: Global,
    entries: &[(Entry, Answer)],
) -> bool {
    let mut is_so = true;
    for (entry, want) in entries {
        is_so = is_entry(map, alloc, *entry, *want) && is_so;
    }
    is_so
}

/// The map answers so, and its end.
fn puts_entries<W: Sink>(
    map: MapSerializer<'_, W>,
    alloc: Global,
    entries: &[(Entry, Answer)],
    end: Option<Answer>,
) -> bool {
    let mut map = map;
    let is_so = are_entries(&mut map, alloc, entries);
    match end {
        Some(name) => told(map.end()) == name && is_so,
        None => {
            drop(map);
            is_so
        }
    }
}

/// The elements of the tuple are taken, and its end is answered so.
fn puts_tuple<W: Sink>(
    ser: &mut Serializer<W>,
    alloc: Global,
    len: usize,
    parts: &[u32],
    end: Answer,
) -> Result<bool, Answer> {
    match ser.serialize_tuple(alloc, len) {
        Ok(tuple) => {
            let mut tuple = tuple;
            let mut is_so = true;
            for value in parts {
                is_so = told(tuple.serialize_element(alloc, value)) == Answer::Taken && is_so;
            }
            Ok(told(tuple.end()) == end && is_so)
        }
        Err(e) => Err(name_of(&e)),
    }
}

/// What is answered where a compound answers so, or is refused.
fn compound(outcome: Result<bool, Answer>) -> Answer {
    match outcome {
        Ok(true) => Answer::Taken,
        Ok(false) => Answer::Message,
        Err(name) => name,
    }
}

/// What the value's own call answers.
pub(crate) fn puts_value<W: Sink, T: Serialize>(
    ser: &mut Serializer<W>,
    alloc: Global,
    value: &T,
) -> Answer {
    told(value.serialize(alloc, ser))
}

/// What a vector's own call answers.
fn puts_ints<W: Sink>(ser: &mut Serializer<W>, alloc: Global, values: &[i32]) -> Answer {
    match values.to_vec(alloc) {
        Ok(list) => puts_value(ser, alloc, &list),
        Err(_) => Answer::OutOfMemory,
    }
}

/// What the call of a list answers.
fn puts_list<W: Sink>(
    ser: &mut Serializer<W>,
    alloc: Global,
    len: Option<usize>,
    elements: &[(Element<'_>, Answer)],
    end: Option<Answer>,
) -> Result<bool, Answer> {
    match ser.serialize_seq(alloc, len) {
        Ok(list) => Ok(puts_elements(list, alloc, elements, end)),
        Err(e) => Err(name_of(&e)),
    }
}

/// What the call of an array answers.
fn puts_array<W: Sink>(
    ser: &mut Serializer<W>,
    alloc: Global,
    len: Option<usize>,
    elements: &[(Element<'_>, Answer)],
    end: Option<Answer>,
) -> Result<bool, Answer> {
    match ser.serialize_array(alloc, len) {
        Ok(array) => Ok(puts_elements(array, alloc, elements, end)),
        Err(e) => Err(name_of(&e)),
    }
}

/// What the call of a map answers.
fn puts_map<W: Sink>(
    ser: &mut Serializer<W>,
    alloc: Global,
    len: Option<usize>,
    entries: &[(Entry, Answer)],
    end: Option<Answer>,
) -> Result<bool, Answer> {
    match ser.serialize_map(alloc, len) {
        Ok(map) => Ok(puts_entries(map, alloc, entries, end)),
        Err(e) => Err(name_of(&e)),
    }
}

/// What the call of a compound answers.
fn puts_compound<W: Sink>(ser: &mut Serializer<W>, alloc: Global, put: Put<'_>) -> Answer {
    compound(match put {
        Put::List(len, elements, end) => puts_list(ser, alloc, len, elements, end),
        Put::Array(len, elements, end) => puts_array(ser, alloc, len, elements, end),
        Put::Tuple(len, parts, end) => puts_tuple(ser, alloc, len, parts, end),
        Put::Map(len, entries, end) => puts_map(ser, alloc, len, entries, end),
        _ => Err(Answer::Message),
    })
}

/// What the call of an unsigned number answers.
fn puts_unsigned<W: Sink>(ser: &mut Serializer<W>, alloc: Global, put: Put<'_>) -> Answer {
    match put {
        Put::Ubyte(value) => told(ser.serialize_u8(alloc, value)),
        Put::Ushort(value) => told(ser.serialize_u16(alloc, value)),
        Put::Uint(value) => told(ser.serialize_u32(alloc, value)),
        Put::Ulong(value) => told(ser.serialize_u64(alloc, value)),
        _ => puts_compound(ser, alloc, put),
    }
}

/// What the call of a signed number answers.
fn puts_signed<W: Sink>(ser: &mut Serializer<W>, alloc: Global, put: Put<'_>) -> Answer {
    match put {
        Put::Byte(value) => told(ser.serialize_i8(alloc, value)),
        Put::Short(value) => told(ser.serialize_i16(alloc, value)),
        Put::Int(value) => told(ser.serialize_i32(alloc, value)),
        Put::Long(value) => told(ser.serialize_i64(alloc, value)),
        _ => puts_unsigned(ser, alloc, put),
    }
}

/// What the call of a value of so many bytes answers.
fn puts_fixed<W: Sink>(ser: &mut Serializer<W>, alloc: Global, put: Put<'_>) -> Answer {
    match put {
        Put::Float(value) => told(ser.serialize_f32(alloc, Float::from_bits(value))),
        Put::Double(value) => told(ser.serialize_f64(alloc, Double::from_bits(value))),
        Put::Milliseconds(value) => told(ser.serialize_timestamp(alloc, value)),
        Put::Uuid(bytes) => told(ser.serialize_uuid(alloc, &Uuid::from(bytes))),
        _ => puts_signed(ser, alloc, put),
    }
}

/// What the call of a decimal answers.
fn puts_decimal<W: Sink>(ser: &mut Serializer<W>, alloc: Global, put: Put<'_>) -> Answer {
    match put {
        Put::Dec32(bytes) => told(ser.serialize_decimal32(alloc, &Dec32::from(bytes))),
        Put::Dec64(bytes) => told(ser.serialize_decimal64(alloc, &Dec64::from(bytes))),
        Put::Dec128(bytes) => told(ser.serialize_decimal128(alloc, &Dec128::from(bytes))),
        _ => puts_fixed(ser, alloc, put),
    }
}

/// What the call of a payload or a vector answers.
fn puts_payload<W: Sink>(ser: &mut Serializer<W>, alloc: Global, put: Put<'_>) -> Answer {
    match put {
        Put::Bytes(bytes) => told(ser.serialize_bytes(alloc, bytes)),
        Put::Str(text) => told(ser.serialize_str(alloc, text)),
        Put::Symbol(text) => told(ser.serialize_symbol(alloc, text)),
        Put::Ints(values) => puts_ints(ser, alloc, values),
        _ => puts_decimal(ser, alloc, put),
    }
}

/// What the call answers.
fn puts<W: Sink>(ser: &mut Serializer<W>, alloc: Global, put: Put<'_>) -> Answer {
    match put {
        Put::None => told(ser.serialize_none(alloc)),
        Put::SomeUint(value) => told(ser.serialize_some(alloc, &value)),
        Put::Newtype(value) => told(ser.serialize_newtype_struct(alloc, "Celsius", &value)),
        Put::Unit => told(ser.serialize_unit(alloc)),
        Put::UnitStruct => told(ser.serialize_unit_struct(alloc, "Nothing")),
        Put::Truth(value) => told(ser.serialize_bool(alloc, value)),
        Put::Char(value) => told(ser.serialize_char(alloc, value)),
        _ => puts_payload(ser, alloc, put),
    }
}

/// Calls with their answers.
#[derive(Drop)]
struct Calls<'c, 'p>(&'c [(Put<'p>, Answer)]);

impl Writes for Calls<'_, '_> {
    fn is_answered<W: Sink>(&self, alloc: Global, ser: &mut Serializer<W>) -> bool {
        let mut is_so = !ser.is_human_readable();
        for (put, want) in self.0 {
            is_so = puts(ser, alloc, *put) == *want && is_so;
        }
        is_so && !ser.is_human_readable()
    }
}

/// A serializer answers the calls so, and has then written the bytes.
pub(crate) fn goes(alloc: Global, calls: &[(Put<'_>, Answer)], bytes: &[u8]) -> bool {
    writes_so(alloc, By::New, &Calls(calls), bytes)
}

/// Each row of calls goes so.
pub(crate) fn writes_all(alloc: Global, rows: &[(&[(Put<'_>, Answer)], &[u8])]) -> bool {
    let mut is_so = true;
    for (calls, bytes) in rows {
        is_so = goes(alloc, calls, bytes) && is_so;
    }
    is_so
}

/// Calls that are taken.
#[derive(Drop)]
struct Taken<'c, 'p>(&'c [Put<'p>]);

impl Writes for Taken<'_, '_> {
    fn is_answered<W: Sink>(&self, alloc: Global, ser: &mut Serializer<W>) -> bool {
        let mut is_so = !ser.is_human_readable();
        for put in self.0 {
            is_so = puts(ser, alloc, *put) == Answer::Taken && is_so;
        }
        is_so
    }
}

/// A serializer takes all of these, and has then written the bytes.
pub(crate) fn writes(alloc: Global, calls: &[Put<'_>], bytes: &[u8]) -> bool {
    writes_so(alloc, By::From, &Taken(calls), bytes)
}
