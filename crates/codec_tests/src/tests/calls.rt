//! What the calls of a deserializer answer, one after the other.

use super::answer::{Answer, gave, is, name_of, told};
use super::asked::{Asked, taken};
use amqp_base::{EncodingCodes, Error};
use amqp_de::{Deserialize, Deserializer, ListAccess, MapAccess, SeqAccess};
use amqp_read::Read;
use amqp_types::{Dec32, Double, Float, Timestamp, Uuid};
use std::alloc::Global;

/// What is asked of an open list or array, and the answer.
#[derive(Clone, Copy)]
pub(crate) enum Part {
    Uint(Result<Option<u32>, Answer>),
    Int(Result<Option<i32>, Answer>),
    Truth(bool),
    Text(&'static str),
    Uints(&'static [u32]),
    NoDecimal(Answer),
}

/// How a list or an array is let go, and the answer.
#[derive(Clone, Copy)]
pub(crate) enum End {
    Dropped,
    Ended(Answer),
    /// As elements, by the calls of a list that is one for all its types.
    Elements(Answer),
}

/// What is asked of an open map, and the answer.
#[derive(Clone, Copy)]
pub(crate) enum Pair {
    Key(Result<Option<u32>, Answer>),
    Value(Result<bool, Answer>),
}

/// A call, and its answer: the value, where it isn't said to be a refusal.
#[derive(Clone, Copy)]
pub(crate) enum Call {
    Unit,
    UnitStruct,
    Truth(Result<bool, Answer>),
    Char(char),
    Ubyte(u8),
    Ushort(u16),
    Uint(Result<u32, Answer>),
    Ulong(u64),
    Byte(i8),
    Short(i16),
    Int(Result<i32, Answer>),
    Long(i64),
    /// The bits of a float.
    Float(u32),
    Double(u64),
    Milliseconds(i64),
    Uuid([u8; 16]),
    Bytes(&'static [u8]),
    Text(Result<&'static str, Answer>),
    Symbol(&'static str),
    Code(Result<EncodingCodes, Answer>),
    Newtype(Result<i32, Answer>),
    NewtypeList(&'static [u32]),
    NoList(Answer),
    List(&'static [Part], End),
    Array(&'static [Part], End),
    Tuple(usize, &'static [Part], Answer),
    Map(&'static [Pair], Answer),
}

/// The call gave the text, or the refusal of this name.
fn is_str(outcome: Result<String, Error>, want: Result<&str, Answer>) -> bool {
    match outcome {
        Ok(text) => want == Ok(text.as_str()),
        Err(e) => want == Err(name_of(&e)),
    }
}

/// The call gave the bytes.
fn are_bytes(outcome: Result<Vec<u8>, Error>, want: &[u8]) -> bool {
    match outcome {
        Ok(bytes) => bytes.as_slice() == want,
        Err(_) => false,
    }
}

/// The call gave the list.
fn is_list(outcome: Result<Vec<u32>, Error>, want: &[u32]) -> bool {
    match outcome {
        Ok(list) => list.as_slice() == want,
        Err(_) => false,
    }
}

/// The next part is the text.
pub(crate) fn is_some_str(outcome: Result<Option<String>, Error>, want: &str) -> bool {
    match outcome {
        Ok(found) => match found {
            Some(text) => text.as_str() == want,
            None => false,
        },
        Err(_) => false,
    }
}

/// The next part is the list.
fn is_some_list(outcome: Result<Option<Vec<u32>>, Error>, want: &[u32]) -> bool {
    match outcome {
        Ok(found) => match found {
            Some(list) => list.as_slice() == want,
            None => false,
        },
        Err(_) => false,
    }
}

/// The next part of a list or an array is this.
fn is_part<R: Read, T: Deserialize<R> + Copy + PartialEq>(
    list: &mut SeqAccess<'_, R>,
    alloc: Global,
    want: Result<Option<T>, Answer>,
) -> bool {
    is(list.next_element::<T>(alloc), want)
}

/// The same of elements.
fn is_element<R: Read, T: Deserialize<R> + Copy + PartialEq>(
    list: &mut ListAccess<'_, R>,
    alloc: Global,
    want: Result<Option<T>, Answer>,
) -> bool {
    is(list.next_element::<T>(alloc), want)
}

/// The part is answered so.
fn answers_part<R: Read>(list: &mut SeqAccess<'_, R>, alloc: Global, part: Part) -> bool {
    match part {
        Part::Uint(want) => is_part(list, alloc, want),
        Part::Int(want) => is_part(list, alloc, want),
        Part::Truth(want) => is_part(list, alloc, Ok(Some(want))),
        Part::Text(want) => is_some_str(list.next_element::<String>(alloc), want),
        Part::Uints(want) => is_some_list(list.next_element::<Vec<u32>>(alloc), want),
        Part::NoDecimal(want) => told(list.next_element::<Dec32>(alloc)) == want,
    }
}

/// The parts are answered so.
fn are_parts<R: Read>(list: &mut SeqAccess<'_, R>, alloc: Global, parts: &[Part]) -> bool {
    let mut is_so = true;
    for part in parts {
        is_so = answers_part(list, alloc, *part) && is_so;
    }
    is_so
}

/// The element is answered so.
fn answers_element<R: Read>(list: &mut ListAccess<'_, R>, alloc: Global, part: Part) -> bool {
    match part {
        Part::Uint(want) => is_element(list, alloc, want),
        Part::Int(want) => is_element(list, alloc, want),
        Part::Truth(want) => is_element(list, alloc, Ok(Some(want))),
        Part::Text(_) | Part::Uints(_) | Part::NoDecimal(_) => false,
    }
}

/// The elements are answered so.
fn are_elements<R: Read>(list: &mut ListAccess<'_, R>, alloc: Global, parts: &[Part]) -> bool {
    let mut is_so = true;
    for part in parts {
        is_so = answers_element(list, alloc, *part) && is_so;
    }
    is_so
}

/// The open list or array answers so, and its end.
fn reads_seq<R: Read>(list: SeqAccess<'_, R>, alloc: Global, parts: &[Part], end: End) -> bool {
    match end {
        End::Dropped => {
            let mut list = list;
            let is_so = are_parts(&mut list, alloc, parts);
            drop(list);
            is_so
        }
        End::Ended(want) => {
            let mut list = list;
            let is_so = are_parts(&mut list, alloc, parts);
            told(list.end()) == want && is_so
        }
        End::Elements(want) => reads_elements(list.into_elements(), alloc, parts, want),
    }
}

/// The open elements answer so, and their end.
fn reads_elements<R: Read>(
    list: ListAccess<'_, R>,
    alloc: Global,
    parts: &[Part],
    end: Answer,
) -> bool {
    let mut list = list;
    let is_so = are_elements(&mut list, alloc, parts);
    told(list.end()) == end && is_so
}

/// The next key is this.
fn is_key<R: Read>(
    map: &mut MapAccess<'_, R>,
    alloc: Global,
    want: Result<Option<u32>, Answer>,
) -> bool {
    is(map.next_key::<u32>(alloc), want)
}

/// The value of the key is this.
fn is_value<R: Read>(
    map: &mut MapAccess<'_, R>,
    alloc: Global,
    want: Result<bool, Answer>,
) -> bool {
    is(map.next_value::<bool>(alloc), want)
}

/// The keys and values are answered so.
fn are_pairs<R: Read>(map: &mut MapAccess<'_, R>, alloc: Global, pairs: &[Pair]) -> bool {
    let mut is_so = true;
    for pair in pairs {
        is_so = is_so
            && match *pair {
                Pair::Key(want) => is_key(map, alloc, want),
                Pair::Value(want) => is_value(map, alloc, want),
            };
    }
    is_so
}

/// The open map answers so, and its end.
fn reads_map<R: Read>(map: MapAccess<'_, R>, alloc: Global, pairs: &[Pair], end: Answer) -> bool {
    let mut map = map;
    let is_so = are_pairs(&mut map, alloc, pairs);
    told(map.end()) == end && is_so
}

/// Whether what is opened is an array, or else a list, and answers so; or the refusal of the
/// opening.
fn opens<R: Read>(
    de: &mut Deserializer<R>,
    alloc: Global,
    is_array: bool,
    parts: &[Part],
    end: End,
) -> Result<bool, Answer> {
    match de.deserialize_seq(alloc) {
        Ok(seq) => {
            let is_form = matches!(&seq, SeqAccess::Array(_)) == is_array;
            Ok(reads_seq(seq, alloc, parts, end) && is_form)
        }
        Err(e) => Err(name_of(&e)),
    }
}

/// The call of an unsigned number is answered so.
fn is_unsigned<R: Read>(de: &mut Deserializer<R>, call: Call) -> bool {
    match call {
        Call::Ubyte(want) => is(de.deserialize_u8(), Ok(want)),
        Call::Ushort(want) => is(de.deserialize_u16(), Ok(want)),
        Call::Uint(want) => is(de.deserialize_u32(), want),
        Call::Ulong(want) => is(de.deserialize_u64(), Ok(want)),
        _ => false,
    }
}

/// The call of a number is answered so.
fn is_number<R: Read>(de: &mut Deserializer<R>, call: Call) -> bool {
    match call {
        Call::Byte(want) => is(de.deserialize_i8(), Ok(want)),
        Call::Short(want) => is(de.deserialize_i16(), Ok(want)),
        Call::Int(want) => is(de.deserialize_i32(), want),
        Call::Long(want) => is(de.deserialize_i64(), Ok(want)),
        _ => is_unsigned(de, call),
    }
}

/// The call of a value of so many bytes is answered so.
fn is_fixed<R: Read>(de: &mut Deserializer<R>, call: Call) -> bool {
    match call {
        Call::Float(want) => is(de.deserialize_f32(), Ok(Float::from_bits(want))),
        Call::Double(want) => is(de.deserialize_f64(), Ok(Double::from_bits(want))),
        Call::Milliseconds(want) => gave(de.deserialize_timestamp(), &Timestamp::from(want)),
        Call::Uuid(want) => gave(de.deserialize_uuid(), &Uuid::from(want)),
        _ => is_number(de, call),
    }
}

/// The call of a value without a length is answered so.
fn is_scalar<R: Read>(de: &mut Deserializer<R>, call: Call) -> bool {
    match call {
        Call::Unit => told(de.deserialize_unit()) == Answer::Taken,
        Call::UnitStruct => told(de.deserialize_unit_struct("Nothing")) == Answer::Taken,
        Call::Truth(want) => is(de.deserialize_bool(), want),
        Call::Char(want) => is(de.deserialize_char(), Ok(want)),
        _ => is_fixed(de, call),
    }
}

/// The call of a payload or a newtype is answered so.
fn is_payload<R: Read>(de: &mut Deserializer<R>, alloc: Global, call: Call) -> bool {
    match call {
        Call::Bytes(want) => are_bytes(de.deserialize_byte_buf(alloc), want),
        Call::Text(want) => is_str(de.deserialize_string(alloc), want),
        Call::Symbol(want) => is_str(de.deserialize_symbol(alloc), Ok(want)),
        Call::Newtype(want) => is(de.deserialize_newtype_struct::<i32>(alloc, "Celsius"), want),
        Call::NewtypeList(want) => {
            is_list(
                de.deserialize_newtype_struct::<Vec<u32>>(alloc, "Celsius"),
                want,
            )
        }
        _ => is_scalar(de, call),
    }
}

/// The tuple is opened and answers so.
fn is_tuple<R: Read>(
    de: &mut Deserializer<R>,
    alloc: Global,
    len: usize,
    parts: &[Part],
    end: Answer,
) -> bool {
    match de.deserialize_tuple(len) {
        Ok(list) => reads_elements(list, alloc, parts, end),
        Err(_) => false,
    }
}

/// The map is opened and answers so.
fn is_map<R: Read>(de: &mut Deserializer<R>, alloc: Global, pairs: &[Pair], end: Answer) -> bool {
    match de.deserialize_map() {
        Ok(map) => reads_map(map, alloc, pairs, end),
        Err(_) => false,
    }
}

/// The call is answered so.
fn answers<R: Read>(de: &mut Deserializer<R>, alloc: Global, call: Call) -> bool {
    match call {
        Call::Code(want) => is(de.deserialize_any(), want),
        Call::NoList(want) => opens(de, alloc, false, &[], End::Dropped) == Err(want),
        Call::List(parts, end) => opens(de, alloc, false, parts, end) == Ok(true),
        Call::Array(parts, end) => opens(de, alloc, true, parts, end) == Ok(true),
        Call::Tuple(len, parts, end) => is_tuple(de, alloc, len, parts, end),
        Call::Map(pairs, end) => is_map(de, alloc, pairs, end),
        _ => is_payload(de, alloc, call),
    }
}

/// The calls are answered so, one after the other.
fn are_answered<R: Read>(de: &mut Deserializer<R>, alloc: Global, calls: &[Call]) -> bool {
    let mut is_so = true;
    for call in calls {
        is_so = answers(de, alloc, *call) && is_so;
    }
    is_so && !de.is_human_readable()
}

/// Calls, and others behind them.
#[derive(Drop)]
struct Calls<'c> {
    first: &'c [Call],
    behind: &'c [Call],
}

impl Asked for Calls<'_> {
    fn is_answered<R: Read>(&self, alloc: Global, de: &mut Deserializer<R>) -> bool {
        let is_so = are_answered(de, alloc, self.first);
        are_answered(de, alloc, self.behind) && is_so
    }
}

/// A deserializer of the bytes answers the calls, and then so many bytes are consumed.
pub(crate) fn goes(alloc: Global, bytes: &[u8], calls: &[Call], count: usize) -> bool {
    let calls = Calls {
        first: calls,
        behind: &[],
    };
    taken(alloc, bytes, &calls) == Some(count)
}

/// Each row of bytes goes so.
pub(crate) fn all_go(alloc: Global, rows: &[(&[u8], &[Call], usize)]) -> bool {
    let mut is_so = true;
    for (bytes, calls, count) in rows {
        is_so = goes(alloc, bytes, calls, *count) && is_so;
    }
    is_so
}

const BEHIND: Answer = Answer::InvalidValue;

/// Each call is refused behind a refusal, or behind a list that was not read to its end.
const REFUSED: &[Call] = &[
    Call::Uint(Err(BEHIND)),
    Call::Int(Err(BEHIND)),
    Call::Text(Err(BEHIND)),
    Call::Code(Err(BEHIND)),
    Call::Newtype(Err(BEHIND)),
    Call::NoList(BEHIND),
];

/// The same, and each call behind these is refused and consumes nothing.
fn ends(alloc: Global, bytes: &[u8], calls: &[Call], count: usize) -> bool {
    let calls = Calls {
        first: calls,
        behind: REFUSED,
    };
    taken(alloc, bytes, &calls) == Some(count)
}

/// Each row of bytes ends so.
pub(crate) fn all_end(alloc: Global, rows: &[(&[u8], &[Call], usize)]) -> bool {
    let mut is_so = true;
    for (bytes, calls, count) in rows {
        is_so = ends(alloc, bytes, calls, *count) && is_so;
    }
    is_so
}
