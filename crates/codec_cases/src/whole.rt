//! Values that are read by the calls for whole values: `from_slice`, `from_slice_with_rest` and
//! `from_reader`. What is refused for want of memory is read once more.

use crate::answer::{Answer, name_of};
use crate::kind::Whole;
use crate::pieces::{Pieces, cut};
use crate::text::{text, written};
use crate::ways::{Outcome, behind, is_same};
use serde_amqp::{
    Array, Binary, Counted, Described, Deserialize, IoReader, OrderedMap, Serialize, SliceReader,
    Symbol, from_reader, from_slice, from_slice_with_rest,
};
use std::alloc::Global;
use std::collections::BTreeMap;

/// By `from_slice`, once.
fn read_once<'s, T>(alloc: Global, bytes: &'s [u8]) -> Result<Vec<u8>, Answer>
where
    T: Serialize + Deserialize<SliceReader<'s>> + Drop,
{
    text(alloc, from_slice::<T>(alloc, bytes))
}

/// By `from_slice`.
fn by_slice<'s, T>(alloc: Global, bytes: &'s [u8]) -> Result<Vec<u8>, Answer>
where
    T: Serialize + Deserialize<SliceReader<'s>> + Drop,
{
    match read_once::<T>(alloc, bytes) {
        Ok(text) => Ok(text),
        Err(Answer::OutOfMemory) => read_once::<T>(alloc, bytes),
        Err(name) => Err(name),
    }
}

/// By `from_slice_with_rest`, once.
fn split<'s, T>(alloc: Global, bytes: &'s [u8]) -> Outcome
where
    T: Serialize + Deserialize<SliceReader<'s>> + Drop,
{
    match from_slice_with_rest::<T>(alloc, bytes) {
        Ok((value, rest)) => behind(written(alloc, &value), rest.len()),
        Err(e) => Err(name_of(&e)),
    }
}

/// By `from_slice_with_rest`.
fn by_slice_with_rest<'s, T>(alloc: Global, bytes: &'s [u8]) -> Outcome
where
    T: Serialize + Deserialize<SliceReader<'s>> + Drop,
{
    match split::<T>(alloc, bytes) {
        Ok(found) => Ok(found),
        Err(Answer::OutOfMemory) => split::<T>(alloc, bytes),
        Err(name) => Err(name),
    }
}

/// By `from_reader`, once.
fn streamed<'s, T>(alloc: Global, bytes: &'s [u8]) -> Outcome
where
    T: Serialize + Deserialize<IoReader<Counted<Pieces<'s>>>> + Drop,
{
    let mut source = Counted::new(cut(bytes, 2));
    let outcome = from_reader::<Counted<Pieces<'s>>, T>(alloc, &mut source);
    behind(text(alloc, outcome), source.into_inner().rest.len())
}

/// By `from_reader`.
fn by_reader<'s, T>(alloc: Global, bytes: &'s [u8]) -> Outcome
where
    T: Serialize + Deserialize<IoReader<Counted<Pieces<'s>>>> + Drop,
{
    match streamed::<T>(alloc, bytes) {
        Ok(found) => Ok(found),
        Err(Answer::OutOfMemory) => streamed::<T>(alloc, bytes),
        Err(name) => Err(name),
    }
}

/// What all of them answer.
fn read<'s, T>(alloc: Global, bytes: &'s [u8]) -> Outcome
where
    T: Serialize + Deserialize<SliceReader<'s>> + Deserialize<IoReader<Counted<Pieces<'s>>>> + Drop,
{
    let outcome = by_slice_with_rest::<T>(alloc, bytes);
    let is_read = is_text_of(&outcome, by_slice::<T>(alloc, bytes));
    if is_read && is_same(&outcome, &by_reader::<T>(alloc, bytes)) {
        outcome
    } else {
        Err(Answer::Differs)
    }
}

/// The text is the same, or the refusal.
fn is_text_of(outcome: &Outcome, other: Result<Vec<u8>, Answer>) -> bool {
    match outcome {
        Ok((_, rest)) => is_same(outcome, &behind(other, *rest)),
        Err(_) => is_same(outcome, &behind(other, 0)),
    }
}

/// A text or bytes.
pub(crate) fn of(alloc: Global, whole: Whole, bytes: &[u8]) -> Outcome {
    match whole {
        Whole::String => read::<String>(alloc, bytes),
        Whole::Symbol => read::<Symbol>(alloc, bytes),
        Whole::Binary => read::<Binary>(alloc, bytes),
        _ => of_parts(alloc, whole, bytes),
    }
}

/// A list, an array or a tuple.
fn of_parts(alloc: Global, whole: Whole, bytes: &[u8]) -> Outcome {
    match whole {
        Whole::ListI32 => read::<Vec<i32>>(alloc, bytes),
        Whole::ListListString => read::<Vec<Vec<String>>>(alloc, bytes),
        Whole::ArrayString => read::<Array<String>>(alloc, bytes),
        Whole::Tuple => read::<(bool, u64, String)>(alloc, bytes),
        _ => of_pairs(alloc, whole, bytes),
    }
}

/// A map, or a described value.
fn of_pairs(alloc: Global, whole: Whole, bytes: &[u8]) -> Outcome {
    match whole {
        Whole::Map => read::<OrderedMap<String, u32>>(alloc, bytes),
        Whole::Sorted => read::<BTreeMap<u32, u32>>(alloc, bytes),
        Whole::Described => read::<Described<Vec<i32>>>(alloc, bytes),
        _ => Err(Answer::NoCase),
    }
}
