//! Whole values and their bytes, by `to_vec` and `from_slice`. Each call answers a `bool`, or the
//! name of a refusal: a test's proof then carries along neither a value that owns memory nor the
//! contract of a call.

use super::answer::{Answer, gave, is, told};
use super::made::{array, list};
use super::puts::puts_value;
use serde_amqp::{
    Deserialize, Deserializer, Error, Read, Serialize, Serializer, SliceReader, from_slice,
    serialized_size, to_vec,
};
use std::alloc::Global;

/// The vector has these bytes.
fn has(outcome: Result<Vec<u8>, Error>, bytes: &[u8]) -> bool {
    match outcome {
        Ok(text) => text.as_slice() == bytes,
        Err(_) => false,
    }
}

/// The value is written as the bytes, measured first and by a serializer over a vector, and its
/// size is their number.
pub(crate) fn is_written_as<T: Serialize>(alloc: Global, value: &T, bytes: &[u8]) -> bool {
    let is_sized = is(serialized_size(alloc, value), Ok(bytes.len()));
    let is_measured = has(to_vec(alloc, value), bytes);
    let mut ser = Serializer::new(Vec::new(alloc));
    let is_appended = puts_value(&mut ser, alloc, value) == Answer::Taken;
    is_sized && is_measured && is_appended && ser.writer.as_slice() == bytes
}

/// The value that was made is written as the bytes.
pub(crate) fn is_made_as<T: Serialize + Drop>(
    alloc: Global,
    made: Option<T>,
    bytes: &[u8],
) -> bool {
    match made {
        Some(value) => is_written_as(alloc, &value, bytes),
        None => false,
    }
}

/// Each value is written as its bytes.
pub(crate) fn are_written<T: Serialize>(alloc: Global, rows: &[(T, &[u8])]) -> bool {
    let mut is_so = true;
    for (value, bytes) in rows {
        is_so = is_written_as(alloc, value, bytes) && is_so;
    }
    is_so
}

/// What the type answers to the bytes.
fn read<'s, T: Deserialize<SliceReader<'s>>>(alloc: Global, bytes: &'s [u8]) -> Answer {
    told(from_slice::<T>(alloc, bytes))
}

/// The type answers this refusal to the bytes.
pub(crate) fn refuses<'s, T: Deserialize<SliceReader<'s>>>(
    alloc: Global,
    bytes: &'s [u8],
    name: Answer,
) -> bool {
    read::<T>(alloc, bytes) == name
}

/// The value at the front of the bytes is this.
pub(crate) fn means<'s, T: Deserialize<SliceReader<'s>> + PartialEq>(
    alloc: Global,
    bytes: &'s [u8],
    value: &T,
) -> bool {
    gave(from_slice::<T>(alloc, bytes), value)
}

/// What the type's own call answers.
fn takes<R: Read, T: Deserialize<R>>(de: &mut Deserializer<R>, alloc: Global) -> Answer {
    told(T::deserialize(alloc, de))
}

/// The value stands at the front of the bytes and takes so many of them.
pub(crate) fn is_front<'s, T: Deserialize<SliceReader<'s>> + PartialEq>(
    alloc: Global,
    bytes: &'s [u8],
    value: &T,
    taken: usize,
) -> bool {
    let mut de = Deserializer::new(SliceReader::new(bytes));
    let is_taken = takes::<_, T>(&mut de, alloc) == Answer::Taken;
    is_taken && de.into_reader().bytes_consumed() == taken && means(alloc, bytes, value)
}

/// The bytes, all of them, are read as the value.
pub(crate) fn is_read_as<'s, T: Deserialize<SliceReader<'s>> + PartialEq>(
    alloc: Global,
    bytes: &'s [u8],
    value: &T,
) -> bool {
    is_front(alloc, bytes, value, bytes.len())
}

/// The value is written as the bytes, which are read as the value.
pub(crate) fn is_text<'s, T: Serialize + Deserialize<SliceReader<'s>> + PartialEq>(
    alloc: Global,
    value: &T,
    bytes: &'s [u8],
) -> bool {
    is_written_as(alloc, value, bytes) && is_read_as(alloc, bytes, value)
}

/// The value that was made is written as the bytes, which are read as the value.
pub(crate) fn is_made_text<'s, T>(alloc: Global, made: Option<T>, bytes: &'s [u8]) -> bool
where
    T: Serialize + Deserialize<SliceReader<'s>> + PartialEq,
{
    match made {
        Some(value) => is_text(alloc, &value, bytes),
        None => false,
    }
}

/// The bytes, all of them, are read as the value that was made.
pub(crate) fn is_made_read<'s, T>(alloc: Global, made: Option<T>, bytes: &'s [u8]) -> bool
where
    T: Deserialize<SliceReader<'s>> + PartialEq,
{
    match made {
        Some(value) => is_read_as(alloc, bytes, &value),
        None => false,
    }
}

/// The array of these elements is written as the bytes, which are read as the array.
pub(crate) fn is_array<'s, T>(alloc: Global, elements: &[T], bytes: &'s [u8]) -> bool
where
    T: Copy + Serialize + Deserialize<SliceReader<'s>> + PartialEq,
{
    is_made_text(alloc, array(list(alloc, elements)), bytes)
}

/// The value that was made is refused so by each call that writes or measures it.
pub(crate) fn is_unwritten<T: Serialize + Drop>(
    alloc: Global,
    made: Option<T>,
    name: Answer,
) -> bool {
    match made {
        Some(value) => {
            let is_unmeasured = told(serialized_size(alloc, &value)) == name;
            let is_refused = told(to_vec(alloc, &value)) == name;
            let mut ser = Serializer::new(Vec::new(alloc));
            let is_unput = puts_value(&mut ser, alloc, &value) == name;
            is_unmeasured && is_refused && is_unput && ser.writer.is_empty()
        }
        None => false,
    }
}
