//! The canonical text of a value that was read, written in each way. A call that is refused for
//! want of memory is made once more.

use crate::answer::{Answer, is_refused, name_of};
use serde_amqp::{Error, Serialize, Serializer, Sink, serialized_size, to_vec, to_writer};
use std::alloc::Global;

/// The text of the value, or the refusal.
pub(crate) fn text<T: Serialize + Drop>(
    alloc: Global,
    outcome: Result<T, Error>,
) -> Result<Vec<u8>, Answer> {
    match outcome {
        Ok(value) => written(alloc, &value),
        Err(e) => Err(name_of(&e)),
    }
}

/// The text of the value, where each way writes it.
pub(crate) fn written<T: Serialize>(alloc: Global, value: &T) -> Result<Vec<u8>, Answer> {
    match measured(alloc, value) {
        Ok(text) => {
            let is_so = is_sized(alloc, value, text.len());
            if is_written(alloc, value, text.as_slice()) && is_so {
                Ok(text)
            } else {
                Err(Answer::Differs)
            }
        }
        Err(name) => Err(name),
    }
}

/// By `to_vec`.
fn measured<T: Serialize>(alloc: Global, value: &T) -> Result<Vec<u8>, Answer> {
    match to_vec(alloc, value) {
        Ok(text) => Ok(text),
        Err(e) => measured_again(alloc, value, name_of(&e)),
    }
}

/// Once more, where memory was wanting.
fn measured_again<T: Serialize>(alloc: Global, value: &T, name: Answer) -> Result<Vec<u8>, Answer> {
    if name != Answer::OutOfMemory {
        return Err(name);
    }
    match to_vec(alloc, value) {
        Ok(text) => Ok(text),
        Err(e) => Err(name_of(&e)),
    }
}

/// The size is this; where memory is wanting it is asked for once more.
fn is_sized<T: Serialize>(alloc: Global, value: &T, size: usize) -> bool {
    match serialized_size(alloc, value) {
        Ok(found) => found == size,
        Err(e) => name_of(&e) == Answer::OutOfMemory && is_sized_again(alloc, value, size),
    }
}

fn is_sized_again<T: Serialize>(alloc: Global, value: &T, size: usize) -> bool {
    match serialized_size(alloc, value) {
        Ok(found) => found == size,
        Err(_) => false,
    }
}

/// A serializer over a vector and `to_writer` write the text, each once more where memory is
/// wanting.
fn is_written<T: Serialize>(alloc: Global, value: &T, text: &[u8]) -> bool {
    let is_appended = match appended(alloc, value, text) {
        Err(Answer::OutOfMemory) => appended(alloc, value, text).is_ok(),
        outcome => outcome.is_ok(),
    };
    let is_put = match put(alloc, value, text) {
        Err(Answer::OutOfMemory) => put(alloc, value, text).is_ok(),
        outcome => outcome.is_ok(),
    };
    is_appended && is_put
}

/// A serializer over a vector writes the text.
fn appended<T: Serialize>(alloc: Global, value: &T, text: &[u8]) -> Result<(), Answer> {
    let mut ser = Serializer::new(Vec::new(alloc));
    match value.serialize(alloc, &mut ser) {
        Ok(()) => is_this(ser.writer.as_slice(), text),
        Err(e) => Err(ended(&mut ser, alloc, name_of(&e))),
    }
}

/// The refusal, or that another call is answered behind it.
fn ended<W: Sink>(ser: &mut Serializer<W>, alloc: Global, name: Answer) -> Answer {
    if is_refused(ser.serialize_u32(alloc, 1), Answer::InvalidValue) {
        name
    } else {
        Answer::GoesOn
    }
}

/// `to_writer` writes the text into a vector.
fn put<T: Serialize>(alloc: Global, value: &T, text: &[u8]) -> Result<(), Answer> {
    let mut sink = Vec::new(alloc);
    match to_writer(alloc, value, &mut sink) {
        Ok(()) => is_this(sink.as_slice(), text),
        Err(e) => Err(name_of(&e)),
    }
}

/// The bytes are the text.
fn is_this(bytes: &[u8], text: &[u8]) -> Result<(), Answer> {
    if bytes == text {
        Ok(())
    } else {
        Err(Answer::Differs)
    }
}
