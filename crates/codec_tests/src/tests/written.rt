//! What is asked of a serializer over a vector. The serializer is made here alone, as the contracts
//! of its writer are dear in each function that makes one.

use amqp_base::Sink;
use amqp_ser::Serializer;
use std::alloc::Global;

/// Calls of a serializer, and what they answer.
pub(crate) trait Writes {
    /// They are answered so.
    fn is_answered<W: Sink>(&self, alloc: Global, ser: &mut Serializer<W>) -> bool;
}

/// The call that makes a serializer.
#[derive(Clone, Copy)]
pub(crate) enum By {
    New,
    From,
    Symbol,
    DescribedList,
    DescribedMap,
    DescribedBasic,
}

/// A serializer that this call makes.
fn serializer(by: By, bytes: Vec<u8>) -> Serializer<Vec<u8>> {
    match by {
        By::New => Serializer::new(bytes),
        By::From => Serializer::from(bytes),
        By::Symbol => Serializer::symbol(bytes),
        By::DescribedList => Serializer::described_list(bytes),
        By::DescribedMap => Serializer::described_map(bytes),
        By::DescribedBasic => Serializer::described_basic(bytes),
    }
}

/// What is written, where the calls are answered so.
pub(crate) fn written<C: Writes>(alloc: Global, by: By, calls: &C) -> Option<Vec<u8>> {
    let mut ser = serializer(by, Vec::new(alloc));
    let is_so = calls.is_answered(alloc, &mut ser);
    let bytes = ser.into_inner();
    if is_so { Some(bytes) } else { None }
}

/// These bytes are written, where the calls are answered so.
pub(crate) fn writes_so<C: Writes>(alloc: Global, by: By, calls: &C, bytes: &[u8]) -> bool {
    match written(alloc, by, calls) {
        Some(text) => text.as_slice() == bytes,
        None => false,
    }
}
