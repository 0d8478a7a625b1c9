//! What is asked of a deserializer over a slice. The deserializer is made here alone, as the
//! contracts of its reader are dear in each function that makes one.

use amqp_de::Deserializer;
use amqp_read::{Read, SliceReader};
use std::alloc::Global;

/// Calls of a deserializer, and what they answer.
pub(crate) trait Asked {
    /// They are answered so.
    fn is_answered<R: Read>(&self, alloc: Global, de: &mut Deserializer<R>) -> bool;
}

/// How many of the bytes are consumed, where the calls are answered so.
pub(crate) fn taken<A: Asked>(alloc: Global, bytes: &[u8], asked: &A) -> Option<usize> {
    let mut de = Deserializer::new(SliceReader::new(bytes));
    let is_so = asked.is_answered(alloc, &mut de);
    let taken = de.into_reader().bytes_consumed();
    if is_so { Some(taken) } else { None }
}
