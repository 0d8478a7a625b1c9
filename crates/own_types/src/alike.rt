//! A value of one's own is read from a slice and from a source alike.

ghost use Rattle.serde_amqp.specs.Streams.{SameAnswer};

use crate::Foo;
use serde_amqp::{Error, Typed, from_reader, from_slice, laws};
use std::alloc::Global;

/// A foo from the slice, and from a source of its bytes: the same one, or both are refused, but one
/// of them may want memory.
pub fn foo_is_read_alike(alloc: Global, bytes: &[u8]) -> (Result<Foo, Error>, Result<Foo, Error>)
    ensures { SameAnswer ⟦<Foo as Typed>⟧.meaning result.0 result.1 }
{
    laws::readers_agree::<Foo>();
    let of_slice = from_slice(alloc, bytes);
    let mut source = bytes;
    let of_source = from_reader(alloc, &mut source);
    (of_slice, of_source)
}
