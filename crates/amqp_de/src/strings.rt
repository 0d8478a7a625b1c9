//! Strings of a list, many at a time.

ghost use Rattle.std.specs.Prelude.{◌+◌, ◌<◌, ◌≤◌, length, take, IfSome};
ghost use Rattle.std.specs.Prelude.{vec_len, vec_capacity};
ghost use Rattle.amqp_base.specs.Wire.{bare};
ghost use Rattle.amqp_de.specs.Many.{IsElement};

use crate::many::Many;
use amqp_base::Typed;
use amqp_data::{AsString, Leaf};
use amqp_read::{Read, SliceReader};
use std::alloc::Global;

/// The string at the front of the bytes with its constructor, and how many bytes it is; `None`
/// where none stands there as a whole, or where it finds no memory.
#[inline(always)]
fn string_at_front(alloc: Global, bytes: &[u8]) -> Option<(String, usize)>
    ensures few { IfSome result (λ t. t.1 ≤ length bytes.now) }
    ensures string { IfSome result (λ t.
        IsElement ⟦<String as Typed>⟧.meaning bare (take t.1 bytes.now) t.0) }
{
    let mut reader = SliceReader::new(bytes);
    match reader.next() {
        Ok(Some(code)) => match AsString(alloc).read(&mut reader, code) {
            Ok(text) => Some((text, reader.bytes_consumed())),
            Err(_) => None,
        },
        _ => None,
    }
}

impl Many for String {
    #[inline(always)]
    fn push_front(
        alloc: Global,
        bytes: &[u8],
        most: usize,
        items: &mut Vec<String>,
    ) -> (usize, usize) {
        let mut many = 0;
        let mut at = 0;
        while many < most {
            match string_at_front(alloc, &bytes[at..]) {
                Some((text, len)) => {
                    items.push_reserved(text);
                    many += 1;
                    at += len;
                }
                None => break,
            }
        }
        (many, at)
    }
}
