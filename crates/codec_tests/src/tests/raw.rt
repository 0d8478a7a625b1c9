//! The next value as bytes, by its codes and sizes alone.

use super::answer::{Answer, UNEXPECTED_EOF, is, name_of};
use super::pieces::cut;
use amqp_base::{Counted, Error};
use amqp_read::{IoReader, Read, SliceReader};
use serde_amqp::{from_slice, serialized_size};
use std::alloc::Global;

/// Bytes, and how many of them are the next value, or why none is.
type Row = (&'static [u8], Result<usize, Answer>);

/// What is a value, whatever stands in it, and what isn't. Only a code and a size are looked at, of
/// a descriptor and of the value behind it too.
const ROWS: [Row; 20] = [
    (b"\x00\x53\x13\xc0\x04\x02\x41\x54\x03\xff", Ok(9)),
    (
        b"\x00\x53\x13\x00\x53\x01\x40",
        Err(Answer::InvalidFormatCode),
    ),
    (b"\xc0\x02\x01\x71\x00\x00\x00\x05", Ok(4)),
    (b"\xe0\x02\x00\x40\xff", Ok(4)),
    (b"\x00\xa3\x01\x61\x45\xff", Ok(5)),
    (b"\x40", Ok(1)),
    (b"\x56\x07\x07", Ok(2)),
    (b"\xa1\x01\xff", Ok(3)),
    (b"\xb1\x00\x00\x00\x02\x61\x62\x63", Ok(7)),
    (b"\xd0\x00\x00\x00\x00\x40", Ok(5)),
    (
        b"\x98\x00\x01\x02\x03\x04\x05\x06\x07\x08\x09\x0a\x0b\x0c\x0d\x0e\x0f",
        Ok(17),
    ),
    (b"", Err(UNEXPECTED_EOF)),
    (b"\x57", Err(Answer::InvalidFormatCode)),
    (b"\x70\x00\x00\x00", Err(UNEXPECTED_EOF)),
    (b"\xb1\x00\x00\x01", Err(UNEXPECTED_EOF)),
    (b"\xb1\xff\xff\xff\xff\x61", Err(UNEXPECTED_EOF)),
    (b"\x00", Err(UNEXPECTED_EOF)),
    (b"\x00\x00\x40\x40", Err(Answer::InvalidFormatCode)),
    (b"\x00\xa3\x02\x61", Err(UNEXPECTED_EOF)),
    (b"\x00\x40\x57", Err(Answer::InvalidFormatCode)),
];

/// The answer is so many of these bytes, or the refusal.
fn are(outcome: Result<Vec<u8>, Error>, bytes: &[u8], want: Result<usize, Answer>) -> bool {
    match outcome {
        Ok(value) => want == Ok(value.len()) && bytes.starts_with(value.as_slice()),
        Err(e) => want == Err(name_of(&e)),
    }
}

/// The reader over the bytes gives the value, and has consumed just so many; nothing where it is
/// refused.
fn is_next<R: Read>(reader: &mut R, alloc: Global, row: &Row) -> bool {
    let (bytes, want) = row;
    let is_so = are(reader.forward_read_byte_buf(alloc), bytes, *want);
    is_so && reader.bytes_consumed() == want.unwrap_or(0)
}

/// So it is over a slice, and over sources that give 1, 2 or 7 bytes a read.
fn is_next_of_all(alloc: Global, row: &Row) -> bool {
    let of_slice = is_next(&mut SliceReader::new(row.0), alloc, row);
    let mut is_so = of_slice;
    for most in [1, 2, 7] {
        let mut reader = IoReader::new(alloc, Counted::new(cut(row.0, most)));
        is_so = is_next(&mut reader, alloc, row) && is_so;
    }
    is_so
}

#[test]
fn the_next_value_is_its_code_and_as_many_bytes_as_its_size_says(rt: HostRuntime) {
    for row in &ROWS {
        assert!(rt; is_next_of_all(rt.alloc(), row), "{:?}", row.0);
    }
}

/// A string of 255 letters in its form of 257 bytes, which isn't the one that is written.
fn is_short_form(alloc: Global) -> bool {
    let mut bytes = [b'a'; 257];
    bytes[0] = 0xa1;
    bytes[1] = 0xff;
    let is_raw = are(
        SliceReader::new(&bytes).forward_read_byte_buf(alloc),
        &bytes,
        Ok(257),
    );
    let is_longer = match from_slice::<String>(alloc, &bytes) {
        Ok(text) => text.len() == 255 && is(serialized_size(alloc, &text), Ok(260)),
        Err(_) => false,
    };
    is_raw && is_longer
}

#[test]
fn a_payload_of_255_bytes_has_a_shorter_form_than_its_text(rt: HostRuntime) {
    assert!(rt; is_short_form(rt.alloc()));
}
