//! The reader over a slice: each call, looks further ahead than the next byte, and bytes that are
//! passed over.

use super::answer::{Answer, UNEXPECTED_EOF, gave_bytes, is, told};
use amqp_read::{Read, SliceReader, read_const_bytes};
use std::alloc::Global;

/// A call, and what it answers: a byte or so many of them, or none where fewer are to come. A skip
/// passes over so many bytes or is refused.
#[derive(Clone, Copy)]
enum Call {
    Peek(Option<u8>),
    Next(Option<u8>),
    PeekBytes(usize, Option<&'static [u8]>),
    GetByteSlice(usize, Option<&'static [u8]>),
    ReadBytes(usize, Option<&'static [u8]>),
    ReadNothing,
    ReadTwo(Option<[u8; 2]>),
    At(usize, Option<u8>),
    Copied(usize, usize, Option<&'static [u8]>),
    Skip(usize, Answer),
    AtHand(&'static [u8]),
    PassAtHand(usize, bool),
}

use Call::{
    At, AtHand, Copied, GetByteSlice, Next, PassAtHand, Peek, PeekBytes, ReadBytes, ReadNothing,
    ReadTwo, Skip,
};

/// A buffer of two bytes is filled so, or refused and left.
fn reads_two<R: Read>(reader: &mut R, want: Option<[u8; 2]>) -> bool {
    let mut buf = [1, 2];
    let answer = told(reader.read_exact(&mut buf));
    match want {
        Some(want) => answer == Answer::Taken && buf == want,
        None => answer == UNEXPECTED_EOF && buf == [1, 2],
    }
}

/// The call further ahead answers so.
fn is_ahead<R: Read>(reader: &mut R, alloc: Global, call: Call) -> bool {
    match call {
        At(i, byte) => is(reader.peek_at(i), Ok(byte)),
        Copied(from, n, bytes) => gave_bytes(reader.peek_copied(alloc, from, n), bytes),
        Skip(n, answer) => told(reader.skip(n)) == answer,
        AtHand(bytes) => reader.bytes_at_hand() == bytes,
        PassAtHand(n, is_passed) => reader.pass_at_hand(n) == is_passed,
        _ => false,
    }
}

/// The call of any reader answers so. Only a look at missing bytes is no refusal.
fn is_answered<R: Read>(reader: &mut R, alloc: Global, call: Call) -> bool {
    match call {
        Peek(byte) => is(reader.peek(), Ok(byte)),
        Next(byte) => is(reader.next(), Ok(byte)),
        PeekBytes(n, bytes) => is(reader.peek_bytes(n), Ok(bytes)),
        ReadBytes(n, bytes) => gave_bytes(reader.read_bytes(alloc, n), bytes),
        ReadNothing => reader.read_exact(&mut []).is_ok(),
        ReadTwo(bytes) => reads_two(reader, bytes),
        _ => is_ahead(reader, alloc, call),
    }
}

/// The call answers so, and the reader is at the position behind it.
fn answers(reader: &mut SliceReader<'_>, alloc: Global, call: Call, position: usize) -> bool {
    let is_so = match call {
        GetByteSlice(n, bytes) => is(reader.get_byte_slice(n), bytes.ok_or(UNEXPECTED_EOF)),
        _ => is_answered(reader, alloc, call),
    };
    is_so && reader.bytes_consumed() == position
}

/// A reader over so many bytes answers the calls, and is at the position behind each; all bytes
/// behind it are at hand.
fn goes_on(
    reader: &mut SliceReader<'_>,
    alloc: Global,
    len: usize,
    calls: &[(Call, usize)],
) -> bool {
    let mut is_so = true;
    for (call, position) in calls {
        is_so = answers(reader, alloc, *call, *position) && is_so;
        is_so = len.checked_sub(*position) == Some(reader.at_hand()) && is_so;
    }
    is_so
}

/// The same of a new one.
fn goes(alloc: Global, bytes: &[u8], calls: &[(Call, usize)]) -> bool {
    let mut reader = SliceReader::new(bytes);
    let is_first = reader.bytes_consumed() == 0;
    goes_on(&mut reader, alloc, bytes.len(), calls) && is_first
}

const BYTES: &[u8] = b"\xde\xad\xbe";

/// A look takes nothing, and the next byte one.
const ONE_BY_ONE: &[(Call, usize)] = &[
    (Peek(Some(0xde)), 0),
    (Next(Some(0xde)), 1),
    (Peek(Some(0xad)), 1),
    (Next(Some(0xad)), 2),
    (Peek(Some(0xbe)), 2),
    (Next(Some(0xbe)), 3),
    (Peek(None), 3),
    (Next(None), 3),
    (Next(None), 3),
];

/// A buffer is filled whole or left.
const INTO_A_BUFFER: &[(Call, usize)] = &[
    (ReadNothing, 0),
    (ReadTwo(Some([0xde, 0xad])), 2),
    (ReadTwo(None), 2),
    (Next(Some(0xbe)), 3),
    (ReadNothing, 3),
];

/// A look at many bytes takes none.
const MANY_PEEKED: &[(Call, usize)] = &[
    (PeekBytes(0, Some(b"")), 0),
    (PeekBytes(2, Some(b"\xde\xad")), 0),
    (PeekBytes(3, Some(b"\xde\xad\xbe")), 0),
    (PeekBytes(4, None), 0),
    (PeekBytes(usize::MAX, None), 0),
    (GetByteSlice(3, Some(BYTES)), 3),
    (PeekBytes(0, Some(b"")), 3),
    (PeekBytes(1, None), 3),
];

/// A vector is filled whole or refused.
const INTO_A_VECTOR: &[(Call, usize)] = &[
    (ReadBytes(0, Some(b"")), 0),
    (ReadBytes(2, Some(b"\xde\xad")), 2),
    (ReadBytes(2, None), 2),
    (ReadBytes(usize::MAX, None), 2),
    (Next(Some(0xbe)), 3),
    (ReadBytes(0, Some(b"")), 3),
    (ReadBytes(1, None), 3),
];

/// A byte further ahead stays.
const AHEAD: &[(Call, usize)] = &[
    (At(0, Some(0xde)), 0),
    (At(2, Some(0xbe)), 0),
    (At(3, None), 0),
    (At(usize::MAX, None), 0),
    (Skip(1, Answer::Taken), 1),
    (At(0, Some(0xad)), 1),
    (At(1, Some(0xbe)), 1),
    (At(2, None), 1),
];

/// A copy of bytes further ahead is whole or refused.
const COPIES: &[(Call, usize)] = &[
    (Copied(0, 3, Some(b"\xde\xad\xbe")), 0),
    (Copied(1, 1, Some(b"\xad")), 0),
    (Copied(3, 0, Some(b"")), 0),
    (Copied(4, 0, None), 0),
    (Copied(1, 3, None), 0),
    (Copied(1, usize::MAX, None), 0),
    (Copied(usize::MAX, 1, None), 0),
    (Skip(2, Answer::Taken), 2),
    (Copied(0, 1, Some(b"\xbe")), 2),
    (Copied(1, 1, None), 2),
];

/// A skip passes over all bytes or is refused.
const SKIPS: &[(Call, usize)] = &[
    (Skip(0, Answer::Taken), 0),
    (Skip(4, UNEXPECTED_EOF), 0),
    (Skip(usize::MAX, UNEXPECTED_EOF), 0),
    (Skip(2, Answer::Taken), 2),
    (Skip(2, UNEXPECTED_EOF), 2),
    (At(0, Some(0xbe)), 2),
    (Skip(1, Answer::Taken), 3),
    (At(0, None), 3),
    (Copied(0, 0, Some(b"")), 3),
    (Skip(0, Answer::Taken), 3),
    (Skip(1, UNEXPECTED_EOF), 3),
];

/// All bytes to come are at hand, and are passed where so many are there.
const AT_HAND: &[(Call, usize)] = &[
    (AtHand(BYTES), 0),
    (PassAtHand(4, false), 0),
    (PassAtHand(0, true), 0),
    (AtHand(BYTES), 0),
    (PassAtHand(2, true), 2),
    (AtHand(b"\xbe"), 2),
    (PassAtHand(usize::MAX, false), 2),
    (PassAtHand(1, true), 3),
    (AtHand(b""), 3),
    (PassAtHand(1, false), 3),
];

/// No bytes are to come.
const NONE_TO_COME: &[(Call, usize)] = &[
    (Peek(None), 0),
    (Next(None), 0),
    (PeekBytes(0, Some(b"")), 0),
    (PeekBytes(1, None), 0),
    (GetByteSlice(1, None), 0),
];

#[test]
fn a_call_takes_all_that_it_asks_for_or_nothing(rt: HostRuntime) {
    let alloc = rt.alloc();
    assert!(rt; goes(alloc, BYTES, ONE_BY_ONE));
    assert!(rt; goes(alloc, BYTES, INTO_A_BUFFER));
    assert!(rt; goes(alloc, BYTES, MANY_PEEKED));
    assert!(rt; goes(alloc, BYTES, INTO_A_VECTOR));
    assert!(rt; goes(alloc, BYTES, AHEAD));
    assert!(rt; goes(alloc, BYTES, COPIES));
    assert!(rt; goes(alloc, BYTES, SKIPS));
    assert!(rt; goes(alloc, BYTES, AT_HAND));
    assert!(rt; goes(alloc, b"", NONE_TO_COME));
}

/// No byte is lent.
const NONE_LENT: &[(Call, usize)] = &[(GetByteSlice(0, Some(b"")), 0)];

/// Behind two bytes that were lent.
const LENT: &[(Call, usize)] = &[
    (Peek(Some(0xbe)), 2),
    (GetByteSlice(2, None), 2),
    (Peek(Some(0xbe)), 2),
    (GetByteSlice(usize::MAX, None), 2),
    (Peek(Some(0xbe)), 2),
    (GetByteSlice(1, Some(b"\xbe")), 3),
    (GetByteSlice(0, Some(b"")), 3),
    (GetByteSlice(1, None), 3),
];

/// The first two of three bytes are lent, and still there when the reader has gone on.
fn lends_two(alloc: Global, bytes: &[u8], two: &[u8]) -> bool {
    let mut reader = SliceReader::new(bytes);
    let is_first = goes_on(&mut reader, alloc, 3, NONE_LENT);
    let front = reader.get_byte_slice(2).ok();
    let is_so = goes_on(&mut reader, alloc, 3, LENT);
    is_first && is_so && front == Some(two)
}

#[test]
fn a_lent_slice_lives_as_long_as_the_bytes(rt: HostRuntime) {
    assert!(rt; lends_two(rt.alloc(), BYTES, b"\xde\xad"));
}

/// A text of `n` bytes is lent, or refused, and the reader is at the position behind it.
fn lends_text(bytes: &[u8], n: usize, want: Result<&str, Answer>, position: usize) -> bool {
    let mut reader = SliceReader::new(bytes);
    is(reader.get_text_slice(n), want) && reader.bytes_consumed() == position
}

#[test]
fn a_lent_text_is_utf8_or_stays(rt: HostRuntime) {
    assert!(rt; lends_text(b"\xc3\xa9a", 2, Ok("é"), 2));
    assert!(rt; lends_text(b"\xc3\xa9a", 0, Ok(""), 0));
    assert!(rt; lends_text(b"\xc3\xa9a", 1, Err(Answer::InvalidUtf8Encoding), 0));
    assert!(rt; lends_text(b"\xc3\xa9a", 4, Err(UNEXPECTED_EOF), 0));
}

const TWENTY_ONE: &[u8] =
    b"\x00\x01\x02\x03\x04\x05\x06\x07\x08\x09\x0a\x0b\x0c\x0d\x0e\x0f\x10\x11\x12\x13\x14";

/// An array is filled so, or refused, and so many bytes are consumed.
fn fills<R: Read, const N: usize>(
    reader: &mut R,
    want: Result<[u8; N], Answer>,
    position: usize,
) -> bool {
    is(read_const_bytes::<R, N>(reader), want) && reader.bytes_consumed() == position
}

/// Two arrays of ten bytes are filled, and one of none.
fn fills_arrays<R: Read>(reader: &mut R) -> bool {
    let first = fills(reader, Ok([0, 1, 2, 3, 4, 5, 6, 7, 8, 9]), 10);
    let second = fills(reader, Ok([10, 11, 12, 13, 14, 15, 16, 17, 18, 19]), 20);
    let nothing = fills::<R, 0>(reader, Ok([]), 20);
    first && second && nothing
}

/// An array of ten is refused where one byte is to come.
fn refuses_ten<R: Read>(reader: &mut R) -> bool {
    fills::<R, 10>(reader, Err(UNEXPECTED_EOF), 20)
}

/// An array of one is refused where none is.
fn refuses_one<R: Read>(reader: &mut R) -> bool {
    fills::<R, 1>(reader, Err(UNEXPECTED_EOF), 0)
}

/// Twice two of the bytes are shown.
const SHOWN: &[(Call, usize)] = &[
    (PeekBytes(2, Some(b"\x00\x01")), 0),
    (PeekBytes(2, Some(b"\x00\x01")), 0),
];

/// The last byte is to come.
const LAST: &[(Call, usize)] = &[(Peek(Some(0x14)), 20)];

/// Arrays are filled from twenty-one bytes, of which one is left.
fn reads_arrays(alloc: Global, bytes: &[u8]) -> bool {
    let mut reader = SliceReader::new(bytes);
    let is_shown = goes_on(&mut reader, alloc, 21, SHOWN);
    let are_filled = fills_arrays(&mut reader);
    let is_refused = refuses_ten(&mut reader);
    let is_left = goes_on(&mut reader, alloc, 21, LAST);
    is_shown && are_filled && is_refused && is_left
}

/// No array is filled where no byte is to come.
fn reads_no_array() -> bool {
    let mut reader = SliceReader::new(&[]);
    refuses_one(&mut reader)
}

#[test]
fn an_array_is_filled_whole_or_refused(rt: HostRuntime) {
    assert!(rt; reads_arrays(rt.alloc(), TWENTY_ONE));
    assert!(rt; reads_no_array());
}
