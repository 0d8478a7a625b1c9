//! The reader over a source that gives its bytes piece by piece.

use super::answer::{Answer, UNEXPECTED_EOF, gave_bytes, is, name_of, told};
use amqp_base::{Counted, Error};
use amqp_read::{IoReader, Read, SliceReader, read_const_bytes};
use std::alloc::Global;
use std::io;
use std::io::ErrorKind;

/// Gives so many bytes a read at most, and fails at one read.
#[derive(Drop)]
struct Pieces {
    next: u8,
    end: u8,
    most: usize,
    reads: usize,
    fails_at: usize,
}

impl io::Read for Pieces {
    fn read(&mut self, buf: &mut [u8]) -> io::Result<usize> {
        self.reads = self.reads.saturating_add(1);
        if self.reads == self.fails_at {
            return Err(io::Error::from(ErrorKind::Interrupted));
        }
        let n = buf
            .len()
            .min(self.most)
            .min(self.end.saturating_sub(self.next) as usize);
        for i in 0..n {
            buf[i] = self.next;
            self.next = self.next.wrapping_add(1);
        }
        Ok(n)
    }
}

fn over(alloc: Global, end: u8, most: usize, fails_at: usize) -> IoReader<Counted<Pieces>> {
    IoReader::new(
        alloc,
        Counted::new(Pieces {
            next: 0,
            end,
            most,
            reads: 0,
            fails_at,
        }),
    )
}

/// The next ten bytes are these, or missing.
fn is_ten<R: Read>(reader: &mut R, want: Result<[u8; 10], Answer>) -> bool {
    is(read_const_bytes::<R, 10>(reader), want)
}

/// Twenty-one bytes: a look, and two blocks of ten.
fn are_twenty_one<R: Read>(reader: &mut R) -> bool {
    let is_shown = is(reader.peek_at(1), Ok(Some(1)));
    let is_first = is_ten(reader, Ok([0, 1, 2, 3, 4, 5, 6, 7, 8, 9]));
    let is_second = is_ten(reader, Ok([10, 11, 12, 13, 14, 15, 16, 17, 18, 19]));
    let is_short = is_ten(reader, Err(UNEXPECTED_EOF));
    let is_there = reader.bytes_consumed() == 20 && is(reader.peek(), Ok(Some(20)));
    is_shown && is_first && is_second && is_short && is_there
}

/// The bytes from 0 to 11 are read into a block.
fn is_filled<R: Read>(reader: &mut R) -> bool {
    let mut block = [9u8; 12];
    let is_answered = told(reader.read_exact(&mut block)) == Answer::Taken;
    is_answered && block == [0, 1, 2, 3, 4, 5, 6, 7, 8, 9, 10, 11]
}

/// A read of twelve bytes is refused and loses nothing: so many are at hand.
fn is_refused<R: Read>(reader: &mut R, at_hand: usize) -> bool {
    let mut block = [9u8; 12];
    let answer = told(reader.read_exact(&mut block));
    let is_kept = reader.bytes_consumed() == 0 && reader.at_hand() == at_hand;
    answer == Answer::Io(ErrorKind::Interrupted) && block == [9u8; 12] && is_kept
}

/// Behind it five bytes are passed over, and the others are still to come.
fn goes_on<R: Read>(reader: &mut R, alloc: Global) -> bool {
    let passed = reader.skip(5).is_ok();
    let next = is(reader.next(), Ok(Some(17)));
    let text = gave_bytes(
        reader.forward_read_bytes_with_hint(alloc, 3),
        Some(&[18, 19, 20]),
    );
    let behind = is(reader.peek_at(2), Ok(Some(23)));
    passed && next && text && behind
}

/// A read whose `k`th request fails is refused and loses nothing; then it succeeds.
fn fails_at(alloc: Global, k: usize) -> bool {
    let mut reader = over(alloc, 40, 1, k);
    let is_so = is_refused(&mut reader, k.saturating_sub(1));
    let is_read = is_filled(&mut reader);
    goes_on(&mut reader, alloc) && is_so && is_read
}

/// Three bytes, one a read: looks, a byte of the buffer, and the end.
fn are_three(alloc: Global) -> bool {
    let mut reader = over(alloc, 3, 1, 0);
    let mut is_so = matches!(reader.peek(), Ok(Some(0)));
    is_so = matches!(reader.peek_bytes(2), Ok(Some([0, 1]))) && is_so;
    is_so = reader.bytes_consumed() == 0 && is_so;
    is_so = reader.pop_first() == Some(0) && is_so;
    is_so = reader.bytes_consumed() == 1 && is_so;
    is_so = matches!(
        reader.fill_buffer(3),
        Err(Error::Io(ErrorKind::UnexpectedEof))
    ) && is_so;
    is_so = matches!(reader.peek_bytes(3), Ok(None)) && is_so;
    is_so = matches!(reader.next(), Ok(Some(1))) && is_so;
    is_so = matches!(reader.next(), Ok(Some(2))) && is_so;
    is_so = matches!(reader.next(), Ok(None)) && is_so;
    is_so = reader.bytes_consumed() == 3 && is_so;
    reader.pop_first().is_none() && is_so
}

/// So many bytes are passed or not, and these are at hand then.
fn passes<R: Read>(reader: &mut R, n: usize, is_passed: bool, at_hand: &[u8]) -> bool {
    let is_so = reader.pass_at_hand(n) == is_passed;
    reader.bytes_at_hand() == at_hand && is_so
}

/// Of three bytes, one a read, those that were received are at hand, and no other is passed.
fn are_at_hand(alloc: Global) -> bool {
    let mut reader = over(alloc, 3, 1, 0);
    let mut is_so = passes(&mut reader, 1, false, b"");
    is_so = is(reader.peek_at(1), Ok(Some(1))) && is_so;
    is_so = passes(&mut reader, 3, false, b"\x00\x01") && is_so;
    is_so = passes(&mut reader, 1, true, b"\x01") && is_so;
    is_so = passes(&mut reader, 1, true, b"") && is_so;
    reader.bytes_consumed() == 2 && is_so
}

/// The twenty-one bytes are the same over a slice and over sources that give 1, 2, 7 or all of them
/// a read.
fn are_same(alloc: Global) -> bool {
    let bytes: [u8; 21] = [
        0, 1, 2, 3, 4, 5, 6, 7, 8, 9, 10, 11, 12, 13, 14, 15, 16, 17, 18, 19, 20,
    ];
    let mut are_so = are_twenty_one(&mut SliceReader::new(&bytes));
    for most in [1, 2, 7, 1000] {
        are_so = are_twenty_one(&mut over(alloc, 21, most, 0)) && are_so;
    }
    are_so
}

/// Of a hundred bytes ever more are looked at while some are consumed.
fn are_a_hundred<R: Read>(reader: &mut R) -> bool {
    let mut is_so = is(reader.peek_at(29), Ok(Some(29)));
    is_so = reader.skip(10).is_ok() && is_so;
    is_so = is(reader.peek_at(21), Ok(Some(31))) && is_so;
    is_so = is(reader.peek_at(22), Ok(Some(32))) && is_so;
    is_so = is_bytes(reader, [10, 11, 12, 13, 14, 15, 16, 17, 18, 19, 20, 21, 22]) && is_so;
    is_so = is(reader.peek_at(40), Ok(Some(63))) && is_so;
    is_so = is_bytes(reader, [23, 24, 25, 26, 27, 28, 29, 30, 31, 32, 33, 34, 35]) && is_so;
    is_so = reader.skip(60).is_ok() && is_so;
    is_so = is(reader.peek_at(3), Ok(Some(99))) && is_so;
    is_so = is(reader.peek_at(4), Ok(None)) && is_so;
    is_so = is(reader.next(), Ok(Some(96))) && is_so;
    reader.bytes_consumed() == 97 && is_so
}

/// Of two hundred bytes more are looked at than stand in place, while some are consumed.
fn are_two_hundred<R: Read>(reader: &mut R) -> bool {
    let mut is_so = is(reader.peek_at(59), Ok(Some(59)));
    is_so = reader.skip(10).is_ok() && is_so;
    is_so = is(reader.peek_at(59), Ok(Some(69))) && is_so;
    is_so = is_bytes(reader, [10, 11, 12, 13, 14, 15, 16, 17, 18, 19, 20, 21, 22]) && is_so;
    is_so = is(reader.peek_at(79), Ok(Some(102))) && is_so;
    is_so = is_bytes(reader, [23, 24, 25, 26, 27, 28, 29, 30, 31, 32, 33, 34, 35]) && is_so;
    is_so = reader.skip(60).is_ok() && is_so;
    is_so = is(reader.peek_at(79), Ok(Some(175))) && is_so;
    is_so = is_bytes(
        reader,
        [96, 97, 98, 99, 100, 101, 102, 103, 104, 105, 106, 107, 108],
    ) && is_so;
    is_so = reader.skip(67).is_ok() && is_so;
    is_so = is(reader.peek_at(3), Ok(Some(179))) && is_so;
    is_so = is(reader.next(), Ok(Some(176))) && is_so;
    reader.bytes_consumed() == 177 && is_so
}

/// The next thirteen bytes are these.
fn is_bytes<R: Read>(reader: &mut R, want: [u8; 13]) -> bool {
    is(read_const_bytes::<R, 13>(reader), Ok(want))
}

/// They are the same over a slice and over sources that give 1, 7, 32 or all of them a read.
fn are_same_hundred(alloc: Global) -> bool {
    let bytes: [u8; 100] = counted_bytes();
    let mut are_so = are_a_hundred(&mut SliceReader::new(&bytes));
    for most in [1, 7, 32, 1000] {
        are_so = are_a_hundred(&mut over(alloc, 100, most, 0)) && are_so;
    }
    are_so
}

/// The bytes from 0 on.
fn counted_bytes<const N: usize>() -> [u8; N] {
    let mut bytes = [0u8; N];
    for i in 0..bytes.len() {
        bytes[i] = (i % 256) as u8;
    }
    bytes
}

/// They are the same over a slice and over sources that give 1, 7, 64 or all of them a read.
fn are_same_two_hundred(alloc: Global) -> bool {
    let bytes: [u8; 200] = counted_bytes();
    let mut are_so = are_two_hundred(&mut SliceReader::new(&bytes));
    for most in [1, 7, 64, 1000] {
        are_so = are_two_hundred(&mut over(alloc, 200, most, 0)) && are_so;
    }
    are_so
}

#[test]
fn a_source_is_read_however_it_cuts_its_bytes(rt: HostRuntime) {
    assert!(rt; are_three(rt.alloc()));
    assert!(rt; are_at_hand(rt.alloc()));
    assert!(rt; are_same(rt.alloc()));
    assert!(rt; are_same_hundred(rt.alloc()));
    assert!(rt; are_same_two_hundred(rt.alloc()));
    assert!(rt; fails_at(rt.alloc(), 1));
    assert!(rt; fails_at(rt.alloc(), 2));
    assert!(rt; fails_at(rt.alloc(), 12));
}

/// The bytes are handed on as a text, or refused so, and so many are consumed.
fn is_text(alloc: Global, bytes: &[u8], want: Answer, consumed: usize) -> bool {
    let mut reader = SliceReader::new(bytes);
    let answer = told(reader.forward_read_str(alloc, bytes.len()));
    answer == want && reader.bytes_consumed() == consumed
}

#[test]
fn a_text_is_handed_on_where_it_is_one(rt: HostRuntime) {
    let alloc = rt.alloc();
    assert!(rt; is_text(alloc, b"\xc3\xa9", Answer::Taken, 2));
    assert!(rt; is_text(alloc, b"\xff", Answer::InvalidUtf8Encoding, 0));
}

/// Two hundred times `a`, with these bytes from an index on.
fn with(piece: &[u8], at: usize) -> [u8; 200] {
    let mut bytes = [b'a'; 200];
    for (to, from) in bytes.iter_mut().skip(at).zip(piece.iter()) {
        *to = *from;
    }
    bytes
}

/// The first `n` bytes are a text, or none.
fn is_front_text(alloc: Global, bytes: &[u8], n: usize, want: Answer) -> bool {
    let consumed = if want == Answer::Taken { n } else { 0 };
    match bytes.get(..n) {
        Some(front) => is_text(alloc, front, want, consumed),
        None => false,
    }
}

/// `n` bytes are a text with a character of two bytes at an index, where both find room, and none
/// with a byte there that stands in no text.
fn are_texts(alloc: Global, n: usize, at: usize) -> bool {
    let cut = at.saturating_add(1) == n;
    let two = if cut {
        Answer::InvalidUtf8Encoding
    } else {
        Answer::Taken
    };
    let are_two = is_front_text(alloc, &with(b"\xc3\xa9", at), n, two);
    let no_text = is_front_text(alloc, &with(b"\xff", at), n, Answer::InvalidUtf8Encoding);
    are_two && no_text && is_front_text(alloc, &with(b"b", at), n, Answer::Taken)
}

#[test]
fn each_byte_of_a_text_counts(rt: HostRuntime) {
    let alloc = rt.alloc();
    for n in [
        1, 3, 4, 7, 8, 9, 15, 16, 17, 31, 32, 33, 63, 64, 65, 127, 128, 129, 200,
    ] {
        for at in [
            0usize, 1, 5, 8, 15, 16, 30, 31, 32, 62, 63, 64, 65, 126, 127, 128, 199,
        ] {
            if at < n {
                assert!(rt; are_texts(alloc, n, at), "{n} {at}");
            }
        }
    }
}

/// Gives the bytes of a slice, so many a read at most.
#[derive(Drop)]
struct Cut<'a> {
    rest: &'a [u8],
    most: usize,
}

impl io::Read for Cut<'_> {
    fn read(&mut self, buf: &mut [u8]) -> io::Result<usize> {
        let n = buf.len().min(self.most).min(self.rest.len());
        let (given, rest) = self.rest.split_at(n);
        buf[..n].copy_from_slice(given);
        self.rest = rest;
        Ok(n)
    }
}

/// The next `n` bytes are these, in a vector that has room for no more.
fn is_payload<R: Read>(reader: &mut R, alloc: Global, n: usize, want: Option<&[u8]>) -> bool {
    match reader.read_bytes(alloc, n) {
        Ok(bytes) => want == Some(bytes.as_slice()) && bytes.capacity() == n,
        Err(e) => want.is_none() && name_of(&e) == UNEXPECTED_EOF,
    }
}

/// A payload of so many bytes behind one byte, looked at before or not, with a short one behind it,
/// and then one that is cut off, of which no byte is lost.
fn are_payloads(alloc: Global, bytes: &[u8], n: usize, most: usize, looks: bool) -> bool {
    let source = Cut { rest: bytes, most };
    let mut reader = IoReader::new(alloc, Counted::new(source));
    let behind = n.saturating_add(1);
    let end = behind.saturating_add(3);
    let mut is_so = is(reader.next(), Ok(bytes.first().copied()));
    if looks {
        is_so = is(reader.peek_at(n), Ok(bytes.get(behind).copied())) && is_so;
    }
    is_so = is_payload(&mut reader, alloc, n, bytes.get(1..behind)) && is_so;
    is_so = is_payload(&mut reader, alloc, 3, bytes.get(behind..end)) && is_so;
    is_so = is_payload(&mut reader, alloc, bytes.len(), None) && is_so;
    is_so = bytes.len().checked_sub(end) == Some(reader.at_hand()) && is_so;
    reader.bytes_consumed() == end && is_so
}

#[test]
fn a_long_payload_is_one_vector_however_it_is_cut(rt: HostRuntime) {
    let alloc = rt.alloc();
    let mut bytes = [0u8; 12_000];
    for i in 0..bytes.len() {
        bytes[i] = (i % 251) as u8;
    }
    for n in [300, 4096, 5000, 9000] {
        for most in [1000, 4096, 20_000] {
            assert!(rt; are_payloads(alloc, &bytes, n, most, false));
            assert!(rt; are_payloads(alloc, &bytes, n, most, true));
        }
    }
}

/// A text comes from a source in such pieces, and is handed on; or it is refused, and still there.
fn is_text_in_pieces(alloc: Global, bytes: &[u8], most: usize, want: Answer) -> bool {
    let n = bytes.len();
    let mut reader = IoReader::new(alloc, Counted::new(Cut { rest: bytes, most }));
    match reader.forward_read_str(alloc, n) {
        Ok(text) => {
            let is_handed_on = text.as_bytes() == bytes && reader.bytes_consumed() == n;
            want == Answer::Taken && is_handed_on
        }
        Err(e) => {
            let is_so = name_of(&e) == want && reader.bytes_consumed() == 0;
            is_payload(&mut reader, alloc, n, Some(bytes)) && is_so
        }
    }
}

#[test]
fn a_text_of_a_source_is_handed_on_however_it_is_cut(rt: HostRuntime) {
    let alloc = rt.alloc();
    let text = [b'a'; 9000];
    let mut refused = [b'a'; 9000];
    refused[299] = 0xff;
    for n in [0, 1, 300, 4096, 5000, 9000] {
        for most in [100, 1000, 4096, 20_000] {
            let no_text = match n {
                0 | 1 => Answer::Taken,
                _ => Answer::InvalidUtf8Encoding,
            };
            assert!(rt; is_text_in_pieces(alloc, &text[..n], most, Answer::Taken));
            assert!(rt; is_text_in_pieces(alloc, &refused[..n], most, no_text));
        }
    }
}
