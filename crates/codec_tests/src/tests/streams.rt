//! Whole values from a source, into a sink, and of bytes with more behind them.

use super::answer::{Answer, UNEXPECTED_EOF, is, told};
use super::made::list;
use super::pieces::{OneByOne, Pieces, cut, failing};
use serde_amqp::{
    Array, Counted, Deserialize, Deserializer, Error, IoReader, Read, SliceReader, Source,
    from_reader, from_slice_with_rest, to_writer,
};
use std::alloc::Global;
use std::io::ErrorKind;

/// What a uint of the source answers.
fn uint<S: Source>(alloc: Global, source: &mut S, want: Result<u32, Answer>) -> bool {
    is(from_reader::<S, u32>(alloc, source), want)
}

/// Two uints stand behind one another, and then nothing.
fn are_two<S: Source>(alloc: Global, source: &mut S) -> bool {
    let is_first = uint(alloc, source, Ok(5));
    let is_second = uint(alloc, source, Ok(1));
    let is_end = uint(alloc, source, Err(UNEXPECTED_EOF));
    is_first && is_second && is_end
}

/// So it is of sources that give so many bytes a read, of one that is lent, and of a slice.
fn are_two_of_all(alloc: Global) -> bool {
    let bytes = b"\x70\x00\x00\x00\x05\x52\x01";
    let mut is_so = true;
    for most in [1, 2, 7] {
        is_so = are_two(alloc, &mut Counted::new(cut(bytes, most))) && is_so;
    }
    let mut source = Counted::new(cut(bytes, 1));
    let mut lent = &mut source;
    let is_lent = are_two(alloc, &mut lent);
    let mut slice = bytes.as_slice();
    let is_slice = are_two(alloc, &mut slice) && slice.is_empty();
    is_so && is_lent && is_slice
}

#[test]
fn values_are_read_one_after_the_other(rt: HostRuntime) {
    assert!(rt; are_two_of_all(rt.alloc()));
}

/// A pair of nine bytes whose `k`th read fails is refused by that fault, which isn't asked again.
fn fails_at(alloc: Global, k: usize, kind: ErrorKind, want: Answer) -> bool {
    let mut source = Counted::new(failing(b"\xc0\x07\x02\x70\x00\x00\x00\x05\x41", 1, k, kind));
    let answer = told(from_reader::<Counted<Pieces>, (u32, bool)>(alloc, &mut source));
    answer == want && source.into_inner().reads == k
}

/// At each of its nine reads.
fn fails_at_each(alloc: Global, kind: ErrorKind, want: Answer) -> bool {
    let mut is_so = true;
    for k in 1..10 {
        is_so = fails_at(alloc, k, kind, want) && is_so;
    }
    is_so
}

#[test]
fn a_fault_of_the_source_is_answered_by_its_kind(rt: HostRuntime) {
    let alloc = rt.alloc();
    for kind in [ErrorKind::ConnectionReset, ErrorKind::Interrupted] {
        assert!(rt; fails_at_each(alloc, kind, Answer::Io(kind)), "{kind:?}");
    }
    assert!(rt; fails_at_each(alloc, ErrorKind::OutOfMemory, Answer::OutOfMemory));
}

/// A uint that is cut short is refused. Its code was consumed; what was received behind it is still
/// to come, though the deserializer is ended.
fn is_still_there(alloc: Global) -> bool {
    let mut de = Deserializer::new(IoReader::new(alloc, Counted::new(cut(b"\x70\x00", 1))));
    let is_short = is(de.deserialize_u32(), Err(UNEXPECTED_EOF));
    let is_ended = is(de.deserialize_u32(), Err(Answer::InvalidValue));
    let mut reader = de.into_reader();
    let is_behind = is(reader.peek(), Ok(Some(0)));
    is_short && is_ended && is_behind && reader.bytes_consumed() == 1
}

#[test]
fn what_was_received_behind_a_refusal_is_still_there(rt: HostRuntime) {
    assert!(rt; is_still_there(rt.alloc()));
}

/// The list is appended to a byte, where no write fails; else what was there stays in front.
fn is_put(alloc: Global, value: &Vec<i32>, first: Vec<u8>, fails_at: usize, want: Answer) -> bool {
    let mut sink = Counted::new(OneByOne {
        bytes: first,
        writes: 0,
        fails_at,
    });
    let answer = told(to_writer(alloc, value, &mut sink));
    let writer = sink.into_inner();
    let text = b"\xaa\xc0\x05\x02\x54\x01\x54\x02".as_slice();
    let is_whole = fails_at != 0 || writer.bytes.as_slice() == text;
    answer == want && is_whole && writer.bytes.as_slice().starts_with(b"\xaa")
}

/// Through a sink that takes a byte a write, and fails at one of them.
fn is_appended(alloc: Global, fails_at: usize, want: Answer) -> bool {
    match list(alloc, &[1i32, 2]) {
        Some(value) => match b"\xaa".to_vec(alloc) {
            Ok(first) => is_put(alloc, &value, first, fails_at, want),
            Err(_) => false,
        },
        None => false,
    }
}

/// A value without a text is refused.
fn has_no_text(alloc: Global) -> bool {
    match list(alloc, &[()]) {
        Some(units) => {
            let mut sink = Vec::new(alloc);
            told(to_writer(alloc, &Array(units), &mut sink)) == Answer::InvalidValue
        }
        None => false,
    }
}

#[test]
fn a_value_is_appended_to_a_sink(rt: HostRuntime) {
    let alloc = rt.alloc();
    assert!(rt; is_appended(alloc, 0, Answer::Taken));
    for k in 1..8 {
        assert!(rt;
            is_appended(alloc, k, Answer::Io(ErrorKind::BrokenPipe)),
            "{k}"
        );
    }
    assert!(rt; has_no_text(alloc));
}

/// The value, and the bytes behind it.
fn is_split(outcome: Result<(u32, &[u8]), Error>, want: Result<(u32, &[u8]), Answer>) -> bool {
    is(outcome, want)
}

#[test]
fn a_value_is_read_with_the_bytes_behind_it(rt: HostRuntime) {
    let alloc = rt.alloc();
    let bytes = b"\x70\x00\x00\x00\x05\x52\x01".as_slice();
    assert!(rt; is_split(from_slice_with_rest(alloc, bytes), Ok((5, b"\x52\x01"))));
    assert!(rt; is_split(from_slice_with_rest(alloc, &bytes[5..]), Ok((1, b""))));
    assert!(rt;
        is_split(
            from_slice_with_rest(alloc, &bytes[7..]),
            Err(UNEXPECTED_EOF)
        )
    );
    assert!(rt;
        is_split(
            from_slice_with_rest(alloc, b"\x57"),
            Err(Answer::InvalidFormatCode)
        )
    );
}

/// Where a list of ints was refused: how many bytes were consumed before.
fn place(alloc: Global, bytes: &[u8], name: Answer) -> Option<usize> {
    let mut de = Deserializer::new(SliceReader::new(bytes));
    let answer = told(Vec::<i32>::deserialize(alloc, &mut de));
    let place = de.into_reader().bytes_consumed();
    if answer == name { Some(place) } else { None }
}

#[test]
fn a_deserializer_says_where_it_was_refused(rt: HostRuntime) {
    let alloc = rt.alloc();
    let third = place(
        alloc,
        b"\xc0\x07\x03\x54\x01\x54\x02\x41\x41",
        Answer::InvalidFormatCode,
    );
    assert!(rt; third == Some(8));
    let end = place(alloc, b"\xc0\x05\x02\x54\x01\x54", UNEXPECTED_EOF);
    assert!(rt; end == Some(6));
}
