//! Sinks: over memory, and over a writer that fails once.

use amqp_base::{Counted, Sink};
use std::alloc::Global;
use std::io;
use std::io::{ErrorKind, Write};

/// Takes one byte a write, counts its writes, and fails at one of them: by taking none where the
/// kind is `WriteZero`.
#[derive(Drop)]
struct FailsOnce {
    writes: u8,
    fails_at: u8,
    kind: ErrorKind,
    last: u8,
}

impl Write for FailsOnce {
    fn write(&mut self, bytes: &[u8]) -> io::Result<usize> {
        self.writes = self.writes.saturating_add(1);
        if self.writes == self.fails_at {
            return match self.kind {
                ErrorKind::WriteZero => Ok(0),
                kind => Err(io::Error::from(kind)),
            };
        }
        match bytes.first() {
            None => Ok(0),
            Some(byte) => {
                self.last = *byte;
                Ok(1)
            }
        }
    }

    fn flush(&mut self) -> io::Result<()> {
        Ok(())
    }
}

/// What a write answers.
fn put<S: Sink>(sink: &mut S, bytes: &[u8]) -> Result<usize, ErrorKind> {
    sink.write_some(bytes)
}

/// A vector takes all bytes behind its first.
fn vector_takes_all(bytes: Vec<u8>) -> bool {
    let mut bytes = bytes;
    let is_put = put(&mut bytes, b"mqp") == Ok(3);
    let is_nothing = put(&mut bytes, b"") == Ok(0);
    is_put && is_nothing && bytes.as_slice() == b"amqp".as_slice()
}

/// So does one that is lent.
fn lent_takes_all(bytes: Vec<u8>) -> bool {
    let mut bytes = bytes;
    let mut lent = &mut bytes;
    let is_put = put::<&mut Vec<u8>>(&mut lent, b"mqp") == Ok(3);
    is_put && bytes.as_slice() == b"amqp".as_slice()
}

/// Vectors of one byte take all bytes, themselves and lent.
fn vectors_take_all(alloc: Global) -> bool {
    let own = match b"a".to_vec(alloc) {
        Ok(own) => vector_takes_all(own),
        Err(_) => false,
    };
    let lent = match b"a".to_vec(alloc) {
        Ok(lent) => lent_takes_all(lent),
        Err(_) => false,
    };
    own && lent
}

/// A writer takes all of `q`, one byte of `p`, and the end.
fn writes_two<W: Write>(writer: &mut W) -> bool {
    let is_first = writer.write_all(b"q").is_ok();
    let is_second = matches!(&writer.write(b"p"), Ok(1));
    writer.flush().is_ok() && is_first && is_second
}

/// A counted vector takes all bytes, also as a writer.
fn counted_takes_all(alloc: Global) -> bool {
    let mut sink = Counted::new(Vec::new(alloc));
    let is_put = put(&mut sink, b"am") == Ok(2);
    let is_written = writes_two(&mut sink);
    is_put && is_written && sink.into_inner().as_slice() == b"amqp".as_slice()
}

/// Of three writes, one of which fails, each takes its first byte or answers the fault; a fourth
/// one, of no byte, takes none.
fn answers_writes<S: Sink>(sink: &mut S, kind: ErrorKind, fails_at: u8) -> bool {
    let mut is_so = true;
    for turn in 1..4u8 {
        let want = if turn == fails_at { Err(kind) } else { Ok(1) };
        is_so = put(sink, &[turn, 9]) == want && is_so;
    }
    put(sink, b"") == Ok(0) && is_so
}

/// A writer that fails at one of them answers so, has counted four writes, and has this last byte.
fn writes_on(kind: ErrorKind, fails_at: u8, last: u8) -> bool {
    let mut sink = Counted::new(FailsOnce {
        writes: 0,
        fails_at,
        kind,
        last: 0,
    });
    let is_so = answers_writes(&mut sink, kind, fails_at);
    let writer = sink.into_inner();
    is_so && writer.writes == 4 && writer.last == last
}

/// At each of them.
fn writes_on_behind_each(kind: ErrorKind) -> bool {
    let first = writes_on(kind, 1, 3);
    let second = writes_on(kind, 2, 3);
    let third = writes_on(kind, 3, 2);
    first && second && third
}

#[test]
fn a_sink_takes_all_bytes_or_answers_a_fault_and_goes_on(rt: HostRuntime) {
    let alloc = rt.alloc();
    assert!(rt; vectors_take_all(alloc));
    assert!(rt; counted_takes_all(alloc));
    for kind in [
        ErrorKind::BrokenPipe,
        ErrorKind::Interrupted,
        ErrorKind::OutOfMemory,
        ErrorKind::WriteZero,
    ] {
        assert!(rt; writes_on_behind_each(kind), "{kind:?}");
    }
}
