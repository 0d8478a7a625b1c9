//! Sources: over memory, and over a reader that fails once.

use amqp_base::{Counted, Source};
use std::io;
use std::io::{ErrorKind, Read};

/// Gives one byte a read, counts its reads, and fails at one of them.
#[derive(Drop)]
struct FailsOnce {
    reads: u8,
    fails_at: u8,
    kind: ErrorKind,
}

impl Read for FailsOnce {
    fn read(&mut self, buf: &mut [u8]) -> io::Result<usize> {
        self.reads = self.reads.saturating_add(1);
        if self.reads == self.fails_at {
            return Err(io::Error::from(self.kind));
        }
        if buf.is_empty() {
            return Ok(0);
        }
        buf[0] = self.reads;
        Ok(1)
    }
}

/// What a read into a buffer of two bytes answers, and the buffer behind it.
fn read_some<S: Source>(source: &mut S) -> (Result<usize, ErrorKind>, [u8; 2]) {
    let mut buf = [0u8; 2];
    let count = source.read_some(&mut buf);
    (count, buf)
}

/// Of three reads, one of which fails, each answers its own byte or the fault.
fn answers_reads<S: Source>(source: &mut S, kind: ErrorKind, fails_at: u8) -> bool {
    let mut is_so = true;
    for turn in 1..4u8 {
        let want = if turn == fails_at {
            (Err(kind), [0, 0])
        } else {
            (Ok(1), [turn, 0])
        };
        is_so = read_some(source) == want && is_so;
    }
    is_so
}

/// A reader that fails at one of them answers so, and has counted three reads.
fn reads_on(kind: ErrorKind, fails_at: u8) -> bool {
    let mut source = Counted::new(FailsOnce {
        reads: 0,
        fails_at,
        kind,
    });
    let is_so = answers_reads(&mut source, kind, fails_at);
    source.into_inner().reads == 3 && is_so
}

/// At each of them.
fn reads_on_behind_each(kind: ErrorKind) -> bool {
    let first = reads_on(kind, 1);
    let second = reads_on(kind, 2);
    let third = reads_on(kind, 3);
    first && second && third
}

#[test]
fn a_counted_source_answers_a_fault_and_goes_on(rt: HostRuntime) {
    for kind in [
        ErrorKind::ConnectionReset,
        ErrorKind::Interrupted,
        ErrorKind::OutOfMemory,
    ] {
        assert!(rt; reads_on_behind_each(kind), "{kind:?}");
    }
}

/// A read answers so many bytes, and leaves the buffer so.
fn gives<S: Source>(source: &mut S, buf: &mut [u8], count: usize, behind: &[u8]) -> bool {
    source.read_some(buf) == Ok(count) && &*buf == behind
}

/// Of four bytes three are given, none where none is asked for, then the last one, and then none.
fn gives_four<S: Source>(source: &mut S) -> bool {
    let mut buf = [0u8; 3];
    let is_first = gives(source, &mut buf, 3, b"amq");
    let is_nothing = gives(source, &mut [], 0, b"");
    let is_second = gives(source, &mut buf, 1, b"pmq");
    let is_end = gives(source, &mut buf, 0, b"pmq");
    is_first && is_nothing && is_second && is_end
}

/// A slice gives its bytes, and has none behind them.
fn slice_gives_all(bytes: &[u8]) -> bool {
    let mut bytes = bytes;
    gives_four(&mut bytes) && bytes.is_empty()
}

/// Each byte is given alone, and then none.
fn gives_each<S: Source>(source: &mut S) -> bool {
    let mut one = [0u8; 1];
    let is_first = gives(source, &mut one, 1, b"a");
    let is_second = gives(source, &mut one, 1, b"m");
    gives(source, &mut one, 0, b"m") && is_first && is_second
}

/// A slice gives its bytes one by one, and has none behind them.
fn slice_gives_each(bytes: &[u8]) -> bool {
    let mut bytes = bytes;
    gives_each(&mut bytes) && bytes.is_empty()
}

/// Three are given, behind one that was given before.
fn gives_three<S: Source>(source: &mut S) -> bool {
    let mut buf = *b"pmq";
    gives(source, &mut buf, 3, b"amq")
}

/// The same of a slice that is lent, which has the last byte then.
fn lent_gives_three(bytes: &[u8]) -> bool {
    let mut bytes = bytes;
    let mut lent = &mut bytes;
    gives_three::<&mut &[u8]>(&mut lent) && bytes == b"p".as_slice()
}

#[test]
fn a_slice_gives_its_bytes(rt: HostRuntime) {
    assert!(rt; slice_gives_all(b"amqp"));
    assert!(rt; slice_gives_each(b"am"));
    assert!(rt; lent_gives_three(b"amqp"));
}

/// Two bytes are given, and then none.
fn gives_two<S: Source>(source: &mut S) -> bool {
    let mut buf = [0u8; 4];
    let is_first = gives(source, &mut buf, 2, b"ab\0\0");
    gives(source, &mut buf, 0, b"ab\0\0") && is_first
}

/// A counted slice gives its bytes.
fn counted_gives_two(bytes: &[u8]) -> bool {
    let mut source = Counted::new(bytes);
    gives_two(&mut source) && source.into_inner().is_empty()
}

/// A reader gives `ab`, and one byte more.
fn reads_three<R: Read>(reader: &mut R) -> bool {
    let mut buf = [0u8; 2];
    let is_filled = reader.read_exact(&mut buf).is_ok() && buf == *b"ab";
    matches!(&reader.read(&mut buf), Ok(1)) && is_filled
}

/// A counted slice gives its bytes as a reader.
fn counted_reads_three(bytes: &[u8]) -> bool {
    let mut source = Counted::new(bytes);
    reads_three(&mut source) && source.into_inner().len() == 0
}

#[test]
fn a_counted_slice_gives_its_bytes(rt: HostRuntime) {
    assert!(rt; counted_gives_two(b"ab"));
    assert!(rt; counted_reads_three(b"abc"));
}
