//! Lines, and whole runs over inputs and outputs of each kind. What a good line of each type is
//! answered stands in the stored run.

use crate::answer::{LIMIT, answer, find, parse};
use crate::codec::{Outcome, decoded};
use crate::kind::{Kind, kind_named};
use crate::lines::Lines;
use crate::run::{run, transcribe};
use crate::why::{BadLine, Why, why_bad};
use amqp_base::{Counted, Error, Sink, Source};
use std::alloc::Global;
use std::io;
use std::io::{ErrorKind, Read, Write};

/// Gives at most `step` bytes a read, and answers `fault` once, in place of read number `at`.
#[derive(Drop)]
struct Device<'a> {
    bytes: &'a [u8],
    step: usize,
    at: usize,
    fault: ErrorKind,
}

impl Read for Device<'_> {
    fn read(&mut self, buf: &mut [u8]) -> io::Result<usize> {
        if self.at == 1 {
            self.at = 0;
            return Err(self.fault.into());
        }
        self.at = self.at.saturating_sub(1);
        let n = buf.len().min(self.step).min(self.bytes.len());
        buf[..n].copy_from_slice(&self.bytes[..n]);
        self.bytes = &self.bytes[n..];
        Ok(n)
    }
}

/// Takes at most `step` bytes a write, counts its writes, and answers `fault` in place of write
/// number `at`.
#[derive(Drop)]
struct Paper {
    bytes: Vec<u8>,
    step: usize,
    at: usize,
    fault: ErrorKind,
    writes: usize,
}

impl Write for Paper {
    fn write(&mut self, bytes: &[u8]) -> io::Result<usize> {
        self.writes = self.writes.saturating_add(1);
        if self.at == 1 {
            return Err(self.fault.into());
        }
        self.at = self.at.saturating_sub(1);
        let n = bytes.len().min(self.step);
        match self.bytes.extend_from_slice(&bytes[..n]) {
            Ok(()) => Ok(n),
            Err(_) => Err(ErrorKind::OutOfMemory.into()),
        }
    }

    fn flush(&mut self) -> io::Result<()> {
        Ok(())
    }
}

fn slow(bytes: &[u8], at: usize, fault: ErrorKind) -> Counted<Device<'_>> {
    Counted::new(Device {
        bytes,
        step: 1,
        at,
        fault,
    })
}

/// The run prints the text, and answers whether every line was good.
fn prints<S: Source>(alloc: Global, input: &mut S, text: &[u8], good: bool) -> bool {
    let mut output = Vec::new(alloc);
    match run(alloc, input, &mut output) {
        Ok(answer) => answer == good && output.as_slice() == text,
        Err(_) => false,
    }
}

/// Both where the input is there at once and where it comes one byte a read.
fn runs(alloc: Global, input: &[u8], text: &[u8], good: bool) -> bool {
    let mut whole = input;
    prints(alloc, &mut whole, text, good)
        && prints(alloc, &mut slow(input, 0, ErrorKind::Other), text, good)
}

#[test]
fn lines_and_their_answers(rt: HostRuntime) {
    let alloc = rt.alloc();
    assert!(rt; runs(alloc, b"", b"", true));
    assert!(rt; runs(alloc, b"u32 70000000ff", b"ok 52ff rest 0\n", true));
    assert!(rt; runs(alloc, b"u32 70000000fF0a\n", b"ok 52ff rest 1\n", true));
    assert!(rt;
        runs(
            alloc,
            b"u32 \nu32 43\n",
            b"refused Io\nok 43 rest 0\n",
            true
        )
    );
    assert!(rt; runs(alloc, b"u32 41", b"refused InvalidFormatCode\n", true));
    // nothing is answered behind a bad line
    let second = b"ok 43 rest 0\nbad line 2\n".as_slice();
    assert!(rt; runs(alloc, b"u32 43\n\nu32 43\n", second, false));
    assert!(rt; runs(alloc, b"u32 43\n\n", second, false));
    assert!(rt; runs(alloc, b"u32 43\nword 00\nu32 43\n", second, false));
    assert!(rt;
        runs(
            alloc,
            b"bool 5602\nbool 41\nu64 80000000000000002a\nsymbol a30161ff\nword 00",
            b"refused InvalidValue\nok 41 rest 0\nok 532a rest 0\nok a30161 rest 1\nbad line 5\n",
            false
        )
    );
}

/// Lines that are none, and why.
const BAD: [(&[u8], Why); 17] = [
    (b"\n", Why::NoSpace),
    (b"u32", Why::NoSpace),
    (b"u32\t43", Why::NoSpace),
    (b" ", Why::UnknownType),
    (b" u32 43", Why::UnknownType),
    (b"U32 43", Why::UnknownType),
    (b"u3 43", Why::UnknownType),
    (b"u322 43", Why::UnknownType),
    (b"word 00", Why::UnknownType),
    (b"\xc3\xa9u32 43", Why::UnknownType),
    (b"u32  43", Why::OddDigits),
    (b"u32 43 ", Why::OddDigits),
    (b"u32 43\r\n", Why::OddDigits),
    (b"u32 4\n3", Why::OddDigits),
    (b"u32 0x43", Why::NoDigit),
    (b"u32 4g", Why::NoDigit),
    (b"u32 43\xc3\xa9\xc3\xa9", Why::NoDigit),
];

/// The line of this number is bad, and for this reason.
fn is_bad(alloc: Global, input: &[u8], number: usize, why: Why) -> bool {
    let mut input = input;
    match transcribe(alloc, &mut input, &mut Vec::new(alloc)) {
        Ok(Some(bad)) => bad == BadLine { number, why },
        _ => false,
    }
}

#[test]
fn bad_lines_have_a_reason(rt: HostRuntime) {
    let alloc = rt.alloc();
    for (input, why) in BAD {
        assert!(rt; runs(alloc, input, b"bad line 1\n", false), "{input:?}");
        assert!(rt; is_bad(alloc, input, 1, why), "{input:?}");
    }
    assert!(rt; is_bad(alloc, b"u32 43\nu32", 2, Why::NoSpace));
    assert!(rt; is_bad(alloc, b"u32 4", 1, Why::OddDigits));
    assert!(rt; why_bad(b"u32 0x43") == Why::NoDigit);
    assert!(rt; Why::TooLong.text() == "longer than 65,536 bytes");
    assert!(rt; Why::UnknownType.text() == "unknown type");
}

/// A line of `length` bytes behind a short one: a type, its space, and digits of bytes 43; and the
/// end.
fn long(alloc: Global, kind: &[u8], length: usize, end: &[u8]) -> Option<Vec<u8>> {
    let mut line = Vec::new(alloc);
    if line.extend_from_slice(b"u32 43\n").is_err() || line.extend_from_slice(kind).is_err() {
        return None;
    }
    for i in kind.len()..length {
        let digit = if (i - kind.len()) % 2 == 0 {
            b'4'
        } else {
            b'3'
        };
        if line.push(digit).is_err() {
            return None;
        }
    }
    match line.extend_from_slice(end) {
        Ok(()) => Some(line),
        Err(_) => None,
    }
}

/// A long line, and the end, print the text behind the first answer.
fn long_prints(
    alloc: Global,
    kind: &[u8],
    length: usize,
    end: &[u8],
    text: &[u8],
    good: bool,
) -> bool {
    match long(alloc, kind, length, end) {
        Some(input) => prints(alloc, &mut input.as_slice(), text, good),
        None => false,
    }
}

const AT_LIMIT: &[u8] = b"ok 43 rest 0\nok 43 rest 32765\n";

const ABOVE_LIMIT: &[u8] = b"ok 43 rest 0\nbad line 2\n";

/// A line above the limit is bad, whatever stands behind it.
fn is_above(alloc: Global, kind: &[u8], length: usize) -> bool {
    long_prints(alloc, kind, length, b"", ABOVE_LIMIT, false)
        && long_prints(alloc, kind, length, b"\n", ABOVE_LIMIT, false)
        && long_prints(alloc, kind, length, b"\nu32 43", ABOVE_LIMIT, false)
}

/// A line above the limit is bad for its length.
fn is_too_long(alloc: Global) -> bool {
    match long(alloc, b"u32 ", LIMIT + 2, b"") {
        Some(input) => is_bad(alloc, input.as_slice(), 2, Why::TooLong),
        None => false,
    }
}

#[test]
fn a_line_has_at_most_65536_bytes(rt: HostRuntime) {
    let alloc = rt.alloc();
    assert!(rt; long_prints(alloc, b"u32 ", LIMIT, b"", AT_LIMIT, true));
    assert!(rt; long_prints(alloc, b"u32 ", LIMIT, b"\n", AT_LIMIT, true));
    let one_more = b"ok 43 rest 0\nok 43 rest 32765\nok 43 rest 0\n";
    assert!(rt; long_prints(alloc, b"u32 ", LIMIT, b"\nu32 43", one_more, true));
    assert!(rt; is_above(alloc, b"string ", LIMIT + 1));
    assert!(rt; is_above(alloc, b"u32 ", LIMIT + 2));
    assert!(rt; is_above(alloc, b"u32 ", LIMIT + 50_000));
    assert!(rt; is_too_long(alloc));
}

/// The error's kind, or that it is want of memory.
fn kind_of(e: &Error) -> Option<ErrorKind> {
    match e {
        Error::Io(kind) => Some(*kind),
        Error::OutOfMemory => Some(ErrorKind::OutOfMemory),
        _ => None,
    }
}

/// Where the read of this number fails, the run is refused so, and what was answered before is
/// written.
fn is_handed_on(alloc: Global, at: usize, kind: ErrorKind) -> bool {
    let input = b"u32 43\nu32 5207";
    let mut output = Vec::new(alloc);
    let wanted: &[u8] = if at > 7 { b"ok 43 rest 0\n" } else { b"" };
    match run(alloc, &mut slow(input, at, kind), &mut output) {
        Ok(_) => false,
        Err(e) => kind_of(&e) == Some(kind) && output.as_slice() == wanted,
    }
}

#[test]
fn hands_on_faults_of_the_input(rt: HostRuntime) {
    for at in 1..=16usize {
        assert!(rt;
            is_handed_on(rt.alloc(), at, ErrorKind::ConnectionReset),
            "read {at}"
        );
        assert!(rt;
            is_handed_on(rt.alloc(), at, ErrorKind::Interrupted),
            "read {at}"
        );
        assert!(rt;
            is_handed_on(rt.alloc(), at, ErrorKind::OutOfMemory),
            "read {at}"
        );
    }
}

/// An output that takes at most `step` bytes a write and fails at one.
fn narrow(alloc: Global, step: usize, at: usize, fault: ErrorKind) -> Counted<Paper> {
    Counted::new(Paper {
        bytes: Vec::new(alloc),
        step,
        at,
        fault,
        writes: 0,
    })
}

/// The run is refused so, and the output holds so many bytes of the text.
fn breaks(alloc: Global, output: Counted<Paper>, fault: ErrorKind, count: usize) -> bool {
    let mut output = output;
    let mut input: &[u8] = b"u32 43\nu32";
    let is_refused = match run(alloc, &mut input, &mut output) {
        Ok(_) => false,
        Err(e) => kind_of(&e) == Some(fault),
    };
    let Paper { bytes, .. } = output.into_inner();
    is_refused && b"ok 43 rest 0\nbad line 2\n".get(..count) == Some(bytes.as_slice())
}

#[test]
fn hands_on_faults_of_the_output(rt: HostRuntime) {
    let alloc = rt.alloc();
    let fault = ErrorKind::BrokenPipe;
    for at in 1..=24usize {
        assert!(rt;
            breaks(alloc, narrow(alloc, 1, at, fault), fault, at - 1),
            "write {at}"
        );
    }
    let fault = ErrorKind::WriteZero;
    assert!(rt; breaks(alloc, narrow(alloc, 0, 0, fault), fault, 0));
}

/// How many writes a run over this input makes.
fn writes_of<S: Source>(alloc: Global, input: &mut S) -> usize {
    let mut output = narrow(alloc, usize::MAX, 0, ErrorKind::Other);
    match run(alloc, input, &mut output) {
        Ok(_) => output.into_inner().writes,
        Err(_) => 0,
    }
}

#[test]
fn answers_are_written_in_blocks(rt: HostRuntime) {
    let alloc = rt.alloc();
    let bytes = b"u32 43\nu32 43\nu32 43\nu32 43\n".as_slice();
    let mut whole = bytes;
    assert!(rt; writes_of(alloc, &mut whole) == 1);
    // what was answered is written before more is read
    assert!(rt; writes_of(alloc, &mut slow(bytes, 0, ErrorKind::Other)) == 4);
}

/// The line is answered so.
fn is_answered(alloc: Global, line: &[u8], wanted: Option<&str>) -> bool {
    match answer(alloc, line) {
        Ok(Some(text)) => Some(text.as_str()) == wanted,
        Ok(None) => wanted.is_none(),
        Err(_) => false,
    }
}

/// The line names the type and spells the bytes.
fn is_parsed(alloc: Global, line: &[u8], kind: Kind, bytes: &[u8]) -> bool {
    match parse(alloc, line) {
        Ok(Some((found, spelt))) => found == kind && spelt.as_slice() == bytes,
        _ => false,
    }
}

/// The bytes are a value of the type that is encoded so, and so many stand behind it.
fn is_decoded(alloc: Global, kind: Kind, bytes: &[u8], text: &[u8], behind: usize) -> bool {
    match decoded(alloc, kind, bytes) {
        Ok(Outcome::Value { canonical, rest }) => canonical.as_slice() == text && rest == behind,
        _ => false,
    }
}

#[test]
fn answers_a_line(rt: HostRuntime) {
    let alloc = rt.alloc();
    assert!(rt; is_answered(alloc, b"u32 5207ff", Some("ok 5207 rest 1")));
    assert!(rt; is_answered(alloc, b"u32 5207f", None));
    assert!(rt; is_parsed(alloc, b"string B1", Kind::String, b"\xb1"));
    assert!(rt; kind_named(b"list-i32") == Some(Kind::ListI32));
    assert!(rt; kind_named(b"map-string-u32") == Some(Kind::MapStringU32));
    assert!(rt; kind_named(b"list") == None);
    assert!(rt; find(b' ', b"u32 43 ") == Some(3));
    assert!(rt;
        is_decoded(
            alloc,
            Kind::U32,
            b"\x70\x00\x00\x00\x01\x09\x09",
            b"\x52\x01",
            2
        )
    );
}

/// The next line is this.
fn gives(alloc: Global, lines: &mut Lines, input: &mut &[u8], line: Option<&[u8]>) -> bool {
    match lines.next_line(alloc, input) {
        Ok(Some(found)) => Some(found.as_slice()) == line,
        Ok(None) => line.is_none(),
        Err(_) => false,
    }
}

/// Two lines, the first of them empty; a line is seen where it is there with its line feed.
fn cuts_lines(alloc: Global) -> bool {
    let Ok(mut lines) = Lines::new(alloc) else {
        return false;
    };
    let mut input: &[u8] = b"\nb";
    let before = lines.has_line();
    let first = gives(alloc, &mut lines, &mut input, Some(b""));
    let behind = lines.has_line();
    let second = gives(alloc, &mut lines, &mut input, Some(b"b"));
    let end = gives(alloc, &mut lines, &mut input, None);
    let mut input: &[u8] = b"a\nb\n";
    let third = gives(alloc, &mut lines, &mut input, Some(b"a"));
    !before && first && !behind && second && end && third && lines.has_line()
}

#[test]
fn lines_are_cut_at_their_feeds(rt: HostRuntime) {
    assert!(rt; cuts_lines(rt.alloc()));
}
