//! A serializer's settings, and what follows where a compound is dropped or the writer breaks off.

use super::answer::{Answer, told};
use super::made::{list, string};
use super::puts::{Element, Put, goes, puts_value, writes};
use super::written::{By, Writes, writes_so};
use amqp_base::{Counted, Sink};
use amqp_ser::Serializer;
use std::alloc::Global;
use std::io;
use std::io::{ErrorKind, Write};

#[test]
fn values_are_written_one_after_the_other(rt: HostRuntime) {
    let items = [
        Put::Uint(1),
        Put::Int(-1),
        Put::SomeUint(2),
        Put::Newtype(-2),
    ];
    assert!(rt; writes(rt.alloc(), &items, b"\x52\x01\x54\xff\x52\x02\x54\xfe"));
}

/// Three strings are taken, by the call and by the type's own.
fn puts_strings<W: Sink>(ser: &mut Serializer<W>, alloc: Global, text: Option<String>) -> bool {
    match text {
        Some(text) => {
            let first = told(ser.serialize_str(alloc, "a"));
            let second = puts_value(ser, alloc, &text);
            let third = puts_value(ser, alloc, &text);
            [first, second, third] == [Answer::Taken; 3]
        }
        None => false,
    }
}

/// Three strings, each of them `a`.
struct Strings;

impl Writes for Strings {
    fn is_answered<W: Sink>(&self, alloc: Global, ser: &mut Serializer<W>) -> bool {
        puts_strings(ser, alloc, string(alloc, "a"))
    }
}

const SYMBOLS: &[u8] = b"\xa3\x01a\xa3\x01a\xa3\x01a";

const STRINGS: &[u8] = b"\xa1\x01a\xa1\x01a\xa1\x01a";

/// The symbol setting stays; strings stay strings under the settings of described values.
const BY_SETTING: &[(By, &[u8])] = &[
    (By::Symbol, SYMBOLS),
    (By::DescribedList, STRINGS),
    (By::DescribedMap, STRINGS),
    (By::DescribedBasic, STRINGS),
];

#[test]
fn strings_are_written_by_the_setting(rt: HostRuntime) {
    for (by, bytes) in BY_SETTING {
        assert!(rt; writes_so(rt.alloc(), *by, &Strings, bytes));
    }
}

const REFUSED: Answer = Answer::InvalidValue;

/// A list is opened behind a number, gets an element, and is dropped: all that follows is refused.
const BEHIND_A_DROPPED_LIST: &[(Put<'static>, Answer)] = &[
    (Put::Uint(7), Answer::Taken),
    (
        Put::List(Some(1), &[(Element::Uint(1), Answer::Taken)], None),
        Answer::Taken,
    ),
    (Put::Uint(1), REFUSED),
    (Put::Int(1), REFUSED),
    (Put::Str("a"), REFUSED),
    (Put::SomeUint(1), REFUSED),
    (Put::Newtype(1), REFUSED),
    (Put::List(None, &[], None), REFUSED),
    (Put::Array(None, &[], None), REFUSED),
    (Put::Ints(&[0]), REFUSED),
];

#[test]
fn nothing_is_written_behind_a_compound_that_was_dropped(rt: HostRuntime) {
    assert!(rt; goes(rt.alloc(), BEHIND_A_DROPPED_LIST, b"\x52\x07"));
}

/// Takes so many bytes, one a call, then is broken off.
#[derive(Drop)]
struct Narrow {
    bytes: Vec<u8>,
    left: usize,
}

impl Write for Narrow {
    fn write(&mut self, buf: &[u8]) -> io::Result<usize> {
        if self.left == 0 {
            return Err(io::Error::from(ErrorKind::ConnectionReset));
        }
        self.left -= 1;
        let count = buf.len().min(1);
        match self.bytes.extend_from_slice(&buf[..count]) {
            Ok(()) => Ok(count),
            Err(_) => Err(io::Error::from(ErrorKind::OutOfMemory)),
        }
    }

    fn flush(&mut self) -> io::Result<()> {
        Ok(())
    }
}

/// The list is refused as the writer breaks off, and what follows as ended.
fn is_broken<W: Sink>(ser: &mut Serializer<W>, alloc: Global, value: Option<Vec<u32>>) -> bool {
    match value {
        Some(value) => {
            let first = puts_value(ser, alloc, &value);
            let second = told(ser.serialize_u32(alloc, 1));
            first == Answer::Io(ErrorKind::ConnectionReset) && second == Answer::InvalidValue
        }
        None => false,
    }
}

/// The writer breaks off behind these bytes of a list.
fn is_broken_behind(alloc: Global, bytes: &[u8]) -> bool {
    let writer = Narrow {
        bytes: Vec::new(alloc),
        left: bytes.len(),
    };
    let mut ser = Serializer::new(Counted::new(writer));
    is_broken(&mut ser, alloc, list(alloc, &[1u32, 256]))
        && ser.into_inner().into_inner().bytes.as_slice() == bytes
}

#[test]
fn a_writer_that_breaks_off_holds_the_front_of_the_bytes(rt: HostRuntime) {
    let alloc = rt.alloc();
    let front = b"\xc0\x08\x02\x52\x01\x70\x00";
    for n in 0..8usize {
        assert!(rt; is_broken_behind(alloc, &front[..n]));
    }
}
