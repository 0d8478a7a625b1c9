//! Values that may be missing: null, or the item of the value. What is read as one is a line of the
//! stored runs.

use super::answer::{Answer, UNEXPECTED_EOF, gave, told};
use super::asked::{Asked, taken};
use super::bytes::{are_written, is_made_as, is_written_as};
use super::made::list;
use amqp_de::{Deserialize, Deserializer};
use amqp_read::Read;
use std::alloc::Global;

const INTS: &[(Option<i32>, &[u8])] = &[(None, b"\x40"), (Some(1), b"\x54\x01")];

#[test]
fn an_option_is_null_or_the_value(rt: HostRuntime) {
    let alloc = rt.alloc();
    assert!(rt; are_written(alloc, INTS));
    assert!(rt; is_written_as(alloc, &Some(256u32), b"\x70\x00\x00\x01\x00"));
    assert!(rt; is_written_as(alloc, &None::<()>, b"\x40"));
    // as null, which is read as `None`
    assert!(rt; is_written_as(alloc, &Some(()), b"\x40"));
}

#[test]
fn parts_may_be_null(rt: HostRuntime) {
    let alloc = rt.alloc();
    assert!(rt;
        is_made_as(
            alloc,
            list(alloc, &[Some(1u32), None]),
            b"\xc0\x04\x02\x52\x01\x40"
        )
    );
    assert!(rt; is_written_as(alloc, &(None::<i32>, Some(true)), b"\xc0\x03\x02\x40\x41"));
}

/// The next option is this.
fn is_next<R: Read, T: Deserialize<R> + PartialEq>(
    de: &mut Deserializer<R>,
    alloc: Global,
    want: Option<T>,
) -> bool {
    gave(de.deserialize_option::<T>(alloc), &want)
}

/// Options one after the other: of values without parts, of a list and of a tuple.
struct Options;

impl Asked for Options {
    fn is_answered<R: Read>(&self, alloc: Global, de: &mut Deserializer<R>) -> bool {
        let first = is_next::<R, i32>(de, alloc, None);
        let second = is_next(de, alloc, Some(1i32));
        let third = is_next::<R, ()>(de, alloc, None);
        let fourth = is_next(de, alloc, Some(Vec::<u32>::new(alloc)));
        let fifth = is_next::<R, (u32, bool)>(de, alloc, None);
        first && second && third && fourth && fifth
    }
}

#[test]
fn null_comes_before_the_value(rt: HostRuntime) {
    let bytes = b"\x40\x54\x01\x40\x45\x40";
    assert!(rt; taken(rt.alloc(), bytes, &Options) == Some(6));
}

/// An option of an int is refused so, and what is asked for next because of that.
#[derive(Drop)]
struct Refused(Answer);

impl Asked for Refused {
    fn is_answered<R: Read>(&self, alloc: Global, de: &mut Deserializer<R>) -> bool {
        let first = told(de.deserialize_option::<i32>(alloc));
        let again = told(de.deserialize_option::<i32>(alloc));
        first == self.0 && again == Answer::InvalidValue
    }
}

const NO_OPTIONS: &[(&[u8], Answer)] = &[
    (b"", UNEXPECTED_EOF),
    (b"\x57", Answer::InvalidFormatCode),
    (b"\x52\x01", Answer::InvalidFormatCode),
    (b"\x54", UNEXPECTED_EOF),
];

#[test]
fn bytes_that_are_no_option(rt: HostRuntime) {
    for (bytes, name) in NO_OPTIONS {
        assert!(rt; taken(rt.alloc(), bytes, &Refused(*name)).is_some());
    }
}
