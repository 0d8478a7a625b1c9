//! Arrays and lists of more numbers than are read or written at a time.

use super::answer::{Answer, UNEXPECTED_EOF, is, told};
use super::asked::{Asked, taken};
use super::bytes::{is_read_as, is_text, is_written_as};
use Answer::{InvalidFormatCode, InvalidValue, Taken};
use amqp_de::{Deserialize, Deserializer};
use amqp_read::{Read, SliceReader};
use amqp_ser::Serialize;
use amqp_types::Array;
use std::alloc::Global;

/// The front of an array of a hundred uints. Its size covers the count, the constructor and four
/// bytes an element.
const UINTS: &[u8] = b"\xf0\x00\x00\x01\x95\x00\x00\x00\x64\x70";

const INTS: &[u8] = b"\xf0\x00\x00\x01\x95\x00\x00\x00\x64\x71";

/// The same of ulongs, of eight bytes each.
const ULONGS: &[u8] = b"\xf0\x00\x00\x03\x25\x00\x00\x00\x64\x80";

/// The size of these covers sixty-six elements and two bytes.
const TOO_SHORT: &[u8] = b"\xf0\x00\x00\x01\x0f\x00\x00\x00\x64\x70";

/// Uints of one byte each.
const NARROW: &[u8] = b"\xe0\x66\x64\x52";

/// The front of a list of 0, and of ninety-nine uints of two bytes each.
const LIST: &[u8] = b"\xc0\xc8\x64\x43";

/// The front, and behind it the numbers from `first` up to 99, each behind `before`.
fn counted(alloc: Global, front: &[u8], first: u8, before: &[u8]) -> Option<Vec<u8>> {
    let mut bytes = Vec::new(alloc);
    let mut is_so = bytes.extend_from_slice(front).is_ok();
    for n in first..100 {
        is_so = bytes.extend_from_slice(before).is_ok() && is_so;
        is_so = bytes.push(n).is_ok() && is_so;
    }
    if is_so { Some(bytes) } else { None }
}

/// The numbers from 0 to 99.
fn hundred<T: From<u8> + Drop>(alloc: Global) -> Option<Vec<T>> {
    let mut numbers = Vec::new(alloc);
    let mut is_so = true;
    for n in 0..100u8 {
        is_so = numbers.push(T::from(n)).is_ok() && is_so;
    }
    if is_so { Some(numbers) } else { None }
}

/// The array of them is written as the bytes, which are read as the array.
fn is_array<'s, T>(alloc: Global, bytes: &'s [u8]) -> bool
where
    T: From<u8> + PartialEq + Serialize + Deserialize<SliceReader<'s>>,
{
    match hundred::<T>(alloc) {
        Some(numbers) => is_text(alloc, &Array(numbers), bytes),
        None => false,
    }
}

/// The bytes are read as the list of them, which is written as them or not.
fn is_list(alloc: Global, bytes: &[u8], is_written: bool) -> bool {
    match hundred::<u32>(alloc) {
        Some(numbers) => {
            let is_read = is_read_as(alloc, bytes, &numbers);
            is_written_as(alloc, &numbers, bytes) == is_written && is_read
        }
        None => false,
    }
}

/// What a vector of uints, or else of ints, answers.
fn told_by<R: Read>(de: &mut Deserializer<R>, alloc: Global, are_uints: bool) -> Answer {
    if are_uints {
        told(Vec::<u32>::deserialize(alloc, de))
    } else {
        told(Vec::<i32>::deserialize(alloc, de))
    }
}

/// A vector of uints, or else of ints, and what it answers.
#[derive(Drop)]
struct Numbers {
    are_uints: bool,
    answer: Answer,
}

impl Asked for Numbers {
    fn is_answered<R: Read>(&self, alloc: Global, de: &mut Deserializer<R>) -> bool {
        told_by(de, alloc, self.are_uints) == self.answer
    }
}

/// A vector of uints, or else of ints, answers so to the bytes, of which it takes so many.
fn stops(alloc: Global, bytes: &[u8], are_uints: bool, answer: Answer, count: usize) -> bool {
    let numbers = Numbers { are_uints, answer };
    taken(alloc, bytes, &numbers) == Some(count)
}

/// What holds of the bytes.
#[derive(Clone, Copy)]
enum Check {
    Uints,
    Ints,
    Ulongs,
    List,
    Vector,
    /// So many of them are read as a vector of uints with this answer, which takes so many.
    Front(usize, Answer, usize),
    /// All of them as a vector of ints.
    AsInts(Answer, usize),
}

use Check::{AsInts, Front, Ints, List, Uints, Ulongs, Vector};

fn holds(alloc: Global, bytes: &[u8], check: Check) -> bool {
    match check {
        Uints => is_array::<u32>(alloc, bytes),
        Ints => is_array::<i32>(alloc, bytes),
        Ulongs => is_array::<u64>(alloc, bytes),
        List => is_list(alloc, bytes, true),
        Vector => is_list(alloc, bytes, false),
        Front(len, answer, count) => match bytes.get(..len) {
            Some(front) => stops(alloc, front, true, answer, count),
            None => false,
        },
        AsInts(answer, count) => stops(alloc, bytes, false, answer, count),
    }
}

/// It holds of the front with a hundred numbers behind it, or with those from `first` on.
fn is_so(alloc: Global, front: &[u8], first: u8, before: &[u8], check: Check) -> bool {
    match counted(alloc, front, first, before) {
        Some(bytes) => holds(alloc, bytes.as_slice(), check),
        None => false,
    }
}

#[test]
fn a_hundred_numbers_are_written_and_read(rt: HostRuntime) {
    let alloc = rt.alloc();
    assert!(rt; is_so(alloc, UINTS, 0, b"\0\0\0", Uints));
    assert!(rt; is_so(alloc, UINTS, 0, b"\0\0\0", Vector));
    assert!(rt; is_so(alloc, INTS, 0, b"\0\0\0", Ints));
    assert!(rt; is_so(alloc, ULONGS, 0, b"\0\0\0\0\0\0\0", Ulongs));
    assert!(rt; is_so(alloc, NARROW, 0, b"", Vector));
    assert!(rt; is_so(alloc, LIST, 1, b"\x52", List));
}

/// A list or an array of uints, and 99 behind it.
struct NumbersAndOne;

impl Asked for NumbersAndOne {
    fn is_answered<R: Read>(&self, alloc: Global, de: &mut Deserializer<R>) -> bool {
        let first = told_by(de, alloc, true);
        is(u32::deserialize(alloc, de), Ok(99)) && first == Taken
    }
}

/// An array of a hundred uints is read, and 99 behind it.
fn goes_on(alloc: Global) -> bool {
    match counted(alloc, UINTS, 0, b"\0\0\0") {
        Some(bytes) => {
            let mut bytes = bytes;
            let is_longer = bytes.extend_from_slice(b"\x52\x63").is_ok();
            taken(alloc, bytes.as_slice(), &NumbersAndOne) == Some(412) && is_longer
        }
        None => false,
    }
}

#[test]
fn a_refusal_among_many_is_the_first_that_is_called_for(rt: HostRuntime) {
    let alloc = rt.alloc();
    assert!(rt; is_so(alloc, UINTS, 0, b"\0\0\0", Front(410, Taken, 410)));
    // two bytes of the seventy-first element
    assert!(rt; is_so(alloc, UINTS, 0, b"\0\0\0", Front(292, UNEXPECTED_EOF, 290)));
    assert!(rt; is_so(alloc, UINTS, 0, b"\0\0\0", AsInts(InvalidFormatCode, 10)));
    // a list that ends behind its seventy-first number, and behind the code of the next
    assert!(rt; is_so(alloc, LIST, 1, b"\x52", Front(144, UNEXPECTED_EOF, 144)));
    assert!(rt; is_so(alloc, LIST, 1, b"\x52", Front(145, UNEXPECTED_EOF, 145)));
    assert!(rt; is_so(alloc, LIST, 1, b"\x52", AsInts(InvalidFormatCode, 4)));
    // the sixty-seventh element goes past the end
    assert!(rt;
        is_so(
            alloc,
            TOO_SHORT,
            0,
            b"\0\0\0",
            Front(410, InvalidValue, 278)
        )
    );
    // an item behind the array has a constructor of its own
    assert!(rt; goes_on(alloc));
}
