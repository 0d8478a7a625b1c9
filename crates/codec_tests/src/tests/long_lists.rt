//! Lists and arrays of many elements, out of sources that give 1, 2 or 7 bytes a read.

use super::answer::{Answer, name_of};
use super::pieces::cut;
use serde_amqp::{Counted, from_reader};
use std::alloc::Global;

/// An array of 65,536 units, and a byte behind it.
const UNITS: &[u8] = b"\xf0\x00\x01\x00\x00\x00\x01\x00\x00\x40\xff";

/// An array of one more, and of more elements than bytes of its size.
const TOO_MANY: &[u8] = b"\xf0\x00\x01\x00\x01\x00\x01\x00\x01\x40";

/// How many units are read, or their refusal; and how many bytes are left in the source.
fn units(alloc: Global, bytes: &[u8], most: usize) -> (Result<usize, Answer>, usize) {
    let mut source = Counted::new(cut(bytes, most));
    let found = match from_reader::<_, Vec<()>>(alloc, &mut source) {
        Ok(units) => Ok(units.len()),
        Err(e) => Err(name_of(&e)),
    };
    (found, source.into_inner().rest.len())
}

/// The numbers from 0 to `n`, without `n`.
fn numbers(alloc: Global, n: i32) -> Option<Vec<i32>> {
    let mut numbers = Vec::new(alloc);
    let mut is_so = true;
    for number in 0..n {
        is_so = numbers.push(number).is_ok() && is_so;
    }
    if is_so { Some(numbers) } else { None }
}

/// A list of these numbers is read from its text, and nothing is left in the source.
fn are_read(alloc: Global, text: &[u8], numbers: &Vec<i32>, most: usize) -> bool {
    let mut source = Counted::new(cut(text, most));
    let is_so = match from_reader::<_, Vec<i32>>(alloc, &mut source) {
        Ok(found) => found.as_slice() == numbers.as_slice(),
        Err(_) => false,
    };
    source.into_inner().rest.is_empty() && is_so
}

/// This front, and behind it the numbers from 0 to `n`, without `n`, each of a byte.
fn text_of(alloc: Global, front: &[u8], n: u8) -> Option<Vec<u8>> {
    let mut text = Vec::new(alloc);
    let mut is_so = text.extend_from_slice(front).is_ok();
    for number in 0..n {
        is_so = text.extend_from_slice(&[0x54, number]).is_ok() && is_so;
    }
    if is_so { Some(text) } else { None }
}

/// The numbers from 0 to `n` are read behind this front.
fn are_read_behind(alloc: Global, front: &[u8], n: u8) -> bool {
    let Some(numbers) = numbers(alloc, i32::from(n)) else {
        return false;
    };
    let Some(text) = text_of(alloc, front, n) else {
        return false;
    };
    let mut are_so = true;
    for most in [1, 2, 7] {
        are_so = are_read(alloc, text.as_slice(), &numbers, most) && are_so;
    }
    are_so
}

#[test]
fn as_many_units_as_may_be_are_read_however_a_source_cuts_them(rt: HostRuntime) {
    for most in [1, 2, 7] {
        assert!(rt; units(rt.alloc(), UNITS, most) == (Ok(65_536), 1));
        assert!(rt; units(rt.alloc(), TOO_MANY, most).0 == Err(Answer::InvalidValue));
    }
}

#[test]
fn lists_of_either_size_are_read_however_a_source_cuts_them(rt: HostRuntime) {
    let list32 = b"\xd0\x00\x00\x01\x04\x00\x00\x00\x80";
    assert!(rt; are_read_behind(rt.alloc(), b"\xc0\xff\x7f", 127));
    assert!(rt; are_read_behind(rt.alloc(), list32, 128));
}
