//! A line and its answer.

use crate::answer::Answer;
use crate::kind::{Kind, kind_named};
use crate::lines::words;
use crate::ways::{Outcome, outcome};
use hex::{decode, encode};
use std::alloc::Global;

/// What is printed for a line.
#[derive(Drop)]
pub(crate) enum Said {
    Value { digits: String, rest: usize },
    Refused(Answer),
    /// Nothing.
    Passed,
}

/// As many allocations as the line has bytes behind this word, so that another one is the first to
/// fail.
const PASS: &[u8] = b"pass";

/// So many allocations.
fn pass(alloc: Global, count: usize) -> Said {
    for _ in 0..count {
        let mut byte = Vec::new(alloc);
        if byte.push(0u8).is_err() {
            return Said::Refused(Answer::OutOfMemory);
        }
    }
    Said::Passed
}

/// What is printed for the words of a line.
fn answer_to(alloc: Global, name: &[u8], digits: &[u8]) -> Said {
    if name == PASS {
        return pass(alloc, digits.len());
    }
    match kind_named(name) {
        Some(kind) => answer(alloc, kind, digits),
        None => Said::Refused(Answer::NoCase),
    }
}

/// The bytes that the digits spell. Where memory is wanting they are spelt once more.
fn spelt(alloc: Global, digits: &[u8]) -> Option<Vec<u8>> {
    match decode(alloc, digits) {
        Ok(bytes) => Some(bytes),
        Err(_) => decode(alloc, digits).ok(),
    }
}

/// The digits of the bytes.
fn spell(alloc: Global, bytes: &[u8]) -> Option<String> {
    match encode(alloc, bytes) {
        Ok(digits) => Some(digits),
        Err(_) => encode(alloc, bytes).ok(),
    }
}

/// The answer in words.
fn in_words(alloc: Global, outcome: Outcome) -> Said {
    match outcome {
        Ok((text, rest)) => match spell(alloc, text.as_slice()) {
            Some(digits) => Said::Value { digits, rest },
            None => Said::Refused(Answer::OutOfMemory),
        },
        Err(name) => Said::Refused(name),
    }
}

/// The answer to bytes of a type.
fn answer(alloc: Global, kind: Kind, digits: &[u8]) -> Said {
    match spelt(alloc, digits) {
        Some(bytes) => in_words(alloc, outcome(alloc, kind, bytes.as_slice())),
        None => Said::Refused(Answer::NoCase),
    }
}

/// The answer to the front of a line.
pub(crate) fn answered(alloc: Global, line: &[u8], length: usize) -> Said {
    match line.get(..length) {
        Some(front) => match words(front) {
            Some((name, digits)) => answer_to(alloc, name, digits),
            None => Said::Refused(Answer::NoCase),
        },
        None => Said::Refused(Answer::NoCase),
    }
}
