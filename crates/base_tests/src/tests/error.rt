//! What the refusals print, and what becomes one.

use super::answer::{Answer, name_of};
use super::printed::prints;
use amqp_base::Error;
use std::alloc::{AllocError, AllocFailed, Global};
use std::io;
use std::io::ErrorKind;

/// A refusal of one's own words has them.
fn has_its_text(refusal: Error, text: &str) -> bool {
    match &refusal {
        Error::Message(found) => found.as_str() == text,
        _ => false,
    }
}

/// The refusal prints the text.
fn says(alloc: Global, refusal: Error, text: &str) -> bool {
    prints(alloc, &refusal, text)
}

/// The refusal of this name; none for `Message`.
fn refusal(name: Answer) -> Option<Error> {
    match name {
        Answer::InvalidFormatCode => Some(Error::InvalidFormatCode),
        Answer::InvalidValue => Some(Error::InvalidValue),
        Answer::InvalidUtf8Encoding => Some(Error::InvalidUtf8Encoding),
        Answer::SequenceLengthMismatch => Some(Error::SequenceLengthMismatch),
        Answer::InvalidLength => Some(Error::InvalidLength),
        Answer::OutOfMemory => Some(Error::OutOfMemory),
        Answer::Io(kind) => Some(Error::Io(kind)),
        Answer::Taken | Answer::Message => None,
    }
}

/// The refusal of this name prints the text.
fn is_printed(alloc: Global, name: Answer, text: &str) -> bool {
    match refusal(name) {
        Some(refusal) => says(alloc, refusal, text),
        None => false,
    }
}

const PRINTED: &[(Answer, &str)] = &[
    (Answer::InvalidFormatCode, "Invalid format code"),
    (Answer::InvalidValue, "Invalid value"),
    (Answer::InvalidUtf8Encoding, "Invalid UTF-8 encoding"),
    (Answer::SequenceLengthMismatch, "Sequence length mismatch"),
    (Answer::InvalidLength, "Invalid length"),
    (Answer::OutOfMemory, "Out of memory"),
    (Answer::Io(ErrorKind::UnexpectedEof), "IO UnexpectedEof"),
];

#[test]
fn a_refusal_prints_its_reason(rt: HostRuntime) {
    let alloc = rt.alloc();
    assert!(rt; has_its_text(Error::custom(alloc, "no such field"), "no such field"));
    assert!(rt; says(alloc, Error::custom(alloc, "x"), "Message x"));
    for (name, text) in PRINTED {
        assert!(rt; is_printed(alloc, *name, text), "{text}");
    }
}

/// The fault becomes the refusal of this name.
fn becomes<F: Into<Error>>(fault: F, name: Answer) -> bool {
    let refusal: Error = fault.into();
    name_of(&refusal) == name
}

/// Bytes that are no text become a refusal.
fn is_no_text(bytes: &[u8]) -> bool {
    match std::str::from_utf8(bytes) {
        Ok(_) => false,
        Err(e) => becomes(e, Answer::InvalidUtf8Encoding),
    }
}

/// The same in a vector.
fn is_no_string(bytes: Vec<u8>) -> bool {
    match String::from_utf8(bytes) {
        Ok(_) => false,
        Err(e) => becomes(e, Answer::InvalidUtf8Encoding),
    }
}

/// The same, lent and in a vector.
fn are_no_text(alloc: Global, bytes: &[u8]) -> bool {
    match bytes.to_vec(alloc) {
        Ok(own) => is_no_string(own) && is_no_text(bytes),
        Err(_) => false,
    }
}

/// Faults of a device, by kind and whole.
fn faults_keep_their_kind() -> bool {
    let reset = ErrorKind::ConnectionReset;
    let is_kept = becomes(reset, Answer::Io(ErrorKind::ConnectionReset));
    let late = io::Error::from(ErrorKind::TimedOut);
    becomes(late, Answer::Io(ErrorKind::TimedOut)) && is_kept
}

/// Want of memory, by kind and whole.
fn faults_of_memory_have_one_name() -> bool {
    let is_full = becomes(ErrorKind::OutOfMemory, Answer::OutOfMemory);
    let full = io::Error::from(ErrorKind::OutOfMemory);
    becomes(full, Answer::OutOfMemory) && is_full
}

#[test]
fn a_fault_becomes_the_refusal_of_its_kind(rt: HostRuntime) {
    let alloc = rt.alloc();
    assert!(rt; faults_keep_their_kind());
    assert!(rt; faults_of_memory_have_one_name());
    assert!(rt; becomes(AllocError, Answer::OutOfMemory));
    assert!(rt; becomes(AllocFailed { value: 7u8 }, Answer::OutOfMemory));
    assert!(rt; are_no_text(alloc, b"\xff"));
    assert!(rt; are_no_text(alloc, b"a\xff"));
}
