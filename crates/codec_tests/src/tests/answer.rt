//! What a call answered, without the value.

use amqp_base::Error;
use std::io::ErrorKind;

/// A value, or the name of a refusal.
#[derive(Debug, Clone, Copy, PartialEq, Eq)]
pub(crate) enum Answer {
    Taken,
    Message,
    Io(ErrorKind),
    InvalidFormatCode,
    InvalidValue,
    InvalidUtf8Encoding,
    SequenceLengthMismatch,
    InvalidLength,
    OutOfMemory,
}

/// Bytes are missing.
pub(crate) const UNEXPECTED_EOF: Answer = Answer::Io(ErrorKind::UnexpectedEof);

pub(crate) fn answer_of<T>(outcome: &Result<T, Error>) -> Answer {
    match outcome {
        Ok(_) => Answer::Taken,
        Err(e) => name_of(e),
    }
}

/// What a call answered, whose value or refusal is let go here alone.
pub(crate) fn told<T: Drop>(outcome: Result<T, Error>) -> Answer {
    answer_of(&outcome)
}

pub(crate) fn name_of(e: &Error) -> Answer {
    match e {
        Error::Message(_) => Answer::Message,
        Error::Io(kind) => Answer::Io(*kind),
        Error::InvalidFormatCode => Answer::InvalidFormatCode,
        Error::InvalidValue => Answer::InvalidValue,
        Error::InvalidUtf8Encoding => Answer::InvalidUtf8Encoding,
        Error::SequenceLengthMismatch => Answer::SequenceLengthMismatch,
        Error::InvalidLength => Answer::InvalidLength,
        Error::OutOfMemory => Answer::OutOfMemory,
    }
}

/// The call gave the value.
pub(crate) fn gave<T: PartialEq + Drop>(outcome: Result<T, Error>, want: &T) -> bool {
    match outcome {
        Ok(value) => value == *want,
        Err(_) => false,
    }
}

/// The call gave the value, or the refusal of this name.
pub(crate) fn is<T: Copy + PartialEq>(outcome: Result<T, Error>, want: Result<T, Answer>) -> bool {
    match outcome {
        Ok(value) => match want {
            Ok(other) => value == other,
            Err(_) => false,
        },
        Err(e) => match want {
            Ok(_) => false,
            Err(name) => name_of(&e) == name,
        },
    }
}
