//! Refusals by their names.

use amqp_base::Error;
use std::io::ErrorKind;

/// Why there is no value, or no line.
#[derive(Debug, Clone, Copy, PartialEq, Eq)]
pub(crate) enum Answer {
    Message,
    Io(ErrorKind),
    InvalidFormatCode,
    InvalidValue,
    InvalidUtf8Encoding,
    SequenceLengthMismatch,
    InvalidLength,
    OutOfMemory,
    /// Two ways answer otherwise.
    Differs,
    /// A call was answered behind a refusal.
    GoesOn,
    /// The line has no type, or no bytes.
    NoCase,
}

pub(crate) fn name_of(e: &Error) -> Answer {
    match e {
        Error::Message(_) => Answer::Message,
        Error::Io(kind) => Answer::Io(*kind),
        Error::InvalidFormatCode => Answer::InvalidFormatCode,
        Error::InvalidValue => Answer::InvalidValue,
        Error::InvalidUtf8Encoding => Answer::InvalidUtf8Encoding,
        Error::SequenceLengthMismatch => Answer::SequenceLengthMismatch,
        Error::InvalidLength => Answer::InvalidLength,
        Error::OutOfMemory => Answer::OutOfMemory,
    }
}

/// The call was refused so.
pub(crate) fn is_refused<T: Drop>(outcome: Result<T, Error>, want: Answer) -> bool {
    match outcome {
        Ok(_) => false,
        Err(e) => name_of(&e) == want,
    }
}
