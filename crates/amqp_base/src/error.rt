//! The refusals of the codec.

ghost use Rattle.std.specs.Prelude.{◌≡◌, ◌⊎◌, ℕ, List, string_bytes};
ghost use Rattle.std.specs.IoError.{error_kind};
ghost use Rattle.amqp_base.specs.declared.error.Error.TheVariants.{InvalidUtf8Encoding};
ghost use Rattle.amqp_base.specs.declared.error.Error.TheVariants.{OutOfMemory};
ghost use Rattle.amqp_base.specs.Faults.{refusal_of};
ghost use Rattle.amqp_base.specs.Refusals.{IsCustom};

use std::alloc::{AllocError, AllocFailed, Global};
use std::io;
use std::str::Utf8Error;
use std::string::FromUtf8Error;

/// Why a call was refused.
#[derive(Debug, Drop, thiserror::Error)]
pub enum Error {
    /// A descriptor that is neither a symbol nor an ulong, or another one than the type's; another
    /// item behind it than a struct's or an enum's; a decimal of another width; a name that is no
    /// field's or that came before, or a field that is missing; a variant that there isn't; or what
    /// `custom` was given.
    #[error("Message {0}")]
    Message(String),
    /// `UnexpectedEof`: bytes are missing. `Other`: too long to write, or too many bytes read to be
    /// counted. Else the source's or the writer's own fault.
    #[error("IO {0:?}")]
    Io(io::ErrorKind),
    /// A byte that is no format code, or a code of another kind than the call asks for.
    #[error("Invalid format code")]
    InvalidFormatCode,
    /// A count above the cap, an array whose count or elements are above its size, a boolean or a
    /// character that is none, a value that is none of its type's, an item that is nested too deep
    /// to be passed over, an array element that can't be written, a name that a struct or field
    /// can't have, a call out of order, or a call after a refusal.
    #[error("Invalid value")]
    InvalidValue,
    /// A text that isn't UTF-8.
    #[error("Invalid UTF-8 encoding")]
    InvalidUtf8Encoding,
    /// Another number of elements than asked for or announced, or elements that were left unread.
    #[error("Sequence length mismatch")]
    SequenceLengthMismatch,
    /// A size below its header, an odd count of a map, a pair of another number of items, a key
    /// without its value, or a length that doesn't fit.
    #[error("Invalid length")]
    InvalidLength,
    /// A growth was refused, or a source or writer answered a fault of that kind.
    #[error("Out of memory")]
    OutOfMemory,
}

impl Error {
    /// A message of the caller's own; `OutOfMemory` where its text finds no memory.
    pub fn custom(alloc: Global, text: &str) -> Error
        ensures { IsCustom text.now result }
    {
        match String::from_str(alloc, text) {
            Ok(text) => Error::Message(text),
            Err(_) => Error::OutOfMemory,
        }
    }
}

impl From<io::ErrorKind> for Error {
    ghost from_gives = { λ kind e. e ≡ refusal_of kind };

    #[tactic(auto, unfolding(crate::specs::Faults::refusal_of))]
    #[inline(always)]
    fn from(kind: io::ErrorKind) -> Error {
        match kind {
            io::ErrorKind::OutOfMemory => Error::OutOfMemory,
            _ => Error::Io(kind),
        }
    }
}

impl From<io::Error> for Error {
    ghost from_gives = { λ fault e. e ≡ refusal_of (error_kind fault) };

    fn from(fault: io::Error) -> Error {
        Error::from(fault.kind())
    }
}

impl From<Utf8Error> for Error {
    ghost from_gives = { λ _ e. e ≡ InvalidUtf8Encoding };

    fn from(_fault: Utf8Error) -> Error {
        Error::InvalidUtf8Encoding
    }
}

impl From<FromUtf8Error> for Error {
    ghost from_gives = { λ _ e. e ≡ InvalidUtf8Encoding };

    fn from(_fault: FromUtf8Error) -> Error {
        Error::InvalidUtf8Encoding
    }
}

impl From<AllocError> for Error {
    ghost from_gives = { λ _ e. e ≡ OutOfMemory };

    fn from(_fault: AllocError) -> Error {
        Error::OutOfMemory
    }
}

impl<T: Drop> From<AllocFailed<T>> for Error {
    ghost from_gives = { λ _ e. e ≡ OutOfMemory };

    fn from(_fault: AllocFailed<T>) -> Error {
        Error::OutOfMemory
    }
}
