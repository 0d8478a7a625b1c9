//! Why nothing was written.

ghost use Rattle.std.specs.Prelude.{◌≡◌};
ghost use Rattle.amqp_write.specs.Appending.{error_of};

use amqp_base::Error;
use std::io::ErrorKind;

/// Why nothing was written, inside these crates. It is small enough for registers, as an `Error`
/// with its text isn't.
#[derive(Clone, Copy)]
pub enum Refusal {
    /// The writer's own fault; or `Other`: too long to write.
    Io(ErrorKind),
    /// An element that can't stand where it is to stand.
    InvalidValue,
}

/// The refusal, told the compiler to be rare.
#[cold]
#[inline(never)]
fn rare(refusal: Refusal) -> Refusal
    ensures { result ≡ refusal }
{
    refusal
}

/// The error that a public call answers.
#[inline(always)]
pub fn refused(refusal: Refusal) -> Error
    ensures { result ≡ error_of refusal }
{
    match rare(refusal) {
        Refusal::Io(kind) => Error::from(kind),
        Refusal::InvalidValue => Error::InvalidValue,
    }
}

/// The error where memory is wanting.
#[inline(always)]
pub fn no_memory() -> Error
    ensures { result ≡ Error.OutOfMemory }
{
    match rare(Refusal::InvalidValue) {
        _ => Error::OutOfMemory,
    }
}

/// The error of a part, handed on.
#[inline(always)]
pub fn handed_on(e: Error) -> Error
    ensures { result ≡ e }
{
    e
}
