//! Values whose items aren't null.

ghost use Rattle.amqp_de.specs.NotNull.{not_null_of};

use crate::{Deserialize, Deserializer};
use amqp_base::{EncodingCodes, Error, Typed};
use amqp_read::Read;
use std::alloc::Global;

/// A value of an item that isn't null, as a key of a struct under a descriptor is.
#[derive(Drop)]
pub(crate) struct NotNull<T>(pub(crate) T);

impl<T: Typed> Typed for NotNull<T> {
    ghost meaning = { not_null_of T.meaning (λ v. v.0) };
}

impl<R: Read, T: Deserialize<R>> Deserialize<R> for NotNull<T> {
    /// `InvalidFormatCode` where null stands, else as the type is read.
    #[inline(always)]
    fn deserialize(alloc: Global, de: &mut Deserializer<R>) -> Result<NotNull<T>, Error> {
        match de.deserialize_any() {
            Ok(code) => match code {
                EncodingCodes::Null => Err(Error::InvalidFormatCode),
                _ => match T::deserialize(alloc, de) {
                    Ok(value) => Ok(NotNull(value)),
                    Err(e) => Err(e),
                },
            },
            Err(e) => Err(e),
        }
    }
}
