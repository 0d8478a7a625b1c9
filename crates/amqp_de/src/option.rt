//! Values that may be missing.

ghost use Rattle.std.specs.Prelude.{IfOk, IfErr};
ghost use Rattle.amqp_de.specs.Steps.{Stops};
ghost use Rattle.amqp_de.specs.Calls.{IsRead, IsRefused, IsNamed};
ghost use Rattle.amqp_base.specs.Meaning.{option_of};

use crate::answer::answer;
use crate::{Deserialize, Deserializer};
use amqp_base::{EncodingCodes, Error};
use amqp_read::Read;
use std::alloc::Global;

impl<R: Read> Deserializer<R> {
    /// A value that may be missing: null (part 1, section 1.6.1) is `None`, and its byte is
    /// consumed, save in an array, where it isn't there. Any other item is read as a `T`.
    ///
    /// `Io(UnexpectedEof)` where there is no byte, `InvalidFormatCode` where it is no code, else
    /// the refusals of `T`. Each of them, also one that `T` makes itself, ends the deserializer.
    #[inline(always)]
    pub fn deserialize_option<T: Deserialize<R>>(
        &mut self,
        alloc: Global,
    ) -> Result<Option<T>, Error>
        ensures ok { IfOk result (λ v. IsRead (option_of T.meaning) v self.old self.new) }
        ensures err { IfErr result (λ e.
            IsRefused (option_of T.meaning) R.buffers self.old self.new e) }
        ensures named { IfErr result (λ e.
            IsNamed (option_of T.meaning) R.buffers self.old self.new e) }
        ensures stops { Stops self.old result self.new }
    {
        match self.deserialize_any() {
            Ok(code) => match code {
                EncodingCodes::Null => match self.deserialize_unit() {
                    Ok(()) => return Ok(None),
                    Err(e) => return Err(e),
                },
                _ => match self.deserialize_newtype_struct::<T>(alloc, "") {
                    Ok(value) => return Ok(Some(value)),
                    Err(e) => return Err(e),
                },
            },
            Err(e) => return Err(e),
        }
    }
}

impl<R: Read, T: Deserialize<R>> Deserialize<R> for Option<T> {
    /// Null is `None`, any other item a value of the type. The refusals are those of
    /// `deserialize_option`.
    #[inline(always)]
    fn deserialize(alloc: Global, de: &mut Deserializer<R>) -> Result<Option<T>, Error> {
        answer!(de.deserialize_option(alloc))
    }
}
