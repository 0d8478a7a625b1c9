//! Newtypes, which are nothing of their own on the wire.

ghost use Rattle.std.specs.Prelude.{IfOk, IfErr};
ghost use Rattle.amqp_de.specs.Steps.{Stops};
ghost use Rattle.amqp_de.specs.Calls.{IsRead, IsRefused, IsNamed};

use crate::{Deserialize, Deserializer};
use amqp_base::Error;
use amqp_read::Read;
use std::alloc::Global;

impl<R: Read> Deserializer<R> {
    /// The value of a newtype struct: it is nothing of its own on the wire, whatever its name, so
    /// this reads the value that it holds.
    ///
    /// The refusals are those of `T`; each of them, also one that `T` makes itself, ends the
    /// deserializer.
    #[inline(always)]
    pub fn deserialize_newtype_struct<T: Deserialize<R>>(
        &mut self,
        alloc: Global,
        name: &'static str,
    ) -> Result<T, Error>
        ensures ok { IfOk result (λ v. IsRead T.meaning v self.old self.new) }
        ensures err { IfErr result (λ e. IsRefused T.meaning R.buffers self.old self.new e) }
        ensures named { IfErr result (λ e. IsNamed T.meaning R.buffers self.old self.new e) }
        ensures stops { Stops self.old result self.new }
    {
        let _ = name;
        if self.ended {
            return Err(Error::InvalidValue);
        }
        match T::deserialize(alloc, self) {
            Ok(value) => return Ok(value),
            Err(e) => {
                self.ended = true;
                return Err(e);
            }
        }
    }
}
