//! Values under one descriptor.

ghost use Rattle.std.specs.Prelude.{IfOk, IfErr};
ghost use Rattle.amqp_de.specs.DescribedValues.{ValueBehind, ValueBehindRefused, ValueBehindNamed};
ghost use Rattle.amqp_de.specs.Steps.{Stops};

use crate::{DescriptorSet, Deserialize, Deserializer};
use amqp_base::Error;
use amqp_read::Read;
use std::alloc::Global;

impl<R: Read> Deserializer<R> {
    /// Reads the value behind a descriptor (part 1, section 1.2): in an array of such values its
    /// data alone, as 0x00 and the descriptor stand in front of the first one's code.
    ///
    /// In this order: the refusals of `deserialize_descriptor`, `Message` where the descriptor is
    /// none of these, then those of `T`. Each of them, also one that `T` makes itself, ends the
    /// deserializer.
    #[inline(always)]
    pub fn deserialize_described<T: Deserialize<R>, D: DescriptorSet>(
        &mut self,
        alloc: Global,
        descriptor: &D,
    ) -> Result<T, Error>
        ensures ok { IfOk result (λ v. ValueBehind (D.among descriptor.now) T.meaning v
            self.old self.new) }
        ensures err { IfErr result (λ e. ValueBehindRefused (D.among descriptor.now)
            T.meaning R.buffers self.old self.new e) }
        ensures named { IfErr result (λ e. ValueBehindNamed (D.among descriptor.now)
            T.meaning R.buffers self.old self.new e) }
        ensures stops { Stops self.old result self.new }
    {
        match self.begin_behind(alloc, descriptor) {
            Ok(()) => match T::deserialize(alloc, self) {
                Ok(value) => Ok(value),
                Err(e) => {
                    self.stop();
                    Err(e)
                }
            },
            Err(e) => Err(e),
        }
    }
}
