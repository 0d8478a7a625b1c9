//! Items without parts.

ghost use Rattle.std.specs.Prelude.{◌||◌, IsTrue};
ghost use Rattle.amqp_de.specs.Scalars.{ReadsScalar, MemoryLast};

use crate::Deserializer;
use amqp_base::Error;
use amqp_data::Leaf;
use amqp_read::Read;

impl<R: Read> Deserializer<R> {
    /// Reads an item of this kind.
    #[inline(always)]
    pub(crate) fn leaf<L: Leaf>(&mut self, leaf: L) -> Result<L::Value, Error>
        ensures reads { ReadsScalar L.kind L.shows (L.grows || R.buffers) R.buffers self.old result
            self.new }
        ensures bytes_first { IsTrue L.grows → MemoryLast L.kind R.buffers self.old result }
    {
        if self.ended {
            return Err(Error::InvalidValue);
        }
        match self.begin() {
            Ok(code) => match leaf.read(&mut self.reader, code) {
                Ok(value) => {
                    self.ended = false;
                    return Ok(value);
                }
                Err(e) => return Err(e),
            },
            Err(e) => return Err(e),
        }
    }
}
