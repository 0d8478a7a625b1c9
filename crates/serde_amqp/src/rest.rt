//! A value, and the bytes behind it.

ghost use Rattle.std.specs.Prelude.{◌≡◌, Some, IfOk, IfErr, IsTrue};
ghost use Rattle.amqp_base.specs.declared.error.Error.TheVariants.{OutOfMemory};
ghost use Rattle.serde_amqp.specs.Headline.{ReadsAll, NamedFrom};
ghost use Rattle.serde_amqp.specs.Streams.{TakenFrom};

use crate::{Deserialize, Deserializer, Error, Read, SliceReader};
use std::alloc::Global;

/// The value at the front of the bytes, and the bytes behind it, which are lent as long as `slice`
/// is. Refused as `from_slice` is.
pub fn from_slice_with_rest<'s, T: Deserialize<SliceReader<'s>>>(
    alloc: Global,
    slice: &'s [u8],
) -> Result<(T, &'s [u8]), Error>
    ensures found { IfOk result (λ p.
        TakenFrom T.meaning p.0 (Some slice.now) (Some p.1.now)) }
    ensures only { ReadsAll T.meaning.takes (λ i p. T.meaning.means i p.0) T.meaning.grows
        slice.now result }
    ensures memory { IfErr result (λ e. e ≡ OutOfMemory → IsTrue T.meaning.grows) }
    ensures named { IfErr result (λ e. NamedFrom T.meaning slice.now e) }
{
    let mut de = Deserializer::new(SliceReader::new(slice));
    let result = T::deserialize(alloc, &mut de);
    let taken = de.into_reader().bytes_consumed();
    match result {
        Ok(value) => Ok((value, &slice[taken..])),
        Err(e) => Err(e),
    }
}
