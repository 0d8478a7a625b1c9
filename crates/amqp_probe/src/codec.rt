//! What a type's codec makes of bytes.

ghost use Rattle.std.specs.Prelude.{◌≡◌, IfOk, IfErr};
ghost use Rattle.amqp_base.specs.declared.error.Error.TheVariants.{OutOfMemory};
ghost use Rattle.amqp_base.specs.declared.shape.Setting.{Setting};
ghost use Rattle.amqp_probe.specs.Codec.{Decoded, Recoded, IsRefused};

use crate::kind::Kind;
use serde_amqp::{
    Array, Deserialize, Deserializer, Error, OrderedMap, Read, Serialize, SliceReader, Symbol,
    to_vec,
};
use std::alloc::Global;

/// What came of the bytes of a line.
#[derive(Drop)]
pub enum Outcome {
    /// The text of the value that was read, and how many bytes weren't consumed.
    Value { canonical: Vec<u8>, rest: usize },
    /// Why there is no such text.
    Refused(Error),
}

/// Decodes a value of the type from the front of the bytes, and encodes it again. `OutOfMemory`
/// alone is an error.
pub fn decoded(alloc: Global, kind: Kind, bytes: &[u8]) -> Result<Outcome, Error>
    ensures ok { IfOk result (λ outcome. Decoded kind bytes.now outcome) }
    ensures err { IfErr result (λ e. e ≡ OutOfMemory) }
{
    match kind {
        Kind::Bool => recoded::<bool>(alloc, bytes),
        Kind::I32 => recoded::<i32>(alloc, bytes),
        Kind::U32 => recoded::<u32>(alloc, bytes),
        Kind::U64 => recoded::<u64>(alloc, bytes),
        Kind::String => recoded::<String>(alloc, bytes),
        Kind::Symbol => recoded::<Symbol>(alloc, bytes),
        Kind::ListI32 => recoded::<Vec<i32>>(alloc, bytes),
        Kind::ListU64 => recoded::<Vec<u64>>(alloc, bytes),
        Kind::ListUnit => recoded::<Vec<()>>(alloc, bytes),
        Kind::ListListI32 => recoded::<Vec<Vec<i32>>>(alloc, bytes),
        Kind::ListArrayI32 => recoded::<Vec<Array<i32>>>(alloc, bytes),
        Kind::ArrayI32 => recoded::<Array<i32>>(alloc, bytes),
        Kind::ArrayString => recoded::<Array<String>>(alloc, bytes),
        Kind::OptionU32 => recoded::<Option<u32>>(alloc, bytes),
        Kind::TupleU32Bool => recoded::<(u32, bool)>(alloc, bytes),
        Kind::MapStringU32 => recoded::<OrderedMap<String, u32>>(alloc, bytes),
    }
}

fn recoded<'s, T: Serialize + Deserialize<SliceReader<'s>>>(
    alloc: Global,
    bytes: &'s [u8],
) -> Result<Outcome, Error>
    ensures ok { IfOk result (λ outcome. Recoded T.meaning.takes T.meaning.refuses T.meaning.means
        (λ v. T.meaning.item v Setting.Plain) bytes.now outcome) }
    ensures err { IfErr result (λ e. e ≡ OutOfMemory) }
{
    let mut de = Deserializer::new(SliceReader::new(bytes));
    match T::deserialize(alloc, &mut de) {
        Ok(value) => {
            let consumed = de.into_reader().bytes_consumed();
            match to_vec(alloc, &value) {
                Ok(canonical) => Ok(Outcome::Value {
                    canonical,
                    rest: bytes.len() - consumed,
                }),
                Err(e) => refused(e),
            }
        }
        Err(e) => refused(e),
    }
}

/// Want of memory is an error, every other refusal an outcome.
fn refused(e: Error) -> Result<Outcome, Error>
    ensures ok { IfOk result (λ outcome. IsRefused e outcome) }
    ensures err { IfErr result (λ f. f ≡ OutOfMemory) }
{
    match e {
        Error::OutOfMemory => Err(Error::OutOfMemory),
        _ => Ok(Outcome::Refused(e)),
    }
}
