//! Arrays of values of one type, which any other item is read as one element of.

ghost use Rattle.std.specs.Prelude.{◌≡◌, ◌∷◌, [], false, IsTrue, IfOk, IfErr};
ghost use Rattle.amqp_base.specs.Codes.{Kind, row};
ghost use Rattle.amqp_base.specs.declared.error.Error.TheVariants.{OutOfMemory};

use crate::{Deserialize, Deserializer};
use amqp_base::{EncodingCodes, Error};
use amqp_read::Read;
use amqp_types::Array;
use std::alloc::Global;

/// Whether a code is an array's.
#[inline(always)]
fn is_array(code: EncodingCodes) -> bool
    ensures yes { IsTrue result → (row code).kind ≡ Kind.array }
    ensures no { result ≡ false → (row code).kind ≡ Kind.array → ⊥ }
{
    match code {
        EncodingCodes::Array8 => true,
        EncodingCodes::Array32 => true,
        _ => false,
    }
}

/// One value alone.
#[inline(always)]
fn one<T>(alloc: Global, value: T) -> Result<Vec<T>, Error>
where
    T: Drop,
    ensures ok { IfOk result (λ v. v.items ≡ value ∷ []) }
    ensures err { IfErr result (λ e. e ≡ OutOfMemory) }
{
    let mut items = Vec::new(alloc);
    items.push(value)?;
    Ok(items)
}

impl<R: Read, T: Deserialize<R>> Deserialize<R> for Array<T> {
    /// The elements of an array (part 1, section 1.6.24), or any other item as the only element.
    /// The refusals are those of `Vec` where an array's code stands, else those of `T`, and
    /// `OutOfMemory` where the only element finds no memory; then the deserializer isn't ended, and
    /// stands behind it.
    #[inline(always)]
    fn deserialize(alloc: Global, de: &mut Deserializer<R>) -> Result<Array<T>, Error> {
        match de.deserialize_any() {
            Ok(code) => {
                if is_array(code) {
                    return match Vec::<T>::deserialize(alloc, de) {
                        Ok(items) => Ok(Array(items)),
                        Err(e) => Err(e),
                    };
                }
                match T::deserialize(alloc, de) {
                    Ok(value) => match one(alloc, value) {
                        Ok(items) => Ok(Array(items)),
                        Err(e) => Err(e),
                    },
                    Err(e) => Err(e),
                }
            }
            Err(e) => Err(e),
        }
    }
}
