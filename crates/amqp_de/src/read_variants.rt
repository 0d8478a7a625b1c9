//! Enums that are read by their variants.

ghost use Rattle.std.specs.Prelude.{◌≡◌, true, IsTrue, IfOk, IfErr, OnErr};
ghost use Rattle.amqp_base.specs.Parse.{list_data, map_data};
ghost use Rattle.amqp_base.specs.Refusing.{opened_refusal};
ghost use Rattle.amqp_base.specs.VariantItems.{alone_refusal, pair_refusal, not_two};
ghost use Rattle.amqp_base.specs.declared.error.Error.TheVariants.{InvalidLength};
ghost use Rattle.amqp_de.specs.Access.{Plain};
ghost use Rattle.amqp_de.specs.Law.{Missed, Named};
ghost use Rattle.amqp_de.specs.ReadVariants.{takes_alone, takes_in_map, takes_in_list};
ghost use Rattle.amqp_de.specs.ReadVariants.{AloneRead, MapRead, ListRead, VariantRead};
ghost use Rattle.amqp_de.specs.ReadVariants.{VariantRefused, VariantNamed, PairRead, PairRefused};
ghost use Rattle.amqp_de.specs.Seq.{at_open};
ghost use Rattle.amqp_de.specs.Steps.{Stops};

use crate::described_enums::is_described;
use crate::described_fields::is_list;
use crate::list::Open;
use crate::structs::is_map;
use crate::{Deserialize, Deserializer, FromVariant, VariantKey, Variants};
use amqp_base::{EncodingCodes, Error};
use amqp_read::Read;
use std::alloc::Global;

/// What is refused of a list whose elements aren't two: a list0 has no count.
fn not_two(code: EncodingCodes) -> Error
    ensures { result ≡ not_two code }
{
    match code {
        EncodingCodes::List0 => Error::InvalidFormatCode,
        _ => Error::InvalidLength,
    }
}

impl<R: Read> Deserializer<R> {
    /// Reads an enum by its variants: a variant that holds nothing out of its key alone, any other
    /// out of a pair of its key and what it holds, a map (part 1, section 1.6.23) of one pair or a
    /// list (section 1.6.22) of the two. Its key is its index among them, a uint or an ulong, or
    /// its name, a string or a symbol.
    ///
    /// In this order: `Io(UnexpectedEof)` where there is no byte, `InvalidFormatCode` where it is
    /// no code or that of another item, also list0; of a described item, which is no variant, the
    /// refusals of its descriptor as `deserialize_described_enum` looks at it, and `Message` where
    /// one stands there; of a pair the refusals of `deserialize_map` or of a list's header, and
    /// `InvalidLength` where its parts aren't two. Then those of the key, and `InvalidFormatCode`
    /// where it is none, `Message` where no variant has it. Then `InvalidFormatCode` where the key
    /// of a variant that holds a value stands alone, `SequenceLengthMismatch` where something
    /// stands behind that of a variant that holds nothing, else the refusals of what it holds. A
    /// refusal ends the deserializer.
    #[inline(always)]
    pub fn deserialize_variants<S: Variants<R> + Drop>(
        &mut self,
        alloc: Global,
        variants: S,
    ) -> Result<S::Value, Error>
    where
        S::Value: Drop,
        ensures ok { IfOk result (λ v. VariantRead (S.variants variants) v self.old self.new) }
        ensures err { IfErr result (λ e. VariantRefused (S.variants variants) R.buffers
            self.old self.new e) }
        ensures named { IfErr result (λ e. VariantNamed (S.variants variants) R.buffers
            self.old self.new e) }
        ensures stops { Stops self.old result self.new }
    {
        match self.deserialize_any() {
            Ok(code) => {
                if is_map(code) {
                    match self.read_in_map(alloc, &variants) {
                        Ok(value) => Ok(value),
                        Err(e) => Err(e),
                    }
                } else if is_list(code) {
                    match self.read_in_list(alloc, code, &variants) {
                        Ok(value) => Ok(value),
                        Err(e) => Err(e),
                    }
                } else if is_described(code) {
                    match self.deserialize_described_enum(alloc, ()) {
                        Ok(none) => match none {},
                        Err(e) => Err(e),
                    }
                } else {
                    match self.read_alone(alloc, &variants) {
                        Ok(value) => Ok(value),
                        Err(e) => Err(e),
                    }
                }
            }
            Err(e) => Err(e),
        }
    }

    /// Reads an enum by its variants, as `deserialize_variants` does, and answers the value that is
    /// the variant which was read.
    #[inline(always)]
    pub fn deserialize_variants_as<T: FromVariant, S: Variants<R, Value = T::Found> + Drop>(
        &mut self,
        alloc: Global,
        variants: S,
    ) -> Result<T, Error>
        ensures ok { IfOk result (λ v. VariantRead (S.variants variants) (T.which v)
            self.old self.new) }
        ensures err { IfErr result (λ e. VariantRefused (S.variants variants) R.buffers
            self.old self.new e) }
        ensures named { IfErr result (λ e. VariantNamed (S.variants variants) R.buffers
            self.old self.new e) }
        ensures stops { Stops self.old result self.new }
    {
        match self.deserialize_variants(alloc, variants) {
            Ok(found) => Ok(T::from_variant(found)),
            Err(e) => Err(e),
        }
    }

    /// A variant out of its key alone.
    fn read_alone<S: Variants<R>>(&mut self, alloc: Global, variants: &S) -> Result<S::Value, Error>
        ensures ok { IfOk result (λ v. AloneRead (S.variants variants.now) v self.old self.new) }
        ensures err { IfErr result (λ e. Missed (takes_alone (S.variants variants.now).takes) true
            R.buffers self.old self.new e) }
        ensures named { IfErr result (λ e. Named
            (alone_refusal (S.variants variants.now).refuses_alone) true R.buffers
            self.old self.new e) }
        ensures ended { OnErr result (IsTrue self.new.ended) }
    {
        match <VariantKey as Deserialize<R>>::deserialize(alloc, self) {
            Ok(key) => match variants.alone(alloc, key) {
                Ok(value) => Ok(value),
                Err(e) => {
                    self.stop();
                    Err(e)
                }
            },
            Err(e) => {
                self.stop();
                Err(e)
            }
        }
    }

    /// A variant out of a map of one pair.
    fn read_in_map<S: Variants<R>>(
        &mut self,
        alloc: Global,
        variants: &S,
    ) -> Result<S::Value, Error>
    where
        S::Value: Drop,
        ensures ok { IfOk result (λ v. MapRead (S.variants variants.now) v self.old self.new) }
        ensures err { IfErr result (λ e. Missed (takes_in_map (S.variants variants.now).takes) true
            R.buffers self.old self.new e) }
        ensures named { IfErr result (λ e. Named (opened_refusal map_data
            (pair_refusal InvalidLength (S.variants variants.now).refuses)) true R.buffers
            self.old self.new e) }
        ensures ended { OnErr result (IsTrue self.new.ended) }
    {
        let inner = match self.open_pairs() {
            Ok(inner) => inner,
            Err(e) => return Err(e),
        };
        if inner.left != 2 {
            self.stop();
            return Err(Error::InvalidLength);
        }
        match self.read_pair(alloc, inner, variants) {
            Ok(value) => Ok(value),
            Err(e) => Err(e),
        }
    }

    /// A variant out of a list of two elements.
    fn read_in_list<S: Variants<R>>(
        &mut self,
        alloc: Global,
        code: EncodingCodes,
        variants: &S,
    ) -> Result<S::Value, Error>
    where
        S::Value: Drop,
        ensures ok { IfOk result (λ v. ListRead (S.variants variants.now) v self.old self.new) }
        ensures err { IfErr result (λ e.
            Missed (takes_in_list (S.variants variants.now).takes) true R.buffers
            self.old self.new e) }
        ensures named { IfErr result (λ e. Named (opened_refusal list_data
            (pair_refusal (not_two code) (S.variants variants.now).refuses)) true R.buffers
            self.old self.new e) }
        ensures ended { OnErr result (IsTrue self.new.ended) }
    {
        let inner = match self.open_list() {
            Ok(inner) => inner,
            Err(e) => return Err(e),
        };
        if inner.left != 2 {
            self.stop();
            return Err(not_two(code));
        }
        match self.read_pair(alloc, inner, variants) {
            Ok(value) => Ok(value),
            Err(e) => Err(e),
        }
    }

    /// The key and what its variant holds, out of what was opened.
    fn read_pair<S: Variants<R>>(
        &mut self,
        alloc: Global,
        inner: Open,
        variants: &S,
    ) -> Result<S::Value, Error>
    where
        S::Value: Drop,
        requires two { inner.left ≡ 2 }
        requires plain { Plain (at_open self.old inner) }
        ensures ok { IfOk result (λ v. PairRead (S.variants variants.now) v
            (at_open self.old inner) self.new) }
        ensures err { IfErr result (λ e. PairRefused (S.variants variants.now) R.buffers
            (at_open self.old inner) self.new e) }
        ensures ended { OnErr result (IsTrue self.new.ended) }
    {
        let mut inner = inner;
        match self.next_part::<VariantKey>(alloc, &mut inner) {
            Ok(Some(key)) => match variants.held(alloc, key, self) {
                Ok(value) => {
                    inner.left = 0;
                    match self.close(inner) {
                        Ok(()) => Ok(value),
                        Err(e) => Err(e),
                    }
                }
                Err(e) => {
                    self.stop();
                    Err(e)
                }
            },
            // two parts aren't none
            Ok(None) => Err(Error::InvalidLength),
            Err(e) => Err(e),
        }
    }
}

/// Reads an enum: `read_variants!(de, alloc, { Point, Circle(u32), Square { x: u32, y: u32 } })`
/// calls `Deserializer::deserialize_variants_as` with all its variants in their order, which gives
/// their indexes, each with the types of its fields. A variant without fields is its key alone; a
/// single field in parentheses stands behind the key; any others, of which there are four at most,
/// stand there as a list. The enum's name may stand before them.
#[macro_export]
macro_rules! read_variants {
    ($de:expr, $alloc:expr, $($name:ident)? { $($variants:tt)+ } $(,)?) => {
        $de.deserialize_variants_as($alloc, $crate::read_variants!(@row $($variants)+,))
    };
    (@row $(,)?) => { () };
    (@row $variant:ident, $($rest:tt)*) => {
        $crate::EnumVariant {
            name: stringify!($variant),
            payload: $crate::Unit,
            rest: $crate::read_variants!(@row $($rest)*),
        }
    };
    (@row $variant:ident($held:ty $(,)?), $($rest:tt)*) => {
        $crate::EnumVariant {
            name: stringify!($variant),
            payload: $crate::Newtype(std::marker::PhantomData::<$held>),
            rest: $crate::read_variants!(@row $($rest)*),
        }
    };
    (@row $variant:ident($($held:ty),+ $(,)?), $($rest:tt)*) => {
        $crate::EnumVariant {
            name: stringify!($variant),
            payload: $crate::Newtype(std::marker::PhantomData::<($($held,)+)>),
            rest: $crate::read_variants!(@row $($rest)*),
        }
    };
    (@row $variant:ident { $($field:ident: $held:ty),+ $(,)? }, $($rest:tt)*) => {
        $crate::EnumVariant {
            name: stringify!($variant),
            payload: $crate::Newtype(std::marker::PhantomData::<($($held,)+)>),
            rest: $crate::read_variants!(@row $($rest)*),
        }
    };
}
