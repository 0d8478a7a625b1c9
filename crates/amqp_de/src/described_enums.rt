//! Enums whose variants stand behind descriptors of their own, by which they are told.

ghost use Rattle.std.specs.Prelude.{◌≡◌, true, false, IsTrue, IfOk, IfErr, codes};
ghost use Rattle.amqp_base.specs.Codes.{Kind, row};
ghost use Rattle.amqp_base.specs.Describing.{is_described, undescribed};
ghost use Rattle.amqp_base.specs.Refusals.{IsCustom};
ghost use Rattle.amqp_base.specs.declared.error.Error.TheVariants.{InvalidFormatCode};
ghost use Rattle.amqp_de.specs.DescribedEnums.{none_behind, first_behind};
ghost use Rattle.amqp_de.specs.DescribedEnums.{BehindRead, BehindRefused, BehindNamed};
ghost use Rattle.amqp_de.specs.DescribedEnums.{DescribedRead, DescribedRefused, DescribedNamed};
ghost use Rattle.amqp_de.specs.Identifies.{ShowsDescribed};
ghost use Rattle.amqp_de.specs.Law.{Missed, Named};
ghost use Rattle.amqp_de.specs.Steps.{Stops};
ghost use Rattle.amqp_types.specs.Descriptors.{descriptor_of};

use crate::{DescriptorSet, Deserialize, Deserializer, FromVariant};
use amqp_base::{EncodingCodes, Error, NoVariant, OneOf};
use amqp_read::Read;
use amqp_types::Descriptor;
use std::alloc::Global;
use std::marker::PhantomData;

/// The variants of an enum that is told by descriptor: a `DescribedVariant` and the variants behind
/// it, and `()` behind the last.
// Neither it nor its values are bound to be let go, as those of `Fields` aren't.
pub trait DescribedVariants<R: Read> {
    ghost use Rattle.amqp_de.specs.DescribedEnums.{VariantsBehind};

    /// Which of them it is, with what it holds: the first or one of those behind it.
    type Value;

    /// What is read of them.
    ghost variants: { Self → VariantsBehind Self.Value };

    /// Reads the item that stands next, whose descriptor is this one.
    ///
    /// A `Message` where no variant has this descriptor, else the refusals of what the variant
    /// holds.
    fn behind(
        &self,
        alloc: Global,
        descriptor: &Descriptor,
        de: &mut Deserializer<R>,
    ) -> Result<Self::Value, Error>
        ensures ok { IfOk result (λ v. BehindRead (variants self.now)
            (descriptor_of descriptor.now) v de.old de.new) }
        ensures err { IfErr result (λ e. BehindRefused (variants self.now)
            (descriptor_of descriptor.now) R.buffers de.old de.new e) }
        ensures named { IfErr result (λ e. BehindNamed (variants self.now)
            (descriptor_of descriptor.now) R.buffers de.old de.new e) };
}

/// No variant has the descriptor.
fn unknown(alloc: Global) -> Error
    ensures { IsCustom (codes "unknown descriptor") result }
{
    Error::custom(alloc, "unknown descriptor")
}

impl<R: Read> DescribedVariants<R> for () {
    type Value = NoVariant;

    ghost variants = { λ _. none_behind };

    fn behind(
        &self,
        alloc: Global,
        descriptor: &Descriptor,
        de: &mut Deserializer<R>,
    ) -> Result<NoVariant, Error> {
        let _ = descriptor;
        let _ = &de;
        Err(unknown(alloc))
    }
}

/// A variant under its descriptor, which holds a `T` that is read behind it, and the variants
/// behind it.
#[derive(Drop)]
pub struct DescribedVariant<'d, D, T, Rest> {
    /// Its descriptor, or those that it is read behind.
    pub descriptor: &'d D,
    /// What it holds.
    pub held: PhantomData<T>,
    /// The variants behind it.
    pub rest: Rest,
}

impl<
    'd,
    R: Read,
    D: DescriptorSet,
    T: Deserialize<R>,
    Rest: DescribedVariants<R>,
> DescribedVariants<R> for DescribedVariant<'d, D, T, Rest> {
    type Value = OneOf<T, Rest::Value>;

    ghost variants = { λ v. first_behind (D.among v.descriptor.now) T.meaning
        (Rest.variants v.rest) };

    #[inline(always)]
    fn behind(
        &self,
        alloc: Global,
        descriptor: &Descriptor,
        de: &mut Deserializer<R>,
    ) -> Result<OneOf<T, Rest::Value>, Error> {
        if self.descriptor.contains(descriptor) {
            return match T::deserialize(alloc, de) {
                Ok(value) => Ok(OneOf::This(value)),
                Err(e) => Err(e),
            };
        }
        match self.rest.behind(alloc, descriptor, de) {
            Ok(other) => Ok(OneOf::Other(other)),
            Err(e) => Err(e),
        }
    }
}

/// Whether a code is that of a described item.
#[inline(always)]
pub(crate) fn is_described(code: EncodingCodes) -> bool
    ensures yes { IsTrue result → (row code).kind ≡ Kind.described }
    ensures no { result ≡ false → (row code).kind ≡ Kind.described → ⊥ }
{
    match code {
        EncodingCodes::DescribedType => true,
        _ => false,
    }
}

impl<R: Read> Deserializer<R> {
    /// The descriptor of the next item, all of which stays.
    fn peek_descriptor(&mut self, alloc: Global) -> Result<Descriptor, Error>
        ensures ok { IfOk result (λ d. ShowsDescribed (descriptor_of d) self.old self.new) }
        ensures err { IfErr result (λ e. Missed is_described true R.buffers self.old self.new e) }
        ensures named { IfErr result (λ e. Named undescribed true R.buffers self.old self.new e) }
        ensures stops { Stops self.old result self.new }
    {
        match self.deserialize_any() {
            Ok(code) => match code {
                EncodingCodes::DescribedType => match self.look_descriptor(alloc) {
                    Ok(descriptor) => Ok(descriptor),
                    Err(e) => Err(e),
                },
                _ => {
                    self.stop();
                    Err(Error::InvalidFormatCode)
                }
            },
            Err(e) => Err(e),
        }
    }

    /// Reads an enum whose variants are told by descriptor (part 1, section 1.2): the descriptor of
    /// the next item is looked at and stays, then the whole item is read as what its variant holds.
    ///
    /// In this order: `Io(UnexpectedEof)` where there is no byte, `InvalidFormatCode` where an item
    /// stands that isn't described, and of the descriptor `Io(UnexpectedEof)` where bytes of it are
    /// missing, `InvalidFormatCode` where it is neither a symbol nor an ulong,
    /// `InvalidUtf8Encoding` where it is a symbol that isn't UTF-8, `Message` where no variant has
    /// it; then the refusals of what its variant holds. `OutOfMemory`: there is no memory for a
    /// symbol. A refusal ends the deserializer.
    #[inline(always)]
    pub fn deserialize_described_enum<S: DescribedVariants<R> + Drop>(
        &mut self,
        alloc: Global,
        variants: S,
    ) -> Result<S::Value, Error>
        ensures ok { IfOk result (λ v. DescribedRead (S.variants variants) v self.old self.new) }
        ensures err { IfErr result (λ e. DescribedRefused (S.variants variants) R.buffers
            self.old self.new e) }
        ensures named { IfErr result (λ e. DescribedNamed (S.variants variants) R.buffers
            self.old self.new e) }
        ensures stops { Stops self.old result self.new }
    {
        match self.peek_descriptor(alloc) {
            Ok(descriptor) => match variants.behind(alloc, &descriptor, self) {
                Ok(value) => Ok(value),
                Err(e) => {
                    self.stop();
                    Err(e)
                }
            },
            Err(e) => Err(e),
        }
    }

    /// Reads an enum whose variants are told by descriptor, as `deserialize_described_enum` does,
    /// and answers the value that is the variant which was read.
    #[inline(always)]
    pub fn deserialize_described_enum_as<
        T: FromVariant,
        S: DescribedVariants<R, Value = T::Found> + Drop,
    >(&mut self, alloc: Global, variants: S) -> Result<T, Error>
        ensures ok { IfOk result (λ v. DescribedRead (S.variants variants) (T.which v)
            self.old self.new) }
        ensures err { IfErr result (λ e. DescribedRefused (S.variants variants) R.buffers
            self.old self.new e) }
        ensures named { IfErr result (λ e. DescribedNamed (S.variants variants) R.buffers
            self.old self.new e) }
        ensures stops { Stops self.old result self.new }
    {
        match self.deserialize_described_enum(alloc, variants) {
            Ok(found) => Ok(T::from_variant(found)),
            Err(e) => Err(e),
        }
    }
}

/// Reads an enum by its descriptors: `read_described_enum!(de, alloc, { &Descriptor::Code(0x70) =>
/// Header, &CodeOrName(0x75, "amqp:data:binary") => Data })` calls
/// `Deserializer::deserialize_described_enum_as` with all its variants in their order, each with
/// its descriptor, or its code and its name, and the type that it holds, which is read behind it.
#[macro_export]
macro_rules! read_described_enum {
    ($de:expr, $alloc:expr, { $($descriptor:expr => $held:ty),+ $(,)? } $(,)?) => {
        $de.deserialize_described_enum_as(
            $alloc,
            $crate::read_described_enum!(@row $($descriptor => $held,)+),
        )
    };
    (@row) => { () };
    (@row $descriptor:expr => $held:ty, $($rest:tt)*) => {
        $crate::DescribedVariant {
            descriptor: $descriptor,
            held: std::marker::PhantomData::<$held>,
            rest: $crate::read_described_enum!(@row $($rest)*),
        }
    };
}
