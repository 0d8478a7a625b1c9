//! The variants of an enum, by their keys.

ghost use Rattle.std.specs.Prelude.{◌≡◌, IfOk, IfErr, codes};
ghost use Rattle.amqp_base.specs.Refusals.{IsCustom};
ghost use Rattle.amqp_base.specs.Enums.{variant, no_variant, nothing, value_of};
ghost use Rattle.amqp_de.specs.ReadVariants.{Alone, NotAlone, HeldRead, HeldRefused, HeldNamed};
ghost use Rattle.amqp_de.specs.ReadVariants.{AloneHere, NotAloneHere, PayloadRead};
ghost use Rattle.amqp_de.specs.ReadVariants.{PayloadRefused, PayloadNamed};
ghost use Rattle.amqp_de.specs.VariantKeys.{key_view};

use crate::{Deserialize, Deserializer, VariantKey};
use amqp_base::{Error, NoVariant, OneOf};
use amqp_read::Read;
use std::alloc::Global;
use std::marker::PhantomData;

/// What a variant of an enum holds: nothing (`Unit`), or a value (`Newtype`).
pub trait Payload<R: Read> {
    ghost use Rattle.amqp_base.specs.Enums.{Payload};

    /// What is held.
    type Value;

    /// What it means.
    ghost payload: { Payload Self.Value };

    /// The variant whose key stands alone.
    ///
    /// `InvalidFormatCode` where it holds a value.
    fn alone(&self) -> Result<Self::Value, Error>
        ensures ok { IfOk result (λ v. AloneHere payload v) }
        ensures err { IfErr result (λ e. NotAloneHere payload e) };

    /// Reads what stands behind its key.
    ///
    /// `SequenceLengthMismatch` where it holds nothing, else the refusals of the value.
    fn held(&self, alloc: Global, de: &mut Deserializer<R>) -> Result<Self::Value, Error>
        ensures ok { IfOk result (λ v. PayloadRead payload v de.old de.new) }
        ensures err { IfErr result (λ e. PayloadRefused payload R.buffers de.old de.new e) }
        ensures named { IfErr result (λ e. PayloadNamed payload R.buffers de.old de.new e) };
}

/// A variant that holds nothing.
#[derive(Drop)]
pub struct Unit;

impl<R: Read> Payload<R> for Unit {
    type Value = ();

    ghost payload = { nothing };

    #[inline(always)]
    fn alone(&self) -> Result<(), Error> {
        Ok(())
    }

    #[inline(always)]
    fn held(&self, alloc: Global, de: &mut Deserializer<R>) -> Result<(), Error> {
        let _ = alloc;
        let _ = &de;
        Err(Error::SequenceLengthMismatch)
    }
}

/// A variant that holds a value: its one field, or the tuple of its fields.
#[derive(Drop)]
pub struct Newtype<T>(pub PhantomData<T>);

impl<R: Read, T: Deserialize<R>> Payload<R> for Newtype<T> {
    type Value = T;

    ghost payload = { value_of T.meaning };

    #[inline(always)]
    fn alone(&self) -> Result<T, Error> {
        Err(Error::InvalidFormatCode)
    }

    #[inline(always)]
    fn held(&self, alloc: Global, de: &mut Deserializer<R>) -> Result<T, Error> {
        match T::deserialize(alloc, de) {
            Ok(value) => Ok(value),
            Err(e) => Err(e),
        }
    }
}

/// The variants of an enum, in order: an `EnumVariant` and the variants behind it, and `()` behind
/// the last.
// Neither it nor its values are bound to be let go, as those of `Fields` aren't.
pub trait Variants<R: Read> {
    ghost use Rattle.amqp_base.specs.Enums.{Variants};

    /// Which of them it is, with what it holds: the first or one of those behind it.
    type Value;

    /// What they mean.
    ghost variants: { Self → Variants Self.Value };

    /// The variant whose key stands alone.
    ///
    /// A `Message` where no variant has this key, `InvalidFormatCode` where the variant holds a
    /// value.
    fn alone(&self, alloc: Global, key: VariantKey) -> Result<Self::Value, Error>
        ensures ok { IfOk result (λ v. Alone (variants self.now) (key_view key) v) }
        ensures err { IfErr result (λ e. NotAlone (variants self.now) (key_view key) e) };

    /// Reads what stands behind a key.
    ///
    /// A `Message` where no variant has this key, `SequenceLengthMismatch` where the variant holds
    /// nothing, else the refusals of what it holds.
    fn held(
        &self,
        alloc: Global,
        key: VariantKey,
        de: &mut Deserializer<R>,
    ) -> Result<Self::Value, Error>
        ensures ok { IfOk result (λ v. HeldRead (variants self.now) (key_view key) v
            de.old de.new) }
        ensures err { IfErr result (λ e. HeldRefused (variants self.now) (key_view key) R.buffers
            de.old de.new e) }
        ensures named { IfErr result (λ e. HeldNamed (variants self.now) (key_view key) R.buffers
            de.old de.new e) };
}

/// No variant has the key.
fn unknown(alloc: Global) -> Error
    ensures { IsCustom (codes "unknown variant") result }
{
    Error::custom(alloc, "unknown variant")
}

impl<R: Read> Variants<R> for () {
    type Value = NoVariant;

    ghost variants = { λ _. no_variant };

    fn alone(&self, alloc: Global, key: VariantKey) -> Result<NoVariant, Error> {
        let _ = key;
        Err(unknown(alloc))
    }

    fn held(
        &self,
        alloc: Global,
        key: VariantKey,
        de: &mut Deserializer<R>,
    ) -> Result<NoVariant, Error> {
        let _ = key;
        let _ = &de;
        Err(unknown(alloc))
    }
}

/// A variant under its name, and the variants behind it.
#[derive(Drop)]
pub struct EnumVariant<'n, P, Rest> {
    /// Its name.
    pub name: &'n str,
    /// What it holds.
    pub payload: P,
    /// The variants behind it.
    pub rest: Rest,
}

impl<'n, R: Read, P: Payload<R>, Rest: Variants<R>> Variants<R> for EnumVariant<'n, P, Rest> {
    type Value = OneOf<P::Value, Rest::Value>;

    ghost variants = { λ v. variant v.name.now P.payload (Rest.variants v.rest) };

    #[inline(always)]
    fn alone(&self, alloc: Global, key: VariantKey) -> Result<OneOf<P::Value, Rest::Value>, Error> {
        if key.is_first(self.name) {
            return match self.payload.alone() {
                Ok(value) => Ok(OneOf::This(value)),
                Err(e) => Err(e),
            };
        }
        match self.rest.alone(alloc, key.behind_first()) {
            Ok(other) => Ok(OneOf::Other(other)),
            Err(e) => Err(e),
        }
    }

    #[inline(always)]
    fn held(
        &self,
        alloc: Global,
        key: VariantKey,
        de: &mut Deserializer<R>,
    ) -> Result<OneOf<P::Value, Rest::Value>, Error> {
        if key.is_first(self.name) {
            return match self.payload.held(alloc, de) {
                Ok(value) => Ok(OneOf::This(value)),
                Err(e) => Err(e),
            };
        }
        match self.rest.held(alloc, key.behind_first(), de) {
            Ok(other) => Ok(OneOf::Other(other)),
            Err(e) => Err(e),
        }
    }
}

/// An enum that is made of the variant which was read.
pub trait FromVariant: Drop + Sized {
    ghost use Rattle.std.specs.Prelude.{◌≡◌};

    /// Which variant, with what it holds: a `Variants::Value`.
    type Found: Drop;

    /// Which variant a value is.
    ghost which: { Self → Self.Found };

    /// The value that is this variant.
    fn from_variant(found: Self::Found) -> Self
        ensures { which result ≡ found };
}

/// Makes an enum of the variant that was read: `variant_of!(found, Shape { Point, Circle(radius),
/// Square { x, y } })`, the body of `FromVariant::from_variant`, names all its variants in their
/// order, with the values that they hold.
#[macro_export]
macro_rules! variant_of {
    ($found:expr, $name:ident { $($variants:tt)+ } $(,)?) => {
        $crate::variant_of!(@of $found; $name; $($variants)+,)
    };
    (@of $found:expr; $name:ident; $(,)?) => { match $found {} };
    (@of $found:expr; $name:ident; $variant:ident, $($rest:tt)*) => {
        match $found {
            $crate::OneOf::This(()) => $name::$variant,
            $crate::OneOf::Other(other) => $crate::variant_of!(@of other; $name; $($rest)*),
        }
    };
    (@of $found:expr; $name:ident; $variant:ident($value:ident $(,)?), $($rest:tt)*) => {
        match $found {
            $crate::OneOf::This($value) => $name::$variant($value),
            $crate::OneOf::Other(other) => $crate::variant_of!(@of other; $name; $($rest)*),
        }
    };
    (@of $found:expr; $name:ident; $variant:ident($($value:ident),+ $(,)?), $($rest:tt)*) => {
        match $found {
            $crate::OneOf::This(($($value,)+)) => $name::$variant($($value),+),
            $crate::OneOf::Other(other) => $crate::variant_of!(@of other; $name; $($rest)*),
        }
    };
    (@of $found:expr; $name:ident; $variant:ident { $($value:ident),+ $(,)? }, $($rest:tt)*) => {
        match $found {
            $crate::OneOf::This(($($value,)+)) => $name::$variant { $($value),+ },
            $crate::OneOf::Other(other) => $crate::variant_of!(@of other; $name; $($rest)*),
        }
    };
}
