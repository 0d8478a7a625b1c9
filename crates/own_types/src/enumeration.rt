//! An enum with each kind of variant.

ghost use Rattle.std.specs.Prelude.{codes, refl};
ghost use Rattle.amqp_base.specs.Enums.{enum_of, unit, holding, no_variant, ◌or◌};
ghost use Rattle.amqp_base.specs.declared.one_of.OneOf.TheVariants.{This, Other};

use serde_amqp::de::{FromVariant, NoVariant, OneOf};
use serde_amqp::{
    Deserialize, Deserializer, Error, NeverNull, Read, RoundTrip, Serialize, Serializer, Sink,
    Typed, read_variants, variant_of, write_variants,
};
use std::alloc::Global;

/// Nothing, a number, three values, or two under names.
#[derive(Drop)]
pub enum Enumeration {
    /// Nothing.
    UnitVariant,
    /// A number.
    NewTypeVariant(u32),
    /// Three values.
    TupleVariant(bool, u64, String),
    /// Two values under names.
    StructVariant {
        /// A number.
        id: u32,
        /// Whether something is so.
        is_true: bool,
    },
}

impl Typed for Enumeration {
    ghost meaning = { enum_of (
        unit (codes "UnitVariant") or
        holding (codes "NewTypeVariant") ⟦<u32 as Typed>⟧.meaning or
        holding (codes "TupleVariant") ⟦<(bool, u64, String) as Typed>⟧.meaning or
        holding (codes "StructVariant") ⟦<(u32, bool) as Typed>⟧.meaning or
        no_variant) ⟦<Enumeration as FromVariant>⟧.which };
}

impl FromVariant for Enumeration {
    ghost use Rattle.own_types.specs.declared.enumeration.Enumeration.TheVariants as variant;

    type Found = OneOf<(), OneOf<u32, OneOf<(bool, u64, String), OneOf<(u32, bool), NoVariant>>>>;

    ghost which = { elim [
      | variant.UnitVariant ↦ This tt
      | variant.NewTypeVariant n ↦ Other (This n)
      | variant.TupleVariant a b c ↦ Other (Other (This (a, b, c)))
      | variant.StructVariant a b ↦ Other (Other (Other (This (a, b))))
    ] };

    fn from_variant(found: Self::Found) -> Enumeration {
        variant_of!(found, Enumeration {
            UnitVariant, NewTypeVariant(value),
            TupleVariant(a, b, c), StructVariant { id, is_true },
        })
    }
}

impl RoundTrip for Enumeration {
    ghost reads_back = { refl };
}

impl NeverNull for Enumeration {
    ghost never_null = { refl };
}

impl Serialize for Enumeration {
    fn serialize<W: Sink>(&self, alloc: Global, ser: &mut Serializer<W>) -> Result<(), Error> {
        write_variants!(ser, alloc, self, Enumeration {
            UnitVariant,
            NewTypeVariant(value),
            TupleVariant(a, b, c),
            StructVariant { id, is_true },
        })
    }
}

impl<R: Read> Deserialize<R> for Enumeration {
    fn deserialize(alloc: Global, de: &mut Deserializer<R>) -> Result<Enumeration, Error> {
        read_variants!(de, alloc, {
            UnitVariant,
            NewTypeVariant(u32),
            TupleVariant(bool, u64, String),
            StructVariant { id: u32, is_true: bool },
        })
    }
}
