//! An enum whose variants hold nothing.

ghost use Rattle.std.specs.Prelude.{codes, refl};
ghost use Rattle.amqp_base.specs.Enums.{enum_of, unit, no_variant, ◌or◌};
ghost use Rattle.amqp_base.specs.declared.one_of.OneOf.TheVariants.{This, Other};

use serde_amqp::de::{FromVariant, NoVariant, OneOf};
use serde_amqp::{
    Deserialize, Deserializer, Error, NeverNull, Read, RoundTrip, Serialize, Serializer, Sink,
    Typed, read_variants, variant_of, write_variants,
};
use std::alloc::Global;

/// Off or on.
#[derive(Drop)]
pub enum Switch {
    /// Off.
    Off,
    /// On.
    On,
}

impl Typed for Switch {
    ghost meaning = { enum_of (unit (codes "Off") or unit (codes "On") or no_variant)
        ⟦<Switch as FromVariant>⟧.which };
}

impl FromVariant for Switch {
    ghost use Rattle.own_types.specs.declared.switch.Switch.TheVariants.{Off, On};

    type Found = OneOf<(), OneOf<(), NoVariant>>;

    ghost which = { elim [ Off ↦ This tt | On ↦ Other (This tt) ] };

    fn from_variant(found: Self::Found) -> Switch {
        variant_of!(found, Switch { Off, On })
    }
}

impl RoundTrip for Switch {
    ghost reads_back = { refl };
}

impl NeverNull for Switch {
    ghost never_null = { refl };
}

impl Serialize for Switch {
    fn serialize<W: Sink>(&self, alloc: Global, ser: &mut Serializer<W>) -> Result<(), Error> {
        write_variants!(ser, alloc, self, Switch { Off, On })
    }
}

impl<R: Read> Deserialize<R> for Switch {
    fn deserialize(alloc: Global, de: &mut Deserializer<R>) -> Result<Switch, Error> {
        read_variants!(de, alloc, { Off, On })
    }
}
