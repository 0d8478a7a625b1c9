//! The states of a delivery that are known here (part 3, section 3.4): structs under a descriptor,
//! also without fields, and an enum of them.

ghost use Rattle.std.specs.Prelude.{◌∷◌, [], codes, refl};
ghost use Rattle.amqp_base.specs.Describing.{code_or_name, described_list_of};
ghost use Rattle.amqp_base.specs.Meaning.{row_of, at};
ghost use Rattle.amqp_base.specs.declared.one_of.OneOf.TheVariants.{This, Other};
ghost use Rattle.amqp_de.specs.DescribedEnums.{described_enum_of, behind, no_variant, ◌or◌};

use serde_amqp::de::{FromVariant, NoVariant, OneOf};
use serde_amqp::{
    CodeOrName, Descriptor, Deserialize, Deserializer, Error, NeverNull, Read, RoundTrip,
    Serialize, Serializer, Sink, Typed, read_described, read_described_enum, variant_of,
    write_described,
};
use std::alloc::Global;

/// So much of the delivery came: a list of the two behind the descriptor 0x23.
#[derive(Drop)]
pub struct Received {
    /// The section that comes next.
    pub section_number: u32,
    /// The byte of it that comes next.
    pub section_offset: u64,
}

impl Typed for Received {
    ghost meaning = { described_list_of (code_or_name 0x23 (codes "amqp:received:list")) (row_of (
        at (codes "section_number") ⟦<u32 as Typed>⟧.meaning (λ v. v.section_number) ∷
        at (codes "section_offset") ⟦<u64 as Typed>⟧.meaning (λ v. v.section_offset) ∷
        [])) };
}

impl RoundTrip for Received {
    ghost reads_back = { refl };
}

impl NeverNull for Received {
    ghost never_null = { refl };
}

impl Serialize for Received {
    fn serialize<W: Sink>(&self, alloc: Global, ser: &mut Serializer<W>) -> Result<(), Error> {
        write_described!(
            ser,
            alloc,
            self,
            &Descriptor::Code(0x23),
            Received {
                section_number,
                section_offset
            }
        )
    }
}

impl<R: Read> Deserialize<R> for Received {
    fn deserialize(alloc: Global, de: &mut Deserializer<R>) -> Result<Received, Error> {
        read_described!(
            de,
            alloc,
            &CodeOrName(0x23, "amqp:received:list"),
            Received {
                section_number,
                section_offset
            }
        )
    }
}

/// The delivery was taken: an empty list behind the descriptor 0x24.
#[derive(Drop)]
pub struct Accepted {}

impl Typed for Accepted {
    ghost meaning = { described_list_of (code_or_name 0x24 (codes "amqp:accepted:list"))
        (row_of []) };
}

impl RoundTrip for Accepted {
    ghost reads_back = { refl };
}

impl NeverNull for Accepted {
    ghost never_null = { refl };
}

impl Serialize for Accepted {
    fn serialize<W: Sink>(&self, alloc: Global, ser: &mut Serializer<W>) -> Result<(), Error> {
        write_described!(ser, alloc, self, &Descriptor::Code(0x24), Accepted {})
    }
}

impl<R: Read> Deserialize<R> for Accepted {
    fn deserialize(alloc: Global, de: &mut Deserializer<R>) -> Result<Accepted, Error> {
        read_described!(
            de,
            alloc,
            &CodeOrName(0x24, "amqp:accepted:list"),
            Accepted {}
        )
    }
}

/// The state of a delivery, each behind its own descriptor.
#[derive(Drop)]
pub enum DeliveryState {
    /// So much of it came, behind 0x23.
    Received(Received),
    /// It was taken, behind 0x24.
    Accepted(Accepted),
}

impl Typed for DeliveryState {
    ghost meaning = { described_enum_of (
        behind (code_or_name 0x23 (codes "amqp:received:list"))
        ⟦<Received as Typed>⟧.meaning (λ _. refl) or
        behind (code_or_name 0x24 (codes "amqp:accepted:list"))
        ⟦<Accepted as Typed>⟧.meaning (λ _. refl) or
        no_variant) ⟦<DeliveryState as FromVariant>⟧.which };
}

impl FromVariant for DeliveryState {
    ghost use Rattle.own_types.specs.declared.delivery_state.DeliveryState.TheVariants as variant;

    type Found = OneOf<Received, OneOf<Accepted, NoVariant>>;

    ghost which = { elim [
      | variant.Received v ↦ This v
      | variant.Accepted v ↦ Other (This v)
    ] };

    fn from_variant(found: Self::Found) -> DeliveryState {
        variant_of!(found, DeliveryState { Received(value), Accepted(value) })
    }
}

impl RoundTrip for DeliveryState {
    ghost reads_back = { refl };
}

impl NeverNull for DeliveryState {
    ghost never_null = { refl };
}

impl Serialize for DeliveryState {
    fn serialize<W: Sink>(&self, alloc: Global, ser: &mut Serializer<W>) -> Result<(), Error> {
        match self {
            DeliveryState::Received(received) => received.serialize(alloc, ser),
            DeliveryState::Accepted(accepted) => accepted.serialize(alloc, ser),
        }
    }
}

impl<R: Read> Deserialize<R> for DeliveryState {
    fn deserialize(alloc: Global, de: &mut Deserializer<R>) -> Result<DeliveryState, Error> {
        read_described_enum!(de, alloc, {
            &CodeOrName(0x23, "amqp:received:list") => Received,
            &CodeOrName(0x24, "amqp:accepted:list") => Accepted,
        })
    }
}
