//! The sections of a message that are known here (part 3, section 3.2): an enum that is told by
//! descriptor.

ghost use Rattle.std.specs.Prelude.{codes, refl};
ghost use Rattle.amqp_base.specs.Describing.{code_or_name};
ghost use Rattle.amqp_base.specs.declared.one_of.OneOf.TheVariants.{This, Other};
ghost use Rattle.amqp_de.specs.DescribedEnums.{described_enum_of, behind, no_variant, ◌or◌};

use crate::{Data, Header, Shipment};
use serde_amqp::de::{FromVariant, NoVariant, OneOf};
use serde_amqp::{
    CodeOrName, Deserialize, Deserializer, Error, NeverNull, Read, RoundTrip, Serialize,
    Serializer, Sink, Typed, read_described_enum, variant_of,
};
use std::alloc::Global;

/// A section of a message, each behind its own descriptor.
#[derive(Drop)]
pub enum Section {
    /// How the message is to be delivered, behind 0x70.
    Header(Header),
    /// What it says of a shipment, behind 0x74.
    ApplicationProperties(Shipment),
    /// The bytes that it carries, behind 0x75.
    Data(Data),
}

impl Typed for Section {
    ghost meaning = { described_enum_of (
        behind (code_or_name 0x70 (codes "amqp:header:list"))
        ⟦<Header as Typed>⟧.meaning (λ _. refl) or
        behind (code_or_name 0x74 (codes "amqp:application-properties:map"))
        ⟦<Shipment as Typed>⟧.meaning (λ _. refl) or
        behind (code_or_name 0x75 (codes "amqp:data:binary"))
        ⟦<Data as Typed>⟧.meaning (λ _. refl) or
        no_variant) ⟦<Section as FromVariant>⟧.which };
}

impl FromVariant for Section {
    ghost use Rattle.own_types.specs.declared.section.Section.TheVariants as variant;

    type Found = OneOf<Header, OneOf<Shipment, OneOf<Data, NoVariant>>>;

    ghost which = { elim [
      | variant.Header v ↦ This v
      | variant.ApplicationProperties v ↦ Other (This v)
      | variant.Data v ↦ Other (Other (This v))
    ] };

    fn from_variant(found: Self::Found) -> Section {
        variant_of!(found, Section { Header(value), ApplicationProperties(value), Data(value) })
    }
}

impl RoundTrip for Section {
    ghost reads_back = { refl };
}

impl NeverNull for Section {
    ghost never_null = { refl };
}

impl Serialize for Section {
    fn serialize<W: Sink>(&self, alloc: Global, ser: &mut Serializer<W>) -> Result<(), Error> {
        match self {
            Section::Header(header) => header.serialize(alloc, ser),
            Section::ApplicationProperties(shipment) => shipment.serialize(alloc, ser),
            Section::Data(data) => data.serialize(alloc, ser),
        }
    }
}

impl<R: Read> Deserialize<R> for Section {
    fn deserialize(alloc: Global, de: &mut Deserializer<R>) -> Result<Section, Error> {
        read_described_enum!(de, alloc, {
            &CodeOrName(0x70, "amqp:header:list") => Header,
            &CodeOrName(0x74, "amqp:application-properties:map") => Shipment,
            &CodeOrName(0x75, "amqp:data:binary") => Data,
        })
    }
}
