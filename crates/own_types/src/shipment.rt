//! The application properties of a message (part 3, section 3.2.5), where their names are known: a
//! map under a descriptor.

ghost use Rattle.std.specs.Prelude.{◌∷◌, [], codes, refl};
ghost use Rattle.amqp_base.specs.Describing.{code_or_name};
ghost use Rattle.amqp_de.specs.DescribedMaps.{described_map_of, entry};
ghost use Rattle.amqp_de.specs.DescribedMaps.{as_ever, option_kept};

use serde_amqp::{
    CodeOrName, Descriptor, Deserialize, Deserializer, Error, NeverNull, Read, RoundTrip,
    Serialize, Serializer, Sink, Typed, read_described_map, write_described_map,
};
use std::alloc::Global;

/// What a message says of a shipment: a map from these names behind the descriptor 0x74.
#[derive(Drop)]
pub struct Shipment {
    /// The number of the order.
    pub order: u64,
    /// Who carries it.
    pub carrier: String,
    /// Whether it can break.
    pub fragile: bool,
    /// What else there is to say.
    pub note: Option<String>,
}

impl Typed for Shipment {
    ghost meaning = { described_map_of (
        code_or_name 0x74 (codes "amqp:application-properties:map")) (
        entry (codes "order-number") ⟦<u64 as Typed>⟧.meaning (λ v. v.order) (as_ever refl) ∷
        entry (codes "carrier") ⟦<String as Typed>⟧.meaning (λ v. v.carrier) (as_ever refl) ∷
        entry (codes "fragile") ⟦<bool as Typed>⟧.meaning (λ v. v.fragile) (as_ever refl) ∷
        entry (codes "note") ⟦<Option<String> as Typed>⟧.meaning (λ v. v.note)
        (option_kept ⟦<String as Typed>⟧.meaning (as_ever refl)) ∷ []) };
}

impl RoundTrip for Shipment {
    ghost reads_back = { refl };
}

impl NeverNull for Shipment {
    ghost never_null = { refl };
}

impl Serialize for Shipment {
    fn serialize<W: Sink>(&self, alloc: Global, ser: &mut Serializer<W>) -> Result<(), Error> {
        write_described_map!(
            ser,
            alloc,
            self,
            &Descriptor::Code(0x74),
            Shipment {
                order: "order-number",
                carrier,
                fragile,
                note
            }
        )
    }
}

impl<R: Read> Deserialize<R> for Shipment {
    fn deserialize(alloc: Global, de: &mut Deserializer<R>) -> Result<Shipment, Error> {
        read_described_map!(
            de,
            alloc,
            &CodeOrName(0x74, "amqp:application-properties:map"),
            Shipment {
                order: "order-number",
                carrier,
                fragile,
                note
            }
        )
    }
}
