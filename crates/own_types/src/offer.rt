//! A struct with arrays beside a list.

ghost use Rattle.std.specs.Prelude.{◌∷◌, [], codes, refl};
ghost use Rattle.amqp_base.specs.Meaning.{struct_of, row_of, at};

use serde_amqp::primitives::{Array, Symbol};
use serde_amqp::{
    Deserialize, Deserializer, Error, NeverNull, Read, RoundTrip, Serialize, Serializer, Sink,
    Typed, read_fields, write_fields,
};
use std::alloc::Global;

/// What a peer offers: channels and capabilities, as arrays, and its limits, as a list.
#[derive(Drop)]
pub struct Offer {
    /// The numbers of its channels.
    pub channels: Array<u32>,
    /// The names of what it can do.
    pub capabilities: Array<Symbol>,
    /// Its limits.
    pub limits: Vec<i32>,
}

impl Typed for Offer {
    ghost meaning = { struct_of (row_of (
        at (codes "channels") ⟦<Array<u32> as Typed>⟧.meaning (λ v. v.channels) ∷
        at (codes "capabilities") ⟦<Array<Symbol> as Typed>⟧.meaning (λ v. v.capabilities) ∷
        at (codes "limits") ⟦<Vec<i32> as Typed>⟧.meaning (λ v. v.limits) ∷ [])) };
}

impl RoundTrip for Offer {
    ghost reads_back = { refl };
}

impl NeverNull for Offer {
    ghost never_null = { refl };
}

impl Serialize for Offer {
    fn serialize<W: Sink>(&self, alloc: Global, ser: &mut Serializer<W>) -> Result<(), Error> {
        write_fields!(
            ser,
            alloc,
            self,
            Offer {
                channels,
                capabilities,
                limits
            }
        )
    }
}

impl<R: Read> Deserialize<R> for Offer {
    fn deserialize(alloc: Global, de: &mut Deserializer<R>) -> Result<Offer, Error> {
        read_fields!(
            de,
            alloc,
            Offer {
                channels,
                capabilities,
                limits
            }
        )
    }
}
