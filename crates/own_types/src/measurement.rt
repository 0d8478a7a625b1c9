//! A struct that is a list alone.

ghost use Rattle.std.specs.Prelude.{◌∷◌, [], refl};
ghost use Rattle.amqp_base.specs.Meaning.{tuple_of, row_of, part};

use serde_amqp::{
    Deserialize, Deserializer, Error, NeverNull, Read, RoundTrip, Serialize, Serializer, Sink,
    Typed, read_parts,
};
use std::alloc::Global;

/// An amount and its unit, as a list of the two.
#[derive(Drop)]
pub struct Measurement {
    /// How many units.
    pub amount: u32,
    /// The name of the unit.
    pub unit: String,
}

impl Typed for Measurement {
    ghost meaning = { tuple_of 2 (row_of (
        part ⟦<u32 as Typed>⟧.meaning (λ v. v.amount) ∷
        part ⟦<String as Typed>⟧.meaning (λ v. v.unit) ∷ [])) };
}

impl RoundTrip for Measurement {
    ghost reads_back = { refl };
}

impl NeverNull for Measurement {
    ghost never_null = { refl };
}

impl Serialize for Measurement {
    fn serialize<W: Sink>(&self, alloc: Global, ser: &mut Serializer<W>) -> Result<(), Error> {
        let mut parts = ser.serialize_tuple(alloc, 2)?;
        parts.serialize_element(alloc, &self.amount)?;
        parts.serialize_element(alloc, &self.unit)?;
        parts.end()
    }
}

impl<R: Read> Deserialize<R> for Measurement {
    fn deserialize(alloc: Global, de: &mut Deserializer<R>) -> Result<Measurement, Error> {
        read_parts!(de, alloc, Measurement { amount, unit })
    }
}
