//! A struct of three fields.

ghost use Rattle.std.specs.Prelude.{◌∷◌, [], codes, refl};
ghost use Rattle.amqp_base.specs.Meaning.{struct_of, row_of, at};

use serde_amqp::primitives::Symbol;
use serde_amqp::{
    Deserialize, Deserializer, Error, NeverNull, Read, RoundTrip, Serialize, Serializer, Sink,
    Typed, read_fields, write_fields,
};
use std::alloc::Global;

/// A sensor: its number, what it read, and the unit of it where it has one.
#[derive(Drop)]
pub struct Sensor {
    /// Its number.
    pub id: u32,
    /// What it read.
    pub readings: Vec<i32>,
    /// The unit of what it read.
    pub unit: Option<Symbol>,
}

impl Typed for Sensor {
    ghost meaning = { struct_of (row_of (
        at (codes "id") ⟦<u32 as Typed>⟧.meaning (λ v. v.id) ∷
        at (codes "readings") ⟦<Vec<i32> as Typed>⟧.meaning (λ v. v.readings) ∷
        at (codes "unit") ⟦<Option<Symbol> as Typed>⟧.meaning (λ v. v.unit) ∷ [])) };
}

impl RoundTrip for Sensor {
    ghost reads_back = { refl };
}

impl NeverNull for Sensor {
    ghost never_null = { refl };
}

impl Serialize for Sensor {
    fn serialize<W: Sink>(&self, alloc: Global, ser: &mut Serializer<W>) -> Result<(), Error> {
        write_fields!(ser, alloc, self, Sensor { id, readings, unit })
    }
}

impl<R: Read> Deserialize<R> for Sensor {
    fn deserialize(alloc: Global, de: &mut Deserializer<R>) -> Result<Sensor, Error> {
        read_fields!(de, alloc, Sensor { id, readings, unit })
    }
}
