//! A struct with an option of a struct.

ghost use Rattle.std.specs.Prelude.{◌∷◌, [], codes, refl};
ghost use Rattle.amqp_base.specs.Meaning.{struct_of, row_of, at};

use crate::Sensor;
use serde_amqp::{
    Deserialize, Deserializer, Error, NeverNull, Read, RoundTrip, Serialize, Serializer, Sink,
    Typed, read_fields, write_fields,
};
use std::alloc::Global;

/// The answer to a question for a sensor.
#[derive(Drop)]
pub struct Reply {
    /// Which question it answers.
    pub question: u64,
    /// The sensor, where there is one.
    pub found: Option<Sensor>,
}

impl Typed for Reply {
    ghost meaning = { struct_of (row_of (
        at (codes "question") ⟦<u64 as Typed>⟧.meaning (λ v. v.question) ∷
        at (codes "found") ⟦<Option<Sensor> as Typed>⟧.meaning (λ v. v.found) ∷ [])) };
}

impl RoundTrip for Reply {
    ghost reads_back = { refl };
}

impl NeverNull for Reply {
    ghost never_null = { refl };
}

impl Serialize for Reply {
    fn serialize<W: Sink>(&self, alloc: Global, ser: &mut Serializer<W>) -> Result<(), Error> {
        write_fields!(ser, alloc, self, Reply { question, found })
    }
}

impl<R: Read> Deserialize<R> for Reply {
    fn deserialize(alloc: Global, de: &mut Deserializer<R>) -> Result<Reply, Error> {
        read_fields!(de, alloc, Reply { question, found })
    }
}
