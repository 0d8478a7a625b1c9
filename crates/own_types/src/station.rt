//! A struct of fields that hold other values.

ghost use Rattle.std.specs.Prelude.{◌∷◌, [], codes, refl};
ghost use Rattle.amqp_base.specs.Meaning.{struct_of, row_of, at};

use crate::Sensor;
use serde_amqp::primitives::{OrderedMap, Symbol};
use serde_amqp::{
    Deserialize, Deserializer, Error, NeverNull, Read, RoundTrip, Serialize, Serializer, Sink,
    Typed, read_fields, write_fields,
};
use std::alloc::Global;
use std::collections::BTreeMap;

/// A station and its sensors.
#[derive(Drop)]
pub struct Station {
    /// How high each of its platforms lies.
    pub heights: Vec<i32>,
    /// Its names.
    pub names: Vec<String>,
    /// The region where it stands.
    pub region: Option<Symbol>,
    /// How many sensors of each sort it has.
    pub counts: OrderedMap<String, u32>,
    /// When each of its sensors was looked after.
    pub visits: BTreeMap<u32, u64>,
    /// The sensor at its door.
    pub main_sensor: Sensor,
    /// Its other sensors.
    pub sensors: Vec<Sensor>,
}

impl Typed for Station {
    ghost meaning = { struct_of (row_of (
        at (codes "heights") ⟦<Vec<i32> as Typed>⟧.meaning (λ v. v.heights) ∷
        at (codes "names") ⟦<Vec<String> as Typed>⟧.meaning (λ v. v.names) ∷
        at (codes "region") ⟦<Option<Symbol> as Typed>⟧.meaning (λ v. v.region) ∷
        at (codes "counts") ⟦<OrderedMap<String, u32> as Typed>⟧.meaning (λ v. v.counts) ∷
        at (codes "visits") ⟦<BTreeMap<u32, u64> as Typed>⟧.meaning (λ v. v.visits) ∷
        at (codes "main-sensor") ⟦<Sensor as Typed>⟧.meaning (λ v. v.main_sensor) ∷
        at (codes "sensors") ⟦<Vec<Sensor> as Typed>⟧.meaning (λ v. v.sensors) ∷ [])) };
}

impl RoundTrip for Station {
    ghost reads_back = { refl };
}

impl NeverNull for Station {
    ghost never_null = { refl };
}

impl Serialize for Station {
    fn serialize<W: Sink>(&self, alloc: Global, ser: &mut Serializer<W>) -> Result<(), Error> {
        write_fields!(
            ser,
            alloc,
            self,
            Station {
                heights,
                names,
                region,
                counts,
                visits,
                main_sensor: "main-sensor",
                sensors
            }
        )
    }
}

impl<R: Read> Deserialize<R> for Station {
    fn deserialize(alloc: Global, de: &mut Deserializer<R>) -> Result<Station, Error> {
        read_fields!(
            de,
            alloc,
            Station {
                heights,
                names,
                region,
                counts,
                visits,
                main_sensor: "main-sensor",
                sensors
            }
        )
    }
}
