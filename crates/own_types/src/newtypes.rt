//! Newtypes, each written as what it holds.

ghost use Rattle.std.specs.Prelude.{refl};
ghost use Rattle.amqp_base.specs.Meaning.{newtype_of};

use serde_amqp::{
    Deserialize, Deserializer, Error, NeverNull, Read, RoundTrip, Serialize, Serializer, Sink,
    Typed,
};
use std::alloc::Global;

/// Labels, as a list of strings.
#[derive(Drop)]
pub struct Tags(pub Vec<String>);

impl Typed for Tags {
    ghost meaning = { newtype_of ⟦<Vec<String> as Typed>⟧.meaning (λ v. v.0) };
}

impl RoundTrip for Tags {
    ghost reads_back = { refl };
}

impl NeverNull for Tags {
    ghost never_null = { refl };
}

impl Serialize for Tags {
    fn serialize<W: Sink>(&self, alloc: Global, ser: &mut Serializer<W>) -> Result<(), Error> {
        ser.serialize_newtype_struct(alloc, "Tags", &self.0)
    }
}

impl<R: Read> Deserialize<R> for Tags {
    fn deserialize(alloc: Global, de: &mut Deserializer<R>) -> Result<Tags, Error> {
        Ok(Tags(de.deserialize_newtype_struct(alloc, "Tags")?))
    }
}

/// A temperature in degrees, as an int.
#[derive(Drop)]
pub struct Celsius(pub i32);

impl Typed for Celsius {
    ghost meaning = { newtype_of ⟦<i32 as Typed>⟧.meaning (λ v. v.0) };
}

impl RoundTrip for Celsius {
    ghost reads_back = { refl };
}

impl NeverNull for Celsius {
    ghost never_null = { refl };
}

impl Serialize for Celsius {
    fn serialize<W: Sink>(&self, alloc: Global, ser: &mut Serializer<W>) -> Result<(), Error> {
        ser.serialize_i32(alloc, self.0)
    }
}

impl<R: Read> Deserialize<R> for Celsius {
    fn deserialize(_alloc: Global, de: &mut Deserializer<R>) -> Result<Celsius, Error> {
        Ok(Celsius(de.deserialize_i32()?))
    }
}
