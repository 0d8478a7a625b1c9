//! A tuple struct.

ghost use Rattle.std.specs.Prelude.{◌∷◌, [], refl};
ghost use Rattle.amqp_base.specs.Meaning.{tuple_of, row_of, part};

use serde_amqp::{
    Deserialize, Deserializer, Error, NeverNull, Read, RoundTrip, Serialize, Serializer, Sink,
    Typed, write_parts,
};
use std::alloc::Global;

/// Red, green and blue, as a list of the three.
#[derive(Drop)]
pub struct Colour(pub u8, pub u8, pub u8);

impl Typed for Colour {
    ghost meaning = { tuple_of 3 (row_of (
        part ⟦<u8 as Typed>⟧.meaning (λ v. v.0) ∷
        part ⟦<u8 as Typed>⟧.meaning (λ v. v.1) ∷
        part ⟦<u8 as Typed>⟧.meaning (λ v. v.2) ∷ [])) };
}

impl RoundTrip for Colour {
    ghost reads_back = { refl };
}

impl NeverNull for Colour {
    ghost never_null = { refl };
}

impl Serialize for Colour {
    fn serialize<W: Sink>(&self, alloc: Global, ser: &mut Serializer<W>) -> Result<(), Error> {
        write_parts!(ser, alloc, self, Colour { 0, 1, 2 })
    }
}

impl<R: Read> Deserialize<R> for Colour {
    fn deserialize(alloc: Global, de: &mut Deserializer<R>) -> Result<Colour, Error> {
        let (red, green, blue) = <(u8, u8, u8)>::deserialize(alloc, de)?;
        Ok(Colour(red, green, blue))
    }
}
