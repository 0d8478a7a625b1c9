//! A generic struct.

ghost use Rattle.std.specs.Prelude.{◌∷◌, [], refl};
ghost use Rattle.amqp_base.specs.Meaning.{tuple_of, row_of, part};
ghost use Rattle.amqp_base.specs.ReadBack.{both};

use serde_amqp::{
    Deserialize, Deserializer, Error, NeverNull, Read, RoundTrip, Serialize, Serializer, Sink,
    Typed, read_parts, write_parts,
};
use std::alloc::Global;

/// Two values, as a list of the two.
#[derive(Drop)]
pub struct Pair<A, B> {
    /// The first value.
    pub first: A,
    /// The second value.
    pub second: B,
}

impl<A: Typed, B: Typed> Typed for Pair<A, B> {
    ghost meaning = { tuple_of 2 (row_of (
        part A.meaning (λ v. v.first) ∷
        part B.meaning (λ v. v.second) ∷ [])) };
}

impl<A: RoundTrip, B: RoundTrip> RoundTrip for Pair<A, B> {
    ghost reads_back = { both A.meaning.reads_back _ A.reads_back
        (both B.meaning.reads_back _ B.reads_back refl) };
}

impl<A: Typed, B: Typed> NeverNull for Pair<A, B> {
    ghost never_null = { refl };
}

impl<A: Serialize, B: Serialize> Serialize for Pair<A, B> {
    fn serialize<W: Sink>(&self, alloc: Global, ser: &mut Serializer<W>) -> Result<(), Error> {
        write_parts!(ser, alloc, self, Pair { first, second })
    }
}

impl<R: Read, A: Deserialize<R>, B: Deserialize<R>> Deserialize<R> for Pair<A, B> {
    fn deserialize(alloc: Global, de: &mut Deserializer<R>) -> Result<Pair<A, B>, Error> {
        read_parts!(de, alloc, Pair { first, second })
    }
}
