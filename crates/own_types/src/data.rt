//! A section of a message: a value under a descriptor (part 3, section 3.2.6).

ghost use Rattle.std.specs.Prelude.{codes, refl};
ghost use Rattle.amqp_base.specs.Describing.{code_or_name};
ghost use Rattle.amqp_de.specs.DescribedValues.{described_value_of};

use serde_amqp::primitives::Binary;
use serde_amqp::{
    CodeOrName, Descriptor, Deserialize, Deserializer, Error, NeverNull, Read, RoundTrip,
    Serialize, Serializer, Sink, Typed,
};
use std::alloc::Global;

/// The bytes that a message carries: a binary behind the descriptor 0x75.
#[derive(Drop)]
pub struct Data(pub Binary);

impl Typed for Data {
    ghost meaning = { described_value_of (code_or_name 0x75 (codes "amqp:data:binary"))
        ⟦<Binary as Typed>⟧.meaning (λ v. v.0) };
}

impl RoundTrip for Data {
    ghost reads_back = { refl };
}

impl NeverNull for Data {
    ghost never_null = { refl };
}

impl Serialize for Data {
    fn serialize<W: Sink>(&self, alloc: Global, ser: &mut Serializer<W>) -> Result<(), Error> {
        ser.serialize_described(alloc, &Descriptor::Code(0x75), &self.0)
    }
}

impl<R: Read> Deserialize<R> for Data {
    fn deserialize(alloc: Global, de: &mut Deserializer<R>) -> Result<Data, Error> {
        Ok(Data(de.deserialize_described(alloc, &CodeOrName(0x75, "amqp:data:binary"))?))
    }
}
