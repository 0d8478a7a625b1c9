//! A filter of a source (part 3, section 3.5.8): a value under a descriptor that is a name.

ghost use Rattle.std.specs.Prelude.{codes, refl};
ghost use Rattle.amqp_base.specs.Describing.{just};
ghost use Rattle.amqp_base.specs.Item.{name};
ghost use Rattle.amqp_de.specs.DescribedValues.{described_value_of};

use serde_amqp::primitives::{Symbol, SymbolRef};
use serde_amqp::{
    Descriptor, Deserialize, Deserializer, Error, NeverNull, Read, RoundTrip, Serialize,
    Serializer, Sink, Typed,
};
use std::alloc::Global;

/// Which messages are wanted, in the words of a selector.
#[derive(Drop)]
pub struct Selector(pub String);

impl Typed for Selector {
    ghost meaning = { described_value_of (just (name (codes "apache.org:selector-filter:string")))
        ⟦<String as Typed>⟧.meaning (λ v. v.0) };
}

impl RoundTrip for Selector {
    ghost reads_back = { refl };
}

impl NeverNull for Selector {
    ghost never_null = { refl };
}

impl Serialize for Selector {
    fn serialize<W: Sink>(&self, alloc: Global, ser: &mut Serializer<W>) -> Result<(), Error> {
        match Symbol::from_str(alloc, "apache.org:selector-filter:string") {
            Ok(name) => match ser.serialize_described(alloc, &Descriptor::Name(name), &self.0) {
                Ok(()) => Ok(()),
                Err(e) => Err(e),
            },
            Err(e) => Err(e),
        }
    }
}

impl<R: Read> Deserialize<R> for Selector {
    fn deserialize(alloc: Global, de: &mut Deserializer<R>) -> Result<Selector, Error> {
        let name = SymbolRef("apache.org:selector-filter:string");
        Ok(Selector(de.deserialize_described(alloc, &name)?))
    }
}
