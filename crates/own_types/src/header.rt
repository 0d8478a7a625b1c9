//! The header of a message (part 3, section 3.2.1), as far as it is known here.

ghost use Rattle.std.specs.Prelude.{◌∷◌, [], codes, refl};
ghost use Rattle.amqp_base.specs.Describing.{code_or_name, described_list_of};
ghost use Rattle.amqp_base.specs.Meaning.{row_of, at};

use serde_amqp::{
    CodeOrName, Descriptor, Deserialize, Deserializer, Error, NeverNull, Read, RoundTrip,
    Serialize, Serializer, Sink, Typed, read_described, write_described,
};
use std::alloc::Global;

/// How a message is to be delivered: a list of these behind the descriptor 0x70, of which the last
/// may be left out.
#[derive(Drop)]
pub struct Header {
    /// Whether it outlives a fault of the node that holds it.
    pub durable: Option<bool>,
    /// Which of several messages goes first.
    pub priority: Option<u8>,
    /// How long it lives, in milliseconds.
    pub ttl: Option<u32>,
}

impl Typed for Header {
    ghost meaning = { described_list_of (code_or_name 0x70 (codes "amqp:header:list")) (row_of (
        at (codes "durable") ⟦<Option<bool> as Typed>⟧.meaning (λ v. v.durable) ∷
        at (codes "priority") ⟦<Option<u8> as Typed>⟧.meaning (λ v. v.priority) ∷
        at (codes "ttl") ⟦<Option<u32> as Typed>⟧.meaning (λ v. v.ttl) ∷ [])) };
}

impl RoundTrip for Header {
    ghost reads_back = { refl };
}

impl NeverNull for Header {
    ghost never_null = { refl };
}

impl Serialize for Header {
    fn serialize<W: Sink>(&self, alloc: Global, ser: &mut Serializer<W>) -> Result<(), Error> {
        write_described!(
            ser,
            alloc,
            self,
            &Descriptor::Code(0x70),
            Header {
                durable,
                priority,
                ttl
            }
        )
    }
}

impl<R: Read> Deserialize<R> for Header {
    fn deserialize(alloc: Global, de: &mut Deserializer<R>) -> Result<Header, Error> {
        read_described!(
            de,
            alloc,
            &CodeOrName(0x70, "amqp:header:list"),
            Header {
                durable,
                priority,
                ttl
            }
        )
    }
}
