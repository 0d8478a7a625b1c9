//! A struct with a lifetime: what it holds stands in the bytes that were read (part 5, section
//! 5.3.3.2).

ghost use Rattle.std.specs.Prelude.{◌∷◌, [], codes, refl};
ghost use Rattle.amqp_base.specs.Item.{code};
ghost use Rattle.amqp_base.specs.Describing.{described_list_of, just};
ghost use Rattle.amqp_base.specs.Meaning.{row_of, at};

use serde_amqp::primitives::{BinaryRef, SymbolRef};
use serde_amqp::{
    Descriptor, Deserialize, Deserializer, Error, NeverNull, RoundTrip, Serialize, Serializer,
    Sink, SliceReader, Typed, read_described, write_described,
};
use std::alloc::Global;

/// What a client sends once it chose a SASL mechanism: a list of these behind the descriptor 0x41,
/// of which the last may be left out.
#[derive(Drop)]
pub struct SaslInit<'a> {
    /// The mechanism that was chosen.
    pub mechanism: SymbolRef<'a>,
    /// What is sent to the server first.
    pub initial_response: Option<BinaryRef<'a>>,
    /// The host that it means to reach, which is kept in memory of its own.
    pub hostname: Option<String>,
}

impl<'a> Typed for SaslInit<'a> {
    ghost meaning = { described_list_of (just (code 0x41)) (row_of (
        at (codes "mechanism") ⟦<SymbolRef<'a> as Typed>⟧.meaning (λ v. v.mechanism) ∷
        at (codes "initial_response") ⟦<Option<BinaryRef<'a>> as Typed>⟧.meaning
        (λ v. v.initial_response) ∷
        at (codes "hostname") ⟦<Option<String> as Typed>⟧.meaning (λ v. v.hostname) ∷ [])) };
}

impl RoundTrip for SaslInit<'_> {
    ghost reads_back = { refl };
}

impl NeverNull for SaslInit<'_> {
    ghost never_null = { refl };
}

impl Serialize for SaslInit<'_> {
    fn serialize<W: Sink>(&self, alloc: Global, ser: &mut Serializer<W>) -> Result<(), Error> {
        write_described!(
            ser,
            alloc,
            self,
            &Descriptor::Code(0x41),
            SaslInit {
                mechanism,
                initial_response,
                hostname
            }
        )
    }
}

impl<'s> Deserialize<SliceReader<'s>> for SaslInit<'s> {
    fn deserialize(
        alloc: Global,
        de: &mut Deserializer<SliceReader<'s>>,
    ) -> Result<SaslInit<'s>, Error> {
        read_described!(
            de,
            alloc,
            &Descriptor::Code(0x41),
            SaslInit {
                mechanism,
                initial_response,
                hostname
            }
        )
    }
}
