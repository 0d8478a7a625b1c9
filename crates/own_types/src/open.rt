//! A performative: a struct under a descriptor, as the first of a connection (part 2, section
//! 2.7.1).

ghost use Rattle.std.specs.Prelude.{◌∷◌, [], codes, refl};
ghost use Rattle.amqp_base.specs.Describing.{code_or_name, described_list_of};
ghost use Rattle.amqp_base.specs.Meaning.{row_of, at};

use serde_amqp::{
    CodeOrName, Descriptor, Deserialize, Deserializer, Error, NeverNull, Read, RoundTrip,
    Serialize, Serializer, Sink, Typed, read_described, write_described,
};
use std::alloc::Global;

/// What a container says when it opens a connection: a list of these behind the descriptor 0x10, of
/// which the last may be left out.
#[derive(Drop)]
pub struct Open {
    /// Which container it is.
    pub container_id: String,
    /// The host that it means to reach.
    pub hostname: Option<String>,
    /// The most bytes of a frame.
    pub max_frame_size: Option<u32>,
    /// The highest number of a channel.
    pub channel_max: Option<u16>,
}

impl Typed for Open {
    ghost meaning = { described_list_of (code_or_name 0x10 (codes "amqp:open:list")) (row_of (
        at (codes "container_id") ⟦<String as Typed>⟧.meaning (λ v. v.container_id) ∷
        at (codes "hostname") ⟦<Option<String> as Typed>⟧.meaning (λ v. v.hostname) ∷
        at (codes "max_frame_size") ⟦<Option<u32> as Typed>⟧.meaning
        (λ v. v.max_frame_size) ∷
        at (codes "channel_max") ⟦<Option<u16> as Typed>⟧.meaning (λ v. v.channel_max) ∷
        [])) };
}

impl RoundTrip for Open {
    ghost reads_back = { refl };
}

impl NeverNull for Open {
    ghost never_null = { refl };
}

impl Serialize for Open {
    fn serialize<W: Sink>(&self, alloc: Global, ser: &mut Serializer<W>) -> Result<(), Error> {
        write_described!(
            ser,
            alloc,
            self,
            &Descriptor::Code(0x10),
            Open {
                container_id,
                hostname,
                max_frame_size,
                channel_max
            }
        )
    }
}

impl<R: Read> Deserialize<R> for Open {
    fn deserialize(alloc: Global, de: &mut Deserializer<R>) -> Result<Open, Error> {
        read_described!(
            de,
            alloc,
            &CodeOrName(0x10, "amqp:open:list"),
            Open {
                container_id,
                hostname,
                max_frame_size,
                channel_max
            }
        )
    }
}
