//! The properties of a message (part 3, section 3.2.4): a struct of thirteen fields under a
//! descriptor, each of which may be left out.

ghost use Rattle.std.specs.Prelude.{◌∷◌, [], codes, refl};
ghost use Rattle.amqp_base.specs.Item.{code};
ghost use Rattle.amqp_base.specs.Describing.{described_list_of, just};
ghost use Rattle.amqp_base.specs.Meaning.{row_of, at};

use serde_amqp::primitives::{Binary, Symbol, Timestamp};
use serde_amqp::{
    Descriptor, Deserialize, Deserializer, Error, NeverNull, Read, RoundTrip, Serialize,
    Serializer, Sink, Typed, read_described, write_described,
};
use std::alloc::Global;

/// What is said of a message: a list of these behind the descriptor 0x73, of which the last may be
/// left out.
#[derive(Drop)]
pub struct Properties {
    /// Which message it is, where that is told by a number.
    pub message_id: Option<u64>,
    /// Who made it.
    pub user_id: Option<Binary>,
    /// The address of the node that it is for.
    pub to: Option<String>,
    /// What it is about.
    pub subject: Option<String>,
    /// The address of the node that answers are for.
    pub reply_to: Option<String>,
    /// Which message it answers, where that is told by a number.
    pub correlation_id: Option<u64>,
    /// The kind of its content.
    pub content_type: Option<Symbol>,
    /// How its content is encoded besides.
    pub content_encoding: Option<Symbol>,
    /// When nobody wants it any more.
    pub absolute_expiry_time: Option<Timestamp>,
    /// When it was made.
    pub creation_time: Option<Timestamp>,
    /// The group that it belongs to.
    pub group_id: Option<String>,
    /// Its place in that group.
    pub group_sequence: Option<u32>,
    /// The group that answers belong to.
    pub reply_to_group_id: Option<String>,
}

impl Typed for Properties {
    ghost meaning = { described_list_of (just (code 0x73)) (row_of (
        at (codes "message_id") ⟦<Option<u64> as Typed>⟧.meaning (λ v. v.message_id) ∷
        at (codes "user_id") ⟦<Option<Binary> as Typed>⟧.meaning (λ v. v.user_id) ∷
        at (codes "to") ⟦<Option<String> as Typed>⟧.meaning (λ v. v.to) ∷
        at (codes "subject") ⟦<Option<String> as Typed>⟧.meaning (λ v. v.subject) ∷
        at (codes "reply_to") ⟦<Option<String> as Typed>⟧.meaning (λ v. v.reply_to) ∷
        at (codes "correlation_id") ⟦<Option<u64> as Typed>⟧.meaning
        (λ v. v.correlation_id) ∷
        at (codes "content_type") ⟦<Option<Symbol> as Typed>⟧.meaning
        (λ v. v.content_type) ∷
        at (codes "content_encoding") ⟦<Option<Symbol> as Typed>⟧.meaning
        (λ v. v.content_encoding) ∷
        at (codes "absolute_expiry_time") ⟦<Option<Timestamp> as Typed>⟧.meaning
        (λ v. v.absolute_expiry_time) ∷
        at (codes "creation_time") ⟦<Option<Timestamp> as Typed>⟧.meaning
        (λ v. v.creation_time) ∷
        at (codes "group_id") ⟦<Option<String> as Typed>⟧.meaning (λ v. v.group_id) ∷
        at (codes "group_sequence") ⟦<Option<u32> as Typed>⟧.meaning
        (λ v. v.group_sequence) ∷
        at (codes "reply_to_group_id") ⟦<Option<String> as Typed>⟧.meaning
        (λ v. v.reply_to_group_id) ∷ [])) };
}

impl RoundTrip for Properties {
    ghost reads_back = { refl };
}

impl NeverNull for Properties {
    ghost never_null = { refl };
}

impl Serialize for Properties {
    fn serialize<W: Sink>(&self, alloc: Global, ser: &mut Serializer<W>) -> Result<(), Error> {
        write_described!(
            ser,
            alloc,
            self,
            &Descriptor::Code(0x73),
            Properties {
                message_id,
                user_id,
                to,
                subject,
                reply_to,
                correlation_id,
                content_type,
                content_encoding,
                absolute_expiry_time,
                creation_time,
                group_id,
                group_sequence,
                reply_to_group_id
            }
        )
    }
}

impl<R: Read> Deserialize<R> for Properties {
    fn deserialize(alloc: Global, de: &mut Deserializer<R>) -> Result<Properties, Error> {
        read_described!(
            de,
            alloc,
            &Descriptor::Code(0x73),
            Properties {
                message_id,
                user_id,
                to,
                subject,
                reply_to,
                correlation_id,
                content_type,
                content_encoding,
                absolute_expiry_time,
                creation_time,
                group_id,
                group_sequence,
                reply_to_group_id
            }
        )
    }
}
