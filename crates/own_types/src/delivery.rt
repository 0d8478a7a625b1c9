//! A struct of twelve fields.

ghost use Rattle.std.specs.Prelude.{◌∷◌, [], codes, refl};
ghost use Rattle.amqp_base.specs.Meaning.{struct_of, row_of, at};

use serde_amqp::primitives::{Binary, Symbol, Timestamp, Uuid};
use serde_amqp::{
    Deserialize, Deserializer, Error, NeverNull, Read, RoundTrip, Serialize, Serializer, Sink,
    Typed, read_fields, write_fields,
};
use std::alloc::Global;

/// What is known of a delivery.
#[derive(Drop)]
pub struct Delivery {
    /// Which delivery it is.
    pub delivery_number: u32,
    /// The tag that its sender gave it.
    pub delivery_tag: Binary,
    /// The form of its message.
    pub message_format: u32,
    /// The number of its message, where it has one.
    pub message_number: Option<u64>,
    /// Whether it is settled.
    pub is_settled: bool,
    /// Whether more of it follows.
    pub more_follows: bool,
    /// When it was made.
    pub creation_time: Timestamp,
    /// When nobody wants it any more, where that is known.
    pub expiry_time: Option<Timestamp>,
    /// Who made it.
    pub user_name: String,
    /// The kind of its content.
    pub content_type: Symbol,
    /// What it answers, where it is an answer.
    pub correlation: Option<Uuid>,
    /// Where it came by.
    pub traced_nodes: Vec<String>,
}

impl Typed for Delivery {
    ghost meaning = { struct_of (row_of (
        at (codes "delivery_number") ⟦<u32 as Typed>⟧.meaning (λ v. v.delivery_number) ∷
        at (codes "delivery_tag") ⟦<Binary as Typed>⟧.meaning (λ v. v.delivery_tag) ∷
        at (codes "message_format") ⟦<u32 as Typed>⟧.meaning (λ v. v.message_format) ∷
        at (codes "message_number") ⟦<Option<u64> as Typed>⟧.meaning
        (λ v. v.message_number) ∷
        at (codes "is_settled") ⟦<bool as Typed>⟧.meaning (λ v. v.is_settled) ∷
        at (codes "more_follows") ⟦<bool as Typed>⟧.meaning (λ v. v.more_follows) ∷
        at (codes "creation_time") ⟦<Timestamp as Typed>⟧.meaning (λ v. v.creation_time) ∷
        at (codes "expiry_time") ⟦<Option<Timestamp> as Typed>⟧.meaning
        (λ v. v.expiry_time) ∷
        at (codes "user_name") ⟦<String as Typed>⟧.meaning (λ v. v.user_name) ∷
        at (codes "content_type") ⟦<Symbol as Typed>⟧.meaning (λ v. v.content_type) ∷
        at (codes "correlation") ⟦<Option<Uuid> as Typed>⟧.meaning (λ v. v.correlation) ∷
        at (codes "traced_nodes") ⟦<Vec<String> as Typed>⟧.meaning
        (λ v. v.traced_nodes) ∷ [])) };
}

impl RoundTrip for Delivery {
    ghost reads_back = { refl };
}

impl NeverNull for Delivery {
    ghost never_null = { refl };
}

impl Serialize for Delivery {
    fn serialize<W: Sink>(&self, alloc: Global, ser: &mut Serializer<W>) -> Result<(), Error> {
        write_fields!(
            ser,
            alloc,
            self,
            Delivery {
                delivery_number,
                delivery_tag,
                message_format,
                message_number,
                is_settled,
                more_follows,
                creation_time,
                expiry_time,
                user_name,
                content_type,
                correlation,
                traced_nodes
            }
        )
    }
}

impl<R: Read> Deserialize<R> for Delivery {
    fn deserialize(alloc: Global, de: &mut Deserializer<R>) -> Result<Delivery, Error> {
        read_fields!(
            de,
            alloc,
            Delivery {
                delivery_number,
                delivery_tag,
                message_format,
                message_number,
                is_settled,
                more_follows,
                creation_time,
                expiry_time,
                user_name,
                content_type,
                correlation,
                traced_nodes
            }
        )
    }
}
