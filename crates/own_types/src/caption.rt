//! A struct that passes over what it has no use for.

ghost use Rattle.std.specs.Prelude.{◌∷◌, [], codes};
ghost use Rattle.amqp_base.specs.Meaning.{struct_of, row_of, at};

use serde_amqp::primitives::Symbol;
use serde_amqp::{Deserialize, Deserializer, Error, Ignored, Read, Typed, read_fields};
use std::alloc::Global;
use std::collections::BTreeMap;

/// What is said of a picture: its title, and by which tags it is found. The picture itself, and
/// what its tags hold, is passed over, whatever it is.
#[derive(Drop)]
pub struct Caption {
    /// The title.
    pub title: String,
    /// The picture.
    pub picture: Ignored,
    /// The tags.
    pub tags: BTreeMap<Symbol, Ignored>,
}

impl Typed for Caption {
    ghost meaning = { struct_of (row_of (
        at (codes "title") ⟦<String as Typed>⟧.meaning (λ v. v.title) ∷
        at (codes "picture") ⟦<Ignored as Typed>⟧.meaning (λ v. v.picture) ∷
        at (codes "tags") ⟦<BTreeMap<Symbol, Ignored> as Typed>⟧.meaning (λ v. v.tags) ∷
        [])) };
}

impl<R: Read> Deserialize<R> for Caption {
    fn deserialize(alloc: Global, de: &mut Deserializer<R>) -> Result<Caption, Error> {
        read_fields!(
            de,
            alloc,
            Caption {
                title,
                picture,
                tags
            }
        )
    }
}
