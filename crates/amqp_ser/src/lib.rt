//! Writing values in the AMQP 1.0 encoding (OASIS AMQP 1.0 part 1, sections 1.2 to 1.6).
#![tactic(auto, unfolding(amqp_write::specs::State::stand,
// a compound that is open
crate::specs::Compound::open_as,
// one whose descriptor came
crate::specs::Staged::HasFields,
// or comes first
crate::specs::Staged::AwaitsDescriptor, crate::specs::Staged::StaysHeld,
// an enum's variant
crate::specs::Variants::HasVariant, crate::specs::Variants::EndsVariant))]

mod answer;
mod at_once;
mod compound;
mod decimals;
mod described;
mod described_structs;
mod each;
mod ending;
mod entries;
mod fields;
mod floats;
mod front;
mod map;
mod maps;
mod measured;
mod newtypes;
mod opening;
mod option;
mod paired;
mod payloads;
mod scalars;
mod seq;
mod serialize;
mod serializer;
mod signed;
mod staged;
mod structs;
mod tuple_structs;
mod tuples;
mod unsigned;
mod variants;

pub use amqp_base::DESCRIBED_LIST;
pub use amqp_write::Measure;
pub use fields::{Struct, StructFields, Written};
pub use map::MapSerializer;
pub use measured::{measure, measured_size, measured_vec, write_measured};
pub use seq::SeqSerializer;
pub use serialize::{AtOnce, Primitive, Serialize};
pub use serializer::Serializer;
pub use structs::{StructSerializer, WholeStruct};
pub use tuple_structs::TupleStructSerializer;
pub use tuples::{Part, TupleParts, TupleSerializer};
pub use variants::VariantSerializer;
