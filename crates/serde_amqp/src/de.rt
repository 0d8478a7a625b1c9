//! Reading.

pub use crate::{from_reader, from_slice, from_slice_with_rest};
pub use amqp_base::{MAX_ARRAY_COUNT, NeverNull, NoVariant, OneOf, RoundTrip};
pub use amqp_de::{
    ArrayAccess, Chosen, CodeOrName, DescribedAccess, DescribedVariant, DescribedVariants,
    DescriptorSet, Deserialize, Deserializer, Ended, EnumVariant, Field, Fields, FromVariant,
    Identifier, Ignored, ListAccess, MAX_NESTED, MapAccess, Newtype, Payload, SeqAccess,
    StructAccess, Unit, VariantAccess, VariantKey, Variants,
};
