//! Writing.

pub use crate::{serialized_size, to_vec, to_writer};
pub use amqp_ser::{
    MapSerializer, SeqSerializer, Serialize, Serializer, StructSerializer, TupleSerializer,
    TupleStructSerializer, VariantSerializer,
};

/// Writes a struct behind a descriptor by its fields, as a map from their names:
/// `write_described_map!(ser, alloc, self, &Descriptor::Code(0x74), Shipment { order, note })`
/// calls `Serializer::serialize_described_fields` with the fields of `self` in this order, under
/// their own names or the one that follows a field: `Shipment { order: "order-number", note }`.
#[macro_export]
macro_rules! write_described_map {
    ($ser:expr, $alloc:expr, $of:expr, $descriptor:expr, $name:ident {
        $($field:ident $(: $key:literal)?),* $(,)?
    } $(,)?) => {
        $ser.serialize_described_fields($alloc, $descriptor, &$crate::Struct {
            name: $crate::DESCRIBED_MAP,
            fields: $crate::write_fields!(@fields $of; $($field $(: $key)?),*),
        })
    };
}
