//! Values that are lent by the bytes that they are read from, by what reads them.

use crate::answer::Answer;
use crate::kind::Lent;
use crate::text::text;
use own_types::SaslInit;
use serde_amqp::{
    Array, BinaryRef, Described, Deserialize, Deserializer, OrderedMap, SliceReader, SymbolRef,
};
use std::alloc::Global;
use std::collections::BTreeMap;

/// A text or bytes.
pub(crate) fn read(
    de: &mut Deserializer<SliceReader<'_>>,
    alloc: Global,
    of: Lent,
) -> Result<Vec<u8>, Answer> {
    match of {
        Lent::Text => text(alloc, SymbolRef::deserialize(alloc, de)),
        Lent::Bytes => text(alloc, BinaryRef::deserialize(alloc, de)),
        Lent::Texts => text(alloc, <Vec<SymbolRef>>::deserialize(alloc, de)),
        Lent::ArrayOfTexts => text(alloc, <Array<SymbolRef>>::deserialize(alloc, de)),
        _ => few(de, alloc, of),
    }
}

/// An option or a tuple.
fn few(de: &mut Deserializer<SliceReader<'_>>, alloc: Global, of: Lent) -> Result<Vec<u8>, Answer> {
    match of {
        Lent::MaybeText => text(alloc, <Option<SymbolRef>>::deserialize(alloc, de)),
        Lent::TextAndBytes => text(alloc, <(SymbolRef, BinaryRef)>::deserialize(alloc, de)),
        Lent::MaybeBytes => text(alloc, <Vec<Option<BinaryRef>>>::deserialize(alloc, de)),
        _ => map(de, alloc, of),
    }
}

/// A map, a described value, or a struct.
fn map(de: &mut Deserializer<SliceReader<'_>>, alloc: Global, of: Lent) -> Result<Vec<u8>, Answer> {
    match of {
        Lent::Pairs => text(
            alloc,
            <OrderedMap<SymbolRef, BinaryRef>>::deserialize(alloc, de),
        ),
        Lent::Sorted => text(alloc, <BTreeMap<SymbolRef, u32>>::deserialize(alloc, de)),
        Lent::Described => text(alloc, <Described<SymbolRef>>::deserialize(alloc, de)),
        Lent::ArrayOfDescribed => text(
            alloc,
            <Array<Described<SymbolRef>>>::deserialize(alloc, de),
        ),
        Lent::Init => text(alloc, SaslInit::deserialize(alloc, de)),
        _ => Err(Answer::NoCase),
    }
}
