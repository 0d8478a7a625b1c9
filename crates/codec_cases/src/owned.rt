//! Values that own what they hold, by what reads them.

use crate::answer::Answer;
use crate::kind::Owned;
use crate::text::text;
use serde_amqp::{
    Array, Binary, Dec32, Dec64, Dec128, Described, Deserialize, Deserializer, Double, Float,
    OrderedMap, Read, Symbol, Timestamp, Uuid,
};
use std::alloc::Global;
use std::collections::BTreeMap;

/// Null, a boolean, or a number without a sign.
pub(crate) fn read<R: Read>(
    de: &mut Deserializer<R>,
    alloc: Global,
    of: Owned,
) -> Result<Vec<u8>, Answer> {
    match of {
        Owned::Unit => text(alloc, <()>::deserialize(alloc, de)),
        Owned::Bool => text(alloc, bool::deserialize(alloc, de)),
        Owned::U8 => text(alloc, u8::deserialize(alloc, de)),
        Owned::U16 => text(alloc, u16::deserialize(alloc, de)),
        Owned::U32 => text(alloc, u32::deserialize(alloc, de)),
        Owned::U64 => text(alloc, u64::deserialize(alloc, de)),
        _ => signed(de, alloc, of),
    }
}

/// A number with a sign, or a character.
fn signed<R: Read>(de: &mut Deserializer<R>, alloc: Global, of: Owned) -> Result<Vec<u8>, Answer> {
    match of {
        Owned::I8 => text(alloc, i8::deserialize(alloc, de)),
        Owned::I16 => text(alloc, i16::deserialize(alloc, de)),
        Owned::I32 => text(alloc, i32::deserialize(alloc, de)),
        Owned::I64 => text(alloc, i64::deserialize(alloc, de)),
        Owned::Char => text(alloc, char::deserialize(alloc, de)),
        _ => wide(de, alloc, of),
    }
}

/// A value of a fixed width.
fn wide<R: Read>(de: &mut Deserializer<R>, alloc: Global, of: Owned) -> Result<Vec<u8>, Answer> {
    match of {
        Owned::F32 => text(alloc, Float::deserialize(alloc, de)),
        Owned::F64 => text(alloc, Double::deserialize(alloc, de)),
        Owned::Timestamp => text(alloc, Timestamp::deserialize(alloc, de)),
        Owned::Uuid => text(alloc, Uuid::deserialize(alloc, de)),
        _ => decimal(de, alloc, of),
    }
}

/// A decimal.
fn decimal<R: Read>(de: &mut Deserializer<R>, alloc: Global, of: Owned) -> Result<Vec<u8>, Answer> {
    match of {
        Owned::Dec32 => text(alloc, Dec32::deserialize(alloc, de)),
        Owned::Dec64 => text(alloc, Dec64::deserialize(alloc, de)),
        Owned::Dec128 => text(alloc, Dec128::deserialize(alloc, de)),
        _ => payload(de, alloc, of),
    }
}

/// A text or bytes.
fn payload<R: Read>(de: &mut Deserializer<R>, alloc: Global, of: Owned) -> Result<Vec<u8>, Answer> {
    match of {
        Owned::String => text(alloc, String::deserialize(alloc, de)),
        Owned::Symbol => text(alloc, Symbol::deserialize(alloc, de)),
        Owned::Binary => text(alloc, Binary::deserialize(alloc, de)),
        _ => option(de, alloc, of),
    }
}

/// A value that may be missing.
fn option<R: Read>(de: &mut Deserializer<R>, alloc: Global, of: Owned) -> Result<Vec<u8>, Answer> {
    match of {
        Owned::OptionI32 => text(alloc, <Option<i32>>::deserialize(alloc, de)),
        Owned::OptionUnit => text(alloc, <Option<()>>::deserialize(alloc, de)),
        _ => tuple(de, alloc, of),
    }
}

/// A tuple.
fn tuple<R: Read>(de: &mut Deserializer<R>, alloc: Global, of: Owned) -> Result<Vec<u8>, Answer> {
    match of {
        Owned::TupleU32 => text(alloc, <(u32,)>::deserialize(alloc, de)),
        Owned::TupleI32 => text(alloc, <(i32,)>::deserialize(alloc, de)),
        Owned::TupleU32Bool => text(alloc, <(u32, bool)>::deserialize(alloc, de)),
        Owned::TupleBoolU64String => text(alloc, <(bool, u64, String)>::deserialize(alloc, de)),
        _ => tuple_of_parts(de, alloc, of),
    }
}

/// A tuple of options, of tuples, or of four.
fn tuple_of_parts<R: Read>(
    de: &mut Deserializer<R>,
    alloc: Global,
    of: Owned,
) -> Result<Vec<u8>, Answer> {
    match of {
        Owned::TupleOfOptions => text(alloc, <(Option<i32>, Option<bool>)>::deserialize(alloc, de)),
        Owned::TupleOfTuple => text(alloc, <(u32, (i32, ()), bool)>::deserialize(alloc, de)),
        Owned::TupleOfFour => text(alloc, <((), bool, bool, u32)>::deserialize(alloc, de)),
        _ => list(de, alloc, of),
    }
}

/// A list.
fn list<R: Read>(de: &mut Deserializer<R>, alloc: Global, of: Owned) -> Result<Vec<u8>, Answer> {
    match of {
        Owned::ListI32 => text(alloc, <Vec<i32>>::deserialize(alloc, de)),
        Owned::ListU32 => text(alloc, <Vec<u32>>::deserialize(alloc, de)),
        Owned::ListUnit => text(alloc, <Vec<()>>::deserialize(alloc, de)),
        Owned::ListOptionU32 => text(alloc, <Vec<Option<u32>>>::deserialize(alloc, de)),
        Owned::ListSymbol => text(alloc, <Vec<Symbol>>::deserialize(alloc, de)),
        _ => list_of_lists(de, alloc, of),
    }
}

/// A list of lists.
fn list_of_lists<R: Read>(
    de: &mut Deserializer<R>,
    alloc: Global,
    of: Owned,
) -> Result<Vec<u8>, Answer> {
    match of {
        Owned::ListListI32 => text(alloc, <Vec<Vec<i32>>>::deserialize(alloc, de)),
        Owned::ListListU32 => text(alloc, <Vec<Vec<u32>>>::deserialize(alloc, de)),
        Owned::ListListListU32 => text(alloc, <Vec<Vec<Vec<u32>>>>::deserialize(alloc, de)),
        Owned::ListListString => text(alloc, <Vec<Vec<String>>>::deserialize(alloc, de)),
        Owned::ListArrayI32 => text(alloc, <Vec<Array<i32>>>::deserialize(alloc, de)),
        _ => array_of_unsigned(de, alloc, of),
    }
}

/// An array of booleans or numbers.
fn array_of_unsigned<R: Read>(
    de: &mut Deserializer<R>,
    alloc: Global,
    of: Owned,
) -> Result<Vec<u8>, Answer> {
    match of {
        Owned::ArrayBool => text(alloc, <Array<bool>>::deserialize(alloc, de)),
        Owned::ArrayU8 => text(alloc, <Array<u8>>::deserialize(alloc, de)),
        Owned::ArrayU16 => text(alloc, <Array<u16>>::deserialize(alloc, de)),
        Owned::ArrayU32 => text(alloc, <Array<u32>>::deserialize(alloc, de)),
        Owned::ArrayU64 => text(alloc, <Array<u64>>::deserialize(alloc, de)),
        _ => array_of_signed(de, alloc, of),
    }
}

/// An array of numbers with a sign, or characters.
fn array_of_signed<R: Read>(
    de: &mut Deserializer<R>,
    alloc: Global,
    of: Owned,
) -> Result<Vec<u8>, Answer> {
    match of {
        Owned::ArrayI8 => text(alloc, <Array<i8>>::deserialize(alloc, de)),
        Owned::ArrayI16 => text(alloc, <Array<i16>>::deserialize(alloc, de)),
        Owned::ArrayI32 => text(alloc, <Array<i32>>::deserialize(alloc, de)),
        Owned::ArrayI64 => text(alloc, <Array<i64>>::deserialize(alloc, de)),
        Owned::ArrayChar => text(alloc, <Array<char>>::deserialize(alloc, de)),
        _ => array_of_wide(de, alloc, of),
    }
}

/// An array of values of a fixed width.
fn array_of_wide<R: Read>(
    de: &mut Deserializer<R>,
    alloc: Global,
    of: Owned,
) -> Result<Vec<u8>, Answer> {
    match of {
        Owned::ArrayF32 => text(alloc, <Array<Float>>::deserialize(alloc, de)),
        Owned::ArrayF64 => text(alloc, <Array<Double>>::deserialize(alloc, de)),
        Owned::ArrayTimestamp => text(alloc, <Array<Timestamp>>::deserialize(alloc, de)),
        Owned::ArrayUuid => text(alloc, <Array<Uuid>>::deserialize(alloc, de)),
        _ => array_of_decimals(de, alloc, of),
    }
}

/// An array of decimals.
fn array_of_decimals<R: Read>(
    de: &mut Deserializer<R>,
    alloc: Global,
    of: Owned,
) -> Result<Vec<u8>, Answer> {
    match of {
        Owned::ArrayDec32 => text(alloc, <Array<Dec32>>::deserialize(alloc, de)),
        Owned::ArrayDec64 => text(alloc, <Array<Dec64>>::deserialize(alloc, de)),
        Owned::ArrayDec128 => text(alloc, <Array<Dec128>>::deserialize(alloc, de)),
        _ => array_of_payloads(de, alloc, of),
    }
}

/// An array of texts or bytes.
fn array_of_payloads<R: Read>(
    de: &mut Deserializer<R>,
    alloc: Global,
    of: Owned,
) -> Result<Vec<u8>, Answer> {
    match of {
        Owned::ArrayBinary => text(alloc, <Array<Binary>>::deserialize(alloc, de)),
        Owned::ArrayString => text(alloc, <Array<String>>::deserialize(alloc, de)),
        Owned::ArraySymbol => text(alloc, <Array<Symbol>>::deserialize(alloc, de)),
        _ => array_of_compounds(de, alloc, of),
    }
}

/// An array of lists, arrays or tuples.
fn array_of_compounds<R: Read>(
    de: &mut Deserializer<R>,
    alloc: Global,
    of: Owned,
) -> Result<Vec<u8>, Answer> {
    match of {
        Owned::ArrayListI32 => text(alloc, <Array<Vec<i32>>>::deserialize(alloc, de)),
        Owned::ArrayArrayI32 => text(alloc, <Array<Array<i32>>>::deserialize(alloc, de)),
        Owned::ArrayTuple => text(alloc, <Array<(u32, bool)>>::deserialize(alloc, de)),
        _ => array_of_maps(de, alloc, of),
    }
}

/// An array of maps.
fn array_of_maps<R: Read>(
    de: &mut Deserializer<R>,
    alloc: Global,
    of: Owned,
) -> Result<Vec<u8>, Answer> {
    match of {
        Owned::ArrayMapI32I32 => text(alloc, <Array<OrderedMap<i32, i32>>>::deserialize(alloc, de)),
        Owned::ArrayMap => text(
            alloc,
            <Array<OrderedMap<u32, bool>>>::deserialize(alloc, de),
        ),
        _ => map(de, alloc, of),
    }
}

/// A map.
fn map<R: Read>(de: &mut Deserializer<R>, alloc: Global, of: Owned) -> Result<Vec<u8>, Answer> {
    match of {
        Owned::MapStringU32 => text(alloc, <OrderedMap<String, u32>>::deserialize(alloc, de)),
        Owned::MapU32U32 => text(alloc, <OrderedMap<u32, u32>>::deserialize(alloc, de)),
        Owned::MapU32Bool => text(alloc, <OrderedMap<u32, bool>>::deserialize(alloc, de)),
        Owned::SortedU32U32 => text(alloc, <BTreeMap<u32, u32>>::deserialize(alloc, de)),
        _ => map_of_others(de, alloc, of),
    }
}

/// A map of times, texts or arrays.
fn map_of_others<R: Read>(
    de: &mut Deserializer<R>,
    alloc: Global,
    of: Owned,
) -> Result<Vec<u8>, Answer> {
    match of {
        Owned::MapTimestampString => text(
            alloc,
            <OrderedMap<Timestamp, String>>::deserialize(alloc, de),
        ),
        Owned::MapU64String => text(alloc, <OrderedMap<u64, String>>::deserialize(alloc, de)),
        Owned::MapU32Array => text(alloc, <OrderedMap<u32, Array<i32>>>::deserialize(alloc, de)),
        Owned::SortedStringI32 => text(alloc, <BTreeMap<String, i32>>::deserialize(alloc, de)),
        _ => described(de, alloc, of),
    }
}

/// A described value.
fn described<R: Read>(
    de: &mut Deserializer<R>,
    alloc: Global,
    of: Owned,
) -> Result<Vec<u8>, Answer> {
    match of {
        Owned::DescribedTuple => text(alloc, <Described<(bool, i32)>>::deserialize(alloc, de)),
        Owned::DescribedListI32 => text(alloc, <Described<Vec<i32>>>::deserialize(alloc, de)),
        Owned::DescribedUnit => text(alloc, <Described<()>>::deserialize(alloc, de)),
        Owned::DescribedTwice => text(alloc, <Described<Described<()>>>::deserialize(alloc, de)),
        _ => array_of_described(de, alloc, of),
    }
}

/// An array of described values.
fn array_of_described<R: Read>(
    de: &mut Deserializer<R>,
    alloc: Global,
    of: Owned,
) -> Result<Vec<u8>, Answer> {
    match of {
        Owned::ArrayDescribedI32 => text(alloc, <Array<Described<i32>>>::deserialize(alloc, de)),
        Owned::ArrayDescribedU32 => text(alloc, <Array<Described<u32>>>::deserialize(alloc, de)),
        Owned::ArrayDescribedArray => text(
            alloc,
            <Array<Described<Array<i32>>>>::deserialize(alloc, de),
        ),
        _ => list_of_described(de, alloc, of),
    }
}

/// A list of described values.
fn list_of_described<R: Read>(
    de: &mut Deserializer<R>,
    alloc: Global,
    of: Owned,
) -> Result<Vec<u8>, Answer> {
    match of {
        Owned::ListDescribedUnit => text(alloc, <Vec<Described<()>>>::deserialize(alloc, de)),
        Owned::ListDescribedU32 => text(alloc, <Vec<Described<u32>>>::deserialize(alloc, de)),
        _ => Err(Answer::NoCase),
    }
}
