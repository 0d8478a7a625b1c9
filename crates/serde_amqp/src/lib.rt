//! AMQP 1.0 values to bytes and back, proved: the canonical text of a value is written, and every
//! text that the grammar allows is read.
//!
//! A refusal has a name and no place. Who wants the place reads by a deserializer, which hands back
//! its reader, behind a refusal too; what the reader has consumed stands in front of the place:
//!
//! ```
//! let mut de = Deserializer::new(SliceReader::new(bytes));
//! let answer = Vec::<i32>::deserialize(alloc, &mut de);
//! let place = de.into_reader().bytes_consumed();
//! ```
#![tactic(auto)]

ghost use Rattle.std.specs.Prelude.{◌≡◌, ◌⊎◌, Some, IfOk, IfErr, IsTrue};
ghost use Rattle.amqp_base.specs.Canon.{canon};
ghost use Rattle.amqp_base.specs.declared.error.Error.TheVariants.{OutOfMemory};
ghost use Rattle.amqp_ser.specs.Texts.{HasNoText};
ghost use Rattle.amqp_ser.specs.Passes.{HasLength, NoSize};
ghost use Rattle.serde_amqp.specs.Headline.{ReadFrom, ReadsAll, NamedFrom};
ghost use Rattle.amqp_base.specs.declared.shape.Setting.{Setting};

pub use amqp_types::{
    Array, Binary, BinaryRef, Boolean, Byte, Char, Dec32, Dec64, Dec128, Decimal, Described,
    Descriptor, Double, Float, Int, List, Long, OrderedMap, Short, Symbol, SymbolRef, Timestamp,
    Ubyte, Uint, Ulong, Ushort, Uuid,
};

pub mod de;
pub mod described;
pub mod descriptor;
pub mod error;
pub mod format_code;
pub mod laws;
pub mod primitives;
pub mod read;
mod rest;
pub mod ser;
mod streams;

pub use amqp_base::{
    Category, Counted, DECIMAL32_WIDTH, DECIMAL64_WIDTH, DECIMAL128_WIDTH, DESCRIBED_BASIC,
    DESCRIBED_LIST, DESCRIBED_MAP, DESCRIPTOR, EncodingCodes, EnumType, Error, FaultCount,
    IsArrayElement, IsDescribed, MAX_ARRAY_COUNT, NeverNull, NoVariant, OFFSET_ARRAY8,
    OFFSET_ARRAY32, OFFSET_LIST8, OFFSET_LIST32, OFFSET_MAP8, OFFSET_MAP32, OneOf, RoundTrip, Sink,
    Source, StructEncoding, Typed, UNTAGGED_ENUM, UUID_WIDTH, VALUE,
};
pub use amqp_de::{
    ArrayAccess, Chosen, CodeOrName, DescribedAccess, DescriptorSet, Deserialize, Deserializer,
    Ended, Field, Fields, FromVariant, Identifier, Ignored, ListAccess, MAX_NESTED, MapAccess,
    SeqAccess, StructAccess, VariantAccess, read_described, read_described_enum,
    read_described_map, read_fields, read_parts, read_variants, variant_of,
};
pub use amqp_read::{IoReader, Read, SliceReader, read_const_bytes};
use amqp_ser::{measured_size, measured_vec};
pub use amqp_ser::{
    MapSerializer, Part, SeqSerializer, Serialize, Serializer, Struct, StructFields,
    StructSerializer, TupleParts, TupleSerializer, TupleStructSerializer, VariantSerializer,
    Written, write_described, write_fields, write_parts, write_variants,
};
pub use rest::from_slice_with_rest;
use std::alloc::Global;
pub use streams::{from_reader, to_writer};

/// The canonical text of a value. Where its item has none, the first part that has none is refused:
/// as `Io(Other)`, where a payload or a body is above 4,294,967,291 bytes, else as `InvalidValue`,
/// an element that can't stand in its array. `OutOfMemory`: there is no room for the text, for the
/// sizes of the lists, maps and arrays in it where there are more than four, or for the symbolic
/// descriptor that the elements of an array share.
pub fn to_vec<T: Serialize>(alloc: Global, value: &T) -> Result<Vec<u8>, Error>
    ensures ok { IfOk result (λ v.
        canon (T.meaning.item value.now Setting.Plain) ≡ Some v.items) }
    ensures err { IfErr result (λ e.
        (e ≡ Error.OutOfMemory) ⊎ HasNoText (T.meaning.item value.now Setting.Plain) e) }
{
    measured_vec(alloc, value)
}

/// The number of bytes that `to_vec` writes of a value. No text is made. Refused as `to_vec` is but
/// for want of room for the text, and as `Io(Other)` where the text has 18,446,744,073,709,551,615
/// bytes or more.
pub fn serialized_size<T: Serialize>(alloc: Global, value: &T) -> Result<usize, Error>
    ensures ok { IfOk result (λ n. HasLength (canon (T.meaning.item value.now Setting.Plain)) n) }
    ensures err { IfErr result (λ e.
        (e ≡ Error.OutOfMemory) ⊎ NoSize (T.meaning.item value.now Setting.Plain) e) }
{
    measured_size(alloc, value)
}

/// The value at the front of the bytes; bytes behind it are ignored. Refused where no item stands
/// there that the type takes, and as `OutOfMemory` where reading the type takes memory.
pub fn from_slice<'s, T: Deserialize<SliceReader<'s>>>(
    alloc: Global,
    slice: &'s [u8],
) -> Result<T, Error>
    ensures found { IfOk result (λ v. ReadFrom T.meaning.takes (λ i.
        T.meaning.means i v) slice.now) }
    ensures only { ReadsAll T.meaning.takes T.meaning.means T.meaning.grows slice.now result }
    ensures memory { IfErr result (λ e. e ≡ OutOfMemory → IsTrue T.meaning.grows) }
    ensures named { IfErr result (λ e. NamedFrom T.meaning slice.now e) }
{
    let mut de = Deserializer::new(SliceReader::new(slice));
    T::deserialize(alloc, &mut de)
}
