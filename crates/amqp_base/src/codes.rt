//! The bytes of the format codes, for patterns. What each code is stands at [`EncodingCodes`].

use crate::EncodingCodes;

/// The byte of `EncodingCodes::DescribedType`.
pub const DESCRIBED_TYPE: u8 = EncodingCodes::DescribedType as u8;

/// The byte of `EncodingCodes::Null`.
pub const NULL: u8 = EncodingCodes::Null as u8;

/// The byte of `EncodingCodes::Boolean`.
pub const BOOLEAN: u8 = EncodingCodes::Boolean as u8;

/// The byte of `EncodingCodes::BooleanTrue`.
pub const BOOLEAN_TRUE: u8 = EncodingCodes::BooleanTrue as u8;

/// The byte of `EncodingCodes::BooleanFalse`.
pub const BOOLEAN_FALSE: u8 = EncodingCodes::BooleanFalse as u8;

/// The byte of `EncodingCodes::Ubyte`.
pub const UBYTE: u8 = EncodingCodes::Ubyte as u8;

/// The byte of `EncodingCodes::Ushort`.
pub const USHORT: u8 = EncodingCodes::Ushort as u8;

/// The byte of `EncodingCodes::Uint`.
pub const UINT: u8 = EncodingCodes::Uint as u8;

/// The byte of `EncodingCodes::SmallUint`.
pub const SMALL_UINT: u8 = EncodingCodes::SmallUint as u8;

/// The byte of `EncodingCodes::Uint0`.
pub const UINT0: u8 = EncodingCodes::Uint0 as u8;

/// The byte of `EncodingCodes::Ulong`.
pub const ULONG: u8 = EncodingCodes::Ulong as u8;

/// The byte of `EncodingCodes::SmallUlong`.
pub const SMALL_ULONG: u8 = EncodingCodes::SmallUlong as u8;

/// The byte of `EncodingCodes::Ulong0`.
pub const ULONG0: u8 = EncodingCodes::Ulong0 as u8;

/// The byte of `EncodingCodes::Byte`.
pub const BYTE: u8 = EncodingCodes::Byte as u8;

/// The byte of `EncodingCodes::Short`.
pub const SHORT: u8 = EncodingCodes::Short as u8;

/// The byte of `EncodingCodes::Int`.
pub const INT: u8 = EncodingCodes::Int as u8;

/// The byte of `EncodingCodes::SmallInt`.
pub const SMALL_INT: u8 = EncodingCodes::SmallInt as u8;

/// The byte of `EncodingCodes::Long`.
pub const LONG: u8 = EncodingCodes::Long as u8;

/// The byte of `EncodingCodes::SmallLong`.
pub const SMALL_LONG: u8 = EncodingCodes::SmallLong as u8;

/// The byte of `EncodingCodes::Float`.
pub const FLOAT: u8 = EncodingCodes::Float as u8;

/// The byte of `EncodingCodes::Double`.
pub const DOUBLE: u8 = EncodingCodes::Double as u8;

/// The byte of `EncodingCodes::Decimal32`.
pub const DECIMAL32: u8 = EncodingCodes::Decimal32 as u8;

/// The byte of `EncodingCodes::Decimal64`.
pub const DECIMAL64: u8 = EncodingCodes::Decimal64 as u8;

/// The byte of `EncodingCodes::Decimal128`.
pub const DECIMAL128: u8 = EncodingCodes::Decimal128 as u8;

/// The byte of `EncodingCodes::Char`.
pub const CHAR: u8 = EncodingCodes::Char as u8;

/// The byte of `EncodingCodes::Timestamp`.
pub const TIMESTAMP: u8 = EncodingCodes::Timestamp as u8;

/// The byte of `EncodingCodes::Uuid`.
pub const UUID: u8 = EncodingCodes::Uuid as u8;

/// The byte of `EncodingCodes::Vbin8`.
pub const VBIN8: u8 = EncodingCodes::Vbin8 as u8;

/// The byte of `EncodingCodes::Vbin32`.
pub const VBIN32: u8 = EncodingCodes::Vbin32 as u8;

/// The byte of `EncodingCodes::Str8`.
pub const STR8: u8 = EncodingCodes::Str8 as u8;

/// The byte of `EncodingCodes::Str32`.
pub const STR32: u8 = EncodingCodes::Str32 as u8;

/// The byte of `EncodingCodes::Sym8`.
pub const SYM8: u8 = EncodingCodes::Sym8 as u8;

/// The byte of `EncodingCodes::Sym32`.
pub const SYM32: u8 = EncodingCodes::Sym32 as u8;

/// The byte of `EncodingCodes::List0`.
pub const LIST0: u8 = EncodingCodes::List0 as u8;

/// The byte of `EncodingCodes::List8`.
pub const LIST8: u8 = EncodingCodes::List8 as u8;

/// The byte of `EncodingCodes::List32`.
pub const LIST32: u8 = EncodingCodes::List32 as u8;

/// The byte of `EncodingCodes::Map8`.
pub const MAP8: u8 = EncodingCodes::Map8 as u8;

/// The byte of `EncodingCodes::Map32`.
pub const MAP32: u8 = EncodingCodes::Map32 as u8;

/// The byte of `EncodingCodes::Array8`.
pub const ARRAY8: u8 = EncodingCodes::Array8 as u8;

/// The byte of `EncodingCodes::Array32`.
pub const ARRAY32: u8 = EncodingCodes::Array32 as u8;
