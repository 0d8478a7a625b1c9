//! The format codes of AMQP 1.0 (part 1, sections 1.2 and 1.6).

ghost use Rattle.std.specs.Prelude.{◌≡◌, Ok, Err, Some};
ghost use Rattle.amqp_base.specs.CodeNames.{name_of, text_of};
ghost use Rattle.amqp_base.specs.Codes.{row, CodeOf, CategoryOf};

use crate::{Error, codes};
use std::convert::TryFrom;
use std::fmt;

/// The format codes, each with its byte: the described constructor and the 39 primitive ones (part
/// 1, sections 1.2 and 1.6; the number behind each is its section). `as u8` gives the byte,
/// `try_from` the code of a byte.
#[derive(Debug, Clone, Copy, PartialEq, Eq)]
pub enum EncodingCodes {
    /// A descriptor and a value stand behind it (1.2).
    DescribedType = 0x00,
    /// Null: no data (1.6.1).
    Null = 0x40,
    /// Boolean: 00 false, 01 true, in 1 byte (1.6.2).
    Boolean = 0x56,
    /// Boolean: true, without data (1.6.2).
    BooleanTrue = 0x41,
    /// Boolean: false, without data (1.6.2).
    BooleanFalse = 0x42,
    /// Ubyte: the number in 1 byte (1.6.3).
    Ubyte = 0x50,
    /// Ushort: the number in 2 bytes (1.6.4).
    Ushort = 0x60,
    /// Uint: the number in 4 bytes (1.6.5).
    Uint = 0x70,
    /// Uint: the number in 1 byte, up to 255 (1.6.5).
    SmallUint = 0x52,
    /// Uint: 0, without data (1.6.5).
    Uint0 = 0x43,
    /// Ulong: the number in 8 bytes (1.6.6).
    Ulong = 0x80,
    /// Ulong: the number in 1 byte, up to 255 (1.6.6).
    SmallUlong = 0x53,
    /// Ulong: 0, without data (1.6.6).
    Ulong0 = 0x44,
    /// Byte: two's complement in 1 byte (1.6.7).
    Byte = 0x51,
    /// Short: two's complement in 2 bytes (1.6.8).
    Short = 0x61,
    /// Int: two's complement in 4 bytes (1.6.9).
    Int = 0x71,
    /// Int: two's complement in 1 byte, from -128 to 127 (1.6.9).
    SmallInt = 0x54,
    /// Long: two's complement in 8 bytes (1.6.10).
    Long = 0x81,
    /// Long: two's complement in 1 byte, from -128 to 127 (1.6.10).
    SmallLong = 0x55,
    /// Float: the bits of an IEEE 754 binary32, in 4 bytes (1.6.11).
    Float = 0x72,
    /// Double: the bits of an IEEE 754 binary64, in 8 bytes (1.6.12).
    Double = 0x82,
    /// Decimal32: 4 bytes (1.6.13).
    Decimal32 = 0x74,
    /// Decimal64: 8 bytes (1.6.14).
    Decimal64 = 0x84,
    /// Decimal128: 16 bytes (1.6.15).
    Decimal128 = 0x94,
    /// Char: the code point (UTF-32BE), a Unicode scalar value, in 4 bytes (1.6.16).
    Char = 0x73,
    /// Timestamp: milliseconds since the Unix epoch, two's complement in 8 bytes (1.6.17).
    Timestamp = 0x83,
    /// Uuid: 16 bytes (1.6.18).
    Uuid = 0x98,
    /// Binary: a length of 1 byte, then that many bytes (1.6.19).
    Vbin8 = 0xa0,
    /// Binary: a length of 4 bytes, then that many bytes (1.6.19).
    Vbin32 = 0xb0,
    /// String: a length of 1 byte, then that many bytes of UTF-8 (1.6.20).
    Str8 = 0xa1,
    /// String: a length of 4 bytes, then that many bytes of UTF-8 (1.6.20).
    Str32 = 0xb1,
    /// Symbol: a length of 1 byte, then that many bytes of UTF-8 (1.6.21).
    Sym8 = 0xa3,
    /// Symbol: a length of 4 bytes, then that many bytes of UTF-8 (1.6.21).
    Sym32 = 0xb3,
    /// List: the empty list, without data (1.6.22).
    List0 = 0x45,
    /// List: a size and a count of 1 byte each, then items (1.6.22).
    List8 = 0xc0,
    /// List: a size and a count of 4 bytes each, then items (1.6.22).
    List32 = 0xd0,
    /// Map: a size and a count of 1 byte each, then keys and values in turn (1.6.23).
    Map8 = 0xc1,
    /// Map: a size and a count of 4 bytes each, then keys and values in turn (1.6.23).
    Map32 = 0xd1,
    /// Array: a size and a count of 1 byte each, then element constructor, data of each element
    /// (1.6.24).
    Array8 = 0xe0,
    /// Array: a size and a count of 4 bytes each, then element constructor, data of each element
    /// (1.6.24).
    Array32 = 0xf0,
}

/// What stands behind a code, by width in bytes (part 1, section 1.2).
#[derive(Debug, Clone, Copy, PartialEq, Eq)]
pub enum Category {
    /// So many bytes of data.
    Fixed(usize),
    /// A length of so many bytes, then as many bytes as it says.
    Variable(usize),
    /// A size and a count of so many bytes each, then items with constructors of their own.
    Compound(usize),
    /// A size and a count of so many bytes each, one element constructor, then the data of each
    /// element.
    Array(usize),
}

/// The described constructor has no category: a descriptor and a value stand behind it.
#[derive(Debug, Clone, Copy, PartialEq, Eq)]
pub struct IsDescribed;

impl EncodingCodes {
    /// The code's byte.
    #[inline(always)]
    #[tactic(auto, unfolding(crate::specs::Codes::row))]
    pub fn byte(self) -> u8
        ensures { result ≡ (row self).byte }
    {
        self as u8
    }
}

impl TryFrom<u8> for EncodingCodes {
    type Error = Error;

    ghost try_from_gives = { CodeOf };

    /// The code of a byte, or `InvalidFormatCode`.
    #[inline(always)]
    #[tactic(auto, unfolding(crate::specs::Codes::code_of, crate::specs::Codes::row))]
    fn try_from(byte: u8) -> Result<EncodingCodes, Error> {
        match byte {
            codes::DESCRIBED_TYPE => Ok(EncodingCodes::DescribedType),
            codes::NULL => Ok(EncodingCodes::Null),
            codes::BOOLEAN => Ok(EncodingCodes::Boolean),
            codes::BOOLEAN_TRUE => Ok(EncodingCodes::BooleanTrue),
            codes::BOOLEAN_FALSE => Ok(EncodingCodes::BooleanFalse),
            codes::UBYTE => Ok(EncodingCodes::Ubyte),
            codes::USHORT => Ok(EncodingCodes::Ushort),
            codes::UINT => Ok(EncodingCodes::Uint),
            codes::SMALL_UINT => Ok(EncodingCodes::SmallUint),
            codes::UINT0 => Ok(EncodingCodes::Uint0),
            codes::ULONG => Ok(EncodingCodes::Ulong),
            codes::SMALL_ULONG => Ok(EncodingCodes::SmallUlong),
            codes::ULONG0 => Ok(EncodingCodes::Ulong0),
            codes::BYTE => Ok(EncodingCodes::Byte),
            codes::SHORT => Ok(EncodingCodes::Short),
            codes::INT => Ok(EncodingCodes::Int),
            codes::SMALL_INT => Ok(EncodingCodes::SmallInt),
            codes::LONG => Ok(EncodingCodes::Long),
            codes::SMALL_LONG => Ok(EncodingCodes::SmallLong),
            codes::FLOAT => Ok(EncodingCodes::Float),
            codes::DOUBLE => Ok(EncodingCodes::Double),
            codes::DECIMAL32 => Ok(EncodingCodes::Decimal32),
            codes::DECIMAL64 => Ok(EncodingCodes::Decimal64),
            codes::DECIMAL128 => Ok(EncodingCodes::Decimal128),
            codes::CHAR => Ok(EncodingCodes::Char),
            codes::TIMESTAMP => Ok(EncodingCodes::Timestamp),
            codes::UUID => Ok(EncodingCodes::Uuid),
            codes::VBIN8 => Ok(EncodingCodes::Vbin8),
            codes::VBIN32 => Ok(EncodingCodes::Vbin32),
            codes::STR8 => Ok(EncodingCodes::Str8),
            codes::STR32 => Ok(EncodingCodes::Str32),
            codes::SYM8 => Ok(EncodingCodes::Sym8),
            codes::SYM32 => Ok(EncodingCodes::Sym32),
            codes::LIST0 => Ok(EncodingCodes::List0),
            codes::LIST8 => Ok(EncodingCodes::List8),
            codes::LIST32 => Ok(EncodingCodes::List32),
            codes::MAP8 => Ok(EncodingCodes::Map8),
            codes::MAP32 => Ok(EncodingCodes::Map32),
            codes::ARRAY8 => Ok(EncodingCodes::Array8),
            codes::ARRAY32 => Ok(EncodingCodes::Array32),
            _ => Err(Error::InvalidFormatCode),
        }
    }
}

impl TryFrom<EncodingCodes> for Category {
    type Error = IsDescribed;

    ghost try_from_gives = { CategoryOf };

    /// What stands behind a primitive code.
    #[tactic(auto, unfolding(crate::specs::Codes::row))]
    fn try_from(code: EncodingCodes) -> Result<Category, IsDescribed> {
        match code {
            EncodingCodes::DescribedType => Err(IsDescribed),
            EncodingCodes::Null => Ok(Category::Fixed(0)),
            EncodingCodes::Boolean => Ok(Category::Fixed(1)),
            EncodingCodes::BooleanTrue => Ok(Category::Fixed(0)),
            EncodingCodes::BooleanFalse => Ok(Category::Fixed(0)),
            EncodingCodes::Ubyte => Ok(Category::Fixed(1)),
            EncodingCodes::Ushort => Ok(Category::Fixed(2)),
            EncodingCodes::Uint => Ok(Category::Fixed(4)),
            EncodingCodes::SmallUint => Ok(Category::Fixed(1)),
            EncodingCodes::Uint0 => Ok(Category::Fixed(0)),
            EncodingCodes::Ulong => Ok(Category::Fixed(8)),
            EncodingCodes::SmallUlong => Ok(Category::Fixed(1)),
            EncodingCodes::Ulong0 => Ok(Category::Fixed(0)),
            EncodingCodes::Byte => Ok(Category::Fixed(1)),
            EncodingCodes::Short => Ok(Category::Fixed(2)),
            EncodingCodes::Int => Ok(Category::Fixed(4)),
            EncodingCodes::SmallInt => Ok(Category::Fixed(1)),
            EncodingCodes::Long => Ok(Category::Fixed(8)),
            EncodingCodes::SmallLong => Ok(Category::Fixed(1)),
            EncodingCodes::Float => Ok(Category::Fixed(4)),
            EncodingCodes::Double => Ok(Category::Fixed(8)),
            EncodingCodes::Decimal32 => Ok(Category::Fixed(4)),
            EncodingCodes::Decimal64 => Ok(Category::Fixed(8)),
            EncodingCodes::Decimal128 => Ok(Category::Fixed(16)),
            EncodingCodes::Char => Ok(Category::Fixed(4)),
            EncodingCodes::Timestamp => Ok(Category::Fixed(8)),
            EncodingCodes::Uuid => Ok(Category::Fixed(16)),
            EncodingCodes::Vbin8 => Ok(Category::Variable(1)),
            EncodingCodes::Vbin32 => Ok(Category::Variable(4)),
            EncodingCodes::Str8 => Ok(Category::Variable(1)),
            EncodingCodes::Str32 => Ok(Category::Variable(4)),
            EncodingCodes::Sym8 => Ok(Category::Variable(1)),
            EncodingCodes::Sym32 => Ok(Category::Variable(4)),
            EncodingCodes::List0 => Ok(Category::Fixed(0)),
            EncodingCodes::List8 => Ok(Category::Compound(1)),
            EncodingCodes::List32 => Ok(Category::Compound(4)),
            EncodingCodes::Map8 => Ok(Category::Compound(1)),
            EncodingCodes::Map32 => Ok(Category::Compound(4)),
            EncodingCodes::Array8 => Ok(Category::Array(1)),
            EncodingCodes::Array32 => Ok(Category::Array(4)),
        }
    }
}

impl EncodingCodes {
    /// The name of a code.
    fn name(self) -> &'static str
        ensures { result.now ≡ name_of self }
    {
        match self {
            EncodingCodes::DescribedType => "DescribedType",
            EncodingCodes::Null => "Null",
            EncodingCodes::Boolean => "Boolean",
            EncodingCodes::BooleanTrue => "BooleanTrue",
            EncodingCodes::BooleanFalse => "BooleanFalse",
            EncodingCodes::Ubyte => "Ubyte",
            EncodingCodes::Ushort => "Ushort",
            EncodingCodes::Uint => "Uint",
            EncodingCodes::SmallUint => "SmallUint",
            EncodingCodes::Uint0 => "Uint0",
            EncodingCodes::Ulong => "Ulong",
            EncodingCodes::SmallUlong => "SmallUlong",
            EncodingCodes::Ulong0 => "Ulong0",
            EncodingCodes::Byte => "Byte",
            EncodingCodes::Short => "Short",
            EncodingCodes::Int => "Int",
            EncodingCodes::SmallInt => "SmallInt",
            EncodingCodes::Long => "Long",
            EncodingCodes::SmallLong => "SmallLong",
            EncodingCodes::Float => "Float",
            EncodingCodes::Double => "Double",
            EncodingCodes::Decimal32 => "Decimal32",
            EncodingCodes::Decimal64 => "Decimal64",
            EncodingCodes::Decimal128 => "Decimal128",
            EncodingCodes::Char => "Char",
            EncodingCodes::Timestamp => "Timestamp",
            EncodingCodes::Uuid => "Uuid",
            EncodingCodes::Vbin8 => "Vbin8",
            EncodingCodes::Vbin32 => "Vbin32",
            EncodingCodes::Str8 => "Str8",
            EncodingCodes::Str32 => "Str32",
            EncodingCodes::Sym8 => "Sym8",
            EncodingCodes::Sym32 => "Sym32",
            EncodingCodes::List0 => "List0",
            EncodingCodes::List8 => "List8",
            EncodingCodes::List32 => "List32",
            EncodingCodes::Map8 => "Map8",
            EncodingCodes::Map32 => "Map32",
            EncodingCodes::Array8 => "Array8",
            EncodingCodes::Array32 => "Array32",
        }
    }
}

impl fmt::Display for EncodingCodes {
    ghost output = { λ e. Some (text_of e) };

    /// The name, `:0x` and the byte in lower hexadecimal without leading zeros.
    fn fmt<W: fmt::Write>(&self, f: &mut fmt::Formatter<W>) -> fmt::Result {
        let name = self.name();
        let byte = self.byte();
        write!(f, "{name}:0x{byte:x}")
    }
}
