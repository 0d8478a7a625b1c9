//! Names, caps and widths.

/// The name of a struct that is written as a descriptor and one value.
pub const DESCRIBED_BASIC: &str = "AMQP1.0_DESCRIBED_BASIC";

/// The name of a struct that is written as a descriptor and a list of its fields.
pub const DESCRIBED_LIST: &str = "AMQP1.0_DESCRIBED_LIST";

/// The name of a struct that is written as a descriptor and a map of its fields.
pub const DESCRIBED_MAP: &str = "AMQP1.0_DESCRIBED_MAP";

/// The name of an enum that reads a descriptor.
pub const DESCRIPTOR: &str = "AMQP1.0_DESCRIPTOR";

/// The name of an enum that looks at the next format code.
pub const VALUE: &str = "AMQP1.0_VALUE";

/// The name of an enum that reads any item as its payload.
pub const UNTAGGED_ENUM: &str = "FE2O3_AMQP_UNTAGGED";

/// The most elements of a list or an array that is read; of a map the most keys and values
/// together.
pub const MAX_ARRAY_COUNT: usize = 65_536;

/// Bytes that the size of a list8 counts before its elements: the count.
pub const OFFSET_LIST8: usize = 1;

/// Bytes that the size of a list32 counts before its elements: the count.
pub const OFFSET_LIST32: usize = 4;

/// Bytes that the size of a map8 counts before its pairs: the count.
pub const OFFSET_MAP8: usize = 1;

/// Bytes that the size of a map32 counts before its pairs: the count.
pub const OFFSET_MAP32: usize = 4;

/// Bytes that the size of an array8 counts before its elements: the count and a primitive
/// constructor.
pub const OFFSET_ARRAY8: usize = 2;

/// Bytes that the size of an array32 counts before its elements: the count and a primitive
/// constructor.
pub const OFFSET_ARRAY32: usize = 5;

/// Bytes of a decimal32.
pub const DECIMAL32_WIDTH: usize = 4;

/// Bytes of a decimal64.
pub const DECIMAL64_WIDTH: usize = 8;

/// Bytes of a decimal128.
pub const DECIMAL128_WIDTH: usize = 16;

/// Bytes of a uuid.
pub const UUID_WIDTH: usize = 16;
