//! The primitive types.

pub use amqp_types::{
    Array, Binary, BinaryRef, Boolean, Byte, Char, Dec32, Dec64, Dec128, Decimal, Double, Float,
    Int, List, Long, OrderedMap, Short, Symbol, SymbolRef, Timestamp, Ubyte, Uint, Ulong, Ushort,
    Uuid,
};
