//! The AMQP 1.0 wire: its format codes, what bytes mean, and what a type has to say of itself.
#![tactic(auto)]

#[doc(hidden)]
pub mod codes;
mod constants;
mod count;
mod encoding;
mod error;
mod fault;
mod format_code;
pub mod laws;
mod one_of;
mod shape;
mod typed;

pub use constants::{
    DECIMAL32_WIDTH, DECIMAL64_WIDTH, DECIMAL128_WIDTH, DESCRIBED_BASIC, DESCRIBED_LIST,
    DESCRIBED_MAP, DESCRIPTOR, MAX_ARRAY_COUNT, OFFSET_ARRAY8, OFFSET_ARRAY32, OFFSET_LIST8,
    OFFSET_LIST32, OFFSET_MAP8, OFFSET_MAP32, UNTAGGED_ENUM, UUID_WIDTH, VALUE,
};
pub use count::Count;
pub use encoding::{EnumType, IsArrayElement, StructEncoding};
pub use error::Error;
#[doc(hidden)]
pub use fault::{Pass, Size};
pub use fault::{Counted, FaultCount, Sink, Source};
pub use format_code::{Category, EncodingCodes, IsDescribed};
pub use one_of::{NoVariant, OneOf};
pub use shape::{Setting, Shape};
pub use typed::{NeverNull, RoundTrip, Typed};
