//! Format codes.

pub use amqp_base::{Category, EncodingCodes, IsDescribed};
