//! Readers.

pub use amqp_read::{IoReader, Read, SliceReader, read_const_bytes};
