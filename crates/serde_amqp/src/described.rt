//! Described values.

pub use amqp_types::Described;
