//! What stands before a described value.

pub use amqp_types::Descriptor;
