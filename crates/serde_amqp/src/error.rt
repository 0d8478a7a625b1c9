//! The refusals of the codec.

pub use amqp_base::Error;
