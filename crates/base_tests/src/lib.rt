//! What the public calls of the crates below the codec answer, of `amqp_base`, `amqp_types` and
//! `amqp_read`, with ample memory. They stand apart from the codec's own tests, so that each of the
//! two is proved in less memory.
#![tactic(auto)]

#[cfg(test)]
mod tests;
