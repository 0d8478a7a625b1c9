//! A value of one of several types.

/// A value of the first type, or of one of those behind it: what a variant of an enum holds, and
/// the variants behind it.
#[derive(Drop)]
pub enum OneOf<T, Rest> {
    /// Of the first.
    This(T),
    /// Of one of those behind it.
    Other(Rest),
}

/// Of none: there is no such value, so `match none {}` has no arm.
#[derive(Drop)]
pub enum NoVariant {}
