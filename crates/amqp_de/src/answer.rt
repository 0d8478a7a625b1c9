//! How a call's result is handed on.

/// Answers as the call does, with a result that the function makes itself: one in tail position
/// would be copied through memory, error and all.
macro_rules! answer {
    ($call:expr) => {
        match $call {
            Ok(value) => return Ok(value),
            Err(e) => return Err(e),
        }
    };
}

pub(crate) use answer;
