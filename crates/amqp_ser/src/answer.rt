//! How a call's result is handed on.

/// Answers as the call does, its error as the function makes it. On either way the result is made
/// anew: one in tail position would be copied through memory, error and all.
macro_rules! answer {
    ($call:expr) => {
        match $call {
            Ok(()) => return Ok(()),
            Err(e) => return Err(e),
        }
    };
    ($call:expr, $error:ident) => {
        match $call {
            Ok(()) => return Ok(()),
            Err(e) => return Err($error(e)),
        }
    };
}

pub(crate) use answer;
