//! Readers: a list of bytes to come, a position, and bytes that were received ahead.
#![tactic(auto)]

mod behind;
mod buffer;
mod few;
mod greatest;
mod io_reader;
mod raw;
mod read;
mod slice_reader;
mod texts;

pub use io_reader::IoReader;
pub use read::{Read, read_const_bytes};
pub use slice_reader::SliceReader;
