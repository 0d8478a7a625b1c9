//! Lines of standard input.

use std::io::Read;

/// The most lines that are read.
pub(crate) const MOST: usize = 10_000;

/// The longest line, in bytes, its line feed counted.
pub(crate) const LONGEST: usize = 2_048;

/// The next byte; None at the end.
fn next_byte<S: Read>(input: &mut S) -> Option<u8> {
    let mut byte = [0u8; 1];
    match input.read(&mut byte) {
        Ok(1) => Some(byte[0]),
        _ => None,
    }
}

/// The length of the next line, which then stands in `line` without its line feed. None at the end,
/// and where there is no room for it.
pub(crate) fn next_line<S: Read>(input: &mut S, line: &mut [u8]) -> Option<usize> {
    for at in 0..line.len() {
        match next_byte(input) {
            None => return None,
            Some(b'\n') => return Some(at),
            Some(byte) => line[at] = byte,
        }
    }
    None
}

/// What stands before the first space and behind it.
pub(crate) fn words(line: &[u8]) -> Option<(&[u8], &[u8])> {
    for at in 0..line.len() {
        if line[at] == b' ' {
            let (word, rest) = line.split_at(at);
            return match rest.split_first() {
                Some((_, behind)) => Some((word, behind)),
                None => None,
            };
        }
    }
    None
}
