//! Why a line is bad.

ghost use Rattle.amqp_probe.specs.Why.{Explains};

use crate::answer::{LIMIT, find};
use crate::kind::kind_named;

/// The first rule that a bad line breaks.
#[derive(Clone, Copy, Debug, PartialEq, Eq)]
pub enum Why {
    TooLong,
    NoSpace,
    UnknownType,
    OddDigits,
    NoDigit,
}

/// A line that isn't answered: its number, from 1, and why.
#[derive(Clone, Copy, Debug, PartialEq, Eq)]
pub struct BadLine {
    pub number: usize,
    pub why: Why,
}

/// Why a bad line is bad: of the rules that it breaks, the first in the order of `Why`. The
/// contract says that the reason is true of the line.
pub fn why_bad(line: &[u8]) -> Why
    ensures { Explains result line.now }
{
    if line.len() > LIMIT {
        return Why::TooLong;
    }
    let Some(space) = find(b' ', line) else {
        return Why::NoSpace;
    };
    if kind_named(&line[..space]).is_none() {
        return Why::UnknownType;
    }
    if (line.len() - (space + 1)) % 2 == 1 {
        Why::OddDigits
    } else {
        Why::NoDigit
    }
}

impl Why {
    /// The reason in words.
    pub fn text(self) -> &'static str {
        match self {
            Why::TooLong => "longer than 65,536 bytes",
            Why::NoSpace => "no space behind a type",
            Why::UnknownType => "unknown type",
            Why::OddDigits => "an odd number of digits",
            Why::NoDigit => "a byte that is no hexadecimal digit",
        }
    }
}
