//! Answers lines of a type and bytes: reads a value of the type at the front of the bytes in each
//! way there is, and prints its canonical text, written in each way, and how many bytes stand
//! behind it, or the refusal. It has no contracts, and knows more types than the probe: its stored
//! run is a table of cases.
#![tactic(auto)]

mod answer;
mod cases;
mod kind;
mod lent;
mod lines;
mod own;
mod owned;
mod pieces;
mod text;
mod ways;
mod whole;

use crate::cases::{Said, answered};
use crate::lines::{LONGEST, MOST, next_line};
use std::process::ExitCode;

/// Standard input to standard output. The exit status is 0 at the end of the lines, else 1.
fn main(rt: HostRuntime) -> ExitCode {
    let alloc = rt.alloc();
    let mut input = rt.stdin();
    let mut line = [0u8; LONGEST];
    for _ in 0..MOST {
        let said = match next_line(&mut input, &mut line) {
            Some(length) => answered(alloc, &line, length),
            None => return ExitCode::SUCCESS,
        };
        let is_printed = match said {
            Said::Value { digits, rest } => println!(rt; "ok {digits} rest {rest}").is_ok(),
            Said::Passed => true,
            Said::Refused(name) => println!(rt; "refused {name:?}").is_ok(),
        };
        if !is_printed {
            return ExitCode::from(1);
        }
    }
    ExitCode::from(1)
}
