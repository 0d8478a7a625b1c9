//! Reads lines of a type and bytes, decodes each as AMQP 1.0, and prints what the value is encoded
//! as.
#![tactic(auto)]

mod answer;
mod codec;
mod help;
mod kind;
mod lines;
mod run;
#[cfg(test)]
mod tests;
mod why;

use crate::help::HELP;
use amqp_base::Counted;
use std::env;
use std::process::ExitCode;

/// Standard input to standard output. The exit status is 0 where each line was answered, 2 after a
/// bad line, and 3 where reading, writing or memory failed; standard error says why. With `--help`
/// it prints what a line is.
fn main(rt: HostRuntime) -> ExitCode {
    if asks_for_help(&rt) {
        return match print!(rt; "{HELP}") {
            Ok(()) => ExitCode::SUCCESS,
            Err(_) => ExitCode::from(3),
        };
    }
    let mut input = Counted::new(rt.stdin());
    let mut output = Counted::new(rt.stdout());
    match run::transcribe(rt.alloc(), &mut input, &mut output) {
        Ok(None) => ExitCode::SUCCESS,
        Ok(Some(bad)) => {
            // where standard error can't be written, the status still says it
            let _ = eprintln!(rt; "amqp_probe: line {}: {}", bad.number, bad.why.text());
            ExitCode::from(2)
        }
        Err(e) => {
            let _ = eprintln!(rt; "amqp_probe: {e}");
            ExitCode::from(3)
        }
    }
}

/// Whether the first argument is `--help`. No other is looked at.
fn asks_for_help(rt: &HostRuntime) -> bool {
    match env::args(rt) {
        Ok(mut words) => {
            let _program = words.next();
            matches!(words.next(), Some(word) if word.as_str() == "--help")
        }
        Err(_) => false,
    }
}
