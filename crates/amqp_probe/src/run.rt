//! A whole run over an input.

ghost use Rattle.std.specs.Prelude.{◌≡◌, ◌<◌, ◌⊎◌, [], IsTrue, IfOk, OnOk, IfErr};
ghost use Rattle.std.specs.Prelude.{OnErr, IfSome, string_bytes};
ghost use Rattle.std.specs.Io.KnownBytes.{Appends, Keeps, append_known};
ghost use Rattle.amqp_base.specs.declared.error.Error.TheVariants.{OutOfMemory};
ghost use Rattle.amqp_base.specs.Faults.{Extends};
ghost use Rattle.amqp_probe.specs.Lines.{TooMany};
ghost use Rattle.amqp_probe.specs.Pieces.{Fails};
ghost use Rattle.amqp_probe.specs.Transcript.{Prints, Puts, Transcribes, bad_line};

use crate::answer::answer;
use crate::lines::{BLOCK, Lines};
use crate::why::{BadLine, Why, why_bad};
use amqp_base::{Error, Sink, Source};
use std::alloc::{AllocError, Global};

/// Prints an answer for each line of the input, up to the first bad line, for which its number is
/// printed. True at the end, false after a bad line. An error is the fault of the input or of the
/// output (`Io` of its kind, or `OutOfMemory`), `OutOfMemory`, or `Io` of kind `Other` where the
/// bytes read would pass `usize::MAX`; what the output held before stays at its front.
pub fn run<S: Source, W: Sink>(alloc: Global, input: &mut S, output: &mut W) -> Result<bool, Error>
    ensures prints { IfOk result (λ good. IfSome (S.remaining input.old) (λ bytes.
        Prints bytes good (W.contents output.old) (W.contents output.new))) }
    ensures source { OnOk result (S.faults input.new ≡ S.faults input.old) }
    ensures sink { OnOk result (W.faults output.new ≡ W.faults output.old) }
    ensures extends { Extends (W.contents output.old) (W.contents output.new) }
    ensures err { IfErr result (λ e. Fails e ((S.faults input.old < S.faults input.new) ⊎
        (W.faults output.old < W.faults output.new)) (TooMany (S.remaining input.old) 0)) }
{
    match transcribe(alloc, input, output) {
        Ok(None) => Ok(true),
        Ok(Some(_)) => Ok(false),
        Err(e) => Err(e),
    }
}

/// As `run`; after a bad line it says which and why. Answers are written in blocks: before more of
/// the input is read, all that were given are written.
pub fn transcribe<S: Source, W: Sink>(
    alloc: Global,
    input: &mut S,
    output: &mut W,
) -> Result<Option<BadLine>, Error>
    ensures prints { IfOk result (λ bad. IfSome (S.remaining input.old) (λ bytes.
        Transcribes bytes bad (W.contents output.old) (W.contents output.new))) }
    ensures source { OnOk result (S.faults input.new ≡ S.faults input.old) }
    ensures sink { OnOk result (W.faults output.new ≡ W.faults output.old) }
    ensures extends { Extends (W.contents output.old) (W.contents output.new) }
    ensures err { IfErr result (λ e. Fails e ((S.faults input.old < S.faults input.new) ⊎
        (W.faults output.old < W.faults output.new)) (TooMany (S.remaining input.old) 0)) }
{
    let mut lines = Lines::new(alloc)?;
    let mut texts = Vec::new(alloc);
    let mut number = 0usize;
    'lines: while let Some(line) = lines.next_line(alloc, input)? {
        number += 1;
        match put_answer(alloc, line.as_slice(), number, &mut texts) {
            Ok(None) => {
                let due = texts.len() >= BLOCK || !lines.has_line();
                pass_on(output, &mut texts, due)?;
            }
            Ok(Some(why)) => {
                pass_on(output, &mut texts, true)?;
                return Ok(Some(BadLine { number, why }));
            }
            Err(e) => {
                pass_on(output, &mut texts, true)?;
                return Err(e);
            }
        }
    }
    pass_on(output, &mut texts, true)?;
    Ok(None)
}

/// Puts the answer to a line behind the texts, or that the line of this number is bad, which it
/// then answers why. Where it is refused, as `OutOfMemory`, the texts stay.
fn put_answer(
    alloc: Global,
    line: &[u8],
    number: usize,
    texts: &mut Vec<u8>,
) -> Result<Option<Why>, Error>
    ensures ok { IfOk result (λ bad. Puts line.now number bad texts.old.items texts.new.items) }
    ensures err { IfErr result (λ e. e ≡ OutOfMemory) }
    ensures same { OnErr result (texts.new.items ≡ texts.old.items) }
{
    match answer(alloc, line)? {
        Some(mut text) => {
            text.push_str("\n")?;
            texts.extend_from_slice(text.as_bytes())?;
            Ok(None)
        }
        None => {
            let text = bad_line(alloc, number)?;
            texts.extend_from_slice(text.as_bytes())?;
            Ok(Some(why_bad(line)))
        }
    }
}

/// Writes the texts where it is due, and then there are none.
fn pass_on<W: Sink>(output: &mut W, texts: &mut Vec<u8>, due: bool) -> Result<(), Error>
    ensures kept { OnOk result (Keeps
        (append_known (W.contents output.old) texts.old.items)
        (append_known (W.contents output.new) texts.new.items)) }
    ensures all { OnOk result (IsTrue due → texts.new.items ≡ []) }
    ensures same { OnOk result (W.faults output.new ≡ W.faults output.old) }
    ensures extends { Extends (W.contents output.old) (W.contents output.new) }
    ensures err { IfErr result (λ e. Fails e (W.faults output.old < W.faults output.new) ⊥) }
{
    if due {
        write(output, texts.as_slice())?;
        texts.clear();
    }
    Ok(())
}

/// What is printed for a bad line.
fn bad_line(alloc: Global, number: usize) -> Result<String, AllocError>
    ensures { IfOk result (λ text. string_bytes text ≡ bad_line number) }
{
    format!(in alloc; "bad line {number}\n")
}

/// Writes all bytes.
fn write<W: Sink>(output: &mut W, bytes: &[u8]) -> Result<(), Error>
    ensures appended { OnOk result (Appends (W.contents output.old)
        (W.contents output.new) bytes.now) }
    ensures same { OnOk result (W.faults output.new ≡ W.faults output.old) }
    ensures extends { Extends (W.contents output.old) (W.contents output.new) }
    ensures err { IfErr result (λ e. Fails e (W.faults output.old < W.faults output.new) ⊥) }
{
    let mut rest = bytes;
    while !rest.is_empty() {
        let n = output.write_some(rest)?;
        rest = &rest[n..];
    }
    Ok(())
}
