//! Strings outside arrays, many at a time.

ghost use Rattle.std.specs.Prelude.{◌≡◌, ◌≤◌, ◌+◌, [], ◌∷◌};
ghost use Rattle.std.specs.Prelude.{IfOk, IfSome, None, length, map, take, string_bytes};
ghost use Rattle.amqp_base.specs.Canon.{limit};
ghost use Rattle.amqp_base.specs.Item.{scalar, string};
ghost use Rattle.amqp_write.specs.State.{stand, unmarked};
ghost use Rattle.amqp_write.specs.Appending.{as_error};
ghost use Rattle.amqp_write.specs.ManyTexts.{HaveTextsOf, PutsAll, PutsBytes, PutsText};
ghost use Rattle.amqp_write.specs.ManyTexts.{WritesTexts, how_many};

use crate::place::{LONGEST, NARROW, Place};
use crate::refusal::Refusal;
use amqp_base::{EncodingCodes, Pass, Sink, codes};

/// Room for the texts of some short strings.
const ROOM: usize = 512;

/// The bytes of a string's text, where it has one: of more than 4,294,967,291 bytes it has none.
#[inline(always)]
pub fn string_len(value: &str) -> Option<usize>
    ensures text { IfSome result (λ n.
        HaveTextsOf unmarked (scalar (string value.now) ∷ []) n) }
{
    let len = value.len();
    if len > LONGEST {
        return None;
    }
    Some(if len <= NARROW { 2 + len } else { 5 + len })
}

/// How many strings, from the front, have texts, and the bytes of these as far as a usize counts:
/// all, or those before one of more than 4,294,967,291 bytes.
#[inline(always)]
fn text_lengths(values: &[String]) -> (usize, usize)
    ensures few { result.0 ≤ length values.now }
    ensures texts { HaveTextsOf unmarked
        (map (λ t. scalar (string (string_bytes t))) (take result.0 values.now)) result.1 }
{
    let mut count: usize = 0;
    let mut sum: usize = 0;
    for value in values {
        match string_len(value.as_str()) {
            Some(len) => sum = sum.saturating_add(len),
            None => return (count, sum),
        }
        count += 1;
    }
    (count, sum)
}

/// Puts the bytes into the block from `at` on, by two copies that may overlap: the first N of them
/// and the last N.
#[inline(always)]
fn put_ends<const N: usize>(bytes: &[u8], block: &mut [u8], at: usize)
    requires least { N ≤ length bytes.now }
    requires most { length bytes.now ≤ N + N }
    requires room { at + length bytes.now ≤ length block.old }
    ensures put { PutsBytes bytes.now at block.old block.new }
{
    let behind = bytes.len() - N;
    block[at..at + N].copy_from_slice(&bytes[..N]);
    block[at + behind..at + behind + N].copy_from_slice(&bytes[behind..]);
}

/// Puts the bytes into the block from `at` on. Of 8 to 32 bytes two copies of a fixed width take
/// less time than the call that copies any number.
#[inline(always)]
fn put_bytes(bytes: &[u8], block: &mut [u8], at: usize)
    requires room { at + length bytes.now ≤ length block.old }
    ensures put { PutsBytes bytes.now at block.old block.new }
{
    let len = bytes.len();
    if len >= 16 && len <= 32 {
        put_ends::<16>(bytes, block, at);
        return;
    }
    if len >= 8 && len <= 16 {
        put_ends::<8>(bytes, block, at);
        return;
    }
    block[at..at + len].copy_from_slice(bytes);
}

/// Writes the text of a short string into the block from `at` on: where the next may begin. None
/// where it isn't short, or finds no room; then nothing was written.
#[inline(always)]
pub fn put_string(value: &str, block: &mut [u8], at: usize) -> Option<usize>
    ensures text { IfSome result (λ end.
        PutsText unmarked (scalar (string value.now)) at block.old end block.new) }
    ensures none { result ≡ None → block.new ≡ block.old }
{
    let bytes = value.as_bytes();
    let len = bytes.len();
    if len > NARROW {
        return None;
    }
    let end = at.checked_add(len + 2)?;
    if end > block.len() {
        return None;
    }
    block[at] = codes::STR8;
    block[at + 1] = len as u8;
    put_bytes(bytes, block, at + 2);
    Some(end)
}

/// Writes the texts of strings into the block, one after the other, from the front as far as they
/// are short and there is room: how many strings, and how many bytes.
#[inline(always)]
fn put_some(values: &[String], block: &mut [u8]) -> (usize, usize)
    ensures few { result.0 ≤ length values.now }
    ensures texts { PutsAll unmarked
        (map (λ t. scalar (string (string_bytes t))) (take result.0 values.now)) block.old result.1
        block.new }
{
    let mut count: usize = 0;
    let mut at: usize = 0;
    for value in values {
        match put_string(value.as_str(), block, at) {
            Some(end) => at = end,
            None => return (count, at),
        }
        count += 1;
    }
    (count, at)
}

impl Place {
    /// Writes strings, and says how many, from the front: all, or those before one of more than
    /// 4,294,967,291 bytes. Where they are only counted, no text of theirs is made.
    pub(crate) fn append_strings<W: Sink>(
        &mut self,
        writer: &mut W,
        values: &[String],
    ) -> Result<usize, Refusal>
        ensures few { IfOk result (λ n. n ≤ length values.now) }
        ensures law { WritesTexts unmarked
            (map (λ t. scalar (string (string_bytes t))) (take (how_many result) values.now))
            (stand W.Write W.FaultCount writer.old self.old) (as_error result)
            (stand W.Write W.FaultCount writer.new self.new) }
    {
        match (*writer).pass() {
            Pass::Measures => {
                let (count, len) = text_lengths(values);
                if writer.counts(len) {
                    return Ok(count);
                }
                self.append_in_turn(writer, values)
            }
            _ => self.append_in_turn(writer, values),
        }
    }

    /// Writes strings: short ones by blocks, each other one by itself.
    fn append_in_turn<W: Sink>(
        &mut self,
        writer: &mut W,
        values: &[String],
    ) -> Result<usize, Refusal>
        ensures few { IfOk result (λ n. n ≤ length values.now) }
        ensures law { WritesTexts unmarked
            (map (λ t. scalar (string (string_bytes t))) (take (how_many result) values.now))
            (stand W.Write W.FaultCount writer.old self.old) (as_error result)
            (stand W.Write W.FaultCount writer.new self.new) }
    {
        let mut block = [0u8; ROOM];
        let mut done: usize = 0;
        while done < values.len() {
            let (count, end) = put_some(&values[done..], &mut block);
            if count == 0 {
                let text = values[done].as_str();
                if text.len() > LONGEST {
                    return Ok(done);
                }
                match self.append_string(writer, text) {
                    Ok(()) => done += 1,
                    Err(e) => return Err(e),
                }
            } else {
                match self.append(writer, &block[..end]) {
                    Ok(()) => done += count,
                    Err(e) => return Err(e),
                }
            }
        }
        Ok(done)
    }

    /// Appends a string's text.
    fn append_string<W: Sink>(&mut self, writer: &mut W, value: &str) -> Result<(), Refusal>
        requires short { length value.now ≤ limit }
        ensures law { WritesTexts unmarked (scalar (string value.now) ∷ [])
            (stand W.Write W.FaultCount writer.old self.old) (as_error result)
            (stand W.Write W.FaultCount writer.new self.new) }
    {
        self.payload_outside(writer, codes::STR8, EncodingCodes::Str32, value.as_bytes())
    }
}
