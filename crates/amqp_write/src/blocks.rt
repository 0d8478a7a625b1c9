//! Numbers whose texts are written many at a time.

ghost use Rattle.std.specs.Prelude.{◌≡◌, ◌*◌, ◌≤◌, ◌∷◌, [], false};
ghost use Rattle.std.specs.Prelude.{None, IsTrue, IfSome, length, map};
ghost use Rattle.amqp_write.specs.State.{stand};
ghost use Rattle.amqp_write.specs.Appending.{as_error};
ghost use Rattle.amqp_write.specs.ManyTexts.{CountsText, CountsTexts, HaveTextsOf, PutsAll};
ghost use Rattle.amqp_write.specs.ManyTexts.{PutsText, WritesTexts};

use crate::numbers::Texts;
use crate::place::Place;
use crate::refusal::Refusal;
use amqp_base::{Pass, Setting, Sink, Typed};

/// So many numbers are written at a time.
const MANY: usize = 32;

/// Room for the texts of so many.
const ROOM: usize = 320;

/// Room that the text of any number finds.
const LONGEST: usize = 10;

/// So many lengths are summed in four bytes.
const SUMMED: usize = 4096;

/// The bytes of a number's text.
#[inline(always)]
pub fn number_len<P: Texts<T>, T: Typed>(value: T) -> usize
    ensures text { HaveTextsOf P.mark (T.meaning.item value Setting.Plain ∷ []) result }
{
    P::text_len(value) as usize
}

/// Puts a number's text into the block from `at` on: where the next may begin. None where it finds
/// no room; then nothing was put.
#[inline(always)]
pub fn put_number<P: Texts<T>, T: Typed>(value: T, block: &mut [u8], at: usize) -> Option<usize>
    ensures text { IfSome result (λ end.
        PutsText P.mark (T.meaning.item value Setting.Plain) at block.old end block.new) }
    ensures none { result ≡ None → block.new ≡ block.old }
{
    let room = at.checked_add(LONGEST)?;
    if room > block.len() {
        return None;
    }
    Some(P::put(value, block, at))
}

/// Writes the texts of the numbers into the block, one after the other: how many bytes they are.
#[inline(always)]
fn put_all<P: Texts<T>, T: Typed + Copy>(values: &[T], block: &mut [u8]) -> usize
    requires room { length values.now * 10 ≤ length block.old }
    ensures texts { PutsAll P.mark (map (λ v. T.meaning.item v Setting.Plain) values.now) block.old
        result block.new }
{
    let mut at: usize = 0;
    for value in values {
        at = P::put(*value, block, at);
    }
    at
}

/// The bytes of the texts of a few numbers.
#[inline(always)]
fn few_lengths<P: Texts<T>, T: Typed + Copy>(values: &[T]) -> u32
    requires few { length values.now ≤ 4096 }
    ensures texts { HaveTextsOf P.mark (map (λ v. T.meaning.item v Setting.Plain) values.now)
        result }
{
    let mut sum: u32 = 0;
    for value in values {
        sum += P::text_len(*value);
    }
    sum
}

/// The bytes of the texts, as far as a usize counts. Four bytes hold the sum of a few, so that the
/// loop over them takes many at a time.
#[inline(always)]
fn lengths<P: Texts<T>, T: Typed + Copy>(values: &[T]) -> usize
    ensures texts { HaveTextsOf P.mark (map (λ v. T.meaning.item v Setting.Plain) values.now)
        result }
{
    if values.len() <= SUMMED {
        return few_lengths::<P, T>(values) as usize;
    }
    let mut sum: usize = 0;
    let mut rest = values;
    while !rest.is_empty() {
        let len = if rest.len() > SUMMED {
            SUMMED
        } else {
            rest.len()
        };
        let (now, later) = rest.split_at(len);
        rest = later;
        sum = sum.saturating_add(few_lengths::<P, T>(now) as usize);
    }
    sum
}

impl Place {
    /// Counts the text of one number, where the writer only counts. Whether it did; else nothing
    /// was done. What is done doesn't depend on the number: a branch that is guessed wrong takes
    /// longer than a text.
    #[inline(always)]
    pub(crate) fn counts<W: Sink, P: Texts<T>, T: Typed + Copy>(
        &self,
        writer: &mut W,
        value: T,
    ) -> bool
        ensures counted { IsTrue result →
            CountsText P.mark (T.meaning.item value Setting.Plain)
            (stand W.Write W.FaultCount writer.old self.now)
            (stand W.Write W.FaultCount writer.new self.now) }
        ensures same { result ≡ false → writer.new ≡ writer.old }
    {
        match (*writer).pass() {
            Pass::Measures => writer.counts(P::text_len(value) as usize),
            _ => false,
        }
    }

    /// Counts texts of so many bytes, where the writer only counts. Whether it did; else nothing
    /// was done.
    #[inline(always)]
    pub fn counts_texts<W: Sink>(&self, writer: &mut W, len: usize) -> bool
        ensures counted { IsTrue result → CountsTexts len
            (stand W.Write W.FaultCount writer.old self.now)
            (stand W.Write W.FaultCount writer.new self.now) }
        ensures same { result ≡ false → writer.new ≡ writer.old }
    {
        match (*writer).pass() {
            Pass::Measures => writer.counts(len),
            _ => false,
        }
    }

    /// Writes numbers. Where they are only counted, no text of theirs is made.
    pub fn append_numbers<W: Sink, P: Texts<T>, T: Typed + Copy>(
        &mut self,
        writer: &mut W,
        values: &[T],
    ) -> Result<(), Refusal>
        ensures law { WritesTexts P.mark (map (λ v. T.meaning.item v Setting.Plain) values.now)
            (stand W.Write W.FaultCount writer.old self.old) (as_error result)
            (stand W.Write W.FaultCount writer.new self.new) }
    {
        // Of the writer itself: a reference to it is a sink, too, whose parts are buffered.
        match (*writer).pass() {
            Pass::Measures => {
                if writer.counts(lengths::<P, T>(values)) {
                    return Ok(());
                }
                self.append_blocks::<W, P, T>(writer, values)
            }
            _ => self.append_blocks::<W, P, T>(writer, values),
        }
    }

    /// Writes numbers, by blocks.
    fn append_blocks<W: Sink, P: Texts<T>, T: Typed + Copy>(
        &mut self,
        writer: &mut W,
        values: &[T],
    ) -> Result<(), Refusal>
        ensures law { WritesTexts P.mark (map (λ v. T.meaning.item v Setting.Plain) values.now)
            (stand W.Write W.FaultCount writer.old self.old) (as_error result)
            (stand W.Write W.FaultCount writer.new self.new) }
    {
        let mut block = [0u8; ROOM];
        let mut rest = values;
        while !rest.is_empty() {
            let len = if rest.len() > MANY { MANY } else { rest.len() };
            let (now, later) = rest.split_at(len);
            rest = later;
            let end = put_all::<P, T>(now, &mut block);
            match self.append(writer, &block[..end]) {
                Ok(()) => {}
                Err(e) => return Err(e),
            }
        }
        Ok(())
    }
}
