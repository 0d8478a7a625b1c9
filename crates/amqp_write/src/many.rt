//! Values that are written many at a time.

ghost use Rattle.std.specs.Prelude.{◌≤◌, IfOk, length, map, take};
ghost use Rattle.amqp_write.specs.State.{Mark, stand, unmarked};
ghost use Rattle.amqp_write.specs.Appending.{as_error};
ghost use Rattle.amqp_write.specs.ManyTexts.{WritesTexts, how_many};

use crate::numbers::Texts;
use crate::place::Place;
use crate::refusal::Refusal;
use amqp_base::{Setting, Sink, Typed};
use std::marker::PhantomData;

/// Values that stand one after the other under one mark, and how they are written there.
pub trait Many<T: Typed> {
    ghost mark: { Mark };

    /// Writes the values, and says how many, from the front: all, or those before one that has no
    /// text. Where they are only counted, no text of theirs is made.
    fn append<W: Sink>(place: &mut Place, writer: &mut W, values: &[T]) -> Result<usize, Refusal>
        ensures few { IfOk result (λ n. n ≤ length values.now) }
        ensures law { WritesTexts mark
            (map (λ v. T.meaning.item v Setting.Plain) (take (how_many result) values.now))
            (stand W.Write W.FaultCount writer.old place.old) (as_error result)
            (stand W.Write W.FaultCount writer.new place.new) };
}

/// Numbers, by blocks of their texts.
pub struct Blocks<P>(PhantomData<P>);

impl<P: Texts<T>, T: Typed + Copy> Many<T> for Blocks<P> {
    ghost mark = { P.mark };

    #[inline(always)]
    fn append<W: Sink>(place: &mut Place, writer: &mut W, values: &[T]) -> Result<usize, Refusal> {
        match place.append_numbers::<W, P, T>(writer, values) {
            Ok(()) => Ok(values.len()),
            Err(e) => Err(e),
        }
    }
}

/// Strings outside arrays, by blocks of their texts, as far as they are short.
pub struct Strings;

impl Many<String> for Strings {
    ghost mark = { unmarked };

    #[inline(always)]
    fn append<W: Sink>(
        place: &mut Place,
        writer: &mut W,
        values: &[String],
    ) -> Result<usize, Refusal> {
        match place.append_strings(writer, values) {
            Ok(count) => Ok(count),
            Err(e) => Err(e),
        }
    }
}
