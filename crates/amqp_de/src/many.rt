//! Parts of a list that are at hand, many at a time.

ghost use Rattle.std.specs.Prelude.{◌≡◌, ◌+◌, ◌≤◌, length, IsTrue, false, take};
ghost use Rattle.std.specs.Prelude.{vec_len, vec_capacity};
ghost use Rattle.amqp_base.specs.Wire.{bare};
ghost use Rattle.amqp_de.specs.Many.{ReadsMany, PutBehind};
ghost use Rattle.amqp_de.specs.Seq.{at_open};

use crate::Deserializer;
use crate::list::Open;
use amqp_base::{Error, Typed};
use amqp_data::Constructor;
use amqp_read::Read;
use std::alloc::Global;

/// A type whose values are read many at a time, where their bytes are at hand.
pub(crate) trait Many: Typed + Sized {
    /// Puts the values that stand at the front of the bytes, each with its own constructor, behind
    /// the others, as long as there are such, so many at most, for which there is room: how many
    /// they are, and how many bytes.
    fn push_front(alloc: Global, bytes: &[u8], most: usize, items: &mut Vec<Self>) -> (usize, usize)
        requires { vec_len items.old + most ≤ vec_capacity items.old }
        ensures few { result.0 ≤ most }
        ensures within { result.1 ≤ length bytes.now }
        ensures put { PutBehind Self.meaning bare (take result.1 bytes.now) result.0
            items.old.items items.new.items };
}

impl<R: Read> Deserializer<R> {
    /// Whether the next parts have constructors of their own.
    #[inline(always)]
    pub(crate) fn is_bare(&self) -> bool
        ensures { IsTrue result → self.now.inherited ≡ bare }
    {
        match &self.inherited {
            Constructor::Bare => true,
            _ => false,
        }
    }

    /// Reads some of the next parts of a list, each with its own constructor, where they are at
    /// hand, and puts them behind the others: whether there were such.
    ///
    /// `OutOfMemory`: there is no memory for them.
    #[inline(always)]
    pub(crate) fn next_plain<T: Many>(
        &mut self,
        alloc: Global,
        inner: &mut Open,
        items: &mut Vec<T>,
    ) -> Result<bool, Error>
        ensures { ReadsMany T.meaning (at_open self.old inner.old) items.old.items result
            (at_open self.new inner.new) items.new.items }
    {
        if inner.left == 0 || self.ended || inner.limit.is_some() || !self.is_bare() {
            return Ok(false);
        }
        let bytes = self.reader.bytes_at_hand();
        let most = (inner.left as usize).min(bytes.len());
        if items.reserve(most).is_err() {
            return Err(Error::OutOfMemory);
        }
        let before = items.len();
        let (found, len) = T::push_front(alloc, bytes, most, items);
        if found == 0 || !self.reader.pass_at_hand(len) {
            items.truncate(before);
            return Ok(false);
        }
        self.described = false;
        self.begun.ticks(found);
        inner.left -= found as u32;
        Ok(true)
    }
}
