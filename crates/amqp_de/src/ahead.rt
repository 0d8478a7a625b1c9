//! Bytes of parts that are received before these are read.

ghost use Rattle.std.specs.Prelude.{◌≡◌, ◌<◌, ◌≤◌, IfErr};
ghost use Rattle.amqp_data.specs.Places.{constructor_of};
ghost use Rattle.amqp_de.specs.Ahead.{Ahead, AheadFails, first_least, parts_least};
ghost use Rattle.amqp_de.specs.ReadParts.{open_list};
ghost use Rattle.amqp_de.specs.Seq.{at_open};

use crate::list::{Access, Open};
use crate::{Deserialize, Deserializer};
use amqp_base::{EncodingCodes, Error};
use amqp_data::{Constructor, least_width, own_width};
use amqp_read::Read;
use std::convert::TryFrom;

/// So few bytes cost less where they are asked for one by one.
const FEW: usize = 4;

/// Where so many bytes are at hand none are received ahead: a short item stands there as a whole.
const ENOUGH: usize = 64;

/// The least bytes of an item that has data, of its length or its own, behind its code.
pub(crate) const WITH_DATA: usize = 2;

impl<R: Read, F> Access<'_, R, F> {
    /// Receives some bytes of the parts that are left, values of `T`, where few are at hand, and no
    /// byte behind them. No part is read.
    ///
    /// The errors are a fault of the source, and `OutOfMemory` where the bytes find no memory.
    #[inline(always)]
    #[tactic(auto, unfolding(crate::specs::ReadParts::open_list))]
    pub(crate) fn receive_ahead<T: Deserialize<R>>(&mut self) -> Result<(), Error>
        ensures same_reference { self.new.de.ghost_name ≡ self.old.de.ghost_name }
        ensures ahead { Ahead T.meaning.takes (open_list self.old) (open_list self.new) }
        ensures why { IfErr result (λ e.
            AheadFails R.buffers (open_list self.old) (open_list self.new) e) }
    {
        self.de.receive_parts::<T>(&self.inner)
    }
}

/// How many bytes an item takes at least, of which these are the first.
#[inline(always)]
#[tactic(auto, using(crate::proofs::ReceivedAhead::behind_again))]
fn first_least(bytes: &[u8]) -> usize
    ensures { result ≤ first_least bytes.now }
{
    match bytes.first() {
        None => 1,
        Some(code) => match EncodingCodes::try_from(*code) {
            Ok(code) => own_width(code).saturating_add(1),
            Err(_) => 1,
        },
    }
}

/// How many bytes parts take at least, as far as a usize counts: as many as these, of `width` bytes
/// at least with constructors of their own, of which these bytes are the first.
#[inline(always)]
fn parts_least(width: usize, parts: u32, constructor: &Constructor, bytes: &[u8]) -> usize
    requires { 0 < parts }
    ensures { result ≤ parts_least width parts (constructor_of constructor.now) bytes.now }
{
    match constructor {
        Constructor::Bare => {
            let others = (parts as usize - 1).saturating_mul(width);
            first_least(bytes).max(width).saturating_add(others)
        }
        _ => (parts as usize).saturating_mul(least_width(constructor)),
    }
}

impl<R: Read> Deserializer<R> {
    /// Bytes of the parts that are left are received, as many as those take at least: the first one
    /// as many as its code says, where that is at hand.
    #[inline(always)]
    fn receive_parts<T: Deserialize<R>>(&mut self, inner: &Open) -> Result<(), Error>
        ensures ahead { Ahead T.meaning.takes (at_open self.old inner.now)
            (at_open self.new inner.now) }
        ensures why { IfErr result (λ e.
            AheadFails R.buffers (at_open self.old inner.now) (at_open self.new inner.now) e) }
    {
        if inner.left == 0 || self.reader.at_hand() >= ENOUGH {
            return Ok(());
        }
        let bytes = self.reader.bytes_at_hand();
        let least = parts_least(T::least_len(), inner.left, &self.inherited, bytes);
        if least < FEW {
            return Ok(());
        }
        match self.reader.receive_ahead(least) {
            Ok(()) => Ok(()),
            Err(e) => Err(e),
        }
    }
}
