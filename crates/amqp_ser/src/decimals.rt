//! Decimals.

ghost use Rattle.amqp_base.specs.Item.{scalar, decimal32, decimal64, decimal128};
ghost use Rattle.amqp_ser.specs.Law.{Writes};

use crate::answer::answer;
use crate::{Serialize, Serializer};
use amqp_base::{Error, Sink};
use amqp_types::{Dec32, Dec64, Dec128};
use std::alloc::Global;

impl<W: Sink> Serializer<W> {
    /// Writes a decimal32 (section 1.6.13): 74 and its four bytes; in an array the four bytes. It
    /// takes no memory of its own.
    ///
    /// `InvalidValue`: the array that it is to stand in has elements under another constructor.
    #[inline(always)]
    pub fn serialize_decimal32(&mut self, alloc: Global, v: &Dec32) -> Result<(), Error>
        ensures { Writes self.old.state (scalar (decimal32 v.now)) result self.new.state }
    {
        let _ = alloc;
        answer!(self.leaf(v))
    }

    /// Writes a decimal64 (section 1.6.14): 84 and its eight bytes; in an array the eight bytes. It
    /// takes no memory of its own.
    ///
    /// `InvalidValue`: the array that it is to stand in has elements under another constructor.
    #[inline(always)]
    pub fn serialize_decimal64(&mut self, alloc: Global, v: &Dec64) -> Result<(), Error>
        ensures { Writes self.old.state (scalar (decimal64 v.now)) result self.new.state }
    {
        let _ = alloc;
        answer!(self.leaf(v))
    }

    /// Writes a decimal128 (section 1.6.15): 94 and its sixteen bytes; in an array the sixteen
    /// bytes. It takes no memory of its own.
    ///
    /// `InvalidValue`: the array that it is to stand in has elements under another constructor.
    #[inline(always)]
    pub fn serialize_decimal128(&mut self, alloc: Global, v: &Dec128) -> Result<(), Error>
        ensures { Writes self.old.state (scalar (decimal128 v.now)) result self.new.state }
    {
        let _ = alloc;
        answer!(self.leaf(v))
    }
}

impl Serialize for Dec32 {
    #[inline(always)]
    fn serialize<W: Sink>(&self, alloc: Global, ser: &mut Serializer<W>) -> Result<(), Error> {
        answer!(ser.serialize_decimal32(alloc, self))
    }
}

impl Serialize for Dec64 {
    #[inline(always)]
    fn serialize<W: Sink>(&self, alloc: Global, ser: &mut Serializer<W>) -> Result<(), Error> {
        answer!(ser.serialize_decimal64(alloc, self))
    }
}

impl Serialize for Dec128 {
    #[inline(always)]
    fn serialize<W: Sink>(&self, alloc: Global, ser: &mut Serializer<W>) -> Result<(), Error> {
        answer!(ser.serialize_decimal128(alloc, self))
    }
}
