//! Numbers without a sign.

ghost use Rattle.amqp_base.specs.Item.{scalar, ubyte, ushort, uint, ulong};
ghost use Rattle.amqp_ser.specs.Law.{Writes};

use crate::Serializer;
use crate::answer::answer;
use amqp_base::{Error, Sink};
use std::alloc::Global;

impl<W: Sink> Serializer<W> {
    /// Writes a ubyte (section 1.6.3): 50 and a byte; in an array the byte. It takes no memory of
    /// its own.
    ///
    /// `InvalidValue`: the array that it is to stand in has elements under another constructor.
    #[inline(always)]
    pub fn serialize_u8(&mut self, alloc: Global, v: u8) -> Result<(), Error>
        ensures { Writes self.old.state (scalar (ubyte v)) result self.new.state }
    {
        let _ = alloc;
        answer!(self.leaf(v))
    }

    /// Writes a ushort (section 1.6.4): 60 and two bytes, the high one first; in an array the two
    /// bytes. It takes no memory of its own.
    ///
    /// `InvalidValue`: the array that it is to stand in has elements under another constructor.
    #[inline(always)]
    pub fn serialize_u16(&mut self, alloc: Global, v: u16) -> Result<(), Error>
        ensures { Writes self.old.state (scalar (ushort v)) result self.new.state }
    {
        let _ = alloc;
        answer!(self.leaf(v))
    }

    /// Writes a uint (section 1.6.5): outside arrays 43 for 0, 52 and a byte up to 255, else 70 and
    /// four bytes, highest first; in an array four bytes. It takes no memory of its own.
    ///
    /// `InvalidValue`: the array that it is to stand in has elements under another constructor.
    #[inline(always)]
    pub fn serialize_u32(&mut self, alloc: Global, v: u32) -> Result<(), Error>
        ensures { Writes self.old.state (scalar (uint v)) result self.new.state }
    {
        let _ = alloc;
        answer!(self.leaf(v))
    }

    /// Writes a ulong (section 1.6.6): outside arrays 44 for 0, 53 and a byte up to 255, else 80
    /// and eight bytes, highest first; in an array eight bytes. It takes no memory of its own.
    ///
    /// `InvalidValue`: the array that it is to stand in has elements under another constructor.
    #[inline(always)]
    pub fn serialize_u64(&mut self, alloc: Global, v: u64) -> Result<(), Error>
        ensures { Writes self.old.state (scalar (ulong v)) result self.new.state }
    {
        let _ = alloc;
        answer!(self.leaf(v))
    }
}
