//! Values without parts.
#![tactic(auto, unfolding(crate::specs::State::stand, crate::specs::Texts::why_unwritten,
// a value without parts has no sizes
amqp_base::specs::Sizes::sizes))]

ghost use Rattle.std.specs.Prelude.{◌≡◌, false};
ghost use Rattle.amqp_base.specs.Item.{Item};
ghost use Rattle.amqp_base.specs.declared.shape.Setting.{Setting};
ghost use Rattle.amqp_write.specs.State.{stand};
ghost use Rattle.amqp_write.specs.Appending.{PaysWhole, as_error};

use crate::place::Place;
use crate::refusal::Refusal;
use amqp_base::Sink;
use amqp_types::{Dec32, Dec64, Dec128, Double, Float, SymbolRef, Timestamp, Uuid};

/// A value without parts, and how its text is written where it stands.
pub trait Leaf: Drop {
    ghost shows: { Self → Setting → Item };

    /// Writes its text: outside arrays behind its constructor, in one as further data. Under
    /// another constructor than the first element's it is `InvalidValue`; a payload of more than
    /// 4,294,967,291 bytes is `Io(Other)`.
    fn put<W: Sink>(self, place: &mut Place, writer: &mut W) -> Result<(), Refusal>
        requires { place.old.ended ≡ false }
        ensures law { PaysWhole (stand W.Write W.FaultCount writer.old place.old)
            (shows self place.old.setting) (as_error result)
            (stand W.Write W.FaultCount writer.new place.new) };
}

impl Leaf for () {
    ghost use Rattle.amqp_base.specs.Item.{scalar, null};

    ghost shows = { λ _ _. scalar null };

    #[inline(always)]
    fn put<W: Sink>(self, place: &mut Place, writer: &mut W) -> Result<(), Refusal> {
        place.null(writer)
    }
}

impl Leaf for bool {
    ghost use Rattle.amqp_base.specs.Item.{scalar, boolean};

    ghost shows = { λ v _. scalar (boolean v) };

    #[inline(always)]
    fn put<W: Sink>(self, place: &mut Place, writer: &mut W) -> Result<(), Refusal> {
        place.boolean(writer, self)
    }
}

impl Leaf for u8 {
    ghost use Rattle.amqp_base.specs.Item.{scalar, ubyte};

    ghost shows = { λ v _. scalar (ubyte v) };

    #[inline(always)]
    fn put<W: Sink>(self, place: &mut Place, writer: &mut W) -> Result<(), Refusal> {
        place.ubyte(writer, self)
    }
}

impl Leaf for u16 {
    ghost use Rattle.amqp_base.specs.Item.{scalar, ushort};

    ghost shows = { λ v _. scalar (ushort v) };

    #[inline(always)]
    fn put<W: Sink>(self, place: &mut Place, writer: &mut W) -> Result<(), Refusal> {
        place.ushort(writer, self)
    }
}

impl Leaf for u32 {
    ghost use Rattle.amqp_base.specs.Item.{scalar, uint};

    ghost shows = { λ v _. scalar (uint v) };

    #[inline(always)]
    fn put<W: Sink>(self, place: &mut Place, writer: &mut W) -> Result<(), Refusal> {
        place.uint(writer, self)
    }
}

impl Leaf for u64 {
    ghost use Rattle.amqp_base.specs.Item.{scalar, ulong};

    ghost shows = { λ v _. scalar (ulong v) };

    #[inline(always)]
    fn put<W: Sink>(self, place: &mut Place, writer: &mut W) -> Result<(), Refusal> {
        place.ulong(writer, self)
    }
}

impl Leaf for i8 {
    ghost use Rattle.amqp_base.specs.Item.{scalar, byte};

    ghost shows = { λ v _. scalar (byte v) };

    #[inline(always)]
    fn put<W: Sink>(self, place: &mut Place, writer: &mut W) -> Result<(), Refusal> {
        place.byte(writer, self)
    }
}

impl Leaf for i16 {
    ghost use Rattle.amqp_base.specs.Item.{scalar, short};

    ghost shows = { λ v _. scalar (short v) };

    #[inline(always)]
    fn put<W: Sink>(self, place: &mut Place, writer: &mut W) -> Result<(), Refusal> {
        place.short(writer, self)
    }
}

impl Leaf for i32 {
    ghost use Rattle.amqp_base.specs.Item.{scalar, int};

    ghost shows = { λ v _. scalar (int v) };

    #[inline(always)]
    fn put<W: Sink>(self, place: &mut Place, writer: &mut W) -> Result<(), Refusal> {
        place.int(writer, self)
    }
}

impl Leaf for i64 {
    ghost use Rattle.amqp_base.specs.Item.{scalar, long};

    ghost shows = { λ v _. scalar (long v) };

    #[inline(always)]
    fn put<W: Sink>(self, place: &mut Place, writer: &mut W) -> Result<(), Refusal> {
        place.long(writer, self)
    }
}

impl Leaf for Float {
    ghost use Rattle.amqp_base.specs.Item.{scalar, float};

    ghost shows = { λ v _. scalar (float v) };

    #[inline(always)]
    fn put<W: Sink>(self, place: &mut Place, writer: &mut W) -> Result<(), Refusal> {
        place.float(writer, self)
    }
}

impl Leaf for Double {
    ghost use Rattle.amqp_base.specs.Item.{scalar, double};

    ghost shows = { λ v _. scalar (double v) };

    #[inline(always)]
    fn put<W: Sink>(self, place: &mut Place, writer: &mut W) -> Result<(), Refusal> {
        place.double(writer, self)
    }
}

impl Leaf for &Dec32 {
    ghost use Rattle.amqp_base.specs.Item.{scalar, decimal32};

    ghost shows = { λ v _. scalar (decimal32 v.now) };

    #[inline(always)]
    fn put<W: Sink>(self, place: &mut Place, writer: &mut W) -> Result<(), Refusal> {
        place.decimal32(writer, self)
    }
}

impl Leaf for &Dec64 {
    ghost use Rattle.amqp_base.specs.Item.{scalar, decimal64};

    ghost shows = { λ v _. scalar (decimal64 v.now) };

    #[inline(always)]
    fn put<W: Sink>(self, place: &mut Place, writer: &mut W) -> Result<(), Refusal> {
        place.decimal64(writer, self)
    }
}

impl Leaf for &Dec128 {
    ghost use Rattle.amqp_base.specs.Item.{scalar, decimal128};

    ghost shows = { λ v _. scalar (decimal128 v.now) };

    #[inline(always)]
    fn put<W: Sink>(self, place: &mut Place, writer: &mut W) -> Result<(), Refusal> {
        place.decimal128(writer, self)
    }
}

impl Leaf for char {
    ghost use Rattle.amqp_base.specs.Item.{scalar, char};

    ghost shows = { λ v _. scalar (char v) };

    #[inline(always)]
    fn put<W: Sink>(self, place: &mut Place, writer: &mut W) -> Result<(), Refusal> {
        place.char(writer, self)
    }
}

impl Leaf for Timestamp {
    ghost use Rattle.amqp_base.specs.Item.{scalar, timestamp};

    ghost shows = { λ v _. scalar (timestamp v) };

    #[inline(always)]
    fn put<W: Sink>(self, place: &mut Place, writer: &mut W) -> Result<(), Refusal> {
        place.timestamp(writer, self.milliseconds())
    }
}

impl Leaf for &Uuid {
    ghost use Rattle.amqp_base.specs.Item.{scalar, uuid};

    ghost shows = { λ v _. scalar (uuid v.now) };

    #[inline(always)]
    fn put<W: Sink>(self, place: &mut Place, writer: &mut W) -> Result<(), Refusal> {
        place.uuid(writer, self)
    }
}

impl Leaf for &[u8] {
    ghost use Rattle.amqp_base.specs.Item.{scalar, binary};

    ghost shows = { λ v _. scalar (binary v.now) };

    #[inline(always)]
    fn put<W: Sink>(self, place: &mut Place, writer: &mut W) -> Result<(), Refusal> {
        place.binary(writer, self)
    }
}

impl Leaf for SymbolRef<'_> {
    ghost use Rattle.amqp_base.specs.Item.{scalar, symbol};

    ghost shows = { λ v _. scalar (symbol v.0.now) };

    #[inline(always)]
    fn put<W: Sink>(self, place: &mut Place, writer: &mut W) -> Result<(), Refusal> {
        place.symbol(writer, self.0)
    }
}

impl Leaf for &str {
    ghost use Rattle.amqp_base.specs.Typing.{text_item};

    ghost shows = { λ v s. text_item v.now s };

    #[inline(always)]
    fn put<W: Sink>(self, place: &mut Place, writer: &mut W) -> Result<(), Refusal> {
        place.text(writer, self)
    }
}
