//! Tuples, part by part.

ghost use Rattle.std.specs.Prelude.{◌≡◌, ℕ, ◌++◌, ◌∷◌, [], length, true};
ghost use Rattle.std.specs.Prelude.{false, IsTrue, IfOk, IfErr, OnOk, List};
ghost use Rattle.std.specs.Borrow.{sem, RestsIfErr};
ghost use Rattle.amqp_base.specs.Item.{Item};
ghost use Rattle.amqp_base.specs.Shapes.{whole};
ghost use Rattle.amqp_ser.specs.State.{State};
ghost use Rattle.amqp_ser.specs.Law.{Wrote, Refused};
ghost use Rattle.amqp_ser.specs.Compound.{open_state, RefusesOpen, Holds, BeginsWith, FailedAs};
ghost use Rattle.amqp_ser.specs.Compound.{WritesEach};
ghost use Rattle.amqp_ser.specs.Variants.{HasVariant, fields_item};
ghost use Rattle.amqp_ser.specs.contracts.serializer.Serializer.{the_row};

use crate::answer::answer;
use crate::compound::{Announced, Compound};
use crate::{Serialize, Serializer, VariantSerializer};
use amqp_base::{Error, Setting, Shape, Sink};
use amqp_write::no_memory;
use std::alloc::Global;

/// A tuple that is being written, part by part: a list of just so many elements as were announced.
/// Over a caller's writer nothing of it reaches that before `end`. Until `end` succeeded its
/// serializer answers nothing but `InvalidValue`, also where it is dropped.
pub type TupleSerializer<'a, W> = Compound<'a, W, Announced>;

impl<W: Sink> Serializer<W> {
    /// Opens a tuple of `len` parts, which is written as a list (section 1.6.22).
    ///
    /// `OutOfMemory`: there is no memory for its buffer.
    #[inline(always)]
    pub fn serialize_tuple(
        &mut self,
        alloc: Global,
        len: usize,
    ) -> Result<TupleSerializer<'_, W>, Error>
        ensures* rests { sem 𝓛 (RestsIfErr (the_row W.row W.Write W.FaultCount) self.entry (λ q.
            q.ser.ghost_name) result (λ n. RefusesOpen (Shape.Tuple len) self.old.state result
            n.state)) }
        ensures same_reference { IfOk result (λ q. q.ser.ghost_name ≡ self.entry.ghost_name) }
        ensures held { IfOk result (λ q. q.ser.now.state.ended ≡ true) }
        ensures opened { IfOk result (λ q. Holds self.old.state
            (Shape.Tuple len) [] (open_state q)) }
    {
        match self.begin(alloc, Shape::Tuple(len)) {
            Ok(parts) => {
                return Ok(Compound {
                    ser: self,
                    parts,
                    form: Announced,
                });
            }
            Err(e) => return Err(e),
        }
    }
}

impl<'a, W: Sink> TupleSerializer<'a, W> {
    /// Writes one more part. It is refused as the part's own `serialize`; then the compound answers
    /// `InvalidValue` to all that follows, `end` too. A part beyond the announced number is refused
    /// at `end`.
    #[inline(always)]
    pub fn serialize_element<T: Serialize>(&mut self, alloc: Global, value: &T) -> Result<(), Error>
        ensures same_reference { self.new.ser.ghost_name ≡ self.old.ser.ghost_name }
        ensures law { WritesEach (T.meaning.item value.now Setting.Plain ∷ [])
            (open_state self.old) result self.new.ser.now.state (open_state self.new) }
    {
        self.write_next(alloc, value)
    }
}

/// Parts of a tuple, in order.
pub trait TupleParts: Drop {
    ghost use Rattle.std.specs.Prelude.{List};
    ghost use Rattle.amqp_base.specs.Item.{Item};

    /// The parts.
    ghost items: { Self → List Item };

    /// Writes them, in order: whether all were written. Where one is refused `failed` says why; the
    /// one place for it, as each `Result` would be another.
    fn write<W: Sink>(
        &self,
        alloc: Global,
        out: &mut TupleSerializer<'_, W>,
        failed: &mut Option<Error>,
    ) -> bool
        ensures same_reference { out.new.ser.ghost_name ≡ out.old.ser.ghost_name }
        ensures ok { IsTrue result → (s : State) (shape : Shape) (xs : List Item) →
            Holds s shape xs (open_state out.old) →
            Holds s shape (xs ++ items self.now) (open_state out.new) }
        ensures err { result ≡ false → FailedAs failed.new (λ e.
            (s : State) (shape : Shape) (xs all : List Item) →
            Holds s shape xs (open_state out.old) → BeginsWith all (xs ++ items self.now) →
            Refused s (whole shape all) e out.new.ser.now.state) };

    /// Writes them, in order, as the fields of an enum's variant.
    fn write_fields<W: Sink>(
        &self,
        alloc: Global,
        out: &mut VariantSerializer<'_, W>,
    ) -> Result<(), Error>
        ensures same_reference { out.new.ser.ghost_name ≡ out.old.ser.ghost_name }
        ensures ok { OnOk result ((s : State) (index len : ℕ) (xs : List Item) →
            HasVariant s index len xs out.old →
            HasVariant s index len (xs ++ items self.now) out.new) }
        ensures err { IfErr result (λ e. (s : State) (index len : ℕ) (xs all : List Item) →
            HasVariant s index len xs out.old → BeginsWith all (xs ++ items self.now) →
            Refused s (fields_item index len all) e out.new.ser.now.state) };
}

impl TupleParts for () {
    ghost items = { λ _. [] };

    #[inline(always)]
    fn write<W: Sink>(
        &self,
        alloc: Global,
        out: &mut TupleSerializer<'_, W>,
        failed: &mut Option<Error>,
    ) -> bool {
        let (_, _, _) = (alloc, out, failed);
        true
    }

    #[inline(always)]
    fn write_fields<W: Sink>(
        &self,
        alloc: Global,
        out: &mut VariantSerializer<'_, W>,
    ) -> Result<(), Error> {
        let (_, _) = (alloc, out);
        Ok(())
    }
}

/// A part, and the parts behind it.
#[derive(Drop)]
pub struct Part<'a, T, Rest> {
    /// Its value.
    pub value: &'a T,
    /// The parts behind it.
    pub rest: Rest,
}

impl<T: Serialize, Rest: TupleParts> TupleParts for Part<'_, T, Rest> {
    ghost use Rattle.amqp_base.specs.declared.shape.Setting.TheVariants.{Plain};

    ghost items = { λ p. T.meaning.item p.value.now Plain ∷ Rest.items p.rest };

    #[inline(always)]
    fn write<W: Sink>(
        &self,
        alloc: Global,
        out: &mut TupleSerializer<'_, W>,
        failed: &mut Option<Error>,
    ) -> bool {
        match out.write_next(alloc, self.value) {
            Ok(()) => return self.rest.write(alloc, out, failed),
            Err(e) => {
                *failed = Some(e);
                return false;
            }
        }
    }

    #[inline(always)]
    fn write_fields<W: Sink>(
        &self,
        alloc: Global,
        out: &mut VariantSerializer<'_, W>,
    ) -> Result<(), Error> {
        match out.serialize_field(alloc, self.value) {
            Ok(()) => answer!(self.rest.write_fields(alloc, out)),
            Err(e) => return Err(e),
        }
    }
}

impl<W: Sink> Serializer<W> {
    /// Writes a tuple, all its parts at once: a list of just so many as are announced.
    ///
    /// The refusals are those of the parts. `SequenceLengthMismatch`: they are another number.
    /// `Io(Other)`: they have more than 4,294,967,291 bytes. `InvalidValue`: the array that the
    /// whole is to stand in has other elements. `OutOfMemory`: there is no memory for a buffer.
    #[inline(always)]
    pub fn serialize_parts<P: TupleParts>(
        &mut self,
        alloc: Global,
        len: usize,
        parts: &P,
    ) -> Result<(), Error>
        ensures ok { OnOk result (Wrote self.old.state
            (whole (Shape.Tuple len) (P.items parts.now)) self.new.state) }
        ensures err { length (P.items parts.now) ≡ len →
            IfErr result (λ e. Refused self.old.state
            (whole (Shape.Tuple len) (P.items parts.now)) e self.new.state) }
        ensures number { OnOk result (length (P.items parts.now) ≡ len) }
    {
        let mut out = match self.serialize_tuple(alloc, len) {
            Ok(out) => out,
            Err(e) => return Err(e),
        };
        let mut failed = None;
        if parts.write(alloc, &mut out, &mut failed) {
            answer!(out.end());
        }
        match failed {
            Some(e) => return Err(e),
            None => return Err(no_memory()),
        }
    }
}

/// Writes a tuple or a tuple struct by its parts: `write_parts!(ser, alloc, self, Colour { 0, 1, 2
/// })` calls `Serializer::serialize_parts` with these parts of `self`, in this order.
#[macro_export]
macro_rules! write_parts {
    ($ser:expr, $alloc:expr, $of:expr, $name:ident { $($part:tt),* $(,)? } $(,)?) => {
        $ser.serialize_parts(
            $alloc,
            $crate::write_parts!(@count $($part),*),
            &$crate::write_parts!(@parts $of; $($part),*),
        )
    };
    (@count) => { 0 };
    (@count $part:tt $(, $rest:tt)*) => { 1 + $crate::write_parts!(@count $($rest),*) };
    (@parts $of:expr;) => { () };
    (@parts $of:expr; $part:tt $(, $rest:tt)*) => {
        $crate::Part {
            value: &$of.$part,
            rest: $crate::write_parts!(@parts $of; $($rest),*),
        }
    };
}

/// The one value, as a list of it.
impl<A: Serialize> Serialize for (A,) {
    #[inline(always)]
    fn serialize<W: Sink>(&self, alloc: Global, ser: &mut Serializer<W>) -> Result<(), Error> {
        let parts = Part {
            value: &self.0,
            rest: (),
        };
        answer!(ser.serialize_parts(alloc, 1, &parts))
    }
}

/// Two values, as a list of them.
impl<A: Serialize, B: Serialize> Serialize for (A, B) {
    #[inline(always)]
    fn serialize<W: Sink>(&self, alloc: Global, ser: &mut Serializer<W>) -> Result<(), Error> {
        let parts = Part {
            value: &self.0,
            rest: Part {
                value: &self.1,
                rest: (),
            },
        };
        answer!(ser.serialize_parts(alloc, 2, &parts))
    }
}

/// Three values, as a list of them.
impl<A: Serialize, B: Serialize, C: Serialize> Serialize for (A, B, C) {
    #[inline(always)]
    fn serialize<W: Sink>(&self, alloc: Global, ser: &mut Serializer<W>) -> Result<(), Error> {
        let parts = Part {
            value: &self.0,
            rest: Part {
                value: &self.1,
                rest: Part {
                    value: &self.2,
                    rest: (),
                },
            },
        };
        answer!(ser.serialize_parts(alloc, 3, &parts))
    }
}

/// Four values, as a list of them.
impl<A: Serialize, B: Serialize, C: Serialize, D: Serialize> Serialize for (A, B, C, D) {
    #[inline(always)]
    fn serialize<W: Sink>(&self, alloc: Global, ser: &mut Serializer<W>) -> Result<(), Error> {
        let parts = Part {
            value: &self.0,
            rest: Part {
                value: &self.1,
                rest: Part {
                    value: &self.2,
                    rest: Part {
                        value: &self.3,
                        rest: (),
                    },
                },
            },
        };
        answer!(ser.serialize_parts(alloc, 4, &parts))
    }
}
