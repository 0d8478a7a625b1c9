//! Items that nobody asks for.

ghost use Rattle.std.specs.Prelude.{◌≡◌, ◌<◌, true, false, IfOk, IfErr};
ghost use Rattle.amqp_base.specs.Codes.{Kind, row};
ghost use Rattle.amqp_base.specs.Describing.{is_described_of, described_refusal};
ghost use Rattle.amqp_base.specs.Maps.{is_map_of};
ghost use Rattle.amqp_base.specs.Refusing.{seq_refusal, map_refusal};
ghost use Rattle.amqp_base.specs.Typing.{is_seq_of};
ghost use Rattle.amqp_de.specs.Ignored.{has_inside, nested, anything, ignored_refusal};
ghost use Rattle.amqp_de.specs.Ignored.{ignored_of, Passes, PassesKind, ReadsKind, IsInside};
ghost use Rattle.amqp_de.specs.Ignored.{taken_with, refused_with, Passed, PassedNot};
ghost use Rattle.amqp_de.specs.Access.{Part, NoPart, PartNamed};
ghost use Rattle.amqp_de.specs.Seq.{at_open};

use crate::list::{Open, is_within};
use crate::{Deserialize, Deserializer};
use amqp_base::{EncodingCodes, Error, RoundTrip, Typed};
use amqp_read::Read;
use amqp_types::{Binary, Dec32, Dec64, Dec128, Double, Float, Symbol, Timestamp, Uuid};
use std::alloc::Global;

/// How many lists, maps, arrays and described values may stand one inside the other in an item that
/// is ignored. Each of them takes a part of the stack, and a stranger may nest thousands in as many
/// bytes.
pub const MAX_NESTED: u32 = 64;

/// An item of any kind, of which nothing is kept: the value of a key that nobody asks for, or a
/// field behind those that are awaited.
#[derive(Debug, Clone, Copy, PartialEq, Eq)]
pub struct Ignored;

impl Typed for Ignored {
    ghost meaning = { ignored_of 64 };
}

impl RoundTrip for Ignored {
    ghost use Rattle.std.specs.Prelude.{refl};

    ghost reads_back = { refl };
}

/// What stands inside an item.
#[derive(Clone, Copy)]
enum Inside {
    /// A value behind a descriptor.
    Value,
    /// The elements of a list or an array.
    Elements,
    /// The keys and values of a map.
    Entries,
}

/// What stands inside an item of a code; `None` where it has no parts.
fn inside_of(code: EncodingCodes) -> Option<Inside>
    ensures { IsInside (row code).kind result }
{
    match code {
        EncodingCodes::DescribedType => Some(Inside::Value),
        EncodingCodes::List0 => Some(Inside::Elements),
        EncodingCodes::List8 => Some(Inside::Elements),
        EncodingCodes::List32 => Some(Inside::Elements),
        EncodingCodes::Array8 => Some(Inside::Elements),
        EncodingCodes::Array32 => Some(Inside::Elements),
        EncodingCodes::Map8 => Some(Inside::Entries),
        EncodingCodes::Map32 => Some(Inside::Entries),
        _ => None,
    }
}

impl<R: Read> Deserializer<R> {
    /// A value without parts of a type, of which nothing is kept.
    fn pass<T: Deserialize<R>>(&mut self, alloc: Global) -> Result<(), Error>
        ensures { (k : Kind) → ReadsKind T.meaning k →
            PassesKind k R.buffers self.old result self.new }
    {
        match T::deserialize(alloc, self) {
            Ok(_) => Ok(()),
            Err(e) => Err(e),
        }
    }

    /// A value without parts, whose code stands there.
    fn pass_scalar(&mut self, alloc: Global, code: EncodingCodes) -> Result<(), Error>
        requires { has_inside (row code).kind ≡ false }
        ensures { PassesKind (row code).kind R.buffers self.old result self.new }
    {
        match code {
            EncodingCodes::Null => self.pass::<()>(alloc),
            EncodingCodes::Boolean | EncodingCodes::BooleanTrue | EncodingCodes::BooleanFalse =>
                self.pass::<bool>(alloc),
            EncodingCodes::Ubyte => self.pass::<u8>(alloc),
            EncodingCodes::Ushort => self.pass::<u16>(alloc),
            EncodingCodes::Uint | EncodingCodes::SmallUint | EncodingCodes::Uint0 => self.pass::<
                u32,
            >(alloc),
            EncodingCodes::Ulong | EncodingCodes::SmallUlong | EncodingCodes::Ulong0 => self.pass::<
                u64,
            >(alloc),
            EncodingCodes::Byte => self.pass::<i8>(alloc),
            EncodingCodes::Short => self.pass::<i16>(alloc),
            EncodingCodes::Int | EncodingCodes::SmallInt => self.pass::<i32>(alloc),
            EncodingCodes::Long | EncodingCodes::SmallLong => self.pass::<i64>(alloc),
            EncodingCodes::Float => self.pass::<Float>(alloc),
            EncodingCodes::Double => self.pass::<Double>(alloc),
            EncodingCodes::Decimal32 => self.pass::<Dec32>(alloc),
            EncodingCodes::Decimal64 => self.pass::<Dec64>(alloc),
            EncodingCodes::Decimal128 => self.pass::<Dec128>(alloc),
            EncodingCodes::Char => self.pass::<char>(alloc),
            EncodingCodes::Timestamp => self.pass::<Timestamp>(alloc),
            EncodingCodes::Uuid => self.pass::<Uuid>(alloc),
            EncodingCodes::Vbin8 | EncodingCodes::Vbin32 => self.pass::<Binary>(alloc),
            EncodingCodes::Str8 | EncodingCodes::Str32 => self.pass::<String>(alloc),
            EncodingCodes::Sym8 | EncodingCodes::Sym32 => self.pass::<Symbol>(alloc),
            _ => unreachable!(),
        }
    }

    /// Any item, in which so many lists, maps, arrays and described values may stand one inside the
    /// other.
    #[cycle(ignored)]
    fn pass_over(&mut self, alloc: Global, depth: u32) -> Result<(), Error>
        ensures { Passes (nested depth) (ignored_refusal depth) R.buffers self.old
            result self.new }
    {
        match self.deserialize_any() {
            Ok(code) => match inside_of(code) {
                None => match self.pass_scalar(alloc, code) {
                    Ok(()) => Ok(()),
                    Err(e) => Err(e),
                },
                Some(inside) => {
                    if depth == 0 {
                        self.stop();
                        return Err(Error::InvalidValue);
                    }
                    match self.pass_inside(alloc, inside, depth - 1) {
                        Ok(()) => Ok(()),
                        Err(e) => Err(e),
                    }
                }
            },
            Err(e) => Err(e),
        }
    }

    /// An item with others inside.
    #[cycle(ignored)]
    fn pass_inside(&mut self, alloc: Global, inside: Inside, depth: u32) -> Result<(), Error>
        ensures { Passes (taken_with inside (nested depth))
            (refused_with inside (nested depth) (ignored_refusal depth)) R.buffers self.old
            result self.new }
    {
        match inside {
            Inside::Value => self.pass_described(alloc, depth),
            Inside::Elements => self.pass_elements(alloc, depth),
            Inside::Entries => self.pass_entries(alloc, depth),
        }
    }

    /// A descriptor, and the value behind it.
    #[cycle(ignored)]
    fn pass_described(&mut self, alloc: Global, depth: u32) -> Result<(), Error>
        ensures { Passes (is_described_of (nested depth))
            (described_refusal (ignored_refusal depth)) R.buffers self.old result self.new }
    {
        match self.deserialize_descriptor(alloc) {
            Ok(_) => match self.pass_over(alloc, depth) {
                Ok(()) => Ok(()),
                Err(e) => Err(e),
            },
            Err(e) => Err(e),
        }
    }

    /// A list or an array.
    #[cycle(ignored)]
    fn pass_elements(&mut self, alloc: Global, depth: u32) -> Result<(), Error>
        ensures { Passes (is_seq_of (nested depth))
            (seq_refusal (nested depth) (ignored_refusal depth)) R.buffers self.old
            result self.new }
    {
        match self.open_elements(alloc) {
            Ok(mut open) => match self.pass_parts(alloc, &mut open, depth) {
                Ok(()) => match self.close(open) {
                    Ok(()) => Ok(()),
                    Err(e) => Err(e),
                },
                Err(e) => Err(e),
            },
            Err(e) => Err(e),
        }
    }

    /// A map.
    #[cycle(ignored)]
    fn pass_entries(&mut self, alloc: Global, depth: u32) -> Result<(), Error>
        ensures { Passes (is_map_of (nested depth) (nested depth))
            (map_refusal (nested depth) (ignored_refusal depth) (nested depth)
            (ignored_refusal depth)) R.buffers self.old result self.new }
    {
        match self.open_pairs() {
            Ok(mut open) => match self.pass_parts(alloc, &mut open, depth) {
                Ok(()) => match self.close(open) {
                    Ok(()) => Ok(()),
                    Err(e) => Err(e),
                },
                Err(e) => Err(e),
            },
            Err(e) => Err(e),
        }
    }

    /// All parts that are left.
    #[cycle(ignored)]
    fn pass_parts(&mut self, alloc: Global, inner: &mut Open, depth: u32) -> Result<(), Error>
        requires { self.old.ended ≡ false }
        ensures ok { IfOk result (λ _.
            Passed (nested depth) (at_open self.old inner.old) (at_open self.new inner.new)) }
        ensures all { IfOk result (λ _. inner.new.left ≡ 0) }
        ensures err { IfErr result (λ e.
            PassedNot (nested depth) (ignored_refusal depth) R.buffers
            (at_open self.old inner.old) (at_open self.new inner.new) e) }
    {
        'parts: while inner.left > 0 {
            match self.pass_part(alloc, inner, depth) {
                Ok(()) => {}
                Err(e) => return Err(e),
            }
        }
        Ok(())
    }

    /// The next part.
    #[cycle(ignored)]
    fn pass_part(&mut self, alloc: Global, inner: &mut Open, depth: u32) -> Result<(), Error>
        requires { (self.old.ended ≡ false) × (0 < inner.old.left) }
        ensures ok { IfOk result (λ _. Part (nested depth) anything (at_open self.old inner.old)
            (at_open self.new inner.new)) }
        ensures err { IfErr result (λ e. NoPart (nested depth) true R.buffers
            (at_open self.old inner.old) (at_open self.new inner.new) e) }
        ensures named { IfErr result (λ e.
            PartNamed (nested depth) (ignored_refusal depth) true R.buffers
            (at_open self.old inner.old) (at_open self.new inner.new) e) }
    {
        match self.pass_over(alloc, depth) {
            Ok(()) => {
                let consumed = self.bytes_consumed();
                let within = is_within(consumed, &inner.limit);
                if !within {
                    self.stop();
                    return Err(Error::InvalidValue);
                }
                inner.left -= 1;
                Ok(())
            }
            Err(e) => {
                self.stop();
                Err(e)
            }
        }
    }
}

impl<R: Read> Deserialize<R> for Ignored {
    /// Any item, whole: what stands inside is looked at, too, and nothing of it is kept.
    ///
    /// `Io(UnexpectedEof)` where there is no byte, `InvalidFormatCode` where it is no code,
    /// `InvalidValue` where more than `MAX_NESTED` lists, maps, arrays and described values stand
    /// one inside the other, else the refusals of the kind that stands there: of a value without
    /// parts, of a list or an array as `Vec`, of a map, and of a described value as `Described`.
    fn deserialize(alloc: Global, de: &mut Deserializer<R>) -> Result<Ignored, Error> {
        match de.pass_over(alloc, MAX_NESTED) {
            Ok(()) => Ok(Ignored),
            Err(e) => Err(e),
        }
    }
}
