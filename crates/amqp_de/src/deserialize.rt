//! The trait of the types that are read.

ghost use Rattle.std.specs.Prelude.{◌≡◌, ◌*◌, ◌≤◌, true, false, length, IfOk};
ghost use Rattle.std.specs.Prelude.{IfErr};
ghost use Rattle.amqp_read.specs.Steps.{HasBytes};
ghost use Rattle.amqp_de.specs.Calls.{IsRead, IsRefused, IsNamed};
ghost use Rattle.amqp_data.specs.Places.{least_width};
ghost use Rattle.amqp_de.specs.Ahead.{AtLeast};
ghost use Rattle.amqp_de.specs.Many.{ReadsMany};
ghost use Rattle.amqp_de.specs.ReadParts.{open_list};

use crate::ahead::WITH_DATA;
use crate::answer::answer;
use crate::{Deserializer, ListAccess};
use amqp_base::{Error, Typed};
use amqp_data::least_width;
use amqp_read::Read;
use amqp_types::{Binary, Double, Float, Symbol, Timestamp, Uuid};
use std::alloc::Global;

/// A type that is read from a reader. Types of one's own implement it generically over `R`, by the
/// calls of the `Deserializer` alone; `Typed` says which items the type takes, and which value each
/// of them is.
pub trait Deserialize<R: Read>: Typed + Sized {
    /// Reads the value of the next item, and consumes just that item's bytes.
    ///
    /// A value is answered only where a front of the bytes spells an item that the type takes.
    /// Where such an item stands there, the only refusals are `OutOfMemory` (of a type that takes
    /// memory, or a reader that buffers), a fault of the source, and `Io(Other)` where the bytes
    /// can't be counted. An error leaves the reader at most behind the item.
    fn deserialize(alloc: Global, de: &mut Deserializer<R>) -> Result<Self, Error>
        ensures ok { IfOk result (λ v. IsRead Self.meaning v de.old de.new) }
        ensures err { IfErr result (λ e. IsRefused Self.meaning R.buffers de.old de.new e) }
        ensures named { IfErr result (λ e. IsNamed Self.meaning R.buffers de.old de.new e) };

    /// How many bytes each of its values takes at least, with a constructor of its own. A type of
    /// one's own has no need to say it.
    #[doc(hidden)]
    #[inline(always)]
    #[tactic(auto, using(crate::proofs::ReceivedAhead::some_byte))]
    fn least_len() -> usize
        ensures { AtLeast Self.meaning.takes result }
    {
        1
    }

    /// Reads some of the next elements at once, where that is faster than one by one, and puts them
    /// behind the others: whether it did. A type of one's own has no need to say it.
    ///
    /// `OutOfMemory`: there is no memory for them, and nothing was read.
    #[doc(hidden)]
    #[inline(always)]
    fn next_elements(
        alloc: Global,
        list: &mut ListAccess<'_, R>,
        items: &mut Vec<Self>,
    ) -> Result<bool, Error>
        ensures same_reference { list.new.de.ghost_name ≡ list.old.de.ghost_name }
        ensures read { ReadsMany Self.meaning (open_list list.old) items.old.items result
            (open_list list.new) items.new.items }
    {
        let _ = alloc;
        let _ = list;
        let _ = items;
        Ok(false)
    }
}

impl<R: Read> Deserialize<R> for () {
    #[inline(always)]
    fn deserialize(_alloc: Global, de: &mut Deserializer<R>) -> Result<(), Error> {
        de.deserialize_unit()
    }
}

impl<R: Read> Deserialize<R> for bool {
    #[inline(always)]
    fn deserialize(_alloc: Global, de: &mut Deserializer<R>) -> Result<bool, Error> {
        de.deserialize_bool()
    }
}

impl<R: Read> Deserialize<R> for u8 {
    #[inline(always)]
    fn deserialize(_alloc: Global, de: &mut Deserializer<R>) -> Result<u8, Error> {
        de.deserialize_u8()
    }
}

impl<R: Read> Deserialize<R> for u16 {
    #[inline(always)]
    fn deserialize(_alloc: Global, de: &mut Deserializer<R>) -> Result<u16, Error> {
        de.deserialize_u16()
    }
}

impl<R: Read> Deserialize<R> for u32 {
    #[inline(always)]
    fn deserialize(_alloc: Global, de: &mut Deserializer<R>) -> Result<u32, Error> {
        de.deserialize_u32()
    }

    #[inline(always)]
    fn next_elements(
        alloc: Global,
        list: &mut ListAccess<'_, R>,
        items: &mut Vec<u32>,
    ) -> Result<bool, Error> {
        list.de
            .next_numbers::<u32, 4>(alloc, &mut list.inner, items)
    }
}

impl<R: Read> Deserialize<R> for u64 {
    #[inline(always)]
    fn deserialize(_alloc: Global, de: &mut Deserializer<R>) -> Result<u64, Error> {
        de.deserialize_u64()
    }

    #[inline(always)]
    fn next_elements(
        alloc: Global,
        list: &mut ListAccess<'_, R>,
        items: &mut Vec<u64>,
    ) -> Result<bool, Error> {
        list.de
            .next_numbers::<u64, 8>(alloc, &mut list.inner, items)
    }
}

impl<R: Read> Deserialize<R> for i8 {
    #[inline(always)]
    fn deserialize(_alloc: Global, de: &mut Deserializer<R>) -> Result<i8, Error> {
        de.deserialize_i8()
    }
}

impl<R: Read> Deserialize<R> for i16 {
    #[inline(always)]
    fn deserialize(_alloc: Global, de: &mut Deserializer<R>) -> Result<i16, Error> {
        de.deserialize_i16()
    }
}

impl<R: Read> Deserialize<R> for i32 {
    #[inline(always)]
    fn deserialize(_alloc: Global, de: &mut Deserializer<R>) -> Result<i32, Error> {
        de.deserialize_i32()
    }

    #[inline(always)]
    #[tactic(auto, using(crate::proofs::ReceivedAhead::int_least))]
    fn least_len() -> usize {
        WITH_DATA
    }

    #[inline(always)]
    fn next_elements(
        alloc: Global,
        list: &mut ListAccess<'_, R>,
        items: &mut Vec<i32>,
    ) -> Result<bool, Error> {
        list.de
            .next_numbers::<i32, 4>(alloc, &mut list.inner, items)
    }
}

impl<R: Read> Deserialize<R> for i64 {
    #[inline(always)]
    fn deserialize(_alloc: Global, de: &mut Deserializer<R>) -> Result<i64, Error> {
        de.deserialize_i64()
    }
}

impl<R: Read> Deserialize<R> for char {
    #[inline(always)]
    fn deserialize(_alloc: Global, de: &mut Deserializer<R>) -> Result<char, Error> {
        de.deserialize_char()
    }
}

impl<R: Read> Deserialize<R> for String {
    #[inline(always)]
    fn deserialize(alloc: Global, de: &mut Deserializer<R>) -> Result<String, Error> {
        answer!(de.deserialize_string(alloc))
    }

    #[inline(always)]
    #[tactic(auto, using(crate::proofs::ReceivedAhead::string_least))]
    fn least_len() -> usize {
        WITH_DATA
    }

    #[inline(always)]
    fn next_elements(
        alloc: Global,
        list: &mut ListAccess<'_, R>,
        items: &mut Vec<String>,
    ) -> Result<bool, Error> {
        list.de.next_plain(alloc, &mut list.inner, items)
    }
}

impl<R: Read> Deserialize<R> for Float {
    #[inline(always)]
    fn deserialize(_alloc: Global, de: &mut Deserializer<R>) -> Result<Float, Error> {
        de.deserialize_f32()
    }
}

impl<R: Read> Deserialize<R> for Double {
    #[inline(always)]
    fn deserialize(_alloc: Global, de: &mut Deserializer<R>) -> Result<Double, Error> {
        de.deserialize_f64()
    }
}

impl<R: Read> Deserialize<R> for Timestamp {
    #[inline(always)]
    fn deserialize(_alloc: Global, de: &mut Deserializer<R>) -> Result<Timestamp, Error> {
        de.deserialize_timestamp()
    }
}

impl<R: Read> Deserialize<R> for Uuid {
    #[inline(always)]
    fn deserialize(_alloc: Global, de: &mut Deserializer<R>) -> Result<Uuid, Error> {
        de.deserialize_uuid()
    }
}

impl<R: Read> Deserialize<R> for Binary {
    #[inline(always)]
    fn deserialize(alloc: Global, de: &mut Deserializer<R>) -> Result<Binary, Error> {
        match de.deserialize_byte_buf(alloc) {
            Ok(value) => return Ok(Binary(value)),
            Err(e) => return Err(e),
        }
    }
}

impl<R: Read> Deserialize<R> for Symbol {
    #[inline(always)]
    fn deserialize(alloc: Global, de: &mut Deserializer<R>) -> Result<Symbol, Error> {
        match de.deserialize_symbol(alloc) {
            Ok(text) => return Ok(Symbol(text)),
            Err(e) => return Err(e),
        }
    }
}

impl<R: Read> Deserializer<R> {
    /// For how many elements to ask memory at once: no more than are announced, and no more than
    /// the bytes at hand can be. So a count that no bytes stand behind asks for no memory, save
    /// where elements have no bytes.
    #[inline(always)]
    fn room(&self, announced: u32) -> usize
        ensures announced { result ≤ announced }
        ensures there { R.buffers ≡ false →
            HasBytes (result * least_width self.now.inherited) self.now.reading.to_come }
        ensures received { R.buffers ≡ true →
            result * least_width self.now.inherited ≤ length self.now.reading.received }
    {
        let announced = announced as usize;
        let width = least_width(&self.inherited);
        if width == 0 {
            return announced;
        }
        announced.min(self.reader.at_hand() / width)
    }
}

impl<R: Read, T: Deserialize<R>> Deserialize<R> for Vec<T> {
    /// The elements of a list or an array. The refusals are those of `deserialize_seq` and of the
    /// elements, and `OutOfMemory` where there is no memory for these.
    #[inline(always)]
    fn deserialize(alloc: Global, de: &mut Deserializer<R>) -> Result<Vec<T>, Error> {
        let mut access = de.deserialize_elements(alloc)?;
        if let Err(e) = access.receive_ahead::<T>() {
            return Err(e);
        }
        let announced = access.inner.left;
        let room = access.de.room(announced);
        let mut items = Vec::with_capacity(alloc, room)?;
        'items: while {
            match access.receive_ahead::<T>() {
                Ok(()) => {}
                Err(e) => return Err(e),
            }
            let some = match T::next_elements(alloc, &mut access, &mut items) {
                Ok(some) => some,
                Err(e) => return Err(e),
            };
            if some {
                true
            } else {
                match access.next_element(alloc) {
                    Ok(Some(item)) => {
                        items.push(item)?;
                        true
                    }
                    Ok(None) => false,
                    Err(e) => return Err(e),
                }
            }
        } {}
        access.end()?;
        Ok(items)
    }
}
