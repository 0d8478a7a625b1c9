//! Tuples: lists of just so many parts.

ghost use Rattle.std.specs.Prelude.{◌≡◌, Bool, List, IfOk};
ghost use Rattle.std.specs.Borrow.{sem, RestsIfErr};
ghost use Rattle.amqp_base.specs.Item.{Item, none};
ghost use Rattle.amqp_base.specs.Parse.{tuple_data};
ghost use Rattle.amqp_data.specs.Parts.{HasParts};
ghost use Rattle.amqp_de.specs.Access.{Opens, OpensExactly};
ghost use Rattle.amqp_de.specs.ReadParts.{Progress, RefusesTuple, open_list};
ghost use Rattle.amqp_de.specs.Seq.{at_open};
ghost use Rattle.amqp_de.specs.contracts.deserializer.Deserializer.{the_row};

use crate::list::{Access, Elements, Open};
use crate::{Deserialize, Deserializer, Field, ListAccess};
use amqp_base::Error;
use amqp_read::Read;
use std::alloc::Global;

impl<R: Read> Deserializer<R> {
    /// Begins a list of just so many parts.
    #[inline(always)]
    pub(crate) fn open_tuple(&mut self, len: usize) -> Result<Open, Error>
        ensures ok { IfOk result (λ o. Opens HasParts self.old (at_open self.new o)) }
        ensures exact { IfOk result (λ o.
            OpensExactly (tuple_data len) self.old (at_open self.new o)) }
        ensures len { IfOk result (λ o. o.left ≡ len) }
        ensures err { RefusesTuple len R.buffers self.old result self.new }
        ensures progress { IfOk result (λ o.
            (all : List (Item → Bool)) → Progress self.old all all none (at_open self.new o)) }
    {
        match self.open_list() {
            Ok(opened) => {
                if opened.left as usize != len {
                    self.stop();
                    return Err(Error::SequenceLengthMismatch);
                }
                Ok(opened)
            }
            Err(e) => Err(e),
        }
    }

    /// Opens a tuple: a list (part 1, section 1.6.22) of `len` elements. Its code, size and count
    /// are consumed. The size is not compared with the bytes that are there.
    ///
    /// In this order: `Io(UnexpectedEof)` where there is no byte, `InvalidFormatCode` where it is
    /// no list's code, `Io(UnexpectedEof)` where size or count are missing, `InvalidValue` where
    /// the count is above 65,536, `InvalidLength` where the size doesn't cover the count's own
    /// bytes, `SequenceLengthMismatch` where the count isn't `len`. A refusal ends the
    /// deserializer.
    #[tactic(auto, unfolding(crate::specs::ReadParts::open_list))]
    pub fn deserialize_tuple(&mut self, len: usize) -> Result<ListAccess<'_, R>, Error>
        ensures* refused { sem 𝓛 (RestsIfErr (the_row R.row R.Read) self.entry (λ a.
            a.de.ghost_name) result (λ last. RefusesTuple len R.buffers self.old result last)) }
        ensures same_reference { IfOk result (λ a. a.de.ghost_name ≡ self.entry.ghost_name) }
        ensures opened { IfOk result (λ a. Opens HasParts self.old (open_list a)) }
        ensures exact { IfOk result (λ a. OpensExactly (tuple_data len) self.old (open_list a)) }
        ensures len { IfOk result (λ a. (open_list a).left ≡ len) }
        ensures progress { IfOk result (λ a.
            (all : List (Item → Bool)) → Progress self.old all all none (open_list a)) }
    {
        let inner = self.open_tuple(len)?;
        Ok(Access {
            de: self,
            inner,
            form: Elements,
        })
    }
}

/// A row of so many parts, which have no names.
macro_rules! row {
    () => { () };
    (_ $($rest:tt)*) => {
        Field {
            name: "",
            value: None,
            rest: row!($($rest)*),
        }
    };
}

impl<R: Read, A: Deserialize<R>> Deserialize<R> for (A,) {
    #[inline(always)]
    fn deserialize(alloc: Global, de: &mut Deserializer<R>) -> Result<(A,), Error> {
        match de.deserialize_row(alloc, row!(_)) {
            Ok(values) => {
                let (first, ()) = values;
                Ok((first,))
            }
            Err(e) => Err(e),
        }
    }
}

impl<R: Read, A: Deserialize<R>, B: Deserialize<R>> Deserialize<R> for (A, B) {
    #[inline(always)]
    fn deserialize(alloc: Global, de: &mut Deserializer<R>) -> Result<(A, B), Error> {
        match de.deserialize_row(alloc, row!(_ _)) {
            Ok(values) => {
                let (first, (second, ())) = values;
                Ok((first, second))
            }
            Err(e) => Err(e),
        }
    }
}

impl<R: Read, A: Deserialize<R>, B: Deserialize<R>, C: Deserialize<R>> Deserialize<R>
    for (A, B, C) {
    #[inline(always)]
    fn deserialize(alloc: Global, de: &mut Deserializer<R>) -> Result<(A, B, C), Error> {
        match de.deserialize_row(alloc, row!(_ _ _)) {
            Ok(values) => {
                let (first, (second, (third, ()))) = values;
                Ok((first, second, third))
            }
            Err(e) => Err(e),
        }
    }
}

impl<
    R: Read,
    A: Deserialize<R>,
    B: Deserialize<R>,
    C: Deserialize<R>,
    D: Deserialize<R>,
> Deserialize<R> for (A, B, C, D) {
    #[inline(always)]
    fn deserialize(alloc: Global, de: &mut Deserializer<R>) -> Result<(A, B, C, D), Error> {
        match de.deserialize_row(alloc, row!(_ _ _ _)) {
            Ok(values) => {
                let (first, (second, (third, (fourth, ())))) = values;
                Ok((first, second, third, fourth))
            }
            Err(e) => Err(e),
        }
    }
}
