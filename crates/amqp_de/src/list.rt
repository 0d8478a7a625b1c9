//! The parts of a list, one at a time.

ghost use Rattle.std.specs.Prelude.{◌≡◌, true, false, Option, Some, None, IsTrue, Ok, Err};
ghost use Rattle.std.specs.Prelude.{IfOk, IfErr};
ghost use Rattle.std.specs.Borrow.{sem, RestsIfErr};
ghost use Rattle.amqp_base.specs.declared.error.Error.TheVariants.{SequenceLengthMismatch};
ghost use Rattle.amqp_base.specs.Parse.{list_data};
ghost use Rattle.amqp_data.specs.Parts.{Within, HasParts};
ghost use Rattle.amqp_de.specs.Access.{Ends, Opens, OpensExactly, OpensNot, Plain};
ghost use Rattle.amqp_de.specs.Decoding.{as_ended};
ghost use Rattle.amqp_data.specs.Places.{limit_of};
ghost use Rattle.amqp_de.specs.ReadParts.{open_list};
ghost use Rattle.amqp_de.specs.ReadPairs.{ended_access};
ghost use Rattle.amqp_de.specs.Seq.{listing, at_open};
ghost use Rattle.amqp_de.specs.contracts.deserializer.Deserializer.{the_row};
ghost use Rattle.amqp_de.specs.Calls.{NextElement, ElementNamed};
ghost use Rattle.amqp_de.specs.Forms.{struct_lender};
ghost use Rattle.amqp_de.specs.VariantsHeld.{UnitEnds, ValueEnds, ValueNamed};
ghost use Rattle.amqp_de.specs.VariantsHeld.{FieldsOpened, NoFields, HeldStruct};
ghost use Rattle.amqp_de.specs.VariantsRead.{variant_stage};

use crate::variants::Choice;
use crate::{Deserialize, Deserializer, StructAccess};
use amqp_base::Error;
use amqp_data::{Constructor, Limit, list_count};
use amqp_read::Read;
use std::alloc::Global;
use std::mem;

/// The parts of an item, one at a time. Where the access is dropped before its `end`, its
/// deserializer is ended.
pub struct Access<'a, R: Read, F, O = Open> {
    pub(crate) de: &'a mut Deserializer<R>,
    pub(crate) inner: O,
    pub(crate) form: F,
}

impl<R: Read, F: Drop, O: Drop> Drop for Access<'_, R, F, O> {
    fn drop(self)
        ensures { self.exit.0.now ≡ as_ended self.entry.de.now }
    {
        let Access {
            de,
            inner: _,
            form: _,
        } = self;
        de.ended = true;
    }
}

/// The parts of an access are the elements of a list or an array.
#[derive(Clone, Copy)]
pub struct Elements;

/// The parts of an access are the keys and values of a map.
#[derive(Clone, Copy)]
pub struct Entries;

/// The elements of a list (part 1, section 1.6.22), one at a time.
pub type ListAccess<'a, R> = Access<'a, R, Elements>;

/// The keys and values of a map (part 1, section 1.6.23), one pair at a time.
pub type MapAccess<'a, R> = Access<'a, R, Entries>;

/// How many parts are left, what was inherited before, and where the parts must have ended.
#[derive(Drop)]
pub struct Open {
    pub(crate) left: u32,
    pub(crate) outer: Constructor,
    pub(crate) limit: Option<Limit>,
}

/// Whether elements that end there have kept to the size of their array.
#[inline(always)]
pub(crate) fn is_within(consumed: usize, limit: &Option<Limit>) -> bool
    ensures yes { IsTrue result → Within (limit_of limit.now) consumed }
    ensures no { result ≡ false → Within (limit_of limit.now) consumed → ⊥ }
{
    match limit {
        None => true,
        Some(limit) => consumed.saturating_sub(limit.start) <= limit.room as usize,
    }
}

impl<R: Read> Deserializer<R> {
    /// Every later call is refused.
    #[inline(always)]
    pub(crate) fn stop(&mut self)
        ensures { self.new ≡ as_ended self.old }
    {
        self.ended = true;
    }

    #[inline(always)]
    pub(crate) fn bytes_consumed(&self) -> usize
        ensures { result ≡ self.now.reading.taken }
    {
        self.reader.bytes_consumed()
    }

    /// Begins a list: its header is consumed.
    #[inline(always)]
    pub(crate) fn open_list(&mut self) -> Result<Open, Error>
        ensures ok { IfOk result (λ o. Opens HasParts self.old (at_open self.new o)) }
        ensures exact { IfOk result (λ o. OpensExactly list_data self.old (at_open self.new o)) }
        ensures plain { IfOk result (λ o. Plain (at_open self.new o)) }
        ensures err { IfErr result (λ e.
            OpensNot HasParts list_data R.buffers R.buffers self.old self.new e) }
    {
        if self.ended {
            return Err(Error::InvalidValue);
        }
        match self.begin() {
            Ok(code) => match list_count(&mut self.reader, code) {
                Ok(left) => {
                    self.ended = false;
                    Ok(Open {
                        left,
                        outer: mem::replace(&mut self.inherited, Constructor::Bare),
                        limit: None,
                    })
                }
                Err(e) => Err(e),
            },
            Err(e) => Err(e),
        }
    }

    /// Opens a list.
    #[inline(always)]
    #[tactic(auto, unfolding(crate::specs::ReadParts::open_list))]
    pub(crate) fn deserialize_list(&mut self) -> Result<ListAccess<'_, R>, Error>
        ensures* refused { sem 𝓛 (RestsIfErr (the_row R.row R.Read) self.entry (λ a.
            a.de.ghost_name) result (λ last.
            IfErr result (λ e. OpensNot HasParts list_data R.buffers R.buffers self.old last e))) }
        ensures same_reference { IfOk result (λ a. a.de.ghost_name ≡ self.entry.ghost_name) }
        ensures opened { IfOk result (λ a. Opens HasParts self.old (open_list a)) }
        ensures exact { IfOk result (λ a. OpensExactly list_data self.old (open_list a)) }
        ensures plain { IfOk result (λ a. Plain (open_list a)) }
    {
        let inner = self.open_list()?;
        Ok(Access {
            de: self,
            inner,
            form: Elements,
        })
    }
}

impl<'a, R: Read> Access<'a, R, Elements> {
    /// The next element; `None` where all were read, and then nothing is consumed.
    ///
    /// The refusals are those of `T`, and `InvalidValue` where the elements so far take more bytes
    /// than their array has, or after a refusal. Each of them ends the access and its deserializer:
    /// every later call is `InvalidValue`.
    #[inline(always)]
    pub fn next_element<T: Deserialize<R>>(&mut self, alloc: Global) -> Result<Option<T>, Error>
        ensures same_reference { self.new.de.ghost_name ≡ self.old.de.ghost_name }
        ensures next { NextElement T.meaning R.buffers (open_list self.old) result
            (open_list self.new) }
        ensures named { IfErr result (λ e.
            ElementNamed T.meaning R.buffers (open_list self.old) (open_list self.new) e) }
    {
        self.de.next_part(alloc, &mut self.inner)
    }
}

impl<'a, R: Read, F: Copy> Access<'a, R, F> {
    /// Ends the access: its deserializer reads on behind it. Nothing is consumed.
    ///
    /// `SequenceLengthMismatch` where elements were left unread, `InvalidValue` after a refusal;
    /// the deserializer is ended then. So a `VariantAccess` isn't ended by it: what its variant
    /// holds is read by a call that takes the access.
    #[inline(always)]
    pub fn end(self) -> Result<(), Error>
        ensures ends { Ends (open_list self.entry) result self.exit.0.now }
    {
        let Access { de, inner, form: _ } = self;
        de.close(inner)
    }
}

// Here alone an access is taken apart.
impl<'a, R: Read> Access<'a, R, Choice> {
    /// Ends a variant that holds nothing: its deserializer reads on behind it. Nothing is consumed.
    ///
    /// `SequenceLengthMismatch` where it holds something, `InvalidValue` before `variant` and after
    /// a refusal; the deserializer is ended then.
    pub fn unit_variant(self) -> Result<(), Error>
        ensures { UnitEnds (variant_stage self.entry) (listing self.entry) result
            self.exit.0.now }
    {
        let Access { de, inner, form } = self;
        de.end_unit(form, inner)
    }

    /// The value that the variant holds: the second item of a pair, or the item itself.
    ///
    /// `InvalidFormatCode` where it holds nothing, `InvalidValue` before `variant` and after a
    /// refusal, else the refusals of `T`. Each of them ends the deserializer.
    pub fn newtype_variant<T: Deserialize<R>>(self, alloc: Global) -> Result<T, Error>
        ensures ends { ValueEnds T.meaning R.buffers (variant_stage self.entry)
            (listing self.entry) result self.exit.0.now }
        ensures named { IfErr result (λ e. ValueNamed T.meaning R.buffers
            (variant_stage self.entry) (listing self.entry) self.exit.0.now e) }
    {
        let Access { de, inner, form } = self;
        de.end_value(alloc, form, inner)
    }

    /// The fields that the variant holds, a list (part 1, section 1.6.22) of `len` elements: the
    /// second item of a pair, or the item itself. The end of the list ends the variant.
    ///
    /// `InvalidFormatCode` where it holds nothing, `InvalidValue` before `variant` and after a
    /// refusal, else the refusals of `deserialize_tuple`. Each of them ends the deserializer.
    pub fn tuple_variant(self, len: usize) -> Result<ListAccess<'a, R>, Error>
        ensures* refused { sem 𝓛 (RestsIfErr (the_row R.row R.Read) self.entry.de (λ a.
            a.de.ghost_name) result (λ last. IfErr result (λ e.
            NoFields len R.buffers (variant_stage self.entry) (listing self.entry) last e))) }
        ensures same_reference { IfOk result (λ a. a.de.ghost_name ≡ self.entry.de.ghost_name) }
        ensures opened { IfOk result (λ a.
            FieldsOpened len (variant_stage self.entry) (listing self.entry) (open_list a)) }
    {
        let Access { de, inner, form } = self;
        de.held_list(form, inner, len)
    }

    /// The fields that the variant holds, as `tuple_variant` opens them.
    pub fn struct_variant(self, len: usize) -> Result<StructAccess<'a, R>, Error>
        ensures* refused { sem 𝓛 (RestsIfErr (the_row R.row R.Read) self.entry.de (λ a.
            (struct_lender a).ghost_name) result (λ last. IfErr result (λ e.
            NoFields len R.buffers (variant_stage self.entry) (listing self.entry) last e))) }
        ensures same_reference { IfOk result (λ a.
            (struct_lender a).ghost_name ≡ self.entry.de.ghost_name) }
        ensures opened { IfOk result (λ a.
            HeldStruct len (variant_stage self.entry) (listing self.entry) a) }
    {
        let Access { de, inner, form } = self;
        de.held_struct(form, inner, len)
    }
}

/// What `end` of a `SeqAccess` and of a `StructAccess` answers: the deserializer behind an access,
/// which reads on once this is dropped.
#[derive(Drop)]
pub struct Ended<'a, R: Read> {
    de: &'a mut Deserializer<R>,
}

impl<'a, R: Read, F: Copy> Access<'a, R, F> {
    /// A call of another form: the access is ended.
    #[inline(always)]
    pub(crate) fn refuse(&mut self) -> Error
        ensures same_reference { self.new.de.ghost_name ≡ self.old.de.ghost_name }
        ensures error { result ≡ Error.InvalidValue }
        ensures form { self.new.form ≡ self.old.form }
        ensures ended { listing self.new ≡ ended_access (listing self.old) }
    {
        self.de.stop();
        Error::InvalidValue
    }

    /// The access's end, as a `SeqAccess` and a `StructAccess` answer it.
    #[inline(always)]
    pub(crate) fn closed(self) -> Result<Ended<'a, R>, Error>
        ensures* refused { sem 𝓛 (RestsIfErr (the_row R.row R.Read) self.entry.de (λ d.
            d.de.ghost_name) result (λ last. last ≡ as_ended (listing self.entry).state)) }
        ensures same_reference { IfOk result (λ d. d.de.ghost_name ≡ self.entry.de.ghost_name) }
        ensures ok { IfOk result (λ d. Ends (listing self.entry) (Ok tt) d.de.now) }
        ensures err { IfErr result (λ e.
            Ends (listing self.entry) (Err e) (as_ended (listing self.entry).state)) }
    {
        let Access { de, inner, form: _ } = self;
        de.end_access(inner)
    }
}

impl<R: Read> Deserializer<R> {
    /// Ends the access that has these parts.
    fn end_access(&mut self, inner: Open) -> Result<Ended<'_, R>, Error>
        ensures* refused { sem 𝓛 (RestsIfErr (the_row R.row R.Read) self.entry (λ d.
            d.de.ghost_name) result (λ last. last ≡ as_ended self.old)) }
        ensures same_reference { IfOk result (λ d. d.de.ghost_name ≡ self.entry.ghost_name) }
        ensures ok { IfOk result (λ d. Ends (at_open self.old inner) (Ok tt) d.de.now) }
        ensures err { IfErr result (λ e.
            Ends (at_open self.old inner) (Err e) (as_ended self.old)) }
    {
        self.close(inner)?;
        Ok(Ended { de: self })
    }

    /// The next part of every access.
    #[inline(always)]
    pub(crate) fn next_part<T: Deserialize<R>>(
        &mut self,
        alloc: Global,
        inner: &mut Open,
    ) -> Result<Option<T>, Error>
        ensures next { NextElement T.meaning R.buffers (at_open self.old inner.old) result
            (at_open self.new inner.new) }
        ensures named { IfErr result (λ e. ElementNamed T.meaning R.buffers
            (at_open self.old inner.old) (at_open self.new inner.new) e) }
    {
        if self.ended {
            return Err(Error::InvalidValue);
        }
        if inner.left == 0 {
            return Ok(None);
        }
        match T::deserialize(alloc, self) {
            Ok(item) => {
                let consumed = self.bytes_consumed();
                let within = is_within(consumed, &inner.limit);
                if !within {
                    self.stop();
                    return Err(Error::InvalidValue);
                }
                inner.left -= 1;
                Ok(Some(item))
            }
            Err(e) => {
                self.stop();
                Err(e)
            }
        }
    }

    /// What the end of every access does.
    #[inline(always)]
    pub(crate) fn close(&mut self, inner: Open) -> Result<(), Error>
        ensures ends { Ends (at_open self.old inner) result self.new }
        ensures ended { IfErr result (λ e. self.new ≡ as_ended self.old) }
    {
        let ended = self.ended;
        self.ended = true;
        if ended {
            return Err(Error::InvalidValue);
        }
        if inner.left > 0 {
            return Err(Error::SequenceLengthMismatch);
        }
        let Open {
            left: _,
            outer,
            limit: _,
        } = inner;
        self.inherited = outer;
        self.ended = false;
        Ok(())
    }
}
