//! Which variant of an enum stands there, and then what it holds.

ghost use Rattle.std.specs.Prelude.{◌≡◌, IfOk, IfErr, if◌then◌else◌};
ghost use Rattle.std.specs.Borrow.{sem, RestsIfErr};
ghost use Rattle.amqp_base.specs.declared.error.Error.TheVariants.{InvalidValue};
ghost use Rattle.amqp_de.specs.Decoding.{as_ended};
ghost use Rattle.amqp_de.specs.Forms.{struct_lender};
ghost use Rattle.amqp_de.specs.ReadParts.{open_list};
ghost use Rattle.amqp_de.specs.Seq.{at_open, listing};
ghost use Rattle.amqp_de.specs.VariantsHeld.{VariantAnswer, UnitEnds, ValueEnds, ValueNamed};
ghost use Rattle.amqp_de.specs.VariantsHeld.{FieldsOpened, NoFields, HeldStruct};
ghost use Rattle.amqp_de.specs.VariantsRead.{variant_stage};
ghost use Rattle.amqp_de.specs.contracts.deserializer.Deserializer.{the_row};

use crate::identifiers::Identifier;
use crate::list::{Access, Elements, Open};
use crate::variants::{Choice, Held, Opened};
use crate::{Deserialize, Deserializer, ListAccess, StructAccess};
use amqp_base::Error;
use amqp_read::Read;
use std::alloc::Global;

impl<R: Read> Deserializer<R> {
    /// A variant that holds nothing ends.
    #[inline(always)]
    pub(crate) fn end_unit(&mut self, choice: Choice, pair: Open) -> Result<(), Error>
        ensures { UnitEnds choice (at_open self.old pair) result self.new }
    {
        let _ = pair;
        let ended = self.ended;
        self.ended = true;
        if ended {
            return Err(Error::InvalidValue);
        }
        match choice {
            Choice::Holds(Held::Nothing) => {
                self.ended = false;
                Ok(())
            }
            Choice::Holds(_) => Err(Error::SequenceLengthMismatch),
            Choice::Before(_) => Err(Error::InvalidValue),
        }
    }

    /// The value that a variant holds.
    pub(crate) fn end_value<T: Deserialize<R>>(
        &mut self,
        alloc: Global,
        choice: Choice,
        pair: Open,
    ) -> Result<T, Error>
        ensures ends { ValueEnds T.meaning R.buffers choice (at_open self.old pair) result
            self.new }
        ensures named { IfErr result (λ e.
            ValueNamed T.meaning R.buffers choice (at_open self.old pair) self.new e) }
    {
        if self.ended {
            return Err(Error::InvalidValue);
        }
        match choice {
            Choice::Holds(Held::Second) => match T::deserialize(alloc, self) {
                Ok(value) => {
                    let Open {
                        left: _,
                        outer,
                        limit: _,
                    } = pair;
                    self.inherited = outer;
                    Ok(value)
                }
                Err(e) => {
                    self.stop();
                    Err(e)
                }
            },
            Choice::Holds(Held::Itself) => match T::deserialize(alloc, self) {
                Ok(value) => Ok(value),
                Err(e) => {
                    self.stop();
                    Err(e)
                }
            },
            Choice::Holds(Held::Nothing) => {
                self.stop();
                Err(Error::InvalidFormatCode)
            }
            Choice::Before(_) => {
                self.stop();
                Err(Error::InvalidValue)
            }
        }
    }
}

impl<R: Read> Deserializer<R> {
    /// Begins the list that a variant holds.
    fn open_held(&mut self, choice: Choice, pair: Open, len: usize) -> Result<Open, Error>
        ensures ok { IfOk result (λ o.
            FieldsOpened len choice (at_open self.old pair) (at_open self.new o)) }
        ensures err { IfErr result (λ e.
            NoFields len R.buffers choice (at_open self.old pair) self.new e) }
    {
        match choice {
            Choice::Holds(Held::Second) => match self.open_tuple(len) {
                Ok(fields) => Ok(Open {
                    left: fields.left,
                    outer: pair.outer,
                    limit: fields.limit,
                }),
                Err(e) => Err(e),
            },
            Choice::Holds(Held::Itself) => match self.open_tuple(len) {
                Ok(fields) => Ok(fields),
                Err(e) => Err(e),
            },
            Choice::Holds(Held::Nothing) => Err(self.refuse_held(Error::InvalidFormatCode)),
            Choice::Before(_) => Err(self.refuse_held(Error::InvalidValue)),
        }
    }

    /// A call that no variant answers so.
    #[inline(always)]
    fn refuse_held(&mut self, wanted: Error) -> Error
        ensures ended { self.new ≡ as_ended self.old }
        ensures error { result ≡ (if self.old.ended then InvalidValue else wanted) }
    {
        let ended = self.ended;
        self.ended = true;
        if ended { Error::InvalidValue } else { wanted }
    }

    /// The list that a variant holds.
    #[tactic(auto, unfolding(crate::specs::ReadParts::open_list))]
    pub(crate) fn held_list(
        &mut self,
        choice: Choice,
        pair: Open,
        len: usize,
    ) -> Result<ListAccess<'_, R>, Error>
        ensures* refused { sem 𝓛 (RestsIfErr (the_row R.row R.Read) self.entry (λ a.
            a.de.ghost_name) result (λ last. IfErr result (λ e.
            NoFields len R.buffers choice (at_open self.old pair) last e))) }
        ensures same_reference { IfOk result (λ a. a.de.ghost_name ≡ self.entry.ghost_name) }
        ensures opened { IfOk result (λ a.
            FieldsOpened len choice (at_open self.old pair) (open_list a)) }
    {
        let inner = self.open_held(choice, pair, len)?;
        Ok(Access {
            de: self,
            inner,
            form: Elements,
        })
    }

    /// The same, as a struct.
    #[tactic(auto, unfolding(crate::specs::ReadParts::open_list))]
    pub(crate) fn held_struct(
        &mut self,
        choice: Choice,
        pair: Open,
        len: usize,
    ) -> Result<StructAccess<'_, R>, Error>
        ensures* refused { sem 𝓛 (RestsIfErr (the_row R.row R.Read) self.entry (λ a.
            (struct_lender a).ghost_name) result (λ last. IfErr result (λ e.
            NoFields len R.buffers choice (at_open self.old pair) last e))) }
        ensures same_reference { IfOk result (λ a.
            (struct_lender a).ghost_name ≡ self.entry.ghost_name) }
        ensures opened { IfOk result (λ a. HeldStruct len choice (at_open self.old pair) a) }
    {
        let inner = self.open_held(choice, pair, len)?;
        Ok(StructAccess::List(Access {
            de: self,
            inner,
            form: Elements,
        }))
    }
}

impl<'a, R: Read> Access<'a, R, Choice> {
    /// Which variant stands there, which comes first. An index or a name is consumed, and of a pair
    /// its header and its first item; a descriptor and a code stay. Under `DESCRIPTOR` 0x00 is
    /// consumed.
    ///
    /// In this order: `InvalidValue` where it was answered before, or after a refusal;
    /// `Io(UnexpectedEof)` where there is no byte, `InvalidFormatCode` where it is no code. Then,
    /// save under `UNTAGGED_ENUM` and `VALUE`, `InvalidFormatCode` where no variant begins with it;
    /// of a pair the refusals of its header, `InvalidLength` where it has no two items, and
    /// `InvalidFormatCode` where the first is neither an index nor a name; under `DESCRIPTOR`
    /// `Message` where a descriptor is neither a symbol nor an ulong. Of an identifier the refusals
    /// of `deserialize_identifier`. Each of them ends the access and its deserializer.
    pub fn variant(&mut self, alloc: Global) -> Result<Identifier, Error>
        ensures same_reference { self.new.de.ghost_name ≡ self.old.de.ghost_name }
        ensures answer { VariantAnswer R.buffers (variant_stage self.old) (listing self.old) result
            (variant_stage self.new) (listing self.new) }
    {
        match self.form {
            Choice::Before(tagging) => match self.de.open_variant(alloc, tagging) {
                Ok(opened) => {
                    let Opened {
                        identifier,
                        payload,
                        inner,
                    } = opened;
                    self.inner = inner;
                    self.form = Choice::Holds(payload);
                    Ok(identifier)
                }
                Err(e) => Err(e),
            },
            Choice::Holds(_) => Err(self.refuse()),
        }
    }
}
