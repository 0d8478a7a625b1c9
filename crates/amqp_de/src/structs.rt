//! Structs by their form: a list of the fields, a map from their names, or one of them under a
//! descriptor.

ghost use Rattle.std.specs.Prelude.{◌≡◌, true, false, Ok, Err, IfOk, IfErr, IsTrue};
ghost use Rattle.std.specs.Borrow.{sem, RestsIfErr};
ghost use Rattle.amqp_base.specs.Codes.{Kind, row};
ghost use Rattle.amqp_de.specs.Access.{Ends};
ghost use Rattle.amqp_de.specs.Decoding.{as_ended};
ghost use Rattle.amqp_de.specs.Forms.{struct_listing, struct_lender, FormOpened, StructOpened};
ghost use Rattle.amqp_de.specs.Forms.{NoStruct, RefusesStruct, FormElement, FormKey, FormValue};
ghost use Rattle.amqp_de.specs.Forms.{FormEntry, NamedForm, NoneDescribed, encoding_named};
ghost use Rattle.amqp_de.specs.Forms.{FormElementNamed, FormKeyNamed, FormValueNamed};
ghost use Rattle.amqp_de.specs.Forms.{FormEntryNamed};
ghost use Rattle.amqp_de.specs.Look.{Looks};
ghost use Rattle.amqp_de.specs.contracts.deserializer.Deserializer.{the_row};

use crate::described_structs::{Encoding, Stage};
use crate::list::{Access, Elements, Ended, Entries, Open};
use crate::{DescribedAccess, Deserialize, Deserializer, ListAccess, MapAccess};
use amqp_base::{DESCRIBED_BASIC, DESCRIBED_LIST, DESCRIBED_MAP, EncodingCodes, Error};
use amqp_data::Constructor;
use amqp_read::Read;
use std::alloc::Global;

/// The fields of a struct, in the form that the item has. Where the access is dropped before its
/// `end`, its deserializer is ended.
#[derive(Drop)]
pub enum StructAccess<'a, R: Read> {
    /// The item is a list of the fields, in order.
    List(ListAccess<'a, R>),
    /// The item is a map from names to fields.
    Map(MapAccess<'a, R>),
    /// The item is described: its descriptor comes first.
    Described(DescribedAccess<'a, R>),
}

/// What was opened: a list of the fields, or a map from their names; or what stands behind a
/// descriptor, which wasn't read yet.
#[derive(Drop)]
pub(crate) enum OpenedStruct {
    Row(Open),
    Pairs(Open),
    Described(Encoding),
}

/// What stands behind the descriptor of a struct of this name, if one does.
#[inline(always)]
fn encoding_of(name: &'static str) -> Option<Encoding>
    ensures { result ≡ encoding_named name.now }
{
    if name == DESCRIBED_LIST {
        return Some(Encoding::List);
    }
    if name == DESCRIBED_MAP {
        return Some(Encoding::Map);
    }
    if name == DESCRIBED_BASIC {
        return Some(Encoding::Basic);
    }
    None
}

/// Before its descriptor nothing is open; something is unread.
#[inline(always)]
pub(crate) fn unread() -> Open
    ensures { result.left ≡ 1 }
{
    Open {
        left: 1,
        outer: Constructor::Bare,
        limit: None,
    }
}

/// Whether a code is a map's.
#[inline(always)]
pub(crate) fn is_map(code: EncodingCodes) -> bool
    ensures yes { IsTrue result → (row code).kind ≡ Kind.map }
    ensures no { result ≡ false → (row code).kind ≡ Kind.map → ⊥ }
{
    match code {
        EncodingCodes::Map8 => true,
        EncodingCodes::Map32 => true,
        _ => false,
    }
}

impl<R: Read> Deserializer<R> {
    /// Begins a list of just so many fields, or a map.
    fn open_form(&mut self, len: usize) -> Result<OpenedStruct, Error>
        ensures ok { IfOk result (λ o. FormOpened len self.old self.new o) }
        ensures err { IfErr result (λ e. NoStruct len R.buffers self.old self.new e) }
    {
        match self.deserialize_any() {
            Ok(code) => {
                if is_map(code) {
                    match self.open_pairs() {
                        Ok(pairs) => Ok(OpenedStruct::Pairs(pairs)),
                        Err(e) => Err(e),
                    }
                } else {
                    match self.open_tuple(len) {
                        Ok(row) => Ok(OpenedStruct::Row(row)),
                        Err(e) => Err(e),
                    }
                }
            }
            Err(e) => Err(e),
        }
    }

    /// Looks that a described item comes next: nothing is consumed.
    #[inline(always)]
    pub(crate) fn look_described(&mut self) -> Result<(), Error>
        ensures ok { IfOk result (λ _. Looks self.old self.new EncodingCodes.DescribedType) }
        ensures before { IfOk result (λ _. self.old.ended ≡ false) }
        ensures err { IfErr result (λ e. NoneDescribed R.buffers self.old self.new e) }
    {
        match self.deserialize_any() {
            Ok(code) => match code {
                EncodingCodes::DescribedType => Ok(()),
                _ => {
                    self.stop();
                    Err(Error::InvalidFormatCode)
                }
            },
            Err(e) => Err(e),
        }
    }

    /// The form of a struct, by its name.
    fn open_struct(&mut self, name: &'static str, len: usize) -> Result<OpenedStruct, Error>
        ensures ok { IfOk result (λ o. NamedForm name.now len self.old self.new o) }
        ensures err { RefusesStruct name.now len R.buffers self.old result self.new }
    {
        match encoding_of(name) {
            Some(encoding) => match self.look_described() {
                Ok(()) => Ok(OpenedStruct::Described(encoding)),
                Err(e) => Err(e),
            },
            None => match self.open_form(len) {
                Ok(OpenedStruct::Row(row)) => Ok(OpenedStruct::Row(row)),
                Ok(OpenedStruct::Pairs(pairs)) => Ok(OpenedStruct::Pairs(pairs)),
                // no form under a plain name
                Ok(OpenedStruct::Described(_)) => Err(Error::InvalidValue),
                Err(e) => Err(e),
            },
        }
    }

    /// Opens a struct: a list of `len` fields (part 1, section 1.6.22), or a map from names to
    /// fields (section 1.6.23), whose number of pairs isn't looked at. Its code, size and count are
    /// consumed. The size is not compared with the bytes that are there. Under the names
    /// `DESCRIBED_LIST`, `DESCRIBED_MAP` and `DESCRIBED_BASIC` an item with a descriptor (section
    /// 1.2): nothing is consumed, `len` isn't looked at, and the descriptor comes first.
    ///
    /// In this order: `Io(UnexpectedEof)` where there is no byte, `InvalidFormatCode` where it is
    /// no list's or map's code, under those names no described item's; and then the refusals of
    /// `deserialize_tuple` and `deserialize_map`. A refusal ends the deserializer.
    pub fn deserialize_struct(
        &mut self,
        alloc: Global,
        name: &'static str,
        len: usize,
    ) -> Result<StructAccess<'_, R>, Error>
        ensures* refused { sem 𝓛 (RestsIfErr (the_row R.row R.Read) self.entry (λ a.
            (struct_lender a).ghost_name) result (λ last.
            RefusesStruct name.now len R.buffers self.old result last)) }
        ensures same_reference { IfOk result (λ a.
            (struct_lender a).ghost_name ≡ self.entry.ghost_name) }
        ensures opened { IfOk result (λ a. StructOpened name.now len self.old a) }
    {
        let _ = alloc;
        match self.open_struct(name, len) {
            Ok(OpenedStruct::Row(row)) => Ok(StructAccess::List(Access {
                de: self,
                inner: row,
                form: Elements,
            })),
            Ok(OpenedStruct::Pairs(pairs)) => Ok(StructAccess::Map(Access {
                de: self,
                inner: pairs,
                form: Entries,
            })),
            Ok(OpenedStruct::Described(encoding)) => Ok(StructAccess::Described(Access {
                de: self,
                inner: unread(),
                form: Stage::Before(encoding),
            })),
            Err(e) => Err(e),
        }
    }
}

impl<'a, R: Read> StructAccess<'a, R> {
    /// The next field of a list; `None` where all were read, and then nothing is consumed.
    ///
    /// The refusals are those of `ListAccess::next_element` and `DescribedAccess::next_element`,
    /// and `InvalidValue` where the item is a map. Each of them ends the access and its
    /// deserializer.
    pub fn next_element<T: Deserialize<R>>(&mut self, alloc: Global) -> Result<Option<T>, Error>
        ensures same_reference { (struct_lender self.new).ghost_name ≡ (struct_lender
            self.old).ghost_name }
        ensures next { FormElement T.meaning R.buffers self.old result self.new }
        ensures named { IfErr result (λ e.
            FormElementNamed T.meaning R.buffers self.old self.new e) }
    {
        match self {
            StructAccess::List(list) => list.next_element(alloc),
            StructAccess::Map(map) => Err(map.refuse()),
            StructAccess::Described(described) => described.next_element(alloc),
        }
    }

    /// The next name of a map; `None` where all pairs were read, and then nothing is consumed.
    ///
    /// The refusals are those of `MapAccess::next_key` and `DescribedAccess::next_key`, and
    /// `InvalidValue` where the item is a list. Each of them ends the access and its deserializer.
    pub fn next_key<K: Deserialize<R>>(&mut self, alloc: Global) -> Result<Option<K>, Error>
        ensures same_reference { (struct_lender self.new).ghost_name ≡ (struct_lender
            self.old).ghost_name }
        ensures next { FormKey K.meaning R.buffers self.old result self.new }
        ensures named { IfErr result (λ e.
            FormKeyNamed K.meaning R.buffers self.old self.new e) }
    {
        match self {
            StructAccess::List(list) => Err(list.refuse()),
            StructAccess::Map(map) => map.next_key(alloc),
            StructAccess::Described(described) => described.next_key(alloc),
        }
    }

    /// The value of the last name of a map.
    ///
    /// The refusals are those of `MapAccess::next_value` and `DescribedAccess::next_value`, and
    /// `InvalidValue` where the item is a list. Each of them ends the access and its deserializer.
    pub fn next_value<V: Deserialize<R>>(&mut self, alloc: Global) -> Result<V, Error>
        ensures same_reference { (struct_lender self.new).ghost_name ≡ (struct_lender
            self.old).ghost_name }
        ensures next { FormValue V.meaning R.buffers self.old result self.new }
        ensures named { IfErr result (λ e.
            FormValueNamed V.meaning R.buffers self.old self.new e) }
    {
        match self {
            StructAccess::List(list) => Err(list.refuse()),
            StructAccess::Map(map) => map.next_value(alloc),
            StructAccess::Described(described) => described.next_value(alloc),
        }
    }

    /// The next name of a map and its value; `None` where all pairs were read.
    ///
    /// The refusals are those of `MapAccess::next_entry` and `DescribedAccess::next_entry`, and
    /// `InvalidValue` where the item is a list. Each of them ends the access and its deserializer.
    pub fn next_entry<K: Deserialize<R>, V: Deserialize<R>>(
        &mut self,
        alloc: Global,
    ) -> Result<Option<(K, V)>, Error>
        ensures same_reference { (struct_lender self.new).ghost_name ≡ (struct_lender
            self.old).ghost_name }
        ensures next { FormEntry K.meaning V.meaning R.buffers self.old result self.new }
        ensures named { IfErr result (λ e.
            FormEntryNamed K.meaning V.meaning R.buffers self.old self.new e) }
    {
        match self {
            StructAccess::List(list) => Err(list.refuse()),
            StructAccess::Map(map) => map.next_entry(alloc),
            StructAccess::Described(described) => described.next_entry(alloc),
        }
    }

    /// Ends the access where all fields were read: the deserializer reads on behind it. Nothing is
    /// consumed.
    ///
    /// `SequenceLengthMismatch` where something was left unread, `InvalidValue` after a refusal;
    /// the deserializer is ended then.
    pub fn end(self) -> Result<Ended<'a, R>, Error>
        ensures* refused { sem 𝓛 (RestsIfErr (the_row R.row R.Read)
            (struct_lender self.entry) (λ d. d.de.ghost_name) result
            (λ last. last ≡ as_ended (struct_listing self.entry).state)) }
        ensures same_reference { IfOk result (λ d.
            d.de.ghost_name ≡ (struct_lender self.entry).ghost_name) }
        ensures ok { IfOk result (λ d. Ends (struct_listing self.entry) (Ok tt) d.de.now) }
        ensures err { IfErr result (λ e.
            Ends (struct_listing self.entry) (Err e) (as_ended (struct_listing self.entry).state)) }
    {
        match self {
            StructAccess::List(list) => list.closed(),
            StructAccess::Map(map) => map.closed(),
            StructAccess::Described(described) => described.closed(),
        }
    }
}
