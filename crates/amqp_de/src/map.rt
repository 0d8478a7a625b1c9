//! The keys and values of a map, one pair at a time.

ghost use Rattle.std.specs.Prelude.{◌≡◌, ◌%◌, Bool, false, Option, Some, None, Ok};
ghost use Rattle.std.specs.Prelude.{Err, IfOk, IfErr};
ghost use Rattle.std.specs.Borrow.{sem, RestsIfErr};
ghost use Rattle.amqp_base.specs.Item.{Item, no_pairs};
ghost use Rattle.amqp_data.specs.Parts.{HasPairs};
ghost use Rattle.amqp_de.specs.Access.{Opens, OpensExactly, OpensNot, Plain};
ghost use Rattle.amqp_base.specs.Parse.{map_data};
ghost use Rattle.amqp_de.specs.Seq.{listing, at_open};
ghost use Rattle.amqp_de.specs.ReadParts.{open_list};
ghost use Rattle.amqp_de.specs.ReadPairs.{PairsRead, NoMap};
ghost use Rattle.amqp_de.specs.contracts.deserializer.Deserializer.{the_row};
ghost use Rattle.amqp_de.specs.Calls.{KeyAnswer, ValueAnswer, EntryAnswer, KeyNamed, ValueNamed};
ghost use Rattle.amqp_de.specs.Calls.{EntryNamed};

use crate::list::{Access, Entries, Open};
use crate::{Deserialize, Deserializer, MapAccess};
use amqp_base::Error;
use amqp_data::{Constructor, map_count};
use amqp_read::Read;
use std::alloc::Global;
use std::mem;

impl<R: Read> Deserializer<R> {
    /// Begins a map: its header is consumed.
    #[inline(always)]
    fn begin_map(&mut self) -> Result<Open, Error>
        ensures ok { IfOk result (λ o. Opens HasPairs self.old (at_open self.new o)) }
        ensures even { IfOk result (λ o. o.left % 2 ≡ 0) }
        ensures exact { IfOk result (λ o. OpensExactly map_data self.old (at_open self.new o)) }
        ensures plain { IfOk result (λ o. Plain (at_open self.new o)) }
        ensures err { IfErr result (λ e.
            OpensNot HasPairs map_data R.buffers R.buffers self.old self.new e) }
    {
        if self.ended {
            return Err(Error::InvalidValue);
        }
        match self.begin() {
            Ok(code) => match map_count(&mut self.reader, code) {
                Ok(left) => {
                    self.ended = false;
                    Ok(Open {
                        left,
                        outer: mem::replace(&mut self.inherited, Constructor::Bare),
                        limit: None,
                    })
                }
                Err(e) => Err(e),
            },
            Err(e) => Err(e),
        }
    }

    /// Begins a map: its header is consumed.
    #[inline(always)]
    pub(crate) fn open_pairs(&mut self) -> Result<Open, Error>
        ensures ok { IfOk result (λ o. Opens HasPairs self.old (at_open self.new o)) }
        ensures exact { IfOk result (λ o. OpensExactly map_data self.old (at_open self.new o)) }
        ensures plain { IfOk result (λ o. Plain (at_open self.new o)) }
        ensures err { IfErr result (λ e. NoMap R.buffers self.old self.new e) }
        ensures pairs { IfOk result (λ o. (key value : Item → Bool) →
            PairsRead self.old key value no_pairs (at_open self.new o)) }
    {
        self.begin_map()
    }

    /// Opens a map (part 1, section 1.6.23): its code, size and count are consumed. The size is not
    /// compared with the bytes that are there.
    ///
    /// In this order: `Io(UnexpectedEof)` where there is no byte, `InvalidFormatCode` where it is
    /// no map's code, `Io(UnexpectedEof)` where size or count are missing, `InvalidValue` where the
    /// count of keys and values is above 65,536, `InvalidLength` where the size doesn't cover the
    /// count's own bytes, and where the count is odd. A refusal ends the deserializer.
    #[inline(always)]
    pub fn deserialize_map(&mut self) -> Result<MapAccess<'_, R>, Error>
        ensures* refused { sem 𝓛 (RestsIfErr (the_row R.row R.Read) self.entry (λ a.
            a.de.ghost_name) result (λ last.
            IfErr result (λ e. NoMap R.buffers self.old last e))) }
        ensures same_reference { IfOk result (λ a. a.de.ghost_name ≡ self.entry.ghost_name) }
        ensures opened { IfOk result (λ a. Opens HasPairs self.old (listing a)) }
        ensures exact { IfOk result (λ a. OpensExactly map_data self.old (listing a)) }
        ensures plain { IfOk result (λ a. Plain (open_list a)) }
        ensures pairs { IfOk result (λ a.
            (key value : Item → Bool) → PairsRead self.old key value no_pairs (open_list a)) }
    {
        let inner = self.open_pairs()?;
        Ok(Access {
            de: self,
            inner,
            form: Entries,
        })
    }
}

impl<'a, R: Read> Access<'a, R, Entries> {
    /// The next key; `None` where all pairs were read, and then nothing is consumed.
    ///
    /// The refusals are those of `K`, and `InvalidValue` where the value of the last key isn't read
    /// yet, or after a refusal. Each of them ends the access and its deserializer: every later call
    /// is `InvalidValue`.
    #[inline(always)]
    pub fn next_key<K: Deserialize<R>>(&mut self, alloc: Global) -> Result<Option<K>, Error>
        ensures same_reference { self.new.de.ghost_name ≡ self.old.de.ghost_name }
        ensures next { KeyAnswer K.meaning R.buffers (open_list self.old) result
            (open_list self.new) }
        ensures named { IfErr result (λ e. KeyNamed K.meaning R.buffers (open_list self.old)
            (open_list self.new) e) }
    {
        if self.inner.left % 2 == 1 {
            return Err(self.refuse());
        }
        match self.de.next_part(alloc, &mut self.inner) {
            Ok(key) => Ok(key),
            Err(e) => Err(e),
        }
    }

    /// The value of the last key.
    ///
    /// The refusals are those of `V`, and `InvalidValue` where no key was read that has no value
    /// yet, or after a refusal. Each of them ends the access and its deserializer: every later call
    /// is `InvalidValue`.
    #[inline(always)]
    pub fn next_value<V: Deserialize<R>>(&mut self, alloc: Global) -> Result<V, Error>
        ensures same_reference { self.new.de.ghost_name ≡ self.old.de.ghost_name }
        ensures next { ValueAnswer V.meaning R.buffers (open_list self.old) result
            (open_list self.new) }
        ensures named { IfErr result (λ e. ValueNamed V.meaning R.buffers (open_list self.old)
            (open_list self.new) e) }
    {
        if self.inner.left % 2 == 0 {
            return Err(self.refuse());
        }
        match self.de.next_part(alloc, &mut self.inner) {
            Ok(Some(value)) => Ok(value),
            // an odd number of parts isn't none
            Ok(None) => Err(Error::InvalidValue),
            Err(e) => Err(e),
        }
    }

    /// The next key and its value, as `next_key` and `next_value` one after the other; `None` where
    /// all pairs were read.
    #[inline(always)]
    pub fn next_entry<K: Deserialize<R>, V: Deserialize<R>>(
        &mut self,
        alloc: Global,
    ) -> Result<Option<(K, V)>, Error>
        ensures same_reference { self.new.de.ghost_name ≡ self.old.de.ghost_name }
        ensures next { EntryAnswer K.meaning V.meaning R.buffers (open_list self.old) result
            (open_list self.new) }
        ensures named { IfErr result (λ e.
            EntryNamed K.meaning V.meaning R.buffers (open_list self.old) (open_list self.new) e) }
    {
        match self.next_key(alloc) {
            Ok(Some(key)) => match self.next_value(alloc) {
                Ok(value) => Ok(Some((key, value))),
                Err(e) => Err(e),
            },
            Ok(None) => Ok(None),
            Err(e) => Err(e),
        }
    }
}
