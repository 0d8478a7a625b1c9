//! Fields that are left out at the end of a list.

ghost use Rattle.std.specs.Prelude.{◌≡◌, false, IsTrue, IfOk, IfErr, OnOk, OnErr};
ghost use Rattle.amqp_de.specs.DescribedFields.{ListRead, ListRefused, ListNamed};
ghost use Rattle.amqp_de.specs.ReadFields.{Filled};
ghost use Rattle.amqp_de.specs.ReadLeading.{ReadsNull, RefusesNull};

use crate::{Deserialize, Deserializer, Fields};
use amqp_base::{Count, EncodingCodes, Error};
use amqp_data::Constructor;
use amqp_read::Read;
use std::alloc::Global;
use std::mem;

impl<R: Read> Deserializer<R> {
    /// What a type reads from null (part 1, section 1.6.1) that isn't there: nothing is consumed,
    /// and nothing is begun. The refusals are those of the type.
    pub(crate) fn read_null<T: Deserialize<R>>(&mut self, alloc: Global) -> Result<T, Error>
        requires answers { self.old.ended ≡ false }
        ensures ok { IfOk result (λ v. ReadsNull T.meaning v self.old self.new) }
        ensures err { IfErr result (λ e.
            RefusesNull T.meaning R.buffers self.old self.new e) }
    {
        let null = Constructor::Under(EncodingCodes::Null);
        let inherited = mem::replace(&mut self.inherited, null);
        let begun = mem::replace(&mut self.begun, Count::new());
        match T::deserialize(alloc, self) {
            Ok(value) => {
                self.inherited = inherited;
                self.begun = begun;
                return Ok(value);
            }
            Err(e) => {
                self.inherited = inherited;
                self.begun = begun;
                self.ended = true;
                return Err(e);
            }
        }
    }

    /// Reads the fields of a list (part 1, section 1.6.22) in order; where it has fewer elements,
    /// each of the fields that are left is what its type reads from null. Each has a value then,
    /// where it stands.
    ///
    /// The refusals of a list's header, `SequenceLengthMismatch` where it has more elements than
    /// there are fields, then those of the fields. A refusal ends the deserializer.
    #[inline(always)]
    pub(crate) fn deserialize_leading<S: Fields<R>>(
        &mut self,
        alloc: Global,
        fields: &mut S,
    ) -> Result<(), Error>
        ensures ok { OnOk result (Filled (S.slots fields.new)
            (λ vs. ListRead (S.slots fields.old) vs self.old self.new)) }
        ensures err { IfErr result (λ e.
            ListRefused (S.slots fields.old) S.grows R.buffers self.old self.new e) }
        ensures named { IfErr result (λ e. ListNamed (S.slots fields.old) S.takes S.refuses S.grows
            R.buffers self.old self.new e) }
        ensures ended { OnErr result (IsTrue self.new.ended) }
    {
        let mut list = self.deserialize_list()?;
        if !fields.hold(list.inner.left) {
            return Err(Error::SequenceLengthMismatch);
        }
        fields.read_leading(alloc, &mut list)?;
        list.end()?;
        Ok(())
    }
}
