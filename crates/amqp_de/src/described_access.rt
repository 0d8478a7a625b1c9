//! The fields of a struct under a descriptor, one at a time.

ghost use Rattle.std.specs.Prelude.{◌≡◌, ◌%◌, IfErr};
ghost use Rattle.amqp_de.specs.DescribedStructs.{stage, DescriptorAnswer, DescribedElement};
ghost use Rattle.amqp_de.specs.DescribedStructs.{DescribedKey, DescribedValue, DescribedEntry};
ghost use Rattle.amqp_de.specs.DescribedStructs.{DescribedElementNamed, DescribedKeyNamed};
ghost use Rattle.amqp_de.specs.DescribedStructs.{DescribedValueNamed, DescribedEntryNamed};
ghost use Rattle.amqp_de.specs.ReadParts.{open_list};

use crate::Deserialize;
use crate::described_structs::{Stage, behind};
use crate::list::Access;
use crate::not_null::NotNull;
use amqp_base::Error;
use amqp_read::Read;
use amqp_types::Descriptor;
use std::alloc::Global;

impl<'a, R: Read> Access<'a, R, Stage> {
    /// The descriptor, which comes first: 0x00, the descriptor, and under `DESCRIBED_LIST` and
    /// `DESCRIBED_MAP` the code, size and count behind it are consumed.
    ///
    /// In this order: `InvalidValue` where the descriptor was answered before, or after a refusal;
    /// the refusals of `deserialize_descriptor`; then, save under `DESCRIBED_BASIC`,
    /// `Io(UnexpectedEof)` where there is no byte, `InvalidFormatCode` where it is no code,
    /// `Message` where it is no list's (no map's) code, and the refusals of the header. Each of
    /// them ends the access and its deserializer.
    pub fn descriptor(&mut self, alloc: Global) -> Result<Descriptor, Error>
        ensures same_reference { self.new.de.ghost_name ≡ self.old.de.ghost_name }
        ensures read { DescriptorAnswer R.buffers (stage self.old) (open_list self.old) result
            (stage self.new) (open_list self.new) }
    {
        match self.form {
            Stage::Before(encoding) => match self.de.open_described(alloc, encoding) {
                Ok((descriptor, open)) => {
                    self.inner = open;
                    self.form = behind(encoding);
                    Ok(descriptor)
                }
                Err(e) => Err(e),
            },
            Stage::Elements => Err(self.refuse()),
            Stage::Entries => Err(self.refuse()),
        }
    }

    /// The next element of a list, or the only field under `DESCRIBED_BASIC`; `None` where all were
    /// read, and then nothing is consumed.
    ///
    /// The refusals are those of `T`, and `InvalidValue` before the descriptor, in a map, or after
    /// a refusal. Each of them ends the access and its deserializer.
    pub fn next_element<T: Deserialize<R>>(&mut self, alloc: Global) -> Result<Option<T>, Error>
        ensures same_reference { self.new.de.ghost_name ≡ self.old.de.ghost_name }
        ensures stage { stage self.new ≡ stage self.old }
        ensures next { DescribedElement T.meaning R.buffers (stage self.old) (open_list self.old)
            result (open_list self.new) }
        ensures named { IfErr result (λ e. DescribedElementNamed T.meaning R.buffers
            (stage self.old) (open_list self.old) (open_list self.new) e) }
    {
        match self.form {
            Stage::Elements => match self.de.next_part(alloc, &mut self.inner) {
                Ok(element) => Ok(element),
                Err(e) => Err(e),
            },
            Stage::Before(_) => Err(self.refuse()),
            Stage::Entries => Err(self.refuse()),
        }
    }

    /// The next key of a map; `None` where all pairs were read, and then nothing is consumed.
    ///
    /// `InvalidFormatCode` where it is null, whatever `K` is, else the refusals of `K`;
    /// `InvalidValue` before the descriptor, where the item is no map, where the value of the last
    /// key isn't read yet, or after a refusal. Each of them ends the access and its deserializer.
    pub fn next_key<K: Deserialize<R>>(&mut self, alloc: Global) -> Result<Option<K>, Error>
        ensures same_reference { self.new.de.ghost_name ≡ self.old.de.ghost_name }
        ensures stage { stage self.new ≡ stage self.old }
        ensures next { DescribedKey K.meaning R.buffers (stage self.old) (open_list self.old) result
            (open_list self.new) }
        ensures named { IfErr result (λ e. DescribedKeyNamed K.meaning R.buffers
            (stage self.old) (open_list self.old) (open_list self.new) e) }
    {
        match self.form {
            Stage::Entries => {
                if self.inner.left % 2 == 1 {
                    return Err(self.refuse());
                }
                match self.de.next_part::<NotNull<K>>(alloc, &mut self.inner) {
                    Ok(Some(NotNull(key))) => Ok(Some(key)),
                    Ok(None) => Ok(None),
                    Err(e) => Err(e),
                }
            }
            Stage::Before(_) => Err(self.refuse()),
            Stage::Elements => Err(self.refuse()),
        }
    }

    /// The value of the last key.
    ///
    /// The refusals are those of `V`, and `InvalidValue` before the descriptor, where the item is
    /// no map, where no key was read that has no value yet, or after a refusal. Each of them ends
    /// the access and its deserializer.
    pub fn next_value<V: Deserialize<R>>(&mut self, alloc: Global) -> Result<V, Error>
        ensures same_reference { self.new.de.ghost_name ≡ self.old.de.ghost_name }
        ensures stage { stage self.new ≡ stage self.old }
        ensures next { DescribedValue V.meaning R.buffers (stage self.old) (open_list self.old)
            result (open_list self.new) }
        ensures named { IfErr result (λ e. DescribedValueNamed V.meaning R.buffers
            (stage self.old) (open_list self.old) (open_list self.new) e) }
    {
        match self.form {
            Stage::Entries => {
                if self.inner.left % 2 == 0 {
                    return Err(self.refuse());
                }
                match self.de.next_part(alloc, &mut self.inner) {
                    Ok(Some(value)) => Ok(value),
                    // an odd number of parts isn't none
                    Ok(None) => Err(Error::InvalidValue),
                    Err(e) => Err(e),
                }
            }
            Stage::Before(_) => Err(self.refuse()),
            Stage::Elements => Err(self.refuse()),
        }
    }

    /// The next key and its value, as `next_key` and `next_value` one after the other; `None` where
    /// all pairs were read.
    pub fn next_entry<K: Deserialize<R>, V: Deserialize<R>>(
        &mut self,
        alloc: Global,
    ) -> Result<Option<(K, V)>, Error>
        ensures same_reference { self.new.de.ghost_name ≡ self.old.de.ghost_name }
        ensures stage { stage self.new ≡ stage self.old }
        ensures next { DescribedEntry K.meaning V.meaning R.buffers (stage self.old)
            (open_list self.old) result (open_list self.new) }
        ensures named { IfErr result (λ e. DescribedEntryNamed K.meaning V.meaning R.buffers
            (stage self.old) (open_list self.old) (open_list self.new) e) }
    {
        match self.next_key(alloc) {
            Ok(Some(key)) => match self.next_value(alloc) {
                Ok(value) => Ok(Some((key, value))),
                Err(e) => Err(e),
            },
            Ok(None) => Ok(None),
            Err(e) => Err(e),
        }
    }
}
