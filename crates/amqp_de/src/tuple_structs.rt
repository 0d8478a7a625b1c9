//! Tuple structs: lists of just so many fields, or what stands under a descriptor.

ghost use Rattle.std.specs.Prelude.{◌≡◌, IfOk};
ghost use Rattle.std.specs.Borrow.{sem, RestsIfErr};
ghost use Rattle.amqp_de.specs.Forms.{struct_lender, row_encoding, NamedRow, TupleStructOpened};
ghost use Rattle.amqp_de.specs.Forms.{RefusesRow};
ghost use Rattle.amqp_de.specs.contracts.deserializer.Deserializer.{the_row};

use crate::described_structs::{Encoding, Stage};
use crate::list::{Access, Elements, Open};
use crate::structs::unread;
use crate::{Deserializer, StructAccess};
use amqp_base::{DESCRIBED_BASIC, DESCRIBED_LIST, Error};
use amqp_read::Read;
use std::alloc::Global;

/// What was opened: a list of the fields, or what stands behind a descriptor, which wasn't read
/// yet.
#[derive(Drop)]
pub(crate) enum OpenedRow {
    Plain(Open),
    Described(Encoding),
}

/// What stands behind the descriptor of a tuple struct of this name, if one does: never a map.
#[inline(always)]
fn encoding_of(name: &'static str) -> Option<Encoding>
    ensures { result ≡ row_encoding name.now }
{
    if name == DESCRIBED_LIST {
        return Some(Encoding::List);
    }
    if name == DESCRIBED_BASIC {
        return Some(Encoding::Basic);
    }
    None
}

impl<R: Read> Deserializer<R> {
    /// The form of a tuple struct, by its name.
    fn open_row(&mut self, name: &'static str, len: usize) -> Result<OpenedRow, Error>
        ensures ok { IfOk result (λ o. NamedRow name.now len self.old self.new o) }
        ensures err { RefusesRow name.now len R.buffers self.old result self.new }
    {
        match encoding_of(name) {
            Some(encoding) => match self.look_described() {
                Ok(()) => Ok(OpenedRow::Described(encoding)),
                Err(e) => Err(e),
            },
            None => match self.open_tuple(len) {
                Ok(row) => Ok(OpenedRow::Plain(row)),
                Err(e) => Err(e),
            },
        }
    }

    /// Opens a tuple struct: a list of `len` fields (part 1, section 1.6.22). Its code, size and
    /// count are consumed. Under the names `DESCRIBED_LIST` and `DESCRIBED_BASIC` an item with a
    /// descriptor (section 1.2): nothing is consumed, `len` isn't looked at, and the descriptor
    /// comes first.
    ///
    /// The refusals of `deserialize_tuple`; under those names `Io(UnexpectedEof)` where there is no
    /// byte, `InvalidFormatCode` where it is no described item's. A refusal ends the deserializer.
    pub fn deserialize_tuple_struct(
        &mut self,
        alloc: Global,
        name: &'static str,
        len: usize,
    ) -> Result<StructAccess<'_, R>, Error>
        ensures* refused { sem 𝓛 (RestsIfErr (the_row R.row R.Read) self.entry (λ a.
            (struct_lender a).ghost_name) result (λ last.
            RefusesRow name.now len R.buffers self.old result last)) }
        ensures same_reference { IfOk result (λ a.
            (struct_lender a).ghost_name ≡ self.entry.ghost_name) }
        ensures opened { IfOk result (λ a. TupleStructOpened name.now len self.old a) }
    {
        let _ = alloc;
        match self.open_row(name, len) {
            Ok(OpenedRow::Plain(row)) => Ok(StructAccess::List(Access {
                de: self,
                inner: row,
                form: Elements,
            })),
            Ok(OpenedRow::Described(encoding)) => Ok(StructAccess::Described(Access {
                de: self,
                inner: unread(),
                form: Stage::Before(encoding),
            })),
            Err(e) => Err(e),
        }
    }
}
