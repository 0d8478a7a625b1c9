//! Structs under a descriptor: what stands behind it, by the struct's name.

ghost use Rattle.std.specs.Prelude.{◌≡◌, IfOk, IfErr};
ghost use Rattle.amqp_base.specs.Codes.{Kind};
ghost use Rattle.amqp_base.specs.Describing.{kind_data};
ghost use Rattle.amqp_base.specs.Parse.{list_data, map_data};
ghost use Rattle.amqp_data.specs.Parts.{HasParts, HasPairs, shared_by};
ghost use Rattle.amqp_de.specs.Decoding.{stands_under};
ghost use Rattle.amqp_de.specs.DescribedStructs.{behind, one_left, PartsBehind, OpensBehind};
ghost use Rattle.amqp_de.specs.DescribedStructs.{NoneBehind, DescriptorRead, NoDescribed};
ghost use Rattle.amqp_de.specs.Seq.{at_open};
ghost use Rattle.amqp_types.specs.Descriptors.{descriptor_of};

use crate::Deserializer;
use crate::described_fields::is_list;
use crate::list::{Access, Open};
use crate::structs::is_map;
use amqp_base::Error;
use amqp_data::Constructor;
use amqp_read::Read;
use amqp_types::Descriptor;
use std::alloc::Global;
use std::mem;

/// What stands behind the descriptor of a struct, by its name.
#[derive(Clone, Copy)]
pub enum Encoding {
    /// `DESCRIBED_LIST`: a list of the fields.
    List,
    /// `DESCRIBED_MAP`: a map from their names.
    Map,
    /// `DESCRIBED_BASIC`: the only field by itself.
    Basic,
}

/// How far a struct under a descriptor was read.
#[derive(Clone, Copy)]
pub enum Stage {
    /// Its descriptor comes first.
    Before(Encoding),
    /// What is left are elements.
    Elements,
    /// What is left are keys and values.
    Entries,
}

/// The fields of a struct under a descriptor (part 1, section 1.2), which comes first.
pub type DescribedAccess<'a, R> = Access<'a, R, Stage>;

/// What is read behind the descriptor.
#[inline(always)]
pub(crate) fn behind(encoding: Encoding) -> Stage
    ensures { result ≡ behind encoding }
{
    match encoding {
        Encoding::List => Stage::Elements,
        Encoding::Map => Stage::Entries,
        Encoding::Basic => Stage::Elements,
    }
}

impl<R: Read> Deserializer<R> {
    /// Begins the list behind a descriptor.
    fn open_list_behind(&mut self, alloc: Global) -> Result<Open, Error>
        ensures ok { IfOk result (λ o.
            PartsBehind HasParts (kind_data Kind.list list_data) self.old (at_open self.new o)) }
        ensures err { IfErr result (λ e.
            NoneBehind Encoding.List R.buffers self.old self.new e) }
    {
        match self.deserialize_any() {
            Ok(code) => {
                if !is_list(code) {
                    self.stop();
                    return Err(Error::custom(alloc, "expected a list behind the descriptor"));
                }
                match self.open_list() {
                    Ok(open) => Ok(open),
                    Err(e) => Err(e),
                }
            }
            Err(e) => Err(e),
        }
    }

    /// Begins the map behind a descriptor.
    fn open_map_behind(&mut self, alloc: Global) -> Result<Open, Error>
        ensures ok { IfOk result (λ o.
            PartsBehind HasPairs (kind_data Kind.map map_data) self.old (at_open self.new o)) }
        ensures err { IfErr result (λ e.
            NoneBehind Encoding.Map R.buffers self.old self.new e) }
    {
        match self.deserialize_any() {
            Ok(code) => {
                if !is_map(code) {
                    self.stop();
                    return Err(Error::custom(alloc, "expected a map behind the descriptor"));
                }
                match self.open_pairs() {
                    Ok(open) => Ok(open),
                    Err(e) => Err(e),
                }
            }
            Err(e) => Err(e),
        }
    }

    /// The value behind a descriptor stands by itself: nothing is consumed.
    fn open_value(&mut self) -> Open
        requires { shared_by (stands_under self.old) ≡ 0 }
        ensures { at_open self.new result ≡ one_left self.old }
    {
        let inner = match &self.inherited {
            Constructor::Bare => Constructor::Bare,
            Constructor::Under(code) => Constructor::Under(*code),
            Constructor::UnderPair(_, code) => Constructor::Under(*code),
        };
        self.described = false;
        Open {
            left: 1,
            outer: mem::replace(&mut self.inherited, inner),
            limit: None,
        }
    }

    /// Begins what stands behind a descriptor.
    fn open_behind(&mut self, alloc: Global, encoding: Encoding) -> Result<Open, Error>
        requires { shared_by (stands_under self.old) ≡ 0 }
        ensures ok { IfOk result (λ o. OpensBehind encoding self.old (at_open self.new o)) }
        ensures err { IfErr result (λ e. NoneBehind encoding R.buffers self.old self.new e) }
    {
        match encoding {
            Encoding::List => match self.open_list_behind(alloc) {
                Ok(open) => Ok(open),
                Err(e) => Err(e),
            },
            Encoding::Map => match self.open_map_behind(alloc) {
                Ok(open) => Ok(open),
                Err(e) => Err(e),
            },
            Encoding::Basic => Ok(self.open_value()),
        }
    }

    /// The descriptor, and what stands behind it.
    pub(crate) fn open_described(
        &mut self,
        alloc: Global,
        encoding: Encoding,
    ) -> Result<(Descriptor, Open), Error>
        ensures ok { IfOk result (λ o.
            DescriptorRead encoding (descriptor_of o.0) self.old (at_open self.new o.1)) }
        ensures err { IfErr result (λ e. NoDescribed encoding R.buffers self.old self.new e) }
    {
        match self.deserialize_descriptor(alloc) {
            Ok(descriptor) => match self.open_behind(alloc, encoding) {
                Ok(open) => Ok((descriptor, open)),
                Err(e) => Err(e),
            },
            Err(e) => Err(e),
        }
    }
}
