//! Values that may be missing.

ghost use Rattle.std.specs.Prelude.{IfErr, OnOk};
ghost use Rattle.amqp_base.specs.Item.{scalar, null};
ghost use Rattle.amqp_ser.specs.Law.{Writes, Wrote, Refused, Stops};

use crate::answer::answer;
use crate::{Serialize, Serializer};
use amqp_base::{Error, Sink};
use amqp_write::{Refusal, refused};
use std::alloc::Global;

impl<W: Sink> Serializer<W> {
    /// Writes null (section 1.6.1), as an option that holds nothing. It takes no memory of its own.
    ///
    /// `InvalidValue`: it is to stand in an array, whose elements can't be null.
    #[inline(always)]
    pub fn serialize_none(&mut self, alloc: Global) -> Result<(), Error>
        ensures { Writes self.old.state (scalar null) result self.new.state }
    {
        answer!(self.serialize_unit(alloc))
    }

    /// Writes the value itself, as an option that holds it. It is refused as the value's own
    /// `serialize`.
    #[inline(always)]
    pub fn serialize_some<T: Serialize>(&mut self, alloc: Global, value: &T) -> Result<(), Error>
        ensures ok { OnOk result (Wrote self.old.state
            (T.meaning.item value.now self.old.state.setting) self.new.state) }
        ensures err { IfErr result (λ e. Refused self.old.state
            (T.meaning.item value.now self.old.state.setting) e self.new.state) }
        ensures stops { Stops self.old.state result self.new.state }
    {
        if self.has_ended() {
            return Err(refused(Refusal::InvalidValue));
        }
        match value.serialize(alloc, self) {
            Ok(()) => return Ok(()),
            Err(e) => {
                self.set_ended(true);
                return Err(e);
            }
        }
    }
}

/// Null where there is no value, else the value itself.
impl<T: Serialize> Serialize for Option<T> {
    #[inline(always)]
    fn serialize<W: Sink>(&self, alloc: Global, ser: &mut Serializer<W>) -> Result<(), Error> {
        match self {
            None => answer!(ser.serialize_none(alloc)),
            Some(value) => answer!(ser.serialize_some(alloc, value)),
        }
    }
}
