//! Newtypes, which are nothing of their own on the wire.

ghost use Rattle.std.specs.Prelude.{IfErr, OnOk};
ghost use Rattle.amqp_ser.specs.Law.{Wrote, Refused, Stops};

use crate::{Serialize, Serializer};
use amqp_base::{Error, Sink};
use std::alloc::Global;

impl<W: Sink> Serializer<W> {
    /// Writes the value itself, as a newtype that holds it; `name` isn't written. It is refused as
    /// the value's own `serialize`.
    pub fn serialize_newtype_struct<T: Serialize>(
        &mut self,
        alloc: Global,
        name: &'static str,
        value: &T,
    ) -> Result<(), Error>
        ensures ok { OnOk result (Wrote self.old.state
            (T.meaning.item value.now self.old.state.setting) self.new.state) }
        ensures err { IfErr result (λ e. Refused self.old.state
            (T.meaning.item value.now self.old.state.setting) e self.new.state) }
        ensures stops { Stops self.old.state result self.new.state }
    {
        let _ = name;
        self.serialize_some(alloc, value)
    }
}
