//! Structs behind a descriptor, all fields at once.

ghost use Rattle.std.specs.Prelude.{◌≡◌, false, IsTrue, OnOk, IfErr, Err, ◌&&◌};
ghost use Rattle.amqp_types.specs.Descriptors.{descriptor_of};
ghost use Rattle.amqp_ser.specs.Law.{Wrote, Refused, Stops};
ghost use Rattle.amqp_ser.specs.Describing.{described_struct, is_body_name, body_setting};

use crate::answer::answer;
use crate::structs::is_name;
use crate::{Serialize, Serializer, Struct, StructFields};
use amqp_base::{DESCRIBED_LIST, DESCRIBED_MAP, Error, Setting, Sink, Typed};
use amqp_types::Descriptor;
use amqp_write::{Refusal, refused};
use std::alloc::Global;

/// The fields of a struct as the value behind its descriptor.
#[derive(Drop)]
struct Body<'a, F: StructFields> {
    fields: &'a F,
    /// Whether they are a map from their names to their values, else they are a list.
    map: bool,
    ghost usual: { IsTrue (F.usual fields.now) },
}

impl<F: StructFields> Typed for Body<'_, F> {
    ghost use Rattle.amqp_ser.specs.Describing.{written_of, body_item};

    ghost meaning = { written_of (λ b. body_item b.map (F.items b.fields.now)) };
}

/// The setting under which a struct is a map, or a list.
#[inline(always)]
fn body_setting(map: bool) -> Setting
    ensures { result ≡ body_setting map }
{
    if map {
        Setting::DescribedMap
    } else {
        Setting::Plain
    }
}

impl<F: StructFields> Serialize for Body<'_, F> {
    #[inline(always)]
    fn serialize<W: Sink>(&self, alloc: Global, ser: &mut Serializer<W>) -> Result<(), Error> {
        let setting = ser.setting();
        ser.set_setting(body_setting(self.map));
        match ser.write_struct(alloc, "", self.fields) {
            Ok(()) => {
                ser.set_setting(setting);
                Ok(())
            }
            Err(e) => Err(e),
        }
    }
}

impl<W: Sink> Serializer<W> {
    /// Writes a struct behind a descriptor, all its fields at once: under the name `DESCRIBED_LIST`
    /// as a list of them (section 1.6.22), under `DESCRIBED_MAP` as a map from their names to their
    /// values (section 1.6.23). In an array of such structs 00 and the descriptor stand in front of
    /// the first one's code alone.
    ///
    /// It is refused as a field's own `serialize`. `Io(Other)`: the descriptor is longer than
    /// 4,294,967,291 bytes, or the fields are. `InvalidValue`: the struct has another name, or a
    /// field the name `DESCRIPTOR`; or the array that it is to stand in has elements without a
    /// descriptor, behind another descriptor, or under another constructor. `OutOfMemory`: a first
    /// element's descriptor finds no memory to be kept.
    #[inline(always)]
    pub fn serialize_described_fields<F: StructFields>(
        &mut self,
        alloc: Global,
        descriptor: &Descriptor,
        whole: &Struct<'_, F>,
    ) -> Result<(), Error>
        ensures ok { OnOk result (Wrote self.old.state
            (described_struct (descriptor_of descriptor.now) whole.now.name.now
            (F.items whole.now.fields)) self.new.state) }
        ensures err { IsTrue (is_body_name whole.now.name.now) →
            IsTrue (F.usual whole.now.fields) → IfErr result (λ e. Refused self.old.state
            (described_struct (descriptor_of descriptor.now) whole.now.name.now
            (F.items whole.now.fields)) e self.new.state) }
        ensures uncalled { (is_body_name whole.now.name.now && F.usual whole.now.fields)
            ≡ false → result ≡ Err Error.InvalidValue }
        ensures stops { Stops self.old.state result self.new.state }
    {
        if self.has_ended() {
            return Err(refused(Refusal::InvalidValue));
        }
        if whole.fields.has_descriptor() {
            self.set_ended(true);
            return Err(refused(Refusal::InvalidValue));
        }
        let map = is_name(whole.name, DESCRIBED_MAP);
        if map || is_name(whole.name, DESCRIBED_LIST) {
            let fields = &whole.fields;
            answer!(self.serialize_described(alloc, descriptor, &Body { fields, map }));
        }
        self.set_ended(true);
        Err(refused(Refusal::InvalidValue))
    }
}

/// Writes a struct behind a descriptor by its fields, as a list: `write_described!(ser, alloc,
/// self, &Descriptor::Code(0x10), Open { container_id, hostname })` calls
/// `Serializer::serialize_described_fields` with the fields of `self` in this order, named as
/// `write_fields!` names them. A struct may have none: `Accepted {}`.
#[macro_export]
macro_rules! write_described {
    ($ser:expr, $alloc:expr, $of:expr, $descriptor:expr, $name:ident {
        $($field:ident $(: $key:literal)?),* $(,)?
    } $(,)?) => {
        $ser.serialize_described_fields($alloc, $descriptor, &$crate::Struct {
            name: $crate::DESCRIBED_LIST,
            fields: $crate::write_fields!(@fields $of; $($field $(: $key)?),*),
        })
    };
}
