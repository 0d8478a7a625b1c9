//! Described values.

ghost use Rattle.std.specs.Prelude.{◌≡◌, false, true, None, Some, OnOk, OnErr, IfErr};
ghost use Rattle.amqp_base.specs.Canon.{descriptor_text};
ghost use Rattle.amqp_base.specs.Item.{described};
ghost use Rattle.amqp_base.specs.Wire.{under_pair};
ghost use Rattle.amqp_types.specs.Descriptors.{descriptor_of};
ghost use Rattle.amqp_ser.specs.State.{first};
ghost use Rattle.amqp_ser.specs.Law.{Wrote, Refused, Stops};
ghost use Rattle.amqp_ser.specs.Describing.{IsOwn, StandsAs, WroteBehind, RefusesAbsent};
ghost use Rattle.amqp_ser.specs.Describing.{by_descriptor, why_undescribed, WritesDescriptor};
ghost use Rattle.amqp_base.specs.declared.error.Error.TheVariants.{Io, OutOfMemory};
ghost use Rattle.std.specs.declared.io.ErrorKind.TheVariants.{Other};
ghost use Rattle.amqp_write.specs.declared.described.Behind.TheVariants.{Another};

use crate::answer::answer;
use crate::{Serialize, Serializer};
use amqp_base::{EncodingCodes, Error, Setting, Sink};
use amqp_types::{Described, Descriptor};
use amqp_write::{Behind, Constructor, Mark, Refusal, is_too_long, refused};
use std::alloc::Global;
use std::io::ErrorKind;

/// The refusal of a value whose descriptor isn't written with it: a descriptor that is too long
/// comes first.
fn named(e: Error, descriptor: &Descriptor) -> Error
    ensures value { result ≡ by_descriptor (descriptor_of descriptor.now) e }
    ensures long { descriptor_text (descriptor_of descriptor.now) ≡ None →
        why_undescribed (descriptor_of descriptor.now) ≡ Io Other }
{
    let long = is_too_long(descriptor);
    match e {
        Error::InvalidValue => {
            if long {
                Error::from(ErrorKind::Other)
            } else {
                Error::InvalidValue
            }
        }
        e => e,
    }
}

impl<W: Sink> Serializer<W> {
    /// Writes a value behind a descriptor: 00, the descriptor, and the value (section 1.2). In an
    /// array of such values 00 and the descriptor stand in front of the first one's code alone.
    ///
    /// It is refused as the value's own `serialize`. `Io(Other)`: the descriptor is longer than
    /// 4,294,967,291 bytes. `InvalidValue`: the array that it is to stand in has elements without a
    /// descriptor, behind another descriptor, or under another constructor; or its value is
    /// described, too. `OutOfMemory`: a first element's descriptor finds no memory to be kept.
    #[inline(always)]
    pub fn serialize_described<T: Serialize>(
        &mut self,
        alloc: Global,
        descriptor: &Descriptor,
        value: &T,
    ) -> Result<(), Error>
        ensures ok { OnOk result (Wrote self.old.state (described (descriptor_of descriptor.now)
            (T.meaning.item value.now Setting.DescribedBasic)) self.new.state) }
        ensures err { IfErr result (λ e. Refused self.old.state
            (described (descriptor_of descriptor.now)
            (T.meaning.item value.now Setting.DescribedBasic)) e self.new.state) }
        ensures stops { Stops self.old.state result self.new.state }
    {
        if self.has_ended() {
            return Err(refused(Refusal::InvalidValue));
        }
        match self.stands_behind(descriptor) {
            Behind::Alone => answer!(self.behind(alloc, descriptor, value)),
            Behind::First => self.described_first(alloc, descriptor, value),
            Behind::Another(code) => self.described_again(alloc, code, descriptor, value),
            Behind::Nowhere => Err(self.described_nowhere(alloc, descriptor, value)),
        }
    }

    /// Writes 00 and a descriptor (section 1.2): no whole item, since the value that it describes
    /// is to be written next, and nothing else. It takes no memory of its own.
    ///
    /// `Io(Other)`: the descriptor is longer than 4,294,967,291 bytes. `InvalidValue`: it is to
    /// stand in an array, where a value is written with its descriptor by `Described`.
    pub fn serialize_descriptor(
        &mut self,
        alloc: Global,
        descriptor: &Descriptor,
    ) -> Result<(), Error>
        ensures { WritesDescriptor self.old.state
            (descriptor_of descriptor.now) result self.new.state }
    {
        let _ = alloc;
        if self.place.ended {
            return Err(refused(Refusal::InvalidValue));
        }
        match self.place.mark {
            Mark::Unmarked => answer!(self.place.descriptor(&mut self.writer, descriptor), refused),
            _ => {
                self.place.ended = true;
                Err(refused(Refusal::InvalidValue))
            }
        }
    }

    /// Where a value behind this descriptor is to stand.
    #[inline(always)]
    pub(crate) fn stands_behind(&self, descriptor: &Descriptor) -> Behind
        ensures { StandsAs self.now.state.mark (descriptor_of descriptor.now) result }
    {
        self.place.behind(descriptor)
    }

    /// 00, the descriptor, and the value, which stands where the whole is to stand.
    #[inline(always)]
    fn behind<T: Serialize>(
        &mut self,
        alloc: Global,
        descriptor: &Descriptor,
        value: &T,
    ) -> Result<(), Error>
        requires answers { self.old.state.ended ≡ false }
        requires own { IsOwn self.old.state.mark }
        ensures ok { OnOk result (WroteBehind self.old.state
            (descriptor_of descriptor.now) (T.meaning.item value.now Setting.DescribedBasic)
            self.new.state) }
        ensures err { IfErr result (λ e. Refused self.old.state
            (described (descriptor_of descriptor.now)
            (T.meaning.item value.now Setting.DescribedBasic)) e self.new.state) }
        ensures ended { OnErr result (self.new.state.ended ≡ true) }
    {
        let setting = self.setting();
        match self.put_descriptor(descriptor) {
            Ok(()) => {}
            Err(e) => return Err(e),
        }
        match value.serialize(alloc, self) {
            Ok(()) => {
                self.set_setting(setting);
                Ok(())
            }
            Err(e) => {
                self.set_ended(true);
                Err(e)
            }
        }
    }

    /// The first element of an array of described values.
    fn described_first<T: Serialize>(
        &mut self,
        alloc: Global,
        descriptor: &Descriptor,
        value: &T,
    ) -> Result<(), Error>
        requires answers { self.old.state.ended ≡ false }
        requires marked { self.old.state.mark ≡ first }
        ensures ok { OnOk result (Wrote self.old.state (described (descriptor_of descriptor.now)
            (T.meaning.item value.now Setting.DescribedBasic)) self.new.state) }
        ensures err { IfErr result (λ e. Refused self.old.state
            (described (descriptor_of descriptor.now)
            (T.meaning.item value.now Setting.DescribedBasic)) e self.new.state) }
        ensures ended { OnErr result (self.new.state.ended ≡ true) }
    {
        match self.behind(alloc, descriptor, value) {
            Ok(()) => {}
            Err(e) => return Err(e),
        }
        match self.place.found {
            Some(constructor) => match constructor {
                Constructor::Under(code) => answer!(self.keep(alloc, code, descriptor)),
                Constructor::UnderPair(_) => Err(self.described_nowhere(alloc, descriptor, value)),
            },
            None => Err(self.described_nowhere(alloc, descriptor, value)),
        }
    }

    /// The last first element stands behind this descriptor.
    #[inline(always)]
    fn keep(
        &mut self,
        alloc: Global,
        code: EncodingCodes,
        descriptor: &Descriptor,
    ) -> Result<(), Error>
        requires marked { self.old.state.mark ≡ first }
        ensures ok { OnOk result (self.new.state ≡ record self.old.state {
          found = Some (under_pair (descriptor_of descriptor.now) code);
        }) }
        ensures err { IfErr result (λ e. e ≡ OutOfMemory) }
        ensures ended { OnErr result (self.new.state ≡ record self.old.state { ended = true }) }
    {
        match descriptor.clone(alloc) {
            Ok(own) => {
                self.place.found = Some(Constructor::UnderPair(code));
                self.place.descriptor = Some(own);
                Ok(())
            }
            Err(e) => {
                self.set_ended(true);
                Err(e)
            }
        }
    }

    /// A further element of an array of values behind the same descriptor: the value alone.
    fn described_again<T: Serialize>(
        &mut self,
        alloc: Global,
        code: EncodingCodes,
        descriptor: &Descriptor,
        value: &T,
    ) -> Result<(), Error>
        requires answers { self.old.state.ended ≡ false }
        requires stands { StandsAs self.old.state.mark
            (descriptor_of descriptor.now) (Another code) }
        ensures ok { OnOk result (Wrote self.old.state (described (descriptor_of descriptor.now)
            (T.meaning.item value.now Setting.DescribedBasic)) self.new.state) }
        ensures err { IfErr result (λ e. Refused self.old.state
            (described (descriptor_of descriptor.now)
            (T.meaning.item value.now Setting.DescribedBasic)) e self.new.state) }
        ensures ended { OnErr result (self.new.state.ended ≡ true) }
    {
        let outer = self.set_aside(
            Setting::DescribedBasic,
            Mark::Other(Constructor::Under(code)),
        );
        match value.serialize(alloc, self) {
            Ok(()) => {
                self.restore(outer);
                Ok(())
            }
            Err(e) => {
                self.set_ended(true);
                Err(named(e, descriptor))
            }
        }
    }

    /// The refusal where no described value can stand.
    #[cold]
    #[inline(never)]
    fn described_nowhere<T: Serialize>(
        &mut self,
        alloc: Global,
        descriptor: &Descriptor,
        value: &T,
    ) -> Error
        requires answers { self.old.state.ended ≡ false }
        ensures law { RefusesAbsent self.old.state (described (descriptor_of descriptor.now)
            (T.meaning.item value.now Setting.DescribedBasic)) result self.new.state }
        ensures ended { self.new.state.ended ≡ true }
    {
        self.unmark();
        match self.behind(alloc, descriptor, value) {
            Ok(()) => {
                self.set_ended(true);
                refused(Refusal::InvalidValue)
            }
            Err(e) => e,
        }
    }
}

/// 00, the descriptor, and the value under the described basic setting.
impl<T: Serialize> Serialize for Described<T> {
    #[inline(always)]
    fn serialize<W: Sink>(&self, alloc: Global, ser: &mut Serializer<W>) -> Result<(), Error> {
        answer!(ser.serialize_described(alloc, &self.descriptor, &self.value))
    }
}
