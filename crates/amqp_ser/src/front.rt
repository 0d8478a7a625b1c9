//! What stands in front of a value that is written behind a descriptor, part by part.

ghost use Rattle.std.specs.Prelude.{◌≡◌, false, true, IfOk, IfErr, OnOk, OnErr};
ghost use Rattle.amqp_base.specs.Item.{Item, described};
ghost use Rattle.amqp_types.specs.Descriptors.{descriptor_of};
ghost use Rattle.amqp_ser.specs.Law.{Refused, Kept};
ghost use Rattle.amqp_ser.specs.Describing.{IsOwn};
ghost use Rattle.amqp_ser.specs.Front.{PutsFront, Stands, long_first, renamed, ClosesFront};

use crate::Serializer;
use crate::compound::Outer;
use amqp_base::{Error, Setting, Sink};
use amqp_types::Descriptor;
use amqp_write::{Behind, Constructor, Mark, Refusal, is_too_long, refused};
use std::alloc::Global;
use std::io::ErrorKind;

/// Where a descriptor stands whose value is being written, and what the serializer is to have again
/// behind the value.
#[derive(Drop)]
pub(crate) enum Front {
    /// Outside arrays; the setting.
    Alone(Setting),
    /// In front of an array's first element; the setting, and the descriptor, which further ones
    /// share.
    First(Setting, Descriptor),
    /// Not again: in front of a further element. What was set aside, and whether the descriptor is
    /// too long to be written.
    Again(Outer, bool),
    /// In an array of other elements, where nothing can stand behind it.
    Nowhere,
}

/// A descriptor that is too long comes first.
#[cold]
#[inline(never)]
fn long_first(e: Error) -> Error
    ensures { result ≡ long_first e }
{
    match e {
        Error::InvalidValue => Error::from(ErrorKind::Other),
        e => e,
    }
}

impl Front {
    /// The refusal of the whole whose value was refused so.
    pub(crate) fn renamed(&self, e: Error) -> Error
        ensures { result ≡ renamed self.now e }
    {
        match self {
            Front::Again(_, long) => { if *long { long_first(e) } else { e } }
            Front::Alone(_) => e,
            Front::First(_, _) => e,
            Front::Nowhere => e,
        }
    }
}

impl<W: Sink> Serializer<W> {
    /// Writes what is to stand in front of a value behind this descriptor; the value is written
    /// next.
    ///
    /// `Io(Other)`: the descriptor is longer than 4,294,967,291 bytes. `OutOfMemory`: that of a
    /// first element finds no memory to be kept.
    pub(crate) fn put_front(
        &mut self,
        alloc: Global,
        descriptor: &Descriptor,
    ) -> Result<Front, Error>
        requires answers { self.old.state.ended ≡ false }
        ensures ok { IfOk result (λ f. Stands self.old.state
            (descriptor_of descriptor.now) f self.new.state) }
        ensures err { IfErr result (λ e. (v : Item) → Refused self.old.state
            (described (descriptor_of descriptor.now) v) e self.new.state) }
    {
        let setting = self.setting();
        match self.stands_behind(descriptor) {
            Behind::Alone => match self.put_descriptor(descriptor) {
                Ok(()) => Ok(Front::Alone(setting)),
                Err(e) => Err(e),
            },
            Behind::First => match descriptor.clone(alloc) {
                Ok(own) => match self.put_descriptor(descriptor) {
                    Ok(()) => Ok(Front::First(setting, own)),
                    Err(e) => Err(e),
                },
                Err(e) => Err(e),
            },
            Behind::Another(code) => {
                let long = is_too_long(descriptor);
                let outer = self.set_aside(
                    Setting::DescribedBasic,
                    Mark::Other(Constructor::Under(code)),
                );
                Ok(Front::Again(outer, long))
            }
            Behind::Nowhere => {
                self.unmark();
                match self.put_descriptor(descriptor) {
                    Ok(()) => Ok(Front::Nowhere),
                    Err(e) => Err(e),
                }
            }
        }
    }

    /// Writes 00 and a descriptor where an item with its own constructor is to stand.
    #[inline(always)]
    pub(crate) fn put_descriptor(&mut self, descriptor: &Descriptor) -> Result<(), Error>
        requires answers { self.old.state.ended ≡ false }
        requires own { IsOwn self.old.state.mark }
        ensures ok { OnOk result (PutsFront self.old.state
            (descriptor_of descriptor.now) self.new.state) }
        ensures err { IfErr result (λ e. (v : Item) → Refused self.old.state
            (described (descriptor_of descriptor.now) v) e self.new.state) }
        ensures ended { OnErr result (self.new.state.ended ≡ true) }
    {
        let mark = self.place.mark;
        self.place.mark = Mark::Unmarked;
        match self.place.descriptor(&mut self.writer, descriptor) {
            Ok(()) => {}
            Err(e) => return Err(refused(e)),
        }
        self.place.mark = mark;
        self.place.setting = Setting::DescribedBasic;
        Ok(())
    }

    /// The value behind the descriptor was written. The serializer is as it is to be behind the
    /// whole.
    ///
    /// `InvalidValue`: no value behind this descriptor can stand here.
    pub(crate) fn close_front(&mut self, front: Front) -> Result<(), Error>
        ensures law { ClosesFront front self.old.state result self.new.state }
        ensures kept { Kept self.old.state self.new.state }
        ensures ended { OnErr result (self.new.state.ended ≡ true) }
    {
        match front {
            Front::Alone(setting) => {
                self.place.setting = setting;
                Ok(())
            }
            Front::First(setting, own) => match self.place.found {
                Some(Constructor::Under(code)) => {
                    self.place.setting = setting;
                    self.place.mark = Mark::First;
                    self.place.found = Some(Constructor::UnderPair(code));
                    self.place.descriptor = Some(own);
                    Ok(())
                }
                // no compound is described itself
                _ => {
                    self.place.ended = true;
                    Err(refused(Refusal::InvalidValue))
                }
            },
            Front::Again(outer, _) => {
                self.restore(outer);
                Ok(())
            }
            Front::Nowhere => {
                self.place.ended = true;
                Err(refused(Refusal::InvalidValue))
            }
        }
    }
}
