//! A value is measured, and then written once.

ghost use Rattle.std.specs.Prelude.{◌≡◌, ◌<◌, ◌⊎◌, Some, IfOk, IfErr, IsTrue};
ghost use Rattle.amqp_base.specs.Canon.{canon};
ghost use Rattle.amqp_ser.specs.Texts.{HasNoText};
ghost use Rattle.amqp_ser.specs.Passes.{IsMeasureOf, HasLength, NoSize};

use crate::{Serialize, Serializer};
use amqp_base::{Error, Setting};
use amqp_write::{Measure, Plan, Reserved, Sizes};
use std::alloc::Global;
use std::io::ErrorKind;

/// What the value's text takes: its length, and the sizes of the compounds in it.
#[doc(hidden)]
#[inline(always)]
pub fn measure<T: Serialize>(alloc: Global, value: &T) -> Result<Measure, Error>
    ensures ok { IfOk result (λ m. IsMeasureOf (T.meaning.item value.now Setting.Plain) m) }
    ensures err { IfErr result (λ e.
        (e ≡ Error.OutOfMemory) ⊎ HasNoText (T.meaning.item value.now Setting.Plain) e) }
{
    let mut ser = Serializer::new(Measure {
        length: 0,
        sizes: Sizes::new(alloc),
    });
    ser.place.direct = true;
    match value.serialize(alloc, &mut ser) {
        Ok(()) => {}
        Err(e) => return Err(e),
    }
    let Serializer {
        writer: Measure { length, sizes },
        place: _,
    } = ser;
    Ok(Measure {
        length: length.min(usize::MAX),
        sizes,
    })
}

/// The number of bytes of the value's canonical text, without writing it: what `measured_vec`
/// gives is so long.
///
/// `InvalidValue`: the value has no text, as an array in it has elements under different
/// constructors. `Io(Other)`: a payload or a body has more than 4,294,967,291 bytes, or the whole
/// text 18,446,744,073,709,551,615 or more. `OutOfMemory`: there is no memory for the sizes of the
/// lists, maps and arrays in it.
pub fn measured_size<T: Serialize>(alloc: Global, value: &T) -> Result<usize, Error>
    ensures ok { IfOk result (λ n. HasLength (canon (T.meaning.item value.now Setting.Plain)) n) }
    ensures err { IfErr result (λ e.
        (e ≡ Error.OutOfMemory) ⊎ NoSize (T.meaning.item value.now Setting.Plain) e) }
{
    let measure = match measure(alloc, value) {
        Ok(measure) => measure,
        Err(e) => return Err(e),
    };
    if measure.length == usize::MAX {
        return Err(Error::Io(ErrorKind::Other));
    }
    Ok(measure.length)
}

/// The value's canonical text, written once into a vector with room for all of it: the value is
/// measured first, so the heap is asked once for the text, and otherwise for the sizes of the
/// lists, maps and arrays in it alone, where there are more than four.
///
/// It is refused as `measured_size` is, and as `OutOfMemory` where there is no room, also for a
/// text too long to be counted.
pub fn measured_vec<T: Serialize>(alloc: Global, value: &T) -> Result<Vec<u8>, Error>
    ensures ok { IfOk result (λ v.
        canon (T.meaning.item value.now Setting.Plain) ≡ Some v.items) }
    ensures err { IfErr result (λ e.
        (e ≡ Error.OutOfMemory) ⊎ HasNoText (T.meaning.item value.now Setting.Plain) e) }
{
    let measure = match measure(alloc, value) {
        Ok(measure) => measure,
        Err(e) => return Err(e),
    };
    write_measured(alloc, value, measure)
}

/// Whether the value's text is known to have more bytes than so many: a value that writes more than
/// was measured of it finds no room, which is no want of memory. It is written to a vector that
/// grows, as another measuring would be a second caller of the first's code.
#[cold]
#[inline(never)]
fn is_longer<T: Serialize>(alloc: Global, value: &T, length: usize) -> bool
    ensures { IsTrue result → (m : Measure) →
        IsMeasureOf (T.meaning.item value.now Setting.Plain) m → length < m.length }
{
    let mut ser = Serializer::new(Vec::new(alloc));
    match value.serialize(alloc, &mut ser) {
        Ok(()) => ser.into_inner().len() > length,
        Err(_) => false,
    }
}

/// The value's canonical text, written once behind the sizes that were measured of it.
///
/// `OutOfMemory`: there is no room. `InvalidValue`: the sizes of another value were measured.
#[doc(hidden)]
#[inline(always)]
pub fn write_measured<T: Serialize>(
    alloc: Global,
    value: &T,
    measure: Measure,
) -> Result<Vec<u8>, Error>
    ensures ok { IfOk result (λ v.
        canon (T.meaning.item value.now Setting.Plain) ≡ Some v.items) }
    ensures err { IfErr result (λ e.
        IsMeasureOf (T.meaning.item value.now Setting.Plain) measure →
        e ≡ Error.OutOfMemory) }
{
    let Measure { length, sizes } = measure;
    if length == usize::MAX {
        return Err(Error::OutOfMemory);
    }
    let out = match Reserved::with_room(alloc, length) {
        Ok(out) => out,
        Err(_) => return Err(Error::OutOfMemory),
    };
    let mut ser = Serializer::new(Plan {
        out,
        sizes,
        next: 0,
    });
    ser.place.direct = true;
    match value.serialize(alloc, &mut ser) {
        Ok(()) => {}
        Err(e) => {
            if is_longer(alloc, value, length) {
                return Err(Error::InvalidValue);
            }
            return Err(e);
        }
    }
    let Serializer {
        writer: Plan {
            out: Reserved { bytes },
            sizes: _,
            next: _,
        },
        place: _,
    } = ser;
    Ok(bytes)
}
