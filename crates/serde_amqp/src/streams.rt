//! Whole values from a source, and into a sink.

ghost use Rattle.std.specs.Prelude.{◌≡◌, IfOk, IfErr, OnOk};
ghost use Rattle.amqp_base.specs.Faults.{Extends};
ghost use Rattle.amqp_base.specs.declared.shape.Setting.{Setting};
ghost use Rattle.serde_amqp.specs.Streams.{given, TakenFrom, AnswersAll, RefusedOf, Leaves};
ghost use Rattle.serde_amqp.specs.Streams.{HasText, NotPut};

use crate::{Deserialize, Deserializer, Error, IoReader, Serialize, Serializer, Sink, Source};
use std::alloc::Global;

/// The value at the front of what `source` gives. Just its bytes are taken, however the source cuts
/// them: those behind it are still in the source, so that the next call reads the next value.
///
/// Refused where no item stands there that the type takes, as `from_slice` refuses it. Beside that
/// it may be `OutOfMemory`; a fault of the source, by its kind, where the source has counted one;
/// and `Io(Other)` where a source has 2^64 bytes or more, which can't be counted. After a fault, of
/// kind `Interrupted` too, the source isn't asked again. The bytes that were received before a
/// refusal are gone; who wants them back reads by a `Deserializer` over an `IoReader`.
pub fn from_reader<S: Source, T: Deserialize<IoReader<S>>>(
    alloc: Global,
    source: &mut S,
) -> Result<T, Error>
    ensures found { IfOk result (λ v.
        TakenFrom T.meaning v (S.remaining source.old) (S.remaining source.new)) }
    ensures only { AnswersAll T.meaning (given S.Read S.FaultCount S.is_honest source.old)
        (given S.Read S.FaultCount S.is_honest source.new) result }
    ensures named { IfErr result (λ e. RefusedOf T.meaning
        (given S.Read S.FaultCount S.is_honest source.old)
        (given S.Read S.FaultCount S.is_honest source.new) e) }
    ensures left { Leaves (given S.Read S.FaultCount S.is_honest source.old)
        (given S.Read S.FaultCount S.is_honest source.new) }
    ensures origin { S.origin source.new ≡ S.origin source.old }
{
    core::mem::replace_with(source, alloc, |taken, alloc| {
        let (result, left) = read_one::<S, T>(alloc, taken);
        (left, result)
    })
}

/// The value at the front of what the source gives, and the source behind it.
fn read_one<S: Source, T: Deserialize<IoReader<S>>>(
    alloc: Global,
    source: S,
) -> (Result<T, Error>, S)
    ensures found { IfOk result.0 (λ v.
        TakenFrom T.meaning v (S.remaining source) (S.remaining result.1)) }
    ensures only { AnswersAll T.meaning (given S.Read S.FaultCount S.is_honest source)
        (given S.Read S.FaultCount S.is_honest result.1) result.0 }
    ensures named { IfErr result.0 (λ e. RefusedOf T.meaning
        (given S.Read S.FaultCount S.is_honest source)
        (given S.Read S.FaultCount S.is_honest result.1) e) }
    ensures left { Leaves (given S.Read S.FaultCount S.is_honest source)
        (given S.Read S.FaultCount S.is_honest result.1) }
    ensures origin { S.origin result.1 ≡ S.origin source }
{
    let mut de = Deserializer::new(IoReader::new(alloc, source));
    let result = T::deserialize(alloc, &mut de);
    (result, de.into_reader().into_inner())
}

/// Appends the canonical text of the value to `sink`. What stood in `sink` stays in front of what
/// it holds, whatever is answered.
///
/// Refused where the value's item has no text, as `to_vec` refuses it. Beside that it may be a
/// fault of the sink, by its kind, where the sink has counted one, and `OutOfMemory`: the parts of
/// a list, a map or an array are kept until their size is known. After a fault, of kind
/// `Interrupted` too, the sink isn't asked again. A refusal may have appended a part of the text;
/// who wants none of it writes into a vector first, by `to_vec`.
pub fn to_writer<T: Serialize, W: Sink>(alloc: Global, value: &T, sink: &mut W) -> Result<(), Error>
    ensures ok { OnOk result (HasText (T.meaning.item value.now Setting.Plain)
        (W.contents sink.old) (W.contents sink.new)) }
    ensures err { IfErr result (λ e. NotPut (T.meaning.item value.now Setting.Plain)
        (W.last_fault sink.new) (W.faults sink.old) (W.faults sink.new) e) }
    ensures kept { Extends (W.contents sink.old) (W.contents sink.new) }
{
    core::mem::replace_with(sink, (alloc, value), |taken, (alloc, value)| {
        let (result, left) = write_one::<T, W>(alloc, value, taken);
        (left, result)
    })
}

/// Appends the canonical text of the value to the sink, and gives the sink behind it.
fn write_one<T: Serialize, W: Sink>(alloc: Global, value: &T, sink: W) -> (Result<(), Error>, W)
    ensures ok { OnOk result.0 (HasText (T.meaning.item value.now Setting.Plain)
        (W.contents sink) (W.contents result.1)) }
    ensures err { IfErr result.0 (λ e. NotPut (T.meaning.item value.now Setting.Plain)
        (W.last_fault result.1) (W.faults sink) (W.faults result.1) e) }
    ensures kept { Extends (W.contents sink) (W.contents result.1) }
{
    let mut ser = Serializer::new(sink);
    let result = value.serialize(alloc, &mut ser);
    (result, ser.into_inner())
}
