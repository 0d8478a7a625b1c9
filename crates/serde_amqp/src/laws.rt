//! What holds of all bytes and of all values: the laws of the wire, and of the two whole calls.

ghost use Rattle.serde_amqp.specs.Headline.{Kept};
ghost use Rattle.serde_amqp.specs.Streams.{Agree, AgreeBehind};

pub use amqp_base::laws::{
    canon_front, canon_one, canon_shortest, canon_strict, cut_short, items_bounded,
    items_bounded_plain, one_front, raw_agrees, round_trip, round_trip_always, same_entries,
};
use amqp_base::{RoundTrip, Typed};

/// What `to_vec` wrote for a sound value is read by `from_slice` as the same value, or the answer
/// is `OutOfMemory`, where reading the type takes memory; where no list, array or map in it is
/// above the cap.
pub fn kept<T: RoundTrip>()
    ensures { Kept T.meaning }
{}

/// `from_slice` and `from_reader` answer the same of the same bytes: the same value, or both are
/// refused; but one of them may be `OutOfMemory`. The source is in memory: it tells its bytes,
/// which can be counted, gives at least one of them a read until its end, and answers no fault.
/// Behind a value it has left what `from_slice_with_rest` lends (`behind`).
pub fn readers_agree<T: Typed>()
    ensures answers { Agree T.meaning }
    ensures behind { AgreeBehind T.meaning }
{}
