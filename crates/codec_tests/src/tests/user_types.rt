//! Types of one's own, by the public contracts alone. What is read as one, and what isn't, are
//! lines of the stored runs; here stand the fields of those that are read.

use super::answer::Answer;
use super::bytes::{is_made_as, is_written_as};
use super::made::{list_of, string, strings};
use super::puts::puts_value;
use super::written::{By, Writes, writes_so};
use amqp_base::Sink;
use own_types::{Celsius, Colour, Foo, Measurement, Note, Pair, Priority, Tags, kept};
use serde_amqp::Serializer;
use std::alloc::Global;

const WEIGHT: &[u8] = b"\xc0\x0a\x02\x70\x00\x00\x01\x2c\xa1\x02kg";

const TAGS: &[u8] = b"\xc0\x07\x02\xa1\x01a\xa1\x01b";

const NOTE: &[u8] = b"\xc0\x05\x02\xa1\x01a\x40";

const COLOUR: &[u8] = b"\xc0\x07\x03\x50\x01\x50\x02\x50\xff";

/// A pair, and a list of the weight.
const PAIR: &[u8] =
    b"\xc0\x16\x02\xc0\x04\x02\x43\x54\x01\xc0\x0d\x01\xc0\x0a\x02\x70\x00\x00\x01\x2c\xa1\x02kg";

const FOO_LIST: &[u8] = b"\xc0\x04\x02\x52\x0d\x41";

const FOO_MAP: &[u8] = b"\xc1\x12\x04\xa1\x03bar\x52\x0d\xa1\x07is_fool\x41";

type Pairs = Pair<Pair<u32, Celsius>, Vec<Measurement>>;

/// Three hundred kilograms.
fn weight(alloc: Global) -> Option<Measurement> {
    match String::from_str(alloc, "kg") {
        Ok(unit) => Some(Measurement { amount: 300, unit }),
        Err(_) => None,
    }
}

/// A pair of numbers, and a list of the weight.
fn pairs(alloc: Global, only: Option<Measurement>) -> Option<Pairs> {
    let first = Pair {
        first: 0u32,
        second: Celsius(1),
    };
    match list_of(alloc, only) {
        Some(second) => Some(Pair { first, second }),
        None => None,
    }
}

/// A note without a number.
fn note(text: Option<String>) -> Option<Note> {
    match text {
        Some(text) => Some(Note { text, number: None }),
        None => None,
    }
}

/// Two tags.
fn tags(both: Option<Vec<String>>) -> Option<Tags> {
    match both {
        Some(both) => Some(Tags(both)),
        None => None,
    }
}

impl Writes for Foo {
    fn is_answered<W: Sink>(&self, alloc: Global, ser: &mut Serializer<W>) -> bool {
        puts_value(ser, alloc, self) == Answer::Taken
    }
}

#[test]
fn a_struct_is_written_as_a_list_or_a_map(rt: HostRuntime) {
    let alloc = rt.alloc();
    let foo = Foo {
        bar: 13,
        is_fool: true,
    };
    assert!(rt; is_written_as(alloc, &foo, FOO_LIST));
    assert!(rt; writes_so(alloc, By::DescribedMap, &foo, FOO_MAP));
    assert!(rt; is_written_as(alloc, &Colour(1, 2, 255), COLOUR));
    assert!(rt; is_written_as(alloc, &Celsius(-2), b"\x54\xfe"));
    assert!(rt; is_made_as(alloc, weight(alloc), WEIGHT));
    assert!(rt; is_made_as(alloc, pairs(alloc, weight(alloc)), PAIR));
    assert!(rt; is_made_as(alloc, note(string(alloc, "a")), NOTE));
    assert!(rt; is_made_as(alloc, tags(strings(alloc, &["a", "b"])), TAGS));
}

/// A sensor of two readings and a unit, and one without.
const SENSOR: &[u8] = b"\xc0\x0d\x03\x52\x07\xc0\x05\x02\x54\x01\x54\xff\xa3\x01C";

const EMPTY_SENSOR: &[u8] = b"\xc0\x04\x03\x43\x45\x40";

/// The first of them, the number of a question before it.
const REPLY: &[u8] =
    b"\xc0\x12\x02\x53\x05\xc0\x0d\x03\x52\x07\xc0\x05\x02\x54\x01\x54\xff\xa3\x01C";

const NO_SENSOR: &[u8] = b"\xc0\x04\x02\x53\x05\x40";

/// No heights, one name, no region, a count, a visit, a sensor, and a list of one.
const STATION: &[u8] = b"\xc0\x30\x07\x45\xc0\x04\x01\xa1\x01a\x40\
    \xc1\x06\x02\xa1\x01x\x52\x01\xc1\x05\x02\x52\x01\x53\x02\
    \xc0\x0d\x03\x52\x07\xc0\x05\x02\x54\x01\x54\xff\xa3\x01C\
    \xc0\x07\x01\xc0\x04\x03\x43\x45\x40";

const DELIVERY: &[u8] = b"\xc0\x1c\x0c\x52\x01\xa0\x01\xab\x43\x40\x41\x42\
    \x83\0\0\0\0\0\0\0\x01\x40\xa1\x01u\xa3\x01t\x40\x45";

/// The bytes are read as a sensor with this number and as many readings, and written again.
fn is_sensor(alloc: Global, bytes: &[u8], id: u32, readings: usize) -> bool {
    match kept::sensor_is_kept(alloc, bytes) {
        Ok(found) => {
            let same = found.id == id && found.readings.len() == readings;
            same && is_written_as(alloc, &found, bytes)
        }
        Err(_) => false,
    }
}

/// The bytes are read as a reply with a sensor or without, and written again.
fn is_reply(alloc: Global, bytes: &[u8], has_sensor: bool) -> bool {
    match kept::reply_is_kept(alloc, bytes) {
        Ok(found) => {
            let same = found.question == 5 && found.found.is_some() == has_sensor;
            same && is_written_as(alloc, &found, bytes)
        }
        Err(_) => false,
    }
}

/// The station is read with all its fields, and written again.
fn station_is_kept(alloc: Global) -> bool {
    match kept::station_is_kept(alloc, STATION) {
        Ok(found) => {
            let same = found.names.len() == 1 && found.sensors.len() == 1;
            same && found.counts.len() == 1 && is_written_as(alloc, &found, STATION)
        }
        Err(_) => false,
    }
}

/// The delivery is read with all its fields, and written again.
fn delivery_is_kept(alloc: Global) -> bool {
    match kept::delivery_is_kept(alloc, DELIVERY) {
        Ok(found) => {
            let same = found.delivery_number == 1 && found.is_settled && !found.more_follows;
            same && is_written_as(alloc, &found, DELIVERY)
        }
        Err(_) => false,
    }
}

/// Channels 1 and 256, capabilities `a` and `bc`, and limits 1 and -1.
const OFFER: &[u8] = b"\xc0\x23\x03\xe0\x0a\x02\x70\0\0\0\x01\0\0\x01\0\
    \xe0\x0d\x02\xb3\0\0\0\x01a\0\0\0\x02bc\xc0\x05\x02\x54\x01\x54\xff";

const EMPTY_OFFER: &[u8] = b"\xc0\x08\x03\xe0\x01\x00\xe0\x01\x00\x45";

/// One of each: a channel and a capability that stand alone, and a limit in an array.
const OFFER_OF_ONE: &[u8] = b"\xc0\x0b\x03\x52\x01\xa3\x01a\xe0\x03\x01\x54\x02";

/// The bytes are read as an offer with as many channels, capabilities and limits, and written as
/// these.
fn is_offer(alloc: Global, bytes: &[u8], counts: [usize; 3], written: &[u8]) -> bool {
    match kept::offer_is_kept(alloc, bytes) {
        Ok(found) => {
            let found_counts = [
                found.channels.len(),
                found.capabilities.len(),
                found.limits.len(),
            ];
            found_counts == counts && is_written_as(alloc, &found, written)
        }
        Err(_) => false,
    }
}

#[test]
fn arrays_are_fields(rt: HostRuntime) {
    let alloc = rt.alloc();
    assert!(rt; is_offer(alloc, OFFER, [2, 2, 2], OFFER));
    assert!(rt; is_offer(alloc, EMPTY_OFFER, [0, 0, 0], EMPTY_OFFER));
    let of_one =
        b"\xc0\x17\x03\xe0\x06\x01\x70\0\0\0\x01\xe0\x07\x01\xb3\0\0\0\x01a\xc0\x03\x01\x54\x02";
    assert!(rt; is_offer(alloc, OFFER_OF_ONE, [1, 1, 1], of_one));
}

#[test]
fn an_enumeration_over_ubyte_has_its_own_numbers(rt: HostRuntime) {
    let alloc = rt.alloc();
    assert!(rt; is_written_as(alloc, &Priority::Low, b"\x50\x00"));
    assert!(rt; is_written_as(alloc, &Priority::Normal, b"\x50\x01"));
    assert!(rt; is_written_as(alloc, &Priority::High, b"\x50\x02"));
}

#[test]
fn structs_of_many_fields_are_read_and_written(rt: HostRuntime) {
    let alloc = rt.alloc();
    assert!(rt; is_sensor(alloc, SENSOR, 7, 2));
    assert!(rt; is_sensor(alloc, EMPTY_SENSOR, 0, 0));
    assert!(rt; is_reply(alloc, REPLY, true));
    assert!(rt; is_reply(alloc, NO_SENSOR, false));
    assert!(rt; station_is_kept(alloc));
    assert!(rt; delivery_is_kept(alloc));
}
