//! Types of one's own, by what reads them.

use crate::answer::Answer;
use crate::kind::Own;
use crate::text::text;
use own_types::{
    Accepted, Celsius, Colour, Data, Delivery, DeliveryState, Enumeration, Foo, Measurement, Note,
    Offer, Open, Pair, Priority, Properties, Reply, Selector, Sensor, Shipment, Station, Switch,
    Tags,
};
use serde_amqp::{Array, Deserialize, Deserializer, Read};
use std::alloc::Global;

/// A struct, or a tuple struct.
pub(crate) fn read<R: Read>(
    de: &mut Deserializer<R>,
    alloc: Global,
    of: Own,
) -> Result<Vec<u8>, Answer> {
    match of {
        Own::Foo => text(alloc, Foo::deserialize(alloc, de)),
        Own::Measurement => text(alloc, Measurement::deserialize(alloc, de)),
        Own::Celsius => text(alloc, Celsius::deserialize(alloc, de)),
        Own::Colour => text(alloc, Colour::deserialize(alloc, de)),
        _ => records(de, alloc, of),
    }
}

/// A struct of texts or pairs.
fn records<R: Read>(de: &mut Deserializer<R>, alloc: Global, of: Own) -> Result<Vec<u8>, Answer> {
    match of {
        Own::Note => text(alloc, Note::deserialize(alloc, de)),
        Own::Tags => text(alloc, Tags::deserialize(alloc, de)),
        Own::Pairs => text(
            alloc,
            <Pair<Pair<u32, Celsius>, Vec<Measurement>>>::deserialize(alloc, de),
        ),
        Own::ListTuple => text(
            alloc,
            <Vec<(Celsius, bool, String)>>::deserialize(alloc, de),
        ),
        _ => wide_record(de, alloc, of),
    }
}

/// A struct of many fields.
fn wide_record<R: Read>(
    de: &mut Deserializer<R>,
    alloc: Global,
    of: Own,
) -> Result<Vec<u8>, Answer> {
    match of {
        Own::Sensor => text(alloc, Sensor::deserialize(alloc, de)),
        Own::Reply => text(alloc, Reply::deserialize(alloc, de)),
        Own::Station => text(alloc, Station::deserialize(alloc, de)),
        Own::Delivery => text(alloc, Delivery::deserialize(alloc, de)),
        _ => array_of_records(de, alloc, of),
    }
}

/// A struct of arrays, or an array of structs.
fn array_of_records<R: Read>(
    de: &mut Deserializer<R>,
    alloc: Global,
    of: Own,
) -> Result<Vec<u8>, Answer> {
    match of {
        Own::Offer => text(alloc, Offer::deserialize(alloc, de)),
        Own::ArraySensor => text(alloc, <Array<Sensor>>::deserialize(alloc, de)),
        Own::ArrayCelsius => text(alloc, <Array<Celsius>>::deserialize(alloc, de)),
        Own::Priority => text(alloc, Priority::deserialize(alloc, de)),
        _ => described(de, alloc, of),
    }
}

/// A struct behind a descriptor.
fn described<R: Read>(de: &mut Deserializer<R>, alloc: Global, of: Own) -> Result<Vec<u8>, Answer> {
    match of {
        Own::Open => text(alloc, Open::deserialize(alloc, de)),
        Own::ArrayOpen => text(alloc, <Array<Open>>::deserialize(alloc, de)),
        Own::Properties => text(alloc, Properties::deserialize(alloc, de)),
        Own::Data => text(alloc, Data::deserialize(alloc, de)),
        Own::ArrayData => text(alloc, <Array<Data>>::deserialize(alloc, de)),
        Own::Selector => text(alloc, Selector::deserialize(alloc, de)),
        Own::Shipment => text(alloc, Shipment::deserialize(alloc, de)),
        _ => delivery_state(de, alloc, of),
    }
}

/// The state of a delivery.
fn delivery_state<R: Read>(
    de: &mut Deserializer<R>,
    alloc: Global,
    of: Own,
) -> Result<Vec<u8>, Answer> {
    match of {
        Own::Accepted => text(alloc, Accepted::deserialize(alloc, de)),
        Own::ArrayAccepted => text(alloc, <Array<Accepted>>::deserialize(alloc, de)),
        Own::DeliveryState => text(alloc, DeliveryState::deserialize(alloc, de)),
        _ => enumeration(de, alloc, of),
    }
}

/// An enum.
fn enumeration<R: Read>(
    de: &mut Deserializer<R>,
    alloc: Global,
    of: Own,
) -> Result<Vec<u8>, Answer> {
    match of {
        Own::Enumeration => text(alloc, Enumeration::deserialize(alloc, de)),
        Own::Switch => text(alloc, Switch::deserialize(alloc, de)),
        Own::ArrayEnumeration => text(alloc, <Array<Enumeration>>::deserialize(alloc, de)),
        Own::ArraySwitch => text(alloc, <Array<Switch>>::deserialize(alloc, de)),
        Own::ListOptionEnumeration => text(
            alloc,
            <Vec<Option<Enumeration>>>::deserialize(alloc, de),
        ),
        _ => Err(Answer::NoCase),
    }
}
